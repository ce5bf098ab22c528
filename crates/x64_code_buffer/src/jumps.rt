//! Jumps and calls that are put into a buffer: by a number, or to a label, a constant, or a position that isn't known yet.

ghost use Rattle.std.specs.Prelude.{◌≡◌, pos, ℕ, List, None, OnOk, OnErr, IfErr, IfSome, IsOk, IsSome, length};
ghost use Rattle.cax64_machine_code.specs.Len.{len_of};
ghost use Rattle.cax64_machine_code.specs.Rows.{line_of};
ghost use Rattle.cax64_machine_code.specs.declared.reading.Reading.{Reading};
ghost use Rattle.cax64_sink.specs.Keeps.{Keeps};
ghost use Rattle.cax64_sink.specs.Room.{HasRoom, FallsBy};
ghost use Rattle.cax64_sink.specs.declared.SinkError.{SinkError};

use crate::buffer::CodeBuffer;
use crate::jump::Jump;
use crate::room::make_room;
use cax64_sink::{DeferredTarget, SinkError};
use std::alloc::Allocator;

impl<A: Allocator> CodeBuffer<A> {
    ghost use Rattle.x64_code_buffer.specs.Binding.{SamePlaces};
    ghost use Rattle.x64_code_buffer.specs.Buffer.{AsBefore, StaysFilled, buffer_state, label_count, label_room, places_of};
    ghost use Rattle.x64_code_buffer.specs.Filled.{Filled, FilledOn};
    ghost use Rattle.x64_code_buffer.specs.Laid.{Laid, LaidOn, Piece, open_jump, whole};
    ghost use Rattle.x64_code_buffer.specs.Jump.{AddsAt, AddsJump, AddsNear, jump_len, jump_notices, jump_parts, long_row, near_distance, short_row};

    /// Puts the form of a jump or a call that has four bytes of distance, which are 0 until [`finish`](Self::finish) patches
    /// them, and tells of the use of its target at these. A target of `None` leaves them 0: the notice says where they are.
    /// (Intel SDM, volume 2, `CALL`, `JMP` and `Jcc`.)
    ///
    /// It makes room first, as [`push`](Self::push) does, so a refusal leaves all as it was but the rooms.
    pub fn push_long_jump(&mut self, jump: Jump, target: DeferredTarget) -> Result<(), SinkError>
        ensures adds { OnOk result (AddsJump jump target (buffer_state self.old) (buffer_state self.new)) }
        ensures unchanged { OnErr result (AsBefore (buffer_state self.old) (buffer_state self.new)) }
        ensures error { IfErr result (λ e. e ≡ SinkError.NoMemory) }
        ensures enough { HasRoom (buffer_state self.old).byte_room 13 → HasRoom (buffer_state self.old).notice_room 1 → IsOk result }
        ensures byte_room { FallsBy (buffer_state self.old).byte_room (buffer_state self.new).byte_room (len_of (jump_parts (long_row jump) (pos 0))) }
        ensures notice_room { FallsBy (buffer_state self.old).notice_room (buffer_state self.new).notice_room 1 }
        ensures keeps { Keeps (buffer_state self.old) (buffer_state self.new) }
        ensures labels { label_count self.new ≡ label_count self.old }
        ensures label_room { label_room self.new ≡ label_room self.old }
        ensures places { SamePlaces (places_of self.old) (places_of self.new) }
        ensures laid { (pieces : List Piece) → Laid pieces (length (buffer_state self.old).bytes) (buffer_state self.old) (places_of self.old) → OnOk result (LaidOn open_jump (jump_parts (line_of (long_row jump)) (pos 0)) pieces (buffer_state self.new) (places_of self.new)) }
        ensures refused { OnErr result (StaysFilled self.old self.new) }
    {
        make_room(&mut self.recorder, &mut self.is_fresh)?;
        jump.long_code(Some(target), 0).put(&mut self.recorder)
    }

    /// Puts the form of a jump or a call that has four bytes of distance, by a number, which counts from its end. No target is
    /// told. It makes room first, as [`push`](Self::push) does. (Intel SDM, volume 2, `CALL`, `JMP` and `Jcc`.)
    pub fn push_far(&mut self, jump: Jump, distance: i32) -> Result<(), SinkError>
        ensures adds { OnOk result (AddsAt (long_row jump) distance (buffer_state self.old) (buffer_state self.new)) }
        ensures unchanged { OnErr result (AsBefore (buffer_state self.old) (buffer_state self.new)) }
        ensures error { IfErr result (λ e. e ≡ SinkError.NoMemory) }
        ensures enough { HasRoom (buffer_state self.old).byte_room 13 → HasRoom (buffer_state self.old).notice_room 1 → IsOk result }
        ensures byte_room { FallsBy (buffer_state self.old).byte_room (buffer_state self.new).byte_room (len_of (jump_parts (long_row jump) distance)) }
        ensures notice_room { FallsBy (buffer_state self.old).notice_room (buffer_state self.new).notice_room 0 }
        ensures keeps { Keeps (buffer_state self.old) (buffer_state self.new) }
        ensures labels { label_count self.new ≡ label_count self.old }
        ensures label_room { label_room self.new ≡ label_room self.old }
        ensures places { SamePlaces (places_of self.old) (places_of self.new) }
        ensures filled { (readings : List Reading) → Filled readings (length (buffer_state self.old).bytes) (buffer_state self.old) (places_of self.old) → OnOk result (FilledOn (jump_parts (long_row jump) distance) readings (buffer_state self.new) (places_of self.new)) }
        ensures laid { (pieces : List Piece) → Laid pieces (length (buffer_state self.old).bytes) (buffer_state self.old) (places_of self.old) → OnOk result (LaidOn whole (jump_parts (line_of (long_row jump)) distance) pieces (buffer_state self.new) (places_of self.new)) }
        ensures refused { OnErr result (StaysFilled self.old self.new) }
    {
        make_room(&mut self.recorder, &mut self.is_fresh)?;
        jump.long_code(None, distance).put(&mut self.recorder)
    }

    /// Puts the form of a jump that has one byte of distance, by a number, which counts from its end. No target is told. It
    /// makes room first, as [`push`](Self::push) does. (Intel SDM, volume 2, `JMP` and `Jcc`.)
    ///
    /// The jump has to have such a form, as [`has_short`](Jump::has_short) tells. Where it hasn't, a build that wasn't
    /// proved may put a wrong instruction.
    pub fn push_near(&mut self, jump: Jump, distance: i8) -> Result<(), SinkError>
        requires { IsSome (short_row jump) }
        ensures adds { OnOk result (AddsNear jump distance (buffer_state self.old) (buffer_state self.new)) }
        ensures unchanged { OnErr result (AsBefore (buffer_state self.old) (buffer_state self.new)) }
        ensures error { IfErr result (λ e. e ≡ SinkError.NoMemory) }
        ensures enough { HasRoom (buffer_state self.old).byte_room 13 → HasRoom (buffer_state self.old).notice_room 1 → IsOk result }
        ensures byte_room { FallsBy (buffer_state self.old).byte_room (buffer_state self.new).byte_room 2 }
        ensures notice_room { FallsBy (buffer_state self.old).notice_room (buffer_state self.new).notice_room 0 }
        ensures keeps { Keeps (buffer_state self.old) (buffer_state self.new) }
        ensures labels { label_count self.new ≡ label_count self.old }
        ensures label_room { label_room self.new ≡ label_room self.old }
        ensures places { SamePlaces (places_of self.old) (places_of self.new) }
        ensures filled { (readings : List Reading) → Filled readings (length (buffer_state self.old).bytes) (buffer_state self.old) (places_of self.old) → OnOk result (IfSome (short_row jump) (λ row. FilledOn (jump_parts row distance) readings (buffer_state self.new) (places_of self.new))) }
        ensures laid { (pieces : List Piece) → Laid pieces (length (buffer_state self.old).bytes) (buffer_state self.old) (places_of self.old) → OnOk result (IfSome (short_row jump) (λ row. LaidOn whole (jump_parts (line_of row) distance) pieces (buffer_state self.new) (places_of self.new))) }
        ensures refused { OnErr result (StaysFilled self.old self.new) }
    {
        make_room(&mut self.recorder, &mut self.is_fresh)?;
        jump.short_code(distance).put(&mut self.recorder)
    }

    /// Puts a jump or a call to a target: in two bytes where the target is bound already and these reach it, exactly -128 to
    /// 127 bytes from the jump's end, and else as [`push_long_jump`](Self::push_long_jump) does. (Intel SDM, volume 2,
    /// `CALL`, `JMP` and `Jcc`.)
    pub fn push_jump(&mut self, jump: Jump, target: DeferredTarget) -> Result<(), SinkError>
        ensures near { IfSome (near_distance jump (places_of self.old target) (length (buffer_state self.old).bytes)) (λ d. OnOk result (AddsNear jump d (buffer_state self.old) (buffer_state self.new))) }
        ensures far { near_distance jump (places_of self.old target) (length (buffer_state self.old).bytes) ≡ None → OnOk result (AddsJump jump target (buffer_state self.old) (buffer_state self.new)) }
        ensures unchanged { OnErr result (AsBefore (buffer_state self.old) (buffer_state self.new)) }
        ensures error { IfErr result (λ e. e ≡ SinkError.NoMemory) }
        ensures enough { HasRoom (buffer_state self.old).byte_room 13 → HasRoom (buffer_state self.old).notice_room 1 → IsOk result }
        ensures byte_room { FallsBy (buffer_state self.old).byte_room (buffer_state self.new).byte_room (jump_len jump (near_distance jump (places_of self.old target) (length (buffer_state self.old).bytes))) }
        ensures notice_room { FallsBy (buffer_state self.old).notice_room (buffer_state self.new).notice_room (jump_notices (near_distance jump (places_of self.old target) (length (buffer_state self.old).bytes))) }
        ensures keeps { Keeps (buffer_state self.old) (buffer_state self.new) }
        ensures labels { label_count self.new ≡ label_count self.old }
        ensures label_room { label_room self.new ≡ label_room self.old }
        ensures places { SamePlaces (places_of self.old) (places_of self.new) }
        ensures filled { (readings : List Reading) → Filled readings (length (buffer_state self.old).bytes) (buffer_state self.old) (places_of self.old) → IfSome (near_distance jump (places_of self.old target) (length (buffer_state self.old).bytes)) (λ d. OnOk result (IfSome (short_row jump) (λ row. FilledOn (jump_parts row d) readings (buffer_state self.new) (places_of self.new)))) }
        ensures laid_near { (pieces : List Piece) → Laid pieces (length (buffer_state self.old).bytes) (buffer_state self.old) (places_of self.old) → IfSome (near_distance jump (places_of self.old target) (length (buffer_state self.old).bytes)) (λ d. OnOk result (IfSome (short_row jump) (λ row. LaidOn whole (jump_parts (line_of row) d) pieces (buffer_state self.new) (places_of self.new)))) }
        ensures laid_far { (pieces : List Piece) → Laid pieces (length (buffer_state self.old).bytes) (buffer_state self.old) (places_of self.old) → near_distance jump (places_of self.old target) (length (buffer_state self.old).bytes) ≡ None → OnOk result (LaidOn open_jump (jump_parts (line_of (long_row jump)) (pos 0)) pieces (buffer_state self.new) (places_of self.new)) }
        ensures refused { OnErr result (StaysFilled self.old self.new) }
    {
        let here = self.bytes().len();
        match jump.near_distance(self.place_of(target), here) {
            Some(distance) => self.push_near(jump, distance),
            None => self.push_long_jump(jump, target),
        }
    }
}
