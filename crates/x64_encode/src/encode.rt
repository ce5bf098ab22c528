//! What can be encoded, by a line of whatever table.

ghost use Rattle.std.specs.Prelude.{◌≡◌, ◌≤◌, ◌↔◌, ℕ, ℤ, true, Option, None, IsTrue, OnOk, OnErr, IfErr, IsOk};
ghost use Rattle.cax64_encoder.specs.EncodeError.{fault_found, IfRefused, NotRefused, OnFault};
ghost use Rattle.cax64_encoder.specs.Instruction.{Adds, Leaves};
ghost use Rattle.cax64_encoder.specs.Notices.{memory_notices};
ghost use Rattle.cax64_machine_code.specs.Sequence.{IsFront};
ghost use Rattle.cax64_sink.specs.Keeps.{Keeps};
ghost use Rattle.cax64_sink.specs.Room.{HasRoom, FallsBy};
ghost use Rattle.cax64_sink.specs.Sink.{State};
ghost use Rattle.x64_encode.specs.ByLine.{adds_from, leaves_from, row_adds, row_leaves};
ghost use Rattle.x64_encode.specs.Encode.{AddsMeant, LeavesMeant, LineMeant, ReadsRelativeBy, SamePut, by_line, can_encode_by, fault_by, len_by, notices_by};

use cax64_encoder::{EncodeError, Fault, Instruction, RoomNeeded};
use cax64_register::{AsReg, Registers};
use cax64_sink::{CodeSink, SinkError};

/// What can be encoded, by a line of whatever table. What takes instructions of any kind asks for this: a code buffer, a list,
/// the least layout. Each [`Instruction`] is one, and so is a type that has lines of its own.
///
/// Its methods are those of [`Instruction`], and a type that has both names the trait where it calls one.
pub trait Encode {
    /// The registers of its memory operand.
    type Base: AsReg;

    // What it means, for the offsets that a sink knows.
    ghost line_meant: { Self → (ℕ → Option ℤ) → LineMeant Self.Base };

    // What a sink has got of it, and what it has where it refused.
    ghost adds: { Self → State → State → Type 0 };

    ghost leaves: { Self → State → State → Type 0 };

    /// Why it can't be encoded for this sink: the first register, in the order of visits, that isn't as it has to be, or else
    /// the late offset. `None` where it can.
    fn first_fault<S: CodeSink>(&self, sink: &S) -> Option<Fault>
        ensures fault { result ≡ fault_by (S.state sink.now) (line_meant self.now) }
        ensures none { (result ≡ None) ↔ IsTrue (can_encode_by (S.state sink.now) (line_meant self.now)) };

    /// Whether every register operand, base and index is real, every fixed register holds its number, no index is the stack
    /// pointer, and a late offset is known to the sink with a sum that is an `i32`.
    fn is_encodable<S: CodeSink>(&self, sink: &S) -> bool
        ensures { result ≡ can_encode_by (S.state sink.now) (line_meant self.now) };

    /// The number of bytes that `encode` adds, 1 to 13.
    ///
    /// It has to be encodable for the sink, as [`is_encodable`](Self::is_encodable) tells. Where it isn't, a build that wasn't
    /// proved may answer any number, or abort.
    fn encoded_len<S: CodeSink>(&self, sink: &S) -> u8
        requires { IsTrue (can_encode_by (S.state sink.now) (line_meant self.now)) }
        ensures value { result ≡ len_by (S.state sink.now) (line_meant self.now) }
        ensures least { 1 ≤ result }
        ensures most { result ≤ 13 };

    /// The number of notices that `encode` tells the sink of, 0 or 1: of a trap, or of a target.
    fn notice_count(&self) -> u8
        ensures { (offsets : ℕ → Option ℤ) → result ≡ memory_notices (line_meant self.now offsets).memory };

    /// The room that `encode` takes: the numbers of `encoded_len` and of `notice_count`, both at once.
    ///
    /// It has to be encodable for the sink, as [`is_encodable`](Self::is_encodable) tells. Where it isn't, a build that wasn't
    /// proved may answer any numbers, or abort.
    fn room_needed<S: CodeSink>(&self, sink: &S) -> RoomNeeded
        requires { IsTrue (can_encode_by (S.state sink.now) (line_meant self.now)) }
        ensures bytes { result.bytes ≡ len_by (S.state sink.now) (line_meant self.now) }
        ensures notices { result.notices ≡ notices_by (S.state sink.now) (line_meant self.now) }
        ensures least { 1 ≤ result.bytes }
        ensures most { result.bytes ≤ 13 }
    {
        RoomNeeded {
            bytes: self.encoded_len(sink),
            notices: self.notice_count(),
        }
    }

    /// Puts the machine code, and tells the sink of a trap or a target.
    ///
    /// It has to be encodable for the sink, as [`is_encodable`](Self::is_encodable) tells. Where it isn't, a build that wasn't
    /// proved may put a wrong instruction and answer Ok, or abort. [`encode_checked`](Self::encode_checked) tests first, and
    /// has no condition.
    fn encode<S: CodeSink>(&self, sink: &mut S) -> Result<(), SinkError>
        requires { IsTrue (can_encode_by (S.state sink.old) (line_meant self.now)) }
        ensures adds { OnOk result (adds self.now (S.state sink.old) (S.state sink.new)) }
        ensures leaves { OnErr result (leaves self.now (S.state sink.old) (S.state sink.new)) }
        ensures front { IsFront (S.state sink.old).bytes (S.state sink.new).bytes }
        ensures error { IfErr result (λ e. (S.state sink.old).answers e ≡ true) }
        ensures keeps { Keeps (S.state sink.old) (S.state sink.new) }
        ensures beside { S.may_become sink.old sink.new }
        ensures enough { HasRoom (S.state sink.old).byte_room 13 → HasRoom (S.state sink.old).notice_room 1 → IsOk result }
        ensures room { HasRoom (S.state sink.old).byte_room (len_by (S.state sink.old) (line_meant self.now)) → HasRoom (S.state sink.old).notice_room (notices_by (S.state sink.old) (line_meant self.now)) → IsOk result }
        ensures byte_room { FallsBy (S.state sink.old).byte_room (S.state sink.new).byte_room (len_by (S.state sink.old) (line_meant self.now)) }
        ensures notice_room { FallsBy (S.state sink.old).notice_room (S.state sink.new).notice_room (notices_by (S.state sink.old) (line_meant self.now)) }
        ensures most { len_by (S.state sink.old) (line_meant self.now) ≤ 13 }
        ensures relative { ReadsRelativeBy (line_meant self.now (S.state sink.old).offsets) };

    /// Tests it and puts it: what `first_fault` gives, and where that is `None` what `encode` does.
    ///
    /// At a fault nothing is put or told, and the sink is as before. A refusal of the sink leaves what `encode` leaves.
    fn encode_checked<S: CodeSink>(&self, sink: &mut S) -> Result<(), EncodeError>
        ensures fault { fault_found result ≡ fault_by (S.state sink.old) (line_meant self.now) }
        ensures unchanged { OnFault result (sink.new ≡ sink.old) }
        ensures adds { OnOk result (adds self.now (S.state sink.old) (S.state sink.new)) }
        ensures leaves { IfRefused result (λ _. leaves self.now (S.state sink.old) (S.state sink.new)) }
        ensures front { IsFront (S.state sink.old).bytes (S.state sink.new).bytes }
        ensures error { IfRefused result (λ e. (S.state sink.old).answers e ≡ true) }
        ensures keeps { Keeps (S.state sink.old) (S.state sink.new) }
        ensures beside { S.may_become sink.old sink.new }
        ensures enough { HasRoom (S.state sink.old).byte_room 13 → HasRoom (S.state sink.old).notice_room 1 → NotRefused result }
        ensures room { HasRoom (S.state sink.old).byte_room (len_by (S.state sink.old) (line_meant self.now)) → HasRoom (S.state sink.old).notice_room (notices_by (S.state sink.old) (line_meant self.now)) → NotRefused result }
        ensures byte_room { FallsBy (S.state sink.old).byte_room (S.state sink.new).byte_room (len_by (S.state sink.old) (line_meant self.now)) }
        ensures notice_room { FallsBy (S.state sink.old).notice_room (S.state sink.new).notice_room (notices_by (S.state sink.old) (line_meant self.now)) }
        ensures relative { OnOk result (ReadsRelativeBy (line_meant self.now (S.state sink.old).offsets)) }
    {
        if let Some(fault) = self.first_fault(&*sink) {
            return Err(EncodeError::Fault(fault));
        }
        match self.encode(sink) {
            Ok(()) => Ok(()),
            Err(error) => Err(EncodeError::Sink(error)),
        }
    }

    // What a sink has got is what any line's instruction puts, and it doesn't depend on the sink's rooms.
    ghost adds_meant: { (i : Self) (s t : State) → adds i s t → AddsMeant (line_meant i s.offsets) s t };

    ghost leaves_meant: { (i : Self) (s t : State) → leaves i s t → LeavesMeant (line_meant i s.offsets) s t };

    ghost adds_from: { (i : Self) (s u t : State) → SamePut s u → adds i u t → adds i s t };

    ghost leaves_from: { (i : Self) (s u t : State) → SamePut s u → leaves i u t → leaves i s t };
}

impl<I: Instruction> Encode for I {
    type Base = <I::Family as Registers>::ReadGpr;

    ghost line_meant = { λ i offsets. by_line (I.meant i offsets) };

    ghost adds = { λ i. Adds (I.meant i) };

    ghost leaves = { λ i. Leaves (I.meant i) };

    ghost adds_meant = { λ i s t h. row_adds (I.meant i s.offsets) s t h };

    ghost leaves_meant = { λ i s t h. row_leaves (I.meant i s.offsets) s t h };

    ghost adds_from = { λ i s u t same h. adds_from (I.meant i) s u t same h };

    ghost leaves_from = { λ i s u t same h. leaves_from (I.meant i) s u t same h };

    #[inline(always)]
    fn first_fault<S: CodeSink>(&self, sink: &S) -> Option<Fault> {
        Instruction::first_fault(self, sink)
    }

    #[inline(always)]
    fn is_encodable<S: CodeSink>(&self, sink: &S) -> bool {
        Instruction::is_encodable(self, sink)
    }

    #[inline(always)]
    fn encoded_len<S: CodeSink>(&self, sink: &S) -> u8 {
        Instruction::encoded_len(self, sink)
    }

    #[inline(always)]
    fn notice_count(&self) -> u8 {
        Instruction::notice_count(self)
    }

    #[inline(always)]
    fn room_needed<S: CodeSink>(&self, sink: &S) -> RoomNeeded {
        Instruction::room_needed(self, sink)
    }

    #[inline(always)]
    fn encode<S: CodeSink>(&self, sink: &mut S) -> Result<(), SinkError> {
        Instruction::encode(self, sink)
    }

    #[inline(always)]
    fn encode_checked<S: CodeSink>(&self, sink: &mut S) -> Result<(), EncodeError> {
        Instruction::encode_checked(self, sink)
    }
}
