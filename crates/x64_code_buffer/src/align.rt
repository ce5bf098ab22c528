//! A buffer that is filled up to a multiple with no-operations.

ghost use Rattle.std.specs.Prelude.{◌≡◌, ◌<◌, ◌≤◌, ◌+◌, ◌*◌, ◌%◌, ◌^◌, List, MatchOption, OnOk, OnErr, IfErr, IsOk, length, replicate};
ghost use Rattle.cax64_encoder.specs.Nop.{nop_bytes};
ghost use Rattle.cax64_machine_code.specs.declared.reading.Reading.{Reading};
ghost use Rattle.cax64_sink.specs.Keeps.{Keeps};
ghost use Rattle.cax64_sink.specs.Recorder.{recorder_state};
ghost use Rattle.cax64_sink.specs.Room.{HasRoom, FallsBy};
ghost use Rattle.cax64_sink.specs.declared.SinkError.{SinkError};
ghost use Rattle.cax64_operand.specs.declared.nop.Nop.TheVariants.{Nine};
ghost use Rattle.x64_code_buffer.specs.Padding.{AddsPadding, PutsPadding, missing_to, nops_bytes};
ghost use Rattle.x64_code_buffer.specs.Put.{PutsBytes};

use crate::buffer::CodeBuffer;
use cax64_encoder::nop::nop_code;
use cax64_operand::Nop;
use cax64_sink::{Recorder, SinkError};
use std::alloc::Allocator;

/// How many bytes are missing to the next multiple of a number.
fn missing_to(len: usize, size: usize) -> usize
    requires { 1 ≤ size }
    ensures { result ≡ missing_to len size }
{
    let over = len % size;
    if over == 0 { 0 } else { size - over }
}

/// The no-operation of so many bytes, up to eight; none of none.
fn nop_of(len: usize) -> Option<Nop>
    requires { len < 9 }
    ensures { MatchOption result (len ≡ 0) (λ nop. length (nop_bytes nop) ≡ len) }
{
    match len {
        0 => None,
        1 => Some(Nop::One),
        2 => Some(Nop::Two),
        3 => Some(Nop::Three),
        4 => Some(Nop::Four),
        5 => Some(Nop::Five),
        6 => Some(Nop::Six),
        7 => Some(Nop::Seven),
        _ => Some(Nop::Eight),
    }
}

/// Puts a no-operation for which there is room.
fn put_nop<A: Allocator>(recorder: &mut Recorder<A>, nop: Nop)
    requires { HasRoom (recorder_state recorder.old).byte_room (length (nop_bytes nop)) }
    ensures { PutsBytes (nop_bytes nop) (recorder_state recorder.old) (recorder_state recorder.new) }
{
    nop_code(nop).put(recorder).unwrap();
}

/// Puts so many no-operations of nine bytes, for which there is room.
fn put_nines<A: Allocator>(recorder: &mut Recorder<A>, count: usize)
    requires { HasRoom (recorder_state recorder.old).byte_room (9 * count) }
    ensures { PutsBytes (nops_bytes (replicate count Nine)) (recorder_state recorder.old) (recorder_state recorder.new) }
{
    for _nine in 0..count {
        put_nop(recorder, Nop::Nine);
    }
}

/// Puts so many bytes of no-operations, for which there is room.
fn put_padding<A: Allocator>(recorder: &mut Recorder<A>, len: usize)
    requires { HasRoom (recorder_state recorder.old).byte_room len }
    ensures { PutsPadding len (recorder_state recorder.old) (recorder_state recorder.new) }
{
    put_nines(recorder, len / 9);
    if let Some(nop) = nop_of(len % 9) {
        put_nop(recorder, nop);
    }
}

impl<A: Allocator> CodeBuffer<A> {
    ghost use Rattle.x64_code_buffer.specs.Binding.{SamePlaces};
    ghost use Rattle.x64_code_buffer.specs.Buffer.{AsBefore, StaysFilled, buffer_state, label_count, label_room, places_of};
    ghost use Rattle.x64_code_buffer.specs.Filled.{Filled};
    ghost use Rattle.x64_code_buffer.specs.Laid.{Laid, Piece};
    ghost use Rattle.x64_code_buffer.specs.Padding.{FilledUp, LaidUp};

    /// Fills up to the next multiple of 2 to the power with as few no-operations as there can be: of nine bytes, and one of
    /// the rest. Where the number of bytes is a multiple already, nothing is put.
    ///
    /// It makes room for them first, as [`reserve`](Self::reserve) does, so a refusal leaves all as it was but the rooms.
    ///
    /// The power has to be below 64. Where it isn't, a build that wasn't proved may fill up to another multiple, or abort.
    pub fn align(&mut self, power: u8) -> Result<(), SinkError>
        requires { power < 64 }
        ensures multiple { OnOk result (length (buffer_state self.new).bytes % 2 ^ power ≡ 0) }
        ensures nearest { length (buffer_state self.new).bytes < length (buffer_state self.old).bytes + 2 ^ power }
        ensures adds { OnOk result (AddsPadding (buffer_state self.old) (buffer_state self.new)) }
        ensures unchanged { OnErr result (AsBefore (buffer_state self.old) (buffer_state self.new)) }
        ensures error { IfErr result (λ e. e ≡ SinkError.NoMemory) }
        ensures enough { HasRoom (buffer_state self.old).byte_room (missing_to (length (buffer_state self.old).bytes) (2 ^ power)) → IsOk result }
        ensures byte_room { FallsBy (buffer_state self.old).byte_room (buffer_state self.new).byte_room (missing_to (length (buffer_state self.old).bytes) (2 ^ power)) }
        ensures notice_room { FallsBy (buffer_state self.old).notice_room (buffer_state self.new).notice_room 0 }
        ensures keeps { Keeps (buffer_state self.old) (buffer_state self.new) }
        ensures labels { label_count self.new ≡ label_count self.old }
        ensures label_room { label_room self.new ≡ label_room self.old }
        ensures places { SamePlaces (places_of self.old) (places_of self.new) }
        ensures filled { (readings : List Reading) → Filled readings (length (buffer_state self.old).bytes) (buffer_state self.old) (places_of self.old) → OnOk result (FilledUp readings (buffer_state self.new) (places_of self.new)) }
        ensures laid { (pieces : List Piece) → Laid pieces (length (buffer_state self.old).bytes) (buffer_state self.old) (places_of self.old) → OnOk result (LaidUp pieces (buffer_state self.new) (places_of self.new)) }
        ensures stays { StaysFilled self.old self.new }
    {
        let missing = missing_to(self.recorder.bytes().len(), 1 << u32::from(power));
        self.reserve(missing, 0)?;
        put_padding(&mut self.recorder, missing);
        Ok(())
    }
}
