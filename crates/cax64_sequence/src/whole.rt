//! All instructions of a list, or none.

ghost use Rattle.std.specs.Prelude.{◌≡◌, ◌≤◌, ◌/◌, IsTrue, All, OnOk, OnErr, IfErr, IsOk, length};
ghost use Rattle.cax64_encoder.specs.Instruction.{can_encode_in};
ghost use Rattle.cax64_machine_code.specs.Sequence.{IsFront};
ghost use Rattle.cax64_sequence.specs.List.{AddsList, StaysAs, list_len, list_notices};
ghost use Rattle.cax64_sink.specs.Keeps.{Keeps};
ghost use Rattle.cax64_sink.specs.Recorder.{recorder_state};
ghost use Rattle.cax64_sink.specs.Room.{HasRoom, FallsBy};

use crate::each::put_each_whole;
use cax64_encoder::instruction::Instruction;
use cax64_sink::{Recorder, SinkError};
use std::alloc::Allocator;

/// Puts all instructions of a list of one type, or none.
///
/// Room for all of them is made at once, before the first is put; so who reserves for several lists, and then puts them,
/// isn't refused.
///
/// Each instruction has to be encodable for the sink, as [`all_encodable`] tells. Where one isn't, a build that wasn't
/// proved may put a wrong instruction and answer Ok, or abort. There have to be at most `usize::MAX / 13` of them; of more
/// such a build may put a part and answer an error, or abort.
#[inline(always)]
pub fn encode_each_whole<I: Instruction, A: Allocator>(
    insts: &[I],
    recorder: &mut Recorder<A>,
) -> Result<(), SinkError>
    requires encodable { All (λ i. IsTrue (can_encode_in (recorder_state recorder.old) (I.meant i))) insts.now }
    requires few { length insts.now ≤ usize.MAX / 13 }
    ensures adds { OnOk result (AddsList I.meant insts.now (recorder_state recorder.old) (recorder_state recorder.new)) }
    ensures unchanged { OnErr result (StaysAs (recorder_state recorder.old) (recorder_state recorder.new)) }
    ensures front { IsFront (recorder_state recorder.old).bytes (recorder_state recorder.new).bytes }
    ensures error { IfErr result (λ e. e ≡ SinkError.NoMemory) }
    ensures keeps { Keeps (recorder_state recorder.old) (recorder_state recorder.new) }
    ensures byte_room { FallsBy (recorder_state recorder.old).byte_room (recorder_state recorder.new).byte_room (list_len (recorder_state recorder.old) I.meant insts.now) }
    ensures notice_room { FallsBy (recorder_state recorder.old).notice_room (recorder_state recorder.new).notice_room (list_notices (recorder_state recorder.old) I.meant insts.now) }
    ensures room { HasRoom (recorder_state recorder.old).byte_room (list_len (recorder_state recorder.old) I.meant insts.now) → HasRoom (recorder_state recorder.old).notice_room (list_notices (recorder_state recorder.old) I.meant insts.now) → IsOk result }
{
    put_each_whole(insts, recorder)
}
