//! Instructions one behind the other, each tested before it is put.

ghost use Rattle.std.specs.Prelude.{◌≡◌, ◌<◌, ◌*◌, ◌≤◌, ℕ, true, IsTrue, All, OnOk, IfErr, take, length};
ghost use Rattle.cax64_encoder.specs.EncodeError.{fault_in_error};
ghost use Rattle.cax64_encoder.specs.Instruction.{can_encode_in};
ghost use Rattle.cax64_machine_code.specs.Sequence.{IsFront};
ghost use Rattle.cax64_sequence.specs.List.{AddsList, LeavesList, meants, total_len, total_notices, list_len, list_notices};
ghost use Rattle.cax64_sequence.specs.Stopped.{fault_at, AtFault, AtRefusal, NeverRefused};
ghost use Rattle.cax64_sink.specs.Keeps.{Keeps};
ghost use Rattle.cax64_sink.specs.Room.{HasRoom, FallsBy};

use crate::each::put_each_checked;
use cax64_encoder::EncodeError;
use cax64_encoder::instruction::Instruction;
use cax64_sink::CodeSink;

/// A list of instructions that wasn't put to its end: one of them has a fault, or the sink refused it.
#[derive(Clone, Copy, Debug, PartialEq)]
pub struct Stopped {
    /// The number of instructions that are whole.
    pub whole: usize,
    /// Why the next one isn't.
    pub error: EncodeError,
}

/// Tests each of some instructions of one type, puts it behind those before it, and tells the sink of its trap or target.
///
/// Each is tested just before it is put, so those before the first fault stand whole, and nothing of the one with the fault
/// is put or told. A refusal leaves what [`encode_each`](crate::encode_each) leaves.
#[inline(always)]
pub fn encode_each_checked<I: Instruction, S: CodeSink>(
    insts: &[I],
    sink: &mut S,
) -> Result<(), Stopped>
    ensures adds { OnOk result (AddsList I.meant insts.now (S.state sink.old) (S.state sink.new)) }
    ensures encodable { OnOk result (All (λ i. IsTrue (can_encode_in (S.state sink.old) (I.meant i))) insts.now) }
    ensures within { IfErr result (λ e. e.whole < length insts.now) }
    ensures tested { IfErr result (λ e. All (λ i. IsTrue (can_encode_in (S.state sink.old) (I.meant i))) (take e.whole insts.now)) }
    ensures fault { IfErr result (λ e. fault_in_error e.error ≡ fault_at (S.state sink.old) I.meant insts.now e.whole) }
    ensures before { AtFault result (λ whole. AddsList I.meant (take whole insts.now) (S.state sink.old) (S.state sink.new)) }
    ensures leaves { AtRefusal result (λ whole _. LeavesList I.meant insts.now whole (S.state sink.old) (S.state sink.new)) }
    ensures error { AtRefusal result (λ _ error. (S.state sink.old).answers error ≡ true) }
    ensures front { IsFront (S.state sink.old).bytes (S.state sink.new).bytes }
    ensures keeps { Keeps (S.state sink.old) (S.state sink.new) }
    ensures beside { S.may_become sink.old sink.new }
    ensures enough { HasRoom (S.state sink.old).byte_room (13 * length insts.now) → HasRoom (S.state sink.old).notice_room (length insts.now) → NeverRefused result }
    ensures room { let ms = meants I.meant (S.state sink.old) insts.now in (j : ℕ) → j ≤ length insts.now → HasRoom (S.state sink.old).byte_room (total_len (take j ms)) → HasRoom (S.state sink.old).notice_room (total_notices (take j ms)) → AtRefusal result (λ whole _. j ≤ whole) }
    ensures byte_room { FallsBy (S.state sink.old).byte_room (S.state sink.new).byte_room (list_len (S.state sink.old) I.meant insts.now) }
    ensures notice_room { FallsBy (S.state sink.old).notice_room (S.state sink.new).notice_room (list_notices (S.state sink.old) I.meant insts.now) }
{
    put_each_checked(insts, sink)
}
