//! Instructions one behind the other.

ghost use Rattle.std.specs.Prelude.{◌≡◌, ◌↔◌, ◌*◌, ◌≤◌, ℕ, true, IsTrue, All, OnOk, IfErr, IsOk, take, length};
ghost use Rattle.cax64_encoder.specs.Instruction.{can_encode_in};
ghost use Rattle.cax64_machine_code.specs.Sequence.{IsFront};
ghost use Rattle.cax64_sequence.specs.List.{AddsList, LeavesList, meants, total_len, total_notices, list_len, list_notices};
ghost use Rattle.cax64_sink.specs.Keeps.{Keeps};
ghost use Rattle.cax64_sink.specs.Room.{HasRoom, FallsBy};

use crate::each::{are_encodable, put_each};
use cax64_encoder::instruction::Instruction;
use cax64_sink::{CodeSink, SinkError};

/// A list of instructions that a sink didn't take to its end.
#[derive(Clone, Copy, Debug, PartialEq)]
pub struct Refused {
    /// The number of instructions that are whole.
    pub whole: usize,
    /// Why the next one isn't.
    pub error: SinkError,
}

/// Whether each of some instructions can be encoded for this sink, as the calls that put lists ask.
#[inline(always)]
pub fn all_encodable<I: Instruction, S: CodeSink>(insts: &[I], sink: &S) -> bool
    ensures { IsTrue result ↔ All (λ i. IsTrue (can_encode_in (S.state sink.now) (I.meant i))) insts.now }
{
    are_encodable(insts, sink)
}

/// Puts instructions of one type one behind the other, and tells the sink of their traps and targets.
///
/// A refusal says how many instructions are whole.
///
/// Each instruction has to be encodable for the sink, as [`all_encodable`] tells. Where one isn't, a build that wasn't
/// proved may put a wrong instruction and answer Ok, or abort. [`encode_each_checked`] tests each, and has no
/// condition.
#[inline(always)]
pub fn encode_each<I: Instruction, S: CodeSink>(insts: &[I], sink: &mut S) -> Result<(), Refused>
    requires { All (λ i. IsTrue (can_encode_in (S.state sink.old) (I.meant i))) insts.now }
    ensures adds { OnOk result (AddsList I.meant insts.now (S.state sink.old) (S.state sink.new)) }
    ensures leaves { IfErr result (λ e. LeavesList I.meant insts.now e.whole (S.state sink.old) (S.state sink.new)) }
    ensures front { IsFront (S.state sink.old).bytes (S.state sink.new).bytes }
    ensures error { IfErr result (λ e. (S.state sink.old).answers e.error ≡ true) }
    ensures keeps { Keeps (S.state sink.old) (S.state sink.new) }
    ensures beside { S.may_become sink.old sink.new }
    ensures enough { HasRoom (S.state sink.old).byte_room (13 * length insts.now) → HasRoom (S.state sink.old).notice_room (length insts.now) → IsOk result }
    ensures room { let ms = meants I.meant (S.state sink.old) insts.now in (j : ℕ) → j ≤ length insts.now → HasRoom (S.state sink.old).byte_room (total_len (take j ms)) → HasRoom (S.state sink.old).notice_room (total_notices (take j ms)) → IfErr result (λ e. j ≤ e.whole) }
    ensures byte_room { FallsBy (S.state sink.old).byte_room (S.state sink.new).byte_room (list_len (S.state sink.old) I.meant insts.now) }
    ensures notice_room { FallsBy (S.state sink.old).notice_room (S.state sink.new).notice_room (list_notices (S.state sink.old) I.meant insts.now) }
{
    put_each(insts, sink)
}
