//! Lists of instructions of every kind.
#![tactic(auto)]

ghost use Rattle.std.specs.Prelude.{◌≡◌, ◌*◌, ◌≤◌, ◌/◌, ◌-◌, ◌↔◌, ℕ, true, IsTrue, All, OnOk, OnErr, IfErr, IsOk, take, length};
ghost use Rattle.cax64_encoder.specs.Instruction.{can_encode_in};
ghost use Rattle.cax64_machine_code.specs.Sequence.{IsFront};
ghost use Rattle.cax64_sequence.specs.List.{AddsList, LeavesList, StaysAs, meants, total_len, total_notices, list_len, list_notices};
ghost use Rattle.cax64_sink.specs.FixedSink.{fixed_sink_state};
ghost use Rattle.cax64_sink.specs.Keeps.{Keeps};
ghost use Rattle.cax64_sink.specs.Recorder.{recorder_state};
ghost use Rattle.cax64_sink.specs.Room.{HasRoom, FallsBy};

use cax64_encoder::instruction::Instruction;
use cax64_inst::Inst;
use cax64_register::Registers;
use cax64_sequence::laws::encode_each_to_fixed_sink;
use cax64_sequence::{Refused, encode_each, encode_each_whole};
use cax64_sink::{CodeSink, FixedSink, Recorder, SinkError};
use std::alloc::Allocator;

/// Puts instructions one behind the other, and tells the sink of their traps and targets.
///
/// A refusal says how many instructions are whole.
///
/// Each instruction has to be encodable for the sink, as [`all_encodable`] tells. Where one isn't, a build that wasn't
/// proved may put a wrong instruction and answer Ok, or abort. [`encode_each_checked`] tests each, and has no
/// condition.
pub fn encode_all<R: Registers, S: CodeSink>(insts: &[Inst<R>], sink: &mut S) -> Result<(), Refused>
    requires { All (λ i. IsTrue (can_encode_in (S.state sink.old) (⟦<Inst<R> as Instruction>⟧.meant i))) insts.now }
    ensures adds { OnOk result (AddsList ⟦<Inst<R> as Instruction>⟧.meant insts.now (S.state sink.old) (S.state sink.new)) }
    ensures leaves { IfErr result (λ e. LeavesList ⟦<Inst<R> as Instruction>⟧.meant insts.now e.whole (S.state sink.old) (S.state sink.new)) }
    ensures front { IsFront (S.state sink.old).bytes (S.state sink.new).bytes }
    ensures error { IfErr result (λ e. (S.state sink.old).answers e.error ≡ true) }
    ensures keeps { Keeps (S.state sink.old) (S.state sink.new) }
    ensures beside { S.may_become sink.old sink.new }
    ensures enough { HasRoom (S.state sink.old).byte_room (13 * length insts.now) → HasRoom (S.state sink.old).notice_room (length insts.now) → IsOk result }
    ensures room { let ms = meants ⟦<Inst<R> as Instruction>⟧.meant (S.state sink.old) insts.now in (j : ℕ) → j ≤ length insts.now → HasRoom (S.state sink.old).byte_room (total_len (take j ms)) → HasRoom (S.state sink.old).notice_room (total_notices (take j ms)) → IfErr result (λ e. j ≤ e.whole) }
    ensures byte_room { FallsBy (S.state sink.old).byte_room (S.state sink.new).byte_room (list_len (S.state sink.old) ⟦<Inst<R> as Instruction>⟧.meant insts.now) }
    ensures notice_room { FallsBy (S.state sink.old).notice_room (S.state sink.new).notice_room (list_notices (S.state sink.old) ⟦<Inst<R> as Instruction>⟧.meant insts.now) }
{
    encode_each(insts, sink)
}

/// Puts all instructions one behind the other, and tells the recorder of their traps and targets, or does nothing.
///
/// Room for all of them is made at once, before the first is put; so who reserves for several lists, and then puts them,
/// isn't refused.
///
/// Each instruction has to be encodable for the sink, as [`all_encodable`] tells. Where one isn't, a build that wasn't
/// proved may put a wrong instruction and answer Ok, or abort. There have to be at most `usize::MAX / 13` of them; of more
/// such a build may put a part and answer an error, or abort.
pub fn encode_all_whole<R: Registers, A: Allocator>(
    insts: &[Inst<R>],
    recorder: &mut Recorder<A>,
) -> Result<(), SinkError>
    requires encodable { All (λ i. IsTrue (can_encode_in (recorder_state recorder.old) (⟦<Inst<R> as Instruction>⟧.meant i))) insts.now }
    requires few { length insts.now ≤ usize.MAX / 13 }
    ensures adds { OnOk result (AddsList ⟦<Inst<R> as Instruction>⟧.meant insts.now (recorder_state recorder.old) (recorder_state recorder.new)) }
    ensures unchanged { OnErr result (StaysAs (recorder_state recorder.old) (recorder_state recorder.new)) }
    ensures front { IsFront (recorder_state recorder.old).bytes (recorder_state recorder.new).bytes }
    ensures error { IfErr result (λ e. e ≡ SinkError.NoMemory) }
    ensures keeps { Keeps (recorder_state recorder.old) (recorder_state recorder.new) }
    ensures byte_room { FallsBy (recorder_state recorder.old).byte_room (recorder_state recorder.new).byte_room (list_len (recorder_state recorder.old) ⟦<Inst<R> as Instruction>⟧.meant insts.now) }
    ensures notice_room { FallsBy (recorder_state recorder.old).notice_room (recorder_state recorder.new).notice_room (list_notices (recorder_state recorder.old) ⟦<Inst<R> as Instruction>⟧.meant insts.now) }
    ensures room { HasRoom (recorder_state recorder.old).byte_room (list_len (recorder_state recorder.old) ⟦<Inst<R> as Instruction>⟧.meant insts.now) → HasRoom (recorder_state recorder.old).notice_room (list_notices (recorder_state recorder.old) ⟦<Inst<R> as Instruction>⟧.meant insts.now) → IsOk result }
{
    encode_each_whole(insts, recorder)
}

/// Over a sink of fixed size [`encode_all`] succeeds exactly where the bytes of all instructions fit in what is left, and
/// of those that don't it puts as many as do.
///
/// Each instruction has to be encodable for the sink, as [`all_encodable`] tells. Where one isn't, a build that wasn't
/// proved may put a wrong instruction and answer Ok, or abort.
pub fn encode_all_to_fixed_sink<R: Registers, const N: usize>(
    insts: &[Inst<R>],
    sink: &mut FixedSink<N>,
) -> Result<(), Refused>
    requires { All (λ i. IsTrue (can_encode_in (fixed_sink_state sink.old) (⟦<Inst<R> as Instruction>⟧.meant i))) insts.now }
    ensures fits { IsOk result ↔ (list_len (fixed_sink_state sink.old) ⟦<Inst<R> as Instruction>⟧.meant insts.now ≤ N - length (fixed_sink_state sink.old).bytes) }
    ensures whole { let ms = meants ⟦<Inst<R> as Instruction>⟧.meant (fixed_sink_state sink.old) insts.now in IfErr result (λ e. (j : ℕ) → j ≤ length insts.now → (j ≤ e.whole) ↔ (total_len (take j ms) ≤ N - length (fixed_sink_state sink.old).bytes)) }
    ensures adds { OnOk result (AddsList ⟦<Inst<R> as Instruction>⟧.meant insts.now (fixed_sink_state sink.old) (fixed_sink_state sink.new)) }
    ensures leaves { IfErr result (λ e. LeavesList ⟦<Inst<R> as Instruction>⟧.meant insts.now e.whole (fixed_sink_state sink.old) (fixed_sink_state sink.new)) }
    ensures error { IfErr result (λ e. e.error ≡ SinkError.Full) }
{
    encode_each_to_fixed_sink(insts, sink)
}
