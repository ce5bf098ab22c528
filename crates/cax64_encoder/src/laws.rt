//! Laws of the items here. The functions do no more than the call that they speak of.

ghost use Rattle.std.specs.Prelude.{◌≡◌, ◌≤◌, ◌-◌, ◌↔◌, true, IsTrue, IsOk, OnOk, OnErr, IfErr, length};
ghost use Rattle.cax64_encoder.specs.Instruction.{can_encode_in, len_in, Adds, Leaves};
ghost use Rattle.cax64_sink.specs.FixedSink.{fixed_sink_state};

use crate::error::EncodeError;
use crate::fault::Fault;
use crate::instruction::Instruction;
use cax64_sink::{FixedSink, SinkError};

/// Over a sink of fixed size [`Instruction::encode`] succeeds exactly where its bytes fit in what is left.
///
/// The instruction has to be encodable for the sink, as [`Instruction::is_encodable`] tells. Where it isn't, a build
/// that wasn't proved may put a wrong instruction and answer Ok, or abort.
pub fn encode_to_fixed_sink<I: Instruction, const N: usize>(
    inst: &I,
    sink: &mut FixedSink<N>,
) -> Result<(), SinkError>
    requires { IsTrue (can_encode_in (fixed_sink_state sink.old) (I.meant inst.now)) }
    ensures fits { IsOk result ↔ (len_in (fixed_sink_state sink.old) (I.meant inst.now) ≤ N - length (fixed_sink_state sink.old).bytes) }
    ensures adds { OnOk result (Adds (I.meant inst.now) (fixed_sink_state sink.old) (fixed_sink_state sink.new)) }
    ensures leaves { OnErr result (Leaves (I.meant inst.now) (fixed_sink_state sink.old) (fixed_sink_state sink.new)) }
    ensures error { IfErr result (λ e. e ≡ SinkError.Full) }
{
    inst.encode(sink)
}

/// Faults compare equal where they are equal, and nowhere else, and so do errors. It does nothing: its clauses are the laws.
pub fn laws_of_equality()
    ensures faults { (a b : Fault) → (⟦<Fault as PartialEq>⟧.eq a b ≡ true) ↔ (a ≡ b) }
    ensures errors { (a b : EncodeError) → (⟦<EncodeError as PartialEq>⟧.eq a b ≡ true) ↔ (a ≡ b) }
{}
