//! Laws of the items here. The functions do no more than the call that they speak of.

ghost use Rattle.std.specs.Prelude.{◌≡◌, ◌≤◌, ◌-◌, ◌↔◌, ℕ, true, IsTrue, All, IsOk, OnOk, IfErr, take, length, List, ◌∷◌};
ghost use Rattle.cax64_encoder.specs.Instruction.{can_encode_in};
ghost use Rattle.cax64_sequence.specs.List.{AddsList, LeavesList, FirstReads, meants, total_len, list_len};
ghost use Rattle.cax64_sink.specs.FixedSink.{fixed_sink_state};
ghost use Rattle.cax64_machine_code.specs.Reading.{Parts};
ghost use Rattle.cax64_machine_code.specs.Sequence.{ReadsAllAs};

use crate::checked::Stopped;
use crate::sequence::{Refused, encode_each};
use cax64_encoder::instruction::Instruction;
use cax64_sink::{FixedSink, SinkError};

/// Over a sink of fixed size [`encode_each`] succeeds exactly where the bytes of all instructions fit in what is left, and
/// of those that don't it puts as many as do.
///
/// Each instruction has to be encodable for the sink, as [`all_encodable`] tells. Where one isn't, a build that wasn't
/// proved may put a wrong instruction and answer Ok, or abort.
pub fn encode_each_to_fixed_sink<I: Instruction, const N: usize>(
    insts: &[I],
    sink: &mut FixedSink<N>,
) -> Result<(), Refused>
    requires { All (λ i. IsTrue (can_encode_in (fixed_sink_state sink.old) (I.meant i))) insts.now }
    ensures fits { IsOk result ↔ (list_len (fixed_sink_state sink.old) I.meant insts.now ≤ N - length (fixed_sink_state sink.old).bytes) }
    ensures whole { let ms = meants I.meant (fixed_sink_state sink.old) insts.now in IfErr result (λ e. (j : ℕ) → j ≤ length insts.now → (j ≤ e.whole) ↔ (total_len (take j ms) ≤ N - length (fixed_sink_state sink.old).bytes)) }
    ensures adds { OnOk result (AddsList I.meant insts.now (fixed_sink_state sink.old) (fixed_sink_state sink.new)) }
    ensures leaves { IfErr result (λ e. LeavesList I.meant insts.now e.whole (fixed_sink_state sink.old) (fixed_sink_state sink.new)) }
    ensures error { IfErr result (λ e. e.error ≡ SinkError.Full) }
{
    encode_each(insts, sink)
}

/// Bytes that read as a list of instructions read as the first of them, whatever follows, and what it leaves reads as the
/// others: so a list is read back one by one.
pub fn first_of_a_list()
    ensures { (meant : Parts) (later : List Parts) (b : List ℕ) → ReadsAllAs (meant ∷ later) b → FirstReads meant later b }
{}

/// Refusals of lists, and stops, compare equal where they are equal, and nowhere else. It does nothing: its clauses are the
/// laws.
pub fn laws_of_equality()
    ensures refused { (a b : Refused) → (⟦<Refused as PartialEq>⟧.eq a b ≡ true) ↔ (a ≡ b) }
    ensures stopped { (a b : Stopped) → (⟦<Stopped as PartialEq>⟧.eq a b ≡ true) ↔ (a ≡ b) }
{}
