//! Laws of the items here. The functions do nothing, or no more than the call that they speak of.

ghost use Rattle.std.specs.Prelude.{◌≡◌, ◌↔◌, ◌≤ℤ◌, ◌-◌, IsTrue, IfSome, IfErr, IsOk, OnOk, OnErr, length, pos, true};
ghost use Rattle.cax64_address.specs.Address.{is_addressable};
ghost use Rattle.cax64_address.specs.Length.{least_tail_under};
ghost use Rattle.cax64_address.specs.OperandTail.{tail_meant, AddsTail, LeavesTail, FitsTail};
ghost use Rattle.cax64_machine_code.specs.Len.{least_tail};
ghost use Rattle.cax64_machine_code.specs.declared.reading.Place.{Place};
ghost use Rattle.cax64_sink.specs.FixedSink.{fixed_sink_state};
ghost use Rattle.cax64_address.specs.Same.{SameAmode, SameGprMem};
ghost use Rattle.cax64_address.specs.declared.amode.Amode.{Amode};
ghost use Rattle.cax64_address.specs.declared.amode.Scale.{Scale};
ghost use Rattle.cax64_address.specs.declared.offset.AmodeOffset.{AmodeOffset};
ghost use Rattle.cax64_address.specs.declared.offset.AmodeOffsetPlusKnownOffset.{AmodeOffsetPlusKnownOffset};
ghost use Rattle.cax64_address.specs.declared.operand.GprMem.{GprMem};

use crate::amode::{Amode, Scale};
use crate::offset::{AmodeOffset, AmodeOffsetPlusKnownOffset};
use crate::operand::GprMem;
use crate::tail::emit_modrm_sib_disp;
use cax64_machine_code::reading::Place;
use cax64_register::AsReg;
use cax64_sink::{FixedSink, SinkError};

/// Items compare equal where they are the same variant with equal fields, and nowhere else; registers as their families
/// say.
pub fn laws_of_equality<R: AsReg, M: AsReg>()
    ensures scales { (a b : Scale) → (⟦<Scale as PartialEq>⟧.eq a b ≡ true) ↔ (a ≡ b) }
    ensures offsets { (a b : AmodeOffset) → (⟦<AmodeOffset as PartialEq>⟧.eq a b ≡ true) ↔ (a ≡ b) }
    ensures late_offsets { (a b : AmodeOffsetPlusKnownOffset) → (⟦<AmodeOffsetPlusKnownOffset as PartialEq>⟧.eq a b ≡ true) ↔ (a ≡ b) }
    ensures amodes { (a b : Amode R) → (⟦<Amode<R> as PartialEq>⟧.eq a b ≡ true) ↔ SameAmode R.eq a b }
    ensures operands { (a b : GprMem R M) → (⟦<GprMem<R, M> as PartialEq>⟧.eq a b ≡ true) ↔ SameGprMem R.eq M.eq a b }
{}

/// Without a factor, which is a factor of 1, a tail is as long as in an instruction.
pub fn laws_of_length()
    ensures { (place : Place) → least_tail_under 1 place ≡ least_tail place }
{}

/// Over a sink of fixed size [`emit_modrm_sib_disp`] succeeds exactly where some tail of the operand, and so the one that
/// it puts, fits in what is left.
///
/// The operand has to be addressable, as [`Amode::is_addressable`] tells, and the factor at least 1. Where they aren't,
/// a build that wasn't proved may put another operand and answer Ok, or abort.
pub fn emit_to_fixed_sink<R: AsReg, const N: usize>(
    sink: &mut FixedSink<N>,
    enc_g: u8,
    mem_e: &Amode<R>,
    bytes_at_end: u8,
    evex_scaling: Option<i8>,
) -> Result<(), SinkError>
    requires address { IsTrue (is_addressable R.settled R.enc (fixed_sink_state sink.old).offsets mem_e.now) }
    requires factor { IfSome evex_scaling (λ n. pos 1 ≤ℤ n) }
    ensures fits { IsOk result ↔ FitsTail (tail_meant R.enc (fixed_sink_state sink.old).offsets enc_g mem_e.now bytes_at_end evex_scaling) (N - length (fixed_sink_state sink.old).bytes) }
    ensures adds { OnOk result (AddsTail (tail_meant R.enc (fixed_sink_state sink.old).offsets enc_g mem_e.now bytes_at_end evex_scaling) (fixed_sink_state sink.old) (fixed_sink_state sink.new)) }
    ensures leaves { OnErr result (LeavesTail (tail_meant R.enc (fixed_sink_state sink.old).offsets enc_g mem_e.now bytes_at_end evex_scaling) (fixed_sink_state sink.old) (fixed_sink_state sink.new)) }
    ensures error { IfErr result (λ e. e ≡ SinkError.Full) }
{
    emit_modrm_sib_disp(sink, enc_g, mem_e, bytes_at_end, evex_scaling)
}
