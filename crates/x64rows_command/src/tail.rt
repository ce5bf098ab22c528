//! The command `tail`.

ghost use Rattle.std.specs.Prelude.{◌≡◌, ◌≤◌, ◌<◌, ◌≤ℤ◌, ℕ, ℤ, pos, IfSome, IfNone, OnSome, Option, FitsSigned};
ghost use Rattle.cax64_address.specs.declared.amode.Amode.{Amode};
ghost use Rattle.x64rows_command.specs.Words.{Writes};
ghost use Rattle.x64rows_command.specs.Address.{WritesAddress, WritesFactor, IsAddressable};
ghost use Rattle.x64rows_command.specs.Tail.{IsTailOf, HasOperand};
ghost use Rattle.cax64_sink.specs.FixedSink.{fixed_sink_state};

use crate::operand::base_and_displacement;
use crate::words::{number, signed_number};
use cax64_address::amode::{Amode, Scale};
use cax64_address::offset::AmodeOffset;
use cax64_address::tail::emit_modrm_sib_disp;
use cax64_register::NonRspGpr;
use cax64_sink::FixedSink;

/// The word that stands for no index, no scale or no factor.
const ABSENT: &str = "-";

/// The operand of a base 0 to 15; an index 0 to 15 but not 4, and a scale code 0 to 3, or neither; and a displacement.
fn address(base: &str, index: &str, scale: &str, displacement: &str) -> Option<Amode<u8>>
    ensures address { IfSome result (WritesAddress base.now index.now scale.now displacement.now) }
    ensures refused { IfNone result ((mode : Amode ℕ) → ¬ WritesAddress base.now index.now scale.now displacement.now mode) }
    ensures addressable { IfSome result IsAddressable }
{
    let base = number(base, 0, 15)?;
    let displacement = signed_number(displacement)?;
    if index == ABSENT && scale == ABSENT {
        return Some(base_and_displacement(base, displacement));
    }
    let index = number(index, 0, 15)?;
    if index == 4 {
        return None;
    }
    let scale = Scale::new(number(scale, 0, 3)?);
    Some(Amode::ImmRegRegShift {
        base,
        index: NonRspGpr::new(index),
        scale,
        simm32: AmodeOffset::new(displacement),
        trap: None,
    })
}

/// The factor of a displacement, 1 to 127, or none.
fn factor(word: &str) -> Option<Option<i8>>
    ensures factor { IfSome result (WritesFactor word.now) }
    ensures refused { IfNone result ((factor : Option ℤ) → ¬ WritesFactor word.now factor) }
    ensures positive { IfSome result (λ f. IfSome f (λ n. pos 1 ≤ℤ n)) }
{
    if word == ABSENT {
        return Some(None);
    }
    Some(Some(number(word, 1, 127)? as i8))
}

/// The bytes of the operand that the words of `tail` write: reg 0 to 7, an address, and the factor of its displacement.
/// None where a word isn't of its form or range.
pub fn tail(
    reg: &str,
    base: &str,
    index: &str,
    scale: &str,
    displacement: &str,
    evex_scaling: &str,
) -> Option<FixedSink<6>>
    ensures tail { IfSome result (λ sink. IsTailOf reg.now base.now index.now scale.now displacement.now evex_scaling.now (fixed_sink_state sink).bytes) }
    ensures written { OnSome result (HasOperand reg.now base.now index.now scale.now displacement.now evex_scaling.now) }
    ensures refused { IfNone result (¬ HasOperand reg.now base.now index.now scale.now displacement.now evex_scaling.now) }
{
    let reg = number(reg, 0, 7)?;
    let address = address(base, index, scale, displacement)?;
    let evex_scaling = factor(evex_scaling)?;
    let mut sink = FixedSink::new();
    emit_modrm_sib_disp(&mut sink, reg, &address, 0, evex_scaling).unwrap();
    Some(sink)
}
