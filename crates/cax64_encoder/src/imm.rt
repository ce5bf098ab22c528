//! Immediates as words.

ghost use Rattle.std.specs.Prelude.{◌≡◌};
ghost use Rattle.cax64_encoder.specs.ImmActions.{imm_word};

use cax64_operand::ImmOperand;

/// The bytes of an immediate as one word, the first one the lowest.
#[inline(always)]
pub(crate) fn word_of(imm: ImmOperand) -> u32
    ensures { result ≡ imm_word imm }
{
    match imm {
        ImmOperand::Imm8(value) => u32::from(value),
        ImmOperand::Imm16(value) => u32::from(value),
        ImmOperand::Imm32(value) => value,
        ImmOperand::Simm8(value) => u32::from(value.cast_unsigned()),
        ImmOperand::Simm32(value) => value.cast_unsigned(),
    }
}
