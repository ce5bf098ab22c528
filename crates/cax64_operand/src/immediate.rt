//! Immediates, by what they are to an instruction.

ghost use Rattle.std.specs.Prelude.{◌≡◌};
ghost use Rattle.cax64_operand.specs.Immediate.{imm_of};

use cax64_immediate::Extension;

/// An immediate operand.
#[derive(Clone, Copy, Debug)]
pub enum Immediate {
    Imm8(u8),
    Imm16(u16),
    Imm32(u32),
    /// A signed byte, and what the instruction extends it to.
    Simm8(i8, Extension),
    /// Four signed bytes, and what the instruction extends them to.
    Simm32(i32, Extension),
    /// The distance of a branch from its end, in a byte.
    Distance8(i8),
    /// The distance of a branch from its end, in four bytes.
    Distance32(i32),
    /// The predicate of a comparison, of which the first eight have a name. (Intel SDM, volume 2, `CMPPS`, table 3-1.)
    Predicate(u8),
    /// The predicate of a VEX comparison, of which the first 32 have a name. (Intel SDM, volume 2, `CMPPS`, table 3-3.)
    VexPredicate(u8),
}

/// An immediate as it stands in the bytes of an instruction.
#[derive(Clone, Copy, Debug, PartialEq)]
pub enum ImmOperand {
    Imm8(u8),
    Imm16(u16),
    Imm32(u32),
    Simm8(i8),
    Simm32(i32),
}

impl Immediate {
    /// The immediate as it stands in the bytes.
    pub fn bytes(self) -> ImmOperand
        ensures { result ≡ imm_of self }
    {
        match self {
            Immediate::Imm8(value) => ImmOperand::Imm8(value),
            Immediate::Imm16(value) => ImmOperand::Imm16(value),
            Immediate::Imm32(value) => ImmOperand::Imm32(value),
            Immediate::Simm8(value, _) => ImmOperand::Simm8(value),
            Immediate::Simm32(value, _) => ImmOperand::Simm32(value),
            Immediate::Distance8(value) => ImmOperand::Simm8(value),
            Immediate::Distance32(value) => ImmOperand::Simm32(value),
            Immediate::Predicate(value) => ImmOperand::Imm8(value),
            Immediate::VexPredicate(value) => ImmOperand::Imm8(value),
        }
    }
}
