//! The code of instructions that do nothing.

ghost use Rattle.std.specs.Prelude.{◌≡◌};
ghost use Rattle.cax64_encoder.specs.Code.{IsCode, code_actions};
ghost use Rattle.cax64_encoder.specs.NopActions.{nop_lead, nop_zeros, nop_actions};

use crate::code::Code;
use crate::short::Short;
use cax64_operand::Nop;

/// The bytes up to ModR/M, and SIB or a displacement of one byte if that is the last: the first one is the lowest.
#[inline(always)]
fn lead(nop: Nop) -> Short
    ensures { result ≡ nop_lead nop }
{
    match nop {
        Nop::One => Short::of_word(0x90, 1),
        Nop::Two => Short::of_word(0x9066, 2),
        Nop::Three => Short::of_word(0x00_1F0F, 3),
        Nop::Four => Short::of_word(0x0040_1F0F, 4),
        Nop::Five => Short::of_word(0x44_1F0F, 3),
        Nop::Six => Short::of_word(0x441F_0F66, 4),
        Nop::Seven => Short::of_word(0x80_1F0F, 3),
        Nop::Eight => Short::of_word(0x0084_1F0F, 4),
        Nop::Nine => Short::of_word(0x00_841F_0F66, 5),
    }
}

/// How many zeros stand behind them, which are put at once.
#[inline(always)]
fn zeros(nop: Nop) -> u8
    ensures { result ≡ nop_zeros nop }
{
    match nop {
        Nop::One | Nop::Two | Nop::Three | Nop::Four => 0,
        Nop::Five | Nop::Six => 2,
        Nop::Seven | Nop::Eight | Nop::Nine => 4,
    }
}

/// The code of a no-operation.
#[inline(always)]
pub fn nop_code(nop: Nop) -> Code
    ensures actions { code_actions result ≡ nop_actions nop }
    ensures is { IsCode result }
{
    Code {
        trap: None,
        front: lead(nop),
        target: None,
        long: None,
        imm: 0,
        imm_len: zeros(nop),
    }
}
