//! What the bytes of a row's instructions take of its line, each read from the packed number as it stands.

ghost use Rattle.std.specs.Prelude.{◌≡◌, ◌≤◌, ◌<◌, ◌^◌, false, IsTrue};
ghost use Rattle.cax64_machine_code.specs.Len.{is_w1};
ghost use Rattle.cax64_machine_code.specs.Line.{imm_bytes, opcode_bytes};
ghost use Rattle.cax64_machine_code.specs.Rows.{line_of};
ghost use Rattle.cax64_table.specs.Numbers.{digit_of, has_8bit, has_register, has_vvvv, is_vex, held, legacy_bytes_of, has_pp, has_map, has_l};

use crate::entry::Entry;
use cax64_machine_code::row::Row;

/// A few bytes as a word, the first one the lowest, and how many they are.
#[derive(Clone, Copy)]
pub struct HeldBytes {
    /// The bytes, 0 above them.
    pub word: u64,
    /// How many they are.
    pub len: u8,
}

/// The digit in the reg field, 0 where a register or nothing stands there.
#[inline(always)]
pub fn digit(row: Row) -> u8
    ensures value { result ≡ digit_of (line_of row).tail }
    ensures below { result < 8 }
{
    Entry::of_row(row).digit()
}

/// Whether a register stands in the reg field.
#[inline(always)]
pub fn has_register(row: Row) -> bool
    ensures { result ≡ has_register (line_of row).tail }
{
    Entry::of_row(row).has_register()
}

/// Whether a register stands in vvvv.
#[inline(always)]
pub fn has_vvvv(row: Row) -> bool
    ensures { result ≡ has_vvvv (line_of row).prefix }
{
    Entry::of_row(row).has_vvvv()
}

/// How many bytes of immediate there are.
#[inline(always)]
pub fn imm_len(row: Row) -> u8
    ensures { result ≡ imm_bytes (line_of row).imm }
{
    Entry::of_row(row).imm_len()
}

/// Whether a VEX prefix stands before the opcode, and no legacy prefix.
#[inline(always)]
pub fn is_vex(row: Row) -> bool
    ensures { result ≡ is_vex (line_of row).prefix }
{
    Entry::of_row(row).is_vex()
}

/// Whether W has to be 1.
#[inline(always)]
pub fn w(row: Row) -> bool
    ensures { result ≡ is_w1 (line_of row).w }
{
    Entry::of_row(row).w()
}

/// Whether a row without VEX has an 8-bit register field.
#[inline(always)]
pub fn uses_8bit(row: Row) -> bool
    ensures { is_vex (line_of row).prefix ≡ false → result ≡ has_8bit (line_of row).tail }
{
    Entry::of_row(row).uses_8bit()
}

/// The legacy prefixes but REX: F0, 66, F2 and F3, in this order. A row with VEX has none.
#[inline(always)]
pub fn legacy(row: Row) -> HeldBytes
    ensures bytes { held result ≡ legacy_bytes_of (line_of row).prefix }
    ensures few { result.len ≤ 3 }
    ensures below { result.word < 256 ^ result.len }
{
    Entry::of_row(row).legacy()
}

/// The opcode, with the 0F before it where the row has one.
#[inline(always)]
pub fn opcode(row: Row) -> HeldBytes
    ensures bytes { held result ≡ opcode_bytes (line_of row).opcode }
    ensures least { 1 ≤ result.len }
    ensures few { result.len ≤ 2 }
    ensures below { result.word < 256 ^ result.len }
{
    Entry::of_row(row).opcode()
}

/// The field pp of a row with VEX.
#[inline(always)]
pub fn pp(row: Row) -> u8
    ensures is { IsTrue (has_pp (line_of row).prefix result) }
    ensures below { result < 4 }
{
    Entry::of_row(row).pp()
}

/// The opcode map of a row with VEX.
#[inline(always)]
pub fn map(row: Row) -> u8
    ensures is { IsTrue (has_map (line_of row).prefix result) }
    ensures below { result < 4 }
{
    Entry::of_row(row).map()
}

/// The bit L of a row with VEX.
#[inline(always)]
pub fn l(row: Row) -> u8
    ensures is { IsTrue (has_l (line_of row).prefix result) }
    ensures below { result < 2 }
{
    Entry::of_row(row).l()
}
