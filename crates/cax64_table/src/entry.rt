//! A line of a table as one number, whose ready parts are its line's.

ghost use Rattle.std.specs.Prelude.{◌≡◌, ◌≤◌, ◌<◌, ◌^◌, ◌↔◌, true, false, IsTrue, IsSome, IfSome};
ghost use Rattle.cax64_machine_code.specs.Len.{is_w1};
ghost use Rattle.cax64_machine_code.specs.Line.{imm_bytes, opcode_bytes};
ghost use Rattle.cax64_machine_code.specs.Rows.{line_of};
ghost use Rattle.cax64_table.specs.Entry.{is_entry};
ghost use Rattle.cax64_table.specs.Packed.{unpacked};
ghost use Rattle.cax64_table.specs.Numbers.{digit_of, has_8bit, has_l, has_map, has_pp, has_register, has_vvvv, held, is_vex, legacy_bytes_of};

use crate::numbers::HeldBytes;
use crate::packed::{bits, entry, flag, half_word};
use crate::ready::is_entry;
use cax64_machine_code::row::Row;

/// A line of a table as one number, whose ready parts are its line's, and which can be encoded.
#[derive(Clone, Copy)]
pub struct Entry {
    packed: u64,
    ghost is: { is_entry packed ≡ true },
}

impl Entry {
    ghost use Rattle.cax64_table.specs.EntryLine.{entry_line};

    /// That of a packed number, where the number is an entry: its ready parts are its line's, and the line can be encoded.
    pub fn of(packed: u64) -> Option<Entry>
        ensures is { IsSome result ↔ IsTrue (is_entry packed) }
        ensures line { IfSome result (λ entry. entry_line entry ≡ unpacked packed) }
    {
        if is_entry(packed) {
            Some(Entry { packed })
        } else {
            None
        }
    }

    /// That of a packed number that is an entry, with no test when it runs.
    ///
    /// The number has to be one, as [`of`](Self::of) tells. Of another a build that wasn't proved makes an entry whose
    /// parts don't fit one another.
    #[inline(always)]
    pub fn of_entry(packed: u64) -> Entry
        requires { IsTrue (is_entry packed) }
        ensures { entry_line result ≡ unpacked packed }
    {
        Entry { packed }
    }

    /// That of a row.
    #[inline(always)]
    pub fn of_row(row: Row) -> Entry
        ensures { entry_line result ≡ line_of row }
    {
        Entry { packed: entry(row) }
    }

    /// The digit in the reg field, 0 where a register or nothing stands there.
    #[inline(always)]
    pub fn digit(self) -> u8
        ensures value { result ≡ digit_of (entry_line self).tail }
        ensures below { result < 8 }
    {
        // Of 8, which stands for no digit, the lowest bits are 0.
        bits(self.packed, 17, 3)
    }

    /// How many bytes of immediate there are.
    #[inline(always)]
    pub fn imm_len(self) -> u8
        ensures { result ≡ imm_bytes (entry_line self).imm }
    {
        bits(self.packed, 0, 3)
    }

    /// The opcode, with the 0F before it where the line has one.
    #[inline(always)]
    pub fn opcode(self) -> HeldBytes
        ensures bytes { held result ≡ opcode_bytes (entry_line self).opcode }
        ensures least { 1 ≤ result.len }
        ensures few { result.len ≤ 2 }
        ensures below { result.word < 256 ^ result.len }
    {
        HeldBytes {
            word: half_word(self.packed, 30),
            len: 1 + bits(self.packed, 29, 1),
        }
    }

    /// Whether a VEX prefix stands before the opcode, and no legacy prefix.
    #[inline(always)]
    pub fn is_vex(self) -> bool
        ensures { result ≡ is_vex (entry_line self).prefix }
    {
        flag(self.packed, 6)
    }

    /// Whether W has to be 1.
    #[inline(always)]
    pub fn w(self) -> bool
        ensures { result ≡ is_w1 (entry_line self).w }
    {
        // Of 2, which stands for either value, the lowest bit is 0.
        flag(self.packed, 4)
    }

    /// Whether a line without VEX has an 8-bit register field.
    #[inline(always)]
    pub fn uses_8bit(self) -> bool
        ensures { is_vex (entry_line self).prefix ≡ false → result ≡ has_8bit (entry_line self).tail }
    {
        flag(self.packed, 12)
    }

    /// The legacy prefixes but REX: F0, 66, F2 and F3, in this order. A line with VEX has none.
    #[inline(always)]
    pub fn legacy(self) -> HeldBytes
        ensures bytes { held result ≡ legacy_bytes_of (entry_line self).prefix }
        ensures few { result.len ≤ 3 }
        ensures below { result.word < 256 ^ result.len }
    {
        HeldBytes {
            word: half_word(self.packed, 46),
            len: bits(self.packed, 62, 2),
        }
    }

    /// The field pp of a line with VEX.
    #[inline(always)]
    pub fn pp(self) -> u8
        ensures is { IsTrue (has_pp (entry_line self).prefix result) }
        ensures below { result < 4 }
    {
        bits(self.packed, 7, 2)
    }

    /// The opcode map of a line with VEX.
    #[inline(always)]
    pub fn map(self) -> u8
        ensures is { IsTrue (has_map (entry_line self).prefix result) }
        ensures below { result < 4 }
    {
        bits(self.packed, 9, 2)
    }

    /// The bit L of a line with VEX.
    #[inline(always)]
    pub fn l(self) -> u8
        ensures is { IsTrue (has_l (entry_line self).prefix result) }
        ensures below { result < 2 }
    {
        bits(self.packed, 11, 1)
    }

    /// Whether a register stands in the reg field.
    #[inline(always)]
    pub fn has_register(self) -> bool
        ensures { result ≡ has_register (entry_line self).tail }
    {
        flag(self.packed, 16)
    }

    /// Whether a register stands in vvvv.
    #[inline(always)]
    pub fn has_vvvv(self) -> bool
        ensures { result ≡ has_vvvv (entry_line self).prefix }
    {
        flag(self.packed, 6) & flag(self.packed, 12)
    }
}
