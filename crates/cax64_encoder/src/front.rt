//! Prefixes and opcode, as a few bytes.

ghost use Rattle.std.specs.Prelude.{◌≡◌, ◌≤◌, length};
ghost use Rattle.cax64_machine_code.specs.Line.{opcode_bytes};
ghost use Rattle.cax64_prefix.specs.Vex.{vex_bytes};
ghost use Rattle.cax64_table.specs.EntryLine.{entry_line};
ghost use Rattle.cax64_table.specs.Numbers.{legacy_bytes_of};

use crate::short::Short;
use cax64_prefix::vex::VexPrefix;
use cax64_table::entry::Entry;

/// The legacy prefixes of a line: F0 first, then 66, F2 or F3.
#[inline(always)]
pub(crate) fn legacy(entry: Entry) -> Short
    ensures bytes { result ≡ legacy_bytes_of (entry_line entry).prefix }
    ensures few { length result ≤ 3 }
{
    let held = entry.legacy();
    Short::of_word(held.word, held.len)
}

#[inline(always)]
pub(crate) fn vex(prefix: VexPrefix) -> Short
    ensures { result ≡ vex_bytes prefix }
{
    match prefix {
        VexPrefix::TwoByte(last) => Short::one(0xC5).append(Short::one(last)),
        VexPrefix::ThreeByte(second, last) => Short::one(0xC4)
            .append(Short::one(second))
            .append(Short::one(last)),
    }
}

/// The opcode of a line, behind 0F where it has the escape.
#[inline(always)]
pub(crate) fn opcode(entry: Entry) -> Short
    ensures { result ≡ opcode_bytes (entry_line entry).opcode }
{
    let held = entry.opcode();
    Short::of_word(held.word, held.len)
}
