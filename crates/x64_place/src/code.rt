//! The code of a line of a table with a place by its numbers: that of the encoder, without a branch on what the place is.

ghost use Rattle.std.specs.Prelude.{◌≡◌, ◌<◌, ◌≤◌, ◌+◌, ◌*◌, ◌/◌, ◌%◌, ◌^◌, ◌||◌, ◌&&◌, ◌==◌, bit_or, false, true, IsTrue, length};
ghost use Rattle.cax64_encoder.specs.Code.{IsCode, code_actions};
ghost use Rattle.cax64_encoder.specs.EncodesLine.{EncodesLine, line_form_parts};
ghost use Rattle.cax64_encoder.specs.Form.{fits, is_no_place, vvvv_fits};
ghost use Rattle.cax64_encoder.specs.Numbered.{HasImmWord, plain, form_is_real, form_named, place_is_real, place_named};
ghost use Rattle.cax64_encoder.specs.Place.{memory_in};
ghost use Rattle.cax64_machine_code.specs.Len.{line_len};
ghost use Rattle.cax64_encoder.specs.Head.{IsHead};
ghost use Rattle.x64_place.specs.Code.{placed_form, vvvv_in};
ghost use Rattle.x64_place.specs.Heads.{are_heads, entry_in, held_bytes, held_word};
ghost use Rattle.x64_place.specs.Operand.{placed};
ghost use Rattle.x64_place.specs.Tail.{special_of};
ghost use Rattle.cax64_prefix.specs.Vex.{vex_bytes};
ghost use Rattle.cax64_sink.specs.Run.{all_bytes};
ghost use Rattle.cax64_table.specs.Entry.{has_tail};
ghost use Rattle.cax64_table.specs.EntryLine.{entry_line};
ghost use Rattle.cax64_table.specs.Numbers.{has_register, has_vvvv, is_vex};

use crate::place::FlatPlace;
use crate::tails::tail_part;
use cax64_encoder::code::Code;
use cax64_encoder::short::Short;
use cax64_prefix::vex::VexPrefix;
use cax64_table::entry::Entry;

#[inline(always)]
fn vex(prefix: VexPrefix) -> Short
    ensures { result ≡ vex_bytes prefix }
{
    match prefix {
        VexPrefix::TwoByte(last) => Short::one(0xC5).append(Short::one(last)),
        VexPrefix::ThreeByte(second, last) => Short::one(0xC4)
            .append(Short::one(second))
            .append(Short::one(last)),
    }
}

/// A VEX prefix and the opcode.
#[inline(always)]
fn vex_head(entry: Entry, reg: u8, vvvv: u8, place: &FlatPlace) -> Short
    requires vex { is_vex (entry_line entry).prefix ≡ true }
    requires reg { reg < 16 }
    requires vvvv { vvvv < 16 }
    requires place { IsTrue (place_is_real (placed place.now)) }
    requires absent { has_vvvv (entry_line entry).prefix ≡ false → vvvv ≡ 0 }
    requires vvvv_fits { IsTrue (vvvv_fits (entry_line entry).prefix (vvvv_in (entry_line entry) vvvv)) }
    ensures { IsHead (entry_line entry) reg (vvvv_in (entry_line entry) vvvv) (place_named (placed place.now)) result }
{
    let prefix = VexPrefix::three_op(
        reg,
        vvvv,
        (Some(place.base), Some(place.index)),
        entry.l(),
        entry.pp(),
        entry.map(),
        entry.w(),
    );
    let opcode = entry.opcode();
    vex(prefix).append(Short::of_word(opcode.word, opcode.len))
}

/// R, X and B as three bits.
#[inline(always)]
fn high_bits(reg: u8, index: u8, base: u8) -> u8
    requires reg { reg < 16 }
    requires index { index < 16 }
    requires base { base < 16 }
    ensures is { result ≡ reg / 8 * 4 + index / 8 * 2 + base / 8 }
    ensures below { result < 8 }
{
    reg / 8 * 4 + index / 8 * 2 + base / 8
}

/// Whether the low bits of a register that may be one of 8 bits are 4 to 7, as 1 or 0. Beside R or B it doesn't matter what
/// the answer is.
#[inline(always)]
fn special(reg: u8, place: &FlatPlace) -> u8
    ensures is { result ≡ bit_or (reg / 4 % 2) (special_of place.now.kind place.now.base) }
    ensures below { result < 2 }
{
    (reg | (place.base * u8::from(place.kind.is_register()))) / 4 % 2
}

/// The legacy prefixes of a line without VEX, REX if it stands, and the opcode, where R, X and B are these three bits.
#[inline(always)]
fn legacy_head(heads: &[u64; 4], high: u8, special: u8) -> Short
    requires high { high < 8 }
    requires special { special < 2 }
    requires few { entry_in heads.now high special % 256 ≤ 6 }
    requires below { held_word (entry_in heads.now high special) high < 256 ^ (entry_in heads.now high special % 256) }
    ensures { result ≡ held_bytes (entry_in heads.now high special) high }
{
    let entry = heads[usize::from(special * 2 + u8::from(high != 0))];
    let word = entry / 65536 + (u64::from(high) << (entry / 256 % 64));
    Short::of_word(word, (entry % 256) as u8)
}

/// Prefixes and opcode of a line, with this register in reg, 0 where a digit or nothing stands there, and this one in vvvv,
/// 0 where there is none.
#[inline(always)]
fn head(entry: Entry, heads: &[u64; 4], reg: u8, vvvv: u8, place: &FlatPlace) -> Short
    requires reg { reg < 16 }
    requires vvvv { vvvv < 16 }
    requires place { IsTrue (place_is_real (placed place.now)) }
    requires absent { has_vvvv (entry_line entry).prefix ≡ false → vvvv ≡ 0 }
    requires vvvv_fits { IsTrue (vvvv_fits (entry_line entry).prefix (vvvv_in (entry_line entry) vvvv)) }
    requires heads { are_heads (entry_line entry) heads.now ≡ true }
    requires bare { IsTrue (has_tail (entry_line entry).tail || (is_no_place (place_named (placed place.now)) && (reg == 0))) }
    ensures { IsHead (entry_line entry) reg (vvvv_in (entry_line entry) vvvv) (place_named (placed place.now)) result }
{
    if entry.is_vex() {
        return vex_head(entry, reg, vvvv, place);
    }
    let high = high_bits(reg, place.index, place.base);
    legacy_head(heads, high, special(reg, place))
}

/// The code of an instruction of a line with these numbers, whose memory operand has this displacement.
///
/// The operands have to be those of the line: each in its place and no other, numbers below 16, the immediate of so many
/// bytes. Nothing here tests it. Where they aren't, a build that wasn't proved may make the code of a wrong instruction.
#[inline(always)]
pub fn code_by_heads(
    entry: Entry,
    heads: &[u64; 4],
    reg: u8,
    vvvv: u8,
    place: &FlatPlace,
    imm: u32,
    displacement: i32,
) -> Code
    requires reg { has_register (entry_line entry).tail ≡ false → reg ≡ 0 }
    requires vvvv { has_vvvv (entry_line entry).prefix ≡ false → vvvv ≡ 0 }
    requires fits { IsTrue (fits (entry_line entry) (form_named (entry_line entry) (placed_form (entry_line entry) reg vvvv place.now imm))) }
    requires imm { HasImmWord (entry_line entry) (placed_form (entry_line entry) reg vvvv place.now imm) }
    requires heads { are_heads (entry_line entry) heads.now ≡ true }
    requires real { IsTrue (form_is_real (placed_form (entry_line entry) reg vvvv place.now imm)) }
    ensures encodes { EncodesLine (line_form_parts plain.enc (entry_line entry) displacement (form_named (entry_line entry) (placed_form (entry_line entry) reg vvvv place.now imm))) (memory_in (place_named (placed place.now))) (code_actions result) }
    ensures length { length (all_bytes (code_actions result)) ≡ line_len (entry_line entry) (line_form_parts plain.enc (entry_line entry) displacement (form_named (entry_line entry) (placed_form (entry_line entry) reg vvvv place.now imm))) }
    ensures is { IsCode result }
{
    let imm_len = entry.imm_len();
    // The head comes first, so that less has to be kept beside it.
    let head = head(entry, heads, reg, vvvv, place);
    // Where there is a digit there is no register, which then counts as 0.
    let tail = tail_part(place, (reg + entry.digit()) % 8, displacement, imm_len);
    Code {
        trap: place.trap,
        front: head.append(tail.front),
        target: tail.target,
        long: tail.long,
        imm,
        imm_len,
    }
}
