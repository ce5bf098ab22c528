//! What stands in the fields of a line.

ghost use Rattle.std.specs.Prelude.{◌≡◌, ◌≤◌, ◌<◌, ◌+◌, ◌*◌, ◌^◌, ◌==◌, ◌&&◌};
ghost use Rattle.cax64_machine_code.specs.Len.{is_w1, legacy_len, opcode_len};
ghost use Rattle.cax64_machine_code.specs.Line.{imm_bytes};
ghost use Rattle.cax64_table.specs.Entry.{has_tail, join, legacy_word, legacy_word_of, legacy_len_of, opcode_word};
ghost use Rattle.cax64_table.specs.Numbers.{digit_of, has_8bit, has_l, has_map, has_pp, has_register, has_vvvv, is_vex};

use cax64_machine_code::line::{
    ImmField, LegacySet, Opcode, PlaceField, PrefixField, RegField, TailField, VvvvField,
};

pub(crate) fn imm_len(imm: ImmField) -> u8
    ensures { result ≡ imm_bytes imm }
{
    match imm {
        ImmField::NoImm => 0,
        ImmField::Imm(size) | ImmField::Simm(size) => size,
    }
}

pub(crate) fn is_w1(w: Option<u8>) -> bool
    ensures { result ≡ is_w1 w }
{
    match w {
        None => false,
        Some(only) => only == 1,
    }
}

pub(crate) fn has_tail(tail: TailField) -> bool
    ensures { result ≡ has_tail tail }
{
    match tail {
        TailField::NoTail => false,
        TailField::Modrm(_, _) => true,
    }
}

pub(crate) fn digit(tail: TailField) -> u8
    ensures { result ≡ digit_of tail }
{
    match tail {
        TailField::Modrm(RegField::Digit(digit), _) => digit,
        _ => 0,
    }
}

pub(crate) fn has_register(tail: TailField) -> bool
    ensures { result ≡ has_register tail }
{
    match tail {
        TailField::Modrm(RegField::Register8 | RegField::Register, _) => true,
        _ => false,
    }
}

pub(crate) fn has_8bit(tail: TailField) -> bool
    ensures { result ≡ has_8bit tail }
{
    match tail {
        TailField::NoTail => false,
        TailField::Modrm(RegField::Register8, _) => true,
        TailField::Modrm(_, PlaceField::Register8OrMemory) => true,
        TailField::Modrm(_, _) => false,
    }
}

pub(crate) fn is_vex(prefix: PrefixField) -> bool
    ensures { result ≡ is_vex prefix }
{
    match prefix {
        PrefixField::LegacyField(_, _) => false,
        PrefixField::VexField(_, _, _, _) => true,
    }
}

pub(crate) fn has_vvvv(prefix: PrefixField) -> bool
    ensures { result ≡ has_vvvv prefix }
{
    match prefix {
        PrefixField::VexField(_, _, _, VvvvField::VvvvRegister) => true,
        _ => false,
    }
}

/// Whether these are pp, map and L, where there is VEX.
pub(crate) fn has_vex_fields(prefix: PrefixField, pp: u8, map: u8, l: u8) -> bool
    ensures { result ≡ (has_pp prefix pp && (has_map prefix map && has_l prefix l)) }
{
    match prefix {
        PrefixField::LegacyField(_, _) => true,
        PrefixField::VexField(its_pp, its_map, its_l, _) => {
            (pp == its_pp) & ((map == its_map) & (l == its_l))
        }
    }
}

/// How many legacy prefixes but REX there are.
pub(crate) fn legacy_len(set: LegacySet) -> u8
    ensures is { result ≡ legacy_len set }
    ensures few { result ≤ 4 }
{
    u8::from(set.lock) + u8::from(set.operand_size) + u8::from(set.repne) + u8::from(set.rep)
}

/// A byte before a word, if it stands.
fn join(stands: bool, byte: u8, word: u64) -> u64
    requires { word < 2 ^ 48 }
    ensures is { result ≡ join stands byte word }
    ensures below { result ≤ 255 + 256 * word }
{
    if stands {
        u64::from(byte) + 256 * word
    } else {
        word
    }
}

fn legacy_word(set: LegacySet) -> u64
    ensures { result ≡ legacy_word set }
{
    let last = join(set.repne, 0xF2, join(set.rep, 0xF3, 0));
    join(set.lock, 0xF0, join(set.operand_size, 0x66, last))
}

/// Whether these are the legacy prefixes but REX, as a word, and how many they are.
pub(crate) fn has_legacy(prefix: PrefixField, word: u64, len: u8) -> bool
    ensures { result ≡ ((word == legacy_word_of prefix) && (len == legacy_len_of prefix)) }
{
    match prefix {
        PrefixField::LegacyField(set, _) => (word == legacy_word(set)) & (len == legacy_len(set)),
        PrefixField::VexField(_, _, _, _) => (word == 0) & (len == 0),
    }
}

/// Whether this is the opcode with the 0F before it, as a word, and whether there is one.
pub(crate) fn has_opcode(opcode: Opcode, word: u64, escape: u8) -> bool
    requires { escape < 2 }
    ensures { result ≡ ((word == opcode_word opcode) && (1 + escape == opcode_len opcode)) }
{
    let byte = u64::from(opcode.byte);
    if opcode.escape {
        (word == 0x0F + 256 * byte) & (escape == 1)
    } else {
        (word == byte) & (escape == 0)
    }
}
