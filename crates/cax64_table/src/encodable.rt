//! Whether a line can be encoded.

ghost use Rattle.std.specs.Prelude.{◌≡◌, ◌≤◌, ◌<◌};
ghost use Rattle.cax64_machine_code.specs.Len.{opcode_len};
ghost use Rattle.cax64_table.specs.Entry.{first_byte, has_imm_len, is_8bit_once, is_digit, is_line, is_plain, is_prefix_field, is_w, is_w0, prefix_size, tail_size};

use crate::fields::{has_8bit, has_tail, imm_len, is_vex, legacy_len};
use cax64_machine_code::line::{Line, Opcode, PlaceField, PrefixField, RegField, TailField};

fn is_plain(byte: u8) -> bool
    ensures { result ≡ is_plain byte }
{
    let legacy = byte == 0xF0 || byte == 0x66 || byte == 0xF2 || byte == 0xF3;
    !(legacy || byte / 16 == 4 || byte == 0xC4 || byte == 0xC5)
}

/// The first byte of an opcode begins no prefix.
fn is_opcode(opcode: Opcode) -> bool
    ensures is { result ≡ is_plain (first_byte opcode) }
    ensures below { opcode.byte < 256 }
{
    let byte = opcode.byte;
    is_plain(if opcode.escape { 0x0F } else { byte })
}

fn is_prefix_field(prefix: PrefixField, opcode: Opcode, tail: TailField) -> bool
    ensures { result ≡ is_prefix_field prefix opcode tail }
{
    match prefix {
        PrefixField::LegacyField(set, rex) => !(set.repne && set.rep) && (rex || !has_tail(tail)),
        PrefixField::VexField(pp, map, l, _) => {
            pp < 4 && 1 <= map && map <= 3 && l < 2 && !opcode.escape && has_tail(tail)
        }
    }
}

fn is_w(w: Option<u8>) -> bool
    ensures { result ≡ is_w w }
{
    match w {
        None => true,
        Some(w) => w < 2,
    }
}

fn is_w0(w: Option<u8>) -> bool
    ensures { result ≡ is_w0 w }
{
    match w {
        None => true,
        Some(w) => w == 0,
    }
}

fn is_digit(tail: TailField) -> bool
    ensures { result ≡ is_digit tail }
{
    match tail {
        TailField::Modrm(RegField::Digit(digit), _) => digit < 8,
        _ => true,
    }
}

/// An 8-bit register stands in reg beside memory alone, and an 8-bit place beside a digit alone.
fn is_8bit_once(tail: TailField) -> bool
    ensures { result ≡ is_8bit_once tail }
{
    match tail {
        TailField::NoTail | TailField::Modrm(RegField::Digit(_), _) => true,
        TailField::Modrm(RegField::Register8, field) => matches!(field, PlaceField::Memory),
        TailField::Modrm(RegField::Register, field) => {
            !matches!(field, PlaceField::Register8OrMemory)
        }
    }
}

fn prefix_size(prefix: PrefixField) -> u16
    ensures is { result ≡ prefix_size prefix }
    ensures few { result ≤ 5 }
{
    match prefix {
        PrefixField::LegacyField(set, _) => u16::from(legacy_len(set)) + 1,
        PrefixField::VexField(_, _, _, _) => 3,
    }
}

fn opcode_len(opcode: Opcode) -> u16
    ensures is { result ≡ opcode_len opcode }
    ensures few { result ≤ 2 }
{
    if opcode.escape { 2 } else { 1 }
}

fn tail_size(tail: TailField) -> u16
    ensures is { result ≡ tail_size tail }
    ensures few { result ≤ 6 }
{
    match tail {
        TailField::NoTail => 0,
        TailField::Modrm(_, _) => 6,
    }
}

/// Whether there are immediates of so many bytes.
pub(crate) fn has_imm_len(len: u8) -> bool
    ensures { result ≡ has_imm_len len }
{
    len == 0 || len == 1 || len == 2 || len == 4
}

/// Whether the encoder can write each instruction of a line.
pub(crate) fn is_line(line: Line) -> bool
    ensures { result ≡ is_line line }
{
    let prefix = prefix_size(line.prefix);
    let opcode_and_tail = opcode_len(line.opcode)
        + (tail_size(line.tail) + u16::from(imm_len(line.imm)));
    let is_short = (prefix <= 3) & (prefix + opcode_and_tail <= 13);
    let is_one_8bit = is_8bit_once(line.tail)
        & (!(is_vex(line.prefix) & has_8bit(line.tail)) & is_short);
    let is_wide = is_w(line.w)
        & ((has_tail(line.tail) | is_w0(line.w)) & (is_digit(line.tail) & is_one_8bit));
    is_opcode(line.opcode) & (is_prefix_field(line.prefix, line.opcode, line.tail) & is_wide)
}
