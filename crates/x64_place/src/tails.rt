//! The tail of a place, looked up.

ghost use Rattle.std.specs.Prelude.{◌≡◌, ◌≢◌, ◌<◌, ◌≤◌, false, true, length};
ghost use Rattle.cax64_encoder.specs.Code.{tail_actions};
ghost use Rattle.x64_place.specs.Kind.{has_index, is_present, is_relative};
ghost use Rattle.x64_place.specs.Operand.{place_operand};
ghost use Rattle.cax64_encoder.specs.Tails.{width_of_word};
ghost use Rattle.x64_place.specs.Tail.{front_of, kind_number, long_of, tail_entry};
ghost use Rattle.x64_place.specs.TailPart.{IsTailPart};

use crate::place::{FlatPlace, PlaceKind};
use cax64_address::disp::encode_modrm;
use cax64_encoder::code::TailPart;
use cax64_encoder::short::Short;

/// For each kind of place, each width of its displacement (0, one byte, four bytes; a fourth one isn't asked for) and the
/// low bits of its base or register: what a displacement of one byte and a SIB byte are multiplied by to stand behind
/// ModR/M, 0 where there is none; ModR/M but its reg field; how many bytes these are; and 1 or 0, whether four bytes of
/// displacement follow.
const TAILS: [[u32; 5]; 224] = [
    [0, 0, 0, 0, 0],
    [0, 0, 0, 0, 0],
    [0, 0, 0, 0, 0],
    [0, 0, 0, 0, 0],
    [0, 0, 0, 0, 0],
    [0, 0, 0, 0, 0],
    [0, 0, 0, 0, 0],
    [0, 0, 0, 0, 0],
    [0, 0, 0, 0, 0],
    [0, 0, 0, 0, 0],
    [0, 0, 0, 0, 0],
    [0, 0, 0, 0, 0],
    [0, 0, 0, 0, 0],
    [0, 0, 0, 0, 0],
    [0, 0, 0, 0, 0],
    [0, 0, 0, 0, 0],
    [0, 0, 0, 0, 0],
    [0, 0, 0, 0, 0],
    [0, 0, 0, 0, 0],
    [0, 0, 0, 0, 0],
    [0, 0, 0, 0, 0],
    [0, 0, 0, 0, 0],
    [0, 0, 0, 0, 0],
    [0, 0, 0, 0, 0],
    [0, 0, 0, 0, 0],
    [0, 0, 0, 0, 0],
    [0, 0, 0, 0, 0],
    [0, 0, 0, 0, 0],
    [0, 0, 0, 0, 0],
    [0, 0, 0, 0, 0],
    [0, 0, 0, 0, 0],
    [0, 0, 0, 0, 0],
    [0, 0, 0xc0, 1, 0],
    [0, 0, 0xc1, 1, 0],
    [0, 0, 0xc2, 1, 0],
    [0, 0, 0xc3, 1, 0],
    [0, 0, 0xc4, 1, 0],
    [0, 0, 0xc5, 1, 0],
    [0, 0, 0xc6, 1, 0],
    [0, 0, 0xc7, 1, 0],
    [0, 0, 0xc0, 1, 0],
    [0, 0, 0xc1, 1, 0],
    [0, 0, 0xc2, 1, 0],
    [0, 0, 0xc3, 1, 0],
    [0, 0, 0xc4, 1, 0],
    [0, 0, 0xc5, 1, 0],
    [0, 0, 0xc6, 1, 0],
    [0, 0, 0xc7, 1, 0],
    [0, 0, 0xc0, 1, 0],
    [0, 0, 0xc1, 1, 0],
    [0, 0, 0xc2, 1, 0],
    [0, 0, 0xc3, 1, 0],
    [0, 0, 0xc4, 1, 0],
    [0, 0, 0xc5, 1, 0],
    [0, 0, 0xc6, 1, 0],
    [0, 0, 0xc7, 1, 0],
    [0, 0, 0xc0, 1, 0],
    [0, 0, 0xc1, 1, 0],
    [0, 0, 0xc2, 1, 0],
    [0, 0, 0xc3, 1, 0],
    [0, 0, 0xc4, 1, 0],
    [0, 0, 0xc5, 1, 0],
    [0, 0, 0xc6, 1, 0],
    [0, 0, 0xc7, 1, 0],
    [0, 0, 0, 1, 0],
    [0, 0, 0x1, 1, 0],
    [0, 0, 0x2, 1, 0],
    [0, 0, 0x3, 1, 0],
    [0, 0x100, 0x4, 2, 0],
    [0x100, 0, 0x45, 2, 0],
    [0, 0, 0x6, 1, 0],
    [0, 0, 0x7, 1, 0],
    [0x100, 0, 0x40, 2, 0],
    [0x100, 0, 0x41, 2, 0],
    [0x100, 0, 0x42, 2, 0],
    [0x100, 0, 0x43, 2, 0],
    [0x10000, 0x100, 0x44, 3, 0],
    [0x100, 0, 0x45, 2, 0],
    [0x100, 0, 0x46, 2, 0],
    [0x100, 0, 0x47, 2, 0],
    [0, 0, 0x80, 1, 1],
    [0, 0, 0x81, 1, 1],
    [0, 0, 0x82, 1, 1],
    [0, 0, 0x83, 1, 1],
    [0, 0x100, 0x84, 2, 1],
    [0, 0, 0x85, 1, 1],
    [0, 0, 0x86, 1, 1],
    [0, 0, 0x87, 1, 1],
    [0, 0, 0x80, 1, 1],
    [0, 0, 0x81, 1, 1],
    [0, 0, 0x82, 1, 1],
    [0, 0, 0x83, 1, 1],
    [0, 0x100, 0x84, 2, 1],
    [0, 0, 0x85, 1, 1],
    [0, 0, 0x86, 1, 1],
    [0, 0, 0x87, 1, 1],
    [0, 0x100, 0x4, 2, 0],
    [0, 0x100, 0x4, 2, 0],
    [0, 0x100, 0x4, 2, 0],
    [0, 0x100, 0x4, 2, 0],
    [0, 0x100, 0x4, 2, 0],
    [0x10000, 0x100, 0x44, 3, 0],
    [0, 0x100, 0x4, 2, 0],
    [0, 0x100, 0x4, 2, 0],
    [0x10000, 0x100, 0x44, 3, 0],
    [0x10000, 0x100, 0x44, 3, 0],
    [0x10000, 0x100, 0x44, 3, 0],
    [0x10000, 0x100, 0x44, 3, 0],
    [0x10000, 0x100, 0x44, 3, 0],
    [0x10000, 0x100, 0x44, 3, 0],
    [0x10000, 0x100, 0x44, 3, 0],
    [0x10000, 0x100, 0x44, 3, 0],
    [0, 0x100, 0x84, 2, 1],
    [0, 0x100, 0x84, 2, 1],
    [0, 0x100, 0x84, 2, 1],
    [0, 0x100, 0x84, 2, 1],
    [0, 0x100, 0x84, 2, 1],
    [0, 0x100, 0x84, 2, 1],
    [0, 0x100, 0x84, 2, 1],
    [0, 0x100, 0x84, 2, 1],
    [0, 0x100, 0x84, 2, 1],
    [0, 0x100, 0x84, 2, 1],
    [0, 0x100, 0x84, 2, 1],
    [0, 0x100, 0x84, 2, 1],
    [0, 0x100, 0x84, 2, 1],
    [0, 0x100, 0x84, 2, 1],
    [0, 0x100, 0x84, 2, 1],
    [0, 0x100, 0x84, 2, 1],
    [0, 0, 0x5, 1, 1],
    [0, 0, 0x5, 1, 1],
    [0, 0, 0x5, 1, 1],
    [0, 0, 0x5, 1, 1],
    [0, 0, 0x5, 1, 1],
    [0, 0, 0x5, 1, 1],
    [0, 0, 0x5, 1, 1],
    [0, 0, 0x5, 1, 1],
    [0, 0, 0x5, 1, 1],
    [0, 0, 0x5, 1, 1],
    [0, 0, 0x5, 1, 1],
    [0, 0, 0x5, 1, 1],
    [0, 0, 0x5, 1, 1],
    [0, 0, 0x5, 1, 1],
    [0, 0, 0x5, 1, 1],
    [0, 0, 0x5, 1, 1],
    [0, 0, 0x5, 1, 1],
    [0, 0, 0x5, 1, 1],
    [0, 0, 0x5, 1, 1],
    [0, 0, 0x5, 1, 1],
    [0, 0, 0x5, 1, 1],
    [0, 0, 0x5, 1, 1],
    [0, 0, 0x5, 1, 1],
    [0, 0, 0x5, 1, 1],
    [0, 0, 0x5, 1, 1],
    [0, 0, 0x5, 1, 1],
    [0, 0, 0x5, 1, 1],
    [0, 0, 0x5, 1, 1],
    [0, 0, 0x5, 1, 1],
    [0, 0, 0x5, 1, 1],
    [0, 0, 0x5, 1, 1],
    [0, 0, 0x5, 1, 1],
    [0, 0, 0x5, 1, 1],
    [0, 0, 0x5, 1, 1],
    [0, 0, 0x5, 1, 1],
    [0, 0, 0x5, 1, 1],
    [0, 0, 0x5, 1, 1],
    [0, 0, 0x5, 1, 1],
    [0, 0, 0x5, 1, 1],
    [0, 0, 0x5, 1, 1],
    [0, 0, 0x5, 1, 1],
    [0, 0, 0x5, 1, 1],
    [0, 0, 0x5, 1, 1],
    [0, 0, 0x5, 1, 1],
    [0, 0, 0x5, 1, 1],
    [0, 0, 0x5, 1, 1],
    [0, 0, 0x5, 1, 1],
    [0, 0, 0x5, 1, 1],
    [0, 0, 0x5, 1, 1],
    [0, 0, 0x5, 1, 1],
    [0, 0, 0x5, 1, 1],
    [0, 0, 0x5, 1, 1],
    [0, 0, 0x5, 1, 1],
    [0, 0, 0x5, 1, 1],
    [0, 0, 0x5, 1, 1],
    [0, 0, 0x5, 1, 1],
    [0, 0, 0x5, 1, 1],
    [0, 0, 0x5, 1, 1],
    [0, 0, 0x5, 1, 1],
    [0, 0, 0x5, 1, 1],
    [0, 0, 0x5, 1, 1],
    [0, 0, 0x5, 1, 1],
    [0, 0, 0x5, 1, 1],
    [0, 0, 0x5, 1, 1],
    [0, 0, 0x5, 1, 1],
    [0, 0, 0x5, 1, 1],
    [0, 0, 0x5, 1, 1],
    [0, 0, 0x5, 1, 1],
    [0, 0, 0x5, 1, 1],
    [0, 0, 0x5, 1, 1],
    [0, 0, 0x5, 1, 1],
    [0, 0, 0x5, 1, 1],
    [0, 0, 0x5, 1, 1],
    [0, 0, 0x5, 1, 1],
    [0, 0, 0x5, 1, 1],
    [0, 0, 0x5, 1, 1],
    [0, 0, 0x5, 1, 1],
    [0, 0, 0x5, 1, 1],
    [0, 0, 0x5, 1, 1],
    [0, 0, 0x5, 1, 1],
    [0, 0, 0x5, 1, 1],
    [0, 0, 0x5, 1, 1],
    [0, 0, 0x5, 1, 1],
    [0, 0, 0x5, 1, 1],
    [0, 0, 0x5, 1, 1],
    [0, 0, 0x5, 1, 1],
    [0, 0, 0x5, 1, 1],
    [0, 0, 0x5, 1, 1],
    [0, 0, 0x5, 1, 1],
    [0, 0, 0x5, 1, 1],
    [0, 0, 0x5, 1, 1],
    [0, 0, 0x5, 1, 1],
    [0, 0, 0x5, 1, 1],
    [0, 0, 0x5, 1, 1],
    [0, 0, 0x5, 1, 1],
    [0, 0, 0x5, 1, 1],
];

#[inline(always)]
fn kind_number(kind: PlaceKind) -> usize
    ensures is { result ≡ kind_number kind }
    ensures below { result < 7 }
{
    match kind {
        PlaceKind::Absent => 0,
        PlaceKind::Register => 1,
        PlaceKind::Base => 2,
        PlaceKind::BaseAndIndex => 3,
        PlaceKind::Label => 4,
        PlaceKind::Constant => 5,
        PlaceKind::NoTarget => 6,
    }
}

#[inline(always)]
fn entry(kind: PlaceKind, width: u8, low: u8) -> [u32; 5]
    requires width { width < 3 }
    requires low { low < 8 }
    ensures { result ≡ tail_entry kind width low }
{
    let entry = &TAILS[kind_number(kind) * 32 + usize::from(width) * 8 + usize::from(low)];
    *entry
}

/// The width of a displacement: 0 for none, 1 for one byte, 2 for four.
#[inline(always)]
fn width_of_word(word: u32) -> u8
    ensures is { result ≡ width_of_word word }
    ensures below { result < 3 }
{
    // From -128 on to 127 a byte holds it.
    u8::from(word != 0) + u8::from(word.wrapping_add(128) >= 256)
}

/// ModR/M, SIB and a displacement of one byte, by what the table has.
#[inline(always)]
fn front(entry: [u32; 5], kind: PlaceKind, width: u8, low: u8, reg: u8, sib: u8, byte: u8) -> Short
    requires entry { entry ≡ tail_entry kind width low }
    requires width { width < 3 }
    requires low { low < 8 }
    requires reg { reg < 8 }
    requires bare { is_present kind ≡ false → reg ≡ 0 }
    ensures bytes { result ≡ front_of kind width low reg sib byte }
    ensures few { length result ≤ 3 }
{
    let [byte_unit, sib_unit, modrm, len, _] = entry;
    let word = modrm + u32::from(reg) * 8 + u32::from(sib) * sib_unit + u32::from(byte) * byte_unit;
    Short::of_word(u64::from(word), len as u8)
}

/// A displacement of four bytes, if there is one: this word, or in a place relative to the end minus the number of bytes of
/// immediate behind it.
#[inline(always)]
fn long(
    entry: [u32; 5],
    kind: PlaceKind,
    width: u8,
    low: u8,
    word: u32,
    bytes_at_end: u8,
) -> Option<u32>
    requires entry { entry ≡ tail_entry kind width low }
    requires width { width < 3 }
    requires low { low < 8 }
    ensures { result ≡ long_of kind width word bytes_at_end }
{
    let [_, _, _, _, stands] = entry;
    let back = (-i32::from(bytes_at_end)).cast_unsigned();
    let word = if kind.is_relative() { back } else { word };
    if stands != 0 { Some(word) } else { None }
}

/// The tail of a place, with this number in reg, before this many bytes of immediate. Nothing is tested but what a table
/// says: a branch on what the place is would often be guessed wrong.
#[inline(always)]
pub(crate) fn tail_part(place: &FlatPlace, reg: u8, displacement: i32, bytes_at_end: u8) -> TailPart
    requires reg { reg < 8 }
    requires base { place.now.base < 16 }
    requires index { place.now.index < 16 }
    requires non_rsp { has_index place.now.kind ≡ true → place.now.index ≢ 4 }
    requires bare { is_present place.now.kind ≡ false → reg ≡ 0 }
    ensures tail { IsTailPart (place_operand place.now) displacement bytes_at_end reg (tail_actions result) }
    ensures few { length result.front ≤ 3 }
{
    let word = displacement.cast_unsigned();
    let width = width_of_word(word);
    let low = place.base % 8;
    let sib = encode_modrm(place.scale.enc(), place.index % 8, low);
    let entry = entry(place.kind, width, low);
    TailPart {
        front: front(entry, place.kind, width, low, reg, sib, (word % 256) as u8),
        target: place.relative(),
        long: long(entry, place.kind, width, low, word, bytes_at_end),
    }
}
