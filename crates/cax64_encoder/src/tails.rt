//! The tail of a base, looked up. (Intel SDM, volume 2, 2.1.5, tables 2-2 and 2-3.)

ghost use Rattle.std.specs.Prelude.{◌≡◌, ◌==◌, ◌<◌, ◌≤◌, ◌+◌, ◌/◌, ◌%◌, not, nat_lt, [], length, Some};
ghost use Rattle.cax64_address.specs.Emitted.{TailOf};
ghost use Rattle.cax64_address.specs.Memory.{index_named, option_when};
ghost use Rattle.cax64_encoder.specs.Code.{tail_actions};
ghost use Rattle.cax64_encoder.specs.Tails.{base_entry, width_of_word};
ghost use Rattle.cax64_machine_code.specs.Fields.{IsBytes};
ghost use Rattle.cax64_machine_code.specs.Len.{least_tail};
ghost use Rattle.cax64_sink.specs.Run.{all_bytes};

use crate::code::TailPart;
use crate::short::Short;
use cax64_address::amode::Scale;
use cax64_address::disp::encode_modrm;
use cax64_machine_code::reading::Place;

/// For a base without an index and with one, each width of its displacement (0, one byte, four bytes) and the low bits of the
/// base: ModR/M but its reg field; what SIB and a displacement of one byte are multiplied by to stand behind it, 0 where
/// there is none; and how many bytes these are.
const TAILS: [[u32; 4]; 48] = [
    [0, 0, 0, 1],
    [1, 0, 0, 1],
    [2, 0, 0, 1],
    [3, 0, 0, 1],
    [4, 0x100, 0, 2],
    [0x45, 0, 0x100, 2],
    [6, 0, 0, 1],
    [7, 0, 0, 1],
    [0x40, 0, 0x100, 2],
    [0x41, 0, 0x100, 2],
    [0x42, 0, 0x100, 2],
    [0x43, 0, 0x100, 2],
    [0x44, 0x100, 0x1_0000, 3],
    [0x45, 0, 0x100, 2],
    [0x46, 0, 0x100, 2],
    [0x47, 0, 0x100, 2],
    [0x80, 0, 0, 1],
    [0x81, 0, 0, 1],
    [0x82, 0, 0, 1],
    [0x83, 0, 0, 1],
    [0x84, 0x100, 0, 2],
    [0x85, 0, 0, 1],
    [0x86, 0, 0, 1],
    [0x87, 0, 0, 1],
    [4, 0x100, 0, 2],
    [4, 0x100, 0, 2],
    [4, 0x100, 0, 2],
    [4, 0x100, 0, 2],
    [4, 0x100, 0, 2],
    [0x44, 0x100, 0x1_0000, 3],
    [4, 0x100, 0, 2],
    [4, 0x100, 0, 2],
    [0x44, 0x100, 0x1_0000, 3],
    [0x44, 0x100, 0x1_0000, 3],
    [0x44, 0x100, 0x1_0000, 3],
    [0x44, 0x100, 0x1_0000, 3],
    [0x44, 0x100, 0x1_0000, 3],
    [0x44, 0x100, 0x1_0000, 3],
    [0x44, 0x100, 0x1_0000, 3],
    [0x44, 0x100, 0x1_0000, 3],
    [0x84, 0x100, 0, 2],
    [0x84, 0x100, 0, 2],
    [0x84, 0x100, 0, 2],
    [0x84, 0x100, 0, 2],
    [0x84, 0x100, 0, 2],
    [0x84, 0x100, 0, 2],
    [0x84, 0x100, 0, 2],
    [0x84, 0x100, 0, 2],
];

/// Whether a displacement takes four bytes: from -128 on to 127 a byte holds it.
#[inline(always)]
fn is_long(word: u32) -> bool
    ensures { result ≡ not (nat_lt ((word + 128) % 4294967296) 256) }
{
    word.wrapping_add(128) >= 256
}

/// A displacement as four bytes, if it takes as many.
#[inline(always)]
fn long(word: u32) -> Option<u32>
    ensures { result ≡ option_when (width_of_word word == 2) word }
{
    if is_long(word) { Some(word) } else { None }
}

#[inline(always)]
fn entry(has_index: bool, word: u32, base: u8) -> [u32; 4]
    ensures { result ≡ base_entry has_index (width_of_word word) (base % 8) }
{
    let width = u8::from(word != 0) + u8::from(is_long(word));
    let entry = &TAILS[usize::from(has_index) * 24
        + usize::from(width) * 8
        + usize::from(base % 8)];
    *entry
}

/// The tail of a base; number 4 is no index. Nothing is tested: a branch would cost more.
#[inline(always)]
pub(crate) fn base_part(
    reg: u8,
    base: u8,
    has_index: bool,
    index: u8,
    scale: Scale,
    displacement: i32,
) -> TailPart
    requires reg { reg < 8 }
    requires base { base < 16 }
    requires index { index < 16 }
    requires has_index { has_index ≡ not (index == 4) }
    ensures tail { TailOf (index / 8) (base / 8) 1 reg (Place.Mem (Some base) (index_named index scale) displacement) (λ at. []) (tail_actions result) }
    ensures bytes { IsBytes (all_bytes (tail_actions result)) }
    ensures length { length (all_bytes (tail_actions result)) ≡ least_tail (Place.Mem (Some base) (index_named index scale) displacement) }
    ensures few { length result.front ≤ 3 }
{
    let word = displacement.cast_unsigned();
    let [front, sib_unit, byte_unit, len] = entry(has_index, word, base);
    let sib = u32::from(encode_modrm(scale.enc(), index % 8, base % 8));
    let front = front + u32::from(reg) * 8 + sib * sib_unit + word % 256 * byte_unit;
    TailPart {
        front: Short::of_word(u64::from(front), len as u8),
        target: None,
        long: long(word),
    }
}
