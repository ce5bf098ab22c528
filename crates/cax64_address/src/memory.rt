//! The tail of a base without a factor, for the encoder's common path. (Intel SDM, volume 2, 2.1.3 and 2.1.5.)

ghost use Rattle.std.specs.Prelude.{◌≡◌, ◌/◌, ◌<◌, [], Some, length};
ghost use Rattle.cax64_address.specs.Emitted.{TailOf};
ghost use Rattle.cax64_address.specs.Length.{least_tail_under};
ghost use Rattle.cax64_address.specs.Memory.{index_named, memory_actions};
ghost use Rattle.cax64_machine_code.specs.Fields.{IsBytes};
ghost use Rattle.cax64_sink.specs.Run.{all_bytes};

use crate::amode::Scale;
use crate::disp::encode_modrm;
use cax64_machine_code::reading::Place;

/// A tail of a base as bytes that stand or don't: nothing is tested, so that nothing is guessed (a branch would cost
/// more).
#[derive(Clone, Copy)]
pub struct MemoryTail {
    pub modrm: u8,
    pub sib: u8,
    /// Whether the SIB byte stands.
    pub has_sib: bool,
    /// The displacement as one byte.
    pub byte: u8,
    pub has_byte: bool,
    /// A displacement of four bytes.
    pub long: Option<u32>,
}

/// The tail of a base, an index and a displacement; index 4 means that there is none, whatever the scale. (Intel SDM,
/// volume 2, tables 2-2 and 2-3.)
#[inline(always)]
pub fn memory_tail(reg: u8, base: u8, index: u8, scale: Scale, displacement: i32) -> MemoryTail
    requires reg { reg < 8 }
    requires base { base < 16 }
    requires index { index < 16 }
    ensures tail { TailOf (index / 8) (base / 8) 1 reg (Place.Mem (Some base) (index_named index scale) displacement) (λ at. []) (memory_actions result) }
    ensures bytes { IsBytes (all_bytes (memory_actions result)) }
    ensures length { length (all_bytes (memory_actions result)) ≡ least_tail_under 1 (Place.Mem (Some base) (index_named index scale) displacement) }
{
    let low = base & 7;
    let has_sib = (index != 4) | (low == 4);
    let word = displacement.cast_unsigned();
    // From -128 on to 127.
    let is_byte = word.wrapping_add(128) < 256;
    let has_byte = is_byte & ((word != 0) | (low == 5));
    let m0d = u8::from(has_byte) + 2 * u8::from(!is_byte);
    let rm = if has_sib { 4 } else { low };
    MemoryTail {
        modrm: encode_modrm(m0d, reg, rm),
        sib: encode_modrm(scale.enc(), index & 7, low),
        has_sib,
        byte: (word % 256) as u8,
        has_byte,
        long: if is_byte { None } else { Some(word) },
    }
}
