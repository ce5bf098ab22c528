//! Operands in memory.

ghost use Rattle.std.specs.Prelude.{◌≡◌, None};

use cax64_address::amode::{Amode, Scale};
use cax64_address::offset::{AmodeOffset, AmodeOffsetPlusKnownOffset};
use cax64_register::NonRspGpr;

/// A base and a displacement, with no late offset and no trap.
pub fn base_and_displacement(base: u8, displacement: i32) -> Amode<u8>
    ensures { result ≡ Amode.ImmReg base (record { simm32 = displacement; offset = None }) None }
{
    let simm32 = AmodeOffsetPlusKnownOffset {
        simm32: AmodeOffset::new(displacement),
        offset: None,
    };
    Amode::ImmReg {
        base,
        simm32,
        trap: None,
    }
}

/// A base, an index times a scale, and a displacement, with no trap.
pub fn base_and_index(base: u8, index: u8, scale: Scale, displacement: i32) -> Amode<u8>
    ensures { result ≡ Amode.ImmRegRegShift base index scale displacement None }
{
    Amode::ImmRegRegShift {
        base,
        index: NonRspGpr::new(index),
        scale,
        simm32: AmodeOffset::new(displacement),
        trap: None,
    }
}
