//! Places in memory.

ghost use Rattle.std.specs.Prelude.{◌≡◌, None, Some, pos};

use crate::registers::Reg;
use cranelift_assembler_x64::{
    Amode, AmodeOffset, AmodeOffsetPlusKnownOffset, DeferredTarget, KnownOffset, NonRspGpr, Scale,
};

/// The key of the size of the frame, which is known once all registers are assigned.
pub const FRAME: KnownOffset = 0;

/// The bytes behind a register.
pub fn behind(base: Reg, bytes: i32) -> Amode<Reg>
    ensures { result ≡ Amode.ImmReg base (record { simm32 = bytes; offset = None }) None }
{
    Amode::ImmReg {
        base,
        simm32: AmodeOffsetPlusKnownOffset {
            simm32: AmodeOffset::new(bytes),
            offset: None,
        },
        trap: None,
    }
}

/// An argument of the function, so many bytes above the frame, whose size the sink knows.
pub fn argument(bytes: i32) -> Amode<Reg>
    ensures { result ≡ Amode.ImmReg (record { 0 = 4 }) (record { simm32 = bytes; offset = Some FRAME }) None }
{
    Amode::ImmReg {
        base: Reg(4),
        simm32: AmodeOffsetPlusKnownOffset {
            simm32: AmodeOffset::new(bytes),
            offset: Some(FRAME),
        },
        trap: None,
    }
}

/// A word of four bytes in an array.
pub fn element(base: Reg, index: Reg) -> Amode<Reg>
    ensures { result ≡ Amode.ImmRegRegShift base index Scale.Four (pos 0) None }
{
    Amode::ImmRegRegShift {
        base,
        index: NonRspGpr::new(index),
        scale: Scale::Four,
        simm32: AmodeOffset::ZERO,
        trap: None,
    }
}

/// A place that is settled later, counted from the end of the instruction.
pub fn at(target: DeferredTarget) -> Amode<Reg>
    ensures { result ≡ Amode.RipRelative target }
{
    Amode::RipRelative { target }
}
