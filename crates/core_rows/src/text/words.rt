//! What the tests say of texts and addresses.

use cax64_address::amode::{Amode, Scale};
use cax64_address::offset::{AmodeOffset, AmodeOffsetPlusKnownOffset};
use cax64_register::NonRspGpr;
use std::alloc::{AllocError, Allocator};
use x64_text::CoreText;

/// The text of anything that has one, empty where it has none.
pub fn text_of<T: CoreText, A: Allocator + Copy>(
    alloc: A,
    inst: &T,
) -> Result<String<A>, AllocError> {
    if inst.nameable() {
        inst.to_string(alloc)
    } else {
        Ok(String::new(alloc))
    }
}

/// Whether an instruction prints so.
pub fn prints<T: CoreText, A: Allocator + Copy>(alloc: A, inst: &T, expected: &str) -> bool {
    match text_of(alloc, inst) {
        Ok(text) => text.as_str() == expected,
        Err(_) => false,
    }
}

/// Memory at a base and a displacement in bytes.
pub fn at(base: u8, displacement: i32) -> Amode<u8> {
    Amode::ImmReg {
        base,
        simm32: AmodeOffsetPlusKnownOffset {
            simm32: AmodeOffset::new(displacement),
            offset: None,
        },
        trap: None,
    }
}

/// Memory at a base, an index times a scale, and a displacement in bytes.
pub fn indexed(base: u8, index: u8, scale: Scale, displacement: i32) -> Amode<u8> {
    Amode::ImmRegRegShift {
        base,
        index: NonRspGpr::new(index),
        scale,
        simm32: AmodeOffset::new(displacement),
        trap: None,
    }
}
