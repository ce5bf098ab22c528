//! What the tests say of instructions and addresses.

use cax64_address::amode::{Amode, Scale};
use cax64_address::offset::{AmodeOffset, AmodeOffsetPlusKnownOffset};
use cax64_register::NonRspGpr;
use cax64_sink::FixedSink;
use x64_core::Core;

/// Whether an instruction has these bytes.
pub fn has_bytes(core: &Core, expected: &[u8]) -> bool {
    let mut sink = FixedSink::<13>::new();
    if !core.is_encodable(&sink) {
        return false;
    }
    let len = core.room_needed(&sink).bytes;
    core.encode(&mut sink) == Ok(())
        && sink.bytes() == expected
        && usize::from(len) == expected.len()
}

/// Memory at a base and a displacement in bytes.
pub fn at(base: u8, displacement: i32) -> Amode<u8> {
    Amode::ImmReg {
        base,
        simm32: AmodeOffsetPlusKnownOffset {
            simm32: AmodeOffset::new(displacement),
            offset: None,
        },
        trap: None,
    }
}

/// Memory at a base, an index times a scale, and a displacement in bytes.
pub fn indexed(base: u8, index: u8, scale: Scale, displacement: i32) -> Amode<u8> {
    Amode::ImmRegRegShift {
        base,
        index: NonRspGpr::new(index),
        scale,
        simm32: AmodeOffset::new(displacement),
        trap: None,
    }
}
