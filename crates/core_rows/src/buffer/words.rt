//! What the tests say of instructions and buffers.

use cax64_address::amode::Amode;
use cax64_address::offset::{AmodeOffset, AmodeOffsetPlusKnownOffset};
use cax64_encoder::EncodeError;
use cax64_sink::{Constant, DeferredTarget, KnownOffset, Label, SinkError};
use std::alloc::Allocator;
use x64_code_buffer::CodeBuffer;
use x64_core::Core;
use x64_encode::Encode;

pub const RAX: u8 = 0;

pub const RSI: u8 = 6;

pub const RDI: u8 = 7;

pub const FIRST: DeferredTarget = DeferredTarget::Label(Label(0));

pub const POOL: DeferredTarget = DeferredTarget::Constant(Constant(7));

/// Memory at a target.
pub fn at(target: DeferredTarget) -> Amode<u8> {
    Amode::RipRelative { target }
}

/// Memory at a base and a late offset.
pub fn late(base: u8, offset: KnownOffset) -> Amode<u8> {
    Amode::ImmReg {
        base,
        simm32: AmodeOffsetPlusKnownOffset {
            simm32: AmodeOffset::ZERO,
            offset: Some(offset),
        },
        trap: None,
    }
}

/// Pushes what a line encodes. What can't be encoded is as good as a full sink.
pub fn push<I: Encode, A: Allocator>(
    buffer: &mut CodeBuffer<A>,
    inst: &I,
) -> Result<(), SinkError> {
    if !inst.is_encodable(&*buffer) {
        return Err(SinkError::Full);
    }
    buffer.push(inst)
}

pub fn push_checked<I: Encode, A: Allocator>(
    buffer: &mut CodeBuffer<A>,
    inst: &I,
) -> Result<(), EncodeError> {
    buffer.push_checked(inst)
}

/// The bytes of a buffer that can be finished.
pub fn bytes_of<A: Allocator>(buffer: CodeBuffer<A>) -> Option<Vec<u8, A>> {
    match buffer.finish() {
        Ok(code) => Some(code),
        Err((_, _)) => None,
    }
}
