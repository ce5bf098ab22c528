//! Instructions with a relative operand, and what a buffer makes of them.

use arith::shlb_m1;
use cax64_address::amode::{Amode, Scale};
use cax64_address::offset::AmodeOffset;
use cax64_address::operand::{GprMem, XmmMem};
use cax64_encoder::instruction::Instruction;
use cax64_immediate::{Imm8, Simm32};
use cax64_operand::Numbers;
use cax64_register::{NonRspGpr, Xmm};
use cax64_sink::{Constant, DeferredTarget, Label, SinkError};
use jump::{callq_m, jmpq_m};
use lock_a::lock_addq_mi_sxl;
use simd::{andps_a, cmpps_a};
use std::alloc::Allocator;
use x64_code_buffer::CodeBuffer;

pub(crate) const FIRST: DeferredTarget = DeferredTarget::Label(Label(0));

pub(crate) const SECOND: DeferredTarget = DeferredTarget::Label(Label(1));

pub(crate) const POOL: DeferredTarget = DeferredTarget::Constant(Constant(7));

pub(crate) fn call_to(target: DeferredTarget) -> callq_m<Numbers> {
    callq_m::new(GprMem::Mem(Amode::RipRelative { target }))
}

pub(crate) fn jump_to(target: DeferredTarget) -> jmpq_m<Numbers> {
    jmpq_m::new(GprMem::Mem(Amode::RipRelative { target }))
}

pub(crate) fn compare_with(target: DeferredTarget) -> cmpps_a<Numbers> {
    cmpps_a::new(
        Xmm::new(0),
        XmmMem::Mem(Amode::RipRelative { target }),
        Imm8::new(0),
    )
}

pub(crate) fn and_with(target: DeferredTarget) -> andps_a<Numbers> {
    andps_a::new(Xmm::new(0), XmmMem::Mem(Amode::RipRelative { target }))
}

pub(crate) fn shift() -> shlb_m1<Numbers> {
    shlb_m1::new(GprMem::Gpr(0))
}

/// Of 13 bytes, without a notice.
pub(crate) fn longest() -> lock_addq_mi_sxl<Numbers> {
    lock_addq_mi_sxl::new(
        Amode::ImmRegRegShift {
            base: 13,
            index: NonRspGpr::new(9),
            scale: Scale::Eight,
            simm32: AmodeOffset::new(0x1234_5678),
            trap: None,
        },
        Simm32::new(-1),
    )
}

/// Pushes an instruction. One that can't be encoded is as good as a full sink.
pub(crate) fn push<I: Instruction, A: Allocator>(
    buffer: &mut CodeBuffer<A>,
    inst: &I,
) -> Result<(), SinkError> {
    if !inst.is_encodable(&*buffer) {
        return Err(SinkError::Full);
    }
    buffer.push(inst)
}

/// The bytes of a buffer that can be finished.
pub(crate) fn bytes_of<A: Allocator>(buffer: CodeBuffer<A>) -> Option<Vec<u8, A>> {
    match buffer.finish() {
        Ok(code) => Some(code),
        Err((_, _)) => None,
    }
}
