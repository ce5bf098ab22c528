//! Operands of the rows, and what a row compares.

use cax64_address::amode::{Amode, Scale};
use cax64_address::offset::{AmodeOffset, AmodeOffsetPlusKnownOffset};
use cax64_address::operand::{GprMem, XmmMem};
use cax64_operand::RowAndOperands;
use cax64_register::{AsReg, NonRspGpr};
use cax64_test_support::All;
use cax64_text::InstructionText;
use std::alloc::{AllocError, Global};

/// The family of plain numbers.
pub(crate) type Plain = All<u8>;

/// Memory at a base and a displacement.
pub(crate) fn base<R: AsReg>(base: R, displacement: i32) -> Amode<R> {
    Amode::ImmReg {
        base,
        simm32: AmodeOffsetPlusKnownOffset {
            simm32: AmodeOffset::new(displacement),
            offset: None,
        },
        trap: None,
    }
}

/// Memory at a base, an index times a scale, and a displacement.
pub(crate) fn indexed(base: u8, index: u8, scale: Scale, displacement: i32) -> Amode<u8> {
    Amode::ImmRegRegShift {
        base,
        index: NonRspGpr::new(index),
        scale,
        simm32: AmodeOffset::new(displacement),
        trap: None,
    }
}

pub(crate) fn gpr(reg: u8) -> GprMem<u8, u8> {
    GprMem::Gpr(reg)
}

pub(crate) fn gpr_at(reg: u8, displacement: i32) -> GprMem<u8, u8> {
    GprMem::Mem(base(reg, displacement))
}

pub(crate) fn xmm(reg: u8) -> XmmMem<u8, u8> {
    XmmMem::Xmm(reg)
}

pub(crate) fn xmm_at(reg: u8, displacement: i32) -> XmmMem<u8, u8> {
    XmmMem::Mem(base(reg, displacement))
}

/// Whether a text was made, and is this.
pub(crate) fn is(text: Result<String, AllocError>, want: &str) -> bool {
    match text {
        Ok(text) => text.as_str() == want,
        Err(AllocError) => false,
    }
}

/// The same of a text that an instruction may not have, which is `-` then.
fn is_or_absent(text: Result<Option<String>, AllocError>, want: &str) -> bool {
    match text {
        Ok(Some(text)) => text.as_str() == want,
        Ok(None) => want == "-",
        Err(AllocError) => false,
    }
}

/// Whether an instruction prints so: its text, and its text as XED prints it, `-` where it has none.
pub(crate) fn prints<I: RowAndOperands>(alloc: Global, inst: &I, text: &str, xed: &str) -> bool {
    inst.nameable()
        && is(inst.to_string(alloc), text)
        && is_or_absent(inst.to_string_xed(alloc), xed)
}
