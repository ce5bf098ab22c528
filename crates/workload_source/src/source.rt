//! Where instructions come from. What is done with them is written for any source: what holds an `Inst` of its own costs
//! the prover much.

use crate::kinds;
use crate::maker::Maker;
use crate::registers::{PlainFamily, Regs};
use cranelift_assembler_x64::{Inst, Numbers, RowAndOperands};
use std::alloc::AllocError;

/// A family with instructions of every kind.
pub trait Source: PlainFamily {
    type Inst: RowAndOperands<Family = Self> + Drop;

    /// The next instruction.
    fn make(maker: &mut Maker) -> Self::Inst;
}

impl Source for Regs {
    type Inst = Inst<Regs>;

    fn make(maker: &mut Maker) -> Inst<Regs> {
        kinds::make(maker)
    }
}

impl Source for Numbers {
    type Inst = Inst<Numbers>;

    fn make(maker: &mut Maker) -> Inst<Numbers> {
        kinds::make(maker)
    }
}

/// For any type, since that is less to prove than for an `Inst`.
pub fn push<T: Drop>(list: &mut Vec<T>, item: T) -> Result<(), AllocError> {
    list.push(item).map_err(|_| AllocError)
}
