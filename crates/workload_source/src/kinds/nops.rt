//! Instructions that do nothing.

use crate::maker::Maker;
use crate::registers::PlainFamily;
use cranelift_assembler_x64::Inst;
use cranelift_assembler_x64::inst::{
    nop_1b, nop_2b, nop_3b, nop_4b, nop_5b, nop_6b, nop_7b, nop_8b, nop_9b,
};

/// How many kinds there are.
pub(crate) const COUNT: u8 = 9;

/// The instruction of a kind, by its number.
pub(crate) fn make<R: PlainFamily>(kind: u8) -> Inst<R> {
    match kind {
        0 => Inst::nop_1b(nop_1b::new()),
        1 => Inst::nop_2b(nop_2b::new()),
        2 => Inst::nop_3b(nop_3b::new()),
        3 => Inst::nop_4b(nop_4b::new()),
        4 => Inst::nop_5b(nop_5b::new()),
        5 => Inst::nop_6b(nop_6b::new()),
        6 => Inst::nop_7b(nop_7b::new()),
        7 => Inst::nop_8b(nop_8b::new()),
        _ => Inst::nop_9b(nop_9b::new()),
    }
}
