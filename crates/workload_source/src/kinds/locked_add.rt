//! Locked addition, with and without carry.

use crate::maker::Maker;
use crate::registers::PlainFamily;
use cranelift_assembler_x64::Inst;
use cranelift_assembler_x64::inst::{
    lock_adcb_mi, lock_adcb_mr, lock_adcl_mi, lock_adcl_mi_sxb, lock_adcl_mr, lock_adcq_mi_sxb,
    lock_adcq_mi_sxl, lock_adcq_mr, lock_adcw_mi, lock_adcw_mr, lock_addb_mi, lock_addb_mr,
    lock_addl_mi, lock_addl_mi_sxb, lock_addl_mr, lock_addq_mi_sxb, lock_addq_mi_sxl, lock_addq_mr,
    lock_addw_mi, lock_addw_mr,
};

/// How many kinds there are.
pub(crate) const COUNT: u8 = 20;

/// An instruction of a kind, by its number.
pub(crate) fn make<R: PlainFamily>(kind: u8, m: &mut Maker) -> Inst<R> {
    match kind {
        0 => Inst::lock_adcb_mi(lock_adcb_mi::new(m.amode(), m.imm8())),
        1 => Inst::lock_adcw_mi(lock_adcw_mi::new(m.amode(), m.imm16())),
        2 => Inst::lock_adcl_mi(lock_adcl_mi::new(m.amode(), m.imm32())),
        3 => Inst::lock_adcq_mi_sxl(lock_adcq_mi_sxl::new(m.amode(), m.simm32())),
        4 => Inst::lock_adcl_mi_sxb(lock_adcl_mi_sxb::new(m.amode(), m.simm8())),
        5 => Inst::lock_adcq_mi_sxb(lock_adcq_mi_sxb::new(m.amode(), m.simm8())),
        6 => Inst::lock_adcb_mr(lock_adcb_mr::new(m.amode(), m.gpr())),
        7 => Inst::lock_adcw_mr(lock_adcw_mr::new(m.amode(), m.gpr())),
        8 => Inst::lock_adcl_mr(lock_adcl_mr::new(m.amode(), m.gpr())),
        9 => Inst::lock_adcq_mr(lock_adcq_mr::new(m.amode(), m.gpr())),
        10 => Inst::lock_addb_mi(lock_addb_mi::new(m.amode(), m.imm8())),
        11 => Inst::lock_addw_mi(lock_addw_mi::new(m.amode(), m.imm16())),
        12 => Inst::lock_addl_mi(lock_addl_mi::new(m.amode(), m.imm32())),
        13 => Inst::lock_addq_mi_sxl(lock_addq_mi_sxl::new(m.amode(), m.simm32())),
        14 => Inst::lock_addl_mi_sxb(lock_addl_mi_sxb::new(m.amode(), m.simm8())),
        15 => Inst::lock_addq_mi_sxb(lock_addq_mi_sxb::new(m.amode(), m.simm8())),
        16 => Inst::lock_addb_mr(lock_addb_mr::new(m.amode(), m.gpr())),
        17 => Inst::lock_addw_mr(lock_addw_mr::new(m.amode(), m.gpr())),
        18 => Inst::lock_addl_mr(lock_addl_mr::new(m.amode(), m.gpr())),
        _ => Inst::lock_addq_mr(lock_addq_mr::new(m.amode(), m.gpr())),
    }
}
