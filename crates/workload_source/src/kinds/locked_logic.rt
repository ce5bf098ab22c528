//! Locked logic.

use crate::maker::Maker;
use crate::registers::PlainFamily;
use cranelift_assembler_x64::Inst;
use cranelift_assembler_x64::inst::{
    lock_andb_mi, lock_andb_mr, lock_andl_mi, lock_andl_mi_sxb, lock_andl_mr, lock_andq_mi_sxb,
    lock_andq_mi_sxl, lock_andq_mr, lock_andw_mi, lock_andw_mr, lock_orb_mi, lock_orb_mr,
    lock_orl_mi, lock_orl_mi_sxb, lock_orl_mr, lock_orq_mi_sxb, lock_orq_mi_sxl, lock_orq_mr,
    lock_orw_mi, lock_orw_mr, lock_xorb_mi, lock_xorb_mr, lock_xorl_mi, lock_xorl_mi_sxb,
    lock_xorl_mr, lock_xorq_mi_sxb, lock_xorq_mi_sxl, lock_xorq_mr, lock_xorw_mi, lock_xorw_mr,
};

/// How many kinds there are.
pub(crate) const COUNT: u8 = 30;

/// An instruction of a kind, by its number.
pub(crate) fn make<R: PlainFamily>(kind: u8, m: &mut Maker) -> Inst<R> {
    match kind {
        0 => Inst::lock_orb_mi(lock_orb_mi::new(m.amode(), m.imm8())),
        1 => Inst::lock_orw_mi(lock_orw_mi::new(m.amode(), m.imm16())),
        2 => Inst::lock_orl_mi(lock_orl_mi::new(m.amode(), m.imm32())),
        3 => Inst::lock_orq_mi_sxl(lock_orq_mi_sxl::new(m.amode(), m.simm32())),
        4 => Inst::lock_orl_mi_sxb(lock_orl_mi_sxb::new(m.amode(), m.simm8())),
        5 => Inst::lock_orq_mi_sxb(lock_orq_mi_sxb::new(m.amode(), m.simm8())),
        6 => Inst::lock_orb_mr(lock_orb_mr::new(m.amode(), m.gpr())),
        7 => Inst::lock_orw_mr(lock_orw_mr::new(m.amode(), m.gpr())),
        8 => Inst::lock_orl_mr(lock_orl_mr::new(m.amode(), m.gpr())),
        9 => Inst::lock_orq_mr(lock_orq_mr::new(m.amode(), m.gpr())),
        10 => Inst::lock_andb_mi(lock_andb_mi::new(m.amode(), m.imm8())),
        11 => Inst::lock_andw_mi(lock_andw_mi::new(m.amode(), m.imm16())),
        12 => Inst::lock_andl_mi(lock_andl_mi::new(m.amode(), m.imm32())),
        13 => Inst::lock_andq_mi_sxl(lock_andq_mi_sxl::new(m.amode(), m.simm32())),
        14 => Inst::lock_andl_mi_sxb(lock_andl_mi_sxb::new(m.amode(), m.simm8())),
        15 => Inst::lock_andq_mi_sxb(lock_andq_mi_sxb::new(m.amode(), m.simm8())),
        16 => Inst::lock_andb_mr(lock_andb_mr::new(m.amode(), m.gpr())),
        17 => Inst::lock_andw_mr(lock_andw_mr::new(m.amode(), m.gpr())),
        18 => Inst::lock_andl_mr(lock_andl_mr::new(m.amode(), m.gpr())),
        19 => Inst::lock_andq_mr(lock_andq_mr::new(m.amode(), m.gpr())),
        20 => Inst::lock_xorb_mi(lock_xorb_mi::new(m.amode(), m.imm8())),
        21 => Inst::lock_xorw_mi(lock_xorw_mi::new(m.amode(), m.imm16())),
        22 => Inst::lock_xorl_mi(lock_xorl_mi::new(m.amode(), m.imm32())),
        23 => Inst::lock_xorq_mi_sxl(lock_xorq_mi_sxl::new(m.amode(), m.simm32())),
        24 => Inst::lock_xorl_mi_sxb(lock_xorl_mi_sxb::new(m.amode(), m.simm8())),
        25 => Inst::lock_xorq_mi_sxb(lock_xorq_mi_sxb::new(m.amode(), m.simm8())),
        26 => Inst::lock_xorb_mr(lock_xorb_mr::new(m.amode(), m.gpr())),
        27 => Inst::lock_xorw_mr(lock_xorw_mr::new(m.amode(), m.gpr())),
        28 => Inst::lock_xorl_mr(lock_xorl_mr::new(m.amode(), m.gpr())),
        _ => Inst::lock_xorq_mr(lock_xorq_mr::new(m.amode(), m.gpr())),
    }
}
