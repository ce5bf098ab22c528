//! Locked subtraction and exchange.

use crate::maker::Maker;
use crate::registers::PlainFamily;
use cranelift_assembler_x64::inst::{
    lock_cmpxchg16b_m, lock_cmpxchgb_mr, lock_cmpxchgl_mr, lock_cmpxchgq_mr, lock_cmpxchgw_mr,
    lock_sbbb_mi, lock_sbbb_mr, lock_sbbl_mi, lock_sbbl_mi_sxb, lock_sbbl_mr, lock_sbbq_mi_sxb,
    lock_sbbq_mi_sxl, lock_sbbq_mr, lock_sbbw_mi, lock_sbbw_mr, lock_subb_mi, lock_subb_mr,
    lock_subl_mi, lock_subl_mi_sxb, lock_subl_mr, lock_subq_mi_sxb, lock_subq_mi_sxl, lock_subq_mr,
    lock_subw_mi, lock_subw_mr, lock_xaddb_mr, lock_xaddl_mr, lock_xaddq_mr, lock_xaddw_mr,
};
use cranelift_assembler_x64::{Fixed, Inst};

/// How many kinds there are.
pub(crate) const COUNT: u8 = 29;

/// An instruction of a kind, by its number.
pub(crate) fn make<R: PlainFamily>(kind: u8, m: &mut Maker) -> Inst<R> {
    match kind {
        0 => Inst::lock_sbbb_mi(lock_sbbb_mi::new(m.amode(), m.imm8())),
        1 => Inst::lock_sbbw_mi(lock_sbbw_mi::new(m.amode(), m.imm16())),
        2 => Inst::lock_sbbl_mi(lock_sbbl_mi::new(m.amode(), m.imm32())),
        3 => Inst::lock_sbbq_mi_sxl(lock_sbbq_mi_sxl::new(m.amode(), m.simm32())),
        4 => Inst::lock_sbbl_mi_sxb(lock_sbbl_mi_sxb::new(m.amode(), m.simm8())),
        5 => Inst::lock_sbbq_mi_sxb(lock_sbbq_mi_sxb::new(m.amode(), m.simm8())),
        6 => Inst::lock_sbbb_mr(lock_sbbb_mr::new(m.amode(), m.gpr())),
        7 => Inst::lock_sbbw_mr(lock_sbbw_mr::new(m.amode(), m.gpr())),
        8 => Inst::lock_sbbl_mr(lock_sbbl_mr::new(m.amode(), m.gpr())),
        9 => Inst::lock_sbbq_mr(lock_sbbq_mr::new(m.amode(), m.gpr())),
        10 => Inst::lock_subb_mi(lock_subb_mi::new(m.amode(), m.imm8())),
        11 => Inst::lock_subw_mi(lock_subw_mi::new(m.amode(), m.imm16())),
        12 => Inst::lock_subl_mi(lock_subl_mi::new(m.amode(), m.imm32())),
        13 => Inst::lock_subq_mi_sxl(lock_subq_mi_sxl::new(m.amode(), m.simm32())),
        14 => Inst::lock_subl_mi_sxb(lock_subl_mi_sxb::new(m.amode(), m.simm8())),
        15 => Inst::lock_subq_mi_sxb(lock_subq_mi_sxb::new(m.amode(), m.simm8())),
        16 => Inst::lock_subb_mr(lock_subb_mr::new(m.amode(), m.gpr())),
        17 => Inst::lock_subw_mr(lock_subw_mr::new(m.amode(), m.gpr())),
        18 => Inst::lock_subl_mr(lock_subl_mr::new(m.amode(), m.gpr())),
        19 => Inst::lock_subq_mr(lock_subq_mr::new(m.amode(), m.gpr())),
        20 => Inst::lock_cmpxchgb_mr(lock_cmpxchgb_mr::new(m.amode(), m.gpr(), Fixed(m.fixed(0)))),
        21 => Inst::lock_cmpxchgw_mr(lock_cmpxchgw_mr::new(m.amode(), m.gpr(), Fixed(m.fixed(0)))),
        22 => Inst::lock_cmpxchgl_mr(lock_cmpxchgl_mr::new(m.amode(), m.gpr(), Fixed(m.fixed(0)))),
        23 => Inst::lock_cmpxchgq_mr(lock_cmpxchgq_mr::new(m.amode(), m.gpr(), Fixed(m.fixed(0)))),
        24 => Inst::lock_cmpxchg16b_m(lock_cmpxchg16b_m::new(
            m.amode(),
            Fixed(m.fixed(0)),
            Fixed(m.fixed(2)),
            Fixed(m.fixed(1)),
            Fixed(m.fixed(3)),
        )),
        25 => Inst::lock_xaddb_mr(lock_xaddb_mr::new(m.amode(), m.gpr())),
        26 => Inst::lock_xaddw_mr(lock_xaddw_mr::new(m.amode(), m.gpr())),
        27 => Inst::lock_xaddl_mr(lock_xaddl_mr::new(m.amode(), m.gpr())),
        _ => Inst::lock_xaddq_mr(lock_xaddq_mr::new(m.amode(), m.gpr())),
    }
}
