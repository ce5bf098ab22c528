//! Arithmetic without a lock.

use crate::maker::Maker;
use crate::registers::PlainFamily;
use cranelift_assembler_x64::inst::{
    andb_i, mulxl_rvm, mulxq_rvm, rolb_m1, roll_m1, rolq_m1, rolw_m1, rorb_m1, rorl_m1, rorq_m1,
    rorw_m1, sarb_m1, sarl_m1, sarq_m1, sarw_m1, shlb_m1, shll_m1, shlq_m1, shlw_m1, shrb_m1,
    shrl_m1, shrq_m1, shrw_m1, xchgb_rm, xchgl_rm, xchgq_rm, xchgw_rm,
};
use cranelift_assembler_x64::{Fixed, Inst};

/// How many kinds there are.
pub(crate) const COUNT: u8 = 27;

/// An instruction of a kind, by its number.
pub(crate) fn make<R: PlainFamily>(kind: u8, m: &mut Maker) -> Inst<R> {
    match kind {
        0 => Inst::andb_i(andb_i::new(Fixed(m.fixed(0)), m.imm8())),
        1 => Inst::mulxl_rvm(mulxl_rvm::new(m.gpr(), m.gpr(), m.gpr_mem(), Fixed(m.fixed(2)))),
        2 => Inst::mulxq_rvm(mulxq_rvm::new(m.gpr(), m.gpr(), m.gpr_mem(), Fixed(m.fixed(2)))),
        3 => Inst::rolb_m1(rolb_m1::new(m.gpr_mem())),
        4 => Inst::rolw_m1(rolw_m1::new(m.gpr_mem())),
        5 => Inst::roll_m1(roll_m1::new(m.gpr_mem())),
        6 => Inst::rolq_m1(rolq_m1::new(m.gpr_mem())),
        7 => Inst::rorb_m1(rorb_m1::new(m.gpr_mem())),
        8 => Inst::rorw_m1(rorw_m1::new(m.gpr_mem())),
        9 => Inst::rorl_m1(rorl_m1::new(m.gpr_mem())),
        10 => Inst::rorq_m1(rorq_m1::new(m.gpr_mem())),
        11 => Inst::sarb_m1(sarb_m1::new(m.gpr_mem())),
        12 => Inst::sarw_m1(sarw_m1::new(m.gpr_mem())),
        13 => Inst::sarl_m1(sarl_m1::new(m.gpr_mem())),
        14 => Inst::sarq_m1(sarq_m1::new(m.gpr_mem())),
        15 => Inst::shlb_m1(shlb_m1::new(m.gpr_mem())),
        16 => Inst::shlw_m1(shlw_m1::new(m.gpr_mem())),
        17 => Inst::shll_m1(shll_m1::new(m.gpr_mem())),
        18 => Inst::shlq_m1(shlq_m1::new(m.gpr_mem())),
        19 => Inst::shrb_m1(shrb_m1::new(m.gpr_mem())),
        20 => Inst::shrw_m1(shrw_m1::new(m.gpr_mem())),
        21 => Inst::shrl_m1(shrl_m1::new(m.gpr_mem())),
        22 => Inst::shrq_m1(shrq_m1::new(m.gpr_mem())),
        23 => Inst::xchgb_rm(xchgb_rm::new(m.gpr(), m.amode())),
        24 => Inst::xchgw_rm(xchgw_rm::new(m.gpr(), m.amode())),
        25 => Inst::xchgl_rm(xchgl_rm::new(m.gpr(), m.amode())),
        _ => Inst::xchgq_rm(xchgq_rm::new(m.gpr(), m.amode())),
    }
}
