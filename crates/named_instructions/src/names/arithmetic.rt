//! Arithmetic without a lock.

use crate::values::Values;
// table/write.py: uses
use cranelift_assembler_x64::inst::{
    andb_i, mulxl_rvm, mulxq_rvm, rolb_m1, roll_m1, rolq_m1, rolw_m1, rorb_m1, rorl_m1, rorq_m1,
    rorw_m1, sarb_m1, sarl_m1, sarq_m1, sarw_m1, shlb_m1, shll_m1, shlq_m1, shlw_m1, shrb_m1,
    shrl_m1, shrq_m1, shrw_m1, xchgb_rm, xchgl_rm, xchgq_rm, xchgw_rm,
};
// table/write.py: end
use cranelift_assembler_x64::{Inst, Numbers};

pub(crate) fn arithmetic(name: &str, v: &mut Values<'_>) -> Option<Inst<Numbers>> {
    match name {
        // table/write.py: arithmetic
        "andb_i" => Some(Inst::andb_i(andb_i::new(v.fixed("al"), v.imm8("imm8")))),
        "mulxl_rvm" => Some(Inst::mulxl_rvm(mulxl_rvm::new(
            v.gpr("r32a"),
            v.gpr("r32b"),
            v.gpr_mem("rm32"),
            v.fixed("edx"),
        ))),
        "mulxq_rvm" => Some(Inst::mulxq_rvm(mulxq_rvm::new(
            v.gpr("r64a"),
            v.gpr("r64b"),
            v.gpr_mem("rm64"),
            v.fixed("rdx"),
        ))),
        "xchgb_rm" => Some(Inst::xchgb_rm(xchgb_rm::new(v.gpr("r8"), v.amode("m8")))),
        "xchgw_rm" => Some(Inst::xchgw_rm(xchgw_rm::new(v.gpr("r16"), v.amode("m16")))),
        "xchgl_rm" => Some(Inst::xchgl_rm(xchgl_rm::new(v.gpr("r32"), v.amode("m32")))),
        "xchgq_rm" => Some(Inst::xchgq_rm(xchgq_rm::new(v.gpr("r64"), v.amode("m64")))),
        "rolb_m1" => Some(Inst::rolb_m1(rolb_m1::new(v.gpr_mem("rm8")))),
        "rolw_m1" => Some(Inst::rolw_m1(rolw_m1::new(v.gpr_mem("rm16")))),
        "roll_m1" => Some(Inst::roll_m1(roll_m1::new(v.gpr_mem("rm32")))),
        "rolq_m1" => Some(Inst::rolq_m1(rolq_m1::new(v.gpr_mem("rm64")))),
        "rorb_m1" => Some(Inst::rorb_m1(rorb_m1::new(v.gpr_mem("rm8")))),
        "rorw_m1" => Some(Inst::rorw_m1(rorw_m1::new(v.gpr_mem("rm16")))),
        "rorl_m1" => Some(Inst::rorl_m1(rorl_m1::new(v.gpr_mem("rm32")))),
        "rorq_m1" => Some(Inst::rorq_m1(rorq_m1::new(v.gpr_mem("rm64")))),
        "sarb_m1" => Some(Inst::sarb_m1(sarb_m1::new(v.gpr_mem("rm8")))),
        "sarw_m1" => Some(Inst::sarw_m1(sarw_m1::new(v.gpr_mem("rm16")))),
        "sarl_m1" => Some(Inst::sarl_m1(sarl_m1::new(v.gpr_mem("rm32")))),
        "sarq_m1" => Some(Inst::sarq_m1(sarq_m1::new(v.gpr_mem("rm64")))),
        "shlb_m1" => Some(Inst::shlb_m1(shlb_m1::new(v.gpr_mem("rm8")))),
        "shlw_m1" => Some(Inst::shlw_m1(shlw_m1::new(v.gpr_mem("rm16")))),
        "shll_m1" => Some(Inst::shll_m1(shll_m1::new(v.gpr_mem("rm32")))),
        "shlq_m1" => Some(Inst::shlq_m1(shlq_m1::new(v.gpr_mem("rm64")))),
        "shrb_m1" => Some(Inst::shrb_m1(shrb_m1::new(v.gpr_mem("rm8")))),
        "shrw_m1" => Some(Inst::shrw_m1(shrw_m1::new(v.gpr_mem("rm16")))),
        "shrl_m1" => Some(Inst::shrl_m1(shrl_m1::new(v.gpr_mem("rm32")))),
        "shrq_m1" => Some(Inst::shrq_m1(shrq_m1::new(v.gpr_mem("rm64")))),
        // table/write.py: end
        _ => None,
    }
}
