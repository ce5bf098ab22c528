//! Locked arithmetic.

use crate::values::Values;
// table/write.py: uses
use cranelift_assembler_x64::inst::{
    lock_adcb_mi, lock_adcb_mr, lock_adcl_mi, lock_adcl_mi_sxb, lock_adcl_mr, lock_adcq_mi_sxb,
    lock_adcq_mi_sxl, lock_adcq_mr, lock_adcw_mi, lock_adcw_mr, lock_addb_mi, lock_addb_mr,
    lock_addl_mi, lock_addl_mi_sxb, lock_addl_mr, lock_addq_mi_sxb, lock_addq_mi_sxl, lock_addq_mr,
    lock_addw_mi, lock_addw_mr, lock_andb_mi, lock_andb_mr, lock_andl_mi, lock_andl_mi_sxb,
    lock_andl_mr, lock_andq_mi_sxb, lock_andq_mi_sxl, lock_andq_mr, lock_andw_mi, lock_andw_mr,
    lock_cmpxchg16b_m, lock_cmpxchgb_mr, lock_cmpxchgl_mr, lock_cmpxchgq_mr, lock_cmpxchgw_mr,
    lock_orb_mi, lock_orb_mr, lock_orl_mi, lock_orl_mi_sxb, lock_orl_mr, lock_orq_mi_sxb,
    lock_orq_mi_sxl, lock_orq_mr, lock_orw_mi, lock_orw_mr, lock_sbbb_mi, lock_sbbb_mr,
    lock_sbbl_mi, lock_sbbl_mi_sxb, lock_sbbl_mr, lock_sbbq_mi_sxb, lock_sbbq_mi_sxl, lock_sbbq_mr,
    lock_sbbw_mi, lock_sbbw_mr, lock_subb_mi, lock_subb_mr, lock_subl_mi, lock_subl_mi_sxb,
    lock_subl_mr, lock_subq_mi_sxb, lock_subq_mi_sxl, lock_subq_mr, lock_subw_mi, lock_subw_mr,
    lock_xaddb_mr, lock_xaddl_mr, lock_xaddq_mr, lock_xaddw_mr, lock_xorb_mi, lock_xorb_mr,
    lock_xorl_mi, lock_xorl_mi_sxb, lock_xorl_mr, lock_xorq_mi_sxb, lock_xorq_mi_sxl, lock_xorq_mr,
    lock_xorw_mi, lock_xorw_mr,
};
// table/write.py: end
use cranelift_assembler_x64::{Inst, Numbers};

pub(crate) fn add_or_adc(name: &str, v: &mut Values<'_>) -> Option<Inst<Numbers>> {
    match name {
        // table/write.py: add_or_adc
        "lock_addb_mi" => Some(Inst::lock_addb_mi(lock_addb_mi::new(
            v.amode("m8"),
            v.imm8("imm8"),
        ))),
        "lock_addw_mi" => Some(Inst::lock_addw_mi(lock_addw_mi::new(
            v.amode("m16"),
            v.imm16("imm16"),
        ))),
        "lock_addl_mi" => Some(Inst::lock_addl_mi(lock_addl_mi::new(
            v.amode("m32"),
            v.imm32("imm32"),
        ))),
        "lock_addq_mi_sxl" => Some(Inst::lock_addq_mi_sxl(lock_addq_mi_sxl::new(
            v.amode("m64"),
            v.simm32("imm32"),
        ))),
        "lock_addl_mi_sxb" => Some(Inst::lock_addl_mi_sxb(lock_addl_mi_sxb::new(
            v.amode("m32"),
            v.simm8("imm8"),
        ))),
        "lock_addq_mi_sxb" => Some(Inst::lock_addq_mi_sxb(lock_addq_mi_sxb::new(
            v.amode("m64"),
            v.simm8("imm8"),
        ))),
        "lock_addb_mr" => Some(Inst::lock_addb_mr(lock_addb_mr::new(v.amode("m8"), v.gpr("r8")))),
        "lock_addw_mr" => Some(Inst::lock_addw_mr(lock_addw_mr::new(v.amode("m16"), v.gpr("r16")))),
        "lock_addl_mr" => Some(Inst::lock_addl_mr(lock_addl_mr::new(v.amode("m32"), v.gpr("r32")))),
        "lock_addq_mr" => Some(Inst::lock_addq_mr(lock_addq_mr::new(v.amode("m64"), v.gpr("r64")))),
        "lock_orb_mi" => Some(Inst::lock_orb_mi(lock_orb_mi::new(v.amode("m8"), v.imm8("imm8")))),
        "lock_orw_mi" => Some(Inst::lock_orw_mi(lock_orw_mi::new(
            v.amode("m16"),
            v.imm16("imm16"),
        ))),
        "lock_orl_mi" => Some(Inst::lock_orl_mi(lock_orl_mi::new(
            v.amode("m32"),
            v.imm32("imm32"),
        ))),
        "lock_orq_mi_sxl" => Some(Inst::lock_orq_mi_sxl(lock_orq_mi_sxl::new(
            v.amode("m64"),
            v.simm32("imm32"),
        ))),
        "lock_orl_mi_sxb" => Some(Inst::lock_orl_mi_sxb(lock_orl_mi_sxb::new(
            v.amode("m32"),
            v.simm8("imm8"),
        ))),
        "lock_orq_mi_sxb" => Some(Inst::lock_orq_mi_sxb(lock_orq_mi_sxb::new(
            v.amode("m64"),
            v.simm8("imm8"),
        ))),
        "lock_orb_mr" => Some(Inst::lock_orb_mr(lock_orb_mr::new(v.amode("m8"), v.gpr("r8")))),
        "lock_orw_mr" => Some(Inst::lock_orw_mr(lock_orw_mr::new(v.amode("m16"), v.gpr("r16")))),
        "lock_orl_mr" => Some(Inst::lock_orl_mr(lock_orl_mr::new(v.amode("m32"), v.gpr("r32")))),
        "lock_orq_mr" => Some(Inst::lock_orq_mr(lock_orq_mr::new(v.amode("m64"), v.gpr("r64")))),
        "lock_adcb_mi" => Some(Inst::lock_adcb_mi(lock_adcb_mi::new(
            v.amode("m8"),
            v.imm8("imm8"),
        ))),
        "lock_adcw_mi" => Some(Inst::lock_adcw_mi(lock_adcw_mi::new(
            v.amode("m16"),
            v.imm16("imm16"),
        ))),
        "lock_adcl_mi" => Some(Inst::lock_adcl_mi(lock_adcl_mi::new(
            v.amode("m32"),
            v.imm32("imm32"),
        ))),
        "lock_adcq_mi_sxl" => Some(Inst::lock_adcq_mi_sxl(lock_adcq_mi_sxl::new(
            v.amode("m64"),
            v.simm32("imm32"),
        ))),
        "lock_adcl_mi_sxb" => Some(Inst::lock_adcl_mi_sxb(lock_adcl_mi_sxb::new(
            v.amode("m32"),
            v.simm8("imm8"),
        ))),
        "lock_adcq_mi_sxb" => Some(Inst::lock_adcq_mi_sxb(lock_adcq_mi_sxb::new(
            v.amode("m64"),
            v.simm8("imm8"),
        ))),
        "lock_adcb_mr" => Some(Inst::lock_adcb_mr(lock_adcb_mr::new(v.amode("m8"), v.gpr("r8")))),
        "lock_adcw_mr" => Some(Inst::lock_adcw_mr(lock_adcw_mr::new(v.amode("m16"), v.gpr("r16")))),
        "lock_adcl_mr" => Some(Inst::lock_adcl_mr(lock_adcl_mr::new(v.amode("m32"), v.gpr("r32")))),
        "lock_adcq_mr" => Some(Inst::lock_adcq_mr(lock_adcq_mr::new(v.amode("m64"), v.gpr("r64")))),
        // table/write.py: end
        _ => None,
    }
}

pub(crate) fn sbb_and_sub(name: &str, v: &mut Values<'_>) -> Option<Inst<Numbers>> {
    match name {
        // table/write.py: sbb_and_sub
        "lock_sbbb_mi" => Some(Inst::lock_sbbb_mi(lock_sbbb_mi::new(
            v.amode("m8"),
            v.imm8("imm8"),
        ))),
        "lock_sbbw_mi" => Some(Inst::lock_sbbw_mi(lock_sbbw_mi::new(
            v.amode("m16"),
            v.imm16("imm16"),
        ))),
        "lock_sbbl_mi" => Some(Inst::lock_sbbl_mi(lock_sbbl_mi::new(
            v.amode("m32"),
            v.imm32("imm32"),
        ))),
        "lock_sbbq_mi_sxl" => Some(Inst::lock_sbbq_mi_sxl(lock_sbbq_mi_sxl::new(
            v.amode("m64"),
            v.simm32("imm32"),
        ))),
        "lock_sbbl_mi_sxb" => Some(Inst::lock_sbbl_mi_sxb(lock_sbbl_mi_sxb::new(
            v.amode("m32"),
            v.simm8("imm8"),
        ))),
        "lock_sbbq_mi_sxb" => Some(Inst::lock_sbbq_mi_sxb(lock_sbbq_mi_sxb::new(
            v.amode("m64"),
            v.simm8("imm8"),
        ))),
        "lock_sbbb_mr" => Some(Inst::lock_sbbb_mr(lock_sbbb_mr::new(v.amode("m8"), v.gpr("r8")))),
        "lock_sbbw_mr" => Some(Inst::lock_sbbw_mr(lock_sbbw_mr::new(v.amode("m16"), v.gpr("r16")))),
        "lock_sbbl_mr" => Some(Inst::lock_sbbl_mr(lock_sbbl_mr::new(v.amode("m32"), v.gpr("r32")))),
        "lock_sbbq_mr" => Some(Inst::lock_sbbq_mr(lock_sbbq_mr::new(v.amode("m64"), v.gpr("r64")))),
        "lock_andb_mi" => Some(Inst::lock_andb_mi(lock_andb_mi::new(
            v.amode("m8"),
            v.imm8("imm8"),
        ))),
        "lock_andw_mi" => Some(Inst::lock_andw_mi(lock_andw_mi::new(
            v.amode("m16"),
            v.imm16("imm16"),
        ))),
        "lock_andl_mi" => Some(Inst::lock_andl_mi(lock_andl_mi::new(
            v.amode("m32"),
            v.imm32("imm32"),
        ))),
        "lock_andq_mi_sxl" => Some(Inst::lock_andq_mi_sxl(lock_andq_mi_sxl::new(
            v.amode("m64"),
            v.simm32("imm32"),
        ))),
        "lock_andl_mi_sxb" => Some(Inst::lock_andl_mi_sxb(lock_andl_mi_sxb::new(
            v.amode("m32"),
            v.simm8("imm8"),
        ))),
        "lock_andq_mi_sxb" => Some(Inst::lock_andq_mi_sxb(lock_andq_mi_sxb::new(
            v.amode("m64"),
            v.simm8("imm8"),
        ))),
        "lock_andb_mr" => Some(Inst::lock_andb_mr(lock_andb_mr::new(v.amode("m8"), v.gpr("r8")))),
        "lock_andw_mr" => Some(Inst::lock_andw_mr(lock_andw_mr::new(v.amode("m16"), v.gpr("r16")))),
        "lock_andl_mr" => Some(Inst::lock_andl_mr(lock_andl_mr::new(v.amode("m32"), v.gpr("r32")))),
        "lock_andq_mr" => Some(Inst::lock_andq_mr(lock_andq_mr::new(v.amode("m64"), v.gpr("r64")))),
        "lock_subb_mi" => Some(Inst::lock_subb_mi(lock_subb_mi::new(
            v.amode("m8"),
            v.imm8("imm8"),
        ))),
        "lock_subw_mi" => Some(Inst::lock_subw_mi(lock_subw_mi::new(
            v.amode("m16"),
            v.imm16("imm16"),
        ))),
        "lock_subl_mi" => Some(Inst::lock_subl_mi(lock_subl_mi::new(
            v.amode("m32"),
            v.imm32("imm32"),
        ))),
        "lock_subq_mi_sxl" => Some(Inst::lock_subq_mi_sxl(lock_subq_mi_sxl::new(
            v.amode("m64"),
            v.simm32("imm32"),
        ))),
        "lock_subl_mi_sxb" => Some(Inst::lock_subl_mi_sxb(lock_subl_mi_sxb::new(
            v.amode("m32"),
            v.simm8("imm8"),
        ))),
        "lock_subq_mi_sxb" => Some(Inst::lock_subq_mi_sxb(lock_subq_mi_sxb::new(
            v.amode("m64"),
            v.simm8("imm8"),
        ))),
        "lock_subb_mr" => Some(Inst::lock_subb_mr(lock_subb_mr::new(v.amode("m8"), v.gpr("r8")))),
        "lock_subw_mr" => Some(Inst::lock_subw_mr(lock_subw_mr::new(v.amode("m16"), v.gpr("r16")))),
        "lock_subl_mr" => Some(Inst::lock_subl_mr(lock_subl_mr::new(v.amode("m32"), v.gpr("r32")))),
        "lock_subq_mr" => Some(Inst::lock_subq_mr(lock_subq_mr::new(v.amode("m64"), v.gpr("r64")))),
        // table/write.py: end
        _ => None,
    }
}

pub(crate) fn xor_exchange(name: &str, v: &mut Values<'_>) -> Option<Inst<Numbers>> {
    match name {
        // table/write.py: xor_exchange
        "lock_xorb_mi" => Some(Inst::lock_xorb_mi(lock_xorb_mi::new(
            v.amode("m8"),
            v.imm8("imm8"),
        ))),
        "lock_xorw_mi" => Some(Inst::lock_xorw_mi(lock_xorw_mi::new(
            v.amode("m16"),
            v.imm16("imm16"),
        ))),
        "lock_xorl_mi" => Some(Inst::lock_xorl_mi(lock_xorl_mi::new(
            v.amode("m32"),
            v.imm32("imm32"),
        ))),
        "lock_xorq_mi_sxl" => Some(Inst::lock_xorq_mi_sxl(lock_xorq_mi_sxl::new(
            v.amode("m64"),
            v.simm32("imm32"),
        ))),
        "lock_xorl_mi_sxb" => Some(Inst::lock_xorl_mi_sxb(lock_xorl_mi_sxb::new(
            v.amode("m32"),
            v.simm8("imm8"),
        ))),
        "lock_xorq_mi_sxb" => Some(Inst::lock_xorq_mi_sxb(lock_xorq_mi_sxb::new(
            v.amode("m64"),
            v.simm8("imm8"),
        ))),
        "lock_xorb_mr" => Some(Inst::lock_xorb_mr(lock_xorb_mr::new(v.amode("m8"), v.gpr("r8")))),
        "lock_xorw_mr" => Some(Inst::lock_xorw_mr(lock_xorw_mr::new(v.amode("m16"), v.gpr("r16")))),
        "lock_xorl_mr" => Some(Inst::lock_xorl_mr(lock_xorl_mr::new(v.amode("m32"), v.gpr("r32")))),
        "lock_xorq_mr" => Some(Inst::lock_xorq_mr(lock_xorq_mr::new(v.amode("m64"), v.gpr("r64")))),
        "lock_cmpxchgb_mr" => Some(Inst::lock_cmpxchgb_mr(lock_cmpxchgb_mr::new(
            v.amode("m8"),
            v.gpr("r8"),
            v.fixed("al"),
        ))),
        "lock_cmpxchgw_mr" => Some(Inst::lock_cmpxchgw_mr(lock_cmpxchgw_mr::new(
            v.amode("m16"),
            v.gpr("r16"),
            v.fixed("ax"),
        ))),
        "lock_cmpxchgl_mr" => Some(Inst::lock_cmpxchgl_mr(lock_cmpxchgl_mr::new(
            v.amode("m32"),
            v.gpr("r32"),
            v.fixed("eax"),
        ))),
        "lock_cmpxchgq_mr" => Some(Inst::lock_cmpxchgq_mr(lock_cmpxchgq_mr::new(
            v.amode("m64"),
            v.gpr("r64"),
            v.fixed("rax"),
        ))),
        "lock_cmpxchg16b_m" => Some(Inst::lock_cmpxchg16b_m(lock_cmpxchg16b_m::new(
            v.amode("m128"),
            v.fixed("rax"),
            v.fixed("rdx"),
            v.fixed("rcx"),
            v.fixed("rbx"),
        ))),
        "lock_xaddb_mr" => Some(Inst::lock_xaddb_mr(lock_xaddb_mr::new(
            v.amode("m8"),
            v.gpr("r8"),
        ))),
        "lock_xaddw_mr" => Some(Inst::lock_xaddw_mr(lock_xaddw_mr::new(
            v.amode("m16"),
            v.gpr("r16"),
        ))),
        "lock_xaddl_mr" => Some(Inst::lock_xaddl_mr(lock_xaddl_mr::new(
            v.amode("m32"),
            v.gpr("r32"),
        ))),
        "lock_xaddq_mr" => Some(Inst::lock_xaddq_mr(lock_xaddq_mr::new(
            v.amode("m64"),
            v.gpr("r64"),
        ))),
        // table/write.py: end
        _ => None,
    }
}
