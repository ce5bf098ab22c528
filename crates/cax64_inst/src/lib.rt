//! The enumeration of all instructions.
#![tactic(auto)]
#![allow(non_camel_case_types)]

ghost use Rattle.cax64_inst.specs.Inst.{row_of, operands_of};

// table/write.py: uses
use arith::andb_i;
use arith::mulxl_rvm;
use arith::mulxq_rvm;
use arith::rolb_m1;
use arith::roll_m1;
use arith::rolq_m1;
use arith::rolw_m1;
use arith::rorb_m1;
use arith::rorl_m1;
use arith::rorq_m1;
use arith::rorw_m1;
use arith::sarb_m1;
use arith::sarl_m1;
use arith::sarq_m1;
use arith::sarw_m1;
use arith::shlb_m1;
use arith::shll_m1;
use arith::shlq_m1;
use arith::shlw_m1;
use arith::shrb_m1;
use arith::shrl_m1;
use arith::shrq_m1;
use arith::shrw_m1;
use arith::xchgb_rm;
use arith::xchgl_rm;
use arith::xchgq_rm;
use arith::xchgw_rm;
use cax64_operand::RegisterVisitor;
use cax64_operand::RowAndOperands;
use cax64_operand::Task;
use cax64_register::Registers;
use jump::callq_d;
use jump::callq_m;
use jump::ja_d8;
use jump::ja_d32;
use jump::jae_d8;
use jump::jae_d32;
use jump::jb_d8;
use jump::jb_d32;
use jump::jbe_d8;
use jump::jbe_d32;
use jump::je_d8;
use jump::je_d32;
use jump::jg_d8;
use jump::jg_d32;
use jump::jge_d8;
use jump::jge_d32;
use jump::jl_d8;
use jump::jl_d32;
use jump::jle_d8;
use jump::jle_d32;
use jump::jmp_d8;
use jump::jmp_d32;
use jump::jmpq_m;
use jump::jne_d8;
use jump::jne_d32;
use jump::jno_d8;
use jump::jno_d32;
use jump::jnp_d8;
use jump::jnp_d32;
use jump::jns_d8;
use jump::jns_d32;
use jump::jo_d8;
use jump::jo_d32;
use jump::jp_d8;
use jump::jp_d32;
use jump::js_d8;
use jump::js_d32;
use lock_a::lock_adcb_mi;
use lock_a::lock_adcb_mr;
use lock_a::lock_adcl_mi;
use lock_a::lock_adcl_mi_sxb;
use lock_a::lock_adcl_mr;
use lock_a::lock_adcq_mi_sxb;
use lock_a::lock_adcq_mi_sxl;
use lock_a::lock_adcq_mr;
use lock_a::lock_adcw_mi;
use lock_a::lock_adcw_mr;
use lock_a::lock_addb_mi;
use lock_a::lock_addb_mr;
use lock_a::lock_addl_mi;
use lock_a::lock_addl_mi_sxb;
use lock_a::lock_addl_mr;
use lock_a::lock_addq_mi_sxb;
use lock_a::lock_addq_mi_sxl;
use lock_a::lock_addq_mr;
use lock_a::lock_addw_mi;
use lock_a::lock_addw_mr;
use lock_a::lock_orb_mi;
use lock_a::lock_orb_mr;
use lock_a::lock_orl_mi;
use lock_a::lock_orl_mi_sxb;
use lock_a::lock_orl_mr;
use lock_a::lock_orq_mi_sxb;
use lock_a::lock_orq_mi_sxl;
use lock_a::lock_orq_mr;
use lock_a::lock_orw_mi;
use lock_a::lock_orw_mr;
use lock_b::lock_andb_mi;
use lock_b::lock_andb_mr;
use lock_b::lock_andl_mi;
use lock_b::lock_andl_mi_sxb;
use lock_b::lock_andl_mr;
use lock_b::lock_andq_mi_sxb;
use lock_b::lock_andq_mi_sxl;
use lock_b::lock_andq_mr;
use lock_b::lock_andw_mi;
use lock_b::lock_andw_mr;
use lock_b::lock_sbbb_mi;
use lock_b::lock_sbbb_mr;
use lock_b::lock_sbbl_mi;
use lock_b::lock_sbbl_mi_sxb;
use lock_b::lock_sbbl_mr;
use lock_b::lock_sbbq_mi_sxb;
use lock_b::lock_sbbq_mi_sxl;
use lock_b::lock_sbbq_mr;
use lock_b::lock_sbbw_mi;
use lock_b::lock_sbbw_mr;
use lock_b::lock_subb_mi;
use lock_b::lock_subb_mr;
use lock_b::lock_subl_mi;
use lock_b::lock_subl_mi_sxb;
use lock_b::lock_subl_mr;
use lock_b::lock_subq_mi_sxb;
use lock_b::lock_subq_mi_sxl;
use lock_b::lock_subq_mr;
use lock_b::lock_subw_mi;
use lock_b::lock_subw_mr;
use lock_b::lock_xorb_mi;
use lock_b::lock_xorb_mr;
use lock_b::lock_xorl_mi;
use lock_b::lock_xorl_mi_sxb;
use lock_b::lock_xorl_mr;
use lock_b::lock_xorq_mi_sxb;
use lock_b::lock_xorq_mi_sxl;
use lock_b::lock_xorq_mr;
use lock_b::lock_xorw_mi;
use lock_b::lock_xorw_mr;
use lock_x::lock_cmpxchg16b_m;
use lock_x::lock_cmpxchgb_mr;
use lock_x::lock_cmpxchgl_mr;
use lock_x::lock_cmpxchgq_mr;
use lock_x::lock_cmpxchgw_mr;
use lock_x::lock_xaddb_mr;
use lock_x::lock_xaddl_mr;
use lock_x::lock_xaddq_mr;
use lock_x::lock_xaddw_mr;
use nop::nop_1b;
use nop::nop_2b;
use nop::nop_3b;
use nop::nop_4b;
use nop::nop_5b;
use nop::nop_6b;
use nop::nop_7b;
use nop::nop_8b;
use nop::nop_9b;
use simd::andps_a;
use simd::cmppd_a;
use simd::cmpps_a;
use simd::cmpsd_a;
use simd::cmpss_a;
use simd::vcmppd_b;
use simd::vcmpps_b;
use simd::vcmpsd_b;
use simd::vcmpss_b;
use simd::vcvtpd2ps_a;
use simd::vcvttpd2dq_a;
// table/write.py: end

mod from_arith;
mod from_jump;
mod from_lock_a;
mod from_lock_b;
mod from_lock_x;
mod from_nop;
mod from_simd;
mod tasks;
mod visit;

/// An instruction of any kind, for lists that mix them.
///
/// Each struct turns into it by `From`, and it has the same calls. A function over any type of instruction, as
/// `encode_each`, takes the struct itself, and a proof over that takes less time.
///
/// With `counter` an address of base 12 and displacement -128, these two are `lock addl %r9d, -128(%r12)` and
/// `andb $0xaa, %al`, whose machine code is `f0 45 01 4c 24 80` and `24 aa`:
///
/// ```
/// let insts: [Inst<Numbers>; 2] = [
///     lock_addl_mr::new(counter, Gpr::new(9)).into(),
///     andb_i::new(Fixed(0), Imm8::new(0xAA)).into(),
/// ];
/// ```
#[derive(Drop)]
pub enum Inst<R: Registers> {
    // table/write.py: variants
    nop_1b(nop_1b),
    nop_2b(nop_2b),
    nop_3b(nop_3b),
    nop_4b(nop_4b),
    nop_5b(nop_5b),
    nop_6b(nop_6b),
    nop_7b(nop_7b),
    nop_8b(nop_8b),
    nop_9b(nop_9b),
    lock_addb_mi(lock_addb_mi<R>),
    lock_addw_mi(lock_addw_mi<R>),
    lock_addl_mi(lock_addl_mi<R>),
    lock_addq_mi_sxl(lock_addq_mi_sxl<R>),
    lock_addl_mi_sxb(lock_addl_mi_sxb<R>),
    lock_addq_mi_sxb(lock_addq_mi_sxb<R>),
    lock_addb_mr(lock_addb_mr<R>),
    lock_addw_mr(lock_addw_mr<R>),
    lock_addl_mr(lock_addl_mr<R>),
    lock_addq_mr(lock_addq_mr<R>),
    lock_orb_mi(lock_orb_mi<R>),
    lock_orw_mi(lock_orw_mi<R>),
    lock_orl_mi(lock_orl_mi<R>),
    lock_orq_mi_sxl(lock_orq_mi_sxl<R>),
    lock_orl_mi_sxb(lock_orl_mi_sxb<R>),
    lock_orq_mi_sxb(lock_orq_mi_sxb<R>),
    lock_orb_mr(lock_orb_mr<R>),
    lock_orw_mr(lock_orw_mr<R>),
    lock_orl_mr(lock_orl_mr<R>),
    lock_orq_mr(lock_orq_mr<R>),
    lock_adcb_mi(lock_adcb_mi<R>),
    lock_adcw_mi(lock_adcw_mi<R>),
    lock_adcl_mi(lock_adcl_mi<R>),
    lock_adcq_mi_sxl(lock_adcq_mi_sxl<R>),
    lock_adcl_mi_sxb(lock_adcl_mi_sxb<R>),
    lock_adcq_mi_sxb(lock_adcq_mi_sxb<R>),
    lock_adcb_mr(lock_adcb_mr<R>),
    lock_adcw_mr(lock_adcw_mr<R>),
    lock_adcl_mr(lock_adcl_mr<R>),
    lock_adcq_mr(lock_adcq_mr<R>),
    lock_cmpxchgb_mr(lock_cmpxchgb_mr<R>),
    lock_cmpxchgw_mr(lock_cmpxchgw_mr<R>),
    lock_cmpxchgl_mr(lock_cmpxchgl_mr<R>),
    lock_cmpxchgq_mr(lock_cmpxchgq_mr<R>),
    lock_cmpxchg16b_m(lock_cmpxchg16b_m<R>),
    lock_xaddb_mr(lock_xaddb_mr<R>),
    lock_xaddw_mr(lock_xaddw_mr<R>),
    lock_xaddl_mr(lock_xaddl_mr<R>),
    lock_xaddq_mr(lock_xaddq_mr<R>),
    andb_i(andb_i<R>),
    mulxl_rvm(mulxl_rvm<R>),
    mulxq_rvm(mulxq_rvm<R>),
    rolb_m1(rolb_m1<R>),
    rolw_m1(rolw_m1<R>),
    roll_m1(roll_m1<R>),
    rolq_m1(rolq_m1<R>),
    rorb_m1(rorb_m1<R>),
    rorw_m1(rorw_m1<R>),
    rorl_m1(rorl_m1<R>),
    rorq_m1(rorq_m1<R>),
    sarb_m1(sarb_m1<R>),
    sarw_m1(sarw_m1<R>),
    sarl_m1(sarl_m1<R>),
    sarq_m1(sarq_m1<R>),
    shlb_m1(shlb_m1<R>),
    shlw_m1(shlw_m1<R>),
    shll_m1(shll_m1<R>),
    shlq_m1(shlq_m1<R>),
    shrb_m1(shrb_m1<R>),
    shrw_m1(shrw_m1<R>),
    shrl_m1(shrl_m1<R>),
    shrq_m1(shrq_m1<R>),
    xchgb_rm(xchgb_rm<R>),
    xchgw_rm(xchgw_rm<R>),
    xchgl_rm(xchgl_rm<R>),
    xchgq_rm(xchgq_rm<R>),
    andps_a(andps_a<R>),
    cmpps_a(cmpps_a<R>),
    cmppd_a(cmppd_a<R>),
    cmpss_a(cmpss_a<R>),
    cmpsd_a(cmpsd_a<R>),
    vcmpps_b(vcmpps_b<R>),
    vcmppd_b(vcmppd_b<R>),
    vcmpss_b(vcmpss_b<R>),
    vcmpsd_b(vcmpsd_b<R>),
    vcvtpd2ps_a(vcvtpd2ps_a<R>),
    vcvttpd2dq_a(vcvttpd2dq_a<R>),
    callq_m(callq_m<R>),
    jmpq_m(jmpq_m<R>),
    lock_sbbb_mi(lock_sbbb_mi<R>),
    lock_sbbw_mi(lock_sbbw_mi<R>),
    lock_sbbl_mi(lock_sbbl_mi<R>),
    lock_sbbq_mi_sxl(lock_sbbq_mi_sxl<R>),
    lock_sbbl_mi_sxb(lock_sbbl_mi_sxb<R>),
    lock_sbbq_mi_sxb(lock_sbbq_mi_sxb<R>),
    lock_sbbb_mr(lock_sbbb_mr<R>),
    lock_sbbw_mr(lock_sbbw_mr<R>),
    lock_sbbl_mr(lock_sbbl_mr<R>),
    lock_sbbq_mr(lock_sbbq_mr<R>),
    lock_andb_mi(lock_andb_mi<R>),
    lock_andw_mi(lock_andw_mi<R>),
    lock_andl_mi(lock_andl_mi<R>),
    lock_andq_mi_sxl(lock_andq_mi_sxl<R>),
    lock_andl_mi_sxb(lock_andl_mi_sxb<R>),
    lock_andq_mi_sxb(lock_andq_mi_sxb<R>),
    lock_andb_mr(lock_andb_mr<R>),
    lock_andw_mr(lock_andw_mr<R>),
    lock_andl_mr(lock_andl_mr<R>),
    lock_andq_mr(lock_andq_mr<R>),
    lock_subb_mi(lock_subb_mi<R>),
    lock_subw_mi(lock_subw_mi<R>),
    lock_subl_mi(lock_subl_mi<R>),
    lock_subq_mi_sxl(lock_subq_mi_sxl<R>),
    lock_subl_mi_sxb(lock_subl_mi_sxb<R>),
    lock_subq_mi_sxb(lock_subq_mi_sxb<R>),
    lock_subb_mr(lock_subb_mr<R>),
    lock_subw_mr(lock_subw_mr<R>),
    lock_subl_mr(lock_subl_mr<R>),
    lock_subq_mr(lock_subq_mr<R>),
    lock_xorb_mi(lock_xorb_mi<R>),
    lock_xorw_mi(lock_xorw_mi<R>),
    lock_xorl_mi(lock_xorl_mi<R>),
    lock_xorq_mi_sxl(lock_xorq_mi_sxl<R>),
    lock_xorl_mi_sxb(lock_xorl_mi_sxb<R>),
    lock_xorq_mi_sxb(lock_xorq_mi_sxb<R>),
    lock_xorb_mr(lock_xorb_mr<R>),
    lock_xorw_mr(lock_xorw_mr<R>),
    lock_xorl_mr(lock_xorl_mr<R>),
    lock_xorq_mr(lock_xorq_mr<R>),
    jmp_d8(jmp_d8),
    jo_d8(jo_d8),
    jno_d8(jno_d8),
    jb_d8(jb_d8),
    jae_d8(jae_d8),
    je_d8(je_d8),
    jne_d8(jne_d8),
    jbe_d8(jbe_d8),
    ja_d8(ja_d8),
    js_d8(js_d8),
    jns_d8(jns_d8),
    jp_d8(jp_d8),
    jnp_d8(jnp_d8),
    jl_d8(jl_d8),
    jge_d8(jge_d8),
    jle_d8(jle_d8),
    jg_d8(jg_d8),
    callq_d(callq_d),
    jmp_d32(jmp_d32),
    jo_d32(jo_d32),
    jno_d32(jno_d32),
    jb_d32(jb_d32),
    jae_d32(jae_d32),
    je_d32(je_d32),
    jne_d32(jne_d32),
    jbe_d32(jbe_d32),
    ja_d32(ja_d32),
    js_d32(js_d32),
    jns_d32(jns_d32),
    jp_d32(jp_d32),
    jnp_d32(jnp_d32),
    jl_d32(jl_d32),
    jge_d32(jge_d32),
    jle_d32(jle_d32),
    jg_d32(jg_d32),
    // table/write.py: end
}

impl<R: Registers> RowAndOperands for Inst<R> {
    type Family = R;

    ghost row_of = { row_of };

    ghost operands_of = { operands_of };

    #[tactic(auto, unfolding(crate::specs::OfSignature::OfSignature))]
    #[inline(always)]
    fn hand_to<T: Task<R, X>, X>(&self, to: &mut X) -> T::Answer {
        self.hand_to_within::<T, X>(to)
    }

    fn visit<V: RegisterVisitor<R>>(&mut self, visitor: &mut V) {
        self.visit_within(visitor);
    }
}
