//! Visits. Each arm that borrows what is within costs the prover a table of the whole enumeration, once more for every
//! arm before it, so no function has many: they are asked by groups of variants. An arm that binds nothing costs little.

ghost use Rattle.std.specs.Prelude.{◌≡◌};
ghost use Rattle.cax64_inst.specs.Group.{group_of};
ghost use Rattle.cax64_inst.specs.Inst.{row_of, operands_of};
ghost use Rattle.cax64_operand.specs.Visit.{OperandsRun};

use crate::Inst;
use cax64_operand::{RegisterVisitor, RowAndOperands};
use cax64_register::Registers;

impl<R: Registers> Inst<R> {
    /// Visits what is within. The kinds are told apart here, and each has a call of its own: of the match of its group,
    /// which is inlined there, the compiler keeps what is for that kind. So all is one jump, and those kinds that are
    /// visited alike share its target; matches one behind the other would be as many jumps, and a match of the groups and
    /// one within the group two.
    #[tactic(auto, unfolding(crate::specs::Inst::row_of, crate::specs::Inst::operands_of, crate::specs::Group::group_of))]
    pub(crate) fn visit_within<V: RegisterVisitor<R>>(&mut self, visitor: &mut V)
        ensures run { OperandsRun R.WriteGpr.eq V.steps visitor.old (operands_of self.old) (operands_of self.new) visitor.new }
        ensures row { row_of self.new ≡ row_of self.old }
    {
        match self {
            // table/write.py: arms
            Inst::lock_addb_mi(_) => self.visit_lock_add_or(visitor),
            Inst::lock_addw_mi(_) => self.visit_lock_add_or(visitor),
            Inst::lock_addl_mi(_) => self.visit_lock_add_or(visitor),
            Inst::lock_addq_mi_sxl(_) => self.visit_lock_add_or(visitor),
            Inst::lock_addl_mi_sxb(_) => self.visit_lock_add_or(visitor),
            Inst::lock_addq_mi_sxb(_) => self.visit_lock_add_or(visitor),
            Inst::lock_addb_mr(_) => self.visit_lock_add_or(visitor),
            Inst::lock_addw_mr(_) => self.visit_lock_add_or(visitor),
            Inst::lock_addl_mr(_) => self.visit_lock_add_or(visitor),
            Inst::lock_addq_mr(_) => self.visit_lock_add_or(visitor),
            Inst::lock_orb_mi(_) => self.visit_lock_add_or(visitor),
            Inst::lock_orw_mi(_) => self.visit_lock_add_or(visitor),
            Inst::lock_orl_mi(_) => self.visit_lock_add_or(visitor),
            Inst::lock_orq_mi_sxl(_) => self.visit_lock_add_or(visitor),
            Inst::lock_orl_mi_sxb(_) => self.visit_lock_add_or(visitor),
            Inst::lock_orq_mi_sxb(_) => self.visit_lock_add_or(visitor),
            Inst::lock_orb_mr(_) => self.visit_lock_add_or(visitor),
            Inst::lock_orw_mr(_) => self.visit_lock_add_or(visitor),
            Inst::lock_orl_mr(_) => self.visit_lock_add_or(visitor),
            Inst::lock_orq_mr(_) => self.visit_lock_add_or(visitor),
            Inst::lock_adcb_mi(_) => self.visit_lock_adc_exchange(visitor),
            Inst::lock_adcw_mi(_) => self.visit_lock_adc_exchange(visitor),
            Inst::lock_adcl_mi(_) => self.visit_lock_adc_exchange(visitor),
            Inst::lock_adcq_mi_sxl(_) => self.visit_lock_adc_exchange(visitor),
            Inst::lock_adcl_mi_sxb(_) => self.visit_lock_adc_exchange(visitor),
            Inst::lock_adcq_mi_sxb(_) => self.visit_lock_adc_exchange(visitor),
            Inst::lock_adcb_mr(_) => self.visit_lock_adc_exchange(visitor),
            Inst::lock_adcw_mr(_) => self.visit_lock_adc_exchange(visitor),
            Inst::lock_adcl_mr(_) => self.visit_lock_adc_exchange(visitor),
            Inst::lock_adcq_mr(_) => self.visit_lock_adc_exchange(visitor),
            Inst::lock_cmpxchgb_mr(_) => self.visit_lock_adc_exchange(visitor),
            Inst::lock_cmpxchgw_mr(_) => self.visit_lock_adc_exchange(visitor),
            Inst::lock_cmpxchgl_mr(_) => self.visit_lock_adc_exchange(visitor),
            Inst::lock_cmpxchgq_mr(_) => self.visit_lock_adc_exchange(visitor),
            Inst::lock_cmpxchg16b_m(_) => self.visit_lock_adc_exchange(visitor),
            Inst::lock_xaddb_mr(_) => self.visit_lock_adc_exchange(visitor),
            Inst::lock_xaddw_mr(_) => self.visit_lock_adc_exchange(visitor),
            Inst::lock_xaddl_mr(_) => self.visit_lock_adc_exchange(visitor),
            Inst::lock_xaddq_mr(_) => self.visit_lock_adc_exchange(visitor),
            Inst::lock_sbbb_mi(_) => self.visit_lock_sbb_and(visitor),
            Inst::lock_sbbw_mi(_) => self.visit_lock_sbb_and(visitor),
            Inst::lock_sbbl_mi(_) => self.visit_lock_sbb_and(visitor),
            Inst::lock_sbbq_mi_sxl(_) => self.visit_lock_sbb_and(visitor),
            Inst::lock_sbbl_mi_sxb(_) => self.visit_lock_sbb_and(visitor),
            Inst::lock_sbbq_mi_sxb(_) => self.visit_lock_sbb_and(visitor),
            Inst::lock_sbbb_mr(_) => self.visit_lock_sbb_and(visitor),
            Inst::lock_sbbw_mr(_) => self.visit_lock_sbb_and(visitor),
            Inst::lock_sbbl_mr(_) => self.visit_lock_sbb_and(visitor),
            Inst::lock_sbbq_mr(_) => self.visit_lock_sbb_and(visitor),
            Inst::lock_andb_mi(_) => self.visit_lock_sbb_and(visitor),
            Inst::lock_andw_mi(_) => self.visit_lock_sbb_and(visitor),
            Inst::lock_andl_mi(_) => self.visit_lock_sbb_and(visitor),
            Inst::lock_andq_mi_sxl(_) => self.visit_lock_sbb_and(visitor),
            Inst::lock_andl_mi_sxb(_) => self.visit_lock_sbb_and(visitor),
            Inst::lock_andq_mi_sxb(_) => self.visit_lock_sbb_and(visitor),
            Inst::lock_andb_mr(_) => self.visit_lock_sbb_and(visitor),
            Inst::lock_andw_mr(_) => self.visit_lock_sbb_and(visitor),
            Inst::lock_andl_mr(_) => self.visit_lock_sbb_and(visitor),
            Inst::lock_andq_mr(_) => self.visit_lock_sbb_and(visitor),
            Inst::lock_subb_mi(_) => self.visit_lock_sub_xor(visitor),
            Inst::lock_subw_mi(_) => self.visit_lock_sub_xor(visitor),
            Inst::lock_subl_mi(_) => self.visit_lock_sub_xor(visitor),
            Inst::lock_subq_mi_sxl(_) => self.visit_lock_sub_xor(visitor),
            Inst::lock_subl_mi_sxb(_) => self.visit_lock_sub_xor(visitor),
            Inst::lock_subq_mi_sxb(_) => self.visit_lock_sub_xor(visitor),
            Inst::lock_subb_mr(_) => self.visit_lock_sub_xor(visitor),
            Inst::lock_subw_mr(_) => self.visit_lock_sub_xor(visitor),
            Inst::lock_subl_mr(_) => self.visit_lock_sub_xor(visitor),
            Inst::lock_subq_mr(_) => self.visit_lock_sub_xor(visitor),
            Inst::lock_xorb_mi(_) => self.visit_lock_sub_xor(visitor),
            Inst::lock_xorw_mi(_) => self.visit_lock_sub_xor(visitor),
            Inst::lock_xorl_mi(_) => self.visit_lock_sub_xor(visitor),
            Inst::lock_xorq_mi_sxl(_) => self.visit_lock_sub_xor(visitor),
            Inst::lock_xorl_mi_sxb(_) => self.visit_lock_sub_xor(visitor),
            Inst::lock_xorq_mi_sxb(_) => self.visit_lock_sub_xor(visitor),
            Inst::lock_xorb_mr(_) => self.visit_lock_sub_xor(visitor),
            Inst::lock_xorw_mr(_) => self.visit_lock_sub_xor(visitor),
            Inst::lock_xorl_mr(_) => self.visit_lock_sub_xor(visitor),
            Inst::lock_xorq_mr(_) => self.visit_lock_sub_xor(visitor),
            Inst::rolb_m1(_) => self.visit_shift(visitor),
            Inst::rolw_m1(_) => self.visit_shift(visitor),
            Inst::roll_m1(_) => self.visit_shift(visitor),
            Inst::rolq_m1(_) => self.visit_shift(visitor),
            Inst::rorb_m1(_) => self.visit_shift(visitor),
            Inst::rorw_m1(_) => self.visit_shift(visitor),
            Inst::rorl_m1(_) => self.visit_shift(visitor),
            Inst::rorq_m1(_) => self.visit_shift(visitor),
            Inst::sarb_m1(_) => self.visit_shift(visitor),
            Inst::sarw_m1(_) => self.visit_shift(visitor),
            Inst::sarl_m1(_) => self.visit_shift(visitor),
            Inst::sarq_m1(_) => self.visit_shift(visitor),
            Inst::shlb_m1(_) => self.visit_shift(visitor),
            Inst::shlw_m1(_) => self.visit_shift(visitor),
            Inst::shll_m1(_) => self.visit_shift(visitor),
            Inst::shlq_m1(_) => self.visit_shift(visitor),
            Inst::shrb_m1(_) => self.visit_shift(visitor),
            Inst::shrw_m1(_) => self.visit_shift(visitor),
            Inst::shrl_m1(_) => self.visit_shift(visitor),
            Inst::shrq_m1(_) => self.visit_shift(visitor),
            Inst::andb_i(_) => self.visit_unlocked(visitor),
            Inst::mulxl_rvm(_) => self.visit_unlocked(visitor),
            Inst::mulxq_rvm(_) => self.visit_unlocked(visitor),
            Inst::xchgb_rm(_) => self.visit_unlocked(visitor),
            Inst::xchgw_rm(_) => self.visit_unlocked(visitor),
            Inst::xchgl_rm(_) => self.visit_unlocked(visitor),
            Inst::xchgq_rm(_) => self.visit_unlocked(visitor),
            Inst::andps_a(_) => self.visit_unlocked(visitor),
            Inst::cmpps_a(_) => self.visit_unlocked(visitor),
            Inst::cmppd_a(_) => self.visit_unlocked(visitor),
            Inst::cmpss_a(_) => self.visit_unlocked(visitor),
            Inst::cmpsd_a(_) => self.visit_unlocked(visitor),
            Inst::vcmpps_b(_) => self.visit_unlocked(visitor),
            Inst::vcmppd_b(_) => self.visit_unlocked(visitor),
            Inst::vcmpss_b(_) => self.visit_unlocked(visitor),
            Inst::vcmpsd_b(_) => self.visit_unlocked(visitor),
            Inst::vcvtpd2ps_a(_) => self.visit_unlocked(visitor),
            Inst::vcvttpd2dq_a(_) => self.visit_unlocked(visitor),
            Inst::callq_m(_) => self.visit_unlocked(visitor),
            Inst::jmpq_m(_) => self.visit_unlocked(visitor),
            Inst::nop_1b(_) => {}
            Inst::nop_2b(_) => {}
            Inst::nop_3b(_) => {}
            Inst::nop_4b(_) => {}
            Inst::nop_5b(_) => {}
            Inst::nop_6b(_) => {}
            Inst::nop_7b(_) => {}
            Inst::nop_8b(_) => {}
            Inst::nop_9b(_) => {}
            Inst::jmp_d8(_) => {}
            Inst::jo_d8(_) => {}
            Inst::jno_d8(_) => {}
            Inst::jb_d8(_) => {}
            Inst::jae_d8(_) => {}
            Inst::je_d8(_) => {}
            Inst::jne_d8(_) => {}
            Inst::jbe_d8(_) => {}
            Inst::ja_d8(_) => {}
            Inst::js_d8(_) => {}
            Inst::jns_d8(_) => {}
            Inst::jp_d8(_) => {}
            Inst::jnp_d8(_) => {}
            Inst::jl_d8(_) => {}
            Inst::jge_d8(_) => {}
            Inst::jle_d8(_) => {}
            Inst::jg_d8(_) => {}
            Inst::callq_d(_) => {}
            Inst::jmp_d32(_) => {}
            Inst::jo_d32(_) => {}
            Inst::jno_d32(_) => {}
            Inst::jb_d32(_) => {}
            Inst::jae_d32(_) => {}
            Inst::je_d32(_) => {}
            Inst::jne_d32(_) => {}
            Inst::jbe_d32(_) => {}
            Inst::ja_d32(_) => {}
            Inst::js_d32(_) => {}
            Inst::jns_d32(_) => {}
            Inst::jp_d32(_) => {}
            Inst::jnp_d32(_) => {}
            Inst::jl_d32(_) => {}
            Inst::jge_d32(_) => {}
            Inst::jle_d32(_) => {}
            Inst::jg_d32(_) => {}
            // table/write.py: end
        }
    }

    // table/write.py: groups
    /// Visits what is within, which is of the first group. So do the others, each with its group.
    #[tactic(auto, unfolding(crate::specs::Inst::row_of, crate::specs::Inst::operands_of, crate::specs::Group::group_of))]
    #[inline(always)]
    fn visit_lock_add_or<V: RegisterVisitor<R>>(&mut self, visitor: &mut V)
        requires { group_of self.old ≡ 0 }
        ensures run { OperandsRun R.WriteGpr.eq V.steps visitor.old (operands_of self.old) (operands_of self.new) visitor.new }
        ensures row { row_of self.new ≡ row_of self.old }
    {
        match self {
            Inst::lock_addb_mi(i) => i.visit(visitor),
            Inst::lock_addw_mi(i) => i.visit(visitor),
            Inst::lock_addl_mi(i) => i.visit(visitor),
            Inst::lock_addq_mi_sxl(i) => i.visit(visitor),
            Inst::lock_addl_mi_sxb(i) => i.visit(visitor),
            Inst::lock_addq_mi_sxb(i) => i.visit(visitor),
            Inst::lock_addb_mr(i) => i.visit(visitor),
            Inst::lock_addw_mr(i) => i.visit(visitor),
            Inst::lock_addl_mr(i) => i.visit(visitor),
            Inst::lock_addq_mr(i) => i.visit(visitor),
            Inst::lock_orb_mi(i) => i.visit(visitor),
            Inst::lock_orw_mi(i) => i.visit(visitor),
            Inst::lock_orl_mi(i) => i.visit(visitor),
            Inst::lock_orq_mi_sxl(i) => i.visit(visitor),
            Inst::lock_orl_mi_sxb(i) => i.visit(visitor),
            Inst::lock_orq_mi_sxb(i) => i.visit(visitor),
            Inst::lock_orb_mr(i) => i.visit(visitor),
            Inst::lock_orw_mr(i) => i.visit(visitor),
            Inst::lock_orl_mr(i) => i.visit(visitor),
            Inst::lock_orq_mr(i) => i.visit(visitor),
            _ => {}
        }
    }

    #[tactic(auto, unfolding(crate::specs::Inst::row_of, crate::specs::Inst::operands_of, crate::specs::Group::group_of))]
    #[inline(always)]
    fn visit_lock_adc_exchange<V: RegisterVisitor<R>>(&mut self, visitor: &mut V)
        requires { group_of self.old ≡ 1 }
        ensures run { OperandsRun R.WriteGpr.eq V.steps visitor.old (operands_of self.old) (operands_of self.new) visitor.new }
        ensures row { row_of self.new ≡ row_of self.old }
    {
        match self {
            Inst::lock_adcb_mi(i) => i.visit(visitor),
            Inst::lock_adcw_mi(i) => i.visit(visitor),
            Inst::lock_adcl_mi(i) => i.visit(visitor),
            Inst::lock_adcq_mi_sxl(i) => i.visit(visitor),
            Inst::lock_adcl_mi_sxb(i) => i.visit(visitor),
            Inst::lock_adcq_mi_sxb(i) => i.visit(visitor),
            Inst::lock_adcb_mr(i) => i.visit(visitor),
            Inst::lock_adcw_mr(i) => i.visit(visitor),
            Inst::lock_adcl_mr(i) => i.visit(visitor),
            Inst::lock_adcq_mr(i) => i.visit(visitor),
            Inst::lock_cmpxchgb_mr(i) => i.visit(visitor),
            Inst::lock_cmpxchgw_mr(i) => i.visit(visitor),
            Inst::lock_cmpxchgl_mr(i) => i.visit(visitor),
            Inst::lock_cmpxchgq_mr(i) => i.visit(visitor),
            Inst::lock_cmpxchg16b_m(i) => i.visit(visitor),
            Inst::lock_xaddb_mr(i) => i.visit(visitor),
            Inst::lock_xaddw_mr(i) => i.visit(visitor),
            Inst::lock_xaddl_mr(i) => i.visit(visitor),
            Inst::lock_xaddq_mr(i) => i.visit(visitor),
            _ => {}
        }
    }

    #[tactic(auto, unfolding(crate::specs::Inst::row_of, crate::specs::Inst::operands_of, crate::specs::Group::group_of))]
    #[inline(always)]
    fn visit_lock_sbb_and<V: RegisterVisitor<R>>(&mut self, visitor: &mut V)
        requires { group_of self.old ≡ 2 }
        ensures run { OperandsRun R.WriteGpr.eq V.steps visitor.old (operands_of self.old) (operands_of self.new) visitor.new }
        ensures row { row_of self.new ≡ row_of self.old }
    {
        match self {
            Inst::lock_sbbb_mi(i) => i.visit(visitor),
            Inst::lock_sbbw_mi(i) => i.visit(visitor),
            Inst::lock_sbbl_mi(i) => i.visit(visitor),
            Inst::lock_sbbq_mi_sxl(i) => i.visit(visitor),
            Inst::lock_sbbl_mi_sxb(i) => i.visit(visitor),
            Inst::lock_sbbq_mi_sxb(i) => i.visit(visitor),
            Inst::lock_sbbb_mr(i) => i.visit(visitor),
            Inst::lock_sbbw_mr(i) => i.visit(visitor),
            Inst::lock_sbbl_mr(i) => i.visit(visitor),
            Inst::lock_sbbq_mr(i) => i.visit(visitor),
            Inst::lock_andb_mi(i) => i.visit(visitor),
            Inst::lock_andw_mi(i) => i.visit(visitor),
            Inst::lock_andl_mi(i) => i.visit(visitor),
            Inst::lock_andq_mi_sxl(i) => i.visit(visitor),
            Inst::lock_andl_mi_sxb(i) => i.visit(visitor),
            Inst::lock_andq_mi_sxb(i) => i.visit(visitor),
            Inst::lock_andb_mr(i) => i.visit(visitor),
            Inst::lock_andw_mr(i) => i.visit(visitor),
            Inst::lock_andl_mr(i) => i.visit(visitor),
            Inst::lock_andq_mr(i) => i.visit(visitor),
            _ => {}
        }
    }

    #[tactic(auto, unfolding(crate::specs::Inst::row_of, crate::specs::Inst::operands_of, crate::specs::Group::group_of))]
    #[inline(always)]
    fn visit_lock_sub_xor<V: RegisterVisitor<R>>(&mut self, visitor: &mut V)
        requires { group_of self.old ≡ 3 }
        ensures run { OperandsRun R.WriteGpr.eq V.steps visitor.old (operands_of self.old) (operands_of self.new) visitor.new }
        ensures row { row_of self.new ≡ row_of self.old }
    {
        match self {
            Inst::lock_subb_mi(i) => i.visit(visitor),
            Inst::lock_subw_mi(i) => i.visit(visitor),
            Inst::lock_subl_mi(i) => i.visit(visitor),
            Inst::lock_subq_mi_sxl(i) => i.visit(visitor),
            Inst::lock_subl_mi_sxb(i) => i.visit(visitor),
            Inst::lock_subq_mi_sxb(i) => i.visit(visitor),
            Inst::lock_subb_mr(i) => i.visit(visitor),
            Inst::lock_subw_mr(i) => i.visit(visitor),
            Inst::lock_subl_mr(i) => i.visit(visitor),
            Inst::lock_subq_mr(i) => i.visit(visitor),
            Inst::lock_xorb_mi(i) => i.visit(visitor),
            Inst::lock_xorw_mi(i) => i.visit(visitor),
            Inst::lock_xorl_mi(i) => i.visit(visitor),
            Inst::lock_xorq_mi_sxl(i) => i.visit(visitor),
            Inst::lock_xorl_mi_sxb(i) => i.visit(visitor),
            Inst::lock_xorq_mi_sxb(i) => i.visit(visitor),
            Inst::lock_xorb_mr(i) => i.visit(visitor),
            Inst::lock_xorw_mr(i) => i.visit(visitor),
            Inst::lock_xorl_mr(i) => i.visit(visitor),
            Inst::lock_xorq_mr(i) => i.visit(visitor),
            _ => {}
        }
    }

    #[tactic(auto, unfolding(crate::specs::Inst::row_of, crate::specs::Inst::operands_of, crate::specs::Group::group_of))]
    #[inline(always)]
    fn visit_shift<V: RegisterVisitor<R>>(&mut self, visitor: &mut V)
        requires { group_of self.old ≡ 4 }
        ensures run { OperandsRun R.WriteGpr.eq V.steps visitor.old (operands_of self.old) (operands_of self.new) visitor.new }
        ensures row { row_of self.new ≡ row_of self.old }
    {
        match self {
            Inst::rolb_m1(i) => i.visit(visitor),
            Inst::rolw_m1(i) => i.visit(visitor),
            Inst::roll_m1(i) => i.visit(visitor),
            Inst::rolq_m1(i) => i.visit(visitor),
            Inst::rorb_m1(i) => i.visit(visitor),
            Inst::rorw_m1(i) => i.visit(visitor),
            Inst::rorl_m1(i) => i.visit(visitor),
            Inst::rorq_m1(i) => i.visit(visitor),
            Inst::sarb_m1(i) => i.visit(visitor),
            Inst::sarw_m1(i) => i.visit(visitor),
            Inst::sarl_m1(i) => i.visit(visitor),
            Inst::sarq_m1(i) => i.visit(visitor),
            Inst::shlb_m1(i) => i.visit(visitor),
            Inst::shlw_m1(i) => i.visit(visitor),
            Inst::shll_m1(i) => i.visit(visitor),
            Inst::shlq_m1(i) => i.visit(visitor),
            Inst::shrb_m1(i) => i.visit(visitor),
            Inst::shrw_m1(i) => i.visit(visitor),
            Inst::shrl_m1(i) => i.visit(visitor),
            Inst::shrq_m1(i) => i.visit(visitor),
            _ => {}
        }
    }

    #[tactic(auto, unfolding(crate::specs::Inst::row_of, crate::specs::Inst::operands_of, crate::specs::Group::group_of))]
    #[inline(always)]
    fn visit_unlocked<V: RegisterVisitor<R>>(&mut self, visitor: &mut V)
        requires { group_of self.old ≡ 5 }
        ensures run { OperandsRun R.WriteGpr.eq V.steps visitor.old (operands_of self.old) (operands_of self.new) visitor.new }
        ensures row { row_of self.new ≡ row_of self.old }
    {
        match self {
            Inst::andb_i(i) => i.visit(visitor),
            Inst::mulxl_rvm(i) => i.visit(visitor),
            Inst::mulxq_rvm(i) => i.visit(visitor),
            Inst::xchgb_rm(i) => i.visit(visitor),
            Inst::xchgw_rm(i) => i.visit(visitor),
            Inst::xchgl_rm(i) => i.visit(visitor),
            Inst::xchgq_rm(i) => i.visit(visitor),
            Inst::andps_a(i) => i.visit(visitor),
            Inst::cmpps_a(i) => i.visit(visitor),
            Inst::cmppd_a(i) => i.visit(visitor),
            Inst::cmpss_a(i) => i.visit(visitor),
            Inst::cmpsd_a(i) => i.visit(visitor),
            Inst::vcmpps_b(i) => i.visit(visitor),
            Inst::vcmppd_b(i) => i.visit(visitor),
            Inst::vcmpss_b(i) => i.visit(visitor),
            Inst::vcmpsd_b(i) => i.visit(visitor),
            Inst::vcvtpd2ps_a(i) => i.visit(visitor),
            Inst::vcvttpd2dq_a(i) => i.visit(visitor),
            Inst::callq_m(i) => i.visit(visitor),
            Inst::jmpq_m(i) => i.visit(visitor),
            _ => {}
        }
    }
    // table/write.py: end
}
