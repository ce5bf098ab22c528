//! The instruction within is handed to a task, so that each kind has code of its own. One match over all is one jump;
//! matches one behind the other, each of a few kinds, would be as many jumps.

ghost use Rattle.std.specs.Prelude.{◌≡◌};
ghost use Rattle.cax64_inst.specs.Inst.{row_of, operands_of};
ghost use Rattle.cax64_inst.specs.OfSignature.{OfSignature};
ghost use Rattle.cax64_operand.specs.Fold.{fold};
ghost use Rattle.cax64_operand.specs.NopRow.{nop_row};
ghost use Rattle.cax64_operand.specs.Signature.{HasSignature};
ghost use Rattle.cax64_operand.specs.declared.immediate.Immediate.TheVariants as immediate;
ghost use Rattle.cax64_operand.specs.declared.operand.Operand.TheVariants as operand;
ghost use Rattle.cax64_operand.specs.declared.operand.Operands.TheVariants as operands;

use crate::Inst;
use cax64_machine_code::row::Row;
use cax64_operand::{FromOperands, Immediate, Nop, Operand, RowAndOperands, Task, of_one};
use cax64_register::Registers;
// table/write.py: uses
use jump::{
    callq_d, ja_d8, ja_d32, jae_d8, jae_d32, jb_d8, jb_d32, jbe_d8, jbe_d32, je_d8, je_d32, jg_d8,
    jg_d32, jge_d8, jge_d32, jl_d8, jl_d32, jle_d8, jle_d32, jmp_d8, jmp_d32, jne_d8, jne_d32,
    jno_d8, jno_d32, jnp_d8, jnp_d32, jns_d8, jns_d32, jo_d8, jo_d32, jp_d8, jp_d32, js_d8, js_d32,
};
use nop::{nop_1b, nop_2b, nop_3b, nop_4b, nop_5b, nop_6b, nop_7b, nop_8b, nop_9b};
// table/write.py: end

/// Hands on an instruction. That its operands have their row's signature is one word here, in what is asked: the search
/// for a proof takes the definition's many parts apart in every arm.
#[tactic(auto, unfolding(crate::specs::OfSignature::OfSignature))]
#[inline(never)]
fn give<I: RowAndOperands, T: Task<I::Family, X>, X>(instruction: &I, to: &mut X) -> T::Answer
    requires asks { OfSignature (I.row_of instruction.now) (I.operands_of instruction.now) → T.asks (I.row_of instruction.now) (fold T.made_of_none T.made_with T.made_of_nop (I.operands_of instruction.now)) to.old }
    ensures answers { T.answers (I.row_of instruction.now) (fold T.made_of_none T.made_with T.made_of_nop (I.operands_of instruction.now)) to.old to.new result }
    ensures signature { HasSignature (I.row_of instruction.now) (I.operands_of instruction.now) }
{
    instruction.hand_to::<T, X>(to)
}

/// Hands on a no-operation. `Kind` is the kind that it is, so that each has a function of its own, in which the row is
/// known.
#[tactic(auto, unfolding(crate::specs::OfSignature::OfSignature))]
#[inline(never)]
fn give_nop<Kind, R: Registers, T: Task<R, X>, X>(nop: Nop, row: Row, to: &mut X) -> T::Answer
    requires row { row ≡ nop_row nop }
    requires asks { OfSignature {R = R} {A = R.ReadGpr} {B = R.ReadWriteGpr} {C = R.WriteGpr} {D = R.ReadXmm} {E = R.ReadWriteXmm} {F = R.WriteXmm} row (operands.Nop nop) → T.asks row (fold T.made_of_none T.made_with T.made_of_nop (operands.Nop nop)) to.old }
    ensures answers { T.answers row (fold T.made_of_none T.made_with T.made_of_nop (operands.Nop nop)) to.old to.new result }
{
    T::take(T::nop(nop), row, to)
}

/// Hands on a jump by a distance of one byte, in a function of its own for each kind too.
#[tactic(auto, unfolding(crate::specs::OfSignature::OfSignature))]
#[inline(never)]
fn give_short<Kind, R: Registers, T: Task<R, X>, X>(distance: i8, row: Row, to: &mut X) -> T::Answer
    requires signature { HasSignature {R = R} {A = R.ReadGpr} {B = R.ReadWriteGpr} {C = R.WriteGpr} {D = R.ReadXmm} {E = R.ReadWriteXmm} {F = R.WriteXmm} row (operands.One (operand.Imm (immediate.Distance8 distance))) }
    requires asks { OfSignature {R = R} {A = R.ReadGpr} {B = R.ReadWriteGpr} {C = R.WriteGpr} {D = R.ReadXmm} {E = R.ReadWriteXmm} {F = R.WriteXmm} row (operands.One (operand.Imm (immediate.Distance8 distance))) → T.asks row (fold T.made_of_none T.made_with T.made_of_nop (operands.One (operand.Imm (immediate.Distance8 distance)))) to.old }
    ensures answers { T.answers row (fold T.made_of_none T.made_with T.made_of_nop (operands.One (operand.Imm (immediate.Distance8 distance)))) to.old to.new result }
{
    T::take(
        of_one(Operand::Imm(Immediate::Distance8(distance))),
        row,
        to,
    )
}

/// Hands on a jump or a call by a distance of four bytes, in a function of its own for each kind too.
#[tactic(auto, unfolding(crate::specs::OfSignature::OfSignature))]
#[inline(never)]
fn give_near<Kind, R: Registers, T: Task<R, X>, X>(distance: i32, row: Row, to: &mut X) -> T::Answer
    requires signature { HasSignature {R = R} {A = R.ReadGpr} {B = R.ReadWriteGpr} {C = R.WriteGpr} {D = R.ReadXmm} {E = R.ReadWriteXmm} {F = R.WriteXmm} row (operands.One (operand.Imm (immediate.Distance32 distance))) }
    requires asks { OfSignature {R = R} {A = R.ReadGpr} {B = R.ReadWriteGpr} {C = R.WriteGpr} {D = R.ReadXmm} {E = R.ReadWriteXmm} {F = R.WriteXmm} row (operands.One (operand.Imm (immediate.Distance32 distance))) → T.asks row (fold T.made_of_none T.made_with T.made_of_nop (operands.One (operand.Imm (immediate.Distance32 distance)))) to.old }
    ensures answers { T.answers row (fold T.made_of_none T.made_with T.made_of_nop (operands.One (operand.Imm (immediate.Distance32 distance)))) to.old to.new result }
{
    T::take(
        of_one(Operand::Imm(Immediate::Distance32(distance))),
        row,
        to,
    )
}

/// Hands on an instruction whose operand is an immediate.
#[tactic(auto, unfolding(crate::specs::OfSignature::OfSignature))]
#[inline(never)]
fn give_immediate<R: Registers, T: Task<R, X>, X>(
    distance: Immediate,
    row: Row,
    to: &mut X,
) -> T::Answer
    requires signature { HasSignature {R = R} {A = R.ReadGpr} {B = R.ReadWriteGpr} {C = R.WriteGpr} {D = R.ReadXmm} {E = R.ReadWriteXmm} {F = R.WriteXmm} row (operands.One (operand.Imm distance)) }
    requires asks { OfSignature {R = R} {A = R.ReadGpr} {B = R.ReadWriteGpr} {C = R.WriteGpr} {D = R.ReadXmm} {E = R.ReadWriteXmm} {F = R.WriteXmm} row (operands.One (operand.Imm distance)) → T.asks row (fold T.made_of_none T.made_with T.made_of_nop (operands.One (operand.Imm distance))) to.old }
    ensures answers { T.answers row (fold T.made_of_none T.made_with T.made_of_nop (operands.One (operand.Imm distance))) to.old to.new result }
{
    T::take(of_one(Operand::Imm(distance)), row, to)
}

/// Hands on a jump or a call by a distance. The compiler sees here of how many bytes it is.
#[tactic(auto, unfolding(crate::specs::OfSignature::OfSignature))]
#[inline(always)]
fn give_distance<Kind, R: Registers, T: Task<R, X>, X>(
    distance: Immediate,
    row: Row,
    to: &mut X,
) -> T::Answer
    requires signature { HasSignature {R = R} {A = R.ReadGpr} {B = R.ReadWriteGpr} {C = R.WriteGpr} {D = R.ReadXmm} {E = R.ReadWriteXmm} {F = R.WriteXmm} row (operands.One (operand.Imm distance)) }
    requires asks { OfSignature {R = R} {A = R.ReadGpr} {B = R.ReadWriteGpr} {C = R.WriteGpr} {D = R.ReadXmm} {E = R.ReadWriteXmm} {F = R.WriteXmm} row (operands.One (operand.Imm distance)) → T.asks row (fold T.made_of_none T.made_with T.made_of_nop (operands.One (operand.Imm distance))) to.old }
    ensures answers { T.answers row (fold T.made_of_none T.made_with T.made_of_nop (operands.One (operand.Imm distance))) to.old to.new result }
{
    match distance {
        Immediate::Distance8(distance) => give_short::<Kind, R, T, X>(distance, row, to),
        Immediate::Distance32(distance) => give_near::<Kind, R, T, X>(distance, row, to),
        other => give_immediate::<R, T, X>(other, row, to),
    }
}

impl<R: Registers> Inst<R> {
    /// Hands on what is within. A kind without registers isn't borrowed: its distance is read out of it.
    #[tactic(auto, unfolding(crate::specs::Inst::row_of, crate::specs::Inst::operands_of, cax64_operand::specs::Signature::signature_of))]
    #[inline(always)]
    pub(crate) fn hand_to_within<T: Task<R, X>, X>(&self, to: &mut X) -> T::Answer
        requires asks { OfSignature (row_of self.now) (operands_of self.now) → T.asks (row_of self.now) (fold T.made_of_none T.made_with T.made_of_nop (operands_of self.now)) to.old }
        ensures answers { T.answers (row_of self.now) (fold T.made_of_none T.made_with T.made_of_nop (operands_of self.now)) to.old to.new result }
        ensures signature { HasSignature (row_of self.now) (operands_of self.now) }
    {
        match self {
            // table/write.py: arms
            Inst::lock_addb_mi(i) => give::<_, T, X>(i, to),
            Inst::lock_addw_mi(i) => give::<_, T, X>(i, to),
            Inst::lock_addl_mi(i) => give::<_, T, X>(i, to),
            Inst::lock_addq_mi_sxl(i) => give::<_, T, X>(i, to),
            Inst::lock_addl_mi_sxb(i) => give::<_, T, X>(i, to),
            Inst::lock_addq_mi_sxb(i) => give::<_, T, X>(i, to),
            Inst::lock_addb_mr(i) => give::<_, T, X>(i, to),
            Inst::lock_addw_mr(i) => give::<_, T, X>(i, to),
            Inst::lock_addl_mr(i) => give::<_, T, X>(i, to),
            Inst::lock_addq_mr(i) => give::<_, T, X>(i, to),
            Inst::lock_orb_mi(i) => give::<_, T, X>(i, to),
            Inst::lock_orw_mi(i) => give::<_, T, X>(i, to),
            Inst::lock_orl_mi(i) => give::<_, T, X>(i, to),
            Inst::lock_orq_mi_sxl(i) => give::<_, T, X>(i, to),
            Inst::lock_orl_mi_sxb(i) => give::<_, T, X>(i, to),
            Inst::lock_orq_mi_sxb(i) => give::<_, T, X>(i, to),
            Inst::lock_orb_mr(i) => give::<_, T, X>(i, to),
            Inst::lock_orw_mr(i) => give::<_, T, X>(i, to),
            Inst::lock_orl_mr(i) => give::<_, T, X>(i, to),
            Inst::lock_orq_mr(i) => give::<_, T, X>(i, to),
            Inst::lock_adcb_mi(i) => give::<_, T, X>(i, to),
            Inst::lock_adcw_mi(i) => give::<_, T, X>(i, to),
            Inst::lock_adcl_mi(i) => give::<_, T, X>(i, to),
            Inst::lock_adcq_mi_sxl(i) => give::<_, T, X>(i, to),
            Inst::lock_adcl_mi_sxb(i) => give::<_, T, X>(i, to),
            Inst::lock_adcq_mi_sxb(i) => give::<_, T, X>(i, to),
            Inst::lock_adcb_mr(i) => give::<_, T, X>(i, to),
            Inst::lock_adcw_mr(i) => give::<_, T, X>(i, to),
            Inst::lock_adcl_mr(i) => give::<_, T, X>(i, to),
            Inst::lock_adcq_mr(i) => give::<_, T, X>(i, to),
            Inst::lock_cmpxchgb_mr(i) => give::<_, T, X>(i, to),
            Inst::lock_cmpxchgw_mr(i) => give::<_, T, X>(i, to),
            Inst::lock_cmpxchgl_mr(i) => give::<_, T, X>(i, to),
            Inst::lock_cmpxchgq_mr(i) => give::<_, T, X>(i, to),
            Inst::lock_cmpxchg16b_m(i) => give::<_, T, X>(i, to),
            Inst::lock_xaddb_mr(i) => give::<_, T, X>(i, to),
            Inst::lock_xaddw_mr(i) => give::<_, T, X>(i, to),
            Inst::lock_xaddl_mr(i) => give::<_, T, X>(i, to),
            Inst::lock_xaddq_mr(i) => give::<_, T, X>(i, to),
            Inst::andb_i(i) => give::<_, T, X>(i, to),
            Inst::mulxl_rvm(i) => give::<_, T, X>(i, to),
            Inst::mulxq_rvm(i) => give::<_, T, X>(i, to),
            Inst::rolb_m1(i) => give::<_, T, X>(i, to),
            Inst::rolw_m1(i) => give::<_, T, X>(i, to),
            Inst::roll_m1(i) => give::<_, T, X>(i, to),
            Inst::rolq_m1(i) => give::<_, T, X>(i, to),
            Inst::rorb_m1(i) => give::<_, T, X>(i, to),
            Inst::rorw_m1(i) => give::<_, T, X>(i, to),
            Inst::rorl_m1(i) => give::<_, T, X>(i, to),
            Inst::rorq_m1(i) => give::<_, T, X>(i, to),
            Inst::sarb_m1(i) => give::<_, T, X>(i, to),
            Inst::sarw_m1(i) => give::<_, T, X>(i, to),
            Inst::sarl_m1(i) => give::<_, T, X>(i, to),
            Inst::sarq_m1(i) => give::<_, T, X>(i, to),
            Inst::shlb_m1(i) => give::<_, T, X>(i, to),
            Inst::shlw_m1(i) => give::<_, T, X>(i, to),
            Inst::shll_m1(i) => give::<_, T, X>(i, to),
            Inst::shlq_m1(i) => give::<_, T, X>(i, to),
            Inst::shrb_m1(i) => give::<_, T, X>(i, to),
            Inst::shrw_m1(i) => give::<_, T, X>(i, to),
            Inst::shrl_m1(i) => give::<_, T, X>(i, to),
            Inst::shrq_m1(i) => give::<_, T, X>(i, to),
            Inst::xchgb_rm(i) => give::<_, T, X>(i, to),
            Inst::xchgw_rm(i) => give::<_, T, X>(i, to),
            Inst::xchgl_rm(i) => give::<_, T, X>(i, to),
            Inst::xchgq_rm(i) => give::<_, T, X>(i, to),
            Inst::andps_a(i) => give::<_, T, X>(i, to),
            Inst::cmpps_a(i) => give::<_, T, X>(i, to),
            Inst::cmppd_a(i) => give::<_, T, X>(i, to),
            Inst::cmpss_a(i) => give::<_, T, X>(i, to),
            Inst::cmpsd_a(i) => give::<_, T, X>(i, to),
            Inst::vcmpps_b(i) => give::<_, T, X>(i, to),
            Inst::vcmppd_b(i) => give::<_, T, X>(i, to),
            Inst::vcmpss_b(i) => give::<_, T, X>(i, to),
            Inst::vcmpsd_b(i) => give::<_, T, X>(i, to),
            Inst::vcvtpd2ps_a(i) => give::<_, T, X>(i, to),
            Inst::vcvttpd2dq_a(i) => give::<_, T, X>(i, to),
            Inst::callq_m(i) => give::<_, T, X>(i, to),
            Inst::jmpq_m(i) => give::<_, T, X>(i, to),
            Inst::lock_sbbb_mi(i) => give::<_, T, X>(i, to),
            Inst::lock_sbbw_mi(i) => give::<_, T, X>(i, to),
            Inst::lock_sbbl_mi(i) => give::<_, T, X>(i, to),
            Inst::lock_sbbq_mi_sxl(i) => give::<_, T, X>(i, to),
            Inst::lock_sbbl_mi_sxb(i) => give::<_, T, X>(i, to),
            Inst::lock_sbbq_mi_sxb(i) => give::<_, T, X>(i, to),
            Inst::lock_sbbb_mr(i) => give::<_, T, X>(i, to),
            Inst::lock_sbbw_mr(i) => give::<_, T, X>(i, to),
            Inst::lock_sbbl_mr(i) => give::<_, T, X>(i, to),
            Inst::lock_sbbq_mr(i) => give::<_, T, X>(i, to),
            Inst::lock_andb_mi(i) => give::<_, T, X>(i, to),
            Inst::lock_andw_mi(i) => give::<_, T, X>(i, to),
            Inst::lock_andl_mi(i) => give::<_, T, X>(i, to),
            Inst::lock_andq_mi_sxl(i) => give::<_, T, X>(i, to),
            Inst::lock_andl_mi_sxb(i) => give::<_, T, X>(i, to),
            Inst::lock_andq_mi_sxb(i) => give::<_, T, X>(i, to),
            Inst::lock_andb_mr(i) => give::<_, T, X>(i, to),
            Inst::lock_andw_mr(i) => give::<_, T, X>(i, to),
            Inst::lock_andl_mr(i) => give::<_, T, X>(i, to),
            Inst::lock_andq_mr(i) => give::<_, T, X>(i, to),
            Inst::lock_subb_mi(i) => give::<_, T, X>(i, to),
            Inst::lock_subw_mi(i) => give::<_, T, X>(i, to),
            Inst::lock_subl_mi(i) => give::<_, T, X>(i, to),
            Inst::lock_subq_mi_sxl(i) => give::<_, T, X>(i, to),
            Inst::lock_subl_mi_sxb(i) => give::<_, T, X>(i, to),
            Inst::lock_subq_mi_sxb(i) => give::<_, T, X>(i, to),
            Inst::lock_subb_mr(i) => give::<_, T, X>(i, to),
            Inst::lock_subw_mr(i) => give::<_, T, X>(i, to),
            Inst::lock_subl_mr(i) => give::<_, T, X>(i, to),
            Inst::lock_subq_mr(i) => give::<_, T, X>(i, to),
            Inst::lock_xorb_mi(i) => give::<_, T, X>(i, to),
            Inst::lock_xorw_mi(i) => give::<_, T, X>(i, to),
            Inst::lock_xorl_mi(i) => give::<_, T, X>(i, to),
            Inst::lock_xorq_mi_sxl(i) => give::<_, T, X>(i, to),
            Inst::lock_xorl_mi_sxb(i) => give::<_, T, X>(i, to),
            Inst::lock_xorq_mi_sxb(i) => give::<_, T, X>(i, to),
            Inst::lock_xorb_mr(i) => give::<_, T, X>(i, to),
            Inst::lock_xorw_mr(i) => give::<_, T, X>(i, to),
            Inst::lock_xorl_mr(i) => give::<_, T, X>(i, to),
            Inst::lock_xorq_mr(i) => give::<_, T, X>(i, to),
            Inst::nop_1b(_) => give_nop::<nop_1b, R, T, X>(Nop::One, Row::nop_1b, to),
            Inst::nop_2b(_) => give_nop::<nop_2b, R, T, X>(Nop::Two, Row::nop_2b, to),
            Inst::nop_3b(_) => give_nop::<nop_3b, R, T, X>(Nop::Three, Row::nopl_rm, to),
            Inst::nop_4b(_) => give_nop::<nop_4b, R, T, X>(Nop::Four, Row::nopl_rm, to),
            Inst::nop_5b(_) => give_nop::<nop_5b, R, T, X>(Nop::Five, Row::nopl_rm, to),
            Inst::nop_6b(_) => give_nop::<nop_6b, R, T, X>(Nop::Six, Row::nopw_rm, to),
            Inst::nop_7b(_) => give_nop::<nop_7b, R, T, X>(Nop::Seven, Row::nopl_rm, to),
            Inst::nop_8b(_) => give_nop::<nop_8b, R, T, X>(Nop::Eight, Row::nopl_rm, to),
            Inst::nop_9b(_) => give_nop::<nop_9b, R, T, X>(Nop::Nine, Row::nopw_rm, to),
            &Inst::jmp_d8(jmp_d8 { imm8 }) => give_distance::<jmp_d8, R, T, X>(
                Immediate::Distance8(imm8.value()),
                Row::jmp_d8,
                to,
            ),
            &Inst::jo_d8(jo_d8 { imm8 }) => give_distance::<jo_d8, R, T, X>(
                Immediate::Distance8(imm8.value()),
                Row::jo_d8,
                to,
            ),
            &Inst::jno_d8(jno_d8 { imm8 }) => give_distance::<jno_d8, R, T, X>(
                Immediate::Distance8(imm8.value()),
                Row::jno_d8,
                to,
            ),
            &Inst::jb_d8(jb_d8 { imm8 }) => give_distance::<jb_d8, R, T, X>(
                Immediate::Distance8(imm8.value()),
                Row::jb_d8,
                to,
            ),
            &Inst::jae_d8(jae_d8 { imm8 }) => give_distance::<jae_d8, R, T, X>(
                Immediate::Distance8(imm8.value()),
                Row::jae_d8,
                to,
            ),
            &Inst::je_d8(je_d8 { imm8 }) => give_distance::<je_d8, R, T, X>(
                Immediate::Distance8(imm8.value()),
                Row::je_d8,
                to,
            ),
            &Inst::jne_d8(jne_d8 { imm8 }) => give_distance::<jne_d8, R, T, X>(
                Immediate::Distance8(imm8.value()),
                Row::jne_d8,
                to,
            ),
            &Inst::jbe_d8(jbe_d8 { imm8 }) => give_distance::<jbe_d8, R, T, X>(
                Immediate::Distance8(imm8.value()),
                Row::jbe_d8,
                to,
            ),
            &Inst::ja_d8(ja_d8 { imm8 }) => give_distance::<ja_d8, R, T, X>(
                Immediate::Distance8(imm8.value()),
                Row::ja_d8,
                to,
            ),
            &Inst::js_d8(js_d8 { imm8 }) => give_distance::<js_d8, R, T, X>(
                Immediate::Distance8(imm8.value()),
                Row::js_d8,
                to,
            ),
            &Inst::jns_d8(jns_d8 { imm8 }) => give_distance::<jns_d8, R, T, X>(
                Immediate::Distance8(imm8.value()),
                Row::jns_d8,
                to,
            ),
            &Inst::jp_d8(jp_d8 { imm8 }) => give_distance::<jp_d8, R, T, X>(
                Immediate::Distance8(imm8.value()),
                Row::jp_d8,
                to,
            ),
            &Inst::jnp_d8(jnp_d8 { imm8 }) => give_distance::<jnp_d8, R, T, X>(
                Immediate::Distance8(imm8.value()),
                Row::jnp_d8,
                to,
            ),
            &Inst::jl_d8(jl_d8 { imm8 }) => give_distance::<jl_d8, R, T, X>(
                Immediate::Distance8(imm8.value()),
                Row::jl_d8,
                to,
            ),
            &Inst::jge_d8(jge_d8 { imm8 }) => give_distance::<jge_d8, R, T, X>(
                Immediate::Distance8(imm8.value()),
                Row::jge_d8,
                to,
            ),
            &Inst::jle_d8(jle_d8 { imm8 }) => give_distance::<jle_d8, R, T, X>(
                Immediate::Distance8(imm8.value()),
                Row::jle_d8,
                to,
            ),
            &Inst::jg_d8(jg_d8 { imm8 }) => give_distance::<jg_d8, R, T, X>(
                Immediate::Distance8(imm8.value()),
                Row::jg_d8,
                to,
            ),
            &Inst::callq_d(callq_d { imm32 }) => give_distance::<callq_d, R, T, X>(
                Immediate::Distance32(imm32.value()),
                Row::callq_d,
                to,
            ),
            &Inst::jmp_d32(jmp_d32 { imm32 }) => give_distance::<jmp_d32, R, T, X>(
                Immediate::Distance32(imm32.value()),
                Row::jmp_d32,
                to,
            ),
            &Inst::jo_d32(jo_d32 { imm32 }) => give_distance::<jo_d32, R, T, X>(
                Immediate::Distance32(imm32.value()),
                Row::jo_d32,
                to,
            ),
            &Inst::jno_d32(jno_d32 { imm32 }) => give_distance::<jno_d32, R, T, X>(
                Immediate::Distance32(imm32.value()),
                Row::jno_d32,
                to,
            ),
            &Inst::jb_d32(jb_d32 { imm32 }) => give_distance::<jb_d32, R, T, X>(
                Immediate::Distance32(imm32.value()),
                Row::jb_d32,
                to,
            ),
            &Inst::jae_d32(jae_d32 { imm32 }) => give_distance::<jae_d32, R, T, X>(
                Immediate::Distance32(imm32.value()),
                Row::jae_d32,
                to,
            ),
            &Inst::je_d32(je_d32 { imm32 }) => give_distance::<je_d32, R, T, X>(
                Immediate::Distance32(imm32.value()),
                Row::je_d32,
                to,
            ),
            &Inst::jne_d32(jne_d32 { imm32 }) => give_distance::<jne_d32, R, T, X>(
                Immediate::Distance32(imm32.value()),
                Row::jne_d32,
                to,
            ),
            &Inst::jbe_d32(jbe_d32 { imm32 }) => give_distance::<jbe_d32, R, T, X>(
                Immediate::Distance32(imm32.value()),
                Row::jbe_d32,
                to,
            ),
            &Inst::ja_d32(ja_d32 { imm32 }) => give_distance::<ja_d32, R, T, X>(
                Immediate::Distance32(imm32.value()),
                Row::ja_d32,
                to,
            ),
            &Inst::js_d32(js_d32 { imm32 }) => give_distance::<js_d32, R, T, X>(
                Immediate::Distance32(imm32.value()),
                Row::js_d32,
                to,
            ),
            &Inst::jns_d32(jns_d32 { imm32 }) => give_distance::<jns_d32, R, T, X>(
                Immediate::Distance32(imm32.value()),
                Row::jns_d32,
                to,
            ),
            &Inst::jp_d32(jp_d32 { imm32 }) => give_distance::<jp_d32, R, T, X>(
                Immediate::Distance32(imm32.value()),
                Row::jp_d32,
                to,
            ),
            &Inst::jnp_d32(jnp_d32 { imm32 }) => give_distance::<jnp_d32, R, T, X>(
                Immediate::Distance32(imm32.value()),
                Row::jnp_d32,
                to,
            ),
            &Inst::jl_d32(jl_d32 { imm32 }) => give_distance::<jl_d32, R, T, X>(
                Immediate::Distance32(imm32.value()),
                Row::jl_d32,
                to,
            ),
            &Inst::jge_d32(jge_d32 { imm32 }) => give_distance::<jge_d32, R, T, X>(
                Immediate::Distance32(imm32.value()),
                Row::jge_d32,
                to,
            ),
            &Inst::jle_d32(jle_d32 { imm32 }) => give_distance::<jle_d32, R, T, X>(
                Immediate::Distance32(imm32.value()),
                Row::jle_d32,
                to,
            ),
            &Inst::jg_d32(jg_d32 { imm32 }) => give_distance::<jg_d32, R, T, X>(
                Immediate::Distance32(imm32.value()),
                Row::jg_d32,
                to,
            ),
            // table/write.py: end
        }
    }
}
