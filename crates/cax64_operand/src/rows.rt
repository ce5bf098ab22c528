//! The signature of each row of the table: what operands its instructions have.

ghost use Rattle.std.specs.Prelude.{◌≡◌};
ghost use Rattle.cax64_operand.specs.Signature.{signature_of};

use crate::kind::{ImmediateKind, OperandKind};
use cax64_immediate::Extension;
use cax64_machine_code::row::Row;
use cax64_register::Size;

/// The kinds of operands of a row, in the order of visits.
#[tactic(auto, unfolding(crate::specs::Signature::signature_of))]
pub fn signature(row: Row) -> &'static [OperandKind]
    ensures { result.now ≡ signature_of row }
{
    match row {
        // table/write.py: signatures
        Row::lock_addb_mi
        | Row::lock_orb_mi
        | Row::lock_adcb_mi
        | Row::lock_sbbb_mi
        | Row::lock_andb_mi
        | Row::lock_subb_mi
        | Row::lock_xorb_mi => &[
            OperandKind::ReadAmode,
            OperandKind::Imm(ImmediateKind::Imm8),
        ],
        Row::lock_addw_mi
        | Row::lock_orw_mi
        | Row::lock_adcw_mi
        | Row::lock_sbbw_mi
        | Row::lock_andw_mi
        | Row::lock_subw_mi
        | Row::lock_xorw_mi => &[
            OperandKind::ReadAmode,
            OperandKind::Imm(ImmediateKind::Imm16),
        ],
        Row::lock_addl_mi
        | Row::lock_orl_mi
        | Row::lock_adcl_mi
        | Row::lock_sbbl_mi
        | Row::lock_andl_mi
        | Row::lock_subl_mi
        | Row::lock_xorl_mi => &[
            OperandKind::ReadAmode,
            OperandKind::Imm(ImmediateKind::Imm32),
        ],
        Row::lock_addq_mi_sxl
        | Row::lock_orq_mi_sxl
        | Row::lock_adcq_mi_sxl
        | Row::lock_sbbq_mi_sxl
        | Row::lock_andq_mi_sxl
        | Row::lock_subq_mi_sxl
        | Row::lock_xorq_mi_sxl => &[
            OperandKind::ReadAmode,
            OperandKind::Imm(ImmediateKind::Simm32(Extension::SignExtendQuad)),
        ],
        Row::lock_addl_mi_sxb
        | Row::lock_orl_mi_sxb
        | Row::lock_adcl_mi_sxb
        | Row::lock_sbbl_mi_sxb
        | Row::lock_andl_mi_sxb
        | Row::lock_subl_mi_sxb
        | Row::lock_xorl_mi_sxb => &[
            OperandKind::ReadAmode,
            OperandKind::Imm(ImmediateKind::Simm8(Extension::SignExtendLong)),
        ],
        Row::lock_addq_mi_sxb
        | Row::lock_orq_mi_sxb
        | Row::lock_adcq_mi_sxb
        | Row::lock_sbbq_mi_sxb
        | Row::lock_andq_mi_sxb
        | Row::lock_subq_mi_sxb
        | Row::lock_xorq_mi_sxb => &[
            OperandKind::ReadAmode,
            OperandKind::Imm(ImmediateKind::Simm8(Extension::SignExtendQuad)),
        ],
        Row::lock_addb_mr
        | Row::lock_orb_mr
        | Row::lock_adcb_mr
        | Row::lock_sbbb_mr
        | Row::lock_andb_mr
        | Row::lock_subb_mr
        | Row::lock_xorb_mr => &[OperandKind::ReadAmode, OperandKind::ReadGpr(Size::Byte)],
        Row::lock_addw_mr
        | Row::lock_orw_mr
        | Row::lock_adcw_mr
        | Row::lock_sbbw_mr
        | Row::lock_andw_mr
        | Row::lock_subw_mr
        | Row::lock_xorw_mr => &[OperandKind::ReadAmode, OperandKind::ReadGpr(Size::Word)],
        Row::lock_addl_mr
        | Row::lock_orl_mr
        | Row::lock_adcl_mr
        | Row::lock_sbbl_mr
        | Row::lock_andl_mr
        | Row::lock_subl_mr
        | Row::lock_xorl_mr => &[
            OperandKind::ReadAmode,
            OperandKind::ReadGpr(Size::Doubleword),
        ],
        Row::lock_addq_mr
        | Row::lock_orq_mr
        | Row::lock_adcq_mr
        | Row::lock_sbbq_mr
        | Row::lock_andq_mr
        | Row::lock_subq_mr
        | Row::lock_xorq_mr => &[OperandKind::ReadAmode, OperandKind::ReadGpr(Size::Quadword)],
        Row::lock_xaddb_mr | Row::xchgb_rm => &[
            OperandKind::ReadWriteGpr(Size::Byte),
            OperandKind::ReadAmode,
        ],
        Row::lock_xaddw_mr | Row::xchgw_rm => &[
            OperandKind::ReadWriteGpr(Size::Word),
            OperandKind::ReadAmode,
        ],
        Row::lock_xaddl_mr | Row::xchgl_rm => &[
            OperandKind::ReadWriteGpr(Size::Doubleword),
            OperandKind::ReadAmode,
        ],
        Row::lock_xaddq_mr | Row::xchgq_rm => &[
            OperandKind::ReadWriteGpr(Size::Quadword),
            OperandKind::ReadAmode,
        ],
        Row::lock_cmpxchgb_mr => &[
            OperandKind::ReadAmode,
            OperandKind::ReadGpr(Size::Byte),
            OperandKind::FixedReadWriteGpr(0, None),
        ],
        Row::lock_cmpxchgw_mr => &[
            OperandKind::ReadAmode,
            OperandKind::ReadGpr(Size::Word),
            OperandKind::FixedReadWriteGpr(0, None),
        ],
        Row::lock_cmpxchgl_mr => &[
            OperandKind::ReadAmode,
            OperandKind::ReadGpr(Size::Doubleword),
            OperandKind::FixedReadWriteGpr(0, None),
        ],
        Row::lock_cmpxchgq_mr => &[
            OperandKind::ReadAmode,
            OperandKind::ReadGpr(Size::Quadword),
            OperandKind::FixedReadWriteGpr(0, None),
        ],
        Row::lock_cmpxchg16b_m => &[
            OperandKind::ReadAmode,
            OperandKind::FixedReadWriteGpr(0, None),
            OperandKind::FixedReadWriteGpr(2, None),
            OperandKind::FixedReadGpr(1, None),
            OperandKind::FixedReadGpr(3, None),
        ],
        Row::rolb_m1 | Row::rorb_m1 | Row::shlb_m1 | Row::shrb_m1 | Row::sarb_m1 => &[
            OperandKind::ReadWriteGprMem(Size::Byte),
        ],
        Row::rolw_m1 | Row::rorw_m1 | Row::shlw_m1 | Row::shrw_m1 | Row::sarw_m1 => &[
            OperandKind::ReadWriteGprMem(Size::Word),
        ],
        Row::roll_m1 | Row::rorl_m1 | Row::shll_m1 | Row::shrl_m1 | Row::sarl_m1 => &[
            OperandKind::ReadWriteGprMem(Size::Doubleword),
        ],
        Row::rolq_m1 | Row::rorq_m1 | Row::shlq_m1 | Row::shrq_m1 | Row::sarq_m1 => &[
            OperandKind::ReadWriteGprMem(Size::Quadword),
        ],
        Row::callq_m | Row::jmpq_m => &[OperandKind::ReadGprMem(Size::Quadword)],
        Row::andps_a => &[OperandKind::ReadWriteXmm, OperandKind::ReadXmmMem],
        Row::cmpps_a | Row::cmppd_a | Row::cmpss_a | Row::cmpsd_a => &[
            OperandKind::ReadWriteXmm,
            OperandKind::ReadXmmMem,
            OperandKind::Imm(ImmediateKind::Predicate),
        ],
        Row::andb_i => &[
            OperandKind::FixedReadWriteGpr(0, Some(Size::Byte)),
            OperandKind::Imm(ImmediateKind::Imm8),
        ],
        Row::callq_d
        | Row::jmp_d32
        | Row::jo_d32
        | Row::jno_d32
        | Row::jb_d32
        | Row::jae_d32
        | Row::je_d32
        | Row::jne_d32
        | Row::jbe_d32
        | Row::ja_d32
        | Row::js_d32
        | Row::jns_d32
        | Row::jp_d32
        | Row::jnp_d32
        | Row::jl_d32
        | Row::jge_d32
        | Row::jle_d32
        | Row::jg_d32 => &[OperandKind::Imm(ImmediateKind::Distance32)],
        Row::jmp_d8
        | Row::jo_d8
        | Row::jno_d8
        | Row::jb_d8
        | Row::jae_d8
        | Row::je_d8
        | Row::jne_d8
        | Row::jbe_d8
        | Row::ja_d8
        | Row::js_d8
        | Row::jns_d8
        | Row::jp_d8
        | Row::jnp_d8
        | Row::jl_d8
        | Row::jge_d8
        | Row::jle_d8
        | Row::jg_d8 => &[OperandKind::Imm(ImmediateKind::Distance8)],
        Row::vcmpps_b | Row::vcmppd_b | Row::vcmpss_b | Row::vcmpsd_b => &[
            OperandKind::WriteXmm,
            OperandKind::ReadXmm,
            OperandKind::ReadXmmMem,
            OperandKind::Imm(ImmediateKind::VexPredicate),
        ],
        Row::vcvtpd2ps_a | Row::vcvttpd2dq_a => &[OperandKind::WriteXmm, OperandKind::ReadXmmMem],
        Row::mulxl_rvm => &[
            OperandKind::WriteTwoGprs(Size::Doubleword),
            OperandKind::ReadGprMem(Size::Doubleword),
            OperandKind::FixedReadGpr(2, None),
        ],
        Row::mulxq_rvm => &[
            OperandKind::WriteTwoGprs(Size::Quadword),
            OperandKind::ReadGprMem(Size::Quadword),
            OperandKind::FixedReadGpr(2, None),
        ],
        Row::nop_1b | Row::nop_2b => &[],
        Row::nopl_rm => &[OperandKind::ReadGprMem(Size::Doubleword)],
        Row::nopw_rm => &[OperandKind::ReadGprMem(Size::Word)],
        // table/write.py: end
    }
}
