//! The operands that each line takes.

ghost use Rattle.std.specs.Prelude.{◌≡◌, ◌<◌, ◌^◌};
ghost use Rattle.cax64_machine_code.specs.Line.{imm_bytes};
ghost use Rattle.x64_lines.specs.Shape.{has_mem, has_reg, has_rm, has_vvvv, imm_field, shape_of};
ghost use Rattle.x64_lines.specs.declared.lines.TheConstants.{COUNT};

/// Where the operands of a line stand in the bytes.
#[derive(Clone, Copy, Debug, PartialEq)]
pub enum OpFields {
    /// Nowhere.
    Bare,
    /// A register or memory in the rest of the tail.
    Rm,
    /// Memory there.
    Mem,
    /// A register in reg, and a register or memory.
    RegRm,
    /// A register in reg, and memory.
    RegMem,
    /// A register in reg, one in vvvv, and a register or memory.
    RegVvvvRm,
}

/// The immediate of a line.
#[derive(Clone, Copy, Debug, PartialEq)]
pub enum OpImm {
    /// It has none.
    None,
    U8,
    U16,
    U32,
    I8,
    I32,
}

/// The operands that a line takes.
#[derive(Clone, Copy, Debug, PartialEq)]
pub struct OpShape {
    pub fields: OpFields,
    pub imm: OpImm,
}

/// Of the rows, and of the lines of `table/core.txt` behind them, each named beside its operands.
// table/write.py: shapes
#[rattlefmt::skip]
static SHAPES: [OpShape; 584] = [
    OpShape { fields: OpFields::Mem, imm: OpImm::U8 }, // lock_addb_mi
    OpShape { fields: OpFields::Mem, imm: OpImm::U16 }, // lock_addw_mi
    OpShape { fields: OpFields::Mem, imm: OpImm::U32 }, // lock_addl_mi
    OpShape { fields: OpFields::Mem, imm: OpImm::I32 }, // lock_addq_mi_sxl
    OpShape { fields: OpFields::Mem, imm: OpImm::I8 }, // lock_addl_mi_sxb
    OpShape { fields: OpFields::Mem, imm: OpImm::I8 }, // lock_addq_mi_sxb
    OpShape { fields: OpFields::RegMem, imm: OpImm::None }, // lock_addb_mr
    OpShape { fields: OpFields::RegMem, imm: OpImm::None }, // lock_addw_mr
    OpShape { fields: OpFields::RegMem, imm: OpImm::None }, // lock_addl_mr
    OpShape { fields: OpFields::RegMem, imm: OpImm::None }, // lock_addq_mr
    OpShape { fields: OpFields::Mem, imm: OpImm::U8 }, // lock_orb_mi
    OpShape { fields: OpFields::Mem, imm: OpImm::U16 }, // lock_orw_mi
    OpShape { fields: OpFields::Mem, imm: OpImm::U32 }, // lock_orl_mi
    OpShape { fields: OpFields::Mem, imm: OpImm::I32 }, // lock_orq_mi_sxl
    OpShape { fields: OpFields::Mem, imm: OpImm::I8 }, // lock_orl_mi_sxb
    OpShape { fields: OpFields::Mem, imm: OpImm::I8 }, // lock_orq_mi_sxb
    OpShape { fields: OpFields::RegMem, imm: OpImm::None }, // lock_orb_mr
    OpShape { fields: OpFields::RegMem, imm: OpImm::None }, // lock_orw_mr
    OpShape { fields: OpFields::RegMem, imm: OpImm::None }, // lock_orl_mr
    OpShape { fields: OpFields::RegMem, imm: OpImm::None }, // lock_orq_mr
    OpShape { fields: OpFields::Mem, imm: OpImm::U8 }, // lock_adcb_mi
    OpShape { fields: OpFields::Mem, imm: OpImm::U16 }, // lock_adcw_mi
    OpShape { fields: OpFields::Mem, imm: OpImm::U32 }, // lock_adcl_mi
    OpShape { fields: OpFields::Mem, imm: OpImm::I32 }, // lock_adcq_mi_sxl
    OpShape { fields: OpFields::Mem, imm: OpImm::I8 }, // lock_adcl_mi_sxb
    OpShape { fields: OpFields::Mem, imm: OpImm::I8 }, // lock_adcq_mi_sxb
    OpShape { fields: OpFields::RegMem, imm: OpImm::None }, // lock_adcb_mr
    OpShape { fields: OpFields::RegMem, imm: OpImm::None }, // lock_adcw_mr
    OpShape { fields: OpFields::RegMem, imm: OpImm::None }, // lock_adcl_mr
    OpShape { fields: OpFields::RegMem, imm: OpImm::None }, // lock_adcq_mr
    OpShape { fields: OpFields::Mem, imm: OpImm::U8 }, // lock_sbbb_mi
    OpShape { fields: OpFields::Mem, imm: OpImm::U16 }, // lock_sbbw_mi
    OpShape { fields: OpFields::Mem, imm: OpImm::U32 }, // lock_sbbl_mi
    OpShape { fields: OpFields::Mem, imm: OpImm::I32 }, // lock_sbbq_mi_sxl
    OpShape { fields: OpFields::Mem, imm: OpImm::I8 }, // lock_sbbl_mi_sxb
    OpShape { fields: OpFields::Mem, imm: OpImm::I8 }, // lock_sbbq_mi_sxb
    OpShape { fields: OpFields::RegMem, imm: OpImm::None }, // lock_sbbb_mr
    OpShape { fields: OpFields::RegMem, imm: OpImm::None }, // lock_sbbw_mr
    OpShape { fields: OpFields::RegMem, imm: OpImm::None }, // lock_sbbl_mr
    OpShape { fields: OpFields::RegMem, imm: OpImm::None }, // lock_sbbq_mr
    OpShape { fields: OpFields::Mem, imm: OpImm::U8 }, // lock_andb_mi
    OpShape { fields: OpFields::Mem, imm: OpImm::U16 }, // lock_andw_mi
    OpShape { fields: OpFields::Mem, imm: OpImm::U32 }, // lock_andl_mi
    OpShape { fields: OpFields::Mem, imm: OpImm::I32 }, // lock_andq_mi_sxl
    OpShape { fields: OpFields::Mem, imm: OpImm::I8 }, // lock_andl_mi_sxb
    OpShape { fields: OpFields::Mem, imm: OpImm::I8 }, // lock_andq_mi_sxb
    OpShape { fields: OpFields::RegMem, imm: OpImm::None }, // lock_andb_mr
    OpShape { fields: OpFields::RegMem, imm: OpImm::None }, // lock_andw_mr
    OpShape { fields: OpFields::RegMem, imm: OpImm::None }, // lock_andl_mr
    OpShape { fields: OpFields::RegMem, imm: OpImm::None }, // lock_andq_mr
    OpShape { fields: OpFields::Mem, imm: OpImm::U8 }, // lock_subb_mi
    OpShape { fields: OpFields::Mem, imm: OpImm::U16 }, // lock_subw_mi
    OpShape { fields: OpFields::Mem, imm: OpImm::U32 }, // lock_subl_mi
    OpShape { fields: OpFields::Mem, imm: OpImm::I32 }, // lock_subq_mi_sxl
    OpShape { fields: OpFields::Mem, imm: OpImm::I8 }, // lock_subl_mi_sxb
    OpShape { fields: OpFields::Mem, imm: OpImm::I8 }, // lock_subq_mi_sxb
    OpShape { fields: OpFields::RegMem, imm: OpImm::None }, // lock_subb_mr
    OpShape { fields: OpFields::RegMem, imm: OpImm::None }, // lock_subw_mr
    OpShape { fields: OpFields::RegMem, imm: OpImm::None }, // lock_subl_mr
    OpShape { fields: OpFields::RegMem, imm: OpImm::None }, // lock_subq_mr
    OpShape { fields: OpFields::Mem, imm: OpImm::U8 }, // lock_xorb_mi
    OpShape { fields: OpFields::Mem, imm: OpImm::U16 }, // lock_xorw_mi
    OpShape { fields: OpFields::Mem, imm: OpImm::U32 }, // lock_xorl_mi
    OpShape { fields: OpFields::Mem, imm: OpImm::I32 }, // lock_xorq_mi_sxl
    OpShape { fields: OpFields::Mem, imm: OpImm::I8 }, // lock_xorl_mi_sxb
    OpShape { fields: OpFields::Mem, imm: OpImm::I8 }, // lock_xorq_mi_sxb
    OpShape { fields: OpFields::RegMem, imm: OpImm::None }, // lock_xorb_mr
    OpShape { fields: OpFields::RegMem, imm: OpImm::None }, // lock_xorw_mr
    OpShape { fields: OpFields::RegMem, imm: OpImm::None }, // lock_xorl_mr
    OpShape { fields: OpFields::RegMem, imm: OpImm::None }, // lock_xorq_mr
    OpShape { fields: OpFields::RegMem, imm: OpImm::None }, // lock_xaddb_mr
    OpShape { fields: OpFields::RegMem, imm: OpImm::None }, // lock_xaddw_mr
    OpShape { fields: OpFields::RegMem, imm: OpImm::None }, // lock_xaddl_mr
    OpShape { fields: OpFields::RegMem, imm: OpImm::None }, // lock_xaddq_mr
    OpShape { fields: OpFields::RegMem, imm: OpImm::None }, // lock_cmpxchgb_mr
    OpShape { fields: OpFields::RegMem, imm: OpImm::None }, // lock_cmpxchgw_mr
    OpShape { fields: OpFields::RegMem, imm: OpImm::None }, // lock_cmpxchgl_mr
    OpShape { fields: OpFields::RegMem, imm: OpImm::None }, // lock_cmpxchgq_mr
    OpShape { fields: OpFields::Mem, imm: OpImm::None }, // lock_cmpxchg16b_m
    OpShape { fields: OpFields::RegMem, imm: OpImm::None }, // xchgb_rm
    OpShape { fields: OpFields::RegMem, imm: OpImm::None }, // xchgw_rm
    OpShape { fields: OpFields::RegMem, imm: OpImm::None }, // xchgl_rm
    OpShape { fields: OpFields::RegMem, imm: OpImm::None }, // xchgq_rm
    OpShape { fields: OpFields::Rm, imm: OpImm::None }, // rolb_m1
    OpShape { fields: OpFields::Rm, imm: OpImm::None }, // rolw_m1
    OpShape { fields: OpFields::Rm, imm: OpImm::None }, // roll_m1
    OpShape { fields: OpFields::Rm, imm: OpImm::None }, // rolq_m1
    OpShape { fields: OpFields::Rm, imm: OpImm::None }, // rorb_m1
    OpShape { fields: OpFields::Rm, imm: OpImm::None }, // rorw_m1
    OpShape { fields: OpFields::Rm, imm: OpImm::None }, // rorl_m1
    OpShape { fields: OpFields::Rm, imm: OpImm::None }, // rorq_m1
    OpShape { fields: OpFields::Rm, imm: OpImm::None }, // shlb_m1
    OpShape { fields: OpFields::Rm, imm: OpImm::None }, // shlw_m1
    OpShape { fields: OpFields::Rm, imm: OpImm::None }, // shll_m1
    OpShape { fields: OpFields::Rm, imm: OpImm::None }, // shlq_m1
    OpShape { fields: OpFields::Rm, imm: OpImm::None }, // shrb_m1
    OpShape { fields: OpFields::Rm, imm: OpImm::None }, // shrw_m1
    OpShape { fields: OpFields::Rm, imm: OpImm::None }, // shrl_m1
    OpShape { fields: OpFields::Rm, imm: OpImm::None }, // shrq_m1
    OpShape { fields: OpFields::Rm, imm: OpImm::None }, // sarb_m1
    OpShape { fields: OpFields::Rm, imm: OpImm::None }, // sarw_m1
    OpShape { fields: OpFields::Rm, imm: OpImm::None }, // sarl_m1
    OpShape { fields: OpFields::Rm, imm: OpImm::None }, // sarq_m1
    OpShape { fields: OpFields::Rm, imm: OpImm::None }, // callq_m
    OpShape { fields: OpFields::Rm, imm: OpImm::None }, // jmpq_m
    OpShape { fields: OpFields::RegRm, imm: OpImm::None }, // andps_a
    OpShape { fields: OpFields::RegRm, imm: OpImm::U8 }, // cmpps_a
    OpShape { fields: OpFields::RegRm, imm: OpImm::U8 }, // cmppd_a
    OpShape { fields: OpFields::RegRm, imm: OpImm::U8 }, // cmpss_a
    OpShape { fields: OpFields::RegRm, imm: OpImm::U8 }, // cmpsd_a
    OpShape { fields: OpFields::Bare, imm: OpImm::U8 }, // andb_i
    OpShape { fields: OpFields::Bare, imm: OpImm::I32 }, // callq_d
    OpShape { fields: OpFields::Bare, imm: OpImm::I8 }, // jmp_d8
    OpShape { fields: OpFields::Bare, imm: OpImm::I32 }, // jmp_d32
    OpShape { fields: OpFields::Bare, imm: OpImm::I8 }, // jo_d8
    OpShape { fields: OpFields::Bare, imm: OpImm::I8 }, // jno_d8
    OpShape { fields: OpFields::Bare, imm: OpImm::I8 }, // jb_d8
    OpShape { fields: OpFields::Bare, imm: OpImm::I8 }, // jae_d8
    OpShape { fields: OpFields::Bare, imm: OpImm::I8 }, // je_d8
    OpShape { fields: OpFields::Bare, imm: OpImm::I8 }, // jne_d8
    OpShape { fields: OpFields::Bare, imm: OpImm::I8 }, // jbe_d8
    OpShape { fields: OpFields::Bare, imm: OpImm::I8 }, // ja_d8
    OpShape { fields: OpFields::Bare, imm: OpImm::I8 }, // js_d8
    OpShape { fields: OpFields::Bare, imm: OpImm::I8 }, // jns_d8
    OpShape { fields: OpFields::Bare, imm: OpImm::I8 }, // jp_d8
    OpShape { fields: OpFields::Bare, imm: OpImm::I8 }, // jnp_d8
    OpShape { fields: OpFields::Bare, imm: OpImm::I8 }, // jl_d8
    OpShape { fields: OpFields::Bare, imm: OpImm::I8 }, // jge_d8
    OpShape { fields: OpFields::Bare, imm: OpImm::I8 }, // jle_d8
    OpShape { fields: OpFields::Bare, imm: OpImm::I8 }, // jg_d8
    OpShape { fields: OpFields::Bare, imm: OpImm::I32 }, // jo_d32
    OpShape { fields: OpFields::Bare, imm: OpImm::I32 }, // jno_d32
    OpShape { fields: OpFields::Bare, imm: OpImm::I32 }, // jb_d32
    OpShape { fields: OpFields::Bare, imm: OpImm::I32 }, // jae_d32
    OpShape { fields: OpFields::Bare, imm: OpImm::I32 }, // je_d32
    OpShape { fields: OpFields::Bare, imm: OpImm::I32 }, // jne_d32
    OpShape { fields: OpFields::Bare, imm: OpImm::I32 }, // jbe_d32
    OpShape { fields: OpFields::Bare, imm: OpImm::I32 }, // ja_d32
    OpShape { fields: OpFields::Bare, imm: OpImm::I32 }, // js_d32
    OpShape { fields: OpFields::Bare, imm: OpImm::I32 }, // jns_d32
    OpShape { fields: OpFields::Bare, imm: OpImm::I32 }, // jp_d32
    OpShape { fields: OpFields::Bare, imm: OpImm::I32 }, // jnp_d32
    OpShape { fields: OpFields::Bare, imm: OpImm::I32 }, // jl_d32
    OpShape { fields: OpFields::Bare, imm: OpImm::I32 }, // jge_d32
    OpShape { fields: OpFields::Bare, imm: OpImm::I32 }, // jle_d32
    OpShape { fields: OpFields::Bare, imm: OpImm::I32 }, // jg_d32
    OpShape { fields: OpFields::RegVvvvRm, imm: OpImm::U8 }, // vcmpps_b
    OpShape { fields: OpFields::RegVvvvRm, imm: OpImm::U8 }, // vcmppd_b
    OpShape { fields: OpFields::RegVvvvRm, imm: OpImm::U8 }, // vcmpss_b
    OpShape { fields: OpFields::RegVvvvRm, imm: OpImm::U8 }, // vcmpsd_b
    OpShape { fields: OpFields::RegRm, imm: OpImm::None }, // vcvtpd2ps_a
    OpShape { fields: OpFields::RegRm, imm: OpImm::None }, // vcvttpd2dq_a
    OpShape { fields: OpFields::RegVvvvRm, imm: OpImm::None }, // mulxl_rvm
    OpShape { fields: OpFields::RegVvvvRm, imm: OpImm::None }, // mulxq_rvm
    OpShape { fields: OpFields::Bare, imm: OpImm::None }, // nop_1b
    OpShape { fields: OpFields::Bare, imm: OpImm::None }, // nop_2b
    OpShape { fields: OpFields::Rm, imm: OpImm::None }, // nopl_rm
    OpShape { fields: OpFields::Rm, imm: OpImm::None }, // nopw_rm
    OpShape { fields: OpFields::Bare, imm: OpImm::U8 }, // addb_i
    OpShape { fields: OpFields::Rm, imm: OpImm::U8 }, // addb_mi
    OpShape { fields: OpFields::RegMem, imm: OpImm::None }, // addb_mr
    OpShape { fields: OpFields::RegMem, imm: OpImm::None }, // addb_rm
    OpShape { fields: OpFields::Bare, imm: OpImm::U16 }, // addw_i
    OpShape { fields: OpFields::Rm, imm: OpImm::U16 }, // addw_mi
    OpShape { fields: OpFields::RegRm, imm: OpImm::None }, // addw_mr
    OpShape { fields: OpFields::RegRm, imm: OpImm::None }, // addw_rm
    OpShape { fields: OpFields::Bare, imm: OpImm::U32 }, // addl_i
    OpShape { fields: OpFields::Rm, imm: OpImm::U32 }, // addl_mi
    OpShape { fields: OpFields::Rm, imm: OpImm::I8 }, // addl_mi_sxb
    OpShape { fields: OpFields::RegRm, imm: OpImm::None }, // addl_mr
    OpShape { fields: OpFields::RegRm, imm: OpImm::None }, // addl_rm
    OpShape { fields: OpFields::Rm, imm: OpImm::I32 }, // addq_mi_sxl
    OpShape { fields: OpFields::Rm, imm: OpImm::I8 }, // addq_mi_sxb
    OpShape { fields: OpFields::RegRm, imm: OpImm::None }, // addq_mr
    OpShape { fields: OpFields::RegRm, imm: OpImm::None }, // addq_rm
    OpShape { fields: OpFields::Bare, imm: OpImm::U8 }, // orb_i
    OpShape { fields: OpFields::Rm, imm: OpImm::U8 }, // orb_mi
    OpShape { fields: OpFields::RegMem, imm: OpImm::None }, // orb_mr
    OpShape { fields: OpFields::RegMem, imm: OpImm::None }, // orb_rm
    OpShape { fields: OpFields::Bare, imm: OpImm::U16 }, // orw_i
    OpShape { fields: OpFields::Rm, imm: OpImm::U16 }, // orw_mi
    OpShape { fields: OpFields::RegRm, imm: OpImm::None }, // orw_mr
    OpShape { fields: OpFields::RegRm, imm: OpImm::None }, // orw_rm
    OpShape { fields: OpFields::Bare, imm: OpImm::U32 }, // orl_i
    OpShape { fields: OpFields::Rm, imm: OpImm::U32 }, // orl_mi
    OpShape { fields: OpFields::Rm, imm: OpImm::I8 }, // orl_mi_sxb
    OpShape { fields: OpFields::RegRm, imm: OpImm::None }, // orl_mr
    OpShape { fields: OpFields::RegRm, imm: OpImm::None }, // orl_rm
    OpShape { fields: OpFields::Rm, imm: OpImm::I32 }, // orq_mi_sxl
    OpShape { fields: OpFields::Rm, imm: OpImm::I8 }, // orq_mi_sxb
    OpShape { fields: OpFields::RegRm, imm: OpImm::None }, // orq_mr
    OpShape { fields: OpFields::RegRm, imm: OpImm::None }, // orq_rm
    OpShape { fields: OpFields::Bare, imm: OpImm::U8 }, // adcb_i
    OpShape { fields: OpFields::Rm, imm: OpImm::U8 }, // adcb_mi
    OpShape { fields: OpFields::RegMem, imm: OpImm::None }, // adcb_mr
    OpShape { fields: OpFields::RegMem, imm: OpImm::None }, // adcb_rm
    OpShape { fields: OpFields::Bare, imm: OpImm::U16 }, // adcw_i
    OpShape { fields: OpFields::Rm, imm: OpImm::U16 }, // adcw_mi
    OpShape { fields: OpFields::RegRm, imm: OpImm::None }, // adcw_mr
    OpShape { fields: OpFields::RegRm, imm: OpImm::None }, // adcw_rm
    OpShape { fields: OpFields::Bare, imm: OpImm::U32 }, // adcl_i
    OpShape { fields: OpFields::Rm, imm: OpImm::U32 }, // adcl_mi
    OpShape { fields: OpFields::Rm, imm: OpImm::I8 }, // adcl_mi_sxb
    OpShape { fields: OpFields::RegRm, imm: OpImm::None }, // adcl_mr
    OpShape { fields: OpFields::RegRm, imm: OpImm::None }, // adcl_rm
    OpShape { fields: OpFields::Rm, imm: OpImm::I32 }, // adcq_mi_sxl
    OpShape { fields: OpFields::Rm, imm: OpImm::I8 }, // adcq_mi_sxb
    OpShape { fields: OpFields::RegRm, imm: OpImm::None }, // adcq_mr
    OpShape { fields: OpFields::RegRm, imm: OpImm::None }, // adcq_rm
    OpShape { fields: OpFields::Bare, imm: OpImm::U8 }, // sbbb_i
    OpShape { fields: OpFields::Rm, imm: OpImm::U8 }, // sbbb_mi
    OpShape { fields: OpFields::RegMem, imm: OpImm::None }, // sbbb_mr
    OpShape { fields: OpFields::RegMem, imm: OpImm::None }, // sbbb_rm
    OpShape { fields: OpFields::Bare, imm: OpImm::U16 }, // sbbw_i
    OpShape { fields: OpFields::Rm, imm: OpImm::U16 }, // sbbw_mi
    OpShape { fields: OpFields::RegRm, imm: OpImm::None }, // sbbw_mr
    OpShape { fields: OpFields::RegRm, imm: OpImm::None }, // sbbw_rm
    OpShape { fields: OpFields::Bare, imm: OpImm::U32 }, // sbbl_i
    OpShape { fields: OpFields::Rm, imm: OpImm::U32 }, // sbbl_mi
    OpShape { fields: OpFields::Rm, imm: OpImm::I8 }, // sbbl_mi_sxb
    OpShape { fields: OpFields::RegRm, imm: OpImm::None }, // sbbl_mr
    OpShape { fields: OpFields::RegRm, imm: OpImm::None }, // sbbl_rm
    OpShape { fields: OpFields::Rm, imm: OpImm::I32 }, // sbbq_mi_sxl
    OpShape { fields: OpFields::Rm, imm: OpImm::I8 }, // sbbq_mi_sxb
    OpShape { fields: OpFields::RegRm, imm: OpImm::None }, // sbbq_mr
    OpShape { fields: OpFields::RegRm, imm: OpImm::None }, // sbbq_rm
    OpShape { fields: OpFields::Rm, imm: OpImm::U8 }, // andb_mi
    OpShape { fields: OpFields::RegMem, imm: OpImm::None }, // andb_mr
    OpShape { fields: OpFields::RegMem, imm: OpImm::None }, // andb_rm
    OpShape { fields: OpFields::Bare, imm: OpImm::U16 }, // andw_i
    OpShape { fields: OpFields::Rm, imm: OpImm::U16 }, // andw_mi
    OpShape { fields: OpFields::RegRm, imm: OpImm::None }, // andw_mr
    OpShape { fields: OpFields::RegRm, imm: OpImm::None }, // andw_rm
    OpShape { fields: OpFields::Bare, imm: OpImm::U32 }, // andl_i
    OpShape { fields: OpFields::Rm, imm: OpImm::U32 }, // andl_mi
    OpShape { fields: OpFields::Rm, imm: OpImm::I8 }, // andl_mi_sxb
    OpShape { fields: OpFields::RegRm, imm: OpImm::None }, // andl_mr
    OpShape { fields: OpFields::RegRm, imm: OpImm::None }, // andl_rm
    OpShape { fields: OpFields::Rm, imm: OpImm::I32 }, // andq_mi_sxl
    OpShape { fields: OpFields::Rm, imm: OpImm::I8 }, // andq_mi_sxb
    OpShape { fields: OpFields::RegRm, imm: OpImm::None }, // andq_mr
    OpShape { fields: OpFields::RegRm, imm: OpImm::None }, // andq_rm
    OpShape { fields: OpFields::Bare, imm: OpImm::U8 }, // subb_i
    OpShape { fields: OpFields::Rm, imm: OpImm::U8 }, // subb_mi
    OpShape { fields: OpFields::RegMem, imm: OpImm::None }, // subb_mr
    OpShape { fields: OpFields::RegMem, imm: OpImm::None }, // subb_rm
    OpShape { fields: OpFields::Bare, imm: OpImm::U16 }, // subw_i
    OpShape { fields: OpFields::Rm, imm: OpImm::U16 }, // subw_mi
    OpShape { fields: OpFields::RegRm, imm: OpImm::None }, // subw_mr
    OpShape { fields: OpFields::RegRm, imm: OpImm::None }, // subw_rm
    OpShape { fields: OpFields::Bare, imm: OpImm::U32 }, // subl_i
    OpShape { fields: OpFields::Rm, imm: OpImm::U32 }, // subl_mi
    OpShape { fields: OpFields::Rm, imm: OpImm::I8 }, // subl_mi_sxb
    OpShape { fields: OpFields::RegRm, imm: OpImm::None }, // subl_mr
    OpShape { fields: OpFields::RegRm, imm: OpImm::None }, // subl_rm
    OpShape { fields: OpFields::Rm, imm: OpImm::I32 }, // subq_mi_sxl
    OpShape { fields: OpFields::Rm, imm: OpImm::I8 }, // subq_mi_sxb
    OpShape { fields: OpFields::RegRm, imm: OpImm::None }, // subq_mr
    OpShape { fields: OpFields::RegRm, imm: OpImm::None }, // subq_rm
    OpShape { fields: OpFields::Bare, imm: OpImm::U8 }, // xorb_i
    OpShape { fields: OpFields::Rm, imm: OpImm::U8 }, // xorb_mi
    OpShape { fields: OpFields::RegMem, imm: OpImm::None }, // xorb_mr
    OpShape { fields: OpFields::RegMem, imm: OpImm::None }, // xorb_rm
    OpShape { fields: OpFields::Bare, imm: OpImm::U16 }, // xorw_i
    OpShape { fields: OpFields::Rm, imm: OpImm::U16 }, // xorw_mi
    OpShape { fields: OpFields::RegRm, imm: OpImm::None }, // xorw_mr
    OpShape { fields: OpFields::RegRm, imm: OpImm::None }, // xorw_rm
    OpShape { fields: OpFields::Bare, imm: OpImm::U32 }, // xorl_i
    OpShape { fields: OpFields::Rm, imm: OpImm::U32 }, // xorl_mi
    OpShape { fields: OpFields::Rm, imm: OpImm::I8 }, // xorl_mi_sxb
    OpShape { fields: OpFields::RegRm, imm: OpImm::None }, // xorl_mr
    OpShape { fields: OpFields::RegRm, imm: OpImm::None }, // xorl_rm
    OpShape { fields: OpFields::Rm, imm: OpImm::I32 }, // xorq_mi_sxl
    OpShape { fields: OpFields::Rm, imm: OpImm::I8 }, // xorq_mi_sxb
    OpShape { fields: OpFields::RegRm, imm: OpImm::None }, // xorq_mr
    OpShape { fields: OpFields::RegRm, imm: OpImm::None }, // xorq_rm
    OpShape { fields: OpFields::Bare, imm: OpImm::U8 }, // cmpb_i
    OpShape { fields: OpFields::Rm, imm: OpImm::U8 }, // cmpb_mi
    OpShape { fields: OpFields::RegMem, imm: OpImm::None }, // cmpb_mr
    OpShape { fields: OpFields::RegMem, imm: OpImm::None }, // cmpb_rm
    OpShape { fields: OpFields::Bare, imm: OpImm::U16 }, // cmpw_i
    OpShape { fields: OpFields::Rm, imm: OpImm::U16 }, // cmpw_mi
    OpShape { fields: OpFields::RegRm, imm: OpImm::None }, // cmpw_mr
    OpShape { fields: OpFields::RegRm, imm: OpImm::None }, // cmpw_rm
    OpShape { fields: OpFields::Bare, imm: OpImm::U32 }, // cmpl_i
    OpShape { fields: OpFields::Rm, imm: OpImm::U32 }, // cmpl_mi
    OpShape { fields: OpFields::Rm, imm: OpImm::I8 }, // cmpl_mi_sxb
    OpShape { fields: OpFields::RegRm, imm: OpImm::None }, // cmpl_mr
    OpShape { fields: OpFields::RegRm, imm: OpImm::None }, // cmpl_rm
    OpShape { fields: OpFields::Rm, imm: OpImm::I32 }, // cmpq_mi_sxl
    OpShape { fields: OpFields::Rm, imm: OpImm::I8 }, // cmpq_mi_sxb
    OpShape { fields: OpFields::RegRm, imm: OpImm::None }, // cmpq_mr
    OpShape { fields: OpFields::RegRm, imm: OpImm::None }, // cmpq_rm
    OpShape { fields: OpFields::Bare, imm: OpImm::U8 }, // testb_i
    OpShape { fields: OpFields::Rm, imm: OpImm::U8 }, // testb_mi
    OpShape { fields: OpFields::RegMem, imm: OpImm::None }, // testb_mr
    OpShape { fields: OpFields::Bare, imm: OpImm::U16 }, // testw_i
    OpShape { fields: OpFields::Rm, imm: OpImm::U16 }, // testw_mi
    OpShape { fields: OpFields::RegRm, imm: OpImm::None }, // testw_mr
    OpShape { fields: OpFields::Bare, imm: OpImm::U32 }, // testl_i
    OpShape { fields: OpFields::Rm, imm: OpImm::U32 }, // testl_mi
    OpShape { fields: OpFields::RegRm, imm: OpImm::None }, // testl_mr
    OpShape { fields: OpFields::Rm, imm: OpImm::I32 }, // testq_mi_sxl
    OpShape { fields: OpFields::RegRm, imm: OpImm::None }, // testq_mr
    OpShape { fields: OpFields::RegMem, imm: OpImm::None }, // movb_mr
    OpShape { fields: OpFields::RegMem, imm: OpImm::None }, // movb_rm
    OpShape { fields: OpFields::Rm, imm: OpImm::U8 }, // movb_mi
    OpShape { fields: OpFields::RegRm, imm: OpImm::None }, // movw_mr
    OpShape { fields: OpFields::RegRm, imm: OpImm::None }, // movw_rm
    OpShape { fields: OpFields::Rm, imm: OpImm::U16 }, // movw_mi
    OpShape { fields: OpFields::RegRm, imm: OpImm::None }, // movl_mr
    OpShape { fields: OpFields::RegRm, imm: OpImm::None }, // movl_rm
    OpShape { fields: OpFields::Rm, imm: OpImm::U32 }, // movl_mi
    OpShape { fields: OpFields::RegRm, imm: OpImm::None }, // movq_mr
    OpShape { fields: OpFields::RegRm, imm: OpImm::None }, // movq_rm
    OpShape { fields: OpFields::Rm, imm: OpImm::I32 }, // movq_mi_sxl
    OpShape { fields: OpFields::RegMem, imm: OpImm::None }, // movsbw_rm
    OpShape { fields: OpFields::RegMem, imm: OpImm::None }, // movsbl_rm
    OpShape { fields: OpFields::RegMem, imm: OpImm::None }, // movsbq_rm
    OpShape { fields: OpFields::RegRm, imm: OpImm::None }, // movswl_rm
    OpShape { fields: OpFields::RegRm, imm: OpImm::None }, // movswq_rm
    OpShape { fields: OpFields::RegRm, imm: OpImm::None }, // movslq_rm
    OpShape { fields: OpFields::RegMem, imm: OpImm::None }, // movzbw_rm
    OpShape { fields: OpFields::RegMem, imm: OpImm::None }, // movzbl_rm
    OpShape { fields: OpFields::RegMem, imm: OpImm::None }, // movzbq_rm
    OpShape { fields: OpFields::RegRm, imm: OpImm::None }, // movzwl_rm
    OpShape { fields: OpFields::RegRm, imm: OpImm::None }, // movzwq_rm
    OpShape { fields: OpFields::RegMem, imm: OpImm::None }, // leaw_rm
    OpShape { fields: OpFields::RegMem, imm: OpImm::None }, // leal_rm
    OpShape { fields: OpFields::RegMem, imm: OpImm::None }, // leaq_rm
    OpShape { fields: OpFields::Rm, imm: OpImm::None }, // mulb_m
    OpShape { fields: OpFields::Rm, imm: OpImm::None }, // mulw_m
    OpShape { fields: OpFields::Rm, imm: OpImm::None }, // mull_m
    OpShape { fields: OpFields::Rm, imm: OpImm::None }, // mulq_m
    OpShape { fields: OpFields::Rm, imm: OpImm::None }, // imulb_m
    OpShape { fields: OpFields::Rm, imm: OpImm::None }, // imulw_m
    OpShape { fields: OpFields::Rm, imm: OpImm::None }, // imull_m
    OpShape { fields: OpFields::Rm, imm: OpImm::None }, // imulq_m
    OpShape { fields: OpFields::RegRm, imm: OpImm::None }, // imulw_rm
    OpShape { fields: OpFields::RegRm, imm: OpImm::I8 }, // imulw_rmi_sxb
    OpShape { fields: OpFields::RegRm, imm: OpImm::U16 }, // imulw_rmi
    OpShape { fields: OpFields::RegRm, imm: OpImm::None }, // imull_rm
    OpShape { fields: OpFields::RegRm, imm: OpImm::I8 }, // imull_rmi_sxb
    OpShape { fields: OpFields::RegRm, imm: OpImm::U32 }, // imull_rmi
    OpShape { fields: OpFields::RegRm, imm: OpImm::None }, // imulq_rm
    OpShape { fields: OpFields::RegRm, imm: OpImm::I8 }, // imulq_rmi_sxb
    OpShape { fields: OpFields::RegRm, imm: OpImm::I32 }, // imulq_rmi_sxl
    OpShape { fields: OpFields::Rm, imm: OpImm::None }, // divb_m
    OpShape { fields: OpFields::Rm, imm: OpImm::None }, // divw_m
    OpShape { fields: OpFields::Rm, imm: OpImm::None }, // divl_m
    OpShape { fields: OpFields::Rm, imm: OpImm::None }, // divq_m
    OpShape { fields: OpFields::Rm, imm: OpImm::None }, // idivb_m
    OpShape { fields: OpFields::Rm, imm: OpImm::None }, // idivw_m
    OpShape { fields: OpFields::Rm, imm: OpImm::None }, // idivl_m
    OpShape { fields: OpFields::Rm, imm: OpImm::None }, // idivq_m
    OpShape { fields: OpFields::Rm, imm: OpImm::None }, // notb_m
    OpShape { fields: OpFields::Rm, imm: OpImm::None }, // notw_m
    OpShape { fields: OpFields::Rm, imm: OpImm::None }, // notl_m
    OpShape { fields: OpFields::Rm, imm: OpImm::None }, // notq_m
    OpShape { fields: OpFields::Rm, imm: OpImm::None }, // negb_m
    OpShape { fields: OpFields::Rm, imm: OpImm::None }, // negw_m
    OpShape { fields: OpFields::Rm, imm: OpImm::None }, // negl_m
    OpShape { fields: OpFields::Rm, imm: OpImm::None }, // negq_m
    OpShape { fields: OpFields::Bare, imm: OpImm::None }, // cbtw_zo
    OpShape { fields: OpFields::Bare, imm: OpImm::None }, // cwtl_zo
    OpShape { fields: OpFields::Bare, imm: OpImm::None }, // cwtd_zo
    OpShape { fields: OpFields::Bare, imm: OpImm::None }, // cltd_zo
    OpShape { fields: OpFields::Rm, imm: OpImm::None }, // rolb_mc
    OpShape { fields: OpFields::Rm, imm: OpImm::U8 }, // rolb_mi
    OpShape { fields: OpFields::Rm, imm: OpImm::None }, // rolw_mc
    OpShape { fields: OpFields::Rm, imm: OpImm::U8 }, // rolw_mi
    OpShape { fields: OpFields::Rm, imm: OpImm::None }, // roll_mc
    OpShape { fields: OpFields::Rm, imm: OpImm::U8 }, // roll_mi
    OpShape { fields: OpFields::Rm, imm: OpImm::None }, // rolq_mc
    OpShape { fields: OpFields::Rm, imm: OpImm::U8 }, // rolq_mi
    OpShape { fields: OpFields::Rm, imm: OpImm::None }, // rorb_mc
    OpShape { fields: OpFields::Rm, imm: OpImm::U8 }, // rorb_mi
    OpShape { fields: OpFields::Rm, imm: OpImm::None }, // rorw_mc
    OpShape { fields: OpFields::Rm, imm: OpImm::U8 }, // rorw_mi
    OpShape { fields: OpFields::Rm, imm: OpImm::None }, // rorl_mc
    OpShape { fields: OpFields::Rm, imm: OpImm::U8 }, // rorl_mi
    OpShape { fields: OpFields::Rm, imm: OpImm::None }, // rorq_mc
    OpShape { fields: OpFields::Rm, imm: OpImm::U8 }, // rorq_mi
    OpShape { fields: OpFields::Rm, imm: OpImm::None }, // shlb_mc
    OpShape { fields: OpFields::Rm, imm: OpImm::U8 }, // shlb_mi
    OpShape { fields: OpFields::Rm, imm: OpImm::None }, // shlw_mc
    OpShape { fields: OpFields::Rm, imm: OpImm::U8 }, // shlw_mi
    OpShape { fields: OpFields::Rm, imm: OpImm::None }, // shll_mc
    OpShape { fields: OpFields::Rm, imm: OpImm::U8 }, // shll_mi
    OpShape { fields: OpFields::Rm, imm: OpImm::None }, // shlq_mc
    OpShape { fields: OpFields::Rm, imm: OpImm::U8 }, // shlq_mi
    OpShape { fields: OpFields::Rm, imm: OpImm::None }, // shrb_mc
    OpShape { fields: OpFields::Rm, imm: OpImm::U8 }, // shrb_mi
    OpShape { fields: OpFields::Rm, imm: OpImm::None }, // shrw_mc
    OpShape { fields: OpFields::Rm, imm: OpImm::U8 }, // shrw_mi
    OpShape { fields: OpFields::Rm, imm: OpImm::None }, // shrl_mc
    OpShape { fields: OpFields::Rm, imm: OpImm::U8 }, // shrl_mi
    OpShape { fields: OpFields::Rm, imm: OpImm::None }, // shrq_mc
    OpShape { fields: OpFields::Rm, imm: OpImm::U8 }, // shrq_mi
    OpShape { fields: OpFields::Rm, imm: OpImm::None }, // sarb_mc
    OpShape { fields: OpFields::Rm, imm: OpImm::U8 }, // sarb_mi
    OpShape { fields: OpFields::Rm, imm: OpImm::None }, // sarw_mc
    OpShape { fields: OpFields::Rm, imm: OpImm::U8 }, // sarw_mi
    OpShape { fields: OpFields::Rm, imm: OpImm::None }, // sarl_mc
    OpShape { fields: OpFields::Rm, imm: OpImm::U8 }, // sarl_mi
    OpShape { fields: OpFields::Rm, imm: OpImm::None }, // sarq_mc
    OpShape { fields: OpFields::Rm, imm: OpImm::U8 }, // sarq_mi
    OpShape { fields: OpFields::RegRm, imm: OpImm::U8 }, // shldw_mri
    OpShape { fields: OpFields::RegRm, imm: OpImm::None }, // shldw_mrc
    OpShape { fields: OpFields::RegRm, imm: OpImm::U8 }, // shldl_mri
    OpShape { fields: OpFields::RegRm, imm: OpImm::None }, // shldl_mrc
    OpShape { fields: OpFields::RegRm, imm: OpImm::U8 }, // shldq_mri
    OpShape { fields: OpFields::RegRm, imm: OpImm::None }, // shldq_mrc
    OpShape { fields: OpFields::Rm, imm: OpImm::None }, // seto_m
    OpShape { fields: OpFields::Rm, imm: OpImm::None }, // setno_m
    OpShape { fields: OpFields::Rm, imm: OpImm::None }, // setb_m
    OpShape { fields: OpFields::Rm, imm: OpImm::None }, // setae_m
    OpShape { fields: OpFields::Rm, imm: OpImm::None }, // sete_m
    OpShape { fields: OpFields::Rm, imm: OpImm::None }, // setne_m
    OpShape { fields: OpFields::Rm, imm: OpImm::None }, // setbe_m
    OpShape { fields: OpFields::Rm, imm: OpImm::None }, // seta_m
    OpShape { fields: OpFields::Rm, imm: OpImm::None }, // sets_m
    OpShape { fields: OpFields::Rm, imm: OpImm::None }, // setns_m
    OpShape { fields: OpFields::Rm, imm: OpImm::None }, // setp_m
    OpShape { fields: OpFields::Rm, imm: OpImm::None }, // setnp_m
    OpShape { fields: OpFields::Rm, imm: OpImm::None }, // setl_m
    OpShape { fields: OpFields::Rm, imm: OpImm::None }, // setge_m
    OpShape { fields: OpFields::Rm, imm: OpImm::None }, // setle_m
    OpShape { fields: OpFields::Rm, imm: OpImm::None }, // setg_m
    OpShape { fields: OpFields::RegRm, imm: OpImm::None }, // cmovow_rm
    OpShape { fields: OpFields::RegRm, imm: OpImm::None }, // cmovol_rm
    OpShape { fields: OpFields::RegRm, imm: OpImm::None }, // cmovoq_rm
    OpShape { fields: OpFields::RegRm, imm: OpImm::None }, // cmovnow_rm
    OpShape { fields: OpFields::RegRm, imm: OpImm::None }, // cmovnol_rm
    OpShape { fields: OpFields::RegRm, imm: OpImm::None }, // cmovnoq_rm
    OpShape { fields: OpFields::RegRm, imm: OpImm::None }, // cmovbw_rm
    OpShape { fields: OpFields::RegRm, imm: OpImm::None }, // cmovbl_rm
    OpShape { fields: OpFields::RegRm, imm: OpImm::None }, // cmovbq_rm
    OpShape { fields: OpFields::RegRm, imm: OpImm::None }, // cmovaew_rm
    OpShape { fields: OpFields::RegRm, imm: OpImm::None }, // cmovael_rm
    OpShape { fields: OpFields::RegRm, imm: OpImm::None }, // cmovaeq_rm
    OpShape { fields: OpFields::RegRm, imm: OpImm::None }, // cmovew_rm
    OpShape { fields: OpFields::RegRm, imm: OpImm::None }, // cmovel_rm
    OpShape { fields: OpFields::RegRm, imm: OpImm::None }, // cmoveq_rm
    OpShape { fields: OpFields::RegRm, imm: OpImm::None }, // cmovnew_rm
    OpShape { fields: OpFields::RegRm, imm: OpImm::None }, // cmovnel_rm
    OpShape { fields: OpFields::RegRm, imm: OpImm::None }, // cmovneq_rm
    OpShape { fields: OpFields::RegRm, imm: OpImm::None }, // cmovbew_rm
    OpShape { fields: OpFields::RegRm, imm: OpImm::None }, // cmovbel_rm
    OpShape { fields: OpFields::RegRm, imm: OpImm::None }, // cmovbeq_rm
    OpShape { fields: OpFields::RegRm, imm: OpImm::None }, // cmovaw_rm
    OpShape { fields: OpFields::RegRm, imm: OpImm::None }, // cmoval_rm
    OpShape { fields: OpFields::RegRm, imm: OpImm::None }, // cmovaq_rm
    OpShape { fields: OpFields::RegRm, imm: OpImm::None }, // cmovsw_rm
    OpShape { fields: OpFields::RegRm, imm: OpImm::None }, // cmovsl_rm
    OpShape { fields: OpFields::RegRm, imm: OpImm::None }, // cmovsq_rm
    OpShape { fields: OpFields::RegRm, imm: OpImm::None }, // cmovnsw_rm
    OpShape { fields: OpFields::RegRm, imm: OpImm::None }, // cmovnsl_rm
    OpShape { fields: OpFields::RegRm, imm: OpImm::None }, // cmovnsq_rm
    OpShape { fields: OpFields::RegRm, imm: OpImm::None }, // cmovpw_rm
    OpShape { fields: OpFields::RegRm, imm: OpImm::None }, // cmovpl_rm
    OpShape { fields: OpFields::RegRm, imm: OpImm::None }, // cmovpq_rm
    OpShape { fields: OpFields::RegRm, imm: OpImm::None }, // cmovnpw_rm
    OpShape { fields: OpFields::RegRm, imm: OpImm::None }, // cmovnpl_rm
    OpShape { fields: OpFields::RegRm, imm: OpImm::None }, // cmovnpq_rm
    OpShape { fields: OpFields::RegRm, imm: OpImm::None }, // cmovlw_rm
    OpShape { fields: OpFields::RegRm, imm: OpImm::None }, // cmovll_rm
    OpShape { fields: OpFields::RegRm, imm: OpImm::None }, // cmovlq_rm
    OpShape { fields: OpFields::RegRm, imm: OpImm::None }, // cmovgew_rm
    OpShape { fields: OpFields::RegRm, imm: OpImm::None }, // cmovgel_rm
    OpShape { fields: OpFields::RegRm, imm: OpImm::None }, // cmovgeq_rm
    OpShape { fields: OpFields::RegRm, imm: OpImm::None }, // cmovlew_rm
    OpShape { fields: OpFields::RegRm, imm: OpImm::None }, // cmovlel_rm
    OpShape { fields: OpFields::RegRm, imm: OpImm::None }, // cmovleq_rm
    OpShape { fields: OpFields::RegRm, imm: OpImm::None }, // cmovgw_rm
    OpShape { fields: OpFields::RegRm, imm: OpImm::None }, // cmovgl_rm
    OpShape { fields: OpFields::RegRm, imm: OpImm::None }, // cmovgq_rm
    OpShape { fields: OpFields::Rm, imm: OpImm::None }, // pushw_m
    OpShape { fields: OpFields::Rm, imm: OpImm::None }, // pushq_m
    OpShape { fields: OpFields::Bare, imm: OpImm::I8 }, // pushq_i8
    OpShape { fields: OpFields::Bare, imm: OpImm::U16 }, // pushw_i16
    OpShape { fields: OpFields::Bare, imm: OpImm::I32 }, // pushq_i32
    OpShape { fields: OpFields::Rm, imm: OpImm::None }, // popw_m
    OpShape { fields: OpFields::Rm, imm: OpImm::None }, // popq_m
    OpShape { fields: OpFields::Bare, imm: OpImm::None }, // retq_zo
    OpShape { fields: OpFields::Bare, imm: OpImm::U16 }, // retq_i
    OpShape { fields: OpFields::Bare, imm: OpImm::None }, // leaveq_zo
    OpShape { fields: OpFields::Bare, imm: OpImm::None }, // ud2_zo
    OpShape { fields: OpFields::Bare, imm: OpImm::None }, // int3_zo
    OpShape { fields: OpFields::Bare, imm: OpImm::None }, // hlt_zo
    OpShape { fields: OpFields::RegRm, imm: OpImm::None }, // bsfw_rm
    OpShape { fields: OpFields::RegRm, imm: OpImm::None }, // bsrw_rm
    OpShape { fields: OpFields::RegRm, imm: OpImm::None }, // bsfl_rm
    OpShape { fields: OpFields::RegRm, imm: OpImm::None }, // bsrl_rm
    OpShape { fields: OpFields::RegRm, imm: OpImm::None }, // bsfq_rm
    OpShape { fields: OpFields::RegRm, imm: OpImm::None }, // bsrq_rm
    OpShape { fields: OpFields::RegRm, imm: OpImm::None }, // tzcntw_rm
    OpShape { fields: OpFields::RegRm, imm: OpImm::None }, // lzcntw_rm
    OpShape { fields: OpFields::RegRm, imm: OpImm::None }, // popcntw_rm
    OpShape { fields: OpFields::RegRm, imm: OpImm::None }, // tzcntl_rm
    OpShape { fields: OpFields::RegRm, imm: OpImm::None }, // lzcntl_rm
    OpShape { fields: OpFields::RegRm, imm: OpImm::None }, // popcntl_rm
    OpShape { fields: OpFields::RegRm, imm: OpImm::None }, // tzcntq_rm
    OpShape { fields: OpFields::RegRm, imm: OpImm::None }, // lzcntq_rm
    OpShape { fields: OpFields::RegRm, imm: OpImm::None }, // popcntq_rm
    OpShape { fields: OpFields::RegRm, imm: OpImm::None }, // btw_mr
    OpShape { fields: OpFields::Rm, imm: OpImm::U8 }, // btw_mi
    OpShape { fields: OpFields::RegRm, imm: OpImm::None }, // btl_mr
    OpShape { fields: OpFields::Rm, imm: OpImm::U8 }, // btl_mi
    OpShape { fields: OpFields::RegRm, imm: OpImm::None }, // btq_mr
    OpShape { fields: OpFields::Rm, imm: OpImm::U8 }, // btq_mi
    OpShape { fields: OpFields::RegMem, imm: OpImm::None }, // xaddb_mr
    OpShape { fields: OpFields::RegMem, imm: OpImm::None }, // cmpxchgb_mr
    OpShape { fields: OpFields::RegMem, imm: OpImm::None }, // xaddw_mr
    OpShape { fields: OpFields::RegMem, imm: OpImm::None }, // cmpxchgw_mr
    OpShape { fields: OpFields::RegMem, imm: OpImm::None }, // xaddl_mr
    OpShape { fields: OpFields::RegMem, imm: OpImm::None }, // cmpxchgl_mr
    OpShape { fields: OpFields::RegMem, imm: OpImm::None }, // xaddq_mr
    OpShape { fields: OpFields::RegMem, imm: OpImm::None }, // cmpxchgq_mr
    OpShape { fields: OpFields::Mem, imm: OpImm::None }, // cmpxchg16b_m
    OpShape { fields: OpFields::RegRm, imm: OpImm::None }, // addss_a
    OpShape { fields: OpFields::RegRm, imm: OpImm::None }, // addsd_a
    OpShape { fields: OpFields::RegRm, imm: OpImm::None }, // mulss_a
    OpShape { fields: OpFields::RegRm, imm: OpImm::None }, // mulsd_a
    OpShape { fields: OpFields::RegRm, imm: OpImm::None }, // subss_a
    OpShape { fields: OpFields::RegRm, imm: OpImm::None }, // subsd_a
    OpShape { fields: OpFields::RegRm, imm: OpImm::None }, // minss_a
    OpShape { fields: OpFields::RegRm, imm: OpImm::None }, // minsd_a
    OpShape { fields: OpFields::RegRm, imm: OpImm::None }, // divss_a
    OpShape { fields: OpFields::RegRm, imm: OpImm::None }, // divsd_a
    OpShape { fields: OpFields::RegRm, imm: OpImm::None }, // maxss_a
    OpShape { fields: OpFields::RegRm, imm: OpImm::None }, // maxsd_a
    OpShape { fields: OpFields::RegRm, imm: OpImm::None }, // sqrtss_a
    OpShape { fields: OpFields::RegRm, imm: OpImm::None }, // sqrtsd_a
    OpShape { fields: OpFields::RegRm, imm: OpImm::None }, // ucomiss_a
    OpShape { fields: OpFields::RegRm, imm: OpImm::None }, // ucomisd_a
    OpShape { fields: OpFields::RegRm, imm: OpImm::None }, // andpd_a
    OpShape { fields: OpFields::RegRm, imm: OpImm::None }, // andnps_a
    OpShape { fields: OpFields::RegRm, imm: OpImm::None }, // andnpd_a
    OpShape { fields: OpFields::RegRm, imm: OpImm::None }, // orps_a
    OpShape { fields: OpFields::RegRm, imm: OpImm::None }, // orpd_a
    OpShape { fields: OpFields::RegRm, imm: OpImm::None }, // xorps_a
    OpShape { fields: OpFields::RegRm, imm: OpImm::None }, // xorpd_a
    OpShape { fields: OpFields::RegRm, imm: OpImm::None }, // pxor_a
    OpShape { fields: OpFields::RegMem, imm: OpImm::None }, // movss_a_m
    OpShape { fields: OpFields::RegMem, imm: OpImm::None }, // movss_c_m
    OpShape { fields: OpFields::RegMem, imm: OpImm::None }, // movsd_a_m
    OpShape { fields: OpFields::RegMem, imm: OpImm::None }, // movsd_c_m
    OpShape { fields: OpFields::RegRm, imm: OpImm::None }, // movaps_a
    OpShape { fields: OpFields::RegRm, imm: OpImm::None }, // movaps_b
    OpShape { fields: OpFields::RegRm, imm: OpImm::None }, // movapd_a
    OpShape { fields: OpFields::RegRm, imm: OpImm::None }, // movapd_b
    OpShape { fields: OpFields::RegRm, imm: OpImm::None }, // movups_a
    OpShape { fields: OpFields::RegRm, imm: OpImm::None }, // movups_b
    OpShape { fields: OpFields::RegRm, imm: OpImm::None }, // movupd_a
    OpShape { fields: OpFields::RegRm, imm: OpImm::None }, // movupd_b
    OpShape { fields: OpFields::RegRm, imm: OpImm::None }, // movdqa_a
    OpShape { fields: OpFields::RegRm, imm: OpImm::None }, // movdqa_b
    OpShape { fields: OpFields::RegRm, imm: OpImm::None }, // movdqu_a
    OpShape { fields: OpFields::RegRm, imm: OpImm::None }, // movdqu_b
    OpShape { fields: OpFields::RegRm, imm: OpImm::None }, // movd_a
    OpShape { fields: OpFields::RegRm, imm: OpImm::None }, // movq_a
    OpShape { fields: OpFields::RegRm, imm: OpImm::None }, // movd_b
    OpShape { fields: OpFields::RegRm, imm: OpImm::None }, // movq_b
    OpShape { fields: OpFields::RegRm, imm: OpImm::None }, // cvtsi2ssl_a
    OpShape { fields: OpFields::RegRm, imm: OpImm::None }, // cvtss2sil_a
    OpShape { fields: OpFields::RegRm, imm: OpImm::None }, // cvttss2sil_a
    OpShape { fields: OpFields::RegRm, imm: OpImm::None }, // cvtsi2ssq_a
    OpShape { fields: OpFields::RegRm, imm: OpImm::None }, // cvtss2siq_a
    OpShape { fields: OpFields::RegRm, imm: OpImm::None }, // cvttss2siq_a
    OpShape { fields: OpFields::RegRm, imm: OpImm::None }, // cvtsi2sdl_a
    OpShape { fields: OpFields::RegRm, imm: OpImm::None }, // cvtsd2sil_a
    OpShape { fields: OpFields::RegRm, imm: OpImm::None }, // cvttsd2sil_a
    OpShape { fields: OpFields::RegRm, imm: OpImm::None }, // cvtsi2sdq_a
    OpShape { fields: OpFields::RegRm, imm: OpImm::None }, // cvtsd2siq_a
    OpShape { fields: OpFields::RegRm, imm: OpImm::None }, // cvttsd2siq_a
    OpShape { fields: OpFields::RegRm, imm: OpImm::None }, // cvtss2sd_a
    OpShape { fields: OpFields::RegRm, imm: OpImm::None }, // cvtsd2ss_a
    OpShape { fields: OpFields::RegRm, imm: OpImm::None }, // cvtps2pd_a
    OpShape { fields: OpFields::RegRm, imm: OpImm::None }, // cvtpd2ps_a
    OpShape { fields: OpFields::RegRm, imm: OpImm::None }, // cvtdq2ps_a
    OpShape { fields: OpFields::RegRm, imm: OpImm::None }, // cvttps2dq_a
    OpShape { fields: OpFields::RegRm, imm: OpImm::None }, // cvtdq2pd_a
    OpShape { fields: OpFields::RegRm, imm: OpImm::None }, // cvttpd2dq_a
];
// table/write.py: end

/// That of the line of this number.
#[inline(always)]
pub(crate) fn shape(number: u16) -> OpShape
    requires { number < COUNT }
    ensures { result ≡ shape_of number }
{
    SHAPES[usize::from(number)]
}

impl OpFields {
    /// Whether a register stands in reg.
    #[inline(always)]
    pub fn has_reg(self) -> bool
        ensures { result ≡ has_reg self }
    {
        matches!(
            self,
            OpFields::RegRm | OpFields::RegMem | OpFields::RegVvvvRm
        )
    }

    /// Whether a register stands in vvvv.
    #[inline(always)]
    pub fn has_vvvv(self) -> bool
        ensures { result ≡ has_vvvv self }
    {
        matches!(self, OpFields::RegVvvvRm)
    }

    /// Whether memory may stand in the rest of the tail.
    #[inline(always)]
    pub fn has_mem(self) -> bool
        ensures { result ≡ has_mem self }
    {
        !matches!(self, OpFields::Bare)
    }

    /// Whether a register may stand there.
    #[inline(always)]
    pub fn has_rm(self) -> bool
        ensures { result ≡ has_rm self }
    {
        matches!(self, OpFields::Rm | OpFields::RegRm | OpFields::RegVvvvRm)
    }
}

/// The first numbers that are too large for the bytes of an immediate, in the order in which their kinds are listed.
static TOO_LARGE: [u64; 6] = [1, 1 << 8, 1 << 16, 1 << 32, 1 << 8, 1 << 32];

impl OpImm {
    /// The first number that is too large for its bytes: 1 where it has none. It's looked up, since a branch would cost more.
    #[inline(always)]
    pub fn limit(self) -> u64
        ensures { result ≡ 256 ^ imm_bytes (imm_field self) }
    {
        TOO_LARGE[self as usize]
    }
}
