//! Mnemonics of rows.

ghost use Rattle.std.specs.Prelude.{◌≡◌};
ghost use Rattle.cax64_text.specs.Mnemonic.{row_mnemonic, mnemonic_for, without_last};
ghost use Rattle.cax64_text.specs.Style.{style_of};
ghost use Rattle.cax64_text.specs.declared.style.Style.TheVariants.{Shift};

use cax64_machine_code::row::Row;

/// The mnemonic of a row's instructions.
#[inline(always)]
pub fn row_mnemonic(row: Row) -> &'static str
    ensures { result.now ≡ row_mnemonic row }
{
    match row {
        // table/write.py: mnemonics
        Row::lock_addb_mi | Row::lock_addb_mr => "lock addb",
        Row::lock_addw_mi | Row::lock_addw_mr => "lock addw",
        Row::lock_addl_mi | Row::lock_addl_mi_sxb | Row::lock_addl_mr => "lock addl",
        Row::lock_addq_mi_sxl | Row::lock_addq_mi_sxb | Row::lock_addq_mr => "lock addq",
        Row::lock_orb_mi | Row::lock_orb_mr => "lock orb",
        Row::lock_orw_mi | Row::lock_orw_mr => "lock orw",
        Row::lock_orl_mi | Row::lock_orl_mi_sxb | Row::lock_orl_mr => "lock orl",
        Row::lock_orq_mi_sxl | Row::lock_orq_mi_sxb | Row::lock_orq_mr => "lock orq",
        Row::lock_adcb_mi | Row::lock_adcb_mr => "lock adcb",
        Row::lock_adcw_mi | Row::lock_adcw_mr => "lock adcw",
        Row::lock_adcl_mi | Row::lock_adcl_mi_sxb | Row::lock_adcl_mr => "lock adcl",
        Row::lock_adcq_mi_sxl | Row::lock_adcq_mi_sxb | Row::lock_adcq_mr => "lock adcq",
        Row::lock_sbbb_mi | Row::lock_sbbb_mr => "lock sbbb",
        Row::lock_sbbw_mi | Row::lock_sbbw_mr => "lock sbbw",
        Row::lock_sbbl_mi | Row::lock_sbbl_mi_sxb | Row::lock_sbbl_mr => "lock sbbl",
        Row::lock_sbbq_mi_sxl | Row::lock_sbbq_mi_sxb | Row::lock_sbbq_mr => "lock sbbq",
        Row::lock_andb_mi | Row::lock_andb_mr => "lock andb",
        Row::lock_andw_mi | Row::lock_andw_mr => "lock andw",
        Row::lock_andl_mi | Row::lock_andl_mi_sxb | Row::lock_andl_mr => "lock andl",
        Row::lock_andq_mi_sxl | Row::lock_andq_mi_sxb | Row::lock_andq_mr => "lock andq",
        Row::lock_subb_mi | Row::lock_subb_mr => "lock subb",
        Row::lock_subw_mi | Row::lock_subw_mr => "lock subw",
        Row::lock_subl_mi | Row::lock_subl_mi_sxb | Row::lock_subl_mr => "lock subl",
        Row::lock_subq_mi_sxl | Row::lock_subq_mi_sxb | Row::lock_subq_mr => "lock subq",
        Row::lock_xorb_mi | Row::lock_xorb_mr => "lock xorb",
        Row::lock_xorw_mi | Row::lock_xorw_mr => "lock xorw",
        Row::lock_xorl_mi | Row::lock_xorl_mi_sxb | Row::lock_xorl_mr => "lock xorl",
        Row::lock_xorq_mi_sxl | Row::lock_xorq_mi_sxb | Row::lock_xorq_mr => "lock xorq",
        Row::lock_xaddb_mr => "lock xaddb",
        Row::lock_xaddw_mr => "lock xaddw",
        Row::lock_xaddl_mr => "lock xaddl",
        Row::lock_xaddq_mr => "lock xaddq",
        Row::lock_cmpxchgb_mr => "lock cmpxchgb",
        Row::lock_cmpxchgw_mr => "lock cmpxchgw",
        Row::lock_cmpxchgl_mr => "lock cmpxchgl",
        Row::lock_cmpxchgq_mr => "lock cmpxchgq",
        Row::lock_cmpxchg16b_m => "lock cmpxchg16b",
        Row::xchgb_rm => "xchgb",
        Row::xchgw_rm => "xchgw",
        Row::xchgl_rm => "xchgl",
        Row::xchgq_rm => "xchgq",
        Row::rolb_m1 => "rolb",
        Row::rolw_m1 => "rolw",
        Row::roll_m1 => "roll",
        Row::rolq_m1 => "rolq",
        Row::rorb_m1 => "rorb",
        Row::rorw_m1 => "rorw",
        Row::rorl_m1 => "rorl",
        Row::rorq_m1 => "rorq",
        Row::shlb_m1 => "shlb",
        Row::shlw_m1 => "shlw",
        Row::shll_m1 => "shll",
        Row::shlq_m1 => "shlq",
        Row::shrb_m1 => "shrb",
        Row::shrw_m1 => "shrw",
        Row::shrl_m1 => "shrl",
        Row::shrq_m1 => "shrq",
        Row::sarb_m1 => "sarb",
        Row::sarw_m1 => "sarw",
        Row::sarl_m1 => "sarl",
        Row::sarq_m1 => "sarq",
        Row::callq_m | Row::callq_d => "callq",
        Row::jmpq_m => "jmpq",
        Row::andps_a => "andps",
        Row::cmpps_a => "cmpps",
        Row::cmppd_a => "cmppd",
        Row::cmpss_a => "cmpss",
        Row::cmpsd_a => "cmpsd",
        Row::andb_i => "andb",
        Row::jmp_d8 | Row::jmp_d32 => "jmp",
        Row::jo_d8 | Row::jo_d32 => "jo",
        Row::jno_d8 | Row::jno_d32 => "jno",
        Row::jb_d8 | Row::jb_d32 => "jb",
        Row::jae_d8 | Row::jae_d32 => "jae",
        Row::je_d8 | Row::je_d32 => "je",
        Row::jne_d8 | Row::jne_d32 => "jne",
        Row::jbe_d8 | Row::jbe_d32 => "jbe",
        Row::ja_d8 | Row::ja_d32 => "ja",
        Row::js_d8 | Row::js_d32 => "js",
        Row::jns_d8 | Row::jns_d32 => "jns",
        Row::jp_d8 | Row::jp_d32 => "jp",
        Row::jnp_d8 | Row::jnp_d32 => "jnp",
        Row::jl_d8 | Row::jl_d32 => "jl",
        Row::jge_d8 | Row::jge_d32 => "jge",
        Row::jle_d8 | Row::jle_d32 => "jle",
        Row::jg_d8 | Row::jg_d32 => "jg",
        Row::vcmpps_b => "vcmpps",
        Row::vcmppd_b => "vcmppd",
        Row::vcmpss_b => "vcmpss",
        Row::vcmpsd_b => "vcmpsd",
        Row::vcvtpd2ps_a => "vcvtpd2ps",
        Row::vcvttpd2dq_a => "vcvttpd2dq",
        Row::mulxl_rvm => "mulxl",
        Row::mulxq_rvm => "mulxq",
        Row::nop_1b | Row::nop_2b | Row::nopl_rm | Row::nopw_rm => "nop",
        // table/write.py: end
    }
}

/// The mnemonic where the operand that may be memory is a register, or not.
#[inline(always)]
pub fn mnemonic(row: Row, register: bool) -> &'static str
    ensures { result.now ≡ mnemonic_for register row }
{
    match row {
        // table/write.py: memory
        Row::vcvtpd2ps_a if !register => "vcvtpd2psx",
        Row::vcvttpd2dq_a if !register => "vcvttpd2dqx",
        // table/write.py: end
        _ => row_mnemonic(row),
    }
}

/// The mnemonic of a shift without the letter of its width.
pub fn shift_name(row: Row) -> &'static str
    requires { style_of row ≡ Shift }
    ensures { result.now ≡ without_last (row_mnemonic row) }
{
    match row {
        // table/write.py: shifts
        Row::rolb_m1 | Row::rolw_m1 | Row::roll_m1 | Row::rolq_m1 => "rol",
        Row::rorb_m1 | Row::rorw_m1 | Row::rorl_m1 | Row::rorq_m1 => "ror",
        Row::shlb_m1 | Row::shlw_m1 | Row::shll_m1 | Row::shlq_m1 => "shl",
        Row::shrb_m1 | Row::shrw_m1 | Row::shrl_m1 | Row::shrq_m1 => "shr",
        _ => "sar",
        // table/write.py: end
    }
}
