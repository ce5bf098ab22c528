//! What lines ask of a processor. (Intel SDM, volume 1, 5.1, and volume 2, `CPUID`.)

ghost use Rattle.std.specs.Prelude.{◌≡◌};
ghost use Rattle.x64_lines.specs.Extension.{extension_of, has_extension, is_available_in};

use crate::op::Op;

/// An extension of the 64-bit processor that an instruction asks for.
#[derive(Clone, Copy, Debug, PartialEq)]
pub enum Extension {
    Sse,
    Sse2,
    Bmi1,
    Bmi2,
    Lzcnt,
    Popcnt,
    Avx,
    Cmpxchg16b,
}

/// The extensions that a processor has, or that a compiler may use.
#[derive(Clone, Copy, Debug, PartialEq)]
pub struct Extensions {
    pub sse: bool,
    pub sse2: bool,
    pub bmi1: bool,
    pub bmi2: bool,
    pub lzcnt: bool,
    pub popcnt: bool,
    pub avx: bool,
    pub cmpxchg16b: bool,
}

impl Extensions {
    /// None.
    pub const NONE: Extensions = Extensions {
        sse: false,
        sse2: false,
        bmi1: false,
        bmi2: false,
        lzcnt: false,
        popcnt: false,
        avx: false,
        cmpxchg16b: false,
    };

    /// Those of every 64-bit processor.
    pub const BASE: Extensions = Extensions {
        sse: true,
        sse2: true,
        ..Extensions::NONE
    };

    /// Whether an extension is among them.
    pub fn has(&self, extension: Extension) -> bool
        ensures { result ≡ has_extension self.now extension }
    {
        match extension {
            Extension::Sse => self.sse,
            Extension::Sse2 => self.sse2,
            Extension::Bmi1 => self.bmi1,
            Extension::Bmi2 => self.bmi2,
            Extension::Lzcnt => self.lzcnt,
            Extension::Popcnt => self.popcnt,
            Extension::Avx => self.avx,
            Extension::Cmpxchg16b => self.cmpxchg16b,
        }
    }
}

/// Of the rows, and of the lines of `table/core.txt` behind them, each named beside its extension.
// table/write.py: extensions
static EXTENSIONS: [Option<Extension>; 584] = [
    None, // lock_addb_mi
    None, // lock_addw_mi
    None, // lock_addl_mi
    None, // lock_addq_mi_sxl
    None, // lock_addl_mi_sxb
    None, // lock_addq_mi_sxb
    None, // lock_addb_mr
    None, // lock_addw_mr
    None, // lock_addl_mr
    None, // lock_addq_mr
    None, // lock_orb_mi
    None, // lock_orw_mi
    None, // lock_orl_mi
    None, // lock_orq_mi_sxl
    None, // lock_orl_mi_sxb
    None, // lock_orq_mi_sxb
    None, // lock_orb_mr
    None, // lock_orw_mr
    None, // lock_orl_mr
    None, // lock_orq_mr
    None, // lock_adcb_mi
    None, // lock_adcw_mi
    None, // lock_adcl_mi
    None, // lock_adcq_mi_sxl
    None, // lock_adcl_mi_sxb
    None, // lock_adcq_mi_sxb
    None, // lock_adcb_mr
    None, // lock_adcw_mr
    None, // lock_adcl_mr
    None, // lock_adcq_mr
    None, // lock_sbbb_mi
    None, // lock_sbbw_mi
    None, // lock_sbbl_mi
    None, // lock_sbbq_mi_sxl
    None, // lock_sbbl_mi_sxb
    None, // lock_sbbq_mi_sxb
    None, // lock_sbbb_mr
    None, // lock_sbbw_mr
    None, // lock_sbbl_mr
    None, // lock_sbbq_mr
    None, // lock_andb_mi
    None, // lock_andw_mi
    None, // lock_andl_mi
    None, // lock_andq_mi_sxl
    None, // lock_andl_mi_sxb
    None, // lock_andq_mi_sxb
    None, // lock_andb_mr
    None, // lock_andw_mr
    None, // lock_andl_mr
    None, // lock_andq_mr
    None, // lock_subb_mi
    None, // lock_subw_mi
    None, // lock_subl_mi
    None, // lock_subq_mi_sxl
    None, // lock_subl_mi_sxb
    None, // lock_subq_mi_sxb
    None, // lock_subb_mr
    None, // lock_subw_mr
    None, // lock_subl_mr
    None, // lock_subq_mr
    None, // lock_xorb_mi
    None, // lock_xorw_mi
    None, // lock_xorl_mi
    None, // lock_xorq_mi_sxl
    None, // lock_xorl_mi_sxb
    None, // lock_xorq_mi_sxb
    None, // lock_xorb_mr
    None, // lock_xorw_mr
    None, // lock_xorl_mr
    None, // lock_xorq_mr
    None, // lock_xaddb_mr
    None, // lock_xaddw_mr
    None, // lock_xaddl_mr
    None, // lock_xaddq_mr
    None, // lock_cmpxchgb_mr
    None, // lock_cmpxchgw_mr
    None, // lock_cmpxchgl_mr
    None, // lock_cmpxchgq_mr
    Some(Extension::Cmpxchg16b), // lock_cmpxchg16b_m
    None, // xchgb_rm
    None, // xchgw_rm
    None, // xchgl_rm
    None, // xchgq_rm
    None, // rolb_m1
    None, // rolw_m1
    None, // roll_m1
    None, // rolq_m1
    None, // rorb_m1
    None, // rorw_m1
    None, // rorl_m1
    None, // rorq_m1
    None, // shlb_m1
    None, // shlw_m1
    None, // shll_m1
    None, // shlq_m1
    None, // shrb_m1
    None, // shrw_m1
    None, // shrl_m1
    None, // shrq_m1
    None, // sarb_m1
    None, // sarw_m1
    None, // sarl_m1
    None, // sarq_m1
    None, // callq_m
    None, // jmpq_m
    Some(Extension::Sse), // andps_a
    Some(Extension::Sse), // cmpps_a
    Some(Extension::Sse2), // cmppd_a
    Some(Extension::Sse), // cmpss_a
    Some(Extension::Sse2), // cmpsd_a
    None, // andb_i
    None, // callq_d
    None, // jmp_d8
    None, // jmp_d32
    None, // jo_d8
    None, // jno_d8
    None, // jb_d8
    None, // jae_d8
    None, // je_d8
    None, // jne_d8
    None, // jbe_d8
    None, // ja_d8
    None, // js_d8
    None, // jns_d8
    None, // jp_d8
    None, // jnp_d8
    None, // jl_d8
    None, // jge_d8
    None, // jle_d8
    None, // jg_d8
    None, // jo_d32
    None, // jno_d32
    None, // jb_d32
    None, // jae_d32
    None, // je_d32
    None, // jne_d32
    None, // jbe_d32
    None, // ja_d32
    None, // js_d32
    None, // jns_d32
    None, // jp_d32
    None, // jnp_d32
    None, // jl_d32
    None, // jge_d32
    None, // jle_d32
    None, // jg_d32
    Some(Extension::Avx), // vcmpps_b
    Some(Extension::Avx), // vcmppd_b
    Some(Extension::Avx), // vcmpss_b
    Some(Extension::Avx), // vcmpsd_b
    Some(Extension::Avx), // vcvtpd2ps_a
    Some(Extension::Avx), // vcvttpd2dq_a
    Some(Extension::Bmi2), // mulxl_rvm
    Some(Extension::Bmi2), // mulxq_rvm
    None, // nop_1b
    None, // nop_2b
    None, // nopl_rm
    None, // nopw_rm
    None, // addb_i
    None, // addb_mi
    None, // addb_mr
    None, // addb_rm
    None, // addw_i
    None, // addw_mi
    None, // addw_mr
    None, // addw_rm
    None, // addl_i
    None, // addl_mi
    None, // addl_mi_sxb
    None, // addl_mr
    None, // addl_rm
    None, // addq_mi_sxl
    None, // addq_mi_sxb
    None, // addq_mr
    None, // addq_rm
    None, // orb_i
    None, // orb_mi
    None, // orb_mr
    None, // orb_rm
    None, // orw_i
    None, // orw_mi
    None, // orw_mr
    None, // orw_rm
    None, // orl_i
    None, // orl_mi
    None, // orl_mi_sxb
    None, // orl_mr
    None, // orl_rm
    None, // orq_mi_sxl
    None, // orq_mi_sxb
    None, // orq_mr
    None, // orq_rm
    None, // adcb_i
    None, // adcb_mi
    None, // adcb_mr
    None, // adcb_rm
    None, // adcw_i
    None, // adcw_mi
    None, // adcw_mr
    None, // adcw_rm
    None, // adcl_i
    None, // adcl_mi
    None, // adcl_mi_sxb
    None, // adcl_mr
    None, // adcl_rm
    None, // adcq_mi_sxl
    None, // adcq_mi_sxb
    None, // adcq_mr
    None, // adcq_rm
    None, // sbbb_i
    None, // sbbb_mi
    None, // sbbb_mr
    None, // sbbb_rm
    None, // sbbw_i
    None, // sbbw_mi
    None, // sbbw_mr
    None, // sbbw_rm
    None, // sbbl_i
    None, // sbbl_mi
    None, // sbbl_mi_sxb
    None, // sbbl_mr
    None, // sbbl_rm
    None, // sbbq_mi_sxl
    None, // sbbq_mi_sxb
    None, // sbbq_mr
    None, // sbbq_rm
    None, // andb_mi
    None, // andb_mr
    None, // andb_rm
    None, // andw_i
    None, // andw_mi
    None, // andw_mr
    None, // andw_rm
    None, // andl_i
    None, // andl_mi
    None, // andl_mi_sxb
    None, // andl_mr
    None, // andl_rm
    None, // andq_mi_sxl
    None, // andq_mi_sxb
    None, // andq_mr
    None, // andq_rm
    None, // subb_i
    None, // subb_mi
    None, // subb_mr
    None, // subb_rm
    None, // subw_i
    None, // subw_mi
    None, // subw_mr
    None, // subw_rm
    None, // subl_i
    None, // subl_mi
    None, // subl_mi_sxb
    None, // subl_mr
    None, // subl_rm
    None, // subq_mi_sxl
    None, // subq_mi_sxb
    None, // subq_mr
    None, // subq_rm
    None, // xorb_i
    None, // xorb_mi
    None, // xorb_mr
    None, // xorb_rm
    None, // xorw_i
    None, // xorw_mi
    None, // xorw_mr
    None, // xorw_rm
    None, // xorl_i
    None, // xorl_mi
    None, // xorl_mi_sxb
    None, // xorl_mr
    None, // xorl_rm
    None, // xorq_mi_sxl
    None, // xorq_mi_sxb
    None, // xorq_mr
    None, // xorq_rm
    None, // cmpb_i
    None, // cmpb_mi
    None, // cmpb_mr
    None, // cmpb_rm
    None, // cmpw_i
    None, // cmpw_mi
    None, // cmpw_mr
    None, // cmpw_rm
    None, // cmpl_i
    None, // cmpl_mi
    None, // cmpl_mi_sxb
    None, // cmpl_mr
    None, // cmpl_rm
    None, // cmpq_mi_sxl
    None, // cmpq_mi_sxb
    None, // cmpq_mr
    None, // cmpq_rm
    None, // testb_i
    None, // testb_mi
    None, // testb_mr
    None, // testw_i
    None, // testw_mi
    None, // testw_mr
    None, // testl_i
    None, // testl_mi
    None, // testl_mr
    None, // testq_mi_sxl
    None, // testq_mr
    None, // movb_mr
    None, // movb_rm
    None, // movb_mi
    None, // movw_mr
    None, // movw_rm
    None, // movw_mi
    None, // movl_mr
    None, // movl_rm
    None, // movl_mi
    None, // movq_mr
    None, // movq_rm
    None, // movq_mi_sxl
    None, // movsbw_rm
    None, // movsbl_rm
    None, // movsbq_rm
    None, // movswl_rm
    None, // movswq_rm
    None, // movslq_rm
    None, // movzbw_rm
    None, // movzbl_rm
    None, // movzbq_rm
    None, // movzwl_rm
    None, // movzwq_rm
    None, // leaw_rm
    None, // leal_rm
    None, // leaq_rm
    None, // mulb_m
    None, // mulw_m
    None, // mull_m
    None, // mulq_m
    None, // imulb_m
    None, // imulw_m
    None, // imull_m
    None, // imulq_m
    None, // imulw_rm
    None, // imulw_rmi_sxb
    None, // imulw_rmi
    None, // imull_rm
    None, // imull_rmi_sxb
    None, // imull_rmi
    None, // imulq_rm
    None, // imulq_rmi_sxb
    None, // imulq_rmi_sxl
    None, // divb_m
    None, // divw_m
    None, // divl_m
    None, // divq_m
    None, // idivb_m
    None, // idivw_m
    None, // idivl_m
    None, // idivq_m
    None, // notb_m
    None, // notw_m
    None, // notl_m
    None, // notq_m
    None, // negb_m
    None, // negw_m
    None, // negl_m
    None, // negq_m
    None, // cbtw_zo
    None, // cwtl_zo
    None, // cwtd_zo
    None, // cltd_zo
    None, // rolb_mc
    None, // rolb_mi
    None, // rolw_mc
    None, // rolw_mi
    None, // roll_mc
    None, // roll_mi
    None, // rolq_mc
    None, // rolq_mi
    None, // rorb_mc
    None, // rorb_mi
    None, // rorw_mc
    None, // rorw_mi
    None, // rorl_mc
    None, // rorl_mi
    None, // rorq_mc
    None, // rorq_mi
    None, // shlb_mc
    None, // shlb_mi
    None, // shlw_mc
    None, // shlw_mi
    None, // shll_mc
    None, // shll_mi
    None, // shlq_mc
    None, // shlq_mi
    None, // shrb_mc
    None, // shrb_mi
    None, // shrw_mc
    None, // shrw_mi
    None, // shrl_mc
    None, // shrl_mi
    None, // shrq_mc
    None, // shrq_mi
    None, // sarb_mc
    None, // sarb_mi
    None, // sarw_mc
    None, // sarw_mi
    None, // sarl_mc
    None, // sarl_mi
    None, // sarq_mc
    None, // sarq_mi
    None, // shldw_mri
    None, // shldw_mrc
    None, // shldl_mri
    None, // shldl_mrc
    None, // shldq_mri
    None, // shldq_mrc
    None, // seto_m
    None, // setno_m
    None, // setb_m
    None, // setae_m
    None, // sete_m
    None, // setne_m
    None, // setbe_m
    None, // seta_m
    None, // sets_m
    None, // setns_m
    None, // setp_m
    None, // setnp_m
    None, // setl_m
    None, // setge_m
    None, // setle_m
    None, // setg_m
    None, // cmovow_rm
    None, // cmovol_rm
    None, // cmovoq_rm
    None, // cmovnow_rm
    None, // cmovnol_rm
    None, // cmovnoq_rm
    None, // cmovbw_rm
    None, // cmovbl_rm
    None, // cmovbq_rm
    None, // cmovaew_rm
    None, // cmovael_rm
    None, // cmovaeq_rm
    None, // cmovew_rm
    None, // cmovel_rm
    None, // cmoveq_rm
    None, // cmovnew_rm
    None, // cmovnel_rm
    None, // cmovneq_rm
    None, // cmovbew_rm
    None, // cmovbel_rm
    None, // cmovbeq_rm
    None, // cmovaw_rm
    None, // cmoval_rm
    None, // cmovaq_rm
    None, // cmovsw_rm
    None, // cmovsl_rm
    None, // cmovsq_rm
    None, // cmovnsw_rm
    None, // cmovnsl_rm
    None, // cmovnsq_rm
    None, // cmovpw_rm
    None, // cmovpl_rm
    None, // cmovpq_rm
    None, // cmovnpw_rm
    None, // cmovnpl_rm
    None, // cmovnpq_rm
    None, // cmovlw_rm
    None, // cmovll_rm
    None, // cmovlq_rm
    None, // cmovgew_rm
    None, // cmovgel_rm
    None, // cmovgeq_rm
    None, // cmovlew_rm
    None, // cmovlel_rm
    None, // cmovleq_rm
    None, // cmovgw_rm
    None, // cmovgl_rm
    None, // cmovgq_rm
    None, // pushw_m
    None, // pushq_m
    None, // pushq_i8
    None, // pushw_i16
    None, // pushq_i32
    None, // popw_m
    None, // popq_m
    None, // retq_zo
    None, // retq_i
    None, // leaveq_zo
    None, // ud2_zo
    None, // int3_zo
    None, // hlt_zo
    None, // bsfw_rm
    None, // bsrw_rm
    None, // bsfl_rm
    None, // bsrl_rm
    None, // bsfq_rm
    None, // bsrq_rm
    Some(Extension::Bmi1), // tzcntw_rm
    Some(Extension::Lzcnt), // lzcntw_rm
    Some(Extension::Popcnt), // popcntw_rm
    Some(Extension::Bmi1), // tzcntl_rm
    Some(Extension::Lzcnt), // lzcntl_rm
    Some(Extension::Popcnt), // popcntl_rm
    Some(Extension::Bmi1), // tzcntq_rm
    Some(Extension::Lzcnt), // lzcntq_rm
    Some(Extension::Popcnt), // popcntq_rm
    None, // btw_mr
    None, // btw_mi
    None, // btl_mr
    None, // btl_mi
    None, // btq_mr
    None, // btq_mi
    None, // xaddb_mr
    None, // cmpxchgb_mr
    None, // xaddw_mr
    None, // cmpxchgw_mr
    None, // xaddl_mr
    None, // cmpxchgl_mr
    None, // xaddq_mr
    None, // cmpxchgq_mr
    Some(Extension::Cmpxchg16b), // cmpxchg16b_m
    Some(Extension::Sse), // addss_a
    Some(Extension::Sse2), // addsd_a
    Some(Extension::Sse), // mulss_a
    Some(Extension::Sse2), // mulsd_a
    Some(Extension::Sse), // subss_a
    Some(Extension::Sse2), // subsd_a
    Some(Extension::Sse), // minss_a
    Some(Extension::Sse2), // minsd_a
    Some(Extension::Sse), // divss_a
    Some(Extension::Sse2), // divsd_a
    Some(Extension::Sse), // maxss_a
    Some(Extension::Sse2), // maxsd_a
    Some(Extension::Sse), // sqrtss_a
    Some(Extension::Sse2), // sqrtsd_a
    Some(Extension::Sse), // ucomiss_a
    Some(Extension::Sse2), // ucomisd_a
    Some(Extension::Sse2), // andpd_a
    Some(Extension::Sse), // andnps_a
    Some(Extension::Sse2), // andnpd_a
    Some(Extension::Sse), // orps_a
    Some(Extension::Sse2), // orpd_a
    Some(Extension::Sse), // xorps_a
    Some(Extension::Sse2), // xorpd_a
    Some(Extension::Sse2), // pxor_a
    Some(Extension::Sse), // movss_a_m
    Some(Extension::Sse), // movss_c_m
    Some(Extension::Sse2), // movsd_a_m
    Some(Extension::Sse2), // movsd_c_m
    Some(Extension::Sse), // movaps_a
    Some(Extension::Sse), // movaps_b
    Some(Extension::Sse2), // movapd_a
    Some(Extension::Sse2), // movapd_b
    Some(Extension::Sse), // movups_a
    Some(Extension::Sse), // movups_b
    Some(Extension::Sse2), // movupd_a
    Some(Extension::Sse2), // movupd_b
    Some(Extension::Sse2), // movdqa_a
    Some(Extension::Sse2), // movdqa_b
    Some(Extension::Sse2), // movdqu_a
    Some(Extension::Sse2), // movdqu_b
    Some(Extension::Sse2), // movd_a
    Some(Extension::Sse2), // movq_a
    Some(Extension::Sse2), // movd_b
    Some(Extension::Sse2), // movq_b
    Some(Extension::Sse), // cvtsi2ssl_a
    Some(Extension::Sse), // cvtss2sil_a
    Some(Extension::Sse), // cvttss2sil_a
    Some(Extension::Sse), // cvtsi2ssq_a
    Some(Extension::Sse), // cvtss2siq_a
    Some(Extension::Sse), // cvttss2siq_a
    Some(Extension::Sse2), // cvtsi2sdl_a
    Some(Extension::Sse2), // cvtsd2sil_a
    Some(Extension::Sse2), // cvttsd2sil_a
    Some(Extension::Sse2), // cvtsi2sdq_a
    Some(Extension::Sse2), // cvtsd2siq_a
    Some(Extension::Sse2), // cvttsd2siq_a
    Some(Extension::Sse2), // cvtss2sd_a
    Some(Extension::Sse2), // cvtsd2ss_a
    Some(Extension::Sse2), // cvtps2pd_a
    Some(Extension::Sse2), // cvtpd2ps_a
    Some(Extension::Sse2), // cvtdq2ps_a
    Some(Extension::Sse2), // cvttps2dq_a
    Some(Extension::Sse2), // cvtdq2pd_a
    Some(Extension::Sse2), // cvttpd2dq_a
];
// table/write.py: end

impl Op {
    /// The extension that it asks for, if it asks for one.
    pub fn extension(self) -> Option<Extension>
        ensures { result ≡ extension_of self.number }
    {
        EXTENSIONS[usize::from(self.number)]
    }

    /// Whether it can be used where there are these extensions: it asks for none, or for one of them.
    pub fn is_available(self, extensions: &Extensions) -> bool
        ensures { result ≡ is_available_in extensions.now (extension_of self.number) }
    {
        match self.extension() {
            None => true,
            Some(extension) => extensions.has(extension),
        }
    }
}
