//! Mnemonics.

ghost use Rattle.std.specs.Prelude.{◌≡◌, ◌<◌, [], length, map, slice_index_or};
ghost use Rattle.x64_lines.specs.declared.lines.TheConstants.{COUNT};
ghost use Rattle.x64_text.specs.Text.{mnemonic_of};

/// Of the rows, and of the lines of `table/core.txt` behind them, each named beside its mnemonic.
// table/write.py: mnemonics
static MNEMONICS: [&str; 584] = [
    "lock addb", // lock_addb_mi
    "lock addw", // lock_addw_mi
    "lock addl", // lock_addl_mi
    "lock addq", // lock_addq_mi_sxl
    "lock addl", // lock_addl_mi_sxb
    "lock addq", // lock_addq_mi_sxb
    "lock addb", // lock_addb_mr
    "lock addw", // lock_addw_mr
    "lock addl", // lock_addl_mr
    "lock addq", // lock_addq_mr
    "lock orb", // lock_orb_mi
    "lock orw", // lock_orw_mi
    "lock orl", // lock_orl_mi
    "lock orq", // lock_orq_mi_sxl
    "lock orl", // lock_orl_mi_sxb
    "lock orq", // lock_orq_mi_sxb
    "lock orb", // lock_orb_mr
    "lock orw", // lock_orw_mr
    "lock orl", // lock_orl_mr
    "lock orq", // lock_orq_mr
    "lock adcb", // lock_adcb_mi
    "lock adcw", // lock_adcw_mi
    "lock adcl", // lock_adcl_mi
    "lock adcq", // lock_adcq_mi_sxl
    "lock adcl", // lock_adcl_mi_sxb
    "lock adcq", // lock_adcq_mi_sxb
    "lock adcb", // lock_adcb_mr
    "lock adcw", // lock_adcw_mr
    "lock adcl", // lock_adcl_mr
    "lock adcq", // lock_adcq_mr
    "lock sbbb", // lock_sbbb_mi
    "lock sbbw", // lock_sbbw_mi
    "lock sbbl", // lock_sbbl_mi
    "lock sbbq", // lock_sbbq_mi_sxl
    "lock sbbl", // lock_sbbl_mi_sxb
    "lock sbbq", // lock_sbbq_mi_sxb
    "lock sbbb", // lock_sbbb_mr
    "lock sbbw", // lock_sbbw_mr
    "lock sbbl", // lock_sbbl_mr
    "lock sbbq", // lock_sbbq_mr
    "lock andb", // lock_andb_mi
    "lock andw", // lock_andw_mi
    "lock andl", // lock_andl_mi
    "lock andq", // lock_andq_mi_sxl
    "lock andl", // lock_andl_mi_sxb
    "lock andq", // lock_andq_mi_sxb
    "lock andb", // lock_andb_mr
    "lock andw", // lock_andw_mr
    "lock andl", // lock_andl_mr
    "lock andq", // lock_andq_mr
    "lock subb", // lock_subb_mi
    "lock subw", // lock_subw_mi
    "lock subl", // lock_subl_mi
    "lock subq", // lock_subq_mi_sxl
    "lock subl", // lock_subl_mi_sxb
    "lock subq", // lock_subq_mi_sxb
    "lock subb", // lock_subb_mr
    "lock subw", // lock_subw_mr
    "lock subl", // lock_subl_mr
    "lock subq", // lock_subq_mr
    "lock xorb", // lock_xorb_mi
    "lock xorw", // lock_xorw_mi
    "lock xorl", // lock_xorl_mi
    "lock xorq", // lock_xorq_mi_sxl
    "lock xorl", // lock_xorl_mi_sxb
    "lock xorq", // lock_xorq_mi_sxb
    "lock xorb", // lock_xorb_mr
    "lock xorw", // lock_xorw_mr
    "lock xorl", // lock_xorl_mr
    "lock xorq", // lock_xorq_mr
    "lock xaddb", // lock_xaddb_mr
    "lock xaddw", // lock_xaddw_mr
    "lock xaddl", // lock_xaddl_mr
    "lock xaddq", // lock_xaddq_mr
    "lock cmpxchgb", // lock_cmpxchgb_mr
    "lock cmpxchgw", // lock_cmpxchgw_mr
    "lock cmpxchgl", // lock_cmpxchgl_mr
    "lock cmpxchgq", // lock_cmpxchgq_mr
    "lock cmpxchg16b", // lock_cmpxchg16b_m
    "xchgb", // xchgb_rm
    "xchgw", // xchgw_rm
    "xchgl", // xchgl_rm
    "xchgq", // xchgq_rm
    "rolb", // rolb_m1
    "rolw", // rolw_m1
    "roll", // roll_m1
    "rolq", // rolq_m1
    "rorb", // rorb_m1
    "rorw", // rorw_m1
    "rorl", // rorl_m1
    "rorq", // rorq_m1
    "shlb", // shlb_m1
    "shlw", // shlw_m1
    "shll", // shll_m1
    "shlq", // shlq_m1
    "shrb", // shrb_m1
    "shrw", // shrw_m1
    "shrl", // shrl_m1
    "shrq", // shrq_m1
    "sarb", // sarb_m1
    "sarw", // sarw_m1
    "sarl", // sarl_m1
    "sarq", // sarq_m1
    "callq", // callq_m
    "jmpq", // jmpq_m
    "andps", // andps_a
    "cmpps", // cmpps_a
    "cmppd", // cmppd_a
    "cmpss", // cmpss_a
    "cmpsd", // cmpsd_a
    "andb", // andb_i
    "callq", // callq_d
    "jmp", // jmp_d8
    "jmp", // jmp_d32
    "jo", // jo_d8
    "jno", // jno_d8
    "jb", // jb_d8
    "jae", // jae_d8
    "je", // je_d8
    "jne", // jne_d8
    "jbe", // jbe_d8
    "ja", // ja_d8
    "js", // js_d8
    "jns", // jns_d8
    "jp", // jp_d8
    "jnp", // jnp_d8
    "jl", // jl_d8
    "jge", // jge_d8
    "jle", // jle_d8
    "jg", // jg_d8
    "jo", // jo_d32
    "jno", // jno_d32
    "jb", // jb_d32
    "jae", // jae_d32
    "je", // je_d32
    "jne", // jne_d32
    "jbe", // jbe_d32
    "ja", // ja_d32
    "js", // js_d32
    "jns", // jns_d32
    "jp", // jp_d32
    "jnp", // jnp_d32
    "jl", // jl_d32
    "jge", // jge_d32
    "jle", // jle_d32
    "jg", // jg_d32
    "vcmpps", // vcmpps_b
    "vcmppd", // vcmppd_b
    "vcmpss", // vcmpss_b
    "vcmpsd", // vcmpsd_b
    "vcvtpd2ps", // vcvtpd2ps_a
    "vcvttpd2dq", // vcvttpd2dq_a
    "mulxl", // mulxl_rvm
    "mulxq", // mulxq_rvm
    "nop", // nop_1b
    "nop", // nop_2b
    "nopl", // nopl_rm
    "nopw", // nopw_rm
    "addb", // addb_i
    "addb", // addb_mi
    "addb", // addb_mr
    "addb", // addb_rm
    "addw", // addw_i
    "addw", // addw_mi
    "addw", // addw_mr
    "addw", // addw_rm
    "addl", // addl_i
    "addl", // addl_mi
    "addl", // addl_mi_sxb
    "addl", // addl_mr
    "addl", // addl_rm
    "addq", // addq_mi_sxl
    "addq", // addq_mi_sxb
    "addq", // addq_mr
    "addq", // addq_rm
    "orb", // orb_i
    "orb", // orb_mi
    "orb", // orb_mr
    "orb", // orb_rm
    "orw", // orw_i
    "orw", // orw_mi
    "orw", // orw_mr
    "orw", // orw_rm
    "orl", // orl_i
    "orl", // orl_mi
    "orl", // orl_mi_sxb
    "orl", // orl_mr
    "orl", // orl_rm
    "orq", // orq_mi_sxl
    "orq", // orq_mi_sxb
    "orq", // orq_mr
    "orq", // orq_rm
    "adcb", // adcb_i
    "adcb", // adcb_mi
    "adcb", // adcb_mr
    "adcb", // adcb_rm
    "adcw", // adcw_i
    "adcw", // adcw_mi
    "adcw", // adcw_mr
    "adcw", // adcw_rm
    "adcl", // adcl_i
    "adcl", // adcl_mi
    "adcl", // adcl_mi_sxb
    "adcl", // adcl_mr
    "adcl", // adcl_rm
    "adcq", // adcq_mi_sxl
    "adcq", // adcq_mi_sxb
    "adcq", // adcq_mr
    "adcq", // adcq_rm
    "sbbb", // sbbb_i
    "sbbb", // sbbb_mi
    "sbbb", // sbbb_mr
    "sbbb", // sbbb_rm
    "sbbw", // sbbw_i
    "sbbw", // sbbw_mi
    "sbbw", // sbbw_mr
    "sbbw", // sbbw_rm
    "sbbl", // sbbl_i
    "sbbl", // sbbl_mi
    "sbbl", // sbbl_mi_sxb
    "sbbl", // sbbl_mr
    "sbbl", // sbbl_rm
    "sbbq", // sbbq_mi_sxl
    "sbbq", // sbbq_mi_sxb
    "sbbq", // sbbq_mr
    "sbbq", // sbbq_rm
    "andb", // andb_mi
    "andb", // andb_mr
    "andb", // andb_rm
    "andw", // andw_i
    "andw", // andw_mi
    "andw", // andw_mr
    "andw", // andw_rm
    "andl", // andl_i
    "andl", // andl_mi
    "andl", // andl_mi_sxb
    "andl", // andl_mr
    "andl", // andl_rm
    "andq", // andq_mi_sxl
    "andq", // andq_mi_sxb
    "andq", // andq_mr
    "andq", // andq_rm
    "subb", // subb_i
    "subb", // subb_mi
    "subb", // subb_mr
    "subb", // subb_rm
    "subw", // subw_i
    "subw", // subw_mi
    "subw", // subw_mr
    "subw", // subw_rm
    "subl", // subl_i
    "subl", // subl_mi
    "subl", // subl_mi_sxb
    "subl", // subl_mr
    "subl", // subl_rm
    "subq", // subq_mi_sxl
    "subq", // subq_mi_sxb
    "subq", // subq_mr
    "subq", // subq_rm
    "xorb", // xorb_i
    "xorb", // xorb_mi
    "xorb", // xorb_mr
    "xorb", // xorb_rm
    "xorw", // xorw_i
    "xorw", // xorw_mi
    "xorw", // xorw_mr
    "xorw", // xorw_rm
    "xorl", // xorl_i
    "xorl", // xorl_mi
    "xorl", // xorl_mi_sxb
    "xorl", // xorl_mr
    "xorl", // xorl_rm
    "xorq", // xorq_mi_sxl
    "xorq", // xorq_mi_sxb
    "xorq", // xorq_mr
    "xorq", // xorq_rm
    "cmpb", // cmpb_i
    "cmpb", // cmpb_mi
    "cmpb", // cmpb_mr
    "cmpb", // cmpb_rm
    "cmpw", // cmpw_i
    "cmpw", // cmpw_mi
    "cmpw", // cmpw_mr
    "cmpw", // cmpw_rm
    "cmpl", // cmpl_i
    "cmpl", // cmpl_mi
    "cmpl", // cmpl_mi_sxb
    "cmpl", // cmpl_mr
    "cmpl", // cmpl_rm
    "cmpq", // cmpq_mi_sxl
    "cmpq", // cmpq_mi_sxb
    "cmpq", // cmpq_mr
    "cmpq", // cmpq_rm
    "testb", // testb_i
    "testb", // testb_mi
    "testb", // testb_mr
    "testw", // testw_i
    "testw", // testw_mi
    "testw", // testw_mr
    "testl", // testl_i
    "testl", // testl_mi
    "testl", // testl_mr
    "testq", // testq_mi_sxl
    "testq", // testq_mr
    "movb", // movb_mr
    "movb", // movb_rm
    "movb", // movb_mi
    "movw", // movw_mr
    "movw", // movw_rm
    "movw", // movw_mi
    "movl", // movl_mr
    "movl", // movl_rm
    "movl", // movl_mi
    "movq", // movq_mr
    "movq", // movq_rm
    "movq", // movq_mi_sxl
    "movsbw", // movsbw_rm
    "movsbl", // movsbl_rm
    "movsbq", // movsbq_rm
    "movswl", // movswl_rm
    "movswq", // movswq_rm
    "movslq", // movslq_rm
    "movzbw", // movzbw_rm
    "movzbl", // movzbl_rm
    "movzbq", // movzbq_rm
    "movzwl", // movzwl_rm
    "movzwq", // movzwq_rm
    "leaw", // leaw_rm
    "leal", // leal_rm
    "leaq", // leaq_rm
    "mulb", // mulb_m
    "mulw", // mulw_m
    "mull", // mull_m
    "mulq", // mulq_m
    "imulb", // imulb_m
    "imulw", // imulw_m
    "imull", // imull_m
    "imulq", // imulq_m
    "imulw", // imulw_rm
    "imulw", // imulw_rmi_sxb
    "imulw", // imulw_rmi
    "imull", // imull_rm
    "imull", // imull_rmi_sxb
    "imull", // imull_rmi
    "imulq", // imulq_rm
    "imulq", // imulq_rmi_sxb
    "imulq", // imulq_rmi_sxl
    "divb", // divb_m
    "divw", // divw_m
    "divl", // divl_m
    "divq", // divq_m
    "idivb", // idivb_m
    "idivw", // idivw_m
    "idivl", // idivl_m
    "idivq", // idivq_m
    "notb", // notb_m
    "notw", // notw_m
    "notl", // notl_m
    "notq", // notq_m
    "negb", // negb_m
    "negw", // negw_m
    "negl", // negl_m
    "negq", // negq_m
    "cbtw", // cbtw_zo
    "cwtl", // cwtl_zo
    "cwtd", // cwtd_zo
    "cltd", // cltd_zo
    "rolb", // rolb_mc
    "rolb", // rolb_mi
    "rolw", // rolw_mc
    "rolw", // rolw_mi
    "roll", // roll_mc
    "roll", // roll_mi
    "rolq", // rolq_mc
    "rolq", // rolq_mi
    "rorb", // rorb_mc
    "rorb", // rorb_mi
    "rorw", // rorw_mc
    "rorw", // rorw_mi
    "rorl", // rorl_mc
    "rorl", // rorl_mi
    "rorq", // rorq_mc
    "rorq", // rorq_mi
    "shlb", // shlb_mc
    "shlb", // shlb_mi
    "shlw", // shlw_mc
    "shlw", // shlw_mi
    "shll", // shll_mc
    "shll", // shll_mi
    "shlq", // shlq_mc
    "shlq", // shlq_mi
    "shrb", // shrb_mc
    "shrb", // shrb_mi
    "shrw", // shrw_mc
    "shrw", // shrw_mi
    "shrl", // shrl_mc
    "shrl", // shrl_mi
    "shrq", // shrq_mc
    "shrq", // shrq_mi
    "sarb", // sarb_mc
    "sarb", // sarb_mi
    "sarw", // sarw_mc
    "sarw", // sarw_mi
    "sarl", // sarl_mc
    "sarl", // sarl_mi
    "sarq", // sarq_mc
    "sarq", // sarq_mi
    "shldw", // shldw_mri
    "shldw", // shldw_mrc
    "shldl", // shldl_mri
    "shldl", // shldl_mrc
    "shldq", // shldq_mri
    "shldq", // shldq_mrc
    "seto", // seto_m
    "setno", // setno_m
    "setb", // setb_m
    "setae", // setae_m
    "sete", // sete_m
    "setne", // setne_m
    "setbe", // setbe_m
    "seta", // seta_m
    "sets", // sets_m
    "setns", // setns_m
    "setp", // setp_m
    "setnp", // setnp_m
    "setl", // setl_m
    "setge", // setge_m
    "setle", // setle_m
    "setg", // setg_m
    "cmovow", // cmovow_rm
    "cmovol", // cmovol_rm
    "cmovoq", // cmovoq_rm
    "cmovnow", // cmovnow_rm
    "cmovnol", // cmovnol_rm
    "cmovnoq", // cmovnoq_rm
    "cmovbw", // cmovbw_rm
    "cmovbl", // cmovbl_rm
    "cmovbq", // cmovbq_rm
    "cmovaew", // cmovaew_rm
    "cmovael", // cmovael_rm
    "cmovaeq", // cmovaeq_rm
    "cmovew", // cmovew_rm
    "cmovel", // cmovel_rm
    "cmoveq", // cmoveq_rm
    "cmovnew", // cmovnew_rm
    "cmovnel", // cmovnel_rm
    "cmovneq", // cmovneq_rm
    "cmovbew", // cmovbew_rm
    "cmovbel", // cmovbel_rm
    "cmovbeq", // cmovbeq_rm
    "cmovaw", // cmovaw_rm
    "cmoval", // cmoval_rm
    "cmovaq", // cmovaq_rm
    "cmovsw", // cmovsw_rm
    "cmovsl", // cmovsl_rm
    "cmovsq", // cmovsq_rm
    "cmovnsw", // cmovnsw_rm
    "cmovnsl", // cmovnsl_rm
    "cmovnsq", // cmovnsq_rm
    "cmovpw", // cmovpw_rm
    "cmovpl", // cmovpl_rm
    "cmovpq", // cmovpq_rm
    "cmovnpw", // cmovnpw_rm
    "cmovnpl", // cmovnpl_rm
    "cmovnpq", // cmovnpq_rm
    "cmovlw", // cmovlw_rm
    "cmovll", // cmovll_rm
    "cmovlq", // cmovlq_rm
    "cmovgew", // cmovgew_rm
    "cmovgel", // cmovgel_rm
    "cmovgeq", // cmovgeq_rm
    "cmovlew", // cmovlew_rm
    "cmovlel", // cmovlel_rm
    "cmovleq", // cmovleq_rm
    "cmovgw", // cmovgw_rm
    "cmovgl", // cmovgl_rm
    "cmovgq", // cmovgq_rm
    "pushw", // pushw_m
    "pushq", // pushq_m
    "pushq", // pushq_i8
    "pushw", // pushw_i16
    "pushq", // pushq_i32
    "popw", // popw_m
    "popq", // popq_m
    "retq", // retq_zo
    "retq", // retq_i
    "leaveq", // leaveq_zo
    "ud2", // ud2_zo
    "int3", // int3_zo
    "hlt", // hlt_zo
    "bsfw", // bsfw_rm
    "bsrw", // bsrw_rm
    "bsfl", // bsfl_rm
    "bsrl", // bsrl_rm
    "bsfq", // bsfq_rm
    "bsrq", // bsrq_rm
    "tzcntw", // tzcntw_rm
    "lzcntw", // lzcntw_rm
    "popcntw", // popcntw_rm
    "tzcntl", // tzcntl_rm
    "lzcntl", // lzcntl_rm
    "popcntl", // popcntl_rm
    "tzcntq", // tzcntq_rm
    "lzcntq", // lzcntq_rm
    "popcntq", // popcntq_rm
    "btw", // btw_mr
    "btw", // btw_mi
    "btl", // btl_mr
    "btl", // btl_mi
    "btq", // btq_mr
    "btq", // btq_mi
    "xaddb", // xaddb_mr
    "cmpxchgb", // cmpxchgb_mr
    "xaddw", // xaddw_mr
    "cmpxchgw", // cmpxchgw_mr
    "xaddl", // xaddl_mr
    "cmpxchgl", // cmpxchgl_mr
    "xaddq", // xaddq_mr
    "cmpxchgq", // cmpxchgq_mr
    "cmpxchg16b", // cmpxchg16b_m
    "addss", // addss_a
    "addsd", // addsd_a
    "mulss", // mulss_a
    "mulsd", // mulsd_a
    "subss", // subss_a
    "subsd", // subsd_a
    "minss", // minss_a
    "minsd", // minsd_a
    "divss", // divss_a
    "divsd", // divsd_a
    "maxss", // maxss_a
    "maxsd", // maxsd_a
    "sqrtss", // sqrtss_a
    "sqrtsd", // sqrtsd_a
    "ucomiss", // ucomiss_a
    "ucomisd", // ucomisd_a
    "andpd", // andpd_a
    "andnps", // andnps_a
    "andnpd", // andnpd_a
    "orps", // orps_a
    "orpd", // orpd_a
    "xorps", // xorps_a
    "xorpd", // xorpd_a
    "pxor", // pxor_a
    "movss", // movss_a_m
    "movss", // movss_c_m
    "movsd", // movsd_a_m
    "movsd", // movsd_c_m
    "movaps", // movaps_a
    "movaps", // movaps_b
    "movapd", // movapd_a
    "movapd", // movapd_b
    "movups", // movups_a
    "movups", // movups_b
    "movupd", // movupd_a
    "movupd", // movupd_b
    "movdqa", // movdqa_a
    "movdqa", // movdqa_b
    "movdqu", // movdqu_a
    "movdqu", // movdqu_b
    "movd", // movd_a
    "movq", // movq_a
    "movd", // movd_b
    "movq", // movq_b
    "cvtsi2ssl", // cvtsi2ssl_a
    "cvtss2sil", // cvtss2sil_a
    "cvttss2sil", // cvttss2sil_a
    "cvtsi2ssq", // cvtsi2ssq_a
    "cvtss2siq", // cvtss2siq_a
    "cvttss2siq", // cvttss2siq_a
    "cvtsi2sdl", // cvtsi2sdl_a
    "cvtsd2sil", // cvtsd2sil_a
    "cvttsd2sil", // cvttsd2sil_a
    "cvtsi2sdq", // cvtsi2sdq_a
    "cvtsd2siq", // cvtsd2siq_a
    "cvttsd2siq", // cvttsd2siq_a
    "cvtss2sd", // cvtss2sd_a
    "cvtsd2ss", // cvtsd2ss_a
    "cvtps2pd", // cvtps2pd_a
    "cvtpd2ps", // cvtpd2ps_a
    "cvtdq2ps", // cvtdq2ps_a
    "cvttps2dq", // cvttps2dq_a
    "cvtdq2pd", // cvtdq2pd_a
    "cvttpd2dq", // cvttpd2dq_a
];
// table/write.py: end

/// One of these texts.
fn text_at(texts: &[&'static str], number: u16) -> &'static str
    requires { number < length texts.now }
    ensures { result.now ≡ slice_index_or (map (λ t. t.now) texts.now) number [] }
{
    texts[usize::from(number)]
}

/// The mnemonic of a line.
#[tactic(auto, unfolding(crate::specs::Mnemonics::mnemonics))]
pub(crate) fn mnemonic(number: u16) -> &'static str
    requires { number < COUNT }
    ensures { result.now ≡ mnemonic_of number }
{
    text_at(&MNEMONICS, number)
}
