//! Texts of instructions.

use crate::parts::{Plain, base, gpr, gpr_at, indexed, prints, xmm, xmm_at};
use arith::{andb_i, mulxl_rvm, shlb_m1, xchgw_rm};
use cax64_address::amode::Scale;
use cax64_immediate::{Imm8, Simm8, Simm32};
use cax64_register::{Fixed, Gpr, Xmm};
use cax64_text::InstructionText;
use jump::{callq_m, je_d8, je_d32, jmp_d8, jmp_d32, jmpq_m};
use lock_a::lock_addl_mi_sxb;
use lock_x::{lock_cmpxchg16b_m, lock_xaddl_mr};
use nop::{nop_2b, nop_6b};
use simd::{cmpss_a, vcmpps_b, vcvtpd2ps_a};

#[test]
fn branches_print_their_targets(rt: HostRuntime) {
    let alloc = rt.alloc();
    assert!(rt; prints(alloc, &jmp_d8::new(Simm8::new(-2)), "jmp 0", "jmp 0x0"));
    assert!(rt; prints(alloc, &jmp_d32::new(Simm32::new(-5)), "jmp 0", "jmp 0x0"));
    assert!(rt; prints(alloc, &jmp_d32::new(Simm32::new(5)), "jmp 0xa", "jmp 0xa"));
    assert!(rt; prints(alloc, &je_d8::new(Simm8::new(7)), "je 9", "-"));
    let far = je_d32::new(Simm32::new(-10));
    assert!(rt; prints(alloc, &far, "je 0xfffffffffffffffc", "-"));
}

#[test]
fn calls_jumps_and_shifts_have_texts_of_their_own(rt: HostRuntime) {
    let alloc = rt.alloc();
    let shift = shlb_m1::<Plain>::new(gpr(0));
    assert!(rt; prints(alloc, &shift, "shlb $1, %al", "shl $0x1, %al"));
    let shift = shlb_m1::<Plain>::new(gpr_at(2, 9));
    assert!(rt; prints(alloc, &shift, "shlb 9(%rdx)", "shlb $0x1, 0x9(%rdx)"));
    let jump = jmpq_m::<Plain>::new(gpr(8));
    assert!(rt; prints(alloc, &jump, "jmpq *%r8", "jmp %r8"));
    let jump = jmpq_m::<Plain>::new(gpr_at(5, -129));
    assert!(rt; prints(alloc, &jump, "jmpq *-0x81(%rbp)", "jmpq -0x81(%rbp)"));
    let call = callq_m::<Plain>::new(gpr_at(0, 8));
    assert!(rt; prints(alloc, &call, "callq *8(%rax)", "callq 0x8(%rax)"));
}

#[test]
fn operands_print_in_their_order(rt: HostRuntime) {
    let alloc = rt.alloc();
    let and = andb_i::<Plain>::new(Fixed(0), Imm8::new(0xAA));
    assert!(rt; prints(alloc, &and, "andb $0xaa, %al", "-"));
    let exchange = xchgw_rm::<Plain>::new(Gpr::new(9), indexed(5, 1, Scale::Two, 16));
    let (text, xed) = (
        "xchgw %r9w, 0x10(%rbp, %rcx, 2)",
        "xchgw %r9w, 0x10(%rbp,%rcx,2)",
    );
    assert!(rt; prints(alloc, &exchange, text, xed));
    let add = lock_addl_mi_sxb::<Plain>::new(base(0, 0), Simm8::new(-1));
    assert!(rt; prints(alloc, &add, "lock addl $0xffffffff, (%rax)", "-"));
    let add = lock_xaddl_mr::<Plain>::new(base(2, 9), Gpr::new(4));
    assert!(rt; prints(alloc, &add, "lock xaddl %esp, 9(%rdx)", "-"));
    let product = mulxl_rvm::<Plain>::new(Gpr::new(14), Gpr::new(5), gpr_at(0, -128), Fixed(2));
    assert!(rt; prints(alloc, &product, "mulxl -0x80(%rax), %ebp, %r14d", "-"));
}

#[test]
fn comparisons_name_their_predicates(rt: HostRuntime) {
    let alloc = rt.alloc();
    let named = cmpss_a::<Plain>::new(Xmm::new(1), xmm_at(0, 0), Imm8::new(0));
    assert!(rt;
        prints(
            alloc,
            &named,
            "cmpeqss (%rax), %xmm1",
            "cmpssl $0x0, (%rax), %xmm1"
        )
    );
    let other = cmpss_a::<Plain>::new(Xmm::new(1), xmm_at(0, 0), Imm8::new(8));
    let (text, xed) = ("cmpss $0x8, (%rax), %xmm1", "cmpssl $0x8, (%rax), %xmm1");
    assert!(rt; prints(alloc, &other, text, xed));
    let vex = vcmpps_b::<Plain>::new(Xmm::new(0), Xmm::new(15), xmm(1), Imm8::new(0x1F));
    let (text, xed) = (
        "vcmptrue_usps %xmm1, %xmm15, %xmm0",
        "vcmpps $0x1f, %xmm1, %xmm15, %xmm0",
    );
    assert!(rt; prints(alloc, &vex, text, xed));
}

#[test]
fn conversions_and_nops_have_names_of_their_own(rt: HostRuntime) {
    let alloc = rt.alloc();
    let memory = vcvtpd2ps_a::<Plain>::new(Xmm::new(0), xmm_at(4, 0));
    assert!(rt; prints(alloc, &memory, "vcvtpd2psx (%rsp), %xmm0", "-"));
    assert!(rt; memory.mnemonic() == "vcvtpd2psx");
    let register = vcvtpd2ps_a::<Plain>::new(Xmm::new(0), xmm(4));
    assert!(rt; prints(alloc, &register, "vcvtpd2ps %xmm4, %xmm0", "-"));
    assert!(rt; prints(alloc, &nop_2b::new(), "nop", "data16 nop"));
    assert!(rt;
        prints(
            alloc,
            &nop_6b::new(),
            "nopw (%rax, %rax)",
            "nopw (%rax,%rax,1)"
        )
    );
    assert!(rt; nop_6b::new().mnemonic() == "nop");
    let pair = lock_cmpxchg16b_m::<Plain>::new(base(6, 0), Fixed(0), Fixed(2), Fixed(1), Fixed(99));
    assert!(rt; prints(alloc, &pair, "lock cmpxchg16b (%rsi)", "-"));
    assert!(rt; !jmpq_m::<Plain>::new(gpr(16)).nameable());
}
