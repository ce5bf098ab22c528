//! Texts of single instructions.

use crate::text::words::{at, indexed, prints};
use cax64_address::amode::{Amode, Scale};
use cax64_sink::{DeferredTarget, Label};
use x64_core::ops::arithmetic::{ADDB_I, ADDQ_MI_SXB, CMPQ_RM, SUBQ_MI_SXL, TESTL_MR};
use x64_core::ops::bits::POPCNTL_RM;
use x64_core::ops::conditions::{CMOVGQ_RM, SETL_M};
use x64_core::ops::control::{PUSHQ_I8, PUSHQ_M, RETQ_ZO};
use x64_core::ops::moves::{
    LEAQ_RM, MOVB_MR, MOVL_MI, MOVL_RM, MOVQ_MR, MOVQ_RM, MOVSLQ_RM, MOVZBL_RM,
};
use x64_core::ops::multiplication::{IDIVQ_M, IMULL_RMI, IMULQ_RM, IMULW_RMI_SXB};
use x64_core::ops::rows::{
    CALLQ_M, JGE_D32, JMP_D8, JMPQ_M, LOCK_ADDL_MI_SXB, MULXQ_RVM, VCVTPD2PS_A,
};
use x64_core::ops::scalar::{ADDSD_A, CVTSI2SDQ_A, MOVSD_C_M};
use x64_core::ops::shifts::{SARL_MI, SHLQ_MC};
use x64_text::CoreText;

#[test]
fn moves(rt: HostRuntime) {
    let alloc = rt.alloc();
    assert!(rt; prints(alloc, &MOVQ_RM.regs(0, 7), "movq %rdi, %rax"));
    assert!(rt; prints(alloc, &MOVL_RM.mem(8, at(4, 0)), "movl (%rsp), %r8d"));
    assert!(rt; prints(alloc, &MOVQ_MR.mem(13, at(5, 0)), "movq %r13, (%rbp)"));
    assert!(rt; prints(alloc, &MOVB_MR.mem(6, at(7, 0)), "movb %sil, (%rdi)"));
    let address = indexed(7, 6, Scale::Eight, -128);
    assert!(rt;
        prints(
            alloc,
            &LEAQ_RM.mem(0, address),
            "leaq -0x80(%rdi, %rsi, 8), %rax"
        )
    );
    assert!(rt; prints(alloc, &MOVZBL_RM.mem(0, at(12, 0)), "movzbl (%r12), %eax"));
    assert!(rt; prints(alloc, &MOVSLQ_RM.regs(9, 10), "movslq %r10d, %r9"));
    assert!(rt; prints(alloc, &MOVL_MI.mem(at(0, 4), 7), "movl $0x7, 4(%rax)"));
}

/// Numbers that are signed are extended to the width of the operation.
#[test]
fn arithmetic(rt: HostRuntime) {
    let alloc = rt.alloc();
    assert!(rt; prints(alloc, &ADDQ_MI_SXB.reg(0, 1), "addq $0x1, %rax"));
    assert!(rt;
        prints(
            alloc,
            &ADDQ_MI_SXB.reg(0, -1),
            "addq $0xffffffffffffffff, %rax"
        )
    );
    assert!(rt;
        prints(
            alloc,
            &IMULW_RMI_SXB.regs(0, 1, -2),
            "imulw $0xfffe, %cx, %ax"
        )
    );
    assert!(rt; prints(alloc, &ADDB_I.imm(255), "addb $0xff, %al"));
    assert!(rt; prints(alloc, &SUBQ_MI_SXL.reg(4, 4096), "subq $0x1000, %rsp"));
    assert!(rt; prints(alloc, &CMPQ_RM.regs(7, 6), "cmpq %rsi, %rdi"));
    assert!(rt; prints(alloc, &TESTL_MR.regs(0, 0), "testl %eax, %eax"));
    assert!(rt; prints(alloc, &IMULQ_RM.regs(0, 6), "imulq %rsi, %rax"));
    assert!(rt;
        prints(
            alloc,
            &IMULL_RMI.regs(0, 1, 1000),
            "imull $0x3e8, %ecx, %eax"
        )
    );
    assert!(rt; prints(alloc, &IDIVQ_M.reg(1), "idivq %rcx"));
    assert!(rt; prints(alloc, &SHLQ_MC.reg(2), "shlq %cl, %rdx"));
    assert!(rt; prints(alloc, &SARL_MI.reg(9, 31), "sarl $0x1f, %r9d"));
}

#[test]
fn others(rt: HostRuntime) {
    let alloc = rt.alloc();
    assert!(rt; prints(alloc, &SETL_M.reg(6), "setl %sil"));
    assert!(rt; prints(alloc, &CMOVGQ_RM.regs(0, 15), "cmovgq %r15, %rax"));
    assert!(rt; prints(alloc, &PUSHQ_M.reg(12), "pushq %r12"));
    assert!(rt; prints(alloc, &PUSHQ_I8.imm(-1), "pushq $0xffffffffffffffff"));
    assert!(rt; prints(alloc, &RETQ_ZO.bare(), "retq"));
    let address = indexed(13, 14, Scale::Two, 127);
    assert!(rt;
        prints(
            alloc,
            &ADDSD_A.mem(8, address),
            "addsd 0x7f(%r13, %r14, 2), %xmm8"
        )
    );
    assert!(rt; prints(alloc, &CVTSI2SDQ_A.regs(0, 7), "cvtsi2sdq %rdi, %xmm0"));
    assert!(rt; prints(alloc, &MOVSD_C_M.mem(1, at(4, 8)), "movsd %xmm1, 8(%rsp)"));
    let target = DeferredTarget::Label(Label(3));
    let core = POPCNTL_RM.mem(0, Amode::RipRelative { target });
    assert!(rt; prints(alloc, &core, "popcntl (%rip), %eax"));
}

/// Rows of the assembler: branches tell their targets, and a star stands before an operand that is jumped through.
#[test]
fn rows(rt: HostRuntime) {
    let alloc = rt.alloc();
    assert!(rt; prints(alloc, &JGE_D32.imm(12), "jge 0x12"));
    assert!(rt; prints(alloc, &JMP_D8.imm(7), "jmp 9"));
    assert!(rt; prints(alloc, &JMP_D8.imm(-3), "jmp 0xffffffffffffffff"));
    assert!(rt; prints(alloc, &CALLQ_M.reg(0), "callq *%rax"));
    assert!(rt; prints(alloc, &JMPQ_M.mem(at(0, 8)), "jmpq *8(%rax)"));
    assert!(rt; prints(alloc, &MULXQ_RVM.regs(1, 2, 8), "mulxq %r8, %rdx, %rcx"));
    let locked = LOCK_ADDL_MI_SXB.mem(at(3, 0), -1);
    assert!(rt; prints(alloc, &locked, "lock addl $0xffffffff, (%rbx)"));
    assert!(rt; locked.mnemonic() == "lock addl");
}

/// A conversion shows how much memory it reads.
#[test]
fn conversions(rt: HostRuntime) {
    let alloc = rt.alloc();
    assert!(rt; prints(alloc, &VCVTPD2PS_A.regs(6, 11), "vcvtpd2ps %xmm11, %xmm6"));
    let text = "vcvtpd2psx 0x18(%r12), %xmm6";
    assert!(rt; prints(alloc, &VCVTPD2PS_A.mem(6, at(12, 24)), text));
}

/// A virtual register has no name.
#[test]
fn without_a_text(rt: HostRuntime) {
    let alloc = rt.alloc();
    assert!(rt; prints(alloc, &MOVQ_RM.regs(16, 7), ""));
    assert!(rt; prints(alloc, &MOVQ_RM.mem(0, at(16, 0)), ""));
    assert!(rt; prints(alloc, &MULXQ_RVM.regs(1, 16, 8), ""));
}
