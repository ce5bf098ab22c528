//! Bytes of single instructions, each by hand. Operands in the manual's order: what is written first.

use crate::words::{at, has_bytes, indexed};
use cax64_address::amode::{Amode, Scale};
use cax64_sink::{DeferredTarget, Label, Notice, Recorder};
use x64_core::ops::arithmetic::{ADDQ_MI_SXB, CMPQ_RM, SUBQ_MI_SXL, TESTL_MR};
use x64_core::ops::bits::POPCNTL_RM;
use x64_core::ops::conditions::{CMOVGQ_RM, SETL_M};
use x64_core::ops::control::{PUSHQ_M, RETQ_ZO};
use x64_core::ops::moves::{
    LEAQ_RM, MOVB_MR, MOVL_MI, MOVL_RM, MOVQ_MR, MOVQ_RM, MOVSLQ_RM, MOVZBL_RM,
};
use x64_core::ops::multiplication::{IDIVQ_M, IMULL_RMI, IMULQ_RM};
use x64_core::ops::scalar::{ADDSD_A, CVTSI2SDQ_A, MOVSD_C_M};
use x64_core::ops::shifts::{SARL_MI, SHLQ_MC};

/// `movq rax, rdi`; `movl r8d, [rsp]`, whose base needs a SIB byte; `movq [rbp], r13`, whose base needs a displacement; `movb
/// [rdi], sil`, whose register needs a REX byte.
#[test]
fn moves(rt: HostRuntime) {
    assert!(rt; has_bytes(&MOVQ_RM.regs(0, 7), &[0x48, 0x8B, 0xC7]));
    assert!(rt; has_bytes(&MOVL_RM.mem(8, at(4, 0)), &[0x44, 0x8B, 0x04, 0x24]));
    assert!(rt; has_bytes(&MOVQ_MR.mem(13, at(5, 0)), &[0x4C, 0x89, 0x6D, 0x00]));
    assert!(rt; has_bytes(&MOVB_MR.mem(6, at(7, 0)), &[0x40, 0x88, 0x37]));
}

/// `leaq rax, [rdi + 8*rsi - 128]`; `movzbl eax, byte [r12]`; `movslq r9, r10d`; `movl dword [rax + 4], 7`.
#[test]
fn addresses_and_extensions(rt: HostRuntime) {
    let address = indexed(7, 6, Scale::Eight, -128);
    assert!(rt; has_bytes(&LEAQ_RM.mem(0, address), &[0x48, 0x8D, 0x44, 0xF7, 0x80]));
    assert!(rt;
        has_bytes(
            &MOVZBL_RM.mem(0, at(12, 0)),
            &[0x41, 0x0F, 0xB6, 0x04, 0x24]
        )
    );
    assert!(rt; has_bytes(&MOVSLQ_RM.regs(9, 10), &[0x4D, 0x63, 0xCA]));
    assert!(rt;
        has_bytes(
            &MOVL_MI.mem(at(0, 4), 7),
            &[0xC7, 0x40, 0x04, 0x07, 0, 0, 0]
        )
    );
}

/// `addq rax, 1`; `subq rsp, 4096`; `cmpq rdi, rsi`; `testl eax, eax`.
#[test]
fn arithmetic(rt: HostRuntime) {
    assert!(rt; has_bytes(&ADDQ_MI_SXB.reg(0, 1), &[0x48, 0x83, 0xC0, 0x01]));
    assert!(rt;
        has_bytes(
            &SUBQ_MI_SXL.reg(4, 4096),
            &[0x48, 0x81, 0xEC, 0x00, 0x10, 0x00, 0x00]
        )
    );
    assert!(rt; has_bytes(&CMPQ_RM.regs(7, 6), &[0x48, 0x3B, 0xFE]));
    assert!(rt; has_bytes(&TESTL_MR.regs(0, 0), &[0x85, 0xC0]));
}

/// `imulq rax, rsi`; `imull eax, ecx, 1000`; `idivq rcx`; `shlq rdx, cl`; `sarl r9d, 31`.
#[test]
fn multiplications_and_shifts(rt: HostRuntime) {
    assert!(rt; has_bytes(&IMULQ_RM.regs(0, 6), &[0x48, 0x0F, 0xAF, 0xC6]));
    assert!(rt;
        has_bytes(
            &IMULL_RMI.regs(0, 1, 1000),
            &[0x69, 0xC1, 0xE8, 0x03, 0x00, 0x00]
        )
    );
    assert!(rt; has_bytes(&IDIVQ_M.reg(1), &[0x48, 0xF7, 0xF9]));
    assert!(rt; has_bytes(&SHLQ_MC.reg(2), &[0x48, 0xD3, 0xE2]));
    assert!(rt; has_bytes(&SARL_MI.reg(9, 31), &[0x41, 0xC1, 0xF9, 0x1F]));
}

/// `setl sil`; `cmovgq rax, r15`; `pushq r12`; `retq`.
#[test]
fn conditions_and_control(rt: HostRuntime) {
    assert!(rt; has_bytes(&SETL_M.reg(6), &[0x40, 0x0F, 0x9C, 0xC6]));
    assert!(rt; has_bytes(&CMOVGQ_RM.regs(0, 15), &[0x49, 0x0F, 0x4F, 0xC7]));
    assert!(rt; has_bytes(&PUSHQ_M.reg(12), &[0x41, 0xFF, 0xF4]));
    assert!(rt; has_bytes(&RETQ_ZO.bare(), &[0xC3]));
}

/// `addsd xmm8, [r13 + 2*r14 + 127]`; `cvtsi2sdq xmm0, rdi`; `movsd [rsp + 8], xmm1`.
#[test]
fn scalars(rt: HostRuntime) {
    let address = indexed(13, 14, Scale::Two, 127);
    assert!(rt;
        has_bytes(
            &ADDSD_A.mem(8, address),
            &[0xF2, 0x47, 0x0F, 0x58, 0x44, 0x75, 0x7F]
        )
    );
    assert!(rt; has_bytes(&CVTSI2SDQ_A.regs(0, 7), &[0xF2, 0x48, 0x0F, 0x2A, 0xC7]));
    assert!(rt;
        has_bytes(
            &MOVSD_C_M.mem(1, at(4, 8)),
            &[0xF2, 0x0F, 0x11, 0x4C, 0x24, 0x08]
        )
    );
}

/// `popcntl eax, [rip]` at a label: the displacement is still 0, and the label is told where it begins.
#[test]
fn a_label_is_told(rt: HostRuntime) {
    let target = DeferredTarget::Label(Label(3));
    let core = POPCNTL_RM.mem(0, Amode::RipRelative { target });
    let mut recorder = Recorder::new(rt.alloc());
    assert!(rt; core.notice_count() == 1);
    assert!(rt; core.encode_checked(&mut recorder) == Ok(()));
    assert!(rt; recorder.bytes() == [0xF3, 0x0F, 0xB8, 0x05, 0, 0, 0, 0].as_slice());
    assert!(rt; recorder.notices() == [Notice::Target(4, target)].as_slice());
}
