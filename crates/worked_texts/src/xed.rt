//! The structs that have a text as XED prints it answer a String of their own, without an Option.

use crate::parts::{Plain, base, gpr, gpr_at, is, xmm, xmm_at};
use arith::{
    rolb_m1, roll_m1, rolq_m1, rolw_m1, rorb_m1, rorl_m1, rorq_m1, rorw_m1, sarb_m1, sarl_m1,
    sarq_m1, sarw_m1, shlb_m1, shll_m1, shlq_m1, shlw_m1, shrb_m1, shrl_m1, shrq_m1, shrw_m1,
    xchgb_rm, xchgl_rm, xchgq_rm, xchgw_rm,
};
use cax64_immediate::{Imm8, Simm8, Simm32};
use cax64_register::{Gpr, Xmm};
use cax64_text::InstructionText;
use jump::{callq_d, callq_m, jmp_d8, jmp_d32, jmpq_m};
use nop::{nop_1b, nop_2b, nop_3b, nop_4b, nop_5b, nop_6b, nop_7b, nop_8b, nop_9b};
use simd::{cmppd_a, cmpps_a, cmpsd_a, cmpss_a, vcmppd_b, vcmpps_b, vcmpsd_b, vcmpss_b};

/// That the registers of an instruction, which is let go then, have names, and that its text is this.
macro_rules! shows {
    ($rt:expr, $alloc:expr, $inst:expr, $want:expr) => {{
        let inst = $inst;
        assert!($rt; inst.nameable() && is(inst.to_string_xed($alloc), $want));
    }};
}

#[test]
fn exchanges_have_an_xed_text_of_their_own(rt: HostRuntime) {
    let alloc = rt.alloc();
    let inst = xchgb_rm::<Plain>::new(Gpr::new(2), base(0, 9));
    shows!(rt, alloc, inst, "xchgb %dl, 0x9(%rax)");
    let inst = xchgw_rm::<Plain>::new(Gpr::new(2), base(0, 127));
    shows!(rt, alloc, inst, "xchgw %dx, 0x7f(%rax)");
    let inst = xchgl_rm::<Plain>::new(Gpr::new(3), base(0, 127));
    shows!(rt, alloc, inst, "xchgl %ebx, 0x7f(%rax)");
    let inst = xchgq_rm::<Plain>::new(Gpr::new(8), base(0, 9));
    shows!(rt, alloc, inst, "xchgq %r8, 0x9(%rax)");
}

#[test]
fn rotations_have_an_xed_text_of_their_own(rt: HostRuntime) {
    let alloc = rt.alloc();
    let inst = rolb_m1::<Plain>::new(gpr_at(1, 127));
    shows!(rt, alloc, inst, "rolb $0x1, 0x7f(%rcx)");
    let inst = rolw_m1::<Plain>::new(gpr_at(1, 128));
    shows!(rt, alloc, inst, "rolw $0x1, 0x80(%rcx)");
    let inst = roll_m1::<Plain>::new(gpr_at(0, -128));
    shows!(rt, alloc, inst, "roll $0x1, -0x80(%rax)");
    let inst = rolq_m1::<Plain>::new(gpr_at(2, -128));
    shows!(rt, alloc, inst, "rolq $0x1, -0x80(%rdx)");
    let inst = rorb_m1::<Plain>::new(gpr_at(2, 128));
    shows!(rt, alloc, inst, "rorb $0x1, 0x80(%rdx)");
    let inst = rorw_m1::<Plain>::new(gpr_at(2, 9));
    shows!(rt, alloc, inst, "rorw $0x1, 0x9(%rdx)");
    let inst = rorl_m1::<Plain>::new(gpr_at(1, 0));
    shows!(rt, alloc, inst, "rorl $0x1, (%rcx)");
    let inst = rorq_m1::<Plain>::new(gpr_at(0, 0));
    shows!(rt, alloc, inst, "rorq $0x1, (%rax)");
    let inst = rorq_m1::<Plain>::new(gpr(2));
    shows!(rt, alloc, inst, "ror $0x1, %rdx");
}

#[test]
fn shifts_have_an_xed_text_of_their_own(rt: HostRuntime) {
    let alloc = rt.alloc();
    let inst = shlb_m1::<Plain>::new(gpr_at(2, 9));
    shows!(rt, alloc, inst, "shlb $0x1, 0x9(%rdx)");
    let inst = shlb_m1::<Plain>::new(gpr(3));
    shows!(rt, alloc, inst, "shl $0x1, %bl");
    let inst = shlw_m1::<Plain>::new(gpr_at(3, 0));
    shows!(rt, alloc, inst, "shlw $0x1, (%rbx)");
    let inst = shll_m1::<Plain>::new(gpr_at(1, 128));
    shows!(rt, alloc, inst, "shll $0x1, 0x80(%rcx)");
    let inst = shlq_m1::<Plain>::new(gpr_at(0, 0));
    shows!(rt, alloc, inst, "shlq $0x1, (%rax)");
    let inst = shrb_m1::<Plain>::new(gpr_at(0, -128));
    shows!(rt, alloc, inst, "shrb $0x1, -0x80(%rax)");
    let inst = shrw_m1::<Plain>::new(gpr_at(0, 0));
    shows!(rt, alloc, inst, "shrw $0x1, (%rax)");
    let inst = shrl_m1::<Plain>::new(gpr_at(1, 9));
    shows!(rt, alloc, inst, "shrl $0x1, 0x9(%rcx)");
    let inst = shrq_m1::<Plain>::new(gpr_at(0, -128));
    shows!(rt, alloc, inst, "shrq $0x1, -0x80(%rax)");
}

#[test]
fn arithmetic_shifts_have_an_xed_text_of_their_own(rt: HostRuntime) {
    let alloc = rt.alloc();
    let inst = sarb_m1::<Plain>::new(gpr_at(0, 9));
    shows!(rt, alloc, inst, "sarb $0x1, 0x9(%rax)");
    let inst = sarw_m1::<Plain>::new(gpr_at(3, 128));
    shows!(rt, alloc, inst, "sarw $0x1, 0x80(%rbx)");
    let inst = sarl_m1::<Plain>::new(gpr_at(1, 127));
    shows!(rt, alloc, inst, "sarl $0x1, 0x7f(%rcx)");
    let inst = sarq_m1::<Plain>::new(gpr_at(1, 0));
    shows!(rt, alloc, inst, "sarq $0x1, (%rcx)");
}

#[test]
fn calls_and_jumps_have_an_xed_text_of_their_own(rt: HostRuntime) {
    let alloc = rt.alloc();
    let inst = callq_m::<Plain>::new(gpr_at(0, 0));
    shows!(rt, alloc, inst, "callq (%rax)");
    let inst = callq_m::<Plain>::new(gpr(1));
    shows!(rt, alloc, inst, "callq %rcx");
    let inst = jmpq_m::<Plain>::new(gpr_at(2, 9));
    shows!(rt, alloc, inst, "jmpq 0x9(%rdx)");
    let inst = jmpq_m::<Plain>::new(gpr(0));
    shows!(rt, alloc, inst, "jmp %rax");
    let inst = callq_d::new(Simm32::new(127));
    shows!(rt, alloc, inst, "callq 0x84");
    let inst = jmp_d8::new(Simm8::new(-126));
    shows!(rt, alloc, inst, "jmp 0xffffffffffffff84");
    let inst = jmp_d32::new(Simm32::new(10));
    shows!(rt, alloc, inst, "jmp 0xf");
}

#[test]
fn comparisons_have_an_xed_text_of_their_own(rt: HostRuntime) {
    let alloc = rt.alloc();
    let inst = cmpps_a::<Plain>::new(Xmm::new(3), xmm_at(0, 0), Imm8::new(170));
    shows!(rt, alloc, inst, "cmppsx $0xaa, (%rax), %xmm3");
    let inst = cmppd_a::<Plain>::new(Xmm::new(4), xmm_at(0, -129), Imm8::new(0));
    shows!(rt, alloc, inst, "cmppdx $0x0, -0x81(%rax), %xmm4");
    let inst = cmpss_a::<Plain>::new(Xmm::new(1), xmm_at(1, 128), Imm8::new(127));
    shows!(rt, alloc, inst, "cmpssl $0x7f, 0x80(%rcx), %xmm1");
    let inst = cmpsd_a::<Plain>::new(Xmm::new(8), xmm_at(1, 9), Imm8::new(31));
    shows!(rt, alloc, inst, "cmpsdq $0x1f, 0x9(%rcx), %xmm8");
    let inst = cmpsd_a::<Plain>::new(Xmm::new(12), xmm(2), Imm8::new(11));
    shows!(rt, alloc, inst, "cmpsd $0xb, %xmm2, %xmm12");
}

#[test]
fn vex_comparisons_have_an_xed_text_of_their_own(rt: HostRuntime) {
    let alloc = rt.alloc();
    let inst = vcmpps_b::<Plain>::new(Xmm::new(5), Xmm::new(1), xmm_at(1, 0), Imm8::new(31));
    shows!(rt, alloc, inst, "vcmppsx $0x1f, (%rcx), %xmm1, %xmm5");
    let inst = vcmppd_b::<Plain>::new(Xmm::new(13), Xmm::new(14), xmm_at(0, 9), Imm8::new(16));
    shows!(rt, alloc, inst, "vcmppdx $0x10, 0x9(%rax), %xmm14, %xmm13");
    let inst = vcmpss_b::<Plain>::new(Xmm::new(9), Xmm::new(7), xmm_at(5, -128), Imm8::new(32));
    shows!(rt, alloc, inst, "vcmpssl $0x20, -0x80(%rbp), %xmm7, %xmm9");
    let inst = vcmpss_b::<Plain>::new(Xmm::new(2), Xmm::new(1), xmm(11), Imm8::new(127));
    shows!(rt, alloc, inst, "vcmpss $0x7f, %xmm11, %xmm1, %xmm2");
    let inst = vcmpsd_b::<Plain>::new(Xmm::new(1), Xmm::new(10), xmm_at(0, 9), Imm8::new(127));
    shows!(rt, alloc, inst, "vcmpsdq $0x7f, 0x9(%rax), %xmm10, %xmm1");
}

#[test]
fn no_operations_have_an_xed_text_of_their_own(rt: HostRuntime) {
    let alloc = rt.alloc();
    let inst = nop_1b::new();
    shows!(rt, alloc, inst, "nop");
    let inst = nop_2b::new();
    shows!(rt, alloc, inst, "data16 nop");
    let inst = nop_3b::new();
    shows!(rt, alloc, inst, "nopl (%rax)");
    let inst = nop_4b::new();
    shows!(rt, alloc, inst, "nopl (%rax)");
    let inst = nop_5b::new();
    shows!(rt, alloc, inst, "nopl (%rax,%rax,1)");
    let inst = nop_6b::new();
    shows!(rt, alloc, inst, "nopw (%rax,%rax,1)");
    let inst = nop_7b::new();
    shows!(rt, alloc, inst, "nopl (%rax)");
    let inst = nop_8b::new();
    shows!(rt, alloc, inst, "nopl (%rax,%rax,1)");
    let inst = nop_9b::new();
    shows!(rt, alloc, inst, "nopw (%rax,%rax,1)");
}
