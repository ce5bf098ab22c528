//! A function of eight instructions with a label, and an instruction of the core beside one of the table.

use crate::buffer::words::{FIRST, POOL, RAX, RDI, RSI, at, bytes_of, push};
use cax64_address::operand::GprMem;
use cax64_encoder::instruction::Instruction;
use cax64_operand::Numbers;
use cax64_sink::{Constant, DeferredTarget, Label, Notice};
use jump::callq_m;
use std::alloc::Global;
use x64_code_buffer::{CodeBuffer, Condition, Jump};
use x64_core::Core;
use x64_core::ops::arithmetic::{ADDQ_MI_SXB, CMPQ_RM};
use x64_core::ops::control::RETQ_ZO;
use x64_core::ops::moves::{LEAQ_RM, MOVQ_RM};
use x64_core::ops::multiplication::IMULQ_RM;

/// `fn(a, b) { if a < b { a * b + 1 } else { b } }`, with `a` in `rdi` and `b` in `rsi`, checked.
fn checked(buffer: &mut CodeBuffer<Global>, otherwise: Label) -> Option<()> {
    buffer.push_checked(&CMPQ_RM.regs(RDI, RSI)).ok()?;
    buffer
        .push_jump(Jump::If(Condition::Ge), DeferredTarget::Label(otherwise))
        .ok()?;
    buffer.push_checked(&MOVQ_RM.regs(RAX, RDI)).ok()?;
    buffer.push_checked(&IMULQ_RM.regs(RAX, RSI)).ok()?;
    buffer.push_checked(&ADDQ_MI_SXB.reg(RAX, 1)).ok()?;
    buffer.push_checked(&RETQ_ZO.bare()).ok()?;
    buffer.bind(otherwise).ok()?;
    buffer.push_checked(&MOVQ_RM.regs(RAX, RSI)).ok()?;
    buffer.push_checked(&RETQ_ZO.bare()).ok()
}

fn push_all(buffer: &mut CodeBuffer<Global>, insts: &[Core]) -> Option<()> {
    for inst in insts {
        push(buffer, inst).ok()?;
    }
    Some(())
}

/// The same, each tested by its caller.
fn unchecked(buffer: &mut CodeBuffer<Global>, otherwise: Label) -> Option<()> {
    let product = [
        MOVQ_RM.regs(RAX, RDI),
        IMULQ_RM.regs(RAX, RSI),
        ADDQ_MI_SXB.reg(RAX, 1),
        RETQ_ZO.bare(),
    ];
    push(buffer, &CMPQ_RM.regs(RDI, RSI)).ok()?;
    buffer
        .push_jump(Jump::If(Condition::Ge), DeferredTarget::Label(otherwise))
        .ok()?;
    push_all(buffer, &product)?;
    buffer.bind(otherwise).ok()?;
    push_all(buffer, &[MOVQ_RM.regs(RAX, RSI), RETQ_ZO.bare()])
}

const FUNCTION: [u8; 25] = [
    0x48, 0x3B, 0xFE, 0x0F, 0x8D, 0x0C, 0, 0, 0, 0x48, 0x8B, 0xC7, 0x48, 0x0F, 0xAF, 0xC6, 0x48,
    0x83, 0xC0, 0x01, 0xC3, 0x48, 0x8B, 0xC6, 0xC3,
];

#[test]
fn a_function_with_a_label(rt: HostRuntime) {
    let mut buffer = CodeBuffer::new(rt.alloc());
    let otherwise = buffer.new_label().expect(&rt, "a label");
    assert!(rt; checked(&mut buffer, otherwise) == Some(()));
    let code = bytes_of(buffer).expect(&rt, "code");
    assert!(rt; code.as_slice() == FUNCTION.as_slice());
}

#[test]
fn a_function_that_its_caller_tests(rt: HostRuntime) {
    let mut buffer = CodeBuffer::new(rt.alloc());
    let otherwise = buffer.new_label().expect(&rt, "a label");
    assert!(rt; unchecked(&mut buffer, otherwise) == Some(()));
    let code = bytes_of(buffer).expect(&rt, "code");
    assert!(rt; code.as_slice() == FUNCTION.as_slice());
}

/// `leaq rax, [FIRST]` and `addq [POOL], 1` of the core, and `callq [FIRST]` of the table between them.
fn mixed(buffer: &mut CodeBuffer<Global>) -> Option<()> {
    let call: callq_m<Numbers> = callq_m::new(GprMem::Mem(at(FIRST)));
    let label = buffer.new_label().ok()?;
    buffer.push_checked(&LEAQ_RM.mem(RAX, at(FIRST))).ok()?;
    buffer.push_checked(&call).ok()?;
    buffer.push_checked(&ADDQ_MI_SXB.mem(at(POOL), 1)).ok()?;
    buffer.bind(label).ok()?;
    buffer.push_checked(&RETQ_ZO.bare()).ok()?;
    buffer.bind_constant(Constant(7)).ok()
}

/// The field of each is told where it begins, before an immediate too, and leads from the instruction's end to its target.
#[test]
fn targets_of_the_core_and_of_the_table(rt: HostRuntime) {
    let mut buffer = CodeBuffer::new(rt.alloc());
    assert!(rt; mixed(&mut buffer) == Some(()));
    let told = [
        Notice::Target(3, FIRST),
        Notice::Target(9, FIRST),
        Notice::Target(16, POOL),
    ];
    assert!(rt; buffer.notices() == told.as_slice());
    let code = bytes_of(buffer).expect(&rt, "code");
    let expected = [
        0x48, 0x8D, 0x05, 14, 0, 0, 0, 0xFF, 0x15, 8, 0, 0, 0, 0x48, 0x83, 0x05, 1, 0, 0, 0, 1,
        0xC3,
    ];
    assert!(rt; code.as_slice() == expected.as_slice());
}
