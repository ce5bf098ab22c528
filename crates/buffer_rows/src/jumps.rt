//! Jumps and calls to labels, at worked examples.

use crate::making::{FIRST, POOL, SECOND, bytes_of, call_to, compare_with, push};
use cax64_sink::{DeferredTarget, Label, Notice, SinkError};
use nop::{nop_1b, nop_9b};
use std::alloc::{Allocator, Global};
use x64_code_buffer::{BindError, CodeBuffer, Condition, FinishError, Jump};

const IF_EQUAL: Jump = Jump::If(Condition::E);

const IF_NOT_EQUAL: Jump = Jump::If(Condition::Ne);

/// A call of a buffer.
#[derive(Clone, Copy)]
enum Step {
    /// A jump or a call with four bytes of distance.
    Long(Jump, DeferredTarget),
    /// One with as few bytes as there can be at once.
    Short(Jump, DeferredTarget),
    /// A comparison with a target's bytes, which has a byte of immediate.
    Compare(DeferredTarget),
    /// No-operations of nine bytes, and one of one byte.
    Nops(usize),
    Nop,
    /// A label that is bound.
    Bind(u32),
}

fn push_nops<A: Allocator>(buffer: &mut CodeBuffer<A>, count: usize) -> Result<(), SinkError> {
    for _ in 0..count {
        push(buffer, &nop_9b::new())?;
    }
    Ok(())
}

fn make_step<A: Allocator>(buffer: &mut CodeBuffer<A>, step: Step) -> Result<(), SinkError> {
    match step {
        Step::Long(jump, target) => buffer.push_long_jump(jump, target),
        Step::Short(jump, target) => buffer.push_jump(jump, target),
        Step::Compare(target) => push(buffer, &compare_with(target)),
        Step::Nops(count) => push_nops(buffer, count),
        Step::Nop => push(buffer, &nop_1b::new()),
        Step::Bind(number) => buffer.bind(Label(number)).map_err(|_| SinkError::Full),
    }
}

/// A buffer with three labels, and what these steps make of it.
fn made<A: Allocator + Copy>(alloc: A, steps: &[Step]) -> Result<CodeBuffer<A>, SinkError> {
    let mut buffer = CodeBuffer::new(alloc);
    for _ in 0..3usize {
        buffer.new_label()?;
    }
    for step in steps {
        make_step(&mut buffer, *step)?;
    }
    Ok(buffer)
}

/// Whether these steps tell of these uses, and end in these bytes once they are finished.
fn ends_in(alloc: Global, steps: &[Step], told: &[Notice], end: &[u8]) -> Option<bool> {
    let buffer = made(alloc, steps).ok()?;
    let is_told = buffer.notices() == told;
    let code = bytes_of(buffer)?;
    Some(is_told && code.as_slice().ends_with(end))
}

#[test]
fn jumps_lead_forward_and_back(rt: HostRuntime) {
    let forward = [Step::Long(Jump::Always, FIRST), Step::Bind(0)];
    let bytes = [0xE9, 0, 0, 0, 0];
    assert!(rt; ends_in(rt.alloc(), &forward, &[Notice::Target(1, FIRST)], &bytes) == Some(true));
    let back = [Step::Bind(0), Step::Long(IF_EQUAL, FIRST)];
    let bytes = [0x0F, 0x84, 0xFA, 0xFF, 0xFF, 0xFF];
    assert!(rt; ends_in(rt.alloc(), &back, &[Notice::Target(2, FIRST)], &bytes) == Some(true));
    let call = [Step::Long(Jump::Call, FIRST), Step::Nop, Step::Bind(0)];
    let bytes = [0xE8, 1, 0, 0, 0, 0x90];
    assert!(rt; ends_in(rt.alloc(), &call, &[Notice::Target(1, FIRST)], &bytes) == Some(true));
}

#[test]
fn a_jump_to_no_target_stays_as_it_is(rt: HostRuntime) {
    let steps = [Step::Long(Jump::Call, DeferredTarget::None)];
    let told = [Notice::Target(1, DeferredTarget::None)];
    assert!(rt; ends_in(rt.alloc(), &steps, &told, &[0xE8, 0, 0, 0, 0]) == Some(true));
}

#[test]
fn jumps_and_memory_operands_share_labels(rt: HostRuntime) {
    let steps = [
        Step::Compare(FIRST),
        Step::Long(IF_NOT_EQUAL, FIRST),
        Step::Bind(0),
    ];
    let told = [Notice::Target(3, FIRST), Notice::Target(10, FIRST)];
    let bytes = [0x0F, 0xC2, 0x05, 6, 0, 0, 0, 0, 0x0F, 0x85, 0, 0, 0, 0];
    assert!(rt; ends_in(rt.alloc(), &steps, &told, &bytes) == Some(true));
}

/// The buffer that comes back from a refusal, and why.
fn refusal_of<A: Allocator>(buffer: CodeBuffer<A>) -> Option<(CodeBuffer<A>, FinishError)> {
    match buffer.finish() {
        Ok(_) => None,
        Err(refused) => Some(refused),
    }
}

#[test]
fn the_first_use_that_is_not_bound_refuses(rt: HostRuntime) {
    let mut buffer = made(rt.alloc(), &[Step::Long(Jump::Always, SECOND)]).expect(&rt, "memory");
    assert!(rt; push(&mut buffer, &call_to(FIRST)).is_ok());
    let (mut buffer, error) = refusal_of(buffer).expect(&rt, "a refusal");
    assert!(rt; error == FinishError::Unbound(SECOND));
    assert!(rt; buffer.bind(Label(1)) == Ok(()));
    let (mut buffer, error) = refusal_of(buffer).expect(&rt, "a refusal");
    assert!(rt; error == FinishError::Unbound(FIRST));
    assert!(rt; buffer.bind(Label(0)) == Ok(()));
    let code = bytes_of(buffer).expect(&rt, "code");
    assert!(rt; code.as_slice() == [0xE9, 6, 0, 0, 0, 0xFF, 0x15, 0, 0, 0, 0].as_slice());
}

#[test]
fn two_bytes_reach_128_back(rt: HostRuntime) {
    let steps = [
        Step::Bind(0),
        Step::Nops(14),
        Step::Short(IF_NOT_EQUAL, FIRST),
    ];
    assert!(rt; ends_in(rt.alloc(), &steps, &[], &[0x00, 0x75, 0x80]) == Some(true));
    let steps = [
        Step::Bind(0),
        Step::Nops(14),
        Step::Nop,
        Step::Short(IF_NOT_EQUAL, FIRST),
    ];
    let bytes = [0x90, 0x0F, 0x85, 0x7B, 0xFF, 0xFF, 0xFF];
    assert!(rt; ends_in(rt.alloc(), &steps, &[Notice::Target(129, FIRST)], &bytes) == Some(true));
}

#[test]
fn a_jump_leads_to_itself_and_a_call_before_it(rt: HostRuntime) {
    let steps = [Step::Bind(0), Step::Short(Jump::Always, FIRST)];
    let mut buffer = made(rt.alloc(), &steps).expect(&rt, "memory");
    assert!(rt; buffer.bytes() == [0xEB, 0xFE].as_slice());
    assert!(rt; buffer.bind(Label(0)) == Err(BindError::Twice));
    assert!(rt; buffer.push_jump(Jump::Call, FIRST).is_ok());
    assert!(rt; buffer.notices() == [Notice::Target(3, FIRST)].as_slice());
    let code = bytes_of(buffer).expect(&rt, "code");
    assert!(rt; code.as_slice() == [0xEB, 0xFE, 0xE8, 0xF9, 0xFF, 0xFF, 0xFF].as_slice());
}

#[test]
fn a_label_of_another_buffer_is_not_bound(rt: HostRuntime) {
    let other = DeferredTarget::Label(Label(9));
    let buffer = made(rt.alloc(), &[Step::Short(IF_EQUAL, other)]).expect(&rt, "memory");
    let (buffer, error) = refusal_of(buffer).expect(&rt, "a refusal");
    assert!(rt; error == FinishError::Unbound(other));
    assert!(rt; buffer.bytes() == [0x0F, 0x84, 0, 0, 0, 0].as_slice());
}

#[test]
fn a_constant_takes_a_jump(rt: HostRuntime) {
    let mut buffer = made(rt.alloc(), &[Step::Nop]).expect(&rt, "memory");
    assert!(rt; buffer.push_jump(Jump::Call, POOL).is_ok());
    let (mut buffer, error) = refusal_of(buffer).expect(&rt, "a refusal");
    assert!(rt; error == FinishError::Unbound(POOL));
    assert!(rt; buffer.bind_constant(cax64_sink::Constant(7)) == Ok(()));
    let code = bytes_of(buffer).expect(&rt, "code");
    assert!(rt; code.as_slice() == [0x90, 0xE8, 0, 0, 0, 0].as_slice());
}

/// Puts the short form of a jump. A jump without one is as good as a full sink.
pub(crate) fn push_near<A: Allocator>(
    buffer: &mut CodeBuffer<A>,
    jump: Jump,
    distance: i8,
) -> Result<(), SinkError> {
    if !jump.has_short() {
        return Err(SinkError::Full);
    }
    buffer.push_near(jump, distance)
}

/// The sixteen conditions, in the order of the opcode's last four bits.
const CONDITIONS: [Condition; 16] = [
    Condition::O,
    Condition::No,
    Condition::B,
    Condition::Ae,
    Condition::E,
    Condition::Ne,
    Condition::Be,
    Condition::A,
    Condition::S,
    Condition::Ns,
    Condition::P,
    Condition::Np,
    Condition::L,
    Condition::Ge,
    Condition::Le,
    Condition::G,
];

#[test]
fn conditions_have_opcodes_in_order(rt: HostRuntime) {
    let mut last: u8 = 0;
    for condition in CONDITIONS {
        let mut buffer = CodeBuffer::new(rt.alloc());
        let jump = Jump::If(condition);
        assert!(rt; push_near(&mut buffer, jump, -2).is_ok());
        assert!(rt; buffer.push_far(jump, 0x0102_0304).is_ok());
        let near = 0x70 | last;
        let far = 0x80 | last;
        assert!(rt; buffer.bytes() == [near, 0xFE, 0x0F, far, 4, 3, 2, 1].as_slice());
        last = last.saturating_add(1);
    }
}

#[test]
fn jumps_by_a_number_tell_nothing(rt: HostRuntime) {
    let mut buffer = CodeBuffer::new(rt.alloc());
    assert!(rt; buffer.push_far(Jump::Call, -5).is_ok());
    assert!(rt; buffer.push_far(Jump::Always, i32::MAX).is_ok());
    assert!(rt; push_near(&mut buffer, Jump::Always, 127).is_ok());
    assert!(rt; push_near(&mut buffer, Jump::Call, 127) == Err(SinkError::Full));
    let bytes = [
        0xE8, 0xFB, 0xFF, 0xFF, 0xFF, 0xE9, 0xFF, 0xFF, 0xFF, 0x7F, 0xEB, 0x7F,
    ];
    assert!(rt; buffer.bytes() == bytes.as_slice());
    assert!(rt; buffer.notices().is_empty());
}
