//! Instructions that a buffer tests before it takes them.

use crate::making::{FIRST, call_to, shift};
use arith::{andb_i, shlb_m1};
use cax64_address::amode::{Amode, Scale};
use cax64_address::offset::{AmodeOffset, AmodeOffsetPlusKnownOffset};
use cax64_address::operand::GprMem;
use cax64_encoder::instruction::Instruction;
use cax64_encoder::{EncodeError, Fault};
use cax64_immediate::Imm8;
use cax64_operand::Numbers;
use cax64_register::{Fixed, NonRspGpr};
use cax64_sink::{KnownOffset, Notice, SinkError};
use cax64_test_support::TestHeap;
use std::alloc::Allocator;
use x64_code_buffer::CodeBuffer;

/// A shift of a register that isn't real.
fn without_a_register() -> shlb_m1<Numbers> {
    shlb_m1::new(GprMem::Gpr(16))
}

/// A shift at a late offset with this displacement.
fn at_offset(late: KnownOffset, displacement: i32) -> shlb_m1<Numbers> {
    let simm32 = AmodeOffsetPlusKnownOffset {
        simm32: AmodeOffset::new(displacement),
        offset: Some(late),
    };
    shlb_m1::new(GprMem::Mem(Amode::ImmReg {
        base: 0,
        simm32,
        trap: None,
    }))
}

/// A shift at the late offset 3.
fn at_an_offset() -> shlb_m1<Numbers> {
    at_offset(3, 0)
}

/// A shift at an address with this index.
fn at_index(index: u8) -> shlb_m1<Numbers> {
    shlb_m1::new(GprMem::Mem(Amode::ImmRegRegShift {
        base: 0,
        index: NonRspGpr::new(index),
        scale: Scale::One,
        simm32: AmodeOffset::ZERO,
        trap: None,
    }))
}

/// A mask of this register, which is to be the one with number 0.
fn mask(register: u8) -> andb_i<Numbers> {
    andb_i::new(Fixed(register), Imm8::new(1))
}

fn fault(fault: Fault) -> Result<(), EncodeError> {
    Err(EncodeError::Fault(fault))
}

fn push_checked<I: Instruction, A: Allocator>(
    buffer: &mut CodeBuffer<A>,
    inst: &I,
) -> Result<(), EncodeError> {
    buffer.push_checked(inst)
}

const NOT_REAL: Result<(), EncodeError> = Err(EncodeError::Fault(Fault::Register(0)));

#[test]
fn an_instruction_without_a_fault_is_pushed(rt: HostRuntime) {
    let mut buffer = CodeBuffer::new(rt.alloc());
    assert!(rt; push_checked(&mut buffer, &call_to(FIRST)) == Ok(()));
    assert!(rt; push_checked(&mut buffer, &without_a_register()) == NOT_REAL);
    assert!(rt; push_checked(&mut buffer, &shift()) == Ok(()));
    assert!(rt; buffer.bytes() == [0xFF, 0x15, 0, 0, 0, 0, 0xD0, 0xE0].as_slice());
    assert!(rt; buffer.notices() == [Notice::Target(2, FIRST)].as_slice());
}

#[test]
fn a_late_offset_is_known_once_it_is_set(rt: HostRuntime) {
    let mut buffer = CodeBuffer::new(rt.alloc());
    let unknown = Err(EncodeError::Fault(Fault::Unknown(3)));
    assert!(rt; push_checked(&mut buffer, &at_an_offset()) == unknown);
    buffer.set_offset(3, 5);
    assert!(rt; push_checked(&mut buffer, &at_an_offset()) == Ok(()));
    assert!(rt; buffer.bytes() == [0xD0, 0x60, 5].as_slice());
}

#[test]
fn a_fault_asks_for_no_memory_and_a_refusal_says_so(rt: HostRuntime) {
    let heap = TestHeap::holding(rt.alloc(), 0);
    let mut buffer = CodeBuffer::new(&heap);
    assert!(rt; push_checked(&mut buffer, &without_a_register()) == NOT_REAL);
    assert!(rt; heap.requests() == 0);
    let refused = Err(EncodeError::Sink(SinkError::NoMemory));
    assert!(rt; push_checked(&mut buffer, &shift()) == refused);
    assert!(rt; heap.requests() > 0);
    assert!(rt; buffer.bytes().is_empty() && buffer.notices().is_empty());
    heap.relieve();
    assert!(rt; push_checked(&mut buffer, &shift()) == Ok(()));
    assert!(rt; buffer.bytes() == [0xD0, 0xE0].as_slice());
}

#[test]
fn where_there_is_room_a_fault_is_found_before_a_byte(rt: HostRuntime) {
    let mut buffer = CodeBuffer::new(rt.alloc());
    buffer.set_offset(3, 5);
    assert!(rt; push_checked(&mut buffer, &call_to(FIRST)) == Ok(()));
    assert!(rt; push_checked(&mut buffer, &without_a_register()) == NOT_REAL);
    assert!(rt; push_checked(&mut buffer, &at_index(16)) == fault(Fault::Register(1)));
    assert!(rt; push_checked(&mut buffer, &at_index(4)) == fault(Fault::Index(1)));
    assert!(rt; push_checked(&mut buffer, &mask(1)) == fault(Fault::Fixed(0)));
    assert!(rt; push_checked(&mut buffer, &at_offset(9, 0)) == fault(Fault::Unknown(9)));
    assert!(rt; push_checked(&mut buffer, &at_offset(3, i32::MAX)) == fault(Fault::Range));
    assert!(rt; buffer.bytes() == [0xFF, 0x15, 0, 0, 0, 0].as_slice());
    assert!(rt; buffer.notices() == [Notice::Target(2, FIRST)].as_slice());
    assert!(rt; push_checked(&mut buffer, &mask(0)) == Ok(()));
    assert!(rt; buffer.bytes() == [0xFF, 0x15, 0, 0, 0, 0, 0x24, 1].as_slice());
}
