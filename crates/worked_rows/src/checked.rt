//! Calls that test an instruction before they put it.

use cax64_test_support::RefusingSink;
use cranelift_assembler_x64::inst::{andb_i, callq_m, lock_addl_mr, mulxl_rvm};
use cranelift_assembler_x64::{
    Amode, AmodeOffset, AmodeOffsetPlusKnownOffset, CodeSink, DeferredTarget, EncodeError, Fault,
    Fixed, FixedSink, Gpr, GprMem, Imm8, Instruction, KnownOffset, Label, NonRspGpr, Notice,
    Numbers, Recorder, Scale, SinkError, Stopped, encode_each_checked,
};
use std::alloc::Global;

const PLACE: DeferredTarget = DeferredTarget::Label(Label(7));

/// A recorder that knows the offset 3, with a byte and a notice behind it.
fn begun(alloc: Global) -> Option<Recorder<Global>> {
    let mut sink = Recorder::new(alloc);
    sink.set_offset(3, 5);
    sink.put1(9).ok()?;
    sink.use_target(PLACE).ok()?;
    Some(sink)
}

/// Whether it is still as it began.
fn is_as_begun(sink: &Recorder<Global>) -> bool {
    sink.bytes() == [9].as_slice() && sink.notices() == [Notice::Target(1, PLACE)].as_slice()
}

/// The fault for which such a recorder doesn't get an instruction, if it is as before.
fn fault_of<I: Instruction>(alloc: Global, inst: &I) -> Option<Fault> {
    let mut sink = begun(alloc)?;
    match inst.encode_checked(&mut sink) {
        Err(EncodeError::Fault(fault)) if is_as_begun(&sink) => Some(fault),
        _ => None,
    }
}

fn based(base: u8, displacement: i32, late: Option<KnownOffset>) -> lock_addl_mr<Numbers> {
    let simm32 = AmodeOffsetPlusKnownOffset {
        simm32: AmodeOffset::new(displacement),
        offset: late,
    };
    lock_addl_mr::new(
        Amode::ImmReg {
            base,
            simm32,
            trap: None,
        },
        Gpr::new(1),
    )
}

fn indexed(index: u8) -> lock_addl_mr<Numbers> {
    lock_addl_mr::new(
        Amode::ImmRegRegShift {
            base: 0,
            index: NonRspGpr::new(index),
            scale: Scale::One,
            simm32: AmodeOffset::ZERO,
            trap: None,
        },
        Gpr::new(1),
    )
}

fn mask(register: u8, number: u8) -> andb_i<Numbers> {
    andb_i::new(Fixed(register), Imm8::new(number))
}

fn product(high: u8, low: u8, factor: u8, other: u8) -> mulxl_rvm<Numbers> {
    mulxl_rvm::new(
        Gpr::new(high),
        Gpr::new(low),
        GprMem::Gpr(factor),
        Fixed(other),
    )
}

fn call() -> callq_m<Numbers> {
    callq_m::new(GprMem::Mem(Amode::RipRelative { target: PLACE }))
}

#[test]
fn a_fault_is_found_and_the_sink_is_as_before(rt: HostRuntime) {
    let alloc = rt.alloc();
    assert!(rt; fault_of(alloc, &based(200, 0, None)) == Some(Fault::Register(0)));
    assert!(rt; fault_of(alloc, &indexed(16)) == Some(Fault::Register(1)));
    assert!(rt; fault_of(alloc, &indexed(4)) == Some(Fault::Index(1)));
    assert!(rt; fault_of(alloc, &mask(42, 0)) == Some(Fault::Fixed(0)));
    assert!(rt; fault_of(alloc, &based(8, 0, Some(9))) == Some(Fault::Unknown(9)));
    assert!(rt; fault_of(alloc, &based(8, i32::MAX, Some(3))) == Some(Fault::Range));
}

#[test]
fn of_two_equal_registers_one_is_found(rt: HostRuntime) {
    let alloc = rt.alloc();
    assert!(rt; fault_of(alloc, &product(16, 10, 7, 2)) == Some(Fault::Register(0)));
    assert!(rt; fault_of(alloc, &product(3, 16, 7, 2)) == Some(Fault::Register(1)));
    assert!(rt; fault_of(alloc, &product(3, 255, 7, 2)) == Some(Fault::Register(1)));
    assert!(rt; fault_of(alloc, &product(16, 16, 16, 2)) == Some(Fault::Register(0)));
    assert!(rt; fault_of(alloc, &product(3, 10, 16, 2)) == Some(Fault::Register(2)));
    assert!(rt; fault_of(alloc, &product(3, 3, 16, 2)) == Some(Fault::Register(1)));
    assert!(rt; fault_of(alloc, &product(3, 10, 7, 3)) == Some(Fault::Fixed(3)));
    // mulx ebx, r10d, edi
    let mut sink: Vec<u8> = Vec::new(alloc);
    assert!(rt; product(3, 10, 7, 2).encode_checked(&mut sink) == Ok(()));
    assert!(rt; sink.as_slice() == [0xC4, 0xE2, 0x2B, 0xF6, 0xDF].as_slice());
}

#[test]
fn a_sink_refuses_as_ever(rt: HostRuntime) {
    let full = Err(EncodeError::Sink(SinkError::Full));
    let mut five = FixedSink::<5>::new();
    assert!(rt; call().encode_checked(&mut five) == full);
    assert!(rt; five.bytes() == [0xFF, 0x15].as_slice());
    let mut six = FixedSink::<6>::new();
    assert!(rt; call().encode_checked(&mut six) == Ok(()));
    assert!(rt; six.bytes() == [0xFF, 0x15, 0, 0, 0, 0].as_slice());
    let mut none = FixedSink::<0>::new();
    let fault = Err(EncodeError::Fault(Fault::Fixed(0)));
    assert!(rt; mask(42, 0).encode_checked(&mut none) == fault);
    assert!(rt; none.bytes().is_empty());
    let mut first = RefusingSink::new(Recorder::new(rt.alloc()), 0);
    assert!(rt; call().encode_checked(&mut first) == Err(EncodeError::Sink(SinkError::NoMemory)));
}

#[test]
fn an_instruction_without_a_fault_is_put(rt: HostRuntime) {
    let mut sink = begun(rt.alloc()).expect(&rt, "memory");
    assert!(rt; call().encode_checked(&mut sink) == Ok(()));
    assert!(rt; sink.bytes() == [9, 0xFF, 0x15, 0, 0, 0, 0].as_slice());
    let told = [Notice::Target(1, PLACE), Notice::Target(3, PLACE)];
    assert!(rt; sink.notices() == told.as_slice());
    let mut late = begun(rt.alloc()).expect(&rt, "memory");
    assert!(rt; based(8, 0, Some(3)).encode_checked(&mut late) == Ok(()));
    assert!(rt; late.bytes() == [9, 0xF0, 0x41, 0x01, 0x48, 5].as_slice());
}

fn put_each<I: Instruction, S: CodeSink>(insts: &[I], sink: &mut S) -> Result<(), Stopped> {
    encode_each_checked(insts, sink)
}

#[test]
fn a_list_stops_at_its_first_fault(rt: HostRuntime) {
    let masks = [mask(0, 1), mask(0, 2), mask(42, 3), mask(43, 4)];
    let stopped = Stopped {
        whole: 2,
        error: EncodeError::Fault(Fault::Fixed(0)),
    };
    let mut sink: Vec<u8> = Vec::new(rt.alloc());
    assert!(rt; put_each(&masks, &mut sink) == Err(stopped));
    assert!(rt; sink.as_slice() == [0x24, 1, 0x24, 2].as_slice());
    let mut four = FixedSink::<4>::new();
    assert!(rt; put_each(&masks, &mut four) == Err(stopped));
    assert!(rt; four.bytes() == [0x24, 1, 0x24, 2].as_slice());
    let mut late = Recorder::new(rt.alloc());
    late.set_offset(3, 5);
    let additions = [
        based(8, 0, Some(3)),
        based(8, 0, None),
        based(8, 0, Some(9)),
    ];
    let unknown = Stopped {
        whole: 2,
        error: EncodeError::Fault(Fault::Unknown(9)),
    };
    assert!(rt; put_each(&additions, &mut late) == Err(unknown));
    let code = [0xF0, 0x41, 0x01, 0x48, 5, 0xF0, 0x41, 0x01, 0x08];
    assert!(rt; late.bytes() == code.as_slice());
}

#[test]
fn a_list_stops_where_the_sink_refuses(rt: HostRuntime) {
    let masks = [mask(0, 1), mask(0, 2), mask(42, 3)];
    let mut sink = FixedSink::<3>::new();
    let stopped = Stopped {
        whole: 1,
        error: EncodeError::Sink(SinkError::Full),
    };
    assert!(rt; put_each(&masks, &mut sink) == Err(stopped));
    assert!(rt; sink.bytes() == [0x24, 1, 0x24].as_slice());
}

#[test]
fn a_list_without_a_fault_is_put(rt: HostRuntime) {
    let mut sink: Vec<u8> = Vec::new(rt.alloc());
    assert!(rt; put_each(&[mask(0, 1), mask(0, 2)], &mut sink) == Ok(()));
    assert!(rt; sink.as_slice() == [0x24, 1, 0x24, 2].as_slice());
    let none: [andb_i<Numbers>; 0] = [];
    assert!(rt; put_each(&none, &mut sink) == Ok(()));
    assert!(rt; sink.len() == 4);
}
