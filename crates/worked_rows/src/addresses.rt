//! Memory operands.

use cax64_address::laws::laws_of_equality;
use cax64_test_support::Virtual;
use cranelift_assembler_x64::laws::emit_to_fixed_sink;
use cranelift_assembler_x64::{
    Amode, AmodeOffset, AmodeOffsetPlusKnownOffset, DeferredTarget, FixedSink, GprMem, NonRspGpr,
    Recorder, Scale, SinkError, TrapCode, XmmMem,
};
use std::num::NonZeroU8;

const CODE: TrapCode = TrapCode(NonZeroU8::MIN);

const STACK: Amode<u8> = Amode::ImmReg {
    base: 4,
    simm32: AmodeOffsetPlusKnownOffset::ZERO,
    trap: None,
};

const RELATIVE: Amode<u8> = Amode::RipRelative {
    target: DeferredTarget::None,
};

fn indexed(scale: Scale) -> Amode<u8> {
    Amode::ImmRegRegShift {
        base: 0,
        index: NonRspGpr::new(1),
        scale,
        simm32: AmodeOffset::from(0),
        trap: Some(CODE),
    }
}

#[test]
fn a_fixed_sink_takes_what_fits(rt: HostRuntime) {
    let mut sink = FixedSink::<3>::new();
    assert!(rt; STACK.is_addressable(&sink));
    assert!(rt; emit_to_fixed_sink(&mut sink, 0, &STACK, 0, None) == Ok(()));
    assert!(rt; STACK.is_addressable(&sink));
    let refused = emit_to_fixed_sink(&mut sink, 0, &STACK, 0, None);
    assert!(rt; refused == Err(SinkError::Full));
    assert!(rt; sink.bytes() == [0x04, 0x24, 0x04].as_slice());
}

#[test]
fn operands_are_registers_or_memory(rt: HostRuntime) {
    assert!(rt; !GprMem::<u8, u8>::from(3).is_memory());
    assert!(rt; GprMem::<u8, u8>::from(STACK).is_memory());
    assert!(rt; !XmmMem::<Virtual, u8>::from(Virtual(3)).is_memory());
    assert!(rt; XmmMem::<Virtual, u8>::from(STACK).is_memory());
    assert!(rt; RELATIVE.trap_code() == None && STACK.trap_code() == None);
    assert!(rt; indexed(Scale::One).trap_code() == Some(CODE));
}

#[test]
fn operands_compare_by_their_fields(rt: HostRuntime) {
    laws_of_equality::<Virtual, u8>();
    assert!(rt; STACK == STACK && STACK != RELATIVE);
    assert!(rt; indexed(Scale::One) != indexed(Scale::Two));
    assert!(rt; GprMem::<u8, u8>::Gpr(0) != GprMem::Mem(STACK));
}

#[test]
fn offsets_have_values(rt: HostRuntime) {
    let sink = FixedSink::<0>::new();
    let zero = AmodeOffsetPlusKnownOffset::ZERO;
    assert!(rt; AmodeOffset::new(-5).value() == -5 && AmodeOffset::ZERO.value() == 0);
    assert!(rt; zero.fits(&sink) && zero.value(&sink) == 0);
    for number in 0..4 {
        assert!(rt; Scale::new(number).enc() == number);
    }
}

#[test]
fn an_offset_fits_where_it_is_known_and_its_sum_has_32_bits(rt: HostRuntime) {
    let late = AmodeOffsetPlusKnownOffset {
        simm32: AmodeOffset::new(i32::MAX),
        offset: Some(7),
    };
    let mut sink = Recorder::new(rt.alloc());
    assert!(rt; !late.fits(&sink));
    sink.set_offset(7, 1);
    assert!(rt; !late.fits(&sink));
    sink.set_offset(7, -1);
    assert!(rt; late.fits(&sink) && late.value(&sink) == i32::MAX - 1);
}
