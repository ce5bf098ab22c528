//! Over a sink of fixed size calls have laws of their own.

use cranelift_assembler_x64::inst::{andb_i, callq_m, nop_1b, nop_5b};
use cranelift_assembler_x64::laws::{encode_each_to_fixed_sink, encode_to_fixed_sink};
use cranelift_assembler_x64::vex::VexPrefix;
use cranelift_assembler_x64::{
    Amode, DeferredTarget, Fixed, FixedSink, GprMem, Imm8, Instruction, Numbers, Refused,
    SinkError, all_encodable,
};
use std::process::Abort;

fn put_each<I: Instruction>(
    rt: &impl Abort,
    insts: &[I],
    sink: &mut FixedSink<5>,
) -> Result<(), Refused> {
    assert!(rt; all_encodable(insts, &*sink));
    encode_each_to_fixed_sink(insts, sink)
}

fn mask(number: u8) -> andb_i<Numbers> {
    andb_i::new(Fixed(0), Imm8::new(number))
}

#[test]
fn a_list_is_taken_as_far_as_it_fits(rt: HostRuntime) {
    let masks = [mask(1), mask(2), mask(3)];
    let mut sink = FixedSink::<5>::new();
    let refused = Refused {
        whole: 2,
        error: SinkError::Full,
    };
    assert!(rt; put_each(&rt, &masks, &mut sink) == Err(refused));
    assert!(rt; sink.bytes() == [0x24, 1, 0x24, 2, 0x24].as_slice());
    let mut sink = FixedSink::<5>::new();
    assert!(rt; put_each(&rt, &masks[..2], &mut sink) == Ok(()));
}

#[test]
fn an_instruction_is_taken_where_it_fits(rt: HostRuntime) {
    let nop = nop_1b::new();
    let mut one = FixedSink::<1>::new();
    assert!(rt; nop.is_encodable(&one));
    assert!(rt; encode_to_fixed_sink(&nop, &mut one) == Ok(()));
    assert!(rt; nop.is_encodable(&one));
    assert!(rt; encode_to_fixed_sink(&nop, &mut one) == Err(SinkError::Full));
    assert!(rt; one.bytes() == [0x90].as_slice());
}

fn put<I: Instruction, const N: usize>(
    rt: &impl Abort,
    inst: &I,
    sink: &mut FixedSink<N>,
) -> Result<(), SinkError> {
    assert!(rt; inst.is_encodable(&*sink));
    inst.encode(sink)
}

#[test]
fn a_call_takes_six_places(rt: HostRuntime) {
    let call: callq_m<Numbers> = callq_m::new(GprMem::Mem(Amode::RipRelative {
        target: DeferredTarget::None,
    }));
    let mut six = FixedSink::<6>::new();
    assert!(rt; put(&rt, &call, &mut six) == Ok(()));
    assert!(rt; six.bytes() == [0xFF, 0x15, 0, 0, 0, 0].as_slice());
    let mut five = FixedSink::<5>::new();
    assert!(rt; put(&rt, &call, &mut five) == Err(SinkError::Full));
    assert!(rt; five.bytes() == [0xFF, 0x15].as_slice());
}

#[test]
fn a_no_operation_is_taken_as_far_as_it_fits(rt: HostRuntime) {
    let mut four = FixedSink::<4>::new();
    assert!(rt; put(&rt, &nop_5b::new(), &mut four) == Err(SinkError::Full));
    assert!(rt; four.bytes() == [0x0F, 0x1F, 0x44].as_slice());
    let mut none = FixedSink::<0>::new();
    assert!(rt; put(&rt, &nop_1b::new(), &mut none) == Err(SinkError::Full));
    assert!(rt; none.bytes().is_empty());
}

#[test]
fn a_prefix_that_is_refused_leaves_a_front(rt: HostRuntime) {
    let mut sink = FixedSink::<2>::new();
    assert!(rt; VexPrefix::ThreeByte(0xC1, 0x78).encode(&mut sink) == Err(SinkError::Full));
    assert!(rt; sink.bytes() == [0xC4, 0xC1].as_slice());
}
