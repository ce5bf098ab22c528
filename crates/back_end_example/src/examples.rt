//! Instructions, and the bytes that they are encoded as.

use client::assignment::{Function, Homes};
use client::places::{FRAME, argument, behind, element};
use client::registers::{Reg, Regs};
use client::{encode_each_if_encodable, encode_if_encodable, encode_or_tell};
use cranelift_assembler_x64::inst::{andb_i, lock_addl_mr, lock_cmpxchgl_mr};
use cranelift_assembler_x64::{
    Amode, Fault, Fixed, FixedSink, Gpr, Imm8, Instruction, Numbers, Recorder, Refused, SinkError,
    Size,
};
use std::alloc::Global;
use std::test::Fail;

fn add(place: Amode<Reg>, value: Reg) -> lock_addl_mr<Regs> {
    lock_addl_mr::new(place, Gpr::new(value))
}

fn take(place: Amode<Reg>, value: Reg, expected: Reg) -> lock_cmpxchgl_mr<Regs> {
    lock_cmpxchgl_mr::new(place, Gpr::new(value), Fixed(expected))
}

/// The machine code of `andb $0xaa, %al`, which is `24 aa`.
fn mask(alloc: Global) -> Result<Recorder<Global>, SinkError> {
    let mask = andb_i::<Numbers>::new(Fixed(0), Imm8::new(0xAA));
    let mut sink = Recorder::new(alloc);
    if mask.is_encodable(&sink) {
        mask.encode(&mut sink)?;
    }
    Ok(sink)
}

#[test]
fn one_instruction(rt: HostRuntime) {
    let sink = mask(rt.alloc()).expect(&rt, "memory");
    assert_eq!(rt; sink.bytes(), [0x24, 0xAA].as_slice());
}

#[test]
fn names_of_registers(rt: HostRuntime) -> Result<(), Fail> {
    assert!(rt; Gpr::new(Reg(9)).is_real());
    assert!(rt; !Gpr::new(Reg(16)).is_real());
    let name = Gpr::new(Reg(9)).to_string(rt.alloc(), Size::Doubleword)?;
    assert!(rt; name.as_str() == "%r9d");
    Ok(())
}

#[test]
fn places_in_memory(rt: HostRuntime) {
    let mut sink = Recorder::new(rt.alloc());
    assert_eq!(rt;
        encode_or_tell(&add(behind(Reg(12), -128), Reg(9)), &mut sink),
        Ok(None)
    );
    assert_eq!(rt;
        encode_or_tell(&add(element(Reg(3), Reg(1)), Reg(2)), &mut sink),
        Ok(None)
    );
    let bytes = [0xF0, 0x45, 0x01, 0x4C, 0x24, 0x80, 0xF0, 0x01, 0x14, 0x8B];
    assert_eq!(rt; sink.bytes(), bytes.as_slice());
    let fault = encode_or_tell(&add(element(Reg(3), Reg(4)), Reg(2)), &mut sink);
    assert_eq!(rt; fault, Ok(Some(Fault::Index(1))));
}

#[test]
fn the_frame_is_known_late(rt: HostRuntime) {
    let count = add(argument(8), Reg(2));
    let mut sink = Recorder::new(rt.alloc());
    assert_eq!(rt;
        encode_or_tell(&count, &mut sink),
        Ok(Some(Fault::Unknown(FRAME)))
    );
    sink.set_offset(FRAME, 0x7FFF_FFFF);
    assert_eq!(rt; encode_or_tell(&count, &mut sink), Ok(Some(Fault::Range)));
    sink.set_offset(FRAME, 32);
    assert_eq!(rt; encode_or_tell(&count, &mut sink), Ok(None));
    assert_eq!(rt; sink.bytes(), [0xF0, 0x01, 0x54, 0x24, 0x28].as_slice());
}

#[test]
fn a_fixed_register_holds_its_number(rt: HostRuntime) {
    let mut sink = Recorder::new(rt.alloc());
    let other = take(behind(Reg(3), 0), Reg(2), Reg(5));
    assert_eq!(rt;
        encode_or_tell(&other, &mut sink),
        Ok(Some(Fault::Fixed(2)))
    );
    let fixed = take(behind(Reg(3), 0), Reg(2), Reg(0));
    assert_eq!(rt; encode_or_tell(&fixed, &mut sink), Ok(None));
    assert_eq!(rt; sink.bytes(), [0xF0, 0x0F, 0xB1, 0x13].as_slice());
}

/// With three virtual registers: the base of both places, a value, and what has to be the accumulator.
fn function() -> Function {
    Function {
        count: add(behind(Reg(16), 0), Reg(17)),
        take: take(behind(Reg(16), 4), Reg(17), Reg(18)),
    }
}

#[test]
fn virtual_registers_get_homes(rt: HostRuntime) {
    let mut function = function();
    let mut sink = Recorder::new(rt.alloc());
    assert_eq!(rt; function.count.first_fault(&sink), Some(Fault::Register(0)));
    function.visit(&mut Homes([Reg(3), Reg(1), Reg(0)]));
    assert_eq!(rt; encode_if_encodable(&function.count, &mut sink), Ok(true));
    assert_eq!(rt; encode_if_encodable(&function.take, &mut sink), Ok(true));
    let bytes = [0xF0, 0x01, 0x0B, 0xF0, 0x0F, 0xB1, 0x4B, 0x04];
    assert_eq!(rt; sink.bytes(), bytes.as_slice());
}

#[test]
fn what_is_left_is_told(rt: HostRuntime) {
    let sink = Recorder::new(rt.alloc());
    let mut function = function();
    function.visit(&mut Homes([Reg(3), Reg(17), Reg(2)]));
    assert_eq!(rt; function.count.first_fault(&sink), Some(Fault::Register(1)));
    function.visit(&mut Homes([Reg(3), Reg(1), Reg(2)]));
    assert_eq!(rt; function.count.first_fault(&sink), None);
    assert_eq!(rt; function.take.first_fault(&sink), Some(Fault::Fixed(2)));
}

#[test]
fn a_full_sink_holds_whole_instructions(rt: HostRuntime) {
    let counts = [
        add(behind(Reg(3), 4), Reg(0)),
        add(behind(Reg(3), 8), Reg(1)),
        add(behind(Reg(3), 12), Reg(2)),
    ];
    let mut small = FixedSink::<8>::new();
    let refused = Refused {
        whole: 2,
        error: SinkError::Full,
    };
    assert_eq!(rt; encode_each_if_encodable(&counts, &mut small), Err(refused));
    assert_eq!(rt;
        small.bytes(),
        [0xF0, 0x01, 0x43, 0x04, 0xF0, 0x01, 0x4B, 0x08].as_slice()
    );
    let mut large = FixedSink::<12>::new();
    assert_eq!(rt; encode_each_if_encodable(&counts, &mut large), Ok(true));
}
