//! The bytes of shifts, whose digit of 4 to 7 asks for no REX byte, and that nothing shorter is read as them.

use cax64_shortest::worked::encode_shortest;
use cranelift_assembler_x64::inst::{nop_3b, sarb_m1, shlb_m1, shrb_m1};
use cranelift_assembler_x64::laws::{len_is_least, whole_instruction_is_shortest};
use cranelift_assembler_x64::reader::read_inst;
use cranelift_assembler_x64::{
    Amode, AmodeOffsetPlusKnownOffset, DeferredTarget, FixedSink, GprMem, Instruction, Label,
    Notice, Numbers, Recorder, RexPrefix, Row, RowAndOperands,
};
use std::process::Abort;

/// That an instruction has these bytes, and as many as are told before.
fn has_bytes<I: RowAndOperands>(rt: &impl Abort, inst: &I, bytes: &[u8]) {
    whole_instruction_is_shortest(inst);
    let mut sink = FixedSink::<13>::new();
    assert!(rt; inst.is_encodable(&sink));
    assert!(rt; usize::from(inst.encoded_len(&sink)) == bytes.len());
    assert!(rt; inst.encode(&mut sink).is_ok());
    assert!(rt; sink.bytes() == bytes);
}

#[test]
fn a_shift_has_no_byte_for_its_digit(rt: HostRuntime) {
    let based = Amode::ImmReg {
        base: 0,
        simm32: AmodeOffsetPlusKnownOffset::ZERO,
        trap: None,
    };
    let memory: shlb_m1<Numbers> = shlb_m1::new(GprMem::Mem(based));
    has_bytes(&rt, &memory, &[0xD0, 0x20]);
    let al: shlb_m1<Numbers> = shlb_m1::new(GprMem::Gpr(0));
    has_bytes(&rt, &al, &[0xD0, 0xE0]);
    let sil: sarb_m1<Numbers> = sarb_m1::new(GprMem::Gpr(6));
    has_bytes(&rt, &sil, &[0x40, 0xD0, 0xFE]);
    let r8b: shlb_m1<Numbers> = shlb_m1::new(GprMem::Gpr(8));
    has_bytes(&rt, &r8b, &[0x41, 0xD0, 0xE0]);
}

#[test]
fn the_target_of_a_shift_stands_behind_the_modrm_byte(rt: HostRuntime) {
    let target = DeferredTarget::Label(Label(0));
    let shift: shrb_m1<Numbers> = shrb_m1::new(GprMem::Mem(Amode::RipRelative { target }));
    let mut sink = Recorder::new(rt.alloc());
    assert!(rt; shift.is_encodable(&sink));
    assert!(rt; shift.encode(&mut sink).is_ok());
    assert!(rt; sink.bytes() == [0xD0, 0x2D, 0, 0, 0, 0].as_slice());
    assert!(rt; sink.notices() == [Notice::Target(2, target)].as_slice());
}

#[test]
fn a_byte_for_the_digit_is_still_read(rt: HostRuntime) {
    len_is_least();
    let read = read_inst(&[0x40, 0xD0, 0xE0]).map(|reading| (reading.row, reading.length));
    assert!(rt; read == Some((Row::shlb_m1, 3)));
    let mut sink = FixedSink::<1>::new();
    assert!(rt;
        RexPrefix::with_digit(4, 0, false, true)
            .encode(&mut sink)
            .is_ok()
    );
    assert!(rt; sink.bytes() == [0x40].as_slice());
}

#[test]
fn what_is_added_is_the_shortest(rt: HostRuntime) {
    let shift: shlb_m1<Numbers> = shlb_m1::new(GprMem::Gpr(0));
    let nop = nop_3b::new();
    let mut sink = FixedSink::<5>::new();
    assert!(rt; shift.is_encodable(&sink));
    assert!(rt; encode_shortest(&shift, &mut sink).is_ok());
    assert!(rt; nop.is_encodable(&sink));
    assert!(rt; encode_shortest(&nop, &mut sink).is_ok());
    assert!(rt; sink.bytes() == [0xD0, 0xE0, 0x0F, 0x1F, 0x00].as_slice());
}
