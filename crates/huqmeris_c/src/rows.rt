//! Worked rows of the calls, each by hand, and what they refuse.

use crate::convert::hq_inst_of_reading;
use crate::decode::hq_decode;
use crate::encode::{hq_check, hq_encode, hq_length};
use crate::make::{HQ_NO_IMM, HQ_NO_REG, hq_make};
use crate::operands::hq_operands;
use crate::rename::hq_rename;
use x64_core::ops::arithmetic::ADDQ_MI_SXB;
use x64_core::ops::moves::MOVQ_RM;
use x64_plain::laws::integers_tell_instructions;
use x64_plain::place::{HQ_PLACE_INDEX, HQ_PLACE_LABEL, HQ_PLACE_REGISTER};
use x64_plain::status::{HQ_BAD_INST, HQ_BAD_LINE, HQ_FULL, HQ_NONE, HQ_OK};
use x64_plain::told::{HQ_TOLD_LABEL, HQ_TOLD_TRAP};
use x64_plain::{HqInst, HqPlace, HqReading, HqUse};

const NO_PLACE: HqPlace = HqPlace {
    place: 0,
    base: 0,
    index: 0,
    scale: 0,
    trap: 0,
    has_offset: 0,
    offset: 0,
    reserved: 0,
    disp: 0,
    target: 0,
};

const NO_INST: HqInst = HqInst {
    line: 0,
    place: 0,
    reg: 0,
    vvvv: 0,
    base: 0,
    index: 0,
    scale: 0,
    trap: 0,
    has_offset: 0,
    offset: 0,
    reserved: 0,
    disp: 0,
    target: 0,
    imm: 0,
};

const NO_READING: HqReading = HqReading {
    imm: 0,
    disp: 0,
    line: 0,
    length: 0,
    tail: 0,
    reg_kind: 0,
    reg: 0,
    has_vvvv: 0,
    vvvv: 0,
    place_kind: 0,
    has_base: 0,
    base: 0,
    has_index: 0,
    index: 0,
    factor: 0,
    has_imm: 0,
    reserved: 0,
    reserved_word: 0,
};

/// A register as a place.
fn register(number: u8) -> HqPlace {
    HqPlace {
        place: HQ_PLACE_REGISTER,
        base: number,
        ..NO_PLACE
    }
}

/// `addq rax, 1`: made, encoded, read, and made of the reading again.
#[test]
fn an_addition_goes_round(rt: HostRuntime) {
    let line = ADDQ_MI_SXB.op().number();
    let mut inst = NO_INST;
    assert_eq!(rt;
        hq_make(line, HQ_NO_REG, HQ_NO_REG, &register(0), 1, &mut inst),
        HQ_OK
    );
    assert_eq!(rt; inst.line, line);
    assert_eq!(rt; inst.imm, 1);
    assert_eq!(rt; hq_check(&inst), HQ_OK);
    let (mut code, mut len, mut told) = ([0xCC; 5], 0, HqUse::NOTHING);
    assert_eq!(rt; hq_length(&inst, &mut len), HQ_OK);
    assert_eq!(rt; len, 4);
    assert_eq!(rt; hq_encode(&inst, &mut code, &mut len, &mut told), HQ_OK);
    assert_eq!(rt; code.as_slice(), [0x48, 0x83, 0xC0, 0x01, 0xCC].as_slice());
    assert_eq!(rt; told.kind, 0);
    let (mut reading, mut again) = (NO_READING, NO_INST);
    assert_eq!(rt; hq_decode(&code, &mut reading), HQ_OK);
    assert_eq!(rt; reading.length, 4);
    assert_eq!(rt; hq_inst_of_reading(&reading, &mut again), HQ_OK);
    assert!(rt; again == inst);
}

/// `movq rax, [rbx + 8*rcx + 5]` with a trap of code 7, and of a label.
#[test]
fn memory_tells_what_it_has(rt: HostRuntime) {
    let line = MOVQ_RM.op().number();
    let indexed = HqPlace {
        place: HQ_PLACE_INDEX,
        base: 3,
        index: 1,
        scale: 3,
        trap: 7,
        disp: 5,
        ..NO_PLACE
    };
    let label = HqPlace {
        place: HQ_PLACE_LABEL,
        target: 9,
        ..NO_PLACE
    };
    let (mut inst, mut code, mut len, mut told) = (NO_INST, [0; 13], 0, HqUse::NOTHING);
    assert_eq!(rt;
        hq_make(line, 0, HQ_NO_REG, &indexed, HQ_NO_IMM, &mut inst),
        HQ_OK
    );
    assert_eq!(rt; hq_encode(&inst, &mut code, &mut len, &mut told), HQ_OK);
    assert_eq!(rt; &code[..5], [0x48, 0x8B, 0x44, 0xCB, 0x05].as_slice());
    assert_eq!(rt;
        (len, told.at, told.kind, told.number),
        (5, 0, HQ_TOLD_TRAP, 7)
    );
    assert_eq!(rt;
        hq_make(line, 0, HQ_NO_REG, &label, HQ_NO_IMM, &mut inst),
        HQ_OK
    );
    assert_eq!(rt; hq_encode(&inst, &mut code, &mut len, &mut told), HQ_OK);
    assert_eq!(rt;
        (len, told.at, told.kind, told.number),
        (7, 3, HQ_TOLD_LABEL, 9)
    );
}

/// The operands of an addition and of memory come back as they were given; those of no instruction don't.
#[test]
fn operands_come_back(rt: HostRuntime) {
    let (mut reg, mut vvvv, mut place, mut imm) = (0, 0, NO_PLACE, 0);
    let addition = HqInst::of(&ADDQ_MI_SXB.reg(40, -1));
    assert_eq!(rt;
        hq_operands(&addition, &mut reg, &mut vvvv, &mut place, &mut imm),
        HQ_OK
    );
    assert_eq!(rt; (reg, vvvv, imm), (HQ_NO_REG, HQ_NO_REG, -1));
    assert!(rt; place == register(40));
    let indexed = HqPlace {
        place: HQ_PLACE_INDEX,
        base: 3,
        index: 1,
        scale: 3,
        disp: -5,
        ..NO_PLACE
    };
    let mut load = NO_INST;
    assert_eq!(rt;
        hq_make(
            MOVQ_RM.op().number(),
            255,
            HQ_NO_REG,
            &indexed,
            HQ_NO_IMM,
            &mut load
        ),
        HQ_OK
    );
    assert_eq!(rt;
        hq_operands(&load, &mut reg, &mut vvvv, &mut place, &mut imm),
        HQ_OK
    );
    assert_eq!(rt; (reg, vvvv, imm), (255, HQ_NO_REG, HQ_NO_IMM));
    assert!(rt; place == indexed);
    let bad = HqInst {
        reserved: 1,
        ..load
    };
    assert_eq!(rt;
        hq_operands(&bad, &mut reg, &mut vvvv, &mut place, &mut imm),
        HQ_BAD_INST
    );
    assert_eq!(rt; reg, 255);
}

/// What isn't an instruction, a line or room is refused, and nothing is written.
#[test]
fn what_is_refused_stays(rt: HostRuntime) {
    let (mut code, mut len, mut told) = ([0xCC; 3], 77, HqUse::NOTHING);
    let bad = HqInst {
        reserved: 1,
        ..NO_INST
    };
    assert_eq!(rt;
        hq_encode(&bad, &mut code, &mut len, &mut told),
        HQ_BAD_INST
    );
    let addition = HqInst::of(&ADDQ_MI_SXB.reg(0, 1));
    assert_eq!(rt;
        hq_encode(&addition, &mut code, &mut len, &mut told),
        HQ_FULL
    );
    let mut inst = NO_INST;
    assert_eq!(rt;
        hq_make(584, HQ_NO_REG, HQ_NO_REG, &NO_PLACE, HQ_NO_IMM, &mut inst),
        HQ_BAD_LINE
    );
    let mut reading = NO_READING;
    assert_eq!(rt; hq_decode(&[0x0F, 0x05], &mut reading), HQ_NONE);
    assert_eq!(rt; code.as_slice(), [0xCC, 0xCC, 0xCC].as_slice());
    assert_eq!(rt; len, 77);
    assert!(rt; inst == NO_INST);
}

/// A virtual register is a fault until it's renamed. Two instructions of the same integers are one.
#[test]
fn a_virtual_register_is_renamed(rt: HostRuntime) {
    let mut homes = [0u8; 256];
    homes[40] = 9;
    let core = ADDQ_MI_SXB.reg(40, 1);
    let mut inst = HqInst::of(&core);
    assert!(rt; hq_check(&inst) != HQ_OK);
    assert_eq!(rt; hq_rename(&mut inst, &homes), HQ_OK);
    assert_eq!(rt; hq_check(&inst), HQ_OK);
    assert!(rt; inst == HqInst::of(&ADDQ_MI_SXB.reg(9, 1)));
    integers_tell_instructions(&core, &core);
}
