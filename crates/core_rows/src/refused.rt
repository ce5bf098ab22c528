//! What isn't made or encoded, and why.

use crate::words::{at, has_bytes, indexed};
use cax64_address::amode::{Amode, Scale};
use cax64_address::offset::{AmodeOffset, AmodeOffsetPlusKnownOffset};
use cax64_encoder::{EncodeError, Fault};
use cax64_sink::{FixedSink, Recorder, SinkError};
use std::alloc::{AllocError, Global};
use std::error::Error;
use x64_core::ops::arithmetic::{ADDQ_MI_SXB, ADDQ_RM, ADDW_I};
use x64_core::ops::control::RETQ_ZO;
use x64_core::ops::moves::{LEAQ_RM, MOVQ_MI_SXL, MOVQ_RM};
use x64_core::ops::rows::{LOCK_ADDL_MI, MULXQ_RVM, VCMPPS_B};
use x64_core::{Core, CorePlace};
use x64_lines::{Op, OperandError};

/// The registers in reg and in vvvv, the place, and the immediate have to be those of the line.
#[test]
fn operands_of_another_shape(rt: HostRuntime) {
    assert!(rt;
        Core::new(LEAQ_RM.op(), Some(0), None, CorePlace::Register(7), None)
            == Err(OperandError::Place)
    );
    assert!(rt;
        Core::new(MOVQ_RM.op(), None, None, CorePlace::Register(7), None)
            == Err(OperandError::Register)
    );
    assert!(rt;
        Core::new(MOVQ_RM.op(), Some(0), Some(0), CorePlace::Register(7), None)
            == Err(OperandError::Vvvv)
    );
    assert!(rt;
        Core::new(MOVQ_RM.op(), Some(0), None, CorePlace::Absent, None) == Err(OperandError::Place)
    );
    assert!(rt;
        Core::new(MOVQ_RM.op(), Some(0), None, CorePlace::Register(7), Some(1))
            == Err(OperandError::Immediate)
    );
    assert!(rt;
        Core::new(ADDQ_MI_SXB.op(), None, None, CorePlace::Register(7), None)
            == Err(OperandError::Immediate)
    );
    assert!(rt;
        Core::new(RETQ_ZO.op(), None, None, CorePlace::Register(7), None)
            == Err(OperandError::Place)
    );
}

/// An immediate has to be in the line's range.
#[test]
fn immediates_out_of_range(rt: HostRuntime) {
    assert!(rt;
        Core::new(
            ADDQ_MI_SXB.op(),
            None,
            None,
            CorePlace::Register(0),
            Some(128)
        ) == Err(OperandError::Range)
    );
    assert!(rt;
        Core::new(
            ADDQ_MI_SXB.op(),
            None,
            None,
            CorePlace::Register(0),
            Some(-129)
        ) == Err(OperandError::Range)
    );
    assert!(rt;
        Core::new(
            MOVQ_MI_SXL.op(),
            None,
            None,
            CorePlace::Register(0),
            Some(1 << 31)
        ) == Err(OperandError::Range)
    );
    assert!(rt;
        Core::new(
            LOCK_ADDL_MI.op(),
            None,
            None,
            CorePlace::of_amode(&at(0, 0)),
            Some(1 << 32)
        ) == Err(OperandError::Range)
    );
    assert!(rt;
        Core::new(
            LOCK_ADDL_MI.op(),
            None,
            None,
            CorePlace::of_amode(&at(0, 0)),
            Some(-1)
        ) == Err(OperandError::Range)
    );
    assert!(rt;
        Core::new(ADDW_I.op(), None, None, CorePlace::Absent, Some(65536))
            == Err(OperandError::Range)
    );
}

/// Operands of the line's shape make what its constant makes.
#[test]
fn operands_of_the_shape(rt: HostRuntime) {
    assert!(rt;
        Core::new(
            ADDQ_MI_SXB.op(),
            None,
            None,
            CorePlace::Register(0),
            Some(-128)
        ) == Ok(ADDQ_MI_SXB.reg(0, -128))
    );
    assert!(rt;
        Core::new(ADDW_I.op(), None, None, CorePlace::Absent, Some(65535)) == Ok(ADDW_I.imm(65535))
    );
    assert!(rt;
        Core::new(MOVQ_RM.op(), Some(3), None, CorePlace::Register(0), None)
            == Ok(MOVQ_RM.regs(3, 0))
    );
    let made = Core::new(
        VCMPPS_B.op(),
        Some(1),
        Some(2),
        CorePlace::Register(0),
        Some(7),
    );
    assert!(rt; made == Ok(VCMPPS_B.regs(1, 2, 0, 7)));
    assert!(rt; Op::from_number(584) == None);
    assert!(rt; Op::from_number(583).is_some());
}

/// What `encode_checked` says of an instruction, and that it puts nothing where it finds a fault.
fn fault_of(core: &Core) -> Option<Fault> {
    let mut sink = FixedSink::<13>::new();
    match core.encode_checked(&mut sink) {
        Err(EncodeError::Fault(fault)) if sink.bytes() == [].as_slice() => Some(fault),
        _ => None,
    }
}

/// Registers are counted from 0: reg, vvvv, base, index.
#[test]
fn registers_that_cannot_be(rt: HostRuntime) {
    assert!(rt; fault_of(&ADDQ_RM.regs(16, 7)) == Some(Fault::Register(0)));
    assert!(rt; fault_of(&ADDQ_RM.regs(7, 16)) == Some(Fault::Register(1)));
    assert!(rt; fault_of(&MULXQ_RVM.regs(1, 255, 2)) == Some(Fault::Register(1)));
    assert!(rt; fault_of(&MULXQ_RVM.regs(1, 2, 255)) == Some(Fault::Register(2)));
    assert!(rt; fault_of(&LEAQ_RM.mem(0, at(16, 0))) == Some(Fault::Register(1)));
    assert!(rt; fault_of(&LEAQ_RM.mem(0, indexed(1, 4, Scale::One, 0))) == Some(Fault::Index(2)));
    assert!(rt;
        fault_of(&LEAQ_RM.mem(0, indexed(1, 20, Scale::One, 0))) == Some(Fault::Register(2))
    );
}

/// A late offset has to be known, and its sum with the displacement an `i32`.
#[test]
fn late_offsets(rt: HostRuntime) {
    let late = AmodeOffsetPlusKnownOffset {
        simm32: AmodeOffset::new(i32::MAX),
        offset: Some(9),
    };
    let core = LEAQ_RM.mem(
        0,
        Amode::ImmReg {
            base: 7,
            simm32: late,
            trap: None,
        },
    );
    assert!(rt; fault_of(&core) == Some(Fault::Unknown(9)));
    let mut recorder = Recorder::new(rt.alloc());
    recorder.set_offset(9, 1);
    assert!(rt; core.first_fault(&recorder) == Some(Fault::Range));
    recorder.set_offset(9, -1);
    assert!(rt; core.first_fault(&recorder) == None);
    assert!(rt; core.encode_checked(&mut recorder) == Ok(()));
    assert!(rt; recorder.bytes() == [0x48, 0x8D, 0x87, 0xFE, 0xFF, 0xFF, 0x7F].as_slice());
}

/// A refusal of the sink leaves a front.
#[test]
fn a_full_sink(rt: HostRuntime) {
    let mut sink = FixedSink::<8>::new();
    let core = MOVQ_MI_SXL.mem(at(4, 0), -2);
    assert!(rt; core.encode_checked(&mut sink) == Ok(()));
    assert!(rt; has_bytes(&core, sink.bytes()));
    let mut small = FixedSink::<7>::new();
    assert!(rt; core.encode_checked(&mut small) == Err(EncodeError::Sink(SinkError::Full)));
    assert!(rt; small.bytes().len() < 8);
    assert!(rt; sink.bytes().starts_with(small.bytes()));
}

/// Whether any error is told so.
fn tells<E: Error>(alloc: Global, error: &E, text: &str) -> Result<bool, AllocError> {
    Ok(error.to_string(alloc)?.as_str() == text)
}

#[test]
fn refusals_print(rt: HostRuntime) -> Result<(), AllocError> {
    let alloc = rt.alloc();
    let register = "the line has a register in reg and none is given, or the other way round";
    assert!(rt; tells(alloc, &OperandError::Register, register)?);
    let vvvv = "the line has a register in vvvv and none is given, or the other way round";
    assert!(rt; tells(alloc, &OperandError::Vvvv, vvvv)?);
    let place = "a register, memory or nothing is given where the line has another of these";
    assert!(rt; tells(alloc, &OperandError::Place, place)?);
    let immediate = "the line has an immediate and none is given, or the other way round";
    assert!(rt; tells(alloc, &OperandError::Immediate, immediate)?);
    assert!(rt;
        tells(
            alloc,
            &OperandError::Range,
            "the immediate is out of the line's range"
        )?
    );
    Ok(())
}
