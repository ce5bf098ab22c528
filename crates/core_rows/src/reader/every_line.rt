//! An instruction of every line, with registers and with memory.

use cax64_address::offset::AmodeOffset;
use cax64_sink::FixedSink;
use x64_core::{Core, CorePlace};
use x64_lines::lines::COUNT;
use x64_lines::shapes::{OpFields, OpImm};
use x64_lines::{Op, OperandError};
use x64_reader::read_core;

/// A place that a line of these fields takes: memory where it's asked for, or where no register may stand.
fn place_of(fields: OpFields, memory: bool) -> CorePlace {
    let register = CorePlace::Register(11);
    let at = CorePlace::Base {
        base: 12,
        trap: None,
        offset: None,
        displacement: AmodeOffset::new(24),
    };
    match fields {
        OpFields::Bare => CorePlace::Absent,
        OpFields::Mem | OpFields::RegMem => at,
        _ => if memory { at } else { register },
    }
}

/// An instruction of this line.
fn made(op: Op, memory: bool) -> Result<Core, OperandError> {
    let shape = op.shape();
    let reg = match shape.fields {
        OpFields::RegRm | OpFields::RegMem | OpFields::RegVvvvRm => Some(6),
        _ => None,
    };
    let vvvv = match shape.fields {
        OpFields::RegVvvvRm => Some(9),
        _ => None,
    };
    let imm = match shape.imm {
        OpImm::None => None,
        _ => Some(100),
    };
    Core::new(op, reg, vvvv, place_of(shape.fields, memory), imm)
}

/// Whether what is put is read as this instruction.
fn is_read_back(core: &Core) -> bool {
    let mut sink = FixedSink::<13>::new();
    if !core.is_encodable(&sink) || core.encode(&mut sink) != Ok(()) {
        return false;
    }
    match read_core(sink.bytes()) {
        Some(reading) => reading.op == core.op() && Core::of_reading(&reading) == Some(*core),
        None => false,
    }
}

/// Whether an instruction of the line of this number is read back.
fn line_is_read_back(number: u16, memory: bool) -> bool {
    let Some(op) = Op::from_number(number) else {
        return false;
    };
    match made(op, memory) {
        Ok(core) => is_read_back(&core),
        Err(_) => false,
    }
}

#[test]
fn all(rt: HostRuntime) {
    for number in 0..COUNT {
        assert!(rt; line_is_read_back(number, false));
        assert!(rt; line_is_read_back(number, true));
    }
}
