//! What only instructions of the core have: they are made of others and of numbers, renamed, and read.

use crate::timing::{ROUNDS, time_if};
use cranelift_assembler_x64::{Numbers, RowAndOperands};
use std::alloc::Global;
use std::io;
use std::io::ErrorKind;
use std::time::{Duration, Instant};
use x64_core::{Core, CorePlace};
use x64_lines::Op;
use x64_lines::shapes::{OpFields, OpImm};
use x64_of_port::{NotCore, core_of};
use x64_place::FlatPlace;
use x64_reader::{CoreReading, read_core};

/// What is timed of the core alone.
#[derive(Clone, Copy)]
pub(crate) enum CoreCall {
    Rename,
    RenameTestAndEncode,
    Read,
}

/// What is timed of them, in an order in which there is code before it is read.
pub(crate) const CORE_CALLS: [CoreCall; 3] = [
    CoreCall::Rename,
    CoreCall::RenameTestAndEncode,
    CoreCall::Read,
];

impl CoreCall {
    pub(crate) fn name(self) -> &'static str {
        match self {
            CoreCall::Rename => "rename",
            CoreCall::RenameTestAndEncode => "rename_test_and_encode",
            CoreCall::Read => "read",
        }
    }
}

/// Adds the instruction of the core that this is. Whether there is one, or it's a no-operation, of which there is none.
fn take<I: RowAndOperands<Family = Numbers>>(
    inst: &I,
    code: &Vec<u8>,
    made: &mut Vec<Core>,
) -> bool {
    match core_of(inst, code) {
        Ok(core) => {
            // The prover takes a `push` of an instruction only in a function that has its place's type too.
            let _place: CorePlace = core.place();
            made.push(core).is_ok()
        }
        Err(NotCore::Nop) => true,
        Err(NotCore::Fault(_)) => false,
    }
}

/// Makes an instruction of the core of each that there is one of: all but no-operations.
fn take_all<I: RowAndOperands<Family = Numbers>>(
    insts: &[I],
    code: &Vec<u8>,
    made: &mut Vec<Core>,
) -> bool {
    made.clear();
    for inst in insts {
        if !take(inst, code, made) {
            return false;
        }
    }
    true
}

/// The best time of all rounds of making them.
pub(crate) fn best_time_of_taking<I: RowAndOperands<Family = Numbers>>(
    rt: &HostRuntime,
    insts: &[I],
    code: &Vec<u8>,
    made: &mut Vec<Core>,
) -> io::Result<Duration> {
    let mut best = Duration::MAX;
    for _ in 0..ROUNDS {
        let start = Instant::now(rt)?;
        let is_done = take_all(insts, code, made);
        best = best.min(time_if(rt, start, is_done)?);
    }
    Ok(best)
}

/// What `of_numbers` makes an instruction of.
#[derive(Clone, Copy)]
pub(crate) struct MemReg {
    op: Op,
    place: FlatPlace,
    reg: u8,
}

/// The numbers of an instruction that is memory and a register.
fn numbers_of(inst: &Core) -> Option<MemReg> {
    let shape = inst.op().shape();
    if !matches!((shape.fields, shape.imm), (OpFields::RegMem, OpImm::None)) {
        return None;
    }
    Some(MemReg {
        op: inst.op(),
        place: FlatPlace::of_amode(&inst.memory()?),
        reg: inst.reg()?,
    })
}

/// The instructions of a list that are memory and a register, by their numbers.
pub(crate) fn memory_and_register(alloc: Global, insts: &[Core]) -> io::Result<Vec<MemReg>> {
    let mut found = Vec::new(alloc);
    for inst in insts {
        if let Some(numbers) = numbers_of(inst) {
            found
                .push(numbers)
                .map_err(|_| io::Error::from(ErrorKind::OutOfMemory))?;
        }
    }
    Ok(found)
}

/// Adds the instruction of these numbers. Whether there is one.
fn make(numbers: &MemReg, made: &mut Vec<Core>) -> bool {
    match Core::of_numbers(numbers.op, numbers.reg, 0, numbers.place, 0) {
        Some(core) => {
            let _place: CorePlace = core.place();
            made.push(core).is_ok()
        }
        None => false,
    }
}

/// Makes an instruction of each, in place of what was made before. Whether all is made.
fn make_all(numbers: &[MemReg], made: &mut Vec<Core>) -> bool {
    made.clear();
    for one in numbers {
        if !make(one, made) {
            return false;
        }
    }
    true
}

/// The best time of all rounds of making instructions of numbers.
pub(crate) fn best_time_of_making(rt: &HostRuntime, numbers: &[MemReg]) -> io::Result<Duration> {
    let mut made = Vec::new(rt.alloc());
    let mut best = Duration::MAX;
    for _ in 0..ROUNDS {
        let start = Instant::now(rt)?;
        let is_done = make_all(numbers, &mut made);
        best = best.min(time_if(rt, start, is_done)?);
    }
    Ok(best)
}

/// Reads the first instruction, and leaves all that is read with the caller.
#[inline(never)]
fn read_to(code: &[u8], kept: &mut Option<CoreReading>) {
    *kept = read_core(code);
}

/// Whether the code is that of so many instructions. Each reading is kept until the next one.
fn reads_as(code: &[u8], count: usize) -> bool {
    let mut rest = code;
    let mut kept = None;
    for _ in 0..count {
        read_to(rest, &mut kept);
        let Some(reading) = kept else {
            return false;
        };
        let Some(behind) = rest.get(usize::from(reading.length)..) else {
            return false;
        };
        rest = behind;
    }
    rest.is_empty()
}

/// A home for each register: itself, so that all stays encodable.
fn homes() -> [u8; 256] {
    let mut homes = [0; 256];
    let mut number = 0u8;
    for home in &mut homes {
        *home = number;
        number = number.wrapping_add(1);
    }
    homes
}

fn rename_all(insts: &mut [Core], homes: &[u8; 256]) -> bool {
    for inst in insts {
        inst.rename(homes);
    }
    true
}

/// Renames, tests and encodes each instruction, one after the other.
fn put_renamed(insts: &[Core], homes: &[u8; 256], code: &mut Vec<u8>) -> bool {
    for inst in insts {
        let mut inst = *inst;
        inst.rename(homes);
        if !inst.is_encodable(&*code) || inst.encode(code).is_err() {
            return false;
        }
    }
    true
}

/// The time of one round. What is read is the code of the last call that encodes.
fn time_of_core(
    rt: &HostRuntime,
    call: CoreCall,
    insts: &mut [Core],
    code: &mut Vec<u8>,
) -> io::Result<Duration> {
    let homes = homes();
    if !matches!(call, CoreCall::Read) {
        code.clear();
    }
    let start = Instant::now(rt)?;
    let is_done = match call {
        CoreCall::Rename => rename_all(insts, &homes),
        CoreCall::RenameTestAndEncode => put_renamed(insts, &homes, code),
        CoreCall::Read => reads_as(code.as_slice(), insts.len()),
    };
    time_if(rt, start, is_done)
}

/// The best time of all rounds.
pub(crate) fn best_time_of_core(
    rt: &HostRuntime,
    call: CoreCall,
    insts: &mut [Core],
    code: &mut Vec<u8>,
) -> io::Result<Duration> {
    let mut best = Duration::MAX;
    for _ in 0..ROUNDS {
        best = best.min(time_of_core(rt, call, insts, code)?);
    }
    Ok(best)
}
