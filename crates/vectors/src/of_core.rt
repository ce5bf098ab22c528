//! Instructions of the core, beside those of the port that they are.

use crate::encoding::recorder_of;
use crate::sinks::keep_the_same;
use cranelift_assembler_x64::{CodeSink, Notice, Numbers, Row, RowAndOperands};
use named_instructions::fields::Fault;
use std::alloc::Global;
use x64_core::Core;
use x64_lines::Op;
use x64_of_port::{NotCore, core_of};
use x64_reader::read_core;

/// The instruction of the core that one is that can be encoded for this sink. None of a no-operation.
pub(crate) fn core_if_any<I: RowAndOperands<Family = Numbers>, S: CodeSink>(
    inst: &I,
    sink: &S,
) -> Result<Option<Core>, Fault> {
    match core_of(inst, sink) {
        Ok(core) => Ok(Some(core)),
        Err(NotCore::Nop) => Ok(None),
        Err(NotCore::Fault(_)) => Err(Fault::Malformed),
    }
}

/// Whether bytes are read as this line, to their end.
fn read_as(bytes: &[u8], line: Op) -> bool {
    match read_core(bytes) {
        Some(reading) => reading.op == line && usize::from(reading.length) == bytes.len(),
        None => false,
    }
}

/// Whether an instruction of the core is of a row's line, and sinks that know these offsets keep these bytes and notices of it,
/// which are as many bytes as it says and are read as its line.
pub(crate) fn is_the_same(
    alloc: Global,
    core: &Core,
    row: Row,
    offsets: &str,
    bytes: &[u8],
    notices: &[Notice],
) -> Result<bool, Fault> {
    let sink = recorder_of(alloc, offsets)?;
    if !core.is_encodable(&sink) {
        return Ok(false);
    }
    let length = core.encoded_len(&sink);
    let is_its_line = core.op() == Op::of_row(row) && read_as(bytes, core.op());
    let is_its_length = usize::from(length) == bytes.len();
    let is_kept = keep_the_same(alloc, core, offsets, bytes, notices)?;
    Ok(is_its_line && is_its_length && is_kept)
}

/// Notes what came of instructions of the core, where that isn't what came of the port's.
pub(crate) fn note_core(came: &mut String, of_core: &str) -> Result<(), Fault> {
    if came.as_str() != of_core {
        write!(came, " but of the core {of_core}")?;
    }
    Ok(())
}
