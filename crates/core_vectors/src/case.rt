//! A line of the file.

use crate::columns::{optional, place_of, value_of};
use cax64_sink::FixedSink;
use std::alloc::{AllocError, Global};
use x64_core::Core;
use x64_lines::Op;
use x64_reader::read_core;
use x64_text::CoreText;

/// The instruction of a line, where each column is of its form and the operands are those of the line of the core.
fn core_of(line: &str) -> Option<Core> {
    let mut columns = line.split('\t');
    let op = Op::from_number(value_of(columns.next()?)?)?;
    let _name = columns.next()?;
    let reg = optional(columns.next()?)?;
    let place = place_of(columns.next()?)?;
    let imm = optional(columns.next()?)?;
    Core::new(op, reg, None, place, imm).ok()
}

/// Whether what came is what the line has in its last columns.
pub(crate) fn is_wanted(line: &str, came: &str) -> bool {
    let mut columns = line.split('\t').skip(5);
    let (bytes, text) = (columns.next(), columns.next());
    came.split_once('\t')
        .is_some_and(|(code, shown)| Some(code) == bytes && Some(shown) == text)
}

/// Whether bytes are read as this instruction, and whether none of their fronts is read.
fn is_read_back(core: Core, bytes: &[u8]) -> bool {
    let Some(reading) = read_core(bytes) else {
        return false;
    };
    for length in 0..bytes.len() {
        if read_core(&bytes[..length]).is_some() {
            return false;
        }
    }
    usize::from(reading.length) == bytes.len() && Core::of_reading(&reading) == Some(core)
}

/// The text of an instruction, if its registers have names.
fn push_text(alloc: Global, core: Core, came: &mut String) -> Result<(), AllocError> {
    if core.nameable() {
        let text = core.to_string(alloc)?;
        came.push_str(text.as_str())?;
    }
    Ok(())
}

/// The bytes of the instruction of a line as hexadecimal pairs and its text, or why there are none.
pub(crate) fn outcome_of(alloc: Global, line: &str) -> Result<String, AllocError> {
    let mut came = String::new(alloc);
    let Some(core) = core_of(line) else {
        came.push_str("nothing: the line isn't of its form")?;
        return Ok(came);
    };
    let mut sink = FixedSink::<13>::new();
    match core.encode_checked(&mut sink) {
        Ok(()) if is_read_back(core, sink.bytes()) => {
            for byte in sink.bytes() {
                write!(came, "{byte:02x}")?;
            }
            came.push('\t')?;
            push_text(alloc, core, &mut came)?;
        }
        Ok(()) => came.push_str("nothing: it's read otherwise")?,
        Err(_) => came.push_str("nothing: it can't be encoded")?,
    }
    Ok(came)
}
