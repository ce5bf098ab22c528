//! What is read from bytes.

ghost use Rattle.std.specs.Prelude.{◌<◌, IfOk};

use cranelift_assembler_x64::reader::{Place, Reading, RegView, read_inst};
use named_instructions::fields::{Fault, Fields};
use std::alloc::Global;
use x64_core::Core;
use x64_lines::Op;
use x64_reader::{CoreReading, read_core};

fn digit_of(byte: u8) -> Result<u8, Fault>
    ensures { IfOk result (λ digit. digit < 16) }
{
    match byte {
        b'0'..=b'9' => Ok(byte - b'0'),
        b'a'..=b'f' => Ok(byte - b'a' + 10),
        _ => Err(Fault::Malformed),
    }
}

/// The bytes of hexadecimal pairs.
fn bytes_of(alloc: Global, text: &str) -> Result<Vec<u8>, Fault> {
    let mut bytes = Vec::new(alloc);
    if text == "-" {
        return Ok(bytes);
    }
    for pair in text.as_bytes().chunks(2) {
        match pair {
            [high, low] => {
                let byte = digit_of(*high)? * 16 + digit_of(*low)?;
                bytes.push(byte).map_err(|_| Fault::NoMemory)?;
            }
            _ => return Err(Fault::Malformed),
        }
    }
    Ok(bytes)
}

fn write_view(came: &mut String, view: RegView) -> Result<(), Fault> {
    match view {
        RegView::Low(number) => write!(came, "low:{number}")?,
        RegView::High(number) => write!(came, "high:{number}")?,
    }
    Ok(())
}

fn write_memory(
    came: &mut String,
    base: Option<u8>,
    index: Option<(u8, u8)>,
    disp: i32,
) -> Result<(), Fault> {
    match base {
        Some(number) => write!(came, "mem:base={number}")?,
        None => came.push_str("mem:base=-")?,
    }
    match index {
        Some((number, factor)) => write!(came, ",index={number}*{factor}")?,
        None => came.push_str(",index=-")?,
    }
    write!(came, ",disp={disp}")?;
    Ok(())
}

fn write_place(came: &mut String, place: Place) -> Result<(), Fault> {
    match place {
        Place::Reg(view) => {
            came.push_str("reg:")?;
            write_view(came, view)
        }
        Place::Mem { base, index, disp } => write_memory(came, base, index, disp),
        Place::Rip(disp) => {
            write!(came, "rip:{disp}")?;
            Ok(())
        }
    }
}

/// Row, length, tail, register in reg, register in vvvv, place and immediate.
fn write_reading(came: &mut String, reading: &Reading) -> Result<(), Fault> {
    let (name, length, tail) = (reading.row.name(), reading.length, reading.tail);
    write!(came, "{name}\t{length}\t{tail}\t")?;
    match reading.reg {
        Some(view) => write_view(came, view)?,
        None => came.push('-')?,
    }
    match reading.vvvv {
        Some(number) => write!(came, "\t{number}\t")?,
        None => came.push_str("\t-\t")?,
    }
    match reading.place {
        Some(place) => write_place(came, place)?,
        None => came.push('-')?,
    }
    match reading.imm {
        Some(value) => write!(came, "\t{value}")?,
        None => came.push_str("\t-")?,
    }
    Ok(())
}

/// The length of a proper front that is read as an instruction, if there is one.
fn shorter_reading(bytes: &[u8]) -> Option<usize> {
    for length in 0..bytes.len() {
        if read_inst(&bytes[..length]).is_some() {
            return Some(length);
        }
    }
    None
}

/// Notes a front of an instruction's bytes that is read as one.
pub(crate) fn note_front(came: &mut String, bytes: &[u8]) -> Result<(), Fault> {
    if let Some(length) = shorter_reading(bytes) {
        write!(came, " but the first {length} bytes are read")?;
    }
    Ok(())
}

/// Whether a reading is that of the row's line.
fn is_of_its_line(reading: &Reading, line: &CoreReading) -> bool {
    line.op == Op::of_row(reading.row)
        && line.length == reading.length
        && line.tail == reading.tail
        && line.reg == reading.reg
        && line.vvvv == reading.vvvv
        && line.place == reading.place
        && line.imm == reading.imm
}

/// Whether no instruction of the core is made of a reading: it names a high byte, or memory without a base or relative to the
/// end.
fn has_no_core(reading: &CoreReading) -> bool {
    let is_high = matches!(reading.reg, Some(RegView::High(_)));
    let has_no_place = matches!(
        reading.place,
        Some(Place::Reg(RegView::High(_)) | Place::Rip(_) | Place::Mem { base: None, .. })
    );
    is_high || has_no_place
}

/// Whether what is made of a reading is read as the same operands, and isn't longer.
fn is_made_again(alloc: Global, reading: &CoreReading) -> bool {
    let Some(core) = Core::of_reading(reading) else {
        return has_no_core(reading);
    };
    let mut code: Vec<u8> = Vec::new(alloc);
    if core.encode_checked(&mut code).is_err() {
        return false;
    }
    let Some(again) = read_core(code.as_slice()) else {
        return false;
    };
    again.length <= reading.length
        && CoreReading {
            length: again.length,
            tail: again.tail,
            ..*reading
        } == again
}

/// Notes where the core's reader reads something else, or nothing is made again of what it reads.
fn note_core(
    alloc: Global,
    came: &mut String,
    reading: &Reading,
    bytes: &[u8],
) -> Result<(), Fault> {
    let Some(line) = read_core(bytes) else {
        came.push_str(" but the core's reader reads nothing")?;
        return Ok(());
    };
    if !is_of_its_line(reading, &line) {
        came.push_str(" but the core's reader reads another")?;
    } else if !is_made_again(alloc, &line) {
        came.push_str(" but the core of it is read as another")?;
    }
    Ok(())
}

pub(crate) fn answer_reading(
    alloc: Global,
    fields: &mut Fields<'_>,
    came: &mut String,
) -> Result<(), Fault> {
    let bytes = bytes_of(alloc, fields.text()?)?;
    // how the bytes were made
    let _ = fields.text()?;
    match read_inst(&bytes) {
        Some(reading) => {
            write_reading(came, &reading)?;
            note_core(alloc, came, &reading, &bytes)?;
            let own = bytes.get(..usize::from(reading.length));
            note_front(came, own.ok_or(Fault::Malformed)?)
        }
        None => {
            came.push_str("none\t-\t-\t-\t-\t-\t-")?;
            if read_core(&bytes).is_some_and(|line| line.op.row().is_some()) {
                came.push_str(" but the core's reader reads a row")?;
            }
            Ok(())
        }
    }
}
