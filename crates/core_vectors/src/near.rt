//! A line of `near.tsv`: what is to be read, how many bytes it has, and bytes.

ghost use Rattle.std.specs.Prelude.{◌<◌, IfSome};

use crate::columns::value_of;
use std::alloc::{AllocError, Global};
use x64_reader::{CoreReading, read_core};

fn digit_of(byte: u8) -> Option<u8>
    ensures { IfSome result (λ digit. digit < 16) }
{
    match byte {
        b'0'..=b'9' => Some(byte - b'0'),
        b'a'..=b'f' => Some(byte - b'a' + 10),
        _ => None,
    }
}

fn byte_of(pair: &[u8]) -> Option<u8> {
    match pair {
        [high, low] => Some(digit_of(*high)? * 16 + digit_of(*low)?),
        _ => None,
    }
}

/// The bytes of hexadecimal pairs.
fn bytes_of(alloc: Global, text: &str) -> Result<Option<Vec<u8>>, AllocError> {
    let mut bytes = Vec::new(alloc);
    for pair in text.as_bytes().chunks(2) {
        let Some(byte) = byte_of(pair) else {
            return Ok(None);
        };
        bytes.push(byte)?;
    }
    Ok(Some(bytes))
}

/// Whether a reading is that of the number of a line and of the length, and nothing is read where a word says why not.
fn is_as_said(said: &str, length: &str, reading: Option<CoreReading>) -> bool {
    match reading {
        Some(reading) => {
            value_of(said) == Some(reading.op.number()) && value_of(length) == Some(reading.length)
        }
        None => value_of::<u16>(said).is_none(),
    }
}

/// What was read, in words.
fn text_of(alloc: Global, reading: Option<CoreReading>) -> Result<String, AllocError> {
    let mut text = String::new(alloc);
    match reading {
        Some(reading) => {
            let (number, length) = (reading.op.number(), reading.length);
            write!(text, "line {number} of {length} bytes")?;
        }
        None => text.push_str("nothing")?,
    }
    Ok(text)
}

/// What came of a line, where it isn't what the line says.
pub(crate) fn difference_of(alloc: Global, line: &str) -> Result<Option<String>, AllocError> {
    let mut columns = line.split('\t');
    let (Some(said), Some(length), Some(text)) = (columns.next(), columns.next(), columns.next())
    else {
        return Ok(Some(String::from_str(alloc, "nothing: a column is missing")?));
    };
    let Some(bytes) = bytes_of(alloc, text)? else {
        return Ok(Some(String::from_str(alloc, "nothing: these are no bytes")?));
    };
    let reading = read_core(&bytes);
    if is_as_said(said, length, reading) {
        return Ok(None);
    }
    Ok(Some(text_of(alloc, reading)?))
}
