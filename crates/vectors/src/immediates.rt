//! Immediates.

use crate::columns::write_bytes;
use cranelift_assembler_x64::{
    Extension, FixedSink, Imm8, Imm16, Imm32, Imm64, OutOfRange, Simm8, Simm16, Simm32, SinkError,
};
use named_instructions::fields::{Fault, Fields, parsed};
use std::alloc::Global;
use std::str::FromStr;

/// The immediate of a number, made and cloned through the traits.
fn immediate<N: FromStr, T: From<N> + Clone>(text: &str) -> Result<T, Fault>
where
    <N as FromStr>::Err: Drop,
{
    let made = T::from(parsed::<N>(text)?);
    made.clone().map_err(|_| Fault::NoMemory)
}

/// Sixty-four bits are the only ones whose value nothing else asks for.
fn immediate_of_64_bits(text: &str) -> Result<Imm64, Fault> {
    Ok(Imm64::new(immediate::<u64, Imm64>(text)?.value()))
}

fn put(kind: &str, text: &str, sink: &mut FixedSink<8>) -> Result<Result<(), SinkError>, Fault> {
    Ok(match kind {
        "Imm8" => immediate::<u8, Imm8>(text)?.encode(sink),
        "Imm16" => immediate::<u16, Imm16>(text)?.encode(sink),
        "Imm32" => immediate::<u32, Imm32>(text)?.encode(sink),
        "Imm64" => immediate_of_64_bits(text)?.encode(sink),
        "Simm8" => immediate::<i8, Simm8>(text)?.encode(sink),
        "Simm16" => immediate::<i16, Simm16>(text)?.encode(sink),
        "Simm32" => immediate::<i32, Simm32>(text)?.encode(sink),
        _ => return Err(Fault::Malformed),
    })
}

fn extension_of(text: &str) -> Result<Extension, Fault> {
    Ok(match text {
        "None" => Extension::None,
        "SignExtendQuad" => Extension::SignExtendQuad,
        "SignExtendLong" => Extension::SignExtendLong,
        "SignExtendWord" => Extension::SignExtendWord,
        _ => return Err(Fault::Malformed),
    })
}

/// The text of a signed immediate, which has to fit its extension.
fn signed_text(alloc: Global, kind: &str, text: &str, by: Extension) -> Result<String, Fault> {
    match kind {
        "Simm8" => {
            let imm = immediate::<i8, Simm8>(text)?;
            if imm.fits_extension(by) {
                return Ok(imm.to_string(alloc, by)?);
            }
        }
        "Simm16" => {
            let imm = immediate::<i16, Simm16>(text)?;
            if imm.fits_extension(by) {
                return Ok(imm.to_string(alloc, by)?);
            }
        }
        "Simm32" => {
            let imm = immediate::<i32, Simm32>(text)?;
            if imm.fits_extension(by) {
                return Ok(imm.to_string(alloc, by)?);
            }
        }
        _ => {}
    }
    Err(Fault::Malformed)
}

/// The text of an immediate, unsigned ones without an extension.
fn text_of(alloc: Global, kind: &str, text: &str, by: &str) -> Result<String, Fault> {
    if by != "-" {
        return signed_text(alloc, kind, text, extension_of(by)?);
    }
    Ok(match kind {
        "Imm8" => immediate::<u8, Imm8>(text)?.to_string(alloc)?,
        "Imm16" => immediate::<u16, Imm16>(text)?.to_string(alloc)?,
        "Imm32" => immediate::<u32, Imm32>(text)?.to_string(alloc)?,
        "Imm64" => immediate_of_64_bits(text)?.to_string(alloc)?,
        _ => return Err(Fault::Malformed),
    })
}

pub(crate) fn answer_immediate(
    alloc: Global,
    fields: &mut Fields<'_>,
    came: &mut String,
) -> Result<(), Fault> {
    let kind = fields.text()?;
    let value = fields.text()?;
    let text = text_of(alloc, kind, value, fields.text()?)?;
    came.push_str(text.as_str())?;
    came.push('\t')?;
    let mut sink = FixedSink::new();
    if put(kind, value, &mut sink)? != Ok(()) {
        came.push_str("refused ")?;
    }
    write_bytes(came, sink.bytes())
}

/// The immediate of a number that may be out of its range.
fn tried<T: TryFrom<i32>>(number: i32) -> Result<T, T::Error> {
    T::try_from(number)
}

fn value_of(kind: &str, number: i32) -> Result<Result<i64, OutOfRange>, Fault> {
    Ok(match kind {
        "Imm8" => tried::<Imm8>(number).map(|imm| imm.value() as i64),
        "Imm16" => tried::<Imm16>(number).map(|imm| imm.value() as i64),
        "Imm32" => Ok(Imm32::from(number).value() as i64),
        "Simm8" => tried::<Simm8>(number).map(|imm| imm.value() as i64),
        "Simm16" => tried::<Simm16>(number).map(|imm| imm.value() as i64),
        _ => return Err(Fault::Malformed),
    })
}

pub(crate) fn answer_range(fields: &mut Fields<'_>, came: &mut String) -> Result<(), Fault> {
    let kind = fields.text()?;
    match value_of(kind, fields.signed()?)? {
        Ok(value) => write!(came, "{value}")?,
        Err(OutOfRange) => came.push('-')?,
    }
    Ok(())
}
