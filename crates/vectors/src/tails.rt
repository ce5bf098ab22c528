//! ModR/M, SIB and displacement.

use crate::columns::{write_bytes, write_calls, write_notices};
use crate::encoding::recorder_of;
use cax64_test_support::{CallRecorder, RefusingSink};
use cranelift_assembler_x64::rex::Disp;
use cranelift_assembler_x64::{Amode, Recorder, emit_modrm_sib_disp};
use named_instructions::address::{Parts, amode_of, target_of};
use named_instructions::fields::{Fault, Fields, parsed};
use std::alloc::Global;

pub(crate) fn answer_tail(
    alloc: Global,
    fields: &mut Fields<'_>,
    came: &mut String,
) -> Result<(), Fault> {
    let enc_g = fields.number(255)?;
    let parts = Parts {
        base: Some(fields.number(15)?),
        index: fields.optional(15)?,
        scale: fields.optional(3)?,
        displacement: fields.signed()?,
        late: None,
        trap: None,
    };
    let factor = fields.factor()?;
    let address = parts.amode()?;
    let mut sink: Vec<u8> = Vec::new(alloc);
    if !address.is_addressable(&sink) {
        return Err(Fault::Malformed);
    }
    emit_modrm_sib_disp(&mut sink, enc_g, &address, 0, factor).map_err(|_| Fault::NoMemory)?;
    write_bytes(came, &sink)
}

pub(crate) fn answer_relative(
    alloc: Global,
    fields: &mut Fields<'_>,
    came: &mut String,
) -> Result<(), Fault> {
    let enc_g = fields.number(255)?;
    let target = target_of(fields.text()?)?;
    let bytes_at_end = fields.number(255)?;
    let address: Amode<u8> = Amode::RipRelative { target };
    let mut sink = CallRecorder::new(alloc, Recorder::new(alloc));
    emit_modrm_sib_disp(&mut sink, enc_g, &address, bytes_at_end, None).map_err(
        |_| Fault::NoMemory,
    )?;
    write_calls(came, &sink)
}

/// How many calls a sink takes.
fn calls_of(text: &str) -> Result<usize, Fault> {
    match text {
        "-" => Ok(usize::MAX),
        calls => parsed(calls),
    }
}

/// Any address, where it is addressable, into a sink that takes so many calls: what stands in it afterwards.
pub(crate) fn answer_operand(
    alloc: Global,
    fields: &mut Fields<'_>,
    came: &mut String,
) -> Result<(), Fault> {
    let enc_g = fields.number(255)?;
    let address = amode_of(fields.text()?)?;
    let bytes_at_end = fields.number(255)?;
    let factor = fields.factor()?;
    let recorder = recorder_of(alloc, fields.text()?)?;
    let mut sink = RefusingSink::new(recorder, calls_of(fields.text()?)?);
    if !address.is_addressable(&sink) {
        came.push_str("-\t-\t-")?;
        return Ok(());
    }
    let displacement = address.displacement(&sink);
    let _ = emit_modrm_sib_disp(&mut sink, enc_g, &address, bytes_at_end, factor);
    write!(came, "{displacement}\t")?;
    let recorder = sink.into_recorder();
    write_bytes(came, recorder.bytes())?;
    came.push('\t')?;
    write_notices(came, recorder.notices())
}

fn write_class(came: &mut String, class: Disp) -> Result<(), Fault> {
    match class {
        Disp::None => came.push_str("none")?,
        Disp::Imm8(value) => write!(came, "imm8:{value}")?,
        Disp::Imm32(value) => write!(came, "imm32:{value}")?,
    }
    Ok(())
}

pub(crate) fn answer_disp(
    alloc: Global,
    fields: &mut Fields<'_>,
    came: &mut String,
) -> Result<(), Fault> {
    let value = fields.signed()?;
    let factor = fields.factor()?;
    let mut class = Disp::new(value, factor);
    write_class(came, class)?;
    let m0d = class.m0d();
    write!(came, "\t{m0d}\t")?;
    let mut sink: Vec<u8> = Vec::new(alloc);
    class.emit(&mut sink).map_err(|_| Fault::NoMemory)?;
    write_bytes(came, &sink)?;
    came.push('\t')?;
    class.force_immediate();
    write_class(came, class)
}
