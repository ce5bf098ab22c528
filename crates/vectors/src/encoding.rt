//! Single instructions.

use crate::columns::{write_bytes, write_calls, write_fault, write_notices};
use crate::of_core::{core_if_any, is_the_same};
use crate::reading::note_front;
use crate::sinks::keep_the_same;
use crate::texts::{Texts, texts_of};
use crate::visits::VisitText;
use cax64_test_support::CallRecorder;
use cranelift_assembler_x64 as assembler;
use cranelift_assembler_x64::reader::read_inst;
use cranelift_assembler_x64::{
    EncodeError, Instruction, InstructionText, Numbers, Recorder, Row, RowAndOperands,
};
use named_instructions::fields::{Fault, Fields, parsed};
use named_instructions::{TakesInstruction, take_instruction};
use std::alloc::Global;
use x64_core::Core;
use x64_of_port::{NotCore, core_of};

/// An empty recorder that knows the offsets of a column.
pub(crate) fn recorder_of(alloc: Global, offsets: &str) -> Result<Recorder<Global>, Fault> {
    let mut recorder = Recorder::new(alloc);
    if offsets == "-" {
        return Ok(recorder);
    }
    for offset in offsets.split(',') {
        let (key, value) = offset.split_once('=').ok_or(Fault::Malformed)?;
        recorder.set_offset(parsed(key)?, parsed(value)?);
    }
    Ok(recorder)
}

/// The row that is read from the bytes, and `row` where that is another.
fn write_row(came: &mut String, bytes: &[u8], row: Row) -> Result<(), Fault> {
    let Some(reading) = read_inst(bytes) else {
        came.push_str("none")?;
        return Ok(());
    };
    let name = reading.row.name();
    came.push_str(name)?;
    if reading.row != row {
        let name = row.name();
        write!(came, " but row gives {name}")?;
    }
    Ok(())
}

/// What comes of an instruction in a sink.
#[derive(Drop)]
struct Encoded<'a> {
    alloc: Global,
    offsets: &'a str,
    sink: CallRecorder<Global>,
    /// Whether other sinks keep the same.
    is_same: bool,
    /// The length that it is said to have, and its row.
    length_and_row: Option<(u8, Row)>,
    /// The instruction of the core that it is.
    core: Option<Core>,
    texts: Option<Texts>,
    visits: VisitText,
}

impl<'a> Encoded<'a> {
    fn new(alloc: Global, offsets: &'a str) -> Result<Encoded<'a>, Fault> {
        Ok(Encoded {
            alloc,
            offsets,
            sink: CallRecorder::new(alloc, recorder_of(alloc, offsets)?),
            is_same: false,
            length_and_row: None,
            core: None,
            texts: None,
            visits: VisitText::new(alloc),
        })
    }
}

impl TakesInstruction for Encoded<'_> {
    type Answer = Result<(), Fault>;

    fn take<I: RowAndOperands<Family = Numbers> + Drop>(
        &mut self,
        mut inst: I,
    ) -> Result<(), Fault> {
        if !inst.is_encodable(&self.sink) {
            return Err(Fault::Malformed);
        }
        self.length_and_row = Some((inst.encoded_len(&self.sink), inst.row()));
        self.core = core_if_any(&inst, &self.sink)?;
        inst.encode(&mut self.sink).map_err(|_| Fault::NoMemory)?;
        let (bytes, notices) = (self.sink.bytes(), self.sink.notices());
        self.is_same = keep_the_same(self.alloc, &inst, self.offsets, bytes, notices)?;
        self.texts = Some(texts_of(self.alloc, &inst)?);
        inst.visit(&mut self.visits);
        Ok(())
    }
}

/// What comes of the instruction of the next columns.
fn encode_line<'a>(
    alloc: Global,
    fields: &mut Fields<'a>,
) -> Result<(Encoded<'a>, u8, Row), Fault> {
    let name = fields.text()?;
    let values = fields.text()?;
    let mut encoded = Encoded::new(alloc, fields.text()?)?;
    take_instruction(name, values, &mut encoded)??;
    let (length, row) = encoded.length_and_row.ok_or(Fault::Malformed)?;
    Ok((encoded, length, row))
}

/// What is wrong of the bytes beside what is written of them. Answers whether they are those of an instruction of the core too.
fn note_bytes(came: &mut String, encoded: &Encoded<'_>, row: Row) -> Result<bool, Fault> {
    if !encoded.is_same {
        came.push_str(" but another sink keeps others")?;
    }
    let (bytes, notices) = (encoded.sink.bytes(), encoded.sink.notices());
    note_front(came, bytes)?;
    let Some(core) = &encoded.core else {
        return Ok(false);
    };
    if !is_the_same(encoded.alloc, core, row, encoded.offsets, bytes, notices)? {
        came.push_str(" but the core is another")?;
    }
    Ok(true)
}

pub(crate) fn answer_instruction(
    alloc: Global,
    fields: &mut Fields<'_>,
    came: &mut String,
) -> Result<bool, Fault> {
    let (encoded, length, row) = encode_line(alloc, fields)?;
    write_calls(came, &encoded.sink)?;
    write!(came, "\t{length}\t")?;
    let texts = encoded.texts.as_ref().ok_or(Fault::Malformed)?;
    texts.write(came)?;
    write_row(came, encoded.sink.bytes(), row)?;
    let features = texts.features.as_str();
    write!(came, "\t{features}\t")?;
    encoded.visits.write(came)?;
    note_bytes(came, &encoded, row)
}

/// Bytes and notices, where the length and the row that is read are the right ones.
pub(crate) fn answer_worked(
    alloc: Global,
    fields: &mut Fields<'_>,
    came: &mut String,
) -> Result<bool, Fault> {
    let (encoded, length, row) = encode_line(alloc, fields)?;
    let bytes = encoded.sink.bytes();
    write_bytes(came, bytes)?;
    came.push('\t')?;
    write_notices(came, encoded.sink.notices())?;
    let read = read_inst(bytes).map(|reading| (reading.length, reading.row));
    if read != Some((length, row)) || usize::from(length) != bytes.len() {
        came.push_str(" but length or row are others")?;
    }
    note_bytes(came, &encoded, row)
}

/// Why an instruction can't be encoded, and its visit.
#[derive(Drop)]
struct Faulty {
    sink: Recorder<Global>,
    fault: Option<assembler::Fault>,
    /// The fault that the call answers which tests and puts, where it puts nothing.
    checked: Option<assembler::Fault>,
    is_encodable: bool,
    row: Option<Row>,
    /// The instruction of the core that it is, or why there is none.
    core: Option<Result<Core, NotCore>>,
    visits: VisitText,
}

impl TakesInstruction for Faulty {
    type Answer = ();

    fn take<I: RowAndOperands<Family = Numbers> + Drop>(&mut self, mut inst: I) {
        self.fault = inst.first_fault(&self.sink);
        self.is_encodable = inst.is_encodable(&self.sink);
        self.row = Some(inst.row());
        self.core = Some(core_of(&inst, &self.sink));
        if let Err(EncodeError::Fault(fault)) = inst.encode_checked(&mut self.sink) {
            self.checked = Some(fault);
        }
        inst.visit(&mut self.visits);
    }
}

/// Whether there is an instruction of the core too, which has to put the same, and no other fault to be told of it.
fn note_core(
    alloc: Global,
    came: &mut String,
    faulty: &Faulty,
    offsets: &str,
) -> Result<bool, Fault> {
    let row = faulty.row.ok_or(Fault::Malformed)?;
    let core = faulty.core.ok_or(Fault::Malformed)?;
    let sink = &faulty.sink;
    let is_same = match &core {
        Ok(core) => is_the_same(alloc, core, row, offsets, sink.bytes(), sink.notices())?,
        Err(NotCore::Fault(fault)) => faulty.fault == Some(*fault),
        Err(NotCore::Nop) => faulty.fault.is_none(),
    };
    if !is_same {
        came.push_str(" but the core is another")?;
    }
    Ok(core.is_ok())
}

pub(crate) fn answer_fault(
    alloc: Global,
    fields: &mut Fields<'_>,
    came: &mut String,
) -> Result<bool, Fault> {
    let name = fields.text()?;
    let values = fields.text()?;
    let offsets = fields.text()?;
    let mut faulty = Faulty {
        sink: recorder_of(alloc, offsets)?,
        fault: None,
        checked: None,
        is_encodable: false,
        row: None,
        core: None,
        visits: VisitText::new(alloc),
    };
    take_instruction(name, values, &mut faulty)?;
    write_fault(came, faulty.fault)?;
    if faulty.is_encodable != faulty.fault.is_none() {
        let is_encodable = faulty.is_encodable;
        write!(came, " but is_encodable gives {is_encodable}")?;
    }
    if faulty.checked != faulty.fault || faulty.fault.is_some() != faulty.sink.bytes().is_empty() {
        came.push_str(" but encode_checked does otherwise")?;
    }
    came.push('\t')?;
    faulty.visits.write(came)?;
    note_core(alloc, came, &faulty, offsets)
}
