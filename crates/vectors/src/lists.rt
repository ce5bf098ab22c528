//! Lists of instructions in sinks that refuse.

use crate::columns::{write_bytes, write_notices};
use crate::encoding::recorder_of;
use crate::of_core::{core_if_any, note_core};
use crate::puts::{OfLines, OfPort, Puts};
use cax64_test_support::RefusingSink;
use cranelift_assembler_x64::{CodeSink, FixedSink, Numbers, Recorder, RowAndOperands, SinkError};
use named_instructions::fields::{Fault, Fields, parsed};
use named_instructions::{Form, Refusal, TakesList, take_list};
use std::alloc::Global;
use x64_core::{Core, CorePlace};

/// The size of the fixed sink.
const SIZE: usize = 64;

/// Encodes a list, which has to be encodable, and writes whether the sink, which refuses with this error, took it.
fn write_outcome<P: Puts<I>, I, S: CodeSink>(
    came: &mut String,
    insts: &[I],
    sink: &mut S,
    error: SinkError,
) -> Result<(), Fault> {
    match P::put(insts, sink).ok_or(Fault::Malformed)? {
        Ok(()) => came.push_str("ok\t")?,
        Err(refused) => {
            let whole = refused.whole;
            write!(came, "refused:{whole}")?;
            if refused.error != error {
                came.push_str(" but with another error")?;
            }
            came.push('\t')?;
        }
    }
    Ok(())
}

/// A fixed sink that is full but for so many bytes.
fn write_room<P: Puts<I>, I>(came: &mut String, insts: &[I], room: usize) -> Result<(), Fault> {
    let mut sink = FixedSink::<SIZE>::new();
    for _ in room..SIZE {
        let _ = sink.put1(0);
    }
    let before = sink.bytes().len();
    write_outcome::<P, I, FixedSink<SIZE>>(came, insts, &mut sink, SinkError::Full)?;
    write_bytes(came, sink.bytes().get(before..).ok_or(Fault::Malformed)?)?;
    came.push_str("\t-")?;
    Ok(())
}

/// A recorder that takes so many calls.
fn write_refused_call<P: Puts<I>, I>(
    came: &mut String,
    insts: &[I],
    recorder: Recorder<Global>,
    calls: usize,
) -> Result<(), Fault> {
    let mut sink = RefusingSink::new(recorder, calls);
    write_outcome::<P, I, RefusingSink<Global>>(came, insts, &mut sink, SinkError::NoMemory)?;
    let recorder = sink.into_recorder();
    write_bytes(came, recorder.bytes())?;
    came.push('\t')?;
    write_notices(came, recorder.notices())
}

/// A recorder that takes instructions whole or not at all.
fn write_whole<P: Puts<I>, I>(
    came: &mut String,
    insts: &[I],
    mut recorder: Recorder<Global>,
) -> Result<(), Fault> {
    let put = P::put_whole(insts, &mut recorder).ok_or(Fault::Malformed)?;
    put.map_err(|_| Fault::NoMemory)?;
    came.push_str("ok\t")?;
    write_bytes(came, recorder.bytes())?;
    came.push('\t')?;
    write_notices(came, recorder.notices())
}

/// A sink that knows these offsets and refuses at some limit, and what came of a list in it.
#[derive(Drop)]
struct Refusing<'a> {
    alloc: Global,
    offsets: &'a str,
    limit: &'a str,
    number: usize,
    came: &'a mut String,
}

impl Refusing<'_> {
    fn write<P: Puts<I>, I>(&self, insts: &[I], came: &mut String) -> Result<(), Fault> {
        let recorder = recorder_of(self.alloc, self.offsets)?;
        match self.limit {
            "room" if self.number <= SIZE => write_room::<P, I>(came, insts, self.number),
            "call" if self.number > 0 => {
                write_refused_call::<P, I>(came, insts, recorder, self.number - 1)
            }
            "whole" => write_whole::<P, I>(came, insts, recorder),
            _ => Err(Fault::Malformed),
        }
    }

    /// The instructions of the core that a list is, where each is one.
    fn cores_of<I: RowAndOperands<Family = Numbers>>(
        &self,
        insts: &[I],
    ) -> Result<Option<Vec<Core>>, Fault> {
        let recorder = recorder_of(self.alloc, self.offsets)?;
        let mut cores = Vec::new(self.alloc);
        for inst in insts {
            let Some(core) = core_if_any(inst, &recorder)? else {
                return Ok(None);
            };
            // The prover takes a `push` of an instruction only in a function that has its place's type too.
            let _place: CorePlace = core.place();
            cores.push(core).map_err(|_| Fault::NoMemory)?;
        }
        Ok(Some(cores))
    }
}

impl TakesList for Refusing<'_> {
    type Answer = Result<bool, Fault>;

    fn take<I: RowAndOperands<Family = Numbers> + Drop>(
        &mut self,
        insts: &[I],
    ) -> Result<bool, Fault> {
        let mut of_port = String::new(self.alloc);
        self.write::<OfPort, I>(insts, &mut of_port)?;
        self.came.push_str(of_port.as_str())?;
        let Some(cores) = self.cores_of(insts)? else {
            return Ok(false);
        };
        let mut of_core = String::new(self.alloc);
        self.write::<OfLines, Core>(cores.as_slice(), &mut of_core)?;
        note_core(self.came, of_core.as_str())?;
        Ok(!cores.is_empty())
    }
}

/// How a list is written in a file of cases.
const FORM: Form = Form {
    between: " | ",
    behind_name: ' ',
};

/// The instructions whose digit asked for a REX byte in the first of two stages, and doesn't now.
const CHANGED: [&str; 3] = ["shlb_m1", "shrb_m1", "sarb_m1"];

/// Whether one of them stands in a list.
pub(crate) fn has_changed(list: &str) -> bool {
    CHANGED.iter().any(|name| list.contains(*name))
}

/// What comes of a list, and whether it is one of the core too. Cases of the first stage hold of lists without these.
pub(crate) fn answer_refusal(
    alloc: Global,
    fields: &mut Fields<'_>,
    came: &mut String,
) -> Result<bool, Fault> {
    let list = fields.text()?;
    let offsets = fields.text()?;
    if fields.text()? == "1" && has_changed(list) {
        return Err(Fault::PassedOver);
    }
    let limit = fields.text()?;
    let number: usize = parsed(fields.text()?)?;
    let mut refusing = Refusing {
        alloc,
        offsets,
        limit,
        number,
        came,
    };
    let list = if list == "-" { "" } else { list };
    match take_list(alloc, list, FORM, &mut refusing) {
        Ok(answer) => answer,
        Err(Refusal { fault, .. }) => Err(fault),
    }
}
