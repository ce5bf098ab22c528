//! The sinks that users have, beside the one that keeps the calls.

use crate::encoding::recorder_of;
use cranelift_assembler_x64::{CodeSink, EncodeError, FixedSink, Notice};
use named_instructions::fields::Fault;
use std::alloc::Global;
use x64_encode::Encode;

/// Whether a sink takes an instruction, where that can be encoded.
fn takes<I: Encode, S: CodeSink>(inst: &I, sink: &mut S) -> Option<bool> {
    if !inst.is_encodable(sink) {
        return None;
    }
    Some(inst.encode(sink).is_ok())
}

/// The same by the one call that tests and puts. At a fault nothing is put.
fn takes_checked<I: Encode, S: CodeSink>(inst: &I, sink: &mut S) -> Option<bool> {
    match inst.encode_checked(sink) {
        Ok(()) => Some(true),
        Err(EncodeError::Fault(_)) => None,
        Err(EncodeError::Sink(_)) => Some(false),
    }
}

/// Whether a recorder that knows these offsets, a vector and a sink of fixed size keep these bytes of an instruction, and the
/// recorder these notices.
pub(crate) fn keep_the_same<I: Encode>(
    alloc: Global,
    inst: &I,
    offsets: &str,
    bytes: &[u8],
    notices: &[Notice],
) -> Result<bool, Fault> {
    let mut recorder = recorder_of(alloc, offsets)?;
    let mut vector: Vec<u8> = Vec::new(alloc);
    let mut fixed = FixedSink::<13>::new();
    let recorded = takes_checked(inst, &mut recorder) == Some(true)
        && recorder.bytes() == bytes
        && recorder.notices() == notices;
    let as_bytes = match (takes(inst, &mut vector), takes_checked(inst, &mut fixed)) {
        (Some(true), Some(true)) => vector.as_slice() == bytes && fixed.bytes() == bytes,
        // They know no offset.
        (None, None) => offsets != "-",
        _ => false,
    };
    Ok(recorded && as_bytes)
}
