//! How lists are tested and put: by the port's calls, and by those for whatever has lines.

use cax64_sequence::{are_encodable, put_each, put_each_whole};
use cranelift_assembler_x64::{
    CodeSink, Instruction, Recorder, Refused, SinkError, all_encodable, encode_each,
    encode_each_whole,
};
use std::alloc::Global;
use x64_encode::Encode;

/// The calls that put instructions of a type.
pub(crate) trait Puts<I> {
    /// Tests a list and puts it. None where it can't be encoded. A list of one is an instruction that is encoded alone.
    fn put<S: CodeSink>(insts: &[I], sink: &mut S) -> Option<Result<(), Refused>>;

    /// Tests a list and puts all of it, or nothing. None where it can't be encoded.
    fn put_whole(insts: &[I], recorder: &mut Recorder<Global>) -> Option<Result<(), SinkError>>;
}

/// Those of the port.
#[derive(Drop)]
pub(crate) struct OfPort;

impl<I: Instruction> Puts<I> for OfPort {
    fn put<S: CodeSink>(insts: &[I], sink: &mut S) -> Option<Result<(), Refused>> {
        if !all_encodable(insts, &*sink) {
            return None;
        }
        Some(match insts {
            [inst] => Instruction::encode(inst, sink).map_err(|error| Refused { whole: 0, error }),
            insts => encode_each(insts, sink),
        })
    }

    fn put_whole(insts: &[I], recorder: &mut Recorder<Global>) -> Option<Result<(), SinkError>> {
        if !all_encodable(insts, &*recorder) || insts.len() > usize::MAX / 13 {
            return None;
        }
        Some(encode_each_whole(insts, recorder))
    }
}

/// Those for whatever has lines.
#[derive(Drop)]
pub(crate) struct OfLines;

impl<I: Encode> Puts<I> for OfLines {
    fn put<S: CodeSink>(insts: &[I], sink: &mut S) -> Option<Result<(), Refused>> {
        if !are_encodable(insts, &*sink) {
            return None;
        }
        Some(match insts {
            [inst] => Encode::encode(inst, sink).map_err(|error| Refused { whole: 0, error }),
            insts => put_each(insts, sink),
        })
    }

    fn put_whole(insts: &[I], recorder: &mut Recorder<Global>) -> Option<Result<(), SinkError>> {
        if !are_encodable(insts, &*recorder) || insts.len() > usize::MAX / 13 {
            return None;
        }
        Some(put_each_whole(insts, recorder))
    }
}
