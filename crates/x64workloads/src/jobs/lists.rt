//! Lists of instructions put at once, into each kind of sink.

use crate::jobs::{function_length, list_of};
use cranelift_assembler_x64::{
    FixedSink, Recorder, Refused, RowAndOperands, SinkError, all_encodable, encode_each,
    encode_each_whole,
};
use std::alloc::Global;
use workload_source::digest::Digest;
use workload_source::maker::Maker;
use workload_source::notices::digest_notices;
use workload_source::random::Random;
use workload_source::source::Source;

fn digest_refusal(digest: &mut Digest, refused: Result<(), Refused>) {
    let Err(refused) = refused else {
        return digest.word(0);
    };
    digest.word((refused.whole as u64).wrapping_add(1));
    digest.word(match refused.error {
        SinkError::NoMemory => 1,
        SinkError::Full => 2,
    });
}

/// Into a vector, which has room or not.
fn put_into_vec<I: RowAndOperands>(insts: &[I], code: &mut Vec<u8>, digest: &mut Digest) {
    if !all_encodable(insts, &*code) {
        return digest.word(2);
    }
    let put = encode_each(insts, code);
    digest_refusal(digest, put);
    digest.bytes(code.as_slice());
}

fn put_into_recorder<I: RowAndOperands>(alloc: Global, insts: &[I], digest: &mut Digest) {
    let mut recorder = Recorder::new(alloc);
    if !all_encodable(insts, &recorder) {
        return digest.word(2);
    }
    let put = encode_each(insts, &mut recorder);
    digest_refusal(digest, put);
    digest.bytes(recorder.bytes());
    digest_notices(digest, recorder.notices());
}

fn put_whole<I: RowAndOperands>(
    alloc: Global,
    insts: &[I],
    digest: &mut Digest,
) -> Result<(), SinkError> {
    let mut recorder = Recorder::new(alloc);
    if insts.len() > usize::MAX / 13 || !all_encodable(insts, &recorder) {
        digest.word(2);
        return Ok(());
    }
    encode_each_whole(insts, &mut recorder)?;
    digest.bytes(recorder.bytes());
    digest_notices(digest, recorder.notices());
    Ok(())
}

/// Into a sink of 4,096 bytes, which refuses what is too much for it.
fn put_into_fixed_sink<I: RowAndOperands>(insts: &[I], digest: &mut Digest) {
    let mut sink = FixedSink::<4_096>::new();
    if !all_encodable(insts, &sink) {
        return digest.word(2);
    }
    let put = encode_each(insts, &mut sink);
    digest_refusal(digest, put);
    digest.bytes(sink.bytes());
}

/// So many lists of 20 to 2,000 instructions, each put into a vector with room and one without, into a recorder as they
/// come and all at once, and into a sink of fixed size.
pub(crate) fn lists<S: Source>(alloc: Global, count: u32, seed: u64) -> Result<Digest, SinkError> {
    let mut maker = Maker::of_machine(Random::new(seed));
    let mut digest = Digest::new();
    let mut with_room = Vec::with_capacity(alloc, 0x8000).map_err(|_| SinkError::NoMemory)?;
    for _ in 0..count {
        let length = function_length(&mut maker);
        let insts = list_of::<S>(alloc, length, &mut maker).map_err(|_| SinkError::NoMemory)?;
        let insts = insts.as_slice();
        with_room.clear();
        put_into_vec(insts, &mut with_room, &mut digest);
        put_into_vec(insts, &mut Vec::new(alloc), &mut digest);
        put_into_recorder(alloc, insts, &mut digest);
        put_whole(alloc, insts, &mut digest)?;
        put_into_fixed_sink(insts, &mut digest);
    }
    Ok(digest)
}
