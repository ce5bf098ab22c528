//! Code that is read back, and bytes that are read from every offset.

use crate::jobs::list_of;
use crate::jobs::readings::read_front;
use cranelift_assembler_x64::{RowAndOperands, SinkError, all_encodable, encode_each};
use std::alloc::{AllocError, Global};
use workload_source::digest::Digest;
use workload_source::maker::Maker;
use workload_source::random::Random;
use workload_source::source::Source;

/// How many instructions are made at a time.
const LENGTH: usize = 1_000;

/// Reads one instruction behind the other.
fn read_along(digest: &mut Digest, code: &[u8]) {
    let mut rest = code;
    for _ in 0..code.len() {
        let Some(length) = read_front(digest, rest) else {
            break;
        };
        let Some(behind) = rest.get(length..) else {
            break;
        };
        rest = behind;
    }
    digest.word(rest.len() as u64);
}

/// Bytes that stand in front of an opcode.
const PREFIXES: [u8; 16] = [
    0x66, 0xF2, 0x48, 0xF0, 0xF3, 0x41, 0x66, 0x4C, 0xC5, 0xC4, 0x40, 0x49, 0xF0, 0x0F, 0x67, 0x2E,
];

/// Eight bytes with one that is any other, or eight prefixes.
fn damaged(chunk: &[u8; 8], random: &mut Random) -> [u8; 8] {
    let [kind, place, byte, ..] = random.bytes();
    let mut bytes = *chunk;
    if kind % 16 == 0 {
        for (place, byte) in random.bytes().iter().enumerate() {
            bytes[place] = PREFIXES[(*byte % 16) as usize];
        }
    } else {
        bytes[(place % 8) as usize] = byte;
    }
    bytes
}

/// The code with a damaged byte in every eight, and runs of prefixes.
fn damage(code: &[u8], random: &mut Random, noise: &mut Vec<u8>) -> Result<(), AllocError> {
    noise.clear();
    for chunk in code.chunks_exact(8) {
        if let [a, b, c, d, e, f, g, h] = chunk {
            let chunk = [*a, *b, *c, *d, *e, *f, *g, *h];
            noise.extend_from_slice(&damaged(&chunk, random))?;
        }
    }
    Ok(())
}

/// Reads from every offset, and from every fourth no more than a few bytes.
fn read_everywhere(digest: &mut Digest, random: &mut Random, noise: &[u8]) {
    for at in 0..noise.len() {
        let bytes = &noise[at..];
        let bytes = if at % 4 == 0 {
            let end = 1 + usize::from(random.byte() % 12);
            bytes.get(..end).unwrap_or(bytes)
        } else {
            bytes
        };
        let length = read_front(digest, bytes).unwrap_or(0);
        digest.word(length as u64);
    }
}

/// The code of some instructions.
fn put<I: RowAndOperands>(
    insts: &[I],
    code: &mut Vec<u8>,
    digest: &mut Digest,
) -> Result<(), SinkError> {
    code.clear();
    if !all_encodable(insts, &*code) {
        digest.word(2);
        return Ok(());
    }
    encode_each(insts, code).map_err(|refused| refused.error)
}

/// So many times a thousand instructions, read one behind the other, and a damaged copy read from every offset.
pub(crate) fn reading<S: Source>(
    alloc: Global,
    count: u32,
    seed: u64,
) -> Result<Digest, SinkError> {
    let mut maker = Maker::of_machine(Random::new(seed));
    let mut digest = Digest::new();
    let mut code = Vec::new(alloc);
    let mut noise = Vec::new(alloc);
    for _ in 0..count {
        let insts = list_of::<S>(alloc, LENGTH, &mut maker).map_err(|_| SinkError::NoMemory)?;
        put(insts.as_slice(), &mut code, &mut digest)?;
        read_along(&mut digest, code.as_slice());
        damage(code.as_slice(), &mut maker.random, &mut noise).map_err(|_| SinkError::NoMemory)?;
        read_everywhere(&mut digest, &mut maker.random, noise.as_slice());
    }
    Ok(digest)
}
