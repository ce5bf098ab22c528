//! What the functions of all jobs here have beside their instructions: labels, offsets, a pool of constants and an end.

use cranelift_assembler_x64::{CodeSink, Constant, Fault, Label, SinkError};
use huqmeris::{CodeBuffer, FinishError};
use std::alloc::Global;
use workload_source::digest::Digest;
use workload_source::maker::{Maker, OFFSETS};
use workload_source::notices::digest_notices;
use workload_source::random::Random;

/// Where labels stand: in front of every fifth to eighth instruction.
#[derive(Clone, Copy)]
pub(crate) struct Labels {
    /// The number of the next label.
    pub(crate) next: u32,
    /// How many instructions still stand before it.
    left: u32,
}

impl Labels {
    pub(crate) fn new() -> Labels {
        Labels { next: 0, left: 0 }
    }

    /// The label that stands in front of the next instruction, if one does.
    pub(crate) fn step(&mut self) -> Option<Label> {
        if self.left > 0 {
            self.left = self.left.saturating_sub(1);
            return None;
        }
        let label = self.next;
        self.left = 4 + label % 4;
        self.next = label.saturating_add(1);
        Some(Label(label))
    }
}

/// How many instructions a function has, 20 to 2,000: as many functions have 20 to 40 as 40 to 80, and so on.
pub(crate) fn function_length(maker: &mut Maker) -> usize {
    let least = match maker.random.byte() % 7 {
        0 => 20,
        1 => 40,
        2 => 80,
        3 => 160,
        4 => 320,
        5 => 640,
        _ => 1_000,
    };
    let more = maker.random.below(least);
    (least as usize).saturating_add(more as usize)
}

/// What the offsets are that are known late.
pub(crate) fn set_offsets(buffer: &mut CodeBuffer<Global>, random: &mut Random) {
    for key in 0..OFFSETS {
        let [a, b, ..] = random.bytes();
        buffer.set_offset(key, i32::from(u16::from_le_bytes([a, b])));
    }
}

pub(crate) fn digest_fault(digest: &mut Digest, fault: Fault) {
    match fault {
        Fault::Register(place) => digest.word(0x100 + u64::from(place)),
        Fault::Index(place) => digest.word(0x200 + u64::from(place)),
        Fault::Fixed(place) => digest.word(0x300 + u64::from(place)),
        Fault::Unknown(key) => digest.word(0x400 + u64::from(key)),
        Fault::Range => digest.word(0x500),
    }
}

/// Puts the constants behind the code, sixteen bytes each.
pub(crate) fn push_pool(
    buffer: &mut CodeBuffer<Global>,
    maker: &mut Maker,
    digest: &mut Digest,
) -> Result<(), SinkError> {
    for number in 0..maker.constants {
        let key = Constant(number.wrapping_mul(maker.spread));
        if buffer.bind_constant(key).is_err() {
            digest.word(2);
        }
        buffer.put8(maker.random.word())?;
        buffer.put8(maker.random.word())?;
    }
    Ok(())
}

fn digest_error(digest: &mut Digest, error: FinishError) {
    match error {
        FinishError::Unbound(_) => digest.word(3),
        FinishError::TooFar(at) => digest.word(at as u64),
    }
}

pub(crate) fn finish(buffer: CodeBuffer<Global>, digest: &mut Digest) {
    digest_notices(digest, buffer.notices());
    match buffer.finish() {
        Ok(code) => digest.bytes(code.as_slice()),
        Err((_buffer, error)) => digest_error(digest, error),
    }
}

/// How many constants the instructions up to a place may refer to.
pub(crate) fn constants_at(place: usize) -> u32 {
    let constants = (place / 4).min(32);
    u32::try_from(constants).unwrap_or(0).saturating_add(1)
}
