//! The job `functions` of `x64workloads` over instructions of the core: each is made by a constant's call, keeps its virtual
//! registers, and a copy of it is renamed by a table of homes, tested and put.

use crate::kinds::make;
use crate::parts::{
    Labels, constants_at, digest_fault, finish, function_length, push_pool, set_offsets,
};
use cranelift_assembler_x64::{Label, SinkError};
use huqmeris::{CodeBuffer, Core};
use std::alloc::{AllocError, Global};
use workload_source::digest::Digest;
use workload_source::maker::Maker;
use workload_source::random::Random;
use workload_source::source::push;
use workload_source::stub::bind;

/// A function that is to be made.
#[derive(Clone, Copy)]
pub(crate) struct Plan {
    /// How many instructions it has.
    length: usize,
    /// Whether each instruction is asked for its first fault, or whether it can be encoded.
    pub(crate) tells_faults: bool,
    /// Which of four instructions is made anew. The others are those of the function before it, and get other registers.
    phase: usize,
}

/// The home of each register. It is never the stack pointer.
fn homes(random: &mut Random) -> [u8; 256] {
    let mut homes = [0; 256];
    let mut word = random.word();
    for home in &mut homes {
        word = word.wrapping_mul(0x5851_F42D_4C95_7F2D).wrapping_add(1);
        let number = (word >> 60) as u8;
        *home = if number == 4 { 12 } else { number };
    }
    homes
}

/// Pushes a copy with the homes of its registers.
#[inline(always)]
pub(crate) fn push_settled(
    buffer: &mut CodeBuffer<Global>,
    inst: &Core,
    plan: &Plan,
    homes: &[u8; 256],
    digest: &mut Digest,
) -> Result<(), SinkError> {
    let mut settled = *inst;
    settled.rename(homes);
    if plan.tells_faults {
        match settled.first_fault(&*buffer) {
            None => buffer.push(&settled)?,
            Some(fault) => digest_fault(digest, fault),
        }
    } else if settled.is_encodable(&*buffer) {
        buffer.push(&settled)?;
    } else {
        digest.word(0);
    }
    Ok(())
}

/// How the instructions of a function are pushed, with the homes of their registers and with the labels between them and
/// behind them.
pub(crate) trait Body: Drop {
    fn push(
        &mut self,
        buffer: &mut CodeBuffer<Global>,
        insts: &[Core],
        labels: u32,
        plan: &Plan,
        homes: &[u8; 256],
        digest: &mut Digest,
    ) -> Result<(), SinkError>;
}

/// Pushes one instruction after the other.
#[derive(Clone, Copy)]
pub(crate) struct Plain;

impl Body for Plain {
    fn push(
        &mut self,
        buffer: &mut CodeBuffer<Global>,
        insts: &[Core],
        labels: u32,
        plan: &Plan,
        homes: &[u8; 256],
        digest: &mut Digest,
    ) -> Result<(), SinkError> {
        let mut places = Labels::new();
        for inst in insts {
            if let Some(label) = places.step() {
                bind(buffer, label, digest);
            }
            push_settled(buffer, inst, plan, homes, digest)?;
        }
        for label in places.next..labels {
            bind(buffer, Label(label), digest);
        }
        Ok(())
    }
}

/// The next instruction. What it refers to is near.
fn next(maker: &mut Maker, places: &Labels, place: usize) -> Core {
    maker.label = places.next;
    maker.constants = constants_at(place);
    make(maker)
}

/// Makes those instructions anew that are to be, with virtual registers, and adds those that there are too few.
fn renew(insts: &mut Vec<Core>, plan: &Plan, maker: &mut Maker) -> Result<(), AllocError> {
    let mut places = Labels::new();
    let mut place = 0usize;
    for inst in insts.iter_mut().take(plan.length) {
        places.step();
        if place % 4 == plan.phase {
            *inst = next(maker, &places, place);
        }
        place = place.saturating_add(1);
    }
    for _ in place..plan.length {
        places.step();
        push(insts, next(maker, &places, place))?;
        place = place.saturating_add(1);
    }
    Ok(())
}

/// One function, from instructions over virtual registers to patched code. `insts` holds those of the functions before it.
fn make_function<B: Body>(
    alloc: Global,
    body: &mut B,
    plan: &Plan,
    insts: &mut Vec<Core>,
    maker: &mut Maker,
    digest: &mut Digest,
) -> Result<(), SinkError> {
    renew(insts, plan, maker).map_err(|_| SinkError::NoMemory)?;
    let count = insts.len().min(plan.length);
    let homes = homes(&mut maker.random);
    let mut buffer = CodeBuffer::new(alloc);
    set_offsets(&mut buffer, &mut maker.random);
    let labels = u32::try_from(count / 5).unwrap_or(0).saturating_add(10);
    for _ in 0..labels {
        buffer.new_label()?;
    }
    body.push(&mut buffer, &insts[..count], labels, plan, &homes, digest)?;
    maker.constants = constants_at(count);
    push_pool(&mut buffer, maker, digest)?;
    finish(buffer, digest);
    Ok(())
}

/// So many functions of 20 to 2,000 instructions, with a label for every five to eight of them, and a digest of all code.
pub(crate) fn functions_of<B: Body>(
    alloc: Global,
    mut body: B,
    count: u32,
    seed: u64,
) -> Result<Digest, SinkError> {
    let mut maker = Maker::of_virtual(seed, 1);
    let mut digest = Digest::new();
    let mut insts: Vec<Core> = Vec::new(alloc);
    for number in 0..count {
        let plan = Plan {
            length: function_length(&mut maker),
            tells_faults: maker.random.byte() % 2 == 0,
            phase: (number % 4) as usize,
        };
        make_function(alloc, &mut body, &plan, &mut insts, &mut maker, &mut digest)?;
    }
    Ok(digest)
}
