//! The job `functions` of `x64workloads`, with one call in place of test and push. The digest is the same.

use crate::parts::{
    Labels, constants_at, digest_fault, finish, function_length, push_pool, set_offsets,
};
use cranelift_assembler_x64::{EncodeError, Label, RowAndOperands, SinkError};
use huqmeris::CodeBuffer;
use std::alloc::{AllocError, Global};
use workload_source::digest::Digest;
use workload_source::homes::{Homes, assign};
use workload_source::maker::Maker;
use workload_source::source::{Source, push};
use workload_source::stub::bind;

/// A function that is to be made.
#[derive(Clone, Copy)]
struct Plan {
    /// How many instructions it has.
    length: usize,
    /// Whether it is told which fault an instruction has, or that it has one.
    tells_faults: bool,
    /// Which of four instructions is made anew. The others are those of the function before it, and get other registers.
    phase: usize,
}

/// Pushes an instruction that can be encoded, and tells of another.
fn push_or_tell<I: RowAndOperands>(
    buffer: &mut CodeBuffer<Global>,
    inst: &I,
    plan: &Plan,
    digest: &mut Digest,
) -> Result<(), SinkError> {
    match buffer.push_checked(inst) {
        Ok(()) => Ok(()),
        Err(EncodeError::Fault(fault)) => {
            if plan.tells_faults {
                digest_fault(digest, fault);
            } else {
                digest.word(0);
            }
            Ok(())
        }
        Err(EncodeError::Sink(error)) => Err(error),
    }
}

/// Pushes the instructions, and binds the labels between them and the others behind them.
fn push_body<I: RowAndOperands>(
    buffer: &mut CodeBuffer<Global>,
    insts: &[I],
    labels: u32,
    plan: &Plan,
    digest: &mut Digest,
) -> Result<(), SinkError> {
    let mut places = Labels::new();
    for inst in insts {
        if let Some(label) = places.step() {
            bind(buffer, label, digest);
        }
        push_or_tell(buffer, inst, plan, digest)?;
    }
    for label in places.next..labels {
        bind(buffer, Label(label), digest);
    }
    Ok(())
}

/// The next instruction. What it refers to is near.
fn next<S: Source>(maker: &mut Maker, places: &Labels, place: usize) -> S::Inst {
    maker.label = places.next;
    maker.constants = constants_at(place);
    S::make(maker)
}

/// Makes those instructions anew that are to be, with virtual registers, and adds those that there are too few.
fn renew<S: Source>(
    insts: &mut Vec<S::Inst>,
    plan: &Plan,
    maker: &mut Maker,
) -> Result<(), AllocError> {
    let mut places = Labels::new();
    let mut place = 0usize;
    for inst in insts.iter_mut().take(plan.length) {
        places.step();
        if place % 4 == plan.phase {
            *inst = next::<S>(maker, &places, place);
        }
        place = place.saturating_add(1);
    }
    for _ in place..plan.length {
        places.step();
        push(insts, next::<S>(maker, &places, place))?;
        place = place.saturating_add(1);
    }
    Ok(())
}

/// One function, from instructions over virtual registers to patched code. `insts` holds those of the functions before it.
fn make_function<S: Source>(
    alloc: Global,
    plan: &Plan,
    insts: &mut Vec<S::Inst>,
    maker: &mut Maker,
    digest: &mut Digest,
) -> Result<(), SinkError> {
    renew::<S>(insts, plan, maker).map_err(|_| SinkError::NoMemory)?;
    let count = insts.len().min(plan.length);
    let body = &mut insts[..count];
    let mut homes = Homes::new(&mut maker.random);
    assign(body, &mut homes);
    let mut buffer = CodeBuffer::new(alloc);
    set_offsets(&mut buffer, &mut maker.random);
    let labels = u32::try_from(count / 5).unwrap_or(0).saturating_add(10);
    for _ in 0..labels {
        buffer.new_label()?;
    }
    push_body(&mut buffer, body, labels, plan, digest)?;
    maker.constants = constants_at(count);
    push_pool(&mut buffer, maker, digest)?;
    finish(buffer, digest);
    Ok(())
}

/// So many functions of 20 to 2,000 instructions, with a label for every five to eight of them, and a digest of all code.
pub(crate) fn functions_checked<S: Source>(
    alloc: Global,
    count: u32,
    seed: u64,
) -> Result<Digest, SinkError> {
    let mut maker = Maker::of_virtual(seed, 1);
    let mut digest = Digest::new();
    let mut insts = Vec::new(alloc);
    for number in 0..count {
        let plan = Plan {
            length: function_length(&mut maker),
            tells_faults: maker.random.byte() % 2 == 0,
            phase: (number % 4) as usize,
        };
        make_function::<S>(alloc, &plan, &mut insts, &mut maker, &mut digest)?;
    }
    Ok(digest)
}
