//! The jobs, each over a source of instructions.

pub(crate) mod functions;
pub(crate) mod listings;
pub(crate) mod lists;
pub(crate) mod reading;
mod readings;
pub(crate) mod stubs;

use std::alloc::{AllocError, Global};
use workload_source::maker::Maker;
use workload_source::source::{Source, push};

/// So many instructions.
fn list_of<S: Source>(
    alloc: Global,
    count: usize,
    maker: &mut Maker,
) -> Result<Vec<S::Inst>, AllocError> {
    let mut insts = Vec::with_capacity(alloc, count)?;
    for _ in 0..count {
        push(&mut insts, S::make(maker))?;
    }
    Ok(insts)
}

/// How many instructions a function has, 20 to 2,000: as many functions have 20 to 40 as 40 to 80, and so on.
fn function_length(maker: &mut Maker) -> usize {
    let least = match maker.random.byte() % 7 {
        0 => 20,
        1 => 40,
        2 => 80,
        3 => 160,
        4 => 320,
        5 => 640,
        _ => 1_000,
    };
    let more = maker.random.below(least);
    (least as usize).saturating_add(more as usize)
}
