//! Runs in heaps that refuse memory, each a little later than the one before.

use crate::heap::TestHeap;
use std::alloc::{Allocator, Global};

/// How a run ended.
#[derive(Clone, Copy, Debug, PartialEq)]
pub enum Outcome {
    /// All was made, and is what was wanted.
    Made,
    /// Memory was refused, and what stands is what a refusal leaves.
    Refused,
    /// Neither.
    Wrong,
}

/// What asks for memory, each growth of which is to be refused.
pub trait Grows {
    /// A run that takes its memory from `alloc`, and gives all of it back.
    fn run<A: Allocator + Copy>(&self, alloc: A) -> Outcome;
}

/// So many requests are refused at most, and heaps hold fewer bytes than that.
const MOST: usize = 8192;

/// The outcome in this heap, wrong where some memory was kept.
fn outcome_in<G: Grows>(heap: &TestHeap<Global>, grows: &G) -> Outcome {
    let outcome = grows.run(heap);
    if heap.held() > 0 {
        Outcome::Wrong
    } else {
        outcome
    }
}

/// How many requests end a run, if they are refused and no memory comes after them. Each request is refused in turn, alone
/// and with all later ones, until a run makes no more; None where some run went wrong.
pub fn refusals<G: Grows>(alloc: Global, grows: &G) -> Option<usize> {
    let mut refused: usize = 0;
    for request in 1..MOST {
        if outcome_in(&TestHeap::refusing(alloc, request), grows) == Outcome::Wrong {
            return None;
        }
        let heap = TestHeap::refusing_from(alloc, request);
        match (outcome_in(&heap, grows), heap.requests() < request) {
            (Outcome::Made, true) => return Some(refused),
            (Outcome::Made, false) => {}
            (Outcome::Refused, false) => refused = refused.saturating_add(1),
            _ => return None,
        }
    }
    None
}

/// How many bytes at a time are enough. Each smaller heap refuses; None where some run went wrong.
pub fn enough<G: Grows>(alloc: Global, grows: &G) -> Option<usize> {
    for limit in 0..MOST {
        match outcome_in(&TestHeap::holding(alloc, limit), grows) {
            Outcome::Made => return Some(limit),
            Outcome::Refused => {}
            Outcome::Wrong => return None,
        }
    }
    None
}

/// Whether no run goes wrong, and so many requests at least end one.
pub fn is_refused<G: Grows>(alloc: Global, grows: &G, least: usize) -> bool {
    match refusals(alloc, grows) {
        Some(refused) => refused >= least && enough(alloc, grows).is_some(),
        None => false,
    }
}
