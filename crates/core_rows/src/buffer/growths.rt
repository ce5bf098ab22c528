//! Each growth of a buffer is refused in turn: it holds what it held.

use crate::buffer::words::{POOL, at, push, push_checked};
use cax64_encoder::EncodeError;
use cax64_sink::SinkError;
use cax64_test_support::growth::{Grows, Outcome, is_refused};
use std::alloc::Allocator;
use x64_code_buffer::CodeBuffer;
use x64_core::Core;
use x64_core::ops::arithmetic::ADDQ_MI_SXB;

/// `addq [POOL], 1`, whose displacement leads to its immediate before it's patched.
const ADD: [u8; 8] = [0x48, 0x83, 0x05, 0xFF, 0xFF, 0xFF, 0xFF, 0x01];

/// Ten of them, each tested or not.
#[derive(Clone, Copy)]
struct Ten {
    is_checked: bool,
}

/// Whether the bytes are this instruction so many times, and each has told of its target.
fn holds<A: Allocator>(buffer: &CodeBuffer<A>, count: usize) -> bool {
    for bytes in buffer.bytes().chunks(8) {
        if bytes != ADD.as_slice() {
            return false;
        }
    }
    buffer.bytes().len() / 8 == count && buffer.notices().len() == count
}

impl Ten {
    fn push<A: Allocator>(&self, buffer: &mut CodeBuffer<A>, inst: &Core) -> Result<(), SinkError> {
        if !self.is_checked {
            return push(buffer, inst);
        }
        match push_checked(buffer, inst) {
            Ok(()) => Ok(()),
            Err(EncodeError::Sink(error)) => Err(error),
            Err(EncodeError::Fault(_)) => Err(SinkError::Full),
        }
    }
}

impl Grows for Ten {
    fn run<A: Allocator + Copy>(&self, alloc: A) -> Outcome {
        let add = ADDQ_MI_SXB.mem(at(POOL), 1);
        let mut buffer = CodeBuffer::new(alloc);
        for count in 0..10usize {
            let ended = self.push(&mut buffer, &add);
            if ended == Err(SinkError::NoMemory) && holds(&buffer, count) {
                return Outcome::Refused;
            }
            if ended != Ok(()) {
                return Outcome::Wrong;
            }
        }
        if holds(&buffer, 10) {
            Outcome::Made
        } else {
            Outcome::Wrong
        }
    }
}

#[test]
fn each_growth_is_refused_in_turn(rt: HostRuntime) {
    assert!(rt; is_refused(rt.alloc(), &Ten { is_checked: false }, 5));
    assert!(rt; is_refused(rt.alloc(), &Ten { is_checked: true }, 5));
}
