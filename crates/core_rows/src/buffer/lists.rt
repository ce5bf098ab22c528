//! Lists of instructions of the core: put, refused, stopped at a fault, and all of it or nothing.

use crate::buffer::words::{POOL, RAX, RDI, RSI, at};
use cax64_encoder::{EncodeError, Fault};
use cax64_sequence::{Refused, Stopped, are_encodable, put_each, put_each_checked, put_each_whole};
use cax64_sink::{CodeSink, FixedSink, Notice, Recorder, SinkError};
use cax64_test_support::growth::{Grows, Outcome, is_refused};
use std::alloc::Allocator;
use x64_core::Core;
use x64_core::ops::arithmetic::{ADDQ_MI_SXB, ADDQ_RM};
use x64_core::ops::control::RETQ_ZO;
use x64_core::ops::moves::MOVQ_RM;
use x64_core::ops::multiplication::IMULQ_RM;
use x64_encode::Encode;

/// `mov rax, rdi`, `imul rax, rsi`, `addq [POOL], 1`, whose displacement leads to its immediate, and `ret`.
const CODE: [u8; 16] = [
    0x48, 0x8B, 0xC7, 0x48, 0x0F, 0xAF, 0xC6, 0x48, 0x83, 0x05, 0xFF, 0xFF, 0xFF, 0xFF, 0x01, 0xC3,
];

/// `addq` tells of its target.
const TOLD: [Notice; 1] = [Notice::Target(10, POOL)];

fn four() -> [Core; 4] {
    [
        MOVQ_RM.regs(RAX, RDI),
        IMULQ_RM.regs(RAX, RSI),
        ADDQ_MI_SXB.mem(at(POOL), 1),
        RETQ_ZO.bare(),
    ]
}

/// The same with a virtual register in the third.
fn four_of_which_one_is_virtual() -> [Core; 4] {
    [
        MOVQ_RM.regs(RAX, RDI),
        IMULQ_RM.regs(RAX, RSI),
        ADDQ_RM.regs(RAX, 16),
        RETQ_ZO.bare(),
    ]
}

/// Puts a list. One that can't be encoded is as good as a full sink.
fn put<I: Encode, S: CodeSink>(insts: &[I], sink: &mut S) -> Result<(), Refused> {
    if are_encodable(insts, &*sink) {
        put_each(insts, sink)
    } else {
        let error = SinkError::Full;
        Err(Refused { whole: 0, error })
    }
}

fn put_checked<I: Encode, S: CodeSink>(insts: &[I], sink: &mut S) -> Result<(), Stopped> {
    put_each_checked(insts, sink)
}

fn put_whole<I: Encode, A: Allocator>(
    insts: &[I],
    recorder: &mut Recorder<A>,
) -> Result<(), SinkError> {
    if are_encodable(insts, &*recorder) && insts.len() <= usize::MAX / 13 {
        put_each_whole(insts, recorder)
    } else {
        Err(SinkError::Full)
    }
}

#[test]
fn a_list_that_fits(rt: HostRuntime) {
    let insts = four();
    let mut sink: FixedSink<16> = FixedSink::new();
    assert!(rt; are_encodable(insts.as_slice(), &sink));
    assert!(rt; put(insts.as_slice(), &mut sink) == Ok(()));
    assert!(rt; sink.bytes() == CODE.as_slice());
    let mut recorder = Recorder::new(rt.alloc());
    assert!(rt; put_checked(insts.as_slice(), &mut recorder) == Ok(()));
    assert!(rt; recorder.bytes() == CODE.as_slice());
    assert!(rt; recorder.notices() == TOLD.as_slice());
}

/// The sink is full behind the second.
#[test]
fn a_list_that_is_too_long(rt: HostRuntime) {
    let insts = four();
    let error = SinkError::Full;
    let mut sink: FixedSink<7> = FixedSink::new();
    assert!(rt; put(insts.as_slice(), &mut sink) == Err(Refused { whole: 2, error }));
    assert!(rt; sink.bytes() == &CODE[..7]);
    let stopped = Stopped {
        whole: 2,
        error: EncodeError::Sink(error),
    };
    sink.clear();
    assert!(rt; put_checked(insts.as_slice(), &mut sink) == Err(stopped));
    assert!(rt; sink.bytes() == &CODE[..7]);
}

/// Those before the one with the fault are put.
#[test]
fn a_list_with_a_fault(rt: HostRuntime) {
    let insts = four_of_which_one_is_virtual();
    let mut recorder = Recorder::new(rt.alloc());
    assert!(rt; !are_encodable(insts.as_slice(), &recorder));
    let stopped = Stopped {
        whole: 2,
        error: EncodeError::Fault(Fault::Register(1)),
    };
    assert!(rt; put_checked(insts.as_slice(), &mut recorder) == Err(stopped));
    assert!(rt; recorder.bytes() == &CODE[..7]);
    assert!(rt; recorder.notices().is_empty());
}

/// A list that is put whole, behind a byte.
struct Whole;

impl Grows for Whole {
    fn run<A: Allocator + Copy>(&self, alloc: A) -> Outcome {
        let insts = four();
        let told = [Notice::Target(11, POOL)];
        let mut recorder = Recorder::new(alloc);
        if recorder.put1(0x90).is_err() {
            return Outcome::Refused;
        }
        match (
            put_whole(insts.as_slice(), &mut recorder),
            recorder.bytes(),
            recorder.notices(),
        ) {
            (Ok(()), [0x90, code @ ..], notices)
                if code == CODE.as_slice() && notices == told.as_slice() => { Outcome::Made }
            (Err(SinkError::NoMemory), [0x90], []) => Outcome::Refused,
            _ => Outcome::Wrong,
        }
    }
}

/// All of a list is put where there is memory, and nothing where its room is refused.
#[test]
fn a_list_that_is_put_whole(rt: HostRuntime) {
    assert!(rt; is_refused(rt.alloc(), &Whole, 3));
}
