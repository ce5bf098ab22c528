//! Calls that add all or nothing.

use cax64_test_support::growth::{Grows, Outcome, is_refused};
use cranelift_assembler_x64::inst::{lock_addl_mr, nop_9b};
use cranelift_assembler_x64::{
    Amode, AmodeOffsetPlusKnownOffset, CodeSink, Gpr, Inst, Instruction, Notice, Numbers, Recorder,
    SinkError, TrapCode, all_encodable, encode_all_whole,
};
use std::alloc::Allocator;
use std::num::NonZeroU8;

const CODE: TrapCode = TrapCode(NonZeroU8::MIN);

const TRAPPING: Amode<u8> = Amode::ImmReg {
    base: 0,
    simm32: AmodeOffsetPlusKnownOffset::ZERO,
    trap: Some(CODE),
};

const BYTES: [u8; 13] = [
    0x90, 0x66, 0x0F, 0x1F, 0x84, 0x00, 0x00, 0x00, 0x00, 0x00, 0xF0, 0x01, 0x08,
];

/// A no-operation, and an addition that may trap.
pub(crate) fn two() -> [Inst<Numbers>; 2] {
    [
        Inst::nop_9b(nop_9b::new()),
        Inst::lock_addl_mr(lock_addl_mr::new(TRAPPING, Gpr::new(1))),
    ]
}

/// Encodes a list all or nothing, if each of it can be encoded and its bytes can be counted, and says whether it did.
pub(crate) fn encode_whole_if_encodable<A: Allocator>(
    insts: &[Inst<Numbers>],
    sink: &mut Recorder<A>,
) -> Result<bool, SinkError> {
    if all_encodable(insts, &*sink) && insts.len() <= usize::MAX / 13 {
        encode_all_whole(insts, sink)?;
        Ok(true)
    } else {
        Ok(false)
    }
}

/// Puts both.
fn put_two<A: Allocator>(sink: &mut Recorder<A>) -> Result<bool, SinkError> {
    let both = two();
    encode_whole_if_encodable(both.as_slice(), sink)
}

/// A list that is put whole, behind a byte.
#[derive(Clone, Copy)]
struct Whole;

impl Grows for Whole {
    fn run<A: Allocator + Copy>(&self, alloc: A) -> Outcome {
        let mut sink = Recorder::new(alloc);
        if sink.put1(0x90).is_err() {
            return Outcome::Refused;
        }
        let told = [Notice::Trap(10, CODE)];
        match (put_two(&mut sink), sink.bytes(), sink.notices()) {
            (Ok(true), bytes, notices) if bytes == BYTES.as_slice() && notices == told.as_slice() =>
                { Outcome::Made }
            (Err(SinkError::NoMemory), [0x90], []) => Outcome::Refused,
            _ => Outcome::Wrong,
        }
    }
}

/// How a call that makes room ended, behind two bytes and a notice, which are to stay.
fn reserved<A: Allocator>(ended: Result<(), SinkError>, sink: &Recorder<A>) -> Outcome {
    let told = [Notice::Trap(2, CODE)];
    if sink.bytes() != [0x02, 0x01].as_slice() || sink.notices() != told.as_slice() {
        return Outcome::Wrong;
    }
    match ended {
        Ok(()) => Outcome::Made,
        Err(SinkError::NoMemory) => Outcome::Refused,
        Err(SinkError::Full) => Outcome::Wrong,
    }
}

/// Room for bytes and notices, behind two bytes and a notice.
#[derive(Clone, Copy)]
struct Reserve;

impl Grows for Reserve {
    fn run<A: Allocator + Copy>(&self, alloc: A) -> Outcome {
        let mut sink = Recorder::new(alloc);
        if sink.put2(0x0102).is_err() || sink.add_trap(CODE).is_err() {
            return Outcome::Refused;
        }
        let ended = sink.reserve(30, 10);
        reserved(ended, &sink)
    }
}

/// The same for a caller that will ask again.
#[derive(Clone, Copy)]
struct ReserveAhead;

impl Grows for ReserveAhead {
    fn run<A: Allocator + Copy>(&self, alloc: A) -> Outcome {
        let mut sink = Recorder::new(alloc);
        if sink.put2(0x0102).is_err() || sink.add_trap(CODE).is_err() {
            return Outcome::Refused;
        }
        let ended = sink.reserve_ahead(30, 10);
        reserved(ended, &sink)
    }
}

#[test]
fn a_refusal_adds_nothing(rt: HostRuntime) {
    assert!(rt; is_refused(rt.alloc(), &Whole, 3));
    assert!(rt; is_refused(rt.alloc(), &Reserve, 4));
    assert!(rt; is_refused(rt.alloc(), &ReserveAhead, 4));
}
