//! Lists of instructions of several kinds, put by the calls that are for them.

use crate::lists::encode_whole_if_encodable;
use cax64_test_support::RefusingSink;
use client::encode_all_if_encodable;
use cranelift_assembler_x64::inst::{andb_i, callq_m, lock_addl_mr, nop_1b, nop_9b};
use cranelift_assembler_x64::reader::read_inst;
use cranelift_assembler_x64::{
    Amode, AmodeOffsetPlusKnownOffset, CodeSink, DeferredTarget, Fixed, FixedSink, Gpr, GprMem,
    Imm8, Inst, Notice, Numbers, Recorder, Refused, SinkError, TrapCode,
};
use std::alloc::Global;
use std::num::NonZeroU8;
use std::process::Abort;

fn mask(number: u8) -> andb_i<Numbers> {
    andb_i::new(Fixed(0), Imm8::new(number))
}

fn addition(base: u8, trap: Option<TrapCode>) -> lock_addl_mr<Numbers> {
    let place = Amode::ImmReg {
        base,
        simm32: AmodeOffsetPlusKnownOffset::ZERO,
        trap,
    };
    lock_addl_mr::new(place, Gpr::new(1))
}

fn call() -> callq_m<Numbers> {
    callq_m::new(GprMem::Mem(Amode::RipRelative {
        target: DeferredTarget::None,
    }))
}

/// The instructions of all lists in a row, of which some share one.
fn all() -> [Inst<Numbers>; 8] {
    [
        Inst::nop_9b(nop_9b::new()),
        Inst::andb_i(mask(0xAA)),
        Inst::nop_1b(nop_1b::new()),
        Inst::callq_m(call()),
        Inst::andb_i(mask(0)),
        Inst::lock_addl_mr(addition(4, None)),
        Inst::nop_1b(nop_1b::new()),
        Inst::lock_addl_mr(addition(0, NonZeroU8::new(5).map(TrapCode))),
    ]
}

/// A list that the calls for all kinds put. What is checked of it is written for any such list, and holds no `Inst`.
trait List: Copy {
    /// Puts it if each of it can be encoded, and says whether it did.
    fn put<S: CodeSink>(self, sink: &mut S) -> Result<bool, Refused>;

    /// The same, all or nothing.
    fn put_whole(self, sink: &mut Recorder<Global>) -> Result<bool, SinkError>;

    /// Some of it, from one place to before another.
    fn part(self, rt: &impl Abort, from: usize, to: usize) -> Self;
}

#[derive(Clone, Copy)]
struct Insts<'a>(&'a [Inst<Numbers>]);

impl List for Insts<'_> {
    fn put<S: CodeSink>(self, sink: &mut S) -> Result<bool, Refused> {
        encode_all_if_encodable(self.0, sink)
    }

    fn put_whole(self, sink: &mut Recorder<Global>) -> Result<bool, SinkError> {
        encode_whole_if_encodable(self.0, sink)
    }

    fn part(self, rt: &impl Abort, from: usize, to: usize) -> Self {
        Insts(self.0.get(from..to).expect(rt, "so many instructions"))
    }
}

fn length_read(bytes: &[u8]) -> Option<u8> {
    Some(read_inst(bytes)?.length)
}

/// Whether a trap of this number is told at this place, and nothing else.
fn tells_trap(notices: &[Notice], place: usize, number: u8) -> bool {
    match NonZeroU8::new(number) {
        Some(number) => notices == [Notice::Trap(place, TrapCode(number))].as_slice(),
        None => false,
    }
}

const NOP_AND_MASK: [u8; 11] = [
    0x66, 0x0F, 0x1F, 0x84, 0x00, 0x00, 0x00, 0x00, 0x00, 0x24, 0xAA,
];

/// Into a vector they go as these bytes.
fn are_put<L: List>(rt: &impl Abort, alloc: Global, list: L, wanted: &[u8]) {
    let mut sink: Vec<u8> = Vec::new(alloc);
    assert!(rt; list.put(&mut sink) == Ok(true));
    assert!(rt; sink.as_slice() == wanted);
}

/// Into a recorder they go whole, as these bytes and without a notice.
fn are_put_whole<L: List>(rt: &impl Abort, alloc: Global, list: L, wanted: &[u8]) {
    let mut recorder = Recorder::new(alloc);
    assert!(rt; list.put_whole(&mut recorder) == Ok(true));
    assert!(rt; recorder.bytes() == wanted);
    assert!(rt; recorder.notices().is_empty());
}

/// A sink of five bytes refuses the third, and keeps a front of it.
fn fill_five<L: List>(rt: &impl Abort, list: L) {
    let full = Refused {
        whole: 2,
        error: SinkError::Full,
    };
    let mut sink = FixedSink::<5>::new();
    assert!(rt; list.put(&mut sink) == Err(full));
    assert!(rt; sink.bytes() == [0x24, 0xAA, 0x90, 0xFF, 0x15].as_slice());
}

/// A sink of no bytes takes no instruction.
fn fill_none<L: List>(rt: &impl Abort, list: L) {
    let mut sink = FixedSink::<0>::new();
    assert!(rt; list.put(&mut sink) == Ok(true));
    assert!(rt; sink.bytes().is_empty());
}

/// Where the third call of a sink is refused, the trap before it stays told.
fn stop_behind_a_trap<L: List>(rt: &impl Abort, alloc: Global, list: L) {
    let third = Refused {
        whole: 1,
        error: SinkError::NoMemory,
    };
    let mut sink = RefusingSink::new(Recorder::new(alloc), 3);
    assert!(rt; list.put(&mut sink) == Err(third));
    let recorder = sink.into_recorder();
    assert!(rt; recorder.bytes() == [0x90, 0xF0].as_slice());
    assert!(rt; tells_trap(recorder.notices(), 1, 5));
}

fn are_put_as_they_should<L: List>(rt: &impl Abort, alloc: Global, list: L) {
    are_put(rt, alloc, list.part(rt, 0, 0), &[]);
    are_put(rt, alloc, list.part(rt, 0, 2), &NOP_AND_MASK);
    are_put(
        rt,
        alloc,
        list.part(rt, 4, 6),
        &[0x24, 0x00, 0xF0, 0x01, 0x0C, 0x24],
    );
    are_put_whole(rt, alloc, list.part(rt, 0, 2), &NOP_AND_MASK);
    fill_five(rt, list.part(rt, 1, 4));
    fill_none(rt, list.part(rt, 0, 0));
    stop_behind_a_trap(rt, alloc, list.part(rt, 6, 8));
}

#[test]
fn lists_of_several_kinds(rt: HostRuntime) {
    let kinds = all();
    are_put_as_they_should(&rt, rt.alloc(), Insts(kinds.as_slice()));
}

#[test]
fn lists_are_read_one_by_one(rt: HostRuntime) {
    assert!(rt; length_read(&NOP_AND_MASK) == Some(9));
    assert!(rt; length_read(&NOP_AND_MASK[9..]) == Some(2));
}
