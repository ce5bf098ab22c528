//! An instruction of another type, which implements the trait by hand: it does what one within does, but for the call that
//! has a body in the trait.

use cranelift_assembler_x64::inst::shrb_m1;
use cranelift_assembler_x64::{
    Amode, AmodeOffsetPlusKnownOffset, CodeSink, DeferredTarget, Fault, GprMem, HasOperands,
    Instruction, Label, Numbers, Recorder, RegisterVisitor, Row, SinkError, TrapCode,
};
use std::alloc::Global;
use std::num::NonZeroU8;
use std::process::Abort;

/// An instruction within another type.
#[derive(Drop)]
struct Wrapped<I: Instruction>(I);

impl<I: Instruction> HasOperands for Wrapped<I> {
    type Family = I::Family;

    ghost row_of = { λ wrapped. I.row_of wrapped.0 };

    ghost operands_of = { λ wrapped. I.operands_of wrapped.0 };
}

impl<I: Instruction> Instruction for Wrapped<I> {
    ghost meant = { λ wrapped. I.meant wrapped.0 };

    ghost follows = { λ wrapped. I.follows wrapped.0 };

    fn row(&self) -> Row {
        self.0.row()
    }

    fn visit<V: RegisterVisitor<I::Family>>(&mut self, visitor: &mut V) {
        self.0.visit(visitor);
    }

    fn first_fault<S: CodeSink>(&self, sink: &S) -> Option<Fault> {
        self.0.first_fault(sink)
    }

    fn is_encodable<S: CodeSink>(&self, sink: &S) -> bool {
        self.0.is_encodable(sink)
    }

    fn encoded_len<S: CodeSink>(&self, sink: &S) -> u8 {
        self.0.encoded_len(sink)
    }

    fn notice_count(&self) -> u8 {
        self.0.notice_count()
    }

    fn encode<S: CodeSink>(&self, sink: &mut S) -> Result<(), SinkError> {
        self.0.encode(sink)
    }
}

/// That an instruction takes so many bytes and notices, told at once and one by one.
fn takes<I: Instruction>(
    rt: &impl Abort,
    inst: &I,
    mut sink: Recorder<Global>,
    bytes: u8,
    notices: u8,
) {
    assert!(rt; inst.is_encodable(&sink));
    let room = inst.room_needed(&sink);
    assert!(rt; (room.bytes, room.notices) == (bytes, notices));
    assert!(rt; (inst.encoded_len(&sink), inst.notice_count()) == (bytes, notices));
    assert!(rt; inst.encode(&mut sink).is_ok());
    assert!(rt; sink.bytes().len() == usize::from(bytes));
    assert!(rt; sink.notices().len() == usize::from(notices));
}

#[test]
fn the_room_is_that_of_the_two_calls(rt: HostRuntime) {
    let target = DeferredTarget::Label(Label(0));
    let relative: shrb_m1<Numbers> = shrb_m1::new(GprMem::Mem(Amode::RipRelative { target }));
    takes(&rt, &relative, Recorder::new(rt.alloc()), 6, 1);
    takes(&rt, &Wrapped(relative), Recorder::new(rt.alloc()), 6, 1);
    let based = Amode::ImmReg {
        base: 12,
        simm32: AmodeOffsetPlusKnownOffset::ZERO,
        trap: NonZeroU8::new(3).map(TrapCode),
    };
    let trapping: shrb_m1<Numbers> = shrb_m1::new(GprMem::Mem(based));
    takes(&rt, &trapping, Recorder::new(rt.alloc()), 4, 1);
    takes(&rt, &Wrapped(trapping), Recorder::new(rt.alloc()), 4, 1);
    let register: shrb_m1<Numbers> = shrb_m1::new(GprMem::Gpr(1));
    takes(&rt, &register, Recorder::new(rt.alloc()), 2, 0);
    takes(&rt, &Wrapped(register), Recorder::new(rt.alloc()), 2, 0);
}
