//! Calls that put into a sink: what stands after a refusal is a front of the bytes and of the notices.

use crate::lists::two;
use cax64_test_support::growth::{Grows, Outcome, is_refused};
use client::encode_all_if_encodable;
use cranelift_assembler_x64::evex::EvexPrefix;
use cranelift_assembler_x64::inst::cmpps_a;
use cranelift_assembler_x64::rex::{Disp, RexPrefix};
use cranelift_assembler_x64::vex::VexPrefix;
use cranelift_assembler_x64::{
    Amode, CodeSink, Constant, DeferredTarget, Imm8, Imm16, Imm64, Instruction, Label, Notice,
    Numbers, Recorder, SinkError, TrapCode, Xmm, XmmMem, emit_modrm_sib_disp,
};
use std::alloc::Allocator;
use std::num::NonZeroU8;

const CODE: TrapCode = TrapCode(NonZeroU8::MIN);

const LABEL: DeferredTarget = DeferredTarget::Label(Label(7));

const CONSTANT: DeferredTarget = DeferredTarget::Constant(Constant(3));

const RELATIVE: Amode<u8> = Amode::RipRelative { target: CONSTANT };

/// What is put.
#[derive(Clone, Copy, Debug)]
enum Put {
    Each,
    Immediate,
    ShortImmediate,
    Rex,
    Vex,
    Evex,
    Displacement,
    Tail,
    Instruction,
    List,
}

/// Each put of a sink, the largest first, with notices in between.
fn put_each<S: CodeSink>(sink: &mut S) -> Result<(), SinkError> {
    sink.put8(0x0102_0304_0506_0708)?;
    sink.add_trap(CODE)?;
    sink.put4(0x0102_0304)?;
    sink.use_target(LABEL)?;
    sink.put2(0x0102)?;
    sink.put1(0x01)
}

fn put_tail<S: CodeSink>(sink: &mut S) -> Result<(), SinkError> {
    if !RELATIVE.is_addressable(sink) {
        return Ok(());
    }
    emit_modrm_sib_disp(sink, 0, &RELATIVE, 1, None)
}

fn compare() -> cmpps_a<Numbers> {
    cmpps_a::new(Xmm::new(0), XmmMem::Mem(RELATIVE), Imm8::new(0))
}

fn put_instruction<S: CodeSink>(sink: &mut S) -> Result<(), SinkError> {
    let inst = compare();
    if !inst.is_encodable(sink) {
        return Ok(());
    }
    inst.encode(sink)
}

/// Puts a list of two. No other function of this file holds an `Inst`.
fn put_list<S: CodeSink>(sink: &mut S) -> Result<(), SinkError> {
    let both = two();
    match encode_all_if_encodable(both.as_slice(), sink) {
        Ok(_) => Ok(()),
        Err(refused) => Err(refused.error),
    }
}

impl Put {
    fn into_sink<S: CodeSink>(self, sink: &mut S) -> Result<(), SinkError> {
        match self {
            Put::Each => put_each(sink),
            Put::Immediate => Imm64::new(0x0123_4567_89AB_CDEF).encode(sink),
            Put::ShortImmediate => Imm16::new(0x1234).encode(sink),
            Put::Rex => RexPrefix::one_op(8, true, false).encode(sink),
            Put::Vex => VexPrefix::ThreeByte(0xC1, 0x78).encode(sink),
            Put::Evex => EvexPrefix::new(0, 0, (Some(0), None), 0, 0, 1, false, false).encode(sink),
            Put::Displacement => Disp::Imm32(128).emit(sink),
            Put::Tail => put_tail(sink),
            Put::Instruction => put_instruction(sink),
            Put::List => put_list(sink),
        }
    }
}

/// What is put, and what then stands.
#[derive(Clone, Copy)]
struct Case {
    put: Put,
    bytes: &'static [u8],
    /// The first so many of two.
    told: usize,
    notices: [Notice; 2],
}

const UNTOLD: [Notice; 2] = [Notice::Target(0, LABEL), Notice::Target(0, LABEL)];

const CASES: [Case; 10] = [
    Case {
        put: Put::Each,
        bytes: &[8, 7, 6, 5, 4, 3, 2, 1, 4, 3, 2, 1, 2, 1, 1],
        told: 2,
        notices: [Notice::Trap(8, CODE), Notice::Target(12, LABEL)],
    },
    Case {
        put: Put::Immediate,
        bytes: &[0xEF, 0xCD, 0xAB, 0x89, 0x67, 0x45, 0x23, 0x01],
        told: 0,
        notices: UNTOLD,
    },
    Case {
        put: Put::ShortImmediate,
        bytes: &[0x34, 0x12],
        told: 0,
        notices: UNTOLD,
    },
    Case {
        put: Put::Rex,
        bytes: &[0x49],
        told: 0,
        notices: UNTOLD,
    },
    Case {
        put: Put::Vex,
        bytes: &[0xC4, 0xC1, 0x78],
        told: 0,
        notices: UNTOLD,
    },
    Case {
        put: Put::Evex,
        bytes: &[0x62, 0xF1, 0x7C, 0x08],
        told: 0,
        notices: UNTOLD,
    },
    Case {
        put: Put::Displacement,
        bytes: &[0x80, 0, 0, 0],
        told: 0,
        notices: UNTOLD,
    },
    Case {
        put: Put::Tail,
        bytes: &[0x05, 0xFF, 0xFF, 0xFF, 0xFF],
        told: 1,
        notices: [Notice::Target(1, CONSTANT), Notice::Target(0, LABEL)],
    },
    Case {
        put: Put::Instruction,
        bytes: &[0x0F, 0xC2, 0x05, 0xFF, 0xFF, 0xFF, 0xFF, 0x00],
        told: 1,
        notices: [Notice::Target(3, CONSTANT), Notice::Target(0, LABEL)],
    },
    Case {
        put: Put::List,
        bytes: &[
            0x66, 0x0F, 0x1F, 0x84, 0x00, 0x00, 0x00, 0x00, 0x00, 0xF0, 0x01, 0x08,
        ],
        told: 1,
        notices: [Notice::Trap(9, CODE), Notice::Target(0, LABEL)],
    },
];

impl Case {
    /// How a call ended, by what stands in the sink.
    fn outcome(&self, ended: Result<(), SinkError>, bytes: &[u8], notices: &[Notice]) -> Outcome {
        let is_whole = bytes.len() == self.bytes.len() && notices.len() == self.told;
        if !self.bytes.starts_with(bytes)
            || !self.notices.starts_with(notices)
            || notices.len() > self.told
        {
            return Outcome::Wrong;
        }
        match ended {
            Ok(()) if is_whole => Outcome::Made,
            Err(SinkError::NoMemory) if !is_whole => Outcome::Refused,
            _ => Outcome::Wrong,
        }
    }
}

/// Into a vector, which keeps no notices.
#[derive(Clone, Copy)]
struct IntoVector(Case);

impl Grows for IntoVector {
    fn run<A: Allocator + Copy>(&self, alloc: A) -> Outcome {
        let mut sink: Vec<u8, A> = Vec::new(alloc);
        let result = self.0.put.into_sink(&mut sink);
        let told = self.0.told.min(2);
        self.0
            .outcome(result, sink.as_slice(), &self.0.notices[..told])
    }
}

#[derive(Clone, Copy)]
struct IntoRecorder(Case);

impl Grows for IntoRecorder {
    fn run<A: Allocator + Copy>(&self, alloc: A) -> Outcome {
        let mut sink = Recorder::new(alloc);
        let result = self.0.put.into_sink(&mut sink);
        self.0.outcome(result, sink.bytes(), sink.notices())
    }
}

#[test]
fn each_growth_of_a_vector_is_refused(rt: HostRuntime) {
    for case in CASES {
        let put = case.put;
        assert!(rt; is_refused(rt.alloc(), &IntoVector(case), 1), "{put:?}");
    }
}

#[test]
fn each_growth_of_a_recorder_is_refused(rt: HostRuntime) {
    for case in CASES {
        let put = case.put;
        let least = if case.told == 0 { 1 } else { 2 };
        assert!(rt;
            is_refused(rt.alloc(), &IntoRecorder(case), least),
            "{put:?}"
        );
    }
}
