//! Functions from virtual registers to patched code.

use crate::jobs::function_length;
use cranelift_assembler_x64::{
    CodeSink, Constant, Fault, Instruction, Label, RowAndOperands, SinkError,
};
use std::alloc::{AllocError, Global};
use workload_source::digest::Digest;
use workload_source::homes::{Homes, assign};
use workload_source::maker::{Maker, OFFSETS};
use workload_source::notices::digest_notices;
use workload_source::random::Random;
use workload_source::source::{Source, push};
use workload_source::stub::{bind, push_if_encodable};
use x64_code_buffer::{CodeBuffer, FinishError};

/// A function that is to be made.
#[derive(Clone, Copy)]
struct Plan {
    /// How many instructions it has.
    length: usize,
    /// How many constants its pool has at the most.
    most_constants: usize,
    /// Whether each instruction is asked for its first fault, or whether it can be encoded.
    tells_faults: bool,
    /// Of how many instructions one is made anew. The others are those of the function before it, and get other registers.
    period: usize,
    /// Which of these it is.
    phase: usize,
}

/// Where labels stand: in front of every fifth to eighth instruction.
#[derive(Clone, Copy)]
struct Labels {
    /// The number of the next label.
    next: u32,
    /// How many instructions still stand before it.
    left: u32,
}

impl Labels {
    fn new() -> Labels {
        Labels { next: 0, left: 0 }
    }

    /// The label that stands in front of the next instruction, if one does.
    fn step(&mut self) -> Option<Label> {
        if self.left > 0 {
            self.left = self.left.saturating_sub(1);
            return None;
        }
        let label = self.next;
        self.left = 4 + label % 4;
        self.next = label.saturating_add(1);
        Some(Label(label))
    }
}

/// What the offsets are that are known late.
fn set_offsets(buffer: &mut CodeBuffer<Global>, random: &mut Random) {
    for key in 0..OFFSETS {
        let [a, b, ..] = random.bytes();
        buffer.set_offset(key, i32::from(u16::from_le_bytes([a, b])));
    }
}

fn digest_fault(digest: &mut Digest, fault: Fault) {
    match fault {
        Fault::Register(place) => digest.word(0x100 + u64::from(place)),
        Fault::Index(place) => digest.word(0x200 + u64::from(place)),
        Fault::Fixed(place) => digest.word(0x300 + u64::from(place)),
        Fault::Unknown(key) => digest.word(0x400 + u64::from(key)),
        Fault::Range => digest.word(0x500),
    }
}

fn push_or_tell<I: RowAndOperands>(
    buffer: &mut CodeBuffer<Global>,
    inst: &I,
    digest: &mut Digest,
) -> Result<(), SinkError> {
    match inst.first_fault(&*buffer) {
        None => buffer.push(inst),
        Some(fault) => {
            digest_fault(digest, fault);
            Ok(())
        }
    }
}

/// Pushes the instructions, and binds the labels between them and the others behind them.
fn push_body<I: RowAndOperands>(
    buffer: &mut CodeBuffer<Global>,
    insts: &[I],
    labels: u32,
    plan: &Plan,
    digest: &mut Digest,
) -> Result<(), SinkError> {
    let mut places = Labels::new();
    for inst in insts {
        if let Some(label) = places.step() {
            bind(buffer, label, digest);
        }
        if plan.tells_faults {
            push_or_tell(buffer, inst, digest)?;
        } else {
            push_if_encodable(buffer, inst, digest)?;
        }
    }
    for label in places.next..labels {
        bind(buffer, Label(label), digest);
    }
    Ok(())
}

/// Puts the constants behind the code, sixteen bytes each.
fn push_pool(
    buffer: &mut CodeBuffer<Global>,
    maker: &mut Maker,
    digest: &mut Digest,
) -> Result<(), SinkError> {
    for number in 0..maker.constants {
        let key = Constant(number.wrapping_mul(maker.spread));
        if buffer.bind_constant(key).is_err() {
            digest.word(2);
        }
        buffer.put8(maker.random.word())?;
        buffer.put8(maker.random.word())?;
    }
    Ok(())
}

fn digest_error(digest: &mut Digest, error: FinishError) {
    match error {
        FinishError::Unbound(_) => digest.word(3),
        FinishError::TooFar(at) => digest.word(at as u64),
    }
}

pub(crate) fn finish(buffer: CodeBuffer<Global>, digest: &mut Digest) {
    digest_notices(digest, buffer.notices());
    match buffer.finish() {
        Ok(code) => digest.bytes(code.as_slice()),
        Err((_buffer, error)) => digest_error(digest, error),
    }
}

/// How many constants the instructions up to a place may refer to.
fn constants_at(place: usize, plan: &Plan) -> u32 {
    let constants = (place / 4).min(plan.most_constants);
    u32::try_from(constants).unwrap_or(0).saturating_add(1)
}

/// Makes those instructions anew that are to be, with virtual registers, and adds those that there are too few. What they
/// refer to is near.
fn renew<S: Source>(
    insts: &mut Vec<S::Inst>,
    plan: &Plan,
    maker: &mut Maker,
) -> Result<(), AllocError> {
    let mut places = Labels::new();
    let mut place = 0usize;
    for inst in insts.iter_mut().take(plan.length) {
        places.step();
        if place.checked_rem(plan.period).unwrap_or(0) == plan.phase {
            maker.label = places.next;
            maker.constants = constants_at(place, plan);
            *inst = S::make(maker);
        }
        place = place.saturating_add(1);
    }
    for _ in place..plan.length {
        places.step();
        maker.label = places.next;
        maker.constants = constants_at(place, plan);
        push(insts, S::make(maker))?;
        place = place.saturating_add(1);
    }
    Ok(())
}

/// One function, from instructions over virtual registers to patched code. `insts` holds those of the functions before it.
fn make_function<S: Source>(
    alloc: Global,
    plan: &Plan,
    insts: &mut Vec<S::Inst>,
    maker: &mut Maker,
    digest: &mut Digest,
) -> Result<(), SinkError> {
    renew::<S>(insts, plan, maker).map_err(|_| SinkError::NoMemory)?;
    let count = insts.len().min(plan.length);
    let body = &mut insts[..count];
    let mut homes = Homes::new(&mut maker.random);
    assign(body, &mut homes);
    let mut buffer = CodeBuffer::new(alloc);
    set_offsets(&mut buffer, &mut maker.random);
    let labels = u32::try_from(count / 5).unwrap_or(0).saturating_add(10);
    for _ in 0..labels {
        buffer.new_label()?;
    }
    push_body(&mut buffer, body, labels, plan, digest)?;
    maker.constants = constants_at(count, plan);
    push_pool(&mut buffer, maker, digest)?;
    finish(buffer, digest);
    Ok(())
}

/// Of how many instructions of a function one is made anew.
const PERIOD: usize = 4;

/// So many functions of 20 to 2,000 instructions, with a label for every five to eight of them, and a digest of all code.
pub(crate) fn functions<S: Source>(
    alloc: Global,
    count: u32,
    seed: u64,
) -> Result<Digest, SinkError> {
    let mut maker = Maker::of_virtual(seed, 1);
    let mut digest = Digest::new();
    let mut insts = Vec::new(alloc);
    for number in 0..count {
        let plan = Plan {
            length: function_length(&mut maker),
            most_constants: 32,
            tells_faults: maker.random.byte() % 2 == 0,
            period: PERIOD,
            phase: (number % 4) as usize,
        };
        make_function::<S>(alloc, &plan, &mut insts, &mut maker, &mut digest)?;
    }
    Ok(digest)
}

/// So many functions of three instructions.
pub(crate) fn small_functions<S: Source>(
    alloc: Global,
    count: u32,
    seed: u64,
) -> Result<Digest, SinkError> {
    let mut maker = Maker::of_virtual(seed, 1);
    let mut digest = Digest::new();
    let mut insts = Vec::new(alloc);
    let plan = Plan {
        length: 3,
        most_constants: 0,
        tells_faults: false,
        period: 1,
        phase: 0,
    };
    for _ in 0..count {
        make_function::<S>(alloc, &plan, &mut insts, &mut maker, &mut digest)?;
    }
    Ok(digest)
}

/// So many functions of 100,000 instructions, each with 20,000 labels and as many constants, whose keys are of all sizes.
pub(crate) fn large_functions<S: Source>(
    alloc: Global,
    count: u32,
    seed: u64,
) -> Result<Digest, SinkError> {
    let mut maker = Maker::of_virtual(seed, 0x9E37_79B1);
    let mut digest = Digest::new();
    let mut insts = Vec::new(alloc);
    for number in 0..count {
        let plan = Plan {
            length: 100_000,
            most_constants: 20_000,
            tells_faults: true,
            period: PERIOD,
            phase: (number % 4) as usize,
        };
        make_function::<S>(alloc, &plan, &mut insts, &mut maker, &mut digest)?;
    }
    Ok(digest)
}
