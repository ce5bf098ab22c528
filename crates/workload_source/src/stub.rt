//! Stubs: three instructions with a label or two.

use crate::digest::Digest;
use crate::maker::Maker;
use crate::source::{Source, push};
use cranelift_assembler_x64::{Instruction, Label, RowAndOperands, SinkError};
use std::alloc::{AllocError, Global};
use x64_code_buffer::CodeBuffer;

/// How many instructions a stub has.
const LENGTH: u32 = 3;

/// What stubs are made of: no constant and no late offset.
pub fn of_stubs(seed: u64) -> Maker {
    let mut maker = Maker::of_virtual(seed, 1);
    maker.has_late_offsets = false;
    maker.constants = 0;
    maker
}

/// Other instructions in place of those of the stub before, for another count of labels.
pub fn renew<S: Source>(insts: &mut Vec<S::Inst>, maker: &mut Maker) -> Result<(), AllocError> {
    maker.labels = 1 + maker.random.below(2) % 2;
    insts.clear();
    for _ in 0..LENGTH {
        push(insts, S::make(maker))?;
    }
    Ok(())
}

/// Pushes an instruction that can be encoded, and tells of another.
pub fn push_if_encodable<I: RowAndOperands>(
    buffer: &mut CodeBuffer<Global>,
    inst: &I,
    digest: &mut Digest,
) -> Result<(), SinkError> {
    if inst.is_encodable(&*buffer) {
        return buffer.push(inst);
    }
    digest.word(0);
    Ok(())
}

/// Binds a label, and tells of a refusal.
pub fn bind(buffer: &mut CodeBuffer<Global>, label: Label, digest: &mut Digest) {
    if buffer.bind(label).is_err() {
        digest.word(1);
    }
}

/// Pushes the instructions. Behind each of the first ones stands a label.
pub fn fill<I: RowAndOperands>(
    buffer: &mut CodeBuffer<Global>,
    insts: &[I],
    labels: u32,
    digest: &mut Digest,
) -> Result<(), SinkError> {
    for _ in 0..labels {
        buffer.new_label()?;
    }
    let mut next = 0u32;
    for inst in insts {
        push_if_encodable(buffer, inst, digest)?;
        if next < labels {
            bind(buffer, Label(next), digest);
            next = next.saturating_add(1);
        }
    }
    Ok(())
}
