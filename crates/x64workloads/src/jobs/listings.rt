//! Texts of instructions.

use crate::jobs::list_of;
use cranelift_assembler_x64::{InstructionText, RowAndOperands};
use std::alloc::{AllocError, Global};
use workload_source::digest::Digest;
use workload_source::maker::Maker;
use workload_source::random::Random;
use workload_source::source::Source;

/// How many instructions are made at a time.
const LENGTH: usize = 500;

/// The line of an instruction in a listing.
fn list_one<I: InstructionText>(
    alloc: Global,
    inst: &I,
    digest: &mut Digest,
) -> Result<(), AllocError> {
    if !inst.nameable() {
        digest.word(1);
        return Ok(());
    }
    let text = inst.to_string(alloc)?;
    digest.bytes(text.as_bytes());
    digest.bytes(inst.mnemonic().as_bytes());
    match inst.to_string_xed(alloc)? {
        Some(text) => digest.bytes(text.as_bytes()),
        None => digest.word(2),
    }
    Ok(())
}

fn list_each<I: RowAndOperands>(
    alloc: Global,
    insts: &[I],
    digest: &mut Digest,
) -> Result<(), AllocError> {
    for inst in insts {
        list_one(alloc, inst, digest)?;
    }
    Ok(())
}

/// So many times five hundred instructions, each with its text, its mnemonic, and its text as XED prints it.
pub(crate) fn listings<S: Source>(
    alloc: Global,
    count: u32,
    seed: u64,
) -> Result<Digest, AllocError> {
    let mut maker = Maker::of_machine(Random::new(seed));
    let mut digest = Digest::new();
    for _ in 0..count {
        let insts = list_of::<S>(alloc, LENGTH, &mut maker)?;
        list_each(alloc, insts.as_slice(), &mut digest)?;
    }
    Ok(digest)
}
