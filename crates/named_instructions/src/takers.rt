//! What is done with instructions that are named in a text. It is said for any type of instruction: a crate that holds an
//! `Inst` of its own costs the prover much.

use cranelift_assembler_x64::{Numbers, RowAndOperands};

/// What is done with an instruction.
pub trait TakesInstruction {
    type Answer;

    fn take<I: RowAndOperands<Family = Numbers> + Drop>(&mut self, inst: I) -> Self::Answer;
}

/// What is done with a list of instructions.
pub trait TakesList {
    type Answer;

    fn take<I: RowAndOperands<Family = Numbers> + Drop>(&mut self, insts: &[I]) -> Self::Answer;
}
