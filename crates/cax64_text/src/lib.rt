//! Texts, mnemonics and features of instructions.
//!
//! They follow from an instruction's row and its operands, by functions that are written once.
#![tactic(auto)]

mod folds;
pub mod head;
pub mod instruction;
pub mod laws;
pub mod mnemonic;
pub mod names;
pub mod operand;
mod piece;
mod slots;
pub mod style;
mod task;

pub use instruction::{InstructionText, xed_string};
pub use names::RegisterNames;
