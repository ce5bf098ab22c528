//! Reads the parts of an instruction: what stands before its opcode, and the operands of its line.
#![tactic(auto)]

pub mod by_line;
pub mod front;
mod number;
pub mod operands;
pub mod prefix;
mod tail;
