//! The lines of the core: a table of 584 instructions, of which the assembler's rows are the first.
//!
//! [`Op`] is a line, by its number. It says which operands the line takes and what is done with them, which flags it reads and
//! writes, and what it asks of a processor.
#![tactic(auto)]

pub mod extension;
pub mod flags;
pub mod laws;
pub mod lines;
mod message;
pub mod op;
mod operand_lists;
mod operand_spans;
pub mod operands;
pub mod refused;
mod rows;
pub mod shapes;

pub use extension::{Extension, Extensions};
pub use op::Op;
pub use refused::OperandError;
