//! A core of instructions that a compiler can be built on, as data: moves, arithmetic, shifts, conditions, the stack, and
//! scalar arithmetic of SSE2, beside the rows of the assembler.
//!
//! [`Core`] is an instruction: a line of the table, and a number wherever its bytes hold a register. It's made by the
//! constants of [`ops`], each of which takes what its line takes, by [`Core::new`] of any [`Op`](x64_lines::Op), or of what was
//! read from bytes, by [`Core::of_reading`].
#![tactic(auto)]

mod by_line;
pub mod encode;
mod faults;
mod fits;
mod heads;
pub mod immediate;
pub mod instruction;
pub mod laws;
pub mod make;
pub mod makers;
mod nop;
pub mod numbers;
mod of_reading;
pub mod ops;
pub mod place;
pub mod rename;
mod value;

pub use instruction::Core;
pub use place::CorePlace;
