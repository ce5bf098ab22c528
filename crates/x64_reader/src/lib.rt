//! Reads an instruction of the core from the front of some bytes: which line of the table it is, and its operands by
//! number.
#![tactic(auto)]

mod index;
pub mod laws;
pub mod lines;
pub mod reader;
pub mod reading;
pub mod rows;

pub use reader::read_core;
pub use reading::CoreReading;
pub use rows::read_inst;
