//! Instructions from text: columns, addresses, fields, and the name of each struct.
#![tactic(auto)]

pub mod address;
pub mod fields;
mod lists;
mod names;
mod takers;
mod values;

pub use lists::{Form, Refusal, take_list};
pub use names::take_instruction;
pub use takers::{TakesInstruction, TakesList};
