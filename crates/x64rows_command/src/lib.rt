//! What the words of `x64rows` ask for, and why a run ends early.
#![tactic(auto)]

mod command;
mod ending;
mod fault;
mod operand;
mod tail;
mod words;

pub use command::{asked_tail, asks_for_buffer, asks_for_rows};
pub use ending::end;
pub use fault::Fault;
pub use operand::{base_and_displacement, base_and_index};
