//! What can be encoded by a line, of whatever table: what a code buffer, a list and the least layout take.
#![tactic(auto)]

mod encode;

pub use encode::Encode;
