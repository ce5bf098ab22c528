//! No string of bytes that is read as the same instruction is shorter.
#![tactic(auto)]

pub mod laws;
pub mod worked;
