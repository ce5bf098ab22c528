//! Machine code of 64-bit mode as it is read: the definitions that every contract of the assembler cites.
#![tactic(auto)]

pub mod laws;
pub mod line;
pub mod reading;
pub mod row;
pub mod worked;
