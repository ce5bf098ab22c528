//! Memory operands, and the tails that they are written as: ModR/M, SIB and displacement.
#![tactic(auto)]

pub mod amode;
pub mod disp;
pub mod laws;
pub mod makers;
pub mod memory;
pub mod number;
pub mod offset;
pub mod operand;
mod refused;
pub mod tail;
pub mod text;
