//! The prefixes of 64-bit mode that carry register bits: REX, VEX and EVEX.
#![tactic(auto)]

pub mod evex;
mod fields;
pub mod rex;
pub mod vex;
