//! What the workloads are made of: instructions that follow from a seed, homes for their registers, what stubs are, and
//! digests of what comes of all that.
//!
//! `x64workloads` stands on it and is laid over older checkouts, so it names only what these have.
#![tactic(auto)]

pub mod digest;
pub mod homes;
mod kinds;
pub mod maker;
pub mod notices;
pub mod random;
pub mod registers;
pub mod source;
pub mod stub;
