//! The place of an instruction by its numbers, flat: what is asked of it is answered without a branch on what it is. And the
//! code of a line of a table with such a place.
#![tactic(auto)]

pub mod code;
pub mod place;
mod tails;

pub use code::code_by_heads;
pub use place::{FlatPlace, PlaceKind};
