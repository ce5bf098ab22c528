//! The table of rows as the program holds it: what each row asks for.
#![tactic(auto)]

pub mod cursor;
mod encodable;
pub mod entry;
mod fields;
pub mod laws;
pub mod legacy;
pub mod numbers;
mod packed;
pub mod prefix;
mod ready;

pub use packed::line;
