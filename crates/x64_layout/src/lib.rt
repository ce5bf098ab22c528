//! The least lengths of instructions and jumps that stand one behind the other.
#![tactic(auto)]

#[cfg(test)]
mod choices;
pub mod laws;
mod least;
mod ripple;
mod rounds;
mod span;
#[cfg(test)]
mod tests;

pub use least::least_layout;
pub use span::{MOST_SPANS, Span, are_spans};
