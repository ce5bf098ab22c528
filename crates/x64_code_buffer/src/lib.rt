//! A code buffer with labels: it takes instructions, knows labels and constants, and patches each relative field once
//! all is bound.
#![tactic(auto)]

mod align;
mod bindings;
mod buffer;
mod data;
mod errors;
mod field;
mod jump;
mod jumps;
mod labels;
pub mod laws;
mod message;
mod patch;
mod refusal;
mod resolve;
mod room;
mod slot;

pub use buffer::CodeBuffer;
pub use errors::{BindError, FinishError};
pub use field::patched_field;
pub use jump::{Condition, Jump};
