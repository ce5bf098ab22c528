//! Lists of instructions, jumps to labels and positions of labels, which are put into a code buffer in their least layout.
#![tactic(auto)]

mod assemble;
mod binders;
mod entry;
mod errors;
mod item;
pub mod laws;
mod message;
mod put;
mod spans;
mod tested;

pub use assemble::Layout;
pub use errors::LayoutError;
pub use item::Item;
