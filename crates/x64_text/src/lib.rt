//! Texts of the core's instructions in AT&T's form: the mnemonic, and the operands from the last to the first.
#![tactic(auto)]

mod mnemonic;
mod operand;
mod style;
mod text;

pub use text::CoreText;
