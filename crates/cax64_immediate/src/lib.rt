//! Immediate operands.
#![tactic(auto)]

pub mod extension;
pub mod imm16;
pub mod imm32;
pub mod imm64;
pub mod imm8;
pub mod laws;
pub mod simm16;
pub mod simm32;
pub mod simm8;
pub mod text;

pub use extension::Extension;
pub use imm8::Imm8;
pub use imm16::Imm16;
pub use imm32::Imm32;
pub use imm64::Imm64;
pub use simm8::Simm8;
pub use simm16::Simm16;
pub use simm32::Simm32;

/// A number isn't in the range of the immediate that it was to be.
#[derive(Clone, Copy, Debug, PartialEq)]
pub struct OutOfRange;
