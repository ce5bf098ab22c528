//! Registers of any family.
//!
//! The assembler takes whatever a compiler uses for a register, if it says which hardware number
//! a register encodes as and when it has one ([`AsReg`]). The plain numbers, `u8`, are a family.
#![tactic(auto)]

mod as_reg;
mod fixed;
pub mod gpr;
pub mod laws;
pub mod xmm;

pub use as_reg::{AsReg, Registers, register_name};
pub use fixed::Fixed;
pub use gpr::{Gpr, NonRspGpr, Size};
pub use xmm::Xmm;
