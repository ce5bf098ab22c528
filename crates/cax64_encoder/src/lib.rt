//! The encoder: one for every row of the table.
//!
//! An instruction is a row of the table and a list of operands. From them the encoder computes the calls that a sink is to
//! get, and only then makes them.
#![tactic(auto)]

pub mod checked;
pub mod code;
pub mod content;
pub mod encoder;
pub mod error;
pub mod fault;
mod front;
pub mod imm;
pub mod instruction;
pub mod laws;
pub mod message;
pub mod nop;
pub mod number;
pub mod numbered;
mod part;
pub mod role;
pub mod room;
pub mod short;
pub mod tails;
mod task;
mod tested;
pub mod worked;

pub use error::EncodeError;
pub use fault::Fault;
pub use instruction::Instruction;
pub use room::RoomNeeded;
