//! Instructions of the core, and what is read of bytes, in structs of integers, as they cross to C.
//!
//! A struct of these has no padding, and any bytes may stand in it: each call tests what it's handed.
#![tactic(auto)]

mod encodable;
pub mod immediate;
pub mod inst;
pub mod laws;
pub mod place;
pub mod reading;
pub mod status;
pub mod told;

pub use inst::HqInst;
pub use place::HqPlace;
pub use reading::HqReading;
pub use told::HqUse;
