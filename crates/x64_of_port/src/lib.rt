//! Instructions of the port as instructions of the core: the port's rows are the core's first lines.
#![tactic(auto)]

mod convert;
mod given;
mod message;
mod place;
mod refused;

pub use convert::core_of;
pub use refused::NotCore;
