//! Lists of instructions of one type, of whatever type: of the rows, and of all that can be encoded by a line.
#![tactic(auto)]

mod checked;
mod each;
pub mod laws;
mod message;
mod sequence;
mod whole;

pub use checked::{Stopped, encode_each_checked};
pub use each::{are_encodable, put_each, put_each_checked, put_each_whole};
pub use sequence::{Refused, all_encodable, encode_each};
pub use whole::encode_each_whole;
