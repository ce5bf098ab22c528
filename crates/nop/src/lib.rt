//! Instructions that do nothing.
#![tactic(auto)]
#![allow(non_camel_case_types)]

// table/write.py: modules
mod nop;

pub use nop::{nop_1b, nop_2b, nop_3b, nop_4b, nop_5b, nop_6b, nop_7b, nop_8b, nop_9b};
// table/write.py: end
