//! Calls from C and from Rust: a static library, whose header and declarations `c/write.py` writes.
//!
//! No call has a condition: each tests what it's handed, and answers 0, or a status with which all that it could write is as
//! before, but for what it tells of itself: `done` of a list, and the length of a text that doesn't fit.
#![tactic(auto)]

mod assemble;
mod convert;
mod data_items;
mod decode;
mod decode_all;
mod encode;
mod encode_all;
mod is_proved;
mod item;
mod jump;
mod line_use;
mod list;
#[cfg(test)]
mod list_rows;
mod make;
mod operands;
mod patch;
mod progress;
mod rename;
#[cfg(test)]
mod rows;
mod status;
mod text;
mod traps;
mod unbound;
mod version;
mod words;
