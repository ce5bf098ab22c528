//! How much room an instruction takes.

use cax64_sink::CodeSink;

/// The room that an instruction takes in a sink.
#[derive(Clone, Copy)]
pub struct RoomNeeded {
    /// How many bytes are added, 1 to 13.
    pub bytes: u8,
    /// How many notices are told, 0 or 1.
    pub notices: u8,
}

/// A task's thing: an instruction is measured, for the offsets that this sink knows, and nothing is put.
#[derive(Drop)]
pub struct Measuring<'a, S: CodeSink> {
    pub sink: &'a S,
}

/// A task's thing: an instruction's notices are counted.
#[derive(Drop)]
pub struct Counting;
