//! Why a list isn't put.

use cax64_encoder::Fault;
use x64_code_buffer::BindError;

/// Why a list wasn't put. Its items are counted from 0.
#[derive(Clone, Copy, Debug, PartialEq)]
pub enum LayoutError {
    /// An instruction can't be encoded for the offsets that are set.
    Fault(usize, Fault),
    /// A label can't be bound: the buffer didn't give it (`Unknown`), or it or an item before bound it (`Twice`).
    Bind(usize, BindError),
    /// There are more than 165,191,049 items.
    TooMany,
    NoMemory,
}
