//! Parts of a line of output.

use std::alloc::{AllocError, Allocator};

/// Appends bytes as lower case pairs with single spaces.
pub fn push_bytes<A: Allocator>(line: &mut String<A>, bytes: &[u8]) -> Result<(), AllocError> {
    let mut separator = "";
    for byte in bytes {
        write!(line, "{separator}{byte:02x}")?;
        separator = " ";
    }
    Ok(())
}
