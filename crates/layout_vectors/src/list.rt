//! A list, and its bytes.

use crate::step::item_of;
use cax64_sink::Label;
use cax64_test_support::Filler;
use std::alloc::{AllocError, Global};
use x64_assemble::{Item, Layout};
use x64_code_buffer::CodeBuffer;

/// The items of a list; none where a step isn't one.
fn items_of(alloc: Global, list: &str) -> Result<Option<Vec<Item<Filler>>>, AllocError> {
    let mut items = Vec::new(alloc);
    for step in list.split(" | ") {
        let Some(item) = item_of(step) else {
            return Ok(None);
        };
        items.push(item).map_err(|_| AllocError)?;
    }
    Ok(Some(items))
}

/// How many labels a list takes: those up to the last that it names.
fn labels_of(items: &[Item<Filler>]) -> u32 {
    let mut count = 0u32;
    for item in items {
        if let Item::Jump(_, Label(number)) | Item::Bind(Label(number)) = item {
            count = count.max(number.saturating_add(1));
        }
    }
    count
}

/// The bytes of items; none where they are refused.
fn bytes_of(alloc: Global, items: &[Item<Filler>]) -> Option<Vec<u8>> {
    let mut buffer = CodeBuffer::new(alloc);
    for _ in 0..labels_of(items) {
        buffer.new_label().ok()?;
    }
    Layout::new(alloc).assemble(items, &mut buffer).ok()?;
    buffer.finish().ok()
}

/// The bytes of a list as hexadecimal pairs, or what is said in their place.
pub(crate) fn hexadecimal_of(alloc: Global, list: &str) -> Result<String, AllocError> {
    let mut came = String::new(alloc);
    let Some(items) = items_of(alloc, list)? else {
        came.push_str("no list")?;
        return Ok(came);
    };
    match bytes_of(alloc, items.as_slice()) {
        Some(code) => {
            for byte in code.as_slice() {
                write!(came, "{byte:02x}")?;
            }
        }
        None => came.push_str("refused")?,
    }
    Ok(came)
}
