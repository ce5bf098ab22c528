//! The four bytes of a relative field.

ghost use Rattle.std.specs.Prelude.{◌≡◌};
ghost use Rattle.x64_code_buffer.specs.Field.{patched, stored_at};

/// What a relative field is to hold: what is stored in it, and the distance from the field's end to the target.
///
/// `place` is the position of the field's first byte. `None` where that isn't an `i32`.
pub fn patched_field(place: u64, target: u64, stored: i32) -> Option<i32>
    ensures { result ≡ patched place target stored }
{
    let end = i128::from(place) + 4;
    i32::try_from(i128::from(stored) + i128::from(target) - end).ok()
}

/// What is stored in the field at a position, if its four bytes are all there.
pub(crate) fn stored_at(bytes: &[u8], at: usize) -> Option<i32>
    ensures { result ≡ stored_at bytes.now at }
{
    if bytes.len() < 4 || bytes.len() - 4 < at {
        return None;
    }
    Some(i32::from_le_bytes([bytes[at], bytes[at + 1], bytes[at + 2], bytes[at + 3]]))
}
