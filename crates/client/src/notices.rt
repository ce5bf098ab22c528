//! What a relative field holds.

ghost use Rattle.std.specs.Prelude.{◌≡◌};
ghost use Rattle.x64_code_buffer.specs.Field.{patched};

/// What the four bytes at a position are to hold: the distance from the end of the instruction to the target. Until then
/// they hold minus the number of bytes that follow within the instruction. `None` where the distance isn't an `i32`.
pub fn distance(at: u64, target: u64, held: i32) -> Option<i32>
    ensures { result ≡ patched at target held }
{
    let end_of_field = i128::from(at) + 4;
    i32::try_from(i128::from(target) - end_of_field + i128::from(held)).ok()
}
