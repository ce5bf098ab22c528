//! Relative fields.

ghost use Rattle.std.specs.Prelude.{◌≡◌, MatchOption};
ghost use Rattle.x64_code_buffer.specs.Field.{patched};
ghost use Rattle.x64_plain.specs.declared.status.TheConstants.{HQ_OK, HQ_OUT_OF_RANGE};

use x64_code_buffer::patched_field;
use x64_plain::status::{HQ_OK, HQ_OUT_OF_RANGE};

/// What a relative field is to hold: what is stored in it, and the distance from the field's end to the target. `place` is the
/// position of the field's first byte. `HQ_OUT_OF_RANGE` where that isn't of 32 bits.
#[unsafe(no_mangle)]
pub extern "C" fn hq_patched(place: u64, target: u64, stored: i32, field: &mut i32) -> i32
    ensures { MatchOption (patched place target stored) ((result ≡ HQ_OUT_OF_RANGE) × (field.new ≡ field.old)) (λ value. (result ≡ HQ_OK) × (field.new ≡ value)) }
{
    match patched_field(place, target, stored) {
        None => HQ_OUT_OF_RANGE,
        Some(value) => {
            *field = value;
            HQ_OK
        }
    }
}
