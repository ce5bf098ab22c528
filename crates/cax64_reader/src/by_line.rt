//! What a line asks of vvvv.

ghost use Rattle.std.specs.Prelude.{◌≡◌};
ghost use Rattle.cax64_machine_code.specs.Line.{vvvv_matches};

use cax64_machine_code::line::VvvvField;

/// Whether a line lets vvvv be this number.
#[inline]
pub fn is_vvvv(field: VvvvField, vvvv: u8) -> bool
    ensures { result ≡ vvvv_matches field vvvv }
{
    match field {
        VvvvField::VvvvRegister => true,
        VvvvField::Stored1111 => vvvv == 0,
    }
}
