//! Numbers, the lowest byte first. Four bytes are taken at once, since that is what most displacements are.

ghost use Rattle.std.specs.Prelude.{◌≡◌, ◌≤◌, ◌<◌, ◌^◌, IfSome};
ghost use Rattle.cax64_machine_code.specs.Fields.{number_at};
ghost use Rattle.cax64_table.specs.Cursor.{behind};

use cax64_table::cursor::next;

/// The number in two bytes, and what follows them.
#[inline(always)]
fn half_word(bytes: &[u8]) -> Option<(u32, &[u8])>
    ensures is { behind result ≡ number_at 2 bytes.now }
    ensures fits { IfSome result (λ n. n.0 < 256 ^ 2) }
{
    match bytes {
        [a, b, rest @ ..] => Some((u32::from(*a) + 256 * u32::from(*b), rest)),
        _ => None,
    }
}

/// The number in four bytes, and what follows them.
#[inline(always)]
pub(crate) fn word(bytes: &[u8]) -> Option<(u32, &[u8])>
    ensures is { behind result ≡ number_at 4 bytes.now }
    ensures fits { IfSome result (λ n. n.0 < 256 ^ 4) }
{
    match bytes {
        [a, b, c, d, rest @ ..] => {
            let high = u32::from(*c) + 256 * u32::from(*d);
            let number = u32::from(*a) + 256 * (u32::from(*b) + 256 * high);
            Some((number, rest))
        }
        _ => None,
    }
}

/// The number in so many bytes, and what follows them.
#[inline(always)]
pub(crate) fn number(size: u8, bytes: &[u8]) -> Option<(u32, &[u8])>
    requires { size ≤ 4 }
    ensures is { behind result ≡ number_at size bytes.now }
    ensures fits { IfSome result (λ n. n.0 < 256 ^ size) }
{
    match size {
        0 => Some((0, bytes)),
        1 => {
            let (byte, rest) = next(bytes)?;
            Some((u32::from(byte), rest))
        }
        2 => half_word(bytes),
        3 => {
            let (lowest, rest) = next(bytes)?;
            let (higher, rest) = half_word(rest)?;
            Some((u32::from(lowest) + 256 * higher, rest))
        }
        _ => word(bytes),
    }
}
