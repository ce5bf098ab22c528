//! What is taken back of a text where memory was refused for the rest.

ghost use Rattle.std.specs.Prelude.{◌≡◌, OnErr, OnOk, string_bytes, take};
ghost use Rattle.std.specs.Str.{IsUtf8};

use std::alloc::{AllocError, Allocator};

#[cold]
#[inline(never)]
fn take_back<A: Allocator>(out: &mut String<A>, len: usize)
    requires { IsUtf8 (take len (string_bytes out.old)) }
    ensures { string_bytes out.new ≡ take len (string_bytes out.old) }
{
    out.truncate(len);
}

/// What was added to a text that was so long before, and nothing of it where it is refused.
#[inline(always)]
pub(crate) fn or_taken_back<A: Allocator>(
    out: &mut String<A>,
    len: usize,
    added: Result<(), AllocError>,
) -> Result<(), AllocError>
    requires { IsUtf8 (take len (string_bytes out.old)) }
    ensures answer { result ≡ added }
    ensures text { OnOk result (string_bytes out.new ≡ string_bytes out.old) }
    ensures kept { OnErr result (string_bytes out.new ≡ take len (string_bytes out.old)) }
{
    if added.is_err() {
        take_back(out, len);
    }
    added
}
