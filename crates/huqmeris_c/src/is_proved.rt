//! Whether this archive was proved.

ghost use Rattle.std.specs.Prelude.{◌≡◌};

/// What a proved archive answers. `c/build_unproved.py` puts 0 in its place in the copy that it compiles.
const PROVED: u32 = 1;

/// Whether what stands in this archive was proved: 1 where it was, 0 where it was only compiled.
#[unsafe(no_mangle)]
pub extern "C" fn hq_is_proved() -> u32
    ensures { result ≡ 1 }
{
    PROVED
}
