//! The version of this interface.

ghost use Rattle.std.specs.Prelude.{◌≡◌};
ghost use Rattle.huqmeris_c.specs.declared.version.TheConstants.{HQ_VERSION};

/// The version of this interface.
pub const HQ_VERSION: u32 = 2;

/// The version of the header that fits this library.
#[unsafe(no_mangle)]
pub extern "C" fn hq_version() -> u32
    ensures { result ≡ HQ_VERSION }
{
    HQ_VERSION
}
