//! Reading.

ghost use Rattle.std.specs.Prelude.{◌≡◌, MatchOption, false, true};
ghost use Rattle.cax64_machine_code.specs.ReadLine.{read_of};
ghost use Rattle.x64_plain.specs.Reading.{IsReading};
ghost use Rattle.x64_lines.specs.Lines.{core_lines};
ghost use Rattle.x64_plain.specs.declared.status.TheConstants.{HQ_NONE, HQ_OK};

use x64_plain::HqReading;
use x64_plain::status::{HQ_NONE, HQ_OK};
use x64_reader::read_core;

/// Reads the instruction at the front of some bytes, and says whether there is one. No other function of this library calls the
/// reader, so that the compiler inlines it here, and what was read doesn't go through memory before it's put into integers.
#[inline(never)]
pub(crate) fn read(bytes: &[u8], out: &mut HqReading) -> bool
    ensures { MatchOption (read_of core_lines bytes.now) ((result ≡ false) × (out.new ≡ out.old)) (λ reading. (result ≡ true) × IsReading reading out.new) }
{
    match read_core(bytes) {
        None => false,
        Some(reading) => {
            *out = HqReading::of(&reading);
            true
        }
    }
}

/// Reads the instruction at the front of some bytes, of which all lines of the core are known; what follows it is not read.
/// `HQ_NONE` where no line reads what stands there.
#[unsafe(no_mangle)]
pub extern "C" fn hq_decode(bytes: &[u8], out: &mut HqReading) -> i32
    ensures { MatchOption (read_of core_lines bytes.now) ((result ≡ HQ_NONE) × (out.new ≡ out.old)) (λ reading. (result ≡ HQ_OK) × IsReading reading out.new) }
{
    if read(bytes, out) { HQ_OK } else { HQ_NONE }
}
