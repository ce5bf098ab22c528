//! Instructions of what was read.

ghost use Rattle.std.specs.Prelude.{◌≡◌, ◌≢◌, ◌&&◌, false, true};
ghost use Rattle.x64_plain.specs.Reading.{plain_reading};
ghost use Rattle.huqmeris_c.specs.OfReading.{IsInstOf};
ghost use Rattle.x64_reader.specs.Taken.{is_taken};
ghost use Rattle.x64_core.specs.OfReading.{operands_given};
ghost use Rattle.x64_reader.specs.Reading.{line_reading};
ghost use Rattle.x64_reader.specs.declared.reading.CoreReading.{CoreReading};
ghost use Rattle.x64_plain.specs.declared.status.TheConstants.{HQ_BAD_READING, HQ_NO_INST, HQ_OK};

use x64_core::Core;
use x64_plain::status::{HQ_BAD_READING, HQ_NO_INST, HQ_OK};
use x64_plain::{HqInst, HqReading};

/// The instruction that is read as this, where the reading has an operand for each that its line takes and no other, and an
/// immediate in its range. It has no trap code and no late offset, and can be encoded.
///
/// `HQ_NO_INST` where there is none, as of a high byte, of a place relative to the end and of memory without a base;
/// `HQ_BAD_READING` where the integers are no reading. The length isn't looked at.
#[unsafe(no_mangle)]
pub extern "C" fn hq_inst_of_reading(reading: &HqReading, out: &mut HqInst) -> i32
    ensures bad { ((r : CoreReading) → plain_reading r.op.number (line_reading r) ≢ reading.now) → (result ≡ HQ_BAD_READING) × (out.new ≡ out.old) }
    ensures none { (r : CoreReading) → plain_reading r.op.number (line_reading r) ≡ reading.now → (operands_given r && is_taken r) ≡ false → (result ≡ HQ_NO_INST) × (out.new ≡ out.old) }
    ensures is { (r : CoreReading) → plain_reading r.op.number (line_reading r) ≡ reading.now → (operands_given r && is_taken r) ≡ true → (result ≡ HQ_OK) × IsInstOf r out.new }
{
    let Some(reading) = reading.reading() else {
        return HQ_BAD_READING;
    };
    match Core::of_reading(&reading) {
        None => HQ_NO_INST,
        Some(core) => {
            *out = HqInst::of(&core);
            HQ_OK
        }
    }
}
