//! Other registers.

ghost use Rattle.std.specs.Prelude.{◌≡◌, ◌≢◌, slice_index};
ghost use Rattle.x64_plain.specs.Plain.{plain};
ghost use Rattle.x64_core.specs.Rename.{renamed};
ghost use Rattle.x64_core.specs.View.{core_view};
ghost use Rattle.x64_core.specs.declared.instruction.Core.{Core};
ghost use Rattle.x64_plain.specs.declared.status.TheConstants.{HQ_BAD_INST, HQ_OK};

use x64_plain::HqInst;
use x64_plain::status::{HQ_BAD_INST, HQ_OK};

/// Puts others in the place of all registers of an instruction, each by its number in this table. All else stays.
#[unsafe(no_mangle)]
pub extern "C" fn hq_rename(inst: &mut HqInst, homes: &[u8; 256]) -> i32
    ensures bad { ((c : Core) → plain (core_view c) ≢ inst.old) → (result ≡ HQ_BAD_INST) × (inst.new ≡ inst.old) }
    ensures renames { (c : Core) → plain (core_view c) ≡ inst.old → (result ≡ HQ_OK) × (inst.new ≡ plain (renamed (slice_index homes.now) (core_view c))) }
{
    let Some(mut core) = inst.core() else {
        return HQ_BAD_INST;
    };
    core.rename(homes);
    *inst = HqInst::of(&core);
    HQ_OK
}
