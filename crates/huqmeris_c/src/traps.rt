//! What assembled code tells of traps.

ghost use Rattle.std.specs.Prelude.{◌≡◌, ◌++◌, ◌∷◌, ◌⊎◌, [], IfErr, OnOk};
ghost use Rattle.huqmeris_c.specs.Putting.{traps_in};
ghost use Rattle.x64_plain.specs.declared.status.TheConstants.{HQ_OUT_OF_RANGE};
ghost use Rattle.huqmeris_c.specs.declared.status.TheConstants.{HQ_NO_MEMORY};

use crate::status::HQ_NO_MEMORY;
use cax64_sink::Notice;
use std::alloc::Global;
use x64_plain::HqUse;
use x64_plain::status::HQ_OUT_OF_RANGE;

/// Lists a notice behind others where it tells a trap.
fn list_trap(notice: &Notice, list: &mut Vec<HqUse, Global>) -> Result<(), i32>
    ensures listed { OnOk result (list.new.items ≡ list.old.items ++ traps_in (notice.now ∷ [])) }
    ensures refused { IfErr result (λ status. (status ≡ HQ_NO_MEMORY) ⊎ (status ≡ HQ_OUT_OF_RANGE)) }
{
    let Notice::Trap(at, _) = *notice else {
        return Ok(());
    };
    if at > u32::MAX as usize {
        return Err(HQ_OUT_OF_RANGE);
    }
    if list.push(HqUse::of(Some(*notice))).is_err() {
        return Err(HQ_NO_MEMORY);
    }
    Ok(())
}

/// Lists the traps that notices tell.
pub(crate) fn list_traps(notices: &[Notice], list: &mut Vec<HqUse, Global>) -> Result<(), i32>
    requires { list.old.items ≡ [] }
    ensures listed { OnOk result (list.new.items ≡ traps_in notices.now) }
    ensures refused { IfErr result (λ status. (status ≡ HQ_NO_MEMORY) ⊎ (status ≡ HQ_OUT_OF_RANGE)) }
{
    for i in 0..notices.len() {
        if let Err(status) = list_trap(&notices[i], list) {
            return Err(status);
        }
    }
    Ok(())
}
