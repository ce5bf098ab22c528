//! The fields of uses, patched in place.

ghost use Rattle.std.specs.Prelude.{◌≡◌};
ghost use Rattle.cax64_sink.specs.Recorder.{recorder_state};
ghost use Rattle.x64_code_buffer.specs.Binding.{place_bound};
ghost use Rattle.x64_code_buffer.specs.Patching.{notice_patched, all_patched, with_bytes};
ghost use Rattle.x64_code_buffer.specs.Use.{uses_of};

use crate::bindings::Bindings;
use crate::field::{patched_field, stored_at};
use cax64_sink::{Notice, Recorder};
use std::alloc::Allocator;

/// Patches the field of a use, if its target is bound and it can hold the distance.
fn patch_use<A: Allocator>(recorder: &mut Recorder<A>, bindings: &Bindings<A>, notice: Notice)
    ensures { recorder_state recorder.new ≡ with_bytes (notice_patched (place_bound bindings.now) (recorder_state recorder.old).bytes notice) (recorder_state recorder.old) }
{
    let Notice::Target(at, target) = notice else {
        return;
    };
    let Some(place) = bindings.place_of(target) else {
        return;
    };
    let Some(stored) = stored_at(recorder.bytes(), at) else {
        return;
    };
    if let Some(field) = patched_field(at as u64, place as u64, stored) {
        recorder.patch4(at, field.cast_unsigned());
    }
}

/// Patches the field of each use, in the order told. Takes no memory.
pub(crate) fn patch_uses<A: Allocator>(recorder: &mut Recorder<A>, bindings: &Bindings<A>)
    ensures { recorder_state recorder.new ≡ with_bytes (all_patched (place_bound bindings.now) (recorder_state recorder.old).bytes (uses_of (recorder_state recorder.old).notices)) (recorder_state recorder.old) }
{
    for i in 0..recorder.notices().len() {
        let notice = recorder.notices()[i];
        patch_use(recorder, bindings, notice);
    }
}
