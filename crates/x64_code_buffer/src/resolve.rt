//! All uses resolved: looked at first, and then patched.

ghost use Rattle.std.specs.Prelude.{◌≡◌, ◌↔◌, All, IfErr, IsOk, List, None, OnErr, OnOk, Some, length, slice_index, ℕ};
ghost use Rattle.cax64_machine_code.specs.declared.reading.Reading.{Reading};
ghost use Rattle.cax64_sink.specs.Recorder.{recorder_state};
ghost use Rattle.x64_code_buffer.specs.Binding.{place_bound};
ghost use Rattle.x64_code_buffer.specs.Filled.{Filled, Finished};
ghost use Rattle.x64_code_buffer.specs.Laid.{Laid, LaidOut, Piece};
ghost use Rattle.x64_code_buffer.specs.Patching.{with_bytes};
ghost use Rattle.x64_code_buffer.specs.Use.{EachApart, IsOutside, IsPatched, first_refusal, links, uses_of};

use crate::bindings::Bindings;
use crate::errors::FinishError;
use crate::patch::patch_uses;
use crate::refusal::first_refusal;
use cax64_sink::Recorder;
use std::alloc::Allocator;

/// Patches the field of each use, in place, where each can be patched. Takes no memory.
pub(crate) fn resolve_uses<A: Allocator>(
    recorder: &mut Recorder<A>,
    bindings: &Bindings<A>,
) -> Result<(), FinishError>
    ensures ok { IsOk result ↔ (first_refusal (place_bound bindings.now) (recorder_state recorder.old).bytes (uses_of (recorder_state recorder.old).notices) ≡ None) }
    ensures refused { IfErr result (λ e. first_refusal (place_bound bindings.now) (recorder_state recorder.old).bytes (uses_of (recorder_state recorder.old).notices) ≡ Some e) }
    ensures unchanged { OnErr result (recorder.new ≡ recorder.old) }
    ensures bytes_alone { recorder_state recorder.new ≡ with_bytes (recorder_state recorder.new).bytes (recorder_state recorder.old) }
    ensures length { length (recorder_state recorder.new).bytes ≡ length (recorder_state recorder.old).bytes }
    ensures fields { EachApart (links (uses_of (recorder_state recorder.old).notices)) → OnOk result (All (IsPatched (place_bound bindings.now) (recorder_state recorder.old).bytes (recorder_state recorder.new).bytes) (links (uses_of (recorder_state recorder.old).notices))) }
    ensures others { (i : ℕ) → All (IsOutside i) (links (uses_of (recorder_state recorder.old).notices)) → OnOk result (slice_index (recorder_state recorder.new).bytes i ≡ slice_index (recorder_state recorder.old).bytes i) }
    ensures finished { (readings : List Reading) (n : ℕ) → Filled readings n (recorder_state recorder.old) (place_bound bindings.now) → OnOk result (Finished readings n (recorder_state recorder.old) (place_bound bindings.now) (recorder_state recorder.new).bytes) }
    ensures laid { (pieces : List Piece) (n : ℕ) → Laid pieces n (recorder_state recorder.old) (place_bound bindings.now) → OnOk result (LaidOut pieces n (recorder_state recorder.old) (place_bound bindings.now) (recorder_state recorder.new).bytes) }
{
    let refused = first_refusal(bindings, recorder.bytes(), recorder.notices());
    if let Some(error) = refused {
        return Err(error);
    }
    patch_uses(recorder, bindings);
    Ok(())
}
