//! What keeps a use of a label or a constant from being patched.

ghost use Rattle.std.specs.Prelude.{◌≡◌};
ghost use Rattle.x64_code_buffer.specs.Binding.{place_bound};
ghost use Rattle.x64_code_buffer.specs.Use.{refusal_of, first_refusal, uses_of};

use crate::bindings::Bindings;
use crate::errors::FinishError;
use crate::field::{patched_field, stored_at};
use cax64_sink::{DeferredTarget, Notice};
use std::alloc::Allocator;

/// What keeps a use from being patched.
fn refusal_of<A: Allocator>(
    bindings: &Bindings<A>,
    bytes: &[u8],
    at: usize,
    target: DeferredTarget,
) -> Option<FinishError>
    ensures { result ≡ refusal_of (place_bound bindings.now) bytes.now (at, target) }
{
    if let DeferredTarget::None = target {
        return None;
    }
    let Some(place) = bindings.place_of(target) else {
        return Some(FinishError::Unbound(target));
    };
    let field = match stored_at(bytes, at) {
        Some(stored) => patched_field(at as u64, place as u64, stored),
        None => None,
    };
    match field {
        Some(_) => None,
        None => Some(FinishError::TooFar(at)),
    }
}

/// What keeps the first use, in the order told, that can't be patched from being so.
pub(crate) fn first_refusal<A: Allocator>(
    bindings: &Bindings<A>,
    bytes: &[u8],
    notices: &[Notice],
) -> Option<FinishError>
    ensures { result ≡ first_refusal (place_bound bindings.now) bytes.now (uses_of notices.now) }
{
    for notice in notices {
        if let Notice::Target(at, target) = *notice {
            let refusal = refusal_of(bindings, bytes, at, target);
            if refusal.is_some() {
                return refusal;
            }
        }
    }
    None
}
