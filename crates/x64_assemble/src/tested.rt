//! The items of a list, tested before any is put.

ghost use Rattle.std.specs.Prelude.{◌≡◌, ◌<◌, ◌≤◌, ℕ, None, OnOk, IfErr, length};
ghost use Rattle.x64_code_buffer.specs.Buffer.{buffer_state, label_count, places_of};
ghost use Rattle.x64_assemble.specs.Listed.{listed};
ghost use Rattle.x64_assemble.specs.Putting.{AreBinders};
ghost use Rattle.x64_assemble.specs.Refused.{IsFirstRefusal, bind_refusal, refusal_at};
ghost use Rattle.x64_layout.specs.declared.span.TheConstants.{MOST_SPANS};

use crate::binders::{Binder, spot_in};
use crate::entry;
use crate::errors::LayoutError;
use crate::item::Item;
use cax64_sink::{DeferredTarget, Label};
use std::alloc::Allocator;
use x64_code_buffer::{BindError, CodeBuffer};
use x64_encode::Encode;

/// Why a label can't be bound behind these items, if it can't.
fn bind_refusal<I, B: Allocator>(
    before: &[Item<I>],
    binders: &[Binder],
    label: Label,
    buffer: &CodeBuffer<B>,
) -> Option<BindError>
    requires { AreBinders before.now binders.now }
    ensures { result ≡ bind_refusal (label_count buffer.now) (places_of buffer.now) before.now label.0 }
{
    if label.0 >= buffer.labels() {
        return Some(BindError::Unknown);
    }
    if buffer.place_of(DeferredTarget::Label(label)).is_some() {
        return Some(BindError::Twice);
    }
    if spot_in(before, binders, label).is_some() {
        return Some(BindError::Twice);
    }
    None
}

/// Finds the first item that can't be put, if there is one, and notes where labels are bound.
pub(crate) fn test_items<I: Encode, B: Allocator>(
    items: &[Item<I>],
    buffer: &CodeBuffer<B>,
    binders: &mut [Binder],
) -> Result<(), LayoutError>
    requires few { length items.now ≤ MOST_SPANS }
    requires room { label_count buffer.now ≤ length binders.old }
    ensures binders { OnOk result (AreBinders items.now binders.new) }
    ensures tested { OnOk result ((n : ℕ) → refusal_at (λ i. (listed (I.line_meant i) (buffer_state buffer.now).offsets).fault) (label_count buffer.now) (places_of buffer.now) items.now n ≡ None) }
    ensures first { IfErr result (λ e. (n : ℕ) × IsFirstRefusal (λ i. (listed (I.line_meant i) (buffer_state buffer.now).offsets).fault) (label_count buffer.now) (places_of buffer.now) items.now n e) }
{
    let mut spot = 0;
    for (n, item) in items.iter().enumerate() {
        match item {
            Item::Inst(inst) => {
                if let Some(fault) = entry::fault(inst, buffer) {
                    return Err(LayoutError::Fault(n, fault));
                }
                spot += 1;
            }
            Item::Jump(_, _) => spot += 1,
            Item::Bind(label) => {
                if let Some(error) = bind_refusal(&items[..n], &*binders, *label, buffer) {
                    return Err(LayoutError::Bind(n, error));
                }
                binders[label.0 as usize] = Binder {
                    item: n as u32,
                    spot,
                };
            }
        }
    }
    Ok(())
}
