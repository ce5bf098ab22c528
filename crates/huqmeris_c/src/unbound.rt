//! Items that refer to what has no position.

ghost use Rattle.std.specs.Prelude.{◌≡◌, ◌↔◌, IfNone, IfSome, IsTrue};
ghost use Rattle.cax64_sink.specs.declared.DeferredTarget.{DeferredTarget};
ghost use Rattle.huqmeris_c.specs.Items.{RefersTo};
ghost use Rattle.huqmeris_c.specs.Putting.{LacksPlace, NoneOpens, OpenAt, Opens};
ghost use Rattle.x64_code_buffer.specs.Buffer.{places_of};

use crate::item::{HQ_ITEM_INST, HqItem};
use crate::jump::jump_of;
use cax64_sink::{DeferredTarget, Label};
use std::alloc::Global;
use x64_code_buffer::CodeBuffer;
use x64_core::CorePlace;

/// What an item refers to.
fn target_of(item: &HqItem) -> Option<DeferredTarget>
    ensures some { IfSome result (λ goes_to. RefersTo item.now goes_to) }
    ensures alone { IfSome result (λ goes_to. (other : DeferredTarget) → RefersTo item.now other → other ≡ goes_to) }
    ensures none { IfNone result ((other : DeferredTarget) → RefersTo item.now other → ⊥) }
{
    if item.kind == HQ_ITEM_INST {
        return match item.inst.core()?.place() {
            CorePlace::Relative(target) => Some(target),
            _ => None,
        };
    }
    match jump_of(item.kind) {
        Some(_) => Some(DeferredTarget::Label(Label(item.number))),
        None => None,
    }
}

/// A label or a constant isn't bound.
fn lacks_place(target: DeferredTarget, buffer: &CodeBuffer<Global>) -> bool
    ensures { IsTrue result ↔ LacksPlace (places_of buffer.now) target }
{
    match target {
        DeferredTarget::None => false,
        _ => buffer.place_of(target).is_none(),
    }
}

/// An item refers to a label or a constant that isn't bound.
fn is_open(item: &HqItem, buffer: &CodeBuffer<Global>) -> bool
    ensures { IsTrue result ↔ Opens (places_of buffer.now) item.now }
{
    match target_of(item) {
        Some(target) => lacks_place(target, buffer),
        None => false,
    }
}

/// The number of the first item that refers to what isn't bound.
pub(crate) fn first_open(items: &[HqItem], buffer: &CodeBuffer<Global>) -> Option<usize>
    ensures open { IfSome result (λ number. OpenAt (places_of buffer.now) items.now number) }
    ensures none { IfNone result (NoneOpens (places_of buffer.now) items.now) }
{
    for i in 0..items.len() {
        if is_open(&items[i], buffer) {
            return Some(i);
        }
    }
    None
}
