//! A list that is put, once its layout is known.

ghost use Rattle.std.specs.Prelude.{◌≡◌, ◌<◌, ◌≤◌, ◌+◌, ◌^◌, IfSome, length, sum, slice_index};
ghost use Rattle.cax64_sink.specs.Room.{HasRoom};
ghost use Rattle.x64_code_buffer.specs.Buffer.{buffer_state, label_count, places_of};
ghost use Rattle.x64_layout.specs.Layout.{AreSpans, ArePlaces, IsLayout, Stands};
ghost use Rattle.x64_assemble.specs.Assembled.{JumpReads, jump_told, span_of, spans_of};
ghost use Rattle.x64_assemble.specs.Listed.{GotEntry, listed};
ghost use Rattle.x64_assemble.specs.Putting.{AreBinders, AreFree, CanPut, Put};

use crate::binders::{Binder, spot_in};
use crate::entry;
use crate::item::Item;
use cax64_sink::{DeferredTarget, Label};
use std::alloc::Allocator;
use x64_code_buffer::{CodeBuffer, Jump};
use x64_encode::Encode;

/// Puts a jump that is the n-th span: by its distance to its spot, or open where the list doesn't bind its label.
fn put_jump<B: Allocator>(
    jump: Jump,
    label: Label,
    spot: Option<u32>,
    n: usize,
    lens: &[u8],
    places: &[u32],
    buffer: &mut CodeBuffer<B>,
)
    requires stands { Stands lens.now n (span_of jump spot) (slice_index lens.now n) }
    requires small { sum lens.now < 2 ^ 31 }
    requires places { ArePlaces lens.now places.now }
    requires as_many { length places.now ≡ length lens.now + 1 }
    requires within { n < length lens.now }
    requires spot { IfSome spot (λ spot. spot ≤ length lens.now) }
    requires byte_room { HasRoom (buffer_state buffer.old).byte_room 13 }
    requires notice_room { HasRoom (buffer_state buffer.old).notice_room 1 }
    ensures got { GotEntry (JumpReads lens.now n jump spot) (jump_told spot label) (slice_index lens.now n) (buffer_state buffer.old) (buffer_state buffer.new) (places_of buffer.old) (places_of buffer.new) }
    ensures labels { label_count buffer.new ≡ label_count buffer.old }
{
    let Some(spot) = spot else {
        buffer
            .push_long_jump(jump, DeferredTarget::Label(label))
            .unwrap();
        return;
    };
    let distance = i64::from(places[spot as usize]) - i64::from(places[n + 1]);
    if lens[n] == 2 {
        buffer.push_near(jump, distance as i8).unwrap();
    } else {
        buffer.push_far(jump, distance as i32).unwrap();
    }
}

/// Puts the items of a list, which were tested and laid out, where there is room for all.
pub(crate) fn put_items<I: Encode, B: Allocator>(
    items: &[Item<I>],
    binders: &[Binder],
    lens: &[u8],
    places: &[u32],
    buffer: &mut CodeBuffer<B>,
)
    requires can_put { CanPut (λ i. listed (I.line_meant i) (buffer_state buffer.old).offsets) items.now }
    requires free { AreFree (label_count buffer.old) (places_of buffer.old) items.now }
    requires binders { AreBinders items.now binders.now }
    requires spans { AreSpans (spans_of (λ i. (listed (I.line_meant i) (buffer_state buffer.old).offsets).len) items.now items.now) }
    requires layout { IsLayout (spans_of (λ i. (listed (I.line_meant i) (buffer_state buffer.old).offsets).len) items.now items.now) lens.now }
    requires places { ArePlaces lens.now places.now }
    requires as_many { length places.now ≡ length lens.now + 1 }
    requires byte_room { HasRoom (buffer_state buffer.old).byte_room (13 + sum lens.now) }
    requires notice_room { HasRoom (buffer_state buffer.old).notice_room (1 + length items.now) }
    ensures put { Put (λ i. listed (I.line_meant i) (buffer_state buffer.old).offsets) lens.now items.now items.now (buffer_state buffer.old) (buffer_state buffer.new) (places_of buffer.old) (places_of buffer.new) }
    ensures labels { label_count buffer.new ≡ label_count buffer.old }
{
    let mut n = 0;
    for item in items {
        match item {
            Item::Inst(inst) => {
                entry::put(inst, buffer);
                n += 1;
            }
            Item::Jump(jump, label) => {
                let spot = spot_in(items, binders, *label);
                put_jump(*jump, *label, spot, n, lens, places, buffer);
                n += 1;
            }
            Item::Bind(label) => buffer.bind(*label).unwrap(),
        }
    }
}
