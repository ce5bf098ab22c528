//! The spans of a list: instructions and jumps, by what may be their lengths.

ghost use Rattle.std.specs.Prelude.{◌≡◌, ◌≤◌, ℕ, None, All, length, take};
ghost use Rattle.x64_code_buffer.specs.Buffer.{buffer_state, label_count, places_of};
ghost use Rattle.x64_layout.specs.Layout.{IsSpan};
ghost use Rattle.x64_assemble.specs.Assembled.{entries, span_of, spans_of};
ghost use Rattle.x64_assemble.specs.Listed.{listed};
ghost use Rattle.x64_assemble.specs.Putting.{AreBinders};
ghost use Rattle.x64_assemble.specs.Refused.{refusal_at};

use crate::binders::{Binder, spot_in};
use crate::entry;
use crate::item::Item;
use std::alloc::Allocator;
use x64_code_buffer::{CodeBuffer, Jump};
use x64_encode::Encode;
use x64_layout::Span;

/// What may be the lengths of a jump: two where it leads to a label of the list, at this spot. A call has one.
pub(crate) fn span_of(jump: Jump, spot: Option<u32>) -> Span
    ensures { result ≡ span_of jump spot }
{
    let (long, short) = match jump {
        Jump::Call => (5, 5),
        Jump::Always => (5, 2),
        Jump::If(_) => (6, 2),
    };
    if spot.is_some() && short == 2 {
        return Span {
            least: 2,
            more: long - 2,
            spot,
        };
    }
    Span {
        least: long,
        more: 0,
        spot: None,
    }
}

/// Notes the spans of a list, and says how many there are.
pub(crate) fn note_spans<I: Encode, B: Allocator>(
    items: &[Item<I>],
    buffer: &CodeBuffer<B>,
    binders: &[Binder],
    spans: &mut [Span],
) -> usize
    requires tested { (n : ℕ) → refusal_at (λ i. (listed (I.line_meant i) (buffer_state buffer.now).offsets).fault) (label_count buffer.now) (places_of buffer.now) items.now n ≡ None }
    requires binders { AreBinders items.now binders.now }
    requires room { length items.now ≤ length spans.old }
    ensures count { result ≡ entries items.now }
    ensures most { result ≤ length items.now }
    ensures spans { take result spans.new ≡ spans_of (λ i. (listed (I.line_meant i) (buffer_state buffer.now).offsets).len) items.now items.now }
    ensures each { All (IsSpan (entries items.now)) (take result spans.new) }
{
    let mut count: usize = 0;
    for item in items {
        let span = match item {
            Item::Inst(inst) => Span {
                least: entry::len(inst, buffer),
                more: 0,
                spot: None,
            },
            Item::Jump(jump, label) => span_of(*jump, spot_in(items, binders, *label)),
            Item::Bind(_) => continue,
        };
        spans[count] = span;
        count += 1;
    }
    count
}
