//! Lists that are put in their least layout, one after the other.

ghost use Rattle.std.specs.Prelude.{◌≡◌, ◌↔◌, ◌<◌, ◌≤◌, ◌+◌, ℕ, List, None, Err, OnOk, OnErr, IfErr, IfSome, length, vec_len};
ghost use Rattle.cax64_sink.specs.Keeps.{Keeps};
ghost use Rattle.x64_code_buffer.specs.Binding.{SamePlaces};
ghost use Rattle.x64_code_buffer.specs.Buffer.{AsBefore, StaysFilled, buffer_state, label_count, places_of};
ghost use Rattle.x64_code_buffer.specs.Laid.{Laid, Piece};
ghost use Rattle.x64_layout.specs.Layout.{AreSpans};
ghost use Rattle.x64_assemble.specs.Assembled.{Assembled, PutsList, spans_of};
ghost use Rattle.x64_assemble.specs.Listed.{listed};
ghost use Rattle.x64_assemble.specs.Putting.{AreBinders, AreFree, CanPut};
ghost use Rattle.x64_assemble.specs.Refused.{IsFirstRefusal, number_in, refusal_at};
ghost use Rattle.x64_assemble.specs.declared.errors.LayoutError.{LayoutError};
ghost use Rattle.x64_layout.specs.declared.span.TheConstants.{MOST_SPANS};

use crate::binders::Binder;
use crate::errors::LayoutError;
use crate::item::Item;
use crate::put::put_items;
use crate::spans::note_spans;
use crate::tested::test_items;
use std::alloc::{AllocError, Allocator};
use x64_code_buffer::CodeBuffer;
use x64_encode::Encode;
use x64_layout::{MOST_SPANS, Span, least_layout};

/// Lays lists out, and keeps its memory from one to the next.
#[derive(Drop)]
pub struct Layout<A: Allocator> {
    spans: Vec<Span, A>,
    lens: Vec<u8, A>,
    places: Vec<u32, A>,
    rooms: Vec<u8, A>,
    binders: Vec<Binder, A>,
}

/// Makes a list so long, if it is shorter.
fn grow<T: Clone + Drop, A: Allocator>(
    list: &mut Vec<T, A>,
    count: usize,
    fill: T,
) -> Result<(), AllocError>
    ensures { OnOk result (count ≤ vec_len list.new) }
{
    if list.len() < count {
        return list.resize(count, fill);
    }
    Ok(())
}

/// Lays out the spans of a list that was tested, makes room for all of it, and puts it.
fn put_least<I: Encode, B: Allocator>(
    items: &[Item<I>],
    binders: &[Binder],
    spans: &[Span],
    lens: &mut [u8],
    places: &mut [u32],
    rooms: &mut [u8],
    buffer: &mut CodeBuffer<B>,
) -> Result<(), LayoutError>
    requires few { length items.now ≤ MOST_SPANS }
    requires can_put { CanPut (λ i. listed (I.line_meant i) (buffer_state buffer.old).offsets) items.now }
    requires free { AreFree (label_count buffer.old) (places_of buffer.old) items.now }
    requires binders { AreBinders items.now binders.now }
    requires spans { spans.now ≡ spans_of (λ i. (listed (I.line_meant i) (buffer_state buffer.old).offsets).len) items.now items.now }
    requires are_spans { AreSpans spans.now }
    requires lens { length lens.old ≡ length spans.now }
    requires places { length places.old ≡ length spans.now + 1 }
    requires rooms { length rooms.old ≡ length spans.now }
    ensures assembled { (pieces : List Piece) → Laid pieces (length (buffer_state buffer.old).bytes) (buffer_state buffer.old) (places_of buffer.old) → OnOk result (Assembled (λ i. listed (I.line_meant i) (buffer_state buffer.old).offsets) items.now pieces (buffer_state buffer.old) (buffer_state buffer.new) (places_of buffer.old) (places_of buffer.new)) }
    ensures puts { OnOk result (PutsList (λ i. listed (I.line_meant i) (buffer_state buffer.old).offsets) items.now (buffer_state buffer.old) (buffer_state buffer.new) (places_of buffer.old) (places_of buffer.new)) }
    ensures error { IfErr result (λ e. e ≡ LayoutError.NoMemory) }
    ensures unchanged { OnErr result (AsBefore (buffer_state buffer.old) (buffer_state buffer.new)) }
    ensures unbound { OnErr result (SamePlaces (places_of buffer.old) (places_of buffer.new)) }
    ensures refused { OnErr result (StaysFilled buffer.old buffer.new) }
    ensures labels { label_count buffer.new ≡ label_count buffer.old }
    ensures keeps { Keeps (buffer_state buffer.old) (buffer_state buffer.new) }
{
    least_layout(spans, lens, places, rooms);
    let bytes = places[spans.len()] as usize;
    // A push asks for room for 13 bytes and a notice.
    if buffer.reserve(bytes + 13, items.len() + 1).is_err() {
        return Err(LayoutError::NoMemory);
    }
    put_items(items, binders, &*lens, &*places, buffer);
    Ok(())
}

impl<A: Allocator + Copy> Layout<A> {
    /// Takes no memory.
    pub fn new(alloc: A) -> Self {
        Layout {
            spans: Vec::new(alloc),
            lens: Vec::new(alloc),
            places: Vec::new(alloc),
            rooms: Vec::new(alloc),
            binders: Vec::new(alloc),
        }
    }
}

impl<A: Allocator> Layout<A> {
    /// Makes room for so many spans, and for notes of so many labels.
    fn make_room(&mut self, count: usize, labels: usize) -> Result<(), AllocError>
        requires { count ≤ MOST_SPANS }
        ensures spans { OnOk result (count ≤ vec_len self.new.spans) }
        ensures lens { OnOk result (count ≤ vec_len self.new.lens) }
        ensures places { OnOk result (count + 1 ≤ vec_len self.new.places) }
        ensures rooms { OnOk result (count ≤ vec_len self.new.rooms) }
        ensures binders { OnOk result (labels ≤ vec_len self.new.binders) }
    {
        let span = Span {
            least: 0,
            more: 0,
            spot: None,
        };
        grow(&mut self.spans, count, span)?;
        grow(&mut self.lens, count, 0)?;
        grow(&mut self.places, count + 1, 0)?;
        grow(&mut self.rooms, count, 0)?;
        grow(&mut self.binders, labels, Binder { item: 0, spot: 0 })
    }

    /// Puts a list behind what the buffer has, in its least layout, or nothing of it: each jump to a label of the list has
    /// the form with one byte of distance where that can be, and no choice of forms has fewer bytes, or puts a label or an
    /// instruction earlier. (Intel SDM, volume 2, `CALL`, `JMP` and `Jcc`.)
    ///
    /// A jump to a label that the list doesn't bind has but one form here, that with four bytes of distance: it is put as
    /// [`push_long_jump`](CodeBuffer::push_long_jump) puts it, and [`finish`](CodeBuffer::finish) patches it. That is so of a
    /// label too that the buffer has bound already, where [`push_jump`](CodeBuffer::push_jump) may do with two bytes.
    ///
    /// The buffer may hold anything. Where it is laid out up to its end, it is so with the list too.
    ///
    /// It refuses more than 165,191,049 items; then asks for its own memory; then the first item that can't be put decides;
    /// then it asks for the memory of the buffer. A refusal leaves the buffer as it was but the rooms. It takes time in
    /// proportion to the items, and to the labels that the buffer gave since it was called before.
    pub fn assemble<I: Encode, B: Allocator>(
        &mut self,
        items: &[Item<I>],
        buffer: &mut CodeBuffer<B>,
    ) -> Result<(), LayoutError>
        ensures assembled { (pieces : List Piece) → Laid pieces (length (buffer_state buffer.old).bytes) (buffer_state buffer.old) (places_of buffer.old) → OnOk result (Assembled (λ i. listed (I.line_meant i) (buffer_state buffer.old).offsets) items.now pieces (buffer_state buffer.old) (buffer_state buffer.new) (places_of buffer.old) (places_of buffer.new)) }
        ensures puts { OnOk result (PutsList (λ i. listed (I.line_meant i) (buffer_state buffer.old).offsets) items.now (buffer_state buffer.old) (buffer_state buffer.new) (places_of buffer.old) (places_of buffer.new)) }
        ensures many { (result ≡ Err LayoutError.TooMany) ↔ (MOST_SPANS < length items.now) }
        ensures first { IfErr result (λ e. IfSome (number_in e) (λ n. IsFirstRefusal (λ i. (listed (I.line_meant i) (buffer_state buffer.old).offsets).fault) (label_count buffer.old) (places_of buffer.old) items.now n e)) }
        ensures tested { OnOk result ((n : ℕ) → refusal_at (λ i. (listed (I.line_meant i) (buffer_state buffer.old).offsets).fault) (label_count buffer.old) (places_of buffer.old) items.now n ≡ None) }
        ensures unchanged { OnErr result (AsBefore (buffer_state buffer.old) (buffer_state buffer.new)) }
        ensures unbound { OnErr result (SamePlaces (places_of buffer.old) (places_of buffer.new)) }
        ensures refused { OnErr result (StaysFilled buffer.old buffer.new) }
        ensures labels { label_count buffer.new ≡ label_count buffer.old }
        ensures keeps { Keeps (buffer_state buffer.old) (buffer_state buffer.new) }
    {
        if items.len() > MOST_SPANS {
            return Err(LayoutError::TooMany);
        }
        let labels = buffer.labels() as usize;
        if self.make_room(items.len(), labels).is_err() {
            return Err(LayoutError::NoMemory);
        }
        if let Err(error) = test_items(items, &*buffer, &mut self.binders) {
            return Err(error);
        }
        let count = note_spans(items, &*buffer, &self.binders, &mut self.spans);
        put_least(
            items,
            &self.binders,
            &self.spans[..count],
            &mut self.lens[..count],
            &mut self.places[..count + 1],
            &mut self.rooms[..count],
            buffer,
        )
    }
}
