//! Growths that pass on at once to what they push out of reach, and not a round later each.
//!
//! A row in which each jump pushes out the next would take a round for each. So the room of each jump is noted once, a growth
//! is taken from that of the jumps over it, and what has none left grows next.

ghost use Rattle.std.specs.Prelude.{◌≡◌, ◌<◌, ◌≤◌, ◌↔◌, ◌+◌, ◌^◌, ℕ, IsTrue, IfSome, Some, All, length, sum, slice_get, slice_index};
ghost use Rattle.x64_layout.specs.Growing.{IsBelow, HasRooms, GoesOver, room_of, room_at};
ghost use Rattle.x64_layout.specs.Layout.{AreSpans, place_in};
ghost use Rattle.x64_layout.specs.declared.span.Span.{Span};

use crate::rounds::note_places;
use crate::span::Span;
use std::cmp::min;

/// A jump of the shorter form that goes over a span is nearer to it than so many spans, if each has a byte at least. What is
/// missed where some have none, the next round finds.
const NEAR: usize = 128;

/// How many bytes more make a jump too long for a distance of eight bits, whose end and spot are at these positions. It is 0
/// where it is too long already, and at most 129.
fn room(end: u32, place: u32) -> u8
    requires end_small { end < 2 ^ 31 }
    requires place_small { place < 2 ^ 31 }
    ensures { result ≡ room_of end place }
{
    let room = if place <= end {
        (place + 129).saturating_sub(end)
    } else {
        (end + 128).saturating_sub(place)
    };
    room as u8
}

/// Notes the room of each span. What doesn't jump has more than enough.
fn note_rooms(spans: &[Span], places: &[u32], rooms: &mut [u8])
    requires spans { AreSpans spans.now }
    requires places { length places.now ≡ length spans.now + 1 }
    requires small { All (λ place. place < 2 ^ 31) places.now }
    requires as_many { length rooms.old ≡ length spans.now }
    ensures { HasRooms (slice_index places.now) spans.now rooms.new }
{
    for (n, span) in spans.iter().enumerate() {
        rooms[n] = match span.spot {
            Some(spot) => room(places[n + 1], places[spot as usize]),
            None => u8::MAX,
        };
    }
}

/// Whether the span of the number `by` jumps over that of the number `n`, or back to it or over itself.
fn goes_over(by: usize, span: Span, n: usize) -> bool
    ensures { IsTrue result ↔ GoesOver by span.spot n }
{
    span.spot.is_some_and(|spot| if by < n {
        n < spot as usize
    } else {
        spot as usize <= n
    })
}

/// Gives a span its longer form, and takes the growth from the rooms of the jumps over it. Answers the first of these that
/// doesn't reach any more, or else the next span.
fn grow(spans: &[Span], lens: &mut [u8], rooms: &mut [u8], n: usize) -> usize
    requires spans { AreSpans spans.now }
    requires below { IsBelow spans.now lens.old }
    requires rooms { HasRooms (place_in lens.old) spans.now rooms.old }
    requires as_many { length rooms.old ≡ length spans.now }
    requires within { n < length spans.now }
    requires no_room { slice_index rooms.old n ≡ 0 }
    requires short { (s : Span) → slice_get spans.now n ≡ Some s → slice_index lens.old n < s.least + s.more }
    ensures below { IsBelow spans.now lens.new }
    ensures rooms { HasRooms (place_in lens.new) spans.now rooms.new }
    ensures grew { sum lens.old < sum lens.new }
    ensures next { result ≤ n + 1 }
{
    let grown = spans[n];
    lens[n] = grown.least + grown.more;
    let mut next = n + 1;
    for by in n.saturating_sub(NEAR)..min(n + NEAR, spans.len()) {
        let span = spans[by];
        if lens[by] < span.least + span.more && goes_over(by, span, n) {
            rooms[by] = rooms[by].saturating_sub(grown.more);
            if rooms[by] == 0 {
                next = min(next, by);
            }
        }
    }
    next
}

/// Gives their longer form to the spans that have no room, and to those that have none therefore, and so on. Answers how
/// many spans it looked at.
fn spread(spans: &[Span], lens: &mut [u8], rooms: &mut [u8]) -> u64
    requires spans { AreSpans spans.now }
    requires below { IsBelow spans.now lens.old }
    requires rooms { HasRooms (place_in lens.old) spans.now rooms.old }
    requires as_many { length rooms.old ≡ length spans.now }
    ensures below { IsBelow spans.now lens.new }
    ensures grew { sum lens.old ≤ sum lens.new }
{
    let mut looks = 0u64;
    let mut n = 0;
    while n < spans.len() {
        let span = spans[n];
        if rooms[n] == 0 && lens[n] < span.least + span.more {
            n = grow(spans, lens, rooms, n);
            looks = looks.saturating_add(1 + 2 * NEAR as u64);
        } else {
            n += 1;
            looks = looks.saturating_add(1);
        }
    }
    looks
}

/// Notes positions and rooms anew, and passes growths on. Answers how many spans it looked at.
pub(crate) fn ripple(spans: &[Span], lens: &mut [u8], places: &mut [u32], rooms: &mut [u8]) -> u64
    requires spans { AreSpans spans.now }
    requires below { IsBelow spans.now lens.old }
    requires places { length places.old ≡ length spans.now + 1 }
    requires rooms { length rooms.old ≡ length spans.now }
    ensures below { IsBelow spans.now lens.new }
    ensures grew { sum lens.old ≤ sum lens.new }
{
    note_places(lens, places);
    note_rooms(spans, places, rooms);
    let noted = 2 * spans.len() as u64;
    spread(spans, lens, rooms).saturating_add(noted)
}
