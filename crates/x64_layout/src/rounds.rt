//! Rounds over all spans, each of which gives their longer form to those that don't reach.

ghost use Rattle.std.specs.Prelude.{◌≡◌, ◌<◌, ◌≤◌, ◌↔◌, ◌⊎◌, ◌+◌, ◌^◌, pos, ◌-ℤ◌, IsTrue, IfSome, FitsSigned, length, sum, All, slice_index};
ghost use Rattle.std.specs.Bool.{OnTrue, OnFalse};
ghost use Rattle.std.specs.Int.{w8};
ghost use Rattle.x64_layout.specs.Growing.{IsBelow};
ghost use Rattle.x64_layout.specs.Layout.{ArePlaces, AreSpans, IsLayout, Reaches};
ghost use Rattle.x64_layout.specs.declared.span.TheConstants.{MOST_SPANS};

use crate::span::Span;

/// Notes the position of each span, and behind them that of the end.
pub(crate) fn note_places(lens: &[u8], places: &mut [u32])
    requires few { length lens.now ≤ MOST_SPANS }
    requires most { All (λ len. len ≤ 13) lens.now }
    requires room { length lens.now < length places.old }
    ensures { ArePlaces lens.now places.new }
{
    let mut at = 0u32;
    for (n, len) in lens.iter().enumerate() {
        places[n] = at;
        at += u32::from(*len);
    }
    places[lens.len()] = at;
}

/// Whether a distance of eight bits leads from the end of a span to a position.
fn reaches(end: u32, place: u32) -> bool
    requires end_small { end < 2 ^ 31 }
    requires place_small { place < 2 ^ 31 }
    ensures { IsTrue result ↔ FitsSigned w8 (pos place -ℤ pos end) }
{
    place <= end + 127 && end <= place + 128
}

/// Whether the span of this number can stay as short as it is.
fn stands(span: Span, len: u8, n: usize, places: &[u32]) -> bool
    requires most { span.least + span.more ≤ 13 }
    requires spot { IfSome span.spot (λ spot. spot < length places.now) }
    requires within { n + 1 < length places.now }
    requires small { All (λ place. place < 2 ^ 31) places.now }
    ensures { IsTrue result ↔ ((span.least + span.more ≤ len) ⊎ Reaches (slice_index places.now) n span.spot) }
{
    if span.least + span.more <= len {
        return true;
    }
    span.spot
        .is_none_or(|spot| reaches(places[n + 1], places[spot as usize]))
}

/// Gives its longer form to each span that doesn't reach its spot, and says whether there was one.
fn lengthen(spans: &[Span], places: &[u32], lens: &mut [u8]) -> bool
    requires spans { AreSpans spans.now }
    requires below { IsBelow spans.now lens.old }
    requires places { ArePlaces lens.old places.now }
    requires room { length places.now ≡ length spans.now + 1 }
    ensures below { IsBelow spans.now lens.new }
    ensures grew { OnTrue result (sum lens.old < sum lens.new) }
    ensures same { OnFalse result (lens.new ≡ lens.old) }
    ensures settled { OnFalse result (IsLayout spans.now lens.new) }
{
    let mut grew = false;
    for (n, span) in spans.iter().enumerate() {
        if !stands(*span, lens[n], n, places) {
            lens[n] = span.least + span.more;
            grew = true;
        }
    }
    grew
}

/// A round over all: notes the positions, gives their longer form to those that don't reach, and says whether all did.
pub(crate) fn round(spans: &[Span], lens: &mut [u8], places: &mut [u32]) -> bool
    requires spans { AreSpans spans.now }
    requires below { IsBelow spans.now lens.old }
    requires room { length places.old ≡ length spans.now + 1 }
    ensures below { IsBelow spans.now lens.new }
    ensures grew { OnFalse result (sum lens.old < sum lens.new) }
    ensures settled { OnTrue result (IsLayout spans.now lens.new) }
    ensures places { OnTrue result (ArePlaces lens.new places.new) }
{
    note_places(lens, places);
    !lengthen(spans, places, lens)
}
