//! The least layout.

ghost use Rattle.std.specs.Prelude.{◌≡◌, ◌+◌, length};
ghost use Rattle.x64_layout.specs.Growing.{IsBelow};
ghost use Rattle.x64_layout.specs.Layout.{ArePlaces, AreSpans, IsLeast};

use crate::ripple::ripple;
use crate::rounds::round;
use crate::span::Span;

/// Gives each span its least length.
fn begin(spans: &[Span], lens: &mut [u8])
    requires { length lens.old ≡ length spans.now }
    ensures { IsBelow spans.now lens.new }
{
    for (n, span) in spans.iter().enumerate() {
        lens[n] = span.least;
    }
}

/// How many rounds are made before growths are passed on. Most rows are done after three, of which the last changes nothing.
const PLAIN_ROUNDS: u8 = 3;

/// Finds the least layout, and answers how many spans were looked at, each as often as it was.
pub(crate) fn lay_out(spans: &[Span], lens: &mut [u8], places: &mut [u32], rooms: &mut [u8]) -> u64
    requires spans { AreSpans spans.now }
    requires lens { length lens.old ≡ length spans.now }
    requires places { length places.old ≡ length spans.now + 1 }
    requires rooms { length rooms.old ≡ length spans.now }
    ensures least { IsLeast spans.now lens.new }
    ensures places { ArePlaces lens.new places.new }
{
    begin(spans, lens);
    let of_round = 2 * spans.len() as u64;
    let mut looks = of_round;
    let mut plain = PLAIN_ROUNDS;
    while !round(spans, lens, places) {
        plain = plain.saturating_sub(1);
        if plain == 0 {
            looks = looks.saturating_add(ripple(spans, lens, places, rooms));
        }
        looks = looks.saturating_add(of_round);
    }
    looks
}

/// Lays spans out: gives each the length that it has in the least layout, which is as short as in any, and notes the positions
/// of all, and behind them that of the end.
///
/// What `lens`, `places` and `rooms` held before doesn't matter, nor what `rooms` holds afterwards. There is a length and a room
/// for each span, and a position more, which is that of the end; [`are_spans`](crate::are_spans) tells whether spans can be
/// laid out. Where one of these doesn't hold, a build that wasn't proved may give lengths that are no layout, or abort. It
/// takes time in proportion to their number, if each has a byte at least.
pub fn least_layout(spans: &[Span], lens: &mut [u8], places: &mut [u32], rooms: &mut [u8])
    requires spans { AreSpans spans.now }
    requires lens { length lens.old ≡ length spans.now }
    requires places { length places.old ≡ length spans.now + 1 }
    requires rooms { length rooms.old ≡ length spans.now }
    ensures least { IsLeast spans.now lens.new }
    ensures places { ArePlaces lens.new places.new }
{
    lay_out(spans, lens, places, rooms);
}
