//! What the words ask for.

ghost use Rattle.std.specs.Prelude.{◌↔◌, map, IsTrue, IfSome, OnSome, IfNone};
ghost use Rattle.x64rows_command.specs.Command.{AsksForBuffer, AsksForRows, AsksForTail, IsAskedTail};
ghost use Rattle.cax64_sink.specs.FixedSink.{fixed_sink_state};

use crate::tail::tail;
use cax64_sink::FixedSink;

/// Whether the words are those of `rows`.
pub fn asks_for_rows(words: &[&str]) -> bool
    ensures { IsTrue result ↔ AsksForRows (map (λ word. word.now) words.now) }
{
    matches!(words, [] | ["rows"])
}

/// Whether the words are those of `buffer`.
pub fn asks_for_buffer(words: &[&str]) -> bool
    ensures { IsTrue result ↔ AsksForBuffer (map (λ word. word.now) words.now) }
{
    matches!(words, ["buffer"])
}

/// The bytes that the words of `tail` ask for.
pub fn asked_tail(words: &[&str]) -> Option<FixedSink<6>>
    ensures tail { IfSome result (λ sink. IsAskedTail (map (λ word. word.now) words.now) (fixed_sink_state sink).bytes) }
    ensures asked { OnSome result (AsksForTail (map (λ word. word.now) words.now)) }
    ensures others { IfNone result (¬ AsksForTail (map (λ word. word.now) words.now)) }
{
    match words {
        ["tail", reg, base, index, scale, displacement, factor] => {
            tail(reg, base, index, scale, displacement, factor)
        }
        _ => None,
    }
}
