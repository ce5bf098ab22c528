//! Laws of layouts.

ghost use Rattle.std.specs.Prelude.{◌≡◌, ◌≤◌, ◌<◌, ◌↔◌, ◌+◌, ◌^◌, ℕ, pos, ◌-ℤ◌, FitsSigned, true, List, Some, sum, slice_get, slice_index};
ghost use Rattle.std.specs.Int.{w32};
ghost use Rattle.x64_layout.specs.Layout.{AreSpans, IsLayout, IsLeast, place_in};
ghost use Rattle.x64_layout.specs.declared.span.Span.{Span};

use crate::span::Span;

/// Of all layouts of some spans there is one at most that is the least, no other has fewer bytes, none has a span or the
/// end at an earlier position, and a span that is long in it is long in each. It does nothing: its clauses are the laws.
pub fn the_least_has_the_fewest_bytes()
    ensures one { (spans : List Span) (lens other : List ℕ) → IsLeast spans lens → IsLeast spans other → lens ≡ other }
    ensures fewest { (spans : List Span) (lens other : List ℕ) → IsLeast spans lens → IsLayout spans other → sum lens ≤ sum other }
    ensures earliest { (spans : List Span) (lens other : List ℕ) (n : ℕ) → IsLeast spans lens → IsLayout spans other → place_in lens n ≤ place_in other n }
    ensures long { (spans : List Span) (lens other : List ℕ) (n : ℕ) (s : Span) → IsLeast spans lens → IsLayout spans other → slice_get spans n ≡ Some s → slice_index lens n ≡ s.least + s.more → slice_index other n ≡ s.least + s.more }
{}

/// Whatever the layout, all spans together have less than 2 to the 31 bytes, so that a distance of 32 bits leads from each
/// position to each other: the longer form of a jump always reaches. It does nothing: its clauses are the laws.
pub fn the_longer_form_reaches()
    ensures small { (spans : List Span) (lens : List ℕ) → AreSpans spans → IsLayout spans lens → sum lens < 2 ^ 31 }
    ensures reaches { (spans : List Span) (lens : List ℕ) (n spot : ℕ) → AreSpans spans → IsLayout spans lens → FitsSigned w32 (pos (place_in lens spot) -ℤ pos (place_in lens n)) }
{}

/// Spans compare equal where they are equal, and nowhere else. It does nothing: its clause is the law.
pub fn laws_of_equality()
    ensures { (a b : Span) → (⟦<Span as PartialEq>⟧.eq a b ≡ true) ↔ (a ≡ b) }
{}
