//! Laws of the items here. The function does nothing: its clauses are the laws.

ghost use Rattle.std.specs.Prelude.{◌≡◌, ◌↔◌, true};
ghost use Rattle.cax64_immediate.specs.declared.OutOfRange.{OutOfRange};
ghost use Rattle.cax64_immediate.specs.declared.extension.Extension.{Extension};

use crate::{Extension, OutOfRange};

/// Extensions compare equal where they are equal, and nowhere else. `OutOfRange` has one value, which is equal to itself.
pub fn laws_of_equality()
    ensures out_of_range { (a b : OutOfRange) → (⟦<OutOfRange as PartialEq>⟧.eq a b ≡ true) ↔ (a ≡ b) }
    ensures extension { (a b : Extension) → (⟦<Extension as PartialEq>⟧.eq a b ≡ true) ↔ (a ≡ b) }
{}
