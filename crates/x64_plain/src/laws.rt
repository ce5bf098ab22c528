//! A law of instructions in integers.

ghost use Rattle.std.specs.Prelude.{◌≡◌};
ghost use Rattle.x64_plain.specs.Plain.{plain};
ghost use Rattle.x64_core.specs.View.{core_view};

use crate::inst::HqInst;
use x64_core::Core;

/// Two instructions are one where their integers are the same: who compares the structs byte by byte compares instructions.
pub fn integers_tell_instructions(one: &Core, other: &Core)
    ensures { plain (core_view one.now) ≡ plain (core_view other.now) → core_view one.now ≡ core_view other.now }
{
    if let Some(_again) = HqInst::of(one).core() {}
}
