//! A line of the core, by its number.

ghost use Rattle.std.specs.Prelude.{◌≡◌, ◌≤◌, ◌<◌, true, IfNone, IfSome, nat_lt};
ghost use Rattle.cax64_table.specs.EntryLine.{entry_line};
ghost use Rattle.x64_lines.specs.Line.{core_line};
ghost use Rattle.x64_lines.specs.Shape.{has_shape, shape_of};
ghost use Rattle.x64_lines.specs.declared.lines.TheConstants.{COUNT};

use crate::lines::{COUNT, entry};
use crate::shapes::{OpShape, shape};
use cax64_table::entry::Entry;

/// A line of the core, by its number.
#[derive(Clone, Copy, Debug, PartialEq)]
pub struct Op {
    /// Public, since a constant of another crate can't call what makes an `Op`.
    pub number: u16,
    ghost below: { nat_lt number COUNT ≡ true },
}

impl Op {
    /// The line of this number, the rows first, where there is one.
    pub fn from_number(number: u16) -> Option<Op>
        ensures found { IfSome result (λ op. op.number ≡ number) }
        ensures none { IfNone result (COUNT ≤ number) }
    {
        if number < COUNT {
            Some(Op { number })
        } else {
            None
        }
    }

    /// The line of this number.
    ///
    /// It has to be below [`COUNT`], as [`from_number`](Self::from_number) tests. Where it isn't, a build that wasn't proved may make
    /// a line that there isn't, or abort.
    #[inline(always)]
    pub fn of_number(number: u16) -> Op
        requires { number < COUNT }
        ensures { result.number ≡ number }
    {
        Op { number }
    }

    /// Its number, below [`COUNT`].
    #[inline(always)]
    pub fn number(self) -> u16
        ensures is { result ≡ self.number }
        ensures below { result < COUNT }
    {
        self.number
    }

    /// The operands that it takes.
    #[inline(always)]
    pub fn shape(self) -> OpShape
        ensures is { result ≡ shape_of self.number }
        ensures fits { has_shape (core_line self.number) result ≡ true }
    {
        shape(self.number)
    }

    /// The line as a packed number, with its parts ready.
    #[inline(always)]
    pub fn entry(self) -> Entry
        ensures { entry_line result ≡ core_line self.number }
    {
        entry(self.number)
    }
}
