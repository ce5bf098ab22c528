//! Displacements of an address, which may be known late.

ghost use Rattle.std.specs.Prelude.{◌≡◌, ⊤, pos, IsTrue};
ghost use Rattle.cax64_address.specs.Offset.{sum_fits, sum_of};

use cax64_sink::{CodeSink, KnownOffset};
use std::alloc::AllocError;
use std::marker::Model;

/// The displacement of an address, in bytes.
#[derive(Copy, Debug, PartialEq)]
pub struct AmodeOffset(i32);

impl Model for AmodeOffset {
    ghost use Rattle.std.specs.Prelude.{ℤ};

    ghost Value = { ℤ };

    ghost view = { λ offset. offset.0 };

    ghost inverse = { λ value. record { 0 = value } };
}

impl Clone for AmodeOffset {
    ghost is_clone = { λ old new. new ≡ old };

    ghost is_infallible = { λ _. ⊤ };

    fn clone(&self) -> Result<AmodeOffset, AllocError> {
        Ok(*self)
    }
}

impl AmodeOffset {
    /// No displacement.
    pub const ZERO: AmodeOffset = AmodeOffset(0);

    /// The displacement of this many bytes.
    pub fn new(value: i32) -> Self
        ensures { result ≡ value }
    {
        AmodeOffset(value)
    }

    /// The number of bytes.
    pub fn value(self) -> i32
        ensures { result ≡ self }
    {
        self.0
    }
}

impl From<i32> for AmodeOffset {
    ghost from_gives = { λ value offset. offset ≡ value };

    fn from(value: i32) -> AmodeOffset {
        AmodeOffset::new(value)
    }
}

/// A displacement, and the key of an offset that the sink knows and that is added to it.
#[derive(Clone, Copy, Debug, PartialEq)]
pub struct AmodeOffsetPlusKnownOffset {
    pub simm32: AmodeOffset,
    pub offset: Option<KnownOffset>,
}

impl AmodeOffsetPlusKnownOffset {
    /// No displacement.
    pub const ZERO: AmodeOffsetPlusKnownOffset = AmodeOffsetPlusKnownOffset {
        simm32: AmodeOffset::ZERO,
        offset: None,
    };

    /// Whether the offset is absent, or known to the sink with a sum that is an `i32`.
    pub fn fits<S: CodeSink>(&self, sink: &S) -> bool
        ensures { result ≡ sum_fits (S.state sink.now).offsets self.now.offset self.now.simm32 }
    {
        match self.offset {
            Some(offset) => {
                sink.knows_offset(offset)
                    && sink
                        .known_offset(offset)
                        .checked_add(self.simm32.value())
                        .is_some()
            }
            None => true,
        }
    }

    /// The sum of the displacement and of the offset, in bytes.
    ///
    /// The sum has to fit, as [`fits`](Self::fits) tells. Where it doesn't, a build that wasn't proved may answer any
    /// number, or abort.
    #[inline(always)]
    pub fn value<S: CodeSink>(&self, sink: &S) -> i32
        requires { IsTrue (sum_fits (S.state sink.now).offsets self.now.offset self.now.simm32) }
        ensures { result ≡ sum_of (S.state sink.now).offsets self.now.offset self.now.simm32 }
    {
        match self.offset {
            Some(offset) => sink.known_offset(offset) + self.simm32.value(),
            None => self.simm32.value(),
        }
    }
}
