//! Why a buffer refused a call.

ghost use Rattle.std.specs.Prelude.{◌≡◌};

use crate::buffer::CodeBuffer;
use cax64_sink::DeferredTarget;
use std::alloc::Allocator;
use std::error::Error;

/// Why a label or a constant wasn't bound.
#[derive(Clone, Copy, Debug, PartialEq)]
pub enum BindError {
    /// The buffer didn't give the label.
    Unknown,
    /// It is bound already.
    Twice,
    /// A growth was refused.
    NoMemory,
}

/// Why a buffer can't be finished.
#[derive(Clone, Copy, Debug, PartialEq)]
pub enum FinishError {
    /// What a use refers to isn't bound.
    Unbound(DeferredTarget),
    /// The field at this position can't hold the distance, or its four bytes aren't all there.
    TooFar(usize),
}

impl Error for BindError {}

impl Error for FinishError {}

impl<A: Allocator> From<(CodeBuffer<A>, FinishError)> for FinishError {
    ghost from_gives = { λ refused error. error ≡ refused.1 };

    /// Why a buffer can't be finished, without the buffer, which is dropped.
    fn from(refused: (CodeBuffer<A>, FinishError)) -> FinishError {
        let (_buffer, error) = refused;
        error
    }
}
