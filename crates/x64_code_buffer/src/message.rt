//! What the errors of a buffer print.

ghost use Rattle.std.specs.Prelude.{Some};
ghost use Rattle.x64_code_buffer.specs.Message.{bind_text, finish_text};

use crate::errors::{BindError, FinishError};
use cax64_sink::{Constant, DeferredTarget, Label};
use std::fmt;

impl fmt::Display for BindError {
    ghost output = { λ error. Some (bind_text error) };

    fn fmt<W: fmt::Write>(&self, f: &mut fmt::Formatter<W>) -> fmt::Result {
        f.write_str(match self {
            BindError::Unknown => "the label isn't one that this buffer gave",
            BindError::Twice => "the label or constant is bound already",
            BindError::NoMemory => "no memory is left",
        })
    }
}

impl fmt::Display for FinishError {
    ghost output = { λ error. Some (finish_text error) };

    fn fmt<W: fmt::Write>(&self, f: &mut fmt::Formatter<W>) -> fmt::Result {
        match self {
            FinishError::Unbound(DeferredTarget::Label(Label(number))) => {
                write!(f, "label {number} isn't bound")
            }
            FinishError::Unbound(DeferredTarget::Constant(Constant(number))) => {
                write!(f, "constant {number} isn't bound")
            }
            FinishError::Unbound(DeferredTarget::None) => {
                f.write_str("a field refers to no label and no constant")
            }
            FinishError::TooFar(at) => {
                write!(
                    f,
                    "the field at byte {at} can't hold the distance; or the code ends before the field does"
                )
            }
        }
    }
}
