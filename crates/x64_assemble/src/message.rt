//! What a list prints that wasn't put.

ghost use Rattle.std.specs.Prelude.{Some};
ghost use Rattle.x64_assemble.specs.Message.{layout_error_text};

use crate::errors::LayoutError;
use std::error::Error;
use std::fmt;

impl fmt::Display for LayoutError {
    ghost output = { λ error. Some (layout_error_text error) };

    fn fmt<W: fmt::Write>(&self, f: &mut fmt::Formatter<W>) -> fmt::Result {
        match self {
            LayoutError::Fault(at, fault) => {
                write!(f, "item {at} of the list can't be encoded: {fault}")
            }
            LayoutError::Bind(at, error) => {
                write!(f, "item {at} of the list can't be bound: {error}")
            }
            LayoutError::TooMany => f.write_str("the list has more than 165191049 items"),
            LayoutError::NoMemory => f.write_str("no memory is left"),
        }
    }
}

impl Error for LayoutError {}
