//! Why a program isn't compiled.

use huqmeris::{EncodeError, SinkError};
use std::alloc::AllocError;

#[derive(Clone, Copy)]
pub(crate) enum Refused {
    /// It's no statement.
    Statement,
    /// It's no operand.
    Operand,
    /// It's no operator.
    Operator,
    /// It's no relation.
    Relation,
    /// A statement stands in no function, or a function in another.
    Place,
    /// `end` or `else` ends nothing.
    End,
    /// A function has more than five variables, or more than four parameters.
    Variables,
    /// A function is defined twice.
    Twice,
    /// A function is called and not defined, or is too far.
    Call,
    /// A function isn't ended.
    Open,
    /// An instruction can't be encoded.
    Encoding,
    NoMemory,
}

impl Refused {
    pub(crate) fn sentence(self) -> &'static str {
        match self {
            Refused::Statement => "no statement",
            Refused::Operand => "no operand",
            Refused::Operator => "no operator",
            Refused::Relation => "no relation",
            Refused::Place => "a statement in no function, or a function in another",
            Refused::End => "nothing that could end here",
            Refused::Variables => "more than five variables, or more than four parameters",
            Refused::Twice => "a function that is defined already",
            Refused::Call => "a call of a function that isn't there",
            Refused::Open => "a function without its end",
            Refused::Encoding => "an instruction that can't be encoded",
            Refused::NoMemory => "no memory",
        }
    }
}

impl From<AllocError> for Refused {
    fn from(_error: AllocError) -> Refused {
        Refused::NoMemory
    }
}

impl From<SinkError> for Refused {
    fn from(_error: SinkError) -> Refused {
        Refused::NoMemory
    }
}

impl From<EncodeError> for Refused {
    fn from(error: EncodeError) -> Refused {
        match error {
            EncodeError::Fault(_) => Refused::Encoding,
            EncodeError::Sink(_) => Refused::NoMemory,
        }
    }
}
