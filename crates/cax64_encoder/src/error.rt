//! Why an instruction wasn't put by a call that tests it first.

ghost use Rattle.std.specs.Prelude.{Some};
ghost use Rattle.cax64_encoder.specs.Message.{encode_error_text};

use crate::fault::Fault;
use cax64_sink::SinkError;
use std::error::Error;
use std::fmt;

/// Why [`Instruction::encode_checked`](crate::Instruction::encode_checked) didn't put an instruction.
#[derive(Clone, Copy, Debug, PartialEq)]
pub enum EncodeError {
    /// It can't be encoded for this sink, which is as before.
    Fault(Fault),
    /// The sink refused it, and has a proper front of its bytes and a front of its notices.
    Sink(SinkError),
}

impl fmt::Display for EncodeError {
    ghost output = { λ error. Some (encode_error_text error) };

    fn fmt<W: fmt::Write>(&self, f: &mut fmt::Formatter<W>) -> fmt::Result {
        match self {
            EncodeError::Fault(fault) => write!(f, "{fault}"),
            EncodeError::Sink(error) => write!(f, "{error}"),
        }
    }
}

impl Error for EncodeError {}

impl From<Fault> for EncodeError {
    ghost use Rattle.std.specs.Prelude.{◌≡◌};
    ghost use Rattle.cax64_encoder.specs.declared.error.EncodeError.TheVariants as variants;

    ghost from_gives = { λ fault error. error ≡ variants.Fault fault };

    fn from(fault: Fault) -> EncodeError {
        EncodeError::Fault(fault)
    }
}

impl From<SinkError> for EncodeError {
    ghost use Rattle.std.specs.Prelude.{◌≡◌};
    ghost use Rattle.cax64_encoder.specs.declared.error.EncodeError.TheVariants as variants;

    ghost from_gives = { λ refused error. error ≡ variants.Sink refused };

    fn from(refused: SinkError) -> EncodeError {
        EncodeError::Sink(refused)
    }
}
