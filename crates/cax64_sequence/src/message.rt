//! What a list that wasn't put to its end prints.

ghost use Rattle.std.specs.Prelude.{Some};
ghost use Rattle.cax64_sequence.specs.Message.{refused_text, stopped_text};

use crate::{Refused, Stopped};
use std::error::Error;
use std::fmt;

impl fmt::Display for Refused {
    ghost output = { λ refused. Some (refused_text refused) };

    fn fmt<W: fmt::Write>(&self, f: &mut fmt::Formatter<W>) -> fmt::Result {
        let (whole, error) = (self.whole, self.error);
        write!(f, "instruction {whole} of the list isn't whole: {error}")
    }
}

impl fmt::Display for Stopped {
    ghost output = { λ stopped. Some (stopped_text stopped) };

    fn fmt<W: fmt::Write>(&self, f: &mut fmt::Formatter<W>) -> fmt::Result {
        let (whole, error) = (self.whole, self.error);
        write!(f, "instruction {whole} of the list isn't whole: {error}")
    }
}

impl Error for Refused {}

impl Error for Stopped {}
