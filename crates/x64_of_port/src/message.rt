//! What a refusal prints.

ghost use Rattle.std.specs.Prelude.{Some};
ghost use Rattle.x64_of_port.specs.Message.{not_core_text};

use crate::refused::NotCore;
use std::error::Error;
use std::fmt;

impl fmt::Display for NotCore {
    ghost output = { λ why. Some (not_core_text why) };

    fn fmt<W: fmt::Write>(&self, f: &mut fmt::Formatter<W>) -> fmt::Result {
        match self {
            NotCore::Nop => f.write_str(
                "a no-operation of fixed bytes, of which the core has its own",
            ),
            NotCore::Fault(fault) => write!(f, "{fault}"),
        }
    }
}

impl Error for NotCore {}
