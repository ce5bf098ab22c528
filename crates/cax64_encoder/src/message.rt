//! What a fault prints.

ghost use Rattle.std.specs.Prelude.{Some};
ghost use Rattle.cax64_encoder.specs.Message.{fault_text};

use crate::Fault;
use std::error::Error;
use std::fmt;

impl fmt::Display for Fault {
    ghost output = { λ fault. Some (fault_text fault) };

    fn fmt<W: fmt::Write>(&self, f: &mut fmt::Formatter<W>) -> fmt::Result {
        match self {
            Fault::Register(at) => write!(f, "register {at} in the order of visits isn't real"),
            Fault::Index(at) => {
                write!(
                    f,
                    "register {at} in the order of visits is the stack pointer, which can't be an index"
                )
            }
            Fault::Fixed(at) => {
                write!(
                    f,
                    "register {at} in the order of visits is fixed and doesn't hold its number"
                )
            }
            Fault::Unknown(key) => write!(f, "the late offset {key} isn't known"),
            Fault::Range => {
                f.write_str("the late offset plus the displacement doesn't fit in 32 bits")
            }
        }
    }
}

impl Error for Fault {}
