//! Why a run ends early.

ghost use Rattle.std.specs.Prelude.{◌≡◌, ◌↔◌, IsNone};
ghost use Rattle.x64rows_command.specs.declared.fault.Fault.TheVariants.{NoMemory, Write};

use std::alloc::AllocError;
use std::io;

/// Why a run ends before its last line is written.
#[derive(Clone, Copy, Debug, PartialEq)]
pub enum Fault {
    /// The words aren't those of a command.
    Usage,
    NoMemory,
    /// The output refused a line.
    Write,
}

impl Fault {
    ghost use Rattle.x64rows_command.specs.Fault.{status_of};

    /// The exit status, 2 to 4.
    pub fn status(self) -> u8
        ensures { result ≡ status_of self }
    {
        match self {
            Fault::Usage => 2,
            Fault::NoMemory => 3,
            Fault::Write => 4,
        }
    }

    /// The line for the error stream.
    pub fn message(self) -> Option<&'static str>
        ensures { IsNone result ↔ (self ≡ Fault.Write) }
    {
        match self {
            Fault::Usage => Some("usage\n"),
            Fault::NoMemory => Some("no memory\n"),
            Fault::Write => None,
        }
    }
}

impl From<AllocError> for Fault {
    ghost from_gives = { λ _ fault. fault ≡ NoMemory };

    fn from(_error: AllocError) -> Fault {
        Fault::NoMemory
    }
}

impl From<io::Error> for Fault {
    ghost from_gives = { λ _ fault. fault ≡ Write };

    fn from(_error: io::Error) -> Fault {
        Fault::Write
    }
}
