//! How a run ends.

ghost use Rattle.std.specs.Prelude.{◌≡◌, ◌⊎◌};
ghost use Rattle.x64rows_command.specs.Fault.{end_status};

use crate::fault::Fault;
use std::io::Write;

/// The exit status of a run that came to this: 0, or that of the fault. For status 2 and 3 a line goes to `err`; whether
/// that is written changes nothing.
pub fn end(run: Result<(), Fault>, err: &mut impl Write) -> u8
    ensures status { result ≡ end_status run }
    ensures told { (result ≡ 0) ⊎ (result ≡ 4) → err.new ≡ err.old }
{
    let Err(fault) = run else {
        return 0;
    };
    if let Some(message) = fault.message() {
        let _ = err.write_all(message.as_bytes());
    }
    fault.status()
}
