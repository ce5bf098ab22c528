//! Bytes put into a sink.

ghost use Rattle.std.specs.Prelude.{◌≡◌, ◌++◌, IfOk};
ghost use Rattle.cax64_sink.specs.Run.{Ran};
ghost use Rattle.cax64_sink.specs.Puts.{puts};

use crate::{CodeSink, SinkError};

/// Puts some bytes, one at a time.
pub fn put_each<S: CodeSink>(sink: &mut S, bytes: &[u8]) -> Result<(), SinkError>
    ensures puts { Ran (puts bytes.now) (S.state sink.old) (S.state sink.new) result }
    ensures beside { S.may_become sink.old sink.new }
    ensures adds { IfOk result (λ _. (S.state sink.new).bytes ≡ (S.state sink.old).bytes ++ bytes.now) }
{
    for byte in bytes {
        sink.put1(*byte)?;
    }
    Ok(())
}
