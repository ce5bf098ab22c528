//! The program `x64rows`.

use named_instructions::fields::{Fault, Fields};
use std::alloc::Global;
use x64rows_run::run;

/// What stands on a stream, for a line that tells a difference.
fn shown(bytes: &[u8]) -> &str {
    std::str::from_utf8(bytes).unwrap_or("no text")
}

pub(crate) fn answer_program(
    alloc: Global,
    fields: &mut Fields<'_>,
    came: &mut String,
) -> Result<(), Fault> {
    let words: Vec<&str> = fields.text()?.split(' ').collect(alloc)?;
    let mut out = Vec::new(alloc);
    let mut err = Vec::new(alloc);
    let status = run(alloc, &words, &mut out, &mut err);
    write!(came, "{status}\t")?;
    match (status, out.as_slice(), err.as_slice()) {
        (0, [line @ .., b'\n'], []) => came.push_str(shown(line))?,
        (2, [], b"usage\n") => came.push('-')?,
        (_, out, err) => {
            let (out, err) = (shown(out), shown(err));
            write!(came, "{out:?} and {err:?}")?;
        }
    }
    Ok(())
}
