//! One instruction of the port at the front of some bytes: of the core's lines, those that are rows.

ghost use Rattle.std.specs.Prelude.{◌≡◌, ◌≤◌, IfSome};
ghost use Rattle.cax64_machine_code.specs.Reading.{read};

use crate::reader::find;
use cax64_machine_code::reading::Reading;

/// How many of the lines are rows'. They are the first.
const ROWS: u16 = 158;

/// Reads the instruction at the front, of which all rows of the table are known; what follows it is not read.
pub fn read_inst(bytes: &[u8]) -> Option<Reading>
    ensures is { result ≡ read bytes.now }
    ensures least { IfSome result (λ reading. 1 ≤ reading.length) }
    ensures most { IfSome result (λ reading. reading.length ≤ 13) }
{
    let (op, found) = find::<false>(ROWS, bytes)?;
    let row = op.row()?;
    Some(Reading {
        row,
        length: (bytes.len() - found.rest.len()) as u8,
        tail: found.tail,
        reg: found.reg,
        vvvv: found.vvvv,
        place: found.place,
        imm: found.imm,
    })
}
