//! Rows of the port as lines, of which they are the first.

ghost use Rattle.std.specs.Prelude.{◌≡◌, ◌≤◌, ◌<◌, IfNone, IfSome};
ghost use Rattle.cax64_machine_code.specs.Rows.{line_of};
ghost use Rattle.cax64_table.specs.Packed.{number_of};
ghost use Rattle.x64_lines.specs.Line.{core_line};

use crate::op::Op;
use cax64_machine_code::row::Row;

/// The place of a row in the table.
fn number(row: Row) -> u16
    ensures is { result ≡ number_of row }
    ensures below { result < 158 }
{
    row as u16
}

impl Op {
    /// The line that is a row's.
    pub fn of_row(row: Row) -> Op
        ensures number { result.number ≡ number_of row }
        ensures line { core_line result.number ≡ line_of row }
    {
        Op::from_number(number(row)).unwrap()
    }

    /// The row whose line this is, where it's one of the rows'.
    pub fn row(self) -> Option<Row>
        ensures row { IfSome result (λ row. number_of row ≡ self.number) }
        ensures line { IfSome result (λ row. line_of row ≡ core_line self.number) }
        ensures none { IfNone result (158 ≤ self.number) }
    {
        let number = usize::from(self.number());
        let rows = Row::all();
        if number < rows.len() {
            Some(rows[number])
        } else {
            None
        }
    }
}
