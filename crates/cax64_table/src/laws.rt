//! A law of the table, on a function that does nothing.

ghost use Rattle.std.specs.Prelude.{◌≡◌, is_some};
ghost use Rattle.cax64_machine_code.specs.Rows.{line_of};
ghost use Rattle.cax64_table.specs.Digit.{digit_of, vex_map};

use cax64_machine_code::row::Row;

/// An opcode has a digit in all its rows of a map or in none of them.
pub fn all_rows_of_an_opcode_have_a_digit_or_none(a: Row, b: Row)
    ensures { (line_of a).opcode ≡ (line_of b).opcode → vex_map (line_of a).prefix ≡ vex_map (line_of b).prefix → is_some (digit_of (line_of a).tail) ≡ is_some (digit_of (line_of b).tail) }
{}
