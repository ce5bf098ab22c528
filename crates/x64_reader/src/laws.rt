//! Laws of reading the core, each on a function that does nothing.

ghost use Rattle.std.specs.Prelude.{◌≡◌, ◌<◌, ℕ, List, None};
ghost use Rattle.cax64_machine_code.specs.ReadLine.{read_line, read_of};
ghost use Rattle.x64_lines.specs.Line.{core_line};
ghost use Rattle.x64_lines.specs.Lines.{core_lines};
ghost use Rattle.x64_lines.specs.declared.lines.TheConstants.{COUNT};

use x64_lines::Op;

/// What no line reads is refused.
#[tactic(auto, using(crate::proofs::Found::none_read))]
pub fn what_no_line_reads_is_refused()
    ensures { (bytes : List ℕ) → ((n : ℕ) → n < COUNT → read_line (core_line n) bytes ≡ None) → read_of core_lines bytes ≡ None }
{}

/// The lines of two numbers are two.
#[tactic(auto, using(crate::proofs::Distinct::same_number))]
pub fn numbers_name_different_lines(first: Op, second: Op)
    ensures { core_line first.number ≡ core_line second.number → first.number ≡ second.number }
{}
