//! A law of the lines. The function does nothing: its clause is the law.

ghost use Rattle.std.specs.Prelude.{◌≡◌, true};
ghost use Rattle.cax64_machine_code.specs.Apart.{each_two};
ghost use Rattle.x64_lines.specs.Lines.{core_lines};

/// The lines of the core are apart each two: no bytes match two of them.
#[tactic(auto, using(crate::proofs::Table::lines_apart))]
pub fn core_lines_are_apart()
    ensures { each_two core_lines ≡ true }
{}
