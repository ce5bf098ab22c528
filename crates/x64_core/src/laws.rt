//! Laws of the core. The functions do nothing: their clauses are the laws.

ghost use Rattle.std.specs.Prelude.{◌≡◌, ◌≤◌, ◌++◌, ◌↔◌, ℕ, ℤ, List, Option, option_map, true};
ghost use Rattle.cax64_machine_code.specs.ReadLine.{read_of};
ghost use Rattle.cax64_sink.specs.Sink.{State};
ghost use Rattle.x64_core.specs.Adds.{AddsCore};
ghost use Rattle.x64_core.specs.Core.{core_len};
ghost use Rattle.x64_core.specs.ReadAs.{IsReadAs};
ghost use Rattle.x64_core.specs.View.{core_view};
ghost use Rattle.x64_core.specs.declared.instruction.Core.{Core};
ghost use Rattle.x64_lines.specs.Lines.{core_lines};
ghost use Rattle.x64_reader.specs.Reading.{line_reading};
ghost use Rattle.x64_reader.specs.declared.reading.CoreReading.{CoreReading};

use crate::instruction::Core;

/// Instructions compare equal where they are equal, and nowhere else. Two that say the same of line and operands are equal: what
/// a line or a place lacks has one value.
pub fn laws_of_equality()
    ensures core { (a b : Core) → (⟦<Core as PartialEq>⟧.eq a b ≡ true) ↔ (a ≡ b) }
    ensures view { (a b : Core) → core_view a ≡ core_view b → a ≡ b }
{}

/// No instruction has more than 13 bytes, whatever its registers are.
pub fn len_is_at_most_13()
    ensures { (c : Core) (offsets : ℕ → Option ℤ) → core_len offsets (core_view c) ≤ 13 }
{}

/// What `encode` adds of an instruction is read as this instruction, whatever follows. `found` is what `x64_reader::read_core` answers,
/// by its clause `is`.
pub fn what_encode_adds_is_read(core: &Core)
    ensures { (old new : State) (adds : AddsCore (core_view core.now) old new) (rest : List ℕ) (found : Option CoreReading)
        → option_map line_reading found ≡ read_of core_lines (adds.line.added ++ rest)
        → IsReadAs (core_view core.now) old.offsets adds.line.added found }
{}
