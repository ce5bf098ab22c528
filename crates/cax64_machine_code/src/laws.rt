//! Laws of the definitions, each on a function that does nothing.

ghost use Rattle.std.specs.Prelude.{◌≡◌, ◌↔◌, ◌≤◌, ◌<◌, ◌+◌, ◌++◌, true, Contains, Some, option_map, List, [], ℕ, length};
ghost use Rattle.cax64_machine_code.specs.Apart.{apart, each_two};
ghost use Rattle.cax64_machine_code.specs.Fields.{IsBytes};
ghost use Rattle.cax64_machine_code.specs.Len.{least_tail};
ghost use Rattle.cax64_machine_code.specs.Prefix.{Prefix};
ghost use Rattle.cax64_machine_code.specs.ReadLine.{LineReading, ReadsLineAs, as_row, lines_of, parts_as, read_line, read_of, with_line};
ghost use Rattle.cax64_machine_code.specs.Reading.{PartsOf, matched_at, read};
ghost use Rattle.cax64_machine_code.specs.Rows.{all_rows, line_of};
ghost use Rattle.cax64_machine_code.specs.Sequence.{IsProperFront, ReadsAs};
ghost use Rattle.cax64_machine_code.specs.Shortest.{Shortest};
ghost use Rattle.cax64_machine_code.specs.Tail.{IsTail, Tail, read_tail};
ghost use Rattle.cax64_machine_code.specs.declared.line.ImmField.{ImmField};
ghost use Rattle.cax64_machine_code.specs.declared.line.LegacySet.{LegacySet};
ghost use Rattle.cax64_machine_code.specs.declared.line.Line.{Line};
ghost use Rattle.cax64_machine_code.specs.declared.line.Opcode.{Opcode};
ghost use Rattle.cax64_machine_code.specs.declared.line.PlaceField.{PlaceField};
ghost use Rattle.cax64_machine_code.specs.declared.line.PrefixField.{PrefixField};
ghost use Rattle.cax64_machine_code.specs.declared.line.RegField.{RegField};
ghost use Rattle.cax64_machine_code.specs.declared.line.TailField.{TailField};
ghost use Rattle.cax64_machine_code.specs.declared.line.VvvvField.{VvvvField};
ghost use Rattle.cax64_machine_code.specs.declared.reading.Place.{Place};
ghost use Rattle.cax64_machine_code.specs.declared.reading.Reading.{Reading};
ghost use Rattle.cax64_machine_code.specs.declared.reading.RegView.{RegView};
ghost use Rattle.cax64_machine_code.specs.declared.row.Branch.{Branch};
ghost use Rattle.cax64_machine_code.specs.declared.row.Row.{Row};

use crate::line::{
    ImmField, LegacySet, Line, Opcode, PlaceField, PrefixField, RegField, TailField, VvvvField,
};
use crate::reading::{Place, Reading, RegView};
use crate::row::{Branch, Row};

/// A prefix and what follows it match one row of the table at most.
pub fn one_row_matches(a: Row, b: Row)
    ensures { (prefix : Prefix) (bytes r s : List ℕ) → matched_at (line_of a) prefix bytes ≡ Some r → matched_at (line_of b) prefix bytes ≡ Some s → a ≡ b }
{}

/// Under the same X, B and factor no tail is a proper front of another.
pub fn no_tail_begins_another()
    ensures { (x b factor : ℕ) (t u : List ℕ) (first second : Tail)
        → read_tail x b factor t ≡ Some first → first.rest ≡ []
        → read_tail x b factor u ≡ Some second → second.rest ≡ []
        → IsProperFront t u → ⊥ }
{}

/// `least_tail` is the least number of bytes of a tail of this place, whatever X and B are and whatever the reg field:
/// none that is read, with whatever follows it, has fewer, and where there is one at all, there is one of so many. So a
/// tail is the shortest exactly where it has so many.
pub fn least_tail_is_least()
    ensures no_shorter { (x b : ℕ) (bytes : List ℕ) (tail : Tail)
        → IsBytes bytes → read_tail x b 1 bytes ≡ Some tail
        → least_tail tail.place + length tail.rest ≤ length bytes }
    ensures reached { (x b : ℕ) (bytes : List ℕ) (tail : Tail)
        → IsBytes bytes → read_tail x b 1 bytes ≡ Some tail
        → (t : List ℕ) × IsBytes t × IsTail x b 1 tail.reg tail.place t × (length t ≡ least_tail tail.place) }
    ensures shortest { (x b reg : ℕ) (place : Place) (t : List ℕ)
        → IsBytes t → IsTail x b 1 reg place t
        → Shortest x b 1 reg place t ↔ (length t ≡ least_tail place) }
{}

/// The bytes of no reading are a proper front of those of another.
pub fn no_reading_begins_another(first: Reading, second: Reading)
    ensures { (t u : List ℕ)
        → read t ≡ Some first → first.length ≡ length t
        → read u ≡ Some second → second.length ≡ length u
        → IsProperFront t u → ⊥ }
{}

/// A reading is read whatever follows its bytes.
pub fn what_follows_is_not_read(reading: Reading)
    ensures { (t more : List ℕ) → read t ≡ Some reading → read (t ++ more) ≡ Some reading }
{}

/// Lines that are apart match no bytes both.
pub fn apart_lines_match_nothing_both(first: Line, second: Line)
    ensures { (prefix : Prefix) (bytes r s : List ℕ)
        → apart first second ≡ true
        → matched_at first prefix bytes ≡ Some r → matched_at second prefix bytes ≡ Some s → ⊥ }
{}

/// What a line reads it reads whatever follows.
pub fn what_follows_is_not_read_by_a_line(line: Line)
    ensures { (bytes more : List ℕ) (reading : LineReading)
        → read_line line bytes ≡ Some reading → read_line line (bytes ++ more) ≡ Some reading }
{}

/// Of lines that are apart each two, what one reads is what they read.
pub fn one_line_reads(line: Line)
    ensures { (lines : List Line) (bytes : List ℕ) (reading : LineReading)
        → each_two lines ≡ true → Contains lines line
        → read_line line bytes ≡ Some reading → read_of lines bytes ≡ Some reading }
{}

/// Reading by the rows is reading by their lines: what a row's line reads is read as the row, and back; bytes that a
/// row's line reads as something, whatever follows, are read as the same of the row; the lines of all rows are apart each
/// two, and `read` is what they read.
pub fn rows_are_read_by_their_lines()
    ensures row { (row : Row) (bytes : List ℕ) (reading : LineReading)
        → read_line (line_of row) bytes ≡ Some reading → read bytes ≡ Some (as_row row reading) }
    ensures line { (bytes : List ℕ) (reading : Reading)
        → read bytes ≡ Some reading → read_line (line_of reading.row) bytes ≡ Some (with_line reading) }
    ensures reads_as { (row : Row) (meant : PartsOf Line) (bytes : List ℕ)
        → meant.row ≡ line_of row → ReadsLineAs meant bytes → ReadsAs (parts_as row meant) bytes }
    ensures apart { each_two (lines_of all_rows) ≡ true }
    ensures all { (bytes : List ℕ) → option_map with_line (read bytes) ≡ read_of (lines_of all_rows) bytes }
{}

/// Rows, branches, lines of the table and each of their parts, registers, places and readings compare equal where they
/// are equal, and nowhere else.
pub fn laws_of_equality()
    ensures rows { (a b : Row) → (⟦<Row as PartialEq>⟧.eq a b ≡ true) ↔ (a ≡ b) }
    ensures branches { (a b : Branch) → (⟦<Branch as PartialEq>⟧.eq a b ≡ true) ↔ (a ≡ b) }
    ensures legacy_sets { (a b : LegacySet) → (⟦<LegacySet as PartialEq>⟧.eq a b ≡ true) ↔ (a ≡ b) }
    ensures vvvv_fields { (a b : VvvvField) → (⟦<VvvvField as PartialEq>⟧.eq a b ≡ true) ↔ (a ≡ b) }
    ensures prefix_fields { (a b : PrefixField) → (⟦<PrefixField as PartialEq>⟧.eq a b ≡ true) ↔ (a ≡ b) }
    ensures opcodes { (a b : Opcode) → (⟦<Opcode as PartialEq>⟧.eq a b ≡ true) ↔ (a ≡ b) }
    ensures reg_fields { (a b : RegField) → (⟦<RegField as PartialEq>⟧.eq a b ≡ true) ↔ (a ≡ b) }
    ensures place_fields { (a b : PlaceField) → (⟦<PlaceField as PartialEq>⟧.eq a b ≡ true) ↔ (a ≡ b) }
    ensures tail_fields { (a b : TailField) → (⟦<TailField as PartialEq>⟧.eq a b ≡ true) ↔ (a ≡ b) }
    ensures imm_fields { (a b : ImmField) → (⟦<ImmField as PartialEq>⟧.eq a b ≡ true) ↔ (a ≡ b) }
    ensures lines { (a b : Line) → (⟦<Line as PartialEq>⟧.eq a b ≡ true) ↔ (a ≡ b) }
    ensures registers { (a b : RegView) → (⟦<RegView as PartialEq>⟧.eq a b ≡ true) ↔ (a ≡ b) }
    ensures places { (a b : Place) → (⟦<Place as PartialEq>⟧.eq a b ≡ true) ↔ (a ≡ b) }
    ensures readings { (a b : Reading) → (⟦<Reading as PartialEq>⟧.eq a b ≡ true) ↔ (a ≡ b) }
{}
