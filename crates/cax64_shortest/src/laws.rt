//! That no string of bytes which is read as an instruction is shorter.

ghost use Rattle.std.specs.Prelude.{◌≡◌, ◌≤◌, ℕ, ℤ, Option, Some, List, length, IfSome};
ghost use Rattle.cax64_encoder.specs.Meant.{len};
ghost use Rattle.cax64_machine_code.specs.Fields.{IsBytes};
ghost use Rattle.cax64_machine_code.specs.Len.{len_of, line_len};
ghost use Rattle.cax64_machine_code.specs.ReadLine.{LineReading, read_line};
ghost use Rattle.cax64_machine_code.specs.Reading.{Parts, PartsOf, read};
ghost use Rattle.cax64_machine_code.specs.Sequence.{Same};
ghost use Rattle.cax64_machine_code.specs.declared.line.Line.{Line};
ghost use Rattle.cax64_machine_code.specs.declared.reading.Reading.{Reading};
ghost use Rattle.cax64_shortest.specs.LineParts.{line_parts};

use cax64_encoder::Instruction;

/// `line_len` is the least number of bytes of an instruction of any line: no string of bytes that the line reads as these
/// parts is shorter, and what it reads of it has no fewer. It does nothing: its clauses are the law.
#[tactic(auto, using(crate::proofs::Whole::line_string_least, crate::proofs::Whole::line_reading_least))]
pub fn line_len_is_least()
    ensures no_shorter { (line : Line) (parts : PartsOf Line) (bytes : List ℕ) (reading : LineReading)
        → IsBytes bytes → read_line line bytes ≡ Some reading → line_parts reading ≡ parts
        → line_len line parts ≤ length bytes }
    ensures no_shorter_reading { (line : Line) (parts : PartsOf Line) (bytes : List ℕ) (reading : LineReading)
        → IsBytes bytes → read_line line bytes ≡ Some reading → line_parts reading ≡ parts
        → line_len line parts ≤ reading.length }
{}

/// `len_of` is the least number of bytes of an instruction: no string of bytes that is read as these parts is shorter,
/// and what is read of it has no fewer. It does nothing: its clauses are the law.
#[tactic(auto, using(crate::proofs::Whole::string_least, crate::proofs::Whole::reading_least))]
pub fn len_is_least()
    ensures no_shorter { (parts : Parts) (bytes : List ℕ) (reading : Reading)
        → IsBytes bytes → read bytes ≡ Some reading → Same reading parts
        → len_of parts ≤ length bytes }
    ensures no_shorter_reading { (parts : Parts) (bytes : List ℕ) (reading : Reading)
        → IsBytes bytes → read bytes ≡ Some reading → Same reading parts
        → len_of parts ≤ reading.length }
{}

/// No string of bytes that is read as an instruction is shorter than what [`Instruction::encode`] adds for it, whatever
/// its registers are and whatever offsets a sink knows. The no-operations of four to nine bytes, whose length is what
/// they are asked for, are left out. It asks for the row, since with it comes that the operands have the row's signature,
/// and does nothing else.
pub fn whole_instruction_is_shortest<I: Instruction>(inst: &I)
    ensures { (offsets : ℕ → Option ℤ) (bytes : List ℕ) (reading : Reading)
        → IfSome (I.meant inst.now offsets).exact (λ very. length very ≤ 3)
        → IsBytes bytes → read bytes ≡ Some reading → Same reading (I.meant inst.now offsets).parts
        → len (I.meant inst.now offsets) ≤ length bytes }
{
    let _row = inst.row();
}
