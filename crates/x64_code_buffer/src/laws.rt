//! Laws of the items here. The functions do nothing: their clauses are the laws.

ghost use Rattle.std.specs.Prelude.{◌≡◌, ◌↔◌, ◌+◌, ◌<◌, ◌≤◌, ℕ, pos, ◌-ℤ◌, true, Option, Some, IfSome, All, Contains, List, [], take, length};
ghost use Rattle.cax64_encoder.specs.Nop.{nop_bytes};
ghost use Rattle.cax64_machine_code.specs.Address.{modulo_64_bits};
ghost use Rattle.cax64_machine_code.specs.Apart.{each_two};
ghost use Rattle.cax64_machine_code.specs.Sequence.{read_all};
ghost use Rattle.cax64_machine_code.specs.declared.line.Line.{Line};
ghost use Rattle.cax64_machine_code.specs.declared.reading.Reading.{Reading};
ghost use Rattle.cax64_operand.specs.declared.nop.Nop.{Nop};
ghost use Rattle.cax64_sink.specs.Sink.{State};
ghost use Rattle.cax64_sink.specs.declared.DeferredTarget.{DeferredTarget};
ghost use Rattle.x64_code_buffer.specs.Filled.{Filled, Finished};
ghost use Rattle.x64_code_buffer.specs.Laid.{Laid, LaidOut, Piece, led_to, read_all_of, reading_in, readings_in, whole_pieces};
ghost use Rattle.x64_code_buffer.specs.Jump.{near_distance};
ghost use Rattle.x64_code_buffer.specs.Padding.{nops_bytes, padding};
ghost use Rattle.x64_code_buffer.specs.declared.errors.BindError.{BindError};
ghost use Rattle.x64_code_buffer.specs.declared.errors.FinishError.{FinishError};
ghost use Rattle.x64_code_buffer.specs.declared.jump.Jump.{Jump};

use crate::errors::{BindError, FinishError};

/// The first n bytes of a buffer that is filled up to n read as its readings, one behind the other, and nothing is left;
/// and so they do once it is finished.
pub fn what_is_filled_reads()
    ensures filled { (readings : List Reading) (n : ℕ) (s : State) (places : DeferredTarget → Option ℕ)
        → Filled readings n s places → read_all (take n s.bytes) (length readings) ≡ Some (readings, []) }
    ensures finished { (readings : List Reading) (n : ℕ) (s : State) (places : DeferredTarget → Option ℕ) (code : List ℕ)
        → (f : Finished readings n s places code) → read_all (take n code) (length f.now) ≡ Some (f.now, []) }
{}

/// A buffer is filled with readings exactly where it is laid out in them as whole pieces, each by the line of its row; and
/// what is laid out in these is finished.
pub fn what_is_filled_is_laid_out()
    ensures filled { (readings : List Reading) (n : ℕ) (s : State) (places : DeferredTarget → Option ℕ)
        → Filled readings n s places ↔ Laid (whole_pieces readings) n s places }
    ensures finished { (readings : List Reading) (n : ℕ) (s : State) (places : DeferredTarget → Option ℕ) (code : List ℕ)
        → LaidOut (whole_pieces readings) n s places code → Finished readings n s places code }
{}

/// The first n bytes of a buffer that is laid out up to n read as its pieces, one behind the other, and nothing is left; and
/// so they do once it is finished. They are read by any lines of which each two are apart, if those of the pieces are
/// among them.
pub fn what_is_laid_out_reads()
    ensures laid { (lines : List Line) (pieces : List Piece) (n : ℕ) (s : State) (places : DeferredTarget → Option ℕ)
        → each_two lines ≡ true → All (λ p. Contains lines (reading_in p).line) pieces
        → Laid pieces n s places → read_all_of lines (take n s.bytes) (length pieces) ≡ Some (readings_in pieces, []) }
    ensures laid_out { (lines : List Line) (pieces : List Piece) (n : ℕ) (s : State) (places : DeferredTarget → Option ℕ) (code : List ℕ)
        → each_two lines ≡ true → All (λ p. Contains lines (reading_in p).line) pieces
        → (l : LaidOut pieces n s places code) → read_all_of lines (take n code) (length pieces) ≡ Some (l.now, []) }
{}

/// The distance from the end of a jump to a position leads there.
pub fn a_jump_leads()
    ensures { (place end : ℕ) → led_to (Some (pos place -ℤ pos end)) end ≡ Some (modulo_64_bits (pos place)) }
{}

/// The distance of a near jump, from its end, leads to the position that it was found for.
pub fn a_near_jump_leads()
    ensures { (jump : Jump) (place here : ℕ) → IfSome (near_distance jump (Some place) here) (λ d. led_to (Some d) (here + 2) ≡ Some (modulo_64_bits (pos place))) }
{}

/// No fewer no-operations have as many bytes as those that a buffer is filled up with.
pub fn padding_is_shortest()
    ensures { (nines : ℕ) (rest : Option Nop) (other : List Nop) → IfSome rest (λ nop. length (nop_bytes nop) < 9)
        → length (nops_bytes other) ≡ length (nops_bytes (padding nines rest)) → length (padding nines rest) ≤ length other }
{}

/// Errors compare equal where they are equal, and nowhere else.
pub fn laws_of_equality()
    ensures bind { (a b : BindError) → (⟦<BindError as PartialEq>⟧.eq a b ≡ true) ↔ (a ≡ b) }
    ensures finish { (a b : FinishError) → (⟦<FinishError as PartialEq>⟧.eq a b ≡ true) ↔ (a ≡ b) }
{}
