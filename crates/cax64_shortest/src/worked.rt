//! Examples of the laws.

ghost use Rattle.std.specs.Prelude.{◌≡◌, ◌≤◌, ◌+◌, ℕ, List, [], ◌∷◌, length, Some, None, pos, IsTrue, OnOk, OnErr, IsOk, IfSome};
ghost use Rattle.cax64_encoder.specs.Instruction.{can_encode_in, Adds, Leaves};
ghost use Rattle.cax64_machine_code.specs.Fields.{IsBytes};
ghost use Rattle.cax64_machine_code.specs.ReadLine.{LineReading, read_line};
ghost use Rattle.cax64_machine_code.specs.Reading.{read};
ghost use Rattle.cax64_machine_code.specs.Sequence.{Same};
ghost use Rattle.cax64_machine_code.specs.WorkedLine.{reg_and_rm};
ghost use Rattle.cax64_shortest.specs.LineParts.{line_parts};
ghost use Rattle.cax64_sink.specs.Room.{HasRoom};

use crate::laws::{len_is_least, line_len_is_least, whole_instruction_is_shortest};
use cax64_encoder::Instruction;
use cax64_machine_code::reading::{Place, Reading, RegView};
use cax64_machine_code::row::Row;
use cax64_sink::{CodeSink, SinkError};

/// What no string of bytes is shorter than: an immediate alone; a shift of `%al`, whose digit needs no REX byte, and of
/// `%sil`, which needs one; VEX with two bytes and with three.
pub fn least_lengths()
    ensures bare { (bytes : List ℕ) (reading : Reading) → IsBytes bytes → read bytes ≡ Some reading
        → Same reading (record { row = Row.andb_i; reg = None; vvvv = None; place = None; imm = Some (pos 170) }) → 2 ≤ length bytes }
    ensures digit { (bytes : List ℕ) (reading : Reading) → IsBytes bytes → read bytes ≡ Some reading
        → Same reading (record { row = Row.shlb_m1; reg = None; vvvv = None; place = Some (Place.Reg (RegView.Low 0)); imm = None }) → 2 ≤ length bytes }
    ensures sil { (bytes : List ℕ) (reading : Reading) → IsBytes bytes → read bytes ≡ Some reading
        → Same reading (record { row = Row.sarb_m1; reg = None; vvvv = None; place = Some (Place.Reg (RegView.Low 6)); imm = None }) → 3 ≤ length bytes }
    ensures two_bytes { (bytes : List ℕ) (reading : Reading) → IsBytes bytes → read bytes ≡ Some reading
        → Same reading (record { row = Row.vcvtpd2ps_a; reg = Some (RegView.Low 0); vvvv = None; place = Some (Place.Reg (RegView.Low 1)); imm = None }) → 4 ≤ length bytes }
    ensures three_bytes { (bytes : List ℕ) (reading : Reading) → IsBytes bytes → read bytes ≡ Some reading
        → Same reading (record { row = Row.mulxq_rvm; reg = Some (RegView.Low 1); vvvv = Some 2; place = Some (Place.Reg (RegView.Low 8)); imm = None }) → 5 ≤ length bytes }
{
    len_is_least();
}

/// The same by a line that no row has: `addq` of a register to a register, and of memory beside a base of number 13.
pub fn least_lengths_by_a_line()
    ensures register { (bytes : List ℕ) (reading : LineReading) → IsBytes bytes → read_line (reg_and_rm 0x03) bytes ≡ Some reading
        → line_parts reading ≡ record { row = reg_and_rm 0x03; reg = Some (RegView.Low 0); vvvv = None; place = Some (Place.Reg (RegView.Low 7)); imm = None } → 3 ≤ length bytes }
    ensures memory { (bytes : List ℕ) (reading : LineReading) → IsBytes bytes → read_line (reg_and_rm 0x03) bytes ≡ Some reading
        → line_parts reading ≡ record { row = reg_and_rm 0x03; reg = Some (RegView.Low 0); vvvv = None; place = Some (Place.Mem (Some 13) None (pos 0)); imm = None } → 4 ≤ length bytes }
{
    line_len_is_least();
}

/// A shift of `%al` is read with a byte 40 before it, which it doesn't need, and without.
#[tactic(auto, unfolding(cax64_machine_code::specs::Reading::read, cax64_machine_code::specs::Reading::find, cax64_machine_code::specs::Reading::row_at, cax64_machine_code::specs::Reading::operands_at, cax64_machine_code::specs::Rows::line_of, cax64_machine_code::specs::Rows::all_rows, cax64_machine_code::specs::Line::after, cax64_machine_code::specs::Prefix::prefix_at, cax64_machine_code::specs::Prefix::legacy_at, cax64_machine_code::specs::Prefix::rex_at, cax64_machine_code::specs::Prefix::vex_at, cax64_machine_code::specs::Tail::read_tail))]
pub fn lengths_of_a_shift()
    ensures three { read (0x40 ∷ 0xD0 ∷ 0xE0 ∷ []) ≡ Some (record { row = Row.shlb_m1; length = 3; tail = 1; reg = None; vvvv = None; place = Some (Place.Reg (RegView.Low 0)); imm = None }) }
    ensures two { read (0xD0 ∷ 0xE0 ∷ []) ≡ Some (record { row = Row.shlb_m1; length = 2; tail = 1; reg = None; vvvv = None; place = Some (Place.Reg (RegView.Low 0)); imm = None }) }
{}

/// Encodes an instruction that isn't a no-operation of four bytes or more. What it adds is no longer than any string of
/// bytes that is read as the instruction.
pub fn encode_shortest<I: Instruction, S: CodeSink>(inst: &I, sink: &mut S) -> Result<(), SinkError>
    requires encodable { IsTrue (can_encode_in (S.state sink.old) (I.meant inst.now)) }
    requires short { IfSome (I.meant inst.now (S.state sink.old).offsets).exact (λ very. length very ≤ 3) }
    ensures shortest { OnOk result ((bytes : List ℕ) (reading : Reading)
        → IsBytes bytes → read bytes ≡ Some reading → Same reading (I.meant inst.now (S.state sink.old).offsets).parts
        → length (S.state sink.new).bytes ≤ length (S.state sink.old).bytes + length bytes) }
    ensures adds { OnOk result (Adds (I.meant inst.now) (S.state sink.old) (S.state sink.new)) }
    ensures leaves { OnErr result (Leaves (I.meant inst.now) (S.state sink.old) (S.state sink.new)) }
    ensures enough { HasRoom (S.state sink.old).byte_room 13 → HasRoom (S.state sink.old).notice_room 1 → IsOk result }
{
    whole_instruction_is_shortest(inst);
    inst.encode(sink)
}
