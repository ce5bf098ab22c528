//! Worked readings, of whose operands there is an instruction of the core and of whose there is none.

ghost use Rattle.std.specs.Prelude.{◌≡◌, true, false, None, Some, pos, negsuc};
ghost use Rattle.x64_lines.specs.declared.op.Op.{Op};
ghost use Rattle.x64_core.specs.OfReading.{operands_given};

use cax64_machine_code::reading::{Place, RegView};

/// Of a register and memory, whatever the line is: a byte of `%sil` and of `%dh`; memory relative to the end, and without a base;
/// an index, the stack pointer's number as one, and a factor that there isn't.
pub fn operands()
    ensures low { (op : Op) → operands_given (record { op = op; length = 4; tail = 1; reg = Some (RegView.Low 6); vvvv = None; place = Some (Place.Mem (Some 0) None (pos 0)); imm = None }) ≡ true }
    ensures high { (op : Op) → operands_given (record { op = op; length = 3; tail = 1; reg = Some (RegView.High 2); vvvv = None; place = Some (Place.Mem (Some 0) None (pos 0)); imm = None }) ≡ false }
    ensures relative { (op : Op) → operands_given (record { op = op; length = 7; tail = 5; reg = Some (RegView.Low 0); vvvv = None; place = Some (Place.Rip (pos 0)); imm = None }) ≡ false }
    ensures no_base { (op : Op) → operands_given (record { op = op; length = 8; tail = 6; reg = Some (RegView.Low 0); vvvv = None; place = Some (Place.Mem None None (pos 0)); imm = None }) ≡ false }
    ensures indexed { (op : Op) → operands_given (record { op = op; length = 6; tail = 3; reg = Some (RegView.Low 8); vvvv = None; place = Some (Place.Mem (Some 13) (Some (9, 8)) (negsuc 0)); imm = None }) ≡ true }
    ensures index_four { (op : Op) → operands_given (record { op = op; length = 6; tail = 3; reg = Some (RegView.Low 8); vvvv = None; place = Some (Place.Mem (Some 13) (Some (4, 8)) (negsuc 0)); imm = None }) ≡ false }
    ensures factor_three { (op : Op) → operands_given (record { op = op; length = 6; tail = 3; reg = Some (RegView.Low 8); vvvv = None; place = Some (Place.Mem (Some 13) (Some (9, 3)) (negsuc 0)); imm = None }) ≡ false }
{}
