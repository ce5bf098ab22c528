//! Renaming of registers.
#![tactic(auto)]

ghost use Rattle.std.specs.Prelude.{◌≡◌, ℕ, ℤ, Option};
ghost use Rattle.cax64_encoder.specs.Meant.{meant_of};
ghost use Rattle.cax64_renaming.specs.Renamed.{Renaming, Renames, renamed_operands};

use cax64_encoder::Instruction;
use cax64_operand::{RegisterFamily, RegisterVisitor};
use cax64_register::Registers;

/// Visits an instruction. Where what the visitor gives for a register depends on the call and on that register alone,
/// these registers stand in the place of the old ones, and all else is as before: so that is what its bytes read as.
pub fn rename<I: Instruction, V: RegisterVisitor<I::Family>>(instruction: &mut I, visitor: &mut V)
    ensures renamed { (n : Renaming I.Family.ReadGpr I.Family.ReadWriteGpr I.Family.WriteGpr I.Family.ReadXmm I.Family.ReadWriteXmm I.Family.WriteXmm) → Renames V.steps n → (offsets : ℕ → Option ℤ)
        → I.meant instruction.new offsets ≡ meant_of ⟦<I::Family as RegisterFamily>⟧.family (I.row_of instruction.old) (renamed_operands n (I.operands_of instruction.old)) offsets }
    ensures row { I.row_of instruction.new ≡ I.row_of instruction.old }
{
    instruction.visit(visitor);
}
