//! Laws of the items here. The functions do nothing: their clauses are the laws.

ghost use Rattle.std.specs.Prelude.{◌≡◌, ◌≤◌, ◌↔◌, length, true};
ghost use Rattle.cax64_machine_code.specs.declared.row.Row.{Row};
ghost use Rattle.cax64_operand.specs.OperandList.{list_of};
ghost use Rattle.cax64_operand.specs.Shape.{HasShape};
ghost use Rattle.cax64_operand.specs.Signature.{HasSignature, signature_of};
ghost use Rattle.cax64_operand.specs.declared.immediate.ImmOperand.{ImmOperand};
ghost use Rattle.cax64_operand.specs.declared.kind.ImmediateKind.{ImmediateKind};
ghost use Rattle.cax64_operand.specs.declared.kind.OperandKind.{OperandKind};
ghost use Rattle.cax64_operand.specs.declared.nop.Nop.{Nop};
ghost use Rattle.cax64_operand.specs.declared.operand.Operands.{Operands};

use crate::immediate::ImmOperand;
use crate::kind::{ImmediateKind, OperandKind};
use crate::nop::Nop;
use cax64_machine_code::row::Row;
use cax64_register::Registers;

/// Operands of a row's signature have the row's shape, and are five at most, as every signature.
pub fn laws_of_signatures<R: Registers>()
    ensures shape { (row : Row) (operands : Operands R R.ReadGpr R.ReadWriteGpr R.WriteGpr R.ReadXmm R.ReadWriteXmm R.WriteXmm) → HasSignature row operands → HasShape row operands }
    ensures few { (row : Row) (operands : Operands R R.ReadGpr R.ReadWriteGpr R.WriteGpr R.ReadXmm R.ReadWriteXmm R.WriteXmm) → HasSignature row operands → length (list_of operands) ≤ 5 }
    ensures signature_is_few { (row : Row) → length (signature_of row) ≤ 5 }
{}

/// No-operations, immediates and kinds of operands compare equal where they are equal, and nowhere else.
pub fn laws_of_equality()
    ensures nops { (a b : Nop) → (⟦<Nop as PartialEq>⟧.eq a b ≡ true) ↔ (a ≡ b) }
    ensures immediates { (a b : ImmOperand) → (⟦<ImmOperand as PartialEq>⟧.eq a b ≡ true) ↔ (a ≡ b) }
    ensures kinds_of_immediates { (a b : ImmediateKind) → (⟦<ImmediateKind as PartialEq>⟧.eq a b ≡ true) ↔ (a ≡ b) }
    ensures kinds_of_operands { (a b : OperandKind) → (⟦<OperandKind as PartialEq>⟧.eq a b ≡ true) ↔ (a ≡ b) }
{}
