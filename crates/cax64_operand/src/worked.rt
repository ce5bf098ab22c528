//! Worked signatures: operands that have that of a row, and others that haven't.

ghost use Rattle.std.specs.Prelude.{ℕ, None, pos, negsuc};
ghost use Rattle.cax64_operand.specs.Worked.{Has};

use crate::{Immediate, Nop, Operand, Operands};
use cax64_address::amode::Amode;
use cax64_address::operand::GprMem;
use cax64_immediate::Extension;
use cax64_machine_code::row::Row;
use cax64_register::Size;

/// An addition of a byte to memory, which extends its sign. An unsigned byte isn't its immediate, nor what no signed byte
/// holds.
#[tactic(auto, unfolding(crate::specs::Signature::signature_of))]
pub fn additions()
    ensures extended { (m64 : Amode ℕ) → Has Row.lock_addq_mi_sxb (Operands.Two (Operand.ReadAmode m64) (Operand.Imm (Immediate.Simm8 (negsuc 127) Extension.SignExtendQuad))) }
    ensures unsigned { (m64 : Amode ℕ) → Has Row.lock_addq_mi_sxb (Operands.Two (Operand.ReadAmode m64) (Operand.Imm (Immediate.Imm8 127))) → ⊥ }
    ensures out_of_range { (m64 : Amode ℕ) → Has Row.lock_addq_mi_sxb (Operands.Two (Operand.ReadAmode m64) (Operand.Imm (Immediate.Simm8 (pos 128) Extension.SignExtendQuad))) → ⊥ }
{}

/// A multiplication by `edx` with two destinations; not with one of them, nor by `eax`.
#[tactic(auto, unfolding(crate::specs::Signature::signature_of))]
pub fn multiplications()
    ensures two { (high low edx : ℕ) (rm32 : GprMem ℕ ℕ) → Has Row.mulxl_rvm (Operands.Three (Operand.WriteTwoGprs high low Size.Doubleword) (Operand.ReadGprMem rm32 Size.Doubleword) (Operand.FixedReadGpr edx 2 None)) }
    ensures one { (high edx : ℕ) (rm32 : GprMem ℕ ℕ) → Has Row.mulxl_rvm (Operands.Three (Operand.WriteGpr high Size.Doubleword) (Operand.ReadGprMem rm32 Size.Doubleword) (Operand.FixedReadGpr edx 2 None)) → ⊥ }
    ensures other_factor { (high low eax : ℕ) (rm32 : GprMem ℕ ℕ) → Has Row.mulxl_rvm (Operands.Three (Operand.WriteTwoGprs high low Size.Doubleword) (Operand.ReadGprMem rm32 Size.Doubleword) (Operand.FixedReadGpr eax 0 None)) → ⊥ }
{}

/// A no-operation of seven bytes, which is of the row without the prefix 66 alone.
pub fn no_operations()
    ensures own { Has Row.nopl_rm (Operands.Nop Nop.Seven) }
    ensures other { Has Row.nopw_rm (Operands.Nop Nop.Seven) → ⊥ }
{}
