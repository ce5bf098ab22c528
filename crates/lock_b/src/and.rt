// Written by table/write.py from table/instructions.txt.
//! `lock and`. (Intel SDM, volume 2, `AND`.)

ghost use Rattle.std.specs.Prelude.{◌≡◌};
ghost use Rattle.cax64_machine_code.specs.declared.row.Row.TheVariants as row;
ghost use Rattle.cax64_immediate.specs.declared.extension.Extension.TheVariants.{SignExtendLong, SignExtendQuad};
ghost use Rattle.cax64_operand.specs.declared.immediate.Immediate.TheVariants as immediate;
ghost use Rattle.cax64_operand.specs.declared.operand.Operand.TheVariants.{Imm, ReadAmode, ReadGpr};
ghost use Rattle.cax64_operand.specs.declared.operand.Operands.{Operands};
ghost use Rattle.cax64_operand.specs.declared.operand.Operands.TheVariants.{Two};
ghost use Rattle.cax64_register.specs.declared.gpr.Size.TheVariants.{Byte, Doubleword, Quadword, Word};

use cax64_address::amode::Amode;
use cax64_immediate::{Extension, Imm8, Imm16, Imm32, Simm8, Simm32};
use cax64_machine_code::row::Row;
use cax64_operand::{Immediate, Operand, RegisterVisitor, RowAndOperands, Task, of_two};
use cax64_register::{Gpr, Registers, Size};
use std::marker::Model;

/// `m8` AND `imm8`. Locked.
#[derive(Drop)]
pub struct lock_andb_mi<R: Registers> {
    pub m8: Amode<R::ReadGpr>,
    pub imm8: Imm8,
}

impl<R: Registers> Model for lock_andb_mi<R> {
    ghost Value = { Operands R R.ReadGpr R.ReadWriteGpr R.WriteGpr R.ReadXmm R.ReadWriteXmm R.WriteXmm };

    ghost view = { λ i. Two (ReadAmode i.m8) (Imm (immediate.Imm8 i.imm8)) };
}

impl<R: Registers> lock_andb_mi<R> {
    pub fn new(m8: Amode<R::ReadGpr>, imm8: Imm8) -> Self
        ensures { result ≡ Two (ReadAmode m8) (Imm (immediate.Imm8 imm8)) }
    {
        lock_andb_mi { m8, imm8 }
    }
}

impl<R: Registers> RowAndOperands for lock_andb_mi<R> {
    type Family = R;

    ghost row_of = { λ _. row.lock_andb_mi };

    ghost operands_of = { λ i. i };

    #[tactic(auto, unfolding(cax64_operand::specs::Signature::signature_of))]
    #[inline(always)]
    fn hand_to<T: Task<R, X>, X>(&self, to: &mut X) -> T::Answer {
        T::take(
            of_two(
                Operand::ReadAmode(self.m8),
                Operand::Imm(Immediate::Imm8(self.imm8.value())),
            ),
            Row::lock_andb_mi,
            to,
        )
    }

    fn visit<V: RegisterVisitor<R>>(&mut self, visitor: &mut V) {
        visitor.read_amode(&mut self.m8);
    }
}

/// `m16` AND `imm16`. Locked.
#[derive(Drop)]
pub struct lock_andw_mi<R: Registers> {
    pub m16: Amode<R::ReadGpr>,
    pub imm16: Imm16,
}

impl<R: Registers> Model for lock_andw_mi<R> {
    ghost Value = { Operands R R.ReadGpr R.ReadWriteGpr R.WriteGpr R.ReadXmm R.ReadWriteXmm R.WriteXmm };

    ghost view = { λ i. Two (ReadAmode i.m16) (Imm (immediate.Imm16 i.imm16)) };
}

impl<R: Registers> lock_andw_mi<R> {
    pub fn new(m16: Amode<R::ReadGpr>, imm16: Imm16) -> Self
        ensures { result ≡ Two (ReadAmode m16) (Imm (immediate.Imm16 imm16)) }
    {
        lock_andw_mi { m16, imm16 }
    }
}

impl<R: Registers> RowAndOperands for lock_andw_mi<R> {
    type Family = R;

    ghost row_of = { λ _. row.lock_andw_mi };

    ghost operands_of = { λ i. i };

    #[tactic(auto, unfolding(cax64_operand::specs::Signature::signature_of))]
    #[inline(always)]
    fn hand_to<T: Task<R, X>, X>(&self, to: &mut X) -> T::Answer {
        T::take(
            of_two(
                Operand::ReadAmode(self.m16),
                Operand::Imm(Immediate::Imm16(self.imm16.value())),
            ),
            Row::lock_andw_mi,
            to,
        )
    }

    fn visit<V: RegisterVisitor<R>>(&mut self, visitor: &mut V) {
        visitor.read_amode(&mut self.m16);
    }
}

/// `m32` AND `imm32`. Locked.
#[derive(Drop)]
pub struct lock_andl_mi<R: Registers> {
    pub m32: Amode<R::ReadGpr>,
    pub imm32: Imm32,
}

impl<R: Registers> Model for lock_andl_mi<R> {
    ghost Value = { Operands R R.ReadGpr R.ReadWriteGpr R.WriteGpr R.ReadXmm R.ReadWriteXmm R.WriteXmm };

    ghost view = { λ i. Two (ReadAmode i.m32) (Imm (immediate.Imm32 i.imm32)) };
}

impl<R: Registers> lock_andl_mi<R> {
    pub fn new(m32: Amode<R::ReadGpr>, imm32: Imm32) -> Self
        ensures { result ≡ Two (ReadAmode m32) (Imm (immediate.Imm32 imm32)) }
    {
        lock_andl_mi { m32, imm32 }
    }
}

impl<R: Registers> RowAndOperands for lock_andl_mi<R> {
    type Family = R;

    ghost row_of = { λ _. row.lock_andl_mi };

    ghost operands_of = { λ i. i };

    #[tactic(auto, unfolding(cax64_operand::specs::Signature::signature_of))]
    #[inline(always)]
    fn hand_to<T: Task<R, X>, X>(&self, to: &mut X) -> T::Answer {
        T::take(
            of_two(
                Operand::ReadAmode(self.m32),
                Operand::Imm(Immediate::Imm32(self.imm32.value())),
            ),
            Row::lock_andl_mi,
            to,
        )
    }

    fn visit<V: RegisterVisitor<R>>(&mut self, visitor: &mut V) {
        visitor.read_amode(&mut self.m32);
    }
}

/// `m64` AND `imm32` sign-extended to 64 bits. Locked.
#[derive(Drop)]
pub struct lock_andq_mi_sxl<R: Registers> {
    pub m64: Amode<R::ReadGpr>,
    pub imm32: Simm32,
}

impl<R: Registers> Model for lock_andq_mi_sxl<R> {
    ghost Value = { Operands R R.ReadGpr R.ReadWriteGpr R.WriteGpr R.ReadXmm R.ReadWriteXmm R.WriteXmm };

    ghost view = { λ i. Two (ReadAmode i.m64) (Imm (immediate.Simm32 i.imm32 SignExtendQuad)) };
}

impl<R: Registers> lock_andq_mi_sxl<R> {
    pub fn new(m64: Amode<R::ReadGpr>, imm32: Simm32) -> Self
        ensures { result ≡ Two (ReadAmode m64) (Imm (immediate.Simm32 imm32 SignExtendQuad)) }
    {
        lock_andq_mi_sxl { m64, imm32 }
    }
}

impl<R: Registers> RowAndOperands for lock_andq_mi_sxl<R> {
    type Family = R;

    ghost row_of = { λ _. row.lock_andq_mi_sxl };

    ghost operands_of = { λ i. i };

    #[tactic(auto, unfolding(cax64_operand::specs::Signature::signature_of))]
    #[inline(always)]
    fn hand_to<T: Task<R, X>, X>(&self, to: &mut X) -> T::Answer {
        T::take(
            of_two(
                Operand::ReadAmode(self.m64),
                Operand::Imm(Immediate::Simm32(self.imm32.value(), Extension::SignExtendQuad)),
            ),
            Row::lock_andq_mi_sxl,
            to,
        )
    }

    fn visit<V: RegisterVisitor<R>>(&mut self, visitor: &mut V) {
        visitor.read_amode(&mut self.m64);
    }
}

/// `m32` AND sign-extended `imm8`. Locked.
#[derive(Drop)]
pub struct lock_andl_mi_sxb<R: Registers> {
    pub m32: Amode<R::ReadGpr>,
    pub imm8: Simm8,
}

impl<R: Registers> Model for lock_andl_mi_sxb<R> {
    ghost Value = { Operands R R.ReadGpr R.ReadWriteGpr R.WriteGpr R.ReadXmm R.ReadWriteXmm R.WriteXmm };

    ghost view = { λ i. Two (ReadAmode i.m32) (Imm (immediate.Simm8 i.imm8 SignExtendLong)) };
}

impl<R: Registers> lock_andl_mi_sxb<R> {
    pub fn new(m32: Amode<R::ReadGpr>, imm8: Simm8) -> Self
        ensures { result ≡ Two (ReadAmode m32) (Imm (immediate.Simm8 imm8 SignExtendLong)) }
    {
        lock_andl_mi_sxb { m32, imm8 }
    }
}

impl<R: Registers> RowAndOperands for lock_andl_mi_sxb<R> {
    type Family = R;

    ghost row_of = { λ _. row.lock_andl_mi_sxb };

    ghost operands_of = { λ i. i };

    #[tactic(auto, unfolding(cax64_operand::specs::Signature::signature_of))]
    #[inline(always)]
    fn hand_to<T: Task<R, X>, X>(&self, to: &mut X) -> T::Answer {
        T::take(
            of_two(
                Operand::ReadAmode(self.m32),
                Operand::Imm(Immediate::Simm8(self.imm8.value(), Extension::SignExtendLong)),
            ),
            Row::lock_andl_mi_sxb,
            to,
        )
    }

    fn visit<V: RegisterVisitor<R>>(&mut self, visitor: &mut V) {
        visitor.read_amode(&mut self.m32);
    }
}

/// `m64` AND sign-extended `imm8`. Locked.
#[derive(Drop)]
pub struct lock_andq_mi_sxb<R: Registers> {
    pub m64: Amode<R::ReadGpr>,
    pub imm8: Simm8,
}

impl<R: Registers> Model for lock_andq_mi_sxb<R> {
    ghost Value = { Operands R R.ReadGpr R.ReadWriteGpr R.WriteGpr R.ReadXmm R.ReadWriteXmm R.WriteXmm };

    ghost view = { λ i. Two (ReadAmode i.m64) (Imm (immediate.Simm8 i.imm8 SignExtendQuad)) };
}

impl<R: Registers> lock_andq_mi_sxb<R> {
    pub fn new(m64: Amode<R::ReadGpr>, imm8: Simm8) -> Self
        ensures { result ≡ Two (ReadAmode m64) (Imm (immediate.Simm8 imm8 SignExtendQuad)) }
    {
        lock_andq_mi_sxb { m64, imm8 }
    }
}

impl<R: Registers> RowAndOperands for lock_andq_mi_sxb<R> {
    type Family = R;

    ghost row_of = { λ _. row.lock_andq_mi_sxb };

    ghost operands_of = { λ i. i };

    #[tactic(auto, unfolding(cax64_operand::specs::Signature::signature_of))]
    #[inline(always)]
    fn hand_to<T: Task<R, X>, X>(&self, to: &mut X) -> T::Answer {
        T::take(
            of_two(
                Operand::ReadAmode(self.m64),
                Operand::Imm(Immediate::Simm8(self.imm8.value(), Extension::SignExtendQuad)),
            ),
            Row::lock_andq_mi_sxb,
            to,
        )
    }

    fn visit<V: RegisterVisitor<R>>(&mut self, visitor: &mut V) {
        visitor.read_amode(&mut self.m64);
    }
}

/// `m8` AND `r8`. Locked.
#[derive(Drop)]
pub struct lock_andb_mr<R: Registers> {
    pub m8: Amode<R::ReadGpr>,
    pub r8: Gpr<R::ReadGpr>,
}

impl<R: Registers> Model for lock_andb_mr<R> {
    ghost Value = { Operands R R.ReadGpr R.ReadWriteGpr R.WriteGpr R.ReadXmm R.ReadWriteXmm R.WriteXmm };

    ghost view = { λ i. Two (ReadAmode i.m8) (ReadGpr i.r8 Byte) };
}

impl<R: Registers> lock_andb_mr<R> {
    pub fn new(m8: Amode<R::ReadGpr>, r8: Gpr<R::ReadGpr>) -> Self
        ensures { result ≡ Two (ReadAmode m8) (ReadGpr r8 Byte) }
    {
        lock_andb_mr { m8, r8 }
    }
}

impl<R: Registers> RowAndOperands for lock_andb_mr<R> {
    type Family = R;

    ghost row_of = { λ _. row.lock_andb_mr };

    ghost operands_of = { λ i. i };

    #[tactic(auto, unfolding(cax64_operand::specs::Signature::signature_of))]
    #[inline(always)]
    fn hand_to<T: Task<R, X>, X>(&self, to: &mut X) -> T::Answer {
        T::take(
            of_two(
                Operand::ReadAmode(self.m8),
                Operand::ReadGpr(*self.r8.as_ref(), Size::Byte),
            ),
            Row::lock_andb_mr,
            to,
        )
    }

    fn visit<V: RegisterVisitor<R>>(&mut self, visitor: &mut V) {
        visitor.read_amode(&mut self.m8);
        visitor.read_gpr(self.r8.as_mut());
    }
}

/// `m16` AND `r16`. Locked.
#[derive(Drop)]
pub struct lock_andw_mr<R: Registers> {
    pub m16: Amode<R::ReadGpr>,
    pub r16: Gpr<R::ReadGpr>,
}

impl<R: Registers> Model for lock_andw_mr<R> {
    ghost Value = { Operands R R.ReadGpr R.ReadWriteGpr R.WriteGpr R.ReadXmm R.ReadWriteXmm R.WriteXmm };

    ghost view = { λ i. Two (ReadAmode i.m16) (ReadGpr i.r16 Word) };
}

impl<R: Registers> lock_andw_mr<R> {
    pub fn new(m16: Amode<R::ReadGpr>, r16: Gpr<R::ReadGpr>) -> Self
        ensures { result ≡ Two (ReadAmode m16) (ReadGpr r16 Word) }
    {
        lock_andw_mr { m16, r16 }
    }
}

impl<R: Registers> RowAndOperands for lock_andw_mr<R> {
    type Family = R;

    ghost row_of = { λ _. row.lock_andw_mr };

    ghost operands_of = { λ i. i };

    #[tactic(auto, unfolding(cax64_operand::specs::Signature::signature_of))]
    #[inline(always)]
    fn hand_to<T: Task<R, X>, X>(&self, to: &mut X) -> T::Answer {
        T::take(
            of_two(
                Operand::ReadAmode(self.m16),
                Operand::ReadGpr(*self.r16.as_ref(), Size::Word),
            ),
            Row::lock_andw_mr,
            to,
        )
    }

    fn visit<V: RegisterVisitor<R>>(&mut self, visitor: &mut V) {
        visitor.read_amode(&mut self.m16);
        visitor.read_gpr(self.r16.as_mut());
    }
}

/// `m32` AND `r32`. Locked.
#[derive(Drop)]
pub struct lock_andl_mr<R: Registers> {
    pub m32: Amode<R::ReadGpr>,
    pub r32: Gpr<R::ReadGpr>,
}

impl<R: Registers> Model for lock_andl_mr<R> {
    ghost Value = { Operands R R.ReadGpr R.ReadWriteGpr R.WriteGpr R.ReadXmm R.ReadWriteXmm R.WriteXmm };

    ghost view = { λ i. Two (ReadAmode i.m32) (ReadGpr i.r32 Doubleword) };
}

impl<R: Registers> lock_andl_mr<R> {
    pub fn new(m32: Amode<R::ReadGpr>, r32: Gpr<R::ReadGpr>) -> Self
        ensures { result ≡ Two (ReadAmode m32) (ReadGpr r32 Doubleword) }
    {
        lock_andl_mr { m32, r32 }
    }
}

impl<R: Registers> RowAndOperands for lock_andl_mr<R> {
    type Family = R;

    ghost row_of = { λ _. row.lock_andl_mr };

    ghost operands_of = { λ i. i };

    #[tactic(auto, unfolding(cax64_operand::specs::Signature::signature_of))]
    #[inline(always)]
    fn hand_to<T: Task<R, X>, X>(&self, to: &mut X) -> T::Answer {
        T::take(
            of_two(
                Operand::ReadAmode(self.m32),
                Operand::ReadGpr(*self.r32.as_ref(), Size::Doubleword),
            ),
            Row::lock_andl_mr,
            to,
        )
    }

    fn visit<V: RegisterVisitor<R>>(&mut self, visitor: &mut V) {
        visitor.read_amode(&mut self.m32);
        visitor.read_gpr(self.r32.as_mut());
    }
}

/// `m64` AND `r64`. Locked.
#[derive(Drop)]
pub struct lock_andq_mr<R: Registers> {
    pub m64: Amode<R::ReadGpr>,
    pub r64: Gpr<R::ReadGpr>,
}

impl<R: Registers> Model for lock_andq_mr<R> {
    ghost Value = { Operands R R.ReadGpr R.ReadWriteGpr R.WriteGpr R.ReadXmm R.ReadWriteXmm R.WriteXmm };

    ghost view = { λ i. Two (ReadAmode i.m64) (ReadGpr i.r64 Quadword) };
}

impl<R: Registers> lock_andq_mr<R> {
    pub fn new(m64: Amode<R::ReadGpr>, r64: Gpr<R::ReadGpr>) -> Self
        ensures { result ≡ Two (ReadAmode m64) (ReadGpr r64 Quadword) }
    {
        lock_andq_mr { m64, r64 }
    }
}

impl<R: Registers> RowAndOperands for lock_andq_mr<R> {
    type Family = R;

    ghost row_of = { λ _. row.lock_andq_mr };

    ghost operands_of = { λ i. i };

    #[tactic(auto, unfolding(cax64_operand::specs::Signature::signature_of))]
    #[inline(always)]
    fn hand_to<T: Task<R, X>, X>(&self, to: &mut X) -> T::Answer {
        T::take(
            of_two(
                Operand::ReadAmode(self.m64),
                Operand::ReadGpr(*self.r64.as_ref(), Size::Quadword),
            ),
            Row::lock_andq_mr,
            to,
        )
    }

    fn visit<V: RegisterVisitor<R>>(&mut self, visitor: &mut V) {
        visitor.read_amode(&mut self.m64);
        visitor.read_gpr(self.r64.as_mut());
    }
}
