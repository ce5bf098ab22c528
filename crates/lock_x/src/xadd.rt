// Written by table/write.py from table/instructions.txt.
//! `lock xadd`. (Intel SDM, volume 2, `XADD`.)

ghost use Rattle.std.specs.Prelude.{◌≡◌};
ghost use Rattle.cax64_machine_code.specs.declared.row.Row.TheVariants as row;
ghost use Rattle.cax64_operand.specs.declared.operand.Operand.TheVariants.{ReadAmode, ReadWriteGpr};
ghost use Rattle.cax64_operand.specs.declared.operand.Operands.{Operands};
ghost use Rattle.cax64_operand.specs.declared.operand.Operands.TheVariants.{Two};
ghost use Rattle.cax64_register.specs.declared.gpr.Size.TheVariants.{Byte, Doubleword, Quadword, Word};

use cax64_address::amode::Amode;
use cax64_machine_code::row::Row;
use cax64_operand::{Operand, RegisterVisitor, RowAndOperands, Task, of_two};
use cax64_register::{Gpr, Registers, Size};
use std::marker::Model;

/// Exchange `r8` and `m8`; load sum into `m8`. Locked.
#[derive(Drop)]
pub struct lock_xaddb_mr<R: Registers> {
    pub m8: Amode<R::ReadGpr>,
    pub r8: Gpr<R::ReadWriteGpr>,
}

impl<R: Registers> Model for lock_xaddb_mr<R> {
    ghost Value = { Operands R R.ReadGpr R.ReadWriteGpr R.WriteGpr R.ReadXmm R.ReadWriteXmm R.WriteXmm };

    ghost view = { λ i. Two (ReadWriteGpr i.r8 Byte) (ReadAmode i.m8) };
}

impl<R: Registers> lock_xaddb_mr<R> {
    pub fn new(m8: Amode<R::ReadGpr>, r8: Gpr<R::ReadWriteGpr>) -> Self
        ensures { result ≡ Two (ReadWriteGpr r8 Byte) (ReadAmode m8) }
    {
        lock_xaddb_mr { m8, r8 }
    }
}

impl<R: Registers> RowAndOperands for lock_xaddb_mr<R> {
    type Family = R;

    ghost row_of = { λ _. row.lock_xaddb_mr };

    ghost operands_of = { λ i. i };

    #[tactic(auto, unfolding(cax64_operand::specs::Signature::signature_of))]
    #[inline(always)]
    fn hand_to<T: Task<R, X>, X>(&self, to: &mut X) -> T::Answer {
        T::take(
            of_two(
                Operand::ReadWriteGpr(*self.r8.as_ref(), Size::Byte),
                Operand::ReadAmode(self.m8),
            ),
            Row::lock_xaddb_mr,
            to,
        )
    }

    fn visit<V: RegisterVisitor<R>>(&mut self, visitor: &mut V) {
        visitor.read_write_gpr(self.r8.as_mut());
        visitor.read_amode(&mut self.m8);
    }
}

/// Exchange `r16` and `m16`; load sum into `m16`. Locked.
#[derive(Drop)]
pub struct lock_xaddw_mr<R: Registers> {
    pub m16: Amode<R::ReadGpr>,
    pub r16: Gpr<R::ReadWriteGpr>,
}

impl<R: Registers> Model for lock_xaddw_mr<R> {
    ghost Value = { Operands R R.ReadGpr R.ReadWriteGpr R.WriteGpr R.ReadXmm R.ReadWriteXmm R.WriteXmm };

    ghost view = { λ i. Two (ReadWriteGpr i.r16 Word) (ReadAmode i.m16) };
}

impl<R: Registers> lock_xaddw_mr<R> {
    pub fn new(m16: Amode<R::ReadGpr>, r16: Gpr<R::ReadWriteGpr>) -> Self
        ensures { result ≡ Two (ReadWriteGpr r16 Word) (ReadAmode m16) }
    {
        lock_xaddw_mr { m16, r16 }
    }
}

impl<R: Registers> RowAndOperands for lock_xaddw_mr<R> {
    type Family = R;

    ghost row_of = { λ _. row.lock_xaddw_mr };

    ghost operands_of = { λ i. i };

    #[tactic(auto, unfolding(cax64_operand::specs::Signature::signature_of))]
    #[inline(always)]
    fn hand_to<T: Task<R, X>, X>(&self, to: &mut X) -> T::Answer {
        T::take(
            of_two(
                Operand::ReadWriteGpr(*self.r16.as_ref(), Size::Word),
                Operand::ReadAmode(self.m16),
            ),
            Row::lock_xaddw_mr,
            to,
        )
    }

    fn visit<V: RegisterVisitor<R>>(&mut self, visitor: &mut V) {
        visitor.read_write_gpr(self.r16.as_mut());
        visitor.read_amode(&mut self.m16);
    }
}

/// Exchange `r32` and `m32`; load sum into `m32`. Locked.
#[derive(Drop)]
pub struct lock_xaddl_mr<R: Registers> {
    pub m32: Amode<R::ReadGpr>,
    pub r32: Gpr<R::ReadWriteGpr>,
}

impl<R: Registers> Model for lock_xaddl_mr<R> {
    ghost Value = { Operands R R.ReadGpr R.ReadWriteGpr R.WriteGpr R.ReadXmm R.ReadWriteXmm R.WriteXmm };

    ghost view = { λ i. Two (ReadWriteGpr i.r32 Doubleword) (ReadAmode i.m32) };
}

impl<R: Registers> lock_xaddl_mr<R> {
    pub fn new(m32: Amode<R::ReadGpr>, r32: Gpr<R::ReadWriteGpr>) -> Self
        ensures { result ≡ Two (ReadWriteGpr r32 Doubleword) (ReadAmode m32) }
    {
        lock_xaddl_mr { m32, r32 }
    }
}

impl<R: Registers> RowAndOperands for lock_xaddl_mr<R> {
    type Family = R;

    ghost row_of = { λ _. row.lock_xaddl_mr };

    ghost operands_of = { λ i. i };

    #[tactic(auto, unfolding(cax64_operand::specs::Signature::signature_of))]
    #[inline(always)]
    fn hand_to<T: Task<R, X>, X>(&self, to: &mut X) -> T::Answer {
        T::take(
            of_two(
                Operand::ReadWriteGpr(*self.r32.as_ref(), Size::Doubleword),
                Operand::ReadAmode(self.m32),
            ),
            Row::lock_xaddl_mr,
            to,
        )
    }

    fn visit<V: RegisterVisitor<R>>(&mut self, visitor: &mut V) {
        visitor.read_write_gpr(self.r32.as_mut());
        visitor.read_amode(&mut self.m32);
    }
}

/// Exchange `r64` and `m64`; load sum into `m64`. Locked.
#[derive(Drop)]
pub struct lock_xaddq_mr<R: Registers> {
    pub m64: Amode<R::ReadGpr>,
    pub r64: Gpr<R::ReadWriteGpr>,
}

impl<R: Registers> Model for lock_xaddq_mr<R> {
    ghost Value = { Operands R R.ReadGpr R.ReadWriteGpr R.WriteGpr R.ReadXmm R.ReadWriteXmm R.WriteXmm };

    ghost view = { λ i. Two (ReadWriteGpr i.r64 Quadword) (ReadAmode i.m64) };
}

impl<R: Registers> lock_xaddq_mr<R> {
    pub fn new(m64: Amode<R::ReadGpr>, r64: Gpr<R::ReadWriteGpr>) -> Self
        ensures { result ≡ Two (ReadWriteGpr r64 Quadword) (ReadAmode m64) }
    {
        lock_xaddq_mr { m64, r64 }
    }
}

impl<R: Registers> RowAndOperands for lock_xaddq_mr<R> {
    type Family = R;

    ghost row_of = { λ _. row.lock_xaddq_mr };

    ghost operands_of = { λ i. i };

    #[tactic(auto, unfolding(cax64_operand::specs::Signature::signature_of))]
    #[inline(always)]
    fn hand_to<T: Task<R, X>, X>(&self, to: &mut X) -> T::Answer {
        T::take(
            of_two(
                Operand::ReadWriteGpr(*self.r64.as_ref(), Size::Quadword),
                Operand::ReadAmode(self.m64),
            ),
            Row::lock_xaddq_mr,
            to,
        )
    }

    fn visit<V: RegisterVisitor<R>>(&mut self, visitor: &mut V) {
        visitor.read_write_gpr(self.r64.as_mut());
        visitor.read_amode(&mut self.m64);
    }
}
