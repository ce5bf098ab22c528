// Written by table/write.py from table/instructions.txt.
//! `lock cmpxchg`. (Intel SDM, volume 2, `CMPXCHG` and `CMPXCHG8B/CMPXCHG16B`.)

ghost use Rattle.std.specs.Prelude.{◌≡◌, None};
ghost use Rattle.cax64_machine_code.specs.declared.row.Row.TheVariants as row;
ghost use Rattle.cax64_operand.specs.declared.operand.Operand.TheVariants.{FixedReadGpr, FixedReadWriteGpr, ReadAmode, ReadGpr};
ghost use Rattle.cax64_operand.specs.declared.operand.Operands.{Operands};
ghost use Rattle.cax64_operand.specs.declared.operand.Operands.TheVariants.{Five, Three};
ghost use Rattle.cax64_register.specs.declared.gpr.Size.TheVariants.{Byte, Doubleword, Quadword, Word};

use cax64_address::amode::Amode;
use cax64_machine_code::row::Row;
use cax64_operand::{Operand, RegisterVisitor, RowAndOperands, Task, of_five, of_three};
use cax64_register::{Fixed, Gpr, Registers, Size};
use std::marker::Model;

/// Compare `al` with `m8`. If equal, ZF is set and `r8` is loaded into `m8`. Else, clear ZF and load `m8` into `al`.
/// Locked.
#[derive(Drop)]
pub struct lock_cmpxchgb_mr<R: Registers> {
    pub m8: Amode<R::ReadGpr>,
    pub r8: Gpr<R::ReadGpr>,
    pub al: Fixed<R::ReadWriteGpr, 0>,
}

impl<R: Registers> Model for lock_cmpxchgb_mr<R> {
    ghost Value = { Operands R R.ReadGpr R.ReadWriteGpr R.WriteGpr R.ReadXmm R.ReadWriteXmm R.WriteXmm };

    ghost view = { λ i. Three (ReadAmode i.m8) (ReadGpr i.r8 Byte) (FixedReadWriteGpr i.al.0 0 None) };
}

impl<R: Registers> lock_cmpxchgb_mr<R> {
    pub fn new(m8: Amode<R::ReadGpr>, r8: Gpr<R::ReadGpr>, al: Fixed<R::ReadWriteGpr, 0>) -> Self
        ensures { result ≡ Three (ReadAmode m8) (ReadGpr r8 Byte) (FixedReadWriteGpr al.0 0 None) }
    {
        lock_cmpxchgb_mr { m8, r8, al }
    }
}

impl<R: Registers> RowAndOperands for lock_cmpxchgb_mr<R> {
    type Family = R;

    ghost row_of = { λ _. row.lock_cmpxchgb_mr };

    ghost operands_of = { λ i. i };

    #[tactic(auto, unfolding(cax64_operand::specs::Signature::signature_of))]
    #[inline(always)]
    fn hand_to<T: Task<R, X>, X>(&self, to: &mut X) -> T::Answer {
        T::take(
            of_three(
                Operand::ReadAmode(self.m8),
                Operand::ReadGpr(*self.r8.as_ref(), Size::Byte),
                Operand::FixedReadWriteGpr(self.al.0, 0, None),
            ),
            Row::lock_cmpxchgb_mr,
            to,
        )
    }

    fn visit<V: RegisterVisitor<R>>(&mut self, visitor: &mut V) {
        visitor.read_amode(&mut self.m8);
        visitor.read_gpr(self.r8.as_mut());
        visitor.fixed_read_write_gpr(&mut self.al.0, 0);
    }
}

/// Compare `ax` with `m16`. If equal, ZF is set and `r16` is loaded into `m16`. Else, clear ZF and load `m16` into
/// `ax`. Locked.
#[derive(Drop)]
pub struct lock_cmpxchgw_mr<R: Registers> {
    pub m16: Amode<R::ReadGpr>,
    pub r16: Gpr<R::ReadGpr>,
    pub ax: Fixed<R::ReadWriteGpr, 0>,
}

impl<R: Registers> Model for lock_cmpxchgw_mr<R> {
    ghost Value = { Operands R R.ReadGpr R.ReadWriteGpr R.WriteGpr R.ReadXmm R.ReadWriteXmm R.WriteXmm };

    ghost view = { λ i. Three (ReadAmode i.m16) (ReadGpr i.r16 Word) (FixedReadWriteGpr i.ax.0 0 None) };
}

impl<R: Registers> lock_cmpxchgw_mr<R> {
    pub fn new(m16: Amode<R::ReadGpr>, r16: Gpr<R::ReadGpr>, ax: Fixed<R::ReadWriteGpr, 0>) -> Self
        ensures { result ≡ Three (ReadAmode m16) (ReadGpr r16 Word) (FixedReadWriteGpr ax.0 0 None) }
    {
        lock_cmpxchgw_mr { m16, r16, ax }
    }
}

impl<R: Registers> RowAndOperands for lock_cmpxchgw_mr<R> {
    type Family = R;

    ghost row_of = { λ _. row.lock_cmpxchgw_mr };

    ghost operands_of = { λ i. i };

    #[tactic(auto, unfolding(cax64_operand::specs::Signature::signature_of))]
    #[inline(always)]
    fn hand_to<T: Task<R, X>, X>(&self, to: &mut X) -> T::Answer {
        T::take(
            of_three(
                Operand::ReadAmode(self.m16),
                Operand::ReadGpr(*self.r16.as_ref(), Size::Word),
                Operand::FixedReadWriteGpr(self.ax.0, 0, None),
            ),
            Row::lock_cmpxchgw_mr,
            to,
        )
    }

    fn visit<V: RegisterVisitor<R>>(&mut self, visitor: &mut V) {
        visitor.read_amode(&mut self.m16);
        visitor.read_gpr(self.r16.as_mut());
        visitor.fixed_read_write_gpr(&mut self.ax.0, 0);
    }
}

/// Compare `eax` with `m32`. If equal, ZF is set and `r32` is loaded into `m32`. Else, clear ZF and load `m32` into
/// `eax`. Locked.
#[derive(Drop)]
pub struct lock_cmpxchgl_mr<R: Registers> {
    pub m32: Amode<R::ReadGpr>,
    pub r32: Gpr<R::ReadGpr>,
    pub eax: Fixed<R::ReadWriteGpr, 0>,
}

impl<R: Registers> Model for lock_cmpxchgl_mr<R> {
    ghost Value = { Operands R R.ReadGpr R.ReadWriteGpr R.WriteGpr R.ReadXmm R.ReadWriteXmm R.WriteXmm };

    ghost view = { λ i. Three (ReadAmode i.m32) (ReadGpr i.r32 Doubleword) (FixedReadWriteGpr i.eax.0 0 None) };
}

impl<R: Registers> lock_cmpxchgl_mr<R> {
    pub fn new(m32: Amode<R::ReadGpr>, r32: Gpr<R::ReadGpr>, eax: Fixed<R::ReadWriteGpr, 0>) -> Self
        ensures { result ≡ Three (ReadAmode m32) (ReadGpr r32 Doubleword) (FixedReadWriteGpr eax.0 0 None) }
    {
        lock_cmpxchgl_mr { m32, r32, eax }
    }
}

impl<R: Registers> RowAndOperands for lock_cmpxchgl_mr<R> {
    type Family = R;

    ghost row_of = { λ _. row.lock_cmpxchgl_mr };

    ghost operands_of = { λ i. i };

    #[tactic(auto, unfolding(cax64_operand::specs::Signature::signature_of))]
    #[inline(always)]
    fn hand_to<T: Task<R, X>, X>(&self, to: &mut X) -> T::Answer {
        T::take(
            of_three(
                Operand::ReadAmode(self.m32),
                Operand::ReadGpr(*self.r32.as_ref(), Size::Doubleword),
                Operand::FixedReadWriteGpr(self.eax.0, 0, None),
            ),
            Row::lock_cmpxchgl_mr,
            to,
        )
    }

    fn visit<V: RegisterVisitor<R>>(&mut self, visitor: &mut V) {
        visitor.read_amode(&mut self.m32);
        visitor.read_gpr(self.r32.as_mut());
        visitor.fixed_read_write_gpr(&mut self.eax.0, 0);
    }
}

/// Compare `rax` with `m64`. If equal, ZF is set and `r64` is loaded into `m64`. Else, clear ZF and load `m64` into
/// `rax`. Locked.
#[derive(Drop)]
pub struct lock_cmpxchgq_mr<R: Registers> {
    pub m64: Amode<R::ReadGpr>,
    pub r64: Gpr<R::ReadGpr>,
    pub rax: Fixed<R::ReadWriteGpr, 0>,
}

impl<R: Registers> Model for lock_cmpxchgq_mr<R> {
    ghost Value = { Operands R R.ReadGpr R.ReadWriteGpr R.WriteGpr R.ReadXmm R.ReadWriteXmm R.WriteXmm };

    ghost view = { λ i. Three (ReadAmode i.m64) (ReadGpr i.r64 Quadword) (FixedReadWriteGpr i.rax.0 0 None) };
}

impl<R: Registers> lock_cmpxchgq_mr<R> {
    pub fn new(m64: Amode<R::ReadGpr>, r64: Gpr<R::ReadGpr>, rax: Fixed<R::ReadWriteGpr, 0>) -> Self
        ensures { result ≡ Three (ReadAmode m64) (ReadGpr r64 Quadword) (FixedReadWriteGpr rax.0 0 None) }
    {
        lock_cmpxchgq_mr { m64, r64, rax }
    }
}

impl<R: Registers> RowAndOperands for lock_cmpxchgq_mr<R> {
    type Family = R;

    ghost row_of = { λ _. row.lock_cmpxchgq_mr };

    ghost operands_of = { λ i. i };

    #[tactic(auto, unfolding(cax64_operand::specs::Signature::signature_of))]
    #[inline(always)]
    fn hand_to<T: Task<R, X>, X>(&self, to: &mut X) -> T::Answer {
        T::take(
            of_three(
                Operand::ReadAmode(self.m64),
                Operand::ReadGpr(*self.r64.as_ref(), Size::Quadword),
                Operand::FixedReadWriteGpr(self.rax.0, 0, None),
            ),
            Row::lock_cmpxchgq_mr,
            to,
        )
    }

    fn visit<V: RegisterVisitor<R>>(&mut self, visitor: &mut V) {
        visitor.read_amode(&mut self.m64);
        visitor.read_gpr(self.r64.as_mut());
        visitor.fixed_read_write_gpr(&mut self.rax.0, 0);
    }
}

/// Compare `rdx:rax` with `m128`. If equal, set ZF and load `rcx:rbx` into `m128`. Else, clear ZF and load `m128` into
/// `rdx:rax`. Locked.
#[derive(Drop)]
pub struct lock_cmpxchg16b_m<R: Registers> {
    pub m128: Amode<R::ReadGpr>,
    pub rax: Fixed<R::ReadWriteGpr, 0>,
    pub rdx: Fixed<R::ReadWriteGpr, 2>,
    pub rcx: Fixed<R::ReadGpr, 1>,
    pub rbx: Fixed<R::ReadGpr, 3>,
}

impl<R: Registers> Model for lock_cmpxchg16b_m<R> {
    ghost Value = { Operands R R.ReadGpr R.ReadWriteGpr R.WriteGpr R.ReadXmm R.ReadWriteXmm R.WriteXmm };

    ghost view = { λ i. Five (ReadAmode i.m128) (FixedReadWriteGpr i.rax.0 0 None) (FixedReadWriteGpr i.rdx.0 2 None) (FixedReadGpr i.rcx.0 1 None) (FixedReadGpr i.rbx.0 3 None) };
}

impl<R: Registers> lock_cmpxchg16b_m<R> {
    pub fn new(
        m128: Amode<R::ReadGpr>,
        rax: Fixed<R::ReadWriteGpr, 0>,
        rdx: Fixed<R::ReadWriteGpr, 2>,
        rcx: Fixed<R::ReadGpr, 1>,
        rbx: Fixed<R::ReadGpr, 3>,
    ) -> Self
        ensures { result ≡ Five (ReadAmode m128) (FixedReadWriteGpr rax.0 0 None) (FixedReadWriteGpr rdx.0 2 None) (FixedReadGpr rcx.0 1 None) (FixedReadGpr rbx.0 3 None) }
    {
        lock_cmpxchg16b_m {
            m128,
            rax,
            rdx,
            rcx,
            rbx,
        }
    }
}

impl<R: Registers> RowAndOperands for lock_cmpxchg16b_m<R> {
    type Family = R;

    ghost row_of = { λ _. row.lock_cmpxchg16b_m };

    ghost operands_of = { λ i. i };

    #[tactic(auto, unfolding(cax64_operand::specs::Signature::signature_of))]
    #[inline(always)]
    fn hand_to<T: Task<R, X>, X>(&self, to: &mut X) -> T::Answer {
        T::take(
            of_five(
                Operand::ReadAmode(self.m128),
                Operand::FixedReadWriteGpr(self.rax.0, 0, None),
                Operand::FixedReadWriteGpr(self.rdx.0, 2, None),
                Operand::FixedReadGpr(self.rcx.0, 1, None),
                Operand::FixedReadGpr(self.rbx.0, 3, None),
            ),
            Row::lock_cmpxchg16b_m,
            to,
        )
    }

    fn visit<V: RegisterVisitor<R>>(&mut self, visitor: &mut V) {
        visitor.read_amode(&mut self.m128);
        visitor.fixed_read_write_gpr(&mut self.rax.0, 0);
        visitor.fixed_read_write_gpr(&mut self.rdx.0, 2);
        visitor.fixed_read_gpr(&mut self.rcx.0, 1);
        visitor.fixed_read_gpr(&mut self.rbx.0, 3);
    }
}
