// Written by table/write.py from table/instructions.txt.
//! `xchg`. (Intel SDM, volume 2, `XCHG`.)

ghost use Rattle.std.specs.Prelude.{◌≡◌, IsTrue, IfOk, string_bytes};
ghost use Rattle.cax64_address.specs.declared.text.Dialect.TheVariants.{Xed};
ghost use Rattle.cax64_machine_code.specs.declared.row.Row.TheVariants as row;
ghost use Rattle.cax64_operand.specs.declared.operand.Operand.TheVariants.{ReadAmode, ReadWriteGpr};
ghost use Rattle.cax64_operand.specs.declared.operand.Operands.{Operands};
ghost use Rattle.cax64_operand.specs.declared.operand.Operands.TheVariants.{Two};
ghost use Rattle.cax64_register.specs.declared.gpr.Size.TheVariants.{Byte, Doubleword, Quadword, Word};
ghost use Rattle.cax64_text.specs.Text.{nameable, text};

use cax64_address::amode::Amode;
use cax64_machine_code::row::Row;
use cax64_operand::{Operand, RegisterVisitor, RowAndOperands, Task, of_two};
use cax64_register::{Gpr, Registers, Size};
use cax64_text::{RegisterNames, xed_string};
use std::alloc::{AllocError, Allocator};
use std::marker::Model;

/// Exchange byte from `m8` with `r8`.
#[derive(Drop)]
pub struct xchgb_rm<R: Registers> {
    pub r8: Gpr<R::ReadWriteGpr>,
    pub m8: Amode<R::ReadGpr>,
}

impl<R: Registers> Model for xchgb_rm<R> {
    ghost Value = { Operands R R.ReadGpr R.ReadWriteGpr R.WriteGpr R.ReadXmm R.ReadWriteXmm R.WriteXmm };

    ghost view = { λ i. Two (ReadWriteGpr i.r8 Byte) (ReadAmode i.m8) };
}

impl<R: Registers> xchgb_rm<R> {
    pub fn new(r8: Gpr<R::ReadWriteGpr>, m8: Amode<R::ReadGpr>) -> Self
        ensures { result ≡ Two (ReadWriteGpr r8 Byte) (ReadAmode m8) }
    {
        xchgb_rm { r8, m8 }
    }

    /// The text as XED prints it, of registers that are all `nameable`. Fails where there is no memory.
    pub fn to_string_xed<A: Allocator + Copy>(&self, alloc: A) -> Result<String<A>, AllocError>
        requires { IsTrue (nameable ⟦<R as RegisterNames>⟧.names self.now) }
        ensures { IfOk result (λ t. string_bytes t ≡ text ⟦<R as RegisterNames>⟧.names Xed row.xchgb_rm self.now) }
    {
        xed_string(self, alloc)
    }
}

impl<R: Registers> RowAndOperands for xchgb_rm<R> {
    type Family = R;

    ghost row_of = { λ _. row.xchgb_rm };

    ghost operands_of = { λ i. i };

    #[tactic(auto, unfolding(cax64_operand::specs::Signature::signature_of))]
    #[inline(always)]
    fn hand_to<T: Task<R, X>, X>(&self, to: &mut X) -> T::Answer {
        T::take(
            of_two(
                Operand::ReadWriteGpr(*self.r8.as_ref(), Size::Byte),
                Operand::ReadAmode(self.m8),
            ),
            Row::xchgb_rm,
            to,
        )
    }

    fn visit<V: RegisterVisitor<R>>(&mut self, visitor: &mut V) {
        visitor.read_write_gpr(self.r8.as_mut());
        visitor.read_amode(&mut self.m8);
    }
}

/// Exchange word from `m16` with `r16`.
#[derive(Drop)]
pub struct xchgw_rm<R: Registers> {
    pub r16: Gpr<R::ReadWriteGpr>,
    pub m16: Amode<R::ReadGpr>,
}

impl<R: Registers> Model for xchgw_rm<R> {
    ghost Value = { Operands R R.ReadGpr R.ReadWriteGpr R.WriteGpr R.ReadXmm R.ReadWriteXmm R.WriteXmm };

    ghost view = { λ i. Two (ReadWriteGpr i.r16 Word) (ReadAmode i.m16) };
}

impl<R: Registers> xchgw_rm<R> {
    pub fn new(r16: Gpr<R::ReadWriteGpr>, m16: Amode<R::ReadGpr>) -> Self
        ensures { result ≡ Two (ReadWriteGpr r16 Word) (ReadAmode m16) }
    {
        xchgw_rm { r16, m16 }
    }

    /// The text as XED prints it, of registers that are all `nameable`. Fails where there is no memory.
    pub fn to_string_xed<A: Allocator + Copy>(&self, alloc: A) -> Result<String<A>, AllocError>
        requires { IsTrue (nameable ⟦<R as RegisterNames>⟧.names self.now) }
        ensures { IfOk result (λ t. string_bytes t ≡ text ⟦<R as RegisterNames>⟧.names Xed row.xchgw_rm self.now) }
    {
        xed_string(self, alloc)
    }
}

impl<R: Registers> RowAndOperands for xchgw_rm<R> {
    type Family = R;

    ghost row_of = { λ _. row.xchgw_rm };

    ghost operands_of = { λ i. i };

    #[tactic(auto, unfolding(cax64_operand::specs::Signature::signature_of))]
    #[inline(always)]
    fn hand_to<T: Task<R, X>, X>(&self, to: &mut X) -> T::Answer {
        T::take(
            of_two(
                Operand::ReadWriteGpr(*self.r16.as_ref(), Size::Word),
                Operand::ReadAmode(self.m16),
            ),
            Row::xchgw_rm,
            to,
        )
    }

    fn visit<V: RegisterVisitor<R>>(&mut self, visitor: &mut V) {
        visitor.read_write_gpr(self.r16.as_mut());
        visitor.read_amode(&mut self.m16);
    }
}

/// Exchange doubleword from `m32` with `r32`.
#[derive(Drop)]
pub struct xchgl_rm<R: Registers> {
    pub r32: Gpr<R::ReadWriteGpr>,
    pub m32: Amode<R::ReadGpr>,
}

impl<R: Registers> Model for xchgl_rm<R> {
    ghost Value = { Operands R R.ReadGpr R.ReadWriteGpr R.WriteGpr R.ReadXmm R.ReadWriteXmm R.WriteXmm };

    ghost view = { λ i. Two (ReadWriteGpr i.r32 Doubleword) (ReadAmode i.m32) };
}

impl<R: Registers> xchgl_rm<R> {
    pub fn new(r32: Gpr<R::ReadWriteGpr>, m32: Amode<R::ReadGpr>) -> Self
        ensures { result ≡ Two (ReadWriteGpr r32 Doubleword) (ReadAmode m32) }
    {
        xchgl_rm { r32, m32 }
    }

    /// The text as XED prints it, of registers that are all `nameable`. Fails where there is no memory.
    pub fn to_string_xed<A: Allocator + Copy>(&self, alloc: A) -> Result<String<A>, AllocError>
        requires { IsTrue (nameable ⟦<R as RegisterNames>⟧.names self.now) }
        ensures { IfOk result (λ t. string_bytes t ≡ text ⟦<R as RegisterNames>⟧.names Xed row.xchgl_rm self.now) }
    {
        xed_string(self, alloc)
    }
}

impl<R: Registers> RowAndOperands for xchgl_rm<R> {
    type Family = R;

    ghost row_of = { λ _. row.xchgl_rm };

    ghost operands_of = { λ i. i };

    #[tactic(auto, unfolding(cax64_operand::specs::Signature::signature_of))]
    #[inline(always)]
    fn hand_to<T: Task<R, X>, X>(&self, to: &mut X) -> T::Answer {
        T::take(
            of_two(
                Operand::ReadWriteGpr(*self.r32.as_ref(), Size::Doubleword),
                Operand::ReadAmode(self.m32),
            ),
            Row::xchgl_rm,
            to,
        )
    }

    fn visit<V: RegisterVisitor<R>>(&mut self, visitor: &mut V) {
        visitor.read_write_gpr(self.r32.as_mut());
        visitor.read_amode(&mut self.m32);
    }
}

/// Exchange quadword from `m64` with `r64`.
#[derive(Drop)]
pub struct xchgq_rm<R: Registers> {
    pub r64: Gpr<R::ReadWriteGpr>,
    pub m64: Amode<R::ReadGpr>,
}

impl<R: Registers> Model for xchgq_rm<R> {
    ghost Value = { Operands R R.ReadGpr R.ReadWriteGpr R.WriteGpr R.ReadXmm R.ReadWriteXmm R.WriteXmm };

    ghost view = { λ i. Two (ReadWriteGpr i.r64 Quadword) (ReadAmode i.m64) };
}

impl<R: Registers> xchgq_rm<R> {
    pub fn new(r64: Gpr<R::ReadWriteGpr>, m64: Amode<R::ReadGpr>) -> Self
        ensures { result ≡ Two (ReadWriteGpr r64 Quadword) (ReadAmode m64) }
    {
        xchgq_rm { r64, m64 }
    }

    /// The text as XED prints it, of registers that are all `nameable`. Fails where there is no memory.
    pub fn to_string_xed<A: Allocator + Copy>(&self, alloc: A) -> Result<String<A>, AllocError>
        requires { IsTrue (nameable ⟦<R as RegisterNames>⟧.names self.now) }
        ensures { IfOk result (λ t. string_bytes t ≡ text ⟦<R as RegisterNames>⟧.names Xed row.xchgq_rm self.now) }
    {
        xed_string(self, alloc)
    }
}

impl<R: Registers> RowAndOperands for xchgq_rm<R> {
    type Family = R;

    ghost row_of = { λ _. row.xchgq_rm };

    ghost operands_of = { λ i. i };

    #[tactic(auto, unfolding(cax64_operand::specs::Signature::signature_of))]
    #[inline(always)]
    fn hand_to<T: Task<R, X>, X>(&self, to: &mut X) -> T::Answer {
        T::take(
            of_two(
                Operand::ReadWriteGpr(*self.r64.as_ref(), Size::Quadword),
                Operand::ReadAmode(self.m64),
            ),
            Row::xchgq_rm,
            to,
        )
    }

    fn visit<V: RegisterVisitor<R>>(&mut self, visitor: &mut V) {
        visitor.read_write_gpr(self.r64.as_mut());
        visitor.read_amode(&mut self.m64);
    }
}
