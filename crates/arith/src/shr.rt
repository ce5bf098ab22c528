// Written by table/write.py from table/instructions.txt.
//! `shr` by one. (Intel SDM, volume 2, `SAL/SAR/SHL/SHR`.)

ghost use Rattle.std.specs.Prelude.{◌≡◌, IsTrue, IfOk, string_bytes};
ghost use Rattle.cax64_address.specs.declared.text.Dialect.TheVariants.{Xed};
ghost use Rattle.cax64_machine_code.specs.declared.row.Row.TheVariants as row;
ghost use Rattle.cax64_operand.specs.declared.operand.Operand.TheVariants.{ReadWriteGprMem};
ghost use Rattle.cax64_operand.specs.declared.operand.Operands.{Operands};
ghost use Rattle.cax64_operand.specs.declared.operand.Operands.TheVariants.{One};
ghost use Rattle.cax64_register.specs.declared.gpr.Size.TheVariants.{Byte, Doubleword, Quadword, Word};
ghost use Rattle.cax64_text.specs.Text.{nameable, text};

use cax64_address::operand::GprMem;
use cax64_machine_code::row::Row;
use cax64_operand::{Operand, RegisterVisitor, RowAndOperands, Task, of_one};
use cax64_register::{Registers, Size};
use cax64_text::{RegisterNames, xed_string};
use std::alloc::{AllocError, Allocator};
use std::marker::Model;

/// Unsigned divide `rm8` by 2, once.
#[derive(Drop)]
pub struct shrb_m1<R: Registers> {
    pub rm8: GprMem<R::ReadWriteGpr, R::ReadGpr>,
}

impl<R: Registers> Model for shrb_m1<R> {
    ghost Value = { Operands R R.ReadGpr R.ReadWriteGpr R.WriteGpr R.ReadXmm R.ReadWriteXmm R.WriteXmm };

    ghost view = { λ i. One (ReadWriteGprMem i.rm8 Byte) };
}

impl<R: Registers> shrb_m1<R> {
    pub fn new(rm8: GprMem<R::ReadWriteGpr, R::ReadGpr>) -> Self
        ensures { result ≡ One (ReadWriteGprMem rm8 Byte) }
    {
        shrb_m1 { rm8 }
    }

    /// The text as XED prints it, of registers that are all `nameable`. Fails where there is no memory.
    pub fn to_string_xed<A: Allocator + Copy>(&self, alloc: A) -> Result<String<A>, AllocError>
        requires { IsTrue (nameable ⟦<R as RegisterNames>⟧.names self.now) }
        ensures { IfOk result (λ t. string_bytes t ≡ text ⟦<R as RegisterNames>⟧.names Xed row.shrb_m1 self.now) }
    {
        xed_string(self, alloc)
    }
}

impl<R: Registers> RowAndOperands for shrb_m1<R> {
    type Family = R;

    ghost row_of = { λ _. row.shrb_m1 };

    ghost operands_of = { λ i. i };

    #[tactic(auto, unfolding(cax64_operand::specs::Signature::signature_of))]
    #[inline(always)]
    fn hand_to<T: Task<R, X>, X>(&self, to: &mut X) -> T::Answer {
        T::take(
            of_one(Operand::ReadWriteGprMem(self.rm8, Size::Byte)),
            Row::shrb_m1,
            to,
        )
    }

    fn visit<V: RegisterVisitor<R>>(&mut self, visitor: &mut V) {
        visitor.read_write_gpr_mem(&mut self.rm8);
    }
}

/// Unsigned divide `rm16` by 2, once.
#[derive(Drop)]
pub struct shrw_m1<R: Registers> {
    pub rm16: GprMem<R::ReadWriteGpr, R::ReadGpr>,
}

impl<R: Registers> Model for shrw_m1<R> {
    ghost Value = { Operands R R.ReadGpr R.ReadWriteGpr R.WriteGpr R.ReadXmm R.ReadWriteXmm R.WriteXmm };

    ghost view = { λ i. One (ReadWriteGprMem i.rm16 Word) };
}

impl<R: Registers> shrw_m1<R> {
    pub fn new(rm16: GprMem<R::ReadWriteGpr, R::ReadGpr>) -> Self
        ensures { result ≡ One (ReadWriteGprMem rm16 Word) }
    {
        shrw_m1 { rm16 }
    }

    /// The text as XED prints it, of registers that are all `nameable`. Fails where there is no memory.
    pub fn to_string_xed<A: Allocator + Copy>(&self, alloc: A) -> Result<String<A>, AllocError>
        requires { IsTrue (nameable ⟦<R as RegisterNames>⟧.names self.now) }
        ensures { IfOk result (λ t. string_bytes t ≡ text ⟦<R as RegisterNames>⟧.names Xed row.shrw_m1 self.now) }
    {
        xed_string(self, alloc)
    }
}

impl<R: Registers> RowAndOperands for shrw_m1<R> {
    type Family = R;

    ghost row_of = { λ _. row.shrw_m1 };

    ghost operands_of = { λ i. i };

    #[tactic(auto, unfolding(cax64_operand::specs::Signature::signature_of))]
    #[inline(always)]
    fn hand_to<T: Task<R, X>, X>(&self, to: &mut X) -> T::Answer {
        T::take(
            of_one(Operand::ReadWriteGprMem(self.rm16, Size::Word)),
            Row::shrw_m1,
            to,
        )
    }

    fn visit<V: RegisterVisitor<R>>(&mut self, visitor: &mut V) {
        visitor.read_write_gpr_mem(&mut self.rm16);
    }
}

/// Unsigned divide `rm32` by 2, once.
#[derive(Drop)]
pub struct shrl_m1<R: Registers> {
    pub rm32: GprMem<R::ReadWriteGpr, R::ReadGpr>,
}

impl<R: Registers> Model for shrl_m1<R> {
    ghost Value = { Operands R R.ReadGpr R.ReadWriteGpr R.WriteGpr R.ReadXmm R.ReadWriteXmm R.WriteXmm };

    ghost view = { λ i. One (ReadWriteGprMem i.rm32 Doubleword) };
}

impl<R: Registers> shrl_m1<R> {
    pub fn new(rm32: GprMem<R::ReadWriteGpr, R::ReadGpr>) -> Self
        ensures { result ≡ One (ReadWriteGprMem rm32 Doubleword) }
    {
        shrl_m1 { rm32 }
    }

    /// The text as XED prints it, of registers that are all `nameable`. Fails where there is no memory.
    pub fn to_string_xed<A: Allocator + Copy>(&self, alloc: A) -> Result<String<A>, AllocError>
        requires { IsTrue (nameable ⟦<R as RegisterNames>⟧.names self.now) }
        ensures { IfOk result (λ t. string_bytes t ≡ text ⟦<R as RegisterNames>⟧.names Xed row.shrl_m1 self.now) }
    {
        xed_string(self, alloc)
    }
}

impl<R: Registers> RowAndOperands for shrl_m1<R> {
    type Family = R;

    ghost row_of = { λ _. row.shrl_m1 };

    ghost operands_of = { λ i. i };

    #[tactic(auto, unfolding(cax64_operand::specs::Signature::signature_of))]
    #[inline(always)]
    fn hand_to<T: Task<R, X>, X>(&self, to: &mut X) -> T::Answer {
        T::take(
            of_one(Operand::ReadWriteGprMem(self.rm32, Size::Doubleword)),
            Row::shrl_m1,
            to,
        )
    }

    fn visit<V: RegisterVisitor<R>>(&mut self, visitor: &mut V) {
        visitor.read_write_gpr_mem(&mut self.rm32);
    }
}

/// Unsigned divide `rm64` by 2, once.
#[derive(Drop)]
pub struct shrq_m1<R: Registers> {
    pub rm64: GprMem<R::ReadWriteGpr, R::ReadGpr>,
}

impl<R: Registers> Model for shrq_m1<R> {
    ghost Value = { Operands R R.ReadGpr R.ReadWriteGpr R.WriteGpr R.ReadXmm R.ReadWriteXmm R.WriteXmm };

    ghost view = { λ i. One (ReadWriteGprMem i.rm64 Quadword) };
}

impl<R: Registers> shrq_m1<R> {
    pub fn new(rm64: GprMem<R::ReadWriteGpr, R::ReadGpr>) -> Self
        ensures { result ≡ One (ReadWriteGprMem rm64 Quadword) }
    {
        shrq_m1 { rm64 }
    }

    /// The text as XED prints it, of registers that are all `nameable`. Fails where there is no memory.
    pub fn to_string_xed<A: Allocator + Copy>(&self, alloc: A) -> Result<String<A>, AllocError>
        requires { IsTrue (nameable ⟦<R as RegisterNames>⟧.names self.now) }
        ensures { IfOk result (λ t. string_bytes t ≡ text ⟦<R as RegisterNames>⟧.names Xed row.shrq_m1 self.now) }
    {
        xed_string(self, alloc)
    }
}

impl<R: Registers> RowAndOperands for shrq_m1<R> {
    type Family = R;

    ghost row_of = { λ _. row.shrq_m1 };

    ghost operands_of = { λ i. i };

    #[tactic(auto, unfolding(cax64_operand::specs::Signature::signature_of))]
    #[inline(always)]
    fn hand_to<T: Task<R, X>, X>(&self, to: &mut X) -> T::Answer {
        T::take(
            of_one(Operand::ReadWriteGprMem(self.rm64, Size::Quadword)),
            Row::shrq_m1,
            to,
        )
    }

    fn visit<V: RegisterVisitor<R>>(&mut self, visitor: &mut V) {
        visitor.read_write_gpr_mem(&mut self.rm64);
    }
}
