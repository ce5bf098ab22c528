// Written by table/write.py from table/instructions.txt.
//! `shl` by one. (Intel SDM, volume 2, `SAL/SAR/SHL/SHR`.)

ghost use Rattle.std.specs.Prelude.{◌≡◌, IsTrue, IfOk, string_bytes};
ghost use Rattle.cax64_address.specs.declared.text.Dialect.TheVariants.{Xed};
ghost use Rattle.cax64_machine_code.specs.declared.row.Row.TheVariants as row;
ghost use Rattle.cax64_operand.specs.declared.operand.Operand.TheVariants.{ReadWriteGprMem};
ghost use Rattle.cax64_operand.specs.declared.operand.Operands.{Operands};
ghost use Rattle.cax64_operand.specs.declared.operand.Operands.TheVariants.{One};
ghost use Rattle.cax64_register.specs.declared.gpr.Size.TheVariants.{Byte, Doubleword, Quadword, Word};
ghost use Rattle.cax64_text.specs.Text.{nameable, text};

use cax64_address::operand::GprMem;
use cax64_machine_code::row::Row;
use cax64_operand::{Operand, RegisterVisitor, RowAndOperands, Task, of_one};
use cax64_register::{Registers, Size};
use cax64_text::{RegisterNames, xed_string};
use std::alloc::{AllocError, Allocator};
use std::marker::Model;

/// Multiply `rm8` by 2, once.
#[derive(Drop)]
pub struct shlb_m1<R: Registers> {
    pub rm8: GprMem<R::ReadWriteGpr, R::ReadGpr>,
}

impl<R: Registers> Model for shlb_m1<R> {
    ghost Value = { Operands R R.ReadGpr R.ReadWriteGpr R.WriteGpr R.ReadXmm R.ReadWriteXmm R.WriteXmm };

    ghost view = { λ i. One (ReadWriteGprMem i.rm8 Byte) };
}

impl<R: Registers> shlb_m1<R> {
    pub fn new(rm8: GprMem<R::ReadWriteGpr, R::ReadGpr>) -> Self
        ensures { result ≡ One (ReadWriteGprMem rm8 Byte) }
    {
        shlb_m1 { rm8 }
    }

    /// The text as XED prints it, of registers that are all `nameable`. Fails where there is no memory.
    pub fn to_string_xed<A: Allocator + Copy>(&self, alloc: A) -> Result<String<A>, AllocError>
        requires { IsTrue (nameable ⟦<R as RegisterNames>⟧.names self.now) }
        ensures { IfOk result (λ t. string_bytes t ≡ text ⟦<R as RegisterNames>⟧.names Xed row.shlb_m1 self.now) }
    {
        xed_string(self, alloc)
    }
}

impl<R: Registers> RowAndOperands for shlb_m1<R> {
    type Family = R;

    ghost row_of = { λ _. row.shlb_m1 };

    ghost operands_of = { λ i. i };

    #[tactic(auto, unfolding(cax64_operand::specs::Signature::signature_of))]
    #[inline(always)]
    fn hand_to<T: Task<R, X>, X>(&self, to: &mut X) -> T::Answer {
        T::take(
            of_one(Operand::ReadWriteGprMem(self.rm8, Size::Byte)),
            Row::shlb_m1,
            to,
        )
    }

    fn visit<V: RegisterVisitor<R>>(&mut self, visitor: &mut V) {
        visitor.read_write_gpr_mem(&mut self.rm8);
    }
}

/// Multiply `rm16` by 2, once.
#[derive(Drop)]
pub struct shlw_m1<R: Registers> {
    pub rm16: GprMem<R::ReadWriteGpr, R::ReadGpr>,
}

impl<R: Registers> Model for shlw_m1<R> {
    ghost Value = { Operands R R.ReadGpr R.ReadWriteGpr R.WriteGpr R.ReadXmm R.ReadWriteXmm R.WriteXmm };

    ghost view = { λ i. One (ReadWriteGprMem i.rm16 Word) };
}

impl<R: Registers> shlw_m1<R> {
    pub fn new(rm16: GprMem<R::ReadWriteGpr, R::ReadGpr>) -> Self
        ensures { result ≡ One (ReadWriteGprMem rm16 Word) }
    {
        shlw_m1 { rm16 }
    }

    /// The text as XED prints it, of registers that are all `nameable`. Fails where there is no memory.
    pub fn to_string_xed<A: Allocator + Copy>(&self, alloc: A) -> Result<String<A>, AllocError>
        requires { IsTrue (nameable ⟦<R as RegisterNames>⟧.names self.now) }
        ensures { IfOk result (λ t. string_bytes t ≡ text ⟦<R as RegisterNames>⟧.names Xed row.shlw_m1 self.now) }
    {
        xed_string(self, alloc)
    }
}

impl<R: Registers> RowAndOperands for shlw_m1<R> {
    type Family = R;

    ghost row_of = { λ _. row.shlw_m1 };

    ghost operands_of = { λ i. i };

    #[tactic(auto, unfolding(cax64_operand::specs::Signature::signature_of))]
    #[inline(always)]
    fn hand_to<T: Task<R, X>, X>(&self, to: &mut X) -> T::Answer {
        T::take(
            of_one(Operand::ReadWriteGprMem(self.rm16, Size::Word)),
            Row::shlw_m1,
            to,
        )
    }

    fn visit<V: RegisterVisitor<R>>(&mut self, visitor: &mut V) {
        visitor.read_write_gpr_mem(&mut self.rm16);
    }
}

/// Multiply `rm32` by 2, once.
#[derive(Drop)]
pub struct shll_m1<R: Registers> {
    pub rm32: GprMem<R::ReadWriteGpr, R::ReadGpr>,
}

impl<R: Registers> Model for shll_m1<R> {
    ghost Value = { Operands R R.ReadGpr R.ReadWriteGpr R.WriteGpr R.ReadXmm R.ReadWriteXmm R.WriteXmm };

    ghost view = { λ i. One (ReadWriteGprMem i.rm32 Doubleword) };
}

impl<R: Registers> shll_m1<R> {
    pub fn new(rm32: GprMem<R::ReadWriteGpr, R::ReadGpr>) -> Self
        ensures { result ≡ One (ReadWriteGprMem rm32 Doubleword) }
    {
        shll_m1 { rm32 }
    }

    /// The text as XED prints it, of registers that are all `nameable`. Fails where there is no memory.
    pub fn to_string_xed<A: Allocator + Copy>(&self, alloc: A) -> Result<String<A>, AllocError>
        requires { IsTrue (nameable ⟦<R as RegisterNames>⟧.names self.now) }
        ensures { IfOk result (λ t. string_bytes t ≡ text ⟦<R as RegisterNames>⟧.names Xed row.shll_m1 self.now) }
    {
        xed_string(self, alloc)
    }
}

impl<R: Registers> RowAndOperands for shll_m1<R> {
    type Family = R;

    ghost row_of = { λ _. row.shll_m1 };

    ghost operands_of = { λ i. i };

    #[tactic(auto, unfolding(cax64_operand::specs::Signature::signature_of))]
    #[inline(always)]
    fn hand_to<T: Task<R, X>, X>(&self, to: &mut X) -> T::Answer {
        T::take(
            of_one(Operand::ReadWriteGprMem(self.rm32, Size::Doubleword)),
            Row::shll_m1,
            to,
        )
    }

    fn visit<V: RegisterVisitor<R>>(&mut self, visitor: &mut V) {
        visitor.read_write_gpr_mem(&mut self.rm32);
    }
}

/// Multiply `rm64` by 2, once.
#[derive(Drop)]
pub struct shlq_m1<R: Registers> {
    pub rm64: GprMem<R::ReadWriteGpr, R::ReadGpr>,
}

impl<R: Registers> Model for shlq_m1<R> {
    ghost Value = { Operands R R.ReadGpr R.ReadWriteGpr R.WriteGpr R.ReadXmm R.ReadWriteXmm R.WriteXmm };

    ghost view = { λ i. One (ReadWriteGprMem i.rm64 Quadword) };
}

impl<R: Registers> shlq_m1<R> {
    pub fn new(rm64: GprMem<R::ReadWriteGpr, R::ReadGpr>) -> Self
        ensures { result ≡ One (ReadWriteGprMem rm64 Quadword) }
    {
        shlq_m1 { rm64 }
    }

    /// The text as XED prints it, of registers that are all `nameable`. Fails where there is no memory.
    pub fn to_string_xed<A: Allocator + Copy>(&self, alloc: A) -> Result<String<A>, AllocError>
        requires { IsTrue (nameable ⟦<R as RegisterNames>⟧.names self.now) }
        ensures { IfOk result (λ t. string_bytes t ≡ text ⟦<R as RegisterNames>⟧.names Xed row.shlq_m1 self.now) }
    {
        xed_string(self, alloc)
    }
}

impl<R: Registers> RowAndOperands for shlq_m1<R> {
    type Family = R;

    ghost row_of = { λ _. row.shlq_m1 };

    ghost operands_of = { λ i. i };

    #[tactic(auto, unfolding(cax64_operand::specs::Signature::signature_of))]
    #[inline(always)]
    fn hand_to<T: Task<R, X>, X>(&self, to: &mut X) -> T::Answer {
        T::take(
            of_one(Operand::ReadWriteGprMem(self.rm64, Size::Quadword)),
            Row::shlq_m1,
            to,
        )
    }

    fn visit<V: RegisterVisitor<R>>(&mut self, visitor: &mut V) {
        visitor.read_write_gpr_mem(&mut self.rm64);
    }
}
