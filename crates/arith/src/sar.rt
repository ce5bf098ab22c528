// Written by table/write.py from table/instructions.txt.
//! `sar` by one. (Intel SDM, volume 2, `SAL/SAR/SHL/SHR`.)

ghost use Rattle.std.specs.Prelude.{◌≡◌, IsTrue, IfOk, string_bytes};
ghost use Rattle.cax64_address.specs.declared.text.Dialect.TheVariants.{Xed};
ghost use Rattle.cax64_machine_code.specs.declared.row.Row.TheVariants as row;
ghost use Rattle.cax64_operand.specs.declared.operand.Operand.TheVariants.{ReadWriteGprMem};
ghost use Rattle.cax64_operand.specs.declared.operand.Operands.{Operands};
ghost use Rattle.cax64_operand.specs.declared.operand.Operands.TheVariants.{One};
ghost use Rattle.cax64_register.specs.declared.gpr.Size.TheVariants.{Byte, Doubleword, Quadword, Word};
ghost use Rattle.cax64_text.specs.Text.{nameable, text};

use cax64_address::operand::GprMem;
use cax64_machine_code::row::Row;
use cax64_operand::{Operand, RegisterVisitor, RowAndOperands, Task, of_one};
use cax64_register::{Registers, Size};
use cax64_text::{RegisterNames, xed_string};
use std::alloc::{AllocError, Allocator};
use std::marker::Model;

/// Signed divide `rm8` by 2, once.
#[derive(Drop)]
pub struct sarb_m1<R: Registers> {
    pub rm8: GprMem<R::ReadWriteGpr, R::ReadGpr>,
}

impl<R: Registers> Model for sarb_m1<R> {
    ghost Value = { Operands R R.ReadGpr R.ReadWriteGpr R.WriteGpr R.ReadXmm R.ReadWriteXmm R.WriteXmm };

    ghost view = { λ i. One (ReadWriteGprMem i.rm8 Byte) };
}

impl<R: Registers> sarb_m1<R> {
    pub fn new(rm8: GprMem<R::ReadWriteGpr, R::ReadGpr>) -> Self
        ensures { result ≡ One (ReadWriteGprMem rm8 Byte) }
    {
        sarb_m1 { rm8 }
    }

    /// The text as XED prints it, of registers that are all `nameable`. Fails where there is no memory.
    pub fn to_string_xed<A: Allocator + Copy>(&self, alloc: A) -> Result<String<A>, AllocError>
        requires { IsTrue (nameable ⟦<R as RegisterNames>⟧.names self.now) }
        ensures { IfOk result (λ t. string_bytes t ≡ text ⟦<R as RegisterNames>⟧.names Xed row.sarb_m1 self.now) }
    {
        xed_string(self, alloc)
    }
}

impl<R: Registers> RowAndOperands for sarb_m1<R> {
    type Family = R;

    ghost row_of = { λ _. row.sarb_m1 };

    ghost operands_of = { λ i. i };

    #[tactic(auto, unfolding(cax64_operand::specs::Signature::signature_of))]
    #[inline(always)]
    fn hand_to<T: Task<R, X>, X>(&self, to: &mut X) -> T::Answer {
        T::take(
            of_one(Operand::ReadWriteGprMem(self.rm8, Size::Byte)),
            Row::sarb_m1,
            to,
        )
    }

    fn visit<V: RegisterVisitor<R>>(&mut self, visitor: &mut V) {
        visitor.read_write_gpr_mem(&mut self.rm8);
    }
}

/// Signed divide `rm16` by 2, once.
#[derive(Drop)]
pub struct sarw_m1<R: Registers> {
    pub rm16: GprMem<R::ReadWriteGpr, R::ReadGpr>,
}

impl<R: Registers> Model for sarw_m1<R> {
    ghost Value = { Operands R R.ReadGpr R.ReadWriteGpr R.WriteGpr R.ReadXmm R.ReadWriteXmm R.WriteXmm };

    ghost view = { λ i. One (ReadWriteGprMem i.rm16 Word) };
}

impl<R: Registers> sarw_m1<R> {
    pub fn new(rm16: GprMem<R::ReadWriteGpr, R::ReadGpr>) -> Self
        ensures { result ≡ One (ReadWriteGprMem rm16 Word) }
    {
        sarw_m1 { rm16 }
    }

    /// The text as XED prints it, of registers that are all `nameable`. Fails where there is no memory.
    pub fn to_string_xed<A: Allocator + Copy>(&self, alloc: A) -> Result<String<A>, AllocError>
        requires { IsTrue (nameable ⟦<R as RegisterNames>⟧.names self.now) }
        ensures { IfOk result (λ t. string_bytes t ≡ text ⟦<R as RegisterNames>⟧.names Xed row.sarw_m1 self.now) }
    {
        xed_string(self, alloc)
    }
}

impl<R: Registers> RowAndOperands for sarw_m1<R> {
    type Family = R;

    ghost row_of = { λ _. row.sarw_m1 };

    ghost operands_of = { λ i. i };

    #[tactic(auto, unfolding(cax64_operand::specs::Signature::signature_of))]
    #[inline(always)]
    fn hand_to<T: Task<R, X>, X>(&self, to: &mut X) -> T::Answer {
        T::take(
            of_one(Operand::ReadWriteGprMem(self.rm16, Size::Word)),
            Row::sarw_m1,
            to,
        )
    }

    fn visit<V: RegisterVisitor<R>>(&mut self, visitor: &mut V) {
        visitor.read_write_gpr_mem(&mut self.rm16);
    }
}

/// Signed divide `rm32` by 2, once.
#[derive(Drop)]
pub struct sarl_m1<R: Registers> {
    pub rm32: GprMem<R::ReadWriteGpr, R::ReadGpr>,
}

impl<R: Registers> Model for sarl_m1<R> {
    ghost Value = { Operands R R.ReadGpr R.ReadWriteGpr R.WriteGpr R.ReadXmm R.ReadWriteXmm R.WriteXmm };

    ghost view = { λ i. One (ReadWriteGprMem i.rm32 Doubleword) };
}

impl<R: Registers> sarl_m1<R> {
    pub fn new(rm32: GprMem<R::ReadWriteGpr, R::ReadGpr>) -> Self
        ensures { result ≡ One (ReadWriteGprMem rm32 Doubleword) }
    {
        sarl_m1 { rm32 }
    }

    /// The text as XED prints it, of registers that are all `nameable`. Fails where there is no memory.
    pub fn to_string_xed<A: Allocator + Copy>(&self, alloc: A) -> Result<String<A>, AllocError>
        requires { IsTrue (nameable ⟦<R as RegisterNames>⟧.names self.now) }
        ensures { IfOk result (λ t. string_bytes t ≡ text ⟦<R as RegisterNames>⟧.names Xed row.sarl_m1 self.now) }
    {
        xed_string(self, alloc)
    }
}

impl<R: Registers> RowAndOperands for sarl_m1<R> {
    type Family = R;

    ghost row_of = { λ _. row.sarl_m1 };

    ghost operands_of = { λ i. i };

    #[tactic(auto, unfolding(cax64_operand::specs::Signature::signature_of))]
    #[inline(always)]
    fn hand_to<T: Task<R, X>, X>(&self, to: &mut X) -> T::Answer {
        T::take(
            of_one(Operand::ReadWriteGprMem(self.rm32, Size::Doubleword)),
            Row::sarl_m1,
            to,
        )
    }

    fn visit<V: RegisterVisitor<R>>(&mut self, visitor: &mut V) {
        visitor.read_write_gpr_mem(&mut self.rm32);
    }
}

/// Signed divide `rm64` by 2, once.
#[derive(Drop)]
pub struct sarq_m1<R: Registers> {
    pub rm64: GprMem<R::ReadWriteGpr, R::ReadGpr>,
}

impl<R: Registers> Model for sarq_m1<R> {
    ghost Value = { Operands R R.ReadGpr R.ReadWriteGpr R.WriteGpr R.ReadXmm R.ReadWriteXmm R.WriteXmm };

    ghost view = { λ i. One (ReadWriteGprMem i.rm64 Quadword) };
}

impl<R: Registers> sarq_m1<R> {
    pub fn new(rm64: GprMem<R::ReadWriteGpr, R::ReadGpr>) -> Self
        ensures { result ≡ One (ReadWriteGprMem rm64 Quadword) }
    {
        sarq_m1 { rm64 }
    }

    /// The text as XED prints it, of registers that are all `nameable`. Fails where there is no memory.
    pub fn to_string_xed<A: Allocator + Copy>(&self, alloc: A) -> Result<String<A>, AllocError>
        requires { IsTrue (nameable ⟦<R as RegisterNames>⟧.names self.now) }
        ensures { IfOk result (λ t. string_bytes t ≡ text ⟦<R as RegisterNames>⟧.names Xed row.sarq_m1 self.now) }
    {
        xed_string(self, alloc)
    }
}

impl<R: Registers> RowAndOperands for sarq_m1<R> {
    type Family = R;

    ghost row_of = { λ _. row.sarq_m1 };

    ghost operands_of = { λ i. i };

    #[tactic(auto, unfolding(cax64_operand::specs::Signature::signature_of))]
    #[inline(always)]
    fn hand_to<T: Task<R, X>, X>(&self, to: &mut X) -> T::Answer {
        T::take(
            of_one(Operand::ReadWriteGprMem(self.rm64, Size::Quadword)),
            Row::sarq_m1,
            to,
        )
    }

    fn visit<V: RegisterVisitor<R>>(&mut self, visitor: &mut V) {
        visitor.read_write_gpr_mem(&mut self.rm64);
    }
}
