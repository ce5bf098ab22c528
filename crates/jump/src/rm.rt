// Written by table/write.py from table/instructions.txt.
//! Jumps and calls to the place that a register or memory holds. (Intel SDM, volume 2, `JMP` and `CALL`.)

ghost use Rattle.std.specs.Prelude.{◌≡◌, IsTrue, IfOk, string_bytes};
ghost use Rattle.cax64_address.specs.declared.text.Dialect.TheVariants.{Xed};
ghost use Rattle.cax64_machine_code.specs.declared.row.Row.TheVariants as row;
ghost use Rattle.cax64_operand.specs.declared.operand.Operand.TheVariants.{ReadGprMem};
ghost use Rattle.cax64_operand.specs.declared.operand.Operands.{Operands};
ghost use Rattle.cax64_operand.specs.declared.operand.Operands.TheVariants.{One};
ghost use Rattle.cax64_register.specs.declared.gpr.Size.TheVariants.{Quadword};
ghost use Rattle.cax64_text.specs.Text.{nameable, text};

use cax64_address::operand::GprMem;
use cax64_machine_code::row::Row;
use cax64_operand::{Operand, RegisterVisitor, RowAndOperands, Task, of_one};
use cax64_register::{Registers, Size};
use cax64_text::{RegisterNames, xed_string};
use std::alloc::{AllocError, Allocator};
use std::marker::Model;

/// Call near, absolute indirect, address given in `rm64`.
#[derive(Drop)]
pub struct callq_m<R: Registers> {
    pub rm64: GprMem<R::ReadGpr, R::ReadGpr>,
}

impl<R: Registers> Model for callq_m<R> {
    ghost Value = { Operands R R.ReadGpr R.ReadWriteGpr R.WriteGpr R.ReadXmm R.ReadWriteXmm R.WriteXmm };

    ghost view = { λ i. One (ReadGprMem i.rm64 Quadword) };
}

impl<R: Registers> callq_m<R> {
    pub fn new(rm64: GprMem<R::ReadGpr, R::ReadGpr>) -> Self
        ensures { result ≡ One (ReadGprMem rm64 Quadword) }
    {
        callq_m { rm64 }
    }

    /// The text as XED prints it, of registers that are all `nameable`. Fails where there is no memory.
    pub fn to_string_xed<A: Allocator + Copy>(&self, alloc: A) -> Result<String<A>, AllocError>
        requires { IsTrue (nameable ⟦<R as RegisterNames>⟧.names self.now) }
        ensures { IfOk result (λ t. string_bytes t ≡ text ⟦<R as RegisterNames>⟧.names Xed row.callq_m self.now) }
    {
        xed_string(self, alloc)
    }
}

impl<R: Registers> RowAndOperands for callq_m<R> {
    type Family = R;

    ghost row_of = { λ _. row.callq_m };

    ghost operands_of = { λ i. i };

    #[tactic(auto, unfolding(cax64_operand::specs::Signature::signature_of))]
    #[inline(always)]
    fn hand_to<T: Task<R, X>, X>(&self, to: &mut X) -> T::Answer {
        T::take(
            of_one(Operand::ReadGprMem(self.rm64, Size::Quadword)),
            Row::callq_m,
            to,
        )
    }

    fn visit<V: RegisterVisitor<R>>(&mut self, visitor: &mut V) {
        visitor.read_gpr_mem(&mut self.rm64);
    }
}

/// Jump near, absolute indirect, address given in `rm64`.
#[derive(Drop)]
pub struct jmpq_m<R: Registers> {
    pub rm64: GprMem<R::ReadGpr, R::ReadGpr>,
}

impl<R: Registers> Model for jmpq_m<R> {
    ghost Value = { Operands R R.ReadGpr R.ReadWriteGpr R.WriteGpr R.ReadXmm R.ReadWriteXmm R.WriteXmm };

    ghost view = { λ i. One (ReadGprMem i.rm64 Quadword) };
}

impl<R: Registers> jmpq_m<R> {
    pub fn new(rm64: GprMem<R::ReadGpr, R::ReadGpr>) -> Self
        ensures { result ≡ One (ReadGprMem rm64 Quadword) }
    {
        jmpq_m { rm64 }
    }

    /// The text as XED prints it, of registers that are all `nameable`. Fails where there is no memory.
    pub fn to_string_xed<A: Allocator + Copy>(&self, alloc: A) -> Result<String<A>, AllocError>
        requires { IsTrue (nameable ⟦<R as RegisterNames>⟧.names self.now) }
        ensures { IfOk result (λ t. string_bytes t ≡ text ⟦<R as RegisterNames>⟧.names Xed row.jmpq_m self.now) }
    {
        xed_string(self, alloc)
    }
}

impl<R: Registers> RowAndOperands for jmpq_m<R> {
    type Family = R;

    ghost row_of = { λ _. row.jmpq_m };

    ghost operands_of = { λ i. i };

    #[tactic(auto, unfolding(cax64_operand::specs::Signature::signature_of))]
    #[inline(always)]
    fn hand_to<T: Task<R, X>, X>(&self, to: &mut X) -> T::Answer {
        T::take(
            of_one(Operand::ReadGprMem(self.rm64, Size::Quadword)),
            Row::jmpq_m,
            to,
        )
    }

    fn visit<V: RegisterVisitor<R>>(&mut self, visitor: &mut V) {
        visitor.read_gpr_mem(&mut self.rm64);
    }
}
