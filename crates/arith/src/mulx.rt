// Written by table/write.py from table/instructions.txt.
//! `mulx`. (Intel SDM, volume 2, `MULX`.)

ghost use Rattle.std.specs.Prelude.{◌≡◌, None};
ghost use Rattle.cax64_machine_code.specs.declared.row.Row.TheVariants as row;
ghost use Rattle.cax64_operand.specs.declared.operand.Operand.TheVariants.{FixedReadGpr, ReadGprMem, WriteTwoGprs};
ghost use Rattle.cax64_operand.specs.declared.operand.Operands.{Operands};
ghost use Rattle.cax64_operand.specs.declared.operand.Operands.TheVariants.{Three};
ghost use Rattle.cax64_register.specs.declared.gpr.Size.TheVariants.{Doubleword, Quadword};

use cax64_address::operand::GprMem;
use cax64_machine_code::row::Row;
use cax64_operand::{Operand, RegisterVisitor, RowAndOperands, Task, of_three, visit_two_gprs};
use cax64_register::{Fixed, Gpr, Registers, Size};
use std::marker::Model;

/// Unsigned multiply of `rm32` with `edx`: the high half goes to `r32a`, the low half to `r32b`. No flags are changed.
#[derive(Drop)]
pub struct mulxl_rvm<R: Registers> {
    pub r32a: Gpr<R::WriteGpr>,
    pub r32b: Gpr<R::WriteGpr>,
    pub rm32: GprMem<R::ReadGpr, R::ReadGpr>,
    pub edx: Fixed<R::ReadGpr, 2>,
}

impl<R: Registers> Model for mulxl_rvm<R> {
    ghost Value = { Operands R R.ReadGpr R.ReadWriteGpr R.WriteGpr R.ReadXmm R.ReadWriteXmm R.WriteXmm };

    ghost view = { λ i. Three (WriteTwoGprs i.r32a i.r32b Doubleword) (ReadGprMem i.rm32 Doubleword) (FixedReadGpr i.edx.0 2 None) };
}

impl<R: Registers> mulxl_rvm<R> {
    pub fn new(
        r32a: Gpr<R::WriteGpr>,
        r32b: Gpr<R::WriteGpr>,
        rm32: GprMem<R::ReadGpr, R::ReadGpr>,
        edx: Fixed<R::ReadGpr, 2>,
    ) -> Self
        ensures { result ≡ Three (WriteTwoGprs r32a r32b Doubleword) (ReadGprMem rm32 Doubleword) (FixedReadGpr edx.0 2 None) }
    {
        mulxl_rvm {
            r32a,
            r32b,
            rm32,
            edx,
        }
    }
}

impl<R: Registers> RowAndOperands for mulxl_rvm<R> {
    type Family = R;

    ghost row_of = { λ _. row.mulxl_rvm };

    ghost operands_of = { λ i. i };

    #[tactic(auto, unfolding(cax64_operand::specs::Signature::signature_of))]
    #[inline(always)]
    fn hand_to<T: Task<R, X>, X>(&self, to: &mut X) -> T::Answer {
        T::take(
            of_three(
                Operand::WriteTwoGprs(*self.r32a.as_ref(), *self.r32b.as_ref(), Size::Doubleword),
                Operand::ReadGprMem(self.rm32, Size::Doubleword),
                Operand::FixedReadGpr(self.edx.0, 2, None),
            ),
            Row::mulxl_rvm,
            to,
        )
    }

    fn visit<V: RegisterVisitor<R>>(&mut self, visitor: &mut V) {
        visit_two_gprs(&mut self.r32a, &mut self.r32b, visitor);
        visitor.read_gpr_mem(&mut self.rm32);
        visitor.fixed_read_gpr(&mut self.edx.0, 2);
    }
}

/// Unsigned multiply of `rm64` with `rdx`: the high half goes to `r64a`, the low half to `r64b`. No flags are changed.
#[derive(Drop)]
pub struct mulxq_rvm<R: Registers> {
    pub r64a: Gpr<R::WriteGpr>,
    pub r64b: Gpr<R::WriteGpr>,
    pub rm64: GprMem<R::ReadGpr, R::ReadGpr>,
    pub rdx: Fixed<R::ReadGpr, 2>,
}

impl<R: Registers> Model for mulxq_rvm<R> {
    ghost Value = { Operands R R.ReadGpr R.ReadWriteGpr R.WriteGpr R.ReadXmm R.ReadWriteXmm R.WriteXmm };

    ghost view = { λ i. Three (WriteTwoGprs i.r64a i.r64b Quadword) (ReadGprMem i.rm64 Quadword) (FixedReadGpr i.rdx.0 2 None) };
}

impl<R: Registers> mulxq_rvm<R> {
    pub fn new(
        r64a: Gpr<R::WriteGpr>,
        r64b: Gpr<R::WriteGpr>,
        rm64: GprMem<R::ReadGpr, R::ReadGpr>,
        rdx: Fixed<R::ReadGpr, 2>,
    ) -> Self
        ensures { result ≡ Three (WriteTwoGprs r64a r64b Quadword) (ReadGprMem rm64 Quadword) (FixedReadGpr rdx.0 2 None) }
    {
        mulxq_rvm {
            r64a,
            r64b,
            rm64,
            rdx,
        }
    }
}

impl<R: Registers> RowAndOperands for mulxq_rvm<R> {
    type Family = R;

    ghost row_of = { λ _. row.mulxq_rvm };

    ghost operands_of = { λ i. i };

    #[tactic(auto, unfolding(cax64_operand::specs::Signature::signature_of))]
    #[inline(always)]
    fn hand_to<T: Task<R, X>, X>(&self, to: &mut X) -> T::Answer {
        T::take(
            of_three(
                Operand::WriteTwoGprs(*self.r64a.as_ref(), *self.r64b.as_ref(), Size::Quadword),
                Operand::ReadGprMem(self.rm64, Size::Quadword),
                Operand::FixedReadGpr(self.rdx.0, 2, None),
            ),
            Row::mulxq_rvm,
            to,
        )
    }

    fn visit<V: RegisterVisitor<R>>(&mut self, visitor: &mut V) {
        visit_two_gprs(&mut self.r64a, &mut self.r64b, visitor);
        visitor.read_gpr_mem(&mut self.rm64);
        visitor.fixed_read_gpr(&mut self.rdx.0, 2);
    }
}
