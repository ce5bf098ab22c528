//! A struct of the kind of `mulxl_rvm`, whose fields are of one type and so are easily exchanged.

ghost use Rattle.std.specs.Prelude.{None};
ghost use Rattle.cax64_machine_code.specs.declared.row.Row.TheVariants as row;
ghost use Rattle.cax64_operand.specs.declared.operand.Operand.TheVariants.{FixedReadGpr, ReadGprMem, WriteTwoGprs};
ghost use Rattle.cax64_operand.specs.declared.operand.Operands.{Operands};
ghost use Rattle.cax64_operand.specs.declared.operand.Operands.TheVariants.{Three};
ghost use Rattle.cax64_register.specs.declared.gpr.Size.TheVariants.{Doubleword};

use cax64_address::operand::GprMem;
use cax64_machine_code::row::Row;
use cax64_operand::{Operand, RegisterVisitor, RowAndOperands, Task, of_three, visit_two_gprs};
use cax64_register::{Fixed, Gpr, Registers, Size};
use std::marker::Model;

/// The high half of a product goes to `r32a`, the low half to `r32b`.
#[derive(Drop)]
pub struct mulxl_twin<R: Registers> {
    pub r32a: Gpr<R::WriteGpr>,
    pub r32b: Gpr<R::WriteGpr>,
    pub rm32: GprMem<R::ReadGpr, R::ReadGpr>,
    pub edx: Fixed<R::ReadGpr, 2>,
}

impl<R: Registers> Model for mulxl_twin<R> {
    ghost Value = { Operands R R.ReadGpr R.ReadWriteGpr R.WriteGpr R.ReadXmm R.ReadWriteXmm R.WriteXmm };

    ghost view = { λ i. Three (WriteTwoGprs i.r32a i.r32b Doubleword) (ReadGprMem i.rm32 Doubleword) (FixedReadGpr i.edx.0 2 None) };
}

impl<R: Registers> RowAndOperands for mulxl_twin<R> {
    type Family = R;

    ghost row_of = { λ _. row.mulxl_rvm };

    ghost operands_of = { λ i. i };

    #[tactic(auto, unfolding(cax64_operand::specs::Signature::signature_of))]
    #[inline(always)]
    fn hand_to<T: Task<R, X>, X>(&self, to: &mut X) -> T::Answer {
        T::take(
            of_three(
                Operand::WriteTwoGprs(*self.r32a.as_ref(), *self.r32b.as_ref(), Size::Doubleword),
                Operand::ReadGprMem(self.rm32, Size::Doubleword),
                Operand::FixedReadGpr(self.edx.0, 2, None),
            ),
            Row::mulxl_rvm,
            to,
        )
    }

    fn visit<V: RegisterVisitor<R>>(&mut self, visitor: &mut V) {
        visit_two_gprs(&mut self.r32a, &mut self.r32b, visitor);
        visitor.read_gpr_mem(&mut self.rm32);
        visitor.fixed_read_gpr(&mut self.edx.0, 2);
    }
}
