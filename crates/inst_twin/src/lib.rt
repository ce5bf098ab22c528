//! A twin of the enumeration of all instructions, with two of them, and one of a struct, on which wrong arms and fields
//! are tried quickly.
#![tactic(auto)]
#![allow(non_camel_case_types)]

ghost use Rattle.std.specs.Prelude.{◌≡◌};
ghost use Rattle.cax64_operand.specs.Fold.{fold};
ghost use Rattle.cax64_operand.specs.NopRow.{nop_row};
ghost use Rattle.cax64_operand.specs.Visit.{OperandsRun};
ghost use Rattle.cax64_operand.specs.declared.operand.Operands.TheVariants as operands;
ghost use Rattle.inst_twin.specs.Group.{group_of};
ghost use Rattle.inst_twin.specs.OfSignature.{OfSignature};
ghost use Rattle.inst_twin.specs.Twin.{row_of, operands_of};

mod mulx;

pub use crate::mulx::mulxl_twin;
use cax64_machine_code::row::Row;
use cax64_operand::{Nop, RegisterVisitor, RowAndOperands, Task};
use cax64_register::Registers;
use nop::nop_1b;

/// One of two instructions.
#[derive(Drop)]
pub enum Twin<R: Registers> {
    nop_1b(nop_1b),
    mulxl_twin(mulxl_twin<R>),
}

/// Hands on a no-operation.
#[tactic(auto, unfolding(crate::specs::OfSignature::OfSignature))]
fn give_nop<R: Registers, T: Task<R, X>, X>(nop: Nop, row: Row, to: &mut X) -> T::Answer
    requires row { row ≡ nop_row nop }
    requires asks { OfSignature {R = R} {A = R.ReadGpr} {B = R.ReadWriteGpr} {C = R.WriteGpr} {D = R.ReadXmm} {E = R.ReadWriteXmm} {F = R.WriteXmm} row (operands.Nop nop) → T.asks row (fold T.made_of_none T.made_with T.made_of_nop (operands.Nop nop)) to.old }
    ensures answers { T.answers row (fold T.made_of_none T.made_with T.made_of_nop (operands.Nop nop)) to.old to.new result }
{
    T::take(T::nop(nop), row, to)
}

impl<R: Registers> RowAndOperands for Twin<R> {
    type Family = R;

    ghost row_of = { row_of };

    ghost operands_of = { operands_of };

    #[tactic(auto, unfolding(crate::specs::OfSignature::OfSignature, crate::specs::Twin::row_of, crate::specs::Twin::operands_of))]
    fn hand_to<T: Task<R, X>, X>(&self, to: &mut X) -> T::Answer {
        match self {
            Twin::nop_1b(_) => give_nop::<R, T, X>(Nop::One, Row::nop_1b, to),
            Twin::mulxl_twin(i) => i.hand_to::<T, X>(to),
        }
    }

    #[tactic(auto, unfolding(crate::specs::Twin::row_of, crate::specs::Twin::operands_of, crate::specs::Group::group_of))]
    fn visit<V: RegisterVisitor<R>>(&mut self, visitor: &mut V) {
        match self {
            Twin::nop_1b(_) => {}
            Twin::mulxl_twin(_) => self.visit_multiply(visitor),
        }
    }
}

impl<R: Registers> Twin<R> {
    /// Visits what is within, which is of the first group.
    #[tactic(auto, unfolding(crate::specs::Twin::row_of, crate::specs::Twin::operands_of, crate::specs::Group::group_of))]
    #[inline(always)]
    fn visit_multiply<V: RegisterVisitor<R>>(&mut self, visitor: &mut V)
        requires { group_of self.old ≡ 0 }
        ensures run { OperandsRun R.WriteGpr.eq V.steps visitor.old (operands_of self.old) (operands_of self.new) visitor.new }
        ensures row { row_of self.new ≡ row_of self.old }
    {
        match self {
            Twin::mulxl_twin(i) => i.visit(visitor),
            _ => {}
        }
    }
}
