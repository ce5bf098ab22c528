//! What an instruction is.

ghost use Rattle.std.specs.Prelude.{◌≡◌};
ghost use Rattle.cax64_machine_code.specs.declared.row.Row.{Row};
ghost use Rattle.cax64_operand.specs.Fold.{fold};
ghost use Rattle.cax64_operand.specs.Signature.{HasSignature};
ghost use Rattle.cax64_operand.specs.Visit.{OperandsRun};
ghost use Rattle.cax64_operand.specs.declared.operand.Operands.{Operands};

use crate::fold::FromOperands;
use crate::operand::Operands;
use crate::task::{ItsRow, Made, Task};
use crate::visitor::RegisterVisitor;
use cax64_machine_code::row::Row;
use cax64_register::Registers;

/// What is an instruction: something with a row of the table and operands in the order of visits. What it means and what
/// it says of itself both follow from these.
pub trait HasOperands {
    /// The registers; plain numbers where it has none.
    type Family: Registers;

    ghost row_of: { Self → Row };

    ghost operands_of: { Self → Operands Self.Family Self.Family.ReadGpr Self.Family.ReadWriteGpr Self.Family.WriteGpr Self.Family.ReadXmm Self.Family.ReadWriteXmm Self.Family.WriteXmm };
}

impl<I: RowAndOperands> HasOperands for I {
    type Family = I::Family;

    ghost row_of = { I.row_of };

    ghost operands_of = { I.operands_of };
}

/// An instruction that gives its row and its operands in one call. All that it can do follows from these.
pub trait RowAndOperands {
    /// The registers; plain numbers where it has none.
    type Family: Registers;

    ghost row_of: { Self → Row };

    ghost operands_of: { Self → Operands Self.Family Self.Family.ReadGpr Self.Family.ReadWriteGpr Self.Family.WriteGpr Self.Family.ReadXmm Self.Family.ReadWriteXmm Self.Family.WriteXmm };

    /// Gives a task the row and what is made of the operands where they are listed. What holds instructions of several kinds
    /// hands on the one within, so that each kind has code of its own, in which the row is known.
    fn hand_to<T: Task<Self::Family, X>, X>(&self, to: &mut X) -> T::Answer
        requires { HasSignature (row_of self.now) (operands_of self.now) → T.asks (row_of self.now) (fold T.made_of_none T.made_with T.made_of_nop (operands_of self.now)) to.old }
        ensures answers { T.answers (row_of self.now) (fold T.made_of_none T.made_with T.made_of_nop (operands_of self.now)) to.old to.new result }
        ensures signature { HasSignature (row_of self.now) (operands_of self.now) };

    /// Goes over the registers, and puts what the visitor gives in their place. All else stays.
    fn visit<V: RegisterVisitor<Self::Family>>(&mut self, visitor: &mut V)
        ensures run { OperandsRun Self.Family.WriteGpr.eq V.steps visitor.old (operands_of self.old) (operands_of self.new) visitor.new }
        ensures row { row_of self.new ≡ row_of self.old };
}

/// The row of an instruction.
#[inline(always)]
pub fn row_of<I: RowAndOperands>(instruction: &I) -> Row
    ensures { result ≡ I.row_of instruction.now }
{
    instruction.hand_to::<ItsRow, ()>(&mut ())
}

/// What is wanted of the operands, made where they are listed.
#[inline(always)]
pub fn fold_operands<I: RowAndOperands, T: FromOperands<I::Family>>(instruction: &I) -> T
    ensures value { result ≡ fold T.made_of_none T.made_with T.made_of_nop (I.operands_of instruction.now) }
    ensures signature { HasSignature (I.row_of instruction.now) (I.operands_of instruction.now) }
{
    instruction.hand_to::<Made<T>, ()>(&mut ())
}

/// The operands of an instruction as a list.
pub fn operands_of<I: RowAndOperands>(instruction: &I) -> Operands<I::Family>
    ensures value { result ≡ I.operands_of instruction.now }
    ensures signature { HasSignature (I.row_of instruction.now) (I.operands_of instruction.now) }
{
    fold_operands(instruction)
}

/// The family of plain numbers, for instructions without registers.
pub struct Numbers;

impl Registers for Numbers {
    type ReadGpr = u8;

    type ReadWriteGpr = u8;

    type WriteGpr = u8;

    type ReadXmm = u8;

    type ReadWriteXmm = u8;

    type WriteXmm = u8;
}
