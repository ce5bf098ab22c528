//! What is done with an instruction, whichever it is.

ghost use Rattle.std.specs.Prelude.{◌≡◌};
ghost use Rattle.cax64_machine_code.specs.declared.row.Row.{Row};
ghost use Rattle.cax64_operand.specs.Made.{made};
ghost use Rattle.cax64_operand.specs.ItsRow.{its_row};

use crate::fold::FromOperands;
use crate::nop::Nop;
use crate::operand::Operand;
use cax64_machine_code::row::Row;
use cax64_register::Registers;

/// Something that is made of operands, and then does its work to a thing (a sink, for example) by the row.
pub trait Task<R: Registers, X>: FromOperands<R> {
    type Answer;

    // What the work asks for.
    ghost asks: { Row → Self → X → Type 0 };

    // What it answers, by the thing before and after.
    ghost answers: { Row → Self → X → X → Self.Answer → Type 0 };

    fn take(self, row: Row, to: &mut X) -> Self::Answer
        requires { asks row self to.old }
        ensures { answers row self to.old to.new result };
}

/// What is made of operands, which gives itself back: the task whose answer is the fold.
#[derive(Drop)]
pub struct Made<T> {
    pub made: T,
}

impl<R: Registers, T: FromOperands<R>> FromOperands<R> for Made<T> {
    ghost made_of_none = { made T.made_of_none };

    ghost made_with = { λ operand later. made (T.made_with operand later.made) };

    ghost made_of_nop = { λ nop. made (T.made_of_nop nop) };

    #[inline(always)]
    fn none() -> Made<T>
        ensures { result ≡ made T.made_of_none }
    {
        Made { made: T::none() }
    }

    #[inline(always)]
    fn with(self, operand: Operand<R>) -> Made<T>
        ensures { result ≡ made (T.made_with operand self.made) }
    {
        Made {
            made: self.made.with(operand),
        }
    }

    #[inline(always)]
    fn nop(nop: Nop) -> Made<T>
        ensures { result ≡ made (T.made_of_nop nop) }
    {
        Made { made: T::nop(nop) }
    }
}

impl<R: Registers, T: FromOperands<R>> Task<R, ()> for Made<T> {
    type Answer = T;

    ghost asks = { λ row task to. task ≡ task };

    ghost answers = { λ row task old new result. result ≡ task.made };

    #[inline(always)]
    fn take(self, _row: Row, _to: &mut ()) -> T
        ensures { result ≡ self.made }
    {
        self.made
    }
}

/// What asks for the row alone.
#[derive(Drop)]
pub struct ItsRow;

impl<R: Registers> FromOperands<R> for ItsRow {
    ghost made_of_none = { its_row };

    ghost made_with = { λ operand later. its_row };

    ghost made_of_nop = { λ nop. its_row };

    #[inline(always)]
    fn none() -> ItsRow
        ensures { result ≡ its_row }
    {
        ItsRow
    }

    #[inline(always)]
    fn with(self, _operand: Operand<R>) -> ItsRow
        ensures { result ≡ its_row }
    {
        ItsRow
    }

    #[inline(always)]
    fn nop(_nop: Nop) -> ItsRow
        ensures { result ≡ its_row }
    {
        ItsRow
    }
}

impl<R: Registers> Task<R, ()> for ItsRow {
    type Answer = Row;

    ghost asks = { λ row task to. task ≡ task };

    ghost answers = { λ row task old new result. result ≡ row };

    #[inline(always)]
    fn take(self, row: Row, _to: &mut ()) -> Row
        ensures { result ≡ row }
    {
        row
    }
}
