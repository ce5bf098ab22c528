//! An instruction of a user's own: a no-operation of as many bytes as it's asked for.

ghost use Rattle.std.specs.Prelude.{◌≡◌};
ghost use Rattle.cax64_operand.specs.NopRow.{nop_row};
ghost use Rattle.cax64_operand.specs.declared.operand.Operands.TheVariants as operands;

use cax64_machine_code::row::Row;
use cax64_operand::{Nop, Numbers, RegisterVisitor, RowAndOperands, Task};

/// Does nothing, in so many bytes. One list has fillers of all lengths.
#[derive(Clone, Copy, Debug, PartialEq)]
pub struct Filler(pub Nop);

impl RowAndOperands for Filler {
    type Family = Numbers;

    ghost row_of = { λ filler. nop_row filler.0 };

    ghost operands_of = { λ filler. operands.Nop filler.0 };

    fn hand_to<T: Task<Numbers, X>, X>(&self, to: &mut X) -> T::Answer {
        T::take(T::nop(self.0), row_of_length(self.0), to)
    }

    /// It has no registers.
    fn visit<V: RegisterVisitor<Numbers>>(&mut self, _visitor: &mut V) {}
}

fn row_of_length(nop: Nop) -> Row
    ensures { result ≡ nop_row nop }
{
    match nop {
        Nop::One => Row::nop_1b,
        Nop::Two => Row::nop_2b,
        Nop::Three | Nop::Four | Nop::Five | Nop::Seven | Nop::Eight => Row::nopl_rm,
        Nop::Six | Nop::Nine => Row::nopw_rm,
    }
}
