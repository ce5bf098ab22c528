// Written by table/write.py from table/instructions.txt.
//! `andps`. (Intel SDM, volume 2, `ANDPS`.)

ghost use Rattle.std.specs.Prelude.{◌≡◌};
ghost use Rattle.cax64_machine_code.specs.declared.row.Row.TheVariants as row;
ghost use Rattle.cax64_operand.specs.declared.operand.Operand.TheVariants.{ReadWriteXmm, ReadXmmMem};
ghost use Rattle.cax64_operand.specs.declared.operand.Operands.{Operands};
ghost use Rattle.cax64_operand.specs.declared.operand.Operands.TheVariants.{Two};

use cax64_address::operand::XmmMem;
use cax64_machine_code::row::Row;
use cax64_operand::{Operand, RegisterVisitor, RowAndOperands, Task, of_two};
use cax64_register::{Registers, Xmm};
use std::marker::Model;

/// Bitwise logical AND of packed single precision floating-point values in `xmm1` and `xmm_m128`.
#[derive(Drop)]
pub struct andps_a<R: Registers> {
    pub xmm1: Xmm<R::ReadWriteXmm>,
    pub xmm_m128: XmmMem<R::ReadXmm, R::ReadGpr>,
}

impl<R: Registers> Model for andps_a<R> {
    ghost Value = { Operands R R.ReadGpr R.ReadWriteGpr R.WriteGpr R.ReadXmm R.ReadWriteXmm R.WriteXmm };

    ghost view = { λ i. Two (ReadWriteXmm i.xmm1) (ReadXmmMem i.xmm_m128) };
}

impl<R: Registers> andps_a<R> {
    pub fn new(xmm1: Xmm<R::ReadWriteXmm>, xmm_m128: XmmMem<R::ReadXmm, R::ReadGpr>) -> Self
        ensures { result ≡ Two (ReadWriteXmm xmm1) (ReadXmmMem xmm_m128) }
    {
        andps_a { xmm1, xmm_m128 }
    }
}

impl<R: Registers> RowAndOperands for andps_a<R> {
    type Family = R;

    ghost row_of = { λ _. row.andps_a };

    ghost operands_of = { λ i. i };

    #[tactic(auto, unfolding(cax64_operand::specs::Signature::signature_of))]
    #[inline(always)]
    fn hand_to<T: Task<R, X>, X>(&self, to: &mut X) -> T::Answer {
        T::take(
            of_two(
                Operand::ReadWriteXmm(*self.xmm1.as_ref()),
                Operand::ReadXmmMem(self.xmm_m128),
            ),
            Row::andps_a,
            to,
        )
    }

    fn visit<V: RegisterVisitor<R>>(&mut self, visitor: &mut V) {
        visitor.read_write_xmm(self.xmm1.as_mut());
        visitor.read_xmm_mem(&mut self.xmm_m128);
    }
}
