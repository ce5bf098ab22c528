// Written by table/write.py from table/instructions.txt.
//! `and`. (Intel SDM, volume 2, `AND`.)

ghost use Rattle.std.specs.Prelude.{◌≡◌, Some};
ghost use Rattle.cax64_machine_code.specs.declared.row.Row.TheVariants as row;
ghost use Rattle.cax64_operand.specs.declared.immediate.Immediate.TheVariants as immediate;
ghost use Rattle.cax64_operand.specs.declared.operand.Operand.TheVariants.{FixedReadWriteGpr, Imm};
ghost use Rattle.cax64_operand.specs.declared.operand.Operands.{Operands};
ghost use Rattle.cax64_operand.specs.declared.operand.Operands.TheVariants.{Two};
ghost use Rattle.cax64_register.specs.declared.gpr.Size.TheVariants.{Byte};

use cax64_immediate::Imm8;
use cax64_machine_code::row::Row;
use cax64_operand::{Immediate, Operand, RegisterVisitor, RowAndOperands, Task, of_two};
use cax64_register::{Fixed, Registers, Size};
use std::marker::Model;

/// `al` AND `imm8`.
#[derive(Drop)]
pub struct andb_i<R: Registers> {
    pub al: Fixed<R::ReadWriteGpr, 0>,
    pub imm8: Imm8,
}

impl<R: Registers> Model for andb_i<R> {
    ghost Value = { Operands R R.ReadGpr R.ReadWriteGpr R.WriteGpr R.ReadXmm R.ReadWriteXmm R.WriteXmm };

    ghost view = { λ i. Two (FixedReadWriteGpr i.al.0 0 (Some Byte)) (Imm (immediate.Imm8 i.imm8)) };
}

impl<R: Registers> andb_i<R> {
    pub fn new(al: Fixed<R::ReadWriteGpr, 0>, imm8: Imm8) -> Self
        ensures { result ≡ Two (FixedReadWriteGpr al.0 0 (Some Byte)) (Imm (immediate.Imm8 imm8)) }
    {
        andb_i { al, imm8 }
    }
}

impl<R: Registers> RowAndOperands for andb_i<R> {
    type Family = R;

    ghost row_of = { λ _. row.andb_i };

    ghost operands_of = { λ i. i };

    #[tactic(auto, unfolding(cax64_operand::specs::Signature::signature_of))]
    #[inline(always)]
    fn hand_to<T: Task<R, X>, X>(&self, to: &mut X) -> T::Answer {
        T::take(
            of_two(
                Operand::FixedReadWriteGpr(self.al.0, 0, Some(Size::Byte)),
                Operand::Imm(Immediate::Imm8(self.imm8.value())),
            ),
            Row::andb_i,
            to,
        )
    }

    fn visit<V: RegisterVisitor<R>>(&mut self, visitor: &mut V) {
        visitor.fixed_read_write_gpr(&mut self.al.0, 0);
    }
}
