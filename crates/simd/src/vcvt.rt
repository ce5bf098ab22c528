// Written by table/write.py from table/instructions.txt.
//! Conversions. (Intel SDM, volume 2, `CVTPD2PS` and `CVTTPD2DQ`.)

ghost use Rattle.std.specs.Prelude.{◌≡◌};
ghost use Rattle.cax64_machine_code.specs.declared.row.Row.TheVariants as row;
ghost use Rattle.cax64_operand.specs.declared.operand.Operand.TheVariants.{ReadXmmMem, WriteXmm};
ghost use Rattle.cax64_operand.specs.declared.operand.Operands.{Operands};
ghost use Rattle.cax64_operand.specs.declared.operand.Operands.TheVariants.{Two};

use cax64_address::operand::XmmMem;
use cax64_machine_code::row::Row;
use cax64_operand::{Operand, RegisterVisitor, RowAndOperands, Task, of_two};
use cax64_register::{Registers, Xmm};
use std::marker::Model;

/// Convert two packed double precision floating-point values in `xmm_m128` to two single precision floating-point
/// values in `xmm1`.
#[derive(Drop)]
pub struct vcvtpd2ps_a<R: Registers> {
    pub xmm1: Xmm<R::WriteXmm>,
    pub xmm_m128: XmmMem<R::ReadXmm, R::ReadGpr>,
}

impl<R: Registers> Model for vcvtpd2ps_a<R> {
    ghost Value = { Operands R R.ReadGpr R.ReadWriteGpr R.WriteGpr R.ReadXmm R.ReadWriteXmm R.WriteXmm };

    ghost view = { λ i. Two (WriteXmm i.xmm1) (ReadXmmMem i.xmm_m128) };
}

impl<R: Registers> vcvtpd2ps_a<R> {
    pub fn new(xmm1: Xmm<R::WriteXmm>, xmm_m128: XmmMem<R::ReadXmm, R::ReadGpr>) -> Self
        ensures { result ≡ Two (WriteXmm xmm1) (ReadXmmMem xmm_m128) }
    {
        vcvtpd2ps_a { xmm1, xmm_m128 }
    }
}

impl<R: Registers> RowAndOperands for vcvtpd2ps_a<R> {
    type Family = R;

    ghost row_of = { λ _. row.vcvtpd2ps_a };

    ghost operands_of = { λ i. i };

    #[tactic(auto, unfolding(cax64_operand::specs::Signature::signature_of))]
    #[inline(always)]
    fn hand_to<T: Task<R, X>, X>(&self, to: &mut X) -> T::Answer {
        T::take(
            of_two(
                Operand::WriteXmm(*self.xmm1.as_ref()),
                Operand::ReadXmmMem(self.xmm_m128),
            ),
            Row::vcvtpd2ps_a,
            to,
        )
    }

    fn visit<V: RegisterVisitor<R>>(&mut self, visitor: &mut V) {
        visitor.write_xmm(self.xmm1.as_mut());
        visitor.read_xmm_mem(&mut self.xmm_m128);
    }
}

/// Convert two packed double precision floating-point values in `xmm_m128` to two signed doubleword integers in `xmm1`
/// using truncation.
#[derive(Drop)]
pub struct vcvttpd2dq_a<R: Registers> {
    pub xmm1: Xmm<R::WriteXmm>,
    pub xmm_m128: XmmMem<R::ReadXmm, R::ReadGpr>,
}

impl<R: Registers> Model for vcvttpd2dq_a<R> {
    ghost Value = { Operands R R.ReadGpr R.ReadWriteGpr R.WriteGpr R.ReadXmm R.ReadWriteXmm R.WriteXmm };

    ghost view = { λ i. Two (WriteXmm i.xmm1) (ReadXmmMem i.xmm_m128) };
}

impl<R: Registers> vcvttpd2dq_a<R> {
    pub fn new(xmm1: Xmm<R::WriteXmm>, xmm_m128: XmmMem<R::ReadXmm, R::ReadGpr>) -> Self
        ensures { result ≡ Two (WriteXmm xmm1) (ReadXmmMem xmm_m128) }
    {
        vcvttpd2dq_a { xmm1, xmm_m128 }
    }
}

impl<R: Registers> RowAndOperands for vcvttpd2dq_a<R> {
    type Family = R;

    ghost row_of = { λ _. row.vcvttpd2dq_a };

    ghost operands_of = { λ i. i };

    #[tactic(auto, unfolding(cax64_operand::specs::Signature::signature_of))]
    #[inline(always)]
    fn hand_to<T: Task<R, X>, X>(&self, to: &mut X) -> T::Answer {
        T::take(
            of_two(
                Operand::WriteXmm(*self.xmm1.as_ref()),
                Operand::ReadXmmMem(self.xmm_m128),
            ),
            Row::vcvttpd2dq_a,
            to,
        )
    }

    fn visit<V: RegisterVisitor<R>>(&mut self, visitor: &mut V) {
        visitor.write_xmm(self.xmm1.as_mut());
        visitor.read_xmm_mem(&mut self.xmm_m128);
    }
}
