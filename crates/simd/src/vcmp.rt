// Written by table/write.py from table/instructions.txt.
//! VEX comparisons. (Intel SDM, volume 2, `CMPPS`, `CMPPD`, `CMPSS` and `CMPSD`.)

ghost use Rattle.std.specs.Prelude.{◌≡◌, IsTrue, IfOk, string_bytes};
ghost use Rattle.cax64_address.specs.declared.text.Dialect.TheVariants.{Xed};
ghost use Rattle.cax64_machine_code.specs.declared.row.Row.TheVariants as row;
ghost use Rattle.cax64_operand.specs.declared.immediate.Immediate.TheVariants as immediate;
ghost use Rattle.cax64_operand.specs.declared.operand.Operand.TheVariants.{Imm, ReadXmm, ReadXmmMem, WriteXmm};
ghost use Rattle.cax64_operand.specs.declared.operand.Operands.{Operands};
ghost use Rattle.cax64_operand.specs.declared.operand.Operands.TheVariants.{Four};
ghost use Rattle.cax64_text.specs.Text.{nameable, text};

use cax64_address::operand::XmmMem;
use cax64_immediate::Imm8;
use cax64_machine_code::row::Row;
use cax64_operand::{Immediate, Operand, RegisterVisitor, RowAndOperands, Task, of_four};
use cax64_register::{Registers, Xmm};
use cax64_text::{RegisterNames, xed_string};
use std::alloc::{AllocError, Allocator};
use std::marker::Model;

/// Compare packed single precision floating-point values in `xmm_m128` and `xmm2` using bits 4:0 of `imm8` as a
/// comparison predicate.
#[derive(Drop)]
pub struct vcmpps_b<R: Registers> {
    pub xmm1: Xmm<R::WriteXmm>,
    pub xmm2: Xmm<R::ReadXmm>,
    pub xmm_m128: XmmMem<R::ReadXmm, R::ReadGpr>,
    pub imm8: Imm8,
}

impl<R: Registers> Model for vcmpps_b<R> {
    ghost Value = { Operands R R.ReadGpr R.ReadWriteGpr R.WriteGpr R.ReadXmm R.ReadWriteXmm R.WriteXmm };

    ghost view = { λ i. Four (WriteXmm i.xmm1) (ReadXmm i.xmm2) (ReadXmmMem i.xmm_m128) (Imm (immediate.VexPredicate i.imm8)) };
}

impl<R: Registers> vcmpps_b<R> {
    pub fn new(
        xmm1: Xmm<R::WriteXmm>,
        xmm2: Xmm<R::ReadXmm>,
        xmm_m128: XmmMem<R::ReadXmm, R::ReadGpr>,
        imm8: Imm8,
    ) -> Self
        ensures { result ≡ Four (WriteXmm xmm1) (ReadXmm xmm2) (ReadXmmMem xmm_m128) (Imm (immediate.VexPredicate imm8)) }
    {
        vcmpps_b {
            xmm1,
            xmm2,
            xmm_m128,
            imm8,
        }
    }

    /// The text as XED prints it, of registers that are all `nameable`. Fails where there is no memory.
    pub fn to_string_xed<A: Allocator + Copy>(&self, alloc: A) -> Result<String<A>, AllocError>
        requires { IsTrue (nameable ⟦<R as RegisterNames>⟧.names self.now) }
        ensures { IfOk result (λ t. string_bytes t ≡ text ⟦<R as RegisterNames>⟧.names Xed row.vcmpps_b self.now) }
    {
        xed_string(self, alloc)
    }
}

impl<R: Registers> RowAndOperands for vcmpps_b<R> {
    type Family = R;

    ghost row_of = { λ _. row.vcmpps_b };

    ghost operands_of = { λ i. i };

    #[tactic(auto, unfolding(cax64_operand::specs::Signature::signature_of))]
    #[inline(always)]
    fn hand_to<T: Task<R, X>, X>(&self, to: &mut X) -> T::Answer {
        T::take(
            of_four(
                Operand::WriteXmm(*self.xmm1.as_ref()),
                Operand::ReadXmm(*self.xmm2.as_ref()),
                Operand::ReadXmmMem(self.xmm_m128),
                Operand::Imm(Immediate::VexPredicate(self.imm8.value())),
            ),
            Row::vcmpps_b,
            to,
        )
    }

    fn visit<V: RegisterVisitor<R>>(&mut self, visitor: &mut V) {
        visitor.write_xmm(self.xmm1.as_mut());
        visitor.read_xmm(self.xmm2.as_mut());
        visitor.read_xmm_mem(&mut self.xmm_m128);
    }
}

/// Compare packed double precision floating-point values in `xmm_m128` and `xmm2` using bits 4:0 of `imm8` as a
/// comparison predicate.
#[derive(Drop)]
pub struct vcmppd_b<R: Registers> {
    pub xmm1: Xmm<R::WriteXmm>,
    pub xmm2: Xmm<R::ReadXmm>,
    pub xmm_m128: XmmMem<R::ReadXmm, R::ReadGpr>,
    pub imm8: Imm8,
}

impl<R: Registers> Model for vcmppd_b<R> {
    ghost Value = { Operands R R.ReadGpr R.ReadWriteGpr R.WriteGpr R.ReadXmm R.ReadWriteXmm R.WriteXmm };

    ghost view = { λ i. Four (WriteXmm i.xmm1) (ReadXmm i.xmm2) (ReadXmmMem i.xmm_m128) (Imm (immediate.VexPredicate i.imm8)) };
}

impl<R: Registers> vcmppd_b<R> {
    pub fn new(
        xmm1: Xmm<R::WriteXmm>,
        xmm2: Xmm<R::ReadXmm>,
        xmm_m128: XmmMem<R::ReadXmm, R::ReadGpr>,
        imm8: Imm8,
    ) -> Self
        ensures { result ≡ Four (WriteXmm xmm1) (ReadXmm xmm2) (ReadXmmMem xmm_m128) (Imm (immediate.VexPredicate imm8)) }
    {
        vcmppd_b {
            xmm1,
            xmm2,
            xmm_m128,
            imm8,
        }
    }

    /// The text as XED prints it, of registers that are all `nameable`. Fails where there is no memory.
    pub fn to_string_xed<A: Allocator + Copy>(&self, alloc: A) -> Result<String<A>, AllocError>
        requires { IsTrue (nameable ⟦<R as RegisterNames>⟧.names self.now) }
        ensures { IfOk result (λ t. string_bytes t ≡ text ⟦<R as RegisterNames>⟧.names Xed row.vcmppd_b self.now) }
    {
        xed_string(self, alloc)
    }
}

impl<R: Registers> RowAndOperands for vcmppd_b<R> {
    type Family = R;

    ghost row_of = { λ _. row.vcmppd_b };

    ghost operands_of = { λ i. i };

    #[tactic(auto, unfolding(cax64_operand::specs::Signature::signature_of))]
    #[inline(always)]
    fn hand_to<T: Task<R, X>, X>(&self, to: &mut X) -> T::Answer {
        T::take(
            of_four(
                Operand::WriteXmm(*self.xmm1.as_ref()),
                Operand::ReadXmm(*self.xmm2.as_ref()),
                Operand::ReadXmmMem(self.xmm_m128),
                Operand::Imm(Immediate::VexPredicate(self.imm8.value())),
            ),
            Row::vcmppd_b,
            to,
        )
    }

    fn visit<V: RegisterVisitor<R>>(&mut self, visitor: &mut V) {
        visitor.write_xmm(self.xmm1.as_mut());
        visitor.read_xmm(self.xmm2.as_mut());
        visitor.read_xmm_mem(&mut self.xmm_m128);
    }
}

/// Compare low single precision floating-point value in `xmm_m32` and `xmm2` using bits 4:0 of `imm8` as a comparison
/// predicate.
#[derive(Drop)]
pub struct vcmpss_b<R: Registers> {
    pub xmm1: Xmm<R::WriteXmm>,
    pub xmm2: Xmm<R::ReadXmm>,
    pub xmm_m32: XmmMem<R::ReadXmm, R::ReadGpr>,
    pub imm8: Imm8,
}

impl<R: Registers> Model for vcmpss_b<R> {
    ghost Value = { Operands R R.ReadGpr R.ReadWriteGpr R.WriteGpr R.ReadXmm R.ReadWriteXmm R.WriteXmm };

    ghost view = { λ i. Four (WriteXmm i.xmm1) (ReadXmm i.xmm2) (ReadXmmMem i.xmm_m32) (Imm (immediate.VexPredicate i.imm8)) };
}

impl<R: Registers> vcmpss_b<R> {
    pub fn new(
        xmm1: Xmm<R::WriteXmm>,
        xmm2: Xmm<R::ReadXmm>,
        xmm_m32: XmmMem<R::ReadXmm, R::ReadGpr>,
        imm8: Imm8,
    ) -> Self
        ensures { result ≡ Four (WriteXmm xmm1) (ReadXmm xmm2) (ReadXmmMem xmm_m32) (Imm (immediate.VexPredicate imm8)) }
    {
        vcmpss_b {
            xmm1,
            xmm2,
            xmm_m32,
            imm8,
        }
    }

    /// The text as XED prints it, of registers that are all `nameable`. Fails where there is no memory.
    pub fn to_string_xed<A: Allocator + Copy>(&self, alloc: A) -> Result<String<A>, AllocError>
        requires { IsTrue (nameable ⟦<R as RegisterNames>⟧.names self.now) }
        ensures { IfOk result (λ t. string_bytes t ≡ text ⟦<R as RegisterNames>⟧.names Xed row.vcmpss_b self.now) }
    {
        xed_string(self, alloc)
    }
}

impl<R: Registers> RowAndOperands for vcmpss_b<R> {
    type Family = R;

    ghost row_of = { λ _. row.vcmpss_b };

    ghost operands_of = { λ i. i };

    #[tactic(auto, unfolding(cax64_operand::specs::Signature::signature_of))]
    #[inline(always)]
    fn hand_to<T: Task<R, X>, X>(&self, to: &mut X) -> T::Answer {
        T::take(
            of_four(
                Operand::WriteXmm(*self.xmm1.as_ref()),
                Operand::ReadXmm(*self.xmm2.as_ref()),
                Operand::ReadXmmMem(self.xmm_m32),
                Operand::Imm(Immediate::VexPredicate(self.imm8.value())),
            ),
            Row::vcmpss_b,
            to,
        )
    }

    fn visit<V: RegisterVisitor<R>>(&mut self, visitor: &mut V) {
        visitor.write_xmm(self.xmm1.as_mut());
        visitor.read_xmm(self.xmm2.as_mut());
        visitor.read_xmm_mem(&mut self.xmm_m32);
    }
}

/// Compare low double precision floating-point value in `xmm_m64` and `xmm2` using bits 4:0 of `imm8` as a comparison
/// predicate.
#[derive(Drop)]
pub struct vcmpsd_b<R: Registers> {
    pub xmm1: Xmm<R::WriteXmm>,
    pub xmm2: Xmm<R::ReadXmm>,
    pub xmm_m64: XmmMem<R::ReadXmm, R::ReadGpr>,
    pub imm8: Imm8,
}

impl<R: Registers> Model for vcmpsd_b<R> {
    ghost Value = { Operands R R.ReadGpr R.ReadWriteGpr R.WriteGpr R.ReadXmm R.ReadWriteXmm R.WriteXmm };

    ghost view = { λ i. Four (WriteXmm i.xmm1) (ReadXmm i.xmm2) (ReadXmmMem i.xmm_m64) (Imm (immediate.VexPredicate i.imm8)) };
}

impl<R: Registers> vcmpsd_b<R> {
    pub fn new(
        xmm1: Xmm<R::WriteXmm>,
        xmm2: Xmm<R::ReadXmm>,
        xmm_m64: XmmMem<R::ReadXmm, R::ReadGpr>,
        imm8: Imm8,
    ) -> Self
        ensures { result ≡ Four (WriteXmm xmm1) (ReadXmm xmm2) (ReadXmmMem xmm_m64) (Imm (immediate.VexPredicate imm8)) }
    {
        vcmpsd_b {
            xmm1,
            xmm2,
            xmm_m64,
            imm8,
        }
    }

    /// The text as XED prints it, of registers that are all `nameable`. Fails where there is no memory.
    pub fn to_string_xed<A: Allocator + Copy>(&self, alloc: A) -> Result<String<A>, AllocError>
        requires { IsTrue (nameable ⟦<R as RegisterNames>⟧.names self.now) }
        ensures { IfOk result (λ t. string_bytes t ≡ text ⟦<R as RegisterNames>⟧.names Xed row.vcmpsd_b self.now) }
    {
        xed_string(self, alloc)
    }
}

impl<R: Registers> RowAndOperands for vcmpsd_b<R> {
    type Family = R;

    ghost row_of = { λ _. row.vcmpsd_b };

    ghost operands_of = { λ i. i };

    #[tactic(auto, unfolding(cax64_operand::specs::Signature::signature_of))]
    #[inline(always)]
    fn hand_to<T: Task<R, X>, X>(&self, to: &mut X) -> T::Answer {
        T::take(
            of_four(
                Operand::WriteXmm(*self.xmm1.as_ref()),
                Operand::ReadXmm(*self.xmm2.as_ref()),
                Operand::ReadXmmMem(self.xmm_m64),
                Operand::Imm(Immediate::VexPredicate(self.imm8.value())),
            ),
            Row::vcmpsd_b,
            to,
        )
    }

    fn visit<V: RegisterVisitor<R>>(&mut self, visitor: &mut V) {
        visitor.write_xmm(self.xmm1.as_mut());
        visitor.read_xmm(self.xmm2.as_mut());
        visitor.read_xmm_mem(&mut self.xmm_m64);
    }
}
