// Written by table/write.py from table/instructions.txt.
//! Comparisons. (Intel SDM, volume 2, `CMPPS`, `CMPPD`, `CMPSS` and `CMPSD`.)

ghost use Rattle.std.specs.Prelude.{◌≡◌, IsTrue, IfOk, string_bytes};
ghost use Rattle.cax64_address.specs.declared.text.Dialect.TheVariants.{Xed};
ghost use Rattle.cax64_machine_code.specs.declared.row.Row.TheVariants as row;
ghost use Rattle.cax64_operand.specs.declared.immediate.Immediate.TheVariants as immediate;
ghost use Rattle.cax64_operand.specs.declared.operand.Operand.TheVariants.{Imm, ReadWriteXmm, ReadXmmMem};
ghost use Rattle.cax64_operand.specs.declared.operand.Operands.{Operands};
ghost use Rattle.cax64_operand.specs.declared.operand.Operands.TheVariants.{Three};
ghost use Rattle.cax64_text.specs.Text.{nameable, text};

use cax64_address::operand::XmmMem;
use cax64_immediate::Imm8;
use cax64_machine_code::row::Row;
use cax64_operand::{Immediate, Operand, RegisterVisitor, RowAndOperands, Task, of_three};
use cax64_register::{Registers, Xmm};
use cax64_text::{RegisterNames, xed_string};
use std::alloc::{AllocError, Allocator};
use std::marker::Model;

/// Compare packed single precision floating-point values in `xmm_m128` and `xmm1` using bits 2:0 of `imm8` as a
/// comparison predicate.
#[derive(Drop)]
pub struct cmpps_a<R: Registers> {
    pub xmm1: Xmm<R::ReadWriteXmm>,
    pub xmm_m128: XmmMem<R::ReadXmm, R::ReadGpr>,
    pub imm8: Imm8,
}

impl<R: Registers> Model for cmpps_a<R> {
    ghost Value = { Operands R R.ReadGpr R.ReadWriteGpr R.WriteGpr R.ReadXmm R.ReadWriteXmm R.WriteXmm };

    ghost view = { λ i. Three (ReadWriteXmm i.xmm1) (ReadXmmMem i.xmm_m128) (Imm (immediate.Predicate i.imm8)) };
}

impl<R: Registers> cmpps_a<R> {
    pub fn new(
        xmm1: Xmm<R::ReadWriteXmm>,
        xmm_m128: XmmMem<R::ReadXmm, R::ReadGpr>,
        imm8: Imm8,
    ) -> Self
        ensures { result ≡ Three (ReadWriteXmm xmm1) (ReadXmmMem xmm_m128) (Imm (immediate.Predicate imm8)) }
    {
        cmpps_a {
            xmm1,
            xmm_m128,
            imm8,
        }
    }

    /// The text as XED prints it, of registers that are all `nameable`. Fails where there is no memory.
    pub fn to_string_xed<A: Allocator + Copy>(&self, alloc: A) -> Result<String<A>, AllocError>
        requires { IsTrue (nameable ⟦<R as RegisterNames>⟧.names self.now) }
        ensures { IfOk result (λ t. string_bytes t ≡ text ⟦<R as RegisterNames>⟧.names Xed row.cmpps_a self.now) }
    {
        xed_string(self, alloc)
    }
}

impl<R: Registers> RowAndOperands for cmpps_a<R> {
    type Family = R;

    ghost row_of = { λ _. row.cmpps_a };

    ghost operands_of = { λ i. i };

    #[tactic(auto, unfolding(cax64_operand::specs::Signature::signature_of))]
    #[inline(always)]
    fn hand_to<T: Task<R, X>, X>(&self, to: &mut X) -> T::Answer {
        T::take(
            of_three(
                Operand::ReadWriteXmm(*self.xmm1.as_ref()),
                Operand::ReadXmmMem(self.xmm_m128),
                Operand::Imm(Immediate::Predicate(self.imm8.value())),
            ),
            Row::cmpps_a,
            to,
        )
    }

    fn visit<V: RegisterVisitor<R>>(&mut self, visitor: &mut V) {
        visitor.read_write_xmm(self.xmm1.as_mut());
        visitor.read_xmm_mem(&mut self.xmm_m128);
    }
}

/// Compare packed double precision floating-point values in `xmm_m128` and `xmm1` using bits 2:0 of `imm8` as a
/// comparison predicate.
#[derive(Drop)]
pub struct cmppd_a<R: Registers> {
    pub xmm1: Xmm<R::ReadWriteXmm>,
    pub xmm_m128: XmmMem<R::ReadXmm, R::ReadGpr>,
    pub imm8: Imm8,
}

impl<R: Registers> Model for cmppd_a<R> {
    ghost Value = { Operands R R.ReadGpr R.ReadWriteGpr R.WriteGpr R.ReadXmm R.ReadWriteXmm R.WriteXmm };

    ghost view = { λ i. Three (ReadWriteXmm i.xmm1) (ReadXmmMem i.xmm_m128) (Imm (immediate.Predicate i.imm8)) };
}

impl<R: Registers> cmppd_a<R> {
    pub fn new(
        xmm1: Xmm<R::ReadWriteXmm>,
        xmm_m128: XmmMem<R::ReadXmm, R::ReadGpr>,
        imm8: Imm8,
    ) -> Self
        ensures { result ≡ Three (ReadWriteXmm xmm1) (ReadXmmMem xmm_m128) (Imm (immediate.Predicate imm8)) }
    {
        cmppd_a {
            xmm1,
            xmm_m128,
            imm8,
        }
    }

    /// The text as XED prints it, of registers that are all `nameable`. Fails where there is no memory.
    pub fn to_string_xed<A: Allocator + Copy>(&self, alloc: A) -> Result<String<A>, AllocError>
        requires { IsTrue (nameable ⟦<R as RegisterNames>⟧.names self.now) }
        ensures { IfOk result (λ t. string_bytes t ≡ text ⟦<R as RegisterNames>⟧.names Xed row.cmppd_a self.now) }
    {
        xed_string(self, alloc)
    }
}

impl<R: Registers> RowAndOperands for cmppd_a<R> {
    type Family = R;

    ghost row_of = { λ _. row.cmppd_a };

    ghost operands_of = { λ i. i };

    #[tactic(auto, unfolding(cax64_operand::specs::Signature::signature_of))]
    #[inline(always)]
    fn hand_to<T: Task<R, X>, X>(&self, to: &mut X) -> T::Answer {
        T::take(
            of_three(
                Operand::ReadWriteXmm(*self.xmm1.as_ref()),
                Operand::ReadXmmMem(self.xmm_m128),
                Operand::Imm(Immediate::Predicate(self.imm8.value())),
            ),
            Row::cmppd_a,
            to,
        )
    }

    fn visit<V: RegisterVisitor<R>>(&mut self, visitor: &mut V) {
        visitor.read_write_xmm(self.xmm1.as_mut());
        visitor.read_xmm_mem(&mut self.xmm_m128);
    }
}

/// Compare low single precision floating-point value in `xmm_m32` and `xmm1` using bits 2:0 of `imm8` as a comparison
/// predicate.
#[derive(Drop)]
pub struct cmpss_a<R: Registers> {
    pub xmm1: Xmm<R::ReadWriteXmm>,
    pub xmm_m32: XmmMem<R::ReadXmm, R::ReadGpr>,
    pub imm8: Imm8,
}

impl<R: Registers> Model for cmpss_a<R> {
    ghost Value = { Operands R R.ReadGpr R.ReadWriteGpr R.WriteGpr R.ReadXmm R.ReadWriteXmm R.WriteXmm };

    ghost view = { λ i. Three (ReadWriteXmm i.xmm1) (ReadXmmMem i.xmm_m32) (Imm (immediate.Predicate i.imm8)) };
}

impl<R: Registers> cmpss_a<R> {
    pub fn new(
        xmm1: Xmm<R::ReadWriteXmm>,
        xmm_m32: XmmMem<R::ReadXmm, R::ReadGpr>,
        imm8: Imm8,
    ) -> Self
        ensures { result ≡ Three (ReadWriteXmm xmm1) (ReadXmmMem xmm_m32) (Imm (immediate.Predicate imm8)) }
    {
        cmpss_a {
            xmm1,
            xmm_m32,
            imm8,
        }
    }

    /// The text as XED prints it, of registers that are all `nameable`. Fails where there is no memory.
    pub fn to_string_xed<A: Allocator + Copy>(&self, alloc: A) -> Result<String<A>, AllocError>
        requires { IsTrue (nameable ⟦<R as RegisterNames>⟧.names self.now) }
        ensures { IfOk result (λ t. string_bytes t ≡ text ⟦<R as RegisterNames>⟧.names Xed row.cmpss_a self.now) }
    {
        xed_string(self, alloc)
    }
}

impl<R: Registers> RowAndOperands for cmpss_a<R> {
    type Family = R;

    ghost row_of = { λ _. row.cmpss_a };

    ghost operands_of = { λ i. i };

    #[tactic(auto, unfolding(cax64_operand::specs::Signature::signature_of))]
    #[inline(always)]
    fn hand_to<T: Task<R, X>, X>(&self, to: &mut X) -> T::Answer {
        T::take(
            of_three(
                Operand::ReadWriteXmm(*self.xmm1.as_ref()),
                Operand::ReadXmmMem(self.xmm_m32),
                Operand::Imm(Immediate::Predicate(self.imm8.value())),
            ),
            Row::cmpss_a,
            to,
        )
    }

    fn visit<V: RegisterVisitor<R>>(&mut self, visitor: &mut V) {
        visitor.read_write_xmm(self.xmm1.as_mut());
        visitor.read_xmm_mem(&mut self.xmm_m32);
    }
}

/// Compare low double precision floating-point value in `xmm_m64` and `xmm1` using bits 2:0 of `imm8` as a comparison
/// predicate.
#[derive(Drop)]
pub struct cmpsd_a<R: Registers> {
    pub xmm1: Xmm<R::ReadWriteXmm>,
    pub xmm_m64: XmmMem<R::ReadXmm, R::ReadGpr>,
    pub imm8: Imm8,
}

impl<R: Registers> Model for cmpsd_a<R> {
    ghost Value = { Operands R R.ReadGpr R.ReadWriteGpr R.WriteGpr R.ReadXmm R.ReadWriteXmm R.WriteXmm };

    ghost view = { λ i. Three (ReadWriteXmm i.xmm1) (ReadXmmMem i.xmm_m64) (Imm (immediate.Predicate i.imm8)) };
}

impl<R: Registers> cmpsd_a<R> {
    pub fn new(
        xmm1: Xmm<R::ReadWriteXmm>,
        xmm_m64: XmmMem<R::ReadXmm, R::ReadGpr>,
        imm8: Imm8,
    ) -> Self
        ensures { result ≡ Three (ReadWriteXmm xmm1) (ReadXmmMem xmm_m64) (Imm (immediate.Predicate imm8)) }
    {
        cmpsd_a {
            xmm1,
            xmm_m64,
            imm8,
        }
    }

    /// The text as XED prints it, of registers that are all `nameable`. Fails where there is no memory.
    pub fn to_string_xed<A: Allocator + Copy>(&self, alloc: A) -> Result<String<A>, AllocError>
        requires { IsTrue (nameable ⟦<R as RegisterNames>⟧.names self.now) }
        ensures { IfOk result (λ t. string_bytes t ≡ text ⟦<R as RegisterNames>⟧.names Xed row.cmpsd_a self.now) }
    {
        xed_string(self, alloc)
    }
}

impl<R: Registers> RowAndOperands for cmpsd_a<R> {
    type Family = R;

    ghost row_of = { λ _. row.cmpsd_a };

    ghost operands_of = { λ i. i };

    #[tactic(auto, unfolding(cax64_operand::specs::Signature::signature_of))]
    #[inline(always)]
    fn hand_to<T: Task<R, X>, X>(&self, to: &mut X) -> T::Answer {
        T::take(
            of_three(
                Operand::ReadWriteXmm(*self.xmm1.as_ref()),
                Operand::ReadXmmMem(self.xmm_m64),
                Operand::Imm(Immediate::Predicate(self.imm8.value())),
            ),
            Row::cmpsd_a,
            to,
        )
    }

    fn visit<V: RegisterVisitor<R>>(&mut self, visitor: &mut V) {
        visitor.read_write_xmm(self.xmm1.as_mut());
        visitor.read_xmm_mem(&mut self.xmm_m64);
    }
}
