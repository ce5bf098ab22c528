//! What the constants of [`ops`](crate::ops) are: lines by the operands that they take, each with what makes an
//! instruction of it. Registers are numbers: of general and of vector registers, 16 and up of virtual ones. Which of them
//! an instruction may have is tested where it's encoded.

ghost use Rattle.std.specs.Prelude.{◌≡◌, ⊤, None, Some};
ghost use Rattle.cax64_encoder.specs.declared.number.Number.TheVariants.{Settled};
ghost use Rattle.cax64_encoder.specs.declared.role.PlaceOperand.TheVariants as operand;
ghost use Rattle.x64_lines.specs.Shape.{shape_of};
ghost use Rattle.x64_core.specs.View.{core_view};
ghost use Rattle.x64_lines.specs.declared.shapes.OpFields.TheVariants as fields;
ghost use Rattle.x64_lines.specs.declared.shapes.OpImm.TheVariants as imm;

use crate::immediate::CoreImm;
use crate::instruction::Core;
use cax64_address::amode::Amode;
use std::alloc::AllocError;
use std::marker::PhantomData;
use x64_lines::Op;
use x64_place::FlatPlace;

/// Lines without operands in the bytes.
#[derive(Clone, Copy, Debug, PartialEq)]
pub struct Bare {
    pub(crate) op: Op,
    ghost fields: { (shape_of op.number).fields ≡ fields.Bare },
    ghost imm: { (shape_of op.number).imm ≡ imm.None },
}

impl Bare {
    /// The line.
    pub fn op(self) -> Op
        ensures { result ≡ self.op }
    {
        self.op
    }

    /// The instruction.
    #[inline(always)]
    pub fn bare(self) -> Core
        ensures { core_view result ≡ record { op = self.op.number; reg = None; vvvv = None; place = operand.NoPlace; imm = None } }
    {
        Core {
            place: FlatPlace::ABSENT,
            imm: 0,
            op: self.op,
            reg: 0,
            vvvv: 0,
        }
    }
}

/// Lines with an immediate alone.
#[derive(Copy)]
pub struct Imm<I: CoreImm> {
    pub(crate) op: Op,
    pub(crate) of: PhantomData<I>,
    ghost fields: { (shape_of op.number).fields ≡ fields.Bare },
    ghost imm: { (shape_of op.number).imm ≡ I.kind },
}

impl<I: CoreImm> Clone for Imm<I> {
    ghost is_clone = { λ old new. new ≡ old };

    ghost is_infallible = { λ _. ⊤ };

    fn clone(&self) -> Result<Imm<I>, AllocError> {
        Ok(*self)
    }
}

impl<I: CoreImm> Imm<I> {
    /// The line.
    pub fn op(self) -> Op
        ensures { result ≡ self.op }
    {
        self.op
    }

    /// The instruction with this immediate.
    #[inline(always)]
    pub fn imm(self, imm: I) -> Core
        ensures { core_view result ≡ record { op = self.op.number; reg = None; vvvv = None; place = operand.NoPlace; imm = Some (I.value imm) } }
    {
        Core {
            place: FlatPlace::ABSENT,
            imm: imm.word(),
            op: self.op,
            reg: 0,
            vvvv: 0,
        }
    }
}

/// Lines with a register or memory.
#[derive(Clone, Copy, Debug, PartialEq)]
pub struct Rm {
    pub(crate) op: Op,
    ghost fields: { (shape_of op.number).fields ≡ fields.Rm },
    ghost imm: { (shape_of op.number).imm ≡ imm.None },
}

impl Rm {
    /// The line.
    pub fn op(self) -> Op
        ensures { result ≡ self.op }
    {
        self.op
    }

    /// The instruction with this register.
    #[inline(always)]
    pub fn reg(self, rm: u8) -> Core
        ensures { core_view result ≡ record { op = self.op.number; reg = None; vvvv = None; place = operand.Register (Settled rm); imm = None } }
    {
        Core {
            place: FlatPlace::register(rm),
            imm: 0,
            op: self.op,
            reg: 0,
            vvvv: 0,
        }
    }

    /// The instruction with this memory.
    #[inline(always)]
    pub fn mem(self, address: Amode<u8>) -> Core
        ensures { core_view result ≡ record { op = self.op.number; reg = None; vvvv = None; place = operand.Memory address; imm = None } }
    {
        Core {
            place: FlatPlace::of_amode(&address),
            imm: 0,
            op: self.op,
            reg: 0,
            vvvv: 0,
        }
    }
}

/// Lines with a register or memory, and an immediate.
#[derive(Copy)]
pub struct RmImm<I: CoreImm> {
    pub(crate) op: Op,
    pub(crate) of: PhantomData<I>,
    ghost fields: { (shape_of op.number).fields ≡ fields.Rm },
    ghost imm: { (shape_of op.number).imm ≡ I.kind },
}

impl<I: CoreImm> Clone for RmImm<I> {
    ghost is_clone = { λ old new. new ≡ old };

    ghost is_infallible = { λ _. ⊤ };

    fn clone(&self) -> Result<RmImm<I>, AllocError> {
        Ok(*self)
    }
}

impl<I: CoreImm> RmImm<I> {
    /// The line.
    pub fn op(self) -> Op
        ensures { result ≡ self.op }
    {
        self.op
    }

    /// The instruction with this register and this immediate.
    #[inline(always)]
    pub fn reg(self, rm: u8, imm: I) -> Core
        ensures { core_view result ≡ record { op = self.op.number; reg = None; vvvv = None; place = operand.Register (Settled rm); imm = Some (I.value imm) } }
    {
        Core {
            place: FlatPlace::register(rm),
            imm: imm.word(),
            op: self.op,
            reg: 0,
            vvvv: 0,
        }
    }

    /// The instruction with this memory and this immediate.
    #[inline(always)]
    pub fn mem(self, address: Amode<u8>, imm: I) -> Core
        ensures { core_view result ≡ record { op = self.op.number; reg = None; vvvv = None; place = operand.Memory address; imm = Some (I.value imm) } }
    {
        Core {
            place: FlatPlace::of_amode(&address),
            imm: imm.word(),
            op: self.op,
            reg: 0,
            vvvv: 0,
        }
    }
}

/// Lines with memory.
#[derive(Clone, Copy, Debug, PartialEq)]
pub struct Mem {
    pub(crate) op: Op,
    ghost fields: { (shape_of op.number).fields ≡ fields.Mem },
    ghost imm: { (shape_of op.number).imm ≡ imm.None },
}

impl Mem {
    /// The line.
    pub fn op(self) -> Op
        ensures { result ≡ self.op }
    {
        self.op
    }

    /// The instruction with this memory.
    #[inline(always)]
    pub fn mem(self, address: Amode<u8>) -> Core
        ensures { core_view result ≡ record { op = self.op.number; reg = None; vvvv = None; place = operand.Memory address; imm = None } }
    {
        Core {
            place: FlatPlace::of_amode(&address),
            imm: 0,
            op: self.op,
            reg: 0,
            vvvv: 0,
        }
    }
}

/// Lines with memory and an immediate.
#[derive(Copy)]
pub struct MemImm<I: CoreImm> {
    pub(crate) op: Op,
    pub(crate) of: PhantomData<I>,
    ghost fields: { (shape_of op.number).fields ≡ fields.Mem },
    ghost imm: { (shape_of op.number).imm ≡ I.kind },
}

impl<I: CoreImm> Clone for MemImm<I> {
    ghost is_clone = { λ old new. new ≡ old };

    ghost is_infallible = { λ _. ⊤ };

    fn clone(&self) -> Result<MemImm<I>, AllocError> {
        Ok(*self)
    }
}

impl<I: CoreImm> MemImm<I> {
    /// The line.
    pub fn op(self) -> Op
        ensures { result ≡ self.op }
    {
        self.op
    }

    /// The instruction with this memory and this immediate.
    #[inline(always)]
    pub fn mem(self, address: Amode<u8>, imm: I) -> Core
        ensures { core_view result ≡ record { op = self.op.number; reg = None; vvvv = None; place = operand.Memory address; imm = Some (I.value imm) } }
    {
        Core {
            place: FlatPlace::of_amode(&address),
            imm: imm.word(),
            op: self.op,
            reg: 0,
            vvvv: 0,
        }
    }
}

/// Lines with a register in reg, and a register or memory.
#[derive(Clone, Copy, Debug, PartialEq)]
pub struct RegRm {
    pub(crate) op: Op,
    ghost fields: { (shape_of op.number).fields ≡ fields.RegRm },
    ghost imm: { (shape_of op.number).imm ≡ imm.None },
}

impl RegRm {
    /// The line.
    pub fn op(self) -> Op
        ensures { result ≡ self.op }
    {
        self.op
    }

    /// The instruction with this register in reg and this one in the rest of the tail.
    #[inline(always)]
    pub fn regs(self, reg: u8, rm: u8) -> Core
        ensures { core_view result ≡ record { op = self.op.number; reg = Some reg; vvvv = None; place = operand.Register (Settled rm); imm = None } }
    {
        Core {
            place: FlatPlace::register(rm),
            imm: 0,
            op: self.op,
            reg,
            vvvv: 0,
        }
    }

    /// The instruction with this register in reg and this memory.
    #[inline(always)]
    pub fn mem(self, reg: u8, address: Amode<u8>) -> Core
        ensures { core_view result ≡ record { op = self.op.number; reg = Some reg; vvvv = None; place = operand.Memory address; imm = None } }
    {
        Core {
            place: FlatPlace::of_amode(&address),
            imm: 0,
            op: self.op,
            reg,
            vvvv: 0,
        }
    }
}

/// Lines with a register in reg, a register or memory, and an immediate.
#[derive(Copy)]
pub struct RegRmImm<I: CoreImm> {
    pub(crate) op: Op,
    pub(crate) of: PhantomData<I>,
    ghost fields: { (shape_of op.number).fields ≡ fields.RegRm },
    ghost imm: { (shape_of op.number).imm ≡ I.kind },
}

impl<I: CoreImm> Clone for RegRmImm<I> {
    ghost is_clone = { λ old new. new ≡ old };

    ghost is_infallible = { λ _. ⊤ };

    fn clone(&self) -> Result<RegRmImm<I>, AllocError> {
        Ok(*self)
    }
}

impl<I: CoreImm> RegRmImm<I> {
    /// The line.
    pub fn op(self) -> Op
        ensures { result ≡ self.op }
    {
        self.op
    }

    /// The instruction with this register in reg, this one in the rest of the tail, and this immediate.
    #[inline(always)]
    pub fn regs(self, reg: u8, rm: u8, imm: I) -> Core
        ensures { core_view result ≡ record { op = self.op.number; reg = Some reg; vvvv = None; place = operand.Register (Settled rm); imm = Some (I.value imm) } }
    {
        Core {
            place: FlatPlace::register(rm),
            imm: imm.word(),
            op: self.op,
            reg,
            vvvv: 0,
        }
    }

    /// The instruction with this register in reg, this memory, and this immediate.
    #[inline(always)]
    pub fn mem(self, reg: u8, address: Amode<u8>, imm: I) -> Core
        ensures { core_view result ≡ record { op = self.op.number; reg = Some reg; vvvv = None; place = operand.Memory address; imm = Some (I.value imm) } }
    {
        Core {
            place: FlatPlace::of_amode(&address),
            imm: imm.word(),
            op: self.op,
            reg,
            vvvv: 0,
        }
    }
}

/// Lines with a register in reg, and memory.
#[derive(Clone, Copy, Debug, PartialEq)]
pub struct RegMem {
    pub(crate) op: Op,
    ghost fields: { (shape_of op.number).fields ≡ fields.RegMem },
    ghost imm: { (shape_of op.number).imm ≡ imm.None },
}

impl RegMem {
    /// The line.
    pub fn op(self) -> Op
        ensures { result ≡ self.op }
    {
        self.op
    }

    /// The instruction with this register in reg and this memory.
    #[inline(always)]
    pub fn mem(self, reg: u8, address: Amode<u8>) -> Core
        ensures { core_view result ≡ record { op = self.op.number; reg = Some reg; vvvv = None; place = operand.Memory address; imm = None } }
    {
        Core {
            place: FlatPlace::of_amode(&address),
            imm: 0,
            op: self.op,
            reg,
            vvvv: 0,
        }
    }
}

/// Lines with a register in reg, one in vvvv, and a register or memory.
#[derive(Clone, Copy, Debug, PartialEq)]
pub struct RegVvvvRm {
    pub(crate) op: Op,
    ghost fields: { (shape_of op.number).fields ≡ fields.RegVvvvRm },
    ghost imm: { (shape_of op.number).imm ≡ imm.None },
}

impl RegVvvvRm {
    /// The line.
    pub fn op(self) -> Op
        ensures { result ≡ self.op }
    {
        self.op
    }

    /// The instruction with this register in reg, this one in vvvv, and this one in the rest of the tail.
    #[inline(always)]
    pub fn regs(self, reg: u8, vvvv: u8, rm: u8) -> Core
        ensures { core_view result ≡ record { op = self.op.number; reg = Some reg; vvvv = Some vvvv; place = operand.Register (Settled rm); imm = None } }
    {
        Core {
            place: FlatPlace::register(rm),
            imm: 0,
            op: self.op,
            reg,
            vvvv,
        }
    }

    /// The instruction with this register in reg, this one in vvvv, and this memory.
    #[inline(always)]
    pub fn mem(self, reg: u8, vvvv: u8, address: Amode<u8>) -> Core
        ensures { core_view result ≡ record { op = self.op.number; reg = Some reg; vvvv = Some vvvv; place = operand.Memory address; imm = None } }
    {
        Core {
            place: FlatPlace::of_amode(&address),
            imm: 0,
            op: self.op,
            reg,
            vvvv,
        }
    }
}

/// Lines with a register in reg, one in vvvv, a register or memory, and an immediate.
#[derive(Copy)]
pub struct RegVvvvRmImm<I: CoreImm> {
    pub(crate) op: Op,
    pub(crate) of: PhantomData<I>,
    ghost fields: { (shape_of op.number).fields ≡ fields.RegVvvvRm },
    ghost imm: { (shape_of op.number).imm ≡ I.kind },
}

impl<I: CoreImm> Clone for RegVvvvRmImm<I> {
    ghost is_clone = { λ old new. new ≡ old };

    ghost is_infallible = { λ _. ⊤ };

    fn clone(&self) -> Result<RegVvvvRmImm<I>, AllocError> {
        Ok(*self)
    }
}

impl<I: CoreImm> RegVvvvRmImm<I> {
    /// The line.
    pub fn op(self) -> Op
        ensures { result ≡ self.op }
    {
        self.op
    }

    /// The instruction with this register in reg, this one in vvvv, this one in the rest of the tail, and this immediate.
    #[inline(always)]
    pub fn regs(self, reg: u8, vvvv: u8, rm: u8, imm: I) -> Core
        ensures { core_view result ≡ record { op = self.op.number; reg = Some reg; vvvv = Some vvvv; place = operand.Register (Settled rm); imm = Some (I.value imm) } }
    {
        Core {
            place: FlatPlace::register(rm),
            imm: imm.word(),
            op: self.op,
            reg,
            vvvv,
        }
    }

    /// The instruction with this register in reg, this one in vvvv, this memory, and this immediate.
    #[inline(always)]
    pub fn mem(self, reg: u8, vvvv: u8, address: Amode<u8>, imm: I) -> Core
        ensures { core_view result ≡ record { op = self.op.number; reg = Some reg; vvvv = Some vvvv; place = operand.Memory address; imm = Some (I.value imm) } }
    {
        Core {
            place: FlatPlace::of_amode(&address),
            imm: imm.word(),
            op: self.op,
            reg,
            vvvv,
        }
    }
}
