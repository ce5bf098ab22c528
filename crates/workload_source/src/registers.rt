//! The families of registers: the plain numbers, and a back end's own, of which those from 16 up aren't assigned yet.

ghost use Rattle.std.specs.Prelude.{nat_lt};
ghost use Rattle.std.proofs.Common.{rules};
ghost use Rattle.cranelift_assembler_x64.specs.Names.{register_name};

use cranelift_assembler_x64::{AsReg, Numbers, Registers, Size, register_name};
use std::alloc::{AllocError, Allocator};

/// A register: below 16 the machine's of this number, and a virtual one from there on.
#[derive(Clone, Copy, Debug, PartialEq)]
pub struct Reg(pub u32);

impl AsReg for Reg {
    ghost accepts = { λ n. nat_lt n 16 };

    ghost settled = { λ r. nat_lt r.0 16 };

    ghost enc = { λ r. r.0 };

    ghost nameable = { λ r. nat_lt r.0 16 };

    ghost text = { λ r. register_name r.0 };

    ghost same = { Prim.search rules };

    fn accepts(number: u8) -> bool {
        number < 16
    }

    fn new(number: u8) -> Reg {
        Reg(number as u32)
    }

    fn settled(&self) -> bool {
        self.0 < 16
    }

    fn enc(&self) -> u8 {
        self.0 as u8
    }

    fn nameable(&self) -> bool {
        self.0 < 16
    }

    fn to_string<A: Allocator + Copy>(
        &self,
        alloc: A,
        size: Option<Size>,
    ) -> Result<String<A>, AllocError> {
        register_name(alloc, self.0 as u8, size)
    }
}

/// A register that is made of a number, which may be a virtual one's.
pub trait Plain: AsReg {
    fn of(number: u8) -> Self;

    fn number(&self) -> u8;
}

impl Plain for u8 {
    fn of(number: u8) -> u8 {
        number
    }

    fn number(&self) -> u8 {
        *self
    }
}

impl Plain for Reg {
    fn of(number: u8) -> Reg {
        Reg(u32::from(number))
    }

    fn number(&self) -> u8 {
        u8::try_from(self.0).unwrap_or(0)
    }
}

/// A family of one register type.
pub trait PlainFamily: Registers<
    ReadGpr = Self::Reg,
    ReadWriteGpr = Self::Reg,
    WriteGpr = Self::Reg,
    ReadXmm = Self::Reg,
    ReadWriteXmm = Self::Reg,
    WriteXmm = Self::Reg,
> {
    type Reg: Plain;
}

/// The back end's own family.
pub struct Regs;

impl Registers for Regs {
    type ReadGpr = Reg;

    type ReadWriteGpr = Reg;

    type WriteGpr = Reg;

    type ReadXmm = Reg;

    type ReadWriteXmm = Reg;

    type WriteXmm = Reg;
}

impl PlainFamily for Regs {
    type Reg = Reg;
}

impl PlainFamily for Numbers {
    type Reg = u8;
}
