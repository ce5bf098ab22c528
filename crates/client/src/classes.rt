//! A family of two classes: general and vector registers are types of their own, and each is one of the machine's or a
//! virtual one.

ghost use Rattle.std.specs.Prelude.{nat_lt};
ghost use Rattle.std.proofs.Common.{rules};
ghost use Rattle.cranelift_assembler_x64.specs.Names.{register_name};
ghost use Rattle.client.specs.Classes.{general_number, general_settled, vector_number, vector_settled};

use cranelift_assembler_x64::{AsReg, Registers, Size, register_name};
use std::alloc::{AllocError, Allocator};

/// A general register: the machine's of this number, or a virtual one.
#[derive(Clone, Copy, Debug, PartialEq)]
pub enum General {
    Real(u8),
    Virtual(u32),
}

impl AsReg for General {
    ghost accepts = { λ n. nat_lt n 16 };

    ghost settled = { general_settled };

    ghost enc = { general_number };

    ghost nameable = { general_settled };

    ghost text = { λ r. register_name (general_number r) };

    ghost same = { Prim.search rules };

    fn accepts(number: u8) -> bool {
        number < 16
    }

    fn new(number: u8) -> General {
        General::Real(number)
    }

    fn settled(&self) -> bool {
        match self {
            General::Real(number) => *number < 16,
            General::Virtual(_) => false,
        }
    }

    fn enc(&self) -> u8 {
        match self {
            General::Real(number) => *number,
            General::Virtual(_) => 0,
        }
    }

    fn nameable(&self) -> bool {
        self.settled()
    }

    fn to_string<A: Allocator + Copy>(
        &self,
        alloc: A,
        size: Option<Size>,
    ) -> Result<String<A>, AllocError> {
        register_name(alloc, self.enc(), size)
    }
}

/// A vector register: the machine's of this number, or a virtual one.
#[derive(Clone, Copy, Debug, PartialEq)]
pub enum Vector {
    Real(u8),
    Virtual(u32),
}

impl AsReg for Vector {
    ghost accepts = { λ n. nat_lt n 16 };

    ghost settled = { vector_settled };

    ghost enc = { vector_number };

    ghost nameable = { vector_settled };

    ghost text = { λ r. register_name (vector_number r) };

    ghost same = { Prim.search rules };

    fn accepts(number: u8) -> bool {
        number < 16
    }

    fn new(number: u8) -> Vector {
        Vector::Real(number)
    }

    fn settled(&self) -> bool {
        match self {
            Vector::Real(number) => *number < 16,
            Vector::Virtual(_) => false,
        }
    }

    fn enc(&self) -> u8 {
        match self {
            Vector::Real(number) => *number,
            Vector::Virtual(_) => 0,
        }
    }

    fn nameable(&self) -> bool {
        self.settled()
    }

    fn to_string<A: Allocator + Copy>(
        &self,
        alloc: A,
        size: Option<Size>,
    ) -> Result<String<A>, AllocError> {
        register_name(alloc, self.enc(), size)
    }
}

/// The family: what an instruction reads or writes of a class has that class's type.
pub struct Classes;

impl Registers for Classes {
    type ReadGpr = General;

    type ReadWriteGpr = General;

    type WriteGpr = General;

    type ReadXmm = Vector;

    type ReadWriteXmm = Vector;

    type WriteXmm = Vector;
}
