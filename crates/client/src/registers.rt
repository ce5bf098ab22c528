//! The registers of the back end: numbers, of which those from 16 up aren't assigned yet.

ghost use Rattle.std.specs.Prelude.{nat_lt};
ghost use Rattle.std.proofs.Common.{rules};
ghost use Rattle.cranelift_assembler_x64.specs.Names.{register_name};

use cranelift_assembler_x64::{AsReg, Registers, Size, register_name};
use std::alloc::{AllocError, Allocator};

/// A register: below 16 the machine's of this number, and a virtual one from there on.
#[derive(Clone, Copy, Debug, PartialEq)]
pub struct Reg(pub u32);

impl AsReg for Reg {
    ghost accepts = { λ n. nat_lt n 16 };

    ghost settled = { λ r. nat_lt r.0 16 };

    ghost enc = { λ r. r.0 };

    ghost nameable = { λ r. nat_lt r.0 16 };

    ghost text = { λ r. register_name r.0 };

    ghost same = { Prim.search rules };

    // Which of the hardware's numbers have a register here: the condition of `new`.
    fn accepts(number: u8) -> bool {
        number < 16
    }

    fn new(number: u8) -> Reg {
        Reg(number as u32)
    }

    // Whether the register has a number in the hardware: the condition of `enc`. A virtual one has none yet.
    fn settled(&self) -> bool {
        self.0 < 16
    }

    fn enc(&self) -> u8 {
        self.0 as u8
    }

    // Whether the register has a text: the condition of `to_string`.
    fn nameable(&self) -> bool {
        self.0 < 16
    }

    // The usual names, at the size of the operand: `%rax`, `%eax`, `%ax`, `%al`, or `%xmm0` where there is none.
    fn to_string<A: Allocator + Copy>(
        &self,
        alloc: A,
        size: Option<Size>,
    ) -> Result<String<A>, AllocError> {
        register_name(alloc, self.0 as u8, size)
    }
}

/// The family: a type for each thing that an instruction does with a register. Here they are all one.
pub struct Regs;

impl Registers for Regs {
    type ReadGpr = Reg;

    type ReadWriteGpr = Reg;

    type WriteGpr = Reg;

    type ReadXmm = Reg;

    type ReadWriteXmm = Reg;

    type WriteXmm = Reg;
}
