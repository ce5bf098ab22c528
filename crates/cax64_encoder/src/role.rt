//! What an operand is to the bytes and to a visit, whatever its register type.

ghost use Rattle.std.specs.Prelude.{◌≡◌};
ghost use Rattle.cax64_encoder.specs.Form.{place_or};
ghost use Rattle.cax64_encoder.specs.Place.{gpr_mem_place, xmm_mem_place};
ghost use Rattle.cax64_encoder.specs.Role.{role_of};

use crate::number::Number;
use cax64_address::amode::Amode;
use cax64_address::operand::{GprMem, XmmMem};
use cax64_operand::{ImmOperand, Operand, RegisterFamily};
use cax64_register::{AsReg, Registers};

/// What the rest of the tail names.
#[derive(Clone, Copy, Debug)]
pub enum PlaceOperand<M: AsReg> {
    NoPlace,
    Register(Number),
    Memory(Amode<M>),
}

impl<M: AsReg> PlaceOperand<M> {
    /// The place that a general register or memory is.
    #[inline(always)]
    fn of_gpr_mem<R: AsReg>(operand: &GprMem<R, M>) -> PlaceOperand<M>
        ensures { result ≡ gpr_mem_place R.settled R.enc operand.now }
    {
        match *operand {
            GprMem::Gpr(reg) => PlaceOperand::Register(Number::of(reg)),
            GprMem::Mem(amode) => PlaceOperand::Memory(amode),
        }
    }

    /// The place that an XMM register or memory is.
    #[inline(always)]
    fn of_xmm_mem<R: AsReg>(operand: &XmmMem<R, M>) -> PlaceOperand<M>
        ensures { result ≡ xmm_mem_place R.settled R.enc operand.now }
    {
        match *operand {
            XmmMem::Xmm(reg) => PlaceOperand::Register(Number::of(reg)),
            XmmMem::Mem(amode) => PlaceOperand::Memory(amode),
        }
    }
}

/// A register that an instruction fixes to a number.
#[derive(Clone, Copy, Debug)]
pub struct FixedNumber {
    pub held: Number,
    pub expected: u8,
}

/// What an operand is to the bytes and to a visit.
#[derive(Clone, Copy, Debug)]
pub enum Role<M: AsReg> {
    /// A register in the bytes, outside of the rest of the tail.
    Register(Number),
    /// Two registers in the bytes, and whether they are equal, so that a visit meets only the first.
    TwoRegisters(Number, Number, bool),
    /// A register that is visited and isn't in the bytes.
    FixedRegister(FixedNumber),
    /// The rest of the tail.
    Place(PlaceOperand<M>),
    Immediate(ImmOperand),
}

impl<M: AsReg> Role<M> {
    /// What this operand is to the rest of the tail, or else this.
    pub(crate) fn place_or(self, later: PlaceOperand<M>) -> PlaceOperand<M>
        ensures { result ≡ place_or self later }
    {
        match self {
            Role::Place(place) => place,
            _ => later,
        }
    }
}

/// What an operand is to the bytes and to a visit.
#[inline(always)]
pub fn role_of<R: Registers>(operand: &Operand<R>) -> Role<R::ReadGpr>
    ensures { result ≡ role_of ⟦<R as RegisterFamily>⟧.family operand.now }
{
    match operand {
        Operand::ReadGpr(reg, _) => Role::Register(Number::of(*reg)),
        Operand::ReadWriteGpr(reg, _) => Role::Register(Number::of(*reg)),
        Operand::WriteGpr(reg, _) => Role::Register(Number::of(*reg)),
        Operand::WriteTwoGprs(first, second, _) => {
            Role::TwoRegisters(Number::of(*first), Number::of(*second), *first == *second)
        }
        Operand::FixedReadGpr(reg, expected, _) => Role::FixedRegister(FixedNumber {
            held: Number::of(*reg),
            expected: *expected,
        }),
        Operand::FixedReadWriteGpr(reg, expected, _) => Role::FixedRegister(FixedNumber {
            held: Number::of(*reg),
            expected: *expected,
        }),
        Operand::ReadXmm(reg) => Role::Register(Number::of(*reg)),
        Operand::ReadWriteXmm(reg) => Role::Register(Number::of(*reg)),
        Operand::WriteXmm(reg) => Role::Register(Number::of(*reg)),
        Operand::ReadAmode(amode) => Role::Place(PlaceOperand::Memory(*amode)),
        Operand::ReadGprMem(operand, _) => Role::Place(PlaceOperand::of_gpr_mem(operand)),
        Operand::ReadWriteGprMem(operand, _) => Role::Place(PlaceOperand::of_gpr_mem(operand)),
        Operand::ReadXmmMem(operand) => Role::Place(PlaceOperand::of_xmm_mem(operand)),
        Operand::Imm(imm) => Role::Immediate(imm.bytes()),
    }
}
