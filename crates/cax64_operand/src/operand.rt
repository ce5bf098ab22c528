//! Operands as data: what an instruction is, beside its row of the table.

ghost use Rattle.std.specs.Prelude.{◌≡◌};

use crate::immediate::Immediate;
use crate::nop::Nop;
use cax64_address::amode::Amode;
use cax64_address::operand::{GprMem, XmmMem};
use cax64_register::{Registers, Size};

/// An operand: what the instruction does with it, and the size at which its register prints.
#[derive(Drop)]
pub enum Operand<R: Registers> {
    ReadGpr(R::ReadGpr, Size),
    ReadWriteGpr(R::ReadWriteGpr, Size),
    WriteGpr(R::WriteGpr, Size),
    /// Two destinations. A visit meets only the first of two that compare equal.
    WriteTwoGprs(R::WriteGpr, R::WriteGpr, Size),
    /// A register that has to have this number. It isn't in the bytes; without a size it isn't printed.
    FixedReadGpr(R::ReadGpr, u8, Option<Size>),
    FixedReadWriteGpr(R::ReadWriteGpr, u8, Option<Size>),
    ReadXmm(R::ReadXmm),
    ReadWriteXmm(R::ReadWriteXmm),
    WriteXmm(R::WriteXmm),
    ReadAmode(Amode<R::ReadGpr>),
    ReadGprMem(GprMem<R::ReadGpr, R::ReadGpr>, Size),
    ReadWriteGprMem(GprMem<R::ReadWriteGpr, R::ReadGpr>, Size),
    ReadXmmMem(XmmMem<R::ReadXmm, R::ReadGpr>),
    Imm(Immediate),
}

impl<R: Registers> Operand<R> {
    /// The same operand once more.
    pub fn copied(&self) -> Operand<R>
        ensures { result ≡ self.now }
    {
        match self {
            Operand::ReadGpr(reg, size) => Operand::ReadGpr(*reg, *size),
            Operand::ReadWriteGpr(reg, size) => Operand::ReadWriteGpr(*reg, *size),
            Operand::WriteGpr(reg, size) => Operand::WriteGpr(*reg, *size),
            Operand::WriteTwoGprs(first, second, size) => {
                Operand::WriteTwoGprs(*first, *second, *size)
            }
            Operand::FixedReadGpr(reg, expected, size) => {
                Operand::FixedReadGpr(*reg, *expected, *size)
            }
            Operand::FixedReadWriteGpr(reg, expected, size) => {
                Operand::FixedReadWriteGpr(*reg, *expected, *size)
            }
            Operand::ReadXmm(reg) => Operand::ReadXmm(*reg),
            Operand::ReadWriteXmm(reg) => Operand::ReadWriteXmm(*reg),
            Operand::WriteXmm(reg) => Operand::WriteXmm(*reg),
            Operand::ReadAmode(amode) => Operand::ReadAmode(*amode),
            Operand::ReadGprMem(operand, size) => Operand::ReadGprMem(*operand, *size),
            Operand::ReadWriteGprMem(operand, size) => Operand::ReadWriteGprMem(*operand, *size),
            Operand::ReadXmmMem(operand) => Operand::ReadXmmMem(*operand),
            Operand::Imm(imm) => Operand::Imm(*imm),
        }
    }
}

/// The operands of an instruction, in the order of visits.
#[derive(Drop)]
pub enum Operands<R: Registers> {
    Zero,
    One(Operand<R>),
    Two(Operand<R>, Operand<R>),
    Three(Operand<R>, Operand<R>, Operand<R>),
    Four(Operand<R>, Operand<R>, Operand<R>, Operand<R>),
    Five(Operand<R>, Operand<R>, Operand<R>, Operand<R>, Operand<R>),
    /// No operands. Several no-operations share a row, and differ by their bytes alone.
    Nop(Nop),
}
