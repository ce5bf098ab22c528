//! What an operand adds to an instruction that is tested and put, whatever its register type.

ghost use Rattle.std.specs.Prelude.{◌≡◌};
ghost use Rattle.cax64_encoder.specs.Part.{part_of};
ghost use Rattle.cax64_encoder.specs.Role.{role_of};

use crate::imm::word_of;
use crate::number::Number;
use crate::numbered::NumberedPlace;
use cax64_address::operand::{GprMem, XmmMem};
use cax64_operand::{Operand, RegisterFamily};
use cax64_register::Registers;

/// An operand by its numbers. They carry the test: a number is below 16 where the register is as it has to be.
#[derive(Clone, Copy)]
pub enum Part {
    /// A register in the bytes, outside of the rest of the tail.
    Register(u8),
    /// Two of them, and whether the second is as it has to be: of two equal ones it isn't tested.
    TwoRegisters(u8, u8, bool),
    /// A register that isn't in the bytes: whether it is as it has to be.
    Fixed(bool),
    /// A register or an address in the rest of the tail. It's one part, since which of them stands there is known only at run
    /// time, and asked once. Its mark is 16 where more has to hold than that the numbers are below 16, and else 0: a late
    /// offset has to fit, and the stack pointer can't be an index.
    Place(NumberedPlace, u8),
    /// The bytes of an immediate as one word.
    Imm(u32),
}

impl Part {
    /// What an operand adds. No test is a branch: that would cost more.
    #[inline(always)]
    pub(crate) fn of<R: Registers>(operand: &Operand<R>) -> Part
        ensures { result ≡ part_of ⟦<R as RegisterFamily>⟧.family.read_gpr (role_of ⟦<R as RegisterFamily>⟧.family operand.now) }
    {
        // Made once, since a function that grows too large isn't inlined.
        let nothing = NumberedPlace::none();
        match operand {
            Operand::ReadGpr(reg, _) => Part::Register(Number::marked_value_of(*reg)),
            Operand::ReadWriteGpr(reg, _) => Part::Register(Number::marked_value_of(*reg)),
            Operand::WriteGpr(reg, _) => Part::Register(Number::marked_value_of(*reg)),
            Operand::WriteTwoGprs(first, second, _) => Part::TwoRegisters(
                Number::marked_value_of(*first),
                Number::value_of(*second),
                (*first == *second) | (Number::marked_value_of(*second) < 16),
            ),
            Operand::FixedReadGpr(reg, expected, _) => Part::Fixed(Number::is_held(
                *reg, *expected,
            )),
            Operand::FixedReadWriteGpr(reg, expected, _) => {
                Part::Fixed(Number::is_held(*reg, *expected))
            }
            Operand::ReadXmm(reg) => Part::Register(Number::marked_value_of(*reg)),
            Operand::ReadWriteXmm(reg) => Part::Register(Number::marked_value_of(*reg)),
            Operand::WriteXmm(reg) => Part::Register(Number::marked_value_of(*reg)),
            Operand::ReadGprMem(GprMem::Gpr(reg), _) => {
                Part::Place(nothing.with_number(Number::marked_value_of(*reg)), 0)
            }
            Operand::ReadWriteGprMem(GprMem::Gpr(reg), _) => {
                Part::Place(nothing.with_number(Number::marked_value_of(*reg)), 0)
            }
            Operand::ReadXmmMem(XmmMem::Xmm(reg)) => {
                Part::Place(nothing.with_number(Number::marked_value_of(*reg)), 0)
            }
            Operand::ReadAmode(amode)
            | Operand::ReadGprMem(GprMem::Mem(amode), _)
            | Operand::ReadWriteGprMem(GprMem::Mem(amode), _)
            | Operand::ReadXmmMem(XmmMem::Mem(amode)) => {
                let (place, mark) = nothing.marked(amode);
                Part::Place(place, mark)
            }
            Operand::Imm(imm) => Part::Imm(word_of(imm.bytes())),
        }
    }
}
