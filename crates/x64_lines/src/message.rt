//! What a refusal of operands prints.

ghost use Rattle.std.specs.Prelude.{Some};
ghost use Rattle.x64_lines.specs.Message.{operand_error_text};

use crate::refused::OperandError;
use std::error::Error;
use std::fmt;

impl fmt::Display for OperandError {
    ghost output = { λ shape. Some (operand_error_text shape) };

    fn fmt<W: fmt::Write>(&self, f: &mut fmt::Formatter<W>) -> fmt::Result {
        f.write_str(match self {
            OperandError::Register => {
                "the line has a register in reg and none is given, or the other way round"
            }
            OperandError::Vvvv => {
                "the line has a register in vvvv and none is given, or the other way round"
            }
            OperandError::Place => {
                "a register, memory or nothing is given where the line has another of these"
            }
            OperandError::Immediate => {
                "the line has an immediate and none is given, or the other way round"
            }
            OperandError::Range => "the immediate is out of the line's range",
        })
    }
}

impl Error for OperandError {}
