//! What a call answers: 0, or a status. Its number stands in the low eight bits, a detail in the next eight.

ghost use Rattle.std.specs.Prelude.{◌≡◌};
ghost use Rattle.x64_plain.specs.Status.{fault_status, operand_status};

use cax64_encoder::Fault;
use x64_lines::OperandError;

/// The call did what it says.
pub const HQ_OK: i32 = 0;

/// The integers are no instruction of the core.
pub const HQ_BAD_INST: i32 = 1;

/// The integers are no place.
pub const HQ_BAD_PLACE: i32 = 2;

/// No line of the core has this number.
pub const HQ_BAD_LINE: i32 = 3;

/// The operands aren't those that the line takes. The detail says which: 0: reg, 1: vvvv, 2: the place, 3: whether there is an
/// immediate, 4: the immediate's range.
pub const HQ_BAD_OPERANDS: i32 = 4;

/// No line of the core reads what stands there.
pub const HQ_NONE: i32 = 5;

/// The slice is too short. Nothing was written.
pub const HQ_FULL: i32 = 6;

/// What was read is none of an instruction that can be made.
pub const HQ_NO_INST: i32 = 7;

/// The integers are no reading.
pub const HQ_BAD_READING: i32 = 8;

/// The sum isn't of 32 bits.
pub const HQ_OUT_OF_RANGE: i32 = 9;

/// A register isn't below 16. The detail is its place, from 0, among those that the instruction has, in the order reg, vvvv, base,
/// index.
pub const HQ_FAULT_REGISTER: i32 = 16;

/// The index is the stack pointer. The detail is its place, as above.
pub const HQ_FAULT_INDEX: i32 = 17;

/// A register that the line fixes is another one. No instruction of the core has this fault.
pub const HQ_FAULT_FIXED: i32 = 18;

/// A late offset isn't known. The detail is its key.
pub const HQ_FAULT_UNKNOWN: i32 = 19;

/// The displacement and its late offset have a sum that isn't of 32 bits.
pub const HQ_FAULT_RANGE: i32 = 20;

/// Why an instruction can't be encoded.
pub fn fault_status(fault: Fault) -> i32
    ensures { result ≡ fault_status fault }
{
    match fault {
        Fault::Register(at) => HQ_FAULT_REGISTER + 256 * i32::from(at),
        Fault::Index(at) => HQ_FAULT_INDEX + 256 * i32::from(at),
        Fault::Fixed(at) => HQ_FAULT_FIXED + 256 * i32::from(at),
        Fault::Unknown(key) => HQ_FAULT_UNKNOWN + 256 * i32::from(key),
        Fault::Range => HQ_FAULT_RANGE,
    }
}

/// Why an instruction can't be made of operands.
pub fn operand_status(shape: OperandError) -> i32
    ensures { result ≡ operand_status shape }
{
    let detail = match shape {
        OperandError::Register => 0,
        OperandError::Vvvv => 1,
        OperandError::Place => 2,
        OperandError::Immediate => 3,
        OperandError::Range => 4,
    };
    HQ_BAD_OPERANDS + 256 * detail
}
