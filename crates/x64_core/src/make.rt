//! Instructions of any line, from operands that are tested.

ghost use Rattle.std.specs.Prelude.{◌≡◌, ◌≤◌, ◌^◌, nat_lt, true, false, IfErr, IfOk, None, OnOk, Some, option_map, pos};
ghost use Rattle.cax64_encoder.specs.ImmActions.{imm_named};
ghost use Rattle.cax64_machine_code.specs.Line.{imm_bytes, same_bool};
ghost use Rattle.cax64_operand.specs.Immediate.{imm_value};
ghost use Rattle.x64_lines.specs.Refusal.{imm_refusal, unsigned_below};
ghost use Rattle.x64_core.specs.Refusal.{refusal};
ghost use Rattle.x64_lines.specs.Shape.{imm_field, shape_of};
ghost use Rattle.x64_core.specs.View.{core_view, place_operand};

use crate::fits::takes;
use crate::immediate::CoreImm;
use crate::instruction::Core;
use crate::place::CorePlace;
use x64_lines::shapes::OpImm;
use x64_lines::{Op, OperandError};

/// Whether something is given exactly where it stands.
fn agree(stands: bool, given: bool) -> bool
    ensures { result ≡ same_bool stands given }
{
    stands == given
}

/// The word of an immediate, where it's one that a line of this kind takes.
fn imm_word(kind: OpImm, imm: Option<i64>) -> Result<u32, OperandError>
    ensures taken { OnOk result (imm_refusal kind imm ≡ None) }
    ensures refused { IfErr result (λ why. imm_refusal kind imm ≡ Some why) }
    ensures fits { IfOk result (λ word. nat_lt word (256 ^ imm_bytes (imm_field kind)) ≡ true) }
    ensures value { IfOk result (λ word. option_map imm_value (imm_named (imm_field kind) word) ≡ imm) }
{
    match imm {
        Some(value) => value_word(kind, value),
        None if matches!(kind, OpImm::None) => Ok(0),
        None => Err(OperandError::Immediate),
    }
}

/// The word of a value, where it's one of this kind.
fn value_word(kind: OpImm, value: i64) -> Result<u32, OperandError>
    ensures taken { OnOk result (imm_refusal kind (Some value) ≡ None) }
    ensures refused { IfErr result (λ why. imm_refusal kind (Some value) ≡ Some why) }
    ensures fits { IfOk result (λ word. nat_lt word (256 ^ imm_bytes (imm_field kind)) ≡ true) }
    ensures value { IfOk result (λ word. option_map imm_value (imm_named (imm_field kind) word) ≡ Some value) }
{
    match kind {
        OpImm::None => Err(OperandError::Immediate),
        OpImm::U8 | OpImm::U16 | OpImm::U32 => unsigned_word(value, kind.limit()),
        OpImm::I8 => match i8::try_from(value) {
            Ok(value) => Ok(value.word()),
            Err(_) => Err(OperandError::Range),
        },
        OpImm::I32 => match i32::try_from(value) {
            Ok(value) => Ok(value.word()),
            Err(_) => Err(OperandError::Range),
        },
    }
}

/// A value as it is, where it's below a limit.
fn unsigned_word(value: i64, limit: u64) -> Result<u32, OperandError>
    requires { limit ≤ 2 ^ 32 }
    ensures taken { OnOk result (unsigned_below limit value ≡ true) }
    ensures refused { IfErr result (λ why. (unsigned_below limit value ≡ false) × (why ≡ OperandError.Range)) }
    ensures fits { IfOk result (λ word. nat_lt word limit ≡ true) }
    ensures value { IfOk result (λ word. pos word ≡ value) }
{
    match u64::try_from(value) {
        Ok(value) if value < limit => Ok(value as u32),
        _ => Err(OperandError::Range),
    }
}

impl Core {
    /// The instruction of a line with these operands, where they are those that it takes: a register in reg and in vvvv
    /// where one stands there, a register or memory in the rest of the tail, an immediate in the line's range. Registers
    /// aren't tested.
    pub fn new(
        op: Op,
        reg: Option<u8>,
        vvvv: Option<u8>,
        place: CorePlace,
        imm: Option<i64>,
    ) -> Result<Core, OperandError>
        ensures taken { OnOk result (refusal (shape_of op.number) reg vvvv place imm ≡ None) }
        ensures refused { IfErr result (λ why. refusal (shape_of op.number) reg vvvv place imm ≡ Some why) }
        ensures view { IfOk result (λ c. core_view c ≡ record { op = op.number; reg = reg; vvvv = vvvv; place = place_operand place; imm = imm }) }
    {
        let shape = op.shape();
        if !agree(shape.fields.has_reg(), reg.is_some()) {
            return Err(OperandError::Register);
        }
        if !agree(shape.fields.has_vvvv(), vvvv.is_some()) {
            return Err(OperandError::Vvvv);
        }
        let place = place.numbers();
        if !takes(shape.fields, &place) {
            return Err(OperandError::Place);
        }
        let word = imm_word(shape.imm, imm)?;
        Ok(Core {
            place,
            imm: word,
            op,
            reg: reg.unwrap_or(0),
            vvvv: vvvv.unwrap_or(0),
        })
    }
}
