//! Instructions of operands.

ghost use Rattle.std.specs.Prelude.{◌≡◌, ◌≢◌, ◌≤◌, ◌<◌, MatchOption};
ghost use Rattle.x64_plain.specs.Plain.{plain, plain_place};
ghost use Rattle.x64_plain.specs.Status.{operand_status};
ghost use Rattle.huqmeris_c.specs.Given.{imm_given, register_given};
ghost use Rattle.x64_core.specs.Refusal.{refusal};
ghost use Rattle.x64_lines.specs.Shape.{shape_of};
ghost use Rattle.x64_core.specs.View.{place_operand};
ghost use Rattle.x64_lines.specs.declared.lines.TheConstants.{COUNT};
ghost use Rattle.x64_core.specs.declared.place.CorePlace.{CorePlace};
ghost use Rattle.x64_plain.specs.declared.status.TheConstants.{HQ_BAD_LINE, HQ_BAD_PLACE, HQ_OK};

use x64_core::Core;
use x64_lines::Op;
use x64_plain::status::{HQ_BAD_LINE, HQ_BAD_PLACE, HQ_OK, operand_status};
use x64_plain::{HqInst, HqPlace};

/// No register is given.
pub const HQ_NO_REG: u16 = 256;

/// No immediate is given.
pub const HQ_NO_IMM: i64 = i64::MIN;

/// A register, where one is given.
fn register(number: u16) -> Option<u8>
    ensures { result ≡ register_given number }
{
    if number < HQ_NO_REG {
        Some(number as u8)
    } else {
        None
    }
}

/// An immediate, where one is given.
fn immediate(value: i64) -> Option<i64>
    ensures { result ≡ imm_given value }
{
    if value == HQ_NO_IMM {
        None
    } else {
        Some(value)
    }
}

/// Makes the instruction of a line with these operands, where they are those that it takes: a register in reg and in vvvv
/// where one stands there, a register or memory in the rest of the tail, an immediate in the line's range. Registers aren't
/// tested.
///
/// A register from 256 on (`HQ_NO_REG`) means that none is given, and so does the least immediate (`HQ_NO_IMM`).
/// `HQ_BAD_LINE` where no line has the number, `HQ_BAD_PLACE` where the place is none, `HQ_BAD_OPERANDS` where the line takes
/// others.
#[unsafe(no_mangle)]
pub extern "C" fn hq_make(
    line: u16,
    reg: u16,
    vvvv: u16,
    place: &HqPlace,
    imm: i64,
    out: &mut HqInst,
) -> i32
    ensures line { COUNT ≤ line → (result ≡ HQ_BAD_LINE) × (out.new ≡ out.old) }
    ensures place { line < COUNT → ((p : CorePlace) → plain_place (place_operand p) ≢ place.now) → (result ≡ HQ_BAD_PLACE) × (out.new ≡ out.old) }
    ensures makes { line < COUNT → (p : CorePlace) → plain_place (place_operand p) ≡ place.now
        → MatchOption (refusal (shape_of line) (register_given reg) (register_given vvvv) p (imm_given imm))
        ((result ≡ HQ_OK) × (out.new ≡ plain (record { op = line; reg = register_given reg; vvvv = register_given vvvv; place = place_operand p; imm = imm_given imm })))
        (λ why. (result ≡ operand_status why) × (out.new ≡ out.old)) }
{
    let Some(op) = Op::from_number(line) else {
        return HQ_BAD_LINE;
    };
    let Some(place) = place.place() else {
        return HQ_BAD_PLACE;
    };
    match Core::new(op, register(reg), register(vvvv), place, immediate(imm)) {
        Ok(core) => {
            *out = HqInst::of(&core);
            HQ_OK
        }
        Err(shape) => operand_status(shape),
    }
}
