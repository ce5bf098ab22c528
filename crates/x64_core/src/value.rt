//! The immediate of an instruction as a number.

ghost use Rattle.std.specs.Prelude.{◌≡◌, ◌^◌, IfSome, nat_lt, option_map, true};
ghost use Rattle.cax64_encoder.specs.ImmActions.{imm_named};
ghost use Rattle.cax64_machine_code.specs.Line.{imm_bytes};
ghost use Rattle.cax64_operand.specs.Immediate.{imm_value};
ghost use Rattle.x64_lines.specs.Shape.{imm_field};
ghost use Rattle.x64_core.specs.Value.{is_imm_value};
ghost use Rattle.x64_core.specs.View.{core_view};

use crate::instruction::Core;
use x64_lines::shapes::OpImm;

/// What the word of an immediate of this kind stands for.
fn word_value(kind: OpImm, word: u32) -> Option<i64>
    requires { nat_lt word (256 ^ imm_bytes (imm_field kind)) ≡ true }
    ensures value { result ≡ option_map imm_value (imm_named (imm_field kind) word) }
    ensures range { IfSome result (λ value. is_imm_value value ≡ true) }
{
    match kind {
        OpImm::None => None,
        OpImm::U8 | OpImm::U16 | OpImm::U32 => Some(i64::from(word)),
        OpImm::I8 => Some(i64::from((word as u8).cast_signed())),
        OpImm::I32 => Some(i64::from(word.cast_signed())),
    }
}

impl Core {
    /// The immediate, where there is one.
    pub fn imm(&self) -> Option<i64>
        ensures value { result ≡ (core_view self.now).imm }
        ensures range { IfSome result (λ value. is_imm_value value ≡ true) }
    {
        word_value(self.op.shape().imm, self.imm)
    }
}
