//! Immediates as words of 32 bits.

ghost use Rattle.std.specs.Prelude.{◌≡◌, ◌≢◌, ◌^◌, ℕ, IfNone, IfSome, nat_lt, option_map, true};
ghost use Rattle.cax64_encoder.specs.ImmActions.{imm_named};
ghost use Rattle.cax64_machine_code.specs.Line.{imm_bytes};
ghost use Rattle.cax64_operand.specs.Immediate.{imm_value};
ghost use Rattle.x64_plain.specs.Plain.{imm_word, low_word};
ghost use Rattle.x64_lines.specs.Shape.{imm_field};
ghost use Rattle.x64_core.specs.Value.{is_imm_value};

use x64_lines::shapes::OpImm;

/// The low 32 bits of an immediate.
fn low_word(value: i64) -> u32
    requires { is_imm_value value ≡ true }
    ensures { result ≡ low_word value }
{
    if value < 0 {
        (value + (1 << 32)) as u32
    } else {
        value as u32
    }
}

/// The low 32 bits of an immediate, 0 where there is none.
pub(crate) fn word_of(imm: Option<i64>) -> u32
    requires { IfSome imm (λ value. is_imm_value value ≡ true) }
    ensures { result ≡ imm_word imm }
{
    match imm {
        None => 0,
        Some(value) => low_word(value),
    }
}

/// The bytes of an immediate of this kind as one word, the first one the lowest, from the low 32 bits of its value. `None` where a
/// signed byte is wanted and these are of no number from -128 to 127. No other range is tested.
#[inline(always)]
pub(crate) fn bytes_of(kind: OpImm, low: u32) -> Option<u32>
    ensures is { IfSome result (λ word. nat_lt word (256 ^ imm_bytes (imm_field kind)) ≡ true → imm_word (option_map imm_value (imm_named (imm_field kind) word)) ≡ low) }
    ensures alone { IfSome result (λ word. (other : ℕ) → nat_lt other (256 ^ imm_bytes (imm_field kind)) ≡ true → imm_word (option_map imm_value (imm_named (imm_field kind) other)) ≡ low → word ≡ other) }
    ensures none { IfNone result ((other : ℕ) → nat_lt other (256 ^ imm_bytes (imm_field kind)) ≡ true → imm_word (option_map imm_value (imm_named (imm_field kind) other)) ≢ low) }
{
    if !matches!(kind, OpImm::I8) {
        return Some(low);
    }
    if low.wrapping_add(128) < 256 {
        Some(low % 256)
    } else {
        None
    }
}
