//! Operands of instructions.

ghost use Rattle.std.specs.Prelude.{◌≡◌, ◌≢◌, IfSome, true};
ghost use Rattle.x64_plain.specs.Plain.{plain, plain_place};
ghost use Rattle.huqmeris_c.specs.Given.{imm_given, register_given};
ghost use Rattle.x64_core.specs.Value.{is_imm_value};
ghost use Rattle.x64_core.specs.View.{core_view};
ghost use Rattle.x64_core.specs.declared.instruction.Core.{Core};
ghost use Rattle.x64_plain.specs.declared.status.TheConstants.{HQ_BAD_INST, HQ_OK};

use crate::make::{HQ_NO_IMM, HQ_NO_REG};
use x64_plain::status::{HQ_BAD_INST, HQ_OK};
use x64_plain::{HqInst, HqPlace};

/// A register as it's given.
fn register_number(register: Option<u8>) -> u16
    ensures { register_given result ≡ register }
{
    match register {
        Some(number) => u16::from(number),
        None => HQ_NO_REG,
    }
}

/// An immediate as it's given.
fn immediate_value(immediate: Option<i64>) -> i64
    requires { IfSome immediate (λ value. is_imm_value value ≡ true) }
    ensures { imm_given result ≡ immediate }
{
    match immediate {
        Some(value) => value,
        None => HQ_NO_IMM,
    }
}

/// The operands of an instruction, of which `hq_make` makes it again: `HQ_NO_REG` and `HQ_NO_IMM` for those that its line lacks.
#[unsafe(no_mangle)]
pub extern "C" fn hq_operands(
    inst: &HqInst,
    reg: &mut u16,
    vvvv: &mut u16,
    place: &mut HqPlace,
    imm: &mut i64,
) -> i32
    ensures bad { ((c : Core) → plain (core_view c) ≢ inst.now) → (result ≡ HQ_BAD_INST) × (reg.new ≡ reg.old) × (vvvv.new ≡ vvvv.old) × (place.new ≡ place.old) × (imm.new ≡ imm.old) }
    ensures registers { (c : Core) → plain (core_view c) ≡ inst.now → (result ≡ HQ_OK) × (register_given reg.new ≡ (core_view c).reg) × (register_given vvvv.new ≡ (core_view c).vvvv) }
    ensures others { (c : Core) → plain (core_view c) ≡ inst.now → (place.new ≡ plain_place (core_view c).place) × (imm_given imm.new ≡ (core_view c).imm) }
{
    let Some(core) = inst.core() else {
        return HQ_BAD_INST;
    };
    *reg = register_number(core.reg());
    *vvvv = register_number(core.vvvv());
    *place = HqPlace::of(&core.place());
    *imm = immediate_value(core.imm());
    HQ_OK
}
