//! The conversion.

ghost use Rattle.std.specs.Prelude.{◌≡◌, ℕ, ℤ, IfErr, IfOk, IsSome, None, OnOk, Option, Some, option_map};
ghost use Rattle.cax64_encoder.specs.EncodesLine.{line_notices_of};
ghost use Rattle.cax64_encoder.specs.Fault as fault;
ghost use Rattle.cax64_machine_code.specs.ReadLine.{LineReading, parts_as};
ghost use Rattle.cax64_machine_code.specs.Rows.{line_of};
ghost use Rattle.cax64_table.specs.Packed.{number_of};
ghost use Rattle.x64_core.specs.Core.{core_meant, is_encodable};
ghost use Rattle.x64_core.specs.View.{core_view};
ghost use Rattle.x64_of_port.specs.NotCore.{not_core};
ghost use Rattle.x64_of_port.specs.Numbers.{numbered_amode};

use crate::given::Given;
use crate::refused::NotCore;
use cax64_encoder::Instruction;
use cax64_operand::{RegisterFamily, RowAndOperands};
use cax64_sink::CodeSink;
use x64_core::Core;

/// Why there is none. It's seldom asked, so it stays out of the code of those who make one.
#[cold]
#[inline(never)]
fn reason<I: RowAndOperands, S: CodeSink>(inst: &I, sink: &S) -> NotCore
    requires { IsSome (not_core (S.state sink.now) (⟦<I as Instruction>⟧.meant inst.now)) }
    ensures { not_core (S.state sink.now) (⟦<I as Instruction>⟧.meant inst.now) ≡ Some result }
{
    match inst.first_fault(sink) {
        Some(fault) => NotCore::Fault(fault),
        None => NotCore::Nop,
    }
}

/// The instruction of the core that an instruction of the port is: its row's line, and each register by its hardware number.
/// Traps, targets and late offsets stay.
///
/// Of the sink only its offsets are asked: where it doesn't know the instruction's late offset, there is none.
#[inline(always)]
pub fn core_of<I: RowAndOperands, S: CodeSink>(inst: &I, sink: &S) -> Result<Core, NotCore>
    ensures taken { OnOk result (not_core (S.state sink.now) (⟦<I as Instruction>⟧.meant inst.now) ≡ None) }
    ensures refused { IfErr result (λ why. not_core (S.state sink.now) (⟦<I as Instruction>⟧.meant inst.now) ≡ Some why) }
    ensures op { IfOk result (λ core. (core_view core).op ≡ number_of (I.row_of inst.now)) }
    ensures parts { IfOk result (λ core. (offsets : ℕ → Option ℤ) → (core_meant (core_view core) offsets).parts ≡ parts_as (line_of (I.row_of inst.now)) (⟦<I as Instruction>⟧.meant inst.now offsets).parts) }
    ensures memory { IfOk result (λ core. (offsets : ℕ → Option ℤ) → (core_meant (core_view core) offsets).memory ≡ option_map (λ amode. numbered_amode ⟦<I::Family as RegisterFamily>⟧.family.read_gpr amode) (⟦<I as Instruction>⟧.meant inst.now offsets).memory) }
    ensures tells { IfOk result (λ core. (offsets : ℕ → Option ℤ) (at : ℕ) (reading : LineReading) → line_notices_of (core_meant (core_view core) offsets).memory at reading ≡ line_notices_of (⟦<I as Instruction>⟧.meant inst.now offsets).memory at reading) }
    ensures encodable { IfOk result (λ core. (offsets : ℕ → Option ℤ) → is_encodable offsets (core_view core) ≡ fault.is_encodable offsets (⟦<I as Instruction>⟧.meant inst.now offsets)) }
{
    let mut to = sink;
    match inst.hand_to::<Given, &S>(&mut to) {
        Some(core) => Ok(core),
        None => Err(reason(inst, sink)),
    }
}
