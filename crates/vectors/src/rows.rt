//! The row of each instruction.

use cranelift_assembler_x64::{Instruction, Numbers, RowAndOperands};
use named_instructions::fields::{Fault, Fields};
use named_instructions::{TakesInstruction, take_instruction};

/// What asks an instruction for the name of its row.
#[derive(Drop)]
struct RowName;

impl TakesInstruction for RowName {
    type Answer = &'static str;

    fn take<I: RowAndOperands<Family = Numbers> + Drop>(&mut self, inst: I) -> &'static str {
        inst.row().name()
    }
}

/// The row has the name of the struct, but that the no-operations of three bytes and more are of the rows `nopl_rm` and
/// `nopw_rm`.
pub(crate) fn answer_row(fields: &mut Fields<'_>, came: &mut String) -> Result<(), Fault> {
    let name = fields.text()?;
    let values = fields.text()?;
    came.push_str(take_instruction(name, values, &mut RowName)?)?;
    Ok(())
}
