//! Names of registers.

use cranelift_assembler_x64::{Size, gpr, xmm};
use named_instructions::fields::{Fault, Fields};

pub(crate) fn answer_name(fields: &mut Fields<'_>, came: &mut String) -> Result<(), Fault> {
    let kind = fields.text()?;
    let number = fields.number(15)?;
    let name = match kind {
        "Byte" => gpr::enc::to_string(number, Size::Byte),
        "Word" => gpr::enc::to_string(number, Size::Word),
        "Doubleword" => gpr::enc::to_string(number, Size::Doubleword),
        "Quadword" => gpr::enc::to_string(number, Size::Quadword),
        "Xmm" => xmm::enc::to_string(number),
        _ => return Err(Fault::Malformed),
    };
    came.push_str(name)?;
    Ok(())
}
