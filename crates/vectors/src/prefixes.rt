//! REX, VEX and EVEX.

use crate::columns::write_bytes;
use cranelift_assembler_x64::evex::EvexPrefix;
use cranelift_assembler_x64::rex::RexPrefix;
use cranelift_assembler_x64::vex::VexPrefix;
use named_instructions::fields::{Fault, Fields};
use std::alloc::Global;

pub(crate) fn answer_rex(
    alloc: Global,
    fields: &mut Fields<'_>,
    came: &mut String,
) -> Result<(), Fault> {
    let call = fields.text()?;
    let a = fields.number(15)?;
    let b = fields.number(15)?;
    let c = fields.number(15)?;
    let w_bit = fields.flag()?;
    let uses_8bit = fields.flag()?;
    let prefix = match call {
        "one_op" => RexPrefix::one_op(a, w_bit, uses_8bit),
        "two_op" => RexPrefix::two_op(a, b, w_bit, uses_8bit),
        "mem_op" => RexPrefix::mem_op(a, b, w_bit, uses_8bit),
        "with_digit" if a < 8 => RexPrefix::with_digit(a, b, w_bit, uses_8bit),
        "three_op" => RexPrefix::three_op(a, b, c, w_bit, uses_8bit),
        _ => return Err(Fault::Malformed),
    };
    let mut sink: Vec<u8> = Vec::new(alloc);
    prefix.encode(&mut sink).map_err(|_| Fault::NoMemory)?;
    write_bytes(came, &sink)
}

fn vex_bytes(alloc: Global, prefix: &VexPrefix) -> Result<Vec<u8>, Fault> {
    let mut sink = Vec::new(alloc);
    prefix.encode(&mut sink).map_err(|_| Fault::NoMemory)?;
    Ok(sink)
}

fn evex_bytes(alloc: Global, prefix: &EvexPrefix) -> Result<Vec<u8>, Fault> {
    let mut sink = Vec::new(alloc);
    prefix.encode(&mut sink).map_err(|_| Fault::NoMemory)?;
    Ok(sink)
}

pub(crate) fn answer_vex(
    alloc: Global,
    fields: &mut Fields<'_>,
    came: &mut String,
) -> Result<(), Fault> {
    let reg = fields.number(15)?;
    let vvvv = fields.number(15)?;
    let operand = (fields.optional(15)?, fields.optional(15)?);
    let l = fields.number(1)?;
    let pp = fields.number(3)?;
    let map = fields.number(3)?;
    let w = fields.flag()?;
    if map == 0 {
        return Err(Fault::Malformed);
    }
    let three = vex_bytes(
        alloc,
        &VexPrefix::three_op(reg, vvvv, operand, l, pp, map, w),
    )?;
    write_bytes(came, &three)?;
    if vvvv == 0 {
        let two = vex_bytes(alloc, &VexPrefix::two_op(reg, operand, l, pp, map, w))?;
        note_difference(came, "two_op", &three, &two)?;
    }
    Ok(())
}

/// Writes a second call's bytes where they aren't those of the first.
fn note_difference(
    came: &mut String,
    call: &str,
    first: &[u8],
    second: &[u8],
) -> Result<(), Fault> {
    if first == second {
        return Ok(());
    }
    write!(came, " but {call} gives ")?;
    write_bytes(came, second)
}

pub(crate) fn answer_evex(
    alloc: Global,
    fields: &mut Fields<'_>,
    came: &mut String,
) -> Result<(), Fault> {
    let reg = fields.number(31)?;
    let vvvv = fields.number(31)?;
    let operand = (fields.optional(15)?, fields.optional(15)?);
    let ll = fields.number(2)?;
    let pp = fields.number(3)?;
    let mmm = fields.number(7)?;
    let w = fields.flag()?;
    let broadcast = fields.flag()?;
    let new = evex_bytes(
        alloc,
        &EvexPrefix::new(reg, vvvv, operand, ll, pp, mmm, w, broadcast),
    )?;
    write_bytes(came, &new)?;
    let three = EvexPrefix::three_op(reg, vvvv, operand, ll, pp, mmm, w, broadcast);
    note_difference(came, "three_op", &new, &evex_bytes(alloc, &three)?)?;
    if vvvv == 0 {
        let two = EvexPrefix::two_op(reg, operand, ll, pp, mmm, w, broadcast);
        note_difference(came, "two_op", &new, &evex_bytes(alloc, &two)?)?;
    }
    Ok(())
}

pub(crate) fn answer_apx(
    alloc: Global,
    fields: &mut Fields<'_>,
    came: &mut String,
) -> Result<(), Fault> {
    let reg = fields.number(31)?;
    let vvvv = fields.number(31)?;
    let operand = (fields.optional(31)?, fields.optional(31)?);
    let pp = fields.number(3)?;
    let mmm = fields.number(7)?;
    let w = fields.flag()?;
    let nd = fields.flag()?;
    let nf = fields.flag()?;
    let legacy = evex_bytes(
        alloc,
        &EvexPrefix::legacy(reg, vvvv, operand, pp, mmm, w, nd, nf),
    )?;
    write_bytes(came, &legacy)?;
    let three = EvexPrefix::legacy_three_op(reg, vvvv, operand, pp, mmm, w, nd, nf);
    let three = evex_bytes(alloc, &three)?;
    note_difference(came, "legacy_three_op", &legacy, &three)?;
    if vvvv == 0 {
        let two = EvexPrefix::legacy_two_op(reg, operand, pp, mmm, w, nd, nf);
        let two = evex_bytes(alloc, &two)?;
        note_difference(came, "legacy_two_op", &legacy, &two)?;
    }
    Ok(())
}
