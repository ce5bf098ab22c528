//! Instructions from their names and fields, by groups of names.

mod arithmetic;
mod jumps;
mod locked;
mod nops;
mod vector;

use crate::fields::Fault;
use crate::names::arithmetic::arithmetic;
use crate::names::jumps::jump;
use crate::names::locked::{add_or_adc, sbb_and_sub, xor_exchange};
use crate::names::nops::nop;
use crate::names::vector::vector;
use crate::takers::TakesInstruction;
use crate::values::Values;
use cranelift_assembler_x64::{Inst, Numbers};

fn named(name: &str, v: &mut Values<'_>) -> Option<Inst<Numbers>> {
    if let Some(inst) = add_or_adc(name, v) {
        return Some(inst);
    }
    if let Some(inst) = sbb_and_sub(name, v) {
        return Some(inst);
    }
    if let Some(inst) = xor_exchange(name, v) {
        return Some(inst);
    }
    if let Some(inst) = arithmetic(name, v) {
        return Some(inst);
    }
    if let Some(inst) = vector(name, v) {
        return Some(inst);
    }
    if let Some(inst) = jump(name, v) {
        return Some(inst);
    }
    nop(name)
}

/// The instruction of a name and its fields; `PassedOver` where there is no such struct.
pub(crate) fn instruction_of(name: &str, fields: &str) -> Result<Inst<Numbers>, Fault> {
    let mut values = Values::new(fields);
    let inst = named(name, &mut values).ok_or(Fault::PassedOver)?;
    values.end()?;
    Ok(inst)
}

/// Does what is to be done with the instruction of a name and its fields; `PassedOver` where there is no such struct.
pub fn take_instruction<T: TakesInstruction>(
    name: &str,
    fields: &str,
    taker: &mut T,
) -> Result<T::Answer, Fault> {
    Ok(taker.take(instruction_of(name, fields)?))
}
