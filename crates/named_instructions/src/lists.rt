//! Lists of instructions.

use crate::fields::Fault;
use crate::names::instruction_of;
use crate::takers::TakesList;
use cranelift_assembler_x64::{Inst, Numbers};
use std::alloc::Global;

/// The number of a piece of a list that isn't an instruction, from 1 on, and why.
#[derive(Clone, Copy)]
pub struct Refusal {
    pub number: usize,
    pub fault: Fault,
}

/// How a list is written.
#[derive(Clone, Copy)]
pub struct Form {
    /// What stands between two instructions.
    pub between: &'static str,
    /// What stands between the name of an instruction and its fields.
    pub behind_name: char,
}

/// For any type, since that is less to prove than for an `Inst`.
fn push<T: Drop>(list: &mut Vec<T>, item: T) -> Result<(), Fault> {
    list.push(item).map_err(|_| Fault::NoMemory)
}

fn push_named(insts: &mut Vec<Inst<Numbers>>, named: &str, behind_name: char) -> Result<(), Fault> {
    let (name, fields) = named.split_once(behind_name).ok_or(Fault::Malformed)?;
    push(insts, instruction_of(name, fields)?)
}

/// Does what is to be done with the instructions of a list. The empty text is the empty list.
pub fn take_list<T: TakesList>(
    alloc: Global,
    list: &str,
    form: Form,
    taker: &mut T,
) -> Result<T::Answer, Refusal> {
    let mut insts = Vec::new(alloc);
    if !list.is_empty() {
        let mut number = 0usize;
        for named in list.split(form.between) {
            number = number.saturating_add(1);
            if let Err(fault) = push_named(&mut insts, named, form.behind_name) {
                return Err(Refusal { number, fault });
            }
        }
    }
    Ok(taker.take(insts.as_slice()))
}
