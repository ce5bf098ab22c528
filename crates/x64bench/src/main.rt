//! Times the library over the instructions of the file `bench.tsv` in the folder where it runs.
//!
//! A line of the file is an instruction: its name, a tab, and its fields. For each call that is timed it prints the
//! nanoseconds that it takes for one instruction, in the best of 15 rounds over the whole list.
#![tactic(auto)]

mod core_calls;
mod texts;
mod timing;

use crate::core_calls::{
    CORE_CALLS, best_time_of_core, best_time_of_making, best_time_of_taking, memory_and_register,
};
use crate::texts::{OfCore, OfPort, Texts};
use crate::timing::{CALLS, best_time, best_time_of_reading, first_unfit};
use cranelift_assembler_x64::{Numbers, RowAndOperands};
use named_instructions::fields::Fault;
use named_instructions::{Form, Refusal, TakesList, take_list};
use std::io::ErrorKind;
use std::process::ExitCode;
use std::time::Duration;
use std::{fs, io};
use x64_core::Core;
use x64_encode::Encode;

fn refuse(rt: &impl Print, refusal: Refusal) -> io::Result<ExitCode> {
    let line = refusal.number;
    let message = match refusal.fault {
        Fault::Malformed => "malformed",
        Fault::PassedOver => "no such instruction",
        Fault::NoMemory => "no memory",
    };
    println!(rt; "line {line}: {message}")?;
    Ok(ExitCode::FAILURE)
}

/// Nanoseconds for one of so many, in tenths. None where there is no item, or the time is too long.
fn tenths(time: Duration, count: usize) -> Option<u64> {
    let nanos = u64::try_from(time.as_nanos()).ok()?;
    let count = u64::try_from(count).ok()?;
    nanos.checked_mul(10)?.checked_div(count)
}

fn print_time(
    rt: &impl Print,
    front: &str,
    name: &str,
    time: Duration,
    count: usize,
) -> io::Result<()> {
    let Some(tenths) = tenths(time, count) else {
        return println!(rt; "{front}{name} failed");
    };
    let (whole, tenth) = (tenths / 10, tenths % 10);
    println!(rt; "{front}{name} {whole}.{tenth}")
}

/// Times the calls that every instruction has, with this before the name of each.
fn time_calls<I: Encode, T: Texts<I>>(
    rt: &HostRuntime,
    front: &str,
    insts: &[I],
    code: &mut Vec<u8>,
) -> io::Result<()> {
    for call in CALLS {
        let best = best_time::<I, T>(rt, call, insts, code)?;
        print_time(rt, front, call.name(), best, insts.len())?;
    }
    Ok(())
}

/// Times those that are instructions of the core, where there are some.
fn time_core<I: RowAndOperands<Family = Numbers>>(
    rt: &HostRuntime,
    insts: &[I],
    code: &mut Vec<u8>,
) -> io::Result<()> {
    let mut cores = Vec::new(rt.alloc());
    let best = best_time_of_taking(rt, insts, &*code, &mut cores)?;
    print_time(rt, "core_", "of", best, insts.len())?;
    if cores.is_empty() {
        return Ok(());
    }
    time_calls::<Core, OfCore>(rt, "core_", cores.as_slice(), code)?;
    let count = cores.len();
    for call in CORE_CALLS {
        let best = best_time_of_core(rt, call, cores.as_mut_slice(), code)?;
        print_time(rt, "core_", call.name(), best, count)?;
    }
    let numbers = memory_and_register(rt.alloc(), cores.as_slice())?;
    let best = best_time_of_making(rt, numbers.as_slice())?;
    print_time(rt, "core_", "of_numbers", best, numbers.len())
}

fn time_list<I: RowAndOperands<Family = Numbers>>(
    rt: &HostRuntime,
    insts: &[I],
) -> io::Result<ExitCode> {
    let count = insts.len();
    if count == 0 {
        println!(rt; "bench.tsv has no instruction")?;
        return Ok(ExitCode::FAILURE);
    }
    let mut code: Vec<u8> = Vec::new(rt.alloc());
    code.reserve(count.saturating_mul(16))?;
    if let Some(place) = first_unfit::<I, OfPort>(insts, &code) {
        let number = place.saturating_add(1);
        let fault = Fault::Malformed;
        return refuse(rt, Refusal { number, fault });
    }
    time_calls::<I, OfPort>(rt, "", insts, &mut code)?;
    let best = best_time_of_reading(rt, code.as_slice(), count)?;
    print_time(rt, "", "read_inst", best, count)?;
    time_core(rt, insts, &mut code)?;
    Ok(ExitCode::SUCCESS)
}

/// The program, which times what is in a list.
#[derive(Drop)]
struct Timed<'a>(&'a HostRuntime);

impl TakesList for Timed<'_> {
    type Answer = io::Result<ExitCode>;

    fn take<I: RowAndOperands<Family = Numbers> + Drop>(
        &mut self,
        insts: &[I],
    ) -> io::Result<ExitCode> {
        time_list(self.0, insts)
    }
}

/// How the file is written.
const FORM: Form = Form {
    between: "\n",
    behind_name: '\t',
};

fn main(rt: HostRuntime) -> io::Result<ExitCode> {
    let text = match fs::read_to_string(&rt, "bench.tsv") {
        Ok(text) => text,
        Err(error) if error.kind() == ErrorKind::NotFound => {
            println!(rt; "no bench.tsv")?;
            return Ok(ExitCode::SUCCESS);
        }
        Err(error) => return Err(error),
    };
    let text = text.as_str();
    let lines = text.strip_suffix('\n').unwrap_or(text);
    match take_list(rt.alloc(), lines, FORM, &mut Timed(&rt)) {
        Ok(ended) => ended,
        Err(refusal) => refuse(&rt, refusal),
    }
}
