//! Jobs as those of `x64workloads`, by calls that came later. It prints a digest of all results.
//!
//! The words are a job, how often it is done and the seed. Without words each job is done a little.
#![tactic(auto)]

mod assembled;
mod checked;
mod functions;
mod kinds;
mod least;
mod parts;
mod stubs;

use crate::assembled::WithJumps;
use crate::checked::functions_checked;
use crate::functions::{Plain, functions_of};
use crate::least::Least;
use crate::stubs::stubs_again;
use cranelift_assembler_x64::SinkError;
use std::alloc::Global;
use std::process::ExitCode;
use std::{env, io};
use workload_source::digest::Digest;
use workload_source::registers::Regs;

/// What is done.
#[derive(Clone, Copy)]
enum Job {
    StubsAgain,
    Core,
    CoreAssembled,
    CoreAssembledLeast,
    FunctionsChecked,
}

const JOBS: [Job; 5] = [
    Job::StubsAgain,
    Job::Core,
    Job::CoreAssembled,
    Job::CoreAssembledLeast,
    Job::FunctionsChecked,
];

impl Job {
    fn name(self) -> &'static str {
        match self {
            Job::StubsAgain => "stubs_again",
            Job::Core => "core",
            Job::CoreAssembled => "core_assembled",
            Job::CoreAssembledLeast => "core_assembled_least",
            Job::FunctionsChecked => "functions_checked",
        }
    }

    fn do_it(self, alloc: Global, count: u32, seed: u64) -> Result<Digest, SinkError> {
        match self {
            Job::StubsAgain => stubs_again::<Regs>(alloc, count, seed),
            Job::Core => functions_of(alloc, Plain, count, seed),
            Job::CoreAssembled => functions_of(alloc, WithJumps, count, seed),
            Job::CoreAssembledLeast => functions_of(alloc, Least::new(alloc), count, seed),
            Job::FunctionsChecked => functions_checked::<Regs>(alloc, count, seed),
        }
    }
}

/// Does a job and prints its digest. Answers whether it was done.
fn run_job(rt: &HostRuntime, job: Job, count: u32, seed: u64) -> io::Result<bool> {
    let name = job.name();
    let Ok(digest) = job.do_it(rt.alloc(), count, seed) else {
        println!(rt; "{name} refused")?;
        return Ok(false);
    };
    let number = digest.number();
    println!(rt; "{name} {number:016x}")?;
    Ok(true)
}

fn status(is_done: bool) -> ExitCode {
    if is_done {
        ExitCode::SUCCESS
    } else {
        ExitCode::FAILURE
    }
}

fn job_of(name: &str) -> Option<Job> {
    JOBS.into_iter().find(|job| job.name() == name)
}

fn run_words(rt: &HostRuntime, job: &str, count: &str, seed: &str) -> io::Result<ExitCode> {
    let (Some(job), Ok(count), Ok(seed)) = (job_of(job), count.parse::<u32>(), seed.parse::<u64>())
    else {
        println!(rt; "usage: x64workloads_new [JOB COUNT SEED]")?;
        return Ok(ExitCode::from(2));
    };
    Ok(status(run_job(rt, job, count, seed)?))
}

fn main(rt: HostRuntime) -> io::Result<ExitCode> {
    let arguments: Vec<String> = env::args(&rt)?.collect(rt.alloc())?;
    if let [_, job, count, seed] = arguments.as_slice() {
        return run_words(&rt, job.as_str(), count.as_str(), seed.as_str());
    }
    let mut is_done = true;
    for job in JOBS {
        is_done = run_job(&rt, job, 100, 1)? && is_done;
    }
    Ok(status(is_done))
}
