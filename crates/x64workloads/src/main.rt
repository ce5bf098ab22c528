//! The jobs that a back end and its tools wait for, each over instructions that follow from a seed. It prints a digest of
//! all results.
//!
//! The words are a job, how often it is done and the seed. Without words each job is done a little.
#![tactic(auto)]

mod jobs;

use crate::jobs::functions::{functions, large_functions, small_functions};
use crate::jobs::listings::listings;
use crate::jobs::lists::lists;
use crate::jobs::reading::reading;
use crate::jobs::stubs::stubs;
use cranelift_assembler_x64::{Numbers, SinkError};
use std::alloc::Global;
use std::process::ExitCode;
use std::{env, io};
use workload_source::digest::Digest;
use workload_source::registers::Regs;

/// A job.
#[derive(Clone, Copy)]
enum Job {
    Functions,
    SmallFunctions,
    Stubs,
    LargeFunctions,
    Lists,
    Reading,
    Listings,
}

/// Each job, and how often it is done where no words are given.
const JOBS: [(Job, u32); 7] = [
    (Job::Functions, 4),
    (Job::SmallFunctions, 20),
    (Job::Stubs, 100),
    (Job::LargeFunctions, 1),
    (Job::Lists, 2),
    (Job::Reading, 1),
    (Job::Listings, 1),
];

impl Job {
    fn name(self) -> &'static str {
        match self {
            Job::Functions => "functions",
            Job::SmallFunctions => "small_functions",
            Job::Stubs => "stubs",
            Job::LargeFunctions => "large_functions",
            Job::Lists => "lists",
            Job::Reading => "reading",
            Job::Listings => "listings",
        }
    }

    fn of_name(name: &str) -> Option<Job> {
        for (job, _) in JOBS {
            if job.name() == name {
                return Some(job);
            }
        }
        None
    }

    fn done(self, alloc: Global, count: u32, seed: u64) -> Result<Digest, SinkError> {
        match self {
            Job::Functions => functions::<Regs>(alloc, count, seed),
            Job::SmallFunctions => small_functions::<Regs>(alloc, count, seed),
            Job::Stubs => stubs::<Regs>(alloc, count, seed),
            Job::LargeFunctions => large_functions::<Regs>(alloc, count, seed),
            Job::Lists => lists::<Regs>(alloc, count, seed),
            Job::Reading => reading::<Regs>(alloc, count, seed),
            Job::Listings => all_listings(alloc, count, seed),
        }
    }
}

/// Listings for both families, one behind the other.
fn all_listings(alloc: Global, count: u32, seed: u64) -> Result<Digest, SinkError> {
    let own = listings::<Regs>(alloc, count, seed).map_err(|_| SinkError::NoMemory)?;
    let mut digest = listings::<Numbers>(alloc, count, own.number()).map_err(
        |_| SinkError::NoMemory,
    )?;
    digest.word(own.number());
    Ok(digest)
}

fn run_job(rt: &HostRuntime, job: Job, count: u32, seed: u64) -> io::Result<ExitCode> {
    let name = job.name();
    let Ok(digest) = job.done(rt.alloc(), count, seed) else {
        println!(rt; "{name} refused")?;
        return Ok(ExitCode::FAILURE);
    };
    let number = digest.number();
    println!(rt; "{name} {number:016x}")?;
    Ok(ExitCode::SUCCESS)
}

fn run_words(rt: &HostRuntime, job: &str, count: &str, seed: &str) -> io::Result<ExitCode> {
    let (Some(job), Ok(count), Ok(seed)) = (
        Job::of_name(job),
        count.parse::<u32>(),
        seed.parse::<u64>(),
    ) else {
        println!(rt; "usage: x64workloads [JOB COUNT SEED]")?;
        return Ok(ExitCode::from(2));
    };
    run_job(rt, job, count, seed)
}

fn main(rt: HostRuntime) -> io::Result<ExitCode> {
    let arguments: Vec<String> = env::args(&rt)?.collect(rt.alloc())?;
    if let [_, job, count, seed] = arguments.as_slice() {
        return run_words(&rt, job.as_str(), count.as_str(), seed.as_str());
    }
    for (job, count) in JOBS {
        run_job(&rt, job, count, 1)?;
    }
    Ok(ExitCode::SUCCESS)
}
