//! Prints rows of the assembler: the library `x64rows_run`, run on the process's words and streams.
#![tactic(auto)]

use std::process::ExitCode;
use x64rows_run::run_process;

fn main(rt: HostRuntime) -> ExitCode {
    let mut out = rt.stdout();
    let mut err = rt.stderr();
    ExitCode::from(run_process(&rt, &mut out, &mut err))
}
