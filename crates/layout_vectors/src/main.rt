//! Assembles the lists of `layouts.tsv`, which lies in the folder where it runs, each in its least layout, and tells how many
//! have the wanted bytes.
//!
//! GNU as gave the bytes, by the script that lies beside the file. A line has a list and its bytes, separated by a tab; a
//! list's steps are `nop N`, `jump M LABEL` and `bind LABEL`, with `|` between them. The first line names the columns.
#![tactic(auto)]

mod list;
mod step;

use crate::list::hexadecimal_of;
use std::alloc::{AllocError, Global};
use std::process::ExitCode;
use std::{fs, io};

/// What came of the lines.
#[derive(Clone, Copy)]
struct Counts {
    lines: usize,
    equal: usize,
    /// The number in the file, from 1 on, of the first line that isn't equal.
    first: Option<usize>,
}

/// Runs each line of the file but the first.
fn counts_of(alloc: Global, text: &str) -> Result<Counts, AllocError> {
    let mut counts = Counts {
        lines: 0,
        equal: 0,
        first: None,
    };
    let mut number = 1usize;
    for line in text.lines().skip(1) {
        number = number.saturating_add(1);
        counts.lines = counts.lines.saturating_add(1);
        let Some((list, wanted)) = line.split_once('\t') else {
            counts.first = counts.first.or(Some(number));
            continue;
        };
        if hexadecimal_of(alloc, list)?.as_str() == wanted {
            counts.equal = counts.equal.saturating_add(1);
        } else {
            counts.first = counts.first.or(Some(number));
        }
    }
    Ok(counts)
}

fn main(rt: HostRuntime) -> io::Result<ExitCode> {
    let text = fs::read_to_string(&rt, "layouts.tsv")?;
    let counts = counts_of(rt.alloc(), text.as_str())?;
    let lines = counts.lines;
    let equal = counts.equal;
    println!(rt; "layouts: {lines} lines, {equal} equal")?;
    match counts.first {
        None => Ok(ExitCode::SUCCESS),
        Some(number) => {
            println!(rt; "  line {number} differs")?;
            Ok(ExitCode::FAILURE)
        }
    }
}
