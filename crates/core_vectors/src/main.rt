//! Encodes the instructions of `core.tsv`, which lies in the folder where it runs, reads them back, and tells how many have the
//! wanted bytes and text; and reads the strings of `near.tsv` beside it, and tells how many are read as that file says.
//!
//! GNU as and three disassemblers gave the bytes, by the scripts that lie beside the files. A line of `core.tsv` has the number of
//! a line of the core and its name, the register in reg, what the rest of the tail names, the immediate, the bytes, and the text.
//! One of `near.tsv` has the number of the line that has to be read or a word for nothing, how many bytes it has, and the bytes.
//! Columns are separated by a tab; `-` stands for nothing. Numbers are decimal, bytes hexadecimal pairs. A line that begins with
//! `#` is a comment.
#![tactic(auto)]

mod case;
mod columns;
mod near;

use crate::case::{is_wanted, outcome_of};
use crate::near::difference_of;
use std::alloc::{AllocError, Global};
use std::process::ExitCode;
use std::{fs, io};

/// A file of lines.
#[derive(Clone, Copy)]
enum File {
    Core,
    Near,
}

impl File {
    fn name(self) -> &'static str {
        match self {
            File::Core => "core",
            File::Near => "near",
        }
    }

    fn path(self) -> &'static str {
        match self {
            File::Core => "core.tsv",
            File::Near => "near.tsv",
        }
    }

    /// What came of a line, where it isn't what the line says.
    fn difference(self, alloc: Global, line: &str) -> Result<Option<String>, AllocError> {
        match self {
            File::Core => {
                let came = outcome_of(alloc, line)?;
                Ok(if is_wanted(line, came.as_str()) {
                    None
                } else {
                    Some(came)
                })
            }
            File::Near => difference_of(alloc, line),
        }
    }
}

/// What came of the lines.
#[derive(Drop)]
struct Counts {
    lines: usize,
    equal: usize,
    /// The number in the file, from 1 on, of the first line that isn't equal, and what came.
    first: Option<(usize, String)>,
}

/// Runs each line of a file but its comments.
fn counts_of(alloc: Global, file: File, text: &str) -> Result<Counts, AllocError> {
    let mut counts = Counts {
        lines: 0,
        equal: 0,
        first: None,
    };
    let mut number = 0usize;
    for line in text.lines() {
        number = number.saturating_add(1);
        if line.starts_with('#') {
            continue;
        }
        counts.lines = counts.lines.saturating_add(1);
        let Some(came) = file.difference(alloc, line)? else {
            counts.equal = counts.equal.saturating_add(1);
            continue;
        };
        if counts.first.is_none() {
            counts.first = Some((number, came));
        }
    }
    Ok(counts)
}

/// Whether all lines of a file are equal, and tells how many are.
fn run(rt: &HostRuntime, file: File) -> io::Result<bool> {
    let text = fs::read_to_string(rt, file.path())?;
    let counts = counts_of(rt.alloc(), file, text.as_str())?;
    let name = file.name();
    let lines = counts.lines;
    let equal = counts.equal;
    println!(rt; "{name}: {lines} lines, {equal} equal")?;
    let Some((number, came)) = counts.first else {
        return Ok(true);
    };
    let came = came.as_str();
    println!(rt; "  line {number} came {came}")?;
    Ok(false)
}

fn main(rt: HostRuntime) -> io::Result<ExitCode> {
    let core = run(&rt, File::Core)?;
    let near = run(&rt, File::Near)?;
    if core & near {
        Ok(ExitCode::SUCCESS)
    } else {
        Ok(ExitCode::FAILURE)
    }
}
