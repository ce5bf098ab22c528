//! Runs the files of test vectors that lie in the folder where it runs, and tells how many of their lines come out as
//! wanted.
//!
//! The cases were made by the public crate, built and run, and by three disassemblers; those of jumps by GNU as, with the
//! script that lies beside them; the files whose names begin with `worked` are worked by hand.
//!
//! A file has a case a line, its columns separated by a tab: what goes in, and then what is to come out. Its first line
//! names the columns. A column is never empty: `-` stands for nothing. Numbers are decimal, bytes hexadecimal pairs.
#![tactic(auto)]

mod buffers;
mod columns;
mod encoding;
mod immediates;
mod lists;
mod names;
mod of_core;
mod prefixes;
mod program;
mod puts;
mod reading;
mod report;
mod rows;
mod sinks;
mod tails;
mod texts;
mod visits;

use crate::report::{Difference, Report, report_of};
use named_instructions::fields::{Fault, Fields};
use std::alloc::Global;
use std::io::ErrorKind;
use std::process::ExitCode;
use std::{fs, io};

/// The kind of a file's lines.
#[derive(Clone, Copy)]
pub enum Kind {
    Tails,
    Relative,
    Operands,
    Disp,
    Rex,
    Vex,
    Evex,
    Apx,
    Immediates,
    Ranges,
    Names,
    Rows,
    Instructions,
    Worked,
    Faults,
    Refusals,
    Reader,
    Program,
    Addresses,
    Patched,
    Buffers,
    Jumps,
}

const KINDS: [Kind; 22] = [
    Kind::Tails,
    Kind::Relative,
    Kind::Operands,
    Kind::Disp,
    Kind::Rex,
    Kind::Vex,
    Kind::Evex,
    Kind::Apx,
    Kind::Immediates,
    Kind::Ranges,
    Kind::Names,
    Kind::Rows,
    Kind::Instructions,
    Kind::Worked,
    Kind::Faults,
    Kind::Refusals,
    Kind::Reader,
    Kind::Program,
    Kind::Addresses,
    Kind::Patched,
    Kind::Buffers,
    Kind::Jumps,
];

/// The columns of `instructions` that nothing answers: those of the first of two stages, in which an 8-bit form with a
/// digit of 4 to 7 had a REX byte for the digit.
const UNANSWERED_OF_INSTRUCTIONS: [&str; 4] = ["bytes1", "calls1", "notices1", "len1"];

impl Kind {
    /// The file's name before `.tsv`.
    fn name(self) -> &'static str {
        match self {
            Kind::Tails => "tails",
            Kind::Relative => "relative",
            Kind::Operands => "operands",
            Kind::Disp => "disp",
            Kind::Rex => "rex",
            Kind::Vex => "vex",
            Kind::Evex => "evex",
            Kind::Apx => "apx",
            Kind::Immediates => "immediates",
            Kind::Ranges => "ranges",
            Kind::Names => "names",
            Kind::Rows => "rows",
            Kind::Instructions => "instructions",
            Kind::Worked => "worked_instructions",
            Kind::Faults => "faults",
            Kind::Refusals => "refusals",
            Kind::Reader => "reader",
            Kind::Program => "program",
            Kind::Addresses => "addresses",
            Kind::Patched => "patched",
            Kind::Buffers => "buffers",
            Kind::Jumps => "jumps",
        }
    }

    /// Whether there is a second file, with the rows by which the machine code was specified and what stands at the ends
    /// of ranges. Its name begins with `worked_`.
    fn has_worked_rows(self) -> bool {
        !matches!(
            self,
            Kind::Operands
                | Kind::Ranges
                | Kind::Names
                | Kind::Rows
                | Kind::Instructions
                | Kind::Worked
                | Kind::Patched
                | Kind::Jumps
        )
    }

    /// The columns that nothing answers. They are left out of each line before it is read.
    fn unanswered(self) -> &'static [&'static str] {
        match self {
            Kind::Instructions => &UNANSWERED_OF_INSTRUCTIONS,
            _ => &[],
        }
    }

    /// How many fronts, shorter than the instruction and read as none, stand behind a line that came out as wanted.
    pub(crate) fn fronts(self, came: &str) -> usize {
        match self {
            Kind::Instructions | Kind::Worked => {
                let bytes = came.split('\t').next();
                bytes.map_or(0, |pairs| pairs.len() / 2)
            }
            _ => 0,
        }
    }

    /// Reads what goes in, and writes what comes out as the columns that are left. Answers whether instructions of the core were
    /// put in the place of those of the port too, to compare what comes of them.
    fn answer(
        self,
        alloc: Global,
        fields: &mut Fields<'_>,
        came: &mut String,
    ) -> Result<bool, Fault> {
        match self {
            Kind::Instructions => encoding::answer_instruction(alloc, fields, came),
            Kind::Worked => encoding::answer_worked(alloc, fields, came),
            Kind::Faults => encoding::answer_fault(alloc, fields, came),
            Kind::Refusals => lists::answer_refusal(alloc, fields, came),
            Kind::Buffers => buffers::answer_buffer(alloc, fields, came),
            Kind::Jumps => buffers::answer_jumps(alloc, fields, came),
            _ => {
                self.answer_of_port(alloc, fields, came)?;
                Ok(false)
            }
        }
    }

    /// The same of a line from which no instruction is put.
    fn answer_of_port(
        self,
        alloc: Global,
        fields: &mut Fields<'_>,
        came: &mut String,
    ) -> Result<(), Fault> {
        match self {
            Kind::Tails => tails::answer_tail(alloc, fields, came),
            Kind::Relative => tails::answer_relative(alloc, fields, came),
            Kind::Operands => tails::answer_operand(alloc, fields, came),
            Kind::Disp => tails::answer_disp(alloc, fields, came),
            Kind::Rex => prefixes::answer_rex(alloc, fields, came),
            Kind::Vex => prefixes::answer_vex(alloc, fields, came),
            Kind::Evex => prefixes::answer_evex(alloc, fields, came),
            Kind::Apx => prefixes::answer_apx(alloc, fields, came),
            Kind::Immediates => immediates::answer_immediate(alloc, fields, came),
            Kind::Ranges => immediates::answer_range(fields, came),
            Kind::Names => names::answer_name(fields, came),
            Kind::Rows => rows::answer_row(fields, came),
            Kind::Reader => reading::answer_reading(alloc, fields, came),
            Kind::Program => program::answer_program(alloc, fields, came),
            Kind::Addresses => texts::answer_address(alloc, fields, came),
            Kind::Patched => buffers::answer_patched(fields, came),
            _ => Err(Fault::Malformed),
        }
    }
}

fn print_left_out(rt: &impl Print, kind: Kind) -> io::Result<()> {
    print!(rt; ", not compared:")?;
    for column in kind.unanswered() {
        print!(rt; " {column}")?;
    }
    Ok(())
}

fn print_count(rt: &impl Print, count: usize, what: &str) -> io::Result<()> {
    if count > 0 {
        print!(rt; ", {count} {what}")?;
    }
    Ok(())
}

fn print_difference(rt: &impl Print, difference: &Difference) -> io::Result<()> {
    let line = difference.line;
    let wanted = difference.wanted.as_str();
    let came = difference.came.as_str();
    println!(rt; "  line {line} wanted {wanted}")?;
    println!(rt; "  line {line} came   {came}")
}

fn print_report(rt: &impl Print, name: &str, kind: Kind, report: &Report) -> io::Result<()> {
    let lines = report.lines;
    print!(rt; "{name}: {lines} lines, ")?;
    let equal = report.equal;
    print!(rt; "{equal} equal")?;
    print_count(rt, report.passed_over, "passed over")?;
    print_count(rt, report.malformed, "malformed")?;
    print_count(rt, report.fronts, "shorter fronts read as none")?;
    if report.leaves_out {
        print_left_out(rt, kind)?;
    }
    println!(rt; "")?;
    if let Some(line) = report.first_malformed {
        println!(rt; "  line {line} of {name}.tsv is malformed")?;
    }
    match &report.first_difference {
        Some(difference) => print_difference(rt, difference),
        None => Ok(()),
    }
}

/// Compares a file and prints what it came to, and counts its cases of the core. Answers whether all lines are equal, or the file
/// is absent.
fn run_file(
    rt: &HostRuntime,
    front: &str,
    kind: Kind,
    cases_of_core: &mut usize,
) -> io::Result<bool> {
    let end = kind.name();
    let name = format!(in rt.alloc(); "{front}{end}")?;
    let path = format!(in rt.alloc(); "{front}{end}.tsv")?;
    let text = match fs::read_to_string(rt, path.as_str()) {
        Ok(text) => text,
        Err(error) if error.kind() == ErrorKind::NotFound => {
            println!(rt; "{name}: absent")?;
            return Ok(true);
        }
        Err(error) => return Err(error),
    };
    let report = report_of(rt.alloc(), kind, text.as_str())?;
    print_report(rt, name.as_str(), kind, &report)?;
    *cases_of_core = cases_of_core.saturating_add(report.of_core);
    Ok(report.is_clean())
}

fn main(rt: HostRuntime) -> io::Result<ExitCode> {
    let mut clean = true;
    let mut cases_of_core = 0usize;
    for kind in KINDS {
        clean = run_file(&rt, "", kind, &mut cases_of_core)? && clean;
        if kind.has_worked_rows() {
            clean = run_file(&rt, "worked_", kind, &mut cases_of_core)? && clean;
        }
    }
    println!(rt; "cases_of_core: {cases_of_core} equal")?;
    Ok(if clean {
        ExitCode::SUCCESS
    } else {
        ExitCode::FAILURE
    })
}
