//! The comparison of a file.

use crate::Kind;
use named_instructions::fields::{Fault, Fields};
use std::alloc::{AllocError, Global};

/// A line whose answer isn't the wanted one.
#[derive(Drop)]
pub struct Difference {
    /// The number in the file, from 1 on.
    pub line: usize,
    pub wanted: String,
    pub came: String,
}

/// What a file's lines came to.
#[derive(Drop)]
pub struct Report {
    pub lines: usize,
    pub equal: usize,
    /// Fronts of instructions that are read as none, in the lines that are equal.
    pub fronts: usize,
    /// The lines that are equal, and came out the same of instructions of the core.
    pub of_core: usize,
    pub passed_over: usize,
    pub malformed: usize,
    /// Whether it has columns that are left out.
    pub leaves_out: bool,
    pub first_malformed: Option<usize>,
    pub first_difference: Option<Difference>,
}

impl Report {
    fn new() -> Self {
        Report {
            lines: 0,
            equal: 0,
            fronts: 0,
            of_core: 0,
            passed_over: 0,
            malformed: 0,
            leaves_out: false,
            first_malformed: None,
            first_difference: None,
        }
    }

    /// Whether each line that wasn't passed over is equal.
    pub(crate) fn is_clean(&self) -> bool {
        self.first_malformed.is_none() && self.first_difference.is_none()
    }

    fn compare(&mut self, kind: Kind, line: usize, answer: Answer) {
        let Answer {
            wanted,
            came,
            of_core,
        } = answer;
        if came == wanted {
            self.equal = self.equal.saturating_add(1);
            self.of_core = self.of_core.saturating_add(usize::from(of_core));
            self.fronts = self.fronts.saturating_add(kind.fronts(came.as_str()));
        } else if self.first_difference.is_none() {
            self.first_difference = Some(Difference { line, wanted, came });
        }
    }

    fn add_malformed(&mut self, line: usize) {
        self.malformed = self.malformed.saturating_add(1);
        if self.first_malformed.is_none() {
            self.first_malformed = Some(line);
        }
    }
}

/// What is wanted of a line, and what came.
#[derive(Drop)]
struct Answer {
    wanted: String,
    came: String,
    /// Whether it's the answer of instructions of the core too.
    of_core: bool,
}

/// The columns of a line but those of the names that are left out, with the tabs between them.
fn columns_but(alloc: Global, left_out: &[&str], names: &str, line: &str) -> Result<String, Fault> {
    if names.split('\t').count() != line.split('\t').count() {
        return Err(Fault::Malformed);
    }
    let mut columns = String::new(alloc);
    for (name, column) in names.split('\t').zip(line.split('\t')) {
        if left_out.iter().any(|left| *left == name) {
            continue;
        }
        if !columns.is_empty() {
            columns.push('\t')?;
        }
        columns.push_str(column)?;
    }
    Ok(columns)
}

/// The answer of a line.
fn answer_of(alloc: Global, kind: Kind, names: &str, line: &str) -> Result<Answer, Fault> {
    let columns = columns_but(alloc, kind.unanswered(), names, line)?;
    let mut fields = Fields::new(columns.as_str());
    let mut came = String::new(alloc);
    let of_core = kind.answer(alloc, &mut fields, &mut came)?;
    let wanted = String::from_str(alloc, fields.rest()?)?;
    Ok(Answer {
        wanted,
        came,
        of_core,
    })
}

/// Compares each line of a file but the first, which names the columns behind a `#`.
pub(crate) fn report_of(alloc: Global, kind: Kind, text: &str) -> Result<Report, AllocError> {
    let mut report = Report::new();
    let (header, cases) = text.split_once('\n').unwrap_or((text, ""));
    let names = header.strip_prefix('#').unwrap_or(header);
    report.leaves_out = kind
        .unanswered()
        .iter()
        .any(|left| names.split('\t').any(|name| name == *left));
    let mut number = 1usize;
    for line in cases.lines() {
        number = number.saturating_add(1);
        report.lines = report.lines.saturating_add(1);
        match answer_of(alloc, kind, names, line) {
            Ok(answer) => report.compare(kind, number, answer),
            Err(Fault::Malformed) => report.add_malformed(number),
            Err(Fault::PassedOver) => report.passed_over = report.passed_over.saturating_add(1),
            Err(Fault::NoMemory) => return Err(AllocError),
        }
    }
    Ok(report)
}
