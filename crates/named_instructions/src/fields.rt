//! The columns of a line.

ghost use Rattle.std.specs.Prelude.{◌≤◌, ◌≤ℤ◌, pos, IfOk, IfSome};

use std::alloc::AllocError;
use std::str::FromStr;

/// Why a line isn't compared.
#[derive(Clone, Copy, Debug, PartialEq)]
pub enum Fault {
    /// A column isn't there, or isn't of its form or range.
    Malformed,
    /// It is of a kind that isn't compared.
    PassedOver,
    NoMemory,
}

impl From<AllocError> for Fault {
    fn from(_error: AllocError) -> Fault {
        Fault::NoMemory
    }
}

/// The columns that are still to be read, or other pieces of a text. A column that stands for nothing is `-`.
#[derive(Clone, Copy)]
pub struct Fields<'a> {
    rest: Option<&'a str>,
    separator: char,
}

impl<'a> Fields<'a> {
    /// The columns of a line.
    pub fn new(line: &'a str) -> Fields<'a> {
        Fields {
            rest: Some(line),
            separator: '\t',
        }
    }

    /// The pieces of a column.
    pub fn list(column: &'a str, separator: char) -> Fields<'a> {
        let rest = match column {
            "-" => None,
            pieces => Some(pieces),
        };
        Fields { rest, separator }
    }

    pub fn is_at_end(&self) -> bool {
        self.rest.is_none()
    }

    /// All columns that are left, with the tabs between them.
    pub fn rest(self) -> Result<&'a str, Fault> {
        self.rest.ok_or(Fault::Malformed)
    }

    /// The next column.
    pub fn text(&mut self) -> Result<&'a str, Fault> {
        let rest = self.rest()?;
        match rest.split_once(self.separator) {
            Some((first, others)) => {
                self.rest = Some(others);
                Ok(first)
            }
            None => {
                self.rest = None;
                Ok(rest)
            }
        }
    }

    /// A number from 0 to `most`.
    pub fn number(&mut self, most: u8) -> Result<u8, Fault>
        ensures { IfOk result (λ n. n ≤ most) }
    {
        number_of(self.text()?, most)
    }

    /// A number from 0 to `most`, or none.
    pub fn optional(&mut self, most: u8) -> Result<Option<u8>, Fault>
        ensures { IfOk result (λ o. IfSome o (λ n. n ≤ most)) }
    {
        match self.text()? {
            "-" => Ok(None),
            text => Ok(Some(number_of(text, most)?)),
        }
    }

    pub fn signed(&mut self) -> Result<i32, Fault> {
        parsed(self.text()?)
    }

    /// The factor of a displacement, 1 to 127, or none.
    pub fn factor(&mut self) -> Result<Option<i8>, Fault>
        ensures { IfOk result (λ o. IfSome o (λ n. pos 1 ≤ℤ n)) }
    {
        match self.optional(127)? {
            Some(0) => Err(Fault::Malformed),
            Some(factor) => Ok(Some(factor as i8)),
            None => Ok(None),
        }
    }

    /// 0 or 1.
    pub fn flag(&mut self) -> Result<bool, Fault> {
        Ok(self.number(1)? == 1)
    }
}

/// A number of any type that has the range.
pub fn parsed<N: FromStr>(text: &str) -> Result<N, Fault>
where
    <N as FromStr>::Err: Drop,
{
    text.parse::<N>().map_err(|_| Fault::Malformed)
}

fn number_of(text: &str, most: u8) -> Result<u8, Fault>
    ensures { IfOk result (λ n. n ≤ most) }
{
    let number: u8 = parsed(text)?;
    if number > most {
        return Err(Fault::Malformed);
    }
    Ok(number)
}
