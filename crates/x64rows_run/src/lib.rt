//! The program `x64rows` as a function over words and two writers.
#![tactic(auto)]

mod buffer;
mod line;
mod rows;

ghost use Rattle.std.specs.Prelude.{◌≡◌, ◌⊎◌, ◌≢◌, IfErr, map};
ghost use Rattle.x64rows_command.specs.Command.{IsCommand};
ghost use Rattle.x64rows_run.specs.Status.{IsStatus};

use crate::buffer::{backward, forward};
use crate::line::push_bytes;
use crate::rows::ROW_LINES;
use std::alloc::{Alloc, Allocator};
use std::env::{self, Env};
use std::io::{self, ErrorKind, Write};
use x64rows_command::{Fault, asked_tail, asks_for_buffer, asks_for_rows, end};

/// Prints bytes as a line.
fn print_bytes<A: Allocator>(alloc: A, bytes: &[u8], out: &mut impl Write) -> Result<(), Fault>
    ensures { IfErr result (λ fault. fault ≢ Fault.Usage) }
{
    let mut line = String::new(alloc);
    push_bytes(&mut line, bytes)?;
    line.push('\n')?;
    out.write_all(line.as_bytes())?;
    Ok(())
}

fn print_rows<A: Allocator>(alloc: A, out: &mut impl Write) -> Result<(), Fault>
    ensures { IfErr result (λ fault. fault ≢ Fault.Usage) }
{
    for line in ROW_LINES {
        let text = line.text(&alloc)?;
        out.write_all(text.as_bytes())?;
    }
    Ok(())
}

fn print_buffer<A: Allocator>(alloc: A, out: &mut impl Write) -> Result<(), Fault>
    ensures { IfErr result (λ fault. fault ≢ Fault.Usage) }
{
    let ahead = forward(&alloc)?;
    print_bytes(&alloc, ahead.as_slice(), out)?;
    let back = backward(&alloc)?;
    print_bytes(&alloc, back.as_slice(), out)
}

fn print_command<A: Allocator>(alloc: A, words: &[&str], out: &mut impl Write) -> Result<(), Fault>
    ensures command { (result ≢ Err Fault.Usage) → IsCommand (map (λ word. word.now) words.now) }
    ensures usage { result ≡ Err Fault.Usage → ¬ IsCommand (map (λ word. word.now) words.now) }
    ensures unchanged { result ≡ Err Fault.Usage → out.new ≡ out.old }
{
    if asks_for_rows(words) {
        return print_rows(alloc, out);
    }
    if asks_for_buffer(words) {
        return print_buffer(alloc, out);
    }
    match asked_tail(words) {
        Some(sink) => print_bytes(alloc, sink.bytes(), out),
        None => Err(Fault::Usage),
    }
}

fn print_lines<A: Allocator>(alloc: A, words: &[&str], out: &mut impl Write) -> Result<(), Fault>
    ensures command { (result ≢ Err Fault.Usage) → IsCommand (map (λ word. word.now) words.now) }
    ensures usage { result ≡ Err Fault.Usage → ¬ IsCommand (map (λ word. word.now) words.now) }
    ensures unchanged { result ≡ Err Fault.Usage → out.new ≡ out.old }
{
    print_command(alloc, words, out)?;
    out.flush()?;
    Ok(())
}

/// Runs `x64rows` on the words after the program's name, and answers its exit status: 0, 2 for words that aren't those
/// of a command, 3 for want of memory, 4 for a failed write to `out`.
///
/// Each line is made whole before any of it is written. For status 2 and 3 a line goes to `err`; whether that is
/// written changes nothing.
pub fn run<A: Allocator>(alloc: A, words: &[&str], out: &mut impl Write, err: &mut impl Write) -> u8
    ensures status { IsStatus result }
    ensures command { (result ≢ 2) → IsCommand (map (λ word. word.now) words.now) }
    ensures usage { result ≡ 2 → ¬ IsCommand (map (λ word. word.now) words.now) }
    ensures unchanged { result ≡ 2 → out.new ≡ out.old }
    ensures told { (result ≡ 0) ⊎ (result ≡ 4) → err.new ≡ err.old }
{
    end(print_lines(alloc, words, out), err)
}

/// Why the words of a process could not be had: one isn't UTF-8, or there was no memory for them.
fn fault_of(error: &io::Error) -> Fault {
    match error.kind() {
        ErrorKind::InvalidData => Fault::Usage,
        _ => Fault::NoMemory,
    }
}

fn print_process<R: Env + Alloc>(rt: &R, out: &mut impl Write) -> Result<(), Fault> {
    let arguments: Vec<String<R::A>, R::A> = match env::args(rt) {
        Ok(arguments) => arguments.collect(rt.alloc())?,
        Err(error) => return Err(fault_of(&error)),
    };
    let words: Vec<&str, R::A> = arguments
        .iter()
        .skip(1)
        .map(|argument| argument.as_str())
        .collect(rt.alloc())?;
    print_lines(rt.alloc(), &words, out)
}

/// Runs `x64rows` on the words of a process, as [`run`] on those after the program's name. The exit status is 2 also where
/// one of them isn't UTF-8, and 3 where there is no memory for them.
pub fn run_process<R: Env + Alloc>(rt: &R, out: &mut impl Write, err: &mut impl Write) -> u8
    ensures status { IsStatus result }
{
    end(print_process(rt, out), err)
}
