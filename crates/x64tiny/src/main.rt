//! Compiles the program of `program.tiny`, which lies in the folder where it runs, and prints its machine code in
//! hexadecimal, from the beginning of its first function.
//!
//! A program is functions of 64-bit integers, a statement a line, its words separated by spaces. A word `#` begins a line
//! that isn't one.
//!
//! | Statement | What it does |
//! |---|---|
//! | `def F A..` .. `end` | a function with up to four parameters; it answers 0 where no `return` is reached |
//! | `X = E`, `@X = E` | a variable, or the element of the array whose number it is, gets the value of an expression |
//! | `X = call F A..` | it gets what a function answers, of operands |
//! | `if A R B` .. `else` .. `end` | by a relation of two operands: `<` `<=` `>` `>=` `==` `!=`; without `else` too |
//! | `while A R B` .. `end` | as long as it holds |
//! | `return E` | the answer |
//!
//! An expression is operands with operators between them, which are applied from left to right: `+` `-` `*` `&` `|` `^` `<<`
//! `>>`, of which the last keeps the sign, and a shift counts by the lowest six bits. An operand is a number of 32 bits with
//! a sign, a variable, or `@X`. The one array has sixteen elements; the lowest four bits of a number count. A function has
//! five variables at most. It's called with the array's address in `rdi` and its arguments in `rsi`, `rdx`, `rcx` and `r8`.
#![tactic(auto)]

mod block;
mod emitter;
mod function;
mod operand;
mod refused;
mod statement;

use crate::refused::Refused;
use crate::statement::Compiler;
use std::alloc::Global;
use std::process::ExitCode;
use std::{fs, io};

/// The code of a program, or the number of the line that was refused, from 1 on, and why. The line is 0 where all lines were
/// taken.
fn compile(alloc: Global, text: &str) -> Result<Vec<u8>, (usize, Refused)> {
    let mut compiler = Compiler::new(alloc);
    let mut number = 0usize;
    for line in text.lines() {
        number = number.saturating_add(1);
        if let Err(refused) = compiler.take(line) {
            return Err((number, refused));
        }
    }
    compiler.finish().map_err(|refused| (0, refused))
}

fn main(rt: HostRuntime) -> io::Result<ExitCode> {
    let text = fs::read_to_string(&rt, "program.tiny")?;
    match compile(rt.alloc(), text.as_str()) {
        Ok(code) => {
            for byte in code.as_slice() {
                let byte = *byte;
                print!(&rt; "{byte:02x}")?;
            }
            println!(&rt; "")?;
            Ok(ExitCode::SUCCESS)
        }
        Err((number, refused)) => {
            let sentence = refused.sentence();
            println!(&rt; "line {number}: {sentence}")?;
            Ok(ExitCode::FAILURE)
        }
    }
}
