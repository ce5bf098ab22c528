//! Statements.

use crate::block::Block;
use crate::emitter::{ARGUMENTS, Emitter, RAX};
use crate::function::Function;
use crate::operand::{Operand, Operator, condition_against};
use crate::refused::Refused;
use huqmeris::Label;
use std::alloc::Global;

/// Takes a program line by line.
#[derive(Drop)]
pub(crate) struct Compiler<'a> {
    alloc: Global,
    emitter: Emitter,
    /// The functions that were named, with where they begin.
    functions: Vec<(&'a str, Label)>,
    function: Option<Function<'a>>,
}

/// Puts the value of an expression into `rax`.
fn expression<'a>(
    emitter: &mut Emitter,
    function: &mut Function<'a>,
    words: &[&'a str],
) -> Result<(), Refused> {
    let (first, rest) = words.split_first().ok_or(Refused::Operand)?;
    emitter.load(RAX, Operand::of(first, function)?)?;
    for pair in rest.chunks(2) {
        let [operator, operand] = pair else {
            return Err(Refused::Operand);
        };
        emitter.apply(Operator::of(operator)?, Operand::of(operand, function)?)?;
    }
    Ok(())
}

/// Jumps to a label where the relation of these words doesn't hold.
fn unless<'a>(
    emitter: &mut Emitter,
    function: &mut Function<'a>,
    words: &[&'a str],
    label: Label,
) -> Result<(), Refused> {
    let [first, relation, second] = words else {
        return Err(Refused::Relation);
    };
    let first = Operand::of(first, function)?;
    let second = Operand::of(second, function)?;
    emitter.branch(first, condition_against(relation)?, second, label)
}

impl<'a> Compiler<'a> {
    pub(crate) fn new(alloc: Global) -> Compiler<'a> {
        Compiler {
            alloc,
            emitter: Emitter::new(alloc),
            functions: Vec::new(alloc),
            function: None,
        }
    }

    /// Where a function begins.
    fn entry(&mut self, name: &'a str) -> Result<Label, Refused> {
        for (known, label) in self.functions.as_slice() {
            if *known == name {
                return Ok(*label);
            }
        }
        let label = self.emitter.new_label()?;
        self.functions
            .push((name, label))
            .map_err(|_| Refused::NoMemory)?;
        Ok(label)
    }

    /// Compiles a line.
    pub(crate) fn take(&mut self, line: &'a str) -> Result<(), Refused> {
        let words: Vec<&'a str> = line.split_whitespace().collect(self.alloc)?;
        let Some((first, rest)) = words.as_slice().split_first() else {
            return Ok(());
        };
        match *first {
            "#" => Ok(()),
            "def" => self.define(rest),
            "end" if rest.is_empty() => self.end(),
            "else" if rest.is_empty() => self.otherwise(),
            "if" => self.when(rest),
            "while" => self.while_holds(rest),
            "return" => self.give(rest),
            place => self.assign(place, rest),
        }
    }

    fn define(&mut self, words: &[&'a str]) -> Result<(), Refused> {
        if self.function.is_some() {
            return Err(Refused::Place);
        }
        let (name, parameters) = words.split_first().ok_or(Refused::Statement)?;
        if parameters.len() > ARGUMENTS.len() {
            return Err(Refused::Variables);
        }
        let entry = self.entry(name)?;
        self.emitter.bind(entry)?;
        let end = self.emitter.new_label()?;
        let mut function = Function::new(self.alloc, end);
        for parameter in parameters {
            function.variable(parameter)?;
        }
        self.emitter.enter(parameters.len())?;
        self.function = Some(function);
        Ok(())
    }

    fn end(&mut self) -> Result<(), Refused> {
        let Some(function) = &mut self.function else {
            return Err(Refused::End);
        };
        match function.close() {
            Some(Block::While { top, behind }) => {
                self.emitter.jump(top)?;
                self.emitter.bind(behind)
            }
            Some(Block::If { otherwise }) => self.emitter.bind(otherwise),
            Some(Block::Else { behind }) => self.emitter.bind(behind),
            None => {
                let end = function.end;
                self.function = None;
                self.emitter.leave(end)
            }
        }
    }

    fn otherwise(&mut self) -> Result<(), Refused> {
        let Some(function) = &mut self.function else {
            return Err(Refused::End);
        };
        let Some(Block::If { otherwise }) = function.close() else {
            return Err(Refused::End);
        };
        let behind = self.emitter.new_label()?;
        self.emitter.jump(behind)?;
        self.emitter.bind(otherwise)?;
        function.open(Block::Else { behind })
    }

    fn when(&mut self, words: &[&'a str]) -> Result<(), Refused> {
        let Some(function) = &mut self.function else {
            return Err(Refused::Place);
        };
        let otherwise = self.emitter.new_label()?;
        unless(&mut self.emitter, function, words, otherwise)?;
        function.open(Block::If { otherwise })
    }

    fn while_holds(&mut self, words: &[&'a str]) -> Result<(), Refused> {
        let Some(function) = &mut self.function else {
            return Err(Refused::Place);
        };
        let top = self.emitter.new_label()?;
        let behind = self.emitter.new_label()?;
        self.emitter.bind(top)?;
        unless(&mut self.emitter, function, words, behind)?;
        function.open(Block::While { top, behind })
    }

    fn give(&mut self, words: &[&'a str]) -> Result<(), Refused> {
        let Some(function) = &mut self.function else {
            return Err(Refused::Place);
        };
        expression(&mut self.emitter, function, words)?;
        self.emitter.jump(function.end)
    }

    fn assign(&mut self, place: &'a str, words: &[&'a str]) -> Result<(), Refused> {
        let (first, value) = words.split_first().ok_or(Refused::Statement)?;
        if *first != "=" {
            return Err(Refused::Statement);
        }
        match value {
            ["call", name, arguments @ ..] => self.call(name, arguments)?,
            _ => {
                let Some(function) = &mut self.function else {
                    return Err(Refused::Place);
                };
                expression(&mut self.emitter, function, value)?;
            }
        }
        let Some(function) = &mut self.function else {
            return Err(Refused::Place);
        };
        self.emitter.store(Operand::of(place, function)?)
    }

    /// Passes the arguments, and calls.
    fn call(&mut self, name: &'a str, arguments: &[&'a str]) -> Result<(), Refused> {
        if arguments.len() > ARGUMENTS.len() {
            return Err(Refused::Variables);
        }
        let entry = self.entry(name)?;
        let Some(function) = &mut self.function else {
            return Err(Refused::Place);
        };
        for (argument, register) in arguments.iter().zip(ARGUMENTS.iter()) {
            let operand = Operand::of(argument, function)?;
            self.emitter.load(*register, operand)?;
        }
        self.emitter.call(entry)
    }

    pub(crate) fn finish(self) -> Result<Vec<u8>, Refused> {
        match self.function {
            Some(_) => Err(Refused::Open),
            None => self.emitter.finish(),
        }
    }
}
