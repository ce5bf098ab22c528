//! The function that is compiled.

use crate::block::Block;
use crate::refused::Refused;
use huqmeris::Label;
use std::alloc::Global;

/// The number of the register that stands for the first variable. Real ones are below it.
pub(crate) const VARIABLES: u8 = 16;

/// How many variables a function has at most.
pub(crate) const MOST: u8 = 5;

#[derive(Drop)]
pub(crate) struct Function<'a> {
    names: Vec<&'a str>,
    blocks: Vec<Block>,
    /// Where it ends, which every `return` jumps to.
    pub(crate) end: Label,
}

impl<'a> Function<'a> {
    pub(crate) fn new(alloc: Global, end: Label) -> Function<'a> {
        Function {
            names: Vec::new(alloc),
            blocks: Vec::new(alloc),
            end,
        }
    }

    /// The register that stands for a variable, which is a new one at its first mention.
    pub(crate) fn variable(&mut self, name: &'a str) -> Result<u8, Refused> {
        if !name.starts_with(char::is_alphabetic) {
            return Err(Refused::Operand);
        }
        let mut number = VARIABLES;
        for known in self.names.as_slice() {
            if *known == name {
                return Ok(number);
            }
            number = number.saturating_add(1);
        }
        if number >= VARIABLES + MOST {
            return Err(Refused::Variables);
        }
        self.names.push(name).map_err(|_| Refused::NoMemory)?;
        Ok(number)
    }

    pub(crate) fn open(&mut self, block: Block) -> Result<(), Refused> {
        self.blocks.push(block).map_err(|_| Refused::NoMemory)
    }

    /// The block that is open, which is closed by this.
    pub(crate) fn close(&mut self) -> Option<Block> {
        self.blocks.pop()
    }
}
