//! What stands before the opcode, as it is kept while an instruction is read.

ghost use Rattle.cax64_table.specs.PrefixNumbers.{prefix_with};
ghost use Rattle.cax64_reader.specs.PrefixWith.{AreOf};

use cax64_table::prefix::PrefixNumbers;

/// A prefix as plain numbers: those that are compared with a row's, and what the operands need beside them. So little
/// has to be kept that it stays in registers.
#[derive(Clone, Copy)]
pub struct Front {
    pub numbers: PrefixNumbers,
    pub has_rex: bool,
    pub r: bool,
    pub x: bool,
    pub b: bool,
    pub vvvv: u8,
    ghost meant: { AreOf numbers has_rex r x b vvvv (prefix_with numbers has_rex r x b vvvv) },
}
