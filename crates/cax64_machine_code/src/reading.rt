//! What is read from the bytes of an instruction.

use crate::row::Row;

/// A register operand: its number, 0 to 15, or the high byte of one of the first four registers.
#[derive(Clone, Copy, Debug, PartialEq)]
pub enum RegView {
    /// The register of this number, at the operand's width.
    Low(u8),
    /// `ah`, `ch`, `dh` or `bh`, by 0 to 3.
    High(u8),
}

/// What the rest of a tail names beside its reg field.
#[derive(Clone, Copy, Debug, PartialEq)]
pub enum Place {
    /// A register.
    Reg(RegView),
    /// Memory at the sum of a base register, an index register times its factor of 1, 2, 4 or 8, and a displacement.
    Mem {
        base: Option<u8>,
        index: Option<(u8, u8)>,
        disp: i32,
    },
    /// Memory at this distance from the end of the instruction.
    Rip(i32),
}

/// An instruction as it is read. What its row lacks is `None`.
#[derive(Clone, Copy, Debug, PartialEq)]
pub struct Reading {
    pub row: Row,
    /// The number of bytes of the instruction, 1 to 13.
    pub length: u8,
    /// The number of bytes of ModR/M, SIB and displacement, 0 where there is no ModR/M byte.
    pub tail: u8,
    /// The register in the reg field of ModR/M.
    pub reg: Option<RegView>,
    /// The register in the vvvv field of VEX.
    pub vvvv: Option<u8>,
    pub place: Option<Place>,
    /// Unsigned or signed, as the row has it.
    pub imm: Option<i64>,
}
