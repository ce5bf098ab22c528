//! What is read from the bytes of an instruction of the core.

use cax64_machine_code::reading::{Place, RegView};
use x64_lines::Op;

/// An instruction of the core as it is read. What its line lacks is `None`.
#[derive(Clone, Copy, Debug, PartialEq)]
pub struct CoreReading {
    /// Its line.
    pub op: Op,
    /// The number of bytes of the instruction, 1 to 13.
    pub length: u8,
    /// The number of bytes of ModR/M, SIB and displacement, 0 where there is no ModR/M byte.
    pub tail: u8,
    /// The register in the reg field of ModR/M.
    pub reg: Option<RegView>,
    /// The register in the vvvv field of VEX.
    pub vvvv: Option<u8>,
    /// What the rest of the tail names.
    pub place: Option<Place>,
    /// Unsigned or signed, as the line has it.
    pub imm: Option<i64>,
}
