//! Why an instruction can't be made of operands.

/// What of the operands isn't as the line has it.
#[derive(Clone, Copy, Debug, PartialEq)]
pub enum OperandError {
    /// A register in reg is given where none stands, or the other way round.
    Register,
    /// A register in vvvv is given where none stands, or the other way round.
    Vvvv,
    /// A register, memory or nothing is given where another of these stands.
    Place,
    /// An immediate is given where none stands, or the other way round.
    Immediate,
    /// The immediate isn't in the line's range.
    Range,
}
