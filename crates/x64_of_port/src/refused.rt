//! Why an instruction of the port is none of the core.

use cax64_encoder::Fault;

/// Why an instruction of the port is none of the core.
#[derive(Clone, Copy, Debug, PartialEq)]
pub enum NotCore {
    /// It's a no-operation of fixed bytes. The core has its own.
    Nop,
    /// It can't be encoded for this sink, by its first fault, as `first_fault` of [`Instruction`](cax64_encoder::Instruction)
    /// finds it: a register that is virtual or isn't its row's own, the stack pointer as an index, or a late offset that isn't
    /// known or whose sum with the displacement is no `i32`.
    Fault(Fault),
}
