//! What is done with the operands of a line, as an allocator of registers asks.

ghost use Rattle.std.specs.Prelude.{◌≡◌, ◌≤◌, ◌<◌, ◌+◌, drop, length, take, true};
ghost use Rattle.x64_lines.specs.LineOperands.{operands_fit, line_operands, span_of};
ghost use Rattle.x64_lines.specs.Line.{core_line};
ghost use Rattle.x64_lines.specs.declared.lines.TheConstants.{COUNT};

use crate::op::Op;
use crate::operand_lists::OPERANDS;
use crate::operand_spans::{SPANS, Span};

/// Where an operand is.
#[derive(Clone, Copy, Debug, PartialEq)]
pub enum Home {
    /// A register in the reg field of ModR/M.
    Reg,
    /// A register in vvvv of a VEX prefix.
    Vvvv,
    /// A register or memory in the rest of the tail.
    Place,
    /// The register of this number, which the line fixes, and which stands nowhere in the bytes.
    Fixed(u8),
    /// An immediate.
    Imm,
    /// Memory of the stack that stands nowhere in the bytes. A push or a call writes it below the stack pointer, a pop or a return
    /// reads it at the stack pointer, and `leave` at `rbp`.
    Stack,
}

/// What registers an operand may be.
#[derive(Clone, Copy, Debug, PartialEq)]
pub enum Class {
    General,
    Vector,
    /// It's memory alone, or an immediate.
    None,
}

/// What is done with the bits of an operand.
///
/// What may stay as it was is read: a `Write` leaves none of the operand's bits in any run. So the register of `cmov` and that of
/// `bsf` say `ReadWrite`, and so does a vector register of which a scalar line leaves the upper part. Flags go by the same rule
/// ([`Flags`](crate::flags::Flags)).
#[derive(Clone, Copy, Debug, PartialEq)]
pub enum Access {
    /// Nothing: an address alone, as the memory of `lea`, or the operand of a no-operation.
    None,
    Read,
    Write,
    ReadWrite,
}

/// An operand of a line. Base and index of memory are read, whatever is done with the memory, save by a no-operation.
///
/// Of a register the operand is its low `bits`. What stands above them:
///
/// - A write of 8 or 16 bits leaves the others.
/// - A write of 32 bits makes the upper half of a general register 0. Where a line may leave the register as it was, the upper
///   half may stay too: `eax` of `cmpxchgl`, and the register of `bsfl` and `bsrl`.
/// - Of a vector register that is written the operand is all 128 bits, whatever part of them changes. What a processor has above
///   these a line with VEX makes 0, and another line leaves.
///
/// A `bt` with a register reads beside its memory too, as far as the register's number of bits goes.
#[derive(Clone, Copy, Debug, PartialEq)]
pub struct LineOperand {
    pub home: Home,
    pub class: Class,
    pub access: Access,
    /// Of the register, of the memory or of the immediate: 8 to 128.
    pub bits: u8,
    /// Whether it's among the operands that a text has.
    pub is_printed: bool,
}

/// Where the list of a line stands.
fn span(number: u16) -> Span
    requires { number < COUNT }
    ensures { result ≡ span_of number }
{
    SPANS[usize::from(number)]
}

/// A part of a list.
fn part(operands: &[LineOperand], span: Span) -> &[LineOperand]
    requires { span.first + span.count ≤ length operands.now }
    ensures { result.now ≡ take span.count (drop span.first operands.now) }
{
    let first = usize::from(span.first);
    &operands[first..first + usize::from(span.count)]
}

impl Op {
    /// All that it reads and writes but flags: its operands, in the order of the manual, one at each place where its bytes hold one,
    /// and those that it fixes; behind them the registers and the memory that it uses beside them, as a push does. The instruction
    /// pointer and MXCSR aren't among them.
    pub fn operands(self) -> &'static [LineOperand]
        ensures list { result.now ≡ line_operands self.number }
        ensures fit { operands_fit (core_line self.number) result.now ≡ true }
    {
        part(&OPERANDS, span(self.number))
    }
}
