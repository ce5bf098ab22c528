//! Kinds of operands: what an operand is to an instruction, whichever register, address or value it has.

use cax64_immediate::Extension;
use cax64_register::Size;

/// What an instruction does with an operand, and of which kind and size the operand is. A register or an address is
/// read where the manual marks it `(r)`, written at `(w)`, both at `(r, w)`. (Intel SDM, volume 2, 3.1.1.3 and 3.1.1.4.)
#[derive(Clone, Copy, Debug, PartialEq)]
pub enum OperandKind {
    /// A general register that is read: `r8`, `r16`, `r32` or `r64`.
    ReadGpr(Size),
    /// A general register that is read and written.
    ReadWriteGpr(Size),
    /// A general register that is written.
    WriteGpr(Size),
    /// Two general registers that are written, the high half of a result in the first one.
    WriteTwoGprs(Size),
    /// The general register of this number, which is read and isn't in the bytes. It is printed at this size, or not at
    /// all. (Intel SDM, volume 2, table 3-1.)
    FixedReadGpr(u8, Option<Size>),
    /// The same of one that is read and written.
    FixedReadWriteGpr(u8, Option<Size>),
    /// A vector register that is read: `xmm`.
    ReadXmm,
    /// A vector register that is read and written.
    ReadWriteXmm,
    /// A vector register that is written.
    WriteXmm,
    /// Memory, `m8` to `m128`, of whose address the registers are read.
    ReadAmode,
    /// A general register that is read, or memory: `r/m8`, `r/m16`, `r/m32` or `r/m64`.
    ReadGprMem(Size),
    /// A general register that is read and written, or memory.
    ReadWriteGprMem(Size),
    /// A vector register that is read, or memory: `xmm/m32`, `xmm/m64` or `xmm/m128`.
    ReadXmmMem,
    /// A number in the bytes of the instruction.
    Imm(ImmediateKind),
}

/// The type of an immediate, and what it is to the instruction. (Intel SDM, volume 2, 3.1.1.3.)
#[derive(Clone, Copy, Debug, PartialEq)]
pub enum ImmediateKind {
    /// An unsigned byte: `imm8`.
    Imm8,
    /// Two unsigned bytes: `imm16`.
    Imm16,
    /// Four unsigned bytes: `imm32`.
    Imm32,
    /// A signed byte, and what the instruction extends it to.
    Simm8(Extension),
    /// Four signed bytes, and what the instruction extends them to.
    Simm32(Extension),
    /// The distance of a branch from its end, in a byte: `rel8`.
    Distance8,
    /// The distance of a branch from its end, in four bytes: `rel32`.
    Distance32,
    /// The predicate of a comparison. (Intel SDM, volume 2, `CMPPS`, table 3-1.)
    Predicate,
    /// The predicate of a VEX comparison. (Intel SDM, volume 2, `CMPPS`, table 3-3.)
    VexPredicate,
}
