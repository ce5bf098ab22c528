//! What lines read and write: their operands, what they use beside them, and flags.

ghost use Rattle.std.specs.Prelude.{◌≡◌, ◌≤◌, ◌<◌, length};
ghost use Rattle.x64_plain.specs.declared.status.TheConstants.{HQ_BAD_LINE, HQ_NONE, HQ_OK};
ghost use Rattle.huqmeris_c.specs.LineUse.{access_number, class_number, fixed_number, home_number, operand_at, plain_flags, plain_operand};
ghost use Rattle.x64_lines.specs.Flags.{flags_of};
ghost use Rattle.x64_lines.specs.LineOperands.{line_operands};
ghost use Rattle.x64_lines.specs.declared.lines.TheConstants.{COUNT};

use x64_lines::Op;
use x64_lines::flags::Flags;
use x64_lines::operands::{Access, Class, Home, LineOperand};
use x64_plain::status::{HQ_BAD_LINE, HQ_NONE, HQ_OK};

/// Where an operand is: a register in the reg field.
pub const HQ_HOME_REG: u8 = 0;

/// Where an operand is: a register in vvvv.
pub const HQ_HOME_VVVV: u8 = 1;

/// Where an operand is: the register or memory of the place.
pub const HQ_HOME_PLACE: u8 = 2;

/// Where an operand is: a register that the line fixes, and that stands nowhere in the bytes.
pub const HQ_HOME_FIXED: u8 = 3;

/// Where an operand is: the immediate.
pub const HQ_HOME_IMM: u8 = 4;

/// Where an operand is: memory of the stack, which stands nowhere in the bytes.
pub const HQ_HOME_STACK: u8 = 5;

/// What registers an operand may be: none. It's memory, or the immediate.
pub const HQ_CLASS_NONE: u8 = 0;

/// What registers an operand may be: general ones.
pub const HQ_CLASS_GENERAL: u8 = 1;

/// What registers an operand may be: vector registers.
pub const HQ_CLASS_VECTOR: u8 = 2;

/// What is done with an operand: nothing, as with the memory of `lea`.
pub const HQ_ACCESS_NONE: u8 = 0;

/// What is done with an operand: it's read.
pub const HQ_ACCESS_READ: u8 = 1;

/// What is done with an operand: it's written, and nothing of what it was stays.
pub const HQ_ACCESS_WRITE: u8 = 2;

/// What is done with an operand: it's read and written, or written so that it or a part of it may stay.
pub const HQ_ACCESS_READ_WRITE: u8 = 3;

/// The flag CF.
pub const HQ_FLAG_CF: u16 = 1;

/// The flag PF.
pub const HQ_FLAG_PF: u16 = 4;

/// The flag AF.
pub const HQ_FLAG_AF: u16 = 16;

/// The flag ZF.
pub const HQ_FLAG_ZF: u16 = 64;

/// The flag SF.
pub const HQ_FLAG_SF: u16 = 128;

/// The flag OF.
pub const HQ_FLAG_OF: u16 = 2048;

/// An operand of a line, or a register or memory that it uses beside its operands.
#[repr(C)]
#[derive(Clone, Copy, Debug, PartialEq)]
pub struct HqOperand {
    /// Where it is: `HQ_HOME_REG` and the like.
    pub home: u8,
    /// The register's, where the line fixes one, else 0.
    pub number: u8,
    /// What registers it may be: `HQ_CLASS_GENERAL` and the like.
    pub registers: u8,
    /// What is done with it: `HQ_ACCESS_READ` and the like.
    pub access: u8,
    /// How many bits it has: 8 to 128.
    pub bits: u8,
    /// Whether it's among the operands that a text has: 0 or 1.
    pub printed: u8,
}

/// The flags that a line reads, writes and leaves undefined: sums of `HQ_FLAG_CF` and the like, each at its place in EFLAGS. A flag
/// that is read, and written or undefined too, may be one that the line leaves as it was.
#[repr(C)]
#[derive(Clone, Copy, Debug, PartialEq)]
pub struct HqFlags {
    pub read: u16,
    pub written: u16,
    pub undefined: u16,
}

fn home_number(home: Home) -> u8
    ensures { result ≡ home_number home }
{
    match home {
        Home::Reg => HQ_HOME_REG,
        Home::Vvvv => HQ_HOME_VVVV,
        Home::Place => HQ_HOME_PLACE,
        Home::Fixed(_) => HQ_HOME_FIXED,
        Home::Imm => HQ_HOME_IMM,
        Home::Stack => HQ_HOME_STACK,
    }
}

fn fixed_number(home: Home) -> u8
    ensures { result ≡ fixed_number home }
{
    match home {
        Home::Fixed(number) => number,
        _ => 0,
    }
}

fn class_number(class: Class) -> u8
    ensures { result ≡ class_number class }
{
    match class {
        Class::None => HQ_CLASS_NONE,
        Class::General => HQ_CLASS_GENERAL,
        Class::Vector => HQ_CLASS_VECTOR,
    }
}

fn access_number(access: Access) -> u8
    ensures { result ≡ access_number access }
{
    match access {
        Access::None => HQ_ACCESS_NONE,
        Access::Read => HQ_ACCESS_READ,
        Access::Write => HQ_ACCESS_WRITE,
        Access::ReadWrite => HQ_ACCESS_READ_WRITE,
    }
}

impl HqOperand {
    /// An operand in integers.
    fn of(kind: LineOperand) -> HqOperand
        ensures { result ≡ plain_operand kind }
    {
        HqOperand {
            home: home_number(kind.home),
            number: fixed_number(kind.home),
            registers: class_number(kind.class),
            access: access_number(kind.access),
            bits: kind.bits,
            printed: u8::from(kind.is_printed),
        }
    }
}

impl HqFlags {
    /// Flags in integers.
    fn of(flags: Flags) -> HqFlags
        ensures { result ≡ plain_flags flags }
    {
        HqFlags {
            read: flags.read.bits,
            written: flags.written.bits,
            undefined: flags.undefined.bits,
        }
    }
}

/// The operand of this index of a line, counted from 0: first those of its bytes and those that it fixes, in the manual's order,
/// and then the registers and memory that it uses beside them, as a push does with the stack. `HQ_NONE` where there are no more,
/// `HQ_BAD_LINE` where no line has the number.
///
/// Base and index of memory are read too. A write of 8 or 16 bits leaves the others of a register, and one of 32 bits makes the
/// upper half 0.
#[unsafe(no_mangle)]
pub extern "C" fn hq_line_operand(line: u16, index: usize, operand: &mut HqOperand) -> i32
    ensures line { COUNT ≤ line → (result ≡ HQ_BAD_LINE) × (operand.new ≡ operand.old) }
    ensures none { line < COUNT → length (line_operands line) ≤ index → (result ≡ HQ_NONE) × (operand.new ≡ operand.old) }
    ensures is { line < COUNT → index < length (line_operands line) → (result ≡ HQ_OK) × (operand.new ≡ plain_operand (operand_at line index)) }
{
    let Some(op) = Op::from_number(line) else {
        return HQ_BAD_LINE;
    };
    let kinds = op.operands();
    if index >= kinds.len() {
        return HQ_NONE;
    }
    *operand = HqOperand::of(kinds[index]);
    HQ_OK
}

/// The flags that a line reads, writes and leaves undefined. `HQ_BAD_LINE` where no line has the number.
#[unsafe(no_mangle)]
pub extern "C" fn hq_line_flags(line: u16, flags: &mut HqFlags) -> i32
    ensures line { COUNT ≤ line → (result ≡ HQ_BAD_LINE) × (flags.new ≡ flags.old) }
    ensures is { line < COUNT → (result ≡ HQ_OK) × (flags.new ≡ plain_flags (flags_of line)) }
{
    let Some(op) = Op::from_number(line) else {
        return HQ_BAD_LINE;
    };
    *flags = HqFlags::of(op.flags());
    HQ_OK
}
