//! Operands of an instruction.

ghost use Rattle.std.specs.Prelude.{◌≡◌, ◌++◌, ◌+ℤ◌, IsTrue, OnOk, Some, pos, string_bytes, true};
ghost use Rattle.cax64_machine_code.specs.Len.{opcode_len};
ghost use Rattle.cax64_machine_code.specs.Line.{imm_bytes};
ghost use Rattle.x64_lines.specs.LineOperands.{line_operands};
ghost use Rattle.x64_lines.specs.Line.{core_line};
ghost use Rattle.x64_core.specs.Value.{is_imm_value};
ghost use Rattle.x64_core.specs.View.{core_view};
ghost use Rattle.x64_text.specs.Fixed.{is_named};
ghost use Rattle.x64_text.specs.Text.{class_size, given_nameable, given_text, has_name, imm_text, is_imm, nameable, number_text, operand_text, place_nameable, place_text, register_text, size_of, target_text, unsigned_at, value_text, width_of};

use crate::style::{Style, line_style};
use cax64_address::number::{push_hexadecimal, push_short_number};
use cax64_address::text::Dialect;
use cax64_register::{AsReg, Size};
use std::alloc::{AllocError, Allocator};
use x64_core::Core;
use x64_lines::Op;
use x64_lines::operands::{Class, Home, LineOperand};

/// The size of so many bits.
fn size_of(bits: u8) -> Size
    ensures { result ≡ size_of bits }
{
    match bits {
        8 => Size::Byte,
        16 => Size::Word,
        32 => Size::Doubleword,
        _ => Size::Quadword,
    }
}

/// The size of a general register, none of a vector register.
fn class_size(operand: LineOperand) -> Option<Size>
    ensures { result ≡ class_size operand.class operand.bits }
{
    match operand.class {
        Class::General | Class::None => Some(size_of(operand.bits)),
        Class::Vector => None,
    }
}

/// Adds a register.
fn push_register<A: Allocator + Copy>(
    out: &mut String<A>,
    alloc: A,
    operand: LineOperand,
    number: u8,
) -> Result<(), AllocError>
    requires { has_name number ≡ true }
    ensures { OnOk result (string_bytes out.new ≡ string_bytes out.old ++ register_text operand number) }
{
    number.push_to(out, alloc, class_size(operand))
}

/// Adds a register, where the instruction has one.
fn push_given<A: Allocator + Copy>(
    out: &mut String<A>,
    alloc: A,
    operand: LineOperand,
    number: Option<u8>,
) -> Result<(), AllocError>
    requires { given_nameable number ≡ true }
    ensures { OnOk result (string_bytes out.new ≡ string_bytes out.old ++ given_text operand number) }
{
    match number {
        Some(number) => push_register(out, alloc, operand, number),
        None => Ok(()),
    }
}

/// Adds a register or memory.
fn push_place<A: Allocator + Copy>(
    out: &mut String<A>,
    alloc: A,
    operand: LineOperand,
    core: &Core,
) -> Result<(), AllocError>
    requires { place_nameable (core_view core.now).place ≡ true }
    ensures { OnOk result (string_bytes out.new ≡ string_bytes out.old ++ place_text operand (core_view core.now).place) }
{
    match core.memory() {
        Some(amode) => amode.push_to(out, alloc, Dialect::Att),
        None => push_given(out, alloc, operand, core.place_register()),
    }
}

/// The two's complement of a number at a size.
fn unsigned_at(size: Size, value: i64) -> u64
    ensures { result ≡ unsigned_at size value }
{
    let all = value.cast_unsigned();
    match size {
        Size::Byte => all % (1 << 8),
        Size::Word => all % (1 << 16),
        Size::Doubleword => all % (1 << 32),
        Size::Quadword => all,
    }
}

/// Whether an operand is an immediate.
fn is_imm(home: Home) -> bool
    ensures { result ≡ is_imm home }
{
    matches!(home, Home::Imm)
}

/// The bits that an immediate is extended to.
fn width(operands: &[LineOperand]) -> u8
    ensures { result ≡ width_of operands.now }
{
    for operand in operands {
        if !is_imm(operand.home) {
            return operand.bits;
        }
    }
    64
}

/// Adds a number at a size.
fn push_number<A: Allocator>(out: &mut String<A>, size: Size, value: i64) -> Result<(), AllocError>
    ensures { OnOk result (string_bytes out.new ≡ string_bytes out.old ++ number_text size value) }
{
    out.push('$')?;
    push_hexadecimal(out, unsigned_at(size, value))
}

/// Adds the target of a branch by this distance from its end, which has so many bytes.
fn push_target<A: Allocator>(out: &mut String<A>, distance: i64, len: u8) -> Result<(), AllocError>
    requires { is_imm_value distance ≡ true }
    ensures { OnOk result (string_bytes out.new ≡ string_bytes out.old ++ target_text (distance +ℤ pos len)) }
{
    let target = distance + i64::from(len);
    push_short_number(out, target.cast_unsigned())
}

/// Adds the immediate of a line.
fn push_value<A: Allocator>(out: &mut String<A>, op: Op, value: i64) -> Result<(), AllocError>
    requires { is_imm_value value ≡ true }
    ensures { OnOk result (string_bytes out.new ≡ string_bytes out.old ++ imm_text op.number (Some value)) }
{
    match line_style(op.number()) {
        Style::Plain | Style::Wide | Style::Indirect => push_number(
            out,
            size_of(width(op.operands())),
            value,
        ),
        Style::Branch(len) => push_target(out, value, len),
    }
}

/// Adds an operand.
pub(crate) fn push_operand<A: Allocator + Copy>(
    out: &mut String<A>,
    alloc: A,
    core: &Core,
    operand: LineOperand,
) -> Result<(), AllocError>
    requires nameable { nameable (core_view core.now) ≡ true }
    requires fixed { is_named operand.home ≡ true }
    ensures { OnOk result (string_bytes out.new ≡ string_bytes out.old ++ operand_text (core_view core.now) operand) }
{
    match operand.home {
        Home::Reg => push_given(out, alloc, operand, core.reg()),
        Home::Vvvv => push_given(out, alloc, operand, core.vvvv()),
        Home::Place => push_place(out, alloc, operand, core),
        Home::Fixed(number) => push_register(out, alloc, operand, number),
        Home::Imm => match core.imm() {
            Some(value) => push_value(out, core.op(), value),
            None => Ok(()),
        },
        // It's never printed.
        Home::Stack => Ok(()),
    }
}
