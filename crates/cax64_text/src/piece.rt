//! Operands behind what separates them: each kind of part in a function that isn't inlined, so that the code of a kind of
//! instruction is little more than a call for each operand.

ghost use Rattle.std.specs.Prelude.{◌≡◌, ◌++◌, IsTrue, IfOk, OnOk, Some, string_bytes};
ghost use Rattle.cax64_address.specs.Text.{amode_nameable, amode_text};
ghost use Rattle.cax64_immediate.specs.Text as immediate_text;
ghost use Rattle.cax64_text.specs.Operand.{imm_text, is_shown, operand_nameable, operand_text, piece, separator, still_first, target_text};

use crate::names::RegisterNames;
use crate::operand::{is_shown, push_number, push_target};
use crate::style::opcode_and_imm_len;
use cax64_address::amode::Amode;
use cax64_address::operand::{GprMem, XmmMem};
use cax64_address::text::Dialect;
use cax64_immediate::{Simm8, Simm32};
use cax64_machine_code::row::Row;
use cax64_operand::{Immediate, Operand};
use cax64_register::{AsReg, Registers, Size};
use std::alloc::{AllocError, Allocator};

#[inline(always)]
fn add_separator<A: Allocator>(out: &mut String<A>, first: bool) -> Result<(), AllocError>
    ensures { OnOk result (string_bytes out.new ≡ string_bytes out.old ++ separator first) }
{
    if first {
        return Ok(());
    }
    out.push_str(", ")
}

#[inline(never)]
fn add_register<R: AsReg, A: Allocator + Copy>(
    out: &mut String<A>,
    alloc: A,
    first: bool,
    reg: R,
    size: Option<Size>,
) -> Result<(), AllocError>
    requires { IsTrue (R.nameable reg) }
    ensures { OnOk result (string_bytes out.new ≡ string_bytes out.old ++ separator first ++ R.text reg size) }
{
    add_separator(out, first)?;
    reg.push_to(out, alloc, size)
}

#[inline(never)]
fn add_amode<R: AsReg, A: Allocator + Copy>(
    out: &mut String<A>,
    alloc: A,
    dialect: Dialect,
    first: bool,
    amode: Amode<R>,
) -> Result<(), AllocError>
    requires { IsTrue (amode_nameable R.nameable amode) }
    ensures { OnOk result (string_bytes out.new ≡ string_bytes out.old ++ separator first ++ amode_text R.text dialect amode) }
{
    add_separator(out, first)?;
    amode.push_to(out, alloc, dialect)
}

#[inline(always)]
fn add_number<A: Allocator>(out: &mut String<A>, first: bool, bits: u64) -> Result<(), AllocError>
    ensures { OnOk result (string_bytes out.new ≡ string_bytes out.old ++ separator first ++ immediate_text.imm_text bits) }
{
    add_separator(out, first)?;
    push_number(out, bits)
}

#[inline(always)]
fn add_target<A: Allocator>(
    out: &mut String<A>,
    dialect: Dialect,
    first: bool,
    target: i64,
) -> Result<(), AllocError>
    ensures { OnOk result (string_bytes out.new ≡ string_bytes out.old ++ separator first ++ target_text dialect target) }
{
    add_separator(out, first)?;
    push_target(out, dialect, target)
}

#[inline(never)]
fn add_imm<A: Allocator>(
    out: &mut String<A>,
    dialect: Dialect,
    row: Row,
    first: bool,
    imm: Immediate,
) -> Result<(), AllocError>
    ensures { OnOk result (string_bytes out.new ≡ string_bytes out.old ++ separator first ++ imm_text dialect row imm) }
{
    match imm {
        Immediate::Imm8(value) => add_number(out, first, u64::from(value)),
        Immediate::Imm16(value) => add_number(out, first, u64::from(value)),
        Immediate::Imm32(value) => add_number(out, first, u64::from(value)),
        Immediate::Simm8(value, extension) => {
            add_number(out, first, Simm8::new(value).extended(extension))
        }
        Immediate::Simm32(value, extension) => {
            add_number(out, first, Simm32::new(value).extended(extension))
        }
        Immediate::Distance8(value) => {
            let target = i64::from(value) + i64::from(opcode_and_imm_len(row));
            add_target(out, dialect, first, target)
        }
        Immediate::Distance32(value) => {
            let target = i64::from(value) + i64::from(opcode_and_imm_len(row));
            add_target(out, dialect, first, target)
        }
        Immediate::Predicate(value) => add_number(out, first, u64::from(value)),
        Immediate::VexPredicate(value) => add_number(out, first, u64::from(value)),
    }
}

/// Adds an operand that is printed. No arm stands for two kinds: what it binds would be in one of two places, and the
/// compiler would keep the operand in memory.
#[inline(always)]
fn add_operand<R: Registers, A: Allocator + Copy>(
    out: &mut String<A>,
    alloc: A,
    dialect: Dialect,
    row: Row,
    first: bool,
    operand: &Operand<R>,
) -> Result<(), AllocError>
    requires nameable { IsTrue (operand_nameable ⟦<R as RegisterNames>⟧.names operand.now) }
    requires shown { IsTrue (is_shown dialect operand.now) }
    ensures { OnOk result (string_bytes out.new ≡ string_bytes out.old ++ separator first ++ operand_text ⟦<R as RegisterNames>⟧.names dialect row operand.now) }
{
    match operand {
        Operand::ReadGpr(reg, size) => add_register(out, alloc, first, *reg, Some(*size)),
        Operand::ReadWriteGpr(reg, size) => add_register(out, alloc, first, *reg, Some(*size)),
        Operand::WriteGpr(reg, size) => add_register(out, alloc, first, *reg, Some(*size)),
        Operand::WriteTwoGprs(a, b, size) => {
            add_register(out, alloc, first, *b, Some(*size))?;
            add_register(out, alloc, false, *a, Some(*size))
        }
        Operand::FixedReadGpr(reg, _, Some(size)) => {
            add_register(out, alloc, first, *reg, Some(*size))
        }
        Operand::FixedReadWriteGpr(reg, _, Some(size)) => {
            add_register(out, alloc, first, *reg, Some(*size))
        }
        Operand::FixedReadGpr(_, _, None) => Ok(()),
        Operand::FixedReadWriteGpr(_, _, None) => Ok(()),
        Operand::ReadXmm(reg) => add_register(out, alloc, first, *reg, None),
        Operand::ReadWriteXmm(reg) => add_register(out, alloc, first, *reg, None),
        Operand::WriteXmm(reg) => add_register(out, alloc, first, *reg, None),
        Operand::ReadAmode(amode) => add_amode(out, alloc, dialect, first, *amode),
        Operand::ReadGprMem(GprMem::Gpr(reg), size) => {
            add_register(out, alloc, first, *reg, Some(*size))
        }
        Operand::ReadGprMem(GprMem::Mem(amode), _) => {
            add_amode(out, alloc, dialect, first, *amode)
        }
        Operand::ReadWriteGprMem(GprMem::Gpr(reg), size) => {
            add_register(out, alloc, first, *reg, Some(*size))
        }
        Operand::ReadWriteGprMem(GprMem::Mem(amode), _) => {
            add_amode(out, alloc, dialect, first, *amode)
        }
        Operand::ReadXmmMem(XmmMem::Xmm(reg)) => add_register(out, alloc, first, *reg, None),
        Operand::ReadXmmMem(XmmMem::Mem(amode)) => add_amode(out, alloc, dialect, first, *amode),
        Operand::Imm(imm) => add_imm(out, dialect, row, first, *imm),
    }
}

/// Adds an operand to a list, and says whether the next one is still the first.
#[inline(always)]
pub(crate) fn add_piece<R: Registers, A: Allocator + Copy>(
    out: &mut String<A>,
    alloc: A,
    dialect: Dialect,
    row: Row,
    first: bool,
    operand: &Operand<R>,
) -> Result<bool, AllocError>
    requires { IsTrue (operand_nameable ⟦<R as RegisterNames>⟧.names operand.now) }
    ensures text { OnOk result (string_bytes out.new ≡ string_bytes out.old ++ piece ⟦<R as RegisterNames>⟧.names dialect row first operand.now) }
    ensures first { IfOk result (λ still. still ≡ still_first dialect first operand.now) }
{
    if !is_shown(dialect, operand) {
        return Ok(first);
    }
    add_operand(out, alloc, dialect, row, first, operand)?;
    Ok(false)
}
