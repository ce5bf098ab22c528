//! Texts of operands.

ghost use Rattle.std.specs.Prelude.{◌≡◌, ◌++◌, ◌<◌, IfSome, OnOk, string_bytes};
ghost use Rattle.cax64_immediate.specs.Text as immediate_text;
ghost use Rattle.cax64_text.specs.Operand.{target_text, named_imm, imm_is_shown, is_shown, operand_nameable, is_register, named_operand};

use crate::names::RegisterNames;
use cax64_address::number::{has_room, push_hex_digits, push_hexadecimal, push_short_number};
use cax64_address::operand::{GprMem, XmmMem};
use cax64_address::text::Dialect;
use cax64_operand::{Immediate, Operand};
use cax64_register::{AsReg, Registers};
use std::alloc::{AllocError, Allocator};

pub(crate) fn push_target<A: Allocator>(
    out: &mut String<A>,
    dialect: Dialect,
    target: i64,
) -> Result<(), AllocError>
    ensures { OnOk result (string_bytes out.new ≡ string_bytes out.old ++ target_text dialect target) }
{
    let bits = target.cast_unsigned();
    match dialect {
        Dialect::Att => push_short_number(out, bits),
        Dialect::Xed => push_hexadecimal(out, bits),
    }
}

/// Room for the text of any immediate.
const IMM_ROOM: usize = 19;

/// Adds a number where there may be no room for it: the formatting leaves nothing of what is refused.
#[cold]
#[inline(never)]
fn format_number<A: Allocator>(out: &mut String<A>, bits: u64) -> Result<(), AllocError>
    ensures { OnOk result (string_bytes out.new ≡ string_bytes out.old ++ immediate_text.imm_text bits) }
{
    write!(out, "$0x{bits:x}")
}

pub(crate) fn push_number<A: Allocator>(out: &mut String<A>, bits: u64) -> Result<(), AllocError>
    ensures { OnOk result (string_bytes out.new ≡ string_bytes out.old ++ immediate_text.imm_text bits) }
{
    if !has_room(out, IMM_ROOM) {
        return format_number(out, bits);
    }
    out.push_str("$0x")?;
    push_hex_digits(out, bits)
}

fn named_imm(imm: Immediate) -> Option<u8>
    ensures value { result ≡ named_imm imm }
    ensures known { IfSome result (λ v. v < 32) }
{
    match imm {
        Immediate::Predicate(value) if value < 8 => Some(value),
        Immediate::VexPredicate(value) if value < 32 => Some(value),
        _ => None,
    }
}

#[inline(always)]
fn imm_is_shown(dialect: Dialect, imm: Immediate) -> bool
    ensures { result ≡ imm_is_shown dialect imm }
{
    match (dialect, imm) {
        (Dialect::Att, Immediate::Predicate(value)) => value >= 8,
        (Dialect::Att, Immediate::VexPredicate(value)) => value >= 32,
        _ => true,
    }
}

/// Whether the operand is printed.
#[inline(always)]
pub fn is_shown<R: Registers>(dialect: Dialect, operand: &Operand<R>) -> bool
    ensures { result ≡ is_shown dialect operand.now }
{
    match operand {
        Operand::FixedReadGpr(_, _, size) => size.is_some(),
        Operand::FixedReadWriteGpr(_, _, size) => size.is_some(),
        Operand::Imm(imm) => imm_is_shown(dialect, *imm),
        _ => true,
    }
}

/// The operand's predicate, where it has a name.
#[inline(always)]
pub fn named_operand<R: Registers>(operand: &Operand<R>) -> Option<u8>
    ensures value { result ≡ named_operand operand.now }
    ensures known { IfSome result (λ v. v < 32) }
{
    match operand {
        Operand::Imm(imm) => named_imm(*imm),
        _ => None,
    }
}

/// Whether the operand may be memory and is a register.
#[inline(always)]
pub fn is_register<R: Registers>(operand: &Operand<R>) -> bool
    ensures { result ≡ is_register operand.now }
{
    match operand {
        Operand::ReadGprMem(GprMem::Gpr(_), _) => true,
        Operand::ReadWriteGprMem(GprMem::Gpr(_), _) => true,
        Operand::ReadXmmMem(XmmMem::Xmm(_)) => true,
        _ => false,
    }
}

/// Whether the registers that are printed have texts.
#[inline(always)]
pub fn operand_nameable<R: Registers>(operand: &Operand<R>) -> bool
    ensures { result ≡ operand_nameable ⟦<R as RegisterNames>⟧.names operand.now }
{
    match operand {
        Operand::ReadGpr(reg, _) => reg.nameable(),
        Operand::ReadWriteGpr(reg, _) => reg.nameable(),
        Operand::WriteGpr(reg, _) => reg.nameable(),
        Operand::WriteTwoGprs(a, b, _) => a.nameable() && b.nameable(),
        Operand::FixedReadGpr(reg, _, Some(_)) => reg.nameable(),
        Operand::FixedReadWriteGpr(reg, _, Some(_)) => reg.nameable(),
        Operand::FixedReadGpr(_, _, None) => true,
        Operand::FixedReadWriteGpr(_, _, None) => true,
        Operand::ReadXmm(reg) => reg.nameable(),
        Operand::ReadWriteXmm(reg) => reg.nameable(),
        Operand::WriteXmm(reg) => reg.nameable(),
        Operand::ReadAmode(amode) => amode.nameable(),
        Operand::ReadGprMem(operand, _) => operand.nameable(),
        Operand::ReadWriteGprMem(operand, _) => operand.nameable(),
        Operand::ReadXmmMem(operand) => operand.nameable(),
        Operand::Imm(_) => true,
    }
}
