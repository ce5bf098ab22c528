//! What stands before the operands.

ghost use Rattle.std.specs.Prelude.{◌≡◌, ◌++◌, ◌<◌, IfSome, OnOk, string_bytes};
ghost use Rattle.cax64_text.specs.Style.{style_of};
ghost use Rattle.cax64_text.specs.Text.{att_head, compare_head, head, marked_head, nop_text, predicate_name, xed_head};

use crate::mnemonic::{mnemonic, row_mnemonic, shift_name};
use crate::style::{Elements, Style, after_predicate, marker};
use cax64_address::text::Dialect;
use cax64_machine_code::row::Row;
use cax64_operand::Nop;
use std::alloc::{AllocError, Allocator};

/// The name of a predicate.
#[tactic(auto, unfolding(crate::specs::Text::predicates))]
fn predicate_name(value: u8) -> &'static str
    requires { value < 32 }
    ensures { result.now ≡ predicate_name value }
{
    match value {
        0 => "eq",
        1 => "lt",
        2 => "le",
        3 => "unord",
        4 => "neq",
        5 => "nlt",
        6 => "nle",
        7 => "ord",
        8 => "eq_uq",
        9 => "nge",
        10 => "ngt",
        11 => "false",
        12 => "neq_oq",
        13 => "ge",
        14 => "gt",
        15 => "true",
        16 => "eq_os",
        17 => "lt_oq",
        18 => "le_oq",
        19 => "unord_s",
        20 => "neq_us",
        21 => "nlt_uq",
        22 => "nle_uq",
        23 => "ord_s",
        24 => "eq_us",
        25 => "nge_uq",
        26 => "ngt_uq",
        27 => "false_os",
        28 => "neq_os",
        29 => "ge_oq",
        30 => "gt_oq",
        _ => "true_us",
    }
}

fn push_compare<A: Allocator>(
    out: &mut String<A>,
    before: &'static str,
    elements: Elements,
    row: Row,
    named: Option<u8>,
) -> Result<(), AllocError>
    requires { IfSome named (λ v. v < 32) }
    ensures { OnOk result (string_bytes out.new ≡ string_bytes out.old ++ compare_head before.now elements row named) }
{
    match named {
        Some(value) => {
            out.push_str(before)?;
            out.push_str(predicate_name(value))?;
            out.push_str(after_predicate(elements))
        }
        None => out.push_str(row_mnemonic(row)),
    }
}

#[inline(always)]
fn push_att<A: Allocator>(
    out: &mut String<A>,
    style: Style,
    register: bool,
    named: Option<u8>,
    row: Row,
) -> Result<(), AllocError>
    requires { IfSome named (λ v. v < 32) }
    ensures { OnOk result (string_bytes out.new ≡ string_bytes out.old ++ att_head style register named row) }
{
    match style {
        Style::Plain => {
            out.push_str(mnemonic(row, register))?;
            out.push(' ')
        }
        Style::Forward | Style::Exchange | Style::Branch => {
            out.push_str(row_mnemonic(row))?;
            out.push(' ')
        }
        Style::Shift => {
            out.push_str(row_mnemonic(row))?;
            out.push_str(if register { " $1, " } else { " " })
        }
        Style::Call | Style::Jump => {
            out.push_str(row_mnemonic(row))?;
            out.push_str(" *")
        }
        Style::Compare(elements) => {
            push_compare(out, "cmp", elements, row, named)?;
            out.push(' ')
        }
        Style::VexCompare(elements) => {
            push_compare(out, "vcmp", elements, row, named)?;
            out.push(' ')
        }
    }
}

/// Adds the mnemonic of a comparison, where its operand is memory with the mark of the width.
#[inline(always)]
fn add_marked<A: Allocator>(
    out: &mut String<A>,
    row: Row,
    register: bool,
    elements: Elements,
) -> Result<(), AllocError>
    ensures { OnOk result (string_bytes out.new ≡ string_bytes out.old ++ marked_head elements register row) }
{
    out.push_str(row_mnemonic(row))?;
    out.push_str(if register { "" } else { marker(elements) })?;
    out.push(' ')
}

#[inline(always)]
fn push_xed<A: Allocator>(
    out: &mut String<A>,
    style: Style,
    register: bool,
    row: Row,
) -> Result<(), AllocError>
    requires { style ≡ style_of row }
    ensures { OnOk result (string_bytes out.new ≡ string_bytes out.old ++ xed_head style register row) }
{
    match style {
        Style::Plain => {
            out.push_str(mnemonic(row, register))?;
            out.push(' ')
        }
        Style::Forward | Style::Exchange | Style::Branch | Style::Call => {
            out.push_str(row_mnemonic(row))?;
            out.push(' ')
        }
        Style::Shift => {
            out.push_str(if register {
                shift_name(row)
            } else {
                row_mnemonic(row)
            })?;
            out.push_str(" $0x1, ")
        }
        Style::Jump => {
            out.push_str(if register { "jmp" } else { row_mnemonic(row) })?;
            out.push(' ')
        }
        Style::Compare(elements) => add_marked(out, row, register, elements),
        Style::VexCompare(elements) => add_marked(out, row, register, elements),
    }
}

/// Adds what stands before the operands.
#[inline(always)]
pub fn push_head<A: Allocator>(
    out: &mut String<A>,
    dialect: Dialect,
    style: Style,
    register: bool,
    named: Option<u8>,
    row: Row,
) -> Result<(), AllocError>
    requires style { style ≡ style_of row }
    requires known { IfSome named (λ v. v < 32) }
    ensures { OnOk result (string_bytes out.new ≡ string_bytes out.old ++ head dialect style register named row) }
{
    match dialect {
        Dialect::Att => push_att(out, style, register, named, row),
        Dialect::Xed => push_xed(out, style, register, row),
    }
}

/// The text of a no-operation.
#[inline(always)]
pub fn nop_text(dialect: Dialect, nop: Nop) -> &'static str
    ensures { result.now ≡ nop_text dialect nop }
{
    match (nop, dialect) {
        (Nop::One, _) | (Nop::Two, Dialect::Att) => "nop",
        (Nop::Two, Dialect::Xed) => "data16 nop",
        (Nop::Three | Nop::Four | Nop::Seven, _) => "nopl (%rax)",
        (Nop::Five | Nop::Eight, Dialect::Att) => "nopl (%rax, %rax)",
        (Nop::Five | Nop::Eight, Dialect::Xed) => "nopl (%rax,%rax,1)",
        (Nop::Six | Nop::Nine, Dialect::Att) => "nopw (%rax, %rax)",
        (Nop::Six | Nop::Nine, Dialect::Xed) => "nopw (%rax,%rax,1)",
    }
}
