//! The numbers and names of the general registers (Intel SDM volume 1, section 3.4.1).
//!
//! A number is what the fields of an instruction hold: three bits in ModR/M or SIB, and a fourth
//! in the prefix (Intel SDM volume 2, section 2.2.1.2).
ghost use Rattle.std.specs.Prelude.{◌≡◌, ◌<◌};
ghost use Rattle.cax64_register.specs.Names.{gpr_name};

use super::Size;

pub const RAX: u8 = 0;

pub const RCX: u8 = 1;

pub const RDX: u8 = 2;

pub const RBX: u8 = 3;

pub const RSP: u8 = 4;

pub const RBP: u8 = 5;

pub const RSI: u8 = 6;

pub const RDI: u8 = 7;

pub const R8: u8 = 8;

pub const R9: u8 = 9;

pub const R10: u8 = 10;

pub const R11: u8 = 11;

pub const R12: u8 = 12;

pub const R13: u8 = 13;

pub const R14: u8 = 14;

pub const R15: u8 = 15;

/// The name of the general register with this number, at this size.
pub fn to_string(number: u8, size: Size) -> &'static str
    requires { number < 16 }
    ensures { result.now ≡ gpr_name number size }
{
    match size {
        Size::Byte => byte_name(number),
        Size::Word => word_name(number),
        Size::Doubleword => doubleword_name(number),
        Size::Quadword => quadword_name(number),
    }
}

#[tactic(auto, unfolding(crate::specs::Names::gpr_names))]
fn byte_name(number: u8) -> &'static str
    requires { number < 16 }
    ensures { result.now ≡ gpr_name number Size.Byte }
{
    match number {
        RAX => "%al",
        RCX => "%cl",
        RDX => "%dl",
        RBX => "%bl",
        RSP => "%spl",
        RBP => "%bpl",
        RSI => "%sil",
        RDI => "%dil",
        R8 => "%r8b",
        R9 => "%r9b",
        R10 => "%r10b",
        R11 => "%r11b",
        R12 => "%r12b",
        R13 => "%r13b",
        R14 => "%r14b",
        _ => "%r15b",
    }
}

#[tactic(auto, unfolding(crate::specs::Names::gpr_names))]
fn word_name(number: u8) -> &'static str
    requires { number < 16 }
    ensures { result.now ≡ gpr_name number Size.Word }
{
    match number {
        RAX => "%ax",
        RCX => "%cx",
        RDX => "%dx",
        RBX => "%bx",
        RSP => "%sp",
        RBP => "%bp",
        RSI => "%si",
        RDI => "%di",
        R8 => "%r8w",
        R9 => "%r9w",
        R10 => "%r10w",
        R11 => "%r11w",
        R12 => "%r12w",
        R13 => "%r13w",
        R14 => "%r14w",
        _ => "%r15w",
    }
}

#[tactic(auto, unfolding(crate::specs::Names::gpr_names))]
fn doubleword_name(number: u8) -> &'static str
    requires { number < 16 }
    ensures { result.now ≡ gpr_name number Size.Doubleword }
{
    match number {
        RAX => "%eax",
        RCX => "%ecx",
        RDX => "%edx",
        RBX => "%ebx",
        RSP => "%esp",
        RBP => "%ebp",
        RSI => "%esi",
        RDI => "%edi",
        R8 => "%r8d",
        R9 => "%r9d",
        R10 => "%r10d",
        R11 => "%r11d",
        R12 => "%r12d",
        R13 => "%r13d",
        R14 => "%r14d",
        _ => "%r15d",
    }
}

#[tactic(auto, unfolding(crate::specs::Names::gpr_names))]
fn quadword_name(number: u8) -> &'static str
    requires { number < 16 }
    ensures { result.now ≡ gpr_name number Size.Quadword }
{
    match number {
        RAX => "%rax",
        RCX => "%rcx",
        RDX => "%rdx",
        RBX => "%rbx",
        RSP => "%rsp",
        RBP => "%rbp",
        RSI => "%rsi",
        RDI => "%rdi",
        R8 => "%r8",
        R9 => "%r9",
        R10 => "%r10",
        R11 => "%r11",
        R12 => "%r12",
        R13 => "%r13",
        R14 => "%r14",
        _ => "%r15",
    }
}
