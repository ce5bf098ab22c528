//! A step of a list.

use cax64_operand::Nop;
use cax64_sink::Label;
use cax64_test_support::Filler;
use x64_assemble::Item;
use x64_code_buffer::{Condition, Jump};

/// The no-operation of so many bytes.
fn nop_of(size: &str) -> Option<Filler> {
    Some(Filler(match size {
        "1" => Nop::One,
        "2" => Nop::Two,
        "3" => Nop::Three,
        "4" => Nop::Four,
        "5" => Nop::Five,
        "6" => Nop::Six,
        "7" => Nop::Seven,
        "8" => Nop::Eight,
        "9" => Nop::Nine,
        _ => return None,
    }))
}

/// The jump or the call of a mnemonic.
fn jump_of(mnemonic: &str) -> Option<Jump> {
    Some(match mnemonic {
        "call" => Jump::Call,
        "jmp" => Jump::Always,
        "jo" => Jump::If(Condition::O),
        "jno" => Jump::If(Condition::No),
        "jb" => Jump::If(Condition::B),
        "jae" => Jump::If(Condition::Ae),
        "je" => Jump::If(Condition::E),
        "jne" => Jump::If(Condition::Ne),
        "jbe" => Jump::If(Condition::Be),
        "ja" => Jump::If(Condition::A),
        "js" => Jump::If(Condition::S),
        "jns" => Jump::If(Condition::Ns),
        "jp" => Jump::If(Condition::P),
        "jnp" => Jump::If(Condition::Np),
        "jl" => Jump::If(Condition::L),
        "jge" => Jump::If(Condition::Ge),
        "jle" => Jump::If(Condition::Le),
        "jg" => Jump::If(Condition::G),
        _ => return None,
    })
}

fn label_of(text: &str) -> Option<Label> {
    Some(Label(text.parse::<u32>().ok()?))
}

/// The item of a step.
pub(crate) fn item_of(step: &str) -> Option<Item<Filler>> {
    let (call, argument) = step.split_once(' ')?;
    match call {
        "nop" => Some(Item::Inst(nop_of(argument)?)),
        "bind" => Some(Item::Bind(label_of(argument)?)),
        "jump" => {
            let (mnemonic, label) = argument.split_once(' ')?;
            Some(Item::Jump(jump_of(mnemonic)?, label_of(label)?))
        }
        _ => None,
    }
}
