//! Operands, operators and relations.

use crate::function::Function;
use crate::refused::Refused;
use huqmeris::Condition;

/// What an expression works on.
#[derive(Clone, Copy)]
pub(crate) enum Operand {
    Number(i32),
    /// A variable, by the register that stands for it.
    Variable(u8),
    /// The element of the array whose number the variable is.
    Element(u8),
}

impl Operand {
    /// That of a word.
    pub(crate) fn of<'a>(word: &'a str, function: &mut Function<'a>) -> Result<Operand, Refused> {
        if let Ok(number) = word.parse::<i32>() {
            return Ok(Operand::Number(number));
        }
        match word.strip_prefix('@') {
            Some(name) => Ok(Operand::Element(function.variable(name)?)),
            None => Ok(Operand::Variable(function.variable(word)?)),
        }
    }
}

#[derive(Clone, Copy)]
pub(crate) enum Operator {
    Add,
    Subtract,
    Multiply,
    And,
    Or,
    Xor,
    ShiftLeft,
    ShiftRight,
}

impl Operator {
    pub(crate) fn of(word: &str) -> Result<Operator, Refused> {
        Ok(match word {
            "+" => Operator::Add,
            "-" => Operator::Subtract,
            "*" => Operator::Multiply,
            "&" => Operator::And,
            "|" => Operator::Or,
            "^" => Operator::Xor,
            "<<" => Operator::ShiftLeft,
            ">>" => Operator::ShiftRight,
            _ => return Err(Refused::Operator),
        })
    }
}

/// The condition under which a relation doesn't hold.
pub(crate) fn condition_against(relation: &str) -> Result<Condition, Refused> {
    Ok(match relation {
        "<" => Condition::Ge,
        "<=" => Condition::G,
        ">" => Condition::Le,
        ">=" => Condition::L,
        "==" => Condition::Ne,
        "!=" => Condition::E,
        _ => return Err(Refused::Relation),
    })
}
