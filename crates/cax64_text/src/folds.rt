//! What texts need of operands, made where they are listed: in code of its own for each kind of instruction, in which
//! the kinds of the operands are known.

ghost use Rattle.std.specs.Prelude.{◌≡◌, false};
ghost use Rattle.cax64_text.specs.Made.{register_if, with_register};

use crate::operand::is_register;
use cax64_operand::{FromOperands, Nop, Operand};
use cax64_register::Registers;

/// Whether an operand that may be memory is a register.
#[derive(Drop)]
pub struct ByRegister {
    pub register: bool,
}

impl<R: Registers> FromOperands<R> for ByRegister {
    ghost made_of_none = { register_if false };

    ghost made_with = { with_register };

    ghost made_of_nop = { λ _. register_if false };

    #[inline(always)]
    fn none() -> ByRegister
        ensures { result ≡ register_if false }
    {
        ByRegister { register: false }
    }

    #[inline(always)]
    fn with(self, operand: Operand<R>) -> ByRegister
        ensures { result ≡ with_register operand self }
    {
        ByRegister {
            register: is_register(&operand) | self.register,
        }
    }

    #[inline(always)]
    fn nop(_nop: Nop) -> ByRegister
        ensures { result ≡ register_if false }
    {
        ByRegister { register: false }
    }
}
