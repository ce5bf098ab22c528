//! Registers by their hardware numbers.

ghost use Rattle.std.specs.Prelude.{◌≡◌};
ghost use Rattle.cax64_encoder.specs.Marked.{marked_value};
ghost use Rattle.cax64_encoder.specs.Number.{number_of, number_value, is_real_number, is_number, is_index_number};

use cax64_register::{AsReg, gpr};

/// The hardware number of a register operand.
#[derive(Clone, Copy, Debug)]
pub enum Number {
    /// The register is still virtual.
    Unsettled,
    Settled(u8),
}

impl Number {
    /// The number of a register.
    #[inline(always)]
    pub fn of<R: AsReg>(reg: R) -> Number
        ensures { result ≡ number_of R.settled R.enc reg }
    {
        if reg.settled() {
            Number::Settled(reg.enc())
        } else {
            Number::Unsettled
        }
    }

    /// The number of a register, or 0 of a virtual one.
    #[inline(always)]
    pub fn value_of<R: AsReg>(reg: R) -> u8
        ensures { result ≡ number_value (number_of R.settled R.enc reg) }
    {
        if reg.settled() { reg.enc() } else { 0 }
    }

    /// The number of a register, or 255 of a virtual one, so that it is below 16 where an instruction can hold the register.
    #[inline(always)]
    pub(crate) fn marked_value_of<R: AsReg>(reg: R) -> u8
        ensures { result ≡ marked_value (number_of R.settled R.enc reg) }
    {
        if reg.settled() { reg.enc() } else { 255 }
    }

    /// Whether a register is settled with this number.
    #[inline(always)]
    pub(crate) fn is_held<R: AsReg>(reg: R, expected: u8) -> bool
        ensures { result ≡ is_number (number_of R.settled R.enc reg) expected }
    {
        if reg.settled() {
            reg.enc() == expected
        } else {
            false
        }
    }

    /// Whether an instruction can hold the register.
    #[inline(always)]
    pub fn is_real(self) -> bool
        ensures { result ≡ is_real_number self }
    {
        match self {
            Number::Settled(number) => number < 16,
            Number::Unsettled => false,
        }
    }

    /// Whether an address can hold the register as its index: the stack pointer's number means none there.
    #[inline(always)]
    pub fn is_index(self) -> bool
        ensures { result ≡ is_index_number self }
    {
        match self {
            Number::Settled(number) => (number < 16) & (number != gpr::enc::RSP),
            Number::Unsettled => false,
        }
    }

    /// Whether the register is settled with this number.
    #[inline(always)]
    pub fn is(self, expected: u8) -> bool
        ensures { result ≡ is_number self expected }
    {
        match self {
            Number::Settled(number) => number == expected,
            Number::Unsettled => false,
        }
    }
}
