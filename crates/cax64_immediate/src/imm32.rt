//! Immediates of four bytes.

ghost use Rattle.std.specs.Prelude.{◌≡◌, ⊤};
ghost use Rattle.std.specs.Int.{w32, to_le_bytes, cast_unsigned};
ghost use Rattle.cax64_sink.specs.Call.{Step, put};

use cax64_sink::{CodeSink, SinkError};
use std::alloc::AllocError;
use std::marker::Model;

/// The 32 bits of an immediate of four bytes, as a number from 0 to 2³² - 1. With operands of 64 bits the processor extends
/// it by its highest bit. (Intel SDM, volume 2, 2.2.1.5.)
#[derive(Copy, Debug)]
pub struct Imm32(u32);

impl Model for Imm32 {
    ghost use Rattle.std.specs.Prelude.{ℕ};

    ghost Value = { ℕ };

    ghost view = { λ imm. imm.0 };

    ghost inverse = { λ value. record { 0 = value } };
}

impl Clone for Imm32 {
    ghost is_clone = { λ old new. new ≡ old };

    ghost is_infallible = { λ _. ⊤ };

    fn clone(&self) -> Result<Imm32, AllocError> {
        Ok(*self)
    }
}

impl Imm32 {
    /// The immediate of this value.
    pub fn new(value: u32) -> Self
        ensures { result ≡ value }
    {
        Imm32(value)
    }

    /// The value.
    pub fn value(&self) -> u32
        ensures { result ≡ self.now }
    {
        self.0
    }

    /// Puts the four bytes, the lowest first. The sink's refusal is passed on.
    pub fn encode<S: CodeSink>(&self, sink: &mut S) -> Result<(), SinkError>
        ensures step { Step (put (to_le_bytes w32 self.now)) (S.state sink.old) (S.state sink.new) result }
        ensures beside { S.may_become sink.old sink.new }
    {
        sink.put4(self.value())
    }
}

impl From<u32> for Imm32 {
    ghost from_gives = { λ value imm. imm ≡ value };

    fn from(value: u32) -> Imm32 {
        Imm32::new(value)
    }
}

impl From<i32> for Imm32 {
    ghost from_gives = { λ value imm. imm ≡ cast_unsigned w32 value };

    /// Keeps the 32 bits, so -1 is `0xFFFF_FFFF`.
    fn from(value: i32) -> Imm32 {
        Imm32::new(value.cast_unsigned())
    }
}
