//! Unsigned immediates of one byte.

ghost use Rattle.std.specs.Prelude.{◌≡◌, ◌↔◌, ◌∷◌, [], ⊤, pos, IsOk, IfOk};
ghost use Rattle.std.specs.Int.{w8, FitsUnsigned};
ghost use Rattle.cax64_sink.specs.Call.{Step, put};

use crate::OutOfRange;
use cax64_sink::{CodeSink, SinkError};
use std::alloc::AllocError;
use std::marker::Model;

/// An unsigned immediate of one byte, 0 to 255.
#[derive(Copy, Debug)]
pub struct Imm8(u8);

impl Model for Imm8 {
    ghost use Rattle.std.specs.Prelude.{ℕ};

    ghost Value = { ℕ };

    ghost view = { λ imm. imm.0 };

    ghost inverse = { λ value. record { 0 = value } };
}

impl Clone for Imm8 {
    ghost is_clone = { λ old new. new ≡ old };

    ghost is_infallible = { λ _. ⊤ };

    fn clone(&self) -> Result<Imm8, AllocError> {
        Ok(*self)
    }
}

impl Imm8 {
    /// The immediate of this value.
    pub fn new(value: u8) -> Self
        ensures { result ≡ value }
    {
        Imm8(value)
    }

    /// The value.
    pub fn value(&self) -> u8
        ensures { result ≡ self.now }
    {
        self.0
    }

    /// Puts the byte. The sink's refusal is passed on.
    pub fn encode<S: CodeSink>(&self, sink: &mut S) -> Result<(), SinkError>
        ensures step { Step (put (self.now ∷ [])) (S.state sink.old) (S.state sink.new) result }
        ensures beside { S.may_become sink.old sink.new }
    {
        sink.put1(self.value())
    }
}

impl From<u8> for Imm8 {
    ghost from_gives = { λ value imm. imm ≡ value };

    fn from(value: u8) -> Imm8 {
        Imm8::new(value)
    }
}

impl TryFrom<i32> for Imm8 {
    type Error = OutOfRange;

    ghost try_from_gives = { λ number r. (IsOk r ↔ FitsUnsigned w8 number) × IfOk r (λ imm. pos imm ≡ number) };

    /// `OutOfRange` for a number below 0 or above 255.
    fn try_from(number: i32) -> Result<Imm8, OutOfRange> {
        u8::try_from(number).map(Imm8::new).map_err(|_| OutOfRange)
    }
}
