//! Signed immediates of one byte.

ghost use Rattle.std.specs.Prelude.{◌≡◌, ◌↔◌, ◌∷◌, [], ⊤, IsOk, IfOk, FitsSigned};
ghost use Rattle.std.specs.Int.{w8, cast_unsigned};
ghost use Rattle.cax64_sink.specs.Call.{Step, put};

use crate::OutOfRange;
use cax64_sink::{CodeSink, SinkError};
use std::alloc::AllocError;
use std::marker::Model;

/// A signed immediate of one byte, -128 to 127, which the processor extends by its sign.
#[derive(Copy, Debug)]
pub struct Simm8(i8);

impl Model for Simm8 {
    ghost use Rattle.std.specs.Prelude.{ℤ};

    ghost Value = { ℤ };

    ghost view = { λ imm. imm.0 };

    ghost inverse = { λ value. record { 0 = value } };
}

impl Clone for Simm8 {
    ghost is_clone = { λ old new. new ≡ old };

    ghost is_infallible = { λ _. ⊤ };

    fn clone(&self) -> Result<Simm8, AllocError> {
        Ok(*self)
    }
}

impl Simm8 {
    /// The immediate of this value.
    pub fn new(value: i8) -> Self
        ensures { result ≡ value }
    {
        Simm8(value)
    }

    /// The value.
    pub fn value(&self) -> i8
        ensures { result ≡ self.now }
    {
        self.0
    }

    /// Puts the byte of the two's complement. The sink's refusal is passed on.
    pub fn encode<S: CodeSink>(&self, sink: &mut S) -> Result<(), SinkError>
        ensures step { Step (put (cast_unsigned w8 self.now ∷ [])) (S.state sink.old) (S.state sink.new) result }
        ensures beside { S.may_become sink.old sink.new }
    {
        sink.put1(self.value().cast_unsigned())
    }
}

impl From<i8> for Simm8 {
    ghost from_gives = { λ value imm. imm ≡ value };

    fn from(value: i8) -> Simm8 {
        Simm8::new(value)
    }
}

impl TryFrom<i32> for Simm8 {
    type Error = OutOfRange;

    ghost try_from_gives = { λ number r. (IsOk r ↔ FitsSigned w8 number) × IfOk r (λ imm. imm ≡ number) };

    /// `OutOfRange` for a number below -128 or above 127.
    fn try_from(number: i32) -> Result<Simm8, OutOfRange> {
        i8::try_from(number).map(Simm8::new).map_err(|_| OutOfRange)
    }
}
