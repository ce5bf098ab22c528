//! Signed immediates of two bytes.

ghost use Rattle.std.specs.Prelude.{◌≡◌, ◌↔◌, ⊤, IsOk, IfOk, FitsSigned};
ghost use Rattle.std.specs.Int.{w16, to_le_bytes, cast_unsigned};
ghost use Rattle.cax64_sink.specs.Call.{Step, put};

use crate::OutOfRange;
use cax64_sink::{CodeSink, SinkError};
use std::alloc::AllocError;
use std::marker::Model;

/// A signed immediate of two bytes, -32,768 to 32,767, which the processor extends by its sign.
#[derive(Copy, Debug)]
pub struct Simm16(i16);

impl Model for Simm16 {
    ghost use Rattle.std.specs.Prelude.{ℤ};

    ghost Value = { ℤ };

    ghost view = { λ imm. imm.0 };

    ghost inverse = { λ value. record { 0 = value } };
}

impl Clone for Simm16 {
    ghost is_clone = { λ old new. new ≡ old };

    ghost is_infallible = { λ _. ⊤ };

    fn clone(&self) -> Result<Simm16, AllocError> {
        Ok(*self)
    }
}

impl Simm16 {
    /// The immediate of this value.
    pub fn new(value: i16) -> Self
        ensures { result ≡ value }
    {
        Simm16(value)
    }

    /// The value.
    pub fn value(&self) -> i16
        ensures { result ≡ self.now }
    {
        self.0
    }

    /// Puts the two bytes of the two's complement, the lowest first. The sink's refusal is passed on.
    pub fn encode<S: CodeSink>(&self, sink: &mut S) -> Result<(), SinkError>
        ensures step { Step (put (to_le_bytes w16 (cast_unsigned w16 self.now))) (S.state sink.old) (S.state sink.new) result }
        ensures beside { S.may_become sink.old sink.new }
    {
        sink.put2(self.value().cast_unsigned())
    }
}

impl From<i16> for Simm16 {
    ghost from_gives = { λ value imm. imm ≡ value };

    fn from(value: i16) -> Simm16 {
        Simm16::new(value)
    }
}

impl TryFrom<i32> for Simm16 {
    type Error = OutOfRange;

    ghost try_from_gives = { λ number r. (IsOk r ↔ FitsSigned w16 number) × IfOk r (λ imm. imm ≡ number) };

    /// `OutOfRange` for a number below -32,768 or above 32,767.
    fn try_from(number: i32) -> Result<Simm16, OutOfRange> {
        i16::try_from(number)
            .map(Simm16::new)
            .map_err(|_| OutOfRange)
    }
}
