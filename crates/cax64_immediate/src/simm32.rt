//! Signed immediates of four bytes.

ghost use Rattle.std.specs.Prelude.{◌≡◌, ⊤};
ghost use Rattle.std.specs.Int.{w32, to_le_bytes, cast_unsigned};
ghost use Rattle.cax64_sink.specs.Call.{Step, put};

use cax64_sink::{CodeSink, SinkError};
use std::alloc::AllocError;
use std::marker::Model;

/// A signed immediate of four bytes, -2³¹ to 2³¹ - 1, which the processor extends by its sign. (Intel SDM, volume 2,
/// 2.2.1.5.)
#[derive(Copy, Debug)]
pub struct Simm32(i32);

impl Model for Simm32 {
    ghost use Rattle.std.specs.Prelude.{ℤ};

    ghost Value = { ℤ };

    ghost view = { λ imm. imm.0 };

    ghost inverse = { λ value. record { 0 = value } };
}

impl Clone for Simm32 {
    ghost is_clone = { λ old new. new ≡ old };

    ghost is_infallible = { λ _. ⊤ };

    fn clone(&self) -> Result<Simm32, AllocError> {
        Ok(*self)
    }
}

impl Simm32 {
    /// The immediate of this value.
    pub fn new(value: i32) -> Self
        ensures { result ≡ value }
    {
        Simm32(value)
    }

    /// The value.
    pub fn value(&self) -> i32
        ensures { result ≡ self.now }
    {
        self.0
    }

    /// Puts the four bytes of the two's complement, the lowest first. The sink's refusal is passed on.
    pub fn encode<S: CodeSink>(&self, sink: &mut S) -> Result<(), SinkError>
        ensures step { Step (put (to_le_bytes w32 (cast_unsigned w32 self.now))) (S.state sink.old) (S.state sink.new) result }
        ensures beside { S.may_become sink.old sink.new }
    {
        sink.put4(self.value().cast_unsigned())
    }
}

impl From<i32> for Simm32 {
    ghost from_gives = { λ value imm. imm ≡ value };

    fn from(value: i32) -> Simm32 {
        Simm32::new(value)
    }
}
