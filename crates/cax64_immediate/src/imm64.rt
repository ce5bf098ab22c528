//! Unsigned immediates of eight bytes.

ghost use Rattle.std.specs.Prelude.{◌≡◌, ⊤};
ghost use Rattle.std.specs.Int.{w64, to_le_bytes};
ghost use Rattle.cax64_sink.specs.Call.{Step, put};

use cax64_sink::{CodeSink, SinkError};
use std::alloc::AllocError;
use std::marker::Model;

/// An unsigned immediate of eight bytes, 0 to 2⁶⁴ - 1. Only some moves take one. (Intel SDM, volume 2, 2.2.1.5.)
#[derive(Copy, Debug)]
pub struct Imm64(u64);

impl Model for Imm64 {
    ghost use Rattle.std.specs.Prelude.{ℕ};

    ghost Value = { ℕ };

    ghost view = { λ imm. imm.0 };

    ghost inverse = { λ value. record { 0 = value } };
}

impl Clone for Imm64 {
    ghost is_clone = { λ old new. new ≡ old };

    ghost is_infallible = { λ _. ⊤ };

    fn clone(&self) -> Result<Imm64, AllocError> {
        Ok(*self)
    }
}

impl Imm64 {
    /// The immediate of this value.
    pub fn new(value: u64) -> Self
        ensures { result ≡ value }
    {
        Imm64(value)
    }

    /// The value.
    pub fn value(&self) -> u64
        ensures { result ≡ self.now }
    {
        self.0
    }

    /// Puts the eight bytes, the lowest first. The sink's refusal is passed on.
    pub fn encode<S: CodeSink>(&self, sink: &mut S) -> Result<(), SinkError>
        ensures step { Step (put (to_le_bytes w64 self.now)) (S.state sink.old) (S.state sink.new) result }
        ensures beside { S.may_become sink.old sink.new }
    {
        sink.put8(self.value())
    }
}

impl From<u64> for Imm64 {
    ghost from_gives = { λ value imm. imm ≡ value };

    fn from(value: u64) -> Imm64 {
        Imm64::new(value)
    }
}
