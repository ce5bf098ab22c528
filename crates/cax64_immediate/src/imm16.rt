//! Unsigned immediates of two bytes.

ghost use Rattle.std.specs.Prelude.{◌≡◌, ◌↔◌, ⊤, pos, IsOk, IfOk};
ghost use Rattle.std.specs.Int.{w16, to_le_bytes, FitsUnsigned};
ghost use Rattle.cax64_sink.specs.Call.{Step, put};

use crate::OutOfRange;
use cax64_sink::{CodeSink, SinkError};
use std::alloc::AllocError;
use std::marker::Model;

/// An unsigned immediate of two bytes, 0 to 65,535.
#[derive(Copy, Debug)]
pub struct Imm16(u16);

impl Model for Imm16 {
    ghost use Rattle.std.specs.Prelude.{ℕ};

    ghost Value = { ℕ };

    ghost view = { λ imm. imm.0 };

    ghost inverse = { λ value. record { 0 = value } };
}

impl Clone for Imm16 {
    ghost is_clone = { λ old new. new ≡ old };

    ghost is_infallible = { λ _. ⊤ };

    fn clone(&self) -> Result<Imm16, AllocError> {
        Ok(*self)
    }
}

impl Imm16 {
    /// The immediate of this value.
    pub fn new(value: u16) -> Self
        ensures { result ≡ value }
    {
        Imm16(value)
    }

    /// The value.
    pub fn value(&self) -> u16
        ensures { result ≡ self.now }
    {
        self.0
    }

    /// Puts the two bytes, the lowest first. The sink's refusal is passed on.
    pub fn encode<S: CodeSink>(&self, sink: &mut S) -> Result<(), SinkError>
        ensures step { Step (put (to_le_bytes w16 self.now)) (S.state sink.old) (S.state sink.new) result }
        ensures beside { S.may_become sink.old sink.new }
    {
        sink.put2(self.value())
    }
}

impl From<u16> for Imm16 {
    ghost from_gives = { λ value imm. imm ≡ value };

    fn from(value: u16) -> Imm16 {
        Imm16::new(value)
    }
}

impl TryFrom<i32> for Imm16 {
    type Error = OutOfRange;

    ghost try_from_gives = { λ number r. (IsOk r ↔ FitsUnsigned w16 number) × IfOk r (λ imm. pos imm ≡ number) };

    /// `OutOfRange` for a number below 0 or above 65,535.
    fn try_from(number: i32) -> Result<Imm16, OutOfRange> {
        u16::try_from(number)
            .map(Imm16::new)
            .map_err(|_| OutOfRange)
    }
}
