//! What an assembler writes to: the trait `CodeSink`, and three sinks.
#![tactic(auto)]

ghost use Rattle.std.specs.Prelude.{◌≡◌, ◌≤◌, ◌∷◌, [], take, IsSome, IsTrue, is_some, Some};
ghost use Rattle.std.specs.Int.{to_le_bytes, w16, w32, w64};
ghost use Rattle.cax64_sink.specs.Sink.{State};
ghost use Rattle.cax64_sink.specs.Call.{Step, put, trap, target};
ghost use Rattle.cax64_sink.specs.Puts.{puts};
ghost use Rattle.cax64_sink.specs.Rest.{RanRoomier, is_imm_len, rest_actions};
ghost use Rattle.cax64_sink.specs.Run.{Ran};
ghost use Rattle.cax64_sink.specs.TrapCode.{trap_text};
ghost use Rattle.cax64_sink.specs.Message.{sink_error_text};

use std::error::Error;
use std::fmt;
use std::num::NonZeroU8;

pub mod fixed_sink;
mod known;
pub mod laws;
pub mod puts;
pub mod recorder;
mod vec;

pub use fixed_sink::FixedSink;
pub use recorder::Recorder;

/// Why a sink refused a call.
#[derive(Clone, Copy, Debug, PartialEq)]
pub enum SinkError {
    /// A growth was refused.
    NoMemory,
    /// No place is left in a sink of fixed size, or no number for another label.
    Full,
}

impl fmt::Display for SinkError {
    ghost output = { λ error. Some (sink_error_text error) };

    fn fmt<W: fmt::Write>(&self, f: &mut fmt::Formatter<W>) -> fmt::Result {
        match self {
            SinkError::NoMemory => f.write_str("no memory is left"),
            SinkError::Full => f.write_str("the sink is full"),
        }
    }
}

impl Error for SinkError {}

/// The number of a place in code that an address refers to.
#[derive(Clone, Copy, Debug, PartialEq)]
pub struct Label(pub u32);

/// The number of a constant in a pool that an address refers to.
#[derive(Clone, Copy, Debug, PartialEq)]
pub struct Constant(pub u32);

/// Why an instruction may trap.
#[derive(Clone, Copy, Debug, PartialEq)]
pub struct TrapCode(pub NonZeroU8);

impl fmt::Display for TrapCode {
    ghost output = { λ code. Some (trap_text code) };

    fn fmt<W: fmt::Write>(&self, f: &mut fmt::Formatter<W>) -> fmt::Result {
        let number = self.0;
        write!(f, "trap={number}")
    }
}

/// The key of an offset whose value the sink knows.
pub type KnownOffset = u8;

/// What a relative address refers to, where that isn't settled yet.
#[derive(Clone, Copy, Debug, PartialEq)]
pub enum DeferredTarget {
    Label(Label),
    Constant(Constant),
    None,
}

/// What a sink was told, and the number of bytes before it.
#[derive(Clone, Copy, Debug, PartialEq)]
pub enum Notice {
    Trap(usize, TrapCode),
    Target(usize, DeferredTarget),
}

/// A sink of bytes and notices.
///
/// A refused call adds nothing. A recording sink keeps each notice with the number of bytes before
/// it, and any other lets notices go. These calls never change what the sink knows of offsets.
pub trait CodeSink {
    ghost state: { Self → State };

    // What a call makes of all that `state` doesn't show, from the sink before it to the sink after it. By default that may
    // be anything.
    ghost may_become: { Self → Self → Type 0 } = { λ _ _. Unit {0} };

    /// Puts one byte.
    fn put1(&mut self, value: u8) -> Result<(), SinkError>
        ensures step { Step (put (value ∷ [])) (state self.old) (state self.new) result }
        ensures beside { may_become self.old self.new };

    /// Puts two bytes, the lowest first.
    fn put2(&mut self, value: u16) -> Result<(), SinkError>
        ensures step { Step (put (to_le_bytes w16 value)) (state self.old) (state self.new) result }
        ensures beside { may_become self.old self.new };

    /// Puts four bytes, the lowest first.
    fn put4(&mut self, value: u32) -> Result<(), SinkError>
        ensures step { Step (put (to_le_bytes w32 value)) (state self.old) (state self.new) result }
        ensures beside { may_become self.old self.new };

    /// Puts eight bytes, the lowest first.
    fn put8(&mut self, value: u64) -> Result<(), SinkError>
        ensures step { Step (put (to_le_bytes w64 value)) (state self.old) (state self.new) result }
        ensures beside { may_become self.old self.new };

    /// Puts the lowest bytes of a word, one to eight, as one by one, the lowest first.
    fn put_low_bytes(&mut self, word: u64, count: u8) -> Result<(), SinkError>
        requires least { 1 ≤ count }
        requires most { count ≤ 8 }
        ensures run { Ran (puts (take count (to_le_bytes w64 word))) (state self.old) (state self.new) result }
        ensures beside { may_become self.old self.new }
    {
        for byte in &word.to_le_bytes()[..usize::from(count)] {
            self.put1(*byte)?;
        }
        Ok(())
    }

    /// Puts what stands at the end of an instruction: a displacement of four bytes, if there is
    /// one, at once, and then so many lowest bytes of an immediate, 0, 1, 2 or 4, at once, the
    /// lowest first.
    ///
    /// The room may be larger afterwards than these calls would leave it.
    fn put_rest(&mut self, long: Option<u32>, imm: u32, imm_len: u8) -> Result<(), SinkError>
        requires { IsTrue (is_imm_len imm_len) }
        ensures run { RanRoomier (rest_actions long imm_len imm) (state self.old) (state self.new) result }
        ensures beside { may_become self.old self.new }
    {
        if let Some(word) = long {
            self.put4(word)?;
        }
        if imm_len == 1 {
            return self.put1((imm % 0x100) as u8);
        }
        if imm_len == 2 {
            return self.put2((imm % 0x1_0000) as u16);
        }
        if imm_len == 4 {
            return self.put4(imm);
        }
        Ok(())
    }

    /// Says that the instruction that begins here may trap.
    fn add_trap(&mut self, code: TrapCode) -> Result<(), SinkError>
        ensures step { Step (trap code) (state self.old) (state self.new) result }
        ensures beside { may_become self.old self.new };

    /// Says that the four bytes that come next are to refer to `place`.
    fn use_target(&mut self, place: DeferredTarget) -> Result<(), SinkError>
        ensures step { Step (target place) (state self.old) (state self.new) result }
        ensures beside { may_become self.old self.new };

    /// Whether the value of `offset` is known.
    fn knows_offset(&self, offset: KnownOffset) -> bool
        ensures { result ≡ is_some ((state self.now).offsets offset) };

    /// The value of an offset that is known.
    fn known_offset(&self, offset: KnownOffset) -> i32
        requires { IsSome ((state self.now).offsets offset) }
        ensures { (state self.now).offsets offset ≡ Some result };

    // A call that changes nothing is one.
    ghost may_stay: { (s : Self) → may_become s s };

    // Two calls are one.
    ghost may_go_on: { (s t u : Self) → may_become s t → may_become t u → may_become s u };
}
