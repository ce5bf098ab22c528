//! The code of an instruction: the sink calls that write it, as a value.

ghost use Rattle.std.specs.Int.{to_le_bytes, w64};
ghost use Rattle.std.specs.Prelude.{◌≡◌, ◌≤◌, length, take};
ghost use Rattle.cax64_encoder.specs.Code.{IsCode, code_actions, trap_actions};
ghost use Rattle.cax64_sink.specs.Rest.{rest_actions};
ghost use Rattle.cax64_sink.specs.Run.{Ran, all_bytes};

use crate::short::Short;
use cax64_address::tail::use_optional;
use cax64_sink::{CodeSink, DeferredTarget, SinkError, TrapCode};

/// What stands between the opcode and the immediate.
#[derive(Drop)]
pub struct TailPart {
    /// ModR/M, SIB and a displacement of one byte.
    pub front: Short,
    /// What the displacement of four bytes is told to the sink as a use of.
    pub target: Option<DeferredTarget>,
    /// A displacement of four bytes.
    pub long: Option<u32>,
}

/// An instruction as it is put: computed whole before anything is put.
#[derive(Drop)]
pub struct Code {
    pub trap: Option<TrapCode>,
    /// Prefixes, opcode, ModR/M, SIB and a displacement of one byte.
    pub front: Short,
    /// What the displacement of four bytes is told to the sink as a use of.
    pub target: Option<DeferredTarget>,
    /// A displacement of four bytes.
    pub long: Option<u32>,
    /// The bytes of the immediate as one word, the first one the lowest, and how many they are.
    pub imm: u32,
    pub imm_len: u8,
}

#[tactic(auto, using(cax64_sink::proofs::Runs::ran_none, cax64_sink::proofs::Runs::ran_one))]
#[inline(always)]
fn put_trap<S: CodeSink>(sink: &mut S, trap: Option<TrapCode>) -> Result<(), SinkError>
    ensures run { Ran (trap_actions trap) (S.state sink.old) (S.state sink.new) result }
    ensures beside { S.may_become sink.old sink.new }
{
    match trap {
        Some(code) => sink.add_trap(code),
        None => Ok(()),
    }
}

impl Code {
    /// The trap is told first; then come the bytes in front as one word, and a long displacement and the immediate as
    /// another.
    #[inline(always)]
    pub fn put<S: CodeSink>(&self, sink: &mut S) -> Result<(), SinkError>
        requires { IsCode self.now }
        ensures run { Ran (code_actions self.now) (S.state sink.old) (S.state sink.new) result }
        ensures beside { S.may_become sink.old sink.new }
    {
        put_trap(sink, self.trap)?;
        self.front.put(sink)?;
        use_optional(sink, self.target)?;
        sink.put_rest(self.long, self.imm, self.imm_len)
    }

    /// The bytes behind those in front as the lowest of a word, and how many they are: a displacement of four bytes, and the
    /// immediate. Nothing is tested: a branch would cost more.
    #[inline(always)]
    pub fn rest(&self) -> (u64, u8)
        requires { IsCode self.now }
        ensures bytes { take result.1 (to_le_bytes w64 result.0) ≡ all_bytes (rest_actions self.now.long self.now.imm_len self.now.imm) }
        ensures few { result.1 ≤ 8 }
    {
        let has_long = self.long.is_some();
        let long_len = 4 * u8::from(has_long);
        let word = u64::from(self.long.unwrap_or(0))
            + (u64::from(self.imm) << (8 * u32::from(long_len)));
        (word, long_len + self.imm_len)
    }

    /// The number of bytes. None of them is put.
    #[inline(always)]
    pub fn len(&self) -> u8
        requires is { IsCode self.now }
        requires most { length (all_bytes (code_actions self.now)) ≤ 13 }
        ensures { result ≡ length (all_bytes (code_actions self.now)) }
    {
        self.front.len() + 4 * u8::from(self.long.is_some()) + self.imm_len
    }
}
