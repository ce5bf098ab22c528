//! `Vec<u8>` as a sink keeps bytes alone.

ghost use Rattle.std.specs.Prelude.{◌≡◌, ◌≤◌, ◌+◌, ◌-◌, ◌∷◌, [], ◌++◌, length, IsTrue, IsOk, IfErr, OnOk, pos, take, vec_len, vec_capacity};
ghost use Rattle.std.specs.Int.{to_le_bytes, w32, w64};
ghost use Rattle.cax64_sink.specs.Call.{Step, put};
ghost use Rattle.cax64_sink.specs.Puts.{puts};
ghost use Rattle.cax64_sink.specs.Rest.{is_imm_len, long_actions, rest_actions, word_actions};
ghost use Rattle.cax64_sink.specs.Run.{Ran, all_bytes};
ghost use Rattle.cax64_sink.specs.Vec.{vec_state};

use crate::{CodeSink, DeferredTarget, KnownOffset, SinkError, TrapCode};
use std::alloc::Allocator;

/// Makes room for so many more items, and for some behind them. Where that is refused, room for these alone may not be.
pub(crate) fn make_room<T, A: Allocator>(vec: &mut Vec<T, A>, count: usize) -> Result<(), SinkError>
    ensures items { vec.new.items ≡ vec.old.items }
    ensures room { OnOk result (count ≤ vec_capacity vec.new - vec_len vec.new) }
    ensures capacity { vec_capacity vec.old ≤ vec_capacity vec.new }
    ensures succeeds { count ≤ vec_capacity vec.old - vec_len vec.old → IsOk result }
    ensures no_memory { IfErr result (λ e. e ≡ SinkError.NoMemory) }
{
    if vec.reserve(count).is_ok() {
        return Ok(());
    }
    vec.reserve_exact(count).map_err(|_| SinkError::NoMemory)
}

/// Makes room for so many more items. Where the list has no block yet it asks for one of exactly `first`, and where that is
/// refused for one of `count`: which is what growing would ask for, without working it out.
#[inline(always)]
pub(crate) fn make_first_room<T, A: Allocator>(
    vec: &mut Vec<T, A>,
    first: usize,
    count: usize,
) -> Result<(), SinkError>
    requires { count ≤ first }
    ensures items { vec.new.items ≡ vec.old.items }
    ensures room { OnOk result (count ≤ vec_capacity vec.new - vec_len vec.new) }
    ensures capacity { vec_capacity vec.old ≤ vec_capacity vec.new }
    ensures succeeds { count ≤ vec_capacity vec.old - vec_len vec.old → IsOk result }
    ensures no_memory { IfErr result (λ e. e ≡ SinkError.NoMemory) }
{
    if vec.capacity() > 0 {
        return make_room(vec, count);
    }
    if vec.reserve_exact(first).is_ok() {
        return Ok(());
    }
    vec.reserve_exact(count).map_err(|_| SinkError::NoMemory)
}

/// Makes room for so many more items where as many are asked for again and again. A first block is for twice as many, which
/// is what the second call would make of it: so no other call finds less memory.
#[inline(never)]
pub(crate) fn grow_ahead<T, A: Allocator>(
    vec: &mut Vec<T, A>,
    count: usize,
) -> Result<(), SinkError>
    ensures items { vec.new.items ≡ vec.old.items }
    ensures room { OnOk result (count ≤ vec_capacity vec.new - vec_len vec.new) }
    ensures capacity { vec_capacity vec.old ≤ vec_capacity vec.new }
    ensures succeeds { count ≤ vec_capacity vec.old - vec_len vec.old → IsOk result }
    ensures no_memory { IfErr result (λ e. e ≡ SinkError.NoMemory) }
{
    if vec.capacity() == 0 && vec.reserve(count.saturating_mul(2)).is_ok() {
        return Ok(());
    }
    make_room(vec, count)
}

/// Puts some bytes at once.
#[inline(always)]
fn append<A: Allocator>(vec: &mut Vec<u8, A>, bytes: &[u8]) -> Result<(), SinkError>
    ensures { Step (put bytes.now) (vec_state vec.old) (vec_state vec.new) result }
{
    vec.extend_from_slice(bytes)
        .map_err(|_| SinkError::NoMemory)
}

fn push_one<A: Allocator>(vec: &mut Vec<u8, A>, value: u8) -> Result<(), SinkError>
    ensures { Step (put (value ∷ [])) (vec_state vec.old) (vec_state vec.new) result }
{
    vec.push(value).map_err(|_| SinkError::NoMemory)
}

/// Puts some bytes, one at a time. Seldom run, it stays out of the code of each instruction.
#[inline(never)]
fn push_each<A: Allocator>(vec: &mut Vec<u8, A>, bytes: &[u8]) -> Result<(), SinkError>
    ensures { Ran (puts bytes.now) (vec_state vec.old) (vec_state vec.new) result }
{
    for byte in bytes {
        push_one(vec, *byte)?;
    }
    Ok(())
}

/// Puts four bytes of a displacement, if there is one.
#[tactic(auto, using(crate::proofs::Runs::ran_none, crate::proofs::Runs::ran_one))]
fn append_long<A: Allocator>(vec: &mut Vec<u8, A>, long: Option<u32>) -> Result<(), SinkError>
    ensures { Ran (long_actions long) (vec_state vec.old) (vec_state vec.new) result }
{
    match long {
        Some(word) => append(vec, &word.to_le_bytes()),
        None => Ok(()),
    }
}

/// Puts so many lowest bytes of an immediate.
fn append_imm<A: Allocator>(vec: &mut Vec<u8, A>, imm: u32, len: u8) -> Result<(), SinkError>
    requires { IsTrue (is_imm_len len) }
    ensures { Ran (word_actions len imm) (vec_state vec.old) (vec_state vec.new) result }
{
    if len == 0 {
        return Ok(());
    }
    append(vec, &imm.to_le_bytes()[..usize::from(len)])
}

/// Puts what stands at the end of an instruction, each part by itself. It's seldom run too.
#[tactic(auto, using(crate::proofs::Runs::ran_append, crate::proofs::Runs::ran_refused))]
#[inline(never)]
fn append_rest<A: Allocator>(
    vec: &mut Vec<u8, A>,
    long: Option<u32>,
    imm: u32,
    imm_len: u8,
) -> Result<(), SinkError>
    requires { IsTrue (is_imm_len imm_len) }
    ensures { Ran (rest_actions long imm_len imm) (vec_state vec.old) (vec_state vec.new) result }
{
    append_long(vec, long)?;
    append_imm(vec, imm, imm_len)
}

/// How many bytes a displacement of four bytes has, if there is one.
#[inline(always)]
fn long_len(long: Option<u32>) -> u8
    ensures { result ≡ length (all_bytes (long_actions long)) }
{
    4 * u8::from(long.is_some())
}

/// A displacement of four bytes, if there is one, and four bytes of an immediate behind it. Nothing
/// is tested: a branch would cost more.
#[inline(always)]
fn rest_word(long: Option<u32>, imm: u32) -> u64
    ensures { take (length (all_bytes (long_actions long)) + 4) (to_le_bytes w64 result) ≡ all_bytes (long_actions long) ++ to_le_bytes w32 imm }
{
    u64::from(long.unwrap_or(0)) + (u64::from(imm) << (8 * u32::from(long_len(long))))
}

impl<A: Allocator> CodeSink for Vec<u8, A> {
    ghost state = { vec_state };

    ghost may_stay = { λ _. tt };

    ghost may_go_on = { λ _ _ _ _ _. tt };

    fn put1(&mut self, value: u8) -> Result<(), SinkError> {
        push_one(self, value)
    }

    fn put2(&mut self, value: u16) -> Result<(), SinkError> {
        append(self, &value.to_le_bytes())
    }

    fn put4(&mut self, value: u32) -> Result<(), SinkError> {
        append(self, &value.to_le_bytes())
    }

    fn put8(&mut self, value: u64) -> Result<(), SinkError> {
        append(self, &value.to_le_bytes())
    }

    fn put_low_bytes(&mut self, word: u64, count: u8) -> Result<(), SinkError> {
        let bytes = word.to_le_bytes();
        let end = self.len() + usize::from(count);
        if self.capacity() - self.len() < 8 {
            return push_each(self, &bytes[..usize::from(count)]);
        }
        // All eight, for which there is room, and then what is too much is cut off.
        self.extend_from_slice(&bytes)
            .map_err(|_| SinkError::NoMemory)?;
        self.truncate(end);
        Ok(())
    }

    #[inline(always)]
    fn put_rest(&mut self, long: Option<u32>, imm: u32, imm_len: u8) -> Result<(), SinkError> {
        let count = usize::from(long_len(long) + imm_len);
        let wanted = self.len() + count;
        if self.capacity() - self.len() < 8 {
            return append_rest(self, long, imm, imm_len);
        }
        // All eight, for which there is room, and then what is too much is cut off.
        self.extend_from_slice(&rest_word(long, imm).to_le_bytes())
            .map_err(|_| SinkError::NoMemory)?;
        self.truncate(wanted);
        Ok(())
    }

    fn add_trap(&mut self, _code: TrapCode) -> Result<(), SinkError> {
        Ok(())
    }

    fn use_target(&mut self, _place: DeferredTarget) -> Result<(), SinkError> {
        Ok(())
    }

    fn knows_offset(&self, _offset: KnownOffset) -> bool {
        false
    }

    fn known_offset(&self, _offset: KnownOffset) -> i32
        ensures { result ≡ pos 0 }
    {
        // No offset is known, so nobody asks for one.
        0
    }
}
