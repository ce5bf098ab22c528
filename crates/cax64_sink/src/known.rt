//! The offsets that a recorder knows.

ghost use Rattle.std.specs.Prelude.{◌≡◌, ◌≢◌, ◌==◌, ◌<◌, ℕ, Some, None, if◌then◌else◌};
ghost use Rattle.std.specs.Int.{bit_at};
ghost use Rattle.cax64_sink.specs.Known.{known_at};

use crate::KnownOffset;

/// A word with one more bit set.
#[inline(always)]
fn with_bit(word: u64, at: u8) -> u64
    requires { at < 64 }
    ensures set { bit_at result at ≡ 1 }
    ensures others { (i : ℕ) → i ≢ at → bit_at result i ≡ bit_at word i }
{
    word | (1 << at)
}

/// Whether a bit of a word is set.
#[inline(always)]
fn has_bit(word: u64, at: u8) -> bool
    requires { at < 64 }
    ensures { result ≡ (bit_at word at == 1) }
{
    (word >> at) & 1 == 1
}

/// The offsets that were set, by key.
///
/// The values stand apart from whether they were set, of which there is a bit for each: that makes the least of what a new
/// recorder clears and each move copies.
#[derive(Drop)]
pub struct Known {
    values: [i32; 256],
    is_set: [u64; 4],
}

impl Known {
    /// None.
    #[inline(always)]
    pub fn new() -> Known
        ensures { (key : ℕ) → known_at result key ≡ None }
    {
        Known {
            values: [0; 256],
            is_set: [0; 4],
        }
    }

    /// Sets one, or replaces its value.
    pub fn set(&mut self, offset: KnownOffset, value: i32)
        ensures { (key : ℕ) → known_at self.new key ≡ (if key == offset then Some value else known_at self.old key) }
    {
        self.values[offset as usize] = value;
        let place = (offset / 64) as usize;
        self.is_set[place] = with_bit(self.is_set[place], offset % 64);
    }

    /// The value of one that was set.
    pub fn get(&self, offset: KnownOffset) -> Option<i32>
        ensures { result ≡ known_at self.now offset }
    {
        if has_bit(self.is_set[(offset / 64) as usize], offset % 64) {
            Some(self.values[offset as usize])
        } else {
            None
        }
    }
}
