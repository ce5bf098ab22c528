//! A few bytes as one word.

ghost use Rattle.std.specs.Prelude.{◌≡◌, ◌≤◌, ◌<◌, ◌^◌, ◌∷◌, [], ◌++◌, ◌+◌, length, take};
ghost use Rattle.std.specs.Int.{to_le_bytes, w64};
ghost use Rattle.cax64_address.specs.Memory.{option_when};
ghost use Rattle.cax64_encoder.specs.ByteWhen.{byte_of};
ghost use Rattle.cax64_sink.specs.Puts.{puts};
ghost use Rattle.cax64_sink.specs.Run.{Ran};

use cax64_sink::{CodeSink, SinkError};
use std::marker::Model;

/// Eight bytes at most, in one word: the first one is the lowest.
#[derive(Drop)]
pub struct Short {
    word: u64,
    len: u8,
}

impl Model for Short {
    ghost use Rattle.std.specs.Prelude.{ℕ, List, ◌≤◌, ◌<◌, ◌^◌, take};
    ghost use Rattle.std.specs.Int.{w64, to_le_bytes};

    ghost Value = { List ℕ };

    ghost view = { λ s. take s.len (to_le_bytes w64 s.word) };

    ghost invariant = { λ s. (s.len ≤ 8) × (s.word < 256 ^ s.len) };
}

impl Short {
    #[inline(always)]
    pub fn empty() -> Short
        ensures { result ≡ [] }
    {
        Short { word: 0, len: 0 }
    }

    #[inline(always)]
    pub fn one(byte: u8) -> Short
        ensures bytes { result ≡ byte ∷ [] }
        ensures length { length result ≡ 1 }
    {
        Short::of_word(u64::from(byte), 1)
    }

    /// The byte, if there is one.
    #[inline(always)]
    pub fn optional(byte: Option<u8>) -> Short
        ensures bytes { result ≡ byte_of byte }
        ensures length { length result ≤ 1 }
    {
        Short {
            word: u64::from(byte.unwrap_or(0)),
            len: u8::from(byte.is_some()),
        }
    }

    /// The byte, if it stands. Nothing is tested: a branch would cost more.
    #[inline(always)]
    pub fn when(stands: bool, byte: u8) -> Short
        ensures bytes { result ≡ byte_of (option_when stands byte) }
        ensures length { length result ≤ 1 }
    {
        Short {
            word: u64::from(byte) * u64::from(stands),
            len: u8::from(stands),
        }
    }

    /// So many lowest bytes of a word that has no others.
    #[inline(always)]
    pub fn of_word(word: u64, len: u8) -> Short
        requires few { len ≤ 8 }
        requires below { word < 256 ^ len }
        ensures bytes { result ≡ take len (to_le_bytes w64 word) }
        ensures length { length result ≡ len }
    {
        Short { word, len }
    }

    /// The same with these behind the others. Nothing is tested: a branch would cost more.
    #[inline(always)]
    pub fn append(self, behind: Short) -> Short
        requires few { length self < 8 }
        requires room { length self + length behind ≤ 8 }
        ensures bytes { result ≡ self ++ behind }
        ensures length { length result ≡ length self + length behind }
    {
        Short {
            word: self.word + (behind.word << (8 * u32::from(self.len))),
            len: self.len + behind.len,
        }
    }

    /// The same behind a byte, if there is one. Nothing is tested.
    #[inline(always)]
    pub(crate) fn behind(self, byte: Option<u8>) -> Short
        requires room { length self < 8 }
        ensures bytes { result ≡ byte_of byte ++ self }
        ensures length { length result ≡ length (byte_of byte) + length self }
    {
        let stands = byte.is_some();
        let further = u64::from(byte.unwrap_or(0)) + 256 * self.word;
        Short {
            word: if stands { further } else { self.word },
            len: self.len + u8::from(stands),
        }
    }

    /// The bytes as a word, which has no others.
    #[inline(always)]
    pub fn word(&self) -> u64
        ensures bytes { take (length self.now) (to_le_bytes w64 result) ≡ self.now }
        ensures below { result < 256 ^ length self.now }
    {
        self.word
    }

    /// How many bytes these are.
    #[inline(always)]
    pub fn len(&self) -> u8
        ensures is { result ≡ length self.now }
        ensures few { result ≤ 8 }
    {
        self.len
    }

    /// Puts the bytes, at least one, as one by one.
    #[inline(always)]
    pub fn put<S: CodeSink>(&self, sink: &mut S) -> Result<(), SinkError>
        requires { 1 ≤ length self.now }
        ensures run { Ran (puts self.now) (S.state sink.old) (S.state sink.new) result }
        ensures beside { S.may_become sink.old sink.new }
    {
        sink.put_low_bytes(self.word, self.len)
    }
}
