//! The bytes of two words at the front of some bytes, written as whole words.

ghost use Rattle.std.specs.Prelude.{◌≡◌, ◌≤◌, ◌+◌, ◌++◌, drop, length, take};
ghost use Rattle.std.specs.Int.{to_le_bytes, w64};

/// By a number of lowest bytes of a word: the bits above them.
static ABOVE: [u64; 9] = [
    0xFFFF_FFFF_FFFF_FFFF,
    0xFFFF_FFFF_FFFF_FF00,
    0xFFFF_FFFF_FFFF_0000,
    0xFFFF_FFFF_FF00_0000,
    0xFFFF_FFFF_0000_0000,
    0xFFFF_FF00_0000_0000,
    0xFFFF_0000_0000_0000,
    0xFF00_0000_0000_0000,
    0,
];

/// The eight bytes at a position.
#[inline(always)]
fn word_at(code: &[u8], at: usize) -> u64
    requires { at + 8 ≤ length code.now }
    ensures { to_le_bytes w64 result ≡ take 8 (drop at code.now) }
{
    let b = &code[at..at + 8];
    u64::from_le_bytes([b[0], b[1], b[2], b[3], b[4], b[5], b[6], b[7]])
}

/// Puts eight bytes at a position.
#[inline(always)]
fn put_word(code: &mut [u8], at: usize, word: u64)
    requires { at + 8 ≤ length code.old }
    ensures { code.new ≡ take at code.old ++ to_le_bytes w64 word ++ drop (at + 8) code.old }
{
    let b = &mut code[at..at + 8];
    let w = word.to_le_bytes();
    b[0] = w[0];
    b[1] = w[1];
    b[2] = w[2];
    b[3] = w[3];
    b[4] = w[4];
    b[5] = w[5];
    b[6] = w[6];
    b[7] = w[7];
}

/// So many lowest bytes of a word, and above them those of another.
#[inline(always)]
fn blended(word: u64, count: usize, other: u64) -> u64
    requires { count ≤ 8 }
    ensures { to_le_bytes w64 result ≡ take count (to_le_bytes w64 word) ++ drop count (to_le_bytes w64 other) }
{
    (word & !ABOVE[count]) | (other & ABOVE[count])
}

/// Puts so many lowest bytes of a word and, behind them, so many of another at the front. What stands behind them is as
/// before: it is read before anything is written, so that no read waits for a write. The first word is written whole, since
/// the second covers what is too much of it.
#[inline(always)]
pub(crate) fn put_words(code: &mut [u8], front: u64, count: usize, rest: u64, more: usize)
    requires count { count ≤ 8 }
    requires more { more ≤ 8 }
    requires room { 16 ≤ length code.old }
    ensures { code.new ≡ take count (to_le_bytes w64 front) ++ take more (to_le_bytes w64 rest) ++ drop (count + more) code.old }
{
    let second = word_at(code, count);
    put_word(code, 0, front);
    put_word(code, count, blended(rest, more, second));
}
