//! Numbers as words of a command line.

ghost use Rattle.std.specs.Prelude.{◌≡◌, ◌==◌, slice_index, ◌≤◌, ◌<◌, ◌≤ℤ◌, ◌<ℤ◌, ◌^◌, ℕ, ℤ, pos, negsuc, IfSome, IfNone, FitsSigned};
ghost use Rattle.std.specs.Int.{w32};
ghost use Rattle.x64rows_command.specs.Words.{Writes, WritesSigned};

/// Whether a plus stands first, which `parse` would take.
fn has_plus(word: &str) -> bool
    ensures { result ≡ (slice_index word.now 0 == 43) }
{
    matches!(word.as_bytes(), [b'+', ..])
}

/// The number from `least` to `most` that the word writes in decimal digits. Leading zeros change nothing.
pub fn number(word: &str, least: u8, most: u8) -> Option<u8>
    ensures digits { IfSome result (Writes word.now) }
    ensures least { IfSome result (λ n. least ≤ n) }
    ensures most { IfSome result (λ n. n ≤ most) }
    ensures none { IfNone result ((n : ℕ) → Writes word.now n → ¬ ((least ≤ n) × (n ≤ most))) }
{
    if has_plus(word) {
        return None;
    }
    let number = word.parse::<u8>().ok()?;
    if number < least || number > most {
        return None;
    }
    Some(number)
}

/// The number that the word writes in decimal digits with a minus before them or none, where it is an `i32`.
pub fn signed_number(word: &str) -> Option<i32>
    ensures digits { IfSome result (WritesSigned word.now) }
    ensures none { IfNone result ((d : ℤ) → WritesSigned word.now d → ¬ (FitsSigned w32 d)) }
{
    if has_plus(word) {
        return None;
    }
    word.parse::<i32>().ok()
}
