//! The legacy prefixes that were seen before an opcode. (Intel SDM, volume 2, 2.1.1.)

ghost use Rattle.std.specs.Prelude.{◌≡◌, option_map, IfSome};
ghost use Rattle.cax64_table.specs.LegacyNumber.{set_of, added, IsSet};

use crate::cursor::next;

/// Some of the legacy prefixes F0, 66, F2 and F3, as their number, so that they stay in a register.
#[derive(Clone, Copy)]
pub struct LegacyPrefixes {
    pub(crate) number: u8,
    ghost is_set: { IsSet number },
}

/// The number of the set with this byte added, where it is a prefix that may still come. F0, 66, F2 and F3 are its bits
/// 0 to 3, so that it is below 4 where neither F2 nor F3 was seen.
#[inline(always)]
fn with_prefix(seen: u8, byte: u8) -> Option<u8>
    requires { IsSet seen }
    ensures is { option_map set_of result ≡ added (set_of seen) byte }
    ensures fits { IfSome result IsSet }
{
    match byte {
        0xF0 if seen % 2 == 0 => Some(seen + 1),
        0x66 if seen / 2 % 2 == 0 => Some(seen + 2),
        0xF2 if seen < 4 => Some(seen + 4),
        0xF3 if seen < 4 => Some(seen + 8),
        _ => None,
    }
}

impl LegacyPrefixes {
    ghost use Rattle.std.specs.Prelude.{ℕ, List};
    ghost use Rattle.cax64_machine_code.specs.Prefix.{no_legacy, is_no_legacy, legacy_at};
    ghost use Rattle.cax64_machine_code.specs.declared.line.LegacySet.{LegacySet};
    ghost use Rattle.cax64_table.specs.Legacy.{set_in};

    /// Those at the front, and what follows them.
    #[inline(always)]
    pub fn read(bytes: &[u8]) -> (LegacyPrefixes, &[u8])
        ensures { ◌≡◌ {A = LegacySet × List ℕ} (set_in result.0, result.1.now) (legacy_at no_legacy bytes.now) }
    {
        // The loop keeps the number alone, whose branches stay simple so.
        let mut number = 0;
        let mut rest = bytes;
        while let Some((byte, behind)) = next(rest) {
            let Some(more) = with_prefix(number, byte) else {
                break
            };
            number = more;
            rest = behind;
        }
        (LegacyPrefixes { number }, rest)
    }

    /// Whether there are none.
    #[inline(always)]
    pub fn is_empty(self) -> bool
        ensures { result ≡ is_no_legacy (set_in self) }
    {
        self.number == 0
    }
}
