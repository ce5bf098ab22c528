//! What stands before an opcode. (Intel SDM, volume 2, 2.1.1, 2.2.1.2 and 2.3.5.)

ghost use Rattle.std.specs.Prelude.{◌≡◌, ◌<◌, true, if◌then◌else◌, option_map, Option, Some, None};
ghost use Rattle.std.specs.Int.{from_bool};
ghost use Rattle.cax64_machine_code.specs.Prefix.{is_vex_map, Rex, Vex, legacy_prefix, vex_prefix};
ghost use Rattle.cax64_table.specs.Legacy.{set_in};
ghost use Rattle.cax64_table.specs.PrefixNumbers.{AreNumbers};

use crate::legacy::LegacyPrefixes;

/// A prefix as the numbers that are compared with a line's.
#[derive(Clone, Copy)]
pub struct PrefixNumbers {
    /// The legacy prefixes F0, 66, F2 and F3 from bit 0 up, or pp, and from bit 4 up the map.
    low: u8,
    /// L, or 1 where a REX byte stands, and whether it counts.
    high: u8,
    has_high: bool,
    w: bool,
}

impl PrefixNumbers {
    /// Those of legacy prefixes, and of a REX byte with this W, if one stands.
    #[inline(always)]
    pub fn legacy(seen: LegacyPrefixes, rex_w: Option<bool>) -> PrefixNumbers
        ensures { (rex : Option Rex) → option_map (λ r. r.w) rex ≡ option_map from_bool rex_w → AreNumbers result (legacy_prefix (set_in seen) rex) }
    {
        PrefixNumbers {
            low: seen.number,
            high: 1,
            has_high: rex_w.is_some(),
            w: rex_w == Some(true),
        }
    }

    /// Those of a VEX prefix with these fields.
    #[inline(always)]
    pub fn vex(pp: u8, map: u8, l: u8, w: bool) -> PrefixNumbers
        requires pp { pp < 4 }
        requires map { is_vex_map map ≡ true }
        ensures { (vex : Vex) → vex.pp ≡ pp → vex.map ≡ map → vex.l ≡ l → vex.w ≡ from_bool w → AreNumbers result (vex_prefix vex) }
    {
        PrefixNumbers {
            low: pp + 16 * map,
            high: l,
            has_high: true,
            w,
        }
    }

    /// The legacy prefixes F0, 66, F2 and F3 from bit 0 up, or pp, and from bit 4 up the map.
    #[inline(always)]
    pub fn low(self) -> u8
        ensures { result ≡ self.low }
    {
        self.low
    }

    /// The bit W, false where nothing has it.
    #[inline(always)]
    pub fn w(self) -> bool
        ensures { result ≡ self.w }
    {
        self.w
    }

    /// L of VEX, or 1 of a REX byte, where one of them stands.
    #[inline(always)]
    pub fn high(self) -> Option<u8>
        ensures { result ≡ (if self.has_high then Some self.high else None) }
    {
        if self.has_high { Some(self.high) } else { None }
    }
}
