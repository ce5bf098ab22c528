//! What stands before the opcode. (Intel SDM, volume 2, 2.1.1, 2.2.1 and 2.3.5.)

ghost use Rattle.std.specs.Prelude.{◌≡◌, ◌&&◌, [], ◌<◌, ◌/◌, ◌-◌, ◌%◌, ◌^◌, ◌∷◌, ℕ, List, Some, None, option_map, true};
ghost use Rattle.std.specs.Int.{from_bool};
ghost use Rattle.cax64_machine_code.specs.Prefix.{no_legacy, is_no_legacy, legacy_at, rex_of, vex_two_byte, vex_three_byte, is_vex_map, begins_vex, vex_at, after_vex, prefix_at, legacy_prefix, vex_prefix};
ghost use Rattle.cax64_machine_code.specs.declared.line.LegacySet.{LegacySet};
ghost use Rattle.cax64_reader.specs.Front.{prefix_of};
ghost use Rattle.cax64_table.specs.Legacy.{set_in};

use crate::front::Front;
use cax64_table::cursor::next;
use cax64_table::legacy::LegacyPrefixes;
use cax64_table::prefix::PrefixNumbers;

/// The bit at this place.
#[inline(always)]
fn bit(byte: u8, place: u32) -> bool
    requires { place < 8 }
    ensures { from_bool result ≡ byte / 2 ^ place % 2 }
{
    (byte >> place) % 2 == 1
}

/// Legacy prefixes and a REX byte.
#[inline(always)]
fn with_rex(seen: LegacyPrefixes, byte: u8) -> Front
    ensures { prefix_of result ≡ legacy_prefix (set_in seen) (Some (rex_of byte)) }
{
    Front {
        numbers: PrefixNumbers::legacy(seen, Some(bit(byte, 3))),
        has_rex: true,
        r: bit(byte, 2),
        x: bit(byte, 1),
        b: bit(byte, 0),
        vvvv: 0,
    }
}

/// Legacy prefixes alone.
#[inline(always)]
fn without_rex(seen: LegacyPrefixes) -> Front
    ensures { prefix_of result ≡ legacy_prefix (set_in seen) None }
{
    Front {
        numbers: PrefixNumbers::legacy(seen, None),
        has_rex: false,
        r: false,
        x: false,
        b: false,
        vvvv: 0,
    }
}

/// A VEX prefix of these bits, none of them inverted, with vvvv, L and pp in its last byte.
#[inline(always)]
fn with_vex(r: bool, x: bool, b: bool, map: u8, w: bool, last: u8) -> Front
    requires { is_vex_map map ≡ true }
    ensures { prefix_of result ≡ vex_prefix (record { w = from_bool w; r = from_bool r; x = from_bool x; b = from_bool b; vvvv = 15 - last / 8 % 16; l = last / 4 % 2; pp = last % 4; map = map }) }
{
    let vvvv = 15 - last / 8 % 16;
    Front {
        numbers: PrefixNumbers::vex(last % 4, map, last / 4 % 2, w),
        has_rex: false,
        r,
        x,
        b,
        vvvv,
    }
}

/// A VEX prefix of two bytes.
#[inline(always)]
fn two_byte(second: u8) -> Front
    ensures { prefix_of result ≡ vex_prefix (vex_two_byte second) }
{
    with_vex(!bit(second, 7), false, false, 1, false, second)
}

/// A VEX prefix of three bytes.
#[inline(always)]
fn three_byte(second: u8, third: u8) -> Front
    requires { is_vex_map (second % 32) ≡ true }
    ensures { prefix_of result ≡ vex_prefix (vex_three_byte second third) }
{
    with_vex(
        !bit(second, 7),
        !bit(second, 6),
        !bit(second, 5),
        second % 32,
        bit(third, 7),
        third,
    )
}

/// An opcode map of VEX: 0F, 0F 38 or 0F 3A.
#[inline(always)]
fn is_map(map: u8) -> bool
    ensures { result ≡ is_vex_map map }
{
    map == 1 || map == 2 || map == 3
}

/// The VEX prefix that begins with this byte, C4 or C5, and what follows it.
fn vex(first: u8, rest: &[u8]) -> Option<(Front, &[u8])>
    requires { begins_vex (first ∷ []) ≡ true }
    ensures { option_map (λ r. (prefix_of r.0, r.1.now)) result ≡ after_vex (vex_at (first ∷ rest.now)) }
{
    let (second, rest) = next(rest)?;
    if first == 0xC5 {
        return Some((two_byte(second), rest));
    }
    let (third, rest) = next(rest)?;
    if is_map(second % 32) {
        return Some((three_byte(second, third), rest));
    }
    None
}

/// No legacy prefix was seen, and a VEX prefix begins with this byte, C4 or C5.
#[inline(always)]
fn begins_with_vex(seen: LegacyPrefixes, first: u8) -> bool
    ensures { result ≡ (is_no_legacy (set_in seen) && begins_vex (first ∷ [])) }
{
    seen.is_empty() && first / 2 == 0x62
}

/// What stands at the front, and what follows it; VEX only where no legacy prefix stands before it.
#[inline(always)]
pub fn read_front(bytes: &[u8]) -> Option<(Front, &[u8])>
    ensures { option_map (λ r. (prefix_of r.0, r.1.now)) result ≡ prefix_at bytes.now }
{
    let (seen, rest) = LegacyPrefixes::read(bytes);
    let Some((first, behind)) = next(rest) else {
        return Some((without_rex(seen), rest));
    };
    if first / 16 == 4 {
        return Some((with_rex(seen, first), behind));
    }
    if begins_with_vex(seen, first) {
        return vex(first, behind);
    }
    Some((without_rex(seen), rest))
}
