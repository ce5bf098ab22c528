//! The bytes that VEX and EVEX prefixes are put together of.

ghost use Rattle.std.specs.Prelude.{◌≡◌, ◌+◌, ◌-◌, ◌*◌, ◌/◌, ◌%◌, ◌<◌};
ghost use Rattle.std.specs.Int.{from_bool};

/// Bit 3 of a register's number, as it is stored.
pub fn invert_top_bit(enc: u8) -> u8
    ensures { result ≡ 1 - enc / 8 % 2 }
{
    !(enc >> 3) & 1
}

/// R', X' and B', and what a form keeps in the five bits below them.
pub fn register_byte(reg: u8, index: u8, base: u8, low: u8) -> u8
    requires { low < 32 }
    ensures { result ≡ (1 - reg / 8 % 2) * 128 + (1 - index / 8 % 2) * 64 + (1 - base / 8 % 2) * 32 + low }
{
    let r = invert_top_bit(reg);
    let x = invert_top_bit(index);
    let b = invert_top_bit(base);
    r << 7 | x << 6 | b << 5 | low
}

/// W, or R' in a two-byte VEX prefix; vvvv'; L, U or a fixed bit; and pp.
pub fn operation_byte(top: u8, vvvv: u8, bit: u8, pp: u8) -> u8
    requires top { top < 2 }
    requires bit { bit < 2 }
    requires pp { pp < 4 }
    ensures { result ≡ top * 128 + (15 - vvvv % 16) * 8 + bit * 4 + pp }
{
    top << 7 | (!vvvv & 0b1111) << 3 | bit << 2 | pp
}
