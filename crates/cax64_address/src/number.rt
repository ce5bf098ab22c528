//! Numbers as texts, digit by digit: the formatting of `write!` is made for more than that, takes several times as long,
//! and says nothing of the text where memory is refused.

ghost use Rattle.std.specs.Prelude.{◌≡◌, ◌++◌, ◌∷◌, ◌+◌, ◌-◌, ◌<◌, ◌≤◌, [], OnErr, OnOk, false, length, nat_le, string_bytes, string_capacity, string_len};
ghost use Rattle.std.specs.Fmt.{decimal, digit_glyph, digits};
ghost use Rattle.cax64_machine_code.specs.Sequence.{IsFront};
ghost use Rattle.cax64_address.specs.Digits.{eight_digits, four_digits, two_digits};
ghost use Rattle.cax64_address.specs.Text.{hexadecimal, short_number};

use crate::refused::or_taken_back;
use std::alloc::{AllocError, Allocator};

/// The most hexadecimal digits of a number.
const DIGITS: usize = 16;

/// Whether so many bytes can be added with no more memory.
#[inline(always)]
pub fn has_room<A: Allocator>(out: &String<A>, bytes: usize) -> bool
    ensures { result ≡ nat_le bytes (string_capacity out.now - string_len out.now) }
{
    bytes <= out.capacity().saturating_sub(out.len())
}

/// A hexadecimal digit. A match becomes a table, which takes less than a comparison and two sums.
#[inline(always)]
fn glyph(digit: u8) -> char
    requires { digit < 16 }
    ensures value { result ≡ digit_glyph false digit }
    ensures ascii { result < 128 }
{
    match digit {
        0 => '0',
        1 => '1',
        2 => '2',
        3 => '3',
        4 => '4',
        5 => '5',
        6 => '6',
        7 => '7',
        8 => '8',
        9 => '9',
        10 => 'a',
        11 => 'b',
        12 => 'c',
        13 => 'd',
        14 => 'e',
        _ => 'f',
    }
}

#[inline(always)]
fn push_digit<A: Allocator>(out: &mut String<A>, digit: u8) -> Result<(), AllocError>
    requires { digit < 16 }
    ensures text { OnOk result (string_bytes out.new ≡ string_bytes out.old ++ digit_glyph false digit ∷ []) }
    ensures front { IsFront (string_bytes out.old) (string_bytes out.new) }
{
    out.push(glyph(digit))
}

/// Adds both digits of a byte.
#[inline(always)]
fn push_two<A: Allocator>(out: &mut String<A>, byte: u8) -> Result<(), AllocError>
    ensures text { OnOk result (string_bytes out.new ≡ string_bytes out.old ++ two_digits byte) }
    ensures front { IsFront (string_bytes out.old) (string_bytes out.new) }
{
    push_digit(out, byte / 16)?;
    push_digit(out, byte % 16)
}

/// Adds all four digits.
#[inline(always)]
fn push_four<A: Allocator>(out: &mut String<A>, word: u16) -> Result<(), AllocError>
    ensures text { OnOk result (string_bytes out.new ≡ string_bytes out.old ++ four_digits word) }
    ensures front { IsFront (string_bytes out.old) (string_bytes out.new) }
{
    push_two(out, (word / 256) as u8)?;
    push_two(out, (word % 256) as u8)
}

/// Adds all eight digits.
#[inline(never)]
fn push_eight<A: Allocator>(out: &mut String<A>, word: u32) -> Result<(), AllocError>
    ensures text { OnOk result (string_bytes out.new ≡ string_bytes out.old ++ eight_digits word) }
    ensures front { IsFront (string_bytes out.old) (string_bytes out.new) }
{
    push_four(out, (word / 65536) as u16)?;
    push_four(out, (word % 65536) as u16)
}

#[tactic(auto, using(std::proofs::lemmas::Fmt::hex_one_digit, std::proofs::lemmas::Fmt::hex_two_digits))]
#[inline(always)]
fn push_hex8<A: Allocator>(out: &mut String<A>, number: u8) -> Result<(), AllocError>
    ensures text { OnOk result (string_bytes out.new ≡ string_bytes out.old ++ digits 16 false number) }
    ensures front { IsFront (string_bytes out.old) (string_bytes out.new) }
{
    if number < 16 {
        push_digit(out, number)
    } else {
        push_two(out, number)
    }
}

#[inline(always)]
fn push_hex16<A: Allocator>(out: &mut String<A>, number: u16) -> Result<(), AllocError>
    ensures text { OnOk result (string_bytes out.new ≡ string_bytes out.old ++ digits 16 false number) }
    ensures front { IsFront (string_bytes out.old) (string_bytes out.new) }
{
    if number < 256 {
        return push_hex8(out, number as u8);
    }
    push_hex8(out, (number / 256) as u8)?;
    push_two(out, (number % 256) as u8)
}

#[inline(never)]
fn push_hex32<A: Allocator>(out: &mut String<A>, number: u32) -> Result<(), AllocError>
    ensures text { OnOk result (string_bytes out.new ≡ string_bytes out.old ++ digits 16 false number) }
    ensures front { IsFront (string_bytes out.old) (string_bytes out.new) }
{
    if number < 65536 {
        return push_hex16(out, number as u16);
    }
    push_hex16(out, (number / 65536) as u16)?;
    push_four(out, (number % 65536) as u16)
}

/// Adds the hexadecimal digits.
fn add_hex_digits<A: Allocator>(out: &mut String<A>, number: u64) -> Result<(), AllocError>
    ensures text { OnOk result (string_bytes out.new ≡ string_bytes out.old ++ digits 16 false number) }
    ensures front { IsFront (string_bytes out.old) (string_bytes out.new) }
{
    if number < 4_294_967_296 {
        return push_hex32(out, number as u32);
    }
    push_hex32(out, (number / 4_294_967_296) as u32)?;
    push_eight(out, (number % 4_294_967_296) as u32)
}

/// Adds the decimal digits.
#[tactic(auto, using(std::proofs::lemmas::Fmt::decimal_digit))]
pub(crate) fn add_decimal<A: Allocator>(out: &mut String<A>, byte: u8) -> Result<(), AllocError>
    ensures text { OnOk result (string_bytes out.new ≡ string_bytes out.old ++ decimal byte) }
    ensures front { IsFront (string_bytes out.old) (string_bytes out.new) }
{
    if byte < 10 {
        return push_digit(out, byte);
    }
    add_decimal(out, byte / 10)?;
    push_digit(out, byte % 10)
}

/// How many hexadecimal digits a number has.
fn count_digits(number: u64) -> usize
    ensures is { result ≡ length (digits 16 false number) }
    ensures below { result ≤ 16 }
{
    if number < 16 {
        1
    } else {
        1 + count_digits(number / 16)
    }
}

/// Asks for memory for so many bytes and the digits, and for no more than that, since the room may not do for any number.
#[cold]
#[inline(never)]
fn reserve_digits<A: Allocator>(
    out: &mut String<A>,
    before: usize,
    number: u64,
) -> Result<(), AllocError>
    requires { before < 3 }
    ensures { string_bytes out.new ≡ string_bytes out.old }
{
    out.reserve(before + count_digits(number))
}

/// Sees to it that there is room for so many bytes and the digits.
#[inline(always)]
fn prepare<A: Allocator>(out: &mut String<A>, before: usize, number: u64) -> Result<(), AllocError>
    requires { before < 3 }
    ensures { string_bytes out.new ≡ string_bytes out.old }
{
    if has_room(out, before + DIGITS) {
        Ok(())
    } else {
        reserve_digits(out, before, number)
    }
}

/// Adds `0x` and the hexadecimal digits.
pub(crate) fn add_hexadecimal<A: Allocator>(
    out: &mut String<A>,
    number: u64,
) -> Result<(), AllocError>
    ensures text { OnOk result (string_bytes out.new ≡ string_bytes out.old ++ hexadecimal number) }
    ensures front { IsFront (string_bytes out.old) (string_bytes out.new) }
{
    prepare(out, 2, number)?;
    out.push_str("0x")?;
    add_hex_digits(out, number)
}

/// Adds one decimal digit up to 9, and beyond `0x` and the hexadecimal digits.
#[tactic(auto, using(std::proofs::lemmas::Fmt::decimal_digit))]
pub(crate) fn add_short_number<A: Allocator>(
    out: &mut String<A>,
    number: u64,
) -> Result<(), AllocError>
    ensures text { OnOk result (string_bytes out.new ≡ string_bytes out.old ++ short_number number) }
    ensures front { IsFront (string_bytes out.old) (string_bytes out.new) }
{
    if number < 10 {
        push_digit(out, number as u8)
    } else {
        add_hexadecimal(out, number)
    }
}

/// Adds the hexadecimal digits, in lower case and without leading zeros, or nothing.
pub fn push_hex_digits<A: Allocator>(out: &mut String<A>, number: u64) -> Result<(), AllocError>
    ensures text { OnOk result (string_bytes out.new ≡ string_bytes out.old ++ digits 16 false number) }
    ensures kept { OnErr result (string_bytes out.new ≡ string_bytes out.old) }
{
    prepare(out, 0, number)?;
    let len = out.len();
    let added = add_hex_digits(out, number);
    or_taken_back(out, len, added)
}

/// Adds `0x` and the hexadecimal digits, or nothing.
pub fn push_hexadecimal<A: Allocator>(out: &mut String<A>, number: u64) -> Result<(), AllocError>
    ensures text { OnOk result (string_bytes out.new ≡ string_bytes out.old ++ hexadecimal number) }
    ensures kept { OnErr result (string_bytes out.new ≡ string_bytes out.old) }
{
    let len = out.len();
    let added = add_hexadecimal(out, number);
    or_taken_back(out, len, added)
}

/// Adds one decimal digit up to 9, and beyond `0x` and the hexadecimal digits, or nothing.
pub fn push_short_number<A: Allocator>(out: &mut String<A>, number: u64) -> Result<(), AllocError>
    ensures text { OnOk result (string_bytes out.new ≡ string_bytes out.old ++ short_number number) }
    ensures kept { OnErr result (string_bytes out.new ≡ string_bytes out.old) }
{
    let len = out.len();
    let added = add_short_number(out, number);
    or_taken_back(out, len, added)
}
