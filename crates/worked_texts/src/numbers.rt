//! Digits made one by one are those that the formatting writes.

use cax64_address::number::{push_hex_digits, push_hexadecimal, push_short_number};
use std::alloc::{AllocError, Global};

/// Room for `0x` and the digits of any number.
const ROOM: usize = 18;

/// Whether a number's digits are those that the formatting prints.
fn digits_print(alloc: Global, number: u64) -> Result<bool, AllocError> {
    let mut digits = String::with_capacity(alloc, ROOM)?;
    push_hex_digits(&mut digits, number)?;
    let want = format!(in alloc; "{number:x}")?;
    Ok(digits.as_str() == want.as_str())
}

/// Whether they are so behind `0x`.
fn hexadecimal_prints(alloc: Global, number: u64) -> Result<bool, AllocError> {
    let mut hexadecimal = String::with_capacity(alloc, ROOM)?;
    push_hexadecimal(&mut hexadecimal, number)?;
    let want = format!(in alloc; "0x{number:x}")?;
    Ok(hexadecimal.as_str() == want.as_str())
}

/// Whether it prints as the formatting prints a short number.
fn short_prints(alloc: Global, number: u64) -> Result<bool, AllocError> {
    let mut short = String::with_capacity(alloc, ROOM)?;
    push_short_number(&mut short, number)?;
    let want = if number < 10 {
        format!(in alloc; "{number}")?
    } else {
        format!(in alloc; "0x{number:x}")?
    };
    Ok(short.as_str() == want.as_str())
}

/// Whether a number prints as the formatting prints it in each of the three ways.
fn prints(alloc: Global, number: u64) -> Result<bool, AllocError> {
    Ok(
        digits_print(alloc, number)?
            && hexadecimal_prints(alloc, number)?
            && short_prints(alloc, number)?,
    )
}

#[test]
fn numbers_of_each_length_print_as_the_formatting_prints_them(
    rt: HostRuntime,
) -> Result<(), AllocError> {
    let alloc = rt.alloc();
    for shift in 0..64u32 {
        let power = 1u64 << shift;
        assert!(rt; prints(alloc, power)?, "{power}");
        assert!(rt; prints(alloc, power - 1)?, "{power}");
        assert!(rt; prints(alloc, power | 0xA)?, "{power}");
        assert!(rt; prints(alloc, 0x9E37_79B9_7F4A_7C15 >> shift)?, "{power}");
    }
    Ok(())
}

#[test]
fn small_numbers_print_as_the_formatting_prints_them(rt: HostRuntime) -> Result<(), AllocError> {
    let alloc = rt.alloc();
    for number in 0..300u64 {
        assert!(rt; prints(alloc, number)?, "{number}");
    }
    Ok(())
}
