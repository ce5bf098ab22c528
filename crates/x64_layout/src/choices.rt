//! Small rows of random spans, whose layouts are compared with all choices of forms.

ghost use Rattle.std.specs.Prelude.{◌<◌};

use crate::Span;
use crate::tests::laid_out;
use std::alloc::{AllocError, Global};

/// How many rows are tried.
const ROWS: usize = 200;

/// How many spans of two lengths a row has at most.
const MOST_JUMPS: usize = 8;

/// How many spans a row has.
const ENTRIES: u8 = 26;

/// The next of a row of numbers.
fn next(word: u64) -> u64 {
    word.wrapping_mul(0x5851_F42D_4C95_7F2D)
        .wrapping_add(0x1405_7B7E_F767_814F)
}

/// A number below another.
fn below(word: u64, limit: u8) -> u8
    requires { 0 < limit }
    ensures { result < limit }
{
    ((word >> 33) % u64::from(limit)) as u8
}

/// A row whose jumps have some 128 bytes to go.
fn random_row(alloc: Global, seed: u64) -> Result<Vec<Span>, AllocError> {
    let mut spans = Vec::new(alloc);
    let mut word = next(seed);
    let mut jumps = 0;
    for _ in 0..ENTRIES {
        word = next(word);
        let is_jump = jumps < MOST_JUMPS && below(word, 5) < 2;
        word = next(word);
        let span = if is_jump {
            jumps += 1;
            let more = if below(word, 2) == 0 { 3 } else { 4 };
            word = next(word);
            Span {
                least: 2,
                more,
                spot: Some(u32::from(below(word, ENTRIES + 1))),
            }
        } else {
            Span {
                least: 9 + below(word, 5),
                more: 0,
                spot: None,
            }
        };
        spans.push(span)?;
    }
    Ok(spans)
}

/// The position of a span, from the first one's.
fn place(lens: &[u8], n: usize) -> u16 {
    let mut at = 0u16;
    for len in lens.iter().take(n) {
        at = at.wrapping_add(u16::from(*len));
    }
    at
}

/// Whether a span has one of its lengths, and reaches its spot where it has the least.
fn is_right(span: Span, lens: &[u8], n: usize) -> bool {
    let Some(len) = lens.get(n) else {
        return false;
    };
    if *len == span.least.wrapping_add(span.more) {
        return true;
    }
    let reaches = match span.spot {
        None => true,
        Some(spot) => {
            let spot = i32::from(place(lens, spot as usize));
            let distance = spot - i32::from(place(lens, n.saturating_add(1)));
            -128 <= distance && distance <= 127
        }
    };
    *len == span.least && reaches
}

/// Whether all are.
fn is_layout(spans: &[Span], lens: &[u8]) -> bool {
    for (n, span) in spans.iter().enumerate() {
        if !is_right(*span, lens, n) {
            return false;
        }
    }
    true
}

/// The lengths by a choice: from its last bit on one for each span of two lengths.
fn chosen(alloc: Global, spans: &[Span], choice: u32) -> Result<Vec<u8>, AllocError> {
    let mut lens = Vec::new(alloc);
    let mut left = choice;
    for span in spans {
        let is_long = span.more > 0 && left % 2 == 1;
        if span.more > 0 {
            left /= 2;
        }
        lens.push(if is_long {
            span.least.wrapping_add(span.more)
        } else {
            span.least
        })?;
    }
    Ok(lens)
}

/// How many choices there are.
fn choices(spans: &[Span]) -> u32 {
    let mut count = 1u32;
    for span in spans {
        if span.more > 0 {
            count = count.wrapping_mul(2);
        }
    }
    count
}

/// Whether each length is no longer than another.
fn no_longer(lens: &[u8], other: &[u8]) -> bool {
    lens.iter().zip(other).all(|(len, most)| *len <= *most)
}

#[test]
fn no_choice_has_a_shorter_entry(rt: HostRuntime) -> Result<(), AllocError> {
    let mut layouts = 0u64;
    for seed in 0..ROWS {
        let spans = random_row(rt.alloc(), seed as u64)?;
        let laid = laid_out(&rt, rt.alloc(), &spans)?;
        assert!(rt; is_layout(&spans, &laid.lens));
        for choice in 0..choices(&spans) {
            let other = chosen(rt.alloc(), &spans, choice)?;
            if is_layout(&spans, &other) {
                assert!(rt;
                    no_longer(&laid.lens, &other),
                    "row {seed}, choice {choice}"
                );
                layouts = layouts.wrapping_add(1);
            }
        }
    }
    // there are rows of which several choices are layouts
    assert!(rt; layouts > 2 * ROWS as u64);
    Ok(())
}
