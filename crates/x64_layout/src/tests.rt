//! Rows of spans whose least layouts are known, and rows that are made to take long.

use crate::least::lay_out;
use crate::{Span, are_spans, least_layout};
use std::alloc::{AllocError, Global};
use std::process::Abort;

/// What stands in a row.
#[derive(Clone, Copy, Debug)]
enum Piece {
    /// So many instructions of so many bytes each.
    Plain(usize, u8),
    /// A jump, of two bytes or five.
    Jump(u32),
    /// A jump on a condition, of two bytes or six.
    If(u32),
    /// A call, of five bytes.
    Call,
}

/// A row, the lengths of some of its spans and the positions of some.
struct Row {
    pieces: &'static [Piece],
    lens: &'static [(usize, u8)],
    places: &'static [(usize, u32)],
}

const ROWS: [Row; 12] = [
    // two bytes away to the next, and back to itself
    Row {
        pieces: &[Piece::Jump(1)],
        lens: &[(0, 2)],
        places: &[(0, 0), (1, 2)],
    },
    Row {
        pieces: &[Piece::Jump(0)],
        lens: &[(0, 2)],
        places: &[(0, 0), (1, 2)],
    },
    // exactly 127 away, and 128
    Row {
        pieces: &[Piece::Jump(16), Piece::Plain(14, 9), Piece::Plain(1, 1)],
        lens: &[(0, 2)],
        places: &[(16, 129)],
    },
    Row {
        pieces: &[Piece::Jump(16), Piece::Plain(14, 9), Piece::Plain(1, 2)],
        lens: &[(0, 5)],
        places: &[(16, 133)],
    },
    // exactly 128 back, and 129
    Row {
        pieces: &[Piece::Plain(14, 9), Piece::If(0)],
        lens: &[(14, 2)],
        places: &[(15, 128)],
    },
    Row {
        pieces: &[Piece::Plain(14, 9), Piece::Plain(1, 1), Piece::If(0)],
        lens: &[(15, 6)],
        places: &[(16, 133)],
    },
    // the second grows, and pushes out the first
    Row {
        pieces: &[
            Piece::If(16),
            Piece::Jump(17),
            Piece::Plain(13, 9),
            Piece::Plain(1, 8),
            Piece::Plain(1, 3),
        ],
        lens: &[(0, 6), (1, 5)],
        places: &[(16, 136), (17, 139)],
    },
    // two over each other: who begins with long ones keeps them
    Row {
        pieces: &[
            Piece::Jump(16),
            Piece::Plain(13, 9),
            Piece::Plain(1, 7),
            Piece::Jump(0),
        ],
        lens: &[(0, 2), (15, 2)],
        places: &[(16, 128)],
    },
    Row {
        pieces: &[
            Piece::Jump(16),
            Piece::Plain(13, 9),
            Piece::Plain(1, 8),
            Piece::Jump(0),
        ],
        lens: &[(0, 5), (15, 5)],
        places: &[(16, 135)],
    },
    // the first grows, and pushes out the second, which leads back
    Row {
        pieces: &[
            Piece::Plain(13, 9),
            Piece::Plain(1, 7),
            Piece::Jump(30),
            Piece::If(0),
            Piece::Plain(14, 9),
        ],
        lens: &[(14, 5), (15, 6)],
        places: &[(30, 261)],
    },
    // three
    Row {
        pieces: &[
            Piece::If(17),
            Piece::If(18),
            Piece::Jump(19),
            Piece::Plain(13, 9),
            Piece::Plain(1, 6),
            Piece::Plain(1, 2),
            Piece::Plain(1, 3),
        ],
        lens: &[(0, 6), (1, 6), (2, 5)],
        places: &[(17, 140), (18, 142), (19, 145)],
    },
    // a call has one length
    Row {
        pieces: &[Piece::Call, Piece::Jump(0)],
        lens: &[(0, 5), (1, 2)],
        places: &[(1, 5), (2, 7)],
    },
];

/// Puts the spans of a piece behind others.
fn push_piece(spans: &mut Vec<Span>, piece: Piece) -> Result<(), AllocError> {
    let (count, least, more, spot) = match piece {
        Piece::Plain(count, least) => (count, least, 0, None),
        Piece::Jump(spot) => (1, 2, 3, Some(spot)),
        Piece::If(spot) => (1, 2, 4, Some(spot)),
        Piece::Call => (1, 5, 0, None),
    };
    for _ in 0..count {
        spans.push(Span { least, more, spot })?;
    }
    Ok(())
}

/// Lengths, positions, and how many spans were looked at.
#[derive(Drop)]
pub(crate) struct Laid {
    pub lens: Vec<u8>,
    pub places: Vec<u32>,
    pub looks: u64,
}

/// Lays a row out, in memory that holds something else before; and once more, to count the looks.
pub(crate) fn laid_out(rt: &impl Abort, alloc: Global, spans: &[Span]) -> Result<Laid, AllocError> {
    assert!(rt; are_spans(spans));
    let count = spans.len();
    let mut lens = vec![in alloc; 0xFFu8; count]?;
    let mut places = vec![in alloc; 0xFFFF_FFFFu32; count + 1]?;
    let mut rooms = vec![in alloc; 0u8; count]?;
    least_layout(spans, &mut lens, &mut places, &mut rooms);
    let looks = lay_out(spans, &mut lens, &mut places, &mut rooms);
    Ok(Laid {
        lens,
        places,
        looks,
    })
}

#[test]
fn rows_have_their_least_lengths(rt: HostRuntime) -> Result<(), AllocError> {
    for row in &ROWS {
        let mut spans = Vec::new(rt.alloc());
        for piece in row.pieces {
            push_piece(&mut spans, *piece)?;
        }
        let laid = laid_out(&rt, rt.alloc(), &spans)?;
        for (n, len) in row.lens {
            assert!(rt; laid.lens.get(*n).copied() == Some(*len));
        }
        for (n, place) in row.places {
            assert!(rt; laid.places.get(*n).copied() == Some(*place));
        }
    }
    Ok(())
}

#[test]
fn no_entries_end_where_they_begin(rt: HostRuntime) {
    let mut places = [7];
    assert!(rt; are_spans(&[]));
    least_layout(&[], &mut [], &mut places, &mut []);
    assert!(rt; places == [0]);
}

#[test]
fn what_is_no_row_is_told(rt: HostRuntime) {
    let long = Span {
        least: 2,
        more: 12,
        spot: None,
    };
    assert!(rt; !are_spans(&[long]));
    let away = Span {
        least: 2,
        more: 3,
        spot: Some(2),
    };
    assert!(rt; !are_spans(&[away]));
    assert!(rt; are_spans(&[away, away]));
    let wrapping = Span {
        least: 255,
        more: 3,
        spot: None,
    };
    assert!(rt; !are_spans(&[wrapping]));
}

/// How many jumps there are in a row in which each pushes out the next.
const JUMPS: usize = 1000;

/// The last jump doesn't reach. When it has grown the one before it has 128 bytes and more to go, and so on.
#[test]
fn a_row_of_jumps_that_push_out_those_before_takes_few_looks(
    rt: HostRuntime,
) -> Result<(), AllocError> {
    let mut spans = Vec::new(rt.alloc());
    for n in 0..JUMPS {
        // behind the next jump and 17 bytes, at 127; the last jump leads to the end
        let spot = if n + 1 < JUMPS {
            14 * n as u32 + 17
        } else {
            14 * JUMPS as u32 + 2
        };
        push_piece(&mut spans, Piece::If(spot))?;
        push_piece(&mut spans, Piece::Plain(1, 9))?;
        push_piece(&mut spans, Piece::Plain(1, 8))?;
        push_piece(&mut spans, Piece::Plain(10, 9))?;
        push_piece(&mut spans, Piece::Plain(1, 1))?;
    }
    push_piece(&mut spans, Piece::Plain(1, 13))?;
    push_piece(&mut spans, Piece::Plain(1, 13))?;
    let laid = laid_out(&rt, rt.alloc(), &spans)?;
    for n in 0..JUMPS {
        assert!(rt; laid.lens.get(14 * n).copied() == Some(6));
    }
    assert!(rt; laid.looks / 40 <= spans.len() as u64);
    Ok(())
}

/// The first jump doesn't reach back. When it has grown the one behind it has 129 bytes and more to go back, and so on.
#[test]
fn a_row_of_jumps_that_push_out_those_behind_takes_few_looks(
    rt: HostRuntime,
) -> Result<(), AllocError> {
    let mut spans = Vec::new(rt.alloc());
    push_piece(&mut spans, Piece::Plain(2, 13))?;
    for n in 0..JUMPS {
        // back over the jump before and 16 bytes, at -128; the first jump leads to the beginning
        let spot = if n > 0 { 14 * n as u32 - 1 } else { 0 };
        push_piece(&mut spans, Piece::Plain(10, 9))?;
        push_piece(&mut spans, Piece::Plain(1, 2))?;
        push_piece(&mut spans, Piece::Plain(1, 9))?;
        push_piece(&mut spans, Piece::Plain(1, 7))?;
        push_piece(&mut spans, Piece::Jump(spot))?;
    }
    let laid = laid_out(&rt, rt.alloc(), &spans)?;
    for n in 0..JUMPS {
        assert!(rt; laid.lens.get(14 * n + 15).copied() == Some(5));
    }
    assert!(rt; laid.looks / 40 <= spans.len() as u64);
    Ok(())
}
