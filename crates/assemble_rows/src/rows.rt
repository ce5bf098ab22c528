//! Rows whose least layouts were worked out by hand.

use crate::making::{IF_EQUAL, IF_NOT_EQUAL, Piece, items_of, with_labels};
use cax64_address::amode::Amode;
use cax64_address::offset::AmodeOffsetPlusKnownOffset;
use cax64_operand::{Nop, Numbers};
use cax64_register::Gpr;
use cax64_sink::{CodeSink, DeferredTarget, Label, Notice, TrapCode};
use lock_a::lock_addl_mr;
use std::alloc::Global;
use std::num::NonZeroU8;
use x64_assemble::{Item, Layout};
use x64_code_buffer::{CodeBuffer, Condition, Jump};

/// A list, how many bytes it has, some of them by their places, and the places of labels.
struct Row {
    pieces: &'static [Piece],
    len: usize,
    bytes: &'static [(usize, &'static [u8])],
    labels: &'static [(u32, usize)],
}

const ROWS: [Row; 11] = [
    // nothing
    Row {
        pieces: &[],
        len: 0,
        bytes: &[],
        labels: &[],
    },
    // exactly 127 away, and 128
    Row {
        pieces: &[
            Piece::Jump(Jump::Always, 0),
            Piece::Nops(14, Nop::Nine),
            Piece::Nops(1, Nop::One),
            Piece::Bind(0),
        ],
        len: 129,
        bytes: &[(0, &[0xEB, 0x7F])],
        labels: &[(0, 129)],
    },
    Row {
        pieces: &[
            Piece::Jump(Jump::Always, 0),
            Piece::Nops(14, Nop::Nine),
            Piece::Nops(1, Nop::Two),
            Piece::Bind(0),
        ],
        len: 133,
        bytes: &[(0, &[0xE9, 0x80, 0, 0, 0])],
        labels: &[(0, 133)],
    },
    // exactly 128 back, and 129
    Row {
        pieces: &[
            Piece::Bind(0),
            Piece::Nops(14, Nop::Nine),
            Piece::Jump(IF_NOT_EQUAL, 0),
        ],
        len: 128,
        bytes: &[(126, &[0x75, 0x80])],
        labels: &[(0, 0)],
    },
    Row {
        pieces: &[
            Piece::Bind(0),
            Piece::Nops(14, Nop::Nine),
            Piece::Nops(1, Nop::One),
            Piece::Jump(IF_NOT_EQUAL, 0),
        ],
        len: 133,
        bytes: &[(127, &[0x0F, 0x85, 0x7B, 0xFF, 0xFF, 0xFF])],
        labels: &[(0, 0)],
    },
    // the second grows, and pushes out the first
    Row {
        pieces: &[
            Piece::Jump(IF_EQUAL, 0),
            Piece::Jump(Jump::Always, 1),
            Piece::Nops(13, Nop::Nine),
            Piece::Nops(1, Nop::Eight),
            Piece::Bind(0),
            Piece::Nops(1, Nop::Three),
            Piece::Bind(1),
        ],
        len: 139,
        bytes: &[(0, &[0x0F, 0x84, 0x82, 0, 0, 0, 0xE9, 0x80, 0, 0, 0])],
        labels: &[(0, 136), (1, 139)],
    },
    // two over each other, which are both short, or both long
    Row {
        pieces: &[
            Piece::Bind(1),
            Piece::Jump(Jump::Always, 0),
            Piece::Nops(13, Nop::Nine),
            Piece::Nops(1, Nop::Seven),
            Piece::Jump(Jump::Always, 1),
            Piece::Bind(0),
        ],
        len: 128,
        bytes: &[(0, &[0xEB, 0x7E]), (126, &[0xEB, 0x80])],
        labels: &[(0, 128), (1, 0)],
    },
    Row {
        pieces: &[
            Piece::Bind(1),
            Piece::Jump(Jump::Always, 0),
            Piece::Nops(13, Nop::Nine),
            Piece::Nops(1, Nop::Eight),
            Piece::Jump(Jump::Always, 1),
            Piece::Bind(0),
        ],
        len: 135,
        bytes: &[
            (0, &[0xE9, 0x82, 0, 0, 0]),
            (130, &[0xE9, 0x79, 0xFF, 0xFF, 0xFF]),
        ],
        labels: &[(0, 135), (1, 0)],
    },
    // the first grows, and pushes out the second, which leads back
    Row {
        pieces: &[
            Piece::Bind(0),
            Piece::Nops(13, Nop::Nine),
            Piece::Nops(1, Nop::Seven),
            Piece::Jump(Jump::Always, 1),
            Piece::Jump(IF_NOT_EQUAL, 0),
            Piece::Nops(14, Nop::Nine),
            Piece::Bind(1),
        ],
        len: 261,
        bytes: &[(
            124,
            &[0xE9, 0x84, 0, 0, 0, 0x0F, 0x85, 0x79, 0xFF, 0xFF, 0xFF],
        )],
        labels: &[(0, 0), (1, 261)],
    },
    // three
    Row {
        pieces: &[
            Piece::Jump(Jump::If(Condition::A), 0),
            Piece::Jump(Jump::If(Condition::B), 1),
            Piece::Jump(Jump::Always, 2),
            Piece::Nops(13, Nop::Nine),
            Piece::Nops(1, Nop::Six),
            Piece::Bind(0),
            Piece::Nops(1, Nop::Two),
            Piece::Bind(1),
            Piece::Nops(1, Nop::Three),
            Piece::Bind(2),
        ],
        len: 145,
        bytes: &[(
            0,
            &[
                0x0F, 0x87, 0x86, 0, 0, 0, 0x0F, 0x82, 0x82, 0, 0, 0, 0xE9, 0x80, 0, 0, 0,
            ],
        )],
        labels: &[(0, 140), (1, 142), (2, 145)],
    },
    // a call has one length
    Row {
        pieces: &[Piece::Bind(0), Piece::Jump(Jump::Call, 0)],
        len: 5,
        bytes: &[(0, &[0xE8, 0xFB, 0xFF, 0xFF, 0xFF])],
        labels: &[(0, 0)],
    },
];

/// Whether a buffer has the bytes and the labels of a row, and no notice.
fn is_row(buffer: &CodeBuffer<Global>, row: &Row) -> bool {
    let code = buffer.bytes();
    for (at, bytes) in row.bytes {
        let Some(behind) = code.get(*at..) else {
            return false;
        };
        if !behind.starts_with(*bytes) {
            return false;
        }
    }
    for (label, place) in row.labels {
        if buffer.place_of(DeferredTarget::Label(Label(*label))) != Some(*place) {
            return false;
        }
    }
    code.len() == row.len && buffer.notices().is_empty()
}

#[test]
fn rows_are_put_in_their_least_layout(rt: HostRuntime) {
    let mut layout = Layout::new(rt.alloc());
    for row in &ROWS {
        let items = items_of(rt.alloc(), row.pieces).expect(&rt, "memory");
        let mut buffer = with_labels(rt.alloc()).expect(&rt, "memory");
        assert!(rt; layout.assemble(&items, &mut buffer) == Ok(()));
        assert!(rt; is_row(&buffer, row));
    }
}

#[test]
fn lists_stand_behind_each_other(rt: HostRuntime) {
    let mut layout = Layout::new(rt.alloc());
    let mut buffer = with_labels(rt.alloc()).expect(&rt, "memory");
    let first = [Piece::Jump(Jump::Always, 0), Piece::Bind(0)];
    let second = [Piece::Bind(1), Piece::Jump(Jump::Always, 1)];
    for pieces in [first, second] {
        let items = items_of(rt.alloc(), &pieces).expect(&rt, "memory");
        assert!(rt; layout.assemble(&items, &mut buffer) == Ok(()));
    }
    assert!(rt; buffer.bytes() == [0xEB, 0, 0xEB, 0xFE].as_slice());
    assert!(rt; buffer.place_of(DeferredTarget::Label(Label(0))) == Some(2));
    assert!(rt; buffer.place_of(DeferredTarget::Label(Label(1))) == Some(2));
}

/// A memory operand refers to a label of the list, and is told as ever.
#[test]
fn an_instruction_tells_of_its_target(rt: HostRuntime) {
    let mut layout = Layout::new(rt.alloc());
    let mut buffer = with_labels(rt.alloc()).expect(&rt, "memory");
    let target = DeferredTarget::Label(Label(1));
    let addition = lock_addl_mr::<Numbers>::new(Amode::RipRelative { target }, Gpr::new(1));
    let items = [
        Item::Bind(Label(0)),
        Item::Inst(addition),
        Item::Jump(IF_NOT_EQUAL, Label(0)),
        Item::Bind(Label(1)),
    ];
    assert!(rt; layout.assemble(&items, &mut buffer) == Ok(()));
    assert!(rt; buffer.notices() == [Notice::Target(3, target)].as_slice());
    let code = buffer.finish().ok().expect(&rt, "code");
    let end = [0xF0, 0x01, 0x0D, 2, 0, 0, 0, 0x75, 0xF7];
    assert!(rt; code.as_slice() == end.as_slice());
}

const TRAP: TrapCode = TrapCode(NonZeroU8::MIN);

/// An addition to memory that may trap.
fn trapping() -> Item<lock_addl_mr<Numbers>> {
    let place = Amode::ImmReg {
        base: 1,
        simm32: AmodeOffsetPlusKnownOffset::ZERO,
        trap: Some(TRAP),
    };
    Item::Inst(lock_addl_mr::<Numbers>::new(place, Gpr::new(1)))
}

/// A trap, a target and an open jump are told in the order of the list, and a jump within it isn't.
#[test]
fn all_is_told_in_order(rt: HostRuntime) {
    let mut layout = Layout::new(rt.alloc());
    let mut buffer = with_labels(rt.alloc()).expect(&rt, "memory");
    let label = Label(2);
    let target = DeferredTarget::Label(label);
    let relative = lock_addl_mr::<Numbers>::new(Amode::RipRelative { target }, Gpr::new(1));
    let items = [
        Item::Bind(Label(0)),
        Item::Jump(Jump::Call, label),
        trapping(),
        Item::Jump(Jump::Always, Label(0)),
        Item::Inst(relative),
        trapping(),
        Item::Jump(IF_EQUAL, label),
    ];
    assert!(rt; layout.assemble(&items, &mut buffer) == Ok(()));
    let told = [
        Notice::Target(1, target),
        Notice::Trap(5, TRAP),
        Notice::Target(13, target),
        Notice::Trap(17, TRAP),
        Notice::Target(22, target),
    ];
    assert!(rt; buffer.notices() == told.as_slice());
}

/// What jumps to a label that the list doesn't bind is open until all is finished.
#[test]
fn a_jump_out_of_the_list_is_left_open(rt: HostRuntime) {
    let mut layout = Layout::new(rt.alloc());
    let mut buffer = with_labels(rt.alloc()).expect(&rt, "memory");
    let pieces = [
        Piece::Jump(Jump::Call, 2),
        Piece::Jump(IF_EQUAL, 2),
        Piece::Nops(1, Nop::One),
    ];
    let items = items_of(rt.alloc(), &pieces).expect(&rt, "memory");
    assert!(rt; layout.assemble(&items, &mut buffer) == Ok(()));
    let open = [0xE8, 0, 0, 0, 0, 0x0F, 0x84, 0, 0, 0, 0, 0x90];
    assert!(rt; buffer.bytes() == open.as_slice());
    let target = DeferredTarget::Label(Label(2));
    let told = [Notice::Target(1, target), Notice::Target(7, target)];
    assert!(rt; buffer.notices() == told.as_slice());
    assert!(rt; buffer.bind(Label(2)).is_ok());
    let code = buffer.finish().ok().expect(&rt, "code");
    let closed = [0xE8, 7, 0, 0, 0, 0x0F, 0x84, 1, 0, 0, 0, 0x90];
    assert!(rt; code.as_slice() == closed.as_slice());
}

/// Behind data that refers to its own beginning by hand, a list reaches a label that the buffer has bound by four bytes.
#[test]
fn a_list_stands_behind_data(rt: HostRuntime) {
    let mut layout = Layout::new(rt.alloc());
    let mut buffer = with_labels(rt.alloc()).expect(&rt, "memory");
    assert!(rt; buffer.bind(Label(2)).is_ok());
    let top = DeferredTarget::Label(Label(2));
    assert!(rt; buffer.use_target(top) == Ok(()));
    assert!(rt; buffer.put4(0) == Ok(()));
    let pieces = [
        Piece::Bind(0),
        Piece::Nops(1, Nop::One),
        Piece::Jump(Jump::Always, 0),
        Piece::Jump(Jump::Always, 2),
    ];
    let items = items_of(rt.alloc(), &pieces).expect(&rt, "memory");
    assert!(rt; layout.assemble(&items, &mut buffer) == Ok(()));
    let told = [Notice::Target(0, top), Notice::Target(8, top)];
    assert!(rt; buffer.notices() == told.as_slice());
    assert!(rt; buffer.place_of(DeferredTarget::Label(Label(0))) == Some(4));
    let code = buffer.finish().ok().expect(&rt, "code");
    let all = [
        0xFC, 0xFF, 0xFF, 0xFF, 0x90, 0xEB, 0xFD, 0xE9, 0xF4, 0xFF, 0xFF, 0xFF,
    ];
    assert!(rt; code.as_slice() == all.as_slice());
}
