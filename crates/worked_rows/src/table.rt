//! The packed table, what is read from the front of bytes, and how rows are found, each call once.

use cax64_machine_code::line::{
    ImmField, LegacySet, Line, Opcode, PlaceField, PrefixField, RegField, TailField,
};
use cax64_machine_code::row::Row;
use cax64_table::cursor::{next, opcode_at};
use cax64_table::legacy::LegacyPrefixes;
use cax64_table::line;
use cax64_table::prefix::PrefixNumbers;
use cranelift_assembler_x64::reader::read_inst;

const LOCK: LegacySet = LegacySet {
    lock: true,
    operand_size: false,
    repne: false,
    rep: false,
};

#[test]
fn a_line_is_unpacked(rt: HostRuntime) {
    let add = Line {
        prefix: PrefixField::LegacyField(LOCK, true),
        w: Some(1),
        opcode: Opcode {
            escape: false,
            byte: 0x81,
        },
        tail: TailField::Modrm(RegField::Digit(0), PlaceField::Memory),
        imm: ImmField::Simm(4),
    };
    assert!(rt; line(Row::lock_addq_mi_sxl) == add);
}

/// A row, and how many bytes were read of it.
fn row_of(bytes: &[u8]) -> Option<(Row, u8)> {
    read_inst(bytes).map(|reading| (reading.row, reading.length))
}

#[test]
fn rows_are_found(rt: HostRuntime) {
    // F0 49: lock, and a REX byte whose W is 1.
    let exchange = row_of(&[0xF0, 0x49, 0x0F, 0xC1, 0x08]);
    assert!(rt; exchange == Some((Row::lock_xaddq_mr, 5)));
    let add = row_of(&[0xF0, 0x49, 0x81, 0x00, 1, 2, 3, 4]);
    assert!(rt; add == Some((Row::lock_addq_mi_sxl, 8)));
    // C5 E0: VEX in the map 0F with no pp, L and W 0, and a register in vvvv.
    assert!(rt; row_of(&[0xC5, 0xE0, 0xC2, 0xC1, 0]) == Some((Row::vcmpps_b, 5)));
    assert!(rt; row_of(&[0xC5, 0xE0, 0x81, 0x00]) == None);
    assert!(rt; row_of(&[0xC5, 0xE0, 0x0F, 0x54, 0x00]) == None);
    // Lines of the core that are no rows: add eax, ecx; and the one behind the last row.
    assert!(rt; row_of(&[0x03, 0xC1]) == None);
    assert!(rt; row_of(&[0x04, 0x01]) == None);
}

/// Each prefix may come once, and F2 not beside F3.
#[test]
fn prefixes_are_read(rt: HostRuntime) {
    for (bytes, left) in [
        ([0x66, 0xF0, 0x66, 0x90], 2),
        ([0xF2, 0xF0, 0xF3, 0x90], 2),
        ([0xF3, 0x66, 0xF0, 0x90], 1),
        ([0x40, 0x66, 0xF0, 0x90], 4),
    ] {
        let (seen, rest) = LegacyPrefixes::read(&bytes);
        assert!(rt; rest.len() == left);
        assert!(rt; seen.is_empty() == (left == 4));
    }
}

/// The low of a prefix, W, and L or 1 of a REX byte.
fn parts_of(numbers: PrefixNumbers) -> (u8, bool, Option<u8>) {
    (numbers.low(), numbers.w(), numbers.high())
}

#[test]
fn prefixes_have_numbers(rt: HostRuntime) {
    let (both, _) = LegacyPrefixes::read(&[0xF0, 0x66]);
    assert!(rt; parts_of(PrefixNumbers::legacy(both, Some(true))) == (3, true, Some(1)));
    assert!(rt; parts_of(PrefixNumbers::legacy(both, None)) == (3, false, None));
    // pp 1 in the map 0F 38, with L.
    assert!(rt; parts_of(PrefixNumbers::vex(1, 2, 1, false)) == (33, false, Some(1)));
}

#[test]
fn bytes_are_taken_from_the_front(rt: HostRuntime) {
    assert!(rt; next(&[1, 2, 3]).map(|found| (found.0, found.1.len())) == Some((1, 2)));
    assert!(rt; next(&[]).is_none());
}

#[test]
fn opcodes_are_taken_from_the_front(rt: HostRuntime) {
    let plain = Opcode {
        escape: false,
        byte: 0x81,
    };
    let escaped = Opcode {
        escape: true,
        byte: 0xC1,
    };
    assert!(rt; opcode_at(&[0x81, 0x00]).map(|found| (found.0, found.1.len())) == Some((plain, 1)));
    assert!(rt;
        opcode_at(&[0x0F, 0xC1, 0x08]).map(|found| (found.0, found.1.len())) == Some((escaped, 1))
    );
    assert!(rt; opcode_at(&[0x0F]).is_none());
}
