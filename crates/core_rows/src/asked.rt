//! What lines are asked: their row, and whether they can be used.

use cax64_feature::Feature;
use cax64_feature::rows::second_feature;
use cax64_machine_code::row::Row;
use x64_core::ops::bits::{LZCNTQ_RM, POPCNTL_RM};
use x64_core::ops::moves::MOVQ_RM;
use x64_core::ops::scalar::ADDSD_A;
use x64_lines::{Extension, Extensions, Op};

/// Each row is a line, by its number, and `movq`, which is no row's, has none.
#[test]
fn rows_are_lines(rt: HostRuntime) {
    for (number, row) in Row::all().iter().enumerate() {
        let op = Op::of_row(*row);
        assert_eq!(rt; usize::from(op.number()), number);
        assert_eq!(rt; op.row(), Some(*row));
    }
    let last = Op::from_number(158).expect(&rt, "a line");
    assert_eq!(rt; last.row(), None);
    assert_eq!(rt; MOVQ_RM.regs(0, 7).op().row(), None);
}

/// SSE2 is there in each 64-bit processor, `popcnt` and `lzcnt` where they are named. (Intel SDM, volume 2, `POPCNT`, `LZCNT`.)
#[test]
fn extensions_are_looked_at(rt: HostRuntime) {
    let all = Extensions {
        popcnt: true,
        ..Extensions::BASE
    };
    assert!(rt; MOVQ_RM.regs(0, 7).op().is_available(&Extensions::NONE));
    assert!(rt; !ADDSD_A.regs(0, 7).op().is_available(&Extensions::NONE));
    assert!(rt; ADDSD_A.regs(0, 7).op().is_available(&Extensions::BASE));
    assert!(rt; !POPCNTL_RM.regs(0, 7).op().is_available(&Extensions::BASE));
    assert!(rt; POPCNTL_RM.regs(0, 7).op().is_available(&all));
    assert!(rt; !LZCNTQ_RM.regs(0, 7).op().is_available(&all));
}

/// The extension of this name.
fn named(feature: Feature) -> Option<Extension> {
    match feature {
        Feature::_64b | Feature::compat => None,
        Feature::sse => Some(Extension::Sse),
        Feature::sse2 => Some(Extension::Sse2),
        Feature::avx => Some(Extension::Avx),
        Feature::bmi2 => Some(Extension::Bmi2),
        Feature::cmpxchg16b => Some(Extension::Cmpxchg16b),
    }
}

/// The line of a row asks for what the row asks for beside its mode.
#[test]
fn rows_ask_for_their_extension(rt: HostRuntime) {
    for row in Row::all() {
        let asked = match second_feature(*row) {
            Some(feature) => named(feature),
            None => None,
        };
        assert!(rt; Op::of_row(*row).extension() == asked, "{row:?}");
    }
}
