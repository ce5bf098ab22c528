//! Texts of addresses, and of a register that an instruction fixes.

use crate::parts::{base, indexed, is};
use cax64_address::amode::{Amode, Scale};
use cax64_address::offset::{AmodeOffset, AmodeOffsetPlusKnownOffset};
use cax64_address::text::Dialect;
use cax64_register::{AsReg, Fixed, Size};
use cax64_test_support::Named;
use cax64_text::laws::laws_of_texts;
use std::alloc::Global;

const LATE: Amode<u8> = Amode::ImmReg {
    base: 4,
    simm32: AmodeOffsetPlusKnownOffset {
        simm32: AmodeOffset::ZERO,
        offset: Some(7),
    },
    trap: None,
};

fn prints<R: AsReg>(alloc: Global, amode: Amode<R>, att: &str, xed: &str) -> bool {
    amode.nameable()
        && is(amode.to_string_in(alloc, Dialect::Att), att)
        && is(amode.to_string_in(alloc, Dialect::Xed), xed)
}

#[test]
fn addresses_print_in_both_dialects(rt: HostRuntime) {
    let alloc = rt.alloc();
    let least = base(0u8, -2147483648);
    assert!(rt; prints(alloc, least, "-0x80000000(%rax)", "-0x80000000(%rax)"));
    assert!(rt; prints(alloc, LATE, "<offset:7>+(%rsp)", "<offset:7>+(%rsp)"));
    let plain = indexed(13, 9, Scale::One, 0);
    assert!(rt; prints(alloc, plain, "(%r13, %r9)", "(%r13,%r9,1)"));
    assert!(rt; prints(alloc, base(Named(130), 8), "8(v130)", "0x8(v130)"));
    assert!(rt; !base(16u8, 0).nameable());
    laws_of_texts::<u8>();
}

#[test]
fn displacements_print_in_both_dialects(rt: HostRuntime) {
    let alloc = rt.alloc();
    let late = AmodeOffsetPlusKnownOffset {
        simm32: AmodeOffset::new(9),
        offset: Some(7),
    };
    assert!(rt; is(late.to_string_in(alloc, Dialect::Att), "<offset:7>+9"));
    assert!(rt; is(late.to_string_in(alloc, Dialect::Xed), "<offset:7>+0x9"));
    assert!(rt; is(AmodeOffset::ZERO.to_string_in(alloc, Dialect::Xed), ""));
    assert!(rt;
        is(
            AmodeOffset::new(-10).to_string_in(alloc, Dialect::Att),
            "-0xa"
        )
    );
}

#[test]
fn a_fixed_register_prints_as_the_register_held(rt: HostRuntime) {
    let held = Fixed::<u8, 0>(9);
    assert!(rt; held.nameable());
    assert!(rt; is(held.to_string(rt.alloc(), Some(Size::Word)), "%r9w"));
    assert!(rt; is(held.to_string(rt.alloc(), None), "%xmm9"));
}
