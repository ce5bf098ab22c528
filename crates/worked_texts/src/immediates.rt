//! Texts of immediates.

use crate::parts::is;
use cax64_immediate::{Extension, Imm8, Imm16, Imm32, Imm64, Simm8, Simm16, Simm32};

#[test]
fn unsigned_immediates_print(rt: HostRuntime) {
    let alloc = rt.alloc();
    assert!(rt; is(Imm8::new(0xAA).to_string(alloc), "$0xaa"));
    assert!(rt; is(Imm16::new(0).to_string(alloc), "$0x0"));
    assert!(rt; is(Imm32::from(-1).to_string(alloc), "$0xffffffff"));
    assert!(rt; is(Imm64::new(u64::MAX).to_string(alloc), "$0xffffffffffffffff"));
}

#[test]
fn signed_immediates_print_extended(rt: HostRuntime) {
    let alloc = rt.alloc();
    let (byte, word, long) = (Simm8::new(-2), Simm16::new(-2), Simm32::new(-2));
    assert!(rt; is(byte.to_string(alloc, Extension::None), "$0xfe"));
    assert!(rt; is(byte.to_string(alloc, Extension::SignExtendWord), "$0xfffe"));
    assert!(rt;
        is(
            word.to_string(alloc, Extension::SignExtendLong),
            "$0xfffffffe"
        )
    );
    assert!(rt;
        is(
            long.to_string(alloc, Extension::SignExtendQuad),
            "$0xfffffffffffffffe"
        )
    );
    assert!(rt; byte.fits_extension(Extension::SignExtendWord));
    assert!(rt; !word.fits_extension(Extension::SignExtendWord));
    assert!(rt; !long.fits_extension(Extension::SignExtendLong));
}
