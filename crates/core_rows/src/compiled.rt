//! A function of eight instructions.

use cax64_encoder::EncodeError;
use cax64_sink::FixedSink;
use x64_core::ops::arithmetic::{ADDQ_MI_SXB, CMPQ_RM};
use x64_core::ops::control::RETQ_ZO;
use x64_core::ops::moves::MOVQ_RM;
use x64_core::ops::multiplication::IMULQ_RM;
use x64_core::ops::rows::JGE_D32;

const RAX: u8 = 0;

const RSI: u8 = 6;

const RDI: u8 = 7;

/// `fn(a, b) { if a < b { a * b + 1 } else { b } }`, with `a` in `rdi` and `b` in `rsi`.
fn put(code: &mut FixedSink<32>) -> Result<(), EncodeError> {
    CMPQ_RM.regs(RDI, RSI).encode_checked(code)?;
    JGE_D32.imm(12).encode_checked(code)?;
    MOVQ_RM.regs(RAX, RDI).encode_checked(code)?;
    IMULQ_RM.regs(RAX, RSI).encode_checked(code)?;
    ADDQ_MI_SXB.reg(RAX, 1).encode_checked(code)?;
    RETQ_ZO.bare().encode_checked(code)?;
    MOVQ_RM.regs(RAX, RSI).encode_checked(code)?;
    RETQ_ZO.bare().encode_checked(code)
}

#[test]
fn a_function(rt: HostRuntime) {
    let mut code = FixedSink::<32>::new();
    assert!(rt; put(&mut code) == Ok(()));
    let expected = [
        0x48, 0x3B, 0xFE, 0x0F, 0x8D, 0x0C, 0, 0, 0, 0x48, 0x8B, 0xC7, 0x48, 0x0F, 0xAF, 0xC6,
        0x48, 0x83, 0xC0, 0x01, 0xC3, 0x48, 0x8B, 0xC6, 0xC3,
    ];
    assert!(rt; code.bytes() == expected.as_slice());
}
