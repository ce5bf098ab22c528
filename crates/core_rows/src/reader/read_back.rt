//! Bytes of single instructions. Operands in the manual's order: what is written first.

use crate::reader::put_and_read::put_and_read;
use crate::reader::words::{at, indexed, is_put_again, reading, reads, register};
use cax64_machine_code::reading::Place;
use x64_core::ops::arithmetic::{ADDQ_MI_SXB, CMPQ_RM, SUBQ_MI_SXL, TESTL_MR};
use x64_core::ops::bits::POPCNTL_RM;
use x64_core::ops::conditions::{CMOVGQ_RM, SETL_M};
use x64_core::ops::control::{PUSHQ_M, RETQ_ZO};
use x64_core::ops::moves::{
    LEAQ_RM, MOVB_MR, MOVL_MI, MOVL_RM, MOVQ_MR, MOVQ_RM, MOVSLQ_RM, MOVZBL_RM,
};
use x64_core::ops::multiplication::{IDIVQ_M, IMULL_RMI, IMULQ_RM};
use x64_core::ops::rows::JGE_D32;
use x64_core::ops::scalar::{ADDSD_A, CVTSI2SDQ_A, MOVSD_C_M};
use x64_core::ops::shifts::{SARL_MI, SHLQ_MC};
use x64_reader::{CoreReading, read_core};

/// Whether bytes are read as this, and are what is put of what was read.
fn both(bytes: &[u8], expected: CoreReading) -> bool {
    reads(bytes, expected) && is_put_again(bytes)
}

/// `movq rax, rdi`; `movl r8d, [rsp]`; `movq [rbp], r13`; `movb [rdi], sil`; `leaq rax, [rdi + 8*rsi - 128]`; `movzbl eax,
/// byte [r12]`; `movslq r9, r10d`; `movl dword [rax + 4], 7`.
#[test]
fn moves(rt: HostRuntime) {
    let none = None;
    assert!(rt;
        both(
            &[0x48, 0x8B, 0xC7],
            reading(MOVQ_RM.op(), 3, 1, Some(0), register(7), none)
        )
    );
    assert!(rt;
        both(
            &[0x44, 0x8B, 0x04, 0x24],
            reading(MOVL_RM.op(), 4, 2, Some(8), at(4, 0), none)
        )
    );
    assert!(rt;
        both(
            &[0x4C, 0x89, 0x6D, 0x00],
            reading(MOVQ_MR.op(), 4, 2, Some(13), at(5, 0), none)
        )
    );
    assert!(rt;
        both(
            &[0x40, 0x88, 0x37],
            reading(MOVB_MR.op(), 3, 1, Some(6), at(7, 0), none)
        )
    );
    let address = indexed(7, (6, 8), -128);
    assert!(rt;
        both(
            &[0x48, 0x8D, 0x44, 0xF7, 0x80],
            reading(LEAQ_RM.op(), 5, 3, Some(0), address, none)
        )
    );
    assert!(rt;
        both(
            &[0x41, 0x0F, 0xB6, 0x04, 0x24],
            reading(MOVZBL_RM.op(), 5, 2, Some(0), at(12, 0), none)
        )
    );
    assert!(rt;
        both(
            &[0x4D, 0x63, 0xCA],
            reading(MOVSLQ_RM.op(), 3, 1, Some(9), register(10), none)
        )
    );
    assert!(rt;
        both(
            &[0xC7, 0x40, 0x04, 0x07, 0, 0, 0],
            reading(MOVL_MI.op(), 7, 2, None, at(0, 4), Some(7))
        )
    );
}

/// `addq rax, 1`; `subq rsp, 4096`; `cmpq rdi, rsi`; `testl eax, eax`; `imulq rax, rsi`; `imull eax, ecx, 1000`; `idivq rcx`;
/// `shlq rdx, cl`; `sarl r9d, 31`.
#[test]
fn arithmetic(rt: HostRuntime) {
    let none = None;
    assert!(rt;
        both(
            &[0x48, 0x83, 0xC0, 0x01],
            reading(ADDQ_MI_SXB.op(), 4, 1, None, register(0), Some(1))
        )
    );
    assert!(rt;
        both(
            &[0x48, 0x81, 0xEC, 0, 0x10, 0, 0],
            reading(SUBQ_MI_SXL.op(), 7, 1, None, register(4), Some(4096))
        )
    );
    assert!(rt;
        both(
            &[0x48, 0x3B, 0xFE],
            reading(CMPQ_RM.op(), 3, 1, Some(7), register(6), none)
        )
    );
    assert!(rt;
        both(
            &[0x85, 0xC0],
            reading(TESTL_MR.op(), 2, 1, Some(0), register(0), none)
        )
    );
    assert!(rt;
        both(
            &[0x48, 0x0F, 0xAF, 0xC6],
            reading(IMULQ_RM.op(), 4, 1, Some(0), register(6), none)
        )
    );
    assert!(rt;
        both(
            &[0x69, 0xC1, 0xE8, 0x03, 0, 0],
            reading(IMULL_RMI.op(), 6, 1, Some(0), register(1), Some(1000))
        )
    );
    assert!(rt;
        both(
            &[0x48, 0xF7, 0xF9],
            reading(IDIVQ_M.op(), 3, 1, None, register(1), none)
        )
    );
    assert!(rt;
        both(
            &[0x48, 0xD3, 0xE2],
            reading(SHLQ_MC.op(), 3, 1, None, register(2), none)
        )
    );
    assert!(rt;
        both(
            &[0x41, 0xC1, 0xF9, 0x1F],
            reading(SARL_MI.op(), 4, 1, None, register(9), Some(31))
        )
    );
}

/// `setl sil`; `cmovgq rax, r15`; `pushq r12`; `retq`; `addsd xmm8, [r13 + 2*r14 + 127]`; `cvtsi2sdq xmm0, rdi`; `movsd [rsp +
/// 8], xmm1`; and `popcntl eax, [rip + 16]`, of which there is no instruction, since its target isn't known.
#[test]
fn others(rt: HostRuntime) {
    let none = None;
    assert!(rt;
        both(
            &[0x40, 0x0F, 0x9C, 0xC6],
            reading(SETL_M.op(), 4, 1, None, register(6), none)
        )
    );
    assert!(rt;
        both(
            &[0x49, 0x0F, 0x4F, 0xC7],
            reading(CMOVGQ_RM.op(), 4, 1, Some(0), register(15), none)
        )
    );
    assert!(rt;
        both(
            &[0x41, 0xFF, 0xF4],
            reading(PUSHQ_M.op(), 3, 1, None, register(12), none)
        )
    );
    assert!(rt; both(&[0xC3], reading(RETQ_ZO.op(), 1, 0, None, None, none)));
    let address = indexed(13, (14, 2), 127);
    assert!(rt;
        both(
            &[0xF2, 0x47, 0x0F, 0x58, 0x44, 0x75, 0x7F],
            reading(ADDSD_A.op(), 7, 3, Some(8), address, none)
        )
    );
    assert!(rt;
        both(
            &[0xF2, 0x48, 0x0F, 0x2A, 0xC7],
            reading(CVTSI2SDQ_A.op(), 5, 1, Some(0), register(7), none)
        )
    );
    assert!(rt;
        both(
            &[0xF2, 0x0F, 0x11, 0x4C, 0x24, 0x08],
            reading(MOVSD_C_M.op(), 6, 3, Some(1), at(4, 8), none)
        )
    );
    let relative = [0xF3, 0x0F, 0xB8, 0x05, 0x10, 0, 0, 0];
    let place = Some(Place::Rip(16));
    assert!(rt;
        reads(
            &relative,
            reading(POPCNTL_RM.op(), 8, 5, Some(0), place, none)
        )
    );
    assert!(rt; !is_put_again(&relative));
}

/// Whether this instruction stands in code at this place, and where the next one does.
fn next_is(code: &[u8], at: usize, expected: CoreReading) -> Option<usize> {
    let rest = code.get(at..)?;
    if read_core(rest) == Some(expected) {
        at.checked_add(usize::from(expected.length))
    } else {
        None
    }
}

/// `fn(a, b) { if a < b { a * b + 1 } else { b } }`, with `a` in `rdi` and `b` in `rsi`: eight instructions, one behind the
/// other. The second, `jge`, jumps twelve bytes on.
fn function_is_read(code: &[u8]) -> Option<usize> {
    let at = next_is(
        code,
        0,
        reading(CMPQ_RM.op(), 3, 1, Some(7), register(6), None),
    )?;
    let at = next_is(code, at, reading(JGE_D32.op(), 6, 0, None, None, Some(12)))?;
    let at = next_is(
        code,
        at,
        reading(MOVQ_RM.op(), 3, 1, Some(0), register(7), None),
    )?;
    let at = next_is(
        code,
        at,
        reading(IMULQ_RM.op(), 4, 1, Some(0), register(6), None),
    )?;
    let at = next_is(
        code,
        at,
        reading(ADDQ_MI_SXB.op(), 4, 1, None, register(0), Some(1)),
    )?;
    let at = next_is(code, at, reading(RETQ_ZO.op(), 1, 0, None, None, None))?;
    let at = next_is(
        code,
        at,
        reading(MOVQ_RM.op(), 3, 1, Some(0), register(6), None),
    )?;
    next_is(code, at, reading(RETQ_ZO.op(), 1, 0, None, None, None))
}

#[test]
fn a_function(rt: HostRuntime) {
    let code = [
        0x48, 0x3B, 0xFE, 0x0F, 0x8D, 0x0C, 0, 0, 0, 0x48, 0x8B, 0xC7, 0x48, 0x0F, 0xAF, 0xC6,
        0x48, 0x83, 0xC0, 0x01, 0xC3, 0x48, 0x8B, 0xC6, 0xC3,
    ];
    assert!(rt; function_is_read(&code) == Some(25));
}

/// A `movq` that is put and read again.
#[test]
fn what_is_put(rt: HostRuntime) {
    let mut code = Vec::new(rt.alloc());
    let core = MOVQ_RM.regs(0, 7);
    assert!(rt; core.is_encodable(&code));
    assert!(rt; put_and_read(&core, &mut code) == Ok(MOVQ_RM.op()));
}
