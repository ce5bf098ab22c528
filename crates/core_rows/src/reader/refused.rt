//! What the core doesn't have, and readings of which it has no instruction.

use crate::reader::words::{is_put_again, reading, reads, register};
use cax64_machine_code::reading::{Place, RegView};
use x64_core::ops::control::{POPQ_M, POPW_M, PUSHQ_I32, PUSHQ_M, PUSHW_I16, PUSHW_M};
use x64_core::ops::moves::{MOVB_MR, MOVQ_RM};
use x64_core::ops::rows::{NOP_2B, VCVTPD2PS_A};
use x64_reader::{CoreReading, read_core};

/// `cqto`, `syscall` and a push without ModR/M aren't in the table; 66 before 90 is the no-operation of two bytes.
#[test]
fn what_no_line_reads(rt: HostRuntime) {
    assert!(rt; read_core(&[0x48, 0x99]).is_none());
    assert!(rt; read_core(&[0x0F, 0x05]).is_none());
    assert!(rt; read_core(&[0x50]).is_none());
    assert!(rt; read_core(&[]).is_none());
    assert!(rt; reads(&[0x66, 0x90], reading(NOP_2B.op(), 2, 0, None, None, None)));
}

/// W, REX, mod 3 and a set of prefixes other than a line asks for: `movq` behind F3, `lea` of a register, and a no-operation
/// behind a REX byte.
#[test]
fn what_a_line_lacks(rt: HostRuntime) {
    assert!(rt; read_core(&[0xF3, 0x48, 0x8B, 0xC7]).is_none());
    assert!(rt; read_core(&[0x48, 0x8D, 0xC7]).is_none());
    assert!(rt; read_core(&[0x40, 0x90]).is_none());
}

/// W before a push or pop of two bytes makes it one of eight, with 66 too, and that stands in no line. GNU's, LLVM's and Zydis's
/// disassemblers read `push $0x4030201` of seven bytes, `push %rsi` and `pop %rcx`.
#[test]
fn words_with_w(rt: HostRuntime) {
    assert!(rt; read_core(&[0x66, 0x48, 0x68, 1, 2, 3, 4]).is_none());
    assert!(rt; read_core(&[0x66, 0x48, 0xFF, 0xF6]).is_none());
    assert!(rt; read_core(&[0x66, 0x48, 0x8F, 0xC1]).is_none());
}

/// Without W they are of two bytes, behind another bit of REX too: `pushw 0x201`, `pushw si`, `pushw r14w`, `popw cx`, `popw r9w`.
#[test]
fn words_without_w(rt: HostRuntime) {
    let none = None;
    let word = reading(PUSHW_I16.op(), 4, 0, none, None, Some(0x201));
    assert!(rt; reads(&[0x66, 0x68, 1, 2], word));
    let longer = reading(PUSHW_I16.op(), 5, 0, none, None, Some(0x201));
    assert!(rt; reads(&[0x66, 0x40, 0x68, 1, 2], longer));
    assert!(rt;
        reads(
            &[0x66, 0xFF, 0xF6],
            reading(PUSHW_M.op(), 3, 1, none, register(6), None)
        )
    );
    assert!(rt;
        reads(
            &[0x66, 0x41, 0xFF, 0xF6],
            reading(PUSHW_M.op(), 4, 1, none, register(14), None)
        )
    );
    assert!(rt;
        reads(
            &[0x66, 0x8F, 0xC1],
            reading(POPW_M.op(), 3, 1, none, register(1), None)
        )
    );
    assert!(rt;
        reads(
            &[0x66, 0x41, 0x8F, 0xC1],
            reading(POPW_M.op(), 4, 1, none, register(9), None)
        )
    );
}

/// Those of eight bytes read with W and without: `push 0x4030201`, `push rsi`, `pop rcx`.
#[test]
fn whole_words(rt: HostRuntime) {
    let none = None;
    let number = Some(0x403_0201);
    assert!(rt;
        reads(
            &[0x68, 1, 2, 3, 4],
            reading(PUSHQ_I32.op(), 5, 0, none, None, number)
        )
    );
    assert!(rt;
        reads(
            &[0x48, 0x68, 1, 2, 3, 4],
            reading(PUSHQ_I32.op(), 6, 0, none, None, number)
        )
    );
    assert!(rt;
        reads(
            &[0x48, 0xFF, 0xF6],
            reading(PUSHQ_M.op(), 3, 1, none, register(6), None)
        )
    );
    assert!(rt;
        reads(
            &[0x48, 0x8F, 0xC1],
            reading(POPQ_M.op(), 3, 1, none, register(1), None)
        )
    );
}

/// `movb [rdi], ah` and `movq rax, [5]`, of which there is no instruction of the core.
#[test]
fn what_is_no_instruction(rt: HostRuntime) {
    let high = CoreReading {
        reg: Some(RegView::High(0)),
        ..reading(
            MOVB_MR.op(),
            2,
            1,
            None,
            crate::reader::words::at(7, 0),
            None,
        )
    };
    assert!(rt; reads(&[0x88, 0x27], high));
    assert!(rt; !is_put_again(&[0x88, 0x27]));
    let absolute = Some(Place::Mem {
        base: None,
        index: None,
        disp: 5,
    });
    let bytes = [0x48, 0x8B, 0x04, 0x25, 5, 0, 0, 0];
    assert!(rt; reads(&bytes, reading(MOVQ_RM.op(), 8, 6, Some(0), absolute, None)));
    assert!(rt; !is_put_again(&bytes));
}

/// `vcvtpd2ps xmm1, xmm2`, whose L is 0: with L 1 it's another instruction, which isn't in the table.
#[test]
fn with_vex(rt: HostRuntime) {
    let expected = reading(VCVTPD2PS_A.op(), 4, 1, Some(1), register(2), None);
    assert!(rt; reads(&[0xC5, 0xF9, 0x5A, 0xCA], expected));
    assert!(rt; is_put_again(&[0xC5, 0xF9, 0x5A, 0xCA]));
    assert!(rt; read_core(&[0xC5, 0xFD, 0x5A, 0xCA]).is_none());
}
