//! No-operations of so many bytes.

use crate::words::has_bytes;
use x64_core::Core;
use x64_core::ops::rows::{NOP_1B, NOP_2B, NOPL_RM};

/// The bytes are those that GNU as puts for the text beside them; that of two bytes, which GNU objdump prints as `xchg %ax,%ax`,
/// is the manual's. (Intel SDM, volume 2, `NOP`, table 4-12.)
#[test]
fn the_nine(rt: HostRuntime) {
    let nops: [&[u8]; 9] = [
        // nop
        &[0x90],
        // nop
        &[0x66, 0x90],
        // nopl (%rax)
        &[0x0F, 0x1F, 0x00],
        // nopl 0x1(%rax)
        &[0x0F, 0x1F, 0x40, 0x01],
        // nopl 0x1(%rax,%rax,1)
        &[0x0F, 0x1F, 0x44, 0x00, 0x01],
        // nopw 0x1(%rax,%rax,1)
        &[0x66, 0x0F, 0x1F, 0x44, 0x00, 0x01],
        // nopl 0x100(%rax)
        &[0x0F, 0x1F, 0x80, 0x00, 0x01, 0x00, 0x00],
        // nopl 0x100(%rax,%rax,1)
        &[0x0F, 0x1F, 0x84, 0x00, 0x00, 0x01, 0x00, 0x00],
        // nopw 0x100(%rax,%rax,1)
        &[0x66, 0x0F, 0x1F, 0x84, 0x00, 0x00, 0x01, 0x00, 0x00],
    ];
    for (before, bytes) in nops.iter().enumerate() {
        let len = before as u8 + 1;
        let nop = Core::nop(len).expect(&rt, "a no-operation");
        assert!(rt; has_bytes(&nop, bytes), "{len}");
    }
}

/// Nothing has no bytes, and no no-operation more than nine.
#[test]
fn no_others(rt: HostRuntime) {
    assert!(rt; Core::nop(0).is_none());
    assert!(rt; Core::nop(10).is_none());
    assert!(rt; Core::nop(255).is_none());
}

/// They are lines as any other.
#[test]
fn their_lines(rt: HostRuntime) {
    assert!(rt; Core::nop(1) == Some(NOP_1B.bare()));
    assert!(rt; Core::nop(2) == Some(NOP_2B.bare()));
    let three = Core::nop(3).expect(&rt, "a no-operation");
    assert!(rt; three.op() == NOPL_RM.op());
    let address = three.memory().expect(&rt, "memory");
    assert!(rt; three == NOPL_RM.mem(address));
}
