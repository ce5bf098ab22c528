//! What lines read and write: their operands, what they use beside them, and flags. (Intel SDM, volume 2, the pages of the
//! named instructions.)

use std::mem::size_of;
use x64_core::ops::arithmetic::{ADCL_RM, ANDQ_MR, CMPB_I};
use x64_core::ops::bits::{BSFL_RM, BTQ_MI, CMPXCHG16B_M, POPCNTQ_RM};
use x64_core::ops::conditions::{CMOVLEQ_RM, SETAE_M};
use x64_core::ops::control::{LEAVEQ_ZO, POPW_M, PUSHQ_I8, RETQ_ZO};
use x64_core::ops::moves::{LEAQ_RM, MOVW_RM};
use x64_core::ops::multiplication::{DIVL_M, MULQ_M, NOTB_M};
use x64_core::ops::rows::{CALLQ_D, JA_D8, LOCK_XADDL_MR, NOPL_RM, ROLB_M1, SHLQ_M1, VCMPSS_B};
use x64_core::ops::scalar::{CVTSS2SD_A, MOVSD_A_M, SQRTSD_A, UCOMISS_A};
use x64_core::ops::shifts::{RORL_MC, SARW_MI, SHLB_MC, SHLDW_MRI, SHRQ_MI};
use x64_lines::Op;
use x64_lines::flags::{Flag, FlagSet, Flags};
use x64_lines::operands::{Access, Class, Home, LineOperand};

/// An operand that isn't printed.
fn beside(home: Home, class: Class, access: Access, bits: u8) -> LineOperand {
    LineOperand {
        home,
        class,
        access,
        bits,
        is_printed: false,
    }
}

fn register(number: u8, access: Access) -> LineOperand {
    beside(Home::Fixed(number), Class::General, access, 64)
}

fn stack(access: Access, bits: u8) -> LineOperand {
    beside(Home::Stack, Class::None, access, bits)
}

/// An operand that is printed.
fn printed(home: Home, class: Class, access: Access, bits: u8) -> LineOperand {
    LineOperand {
        is_printed: true,
        ..beside(home, class, access, bits)
    }
}

/// `pushq imm8`, `popw`, `callq`, `retq` and `leaveq`, which move `rsp`; the last one reads `rbp` and doesn't read `rsp`.
#[test]
fn the_stack(rt: HostRuntime) {
    let moved = register(4, Access::ReadWrite);
    let byte = printed(Home::Imm, Class::None, Access::Read, 8);
    let pushed = [byte, moved, stack(Access::Write, 64)];
    assert!(rt; PUSHQ_I8.op().operands() == pushed.as_slice());
    let word = printed(Home::Place, Class::General, Access::Write, 16);
    let popped = [word, moved, stack(Access::Read, 16)];
    assert!(rt; POPW_M.op().operands() == popped.as_slice());
    let distance = printed(Home::Imm, Class::None, Access::Read, 32);
    let called = [distance, moved, stack(Access::Write, 64)];
    assert!(rt; CALLQ_D.op().operands() == called.as_slice());
    let returned = [moved, stack(Access::Read, 64)];
    assert!(rt; RETQ_ZO.op().operands() == returned.as_slice());
    let left = [
        register(4, Access::Write),
        register(5, Access::ReadWrite),
        stack(Access::Read, 64),
    ];
    assert!(rt; LEAVEQ_ZO.op().operands() == left.as_slice());
}

/// What is done with the first operand of a line.
fn first_access(op: Op) -> Option<Access> {
    match op.operands().first() {
        Some(kind) => Some(kind.access),
        None => None,
    }
}

/// What is done with the second one.
fn second_access(op: Op) -> Option<Access> {
    match op.operands().get(1) {
        Some(kind) => Some(kind.access),
        None => None,
    }
}

/// A scalar line leaves the upper part of its register, and says that it reads it; a load and a line with VEX leave none. A `cmov`
/// and a `bsf` may leave the whole register. `movw` writes all of its 16 bits.
#[test]
fn what_may_stay_is_read(rt: HostRuntime) {
    assert!(rt; first_access(SQRTSD_A.op()) == Some(Access::ReadWrite));
    assert!(rt; first_access(CVTSS2SD_A.op()) == Some(Access::ReadWrite));
    assert!(rt; first_access(MOVSD_A_M.op()) == Some(Access::Write));
    assert!(rt; first_access(VCMPSS_B.op()) == Some(Access::Write));
    assert!(rt; first_access(CMOVLEQ_RM.op()) == Some(Access::ReadWrite));
    assert!(rt; first_access(BSFL_RM.op()) == Some(Access::ReadWrite));
    assert!(rt; first_access(MOVW_RM.op()) == Some(Access::Write));
}

/// `lea` computes an address, and a no-operation does nothing: neither reads there.
#[test]
fn what_is_idle(rt: HostRuntime) {
    assert!(rt; second_access(LEAQ_RM.op()) == Some(Access::None));
    assert!(rt; first_access(NOPL_RM.op()) == Some(Access::None));
}

/// The six flags, in the order of EFLAGS.
const ALL: [Flag; 6] = [
    Flag::Carry,
    Flag::Parity,
    Flag::Adjust,
    Flag::Zero,
    Flag::Sign,
    Flag::Overflow,
];

/// A set by a letter for each flag, in the order `c p a z s o`, a dot where it isn't there.
fn is_set(set: FlagSet, letters: &str) -> bool {
    for (flag, letter) in ALL.iter().zip(letters.bytes()) {
        if set.has(*flag) != (letter != b'.') {
            return false;
        }
    }
    letters.len() == 6
}

/// The flags that are read, written and undefined.
fn are(flags: Flags, read: &str, written: &str, undefined: &str) -> bool {
    is_set(flags.read, read) && is_set(flags.written, written) && is_set(flags.undefined, undefined)
}

/// Of arithmetic.
#[test]
fn flags_of_arithmetic(rt: HostRuntime) {
    assert!(rt; are(ADCL_RM.op().flags(), "c.....", "cpazso", "......"));
    assert!(rt; are(CMPB_I.op().flags(), "......", "cpazso", "......"));
    assert!(rt; are(ANDQ_MR.op().flags(), "......", "cp.zso", "..a..."));
    assert!(rt; are(LOCK_XADDL_MR.op().flags(), "......", "cpazso", "......"));
    assert!(rt; are(NOTB_M.op().flags(), "......", "......", "......"));
    assert!(rt; are(MULQ_M.op().flags(), "......", "c....o", ".pazs."));
    assert!(rt; are(DIVL_M.op().flags(), "......", "......", "cpazso"));
}

/// Of shifts and rotations. Those by one always write; others may leave every flag.
#[test]
fn flags_of_shifts(rt: HostRuntime) {
    assert!(rt; are(SHLQ_M1.op().flags(), "......", "cp.zso", "..a..."));
    assert!(rt; are(ROLB_M1.op().flags(), "......", "c....o", "......"));
    assert!(rt; are(RORL_MC.op().flags(), "c....o", "c.....", ".....o"));
    assert!(rt; are(SHLB_MC.op().flags(), "cpazso", ".p.zs.", "c.a..o"));
    assert!(rt; are(SHRQ_MI.op().flags(), "cpazso", "cp.zs.", "..a..o"));
    assert!(rt; are(SARW_MI.op().flags(), "cpazso", "cp.zs.", "..a..o"));
    assert!(rt; are(SHLDW_MRI.op().flags(), "cpazso", "......", "cpazso"));
}

/// Of conditions, scans and comparisons.
#[test]
fn flags_of_others(rt: HostRuntime) {
    assert!(rt; are(JA_D8.op().flags(), "c..z..", "......", "......"));
    assert!(rt; are(SETAE_M.op().flags(), "c.....", "......", "......"));
    assert!(rt; are(CMOVLEQ_RM.op().flags(), "...zso", "......", "......"));
    assert!(rt; are(BSFL_RM.op().flags(), "......", "...z..", "cpa.so"));
    assert!(rt; are(BTQ_MI.op().flags(), "......", "c.....", ".pa.so"));
    assert!(rt; are(POPCNTQ_RM.op().flags(), "......", "cpazso", "......"));
    assert!(rt; are(CMPXCHG16B_M.op().flags(), "......", "...z..", "......"));
    assert!(rt; are(UCOMISS_A.op().flags(), "......", "cpazso", "......"));
    assert!(rt; are(CALLQ_D.op().flags(), "......", "......", "......"));
}

/// A set of flags has two bytes.
#[test]
fn a_set_has_two_bytes(rt: HostRuntime) {
    assert!(rt; size_of::<Flags>() == 6);
}
