//! What instructions are made of, and what their lines say.

use crate::words::{at, has_bytes, indexed};
use cax64_address::amode::Scale;
use std::mem::size_of;
use x64_core::ops::arithmetic::{ADDB_I, ADDL_I, ADDW_MI, CMPQ_RM};
use x64_core::ops::bits::POPCNTL_RM;
use x64_core::ops::control::{PUSHQ_I8, PUSHQ_I32, RETQ_I};
use x64_core::ops::multiplication::{IDIVQ_M, IMULQ_RMI_SXB};
use x64_core::ops::rows::{CMPPS_A, LOCK_ADDQ_MI_SXB, LOCK_CMPXCHG16B_M, MULXQ_RVM, VCMPPS_B};
use x64_core::{Core, CorePlace};
use x64_lines::Extension;
use x64_lines::operands::{Access, Class, Home, LineOperand};
use x64_lines::shapes::{OpFields, OpImm, OpShape};

/// An instruction has 24 bytes.
#[test]
fn an_instruction_has_24_bytes(rt: HostRuntime) {
    assert!(rt; size_of::<Core>() == 24);
}

/// An immediate of each type: `addb al, 255`; `retq 8`; `addl eax, 0x89ABCDEF`; `pushq -1`; `pushq -2`.
#[test]
fn immediates(rt: HostRuntime) {
    assert!(rt; has_bytes(&ADDB_I.imm(255), &[0x04, 0xFF]));
    assert!(rt; has_bytes(&RETQ_I.imm(8), &[0xC2, 0x08, 0x00]));
    assert!(rt; has_bytes(&ADDL_I.imm(0x89AB_CDEF), &[0x05, 0xEF, 0xCD, 0xAB, 0x89]));
    assert!(rt; has_bytes(&PUSHQ_I8.imm(-1), &[0x6A, 0xFF]));
    assert!(rt; has_bytes(&PUSHQ_I32.imm(-2), &[0x68, 0xFE, 0xFF, 0xFF, 0xFF]));
}

/// Operands of each shape: `imulq r8, [rax], -1`; `lock addq [rax], 1`; `lock cmpxchg16b [rax]`; `addw [rax + rcx], 1`;
/// `cmpps xmm1, [rax], 2`.
#[test]
fn memory(rt: HostRuntime) {
    assert!(rt;
        has_bytes(
            &IMULQ_RMI_SXB.mem(8, at(0, 0), -1),
            &[0x4C, 0x6B, 0x00, 0xFF]
        )
    );
    assert!(rt;
        has_bytes(
            &LOCK_ADDQ_MI_SXB.mem(at(0, 0), 1),
            &[0xF0, 0x48, 0x83, 0x00, 0x01]
        )
    );
    assert!(rt;
        has_bytes(
            &LOCK_CMPXCHG16B_M.mem(at(0, 0)),
            &[0xF0, 0x48, 0x0F, 0xC7, 0x08]
        )
    );
    let sum = indexed(0, 1, Scale::One, 0);
    assert!(rt; has_bytes(&ADDW_MI.mem(sum, 1), &[0x66, 0x81, 0x04, 0x08, 0x01, 0x00]));
    assert!(rt; has_bytes(&CMPPS_A.mem(1, at(0, 0), 2), &[0x0F, 0xC2, 0x08, 0x02]));
}

/// `idivq [rcx]`; `mulxq rax, rcx, [rdx]` and with `rdx`; `vcmpps xmm1, xmm2, [rax], 7` and with `xmm8`.
#[test]
fn places(rt: HostRuntime) {
    assert!(rt; has_bytes(&IDIVQ_M.mem(at(1, 0)), &[0x48, 0xF7, 0x39]));
    assert!(rt;
        has_bytes(
            &MULXQ_RVM.mem(0, 1, at(2, 0)),
            &[0xC4, 0xE2, 0xF3, 0xF6, 0x02]
        )
    );
    assert!(rt; has_bytes(&MULXQ_RVM.regs(0, 1, 2), &[0xC4, 0xE2, 0xF3, 0xF6, 0xC2]));
    assert!(rt;
        has_bytes(
            &VCMPPS_B.mem(1, 2, at(0, 0), 7),
            &[0xC5, 0xE8, 0xC2, 0x08, 0x07]
        )
    );
    assert!(rt;
        has_bytes(
            &VCMPPS_B.regs(1, 2, 8, 7),
            &[0xC4, 0xC1, 0x68, 0xC2, 0xC8, 0x07]
        )
    );
    assert!(rt; has_bytes(&IMULQ_RMI_SXB.regs(0, 1, 2), &[0x48, 0x6B, 0xC1, 0x02]));
    assert!(rt; has_bytes(&CMPPS_A.regs(1, 2, 0), &[0x0F, 0xC2, 0xCA, 0x00]));
}

fn general(home: Home, access: Access, is_printed: bool) -> LineOperand {
    LineOperand {
        home,
        class: Class::General,
        access,
        bits: 64,
        is_printed,
    }
}

/// What an allocator asks: `cmpq` reads both registers, `idivq` reads and writes `rax` and `rdx`, which it doesn't print.
#[test]
fn kinds(rt: HostRuntime) {
    let compared = [
        general(Home::Reg, Access::Read, true),
        general(Home::Place, Access::Read, true),
    ];
    assert!(rt; CMPQ_RM.op().operands() == compared.as_slice());
    let divided = [
        general(Home::Fixed(0), Access::ReadWrite, false),
        general(Home::Fixed(2), Access::ReadWrite, false),
        general(Home::Place, Access::Read, true),
    ];
    assert!(rt; IDIVQ_M.op().operands() == divided.as_slice());
}

#[test]
fn what_a_line_says(rt: HostRuntime) {
    let op = POPCNTL_RM.op();
    assert!(rt; op.extension() == Some(Extension::Popcnt));
    assert!(rt; CMPQ_RM.op().extension() == None);
    let shape = OpShape {
        fields: OpFields::RegRm,
        imm: OpImm::None,
    };
    assert!(rt; op.shape() == shape);
    let core = VCMPPS_B.regs(1, 2, 3, 4);
    assert!(rt; core.op() == VCMPPS_B.op());
    assert!(rt;
        (core.reg(), core.vvvv(), core.place()) == (Some(1), Some(2), CorePlace::Register(3))
    );
    let core = IDIVQ_M.reg(1);
    assert!(rt; (core.reg(), core.vvvv(), core.place()) == (None, None, CorePlace::Register(1)));
}
