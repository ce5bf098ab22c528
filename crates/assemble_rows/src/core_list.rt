//! A list of instructions of the core, as GNU as puts it.

use crate::making::{IF_EQUAL, IF_NOT_EQUAL, with_labels};
use cax64_address::amode::{Amode, Scale};
use cax64_address::offset::{AmodeOffset, AmodeOffsetPlusKnownOffset};
use cax64_encoder::Fault;
use cax64_register::NonRspGpr;
use cax64_sink::{DeferredTarget, Label, Notice, TrapCode};
use std::num::NonZeroU8;
use x64_assemble::{Item, Layout, LayoutError};
use x64_core::Core;
use x64_core::ops::arithmetic::{ADDQ_RM, SUBQ_MI_SXB};
use x64_core::ops::control::RETQ_ZO;
use x64_core::ops::moves::{LEAQ_RM, MOVQ_MR, MOVQ_RM};

const RAX: u8 = 0;

const RCX: u8 = 1;

const RDX: u8 = 2;

const RSI: u8 = 6;

const RDI: u8 = 7;

const TRAP: TrapCode = TrapCode(NonZeroU8::MIN);

const TOP: Label = Label(0);

const END: Label = Label(1);

/// `-8(%rdi,%rsi,8)`.
fn element() -> Amode<u8> {
    Amode::ImmRegRegShift {
        base: RDI,
        index: NonRspGpr::new(RSI),
        scale: Scale::Eight,
        simm32: AmodeOffset::new(-8),
        trap: None,
    }
}

/// `16(%rcx)`, which may trap.
fn trapping() -> Amode<u8> {
    Amode::ImmReg {
        base: RCX,
        simm32: AmodeOffsetPlusKnownOffset {
            simm32: AmodeOffset::new(16),
            offset: None,
        },
        trap: Some(TRAP),
    }
}

/// A loop over elements, the last first, which ends where the sum is 0. This is the register that the sum is moved to.
fn sum(to: u8) -> [Item<Core>; 11] {
    let target = DeferredTarget::Label(END);
    [
        Item::Bind(TOP),
        Item::Inst(MOVQ_RM.mem(RAX, element())),
        Item::Inst(ADDQ_RM.regs(RDX, RAX)),
        Item::Jump(IF_EQUAL, END),
        Item::Inst(LEAQ_RM.mem(RCX, Amode::RipRelative { target })),
        Item::Inst(MOVQ_MR.mem(RDX, trapping())),
        Item::Inst(SUBQ_MI_SXB.reg(RSI, 1)),
        Item::Jump(IF_NOT_EQUAL, TOP),
        Item::Bind(END),
        Item::Inst(MOVQ_RM.regs(to, RDX)),
        Item::Inst(RETQ_ZO.bare()),
    ]
}

const BYTES: [u8; 31] = [
    0x48, 0x8B, 0x44, 0xF7, 0xF8, 0x48, 0x03, 0xD0, 0x74, 0x11, 0x48, 0x8D, 0x0D, 0x0A, 0, 0, 0,
    0x48, 0x89, 0x51, 0x10, 0x48, 0x83, 0xEE, 0x01, 0x75, 0xE5, 0x48, 0x8B, 0xC2, 0xC3,
];

#[test]
fn a_loop_of_the_core(rt: HostRuntime) {
    let mut layout = Layout::new(rt.alloc());
    let mut buffer = with_labels(rt.alloc()).expect(&rt, "memory");
    assert!(rt; layout.assemble(&sum(RAX), &mut buffer) == Ok(()));
    let told = [
        Notice::Target(13, DeferredTarget::Label(END)),
        Notice::Trap(17, TRAP),
    ];
    assert!(rt; buffer.notices() == told.as_slice());
    assert!(rt; buffer.place_of(DeferredTarget::Label(END)) == Some(27));
    let code = buffer.finish().ok().expect(&rt, "code");
    assert!(rt; code.as_slice() == BYTES.as_slice());
}

/// A virtual register is refused at its place in the list, and the buffer is as it was.
#[test]
fn a_virtual_register(rt: HostRuntime) {
    let mut layout = Layout::new(rt.alloc());
    let mut buffer = with_labels(rt.alloc()).expect(&rt, "memory");
    let refused = layout.assemble(&sum(16), &mut buffer);
    assert!(rt; refused == Err(LayoutError::Fault(9, Fault::Register(0))));
    assert!(rt; buffer.bytes().is_empty() && buffer.notices().is_empty());
    assert!(rt; buffer.place_of(DeferredTarget::Label(TOP)) == None);
    assert!(rt; layout.assemble(&sum(RAX), &mut buffer) == Ok(()));
}
