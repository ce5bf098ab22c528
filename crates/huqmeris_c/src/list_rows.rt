//! Worked rows of the calls that take lists or hand texts out, each by hand, and what they refuse.

use crate::assemble::hq_assemble;
use crate::encode_all::hq_encode_all;
use crate::item::{
    HQ_ITEM_ALIGN, HQ_ITEM_BYTES, HQ_ITEM_CALL, HQ_ITEM_CONSTANT, HQ_ITEM_INST, HQ_ITEM_JMP,
    HQ_ITEM_JNE, HQ_ITEM_LABEL, HqItem,
};
use crate::progress::HqDone;
use crate::status::{HQ_BAD_ITEM, HQ_BAD_LABEL, HQ_BOUND_TWICE, HQ_NO_NAME, HQ_UNBOUND};
use crate::text::{hq_extension, hq_format, hq_mnemonic};
use cax64_address::amode::Amode;
use cax64_address::offset::AmodeOffsetPlusKnownOffset;
use cax64_sink::{Constant, DeferredTarget, Label, TrapCode};
use std::num::NonZeroU8;
use x64_core::ops::arithmetic::{ADDQ_RM, SUBQ_MI_SXB};
use x64_core::ops::bits::POPCNTQ_RM;
use x64_core::ops::control::RETQ_ZO;
use x64_core::ops::moves::{LEAQ_RM, MOVQ_RM};
use x64_plain::status::{HQ_BAD_INST, HQ_BAD_LINE, HQ_FULL, HQ_OK};
use x64_plain::told::{HQ_TOLD_LABEL, HQ_TOLD_NOTHING, HQ_TOLD_TRAP};
use x64_plain::{HqInst, HqUse};

/// `leaq 0(%rip), %rax` of a label.
fn address_of(number: u32) -> HqInst {
    let label = DeferredTarget::Label(Label(number));
    HqInst::of(&LEAQ_RM.mem(0, Amode::RipRelative { target: label }))
}

/// `leaq 0(%rip), %rax` of a constant.
fn address_of_constant(number: u32) -> HqInst {
    let constant = DeferredTarget::Constant(Constant(number));
    HqInst::of(&LEAQ_RM.mem(0, Amode::RipRelative { target: constant }))
}

/// `movq (%rbx), %rax`, which may raise a trap.
fn load(code: u8) -> HqInst {
    let place = Amode::ImmReg {
        base: 3,
        simm32: AmodeOffsetPlusKnownOffset::ZERO,
        trap: NonZeroU8::new(code).map(TrapCode),
    };
    HqInst::of(&MOVQ_RM.mem(0, place))
}

/// A trap that is told.
fn trap(at: u32, number: u32) -> HqUse {
    HqUse {
        at,
        kind: HQ_TOLD_TRAP,
        number,
    }
}

fn inst(inst: HqInst) -> HqItem {
    HqItem {
        kind: HQ_ITEM_INST,
        number: 0,
        inst,
    }
}

fn label(kind: u32, number: u32) -> HqItem {
    HqItem {
        kind,
        number,
        inst: HqInst::of(&RETQ_ZO.bare()),
    }
}

/// `retq` and an address: all bytes and the label's field are told, or nothing is put.
#[test]
fn a_list_is_put_or_not(rt: HostRuntime) {
    let insts = [HqInst::of(&RETQ_ZO.bare()), address_of(9)];
    let (mut code, mut uses) = ([0xCC; 9], [HqUse::NOTHING; 2]);
    let mut done = HqDone::NOTHING;
    assert_eq!(rt;
        hq_encode_all(&insts, &mut code[..7], &mut uses, &mut done),
        HQ_FULL
    );
    assert_eq!(rt; (done.items, done.bytes, done.uses), (2, 8, 1));
    assert_eq!(rt;
        hq_encode_all(&insts, &mut code, &mut uses[..0], &mut done),
        HQ_FULL
    );
    assert_eq!(rt; code.as_slice(), [0xCC; 9].as_slice());
    assert_eq!(rt;
        hq_encode_all(&insts, &mut code, &mut uses, &mut done),
        HQ_OK
    );
    assert_eq!(rt; (done.items, done.bytes, done.uses), (2, 8, 1));
    assert_eq!(rt;
        code.as_slice(),
        [0xC3, 0x48, 0x8D, 0x05, 0, 0, 0, 0, 0xCC].as_slice()
    );
    assert_eq!(rt;
        (uses[0].at, uses[0].kind, uses[0].number),
        (4, HQ_TOLD_LABEL, 9)
    );
    assert_eq!(rt; uses[1].kind, HQ_TOLD_NOTHING);
    let bad = HqInst {
        reserved: 1,
        ..insts[1]
    };
    let spoiled = [insts[0], bad];
    assert_eq!(rt;
        hq_encode_all(&spoiled, &mut code, &mut uses, &mut done),
        HQ_BAD_INST
    );
    assert_eq!(rt; (done.items, done.bytes, done.uses), (1, 1, 0));
}

/// A loop: `leaq` of the end, `subq $1, %rdi`, a jump back, one to the end, a call of the beginning, `retq`.
#[test]
fn a_loop_is_assembled(rt: HostRuntime) {
    let items = [
        label(HQ_ITEM_LABEL, 0),
        inst(address_of(1)),
        inst(HqInst::of(&SUBQ_MI_SXB.reg(7, 1))),
        label(HQ_ITEM_JNE, 0),
        label(HQ_ITEM_JMP, 1),
        label(HQ_ITEM_CALL, 0),
        label(HQ_ITEM_LABEL, 1),
        inst(HqInst::of(&RETQ_ZO.bare())),
    ];
    let wanted = [
        0x48, 0x8D, 0x05, 0x0D, 0, 0, 0, 0x48, 0x83, 0xEF, 0x01, 0x75, 0xF3, 0xEB, 0x05, 0xE8,
        0xEC, 0xFF, 0xFF, 0xFF, 0xC3,
    ];
    let (mut code, mut done) = ([0xCC; 22], HqDone::NOTHING);
    assert_eq!(rt;
        hq_assemble(rt.alloc(), &items, &mut code[..20], &mut [], &mut done),
        HQ_FULL
    );
    assert_eq!(rt; done.bytes, 21);
    assert_eq!(rt; code.as_slice(), [0xCC; 22].as_slice());
    assert_eq!(rt;
        hq_assemble(rt.alloc(), &items, &mut code, &mut [], &mut done),
        HQ_OK
    );
    assert_eq!(rt; (done.items, done.bytes), (8, 21));
    assert!(rt; code.as_slice().starts_with(wanted.as_slice()));
    assert_eq!(rt; code[21], 0xCC);
}

/// `leaq` of a constant and of a label, `retq`, and behind them zeros up to a multiple of 16, the constant, three bytes, the label,
/// and all 24 bytes of a struct.
#[test]
fn data_stands_behind_code(rt: HostRuntime) {
    let ret = HqInst::of(&RETQ_ZO.bare());
    let three = HqInst {
        line: 0x201,
        place: 3,
        ..ret
    };
    let all = HqInst {
        line: 0x201,
        place: 3,
        reg: 4,
        vvvv: 5,
        base: 6,
        index: 7,
        scale: 8,
        trap: 9,
        has_offset: 10,
        offset: 11,
        reserved: 12,
        disp: -2,
        target: 0x1413_1211,
        imm: 0x1817_1615,
    };
    let items = [
        inst(address_of_constant(u32::MAX)),
        inst(address_of(1)),
        inst(ret),
        label(HQ_ITEM_ALIGN, 4),
        label(HQ_ITEM_CONSTANT, u32::MAX),
        HqItem {
            kind: HQ_ITEM_BYTES,
            number: 3,
            inst: three,
        },
        label(HQ_ITEM_LABEL, 1),
        HqItem {
            kind: HQ_ITEM_BYTES,
            number: 24,
            inst: all,
        },
    ];
    let wanted = [
        0x48, 0x8D, 0x05, 0x09, 0, 0, 0, 0x48, 0x8D, 0x05, 0x05, 0, 0, 0, 0xC3, 0, 1, 2, 3, 1, 2,
        3, 4, 5, 6, 7, 8, 9, 10, 11, 12, 0xFE, 0xFF, 0xFF, 0xFF, 0x11, 0x12, 0x13, 0x14, 0x15,
        0x16, 0x17, 0x18,
    ];
    let (mut code, mut done) = ([0xCC; 44], HqDone::NOTHING);
    assert_eq!(rt;
        hq_assemble(rt.alloc(), &items, &mut code[..42], &mut [], &mut done),
        HQ_FULL
    );
    assert_eq!(rt; (done.items, done.bytes), (8, 43));
    assert_eq!(rt; code.as_slice(), [0xCC; 44].as_slice());
    assert_eq!(rt;
        hq_assemble(rt.alloc(), &items, &mut code, &mut [], &mut done),
        HQ_OK
    );
    assert_eq!(rt; (done.items, done.bytes), (8, 43));
    assert!(rt; code.as_slice().starts_with(wanted.as_slice()));
    assert_eq!(rt; code[43], 0xCC);
}

/// A load, a jump over a second one, `retq`, zeros up to a multiple of 4 and two bytes: the traps of both loads are told, and the
/// slot behind them stays; where there is too little room for them, or the list is refused, all slots stay.
#[test]
fn traps_are_told(rt: HostRuntime) {
    let ret = HqInst::of(&RETQ_ZO.bare());
    let two = HqInst { line: 0x201, ..ret };
    let items = [
        inst(load(7)),
        label(HQ_ITEM_JMP, 1),
        inst(load(255)),
        label(HQ_ITEM_LABEL, 1),
        inst(ret),
        label(HQ_ITEM_ALIGN, 2),
        HqItem {
            kind: HQ_ITEM_BYTES,
            number: 2,
            inst: two,
        },
    ];
    let wanted = [
        0x48, 0x8B, 0x03, 0xEB, 0x03, 0x48, 0x8B, 0x03, 0xC3, 0, 0, 0, 1, 2,
    ];
    let blank = HqUse {
        at: 77,
        kind: 78,
        number: 79,
    };
    let (mut code, mut uses, mut done) = ([0xCC; 15], [blank; 3], HqDone::NOTHING);
    let (mut short, mut few) = ([0xCC; 13], [blank; 1]);
    assert_eq!(rt;
        hq_assemble(rt.alloc(), &items, &mut code, &mut few, &mut done),
        HQ_FULL
    );
    assert_eq!(rt; (done.items, done.bytes, done.uses), (7, 14, 2));
    assert_eq!(rt;
        hq_assemble(rt.alloc(), &items, &mut short, &mut uses, &mut done),
        HQ_FULL
    );
    assert_eq!(rt; (done.items, done.bytes, done.uses), (7, 14, 2));
    assert_eq!(rt; short.as_slice(), [0xCC; 13].as_slice());
    assert_eq!(rt; few.as_slice(), [blank; 1].as_slice());
    let unbound = [items[0], label(HQ_ITEM_JMP, 0)];
    assert_eq!(rt;
        hq_assemble(rt.alloc(), &unbound, &mut code, &mut uses, &mut done),
        HQ_UNBOUND
    );
    assert_eq!(rt; code.as_slice(), [0xCC; 15].as_slice());
    assert_eq!(rt; uses.as_slice(), [blank; 3].as_slice());
    assert_eq!(rt;
        hq_assemble(rt.alloc(), &items, &mut code, &mut uses, &mut done),
        HQ_OK
    );
    assert_eq!(rt; (done.items, done.bytes, done.uses), (7, 14, 2));
    assert!(rt; code.as_slice().starts_with(wanted.as_slice()));
    assert_eq!(rt; code[14], 0xCC);
    assert_eq!(rt;
        uses.as_slice(),
        [trap(0, 7), trap(5, 255), blank].as_slice()
    );
}

/// What a list is refused for by its data, and at which item.
#[test]
fn data_is_refused(rt: HostRuntime) {
    let ret = inst(HqInst::of(&RETQ_ZO.bare()));
    let mut code = [0xCC; 64];
    let mut done = HqDone::NOTHING;
    let behind = [label(HQ_ITEM_CONSTANT, 0), label(HQ_ITEM_LABEL, 0), ret];
    assert_eq!(rt;
        hq_assemble(rt.alloc(), &behind, &mut code, &mut [], &mut done),
        HQ_BAD_ITEM
    );
    assert_eq!(rt; done.items, 2);
    let long = [ret, label(HQ_ITEM_BYTES, 25)];
    assert_eq!(rt;
        hq_assemble(rt.alloc(), &long, &mut code, &mut [], &mut done),
        HQ_BAD_ITEM
    );
    assert_eq!(rt; done.items, 1);
    let wide = [ret, label(HQ_ITEM_ALIGN, 7)];
    assert_eq!(rt;
        hq_assemble(rt.alloc(), &wide, &mut code, &mut [], &mut done),
        HQ_BAD_ITEM
    );
    assert_eq!(rt; done.items, 1);
    let twice = [
        ret,
        label(HQ_ITEM_CONSTANT, 9),
        label(HQ_ITEM_CONSTANT, 8),
        label(HQ_ITEM_CONSTANT, 9),
    ];
    assert_eq!(rt;
        hq_assemble(rt.alloc(), &twice, &mut code, &mut [], &mut done),
        HQ_BOUND_TWICE
    );
    assert_eq!(rt; done.items, 3);
    let large = [ret, label(HQ_ITEM_ALIGN, 0), label(HQ_ITEM_LABEL, 3)];
    assert_eq!(rt;
        hq_assemble(rt.alloc(), &large, &mut code, &mut [], &mut done),
        HQ_BAD_LABEL
    );
    assert_eq!(rt; done.items, 2);
    let unbound = [
        ret,
        inst(address_of_constant(9)),
        label(HQ_ITEM_CONSTANT, 8),
    ];
    assert_eq!(rt;
        hq_assemble(rt.alloc(), &unbound, &mut code, &mut [], &mut done),
        HQ_UNBOUND
    );
    assert_eq!(rt; done.items, 1);
    assert_eq!(rt; code.as_slice(), [0xCC; 64].as_slice());
}

/// What each list is refused for, and at which item.
#[test]
fn items_are_refused(rt: HostRuntime) {
    let ret = inst(HqInst::of(&RETQ_ZO.bare()));
    let mut code = [0xCC; 16];
    let mut done = HqDone::NOTHING;
    let unknown = [ret, label(HQ_ITEM_ALIGN + 1, 0)];
    assert_eq!(rt;
        hq_assemble(rt.alloc(), &unknown, &mut code, &mut [], &mut done),
        HQ_BAD_ITEM
    );
    assert_eq!(rt; done.items, 1);
    let large = [ret, label(HQ_ITEM_LABEL, 2)];
    assert_eq!(rt;
        hq_assemble(rt.alloc(), &large, &mut code, &mut [], &mut done),
        HQ_BAD_LABEL
    );
    assert_eq!(rt; done.items, 1);
    let twice = [label(HQ_ITEM_LABEL, 1), ret, label(HQ_ITEM_LABEL, 1)];
    assert_eq!(rt;
        hq_assemble(rt.alloc(), &twice, &mut code, &mut [], &mut done),
        HQ_BOUND_TWICE
    );
    assert_eq!(rt; done.items, 2);
    let unbound = [ret, label(HQ_ITEM_JMP, 0), inst(address_of(1))];
    assert_eq!(rt;
        hq_assemble(rt.alloc(), &unbound, &mut code, &mut [], &mut done),
        HQ_UNBOUND
    );
    assert_eq!(rt; done.items, 1);
    let spoiled = [
        ret,
        inst(HqInst {
            reserved: 1,
            ..ret.inst
        }),
    ];
    assert_eq!(rt;
        hq_assemble(rt.alloc(), &spoiled, &mut code, &mut [], &mut done),
        HQ_BAD_INST
    );
    assert_eq!(rt; done.items, 1);
    assert_eq!(rt; code.as_slice(), [0xCC; 16].as_slice());
}

/// `addq %rcx, %rax`, its mnemonic, an extension, and what has no text.
#[test]
fn texts_are_handed_out(rt: HostRuntime) {
    let addition = HqInst::of(&ADDQ_RM.regs(0, 1));
    let (mut text, mut len) = ([0x21; 16], 77);
    assert_eq!(rt;
        hq_format(rt.alloc(), &addition, &mut text[..14], &mut len),
        HQ_FULL
    );
    assert_eq!(rt; len, 15);
    assert_eq!(rt; text[0], 0x21);
    assert_eq!(rt;
        hq_format(rt.alloc(), &addition, &mut text, &mut len),
        HQ_OK
    );
    assert_eq!(rt; text.as_slice(), b"addq %rcx, %rax!".as_slice());
    assert_eq!(rt; hq_mnemonic(&addition, &mut text, &mut len), HQ_OK);
    assert_eq!(rt; len, 4);
    assert_eq!(rt;
        hq_extension(POPCNTQ_RM.op().number(), &mut text, &mut len),
        HQ_OK
    );
    assert_eq!(rt; &text[..len.min(16)], b"popcnt".as_slice());
    assert_eq!(rt; hq_extension(584, &mut text, &mut len), HQ_BAD_LINE);
    let nameless = HqInst::of(&ADDQ_RM.regs(16, 1));
    assert_eq!(rt;
        hq_format(rt.alloc(), &nameless, &mut text, &mut len),
        HQ_NO_NAME
    );
    let bad = HqInst {
        reserved: 1,
        ..addition
    };
    assert_eq!(rt; hq_mnemonic(&bad, &mut text, &mut len), HQ_BAD_INST);
}
