//! Addresses made step by step, and registers that instructions fix.

use cax64_table::entry::Entry;
use cax64_test_support::Virtual;
use cranelift_assembler_x64::inst::{lock_addl_mr, lock_cmpxchgl_mr};
use cranelift_assembler_x64::{
    Amode, AmodeOffset, AmodeOffsetPlusKnownOffset, AsReg, BaseAddress, Constant, DeferredTarget,
    Fixed, Gpr, GprMem, IndexAddress, Instruction, Label, NonRspGpr, Numbers, Recorder, Scale,
    TrapCode, XmmMem,
};
use std::num::NonZeroU8;

const CODE: TrapCode = TrapCode(NonZeroU8::MIN);

#[test]
fn a_base_is_made_step_by_step(rt: HostRuntime) {
    let bare: Amode<Virtual> = Amode::base(Virtual(17)).into();
    assert!(rt;
        bare == Amode::ImmReg {
            base: Virtual(17),
            simm32: AmodeOffsetPlusKnownOffset::ZERO,
            trap: None,
        }
    );
    let whole: Amode<u8> = Amode::base(12)
        .displaced(7)
        .trapping(CODE)
        .late(3)
        .displaced(-128)
        .into();
    assert!(rt;
        whole
            == Amode::ImmReg {
                base: 12,
                simm32: AmodeOffsetPlusKnownOffset {
                    simm32: AmodeOffset::new(-128),
                    offset: Some(3),
                },
                trap: Some(CODE),
            }
    );
}

#[test]
fn an_index_is_made_step_by_step(rt: HostRuntime) {
    let whole: Amode<u8> = Amode::indexed(1, 2, Scale::Four)
        .displaced(16)
        .trapping(CODE)
        .into();
    assert!(rt;
        whole
            == Amode::ImmRegRegShift {
                base: 1,
                index: NonRspGpr::new(2),
                scale: Scale::Four,
                simm32: AmodeOffset::new(16),
                trap: Some(CODE),
            }
    );
}

#[test]
fn targets_are_made(rt: HostRuntime) {
    let label = DeferredTarget::Label(Label(4));
    assert!(rt; Amode::<u8>::label(Label(4)) == Amode::RipRelative { target: label });
    let constant = DeferredTarget::Constant(Constant(5));
    assert!(rt; Amode::<u8>::constant(Constant(5)) == Amode::RipRelative { target: constant });
}

fn based() -> BaseAddress<u8> {
    Amode::base(1).displaced(8)
}

fn indexed() -> IndexAddress<u8> {
    Amode::indexed(1, 2, Scale::One)
}

#[test]
fn they_are_operands_too(rt: HostRuntime) {
    let general: GprMem<Virtual, u8> = based().into();
    assert!(rt; general == GprMem::Mem(based().into()));
    let vector: XmmMem<Virtual, u8> = based().into();
    assert!(rt; vector.is_memory());
    let general: GprMem<Virtual, u8> = indexed().into();
    assert!(rt; general == GprMem::Mem(indexed().into()));
    let vector: XmmMem<Virtual, u8> = indexed().into();
    assert!(rt; vector.is_memory());
}

#[test]
fn a_made_address_is_encoded(rt: HostRuntime) {
    let mut sink = Recorder::new(rt.alloc());
    let add: lock_addl_mr<Numbers> = lock_addl_mr::new(
        Amode::base(12).displaced(-128).into(),
        Gpr::new(9),
    );
    assert_eq!(rt; add.encode_checked(&mut sink), Ok(()));
    assert_eq!(rt;
        sink.bytes(),
        [0xF0, 0x45, 0x01, 0x4C, 0x24, 0x80].as_slice()
    );
}

#[test]
fn a_fixed_register_is_made_by_its_number(rt: HostRuntime) {
    let rax = Fixed::<u8, 0>::expected();
    assert!(rt; rax.settled());
    assert_eq!(rt; rax, Fixed(0));
    let mut sink = Recorder::new(rt.alloc());
    let exchange: lock_cmpxchgl_mr<Numbers> = lock_cmpxchgl_mr::new(
        Amode::base(1).into(),
        Gpr::new(2),
        rax,
    );
    assert_eq!(rt; exchange.encode_checked(&mut sink), Ok(()));
    assert_eq!(rt; sink.bytes(), [0xF0, 0x0F, 0xB1, 0x11].as_slice());
}

#[test]
fn an_entry_is_made_with_no_test(rt: HostRuntime) {
    let entry = Entry::of_entry(0xC071_A810);
    assert_eq!(rt; entry.opcode().word, 0x03);
    assert!(rt; entry.w());
}

#[test]
fn an_operand_is_a_register(rt: HostRuntime) {
    let general: GprMem<Virtual, Virtual> = GprMem::reg(Virtual(40));
    assert!(rt; matches!(general, GprMem::Gpr(Virtual(40))) && !general.is_memory());
    let vector: XmmMem<u8, u8> = XmmMem::reg(9);
    assert!(rt; matches!(vector, XmmMem::Xmm(9)) && !vector.is_memory());
}
