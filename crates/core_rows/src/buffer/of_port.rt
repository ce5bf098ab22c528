//! Instructions of the port as instructions of the core.

use crate::buffer::words::{FIRST, RAX, at, late, push_checked};
use arith::{andb_i, mulxl_rvm, roll_m1, xchgb_rm};
use cax64_address::amode::{Amode, Scale};
use cax64_address::offset::{AmodeOffset, AmodeOffsetPlusKnownOffset};
use cax64_address::operand::{GprMem, XmmMem};
use cax64_encoder::Fault;
use cax64_immediate::{Imm8, Simm8};
use cax64_operand::{Numbers, RowAndOperands};
use cax64_register::{Fixed, Gpr, NonRspGpr, Xmm};
use cax64_sink::{FixedSink, Notice, TrapCode};
use cax64_test_support::{All, Virtual};
use jump::callq_m;
use lock_a::lock_addl_mi_sxb;
use lock_x::lock_cmpxchg16b_m;
use nop::{nop_2b, nop_9b};
use simd::vcmpps_b;
use std::alloc::Global;
use std::num::NonZeroU8;
use x64_code_buffer::CodeBuffer;
use x64_core::Core;
use x64_of_port::{NotCore, core_of};

/// Whether the core of an instruction puts these bytes and notices, as the instruction itself does.
fn puts<I: RowAndOperands>(alloc: Global, inst: &I, bytes: &[u8], notices: &[Notice]) -> bool {
    let mut own = CodeBuffer::new(alloc);
    let mut buffer = CodeBuffer::new(alloc);
    let Ok(core) = core_of(inst, &buffer) else {
        return false;
    };
    push_checked(&mut own, inst) == Ok(())
        && push_checked(&mut buffer, &core) == Ok(())
        && own.bytes() == bytes
        && own.notices() == notices
        && buffer.bytes() == bytes
        && buffer.notices() == notices
}

/// Memory at a base and a displacement.
fn based(base: u8, displacement: i32, trap: Option<TrapCode>) -> Amode<u8> {
    Amode::ImmReg {
        base,
        simm32: AmodeOffsetPlusKnownOffset {
            simm32: AmodeOffset::new(displacement),
            offset: None,
        },
        trap,
    }
}

fn indexed() -> Amode<u8> {
    Amode::ImmRegRegShift {
        base: RAX,
        index: NonRspGpr::new(12),
        scale: Scale::Four,
        simm32: AmodeOffset::new(0x80),
        trap: None,
    }
}

/// `lock cmpxchg16b 0x100(%rsp)`, with this register in the place of `rcx`.
fn exchange(rcx: u8) -> lock_cmpxchg16b_m<Numbers> {
    lock_cmpxchg16b_m::new(
        based(4, 0x100, None),
        Fixed(0),
        Fixed(2),
        Fixed(rcx),
        Fixed(3),
    )
}

#[test]
fn of_six(rt: HostRuntime) {
    let trap = TrapCode(NonZeroU8::MIN);
    let add = lock_addl_mi_sxb::<Numbers>::new(based(13, 0, Some(trap)), Simm8::new(-1));
    let compare = vcmpps_b::<Numbers>::new(
        Xmm::new(9),
        Xmm::new(12),
        XmmMem::Mem(indexed()),
        Imm8::new(2),
    );
    let product = mulxl_rvm::<Numbers>::new(
        Gpr::new(10),
        Gpr::new(9),
        GprMem::Mem(based(1, 0, None)),
        Fixed(2),
    );
    let rotate = roll_m1::<Numbers>::new(GprMem::Gpr(12));
    let call = callq_m::<Numbers>::new(GprMem::Mem(at(FIRST)));
    let told = [Notice::Trap(0, trap)];
    assert!(rt;
        puts(
            rt.alloc(),
            &add,
            [0xF0, 0x41, 0x83, 0x45, 0, 0xFF].as_slice(),
            told.as_slice()
        )
    );
    assert!(rt;
        puts(
            rt.alloc(),
            &compare,
            [0xC4, 0x21, 0x18, 0xC2, 0x8C, 0xA0, 0x80, 0, 0, 0, 2].as_slice(),
            [].as_slice()
        )
    );
    assert!(rt;
        puts(
            rt.alloc(),
            &product,
            [0xC4, 0x62, 0x33, 0xF6, 0x11].as_slice(),
            [].as_slice()
        )
    );
    assert!(rt;
        puts(
            rt.alloc(),
            &rotate,
            [0x41, 0xD1, 0xC4].as_slice(),
            [].as_slice()
        )
    );
    assert!(rt;
        puts(
            rt.alloc(),
            &call,
            [0xFF, 0x15, 0, 0, 0, 0].as_slice(),
            [Notice::Target(2, FIRST)].as_slice()
        )
    );
    assert!(rt;
        puts(
            rt.alloc(),
            &exchange(1),
            [0xF0, 0x48, 0x0F, 0xC7, 0x8C, 0x24, 0, 1, 0, 0].as_slice(),
            [].as_slice()
        )
    );
}

type Before = All<Virtual>;

/// A register that is still virtual has no number, and no other is taken for it.
#[test]
fn a_virtual_register(rt: HostRuntime) {
    let sink = FixedSink::<13>::new();
    let exchange = |reg: u32, base: u32| {
        xchgb_rm::<Before>::new(
            Gpr::new(Virtual(reg)),
            Amode::ImmReg {
                base: Virtual(base),
                simm32: AmodeOffsetPlusKnownOffset::ZERO,
                trap: None,
            },
        )
    };
    let fault = |at: u8| Err(NotCore::Fault(Fault::Register(at)));
    assert!(rt; core_of(&exchange(16, 0), &sink) == fault(0));
    assert!(rt; core_of(&exchange(6, 256), &sink) == fault(1));
    assert!(rt; core_of(&exchange(6, 0), &sink).is_ok());
}

/// A fixed register has to be the row's own, since the core doesn't hold it.
#[test]
fn another_fixed_register(rt: HostRuntime) {
    let sink = FixedSink::<13>::new();
    assert!(rt; core_of(&exchange(3), &sink) == Err(NotCore::Fault(Fault::Fixed(3))));
    let mask = andb_i::<Numbers>::new(Fixed(1), Imm8::new(200));
    assert!(rt; core_of(&mask, &sink) == Err(NotCore::Fault(Fault::Fixed(0))));
}

#[test]
fn a_no_operation(rt: HostRuntime) {
    let sink = FixedSink::<13>::new();
    assert!(rt; core_of(&nop_2b::new(), &sink) == Err(NotCore::Nop));
    assert!(rt; core_of(&nop_9b::new(), &sink) == Err(NotCore::Nop));
}

/// A late offset that the sink knows stays one: another sink adds its own.
#[test]
fn a_late_offset_of_the_port(rt: HostRuntime) {
    let mut buffer = CodeBuffer::new(rt.alloc());
    let rotate = roll_m1::<Numbers>::new(GprMem::Mem(late(7, 9)));
    let unknown = Err(NotCore::Fault(Fault::Unknown(9)));
    assert!(rt; core_of(&rotate, &buffer) == unknown);
    buffer.set_offset(9, 4);
    let core: Result<Core, NotCore> = core_of(&rotate, &buffer);
    let Ok(core) = core else {
        panic!(rt; "there is no core");
    };
    buffer.set_offset(9, i32::MAX);
    assert!(rt; push_checked(&mut buffer, &core) == Ok(()));
    assert!(rt; buffer.bytes() == [0xD1, 0x87, 0xFF, 0xFF, 0xFF, 0x7F].as_slice());
}
