//! Instructions compared and shown.

ghost use Rattle.std.specs.Prelude.{◌≡◌, IfOk};

use crate::words::{at, indexed};
use cax64_address::amode::{Amode, Scale};
use cax64_address::offset::{AmodeOffset, AmodeOffsetPlusKnownOffset};
use cax64_sink::{Constant, DeferredTarget, KnownOffset, Label, TrapCode};
use std::alloc::AllocError;
use std::num::NonZeroU8;
use x64_core::Core;
use x64_core::laws::laws_of_equality;
use x64_core::ops::control::RETQ_ZO;
use x64_core::ops::rows::{LOCK_ADDL_MR, LOCK_ADDQ_MR, NOPL_RM, VCMPPS_B};
use x64_lines::OperandError;

/// `lock addl` of `r8d` to memory.
fn addition(place: Amode<u8>) -> Core {
    LOCK_ADDL_MR.mem(8, place)
}

/// Memory at `rsi` and a displacement of 9, with these.
fn at_rsi(trap: Option<TrapCode>, offset: Option<KnownOffset>) -> Amode<u8> {
    Amode::ImmReg {
        base: 6,
        simm32: AmodeOffsetPlusKnownOffset {
            simm32: AmodeOffset::new(9),
            offset,
        },
        trap,
    }
}

/// Whether each is equal to itself, and neither to the other.
fn differ(a: &Core, b: &Core) -> bool {
    a == a && b == b && a != b && b != a
}

/// Line, registers, immediate, and a register or memory.
#[test]
fn by_each_operand(rt: HostRuntime) {
    let order = VCMPPS_B.regs(1, 2, 3, 4);
    assert!(rt; differ(&order, &VCMPPS_B.regs(2, 2, 3, 4)));
    assert!(rt; differ(&order, &VCMPPS_B.regs(1, 1, 3, 4)));
    assert!(rt; differ(&order, &VCMPPS_B.regs(1, 2, 4, 4)));
    assert!(rt; differ(&order, &VCMPPS_B.regs(1, 2, 3, 5)));
    assert!(rt; differ(&order, &VCMPPS_B.mem(1, 2, at(3, 0), 4)));
    assert!(rt; differ(&addition(at(6, 0)), &LOCK_ADDQ_MR.mem(8, at(6, 0))));
}

/// Base, index, scale, displacement, trap and late offset.
#[test]
fn by_each_part_of_an_address(rt: HostRuntime) {
    assert!(rt; differ(&addition(at(6, 0)), &addition(at(7, 0))));
    assert!(rt; differ(&addition(at(6, 0)), &addition(at(6, 1))));
    let plain = addition(at_rsi(None, None));
    assert!(rt; plain == addition(at(6, 9)));
    let trap = Some(TrapCode(NonZeroU8::MIN));
    assert!(rt; differ(&plain, &addition(at_rsi(trap, None))));
    let late = addition(at_rsi(None, Some(5)));
    assert!(rt; differ(&plain, &late));
    assert!(rt; differ(&late, &addition(at_rsi(None, Some(4)))));
    let scaled = addition(indexed(6, 7, Scale::Four, -128));
    assert!(rt; differ(&scaled, &addition(at(6, -128))));
    assert!(rt; differ(&scaled, &addition(indexed(5, 7, Scale::Four, -128))));
    assert!(rt; differ(&scaled, &addition(indexed(6, 5, Scale::Four, -128))));
    assert!(rt; differ(&scaled, &addition(indexed(6, 7, Scale::Two, -128))));
    assert!(rt; differ(&scaled, &addition(indexed(6, 7, Scale::Four, 127))));
}

/// `lock addl` of `r8d` to what is settled later.
fn later(target: DeferredTarget) -> Core {
    addition(Amode::RipRelative { target })
}

/// LineOperand and number of a target.
#[test]
fn by_each_part_of_a_target(rt: HostRuntime) {
    let label = later(DeferredTarget::Label(Label(3)));
    assert!(rt; differ(&label, &later(DeferredTarget::Label(Label(4)))));
    let constant = later(DeferredTarget::Constant(Constant(3)));
    assert!(rt; differ(&label, &constant));
    assert!(rt; differ(&constant, &later(DeferredTarget::Constant(Constant(4)))));
    let nowhere = later(DeferredTarget::None);
    assert!(rt; differ(&later(DeferredTarget::Label(Label(0))), &nowhere));
    assert!(rt; differ(&later(DeferredTarget::Constant(Constant(0))), &nowhere));
}

/// Made again of what it says of itself, an instruction is what it was.
fn made_again(core: &Core) -> Result<Core, OperandError>
    ensures { IfOk result (λ made. made ≡ core.now) }
{
    laws_of_equality();
    Core::new(core.op(), core.reg(), core.vvvv(), core.place(), core.imm())
}

/// What says the same of line and operands is equal, for each kind of place.
#[test]
fn by_what_they_say(rt: HostRuntime) {
    let target = DeferredTarget::Label(Label(3));
    let cores = [
        RETQ_ZO.bare(),
        VCMPPS_B.regs(1, 2, 3, 4),
        addition(at_rsi(Some(TrapCode(NonZeroU8::MIN)), Some(5))),
        VCMPPS_B.mem(1, 2, indexed(6, 7, Scale::Four, -128), 255),
        later(target),
        later(DeferredTarget::Constant(Constant(3))),
        later(DeferredTarget::None),
    ];
    for core in &cores {
        assert!(rt; made_again(core) == Ok(*core));
    }
    assert!(rt; cores[0].memory().is_none());
    assert!(rt; cores[1].memory().is_none());
    assert!(rt; cores[2].memory() == Some(at_rsi(Some(TrapCode(NonZeroU8::MIN)), Some(5))));
    assert!(rt; cores[3].memory() == Some(indexed(6, 7, Scale::Four, -128)));
    assert!(rt; cores[4].memory() == Some(Amode::RipRelative { target }));
}

/// `nopl 256(%rax)` with its line and its numbers.
#[test]
fn shown(rt: HostRuntime) -> Result<(), AllocError> {
    let text = format!(in rt.alloc(); "{:?}", NOPL_RM.mem(at(0, 256)))?;
    assert!(rt; text.contains("number: 156"));
    assert!(rt; text.contains("kind: Base"));
    assert!(rt; text.contains("displacement: AmodeOffset(256)"));
    Ok(())
}
