//! Addresses made step by step.

use client::places::{FRAME, argument, at, behind, element};
use client::registers::Reg;
use cranelift_assembler_x64::{Amode, Constant, DeferredTarget, Scale};

#[test]
fn places_are_made_step_by_step(rt: HostRuntime) {
    let field: Amode<Reg> = Amode::base(Reg(17)).displaced(8).into();
    assert!(rt; field == behind(Reg(17), 8));
    let above: Amode<Reg> = Amode::base(Reg(4)).displaced(16).late(FRAME).into();
    assert!(rt; above == argument(16));
    let word: Amode<Reg> = Amode::indexed(Reg(17), Reg(18), Scale::Four).into();
    assert!(rt; word == element(Reg(17), Reg(18)));
    let mask: Amode<Reg> = Amode::constant(Constant(7));
    assert!(rt; mask == at(DeferredTarget::Constant(Constant(7))));
}
