//! Registers of two classes, each of the machine's or virtual.

use client::classes::{Classes, General, Vector};
use cranelift_assembler_x64::inst::cmpps_a;
use cranelift_assembler_x64::{
    Amode, AmodeOffset, AmodeOffsetPlusKnownOffset, EncodeError, Fault, Imm8, Instruction, Xmm,
    XmmMem,
};

fn compare(first: Vector, base: General) -> cmpps_a<Classes> {
    let place = Amode::ImmReg {
        base,
        simm32: AmodeOffsetPlusKnownOffset {
            simm32: AmodeOffset::new(8),
            offset: None,
        },
        trap: None,
    };
    cmpps_a::new(Xmm::new(first), XmmMem::Mem(place), Imm8::new(0))
}

#[test]
fn a_virtual_register_of_either_class_is_refused_by_its_place(rt: HostRuntime) {
    let mut code: Vec<u8> = Vec::new(rt.alloc());
    let virtual_base = compare(Vector::Real(1), General::Virtual(0));
    let refused = virtual_base.encode_checked(&mut code);
    assert!(rt; refused == Err(EncodeError::Fault(Fault::Register(1))));
    let virtual_first = compare(Vector::Virtual(7), General::Real(0));
    let refused = virtual_first.encode_checked(&mut code);
    assert!(rt; refused == Err(EncodeError::Fault(Fault::Register(0))));
    assert!(rt; code.is_empty());
    let real = compare(Vector::Real(9), General::Real(12));
    assert!(rt; real.encode_checked(&mut code) == Ok(()));
    assert!(rt; code.as_slice() == [0x45, 0x0F, 0xC2, 0x4C, 0x24, 0x08, 0x00].as_slice());
}
