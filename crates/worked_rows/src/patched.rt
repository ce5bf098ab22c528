//! A relative field that is patched after the instruction is encoded. The field's place is the one that was told, and what
//! it holds is added: the address counts from the instruction's end.

use cranelift_assembler_x64::inst::{callq_m, cmpps_a, lock_addl_mr};
use cranelift_assembler_x64::reader::{Place, read_inst};
use cranelift_assembler_x64::{
    Amode, DeferredTarget, Gpr, GprMem, Imm8, Instruction, Label, Notice, Numbers, Recorder, Xmm,
    XmmMem,
};
use std::alloc::Global;

const RELATIVE: Amode<u8> = Amode::RipRelative {
    target: DeferredTarget::Label(Label(0)),
};

/// The place of a list's only notice, which is of the label.
fn told_place(notices: &[Notice]) -> Option<usize> {
    match notices {
        [Notice::Target(place, DeferredTarget::Label(Label(0)))] => Some(*place),
        _ => None,
    }
}

/// The four bytes of a field.
fn held_at(bytes: &[u8], place: usize) -> Option<u32> {
    match bytes.get(place..)? {
        [a, b, c, d, ..] => Some(u32::from_le_bytes([*a, *b, *c, *d])),
        _ => None,
    }
}

/// An instruction's bytes once its field leads to a target, which counts from the instruction's beginning; none where the
/// notices aren't as they were.
fn patched<I: Instruction>(alloc: Global, inst: &I, target: u32) -> Option<Vec<u8>> {
    let mut sink = Recorder::new(alloc);
    if !inst.is_encodable(&sink) || inst.encode(&mut sink).is_err() {
        return None;
    }
    let place = told_place(sink.notices())?;
    let held = held_at(sink.bytes(), place)?;
    if place > 9 || place + 4 > sink.bytes().len() {
        return None;
    }
    let end = place as u32 + 4;
    sink.patch4(place, target.wrapping_sub(end).wrapping_add(held));
    (told_place(sink.notices()) == Some(place)).then_some(sink.into_bytes())
}

#[test]
fn a_relative_field_leads_to_its_target(rt: HostRuntime) {
    let add: lock_addl_mr<Numbers> = lock_addl_mr::new(RELATIVE, Gpr::new(1));
    let added = patched(rt.alloc(), &add, 0x0102_030B).expect(&rt, "a patched addition");
    assert!(rt; added.as_slice() == [0xF0, 0x01, 0x0D, 0x04, 0x03, 0x02, 0x01].as_slice());
    let reading = read_inst(&added).expect(&rt, "a reading");
    assert!(rt; reading.place == Some(Place::Rip(0x0102_0304)));
}

#[test]
fn a_field_before_an_immediate_leads_to_its_target(rt: HostRuntime) {
    let compare: cmpps_a<Numbers> = cmpps_a::new(Xmm::new(0), XmmMem::Mem(RELATIVE), Imm8::new(0));
    let compared = patched(rt.alloc(), &compare, 8).expect(&rt, "a patched comparison");
    assert!(rt; compared.as_slice() == [0x0F, 0xC2, 0x05, 0, 0, 0, 0, 0].as_slice());
    let call: callq_m<Numbers> = callq_m::new(GprMem::Mem(RELATIVE));
    let called = patched(rt.alloc(), &call, 0).expect(&rt, "a patched call");
    assert!(rt; called.as_slice() == [0xFF, 0x15, 0xFA, 0xFF, 0xFF, 0xFF].as_slice());
}
