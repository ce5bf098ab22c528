//! Relative fields, patched by hand.

use client::encode_if_encodable;
use client::notices::distance;
use client::places::at;
use client::registers::Regs;
use cranelift_assembler_x64::inst::lock_addl_mi_sxb;
use cranelift_assembler_x64::{DeferredTarget, Label, Notice, Recorder, Simm8};
use std::alloc::Allocator;

/// Patches the field at a position. `None` where its four bytes aren't all there, or the target is too far.
fn patch<A: Allocator>(code: &mut Recorder<A>, at: usize, target: usize) -> Option<()> {
    let bytes = code.bytes();
    if bytes.len() < 4 || bytes.len() - 4 < at {
        return None;
    }
    let held = i32::from_le_bytes([bytes[at], bytes[at + 1], bytes[at + 2], bytes[at + 3]]);
    let field = distance(at as u64, target as u64, held)?;
    code.patch4(at, field.cast_unsigned());
    Some(())
}

/// Patches the field of each use of a label, now that its position is known.
fn patch_label<A: Allocator>(code: &mut Recorder<A>, label: Label, target: usize) -> Option<()> {
    for i in 0..code.notices().len() {
        let notice = code.notices().get(i).copied();
        if let Some(Notice::Target(at, DeferredTarget::Label(used))) = notice {
            if used == label {
                patch(code, at, target)?;
            }
        }
    }
    Some(())
}

#[test]
fn a_field_is_patched_by_hand(rt: HostRuntime) {
    let label = Label(5);
    let target = DeferredTarget::Label(label);
    let count: lock_addl_mi_sxb<Regs> = lock_addl_mi_sxb::new(at(target), Simm8::new(-1));
    let mut code = Recorder::new(rt.alloc());
    assert_eq!(rt; encode_if_encodable(&count, &mut code), Ok(true));
    assert_eq!(rt; code.notices(), [Notice::Target(3, target)].as_slice());
    assert_eq!(rt;
        code.bytes(),
        [0xF0, 0x83, 0x05, 0xFF, 0xFF, 0xFF, 0xFF, 0xFF].as_slice()
    );
    assert!(rt; patch_label(&mut code, label, 10).is_some());
    assert_eq!(rt;
        code.bytes(),
        [0xF0, 0x83, 0x05, 2, 0, 0, 0, 0xFF].as_slice()
    );
}
