//! A loop, with a word in front of it, a word behind it and a pool of constants.

use client::places::at;
use client::registers::{Reg, Regs};
use cranelift_assembler_x64::inst::{andps_a, lock_addl_mi_sxb, lock_addl_mr};
use cranelift_assembler_x64::reader::{Place, read_inst};
use cranelift_assembler_x64::{
    CodeSink, Constant, DeferredTarget, EncodeError, Gpr, Label, Row, Simm8, SinkError, Xmm, XmmMem,
};
use std::alloc::Allocator;
use x64_code_buffer::{CodeBuffer, Condition, Jump};

/// The key of a constant of sixteen bytes. Keys are the caller's to choose.
const MASK: Constant = Constant(7);

/// A call of the buffer that isn't a checked one has the sink's error alone.
fn or_refused<T>(answer: Result<T, SinkError>) -> Result<T, EncodeError> {
    answer.map_err(|error| EncodeError::Sink(error))
}

/// Adds register 1 to a word, masks vector register 0, and counts another word down to 0. Answers whether the top was bound.
fn push_loop<A: Allocator>(
    buffer: &mut CodeBuffer<A>,
    total: Label,
    left: Label,
) -> Result<bool, EncodeError> {
    let top = or_refused(buffer.new_label())?;
    let top_is_bound = buffer.bind(top).is_ok();
    let total = at(DeferredTarget::Label(total));
    let left = at(DeferredTarget::Label(left));
    let mask = XmmMem::Mem(at(DeferredTarget::Constant(MASK)));
    buffer.push_checked(&lock_addl_mr::<Regs>::new(total, Gpr::new(Reg(1))))?;
    buffer.push_checked(&andps_a::<Regs>::new(Xmm::new(Reg(0)), mask))?;
    buffer.push_checked(&lock_addl_mi_sxb::<Regs>::new(left, Simm8::new(-1)))?;
    or_refused(buffer.push_jump(Jump::If(Condition::Ne), DeferredTarget::Label(top)))?;
    Ok(top_is_bound)
}

/// A word in front, the loop, a word behind it, and the pool. `None` where a label or the constant was bound before, or what
/// a place refers to wasn't bound at all or is too far.
fn counted_loop<A: Allocator + Copy>(alloc: A) -> Result<Option<Vec<u8, A>>, EncodeError> {
    let mut buffer = CodeBuffer::new(alloc);
    let total = or_refused(buffer.new_label())?;
    let left = or_refused(buffer.new_label())?;

    let total_is_bound = buffer.bind(total).is_ok();
    or_refused(buffer.put4(0))?;
    let top_is_bound = push_loop(&mut buffer, total, left)?;
    let left_is_bound = buffer.bind(left).is_ok();
    or_refused(buffer.put4(3))?;
    let mask_is_bound = buffer.bind_constant(MASK).is_ok();
    or_refused(buffer.put8(0x7FFF_FFFF_7FFF_FFFF))?;
    or_refused(buffer.put8(0x7FFF_FFFF_7FFF_FFFF))?;

    if !(top_is_bound && total_is_bound && left_is_bound && mask_is_bound) {
        return Ok(None);
    }
    match buffer.finish() {
        Ok(code) => Ok(Some(code)),
        Err((_buffer, _error)) => Ok(None),
    }
}

const LOOP: [u8; 48] = [
    0, 0, 0, 0, 0xF0, 0x01, 0x0D, 0xF5, 0xFF, 0xFF, 0xFF, 0x0F, 0x54, 0x05, 14, 0, 0, 0, 0xF0,
    0x83, 0x05, 2, 0, 0, 0, 0xFF, 0x75, 0xE8, 3, 0, 0, 0, 0xFF, 0xFF, 0xFF, 0x7F, 0xFF, 0xFF, 0xFF,
    0x7F, 0xFF, 0xFF, 0xFF, 0x7F, 0xFF, 0xFF, 0xFF, 0x7F,
];

#[test]
fn a_loop_has_labels_and_a_pool(rt: HostRuntime) {
    let code = counted_loop(rt.alloc()).expect(&rt, "memory");
    let code = code.expect(&rt, "all is bound");
    assert_eq!(rt; code.as_slice(), LOOP.as_slice());
}

/// The row that is read at a position, its number of bytes, and the distance of its target where it has one.
fn read_at(code: &[u8], at: usize) -> Option<(Row, u8, Option<i32>)> {
    let reading = read_inst(code.get(at..)?)?;
    match reading.place {
        Some(Place::Rip(distance)) => Some((reading.row, reading.length, Some(distance))),
        _ => Some((reading.row, reading.length, None)),
    }
}

#[test]
fn the_loop_reads_back(rt: HostRuntime) {
    assert!(rt; read_at(&LOOP, 4) == Some((Row::lock_addl_mr, 7, Some(-11))));
    assert!(rt; read_at(&LOOP, 11) == Some((Row::andps_a, 7, Some(14))));
    assert!(rt; read_at(&LOOP, 18) == Some((Row::lock_addl_mi_sxb, 8, Some(2))));
    assert!(rt; read_at(&LOOP, 26) == Some((Row::jne_d8, 2, None)));
}
