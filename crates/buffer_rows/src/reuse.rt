//! A buffer that is given room, finished in place, emptied and used again.

use crate::making::{FIRST, POOL, SECOND, bytes_of, call_to, jump_to, push, shift};
use cax64_sink::{CodeSink, Constant, DeferredTarget, Label, SinkError};
use cax64_test_support::TestHeap;
use std::alloc::{Allocator, Global};
use x64_code_buffer::{BindError, CodeBuffer, FinishError};

/// A call through what comes behind, a shift, and a jump through a constant behind both.
fn fill<A: Allocator + Clone>(buffer: &mut CodeBuffer<A>) -> Option<()> {
    let label = buffer.new_label().ok()?;
    push(buffer, &call_to(FIRST)).ok()?;
    push(buffer, &shift()).ok()?;
    buffer.bind(label).ok()?;
    push(buffer, &jump_to(POOL)).ok()?;
    buffer.bind_constant(Constant(7)).ok()?;
    Some(())
}

const CODE: [u8; 14] = [0xFF, 0x15, 2, 0, 0, 0, 0xD0, 0xE0, 0xFF, 0x25, 0, 0, 0, 0];

#[test]
fn a_buffer_is_finished_in_place(rt: HostRuntime) {
    let mut buffer = CodeBuffer::new(rt.alloc());
    fill(&mut buffer).expect(&rt, "memory");
    assert!(rt; buffer.notices().len() == 2);
    assert!(rt; buffer.finish_in_place() == Ok(()));
    assert!(rt; buffer.bytes() == CODE.as_slice());
    assert!(rt; buffer.notices().is_empty());
    // No use is left, so that nothing changes any more.
    assert!(rt; buffer.finish_in_place() == Ok(()));
    assert!(rt; buffer.bytes() == CODE.as_slice());
    assert!(rt; buffer.place_of(FIRST) == Some(8));
    assert!(rt; buffer.place_of(POOL) == Some(14));
    assert!(rt; buffer.bind(Label(0)) == Err(BindError::Twice));
}

#[test]
fn a_buffer_that_cannot_be_finished_stays(rt: HostRuntime) {
    let mut buffer = CodeBuffer::new(rt.alloc());
    let label = buffer.new_label().expect(&rt, "a label");
    let later = buffer.new_label().expect(&rt, "a label");
    assert!(rt; buffer.bind(label) == Ok(()));
    assert!(rt; push(&mut buffer, &call_to(FIRST)).is_ok());
    assert!(rt; push(&mut buffer, &call_to(SECOND)).is_ok());
    assert!(rt; buffer.finish_in_place() == Err(FinishError::Unbound(SECOND)));
    assert!(rt; buffer.bytes() == [0xFF, 0x15, 0, 0, 0, 0, 0xFF, 0x15, 0, 0, 0, 0].as_slice());
    assert!(rt; buffer.notices().len() == 2);
    assert!(rt; buffer.bind(later) == Ok(()));
    assert!(rt; buffer.finish_in_place() == Ok(()));
    assert!(rt;
        buffer.bytes() == [0xFF, 0x15, 0xFA, 0xFF, 0xFF, 0xFF, 0xFF, 0x15, 0, 0, 0, 0].as_slice()
    );
}

#[test]
fn a_cleared_buffer_is_as_a_new_one(rt: HostRuntime) {
    let mut buffer = CodeBuffer::new(rt.alloc());
    buffer.set_offset(3, -5);
    fill(&mut buffer).expect(&rt, "memory");
    assert!(rt; buffer.bind_constant(Constant(0)) == Ok(()));
    buffer.clear();
    assert!(rt; buffer.bytes().is_empty());
    assert!(rt; buffer.notices().is_empty());
    assert!(rt; buffer.place_of(FIRST).is_none());
    assert!(rt; buffer.place_of(POOL).is_none());
    assert!(rt;
        buffer
            .place_of(DeferredTarget::Constant(Constant(0)))
            .is_none()
    );
    assert!(rt; buffer.bind(Label(0)) == Err(BindError::Unknown));
    assert!(rt; buffer.knows_offset(3) && buffer.known_offset(3) == -5);
    fill(&mut buffer).expect(&rt, "memory");
    let code = bytes_of(buffer).expect(&rt, "code");
    assert!(rt; code.as_slice() == CODE.as_slice());
}

/// Whether a buffer that has room takes no more memory.
fn needs_no_more(alloc: Global) -> bool {
    let heap = TestHeap::holding(alloc, 4096);
    let mut buffer = CodeBuffer::new(&heap);
    let reserved = buffer.reserve(39, 3).is_ok() && buffer.reserve_labels(2).is_ok();
    let requests = heap.requests();
    let labels = buffer.new_label() == Ok(Label(0)) && buffer.new_label() == Ok(Label(1));
    let pushes = push(&mut buffer, &call_to(FIRST)).is_ok()
        && push(&mut buffer, &call_to(SECOND)).is_ok()
        && push(&mut buffer, &call_to(FIRST)).is_ok();
    reserved && labels && pushes && requests > 0 && heap.requests() == requests
}

#[test]
fn what_is_reserved_is_there(rt: HostRuntime) {
    assert!(rt; needs_no_more(rt.alloc()));
}

/// Whether room that a heap hasn't got is refused, and what was put stays.
fn is_refused(alloc: Global) -> bool {
    let heap = TestHeap::holding(alloc, 1024);
    let mut buffer = CodeBuffer::new(&heap);
    let put = buffer.put1(7).is_ok();
    let refused = buffer.reserve(2048, 0) == Err(SinkError::NoMemory)
        && buffer.reserve(0, 2048) == Err(SinkError::NoMemory)
        && buffer.reserve_labels(2048) == Err(SinkError::NoMemory);
    let stays = buffer.bytes() == [7].as_slice() && buffer.notices().is_empty();
    put && refused && stays && buffer.new_label() == Ok(Label(0))
}

#[test]
fn room_that_is_not_there_is_refused(rt: HostRuntime) {
    assert!(rt; is_refused(rt.alloc()));
}
