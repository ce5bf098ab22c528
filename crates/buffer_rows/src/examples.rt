//! Worked examples.

use crate::making::{
    FIRST, POOL, SECOND, and_with, bytes_of, call_to, compare_with, jump_to, push, shift,
};
use cax64_machine_code::reading::Place;
use cax64_machine_code::row::Row;
use cax64_sink::{CodeSink, Constant, DeferredTarget, Label, Notice, SinkError};
use std::alloc::{Allocator, Global};
use x64_code_buffer::{BindError, CodeBuffer, FinishError, patched_field};
use x64_reader::read_inst;

#[test]
fn a_field_counts_from_its_end(rt: HostRuntime) {
    assert!(rt; patched_field(3, 100, -1) == Some(92));
    assert!(rt; patched_field(0, 4294967296, 0) == None);
}

/// A comparison with what comes after it.
fn forward(alloc: Global) -> Result<Option<Vec<u8>>, SinkError> {
    let mut buffer = CodeBuffer::new(alloc);
    let label = buffer.new_label()?;
    push(&mut buffer, &compare_with(FIRST))?;
    let bound = buffer.bind(label);
    Ok(if bound.is_ok() {
        bytes_of(buffer)
    } else {
        None
    })
}

/// A call through what comes before it.
fn backward(alloc: Global) -> Result<Option<Vec<u8>>, SinkError> {
    let mut buffer = CodeBuffer::new(alloc);
    let label = buffer.new_label()?;
    let bound = buffer.bind(label);
    push(&mut buffer, &call_to(FIRST))?;
    Ok(if bound.is_ok() {
        bytes_of(buffer)
    } else {
        None
    })
}

#[test]
fn labels_are_bound_before_and_behind(rt: HostRuntime) {
    let ahead = forward(rt.alloc())
        .expect(&rt, "memory")
        .expect(&rt, "code");
    assert!(rt; ahead.as_slice() == [0x0F, 0xC2, 0x05, 0, 0, 0, 0, 0].as_slice());
    let back = backward(rt.alloc())
        .expect(&rt, "memory")
        .expect(&rt, "code");
    assert!(rt; back.as_slice() == [0xFF, 0x15, 0xFA, 0xFF, 0xFF, 0xFF].as_slice());
}

/// The bytes of a buffer that came back unbound, once its label is bound.
fn bound_code<A: Allocator>(mut buffer: CodeBuffer<A>, label: Label) -> Option<Vec<u8, A>> {
    let unbound = buffer.place_of(FIRST).is_none();
    let told = buffer.notices() == [Notice::Target(2, FIRST)].as_slice();
    buffer.bind(label).ok()?;
    let bound = buffer.place_of(FIRST) == Some(6);
    if unbound && told && bound {
        bytes_of(buffer)
    } else {
        None
    }
}

/// Why a buffer can't be finished, and its bytes once its label is bound.
fn refused<A: Allocator>(buffer: CodeBuffer<A>, label: Label) -> Option<(FinishError, Vec<u8, A>)> {
    match buffer.finish() {
        Ok(_) => None,
        Err((again, error)) => match bound_code(again, label) {
            Some(code) => Some((error, code)),
            None => None,
        },
    }
}

#[test]
fn an_unbound_label_refuses_and_the_buffer_comes_back(rt: HostRuntime) {
    let mut buffer = CodeBuffer::new(rt.alloc());
    let label = buffer.new_label().expect(&rt, "a label");
    assert!(rt; push(&mut buffer, &call_to(FIRST)).is_ok());
    let (error, code) = refused(buffer, label).expect(&rt, "a refusal");
    assert!(rt; error == FinishError::Unbound(FIRST));
    assert!(rt; code.as_slice() == [0xFF, 0x15, 0, 0, 0, 0].as_slice());
}

#[test]
fn a_constant_is_bound_by_its_key(rt: HostRuntime) {
    let mut buffer = CodeBuffer::new(rt.alloc());
    assert!(rt; buffer.bind_constant(Constant(7)) == Ok(()));
    assert!(rt; push(&mut buffer, &jump_to(POOL)).is_ok());
    let code = bytes_of(buffer).expect(&rt, "code");
    assert!(rt; code.as_slice() == [0xFF, 0x25, 0xFA, 0xFF, 0xFF, 0xFF].as_slice());
}

#[test]
fn no_target_stays_as_it_is(rt: HostRuntime) {
    let mut buffer = CodeBuffer::new(rt.alloc());
    assert!(rt; push(&mut buffer, &call_to(DeferredTarget::None)).is_ok());
    let code = bytes_of(buffer).expect(&rt, "code");
    assert!(rt; code.as_slice() == [0xFF, 0x15, 0, 0, 0, 0].as_slice());
}

#[test]
fn a_refused_binding_says_why(rt: HostRuntime) {
    let mut buffer = CodeBuffer::new(rt.alloc());
    let label = buffer.new_label().expect(&rt, "a label");
    assert!(rt; buffer.bind(Label(5)) == Err(BindError::Unknown));
    assert!(rt; buffer.bind(label) == Ok(()));
    assert!(rt; buffer.bind(label) == Err(BindError::Twice));
    assert!(rt; buffer.bind_constant(Constant(7)) == Ok(()));
    assert!(rt; buffer.bind_constant(Constant(7)) == Err(BindError::Twice));
    assert!(rt; buffer.new_label() == Ok(Label(1)));
}

#[test]
fn a_field_that_is_not_there_is_too_far(rt: HostRuntime) {
    let mut buffer = CodeBuffer::new(rt.alloc());
    let label = buffer.new_label().expect(&rt, "a label");
    assert!(rt; buffer.bind(label) == Ok(()));
    assert!(rt; buffer.use_target(FIRST).is_ok());
    let error = match buffer.finish() {
        Ok(_) => None,
        Err((_, error)) => Some(error),
    };
    assert!(rt; error == Some(FinishError::TooFar(0)));
}

#[test]
fn a_pool_stands_behind_the_code(rt: HostRuntime) {
    let mut buffer = CodeBuffer::new(rt.alloc());
    assert!(rt; push(&mut buffer, &and_with(POOL)).is_ok());
    assert!(rt; buffer.put1(0).is_ok());
    assert!(rt; buffer.bind_constant(Constant(7)) == Ok(()));
    assert!(rt; buffer.put4(0x0102_0304).is_ok());
    let code = bytes_of(buffer).expect(&rt, "code");
    assert!(rt; code.as_slice() == [0x0F, 0x54, 0x05, 1, 0, 0, 0, 0, 4, 3, 2, 1].as_slice());
}

#[test]
fn a_label_stands_behind_a_later_instruction(rt: HostRuntime) {
    let mut buffer = CodeBuffer::new(rt.alloc());
    let label = buffer.new_label().expect(&rt, "a label");
    assert!(rt; push(&mut buffer, &call_to(FIRST)).is_ok());
    assert!(rt; push(&mut buffer, &shift()).is_ok());
    assert!(rt; buffer.bind(label) == Ok(()));
    let code = bytes_of(buffer).expect(&rt, "code");
    assert!(rt; code.as_slice() == [0xFF, 0x15, 2, 0, 0, 0, 0xD0, 0xE0].as_slice());
}

/// A comparison with a constant, a call through what comes behind, and a jump through what stands at the beginning.
fn calls_through_memory(alloc: Global) -> Result<Option<Vec<u8>>, SinkError> {
    let mut buffer = CodeBuffer::new(alloc);
    let top = buffer.new_label()?;
    let end = buffer.new_label()?;
    let first = buffer.bind(top);
    push(&mut buffer, &compare_with(POOL))?;
    push(&mut buffer, &call_to(SECOND))?;
    push(&mut buffer, &jump_to(FIRST))?;
    let second = buffer.bind(end);
    let third = buffer.bind_constant(Constant(7));
    buffer.put4(0x3F80_0000)?;
    let bound = first.is_ok() && second.is_ok() && third.is_ok();
    Ok(if bound { bytes_of(buffer) } else { None })
}

/// The row that is read at a place, and what its address counts from its end.
fn read_at(code: &[u8], at: usize) -> Option<(Row, i32)> {
    let reading = read_inst(code.get(at..)?)?;
    match reading.place {
        Some(Place::Rip(distance)) => Some((reading.row, distance)),
        _ => None,
    }
}

#[test]
fn calls_through_memory_read_back(rt: HostRuntime) {
    let code = calls_through_memory(rt.alloc())
        .expect(&rt, "memory")
        .expect(&rt, "code");
    let bytes = [
        0x0F, 0xC2, 0x05, 12, 0, 0, 0, 0, 0xFF, 0x15, 6, 0, 0, 0, 0xFF, 0x25, 0xEC, 0xFF, 0xFF,
        0xFF, 0, 0, 0x80, 0x3F,
    ];
    assert!(rt; code.as_slice() == bytes.as_slice());
    assert!(rt; read_at(&code, 0) == Some((Row::cmpps_a, 12)));
    assert!(rt; read_at(&code, 8) == Some((Row::callq_m, 6)));
    assert!(rt; read_at(&code, 14) == Some((Row::jmpq_m, -20)));
}

/// Keys of constants, small and large, in order and not.
const KEYS: [u32; 12] = [0, 31, 7, 32, 23, 33, 100, u32::MAX, 34, 36, 35, 16];

/// A buffer with a constant at each byte, by their keys.
fn with_constants(alloc: Global) -> Result<Option<CodeBuffer<Global>>, SinkError> {
    let mut buffer = CodeBuffer::new(alloc);
    for key in KEYS {
        if buffer.bind_constant(Constant(key)).is_err() {
            return Ok(None);
        }
        buffer.put1(0)?;
    }
    Ok(Some(buffer))
}

/// Whether each constant is bound to its byte, and stays so where it's bound again.
fn are_bound(buffer: &mut CodeBuffer<Global>) -> bool {
    for (place, key) in KEYS.iter().enumerate() {
        let again = buffer.bind_constant(Constant(*key)).err();
        let bound = buffer.place_of(DeferredTarget::Constant(Constant(*key)));
        if again != Some(BindError::Twice) || bound != Some(place) {
            return false;
        }
    }
    true
}

#[test]
fn constants_have_keys_of_all_sizes(rt: HostRuntime) {
    let mut buffer = with_constants(rt.alloc())
        .expect(&rt, "memory")
        .expect(&rt, "constants");
    assert!(rt; are_bound(&mut buffer));
    for key in [1u32, 30, 37, 99, 101] {
        assert!(rt;
            buffer
                .place_of(DeferredTarget::Constant(Constant(key)))
                .is_none()
        );
    }
}
