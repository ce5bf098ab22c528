//! Bytes and no-operations that fill a buffer, and each growth of its calls refused in turn.

use crate::jumps::push_near;
use crate::making::FIRST;
use cax64_sink::{Notice, SinkError};
use cax64_test_support::growth::{Grows, Outcome, is_refused};
use std::alloc::{Allocator, Global};
use x64_code_buffer::{CodeBuffer, Condition, Jump};

/// A buffer with so many bytes.
fn with_bytes(alloc: Global, count: usize) -> Option<CodeBuffer<Global>> {
    let mut buffer = CodeBuffer::new(alloc);
    for _ in 0..count {
        buffer.put_bytes(&[0xCC]).ok()?;
    }
    Some(buffer)
}

/// Whether a buffer with so many bytes ends in these once it is filled up to a multiple of sixteen.
fn is_filled(alloc: Global, count: usize, end: &[u8]) -> Option<bool> {
    let mut buffer = with_bytes(alloc, count)?;
    buffer.align(4).ok()?;
    let len = buffer.len();
    let added = buffer.bytes().get(count..)?;
    Some(len % 16 == 0 && added == end)
}

const NINE: [u8; 9] = [0x66, 0x0F, 0x1F, 0x84, 0, 0, 0, 0, 0];

#[test]
fn no_operations_fill_up_to_a_multiple(rt: HostRuntime) {
    assert!(rt; is_filled(rt.alloc(), 0, &[]) == Some(true));
    assert!(rt; is_filled(rt.alloc(), 15, &[0x90]) == Some(true));
    assert!(rt; is_filled(rt.alloc(), 14, &[0x66, 0x90]) == Some(true));
    assert!(rt; is_filled(rt.alloc(), 13, &[0x0F, 0x1F, 0]) == Some(true));
    assert!(rt; is_filled(rt.alloc(), 12, &[0x0F, 0x1F, 0x40, 0]) == Some(true));
    assert!(rt; is_filled(rt.alloc(), 11, &[0x0F, 0x1F, 0x44, 0, 0]) == Some(true));
    assert!(rt; is_filled(rt.alloc(), 10, &[0x66, 0x0F, 0x1F, 0x44, 0, 0]) == Some(true));
    assert!(rt; is_filled(rt.alloc(), 9, &[0x0F, 0x1F, 0x80, 0, 0, 0, 0]) == Some(true));
    assert!(rt; is_filled(rt.alloc(), 8, &[0x0F, 0x1F, 0x84, 0, 0, 0, 0, 0]) == Some(true));
    assert!(rt; is_filled(rt.alloc(), 7, &NINE) == Some(true));
    let ten = [0x66, 0x0F, 0x1F, 0x84, 0, 0, 0, 0, 0, 0x90];
    assert!(rt; is_filled(rt.alloc(), 6, &ten) == Some(true));
    assert!(rt; is_filled(rt.alloc(), 16, &[]) == Some(true));
}

#[test]
fn a_multiple_of_one_takes_nothing(rt: HostRuntime) {
    let mut buffer = with_bytes(rt.alloc(), 3).expect(&rt, "memory");
    assert!(rt; buffer.align(0).is_ok());
    assert!(rt; buffer.len() == 3);
}

#[test]
fn a_buffer_has_a_length(rt: HostRuntime) {
    let mut buffer = CodeBuffer::new(rt.alloc());
    assert!(rt; buffer.is_empty());
    assert!(rt; buffer.put_bytes(&[]).is_ok());
    assert!(rt; buffer.is_empty());
    assert!(rt; buffer.put_bytes(&[1, 2, 3, 4, 5, 6, 7, 8, 9, 10]).is_ok());
    assert!(rt; !buffer.is_empty());
    assert!(rt; buffer.len() == 10);
    assert!(rt; buffer.bytes() == [1, 2, 3, 4, 5, 6, 7, 8, 9, 10].as_slice());
}

#[test]
fn four_bytes_are_written_over(rt: HostRuntime) {
    let mut buffer = CodeBuffer::new(rt.alloc());
    assert!(rt; buffer.put_bytes(&[1, 2, 3, 4, 5, 6]).is_ok());
    assert!(rt; buffer.len() == 6);
    buffer.patch4(1, 0x0A0B_0C0D);
    assert!(rt; buffer.bytes() == [1, 0x0D, 0x0C, 0x0B, 0x0A, 6].as_slice());
}

/// Jumps of each form, data and no-operations.
#[derive(Clone, Copy)]
struct All;

/// What the jumps, the data and the no-operations come to.
const ALL: [u8; 16] = [
    0xE9, 0, 0, 0, 0, 0x0F, 0x84, 0, 0, 0, 0, 0xCC, 0x0F, 0x1F, 0x40, 0,
];

fn fill_all<A: Allocator>(buffer: &mut CodeBuffer<A>) -> Result<(), SinkError> {
    buffer.push_long_jump(Jump::Always, FIRST)?;
    buffer.push_jump(Jump::If(Condition::E), FIRST)?;
    buffer.put_bytes(&[0xCC])?;
    buffer.align(4)
}

impl Grows for All {
    fn run<A: Allocator + Copy>(&self, alloc: A) -> Outcome {
        let mut buffer = CodeBuffer::new(alloc);
        let ended = fill_all(&mut buffer);
        let told = [Notice::Target(1, FIRST), Notice::Target(7, FIRST)];
        let is_front = ALL.as_slice().starts_with(buffer.bytes());
        if !is_front || !told.as_slice().starts_with(buffer.notices()) {
            return Outcome::Wrong;
        }
        match ended {
            Ok(()) if buffer.len() == 16 => Outcome::Made,
            Ok(()) => Outcome::Wrong,
            Err(SinkError::NoMemory) if is_between(buffer.len()) => Outcome::Refused,
            Err(_) => Outcome::Wrong,
        }
    }
}

/// A length at which a call may have been refused: behind a whole call.
fn is_between(len: usize) -> bool {
    matches!(len, 0 | 5 | 11 | 12)
}

/// The same, with one call alone behind bytes that fill the room.
#[derive(Clone, Copy)]
enum One {
    Long,
    Near,
    Far,
    Bytes,
    Align,
}

fn make_one<A: Allocator>(buffer: &mut CodeBuffer<A>, one: One) -> Result<(), SinkError> {
    match one {
        One::Long => buffer.push_long_jump(Jump::Call, FIRST),
        One::Near => push_near(buffer, Jump::Always, 0),
        One::Far => buffer.push_far(Jump::Always, 0),
        One::Bytes => buffer.put_bytes(&[7; 100]),
        One::Align => buffer.align(9),
    }
}

impl Grows for One {
    fn run<A: Allocator + Copy>(&self, alloc: A) -> Outcome {
        let mut buffer = CodeBuffer::new(alloc);
        if buffer.put_bytes(&[1]).is_err() {
            return Outcome::Refused;
        }
        let ended = make_one(&mut buffer, *self);
        let (bytes, notices) = (buffer.len(), buffer.notices().len());
        match ended {
            Ok(()) if bytes > 1 => Outcome::Made,
            Err(SinkError::NoMemory) if bytes == 1 && notices == 0 => Outcome::Refused,
            _ => Outcome::Wrong,
        }
    }
}

#[test]
fn each_growth_leaves_whole_calls(rt: HostRuntime) {
    assert!(rt; is_refused(rt.alloc(), &All, 2));
    assert!(rt; is_refused(rt.alloc(), &One::Long, 2));
    assert!(rt; is_refused(rt.alloc(), &One::Near, 2));
    assert!(rt; is_refused(rt.alloc(), &One::Far, 2));
    assert!(rt; is_refused(rt.alloc(), &One::Bytes, 2));
    assert!(rt; is_refused(rt.alloc(), &One::Align, 2));
}
