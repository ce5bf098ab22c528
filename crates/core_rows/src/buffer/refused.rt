//! Instructions that a buffer doesn't take.

use crate::buffer::words::{RAX, late, push, push_checked};
use cax64_encoder::{EncodeError, Fault};
use cax64_sink::SinkError;
use cax64_test_support::TestHeap;
use x64_code_buffer::CodeBuffer;
use x64_core::ops::arithmetic::ADDQ_RM;
use x64_core::ops::control::RETQ_ZO;
use x64_core::ops::moves::{LEAQ_RM, MOVQ_RM};

/// A virtual register is a fault, and the buffer isn't touched: it asks for no memory either.
#[test]
fn a_virtual_register(rt: HostRuntime) {
    let heap = TestHeap::holding(rt.alloc(), 0);
    let mut buffer = CodeBuffer::new(&heap);
    let fault = |at: u8| Err(EncodeError::Fault(Fault::Register(at)));
    assert!(rt; buffer.push_checked(&ADDQ_RM.regs(16, 7)) == fault(0));
    assert!(rt; buffer.push_checked(&MOVQ_RM.regs(RAX, 200)) == fault(1));
    assert!(rt; heap.requests() == 0);
    assert!(rt; buffer.bytes().is_empty() && buffer.notices().is_empty());
}

/// A late offset has to be set in the buffer.
#[test]
fn a_late_offset(rt: HostRuntime) {
    let mut buffer = CodeBuffer::new(rt.alloc());
    let lea = LEAQ_RM.mem(RAX, late(7, 9));
    let unknown = Err(EncodeError::Fault(Fault::Unknown(9)));
    assert!(rt; buffer.push_checked(&lea) == unknown);
    buffer.set_offset(9, -1);
    assert!(rt; push(&mut buffer, &lea) == Ok(()));
    assert!(rt; buffer.bytes() == [0x48, 0x8D, 0x47, 0xFF].as_slice());
}

/// Where memory is refused nothing is put, and with memory the same call puts it.
#[test]
fn no_memory(rt: HostRuntime) {
    let heap = TestHeap::holding(rt.alloc(), 0);
    let mut buffer = CodeBuffer::new(&heap);
    let ret = RETQ_ZO.bare();
    let refused = Err(EncodeError::Sink(SinkError::NoMemory));
    assert!(rt; push(&mut buffer, &ret) == Err(SinkError::NoMemory));
    assert!(rt; push_checked(&mut buffer, &ret) == refused);
    assert!(rt; heap.requests() > 0);
    assert!(rt; buffer.bytes().is_empty() && buffer.notices().is_empty());
    heap.relieve();
    assert!(rt; push(&mut buffer, &ret) == Ok(()));
    assert!(rt; push_checked(&mut buffer, &ret) == Ok(()));
    assert!(rt; buffer.bytes() == [0xC3, 0xC3].as_slice());
}
