//! One instruction of a list.

ghost use Rattle.std.specs.Prelude.{◌≡◌, ◌≤◌, None};
ghost use Rattle.cax64_sink.specs.Room.{HasRoom};
ghost use Rattle.x64_assemble.specs.Assembled.{WholeReads};
ghost use Rattle.x64_assemble.specs.Listed.{GotEntry, listed};
ghost use Rattle.x64_code_buffer.specs.Buffer.{buffer_state, label_count, places_of};

use cax64_encoder::Fault;
use std::alloc::Allocator;
use x64_code_buffer::CodeBuffer;
use x64_encode::Encode;

/// Why an instruction can't be put, for the offsets that are set. `None` where it can.
pub(crate) fn fault<I: Encode, B: Allocator>(inst: &I, buffer: &CodeBuffer<B>) -> Option<Fault>
    ensures { result ≡ (listed (I.line_meant inst.now) (buffer_state buffer.now).offsets).fault }
{
    inst.first_fault(buffer)
}

/// How many bytes an instruction has that can be put.
pub(crate) fn len<I: Encode, B: Allocator>(inst: &I, buffer: &CodeBuffer<B>) -> u8
    requires { (listed (I.line_meant inst.now) (buffer_state buffer.now).offsets).fault ≡ None }
    ensures value { result ≡ (listed (I.line_meant inst.now) (buffer_state buffer.now).offsets).len }
    ensures most { result ≤ 13 }
{
    inst.encoded_len(buffer)
}

/// Puts an instruction that can be put, where there is room for 13 bytes and a notice.
pub(crate) fn put<I: Encode, B: Allocator>(inst: &I, buffer: &mut CodeBuffer<B>)
    requires fits { (listed (I.line_meant inst.now) (buffer_state buffer.old).offsets).fault ≡ None }
    requires byte_room { HasRoom (buffer_state buffer.old).byte_room 13 }
    requires notice_room { HasRoom (buffer_state buffer.old).notice_room 1 }
    ensures got { GotEntry (WholeReads (listed (I.line_meant inst.now) (buffer_state buffer.old).offsets).parts) (listed (I.line_meant inst.now) (buffer_state buffer.old).offsets).tells (listed (I.line_meant inst.now) (buffer_state buffer.old).offsets).len (buffer_state buffer.old) (buffer_state buffer.new) (places_of buffer.old) (places_of buffer.new) }
    ensures labels { label_count buffer.new ≡ label_count buffer.old }
{
    buffer.push(inst).unwrap();
}
