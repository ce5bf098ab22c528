//! Room that is made at once for several instructions.

ghost use Rattle.std.specs.Prelude.{IsTrue, OnErr};
ghost use Rattle.cranelift_assembler_x64.specs.Instruction.{can_encode_in};
ghost use Rattle.x64_code_buffer.specs.Buffer.{AsBefore, buffer_state};

use cranelift_assembler_x64::{Instruction, SinkError};
use std::alloc::Allocator;
use x64_code_buffer::CodeBuffer;

/// Pushes three instructions, or none: where there is room for all, none can be refused.
pub fn push_three<I: Instruction, A: Allocator>(
    first: &I,
    second: &I,
    third: &I,
    buffer: &mut CodeBuffer<A>,
) -> Result<(), SinkError>
    requires first { IsTrue (can_encode_in (buffer_state buffer.old) (I.meant first.now)) }
    requires second { IsTrue (can_encode_in (buffer_state buffer.old) (I.meant second.now)) }
    requires third { IsTrue (can_encode_in (buffer_state buffer.old) (I.meant third.now)) }
    ensures { OnErr result (AsBefore (buffer_state buffer.old) (buffer_state buffer.new)) }
{
    buffer.reserve(39, 3)?;
    buffer.push(first).unwrap();
    buffer.push(second).unwrap();
    buffer.push(third).unwrap();
    Ok(())
}
