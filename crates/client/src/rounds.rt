//! A loop in a code buffer, whose jumps lead to its labels.

ghost use Rattle.std.specs.Prelude.{◌≡◌, [], IfOk, IsTrue, None};
ghost use Rattle.cranelift_assembler_x64.specs.Instruction.{can_encode_in};
ghost use Rattle.cranelift_assembler_x64.specs.Relative.{relative_in};
ghost use Rattle.cranelift_assembler_x64.specs.declared.DeferredTarget.{DeferredTarget};
ghost use Rattle.client.specs.Rounds.{GoesRound};
ghost use Rattle.x64_code_buffer.specs.Buffer.{buffer_state, places_of};
ghost use Rattle.x64_code_buffer.specs.Laid.{Laid};

use cranelift_assembler_x64::{DeferredTarget, Instruction, SinkError};
use std::alloc::Allocator;
use x64_code_buffer::{CodeBuffer, Condition, Jump};

/// The code of a loop over one instruction without memory, which a jump leaves where the flags say equal. The buffer is a new
/// one, or one that was cleared.
pub fn until_equal<I: Instruction, A: Allocator>(
    mut buffer: CodeBuffer<A>,
    body: &I,
) -> Result<Vec<u8, A>, SinkError>
    requires empty { (buffer_state buffer).bytes ≡ [] }
    requires laid { Laid [] 0 (buffer_state buffer) (places_of buffer) }
    requires free { (target : DeferredTarget) → places_of buffer target ≡ None }
    requires encodable { IsTrue (can_encode_in (buffer_state buffer) (I.meant body.now)) }
    requires memory { (I.meant body.now (buffer_state buffer).offsets).memory ≡ None }
    requires place { relative_in (I.meant body.now (buffer_state buffer).offsets).parts.place ≡ None }
    ensures { IfOk result (λ code. GoesRound code.items) }
{
    let top = buffer.new_label()?;
    let end = buffer.new_label()?;
    let Ok(()) = buffer.bind(top) else {
        return Err(SinkError::Full);
    };
    buffer.push_jump(Jump::If(Condition::E), DeferredTarget::Label(end))?;
    buffer.push(body)?;
    buffer.push_jump(Jump::Always, DeferredTarget::Label(top))?;
    let Ok(()) = buffer.bind(end) else {
        return Err(SinkError::Full);
    };
    match buffer.finish() {
        Ok(code) => Ok(code),
        Err((_buffer, _error)) => Err(SinkError::Full),
    }
}
