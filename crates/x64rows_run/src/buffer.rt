//! The command `buffer`.

ghost use Rattle.std.specs.Prelude.{◌≢◌, ℕ, ℤ, Option, IsTrue, IfErr};
ghost use Rattle.cax64_encoder.specs.Fault.{is_encodable};

use cax64_address::amode::Amode;
use cax64_address::operand::{GprMem, XmmMem};
use cax64_encoder::Instruction;
use cax64_immediate::Imm8;
use cax64_operand::Numbers;
use cax64_register::Xmm;
use cax64_sink::{DeferredTarget, Label};
use jump::callq_m;
use simd::cmpps_a;
use std::alloc::Allocator;
use x64_code_buffer::CodeBuffer;
use x64rows_command::Fault;

/// The next label of a buffer.
fn label_of<A: Allocator>(buffer: &mut CodeBuffer<A>) -> Result<Label, Fault>
    ensures { IfErr result (λ fault. fault ≢ Fault.Usage) }
{
    buffer.new_label().map_err(|_| Fault::NoMemory)
}

/// Puts an instruction.
fn push<I: Instruction, A: Allocator>(buffer: &mut CodeBuffer<A>, inst: &I) -> Result<(), Fault>
    requires { (offsets : ℕ → Option ℤ) → IsTrue (is_encodable offsets (I.meant inst.now offsets)) }
    ensures { IfErr result (λ fault. fault ≢ Fault.Usage) }
{
    buffer.push(inst).map_err(|_| Fault::NoMemory)
}

/// A comparison with what is behind it.
pub fn forward<A: Allocator + Copy>(alloc: A) -> Result<Vec<u8, A>, Fault>
    ensures { IfErr result (λ fault. fault ≢ Fault.Usage) }
{
    let mut buffer = CodeBuffer::new(alloc);
    let label = label_of(&mut buffer)?;
    let target = DeferredTarget::Label(label);
    let place = XmmMem::Mem(Amode::RipRelative { target });
    let compare: cmpps_a<Numbers> = cmpps_a::new(Xmm::new(0), place, Imm8::new(0));
    push(&mut buffer, &compare)?;
    let _ = buffer.bind(label);
    finished(buffer)
}

/// A call through what is before it.
pub fn backward<A: Allocator + Copy>(alloc: A) -> Result<Vec<u8, A>, Fault>
    ensures { IfErr result (λ fault. fault ≢ Fault.Usage) }
{
    let mut buffer = CodeBuffer::new(alloc);
    let label = label_of(&mut buffer)?;
    let _ = buffer.bind(label);
    let target = DeferredTarget::Label(label);
    let call: callq_m<Numbers> = callq_m::new(GprMem::Mem(Amode::RipRelative { target }));
    push(&mut buffer, &call)?;
    finished(buffer)
}

/// The bytes of a buffer. Nothing is refused: its label was given and is bound once, and is near.
fn finished<A: Allocator>(buffer: CodeBuffer<A>) -> Result<Vec<u8, A>, Fault>
    ensures { IfErr result (λ fault. fault ≢ Fault.Usage) }
{
    buffer.finish().map_err(|(_, _)| Fault::NoMemory)
}
