//! An instruction that is put and read.

ghost use Rattle.std.specs.Prelude.{◌≡◌, [], IfOk, IsTrue};
ghost use Rattle.cax64_sink.specs.Vec.{vec_state};
ghost use Rattle.x64_core.specs.Core.{is_encodable};
ghost use Rattle.x64_core.specs.View.{core_view};

use cax64_sink::SinkError;
use std::alloc::Allocator;
use x64_core::Core;
use x64_core::laws::what_encode_adds_is_read;
use x64_lines::Op;
use x64_reader::read_core;

/// Puts an instruction into an empty vector, and reads which line's it is: that of the one that was put.
pub fn put_and_read<A: Allocator>(core: &Core, code: &mut Vec<u8, A>) -> Result<Op, SinkError>
    requires encodable { IsTrue (is_encodable (vec_state code.old).offsets (core_view core.now)) }
    requires empty { code.old.items ≡ [] }
    ensures { IfOk result (λ op. op.number ≡ (core_view core.now).op) }
{
    core.encode(code)?;
    what_encode_adds_is_read(core);
    let reading = read_core(&code[..]).unwrap();
    Ok(reading.op)
}
