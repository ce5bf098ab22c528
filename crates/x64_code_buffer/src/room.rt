//! The room for an instruction.

ghost use Rattle.std.specs.Prelude.{◌≡◌, IfErr, IsOk, OnOk};
ghost use Rattle.cax64_sink.specs.Recorder.{recorder_state};
ghost use Rattle.cax64_sink.specs.Room.{HasRoom};
ghost use Rattle.cax64_sink.specs.declared.SinkError.{SinkError};
ghost use Rattle.x64_code_buffer.specs.Buffer.{AsBefore};

use cax64_sink::{Recorder, SinkError};
use std::alloc::Allocator;

/// For how many bytes the first instruction makes room: a stub or a small function has about as many.
const FIRST_ROOM: usize = 64;

/// Makes room for an instruction where there is none: at the first one for a notice and then for a stub's bytes, if there is
/// memory for these, and later as `Vec` grows.
#[inline(never)]
fn grow<A: Allocator>(recorder: &mut Recorder<A>, is_fresh: &mut bool) -> Result<(), SinkError>
    ensures as_before { AsBefore (recorder_state recorder.old) (recorder_state recorder.new) }
    ensures room_for_bytes { OnOk result (HasRoom (recorder_state recorder.new).byte_room 13) }
    ensures room_for_notices { OnOk result (HasRoom (recorder_state recorder.new).notice_room 1) }
    ensures succeeds { HasRoom (recorder_state recorder.old).byte_room 13 → HasRoom (recorder_state recorder.old).notice_room 1 → IsOk result }
    ensures no_memory { IfErr result (λ e. e ≡ SinkError.NoMemory) }
{
    if *is_fresh {
        *is_fresh = false;
        recorder.reserve_first(FIRST_ROOM);
    }
    recorder.reserve_ahead(13, 1)
}

/// Makes room for an instruction. `is_fresh` is whether no room was asked for yet.
#[inline(always)]
pub(crate) fn make_room<A: Allocator>(
    recorder: &mut Recorder<A>,
    is_fresh: &mut bool,
) -> Result<(), SinkError>
    ensures as_before { AsBefore (recorder_state recorder.old) (recorder_state recorder.new) }
    ensures room_for_bytes { OnOk result (HasRoom (recorder_state recorder.new).byte_room 13) }
    ensures room_for_notices { OnOk result (HasRoom (recorder_state recorder.new).notice_room 1) }
    ensures succeeds { HasRoom (recorder_state recorder.old).byte_room 13 → HasRoom (recorder_state recorder.old).notice_room 1 → IsOk result }
    ensures no_memory { IfErr result (λ e. e ≡ SinkError.NoMemory) }
{
    // With one test of both the compiler keeps what kind `push`'s instruction is in one more register, which is saved and
    // restored in each push.
    if !recorder.has_room(13, 0) {
        grow(recorder, is_fresh)?;
    }
    if !recorder.has_room(0, 1) {
        grow(recorder, is_fresh)?;
    }
    Ok(())
}
