//! Bytes that are put by hand, and bytes that are written over.

ghost use Rattle.std.specs.Prelude.{◌≡◌, ◌≤◌, ◌+◌, ◌++◌, ◌↔◌, ℕ, [], List, OnOk, OnErr, IfErr, IsOk, IsTrue, length};
ghost use Rattle.std.specs.Int.{to_le_bytes, w32};
ghost use Rattle.cax64_machine_code.specs.declared.reading.Reading.{Reading};
ghost use Rattle.cax64_sink.specs.Keeps.{Keeps};
ghost use Rattle.cax64_sink.specs.Recorder.{recorder_state, with_patch};
ghost use Rattle.cax64_sink.specs.Room.{HasRoom, FallsBy};
ghost use Rattle.cax64_sink.specs.declared.SinkError.{SinkError};
ghost use Rattle.x64_code_buffer.specs.Put.{PutsBytes};

use crate::buffer::CodeBuffer;
use cax64_sink::{CodeSink, Recorder, SinkError};
use std::alloc::Allocator;

/// Puts bytes for which there is room.
fn put_all<A: Allocator>(recorder: &mut Recorder<A>, bytes: &[u8])
    requires { HasRoom (recorder_state recorder.old).byte_room (length bytes.now) }
    ensures { PutsBytes bytes.now (recorder_state recorder.old) (recorder_state recorder.new) }
{
    for byte in bytes {
        recorder.put1(*byte).unwrap();
    }
}

impl<A: Allocator> CodeBuffer<A> {
    ghost use Rattle.x64_code_buffer.specs.Binding.{SamePlaces};
    ghost use Rattle.x64_code_buffer.specs.Buffer.{AsBefore, StaysFilled, buffer_state, label_count, label_room, places_of};
    ghost use Rattle.x64_code_buffer.specs.Filled.{Filled};
    ghost use Rattle.x64_code_buffer.specs.Laid.{Laid, Piece};

    /// How many bytes were put.
    pub fn len(&self) -> usize
        ensures { result ≡ length (buffer_state self.now).bytes }
    {
        self.recorder.bytes().len()
    }

    /// Whether no byte was put.
    pub fn is_empty(&self) -> bool
        ensures { IsTrue result ↔ ((buffer_state self.now).bytes ≡ []) }
    {
        self.recorder.bytes().is_empty()
    }

    /// Puts bytes, as data. It makes room for them first, as [`reserve`](Self::reserve) does, so a refusal leaves all as it
    /// was but the rooms.
    pub fn put_bytes(&mut self, bytes: &[u8]) -> Result<(), SinkError>
        ensures adds { OnOk result ((buffer_state self.new).bytes ≡ (buffer_state self.old).bytes ++ bytes.now) }
        ensures notices { (buffer_state self.new).notices ≡ (buffer_state self.old).notices }
        ensures unchanged { OnErr result (AsBefore (buffer_state self.old) (buffer_state self.new)) }
        ensures error { IfErr result (λ e. e ≡ SinkError.NoMemory) }
        ensures enough { HasRoom (buffer_state self.old).byte_room (length bytes.now) → IsOk result }
        ensures byte_room { FallsBy (buffer_state self.old).byte_room (buffer_state self.new).byte_room (length bytes.now) }
        ensures notice_room { FallsBy (buffer_state self.old).notice_room (buffer_state self.new).notice_room 0 }
        ensures keeps { Keeps (buffer_state self.old) (buffer_state self.new) }
        ensures labels { label_count self.new ≡ label_count self.old }
        ensures label_room { label_room self.new ≡ label_room self.old }
        ensures places { SamePlaces (places_of self.old) (places_of self.new) }
        ensures filled { StaysFilled self.old self.new }
    {
        self.reserve(bytes.len(), 0)?;
        put_all(&mut self.recorder, bytes);
        Ok(())
    }

    /// Writes four bytes over those from `at` on, the lowest first. Takes no memory.
    ///
    /// All four have to be there: `at` is at most their number less 4. Where they aren't, a build that wasn't proved may
    /// abort. What the buffer is filled with, or laid out in, in front of `at` stays so; what these bytes were part of
    /// may read as something else.
    pub fn patch4(&mut self, at: usize, value: u32)
        requires { at + 4 ≤ length (buffer_state self.old).bytes }
        ensures state { buffer_state self.new ≡ with_patch at (to_le_bytes w32 value) (buffer_state self.old) }
        ensures labels { label_count self.new ≡ label_count self.old }
        ensures label_room { label_room self.new ≡ label_room self.old }
        ensures places { SamePlaces (places_of self.old) (places_of self.new) }
        ensures filled { (readings : List Reading) (n : ℕ) → n ≤ at → Filled readings n (buffer_state self.old) (places_of self.old) → Filled readings n (buffer_state self.new) (places_of self.new) }
        ensures laid { (pieces : List Piece) (n : ℕ) → n ≤ at → Laid pieces n (buffer_state self.old) (places_of self.old) → Laid pieces n (buffer_state self.new) (places_of self.new) }
    {
        self.recorder.patch4(at, value);
    }
}
