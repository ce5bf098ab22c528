//! A sink that keeps bytes and notices.

ghost use Rattle.std.specs.Prelude.{◌≡◌, ◌≤◌, ◌+◌, ℕ, [], length, OnOk, IfErr, IsOk, IsTrue};
ghost use Rattle.std.specs.Int.{to_le_bytes, w32};
ghost use Rattle.cax64_sink.specs.Room.{HasRoom, FallsBy, count};

use crate::known::Known;
use crate::vec::{grow_ahead, make_first_room, make_room};
use crate::{CodeSink, DeferredTarget, KnownOffset, Notice, SinkError, TrapCode};
use std::alloc::Allocator;

/// For how many notices a first block is, as `Vec::push` would ask for it.
const FIRST_NOTICES: usize = 4;

/// Keeps bytes and notices, and knows the offsets that were set.
#[derive(Drop)]
pub struct Recorder<A: Allocator> {
    code: Vec<u8, A>,
    told: Vec<Notice, A>,
    known: Known,
}

impl<A: Allocator + Copy> Recorder<A> {
    ghost use Rattle.cax64_sink.specs.Recorder.{recorder_state};

    /// An empty recorder that knows no offset. Takes no memory.
    #[inline(always)]
    pub fn new(alloc: A) -> Self
        ensures bytes { (recorder_state result).bytes ≡ [] }
        ensures notices { (recorder_state result).notices ≡ [] }
        ensures offsets { (key : ℕ) → (recorder_state result).offsets key ≡ None }
        ensures byte_room { (recorder_state result).byte_room ≡ count 0 }
        ensures notice_room { (recorder_state result).notice_room ≡ count 0 }
    {
        Recorder {
            code: Vec::new(alloc),
            told: Vec::new(alloc),
            known: Known::new(),
        }
    }
}

impl<A: Allocator> Recorder<A> {
    ghost use Rattle.cax64_sink.specs.Recorder.{recorder_state, with_offset, with_patch};
    ghost use Rattle.cax64_sink.specs.Cleared.{cleared, without_notices};
    ghost use Rattle.cax64_sink.specs.Vec.{vec_state};

    /// Makes `offset` known, or replaces its value. Takes no memory.
    pub fn set_offset(&mut self, offset: KnownOffset, value: i32)
        ensures { recorder_state self.new ≡ with_offset offset value (recorder_state self.old) }
    {
        self.known.set(offset, value);
    }

    /// All bytes that were put.
    pub fn bytes(&self) -> &[u8]
        ensures { result.now ≡ (recorder_state self.now).bytes }
    {
        self.code.as_slice()
    }

    /// The notices in the order in which they were told.
    pub fn notices(&self) -> &[Notice]
        ensures { result.now ≡ (recorder_state self.now).notices }
    {
        self.told.as_slice()
    }

    /// Whether there is room for so many more bytes and notices: then [`reserve`](Self::reserve) has nothing to do.
    #[inline(always)]
    pub fn has_room(&self, bytes: usize, notices: usize) -> bool
        ensures bytes { IsTrue result → HasRoom (recorder_state self.now).byte_room bytes }
        ensures notices { IsTrue result → HasRoom (recorder_state self.now).notice_room notices }
        ensures both { HasRoom (recorder_state self.now).byte_room bytes → HasRoom (recorder_state self.now).notice_room notices → IsTrue result }
    {
        bytes <= self.code.capacity() - self.code.len()
            && notices <= self.told.capacity() - self.told.len()
    }

    /// Makes room for so many more bytes and notices.
    ///
    /// A list that has to grow asks for twice its room, as `Vec::reserve` does, so that many calls take time in proportion
    /// to what they make room for; and where that is refused, for exactly what is missing. The rooms may be larger after a
    /// refusal than before.
    pub fn reserve(&mut self, bytes: usize, notices: usize) -> Result<(), SinkError>
        ensures bytes { (recorder_state self.new).bytes ≡ (recorder_state self.old).bytes }
        ensures notices { (recorder_state self.new).notices ≡ (recorder_state self.old).notices }
        ensures offsets { (recorder_state self.new).offsets ≡ (recorder_state self.old).offsets }

        ensures room_for_bytes { OnOk result (HasRoom (recorder_state self.new).byte_room bytes) }
        ensures room_for_notices { OnOk result (HasRoom (recorder_state self.new).notice_room notices) }
        ensures byte_room_stays { FallsBy (recorder_state self.old).byte_room (recorder_state self.new).byte_room 0 }
        ensures notice_room_stays { FallsBy (recorder_state self.old).notice_room (recorder_state self.new).notice_room 0 }

        ensures succeeds { HasRoom (recorder_state self.old).byte_room bytes → HasRoom (recorder_state self.old).notice_room notices → IsOk result }
        ensures no_memory { IfErr result (λ e. e ≡ SinkError.NoMemory) }
    {
        make_room(&mut self.code, bytes)?;
        make_room(&mut self.told, notices)
    }

    /// Makes room as [`reserve`](Self::reserve) does, for callers that will ask for as much again and again. The first block
    /// for bytes has room for two such calls, where there is memory for it.
    pub fn reserve_ahead(&mut self, bytes: usize, notices: usize) -> Result<(), SinkError>
        ensures bytes { (recorder_state self.new).bytes ≡ (recorder_state self.old).bytes }
        ensures notices { (recorder_state self.new).notices ≡ (recorder_state self.old).notices }
        ensures offsets { (recorder_state self.new).offsets ≡ (recorder_state self.old).offsets }

        ensures room_for_bytes { OnOk result (HasRoom (recorder_state self.new).byte_room bytes) }
        ensures room_for_notices { OnOk result (HasRoom (recorder_state self.new).notice_room notices) }
        ensures byte_room_stays { FallsBy (recorder_state self.old).byte_room (recorder_state self.new).byte_room 0 }
        ensures notice_room_stays { FallsBy (recorder_state self.old).notice_room (recorder_state self.new).notice_room 0 }

        ensures succeeds { HasRoom (recorder_state self.old).byte_room bytes → HasRoom (recorder_state self.old).notice_room notices → IsOk result }
        ensures no_memory { IfErr result (λ e. e ≡ SinkError.NoMemory) }
    {
        if self.code.capacity() - self.code.len() < bytes {
            grow_ahead(&mut self.code, bytes)?;
        }
        make_room(&mut self.told, notices)
    }

    /// Makes room for a notice, and only then for so many more bytes: so what these take is never what the notice lacks.
    /// Where one of both is refused, there is as much room as before.
    pub fn reserve_first(&mut self, bytes: usize)
        ensures bytes { (recorder_state self.new).bytes ≡ (recorder_state self.old).bytes }
        ensures notices { (recorder_state self.new).notices ≡ (recorder_state self.old).notices }
        ensures offsets { (recorder_state self.new).offsets ≡ (recorder_state self.old).offsets }
        ensures byte_room_stays { FallsBy (recorder_state self.old).byte_room (recorder_state self.new).byte_room 0 }
        ensures notice_room_stays { FallsBy (recorder_state self.old).notice_room (recorder_state self.new).notice_room 0 }
    {
        if make_first_room(&mut self.told, FIRST_NOTICES, 1).is_ok() {
            let _ = make_first_room(&mut self.code, bytes, bytes);
        }
    }

    /// Forgets bytes and notices, and keeps the offsets that were set and all memory.
    pub fn clear(&mut self)
        ensures { recorder_state self.new ≡ cleared (recorder_state self.old) }
    {
        self.code.clear();
        self.told.clear();
    }

    /// Forgets the notices, and keeps their memory.
    pub fn clear_notices(&mut self)
        ensures { recorder_state self.new ≡ without_notices (recorder_state self.old) }
    {
        self.told.clear();
    }

    /// Writes four bytes over those from `at` on, the lowest first. Takes no memory.
    ///
    /// All four have to be there: `at` is at most their number less 4. Where they aren't, a build that wasn't proved
    /// may abort.
    pub fn patch4(&mut self, at: usize, value: u32)
        requires { at + 4 ≤ length (recorder_state self.old).bytes }
        ensures { recorder_state self.new ≡ with_patch at (to_le_bytes w32 value) (recorder_state self.old) }
    {
        self.code[at..at + 4].copy_from_slice(&value.to_le_bytes());
    }

    /// Gives the bytes, and lets go of the notices. Takes no memory.
    pub fn into_bytes(self) -> Vec<u8, A>
        ensures bytes { result.items ≡ (recorder_state self).bytes }
        ensures room { (vec_state result).byte_room ≡ (recorder_state self).byte_room }
    {
        let Recorder { code, .. } = self;
        code
    }
}

impl<A: Allocator> CodeSink for Recorder<A> {
    ghost use Rattle.cax64_sink.specs.Recorder.{recorder_state};

    ghost state = { recorder_state };

    ghost may_stay = { λ _. tt };

    ghost may_go_on = { λ _ _ _ _ _. tt };

    fn put1(&mut self, value: u8) -> Result<(), SinkError> {
        self.code.put1(value)
    }

    fn put2(&mut self, value: u16) -> Result<(), SinkError> {
        self.code.put2(value)
    }

    fn put4(&mut self, value: u32) -> Result<(), SinkError> {
        self.code.put4(value)
    }

    fn put8(&mut self, value: u64) -> Result<(), SinkError> {
        self.code.put8(value)
    }

    fn put_low_bytes(&mut self, word: u64, count: u8) -> Result<(), SinkError> {
        self.code.put_low_bytes(word, count)
    }

    fn put_rest(&mut self, long: Option<u32>, imm: u32, imm_len: u8) -> Result<(), SinkError> {
        self.code.put_rest(long, imm, imm_len)
    }

    fn add_trap(&mut self, code: TrapCode) -> Result<(), SinkError> {
        let at = self.code.len();
        self.told
            .push(Notice::Trap(at, code))
            .map_err(|_| SinkError::NoMemory)
    }

    fn use_target(&mut self, place: DeferredTarget) -> Result<(), SinkError> {
        let at = self.code.len();
        self.told
            .push(Notice::Target(at, place))
            .map_err(|_| SinkError::NoMemory)
    }

    fn knows_offset(&self, offset: KnownOffset) -> bool {
        self.known.get(offset).is_some()
    }

    fn known_offset(&self, offset: KnownOffset) -> i32 {
        self.known.get(offset).unwrap()
    }
}
