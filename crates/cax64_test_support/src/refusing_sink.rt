//! A sink that refuses after so many calls.

ghost use Rattle.std.specs.Prelude.{◌≡◌, ◌<◌, ◌-◌, ◌↔◌, IsOk, IfErr};
ghost use Rattle.cax64_sink.specs.Recorder.{recorder_state};

use cax64_sink::{CodeSink, DeferredTarget, KnownOffset, Recorder, SinkError, TrapCode};
use std::alloc::Allocator;

/// A recorder that lets some calls pass and refuses each later one with `NoMemory`.
#[derive(Drop)]
pub struct RefusingSink<A: Allocator> {
    recorder: Recorder<A>,
    calls: usize,
}

impl<A: Allocator> RefusingSink<A> {
    ghost use Rattle.cax64_test_support.specs.RefusingSink.{refusing_state, calls_left};

    /// `recorder`, which is to take `calls` more calls.
    pub fn new(recorder: Recorder<A>, calls: usize) -> Self
        ensures bytes { (refusing_state result).bytes ≡ (recorder_state recorder).bytes }
        ensures notices { (refusing_state result).notices ≡ (recorder_state recorder).notices }
        ensures offsets { (refusing_state result).offsets ≡ (recorder_state recorder).offsets }
        ensures calls { calls_left result ≡ calls }
    {
        RefusingSink { recorder, calls }
    }

    /// The recorder, with what the calls that passed have added.
    pub fn into_recorder(self) -> Recorder<A>
        ensures bytes { (recorder_state result).bytes ≡ (refusing_state self).bytes }
        ensures notices { (recorder_state result).notices ≡ (refusing_state self).notices }
        ensures offsets { (recorder_state result).offsets ≡ (refusing_state self).offsets }
    {
        self.recorder
    }

    fn pass(&mut self) -> Result<(), SinkError>
        ensures unchanged { refusing_state self.new ≡ refusing_state self.old }
        ensures passes { IsOk result ↔ (0 < calls_left self.old) }
        ensures calls { calls_left self.new ≡ calls_left self.old - 1 }
        ensures error { IfErr result (λ e. e ≡ SinkError.NoMemory) }
    {
        if self.calls == 0 {
            return Err(SinkError::NoMemory);
        }
        self.calls -= 1;
        Ok(())
    }
}

impl<A: Allocator> CodeSink for RefusingSink<A> {
    ghost use Rattle.cax64_test_support.specs.RefusingSink.{refusing_state};

    ghost state = { refusing_state };

    ghost may_stay = { λ _. tt };

    ghost may_go_on = { λ _ _ _ _ _. tt };

    fn put1(&mut self, value: u8) -> Result<(), SinkError> {
        self.pass()?;
        self.recorder.put1(value)
    }

    fn put2(&mut self, value: u16) -> Result<(), SinkError> {
        self.pass()?;
        self.recorder.put2(value)
    }

    fn put4(&mut self, value: u32) -> Result<(), SinkError> {
        self.pass()?;
        self.recorder.put4(value)
    }

    fn put8(&mut self, value: u64) -> Result<(), SinkError> {
        self.pass()?;
        self.recorder.put8(value)
    }

    fn add_trap(&mut self, code: TrapCode) -> Result<(), SinkError> {
        self.pass()?;
        self.recorder.add_trap(code)
    }

    fn use_target(&mut self, place: DeferredTarget) -> Result<(), SinkError> {
        self.pass()?;
        self.recorder.use_target(place)
    }

    fn knows_offset(&self, offset: KnownOffset) -> bool {
        self.recorder.knows_offset(offset)
    }

    fn known_offset(&self, offset: KnownOffset) -> i32 {
        self.recorder.known_offset(offset)
    }
}
