//! A sink that keeps the calls that it gets.

ghost use Rattle.std.specs.Prelude.{◌≡◌, [], IfErr};
ghost use Rattle.cax64_sink.specs.Recorder.{recorder_state};

use cax64_sink::{CodeSink, DeferredTarget, KnownOffset, Notice, Recorder, SinkError, TrapCode};
use std::alloc::Allocator;

/// A recorder, and the names of its calls with spaces between them.
#[derive(Drop)]
pub struct CallRecorder<A: Allocator> {
    recorder: Recorder<A>,
    calls: String<A>,
}

impl<A: Allocator> CallRecorder<A> {
    ghost use Rattle.cax64_test_support.specs.CallRecorder.{call_recorder_state, calls_of};

    /// Over `recorder`, with no calls yet.
    pub fn new(alloc: A, recorder: Recorder<A>) -> Self
        ensures bytes { (call_recorder_state result).bytes ≡ (recorder_state recorder).bytes }
        ensures notices { (call_recorder_state result).notices ≡ (recorder_state recorder).notices }
        ensures offsets { (call_recorder_state result).offsets ≡ (recorder_state recorder).offsets }
        ensures calls { calls_of result ≡ [] }
    {
        CallRecorder {
            recorder,
            calls: String::new(alloc),
        }
    }

    pub fn bytes(&self) -> &[u8]
        ensures { result.now ≡ (call_recorder_state self.now).bytes }
    {
        self.recorder.bytes()
    }

    pub fn notices(&self) -> &[Notice]
        ensures { result.now ≡ (call_recorder_state self.now).notices }
    {
        self.recorder.notices()
    }

    pub fn calls(&self) -> &str
        ensures { result.now ≡ calls_of self.now }
    {
        self.calls.as_str()
    }

    fn keep(&mut self, name: &str) -> Result<(), SinkError>
        ensures recorder { self.new.recorder ≡ self.old.recorder }
        ensures error { IfErr result (λ e. e ≡ SinkError.NoMemory) }
    {
        let separator = if self.calls.is_empty() { "" } else { " " };
        let kept = write!(self.calls, "{separator}{name}");
        kept.map_err(|_| SinkError::NoMemory)
    }
}

impl<A: Allocator> CodeSink for CallRecorder<A> {
    ghost use Rattle.cax64_test_support.specs.CallRecorder.{call_recorder_state};

    ghost state = { call_recorder_state };

    ghost may_stay = { λ _. tt };

    ghost may_go_on = { λ _ _ _ _ _. tt };

    fn put1(&mut self, value: u8) -> Result<(), SinkError> {
        self.keep("put1")?;
        self.recorder.put1(value)
    }

    fn put2(&mut self, value: u16) -> Result<(), SinkError> {
        self.keep("put2")?;
        self.recorder.put2(value)
    }

    fn put4(&mut self, value: u32) -> Result<(), SinkError> {
        self.keep("put4")?;
        self.recorder.put4(value)
    }

    fn put8(&mut self, value: u64) -> Result<(), SinkError> {
        self.keep("put8")?;
        self.recorder.put8(value)
    }

    fn add_trap(&mut self, code: TrapCode) -> Result<(), SinkError> {
        self.keep("trap")?;
        self.recorder.add_trap(code)
    }

    fn use_target(&mut self, place: DeferredTarget) -> Result<(), SinkError> {
        self.keep("target")?;
        self.recorder.use_target(place)
    }

    fn knows_offset(&self, offset: KnownOffset) -> bool {
        self.recorder.knows_offset(offset)
    }

    fn known_offset(&self, offset: KnownOffset) -> i32 {
        self.recorder.known_offset(offset)
    }
}
