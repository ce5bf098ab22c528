//! A sink of fixed size.

ghost use Rattle.std.specs.Prelude.{◌≡◌, ◌≤◌, ◌<◌, ◌+◌, ◌++◌, ◌∷◌, [], take, length, pos, OnOk, OnErr, IfErr};
ghost use Rattle.cax64_sink.specs.Call.{Step, put};
ghost use Rattle.cax64_sink.specs.Puts.{puts};
ghost use Rattle.cax64_sink.specs.Run.{Ran};

use crate::{CodeSink, DeferredTarget, KnownOffset, SinkError, TrapCode};

/// Keeps up to `N` bytes in itself. Takes no memory.
#[derive(Drop)]
pub struct FixedSink<const N: usize> {
    held: [u8; N],
    len: usize,
    ghost within: { len ≤ N },
}

impl<const N: usize> FixedSink<N> {
    ghost use Rattle.cax64_sink.specs.FixedSink.{fixed_sink_state};
    ghost use Rattle.cax64_sink.specs.Cleared.{cleared};

    /// An empty sink.
    pub fn new() -> Self
        ensures { (fixed_sink_state result).bytes ≡ [] }
    {
        FixedSink {
            held: [0; N],
            len: 0,
        }
    }

    /// All bytes that were put.
    pub fn bytes(&self) -> &[u8]
        ensures value { result.now ≡ (fixed_sink_state self.now).bytes }
        ensures within { length result.now ≤ N }
    {
        &self.held[..self.len]
    }

    /// Forgets all bytes.
    pub fn clear(&mut self)
        ensures { fixed_sink_state self.new ≡ cleared (fixed_sink_state self.old) }
    {
        self.len = 0;
    }

    fn append(&mut self, more: &[u8]) -> Result<(), SinkError>
        ensures added { OnOk result (take self.new.len self.new.held ≡ take self.old.len self.old.held ++ more.now) }
        ensures len { OnOk result (self.new.len ≡ self.old.len + length more.now) }
        ensures full { IfErr result (λ e. (e ≡ SinkError.Full) × (N < self.old.len + length more.now)) }
        ensures unchanged { OnErr result (self.new ≡ self.old) }
    {
        if more.len() > N - self.len {
            return Err(SinkError::Full);
        }
        let end = self.len + more.len();
        let held = &mut self.held[..];
        held[self.len..end].copy_from_slice(more);
        self.len = end;
        Ok(())
    }

    fn append_one(&mut self, value: u8) -> Result<(), SinkError>
        ensures { Step (put (value ∷ [])) (fixed_sink_state self.old) (fixed_sink_state self.new) result }
    {
        self.append(&[value])
    }

    /// Puts some bytes, one at a time.
    fn append_each(&mut self, bytes: &[u8]) -> Result<(), SinkError>
        ensures { Ran (puts bytes.now) (fixed_sink_state self.old) (fixed_sink_state self.new) result }
    {
        for byte in bytes {
            self.append_one(*byte)?;
        }
        Ok(())
    }
}

impl<const N: usize> CodeSink for FixedSink<N> {
    ghost use Rattle.cax64_sink.specs.FixedSink.{fixed_sink_state};

    ghost state = { fixed_sink_state };

    ghost may_stay = { λ _. tt };

    ghost may_go_on = { λ _ _ _ _ _. tt };

    fn put1(&mut self, value: u8) -> Result<(), SinkError> {
        self.append_one(value)
    }

    fn put2(&mut self, value: u16) -> Result<(), SinkError> {
        self.append(&value.to_le_bytes())
    }

    fn put4(&mut self, value: u32) -> Result<(), SinkError> {
        self.append(&value.to_le_bytes())
    }

    fn put8(&mut self, value: u64) -> Result<(), SinkError> {
        self.append(&value.to_le_bytes())
    }

    fn put_low_bytes(&mut self, word: u64, count: u8) -> Result<(), SinkError> {
        let bytes = word.to_le_bytes();
        let end = self.len + usize::from(count);
        if N - self.len < 8 {
            return self.append_each(&bytes[..usize::from(count)]);
        }
        // All eight, for which there is room, and then what is too much is cut off.
        self.append(&bytes)?;
        self.len = end;
        Ok(())
    }

    fn add_trap(&mut self, _code: TrapCode) -> Result<(), SinkError> {
        Ok(())
    }

    fn use_target(&mut self, _place: DeferredTarget) -> Result<(), SinkError> {
        Ok(())
    }

    fn knows_offset(&self, _offset: KnownOffset) -> bool {
        false
    }

    fn known_offset(&self, _offset: KnownOffset) -> i32
        ensures { result ≡ pos 0 }
    {
        // No offset is known, so nobody asks for one.
        0
    }
}
