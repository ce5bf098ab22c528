//! Encoding of the core.

ghost use Rattle.std.specs.Prelude.{◌≡◌, ◌≤◌, ◌↔◌, true, None, IsTrue, IsOk, IfErr, OnOk, OnErr, length};
ghost use Rattle.cax64_encoder.specs.Code.{IsCode, code_actions};
ghost use Rattle.cax64_encoder.specs.EncodeError.{fault_found, IfRefused, NotRefused, OnFault};
ghost use Rattle.cax64_encoder.specs.EncodesLine.{EncodesLine};
ghost use Rattle.cax64_encoder.specs.Fault.{all_met, first_unmet};
ghost use Rattle.cax64_machine_code.specs.Sequence.{IsFront};
ghost use Rattle.cax64_sink.specs.Keeps.{Keeps};
ghost use Rattle.cax64_sink.specs.Room.{HasRoom, FallsBy};
ghost use Rattle.cax64_sink.specs.Run.{all_bytes};
ghost use Rattle.x64_core.specs.Adds.{AddsCore, LeavesCore};
ghost use Rattle.x64_core.specs.Core.{core_meant, core_len, core_notices, fault_of, is_encodable, visited_of};
ghost use Rattle.x64_core.specs.View.{core_view};

use crate::faults::plain_fault;
use crate::heads::heads;
use crate::instruction::Core;
use cax64_encoder::code::Code;
use cax64_encoder::{EncodeError, Fault, RoomNeeded};
use cax64_sink::{CodeSink, SinkError};
use x64_place::code_by_heads;

impl Core {
    /// Whether each register is below 16, and an index isn't the stack pointer.
    #[inline(always)]
    fn is_met(&self) -> bool
        ensures { result ≡ all_met (visited_of (core_view self.now)) }
    {
        (self.reg < 16) & ((self.vvvv < 16) & self.place.is_met())
    }

    /// Whether each register is real, no index is the stack pointer, and a late offset is known to the sink with a sum that
    /// is an `i32`.
    #[inline(always)]
    pub fn is_encodable<S: CodeSink>(&self, sink: &S) -> bool
        ensures { result ≡ is_encodable (S.state sink.now).offsets (core_view self.now) }
    {
        self.is_met() & self.place.offset_fits(sink)
    }

    /// The fault of the first register that isn't as it has to be.
    fn register_fault(&self) -> Option<Fault>
        ensures { result ≡ first_unmet 0 (visited_of (core_view self.now)) }
    {
        let mut at = 0;
        if let Some(reg) = self.reg() {
            if reg >= 16 {
                return Some(Fault::Register(0));
            }
            at = 1;
        }
        if let Some(vvvv) = self.vvvv() {
            if vvvv >= 16 {
                return Some(Fault::Register(at));
            }
            at += 1;
        }
        self.place().fault(at)
    }

    /// The fault, looked for register by register, which is seldom done.
    #[cold]
    #[inline(never)]
    fn found_fault<S: CodeSink>(&self, sink: &S) -> Option<Fault>
        ensures { result ≡ fault_of (S.state sink.now).offsets (core_view self.now) }
    {
        match self.register_fault() {
            Some(fault) => Some(fault),
            None => self.place().late_fault(sink),
        }
    }

    /// Why the instruction can't be encoded for this sink: the first register that isn't as it has to be, counted from 0 in
    /// the order reg, vvvv, base, index, or else the late offset. `None` where it can.
    #[inline(always)]
    pub fn first_fault<S: CodeSink>(&self, sink: &S) -> Option<Fault>
        ensures fault { result ≡ fault_of (S.state sink.now).offsets (core_view self.now) }
        ensures none { (result ≡ None) ↔ IsTrue (is_encodable (S.state sink.now).offsets (core_view self.now)) }
    {
        if self.is_encodable(sink) {
            return None;
        }
        // What is found is of a copy, so that the instruction itself needn't stand in memory.
        let copy = *self;
        copy.found_fault(sink)
    }

    /// The machine code, as a value: what [`encode`](Self::encode) puts.
    ///
    /// The instruction has to be encodable for the sink, as [`is_encodable`](Self::is_encodable) tells. Where it isn't,
    /// a build that wasn't proved may make a wrong instruction, or abort.
    #[inline(always)]
    pub fn code<S: CodeSink>(&self, sink: &S) -> Code
        requires { IsTrue (is_encodable (S.state sink.now).offsets (core_view self.now)) }
        ensures encodes { EncodesLine (core_meant (core_view self.now) (S.state sink.now).offsets).parts (core_meant (core_view self.now) (S.state sink.now).offsets).memory (code_actions result) }
        ensures length { length (all_bytes (code_actions result)) ≡ core_len (S.state sink.now).offsets (core_view self.now) }
        ensures is { IsCode result }
    {
        let displacement = self.place.displacement(sink);
        code_by_heads(
            self.op.entry(),
            heads(self.op.number()),
            self.reg,
            self.vvvv,
            &self.place,
            self.imm,
            displacement,
        )
    }

    /// The number of bytes that `encode` adds, 1 to 13.
    ///
    /// The instruction has to be encodable for the sink, as [`is_encodable`](Self::is_encodable) tells. Where it isn't,
    /// a build that wasn't proved may answer any number, or abort.
    pub fn encoded_len<S: CodeSink>(&self, sink: &S) -> u8
        requires { IsTrue (is_encodable (S.state sink.now).offsets (core_view self.now)) }
        ensures value { result ≡ core_len (S.state sink.now).offsets (core_view self.now) }
        ensures least { 1 ≤ result }
        ensures most { result ≤ 13 }
    {
        self.code(sink).len()
    }

    /// The number of notices that `encode` tells the sink of, 0 or 1: of a trap, or of a target.
    pub fn notice_count(&self) -> u8
        ensures { result ≡ core_notices (core_view self.now) }
    {
        self.place.notice_count()
    }

    /// The room that `encode` takes: the numbers of `encoded_len` and of `notice_count`, both at once.
    ///
    /// The instruction has to be encodable for the sink, as [`is_encodable`](Self::is_encodable) tells. Where it isn't,
    /// a build that wasn't proved may answer any numbers, or abort.
    pub fn room_needed<S: CodeSink>(&self, sink: &S) -> RoomNeeded
        requires { IsTrue (is_encodable (S.state sink.now).offsets (core_view self.now)) }
        ensures bytes { result.bytes ≡ core_len (S.state sink.now).offsets (core_view self.now) }
        ensures notices { result.notices ≡ core_notices (core_view self.now) }
        ensures least { 1 ≤ result.bytes }
        ensures most { result.bytes ≤ 13 }
    {
        RoomNeeded {
            bytes: self.encoded_len(sink),
            notices: self.notice_count(),
        }
    }

    /// Puts the machine code, and tells the sink of a trap or a target.
    ///
    /// The instruction has to be encodable for the sink, as [`is_encodable`](Self::is_encodable) tells. Where it isn't,
    /// a build that wasn't proved may put a wrong instruction and answer Ok, or abort.
    /// [`encode_checked`](Self::encode_checked) tests first, and has no condition.
    #[inline(always)]
    pub fn encode<S: CodeSink>(&self, sink: &mut S) -> Result<(), SinkError>
        requires { IsTrue (is_encodable (S.state sink.old).offsets (core_view self.now)) }
        ensures adds { OnOk result (AddsCore (core_view self.now) (S.state sink.old) (S.state sink.new)) }
        ensures leaves { OnErr result (LeavesCore (core_view self.now) (S.state sink.old) (S.state sink.new)) }
        ensures front { IsFront (S.state sink.old).bytes (S.state sink.new).bytes }
        ensures error { IfErr result (λ e. (S.state sink.old).answers e ≡ true) }
        ensures keeps { Keeps (S.state sink.old) (S.state sink.new) }
        ensures beside { S.may_become sink.old sink.new }
        ensures enough { HasRoom (S.state sink.old).byte_room 13 → HasRoom (S.state sink.old).notice_room 1 → IsOk result }
        ensures room { HasRoom (S.state sink.old).byte_room (core_len (S.state sink.old).offsets (core_view self.now)) → HasRoom (S.state sink.old).notice_room (core_notices (core_view self.now)) → IsOk result }
        ensures byte_room { FallsBy (S.state sink.old).byte_room (S.state sink.new).byte_room (core_len (S.state sink.old).offsets (core_view self.now)) }
        ensures notice_room { FallsBy (S.state sink.old).notice_room (S.state sink.new).notice_room (core_notices (core_view self.now)) }
        ensures most { core_len (S.state sink.old).offsets (core_view self.now) ≤ 13 }
    {
        self.code(&*sink).put(sink)
    }

    /// Tests the instruction and puts it: what `first_fault` gives, and where that is `None` what `encode` does.
    ///
    /// At a fault nothing is put or told, and the sink is as before. A refusal of the sink leaves what `encode` leaves.
    #[inline(always)]
    pub fn encode_checked<S: CodeSink>(&self, sink: &mut S) -> Result<(), EncodeError>
        ensures fault { fault_found result ≡ fault_of (S.state sink.old).offsets (core_view self.now) }
        ensures unchanged { OnFault result (sink.new ≡ sink.old) }
        ensures adds { OnOk result (AddsCore (core_view self.now) (S.state sink.old) (S.state sink.new)) }
        ensures leaves { IfRefused result (λ _. LeavesCore (core_view self.now) (S.state sink.old) (S.state sink.new)) }
        ensures front { IsFront (S.state sink.old).bytes (S.state sink.new).bytes }
        ensures error { IfRefused result (λ e. (S.state sink.old).answers e ≡ true) }
        ensures keeps { Keeps (S.state sink.old) (S.state sink.new) }
        ensures beside { S.may_become sink.old sink.new }
        ensures enough { HasRoom (S.state sink.old).byte_room 13 → HasRoom (S.state sink.old).notice_room 1 → NotRefused result }
        ensures room { HasRoom (S.state sink.old).byte_room (core_len (S.state sink.old).offsets (core_view self.now)) → HasRoom (S.state sink.old).notice_room (core_notices (core_view self.now)) → NotRefused result }
        ensures byte_room { FallsBy (S.state sink.old).byte_room (S.state sink.new).byte_room (core_len (S.state sink.old).offsets (core_view self.now)) }
        ensures notice_room { FallsBy (S.state sink.old).notice_room (S.state sink.new).notice_room (core_notices (core_view self.now)) }
    {
        if let Some(fault) = self.first_fault(&*sink) {
            return Err(EncodeError::Fault(fault));
        }
        match self.encode(sink) {
            Ok(()) => Ok(()),
            Err(error) => Err(EncodeError::Sink(error)),
        }
    }
}
