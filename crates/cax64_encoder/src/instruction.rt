//! What every instruction can do, over its row and its operands.

ghost use Rattle.std.specs.Prelude.{◌≡◌, ◌≤◌, ◌↔◌, ℕ, ℤ, true, Option, None, refl, IsTrue, OnOk, OnErr, IfErr, IsOk};
ghost use Rattle.cax64_encoder.specs.EncodeError.{fault_found, IfRefused, NotRefused, OnFault};
ghost use Rattle.cax64_encoder.specs.Fault.{is_encodable, fault_of_meant};
ghost use Rattle.cax64_encoder.specs.Instruction.{Meaning, can_encode_in, fault_in, len_in, notices_in, Adds, Leaves};
ghost use Rattle.cax64_encoder.specs.Meant.{Meant, meant_of};
ghost use Rattle.cax64_encoder.specs.Notices.{notice_count};
ghost use Rattle.cax64_encoder.specs.Relative.{ReadsRelative};
ghost use Rattle.cax64_machine_code.specs.Sequence.{IsFront};
ghost use Rattle.cax64_machine_code.specs.declared.row.Row.{Row};
ghost use Rattle.cax64_operand.specs.Signature.{HasSignature};
ghost use Rattle.cax64_operand.specs.Visit.{OperandsRun};
ghost use Rattle.cax64_operand.specs.declared.operand.Operands.{Operands};
ghost use Rattle.cax64_sink.specs.Keeps.{Keeps};
ghost use Rattle.cax64_sink.specs.Room.{HasRoom, FallsBy};

use crate::checked::Checked;
use crate::content::Content;
use crate::error::EncodeError;
use crate::fault::{Fault, fault_of_unencodable, listed_fault};
use crate::room::{Counting, Measuring, RoomNeeded};
use crate::tested::{Outcome, Tested};
use cax64_machine_code::row::Row;
use cax64_operand::{HasOperands, ItsRow, RegisterFamily, RegisterVisitor, RowAndOperands};
use cax64_register::Registers;
use cax64_sink::{CodeSink, SinkError};

/// An instruction: all that it does follows from its row and its operands.
pub trait Instruction: HasOperands {
    // What it means, for the offsets that a sink knows.
    ghost meant: { Self → (ℕ → Option ℤ) → Meant Self.Family.ReadGpr };

    /// The row of the table, as a reading of the bytes has it.
    fn row(&self) -> Row
        ensures row { result ≡ Self.row_of self.now }
        ensures signature { HasSignature (Self.row_of self.now) (Self.operands_of self.now) }
        ensures meant { (offsets : ℕ → Option ℤ) → result ≡ (meant self.now offsets).parts.row };

    /// Goes over the registers in the order of the operands, and puts what the visitor gives in their place. Memory is its
    /// base, then its index. All else stays.
    fn visit<V: RegisterVisitor<Self::Family>>(&mut self, visitor: &mut V)
        ensures run { OperandsRun Self.Family.WriteGpr.eq V.steps visitor.old (Self.operands_of self.old) (Self.operands_of self.new) visitor.new }
        ensures row { Self.row_of self.new ≡ Self.row_of self.old };

    /// Why the instruction can't be encoded for this sink: the first register, in the order of visits, that isn't as it
    /// has to be, or else the late offset. `None` where it can.
    fn first_fault<S: CodeSink>(&self, sink: &S) -> Option<Fault>
        ensures fault { result ≡ fault_in (S.state sink.now) (meant self.now) }
        ensures none { (result ≡ None) ↔ IsTrue (can_encode_in (S.state sink.now) (meant self.now)) };

    /// Whether every register operand, base and index is real, every fixed register holds its number, no index is the
    /// stack pointer, and a late offset is known to the sink with a sum that is an `i32`.
    fn is_encodable<S: CodeSink>(&self, sink: &S) -> bool
        ensures { result ≡ can_encode_in (S.state sink.now) (meant self.now) };

    /// The number of bytes that `encode` adds, 1 to 13.
    ///
    /// The instruction has to be encodable for the sink, as [`is_encodable`](Self::is_encodable) tells. Where it isn't,
    /// a build that wasn't proved may answer any number, or abort.
    fn encoded_len<S: CodeSink>(&self, sink: &S) -> u8
        requires { IsTrue (can_encode_in (S.state sink.now) (meant self.now)) }
        ensures value { result ≡ len_in (S.state sink.now) (meant self.now) }
        ensures least { 1 ≤ result }
        ensures most { result ≤ 13 };

    /// The number of notices that `encode` tells the sink of, 0 or 1: of a trap, or of a target.
    fn notice_count(&self) -> u8
        ensures { (offsets : ℕ → Option ℤ) → result ≡ notice_count (meant self.now offsets) };

    /// The room that `encode` takes: the numbers of `encoded_len` and of `notice_count`, both at once.
    ///
    /// The instruction has to be encodable for the sink, as [`is_encodable`](Self::is_encodable) tells. Where it isn't,
    /// a build that wasn't proved may answer any numbers, or abort.
    fn room_needed<S: CodeSink>(&self, sink: &S) -> RoomNeeded
        requires { IsTrue (can_encode_in (S.state sink.now) (meant self.now)) }
        ensures bytes { result.bytes ≡ len_in (S.state sink.now) (meant self.now) }
        ensures notices { result.notices ≡ notices_in (S.state sink.now) (meant self.now) }
        ensures least { 1 ≤ result.bytes }
        ensures most { result.bytes ≤ 13 }
    {
        RoomNeeded {
            bytes: self.encoded_len(sink),
            notices: self.notice_count(),
        }
    }

    /// Puts the machine code, and tells the sink of a trap or a target.
    ///
    /// The instruction has to be encodable for the sink, as [`is_encodable`](Self::is_encodable) tells. Where it isn't,
    /// a build that wasn't proved may put a wrong instruction and answer Ok, or abort.
    /// [`encode_checked`](Self::encode_checked) tests first, and has no condition.
    fn encode<S: CodeSink>(&self, sink: &mut S) -> Result<(), SinkError>
        requires { IsTrue (can_encode_in (S.state sink.old) (meant self.now)) }
        ensures adds { OnOk result (Adds (meant self.now) (S.state sink.old) (S.state sink.new)) }
        ensures leaves { OnErr result (Leaves (meant self.now) (S.state sink.old) (S.state sink.new)) }
        ensures front { IsFront (S.state sink.old).bytes (S.state sink.new).bytes }
        ensures error { IfErr result (λ e. (S.state sink.old).answers e ≡ true) }
        ensures keeps { Keeps (S.state sink.old) (S.state sink.new) }
        ensures beside { S.may_become sink.old sink.new }
        ensures enough { HasRoom (S.state sink.old).byte_room 13 → HasRoom (S.state sink.old).notice_room 1 → IsOk result }
        ensures room { HasRoom (S.state sink.old).byte_room (len_in (S.state sink.old) (meant self.now)) → HasRoom (S.state sink.old).notice_room (notices_in (S.state sink.old) (meant self.now)) → IsOk result }
        ensures byte_room { FallsBy (S.state sink.old).byte_room (S.state sink.new).byte_room (len_in (S.state sink.old) (meant self.now)) }
        ensures notice_room { FallsBy (S.state sink.old).notice_room (S.state sink.new).notice_room (notices_in (S.state sink.old) (meant self.now)) }
        ensures most { len_in (S.state sink.old) (meant self.now) ≤ 13 }
        ensures relative { ReadsRelative (meant self.now (S.state sink.old).offsets) };

    /// Tests the instruction and puts it: what `first_fault` gives, and where that is `None` what `encode` does.
    ///
    /// At a fault nothing is put or told, and the sink is as before. A refusal of the sink leaves what `encode` leaves.
    fn encode_checked<S: CodeSink>(&self, sink: &mut S) -> Result<(), EncodeError>
        ensures fault { fault_found result ≡ fault_in (S.state sink.old) (meant self.now) }
        ensures unchanged { OnFault result (sink.new ≡ sink.old) }
        ensures adds { OnOk result (Adds (meant self.now) (S.state sink.old) (S.state sink.new)) }
        ensures leaves { IfRefused result (λ _. Leaves (meant self.now) (S.state sink.old) (S.state sink.new)) }
        ensures front { IsFront (S.state sink.old).bytes (S.state sink.new).bytes }
        ensures error { IfRefused result (λ e. (S.state sink.old).answers e ≡ true) }
        ensures keeps { Keeps (S.state sink.old) (S.state sink.new) }
        ensures beside { S.may_become sink.old sink.new }
        ensures enough { HasRoom (S.state sink.old).byte_room 13 → HasRoom (S.state sink.old).notice_room 1 → NotRefused result }
        ensures room { HasRoom (S.state sink.old).byte_room (len_in (S.state sink.old) (meant self.now)) → HasRoom (S.state sink.old).notice_room (notices_in (S.state sink.old) (meant self.now)) → NotRefused result }
        ensures byte_room { FallsBy (S.state sink.old).byte_room (S.state sink.new).byte_room (len_in (S.state sink.old) (meant self.now)) }
        ensures notice_room { FallsBy (S.state sink.old).notice_room (S.state sink.new).notice_room (notices_in (S.state sink.old) (meant self.now)) }
        ensures relative { OnOk result (ReadsRelative (meant self.now (S.state sink.old).offsets)) }
    {
        if let Some(fault) = self.first_fault(&*sink) {
            return Err(EncodeError::Fault(fault));
        }
        match self.encode(sink) {
            Ok(()) => Ok(()),
            Err(error) => Err(EncodeError::Sink(error)),
        }
    }

    // What it means is what its row means with its operands.
    ghost follows: { (i : Self) (offsets : ℕ → Option ℤ) → meant i offsets ≡ meant_of ⟦<Self::Family as RegisterFamily>⟧.family (Self.row_of i) (Self.operands_of i) offsets };
}

impl<I: RowAndOperands> Instruction for I {
    ghost meant = { λ i offsets. meant_of ⟦<I::Family as RegisterFamily>⟧.family (I.row_of i) (I.operands_of i) offsets };

    ghost follows = { λ i offsets. refl };

    fn row(&self) -> Row {
        self.hand_to::<ItsRow, ()>(&mut ())
    }

    fn visit<V: RegisterVisitor<I::Family>>(&mut self, visitor: &mut V) {
        RowAndOperands::visit(self, visitor);
    }

    #[inline(always)]
    fn first_fault<S: CodeSink>(&self, sink: &S) -> Option<Fault> {
        if self.is_encodable(sink) {
            return None;
        }
        listed_fault(self, sink)
    }

    #[inline(always)]
    fn is_encodable<S: CodeSink>(&self, sink: &S) -> bool {
        let mut sink = sink;
        self.hand_to::<Checked, &S>(&mut sink)
    }

    fn encoded_len<S: CodeSink>(&self, sink: &S) -> u8 {
        self.room_needed(sink).bytes
    }

    fn notice_count(&self) -> u8 {
        self.hand_to::<Content, Counting>(&mut Counting)
    }

    fn room_needed<S: CodeSink>(&self, sink: &S) -> RoomNeeded {
        self.hand_to::<Content, Measuring<'_, S>>(&mut Measuring { sink })
    }

    #[inline(always)]
    fn encode<S: CodeSink>(&self, sink: &mut S) -> Result<(), SinkError> {
        self.hand_to::<Content, S>(sink)
    }

    // The test is made of the numbers that the code is made of, so what holds instructions of several kinds asks once which
    // it is.
    #[inline(always)]
    fn encode_checked<S: CodeSink>(&self, sink: &mut S) -> Result<(), EncodeError> {
        match self.hand_to::<Tested, S>(sink) {
            Outcome::Put => Ok(()),
            Outcome::NoMemory => Err(EncodeError::Sink(SinkError::NoMemory)),
            Outcome::Full => Err(EncodeError::Sink(SinkError::Full)),
            Outcome::NotEncodable => Err(EncodeError::Fault(fault_of_unencodable(self, &*sink))),
        }
    }
}
