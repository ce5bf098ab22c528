//! What can be encoded, by a line of whatever table, one behind the other.

ghost use Rattle.std.specs.Prelude.{◌≡◌, ◌<◌, ◌↔◌, ◌*◌, ◌≤◌, ◌/◌, ℕ, true, IsTrue, All, OnOk, OnErr, IfErr, IsOk, take, length};
ghost use Rattle.cax64_encoder.specs.EncodeError.{fault_in_error};
ghost use Rattle.cax64_machine_code.specs.Sequence.{IsFront};
ghost use Rattle.cax64_sequence.specs.Each.{AddsEach, LeavesEach, each_fault_at, each_len, each_notice_count};
ghost use Rattle.cax64_sequence.specs.List.{StaysAs};
ghost use Rattle.cax64_sequence.specs.Stopped.{AtFault, AtRefusal, NeverRefused};
ghost use Rattle.cax64_sink.specs.Keeps.{Keeps};
ghost use Rattle.cax64_sink.specs.Recorder.{recorder_state};
ghost use Rattle.cax64_sink.specs.Room.{HasRoom, FallsBy};
ghost use Rattle.x64_encode.specs.Encode.{can_encode_by};

use crate::checked::Stopped;
use crate::sequence::Refused;
use cax64_sink::{CodeSink, Recorder, SinkError};
use std::alloc::Allocator;
use x64_encode::Encode;

/// Whether each of some of one type can be encoded for this sink, as the calls that put lists ask.
pub fn are_encodable<I: Encode, S: CodeSink>(insts: &[I], sink: &S) -> bool
    ensures { IsTrue result ↔ All (λ i. IsTrue (can_encode_by (S.state sink.now) (I.line_meant i))) insts.now }
{
    insts.iter().all(|inst| inst.is_encodable(sink))
}

/// Puts instructions of one type, whatever has their lines, one behind the other, and tells the sink of their traps and
/// targets.
///
/// A refusal says how many instructions are whole, and the sink's error at the next, of which a front may stand.
///
/// Each instruction has to be encodable for the sink, as [`are_encodable`] tells. Where one isn't, a build that wasn't
/// proved may put a wrong instruction and answer Ok, or abort. [`put_each_checked`] tests each, and has no condition.
#[inline(never)]
pub fn put_each<I: Encode, S: CodeSink>(insts: &[I], sink: &mut S) -> Result<(), Refused>
    requires { All (λ i. IsTrue (can_encode_by (S.state sink.old) (I.line_meant i))) insts.now }
    ensures adds { OnOk result (AddsEach I.adds insts.now (S.state sink.old) (S.state sink.new)) }
    ensures leaves { IfErr result (λ e. LeavesEach I.adds I.leaves I.line_meant insts.now e.whole (S.state sink.old) (S.state sink.new)) }
    ensures front { IsFront (S.state sink.old).bytes (S.state sink.new).bytes }
    ensures error { IfErr result (λ e. (S.state sink.old).answers e.error ≡ true) }
    ensures keeps { Keeps (S.state sink.old) (S.state sink.new) }
    ensures beside { S.may_become sink.old sink.new }
    ensures enough { HasRoom (S.state sink.old).byte_room (13 * length insts.now) → HasRoom (S.state sink.old).notice_room (length insts.now) → IsOk result }
    ensures room { (j : ℕ) → j ≤ length insts.now → HasRoom (S.state sink.old).byte_room (each_len (S.state sink.old) I.line_meant (take j insts.now)) → HasRoom (S.state sink.old).notice_room (each_notice_count (S.state sink.old) I.line_meant (take j insts.now)) → IfErr result (λ e. j ≤ e.whole) }
    ensures byte_room { FallsBy (S.state sink.old).byte_room (S.state sink.new).byte_room (each_len (S.state sink.old) I.line_meant insts.now) }
    ensures notice_room { FallsBy (S.state sink.old).notice_room (S.state sink.new).notice_room (each_notice_count (S.state sink.old) I.line_meant insts.now) }
{
    for (whole, inst) in insts.iter().enumerate() {
        if let Err(error) = inst.encode(sink) {
            return Err(Refused { whole, error });
        }
    }
    Ok(())
}

/// Tests each of some instructions of one type, puts it behind those before it, and tells the sink of its trap or target.
///
/// Each is tested just before it is put, so those before the first fault stand whole, and nothing of the one with the fault
/// is put or told. The error says how many are whole, and the fault or the sink's error at the next. A refusal leaves what
/// [`put_each`] leaves.
#[inline(never)]
pub fn put_each_checked<I: Encode, S: CodeSink>(insts: &[I], sink: &mut S) -> Result<(), Stopped>
    ensures adds { OnOk result (AddsEach I.adds insts.now (S.state sink.old) (S.state sink.new)) }
    ensures encodable { OnOk result (All (λ i. IsTrue (can_encode_by (S.state sink.old) (I.line_meant i))) insts.now) }
    ensures within { IfErr result (λ e. e.whole < length insts.now) }
    ensures tested { IfErr result (λ e. All (λ i. IsTrue (can_encode_by (S.state sink.old) (I.line_meant i))) (take e.whole insts.now)) }
    ensures fault { IfErr result (λ e. fault_in_error e.error ≡ each_fault_at (S.state sink.old) I.line_meant insts.now e.whole) }
    ensures before { AtFault result (λ whole. AddsEach I.adds (take whole insts.now) (S.state sink.old) (S.state sink.new)) }
    ensures leaves { AtRefusal result (λ whole _. LeavesEach I.adds I.leaves I.line_meant insts.now whole (S.state sink.old) (S.state sink.new)) }
    ensures error { AtRefusal result (λ _ error. (S.state sink.old).answers error ≡ true) }
    ensures front { IsFront (S.state sink.old).bytes (S.state sink.new).bytes }
    ensures keeps { Keeps (S.state sink.old) (S.state sink.new) }
    ensures beside { S.may_become sink.old sink.new }
    ensures enough { HasRoom (S.state sink.old).byte_room (13 * length insts.now) → HasRoom (S.state sink.old).notice_room (length insts.now) → NeverRefused result }
    ensures room { (j : ℕ) → j ≤ length insts.now → HasRoom (S.state sink.old).byte_room (each_len (S.state sink.old) I.line_meant (take j insts.now)) → HasRoom (S.state sink.old).notice_room (each_notice_count (S.state sink.old) I.line_meant (take j insts.now)) → AtRefusal result (λ whole _. j ≤ whole) }
    ensures byte_room { FallsBy (S.state sink.old).byte_room (S.state sink.new).byte_room (each_len (S.state sink.old) I.line_meant insts.now) }
    ensures notice_room { FallsBy (S.state sink.old).notice_room (S.state sink.new).notice_room (each_notice_count (S.state sink.old) I.line_meant insts.now) }
{
    for (whole, inst) in insts.iter().enumerate() {
        if let Err(error) = inst.encode_checked(sink) {
            return Err(Stopped { whole, error });
        }
    }
    Ok(())
}

/// How many bytes and how many notices instructions have.
fn measure<I: Encode, S: CodeSink>(insts: &[I], sink: &S) -> (usize, usize)
    requires encodable { All (λ i. IsTrue (can_encode_by (S.state sink.now) (I.line_meant i))) insts.now }
    requires few { length insts.now ≤ usize.MAX / 13 }
    ensures bytes { result.0 ≡ each_len (S.state sink.now) I.line_meant insts.now }
    ensures notices { result.1 ≡ each_notice_count (S.state sink.now) I.line_meant insts.now }
{
    let mut bytes: usize = 0;
    let mut notices: usize = 0;
    for inst in insts {
        let room = inst.room_needed(sink);
        bytes += usize::from(room.bytes);
        notices += usize::from(room.notices);
    }
    (bytes, notices)
}

/// Puts all instructions of a list of one type, whatever has their lines, or none.
///
/// Room for all of them is made at once, before the first is put; so who reserves for several lists, and then puts them,
/// isn't refused. The one error is that there is no memory for it.
///
/// Each instruction has to be encodable for the sink, as [`are_encodable`] tells. Where one isn't, a build that wasn't
/// proved may put a wrong instruction and answer Ok, or abort. There have to be at most `usize::MAX / 13` of them; of more
/// such a build may put a part and answer an error, or abort.
pub fn put_each_whole<I: Encode, A: Allocator>(
    insts: &[I],
    recorder: &mut Recorder<A>,
) -> Result<(), SinkError>
    requires encodable { All (λ i. IsTrue (can_encode_by (recorder_state recorder.old) (I.line_meant i))) insts.now }
    requires few { length insts.now ≤ usize.MAX / 13 }
    ensures adds { OnOk result (AddsEach I.adds insts.now (recorder_state recorder.old) (recorder_state recorder.new)) }
    ensures unchanged { OnErr result (StaysAs (recorder_state recorder.old) (recorder_state recorder.new)) }
    ensures front { IsFront (recorder_state recorder.old).bytes (recorder_state recorder.new).bytes }
    ensures error { IfErr result (λ e. e ≡ SinkError.NoMemory) }
    ensures keeps { Keeps (recorder_state recorder.old) (recorder_state recorder.new) }
    ensures byte_room { FallsBy (recorder_state recorder.old).byte_room (recorder_state recorder.new).byte_room (each_len (recorder_state recorder.old) I.line_meant insts.now) }
    ensures notice_room { FallsBy (recorder_state recorder.old).notice_room (recorder_state recorder.new).notice_room (each_notice_count (recorder_state recorder.old) I.line_meant insts.now) }
    ensures room { HasRoom (recorder_state recorder.old).byte_room (each_len (recorder_state recorder.old) I.line_meant insts.now) → HasRoom (recorder_state recorder.old).notice_room (each_notice_count (recorder_state recorder.old) I.line_meant insts.now) → IsOk result }
{
    let (bytes, notices) = measure(insts, &*recorder);
    recorder.reserve(bytes, notices)?;
    put_each(insts, recorder).map_err(|refused| refused.error)
}
