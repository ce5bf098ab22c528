//! Each sink, called through the trait.

ghost use Rattle.std.specs.Prelude.{◌≡◌, ◌∷◌, []};
ghost use Rattle.std.specs.Int.{to_le_bytes, w32};
ghost use Rattle.cax64_sink.specs.Call.{put, trap};
ghost use Rattle.cax64_sink.specs.Run.{Ran};

use cax64_sink::laws::{laws_of_equality, laws_of_fixed_sinks, laws_of_runs};
use cranelift_assembler_x64::{
    CodeSink, Constant, DeferredTarget, FixedSink, KnownOffset, Label, Notice, Recorder, SinkError,
    TrapCode,
};
use std::num::NonZeroU8;

const ALL_BYTES: [u8; 15] = [
    0x01, 0x02, 0x01, 0x04, 0x03, 0x02, 0x01, 0x08, 0x07, 0x06, 0x05, 0x04, 0x03, 0x02, 0x01,
];

const CODE: TrapCode = TrapCode(NonZeroU8::MIN);

const PLACE: DeferredTarget = DeferredTarget::Label(Label(7));

fn put_each<S: CodeSink>(sink: &mut S) -> Result<(), SinkError> {
    sink.put1(0x01)?;
    sink.add_trap(CODE)?;
    sink.put2(0x0102)?;
    sink.use_target(PLACE)?;
    sink.put4(0x0102_0304)?;
    sink.put8(0x0102_0304_0506_0708)
}

#[tactic(auto, using(cax64_sink::proofs::Runs::ran_none, cax64_sink::proofs::Runs::ran_one, cax64_sink::proofs::Runs::ran_next, cax64_sink::proofs::Runs::ran_halt))]
fn trap_and_put<S: CodeSink>(sink: &mut S, code: TrapCode, value: u32) -> Result<(), SinkError>
    ensures { Ran (trap code ∷ put (to_le_bytes w32 value) ∷ []) (S.state sink.old) (S.state sink.new) result }
{
    sink.add_trap(code)?;
    sink.put4(value)
}

fn offset_of<S: CodeSink>(sink: &S, offset: KnownOffset) -> Option<i32> {
    if sink.knows_offset(offset) {
        Some(sink.known_offset(offset))
    } else {
        None
    }
}

#[test]
fn a_vector_keeps_bytes(rt: HostRuntime) {
    let mut sink: Vec<u8> = Vec::new(rt.alloc());
    assert!(rt; put_each(&mut sink) == Ok(()));
    assert!(rt; sink.as_slice() == ALL_BYTES.as_slice());
    assert!(rt; offset_of(&sink, 0) == None && sink.known_offset(0) == 0);
}

#[test]
fn a_recorder_keeps_bytes_and_notices(rt: HostRuntime) {
    let mut sink = Recorder::new(rt.alloc());
    sink.set_offset(255, -8);
    sink.set_offset(255, i32::MAX);
    assert!(rt; put_each(&mut sink) == Ok(()));
    let told = [Notice::Trap(1, CODE), Notice::Target(3, PLACE)];
    assert!(rt; sink.notices() == told.as_slice());
    assert!(rt; offset_of(&sink, 255) == Some(i32::MAX) && offset_of(&sink, 1) == None);
    assert!(rt; sink.into_bytes().as_slice() == ALL_BYTES.as_slice());
}

#[test]
fn a_fixed_sink_refuses_what_does_not_fit(rt: HostRuntime) {
    let mut whole = FixedSink::<15>::new();
    assert!(rt; put_each(&mut whole) == Ok(()));
    assert!(rt; whole.bytes() == ALL_BYTES.as_slice());
    assert!(rt; offset_of(&whole, 0) == None && whole.known_offset(0) == 0);
    let mut short = FixedSink::<6>::new();
    assert!(rt; put_each(&mut short) == Err(SinkError::Full));
    assert!(rt; short.bytes() == &ALL_BYTES[..3]);
}

#[test]
fn a_run_meets_the_laws(rt: HostRuntime) {
    laws_of_equality();
    laws_of_runs();
    laws_of_fixed_sinks::<4>();
    let mut fixed = FixedSink::<4>::new();
    assert!(rt; trap_and_put(&mut fixed, CODE, 1) == Ok(()));
    assert!(rt; trap_and_put(&mut fixed, CODE, 1) == Err(SinkError::Full));
    assert!(rt; fixed.bytes() == [1, 0, 0, 0].as_slice());
}

#[test]
fn items_compare_by_variant_and_number(rt: HostRuntime) {
    assert!(rt;
        PLACE == DeferredTarget::Label(Label(7)) && PLACE != DeferredTarget::Label(Label(2))
    );
    assert!(rt; PLACE != DeferredTarget::Constant(Constant(7)) && PLACE != DeferredTarget::None);
    assert!(rt; Notice::Target(1, PLACE) != Notice::Target(2, PLACE));
    assert!(rt; Notice::Target(1, PLACE) != Notice::Trap(1, CODE));
    assert!(rt; SinkError::NoMemory != SinkError::Full);
}
