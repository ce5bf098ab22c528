//! Sinks that are emptied and used again.

use cranelift_assembler_x64::{
    CodeSink, DeferredTarget, FixedSink, Label, Notice, Recorder, SinkError,
};

const PLACE: DeferredTarget = DeferredTarget::Label(Label(7));

#[test]
fn a_recorder_is_used_again(rt: HostRuntime) {
    let mut sink = Recorder::new(rt.alloc());
    sink.set_offset(3, -8);
    assert!(rt; sink.put2(0x0102) == Ok(()) && sink.use_target(PLACE) == Ok(()));
    sink.clear();
    assert!(rt; sink.bytes().is_empty() && sink.notices().is_empty());
    assert!(rt; sink.knows_offset(3) && !sink.knows_offset(4));
    assert!(rt; sink.put1(9) == Ok(()) && sink.use_target(PLACE) == Ok(()));
    assert!(rt; sink.bytes() == [9].as_slice());
    assert!(rt; sink.notices() == [Notice::Target(1, PLACE)].as_slice());
}

#[test]
fn a_fixed_sink_is_used_again(rt: HostRuntime) {
    let mut sink = FixedSink::<2>::new();
    assert!(rt; sink.put2(0x0102) == Ok(()) && sink.put1(3) == Err(SinkError::Full));
    sink.clear();
    assert!(rt; sink.bytes().is_empty());
    assert!(rt; sink.put2(0x0304) == Ok(()));
    assert!(rt; sink.bytes() == [4, 3].as_slice());
}

#[test]
fn a_recorder_has_the_room_that_it_reserved(rt: HostRuntime) {
    let mut sink = Recorder::new(rt.alloc());
    assert!(rt; sink.has_room(0, 0) && !sink.has_room(1, 0) && !sink.has_room(0, 1));
    assert!(rt; sink.reserve(13, 1) == Ok(()) && sink.has_room(13, 1));
    sink.clear();
    assert!(rt; sink.has_room(13, 1) && !sink.has_room(usize::MAX, 1));
    assert!(rt; !sink.has_room(13, usize::MAX));
}
