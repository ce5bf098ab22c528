//! The lowest bytes of a word, and what stands at the end of an instruction.

use cax64_test_support::RefusingSink;
use cranelift_assembler_x64::{CodeSink, FixedSink, Recorder, SinkError};

const WORD: u64 = 0x0807_0605_0403_0201;

const BYTES: [u8; 12] = [1, 2, 3, 1, 2, 3, 4, 5, 6, 7, 8, 1];

fn put_words<S: CodeSink>(sink: &mut S) -> Result<(), SinkError> {
    sink.put_low_bytes(WORD, 3)?;
    sink.put_low_bytes(WORD, 8)?;
    sink.put_low_bytes(WORD, 1)
}

#[test]
fn a_word_gives_its_lowest_bytes(rt: HostRuntime) {
    let mut grown: Vec<u8> = Vec::new(rt.alloc());
    assert!(rt; put_words(&mut grown) == Ok(()));
    assert!(rt; grown.as_slice() == BYTES.as_slice());
    let mut roomy = Vec::with_capacity(rt.alloc(), 32).expect(&rt, "memory");
    assert!(rt; put_words(&mut roomy) == Ok(()));
    assert!(rt; roomy.as_slice() == BYTES.as_slice());
    let mut recorder = Recorder::new(rt.alloc());
    assert!(rt; put_words(&mut recorder) == Ok(()));
    assert!(rt; recorder.bytes() == BYTES.as_slice());
    let mut fixed = FixedSink::<32>::new();
    assert!(rt; put_words(&mut fixed) == Ok(()));
    assert!(rt; fixed.bytes() == BYTES.as_slice());
}

#[test]
fn a_refused_word_leaves_a_front(rt: HostRuntime) {
    let mut short = FixedSink::<9>::new();
    assert!(rt; put_words(&mut short) == Err(SinkError::Full));
    assert!(rt; short.bytes() == &BYTES[..9]);
    let mut refusing = RefusingSink::new(Recorder::new(rt.alloc()), 5);
    assert!(rt; put_words(&mut refusing) == Err(SinkError::NoMemory));
    assert!(rt; refusing.into_recorder().bytes() == &BYTES[..5]);
}

const ENDS: [u8; 15] = [1, 2, 3, 4, 5, 6, 7, 8, 9, 10, 11, 12, 13, 14, 15];

fn put_ends<S: CodeSink>(sink: &mut S) -> Result<(), SinkError> {
    sink.put_rest(Some(0x0403_0201), 0xFFFF_0605, 2)?;
    sink.put_rest(None, 0xFFFF_FF07, 1)?;
    sink.put_rest(Some(0x0B0A_0908), 0xFFFF_FFFF, 0)?;
    sink.put_rest(None, 0x0F0E_0D0C, 4)
}

#[test]
fn an_end_is_a_displacement_and_an_immediate(rt: HostRuntime) {
    let mut grown: Vec<u8> = Vec::new(rt.alloc());
    assert!(rt; put_ends(&mut grown) == Ok(()));
    assert!(rt; grown.as_slice() == ENDS.as_slice());
    let mut roomy = Vec::with_capacity(rt.alloc(), 32).expect(&rt, "memory");
    assert!(rt; put_ends(&mut roomy) == Ok(()));
    assert!(rt; roomy.as_slice() == ENDS.as_slice());
    let mut recorder = Recorder::new(rt.alloc());
    assert!(rt; put_ends(&mut recorder) == Ok(()));
    assert!(rt; recorder.bytes() == ENDS.as_slice());
    let mut fixed = FixedSink::<15>::new();
    assert!(rt; put_ends(&mut fixed) == Ok(()));
    assert!(rt; fixed.bytes() == ENDS.as_slice());
}

#[test]
fn a_refused_end_leaves_its_displacement(rt: HostRuntime) {
    let mut short = FixedSink::<5>::new();
    assert!(rt; put_ends(&mut short) == Err(SinkError::Full));
    assert!(rt; short.bytes() == &ENDS[..4]);
    let mut refusing = RefusingSink::new(Recorder::new(rt.alloc()), 1);
    assert!(rt; put_ends(&mut refusing) == Err(SinkError::NoMemory));
    assert!(rt; refusing.into_recorder().bytes() == &ENDS[..4]);
}
