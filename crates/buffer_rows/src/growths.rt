//! Each growth of a buffer is refused in turn: it is as before, and a second try with memory gives the same bytes.

use crate::making::{FIRST, POOL, bytes_of, call_to, compare_with, push};
use cax64_encoder::instruction::Instruction;
use cax64_sink::{CodeSink, Constant, DeferredTarget, Label, Notice, Recorder, SinkError};
use cax64_test_support::TestHeap;
use cax64_test_support::growth::{Grows, Outcome, is_refused};
use std::alloc::{Allocator, Global};
use std::collections::HashMap;
use std::hash::{BuildHasherDefault, FoldHasher};
use x64_code_buffer::{BindError, CodeBuffer};

type Heap = TestHeap<Global>;

/// How many calls of each kind were refused, and the heap that grants all once one was.
#[derive(Clone, Copy)]
struct Tries<'a> {
    heap: &'a Heap,
    labels: usize,
    pushes: usize,
    constants: usize,
}

fn label_again<A: Allocator>(buffer: &mut CodeBuffer<A>, tries: &mut Tries<'_>) -> Option<Label> {
    let error = match buffer.new_label() {
        Ok(label) => return Some(label),
        Err(error) => error,
    };
    if error != SinkError::NoMemory {
        return None;
    }
    tries.labels = tries.labels.saturating_add(1);
    tries.heap.relieve();
    buffer.new_label().ok()
}

fn push_again<I: Instruction, A: Allocator>(
    buffer: &mut CodeBuffer<A>,
    tries: &mut Tries<'_>,
    inst: &I,
) -> Option<()> {
    let (bytes, notices) = (buffer.bytes().len(), buffer.notices().len());
    let error = match push(buffer, inst) {
        Ok(()) => return Some(()),
        Err(error) => error,
    };
    let stays = buffer.bytes().len() == bytes && buffer.notices().len() == notices;
    if error != SinkError::NoMemory || !stays {
        return None;
    }
    tries.pushes = tries.pushes.saturating_add(1);
    tries.heap.relieve();
    push(buffer, inst).ok()
}

fn constant_again<A: Allocator + Clone>(
    buffer: &mut CodeBuffer<A>,
    tries: &mut Tries<'_>,
    constant: Constant,
) -> Option<()> {
    let error = match buffer.bind_constant(constant) {
        Ok(()) => return Some(()),
        Err(error) => error,
    };
    let bound = buffer.place_of(DeferredTarget::Constant(constant));
    if error != BindError::NoMemory || bound.is_some() {
        return None;
    }
    tries.constants = tries.constants.saturating_add(1);
    tries.heap.relieve();
    buffer.bind_constant(constant).ok()
}

const CODE: [u8; 14] = [0xFF, 0x15, 8, 0, 0, 0, 0x0F, 0xC2, 0x05, 0, 0, 0, 0, 0];

/// Whether the bytes are those of an undisturbed run.
fn is_made<A: Allocator + Copy>(alloc: A, tries: &mut Tries<'_>) -> Option<bool> {
    let mut buffer = CodeBuffer::new(alloc);
    let label = buffer.new_label().ok()?;
    // The places of sixteen labels take no memory.
    for _ in 1..16 {
        buffer.new_label().ok()?;
    }
    label_again(&mut buffer, tries)?;
    push_again(&mut buffer, tries, &call_to(FIRST))?;
    push_again(&mut buffer, tries, &compare_with(POOL))?;
    constant_again(&mut buffer, tries, Constant(7))?;
    buffer.bind(label).ok()?;
    let code = bytes_of(buffer)?;
    Some(code.as_slice() == CODE.as_slice())
}

/// A constant whose key is large.
const FAR: Constant = Constant(1_000_000);

/// Whether it's bound.
fn is_far_bound<A: Allocator + Copy>(alloc: A, tries: &mut Tries<'_>) -> Option<bool> {
    let mut buffer = CodeBuffer::new(alloc);
    constant_again(&mut buffer, tries, FAR)?;
    Some(buffer.place_of(DeferredTarget::Constant(FAR)) == Some(0))
}

/// What is made.
#[derive(Clone, Copy)]
enum Made {
    Code,
    Far,
}

/// The calls that were refused in this heap; None where a run doesn't end as it would without a refusal.
fn refused_in(heap: &Heap, made: Made) -> Option<(usize, usize, usize)> {
    let mut tries = Tries {
        heap,
        labels: 0,
        pushes: 0,
        constants: 0,
    };
    let is_whole = match made {
        Made::Code => is_made(heap, &mut tries)?,
        Made::Far => is_far_bound(heap, &mut tries)?,
    };
    if !is_whole || heap.held() > 0 {
        return None;
    }
    Some((tries.labels, tries.pushes, tries.constants))
}

/// How many calls of each kind were refused, over heaps that refuse from a later request on each time, until a run makes
/// fewer requests.
fn refusals(alloc: Global, made: Made) -> Option<(usize, usize, usize)> {
    let mut labels: usize = 0;
    let mut pushes: usize = 0;
    let mut constants: usize = 0;
    for request in 1..64usize {
        let heap = TestHeap::refusing_from(alloc, request);
        let refused = refused_in(&heap, made)?;
        labels = labels.saturating_add(refused.0);
        pushes = pushes.saturating_add(refused.1);
        constants = constants.saturating_add(refused.2);
        if heap.requests() < request {
            return Some((labels, pushes, constants));
        }
    }
    None
}

/// Whether all is made at a second try, over heaps that hold a byte more each time.
fn is_made_in_each(alloc: Global, made: Made) -> bool {
    for limit in 0..1024usize {
        if refused_in(&TestHeap::holding(alloc, limit), made).is_none() {
            return false;
        }
    }
    true
}

#[test]
fn each_growth_is_refused_in_turn(rt: HostRuntime) {
    let (labels, pushes, constants) = refusals(rt.alloc(), Made::Code).expect(
        &rt,
        "the same bytes",
    );
    assert!(rt; labels > 0);
    assert!(rt; pushes > 1);
    assert!(rt; constants > 0);
    assert!(rt; is_made_in_each(rt.alloc(), Made::Code));
}

#[test]
fn a_growth_for_a_large_key_is_refused(rt: HostRuntime) {
    let (_, _, constants) = refusals(rt.alloc(), Made::Far).expect(&rt, "a bound constant");
    assert!(rt; constants > 0);
    assert!(rt; is_made_in_each(rt.alloc(), Made::Far));
}

/// How many constants with keys from 0 on are bound in a heap of so many bytes, each to a place of its own, before memory
/// is refused; None where one isn't at its place then.
fn bound_in_order(alloc: Global, limit: usize) -> Option<u32> {
    let heap = TestHeap::holding(alloc, limit);
    let mut buffer = CodeBuffer::new(&heap);
    let mut bound: u32 = 0;
    for key in 0..1_000u32 {
        if buffer.put1(0).is_err() || buffer.bind_constant(Constant(key)).is_err() {
            break;
        }
        bound = key.saturating_add(1);
    }
    for key in 0..bound {
        let place = buffer.place_of(DeferredTarget::Constant(Constant(key)));
        if place != Some((key as usize).saturating_add(1)) {
            return None;
        }
    }
    let next = buffer.place_of(DeferredTarget::Constant(Constant(bound)));
    if next.is_none() { Some(bound) } else { None }
}

/// How many there would be in a map alone.
fn bound_in_a_map(alloc: Global, limit: usize) -> u32 {
    let heap = TestHeap::holding(alloc, limit);
    let mut recorder = Recorder::new(&heap);
    let mut places: HashMap<u32, usize, BuildHasherDefault<FoldHasher>, &Heap> = HashMap::new(
        &heap,
    );
    for key in 0..1_000u32 {
        if recorder.put1(0).is_err() || places.insert(key, recorder.bytes().len()).is_err() {
            return key;
        }
    }
    1_000
}

#[test]
fn constants_are_bound_where_their_list_cannot_grow(rt: HostRuntime) {
    for blocks in 1..64usize {
        let bound = bound_in_order(rt.alloc(), 128 * blocks).expect(&rt, "their places");
        let in_a_map = bound_in_a_map(rt.alloc(), 128 * blocks);
        assert!(rt; bound >= in_a_map, "{bound} for {in_a_map}");
    }
    // A list of so many can't be doubled in such a heap, and there is memory for some more in a map.
    for (limit, listed) in [(768, 32u32), (1280, 64), (2560, 128)] {
        let bound = bound_in_order(rt.alloc(), limit).expect(&rt, "their places");
        assert!(rt; bound > listed && bound < 2 * listed, "{bound}");
    }
}

/// Keys of which the first is too large for a list, until the list has grown past it.
const OUT_OF_ORDER: [u32; 5] = [20, 5, 19, 21, 0];

/// Whether a constant that is bound before those with smaller keys keeps its place when the list comes to its key.
fn keeps_its_place(alloc: Global) -> bool {
    let mut buffer = CodeBuffer::new(alloc);
    for key in OUT_OF_ORDER {
        if buffer.bind_constant(Constant(key)).is_err() || buffer.put1(0).is_err() {
            return false;
        }
    }
    for (place, key) in OUT_OF_ORDER.iter().enumerate() {
        let again = buffer.bind_constant(Constant(*key)).err();
        let bound = buffer.place_of(DeferredTarget::Constant(Constant(*key)));
        if again != Some(BindError::Twice) || bound != Some(place) {
            return false;
        }
    }
    buffer
        .place_of(DeferredTarget::Constant(Constant(4)))
        .is_none()
}

#[test]
fn a_constant_out_of_order_keeps_its_place(rt: HostRuntime) {
    assert!(rt; keeps_its_place(rt.alloc()));
}

/// Whether a constant whose list can't grow keeps its place when the list grows past its key.
fn keeps_its_place_in_the_map(alloc: Global) -> bool {
    // A list of 16 and the one of 32 that it grows to take 768 bytes, and the list and a map less.
    let heap = TestHeap::holding(alloc, 760);
    let mut buffer = CodeBuffer::new(&heap);
    for key in 0..16u32 {
        if buffer.bind_constant(Constant(key)).is_err() {
            return false;
        }
    }
    let key = Constant(31);
    let bound = buffer.bind_constant(key);
    heap.relieve();
    let put = buffer.put1(0);
    let before = buffer.bind_constant(Constant(30));
    let behind = buffer.bind_constant(Constant(32));
    let again = buffer.bind_constant(key);
    let place = buffer.place_of(DeferredTarget::Constant(key));
    bound == Ok(())
        && put == Ok(())
        && before == Ok(())
        && behind == Ok(())
        && again == Err(BindError::Twice)
        && place == Some(0)
}

#[test]
fn a_constant_whose_list_cannot_grow_keeps_its_place(rt: HostRuntime) {
    assert!(rt; keeps_its_place_in_the_map(rt.alloc()));
}

/// Room for bytes, notices and labels, behind an instruction.
#[derive(Clone, Copy)]
struct Rooms;

const COMPARE: [u8; 8] = [0x0F, 0xC2, 0x05, 0xFF, 0xFF, 0xFF, 0xFF, 0x00];

fn make_rooms<A: Allocator>(buffer: &mut CodeBuffer<A>) -> Result<(), SinkError> {
    buffer.reserve(60, 10)?;
    buffer.reserve_labels(17)
}

impl Grows for Rooms {
    fn run<A: Allocator + Copy>(&self, alloc: A) -> Outcome {
        let mut buffer = CodeBuffer::new(alloc);
        if push(&mut buffer, &compare_with(POOL)).is_err() {
            return Outcome::Refused;
        }
        let ended = make_rooms(&mut buffer);
        let told = [Notice::Target(3, POOL)];
        if buffer.bytes() != COMPARE.as_slice() || buffer.notices() != told.as_slice() {
            return Outcome::Wrong;
        }
        match ended {
            Ok(()) => Outcome::Made,
            Err(SinkError::NoMemory) => Outcome::Refused,
            Err(SinkError::Full) => Outcome::Wrong,
        }
    }
}

#[test]
fn each_room_is_refused_in_turn(rt: HostRuntime) {
    assert!(rt; is_refused(rt.alloc(), &Rooms, 5));
}

/// How often a buffer with so many labels and instructions asks for memory.
fn requests_of(alloc: Global, labels: u32, count: u32) -> Option<usize> {
    let heap = TestHeap::refusing(alloc, 0);
    let mut buffer = CodeBuffer::new(&heap);
    for _ in 0..labels {
        buffer.new_label().ok()?;
    }
    for _ in 0..count {
        push(&mut buffer, &compare_with(POOL)).ok()?;
    }
    Some(heap.requests())
}

#[test]
fn a_function_takes_few_blocks(rt: HostRuntime) {
    // One for bytes and for notices.
    assert_eq!(rt; requests_of(rt.alloc(), 16, 1), Some(2));
    // Of 64, 128 and so on to 2,048 bytes, of 4, 8 and so on to 256 notices, and of 16, 32 and so on to 128 labels.
    assert_eq!(rt; requests_of(rt.alloc(), 100, 200), Some(17));
}
