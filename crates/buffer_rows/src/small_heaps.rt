//! What two plain vectors hold in a small heap, a recorder and a buffer hold too.

use crate::making::{POOL, compare_with, longest, push, shift};
use cax64_sink::{CodeSink, Notice, Recorder, SinkError, TrapCode};
use cax64_test_support::TestHeap;
use std::alloc::{Allocator, Global};
use std::mem::size_of;
use std::num::NonZeroU8;
use x64_code_buffer::CodeBuffer;

/// The longest instruction.
const LONGEST: usize = 13;

/// What room is made for, and what is put then.
#[derive(Clone, Copy, Debug)]
struct Step {
    /// Room for so many notices, and for the bytes of the longest instruction.
    notices: usize,
    bytes: &'static [u8],
    is_told: bool,
}

/// An instruction with a notice.
const COMPARE: Step = Step {
    notices: 1,
    bytes: &[0x0F, 0xC2, 0x05, 0xFF, 0xFF, 0xFF, 0xFF, 0x00],
    is_told: true,
};

/// One without, which has room for a notice all the same.
const SHIFT: Step = Step {
    notices: 1,
    bytes: &[0xD0, 0xE0],
    is_told: false,
};

const BYTES_ALONE: Step = Step {
    notices: 0,
    bytes: &[0x90; LONGEST],
    is_told: false,
};

/// The longest instruction, without a notice.
const ADD: Step = Step {
    notices: 1,
    bytes: &[0x90; LONGEST],
    is_told: false,
};

const TOLD: Notice = Notice::Trap(0, TrapCode(NonZeroU8::MIN));

/// What holds bytes and notices.
trait Holds: Drop {
    /// Makes room and puts; false where memory is refused.
    fn holds(&mut self, step: Step) -> bool;
}

/// Two vectors, of which each reserves as it likes.
#[derive(Drop)]
struct Plain<A: Allocator> {
    code: Vec<u8, A>,
    told: Vec<Notice, A>,
}

impl<A: Allocator> Holds for Plain<A> {
    fn holds(&mut self, step: Step) -> bool {
        if self.code.reserve(LONGEST).is_err() || self.told.reserve(step.notices).is_err() {
            return false;
        }
        let is_put = self.code.extend_from_slice(step.bytes).is_ok();
        is_put && (!step.is_told || self.told.push(TOLD).is_ok())
    }
}

fn put<A: Allocator>(sink: &mut Recorder<A>, step: Step) -> Result<(), SinkError> {
    for byte in step.bytes {
        sink.put1(*byte)?;
    }
    if step.is_told {
        sink.add_trap(TrapCode(NonZeroU8::MIN))?;
    }
    Ok(())
}

/// A recorder that makes room for one step.
#[derive(Drop)]
struct Reserves<A: Allocator>(Recorder<A>);

impl<A: Allocator> Holds for Reserves<A> {
    fn holds(&mut self, step: Step) -> bool {
        self.0.reserve(LONGEST, step.notices).is_ok() && put(&mut self.0, step).is_ok()
    }
}

/// A recorder that makes room for further steps.
#[derive(Drop)]
struct ReservesAhead<A: Allocator>(Recorder<A>);

impl<A: Allocator> Holds for ReservesAhead<A> {
    fn holds(&mut self, step: Step) -> bool {
        self.0.reserve_ahead(LONGEST, step.notices).is_ok() && put(&mut self.0, step).is_ok()
    }
}

/// A buffer that takes an instruction.
#[derive(Drop)]
struct Pushes<A: Allocator>(CodeBuffer<A>);

impl<A: Allocator> Holds for Pushes<A> {
    fn holds(&mut self, step: Step) -> bool {
        let pushed = match step.bytes.len() {
            LONGEST => push(&mut self.0, &longest()),
            2 => push(&mut self.0, &shift()),
            _ => push(&mut self.0, &compare_with(POOL)),
        };
        pushed.is_ok()
    }
}

/// So many steps are tried.
const STEPS: usize = 20;

/// How many steps of at most so many are held: before one is refused, and before one is refused twice.
fn steps_of<H: Holds>(mut holder: H, step: Step, most: usize) -> (usize, usize) {
    let mut unrefused = most;
    for held in 0..most {
        if !holder.holds(step) {
            unrefused = unrefused.min(held);
            if !holder.holds(step) {
                return (unrefused, held);
            }
        }
    }
    (unrefused, most)
}

/// A label of a buffer, as a vector has it.
fn labels<A: Allocator>(alloc: A, count: usize) -> Option<Vec<Option<usize>, A>> {
    let mut labels = Vec::new(alloc);
    for _ in 0..count {
        labels.push(None).ok()?;
    }
    Some(labels)
}

fn plain_steps(
    heap: &TestHeap<Global>,
    count: usize,
    step: Step,
    most: usize,
) -> Option<(usize, usize)> {
    let _labels = labels(heap, count)?;
    let plain = Plain {
        code: Vec::new(heap),
        told: Vec::new(heap),
    };
    Some(steps_of(plain, step, most))
}

fn reserved_steps(heap: &TestHeap<Global>, count: usize, step: Step) -> Option<(usize, usize)> {
    let _labels = labels(heap, count)?;
    Some(steps_of(Reserves(Recorder::new(heap)), step, STEPS))
}

fn steps_ahead(heap: &TestHeap<Global>, count: usize, step: Step) -> Option<(usize, usize)> {
    let _labels = labels(heap, count)?;
    Some(steps_of(ReservesAhead(Recorder::new(heap)), step, STEPS))
}

/// Of a buffer the first step alone, behind which it makes room for more.
fn pushed_steps(heap: &TestHeap<Global>, count: usize, step: Step) -> Option<(usize, usize)> {
    let mut buffer = CodeBuffer::new(heap);
    for _ in 0..count {
        buffer.new_label().ok()?;
    }
    Some(steps_of(Pushes(buffer), step, 1))
}

/// Whether as many steps are held as by plain vectors, at the first try and at a second.
fn is_enough(steps: Option<(usize, usize)>, plain: (usize, usize)) -> bool {
    match steps {
        Some((unrefused, held)) => unrefused >= plain.0 && held >= plain.1,
        None => false,
    }
}

/// Whether it's so in a heap that holds so many bytes, behind so many labels.
fn holds_as_much(alloc: Global, limit: usize, count: usize, step: Step) -> bool {
    let Some(plain) = plain_steps(&TestHeap::holding(alloc, limit), count, step, STEPS) else {
        return true;
    };
    let first = plain_steps(&TestHeap::holding(alloc, limit), count, step, 1);
    let reserved = reserved_steps(&TestHeap::holding(alloc, limit), count, step);
    let ahead = steps_ahead(&TestHeap::holding(alloc, limit), count, step);
    // A buffer always makes room for a notice.
    let pushed = if step.notices > 0 {
        pushed_steps(&TestHeap::holding(alloc, limit), count, step)
    } else {
        first
    };
    is_enough(reserved, plain)
        && is_enough(ahead, plain)
        && is_enough(pushed, first.unwrap_or((1, 1)))
}

#[test]
fn a_small_heap_holds_as_much_as_in_plain_vectors(rt: HostRuntime) {
    for step in [COMPARE, SHIFT, BYTES_ALONE] {
        for count in 0..10usize {
            for limit in 0..1025usize {
                assert!(rt;
                    holds_as_much(rt.alloc(), limit, count, step),
                    "{step:?} behind {count} labels in {limit} bytes"
                );
            }
        }
    }
}

/// The fewest bytes in which a first step is held by plain vectors.
fn least(alloc: Global, count: usize, step: Step) -> Option<usize> {
    for limit in 0..1025usize {
        if let Some((1.., _)) = plain_steps(&TestHeap::holding(alloc, limit), count, step, 1) {
            return Some(limit);
        }
    }
    None
}

#[test]
fn a_first_step_takes_one_block_of_each_kind(rt: HostRuntime) {
    // The bytes, four notices and four labels.
    let notices = 4 * size_of::<Notice>();
    let labels = 4 * size_of::<Option<usize>>();
    assert_eq!(rt; least(rt.alloc(), 0, BYTES_ALONE), Some(LONGEST));
    assert_eq!(rt; least(rt.alloc(), 0, COMPARE), Some(LONGEST + notices));
    assert_eq!(rt;
        least(rt.alloc(), 1, COMPARE),
        Some(LONGEST + notices + labels)
    );
}

/// How many steps are held before one is refused.
fn held<H: Holds>(mut holder: H, step: Step) -> usize {
    for count in 0..LARGEST {
        if !holder.holds(step) {
            return count;
        }
    }
    LARGEST
}

/// The largest heap in which pushes are compared. It holds fewer steps.
const LARGEST: usize = 4096;

/// How many steps plain vectors hold, and how many are pushed, behind so many labels; nothing where those don't fit.
fn held_and_pushed(
    alloc: Global,
    limit: usize,
    count: usize,
    step: Step,
) -> Option<(usize, usize)> {
    let heap = TestHeap::holding(alloc, limit);
    let _labels = labels(&heap, count)?;
    let plain = Plain {
        code: Vec::new(&heap),
        told: Vec::new(&heap),
    };
    let plain = held(plain, step);
    let heap = TestHeap::holding(alloc, limit);
    let mut buffer = CodeBuffer::new(&heap);
    for _ in 0..count {
        buffer.new_label().ok()?;
    }
    Some((plain, held(Pushes(buffer), step)))
}

/// A first block of 64 bytes doubles to other sizes than one of 13, so a buffer may hold fewer steps. A list that grows is
/// copied, so a plain vector, which doubles, has two thirds of the heap at most. A buffer's list that can't double grows by
/// what is missing, up to half of the heap: three quarters of two thirds, save for what is less than one step.
#[test]
fn a_small_heap_holds_three_quarters_of_the_pushes(rt: HostRuntime) {
    for step in [COMPARE, SHIFT, ADD] {
        for count in [0, 5, 17usize] {
            for limit in (0..=LARGEST).step_by(8) {
                if let Some((plain, pushed)) = held_and_pushed(rt.alloc(), limit, count, step) {
                    assert!(rt;
                        pushed.saturating_add(1).saturating_mul(4) >= plain.saturating_mul(3),
                        "{pushed} of {plain}: {step:?} behind {count} labels in {limit} bytes"
                    );
                }
            }
        }
    }
}
