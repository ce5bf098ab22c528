//! Each growth that lists ask for is refused in turn: what a buffer holds is as before, and a second try gives the same bytes.

use crate::making::{IF_NOT_EQUAL, with_labels};
use cax64_operand::Nop;
use cax64_sink::{DeferredTarget, Label};
use cax64_test_support::Filler;
use cax64_test_support::growth::{Grows, Outcome, is_refused};
use std::alloc::Allocator;
use x64_assemble::{Item, Layout, LayoutError};
use x64_code_buffer::{CodeBuffer, Jump};

/// The bytes of a jump over a no-operation, and of a call that is open.
const FEW: [u8; 16] = [
    0xEB, 9, 0x66, 0x0F, 0x1F, 0x84, 0, 0, 0, 0, 0, 0xE8, 0, 0, 0, 0,
];

/// Those of a jump back over 360 bytes.
const BACK: [u8; 6] = [0x0F, 0x85, 0x92, 0xFE, 0xFF, 0xFF];

/// Puts a list that binds this label, with a second try where memory is refused.
fn put<A: Allocator>(
    layout: &mut Layout<A>,
    buffer: &mut CodeBuffer<A>,
    items: &[Item<Filler>],
    bound: Label,
) -> Outcome {
    let len = buffer.bytes().len();
    let notices = buffer.notices().len();
    for _ in 0..2usize {
        match layout.assemble(items, buffer) {
            Ok(()) => return Outcome::Made,
            Err(LayoutError::NoMemory) => {
                let target = DeferredTarget::Label(bound);
                if buffer.bytes().len() != len
                    || buffer.notices().len() != notices
                    || buffer.place_of(target).is_some()
                {
                    return Outcome::Wrong;
                }
            }
            Err(_) => return Outcome::Wrong,
        }
    }
    Outcome::Refused
}

/// Two lists, one behind the other: of four items, and of 42.
#[derive(Drop)]
struct TwoLists<'a> {
    many: &'a [Item<Filler>],
}

impl<'a> Grows for TwoLists<'a> {
    fn run<A: Allocator + Copy>(&self, alloc: A) -> Outcome {
        let few = [
            Item::Jump(Jump::Always, Label(0)),
            Item::Inst(Filler(Nop::Nine)),
            Item::Bind(Label(0)),
            Item::Jump(Jump::Call, Label(2)),
        ];
        let mut layout = Layout::new(alloc);
        let Ok(mut buffer) = with_labels(alloc) else {
            return Outcome::Refused;
        };
        let first = put(&mut layout, &mut buffer, &few, Label(0));
        if first != Outcome::Made {
            return first;
        }
        if buffer.bytes() != FEW.as_slice() {
            return Outcome::Wrong;
        }
        let second = put(&mut layout, &mut buffer, self.many, Label(1));
        if second != Outcome::Made {
            return second;
        }
        let code = buffer.bytes();
        let label = buffer.place_of(DeferredTarget::Label(Label(1)));
        if code.starts_with(FEW.as_slice())
            && code.ends_with(BACK.as_slice())
            && code.len() == 16 + 360 + 6
            && label == Some(16)
            && buffer.notices().len() == 1
        {
            Outcome::Made
        } else {
            Outcome::Wrong
        }
    }
}

#[test]
fn each_growth_is_refused_in_turn(rt: HostRuntime) {
    let mut many = Vec::new(rt.alloc());
    many.push(Item::Bind(Label(1))).expect(&rt, "room");
    for _ in 0..40usize {
        let nine = Item::Inst(Filler(Nop::Nine));
        many.push(nine).expect(&rt, "room");
    }
    let back = Item::Jump(IF_NOT_EQUAL, Label(1));
    many.push(back).expect(&rt, "room");
    let lists = TwoLists {
        many: many.as_slice(),
    };
    assert!(rt; is_refused(rt.alloc(), &lists, 10));
}
