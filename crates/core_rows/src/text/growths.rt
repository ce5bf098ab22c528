//! Each growth of a text is refused in turn.

use crate::text::words::{at, text_of};
use cax64_test_support::growth::{Grows, Outcome, is_refused};
use std::alloc::{AllocError, Allocator};
use x64_core::Core;
use x64_core::ops::rows::LOCK_ADDL_MI_SXB;

/// The text of an instruction.
#[derive(Drop)]
struct Text {
    inst: Core,
    expected: &'static str,
}

impl Grows for Text {
    fn run<A: Allocator + Copy>(&self, alloc: A) -> Outcome {
        match text_of(alloc, &self.inst) {
            Ok(text) => if text.as_str() == self.expected {
                Outcome::Made
            } else {
                Outcome::Wrong
            },
            Err(AllocError) => Outcome::Refused,
        }
    }
}

#[test]
fn refused(rt: HostRuntime) {
    let text = Text {
        inst: LOCK_ADDL_MI_SXB.mem(at(12, -128), -1),
        expected: "lock addl $0xffffffff, -0x80(%r12)",
    };
    assert!(rt; is_refused(rt.alloc(), &text, 1));
}
