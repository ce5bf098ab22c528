//! What the job `core_assembled` has beside `core`: a jump to a label behind every sixth instruction, half of them forward.

use crate::functions::{Body, Plan, push_settled};
use crate::parts::Labels;
use cranelift_assembler_x64::{DeferredTarget, Label, SinkError};
use huqmeris::{CodeBuffer, Condition, Core, Jump};
use std::alloc::Global;
use workload_source::digest::Digest;
use workload_source::stub::bind;

/// The jumps, in turn.
const JUMPS: [Jump; 8] = [
    Jump::If(Condition::Ne),
    Jump::If(Condition::E),
    Jump::Always,
    Jump::If(Condition::B),
    Jump::If(Condition::L),
    Jump::Call,
    Jump::If(Condition::Ae),
    Jump::If(Condition::Le),
];

/// The jump behind an instruction that has one, and its label: one of the last two, or of the next two.
pub(crate) fn jump_behind(places: &Labels, labels: u32, number: usize) -> Option<(Jump, Label)> {
    if number % 6 != 5 {
        return None;
    }
    let turn = number / 6;
    let far = u32::from(turn % 4 > 1);
    let label = if turn % 2 == 0 {
        places.next.saturating_sub(1 + far)
    } else {
        places
            .next
            .saturating_add(far)
            .min(labels.saturating_sub(1))
    };
    Some((JUMPS[turn % 8], Label(label)))
}

/// Pushes the instructions as `core` does, and the jumps between them.
#[derive(Clone, Copy)]
pub(crate) struct WithJumps;

impl Body for WithJumps {
    fn push(
        &mut self,
        buffer: &mut CodeBuffer<Global>,
        insts: &[Core],
        labels: u32,
        plan: &Plan,
        homes: &[u8; 256],
        digest: &mut Digest,
    ) -> Result<(), SinkError> {
        let mut places = Labels::new();
        for (number, inst) in insts.iter().enumerate() {
            if let Some(label) = places.step() {
                bind(buffer, label, digest);
            }
            push_settled(buffer, inst, plan, homes, digest)?;
            if let Some((jump, label)) = jump_behind(&places, labels, number) {
                buffer.push_jump(jump, DeferredTarget::Label(label))?;
            }
        }
        for label in places.next..labels {
            bind(buffer, Label(label), digest);
        }
        Ok(())
    }
}
