//! What the job `core_assembled_least` has beside `core_assembled`: all of a function is a list, which is put in its least layout.

use crate::assembled::jump_behind;
use crate::functions::{Body, Plan};
use crate::parts::{Labels, digest_fault};
use cranelift_assembler_x64::{Label, SinkError};
use huqmeris::{CodeBuffer, Core, Item, Layout, LayoutError};
use std::alloc::{AllocError, Global};
use workload_source::digest::Digest;
use workload_source::source::push;

/// Lays out one function after the other, and keeps its memory.
#[derive(Drop)]
pub(crate) struct Least {
    layout: Layout<Global>,
    items: Vec<Item<Core>>,
}

impl Least {
    pub(crate) fn new(alloc: Global) -> Least {
        Least {
            layout: Layout::new(alloc),
            items: Vec::new(alloc),
        }
    }

    /// Makes the list of a function: its instructions with the homes of their registers, jumps and labels.
    fn fill(&mut self, insts: &[Core], labels: u32, homes: &[u8; 256]) -> Result<(), AllocError> {
        self.items.clear();
        let mut places = Labels::new();
        for (number, inst) in insts.iter().enumerate() {
            if let Some(label) = places.step() {
                push(&mut self.items, Item::Bind(label))?;
            }
            let mut settled = *inst;
            settled.rename(homes);
            push(&mut self.items, Item::Inst(settled))?;
            if let Some((jump, label)) = jump_behind(&places, labels, number) {
                push(&mut self.items, Item::Jump(jump, label))?;
            }
        }
        for label in places.next..labels {
            push(&mut self.items, Item::Bind(Label(label)))?;
        }
        Ok(())
    }
}

impl Body for Least {
    /// What can't be encoded is told, and left out.
    fn push(
        &mut self,
        buffer: &mut CodeBuffer<Global>,
        insts: &[Core],
        labels: u32,
        _plan: &Plan,
        homes: &[u8; 256],
        digest: &mut Digest,
    ) -> Result<(), SinkError> {
        self.fill(insts, labels, homes)
            .map_err(|_| SinkError::NoMemory)?;
        for _ in 0..=insts.len() {
            match self.layout.assemble(&self.items, buffer) {
                Ok(()) => return Ok(()),
                Err(LayoutError::Fault(at, fault)) => {
                    digest_fault(digest, fault);
                    if at < self.items.len() {
                        self.items.remove(at);
                    }
                }
                Err(LayoutError::NoMemory) => return Err(SinkError::NoMemory),
                Err(LayoutError::TooMany | LayoutError::Bind(_, _)) => return Err(SinkError::Full),
            }
        }
        Err(SinkError::Full)
    }
}
