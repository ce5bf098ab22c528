//! Lists of no-operations, jumps and labels.

use cax64_operand::Nop;
use cax64_sink::{Label, SinkError};
use cax64_test_support::Filler;
use std::alloc::{AllocError, Allocator, Global};
use x64_assemble::Item;
use x64_code_buffer::{CodeBuffer, Condition, Jump};

pub(crate) const IF_EQUAL: Jump = Jump::If(Condition::E);

pub(crate) const IF_NOT_EQUAL: Jump = Jump::If(Condition::Ne);

/// What stands in a list.
#[derive(Clone, Copy)]
pub(crate) enum Piece {
    /// So many no-operations of one kind.
    Nops(usize, Nop),
    Jump(Jump, u32),
    Bind(u32),
}

/// The items of these pieces.
pub(crate) fn items_of(alloc: Global, pieces: &[Piece]) -> Result<Vec<Item<Filler>>, AllocError> {
    let mut items = Vec::new(alloc);
    for piece in pieces {
        match piece {
            Piece::Nops(count, nop) => {
                for _ in 0..*count {
                    items.push(Item::Inst(Filler(*nop)))?;
                }
            }
            Piece::Jump(jump, to) => items.push(Item::Jump(*jump, Label(*to)))?,
            Piece::Bind(bound) => items.push(Item::Bind(Label(*bound)))?,
        }
    }
    Ok(items)
}

/// A buffer that gave three labels.
pub(crate) fn with_labels<A: Allocator + Copy>(alloc: A) -> Result<CodeBuffer<A>, SinkError> {
    let mut buffer = CodeBuffer::new(alloc);
    for _ in 0..3usize {
        buffer.new_label()?;
    }
    Ok(buffer)
}
