//! Machine code of x64 by data: instructions of 584 lines, put, read, printed, and assembled with labels.
//!
//! An instruction is a [`Core`]: a line of the table, [`Op`], and registers by their hardware numbers. A constant of [`ops`] has
//! the calls that make it of what its line takes. Bytes go into any [`CodeSink`]; a [`CodeBuffer`] has labels and constants
//! too, and [`Layout`] puts a list in its least layout. [`read_core`] reads bytes, and [`CoreText`] prints.
//!
//! ```
//! use huqmeris::ops::arithmetic::ADDQ_RM;
//! use huqmeris::ops::control::RETQ_ZO;
//! use huqmeris::{CodeBuffer, SinkError, gpr};
//! use std::alloc::Global;
//!
//! /// The machine code of `addq %rsi, %rdi` and `retq`, which is `48 03 fe c3`.
//! fn sum(alloc: Global) -> Result<Vec<u8>, SinkError> {
//!     let mut buffer = CodeBuffer::new(alloc);
//!     buffer.push(&ADDQ_RM.regs(gpr::enc::RDI, gpr::enc::RSI))?;
//!     buffer.push(&RETQ_ZO.bare())?;
//!     ..
//! }
//! ```
//!
//! Each item stands in a crate of its layer; this crate gives it its public path.
#![tactic(auto)]

pub use cax64_address::amode::{Amode, Scale};
pub use cax64_address::makers::{BaseAddress, IndexAddress};
pub use cax64_address::offset::{AmodeOffset, AmodeOffsetPlusKnownOffset};
pub use cax64_encoder::{EncodeError, Fault, RoomNeeded};
pub use cax64_machine_code::reading::{Place, RegView};
pub use cax64_register::{NonRspGpr, Size, register_name};
pub use cax64_sequence::{
    Refused, Stopped, are_encodable, put_each, put_each_checked, put_each_whole,
};
pub use cax64_sink::{
    CodeSink, Constant, DeferredTarget, FixedSink, KnownOffset, Label, Notice, Recorder, SinkError,
    TrapCode,
};
pub use x64_assemble::{Item, Layout, LayoutError};
pub use x64_code_buffer::{BindError, CodeBuffer, Condition, FinishError, Jump, patched_field};
pub use x64_core::{Core, CorePlace, makers, ops};
pub use x64_encode::Encode;
pub use x64_lines::flags::{Flag, FlagSet, Flags};
pub use x64_lines::operands::{Access, Class, Home, LineOperand};
pub use x64_lines::shapes::{OpFields, OpImm, OpShape};
pub use x64_lines::{Extension, Extensions, Op, OperandError};
pub use x64_place::{FlatPlace, PlaceKind};
pub use x64_reader::{CoreReading, read_core};
pub use x64_text::CoreText;

/// General registers' hardware numbers.
pub mod gpr {
    pub use cax64_register::gpr::enc;
}

/// XMM registers' hardware numbers.
pub mod xmm {
    pub use cax64_register::xmm::enc;
}

/// Laws of the items here. The functions do nothing: their clauses are the laws.
pub mod laws {
    pub use x64_assemble::laws::{a_jump_leads_in_any_buffer, a_jump_leads_to_its_label};
    pub use x64_code_buffer::laws::{a_jump_leads, a_near_jump_leads, what_is_laid_out_reads};
    pub use x64_core::laws::{laws_of_equality, what_encode_adds_is_read};
    pub use x64_layout::laws::{the_least_has_the_fewest_bytes, the_longer_form_reaches};
    pub use x64_lines::laws::core_lines_are_apart;
    pub use x64_reader::laws::what_no_line_reads_is_refused;
}
