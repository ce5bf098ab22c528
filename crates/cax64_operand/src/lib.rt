//! Operands of instructions as data, what operands each row of the table has, and visits of their registers.
#![tactic(auto)]

pub mod family;
pub mod fold;
pub mod immediate;
pub mod instruction;
pub mod kind;
pub mod laws;
pub mod nop;
pub mod operand;
pub mod rows;
pub mod task;
pub mod visitor;
pub mod worked;

pub use family::RegisterFamily;
pub use fold::{FromOperands, of_five, of_four, of_one, of_three, of_two};
pub use immediate::{ImmOperand, Immediate};
pub use instruction::{HasOperands, Numbers, RowAndOperands, fold_operands, operands_of, row_of};
pub use kind::{ImmediateKind, OperandKind};
pub use nop::Nop;
pub use operand::{Operand, Operands};
pub use rows::signature;
pub use task::{ItsRow, Made, Task};
pub use visitor::{RegisterVisitor, visit_two_gprs};
