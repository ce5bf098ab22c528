// Written by table/write.py from table/instructions.txt.
//! Instructions that do nothing. (Intel SDM, volume 2, `NOP`, table 4-12.)

ghost use Rattle.std.specs.Prelude.{◌≡◌, IfOk, string_bytes};
ghost use Rattle.cax64_address.specs.declared.text.Dialect.TheVariants.{Xed};
ghost use Rattle.cax64_machine_code.specs.declared.row.Row.TheVariants as row;
ghost use Rattle.cax64_operand.specs.Visit.{OperandsRun};
ghost use Rattle.cax64_operand.specs.declared.instruction.Numbers.{Numbers};
ghost use Rattle.cax64_text.specs.Text.{text};
ghost use Rattle.nop.specs.Operands.{operands_nop_1b, operands_nop_2b, operands_nop_3b, operands_nop_4b, operands_nop_5b, operands_nop_6b, operands_nop_7b, operands_nop_8b, operands_nop_9b};

use cax64_machine_code::row::Row;
use cax64_operand::{Nop, Numbers, RegisterVisitor, RowAndOperands, Task};
use cax64_register::Registers;
use cax64_text::{RegisterNames, xed_string};
use std::alloc::{AllocError, Allocator};

/// No operation, in one byte.
#[derive(Drop)]
pub struct nop_1b;

impl nop_1b {
    pub fn new() -> Self {
        nop_1b
    }

    /// It has no registers; the visitor stays as it is.
    pub fn visit<R: Registers, V: RegisterVisitor<R>>(&mut self, visitor: &mut V)
        ensures { OperandsRun R.WriteGpr.eq V.steps visitor.old (operands_nop_1b {R = R} self.old) (operands_nop_1b {R = R} self.new) visitor.new }
    {}

    /// The text as XED prints it, of registers that are all `nameable`. Fails where there is no memory.
    pub fn to_string_xed<A: Allocator + Copy>(&self, alloc: A) -> Result<String<A>, AllocError>
        ensures { IfOk result (λ t. string_bytes t ≡ text {R = Numbers} ⟦<Numbers as RegisterNames>⟧.names Xed row.nop_1b (operands_nop_1b self.now)) }
    {
        xed_string(self, alloc)
    }
}

impl RowAndOperands for nop_1b {
    type Family = Numbers;

    ghost row_of = { λ _. row.nop_1b };

    ghost operands_of = { operands_nop_1b };

    #[inline(always)]
    fn hand_to<T: Task<Numbers, X>, X>(&self, to: &mut X) -> T::Answer {
        T::take(T::nop(Nop::One), Row::nop_1b, to)
    }

    fn visit<V: RegisterVisitor<Numbers>>(&mut self, visitor: &mut V) {
        nop_1b::visit(self, visitor);
    }
}

/// No operation, in two bytes.
#[derive(Drop)]
pub struct nop_2b;

impl nop_2b {
    pub fn new() -> Self {
        nop_2b
    }

    /// It has no registers; the visitor stays as it is.
    pub fn visit<R: Registers, V: RegisterVisitor<R>>(&mut self, visitor: &mut V)
        ensures { OperandsRun R.WriteGpr.eq V.steps visitor.old (operands_nop_2b {R = R} self.old) (operands_nop_2b {R = R} self.new) visitor.new }
    {}

    /// The text as XED prints it, of registers that are all `nameable`. Fails where there is no memory.
    pub fn to_string_xed<A: Allocator + Copy>(&self, alloc: A) -> Result<String<A>, AllocError>
        ensures { IfOk result (λ t. string_bytes t ≡ text {R = Numbers} ⟦<Numbers as RegisterNames>⟧.names Xed row.nop_2b (operands_nop_2b self.now)) }
    {
        xed_string(self, alloc)
    }
}

impl RowAndOperands for nop_2b {
    type Family = Numbers;

    ghost row_of = { λ _. row.nop_2b };

    ghost operands_of = { operands_nop_2b };

    #[inline(always)]
    fn hand_to<T: Task<Numbers, X>, X>(&self, to: &mut X) -> T::Answer {
        T::take(T::nop(Nop::Two), Row::nop_2b, to)
    }

    fn visit<V: RegisterVisitor<Numbers>>(&mut self, visitor: &mut V) {
        nop_2b::visit(self, visitor);
    }
}

/// No operation, in three bytes.
#[derive(Drop)]
pub struct nop_3b;

impl nop_3b {
    pub fn new() -> Self {
        nop_3b
    }

    /// It has no registers; the visitor stays as it is.
    pub fn visit<R: Registers, V: RegisterVisitor<R>>(&mut self, visitor: &mut V)
        ensures { OperandsRun R.WriteGpr.eq V.steps visitor.old (operands_nop_3b {R = R} self.old) (operands_nop_3b {R = R} self.new) visitor.new }
    {}

    /// The text as XED prints it, of registers that are all `nameable`. Fails where there is no memory.
    pub fn to_string_xed<A: Allocator + Copy>(&self, alloc: A) -> Result<String<A>, AllocError>
        ensures { IfOk result (λ t. string_bytes t ≡ text {R = Numbers} ⟦<Numbers as RegisterNames>⟧.names Xed row.nopl_rm (operands_nop_3b self.now)) }
    {
        xed_string(self, alloc)
    }
}

impl RowAndOperands for nop_3b {
    type Family = Numbers;

    ghost row_of = { λ _. row.nopl_rm };

    ghost operands_of = { operands_nop_3b };

    #[inline(always)]
    fn hand_to<T: Task<Numbers, X>, X>(&self, to: &mut X) -> T::Answer {
        T::take(T::nop(Nop::Three), Row::nopl_rm, to)
    }

    fn visit<V: RegisterVisitor<Numbers>>(&mut self, visitor: &mut V) {
        nop_3b::visit(self, visitor);
    }
}

/// No operation, in four bytes.
#[derive(Drop)]
pub struct nop_4b;

impl nop_4b {
    pub fn new() -> Self {
        nop_4b
    }

    /// It has no registers; the visitor stays as it is.
    pub fn visit<R: Registers, V: RegisterVisitor<R>>(&mut self, visitor: &mut V)
        ensures { OperandsRun R.WriteGpr.eq V.steps visitor.old (operands_nop_4b {R = R} self.old) (operands_nop_4b {R = R} self.new) visitor.new }
    {}

    /// The text as XED prints it, of registers that are all `nameable`. Fails where there is no memory.
    pub fn to_string_xed<A: Allocator + Copy>(&self, alloc: A) -> Result<String<A>, AllocError>
        ensures { IfOk result (λ t. string_bytes t ≡ text {R = Numbers} ⟦<Numbers as RegisterNames>⟧.names Xed row.nopl_rm (operands_nop_4b self.now)) }
    {
        xed_string(self, alloc)
    }
}

impl RowAndOperands for nop_4b {
    type Family = Numbers;

    ghost row_of = { λ _. row.nopl_rm };

    ghost operands_of = { operands_nop_4b };

    #[inline(always)]
    fn hand_to<T: Task<Numbers, X>, X>(&self, to: &mut X) -> T::Answer {
        T::take(T::nop(Nop::Four), Row::nopl_rm, to)
    }

    fn visit<V: RegisterVisitor<Numbers>>(&mut self, visitor: &mut V) {
        nop_4b::visit(self, visitor);
    }
}

/// No operation, in five bytes.
#[derive(Drop)]
pub struct nop_5b;

impl nop_5b {
    pub fn new() -> Self {
        nop_5b
    }

    /// It has no registers; the visitor stays as it is.
    pub fn visit<R: Registers, V: RegisterVisitor<R>>(&mut self, visitor: &mut V)
        ensures { OperandsRun R.WriteGpr.eq V.steps visitor.old (operands_nop_5b {R = R} self.old) (operands_nop_5b {R = R} self.new) visitor.new }
    {}

    /// The text as XED prints it, of registers that are all `nameable`. Fails where there is no memory.
    pub fn to_string_xed<A: Allocator + Copy>(&self, alloc: A) -> Result<String<A>, AllocError>
        ensures { IfOk result (λ t. string_bytes t ≡ text {R = Numbers} ⟦<Numbers as RegisterNames>⟧.names Xed row.nopl_rm (operands_nop_5b self.now)) }
    {
        xed_string(self, alloc)
    }
}

impl RowAndOperands for nop_5b {
    type Family = Numbers;

    ghost row_of = { λ _. row.nopl_rm };

    ghost operands_of = { operands_nop_5b };

    #[inline(always)]
    fn hand_to<T: Task<Numbers, X>, X>(&self, to: &mut X) -> T::Answer {
        T::take(T::nop(Nop::Five), Row::nopl_rm, to)
    }

    fn visit<V: RegisterVisitor<Numbers>>(&mut self, visitor: &mut V) {
        nop_5b::visit(self, visitor);
    }
}

/// No operation, in six bytes.
#[derive(Drop)]
pub struct nop_6b;

impl nop_6b {
    pub fn new() -> Self {
        nop_6b
    }

    /// It has no registers; the visitor stays as it is.
    pub fn visit<R: Registers, V: RegisterVisitor<R>>(&mut self, visitor: &mut V)
        ensures { OperandsRun R.WriteGpr.eq V.steps visitor.old (operands_nop_6b {R = R} self.old) (operands_nop_6b {R = R} self.new) visitor.new }
    {}

    /// The text as XED prints it, of registers that are all `nameable`. Fails where there is no memory.
    pub fn to_string_xed<A: Allocator + Copy>(&self, alloc: A) -> Result<String<A>, AllocError>
        ensures { IfOk result (λ t. string_bytes t ≡ text {R = Numbers} ⟦<Numbers as RegisterNames>⟧.names Xed row.nopw_rm (operands_nop_6b self.now)) }
    {
        xed_string(self, alloc)
    }
}

impl RowAndOperands for nop_6b {
    type Family = Numbers;

    ghost row_of = { λ _. row.nopw_rm };

    ghost operands_of = { operands_nop_6b };

    #[inline(always)]
    fn hand_to<T: Task<Numbers, X>, X>(&self, to: &mut X) -> T::Answer {
        T::take(T::nop(Nop::Six), Row::nopw_rm, to)
    }

    fn visit<V: RegisterVisitor<Numbers>>(&mut self, visitor: &mut V) {
        nop_6b::visit(self, visitor);
    }
}

/// No operation, in seven bytes.
#[derive(Drop)]
pub struct nop_7b;

impl nop_7b {
    pub fn new() -> Self {
        nop_7b
    }

    /// It has no registers; the visitor stays as it is.
    pub fn visit<R: Registers, V: RegisterVisitor<R>>(&mut self, visitor: &mut V)
        ensures { OperandsRun R.WriteGpr.eq V.steps visitor.old (operands_nop_7b {R = R} self.old) (operands_nop_7b {R = R} self.new) visitor.new }
    {}

    /// The text as XED prints it, of registers that are all `nameable`. Fails where there is no memory.
    pub fn to_string_xed<A: Allocator + Copy>(&self, alloc: A) -> Result<String<A>, AllocError>
        ensures { IfOk result (λ t. string_bytes t ≡ text {R = Numbers} ⟦<Numbers as RegisterNames>⟧.names Xed row.nopl_rm (operands_nop_7b self.now)) }
    {
        xed_string(self, alloc)
    }
}

impl RowAndOperands for nop_7b {
    type Family = Numbers;

    ghost row_of = { λ _. row.nopl_rm };

    ghost operands_of = { operands_nop_7b };

    #[inline(always)]
    fn hand_to<T: Task<Numbers, X>, X>(&self, to: &mut X) -> T::Answer {
        T::take(T::nop(Nop::Seven), Row::nopl_rm, to)
    }

    fn visit<V: RegisterVisitor<Numbers>>(&mut self, visitor: &mut V) {
        nop_7b::visit(self, visitor);
    }
}

/// No operation, in eight bytes.
#[derive(Drop)]
pub struct nop_8b;

impl nop_8b {
    pub fn new() -> Self {
        nop_8b
    }

    /// It has no registers; the visitor stays as it is.
    pub fn visit<R: Registers, V: RegisterVisitor<R>>(&mut self, visitor: &mut V)
        ensures { OperandsRun R.WriteGpr.eq V.steps visitor.old (operands_nop_8b {R = R} self.old) (operands_nop_8b {R = R} self.new) visitor.new }
    {}

    /// The text as XED prints it, of registers that are all `nameable`. Fails where there is no memory.
    pub fn to_string_xed<A: Allocator + Copy>(&self, alloc: A) -> Result<String<A>, AllocError>
        ensures { IfOk result (λ t. string_bytes t ≡ text {R = Numbers} ⟦<Numbers as RegisterNames>⟧.names Xed row.nopl_rm (operands_nop_8b self.now)) }
    {
        xed_string(self, alloc)
    }
}

impl RowAndOperands for nop_8b {
    type Family = Numbers;

    ghost row_of = { λ _. row.nopl_rm };

    ghost operands_of = { operands_nop_8b };

    #[inline(always)]
    fn hand_to<T: Task<Numbers, X>, X>(&self, to: &mut X) -> T::Answer {
        T::take(T::nop(Nop::Eight), Row::nopl_rm, to)
    }

    fn visit<V: RegisterVisitor<Numbers>>(&mut self, visitor: &mut V) {
        nop_8b::visit(self, visitor);
    }
}

/// No operation, in nine bytes.
#[derive(Drop)]
pub struct nop_9b;

impl nop_9b {
    pub fn new() -> Self {
        nop_9b
    }

    /// It has no registers; the visitor stays as it is.
    pub fn visit<R: Registers, V: RegisterVisitor<R>>(&mut self, visitor: &mut V)
        ensures { OperandsRun R.WriteGpr.eq V.steps visitor.old (operands_nop_9b {R = R} self.old) (operands_nop_9b {R = R} self.new) visitor.new }
    {}

    /// The text as XED prints it, of registers that are all `nameable`. Fails where there is no memory.
    pub fn to_string_xed<A: Allocator + Copy>(&self, alloc: A) -> Result<String<A>, AllocError>
        ensures { IfOk result (λ t. string_bytes t ≡ text {R = Numbers} ⟦<Numbers as RegisterNames>⟧.names Xed row.nopw_rm (operands_nop_9b self.now)) }
    {
        xed_string(self, alloc)
    }
}

impl RowAndOperands for nop_9b {
    type Family = Numbers;

    ghost row_of = { λ _. row.nopw_rm };

    ghost operands_of = { operands_nop_9b };

    #[inline(always)]
    fn hand_to<T: Task<Numbers, X>, X>(&self, to: &mut X) -> T::Answer {
        T::take(T::nop(Nop::Nine), Row::nopw_rm, to)
    }

    fn visit<V: RegisterVisitor<Numbers>>(&mut self, visitor: &mut V) {
        nop_9b::visit(self, visitor);
    }
}
