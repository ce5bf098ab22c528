// Written by table/write.py from table/instructions.txt.
//! Jumps and calls by a distance of four bytes. (Intel SDM, volume 2, `JMP`, `Jcc` and `CALL`.)

ghost use Rattle.std.specs.Prelude.{◌≡◌, IfOk, string_bytes};
ghost use Rattle.cax64_address.specs.declared.text.Dialect.TheVariants.{Xed};
ghost use Rattle.cax64_machine_code.specs.declared.row.Row.TheVariants as row;
ghost use Rattle.cax64_operand.specs.Visit.{OperandsRun};
ghost use Rattle.cax64_operand.specs.declared.instruction.Numbers.{Numbers};
ghost use Rattle.cax64_text.specs.Text.{text};
ghost use Rattle.jump.specs.Operands.{operands_callq_d, operands_jmp_d32, operands_jo_d32, operands_jno_d32, operands_jb_d32, operands_jae_d32, operands_je_d32, operands_jne_d32, operands_jbe_d32, operands_ja_d32, operands_js_d32, operands_jns_d32, operands_jp_d32, operands_jnp_d32, operands_jl_d32, operands_jge_d32, operands_jle_d32, operands_jg_d32};

use cax64_immediate::Simm32;
use cax64_machine_code::row::Row;
use cax64_operand::{Immediate, Numbers, Operand, RegisterVisitor, RowAndOperands, Task, of_one};
use cax64_register::Registers;
use cax64_text::{RegisterNames, xed_string};
use std::alloc::{AllocError, Allocator};

/// Call near, relative, by a 32-bit displacement from the next instruction.
#[derive(Drop)]
pub struct callq_d {
    pub imm32: Simm32,
}

impl callq_d {
    pub fn new(imm32: Simm32) -> Self
        ensures imm32 { result.imm32 ≡ imm32 }
    {
        callq_d { imm32 }
    }

    /// It has no registers; the visitor stays as it is.
    pub fn visit<R: Registers, V: RegisterVisitor<R>>(&mut self, visitor: &mut V)
        ensures { OperandsRun R.WriteGpr.eq V.steps visitor.old (operands_callq_d {R = R} self.old) (operands_callq_d {R = R} self.new) visitor.new }
    {}

    /// The text as XED prints it, of registers that are all `nameable`. Fails where there is no memory.
    pub fn to_string_xed<A: Allocator + Copy>(&self, alloc: A) -> Result<String<A>, AllocError>
        ensures { IfOk result (λ t. string_bytes t ≡ text {R = Numbers} ⟦<Numbers as RegisterNames>⟧.names Xed row.callq_d (operands_callq_d self.now)) }
    {
        xed_string(self, alloc)
    }
}

impl RowAndOperands for callq_d {
    type Family = Numbers;

    ghost row_of = { λ _. row.callq_d };

    ghost operands_of = { operands_callq_d };

    #[tactic(auto, unfolding(cax64_operand::specs::Signature::signature_of))]
    #[inline(always)]
    fn hand_to<T: Task<Numbers, X>, X>(&self, to: &mut X) -> T::Answer {
        T::take(
            of_one(Operand::Imm(Immediate::Distance32(self.imm32.value()))),
            Row::callq_d,
            to,
        )
    }

    fn visit<V: RegisterVisitor<Numbers>>(&mut self, visitor: &mut V) {
        callq_d::visit(self, visitor);
    }
}

/// Jump near, relative, by a 32-bit displacement from the next instruction.
#[derive(Drop)]
pub struct jmp_d32 {
    pub imm32: Simm32,
}

impl jmp_d32 {
    pub fn new(imm32: Simm32) -> Self
        ensures imm32 { result.imm32 ≡ imm32 }
    {
        jmp_d32 { imm32 }
    }

    /// It has no registers; the visitor stays as it is.
    pub fn visit<R: Registers, V: RegisterVisitor<R>>(&mut self, visitor: &mut V)
        ensures { OperandsRun R.WriteGpr.eq V.steps visitor.old (operands_jmp_d32 {R = R} self.old) (operands_jmp_d32 {R = R} self.new) visitor.new }
    {}

    /// The text as XED prints it, of registers that are all `nameable`. Fails where there is no memory.
    pub fn to_string_xed<A: Allocator + Copy>(&self, alloc: A) -> Result<String<A>, AllocError>
        ensures { IfOk result (λ t. string_bytes t ≡ text {R = Numbers} ⟦<Numbers as RegisterNames>⟧.names Xed row.jmp_d32 (operands_jmp_d32 self.now)) }
    {
        xed_string(self, alloc)
    }
}

impl RowAndOperands for jmp_d32 {
    type Family = Numbers;

    ghost row_of = { λ _. row.jmp_d32 };

    ghost operands_of = { operands_jmp_d32 };

    #[tactic(auto, unfolding(cax64_operand::specs::Signature::signature_of))]
    #[inline(always)]
    fn hand_to<T: Task<Numbers, X>, X>(&self, to: &mut X) -> T::Answer {
        T::take(
            of_one(Operand::Imm(Immediate::Distance32(self.imm32.value()))),
            Row::jmp_d32,
            to,
        )
    }

    fn visit<V: RegisterVisitor<Numbers>>(&mut self, visitor: &mut V) {
        jmp_d32::visit(self, visitor);
    }
}

/// Jump near if overflow (OF=1).
#[derive(Drop)]
pub struct jo_d32 {
    pub imm32: Simm32,
}

impl jo_d32 {
    pub fn new(imm32: Simm32) -> Self
        ensures imm32 { result.imm32 ≡ imm32 }
    {
        jo_d32 { imm32 }
    }

    /// It has no registers; the visitor stays as it is.
    pub fn visit<R: Registers, V: RegisterVisitor<R>>(&mut self, visitor: &mut V)
        ensures { OperandsRun R.WriteGpr.eq V.steps visitor.old (operands_jo_d32 {R = R} self.old) (operands_jo_d32 {R = R} self.new) visitor.new }
    {}
}

impl RowAndOperands for jo_d32 {
    type Family = Numbers;

    ghost row_of = { λ _. row.jo_d32 };

    ghost operands_of = { operands_jo_d32 };

    #[tactic(auto, unfolding(cax64_operand::specs::Signature::signature_of))]
    #[inline(always)]
    fn hand_to<T: Task<Numbers, X>, X>(&self, to: &mut X) -> T::Answer {
        T::take(
            of_one(Operand::Imm(Immediate::Distance32(self.imm32.value()))),
            Row::jo_d32,
            to,
        )
    }

    fn visit<V: RegisterVisitor<Numbers>>(&mut self, visitor: &mut V) {
        jo_d32::visit(self, visitor);
    }
}

/// Jump near if not overflow (OF=0).
#[derive(Drop)]
pub struct jno_d32 {
    pub imm32: Simm32,
}

impl jno_d32 {
    pub fn new(imm32: Simm32) -> Self
        ensures imm32 { result.imm32 ≡ imm32 }
    {
        jno_d32 { imm32 }
    }

    /// It has no registers; the visitor stays as it is.
    pub fn visit<R: Registers, V: RegisterVisitor<R>>(&mut self, visitor: &mut V)
        ensures { OperandsRun R.WriteGpr.eq V.steps visitor.old (operands_jno_d32 {R = R} self.old) (operands_jno_d32 {R = R} self.new) visitor.new }
    {}
}

impl RowAndOperands for jno_d32 {
    type Family = Numbers;

    ghost row_of = { λ _. row.jno_d32 };

    ghost operands_of = { operands_jno_d32 };

    #[tactic(auto, unfolding(cax64_operand::specs::Signature::signature_of))]
    #[inline(always)]
    fn hand_to<T: Task<Numbers, X>, X>(&self, to: &mut X) -> T::Answer {
        T::take(
            of_one(Operand::Imm(Immediate::Distance32(self.imm32.value()))),
            Row::jno_d32,
            to,
        )
    }

    fn visit<V: RegisterVisitor<Numbers>>(&mut self, visitor: &mut V) {
        jno_d32::visit(self, visitor);
    }
}

/// Jump near if below (CF=1).
#[derive(Drop)]
pub struct jb_d32 {
    pub imm32: Simm32,
}

impl jb_d32 {
    pub fn new(imm32: Simm32) -> Self
        ensures imm32 { result.imm32 ≡ imm32 }
    {
        jb_d32 { imm32 }
    }

    /// It has no registers; the visitor stays as it is.
    pub fn visit<R: Registers, V: RegisterVisitor<R>>(&mut self, visitor: &mut V)
        ensures { OperandsRun R.WriteGpr.eq V.steps visitor.old (operands_jb_d32 {R = R} self.old) (operands_jb_d32 {R = R} self.new) visitor.new }
    {}
}

impl RowAndOperands for jb_d32 {
    type Family = Numbers;

    ghost row_of = { λ _. row.jb_d32 };

    ghost operands_of = { operands_jb_d32 };

    #[tactic(auto, unfolding(cax64_operand::specs::Signature::signature_of))]
    #[inline(always)]
    fn hand_to<T: Task<Numbers, X>, X>(&self, to: &mut X) -> T::Answer {
        T::take(
            of_one(Operand::Imm(Immediate::Distance32(self.imm32.value()))),
            Row::jb_d32,
            to,
        )
    }

    fn visit<V: RegisterVisitor<Numbers>>(&mut self, visitor: &mut V) {
        jb_d32::visit(self, visitor);
    }
}

/// Jump near if above or equal (CF=0).
#[derive(Drop)]
pub struct jae_d32 {
    pub imm32: Simm32,
}

impl jae_d32 {
    pub fn new(imm32: Simm32) -> Self
        ensures imm32 { result.imm32 ≡ imm32 }
    {
        jae_d32 { imm32 }
    }

    /// It has no registers; the visitor stays as it is.
    pub fn visit<R: Registers, V: RegisterVisitor<R>>(&mut self, visitor: &mut V)
        ensures { OperandsRun R.WriteGpr.eq V.steps visitor.old (operands_jae_d32 {R = R} self.old) (operands_jae_d32 {R = R} self.new) visitor.new }
    {}
}

impl RowAndOperands for jae_d32 {
    type Family = Numbers;

    ghost row_of = { λ _. row.jae_d32 };

    ghost operands_of = { operands_jae_d32 };

    #[tactic(auto, unfolding(cax64_operand::specs::Signature::signature_of))]
    #[inline(always)]
    fn hand_to<T: Task<Numbers, X>, X>(&self, to: &mut X) -> T::Answer {
        T::take(
            of_one(Operand::Imm(Immediate::Distance32(self.imm32.value()))),
            Row::jae_d32,
            to,
        )
    }

    fn visit<V: RegisterVisitor<Numbers>>(&mut self, visitor: &mut V) {
        jae_d32::visit(self, visitor);
    }
}

/// Jump near if equal (ZF=1).
#[derive(Drop)]
pub struct je_d32 {
    pub imm32: Simm32,
}

impl je_d32 {
    pub fn new(imm32: Simm32) -> Self
        ensures imm32 { result.imm32 ≡ imm32 }
    {
        je_d32 { imm32 }
    }

    /// It has no registers; the visitor stays as it is.
    pub fn visit<R: Registers, V: RegisterVisitor<R>>(&mut self, visitor: &mut V)
        ensures { OperandsRun R.WriteGpr.eq V.steps visitor.old (operands_je_d32 {R = R} self.old) (operands_je_d32 {R = R} self.new) visitor.new }
    {}
}

impl RowAndOperands for je_d32 {
    type Family = Numbers;

    ghost row_of = { λ _. row.je_d32 };

    ghost operands_of = { operands_je_d32 };

    #[tactic(auto, unfolding(cax64_operand::specs::Signature::signature_of))]
    #[inline(always)]
    fn hand_to<T: Task<Numbers, X>, X>(&self, to: &mut X) -> T::Answer {
        T::take(
            of_one(Operand::Imm(Immediate::Distance32(self.imm32.value()))),
            Row::je_d32,
            to,
        )
    }

    fn visit<V: RegisterVisitor<Numbers>>(&mut self, visitor: &mut V) {
        je_d32::visit(self, visitor);
    }
}

/// Jump near if not equal (ZF=0).
#[derive(Drop)]
pub struct jne_d32 {
    pub imm32: Simm32,
}

impl jne_d32 {
    pub fn new(imm32: Simm32) -> Self
        ensures imm32 { result.imm32 ≡ imm32 }
    {
        jne_d32 { imm32 }
    }

    /// It has no registers; the visitor stays as it is.
    pub fn visit<R: Registers, V: RegisterVisitor<R>>(&mut self, visitor: &mut V)
        ensures { OperandsRun R.WriteGpr.eq V.steps visitor.old (operands_jne_d32 {R = R} self.old) (operands_jne_d32 {R = R} self.new) visitor.new }
    {}
}

impl RowAndOperands for jne_d32 {
    type Family = Numbers;

    ghost row_of = { λ _. row.jne_d32 };

    ghost operands_of = { operands_jne_d32 };

    #[tactic(auto, unfolding(cax64_operand::specs::Signature::signature_of))]
    #[inline(always)]
    fn hand_to<T: Task<Numbers, X>, X>(&self, to: &mut X) -> T::Answer {
        T::take(
            of_one(Operand::Imm(Immediate::Distance32(self.imm32.value()))),
            Row::jne_d32,
            to,
        )
    }

    fn visit<V: RegisterVisitor<Numbers>>(&mut self, visitor: &mut V) {
        jne_d32::visit(self, visitor);
    }
}

/// Jump near if below or equal (CF=1 or ZF=1).
#[derive(Drop)]
pub struct jbe_d32 {
    pub imm32: Simm32,
}

impl jbe_d32 {
    pub fn new(imm32: Simm32) -> Self
        ensures imm32 { result.imm32 ≡ imm32 }
    {
        jbe_d32 { imm32 }
    }

    /// It has no registers; the visitor stays as it is.
    pub fn visit<R: Registers, V: RegisterVisitor<R>>(&mut self, visitor: &mut V)
        ensures { OperandsRun R.WriteGpr.eq V.steps visitor.old (operands_jbe_d32 {R = R} self.old) (operands_jbe_d32 {R = R} self.new) visitor.new }
    {}
}

impl RowAndOperands for jbe_d32 {
    type Family = Numbers;

    ghost row_of = { λ _. row.jbe_d32 };

    ghost operands_of = { operands_jbe_d32 };

    #[tactic(auto, unfolding(cax64_operand::specs::Signature::signature_of))]
    #[inline(always)]
    fn hand_to<T: Task<Numbers, X>, X>(&self, to: &mut X) -> T::Answer {
        T::take(
            of_one(Operand::Imm(Immediate::Distance32(self.imm32.value()))),
            Row::jbe_d32,
            to,
        )
    }

    fn visit<V: RegisterVisitor<Numbers>>(&mut self, visitor: &mut V) {
        jbe_d32::visit(self, visitor);
    }
}

/// Jump near if above (CF=0 and ZF=0).
#[derive(Drop)]
pub struct ja_d32 {
    pub imm32: Simm32,
}

impl ja_d32 {
    pub fn new(imm32: Simm32) -> Self
        ensures imm32 { result.imm32 ≡ imm32 }
    {
        ja_d32 { imm32 }
    }

    /// It has no registers; the visitor stays as it is.
    pub fn visit<R: Registers, V: RegisterVisitor<R>>(&mut self, visitor: &mut V)
        ensures { OperandsRun R.WriteGpr.eq V.steps visitor.old (operands_ja_d32 {R = R} self.old) (operands_ja_d32 {R = R} self.new) visitor.new }
    {}
}

impl RowAndOperands for ja_d32 {
    type Family = Numbers;

    ghost row_of = { λ _. row.ja_d32 };

    ghost operands_of = { operands_ja_d32 };

    #[tactic(auto, unfolding(cax64_operand::specs::Signature::signature_of))]
    #[inline(always)]
    fn hand_to<T: Task<Numbers, X>, X>(&self, to: &mut X) -> T::Answer {
        T::take(
            of_one(Operand::Imm(Immediate::Distance32(self.imm32.value()))),
            Row::ja_d32,
            to,
        )
    }

    fn visit<V: RegisterVisitor<Numbers>>(&mut self, visitor: &mut V) {
        ja_d32::visit(self, visitor);
    }
}

/// Jump near if sign (SF=1).
#[derive(Drop)]
pub struct js_d32 {
    pub imm32: Simm32,
}

impl js_d32 {
    pub fn new(imm32: Simm32) -> Self
        ensures imm32 { result.imm32 ≡ imm32 }
    {
        js_d32 { imm32 }
    }

    /// It has no registers; the visitor stays as it is.
    pub fn visit<R: Registers, V: RegisterVisitor<R>>(&mut self, visitor: &mut V)
        ensures { OperandsRun R.WriteGpr.eq V.steps visitor.old (operands_js_d32 {R = R} self.old) (operands_js_d32 {R = R} self.new) visitor.new }
    {}
}

impl RowAndOperands for js_d32 {
    type Family = Numbers;

    ghost row_of = { λ _. row.js_d32 };

    ghost operands_of = { operands_js_d32 };

    #[tactic(auto, unfolding(cax64_operand::specs::Signature::signature_of))]
    #[inline(always)]
    fn hand_to<T: Task<Numbers, X>, X>(&self, to: &mut X) -> T::Answer {
        T::take(
            of_one(Operand::Imm(Immediate::Distance32(self.imm32.value()))),
            Row::js_d32,
            to,
        )
    }

    fn visit<V: RegisterVisitor<Numbers>>(&mut self, visitor: &mut V) {
        js_d32::visit(self, visitor);
    }
}

/// Jump near if not sign (SF=0).
#[derive(Drop)]
pub struct jns_d32 {
    pub imm32: Simm32,
}

impl jns_d32 {
    pub fn new(imm32: Simm32) -> Self
        ensures imm32 { result.imm32 ≡ imm32 }
    {
        jns_d32 { imm32 }
    }

    /// It has no registers; the visitor stays as it is.
    pub fn visit<R: Registers, V: RegisterVisitor<R>>(&mut self, visitor: &mut V)
        ensures { OperandsRun R.WriteGpr.eq V.steps visitor.old (operands_jns_d32 {R = R} self.old) (operands_jns_d32 {R = R} self.new) visitor.new }
    {}
}

impl RowAndOperands for jns_d32 {
    type Family = Numbers;

    ghost row_of = { λ _. row.jns_d32 };

    ghost operands_of = { operands_jns_d32 };

    #[tactic(auto, unfolding(cax64_operand::specs::Signature::signature_of))]
    #[inline(always)]
    fn hand_to<T: Task<Numbers, X>, X>(&self, to: &mut X) -> T::Answer {
        T::take(
            of_one(Operand::Imm(Immediate::Distance32(self.imm32.value()))),
            Row::jns_d32,
            to,
        )
    }

    fn visit<V: RegisterVisitor<Numbers>>(&mut self, visitor: &mut V) {
        jns_d32::visit(self, visitor);
    }
}

/// Jump near if parity (PF=1).
#[derive(Drop)]
pub struct jp_d32 {
    pub imm32: Simm32,
}

impl jp_d32 {
    pub fn new(imm32: Simm32) -> Self
        ensures imm32 { result.imm32 ≡ imm32 }
    {
        jp_d32 { imm32 }
    }

    /// It has no registers; the visitor stays as it is.
    pub fn visit<R: Registers, V: RegisterVisitor<R>>(&mut self, visitor: &mut V)
        ensures { OperandsRun R.WriteGpr.eq V.steps visitor.old (operands_jp_d32 {R = R} self.old) (operands_jp_d32 {R = R} self.new) visitor.new }
    {}
}

impl RowAndOperands for jp_d32 {
    type Family = Numbers;

    ghost row_of = { λ _. row.jp_d32 };

    ghost operands_of = { operands_jp_d32 };

    #[tactic(auto, unfolding(cax64_operand::specs::Signature::signature_of))]
    #[inline(always)]
    fn hand_to<T: Task<Numbers, X>, X>(&self, to: &mut X) -> T::Answer {
        T::take(
            of_one(Operand::Imm(Immediate::Distance32(self.imm32.value()))),
            Row::jp_d32,
            to,
        )
    }

    fn visit<V: RegisterVisitor<Numbers>>(&mut self, visitor: &mut V) {
        jp_d32::visit(self, visitor);
    }
}

/// Jump near if not parity (PF=0).
#[derive(Drop)]
pub struct jnp_d32 {
    pub imm32: Simm32,
}

impl jnp_d32 {
    pub fn new(imm32: Simm32) -> Self
        ensures imm32 { result.imm32 ≡ imm32 }
    {
        jnp_d32 { imm32 }
    }

    /// It has no registers; the visitor stays as it is.
    pub fn visit<R: Registers, V: RegisterVisitor<R>>(&mut self, visitor: &mut V)
        ensures { OperandsRun R.WriteGpr.eq V.steps visitor.old (operands_jnp_d32 {R = R} self.old) (operands_jnp_d32 {R = R} self.new) visitor.new }
    {}
}

impl RowAndOperands for jnp_d32 {
    type Family = Numbers;

    ghost row_of = { λ _. row.jnp_d32 };

    ghost operands_of = { operands_jnp_d32 };

    #[tactic(auto, unfolding(cax64_operand::specs::Signature::signature_of))]
    #[inline(always)]
    fn hand_to<T: Task<Numbers, X>, X>(&self, to: &mut X) -> T::Answer {
        T::take(
            of_one(Operand::Imm(Immediate::Distance32(self.imm32.value()))),
            Row::jnp_d32,
            to,
        )
    }

    fn visit<V: RegisterVisitor<Numbers>>(&mut self, visitor: &mut V) {
        jnp_d32::visit(self, visitor);
    }
}

/// Jump near if less (SF is not OF).
#[derive(Drop)]
pub struct jl_d32 {
    pub imm32: Simm32,
}

impl jl_d32 {
    pub fn new(imm32: Simm32) -> Self
        ensures imm32 { result.imm32 ≡ imm32 }
    {
        jl_d32 { imm32 }
    }

    /// It has no registers; the visitor stays as it is.
    pub fn visit<R: Registers, V: RegisterVisitor<R>>(&mut self, visitor: &mut V)
        ensures { OperandsRun R.WriteGpr.eq V.steps visitor.old (operands_jl_d32 {R = R} self.old) (operands_jl_d32 {R = R} self.new) visitor.new }
    {}
}

impl RowAndOperands for jl_d32 {
    type Family = Numbers;

    ghost row_of = { λ _. row.jl_d32 };

    ghost operands_of = { operands_jl_d32 };

    #[tactic(auto, unfolding(cax64_operand::specs::Signature::signature_of))]
    #[inline(always)]
    fn hand_to<T: Task<Numbers, X>, X>(&self, to: &mut X) -> T::Answer {
        T::take(
            of_one(Operand::Imm(Immediate::Distance32(self.imm32.value()))),
            Row::jl_d32,
            to,
        )
    }

    fn visit<V: RegisterVisitor<Numbers>>(&mut self, visitor: &mut V) {
        jl_d32::visit(self, visitor);
    }
}

/// Jump near if greater or equal (SF=OF).
#[derive(Drop)]
pub struct jge_d32 {
    pub imm32: Simm32,
}

impl jge_d32 {
    pub fn new(imm32: Simm32) -> Self
        ensures imm32 { result.imm32 ≡ imm32 }
    {
        jge_d32 { imm32 }
    }

    /// It has no registers; the visitor stays as it is.
    pub fn visit<R: Registers, V: RegisterVisitor<R>>(&mut self, visitor: &mut V)
        ensures { OperandsRun R.WriteGpr.eq V.steps visitor.old (operands_jge_d32 {R = R} self.old) (operands_jge_d32 {R = R} self.new) visitor.new }
    {}
}

impl RowAndOperands for jge_d32 {
    type Family = Numbers;

    ghost row_of = { λ _. row.jge_d32 };

    ghost operands_of = { operands_jge_d32 };

    #[tactic(auto, unfolding(cax64_operand::specs::Signature::signature_of))]
    #[inline(always)]
    fn hand_to<T: Task<Numbers, X>, X>(&self, to: &mut X) -> T::Answer {
        T::take(
            of_one(Operand::Imm(Immediate::Distance32(self.imm32.value()))),
            Row::jge_d32,
            to,
        )
    }

    fn visit<V: RegisterVisitor<Numbers>>(&mut self, visitor: &mut V) {
        jge_d32::visit(self, visitor);
    }
}

/// Jump near if less or equal (ZF=1 or SF is not OF).
#[derive(Drop)]
pub struct jle_d32 {
    pub imm32: Simm32,
}

impl jle_d32 {
    pub fn new(imm32: Simm32) -> Self
        ensures imm32 { result.imm32 ≡ imm32 }
    {
        jle_d32 { imm32 }
    }

    /// It has no registers; the visitor stays as it is.
    pub fn visit<R: Registers, V: RegisterVisitor<R>>(&mut self, visitor: &mut V)
        ensures { OperandsRun R.WriteGpr.eq V.steps visitor.old (operands_jle_d32 {R = R} self.old) (operands_jle_d32 {R = R} self.new) visitor.new }
    {}
}

impl RowAndOperands for jle_d32 {
    type Family = Numbers;

    ghost row_of = { λ _. row.jle_d32 };

    ghost operands_of = { operands_jle_d32 };

    #[tactic(auto, unfolding(cax64_operand::specs::Signature::signature_of))]
    #[inline(always)]
    fn hand_to<T: Task<Numbers, X>, X>(&self, to: &mut X) -> T::Answer {
        T::take(
            of_one(Operand::Imm(Immediate::Distance32(self.imm32.value()))),
            Row::jle_d32,
            to,
        )
    }

    fn visit<V: RegisterVisitor<Numbers>>(&mut self, visitor: &mut V) {
        jle_d32::visit(self, visitor);
    }
}

/// Jump near if greater (ZF=0 and SF=OF).
#[derive(Drop)]
pub struct jg_d32 {
    pub imm32: Simm32,
}

impl jg_d32 {
    pub fn new(imm32: Simm32) -> Self
        ensures imm32 { result.imm32 ≡ imm32 }
    {
        jg_d32 { imm32 }
    }

    /// It has no registers; the visitor stays as it is.
    pub fn visit<R: Registers, V: RegisterVisitor<R>>(&mut self, visitor: &mut V)
        ensures { OperandsRun R.WriteGpr.eq V.steps visitor.old (operands_jg_d32 {R = R} self.old) (operands_jg_d32 {R = R} self.new) visitor.new }
    {}
}

impl RowAndOperands for jg_d32 {
    type Family = Numbers;

    ghost row_of = { λ _. row.jg_d32 };

    ghost operands_of = { operands_jg_d32 };

    #[tactic(auto, unfolding(cax64_operand::specs::Signature::signature_of))]
    #[inline(always)]
    fn hand_to<T: Task<Numbers, X>, X>(&self, to: &mut X) -> T::Answer {
        T::take(
            of_one(Operand::Imm(Immediate::Distance32(self.imm32.value()))),
            Row::jg_d32,
            to,
        )
    }

    fn visit<V: RegisterVisitor<Numbers>>(&mut self, visitor: &mut V) {
        jg_d32::visit(self, visitor);
    }
}
