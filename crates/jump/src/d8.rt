// Written by table/write.py from table/instructions.txt.
//! Jumps by a distance of one byte. (Intel SDM, volume 2, `JMP` and `Jcc`.)

ghost use Rattle.std.specs.Prelude.{◌≡◌, IfOk, string_bytes};
ghost use Rattle.cax64_address.specs.declared.text.Dialect.TheVariants.{Xed};
ghost use Rattle.cax64_machine_code.specs.declared.row.Row.TheVariants as row;
ghost use Rattle.cax64_operand.specs.Visit.{OperandsRun};
ghost use Rattle.cax64_operand.specs.declared.instruction.Numbers.{Numbers};
ghost use Rattle.cax64_text.specs.Text.{text};
ghost use Rattle.jump.specs.Operands.{operands_jmp_d8, operands_jo_d8, operands_jno_d8, operands_jb_d8, operands_jae_d8, operands_je_d8, operands_jne_d8, operands_jbe_d8, operands_ja_d8, operands_js_d8, operands_jns_d8, operands_jp_d8, operands_jnp_d8, operands_jl_d8, operands_jge_d8, operands_jle_d8, operands_jg_d8};

use cax64_immediate::Simm8;
use cax64_machine_code::row::Row;
use cax64_operand::{Immediate, Numbers, Operand, RegisterVisitor, RowAndOperands, Task, of_one};
use cax64_register::Registers;
use cax64_text::{RegisterNames, xed_string};
use std::alloc::{AllocError, Allocator};

/// Jump short, by an 8-bit displacement from the next instruction.
#[derive(Drop)]
pub struct jmp_d8 {
    pub imm8: Simm8,
}

impl jmp_d8 {
    pub fn new(imm8: Simm8) -> Self
        ensures imm8 { result.imm8 ≡ imm8 }
    {
        jmp_d8 { imm8 }
    }

    /// It has no registers; the visitor stays as it is.
    pub fn visit<R: Registers, V: RegisterVisitor<R>>(&mut self, visitor: &mut V)
        ensures { OperandsRun R.WriteGpr.eq V.steps visitor.old (operands_jmp_d8 {R = R} self.old) (operands_jmp_d8 {R = R} self.new) visitor.new }
    {}

    /// The text as XED prints it, of registers that are all `nameable`. Fails where there is no memory.
    pub fn to_string_xed<A: Allocator + Copy>(&self, alloc: A) -> Result<String<A>, AllocError>
        ensures { IfOk result (λ t. string_bytes t ≡ text {R = Numbers} ⟦<Numbers as RegisterNames>⟧.names Xed row.jmp_d8 (operands_jmp_d8 self.now)) }
    {
        xed_string(self, alloc)
    }
}

impl RowAndOperands for jmp_d8 {
    type Family = Numbers;

    ghost row_of = { λ _. row.jmp_d8 };

    ghost operands_of = { operands_jmp_d8 };

    #[tactic(auto, unfolding(cax64_operand::specs::Signature::signature_of))]
    #[inline(always)]
    fn hand_to<T: Task<Numbers, X>, X>(&self, to: &mut X) -> T::Answer {
        T::take(
            of_one(Operand::Imm(Immediate::Distance8(self.imm8.value()))),
            Row::jmp_d8,
            to,
        )
    }

    fn visit<V: RegisterVisitor<Numbers>>(&mut self, visitor: &mut V) {
        jmp_d8::visit(self, visitor);
    }
}

/// Jump short if overflow (OF=1).
#[derive(Drop)]
pub struct jo_d8 {
    pub imm8: Simm8,
}

impl jo_d8 {
    pub fn new(imm8: Simm8) -> Self
        ensures imm8 { result.imm8 ≡ imm8 }
    {
        jo_d8 { imm8 }
    }

    /// It has no registers; the visitor stays as it is.
    pub fn visit<R: Registers, V: RegisterVisitor<R>>(&mut self, visitor: &mut V)
        ensures { OperandsRun R.WriteGpr.eq V.steps visitor.old (operands_jo_d8 {R = R} self.old) (operands_jo_d8 {R = R} self.new) visitor.new }
    {}
}

impl RowAndOperands for jo_d8 {
    type Family = Numbers;

    ghost row_of = { λ _. row.jo_d8 };

    ghost operands_of = { operands_jo_d8 };

    #[tactic(auto, unfolding(cax64_operand::specs::Signature::signature_of))]
    #[inline(always)]
    fn hand_to<T: Task<Numbers, X>, X>(&self, to: &mut X) -> T::Answer {
        T::take(
            of_one(Operand::Imm(Immediate::Distance8(self.imm8.value()))),
            Row::jo_d8,
            to,
        )
    }

    fn visit<V: RegisterVisitor<Numbers>>(&mut self, visitor: &mut V) {
        jo_d8::visit(self, visitor);
    }
}

/// Jump short if not overflow (OF=0).
#[derive(Drop)]
pub struct jno_d8 {
    pub imm8: Simm8,
}

impl jno_d8 {
    pub fn new(imm8: Simm8) -> Self
        ensures imm8 { result.imm8 ≡ imm8 }
    {
        jno_d8 { imm8 }
    }

    /// It has no registers; the visitor stays as it is.
    pub fn visit<R: Registers, V: RegisterVisitor<R>>(&mut self, visitor: &mut V)
        ensures { OperandsRun R.WriteGpr.eq V.steps visitor.old (operands_jno_d8 {R = R} self.old) (operands_jno_d8 {R = R} self.new) visitor.new }
    {}
}

impl RowAndOperands for jno_d8 {
    type Family = Numbers;

    ghost row_of = { λ _. row.jno_d8 };

    ghost operands_of = { operands_jno_d8 };

    #[tactic(auto, unfolding(cax64_operand::specs::Signature::signature_of))]
    #[inline(always)]
    fn hand_to<T: Task<Numbers, X>, X>(&self, to: &mut X) -> T::Answer {
        T::take(
            of_one(Operand::Imm(Immediate::Distance8(self.imm8.value()))),
            Row::jno_d8,
            to,
        )
    }

    fn visit<V: RegisterVisitor<Numbers>>(&mut self, visitor: &mut V) {
        jno_d8::visit(self, visitor);
    }
}

/// Jump short if below (CF=1).
#[derive(Drop)]
pub struct jb_d8 {
    pub imm8: Simm8,
}

impl jb_d8 {
    pub fn new(imm8: Simm8) -> Self
        ensures imm8 { result.imm8 ≡ imm8 }
    {
        jb_d8 { imm8 }
    }

    /// It has no registers; the visitor stays as it is.
    pub fn visit<R: Registers, V: RegisterVisitor<R>>(&mut self, visitor: &mut V)
        ensures { OperandsRun R.WriteGpr.eq V.steps visitor.old (operands_jb_d8 {R = R} self.old) (operands_jb_d8 {R = R} self.new) visitor.new }
    {}
}

impl RowAndOperands for jb_d8 {
    type Family = Numbers;

    ghost row_of = { λ _. row.jb_d8 };

    ghost operands_of = { operands_jb_d8 };

    #[tactic(auto, unfolding(cax64_operand::specs::Signature::signature_of))]
    #[inline(always)]
    fn hand_to<T: Task<Numbers, X>, X>(&self, to: &mut X) -> T::Answer {
        T::take(
            of_one(Operand::Imm(Immediate::Distance8(self.imm8.value()))),
            Row::jb_d8,
            to,
        )
    }

    fn visit<V: RegisterVisitor<Numbers>>(&mut self, visitor: &mut V) {
        jb_d8::visit(self, visitor);
    }
}

/// Jump short if above or equal (CF=0).
#[derive(Drop)]
pub struct jae_d8 {
    pub imm8: Simm8,
}

impl jae_d8 {
    pub fn new(imm8: Simm8) -> Self
        ensures imm8 { result.imm8 ≡ imm8 }
    {
        jae_d8 { imm8 }
    }

    /// It has no registers; the visitor stays as it is.
    pub fn visit<R: Registers, V: RegisterVisitor<R>>(&mut self, visitor: &mut V)
        ensures { OperandsRun R.WriteGpr.eq V.steps visitor.old (operands_jae_d8 {R = R} self.old) (operands_jae_d8 {R = R} self.new) visitor.new }
    {}
}

impl RowAndOperands for jae_d8 {
    type Family = Numbers;

    ghost row_of = { λ _. row.jae_d8 };

    ghost operands_of = { operands_jae_d8 };

    #[tactic(auto, unfolding(cax64_operand::specs::Signature::signature_of))]
    #[inline(always)]
    fn hand_to<T: Task<Numbers, X>, X>(&self, to: &mut X) -> T::Answer {
        T::take(
            of_one(Operand::Imm(Immediate::Distance8(self.imm8.value()))),
            Row::jae_d8,
            to,
        )
    }

    fn visit<V: RegisterVisitor<Numbers>>(&mut self, visitor: &mut V) {
        jae_d8::visit(self, visitor);
    }
}

/// Jump short if equal (ZF=1).
#[derive(Drop)]
pub struct je_d8 {
    pub imm8: Simm8,
}

impl je_d8 {
    pub fn new(imm8: Simm8) -> Self
        ensures imm8 { result.imm8 ≡ imm8 }
    {
        je_d8 { imm8 }
    }

    /// It has no registers; the visitor stays as it is.
    pub fn visit<R: Registers, V: RegisterVisitor<R>>(&mut self, visitor: &mut V)
        ensures { OperandsRun R.WriteGpr.eq V.steps visitor.old (operands_je_d8 {R = R} self.old) (operands_je_d8 {R = R} self.new) visitor.new }
    {}
}

impl RowAndOperands for je_d8 {
    type Family = Numbers;

    ghost row_of = { λ _. row.je_d8 };

    ghost operands_of = { operands_je_d8 };

    #[tactic(auto, unfolding(cax64_operand::specs::Signature::signature_of))]
    #[inline(always)]
    fn hand_to<T: Task<Numbers, X>, X>(&self, to: &mut X) -> T::Answer {
        T::take(
            of_one(Operand::Imm(Immediate::Distance8(self.imm8.value()))),
            Row::je_d8,
            to,
        )
    }

    fn visit<V: RegisterVisitor<Numbers>>(&mut self, visitor: &mut V) {
        je_d8::visit(self, visitor);
    }
}

/// Jump short if not equal (ZF=0).
#[derive(Drop)]
pub struct jne_d8 {
    pub imm8: Simm8,
}

impl jne_d8 {
    pub fn new(imm8: Simm8) -> Self
        ensures imm8 { result.imm8 ≡ imm8 }
    {
        jne_d8 { imm8 }
    }

    /// It has no registers; the visitor stays as it is.
    pub fn visit<R: Registers, V: RegisterVisitor<R>>(&mut self, visitor: &mut V)
        ensures { OperandsRun R.WriteGpr.eq V.steps visitor.old (operands_jne_d8 {R = R} self.old) (operands_jne_d8 {R = R} self.new) visitor.new }
    {}
}

impl RowAndOperands for jne_d8 {
    type Family = Numbers;

    ghost row_of = { λ _. row.jne_d8 };

    ghost operands_of = { operands_jne_d8 };

    #[tactic(auto, unfolding(cax64_operand::specs::Signature::signature_of))]
    #[inline(always)]
    fn hand_to<T: Task<Numbers, X>, X>(&self, to: &mut X) -> T::Answer {
        T::take(
            of_one(Operand::Imm(Immediate::Distance8(self.imm8.value()))),
            Row::jne_d8,
            to,
        )
    }

    fn visit<V: RegisterVisitor<Numbers>>(&mut self, visitor: &mut V) {
        jne_d8::visit(self, visitor);
    }
}

/// Jump short if below or equal (CF=1 or ZF=1).
#[derive(Drop)]
pub struct jbe_d8 {
    pub imm8: Simm8,
}

impl jbe_d8 {
    pub fn new(imm8: Simm8) -> Self
        ensures imm8 { result.imm8 ≡ imm8 }
    {
        jbe_d8 { imm8 }
    }

    /// It has no registers; the visitor stays as it is.
    pub fn visit<R: Registers, V: RegisterVisitor<R>>(&mut self, visitor: &mut V)
        ensures { OperandsRun R.WriteGpr.eq V.steps visitor.old (operands_jbe_d8 {R = R} self.old) (operands_jbe_d8 {R = R} self.new) visitor.new }
    {}
}

impl RowAndOperands for jbe_d8 {
    type Family = Numbers;

    ghost row_of = { λ _. row.jbe_d8 };

    ghost operands_of = { operands_jbe_d8 };

    #[tactic(auto, unfolding(cax64_operand::specs::Signature::signature_of))]
    #[inline(always)]
    fn hand_to<T: Task<Numbers, X>, X>(&self, to: &mut X) -> T::Answer {
        T::take(
            of_one(Operand::Imm(Immediate::Distance8(self.imm8.value()))),
            Row::jbe_d8,
            to,
        )
    }

    fn visit<V: RegisterVisitor<Numbers>>(&mut self, visitor: &mut V) {
        jbe_d8::visit(self, visitor);
    }
}

/// Jump short if above (CF=0 and ZF=0).
#[derive(Drop)]
pub struct ja_d8 {
    pub imm8: Simm8,
}

impl ja_d8 {
    pub fn new(imm8: Simm8) -> Self
        ensures imm8 { result.imm8 ≡ imm8 }
    {
        ja_d8 { imm8 }
    }

    /// It has no registers; the visitor stays as it is.
    pub fn visit<R: Registers, V: RegisterVisitor<R>>(&mut self, visitor: &mut V)
        ensures { OperandsRun R.WriteGpr.eq V.steps visitor.old (operands_ja_d8 {R = R} self.old) (operands_ja_d8 {R = R} self.new) visitor.new }
    {}
}

impl RowAndOperands for ja_d8 {
    type Family = Numbers;

    ghost row_of = { λ _. row.ja_d8 };

    ghost operands_of = { operands_ja_d8 };

    #[tactic(auto, unfolding(cax64_operand::specs::Signature::signature_of))]
    #[inline(always)]
    fn hand_to<T: Task<Numbers, X>, X>(&self, to: &mut X) -> T::Answer {
        T::take(
            of_one(Operand::Imm(Immediate::Distance8(self.imm8.value()))),
            Row::ja_d8,
            to,
        )
    }

    fn visit<V: RegisterVisitor<Numbers>>(&mut self, visitor: &mut V) {
        ja_d8::visit(self, visitor);
    }
}

/// Jump short if sign (SF=1).
#[derive(Drop)]
pub struct js_d8 {
    pub imm8: Simm8,
}

impl js_d8 {
    pub fn new(imm8: Simm8) -> Self
        ensures imm8 { result.imm8 ≡ imm8 }
    {
        js_d8 { imm8 }
    }

    /// It has no registers; the visitor stays as it is.
    pub fn visit<R: Registers, V: RegisterVisitor<R>>(&mut self, visitor: &mut V)
        ensures { OperandsRun R.WriteGpr.eq V.steps visitor.old (operands_js_d8 {R = R} self.old) (operands_js_d8 {R = R} self.new) visitor.new }
    {}
}

impl RowAndOperands for js_d8 {
    type Family = Numbers;

    ghost row_of = { λ _. row.js_d8 };

    ghost operands_of = { operands_js_d8 };

    #[tactic(auto, unfolding(cax64_operand::specs::Signature::signature_of))]
    #[inline(always)]
    fn hand_to<T: Task<Numbers, X>, X>(&self, to: &mut X) -> T::Answer {
        T::take(
            of_one(Operand::Imm(Immediate::Distance8(self.imm8.value()))),
            Row::js_d8,
            to,
        )
    }

    fn visit<V: RegisterVisitor<Numbers>>(&mut self, visitor: &mut V) {
        js_d8::visit(self, visitor);
    }
}

/// Jump short if not sign (SF=0).
#[derive(Drop)]
pub struct jns_d8 {
    pub imm8: Simm8,
}

impl jns_d8 {
    pub fn new(imm8: Simm8) -> Self
        ensures imm8 { result.imm8 ≡ imm8 }
    {
        jns_d8 { imm8 }
    }

    /// It has no registers; the visitor stays as it is.
    pub fn visit<R: Registers, V: RegisterVisitor<R>>(&mut self, visitor: &mut V)
        ensures { OperandsRun R.WriteGpr.eq V.steps visitor.old (operands_jns_d8 {R = R} self.old) (operands_jns_d8 {R = R} self.new) visitor.new }
    {}
}

impl RowAndOperands for jns_d8 {
    type Family = Numbers;

    ghost row_of = { λ _. row.jns_d8 };

    ghost operands_of = { operands_jns_d8 };

    #[tactic(auto, unfolding(cax64_operand::specs::Signature::signature_of))]
    #[inline(always)]
    fn hand_to<T: Task<Numbers, X>, X>(&self, to: &mut X) -> T::Answer {
        T::take(
            of_one(Operand::Imm(Immediate::Distance8(self.imm8.value()))),
            Row::jns_d8,
            to,
        )
    }

    fn visit<V: RegisterVisitor<Numbers>>(&mut self, visitor: &mut V) {
        jns_d8::visit(self, visitor);
    }
}

/// Jump short if parity (PF=1).
#[derive(Drop)]
pub struct jp_d8 {
    pub imm8: Simm8,
}

impl jp_d8 {
    pub fn new(imm8: Simm8) -> Self
        ensures imm8 { result.imm8 ≡ imm8 }
    {
        jp_d8 { imm8 }
    }

    /// It has no registers; the visitor stays as it is.
    pub fn visit<R: Registers, V: RegisterVisitor<R>>(&mut self, visitor: &mut V)
        ensures { OperandsRun R.WriteGpr.eq V.steps visitor.old (operands_jp_d8 {R = R} self.old) (operands_jp_d8 {R = R} self.new) visitor.new }
    {}
}

impl RowAndOperands for jp_d8 {
    type Family = Numbers;

    ghost row_of = { λ _. row.jp_d8 };

    ghost operands_of = { operands_jp_d8 };

    #[tactic(auto, unfolding(cax64_operand::specs::Signature::signature_of))]
    #[inline(always)]
    fn hand_to<T: Task<Numbers, X>, X>(&self, to: &mut X) -> T::Answer {
        T::take(
            of_one(Operand::Imm(Immediate::Distance8(self.imm8.value()))),
            Row::jp_d8,
            to,
        )
    }

    fn visit<V: RegisterVisitor<Numbers>>(&mut self, visitor: &mut V) {
        jp_d8::visit(self, visitor);
    }
}

/// Jump short if not parity (PF=0).
#[derive(Drop)]
pub struct jnp_d8 {
    pub imm8: Simm8,
}

impl jnp_d8 {
    pub fn new(imm8: Simm8) -> Self
        ensures imm8 { result.imm8 ≡ imm8 }
    {
        jnp_d8 { imm8 }
    }

    /// It has no registers; the visitor stays as it is.
    pub fn visit<R: Registers, V: RegisterVisitor<R>>(&mut self, visitor: &mut V)
        ensures { OperandsRun R.WriteGpr.eq V.steps visitor.old (operands_jnp_d8 {R = R} self.old) (operands_jnp_d8 {R = R} self.new) visitor.new }
    {}
}

impl RowAndOperands for jnp_d8 {
    type Family = Numbers;

    ghost row_of = { λ _. row.jnp_d8 };

    ghost operands_of = { operands_jnp_d8 };

    #[tactic(auto, unfolding(cax64_operand::specs::Signature::signature_of))]
    #[inline(always)]
    fn hand_to<T: Task<Numbers, X>, X>(&self, to: &mut X) -> T::Answer {
        T::take(
            of_one(Operand::Imm(Immediate::Distance8(self.imm8.value()))),
            Row::jnp_d8,
            to,
        )
    }

    fn visit<V: RegisterVisitor<Numbers>>(&mut self, visitor: &mut V) {
        jnp_d8::visit(self, visitor);
    }
}

/// Jump short if less (SF is not OF).
#[derive(Drop)]
pub struct jl_d8 {
    pub imm8: Simm8,
}

impl jl_d8 {
    pub fn new(imm8: Simm8) -> Self
        ensures imm8 { result.imm8 ≡ imm8 }
    {
        jl_d8 { imm8 }
    }

    /// It has no registers; the visitor stays as it is.
    pub fn visit<R: Registers, V: RegisterVisitor<R>>(&mut self, visitor: &mut V)
        ensures { OperandsRun R.WriteGpr.eq V.steps visitor.old (operands_jl_d8 {R = R} self.old) (operands_jl_d8 {R = R} self.new) visitor.new }
    {}
}

impl RowAndOperands for jl_d8 {
    type Family = Numbers;

    ghost row_of = { λ _. row.jl_d8 };

    ghost operands_of = { operands_jl_d8 };

    #[tactic(auto, unfolding(cax64_operand::specs::Signature::signature_of))]
    #[inline(always)]
    fn hand_to<T: Task<Numbers, X>, X>(&self, to: &mut X) -> T::Answer {
        T::take(
            of_one(Operand::Imm(Immediate::Distance8(self.imm8.value()))),
            Row::jl_d8,
            to,
        )
    }

    fn visit<V: RegisterVisitor<Numbers>>(&mut self, visitor: &mut V) {
        jl_d8::visit(self, visitor);
    }
}

/// Jump short if greater or equal (SF=OF).
#[derive(Drop)]
pub struct jge_d8 {
    pub imm8: Simm8,
}

impl jge_d8 {
    pub fn new(imm8: Simm8) -> Self
        ensures imm8 { result.imm8 ≡ imm8 }
    {
        jge_d8 { imm8 }
    }

    /// It has no registers; the visitor stays as it is.
    pub fn visit<R: Registers, V: RegisterVisitor<R>>(&mut self, visitor: &mut V)
        ensures { OperandsRun R.WriteGpr.eq V.steps visitor.old (operands_jge_d8 {R = R} self.old) (operands_jge_d8 {R = R} self.new) visitor.new }
    {}
}

impl RowAndOperands for jge_d8 {
    type Family = Numbers;

    ghost row_of = { λ _. row.jge_d8 };

    ghost operands_of = { operands_jge_d8 };

    #[tactic(auto, unfolding(cax64_operand::specs::Signature::signature_of))]
    #[inline(always)]
    fn hand_to<T: Task<Numbers, X>, X>(&self, to: &mut X) -> T::Answer {
        T::take(
            of_one(Operand::Imm(Immediate::Distance8(self.imm8.value()))),
            Row::jge_d8,
            to,
        )
    }

    fn visit<V: RegisterVisitor<Numbers>>(&mut self, visitor: &mut V) {
        jge_d8::visit(self, visitor);
    }
}

/// Jump short if less or equal (ZF=1 or SF is not OF).
#[derive(Drop)]
pub struct jle_d8 {
    pub imm8: Simm8,
}

impl jle_d8 {
    pub fn new(imm8: Simm8) -> Self
        ensures imm8 { result.imm8 ≡ imm8 }
    {
        jle_d8 { imm8 }
    }

    /// It has no registers; the visitor stays as it is.
    pub fn visit<R: Registers, V: RegisterVisitor<R>>(&mut self, visitor: &mut V)
        ensures { OperandsRun R.WriteGpr.eq V.steps visitor.old (operands_jle_d8 {R = R} self.old) (operands_jle_d8 {R = R} self.new) visitor.new }
    {}
}

impl RowAndOperands for jle_d8 {
    type Family = Numbers;

    ghost row_of = { λ _. row.jle_d8 };

    ghost operands_of = { operands_jle_d8 };

    #[tactic(auto, unfolding(cax64_operand::specs::Signature::signature_of))]
    #[inline(always)]
    fn hand_to<T: Task<Numbers, X>, X>(&self, to: &mut X) -> T::Answer {
        T::take(
            of_one(Operand::Imm(Immediate::Distance8(self.imm8.value()))),
            Row::jle_d8,
            to,
        )
    }

    fn visit<V: RegisterVisitor<Numbers>>(&mut self, visitor: &mut V) {
        jle_d8::visit(self, visitor);
    }
}

/// Jump short if greater (ZF=0 and SF=OF).
#[derive(Drop)]
pub struct jg_d8 {
    pub imm8: Simm8,
}

impl jg_d8 {
    pub fn new(imm8: Simm8) -> Self
        ensures imm8 { result.imm8 ≡ imm8 }
    {
        jg_d8 { imm8 }
    }

    /// It has no registers; the visitor stays as it is.
    pub fn visit<R: Registers, V: RegisterVisitor<R>>(&mut self, visitor: &mut V)
        ensures { OperandsRun R.WriteGpr.eq V.steps visitor.old (operands_jg_d8 {R = R} self.old) (operands_jg_d8 {R = R} self.new) visitor.new }
    {}
}

impl RowAndOperands for jg_d8 {
    type Family = Numbers;

    ghost row_of = { λ _. row.jg_d8 };

    ghost operands_of = { operands_jg_d8 };

    #[tactic(auto, unfolding(cax64_operand::specs::Signature::signature_of))]
    #[inline(always)]
    fn hand_to<T: Task<Numbers, X>, X>(&self, to: &mut X) -> T::Answer {
        T::take(
            of_one(Operand::Imm(Immediate::Distance8(self.imm8.value()))),
            Row::jg_d8,
            to,
        )
    }

    fn visit<V: RegisterVisitor<Numbers>>(&mut self, visitor: &mut V) {
        jg_d8::visit(self, visitor);
    }
}
