//! Laws of the items here. The functions do nothing: their clauses are the laws.

ghost use Rattle.std.specs.Prelude.{◌≡◌, ◌↔◌, ℕ, true};
ghost use Rattle.cax64_register.specs.declared.fixed.Fixed.{Fixed};
ghost use Rattle.cax64_register.specs.declared.gpr.Gpr.{Gpr};
ghost use Rattle.cax64_register.specs.declared.gpr.Size.{Size};
ghost use Rattle.cax64_register.specs.declared.gpr.non_rsp.NonRspGpr.{NonRspGpr};

use crate::gpr::enc::{
    R8, R9, R10, R11, R12, R13, R14, R15, RAX, RBP, RBX, RCX, RDI, RDX, RSI, RSP,
};
use crate::xmm::enc::{
    XMM0, XMM1, XMM2, XMM3, XMM4, XMM5, XMM6, XMM7, XMM8, XMM9, XMM10, XMM11, XMM12, XMM13, XMM14,
    XMM15,
};
use crate::{AsReg, Fixed, Gpr, NonRspGpr, Size};

/// Operands compare equal where their registers do, as the family says, and nowhere else; and then they are the same.
pub fn laws_of_equality<R: AsReg, const E: u8>()
    ensures general { (a b : Gpr R) → (⟦<Gpr<R> as PartialEq>⟧.eq a b ≡ true) ↔ (R.eq a b ≡ true) }
    ensures index { (a b : NonRspGpr R) → (⟦<NonRspGpr<R> as PartialEq>⟧.eq a b ≡ true) ↔ (R.eq a b ≡ true) }
    ensures fixed { (a b : Fixed R E) → (⟦<Fixed<R, E> as PartialEq>⟧.eq a b ≡ true) ↔ (R.eq a.0 b.0 ≡ true) }
    ensures same_general { (a b : Gpr R) → ⟦<Gpr<R> as PartialEq>⟧.eq a b ≡ true → a ≡ b }
    ensures same_index { (a b : NonRspGpr R) → ⟦<NonRspGpr<R> as PartialEq>⟧.eq a b ≡ true → a ≡ b }
    ensures same_fixed { (a b : Fixed R E) → ⟦<Fixed<R, E> as PartialEq>⟧.eq a b ≡ true → a ≡ b }
{}

/// Where the registers are plain numbers, operands compare equal where they have the same number, and nowhere else.
pub fn laws_of_equal_numbers<const E: u8>()
    ensures general { (a b : Gpr ℕ) → (⟦<Gpr<u8> as PartialEq>⟧.eq a b ≡ true) ↔ (a ≡ b) }
    ensures index { (a b : NonRspGpr ℕ) → (⟦<NonRspGpr<u8> as PartialEq>⟧.eq a b ≡ true) ↔ (a ≡ b) }
    ensures fixed { (a b : Fixed ℕ E) → (⟦<Fixed<u8, E> as PartialEq>⟧.eq a b ≡ true) ↔ (a ≡ b) }
{}

/// Sizes compare equal where they are equal, and nowhere else.
pub fn laws_of_equal_sizes()
    ensures { (a b : Size) → (⟦<Size as PartialEq>⟧.eq a b ≡ true) ↔ (a ≡ b) }
{}

/// Each constant of a general register is its number. (Intel SDM, volume 2, table 3-1.)
pub fn laws_of_general_numbers()
    ensures rax { RAX ≡ 0 }
    ensures rcx { RCX ≡ 1 }
    ensures rdx { RDX ≡ 2 }
    ensures rbx { RBX ≡ 3 }
    ensures rsp { RSP ≡ 4 }
    ensures rbp { RBP ≡ 5 }
    ensures rsi { RSI ≡ 6 }
    ensures rdi { RDI ≡ 7 }
    ensures r8 { R8 ≡ 8 }
    ensures r9 { R9 ≡ 9 }
    ensures r10 { R10 ≡ 10 }
    ensures r11 { R11 ≡ 11 }
    ensures r12 { R12 ≡ 12 }
    ensures r13 { R13 ≡ 13 }
    ensures r14 { R14 ≡ 14 }
    ensures r15 { R15 ≡ 15 }
{}

/// Each constant of an XMM register is its number.
pub fn laws_of_xmm_numbers()
    ensures xmm0 { XMM0 ≡ 0 }
    ensures xmm1 { XMM1 ≡ 1 }
    ensures xmm2 { XMM2 ≡ 2 }
    ensures xmm3 { XMM3 ≡ 3 }
    ensures xmm4 { XMM4 ≡ 4 }
    ensures xmm5 { XMM5 ≡ 5 }
    ensures xmm6 { XMM6 ≡ 6 }
    ensures xmm7 { XMM7 ≡ 7 }
    ensures xmm8 { XMM8 ≡ 8 }
    ensures xmm9 { XMM9 ≡ 9 }
    ensures xmm10 { XMM10 ≡ 10 }
    ensures xmm11 { XMM11 ≡ 11 }
    ensures xmm12 { XMM12 ≡ 12 }
    ensures xmm13 { XMM13 ≡ 13 }
    ensures xmm14 { XMM14 ≡ 14 }
    ensures xmm15 { XMM15 ≡ 15 }
{}
