//! Laws of texts. The functions do nothing: their clauses are the laws.

ghost use Rattle.std.specs.Prelude.{◌≡◌, ◌↔◌, true};
ghost use Rattle.cax64_address.specs.Text.{amode_text};
ghost use Rattle.cax64_address.specs.declared.amode.Amode.{Amode};
ghost use Rattle.cax64_address.specs.declared.text.Dialect.{Dialect};
ghost use Rattle.cax64_feature.specs.declared.feature.Feature.{Feature};
ghost use Rattle.cax64_text.specs.PrintedAlike.{eight_behind, hardware_text, IsBased, SamePrinted};

use cax64_address::amode::Amode;
use cax64_address::text::Dialect;
use cax64_feature::Feature;
use cax64_register::AsReg;

/// With the hardware's names, two operands with a base print alike in a dialect exactly where the numbers of base and
/// index, the factor, the late offset's key and the written displacement agree.
pub fn laws_of_texts<R: AsReg>()
    ensures { (d : Dialect) (a b : Amode R) → IsBased R.enc a → IsBased R.enc b → (amode_text (hardware_text R.enc) d a ≡ amode_text (hardware_text R.enc) d b) ↔ SamePrinted R.enc a b }
{}

/// An example of it: `8(%rax)` and `8(%rcx)` meet what [`laws_of_texts`] asks for, so they print apart.
pub fn example_of_texts()
    ensures { (d : Dialect) → amode_text (hardware_text (λ n. n)) d (eight_behind 0) ≡ amode_text (hardware_text (λ n. n)) d (eight_behind 1) → ⊥ }
{
    laws_of_texts::<u8>();
}

/// Dialects and features compare equal where they are the same, and nowhere else.
pub fn laws_of_equality()
    ensures dialects { (a b : Dialect) → (⟦<Dialect as PartialEq>⟧.eq a b ≡ true) ↔ (a ≡ b) }
    ensures features { (a b : Feature) → (⟦<Feature as PartialEq>⟧.eq a b ≡ true) ↔ (a ≡ b) }
{}
