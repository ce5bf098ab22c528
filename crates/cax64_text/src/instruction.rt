//! What every instruction can say of itself, over its row and its operands.

ghost use Rattle.std.specs.Prelude.{◌≡◌, Some, None, IsTrue, IfOk, MatchOption, string_bytes};
ghost use Rattle.cax64_address.specs.declared.text.Dialect.TheVariants.{Att, Xed};
ghost use Rattle.cax64_feature.specs.Row.{features_of};
ghost use Rattle.cax64_feature.specs.Term.{term_of, truth};
ghost use Rattle.cax64_operand.specs.OperandList.{nop_of};
ghost use Rattle.cax64_text.specs.Names.{Names};
ghost use Rattle.cax64_text.specs.Text.{has_xed, mnemonic, nameable, text, xed_text};

use crate::folds::ByRegister;
use crate::names::RegisterNames;
use crate::slots::Slots;
use crate::task::{ForAtt, ForNameable, ForXed, ForXedAlone};
use cax64_feature::rows::{features, is_available};
use cax64_feature::{AvailableFeatures, Features};
use cax64_operand::{HasOperands, RowAndOperands, row_of};
use std::alloc::{AllocError, Allocator};

/// What an instruction says of itself: all of it follows from its row and its operands.
pub trait InstructionText: HasOperands {
    // How its registers print.
    ghost names: { Names Self.Family.ReadGpr Self.Family.ReadWriteGpr Self.Family.WriteGpr Self.Family.ReadXmm Self.Family.ReadWriteXmm Self.Family.WriteXmm };

    /// The name as assemblers write it, with `lock ` before it.
    fn mnemonic(&self) -> &'static str
        ensures { result.now ≡ mnemonic (Self.row_of self.now) (Self.operands_of self.now) };

    /// Whether the registers that are printed have texts: the condition of `to_string`.
    fn nameable(&self) -> bool
        ensures { result ≡ nameable names (Self.operands_of self.now) };

    /// The text.
    ///
    /// Fails where there is no memory.
    ///
    /// The registers that are printed need texts, as [`nameable`](Self::nameable) tells. Where one has none, a build
    /// that wasn't proved may answer another text, or abort.
    fn to_string<A: Allocator + Copy>(&self, alloc: A) -> Result<String<A>, AllocError>
        requires { IsTrue (nameable names (Self.operands_of self.now)) }
        ensures { IfOk result (λ t. string_bytes t ≡ text names Att (Self.row_of self.now) (Self.operands_of self.now)) };

    /// The text as XED prints it; `None` for a row that has none.
    ///
    /// Fails where there is no memory.
    ///
    /// The registers that are printed need texts, as [`nameable`](Self::nameable) tells. Where one has none, a build
    /// that wasn't proved may answer another text, or abort.
    fn to_string_xed<A: Allocator + Copy>(&self, alloc: A) -> Result<Option<String<A>>, AllocError>
        requires { IsTrue (nameable names (Self.operands_of self.now)) }
        ensures { IfOk result (λ t. MatchOption t (xed_text names (Self.row_of self.now) (Self.operands_of self.now) ≡ None) (λ s. xed_text names (Self.row_of self.now) (Self.operands_of self.now) ≡ Some (string_bytes s))) };

    /// What the instruction asks of a processor.
    ///
    /// Fails where there is no memory.
    fn features<A: Allocator + Copy>(&self, alloc: A) -> Result<Features<A>, AllocError>
        ensures { IfOk result (λ t. term_of t ≡ features_of (Self.row_of self.now)) };

    /// Whether a processor has what the instruction asks for. It makes no term.
    fn is_available<F: AvailableFeatures>(&self, available: &F) -> bool
        ensures { result ≡ truth (F.has available.now) (features_of (Self.row_of self.now)) };
}

impl<I: RowAndOperands> InstructionText for I {
    ghost names = { ⟦<I::Family as RegisterNames>⟧.names };

    fn mnemonic(&self) -> &'static str {
        self.hand_to::<ByRegister, ()>(&mut ())
    }

    #[tactic(auto, using(crate::proofs::SlotTexts::slot_nameables))]
    fn nameable(&self) -> bool {
        self.hand_to::<Slots<I::Family>, ForNameable>(&mut ForNameable)
    }

    #[tactic(auto, using(crate::proofs::SlotTexts::slot_texts))]
    fn to_string<A: Allocator + Copy>(&self, alloc: A) -> Result<String<A>, AllocError> {
        self.hand_to::<Slots<I::Family>, ForAtt<A>>(&mut ForAtt { alloc })
    }

    #[tactic(auto, using(crate::proofs::SlotTexts::slot_texts))]
    fn to_string_xed<A: Allocator + Copy>(
        &self,
        alloc: A,
    ) -> Result<Option<String<A>>, AllocError> {
        self.hand_to::<Slots<I::Family>, ForXed<A>>(&mut ForXed { alloc })
    }

    fn features<A: Allocator + Copy>(&self, alloc: A) -> Result<Features<A>, AllocError> {
        features(row_of(self), alloc)
    }

    fn is_available<F: AvailableFeatures>(&self, available: &F) -> bool {
        is_available(row_of(self), available)
    }
}

/// The text as XED prints it, of an instruction that has one.
///
/// Fails where there is no memory.
///
/// The registers that are printed need texts, as [`nameable`](InstructionText::nameable) tells. Where one has none, a
/// build that wasn't proved may answer another text, or abort.
#[tactic(auto, using(crate::proofs::SlotTexts::slot_texts))]
pub fn xed_string<I: RowAndOperands, A: Allocator + Copy>(
    inst: &I,
    alloc: A,
) -> Result<String<A>, AllocError>
    requires nameable { IsTrue (nameable ⟦<I::Family as RegisterNames>⟧.names (I.operands_of inst.now)) }
    requires has { IsTrue (has_xed (I.row_of inst.now) (nop_of (I.operands_of inst.now))) }
    ensures { IfOk result (λ t. string_bytes t ≡ text ⟦<I::Family as RegisterNames>⟧.names Xed (I.row_of inst.now) (I.operands_of inst.now)) }
{
    inst.hand_to::<Slots<I::Family>, ForXedAlone<A>>(&mut ForXedAlone { alloc })
}
