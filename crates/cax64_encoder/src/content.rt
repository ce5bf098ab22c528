//! What the encoder keeps of the operands.

ghost use Rattle.std.specs.Prelude.{◌≡◌};
ghost use Rattle.cax64_encoder.specs.Content.{no_content, nop_content, with_content};

use crate::numbered::NumberedForm;
use cax64_operand::{FromOperands, Nop, Operand, RegisterFamily};
use cax64_register::Registers;

/// What the bytes of an instruction are made of, beside its row.
#[derive(Clone, Copy)]
pub struct Content {
    /// Which of the no-operations it is, if it is one.
    pub nop: Option<Nop>,
    pub form: NumberedForm,
}

impl<R: Registers> FromOperands<R> for Content {
    ghost made_of_none = { no_content };

    ghost made_with = { with_content ⟦<R as RegisterFamily>⟧.family };

    ghost made_of_nop = { nop_content };

    #[inline(always)]
    fn none() -> Content
        ensures { result ≡ no_content }
    {
        Content {
            nop: None,
            form: NumberedForm::none(),
        }
    }

    #[inline(always)]
    fn with(mut self, operand: Operand<R>) -> Content
        ensures { result ≡ with_content ⟦<R as RegisterFamily>⟧.family operand self }
    {
        self.form.add(&operand);
        self
    }

    #[inline(always)]
    fn nop(nop: Nop) -> Content
        ensures { result ≡ nop_content nop }
    {
        Content {
            nop: Some(nop),
            form: NumberedForm::none(),
        }
    }
}
