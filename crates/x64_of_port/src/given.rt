//! What an instruction of the port gives, made where its operands are listed.

ghost use Rattle.std.specs.Prelude.{◌≡◌};
ghost use Rattle.x64_of_port.specs.Given.{none_given, nop_given, with_given};
ghost use Rattle.x64_of_port.specs.Task.{Answered, Asked};

use crate::place::flat;
use cax64_encoder::checked::Checked;
use cax64_encoder::content::Content;
use cax64_machine_code::row::Row;
use cax64_operand::{FromOperands, Nop, Operand, RegisterFamily, Task};
use cax64_register::Registers;
use cax64_sink::CodeSink;
use x64_core::Core;
use x64_lines::Op;

/// The numbers of operands, and what decides whether they can be encoded.
#[derive(Clone, Copy)]
pub struct Given {
    pub checked: Checked,
    pub content: Content,
}

impl<R: Registers> FromOperands<R> for Given {
    ghost made_of_none = { none_given };

    ghost made_with = { with_given ⟦<R as RegisterFamily>⟧.family };

    ghost made_of_nop = { nop_given };

    #[inline(always)]
    fn none() -> Given
        ensures { result ≡ none_given }
    {
        Given {
            checked: <Checked as FromOperands<R>>::none(),
            content: <Content as FromOperands<R>>::none(),
        }
    }

    #[inline(always)]
    fn with(self, operand: Operand<R>) -> Given
        ensures { result ≡ with_given ⟦<R as RegisterFamily>⟧.family operand self }
    {
        Given {
            checked: self.checked.with(operand.copied()),
            content: self.content.with(operand),
        }
    }

    #[inline(always)]
    fn nop(nop: Nop) -> Given
        ensures { result ≡ nop_given nop }
    {
        Given {
            checked: <Checked as FromOperands<R>>::nop(nop),
            content: <Content as FromOperands<R>>::nop(nop),
        }
    }
}

/// The instruction of the core, where the instruction can be encoded for a sink and is no no-operation.
impl<'a, R: Registers, S: CodeSink> Task<R, &'a S> for Given {
    type Answer = Option<Core>;

    ghost asks = { λ row given sink. Asked R ⟦<R as RegisterFamily>⟧.family row given };

    ghost answers = { λ row given old new result. Answered R ⟦<R as RegisterFamily>⟧.family (S.state old.now).offsets row given result };

    #[inline(always)]
    fn take(self, row: Row, sink: &mut &'a S) -> Option<Core> {
        let sink: &S = *sink;
        if self.content.nop.is_some() | !self.checked.holds(sink) {
            return None;
        }
        let form = &self.content.form;
        let reg = form.reg.unwrap_or(0);
        let vvvv = form.vvvv.unwrap_or(0);
        let place = flat(&form.place);
        Some(Core::of_fitting(Op::of_row(row), reg, vvvv, place, form.imm))
    }
}
