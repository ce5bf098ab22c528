//! What an instruction says of itself, as tasks: one jump to the code of its kind, in which the row is known.

ghost use Rattle.std.specs.Prelude.{◌≡◌, None, Some, IsTrue, IfOk, MatchOption, string_bytes};
ghost use Rattle.cax64_address.specs.declared.text.Dialect.TheVariants.{Att, Xed};
ghost use Rattle.cax64_text.specs.Mnemonic.{mnemonic_for};
ghost use Rattle.cax64_text.specs.Slots.{slots_nameable, slots_text, slots_xed_text};
ghost use Rattle.cax64_text.specs.Text.{has_xed};

use crate::folds::ByRegister;
use crate::mnemonic::mnemonic;
use crate::names::RegisterNames;
use crate::slots::{Slots, slot_nameable};
use crate::style::Style;
use cax64_address::text::Dialect;
use cax64_machine_code::row::Row;
use cax64_operand::{Nop, Task};
use cax64_register::Registers;
use std::alloc::{AllocError, Allocator};

/// What asks whether the registers that are printed have texts.
#[derive(Drop)]
pub struct ForNameable;

/// Whether they have: asked in the order of operands, up to the first register without a text.
impl<R: Registers> Task<R, ForNameable> for Slots<R> {
    type Answer = bool;

    ghost asks = { λ row slots to. slots ≡ slots };

    ghost answers = { λ row slots old new result. result ≡ slots_nameable ⟦<R as RegisterNames>⟧.names slots };

    #[inline(always)]
    fn take(self, _row: Row, _to: &mut ForNameable) -> bool
        ensures { result ≡ slots_nameable ⟦<R as RegisterNames>⟧.names self }
    {
        slot_nameable(&self.first)
            && slot_nameable(&self.second)
            && slot_nameable(&self.third)
            && slot_nameable(&self.fourth)
            && slot_nameable(&self.fifth)
    }
}

/// The mnemonic.
impl<R: Registers> Task<R, ()> for ByRegister {
    type Answer = &'static str;

    ghost asks = { λ row task to. task ≡ task };

    ghost answers = { λ row task old new result. result.now ≡ mnemonic_for task.register row };

    #[inline(always)]
    fn take(self, row: Row, _to: &mut ()) -> &'static str
        ensures { result.now ≡ mnemonic_for self.register row }
    {
        mnemonic(row, self.register)
    }
}

/// Room for the text of any instruction with the hardware's registers.
const ROOM: usize = 80;

/// What asks for the text, and gives the memory for it.
#[derive(Drop)]
pub struct ForAtt<A: Allocator + Copy> {
    pub alloc: A,
}

/// The text.
impl<R: Registers, A: Allocator + Copy> Task<R, ForAtt<A>> for Slots<R> {
    type Answer = Result<String<A>, AllocError>;

    ghost asks = { λ row slots to. IsTrue (slots_nameable ⟦<R as RegisterNames>⟧.names slots) };

    ghost answers = { λ row slots old new result. IfOk result (λ t. string_bytes t ≡ slots_text ⟦<R as RegisterNames>⟧.names Att row slots) };

    #[inline(always)]
    fn take(self, row: Row, to: &mut ForAtt<A>) -> Result<String<A>, AllocError> {
        let alloc = to.alloc;
        let mut out = String::with_capacity(alloc, ROOM)?;
        self.add_text(&mut out, alloc, Dialect::Att, row)?;
        Ok(out)
    }
}

#[inline(always)]
fn has_xed(row: Row, nop: Option<Nop>) -> bool
    ensures { result ≡ has_xed row nop }
{
    match nop {
        Some(_) => true,
        None => Style::new(row).has_xed_text(),
    }
}

/// What asks for the text as XED prints it, and gives the memory for it.
#[derive(Drop)]
pub struct ForXed<A: Allocator + Copy> {
    pub alloc: A,
}

/// The text as XED prints it. Memory is asked for only where there is one.
impl<R: Registers, A: Allocator + Copy> Task<R, ForXed<A>> for Slots<R> {
    type Answer = Result<Option<String<A>>, AllocError>;

    ghost asks = { λ row slots to. IsTrue (slots_nameable ⟦<R as RegisterNames>⟧.names slots) };

    ghost answers = { λ row slots old new result. IfOk result (λ t. MatchOption t (slots_xed_text ⟦<R as RegisterNames>⟧.names row slots ≡ None) (λ s. slots_xed_text ⟦<R as RegisterNames>⟧.names row slots ≡ Some (string_bytes s))) };

    #[inline(always)]
    fn take(self, row: Row, to: &mut ForXed<A>) -> Result<Option<String<A>>, AllocError> {
        if !has_xed(row, self.nop) {
            return Ok(None);
        }
        let alloc = to.alloc;
        let mut out = String::with_capacity(alloc, ROOM)?;
        self.add_text(&mut out, alloc, Dialect::Xed, row)?;
        Ok(Some(out))
    }
}

/// The same of what has one.
#[derive(Drop)]
pub struct ForXedAlone<A: Allocator + Copy> {
    pub alloc: A,
}

/// The text as XED prints it, of a row that has one.
impl<R: Registers, A: Allocator + Copy> Task<R, ForXedAlone<A>> for Slots<R> {
    type Answer = Result<String<A>, AllocError>;

    ghost asks = { λ row slots to. IsTrue (slots_nameable ⟦<R as RegisterNames>⟧.names slots) };

    ghost answers = { λ row slots old new result. IfOk result (λ t. string_bytes t ≡ slots_text ⟦<R as RegisterNames>⟧.names Xed row slots) };

    #[inline(always)]
    fn take(self, row: Row, to: &mut ForXedAlone<A>) -> Result<String<A>, AllocError> {
        let alloc = to.alloc;
        let mut out = String::with_capacity(alloc, ROOM)?;
        self.add_text(&mut out, alloc, Dialect::Xed, row)?;
        Ok(out)
    }
}
