//! What is made of operands where they are listed, so that the list itself need not be kept.

ghost use Rattle.std.specs.Prelude.{◌≡◌};
ghost use Rattle.cax64_operand.specs.Fold.{before};
ghost use Rattle.cax64_operand.specs.declared.nop.Nop.{Nop};
ghost use Rattle.cax64_operand.specs.declared.operand.Operand.{Operand};
ghost use Rattle.cax64_operand.specs.declared.operand.Operands.TheVariants as operands;
ghost use Rattle.cax64_operand.specs.declared.operand.Operands.TheVariants.{Zero};

use crate::nop::Nop;
use crate::operand::{Operand, Operands};
use cax64_register::Registers;

/// What is made of the operands of an instruction, one after the other, the last one first.
pub trait FromOperands<R: Registers> {
    ghost made_of_none: { Self };

    ghost made_with: { Operand R R.ReadGpr R.ReadWriteGpr R.WriteGpr R.ReadXmm R.ReadWriteXmm R.WriteXmm → Self → Self };

    ghost made_of_nop: { Nop → Self };

    /// What is made of no operands.
    fn none() -> Self
        ensures { result ≡ made_of_none };

    /// The same with one more operand before the others.
    fn with(self, operand: Operand<R>) -> Self
        ensures { result ≡ made_with operand self };

    /// What is made of a no-operation, which stands in the place of operands.
    fn nop(nop: Nop) -> Self
        ensures { result ≡ made_of_nop nop };
}

/// The list with one more operand before the others. Five is the most that an instruction has.
fn before<R: Registers>(operands: &Operands<R>, operand: Operand<R>) -> Operands<R>
    ensures { result ≡ before operand operands.now }
{
    match operands {
        Operands::Zero => Operands::One(operand),
        Operands::One(b) => Operands::Two(operand, b.copied()),
        Operands::Two(b, c) => Operands::Three(operand, b.copied(), c.copied()),
        Operands::Three(b, c, d) => { Operands::Four(operand, b.copied(), c.copied(), d.copied()) }
        Operands::Four(b, c, d, e) => {
            Operands::Five(operand, b.copied(), c.copied(), d.copied(), e.copied())
        }
        Operands::Five(b, c, d, e, f) => {
            Operands::Five(b.copied(), c.copied(), d.copied(), e.copied(), f.copied())
        }
        Operands::Nop(nop) => Operands::Nop(*nop),
    }
}

/// The list itself.
impl<R: Registers> FromOperands<R> for Operands<R> {
    ghost made_of_none = { Zero };

    ghost made_with = { before };

    ghost made_of_nop = { operands.Nop };

    #[inline(always)]
    fn none() -> Operands<R>
        ensures { result ≡ Zero }
    {
        Operands::Zero
    }

    #[inline(always)]
    fn with(self, operand: Operand<R>) -> Operands<R>
        ensures { result ≡ before operand self }
    {
        before(&self, operand)
    }

    #[inline(always)]
    fn nop(nop: Nop) -> Operands<R>
        ensures { result ≡ operands.Nop nop }
    {
        Operands::Nop(nop)
    }
}

/// What is made of one operand.
#[inline(always)]
pub fn of_one<R: Registers, T: FromOperands<R>>(a: Operand<R>) -> T
    ensures { result ≡ T.made_with a T.made_of_none }
{
    T::none().with(a)
}

/// What is made of two operands.
#[inline(always)]
pub fn of_two<R: Registers, T: FromOperands<R>>(a: Operand<R>, b: Operand<R>) -> T
    ensures { result ≡ T.made_with a (T.made_with b T.made_of_none) }
{
    T::none().with(b).with(a)
}

/// What is made of three operands.
#[inline(always)]
pub fn of_three<R: Registers, T: FromOperands<R>>(a: Operand<R>, b: Operand<R>, c: Operand<R>) -> T
    ensures { result ≡ T.made_with a (T.made_with b (T.made_with c T.made_of_none)) }
{
    T::none().with(c).with(b).with(a)
}

/// What is made of four operands.
#[inline(always)]
pub fn of_four<R: Registers, T: FromOperands<R>>(
    a: Operand<R>,
    b: Operand<R>,
    c: Operand<R>,
    d: Operand<R>,
) -> T
    ensures { result ≡ T.made_with a (T.made_with b (T.made_with c (T.made_with d T.made_of_none))) }
{
    T::none().with(d).with(c).with(b).with(a)
}

/// What is made of five operands.
#[inline(always)]
pub fn of_five<R: Registers, T: FromOperands<R>>(
    a: Operand<R>,
    b: Operand<R>,
    c: Operand<R>,
    d: Operand<R>,
    e: Operand<R>,
) -> T
    ensures { result ≡ T.made_with a (T.made_with b (T.made_with c (T.made_with d (T.made_with e T.made_of_none)))) }
{
    T::none().with(e).with(d).with(c).with(b).with(a)
}
