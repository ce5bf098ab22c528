//! General registers other than the stack pointer.
ghost use Rattle.std.specs.Prelude.{◌≡◌, ◌≢◌, ◌<◌, ⊤, IsTrue, IfOk, Some, string_bytes};
ghost use Rattle.cax64_register.specs.Real.{is_real_non_rsp};

use super::{Size, enc};
use crate::AsReg;
use std::alloc::{AllocError, Allocator};
use std::marker::Model;

/// A general register that isn't the stack pointer: the index of an address.
///
/// The number of `%rsp` stands for no index in a SIB byte (Intel SDM volume 2, section 2.2.1.2,
/// table 2-5).
#[derive(Copy, Debug, PartialEq)]
pub struct NonRspGpr<R>(R);

impl<R> Model for NonRspGpr<R> {
    ghost Value = { R };

    ghost view = { λ operand. operand.0 };

    ghost inverse = { λ reg. record { 0 = reg } };
}

impl<R: Copy> Clone for NonRspGpr<R> {
    ghost is_clone = { λ old new. new ≡ old };

    ghost is_infallible = { λ _. ⊤ };

    fn clone(&self) -> Result<NonRspGpr<R>, AllocError> {
        Ok(*self)
    }
}

impl<R> NonRspGpr<R> {
    ghost use Rattle.std.specs.Prelude.{◌≡◌};
    ghost use Rattle.std.specs.Borrow.{Lends, sem};
    ghost use Rattle.cax64_register.specs.contracts.gpr.non_rsp.NonRspGpr.{the_row};

    /// An operand of this register, which may still be virtual.
    pub fn new(reg: R) -> Self
        ensures { result ≡ reg }
    {
        NonRspGpr(reg)
    }

    /// The register itself.
    pub fn as_ref(&self) -> &R
        ensures { result.now ≡ self.now }
    {
        &self.0
    }

    /// The register itself, to be replaced.
    pub fn as_mut(&mut self) -> &mut R
        ensures* writes_back { sem 𝓛 (Lends (the_row R.row) R.row self.entry result (λ w. w)) }
        ensures value { result.now ≡ self.old }
    {
        &mut self.0
    }
}

impl<R: AsReg> NonRspGpr<R> {
    /// Whether an instruction can hold the register, and it isn't the stack pointer.
    pub fn is_real(&self) -> bool
        ensures { result ≡ is_real_non_rsp R.settled R.enc self.now }
    {
        self.0.is_real() && self.0.enc() != enc::RSP
    }

    /// The register's hardware number.
    ///
    /// The register has to be real, as [`is_real`](Self::is_real) tells. Where it isn't, a build that wasn't proved may
    /// answer any number, or abort.
    pub fn enc(&self) -> u8
        requires { IsTrue (is_real_non_rsp R.settled R.enc self.now) }
        ensures number { result ≡ R.enc self.now }
        ensures real { result < 16 }
        ensures non_rsp { result ≢ 4 }
    {
        self.0.enc()
    }

    /// The register's text at this size.
    ///
    /// Fails where there is no memory.
    ///
    /// The register needs a text, as `nameable` of [`AsReg`] tells. Where it has none, a build that wasn't proved may
    /// answer another register's, or abort.
    pub fn to_string<A: Allocator + Copy>(
        &self,
        alloc: A,
        size: Size,
    ) -> Result<String<A>, AllocError>
        requires { IsTrue (R.nameable self.now) }
        ensures { IfOk result (λ t. string_bytes t ≡ R.text self.now (Some size)) }
    {
        self.0.to_string(alloc, Some(size))
    }
}

impl<R> From<R> for NonRspGpr<R> {
    ghost from_gives = { λ reg operand. operand ≡ reg };

    fn from(reg: R) -> NonRspGpr<R> {
        NonRspGpr(reg)
    }
}
