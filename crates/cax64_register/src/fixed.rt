//! Registers that an instruction fixes.
ghost use Rattle.std.specs.Prelude.{◌≡◌, ◌==◌, ◌&&◌, IsTrue, IfOk, string_bytes};
ghost use Rattle.std.proofs.Common.{ap};

use crate::{AsReg, Size};
use std::alloc::{AllocError, Allocator};

/// A register that an instruction fixes to the number `E`, as the accumulator of `cmpxchg`.
///
/// Any register of the family may stand in it; it is settled where that register encodes as `E`.
#[derive(Clone, Copy, Debug, PartialEq)]
pub struct Fixed<R, const E: u8>(pub R);

impl<R, const E: u8> Fixed<R, E> {
    /// The number that the instruction fixes, whatever register is held.
    pub fn expected_enc(&self) -> u8
        ensures { result ≡ E }
    {
        E
    }

    /// The register held.
    pub fn as_ref(&self) -> &R
        ensures { result.now ≡ self.now.0 }
    {
        &self.0
    }
}

impl<R: AsReg, const E: u8> Fixed<R, E> {
    /// The family's register of the number that the instruction fixes.
    ///
    /// Only where the family [accepts](AsReg::accepts) the number.
    pub fn expected() -> Fixed<R, E>
        requires { IsTrue (R.accepts E) }
        ensures settled { IsTrue (R.settled result.0) }
        ensures number { R.enc result.0 ≡ E }
    {
        Fixed(R::new(E))
    }

    /// The text of the register held, at this size, or at none.
    ///
    /// Fails where there is no memory.
    ///
    /// The register needs a text, as `nameable` of [`AsReg`] tells. Where it has none, a build that wasn't proved may
    /// answer another register's, or abort.
    pub fn to_string<A: Allocator + Copy>(
        &self,
        alloc: A,
        size: Option<Size>,
    ) -> Result<String<A>, AllocError>
        requires { IsTrue (R.nameable self.now.0) }
        ensures { IfOk result (λ t. string_bytes t ≡ R.text self.now.0 size) }
    {
        self.0.to_string(alloc, size)
    }
}

impl<R, const E: u8> From<R> for Fixed<R, E> {
    ghost from_gives = { λ reg fixed. fixed.0 ≡ reg };

    fn from(reg: R) -> Fixed<R, E> {
        Fixed(reg)
    }
}

impl<R: AsReg, const E: u8> AsReg for Fixed<R, E> {
    ghost accepts = { λ n. (n == E) && R.accepts n };

    ghost settled = { λ f. R.settled f.0 && (R.enc f.0 == E) };

    ghost enc = { λ f. R.enc f.0 };

    ghost nameable = { λ f. R.nameable f.0 };

    ghost text = { λ f. R.text f.0 };

    ghost same = { λ a b equal. ap (λ (x : _). record { 0 = x }) (R.same a.0 b.0 equal) };

    fn accepts(number: u8) -> bool {
        number == E && R::accepts(number)
    }

    fn new(number: u8) -> Self {
        Fixed(R::new(number))
    }

    fn settled(&self) -> bool {
        self.0.settled() && self.0.enc() == E
    }

    fn enc(&self) -> u8 {
        self.0.enc()
    }

    fn nameable(&self) -> bool {
        self.0.nameable()
    }

    fn to_string<A: Allocator + Copy>(
        &self,
        alloc: A,
        size: Option<Size>,
    ) -> Result<String<A>, AllocError> {
        self.0.to_string(alloc, size)
    }

    fn push_to<A: Allocator + Copy>(
        &self,
        out: &mut String<A>,
        alloc: A,
        size: Option<Size>,
    ) -> Result<(), AllocError> {
        self.0.push_to(out, alloc, size)
    }
}
