//! What the assembler asks of a register type.
ghost use Rattle.std.specs.Prelude.{◌≡◌, ◌<◌, ◌++◌, ℕ, Bool, true, IsTrue, IfOk, OnErr, OnOk, List, Option, nat_lt, string_bytes};
ghost use Rattle.std.proofs.Common.{rules};
ghost use Rattle.cax64_register.specs.declared.gpr.Size.{Size};
ghost use Rattle.cax64_register.specs.Real.{is_real};
ghost use Rattle.cax64_register.specs.Names.{register_name};

use crate::gpr::Size;
use crate::{gpr, xmm};
use std::alloc::{AllocError, Allocator};

/// A register of some family, physical or still virtual.
///
/// A register is settled where it encodes as one hardware number. It is real where it is settled
/// and that number is below 16, so that an instruction can hold it.
pub trait AsReg: Copy + Clone + PartialEq {
    ghost accepts: { ℕ → Bool };

    ghost settled: { Self → Bool };

    ghost enc: { Self → ℕ };

    // Which registers have a text. Where a family has no names of its own, those that are real.
    ghost nameable: { Self → Bool };

    // A nameable register's text at a size, or at none. Where a family has no names of its own, the
    // hardware's name.
    ghost text: { Self → Option Size → List ℕ };

    /// Whether the family has a register for this hardware number.
    fn accepts(number: u8) -> bool
        ensures { result ≡ accepts number };

    /// The register that encodes as this hardware number.
    ///
    /// Only for a number that the family [accepts](Self::accepts).
    fn new(number: u8) -> Self
        requires { IsTrue (accepts number) }
        ensures settled { IsTrue (settled result) }
        ensures number { enc result ≡ number };

    /// Whether the register has a hardware number, as a virtual one has not.
    fn settled(&self) -> bool
        ensures { result ≡ settled self.now };

    /// The register's hardware number, as 0 for `%rax`.
    ///
    /// Only of a register that is [settled](Self::settled).
    fn enc(&self) -> u8
        requires { IsTrue (settled self.now) }
        ensures { result ≡ enc self.now };

    /// Whether the register has a text. Where a family has no names of its own, that is whether the
    /// register is real.
    fn nameable(&self) -> bool
        ensures { result ≡ nameable self.now };

    /// The register's text as an operand of this size. Where a family has no names of its own, that
    /// is what [`register_name`] makes.
    ///
    /// Fails where there is no memory.
    ///
    /// Only of a register that is [nameable](Self::nameable).
    fn to_string<A: Allocator + Copy>(
        &self,
        alloc: A,
        size: Option<Size>,
    ) -> Result<String<A>, AllocError>
        requires { IsTrue (nameable self.now) }
        ensures { IfOk result (λ t. string_bytes t ≡ text self.now size) };

    /// Adds that text to `out`. A family whose names need no String of their own can say so here.
    ///
    /// Fails where there is no memory, and then leaves the text as it was.
    ///
    /// Only of a register that is [nameable](Self::nameable).
    fn push_to<A: Allocator + Copy>(
        &self,
        out: &mut String<A>,
        alloc: A,
        size: Option<Size>,
    ) -> Result<(), AllocError>
        requires { IsTrue (nameable self.now) }
        ensures text { OnOk result (string_bytes out.new ≡ string_bytes out.old ++ text self.now size) }
        ensures kept { OnErr result (string_bytes out.new ≡ string_bytes out.old) }
    {
        let name = self.to_string(alloc, size)?;
        out.push_str(name.as_str())
    }

    /// Whether an instruction can hold the register.
    final fn is_real(&self) -> bool
        ensures { result ≡ is_real settled enc self.now }
    {
        self.settled() && self.enc() < 16
    }

    // Registers that compare equal are the same value.
    ghost same: { (a b : Self) → Self.eq a b ≡ true → a ≡ b };
}

/// The hardware's name of the register with this number: as a general register of this size, or as
/// an XMM register where no size is given.
///
/// Fails where there is no memory.
///
/// The number has to be below 16; of another a build that wasn't proved answers another register's name, or aborts.
pub fn register_name<A: Allocator + Copy>(
    alloc: A,
    number: u8,
    size: Option<Size>,
) -> Result<String<A>, AllocError>
    requires { number < 16 }
    ensures { IfOk result (λ t. string_bytes t ≡ register_name number size) }
{
    String::from_str(alloc, static_name(number, size))
}

fn static_name(number: u8, size: Option<Size>) -> &'static str
    requires { number < 16 }
    ensures { result.now ≡ register_name number size }
{
    match size {
        Some(size) => gpr::enc::to_string(number, size),
        None => xmm::enc::to_string(number),
    }
}

/// The register types of one user of the assembler, by what an instruction does with a register.
pub trait Registers {
    /// A general register that is read.
    type ReadGpr: AsReg;

    /// A general register that is read and written.
    type ReadWriteGpr: AsReg;

    /// A general register that is written.
    type WriteGpr: AsReg;

    /// An XMM register that is read.
    type ReadXmm: AsReg;

    /// An XMM register that is read and written.
    type ReadWriteXmm: AsReg;

    /// An XMM register that is written.
    type WriteXmm: AsReg;
}

impl AsReg for u8 {
    ghost accepts = { λ _. true };

    ghost settled = { λ _. true };

    ghost enc = { λ n. n };

    ghost nameable = { λ n. nat_lt n 16 };

    ghost text = { register_name };

    ghost same = { Prim.search rules };

    fn accepts(_number: u8) -> bool {
        true
    }

    fn new(number: u8) -> u8 {
        number
    }

    fn settled(&self) -> bool {
        true
    }

    fn enc(&self) -> u8 {
        *self
    }

    fn nameable(&self) -> bool {
        *self < 16
    }

    fn to_string<A: Allocator + Copy>(
        &self,
        alloc: A,
        size: Option<Size>,
    ) -> Result<String<A>, AllocError> {
        register_name(alloc, *self, size)
    }

    fn push_to<A: Allocator + Copy>(
        &self,
        out: &mut String<A>,
        _alloc: A,
        size: Option<Size>,
    ) -> Result<(), AllocError> {
        out.push_str(static_name(*self, size))
    }
}
