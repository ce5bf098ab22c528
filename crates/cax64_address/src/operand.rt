//! Operands that are a register or memory.

ghost use Rattle.std.specs.Prelude.{◌≡◌};
ghost use Rattle.cax64_address.specs.Operand.{is_gpr_mem, is_xmm_mem};

use crate::amode::Amode;
use cax64_register::AsReg;

/// A general register or memory.
#[derive(Clone, Copy, Debug, PartialEq)]
pub enum GprMem<R: AsReg, M: AsReg> {
    Gpr(R),
    Mem(Amode<M>),
}

impl<R: AsReg, M: AsReg> GprMem<R, M> {
    /// Whether the operand is memory.
    pub fn is_memory(&self) -> bool
        ensures { result ≡ is_gpr_mem self.now }
    {
        matches!(self, GprMem::Mem(_))
    }
}

impl<R: AsReg, M: AsReg> From<R> for GprMem<R, M> {
    ghost use Rattle.std.specs.Prelude.{◌≡◌};
    ghost use Rattle.cax64_address.specs.declared.operand.GprMem.TheVariants.{Gpr};

    ghost from_gives = { λ reg operand. operand ≡ Gpr reg };

    fn from(reg: R) -> GprMem<R, M> {
        GprMem::Gpr(reg)
    }
}

impl<R: AsReg, M: AsReg> From<Amode<M>> for GprMem<R, M> {
    ghost use Rattle.std.specs.Prelude.{◌≡◌};
    ghost use Rattle.cax64_address.specs.declared.operand.GprMem.TheVariants.{Mem};

    ghost from_gives = { λ amode operand. operand ≡ Mem amode };

    fn from(amode: Amode<M>) -> GprMem<R, M> {
        GprMem::Mem(amode)
    }
}

/// An XMM register or memory.
#[derive(Clone, Copy, Debug)]
pub enum XmmMem<R: AsReg, M: AsReg> {
    Xmm(R),
    Mem(Amode<M>),
}

impl<R: AsReg, M: AsReg> XmmMem<R, M> {
    /// Whether the operand is memory.
    pub fn is_memory(&self) -> bool
        ensures { result ≡ is_xmm_mem self.now }
    {
        matches!(self, XmmMem::Mem(_))
    }
}

impl<R: AsReg, M: AsReg> From<R> for XmmMem<R, M> {
    ghost use Rattle.std.specs.Prelude.{◌≡◌};
    ghost use Rattle.cax64_address.specs.declared.operand.XmmMem.TheVariants.{Xmm};

    ghost from_gives = { λ reg operand. operand ≡ Xmm reg };

    fn from(reg: R) -> XmmMem<R, M> {
        XmmMem::Xmm(reg)
    }
}

impl<R: AsReg, M: AsReg> From<Amode<M>> for XmmMem<R, M> {
    ghost use Rattle.std.specs.Prelude.{◌≡◌};
    ghost use Rattle.cax64_address.specs.declared.operand.XmmMem.TheVariants.{Mem};

    ghost from_gives = { λ amode operand. operand ≡ Mem amode };

    fn from(amode: Amode<M>) -> XmmMem<R, M> {
        XmmMem::Mem(amode)
    }
}
