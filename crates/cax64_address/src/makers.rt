//! Addresses made step by step, where what is left out is absent, and operands that are registers.

ghost use Rattle.std.specs.Prelude.{◌≡◌, None, Some, pos};

use crate::amode::{Amode, Scale};
use crate::offset::{AmodeOffset, AmodeOffsetPlusKnownOffset};
use crate::operand::{GprMem, XmmMem};
use cax64_register::{AsReg, NonRspGpr};
use cax64_sink::{Constant, DeferredTarget, KnownOffset, Label, TrapCode};

/// Memory at a base register, as [`Amode::base`] begins it. It becomes an address or an operand by `into`.
#[derive(Clone, Copy, Debug)]
pub struct BaseAddress<R: AsReg> {
    pub base: R,
    pub simm32: AmodeOffsetPlusKnownOffset,
    pub trap: Option<TrapCode>,
}

/// Memory at a base and an index register, as [`Amode::indexed`] begins it. It becomes an address or an operand by `into`.
#[derive(Clone, Copy, Debug)]
pub struct IndexAddress<R: AsReg> {
    pub base: R,
    pub index: NonRspGpr<R>,
    pub scale: Scale,
    pub simm32: AmodeOffset,
    pub trap: Option<TrapCode>,
}

impl<R: AsReg> Amode<R> {
    /// Memory at a base register, which may still be virtual: with no displacement, no late offset and no trap.
    pub fn base(base: R) -> BaseAddress<R>
        ensures { result ≡ record { base = base; simm32 = record { simm32 = pos 0; offset = None }; trap = None } }
    {
        BaseAddress {
            base,
            simm32: AmodeOffsetPlusKnownOffset::ZERO,
            trap: None,
        }
    }

    /// Memory at a base and an index register times a scale, both of which may still be virtual: with no displacement and
    /// no trap. No late offset can be added to it.
    pub fn indexed(base: R, index: R, scale: Scale) -> IndexAddress<R>
        ensures { result ≡ record { base = base; index = index; scale = scale; simm32 = pos 0; trap = None } }
    {
        IndexAddress {
            base,
            index: NonRspGpr::new(index),
            scale,
            simm32: AmodeOffset::ZERO,
            trap: None,
        }
    }

    /// The place of a label, relative to the end of the instruction.
    pub fn label(label: Label) -> Amode<R>
        ensures { result ≡ Amode.RipRelative (DeferredTarget.Label label) }
    {
        Amode::RipRelative {
            target: DeferredTarget::Label(label),
        }
    }

    /// The place of a constant, relative to the end of the instruction.
    pub fn constant(constant: Constant) -> Amode<R>
        ensures { result ≡ Amode.RipRelative (DeferredTarget.Constant constant) }
    {
        Amode::RipRelative {
            target: DeferredTarget::Constant(constant),
        }
    }
}

impl<R: AsReg> BaseAddress<R> {
    /// With this displacement in bytes, in the place of the one that it had.
    pub fn displaced(self, bytes: i32) -> BaseAddress<R>
        ensures { result ≡ record { base = self.base; simm32 = record { simm32 = bytes; offset = self.simm32.offset }; trap = self.trap } }
    {
        BaseAddress {
            base: self.base,
            simm32: AmodeOffsetPlusKnownOffset {
                simm32: AmodeOffset::new(bytes),
                offset: self.simm32.offset,
            },
            trap: self.trap,
        }
    }

    /// With the offset of this key, which the sink knows, added to the displacement.
    pub fn late(self, key: KnownOffset) -> BaseAddress<R>
        ensures { result ≡ record { base = self.base; simm32 = record { simm32 = self.simm32.simm32; offset = Some key }; trap = self.trap } }
    {
        BaseAddress {
            base: self.base,
            simm32: AmodeOffsetPlusKnownOffset {
                simm32: self.simm32.simm32,
                offset: Some(key),
            },
            trap: self.trap,
        }
    }

    /// With an access that may trap, for this reason.
    pub fn trapping(self, code: TrapCode) -> BaseAddress<R>
        ensures { result ≡ record { base = self.base; simm32 = self.simm32; trap = Some code } }
    {
        BaseAddress {
            base: self.base,
            simm32: self.simm32,
            trap: Some(code),
        }
    }
}

impl<R: AsReg> IndexAddress<R> {
    /// With this displacement in bytes, in the place of the one that it had.
    pub fn displaced(self, bytes: i32) -> IndexAddress<R>
        ensures { result ≡ record { base = self.base; index = self.index; scale = self.scale; simm32 = bytes; trap = self.trap } }
    {
        IndexAddress {
            base: self.base,
            index: self.index,
            scale: self.scale,
            simm32: AmodeOffset::new(bytes),
            trap: self.trap,
        }
    }

    /// With an access that may trap, for this reason.
    pub fn trapping(self, code: TrapCode) -> IndexAddress<R>
        ensures { result ≡ record { base = self.base; index = self.index; scale = self.scale; simm32 = self.simm32; trap = Some code } }
    {
        IndexAddress {
            base: self.base,
            index: self.index,
            scale: self.scale,
            simm32: self.simm32,
            trap: Some(code),
        }
    }
}

impl<R: AsReg, M: AsReg> GprMem<R, M> {
    /// A register, which may still be virtual.
    pub fn reg(reg: R) -> GprMem<R, M>
        ensures { result ≡ GprMem.Gpr reg }
    {
        GprMem::Gpr(reg)
    }
}

impl<R: AsReg, M: AsReg> XmmMem<R, M> {
    /// A register, which may still be virtual.
    pub fn reg(reg: R) -> XmmMem<R, M>
        ensures { result ≡ XmmMem.Xmm reg }
    {
        XmmMem::Xmm(reg)
    }
}

impl<R: AsReg> From<BaseAddress<R>> for Amode<R> {
    ghost use Rattle.std.specs.Prelude.{◌≡◌};
    ghost use Rattle.cax64_address.specs.declared.amode.Amode.TheVariants.{ImmReg};

    ghost from_gives = { λ address amode. amode ≡ ImmReg address.base address.simm32 address.trap };

    fn from(address: BaseAddress<R>) -> Amode<R> {
        Amode::ImmReg {
            base: address.base,
            simm32: address.simm32,
            trap: address.trap,
        }
    }
}

impl<R: AsReg> From<IndexAddress<R>> for Amode<R> {
    ghost use Rattle.std.specs.Prelude.{◌≡◌};
    ghost use Rattle.cax64_address.specs.declared.amode.Amode.TheVariants.{ImmRegRegShift};

    ghost from_gives = { λ address amode. amode ≡ ImmRegRegShift address.base address.index address.scale address.simm32 address.trap };

    fn from(address: IndexAddress<R>) -> Amode<R> {
        Amode::ImmRegRegShift {
            base: address.base,
            index: address.index,
            scale: address.scale,
            simm32: address.simm32,
            trap: address.trap,
        }
    }
}

impl<R: AsReg, M: AsReg> From<BaseAddress<M>> for GprMem<R, M> {
    ghost use Rattle.std.specs.Prelude.{◌≡◌};
    ghost use Rattle.cax64_address.specs.declared.amode.Amode.TheVariants.{ImmReg};
    ghost use Rattle.cax64_address.specs.declared.operand.GprMem.TheVariants.{Mem};

    ghost from_gives = { λ address operand. operand ≡ Mem (ImmReg address.base address.simm32 address.trap) };

    fn from(address: BaseAddress<M>) -> GprMem<R, M> {
        GprMem::Mem(address.into())
    }
}

impl<R: AsReg, M: AsReg> From<IndexAddress<M>> for GprMem<R, M> {
    ghost use Rattle.std.specs.Prelude.{◌≡◌};
    ghost use Rattle.cax64_address.specs.declared.amode.Amode.TheVariants.{ImmRegRegShift};
    ghost use Rattle.cax64_address.specs.declared.operand.GprMem.TheVariants.{Mem};

    ghost from_gives = { λ address operand. operand ≡ Mem (ImmRegRegShift address.base address.index address.scale address.simm32 address.trap) };

    fn from(address: IndexAddress<M>) -> GprMem<R, M> {
        GprMem::Mem(address.into())
    }
}

impl<R: AsReg, M: AsReg> From<BaseAddress<M>> for XmmMem<R, M> {
    ghost use Rattle.std.specs.Prelude.{◌≡◌};
    ghost use Rattle.cax64_address.specs.declared.amode.Amode.TheVariants.{ImmReg};
    ghost use Rattle.cax64_address.specs.declared.operand.XmmMem.TheVariants.{Mem};

    ghost from_gives = { λ address operand. operand ≡ Mem (ImmReg address.base address.simm32 address.trap) };

    fn from(address: BaseAddress<M>) -> XmmMem<R, M> {
        XmmMem::Mem(address.into())
    }
}

impl<R: AsReg, M: AsReg> From<IndexAddress<M>> for XmmMem<R, M> {
    ghost use Rattle.std.specs.Prelude.{◌≡◌};
    ghost use Rattle.cax64_address.specs.declared.amode.Amode.TheVariants.{ImmRegRegShift};
    ghost use Rattle.cax64_address.specs.declared.operand.XmmMem.TheVariants.{Mem};

    ghost from_gives = { λ address operand. operand ≡ Mem (ImmRegRegShift address.base address.index address.scale address.simm32 address.trap) };

    fn from(address: IndexAddress<M>) -> XmmMem<R, M> {
        XmmMem::Mem(address.into())
    }
}
