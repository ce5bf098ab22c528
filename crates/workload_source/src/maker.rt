//! Operands, as real code has them: of the places in memory about half are a base with a displacement of one byte, a
//! fifth a base alone and a fifth have an index; the others have a displacement of four bytes or are relative.

use crate::random::Random;
use crate::registers::Plain;
use cranelift_assembler_x64::{
    Amode, AmodeOffset, AmodeOffsetPlusKnownOffset, Constant, DeferredTarget, Gpr, GprMem, Imm8,
    Imm16, Imm32, Label, NonRspGpr, Scale, Simm8, Simm32, TrapCode, Xmm, XmmMem,
};
use std::num::NonZeroU8;

/// How many late offsets there are. Their keys are the numbers below.
pub const OFFSETS: u8 = 3;

/// What instructions are made of.
#[derive(Clone, Copy)]
pub struct Maker {
    pub random: Random,
    /// The registers: 0 for the machine's, 16 for virtual ones.
    pub first_register: u8,
    /// Whether a displacement may have a late offset.
    pub has_late_offsets: bool,
    /// How many labels there are, and the one that was bound last.
    pub labels: u32,
    pub label: u32,
    /// How many constants there are, and what the number of each is multiplied by to be its key.
    pub constants: u32,
    pub spread: u32,
}

impl Maker {
    /// What makes operands of the machine's registers.
    pub fn of_machine(random: Random) -> Maker {
        Maker {
            random,
            first_register: 0,
            has_late_offsets: false,
            labels: 64,
            label: 32,
            constants: 16,
            spread: 1,
        }
    }

    /// What makes operands of virtual registers.
    pub fn of_virtual(seed: u64, spread: u32) -> Maker {
        Maker {
            random: Random::new(seed),
            first_register: 16,
            has_late_offsets: true,
            labels: u32::MAX,
            label: 0,
            constants: 1,
            spread,
        }
    }

    fn register<G: Plain>(&self, byte: u8) -> G {
        let count = if self.first_register == 0 { 16 } else { 48 };
        G::of((byte % count).saturating_add(self.first_register))
    }

    /// A register that an address can be indexed by: not the stack pointer.
    fn index<G: Plain>(&self, byte: u8) -> NonRspGpr<G> {
        let byte = if byte % 16 == 4 { 5 } else { byte };
        NonRspGpr::new(self.register(byte))
    }

    pub fn gpr<G: Plain>(&mut self) -> Gpr<G> {
        let byte = self.random.byte();
        Gpr::new(self.register(byte))
    }

    pub fn xmm<G: Plain>(&mut self) -> Xmm<G> {
        let byte = self.random.byte();
        Xmm::new(self.register(byte))
    }

    /// A register that has to be the machine's of this number, or a virtual one that is to become it.
    pub fn fixed<G: Plain>(&mut self, number: u8) -> G {
        G::of(number.saturating_add(self.first_register))
    }

    /// A label near the place that is reached, half of the time one that is still to come, or a constant, if there is one.
    fn target(&self, kind: u8, near: u8, number: [u8; 4]) -> DeferredTarget {
        if kind % 4 == 0 && self.constants > 0 {
            let number = u32::from_le_bytes(number);
            let number = number.checked_rem(self.constants).unwrap_or(0);
            return DeferredTarget::Constant(Constant(number.wrapping_mul(self.spread)));
        }
        let place = self.label.saturating_add(u32::from(near % 16));
        let last = self.labels.saturating_sub(1);
        DeferredTarget::Label(Label(place.saturating_sub(8).min(last)))
    }

    pub fn amode<G: Plain>(&mut self) -> Amode<G> {
        let [class, base, index, scale, a, b, c, d] = self.random.bytes();
        let short = i32::from(a.cast_signed());
        let long = i32::from_le_bytes([a, b, c, d]);
        let code = if scale < 64 { scale / 8 + 1 } else { 0 };
        let trap = NonZeroU8::new(code).map(TrapCode);
        let displacement = match class {
            0..=119 => short,
            120..=167 => 0,
            168..=215 => {
                let displacement = match d {
                    0..=127 => short,
                    128..=191 => 0,
                    _ => long,
                };
                return Amode::ImmRegRegShift {
                    base: self.register(base),
                    index: self.index(index),
                    scale: Scale::new(scale % 4),
                    simm32: AmodeOffset::new(displacement),
                    trap,
                };
            }
            216..=229 => long,
            _ => {
                return Amode::RipRelative {
                    target: self.target(base, index, [a, b, c, d]),
                };
            }
        };
        let is_late = self.has_late_offsets && class < 9;
        let offset = if is_late { Some(c % OFFSETS) } else { None };
        Amode::ImmReg {
            base: self.register(base),
            simm32: AmodeOffsetPlusKnownOffset {
                simm32: AmodeOffset::new(displacement),
                offset,
            },
            trap,
        }
    }

    pub fn gpr_mem<G: Plain>(&mut self) -> GprMem<G, G> {
        let byte = self.random.byte();
        if byte < 128 {
            return GprMem::Gpr(self.register(byte));
        }
        GprMem::Mem(self.amode())
    }

    pub fn xmm_mem<G: Plain>(&mut self) -> XmmMem<G, G> {
        let byte = self.random.byte();
        if byte < 128 {
            return XmmMem::Xmm(self.register(byte));
        }
        XmmMem::Mem(self.amode())
    }

    pub fn imm8(&mut self) -> Imm8 {
        Imm8::new(self.random.byte())
    }

    pub fn imm16(&mut self) -> Imm16 {
        let [a, b, ..] = self.random.bytes();
        Imm16::new(u16::from_le_bytes([a, b]))
    }

    pub fn imm32(&mut self) -> Imm32 {
        let [a, b, c, d, ..] = self.random.bytes();
        Imm32::new(u32::from_le_bytes([a, b, c, d]))
    }

    pub fn simm8(&mut self) -> Simm8 {
        Simm8::new(self.random.byte().cast_signed())
    }

    pub fn simm32(&mut self) -> Simm32 {
        let [a, b, c, d, ..] = self.random.bytes();
        Simm32::new(i32::from_le_bytes([a, b, c, d]))
    }
}
