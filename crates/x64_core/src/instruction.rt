//! An instruction of the core as data.

ghost use Rattle.std.specs.Prelude.{◌≡◌, true};
ghost use Rattle.cax64_encoder.specs.Place.{memory_in};
ghost use Rattle.x64_core.specs.Fits.{core_fits};
ghost use Rattle.x64_lines.specs.Shape.{shape_of};
ghost use Rattle.x64_core.specs.Viewed.{viewed};

use crate::place::CorePlace;
use cax64_address::amode::Amode;
use x64_lines::Op;
use x64_place::{FlatPlace, PlaceKind};

/// An instruction of the core: its line, and each number where it stands in the bytes. Registers are numbers, of which
/// those from 16 up are virtual. A register that the line fixes isn't held: the line has it.
#[derive(Clone, Copy, Debug, PartialEq)]
pub struct Core {
    /// Flat, so that what is asked of it takes no branch on what it is.
    pub(crate) place: FlatPlace,
    /// The bytes of the immediate as one word, the first one the lowest; 0 where there is none.
    pub(crate) imm: u32,
    pub(crate) op: Op,
    /// 0 where a digit or nothing stands in reg.
    pub(crate) reg: u8,
    /// 0 where nothing stands in vvvv.
    pub(crate) vvvv: u8,
    ghost shape: { core_fits (shape_of op.number) reg vvvv (viewed place) imm ≡ true },
}

impl Core {
    ghost use Rattle.x64_core.specs.View.{core_view, place_operand, register_in};

    /// Its line.
    pub fn op(&self) -> Op
        ensures { result.number ≡ (core_view self.now).op }
    {
        self.op
    }

    /// The register in the reg field of ModR/M, where one stands there.
    #[inline(always)]
    pub fn reg(&self) -> Option<u8>
        ensures { result ≡ (core_view self.now).reg }
    {
        if self.op.shape().fields.has_reg() {
            Some(self.reg)
        } else {
            None
        }
    }

    /// The register in vvvv of a VEX prefix, where one stands there.
    #[inline(always)]
    pub fn vvvv(&self) -> Option<u8>
        ensures { result ≡ (core_view self.now).vvvv }
    {
        if self.op.shape().fields.has_vvvv() {
            Some(self.vvvv)
        } else {
            None
        }
    }

    /// What the rest of the tail names.
    pub fn place(&self) -> CorePlace
        ensures { place_operand result ≡ (core_view self.now).place }
    {
        CorePlace::of_numbers(&self.place)
    }

    /// The register that the rest of the tail names, where it names one.
    #[inline(always)]
    pub fn place_register(&self) -> Option<u8>
        ensures { result ≡ register_in (core_view self.now).place }
    {
        if matches!(self.place.kind, PlaceKind::Register) {
            Some(self.place.base)
        } else {
            None
        }
    }

    /// The address of its memory operand, where it has one.
    #[inline(always)]
    pub fn memory(&self) -> Option<Amode<u8>>
        ensures { result ≡ memory_in (core_view self.now).place }
    {
        self.place.memory()
    }
}
