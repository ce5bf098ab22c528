//! An instruction of the core in integers.

ghost use Rattle.std.specs.Prelude.{◌≡◌, ◌≢◌, IfNone, IfSome};
ghost use Rattle.x64_plain.specs.Plain.{place_of, plain};
ghost use Rattle.x64_core.specs.View.{core_view};
ghost use Rattle.x64_core.specs.declared.instruction.Core.{Core};

use crate::immediate::{bytes_of, word_of};
use crate::place::HqPlace;
use x64_core::Core;
use x64_lines::Op;

/// An instruction of the core in integers: its line, and each number where it stands in the bytes. What it lacks is 0.
///
/// Any bytes may stand here: [`core`](Self::core) tells whether they are an instruction.
#[repr(C)]
#[derive(Clone, Copy, Debug, PartialEq)]
pub struct HqInst {
    /// The number of its line.
    pub line: u16,
    /// What the rest of the tail names: `HQ_PLACE_NOTHING` and the like.
    pub place: u8,
    /// The register in the reg field of ModR/M.
    pub reg: u8,
    /// The register in vvvv of a VEX prefix.
    pub vvvv: u8,
    /// The register of the place, or its base.
    pub base: u8,
    /// The index of the place.
    pub index: u8,
    /// What the index is multiplied by, as the two bits of a SIB byte: 0 to 3.
    pub scale: u8,
    /// The code of the trap that the access may raise, 0 for none.
    pub trap: u8,
    /// 1 where an offset is added to the displacement that is known late.
    pub has_offset: u8,
    /// Its key.
    pub offset: u8,
    /// 0.
    pub reserved: u8,
    /// The displacement in bytes.
    pub disp: i32,
    /// The number of the label or of the constant.
    pub target: u32,
    /// The low 32 bits of the immediate.
    pub imm: u32,
}

impl HqInst {
    /// Its place.
    #[inline(always)]
    fn place(&self) -> HqPlace
        ensures { result ≡ place_of self.now }
    {
        HqPlace {
            place: self.place,
            base: self.base,
            index: self.index,
            scale: self.scale,
            trap: self.trap,
            has_offset: self.has_offset,
            offset: self.offset,
            reserved: 0,
            disp: self.disp,
            target: self.target,
        }
    }

    /// An instruction of the core in integers.
    pub fn of(core: &Core) -> HqInst
        ensures { result ≡ plain (core_view core.now) }
    {
        let place = HqPlace::of(&core.place());
        HqInst {
            line: core.op().number(),
            place: place.place,
            reg: core.reg().unwrap_or(0),
            vvvv: core.vvvv().unwrap_or(0),
            base: place.base,
            index: place.index,
            scale: place.scale,
            trap: place.trap,
            has_offset: place.has_offset,
            offset: place.offset,
            reserved: 0,
            disp: place.disp,
            target: place.target,
            imm: word_of(core.imm()),
        }
    }

    /// The instruction of the core that these integers are. `None` where they are those of none: where the line is none of
    /// the core, what stands there isn't what the line takes, or something that the instruction lacks isn't 0.
    #[inline(always)]
    pub fn core(&self) -> Option<Core>
        ensures is { IfSome result (λ c. plain (core_view c) ≡ self.now) }
        ensures none { IfNone result ((c : Core) → plain (core_view c) ≢ self.now) }
        ensures alone { IfSome result (λ d. (c : Core) → plain (core_view c) ≡ self.now → core_view d ≡ core_view c) }
    {
        let op = Op::from_number(self.line)?;
        let place = self.place().numbers()?;
        let word = match bytes_of(op.shape().imm, self.imm) {
            Some(word) => word,
            None => return None,
        };
        if self.reserved != 0 {
            return None;
        }
        // As it is, but by cases: the proof has one for each.
        match Core::of_numbers(op, self.reg, self.vvvv, place, word) {
            Some(core) => Some(core),
            None => None,
        }
    }
}
