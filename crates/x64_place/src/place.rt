//! The place of an instruction by its numbers: a register, memory, or nothing.

ghost use Rattle.std.specs.Prelude.{◌≡◌, true};
ghost use Rattle.x64_place.specs.Homes.{home_if};
ghost use Rattle.x64_place.specs.Place.{is_plain};

use cax64_address::amode::{Amode, Scale};
use cax64_address::offset::{AmodeOffset, AmodeOffsetPlusKnownOffset};
use cax64_register::{NonRspGpr, gpr};
use cax64_sink::{CodeSink, Constant, DeferredTarget, KnownOffset, Label, TrapCode};

/// What stands in the rest of the tail.
#[derive(Clone, Copy, Debug, PartialEq)]
pub enum PlaceKind {
    /// Nothing: the instruction has no such operand.
    Absent,
    /// A register.
    Register,
    /// Memory at a base and a displacement.
    Base,
    /// Memory at a base, an index times its scale, and a displacement.
    BaseAndIndex,
    /// Memory at a label.
    Label,
    /// Memory at a constant of a pool.
    Constant,
    /// Memory relative to the end, of no target.
    NoTarget,
}

/// A place by its numbers. What its kind has no use for is 0, absent or the scale 1; beside a base alone the index is 4,
/// which means none.
#[derive(Clone, Copy, Debug, PartialEq)]
pub struct FlatPlace {
    pub kind: PlaceKind,
    /// Of the register or of the base.
    pub base: u8,
    pub index: u8,
    pub scale: Scale,
    pub trap: Option<TrapCode>,
    pub offset: Option<KnownOffset>,
    pub displacement: AmodeOffset,
    /// The number of the label or of the constant.
    pub target: u32,
    ghost plain: { is_plain kind base index scale trap offset displacement target ≡ true },
}

impl FlatPlace {
    ghost use Rattle.std.specs.Prelude.{IsTrue, slice_index};
    ghost use Rattle.cax64_encoder.specs.Fault.{late_offset_fits};
    ghost use Rattle.cax64_encoder.specs.Notices.{memory_notices};
    ghost use Rattle.cax64_encoder.specs.Numbered.{plain};
    ghost use Rattle.cax64_encoder.specs.Place.{displacement_in, memory_in};
    ghost use Rattle.cax64_address.specs.declared.amode.Amode.TheVariants.{RipRelative};
    ghost use Rattle.cax64_encoder.specs.Real.{place_is_real};
    ghost use Rattle.cax64_encoder.specs.declared.number.Number.TheVariants.{Settled};
    ghost use Rattle.cax64_encoder.specs.declared.role.PlaceOperand.TheVariants.{Memory, Register};
    ghost use Rattle.x64_place.specs.Kind.{relative_by};
    ghost use Rattle.x64_place.specs.Operand.{place_operand};
    ghost use Rattle.x64_place.specs.Renamed.{renamed_place};

    /// Nothing.
    pub const ABSENT: FlatPlace = FlatPlace {
        kind: PlaceKind::Absent,
        base: 0,
        index: 0,
        scale: Scale::One,
        trap: None,
        offset: None,
        displacement: AmodeOffset::ZERO,
        target: 0,
    };

    /// The register of this number, which may be virtual.
    #[inline(always)]
    pub fn register(number: u8) -> FlatPlace
        ensures { place_operand result ≡ Register (Settled number) }
    {
        FlatPlace {
            kind: PlaceKind::Register,
            base: number,
            index: 0,
            scale: Scale::One,
            trap: None,
            offset: None,
            displacement: AmodeOffset::ZERO,
            target: 0,
        }
    }

    /// Memory that is settled later, relative to the end of the instruction.
    #[inline(always)]
    pub fn of_target(target: DeferredTarget) -> FlatPlace
        ensures { place_operand result ≡ Memory (RipRelative target) }
    {
        let (kind, target) = match target {
            DeferredTarget::Label(Label(number)) => (PlaceKind::Label, number),
            DeferredTarget::Constant(Constant(number)) => (PlaceKind::Constant, number),
            DeferredTarget::None => (PlaceKind::NoTarget, 0),
        };
        FlatPlace {
            kind,
            base: 0,
            index: 0,
            scale: Scale::One,
            trap: None,
            offset: None,
            displacement: AmodeOffset::ZERO,
            target,
        }
    }

    /// Memory of this address.
    #[inline(always)]
    pub fn of_amode(amode: &Amode<u8>) -> FlatPlace
        ensures { place_operand result ≡ Memory amode.now }
    {
        match *amode {
            Amode::ImmReg { base, simm32, trap } => FlatPlace {
                kind: PlaceKind::Base,
                base,
                index: gpr::enc::RSP,
                scale: Scale::One,
                trap,
                offset: simm32.offset,
                displacement: simm32.simm32,
                target: 0,
            },
            Amode::ImmRegRegShift {
                base,
                index,
                scale,
                simm32,
                trap,
            } => FlatPlace {
                kind: PlaceKind::BaseAndIndex,
                base,
                index: *index.as_ref(),
                scale,
                trap,
                offset: None,
                displacement: simm32,
                target: 0,
            },
            Amode::RipRelative { target } => FlatPlace::of_target(target),
        }
    }

    /// Its address, where it's memory.
    #[inline(always)]
    pub fn memory(&self) -> Option<Amode<u8>>
        ensures { result ≡ memory_in (place_operand self.now) }
    {
        match self.kind {
            PlaceKind::Absent | PlaceKind::Register => None,
            PlaceKind::Base => Some(Amode::ImmReg {
                base: self.base,
                simm32: self.displaced(),
                trap: self.trap,
            }),
            PlaceKind::BaseAndIndex => Some(Amode::ImmRegRegShift {
                base: self.base,
                index: NonRspGpr::new(self.index),
                scale: self.scale,
                simm32: self.displacement,
                trap: self.trap,
            }),
            PlaceKind::Label => Some(Amode::RipRelative {
                target: DeferredTarget::Label(Label(self.target)),
            }),
            PlaceKind::Constant => Some(Amode::RipRelative {
                target: DeferredTarget::Constant(Constant(self.target)),
            }),
            PlaceKind::NoTarget => Some(Amode::RipRelative {
                target: DeferredTarget::None,
            }),
        }
    }

    /// The target of a place relative to the end.
    #[inline(always)]
    pub fn relative(&self) -> Option<DeferredTarget>
        ensures { result ≡ relative_by self.now.kind self.now.target }
    {
        match self.kind {
            PlaceKind::Absent | PlaceKind::Register | PlaceKind::Base | PlaceKind::BaseAndIndex =>
                None,
            PlaceKind::Label => Some(DeferredTarget::Label(Label(self.target))),
            PlaceKind::Constant => Some(DeferredTarget::Constant(Constant(self.target))),
            PlaceKind::NoTarget => Some(DeferredTarget::None),
        }
    }

    /// Whether base and index are below 16, and an index isn't the stack pointer. What there isn't is 0 or 4: nothing is
    /// tested by what the place is, since a branch on that is often guessed wrong.
    #[inline(always)]
    pub fn is_met(&self) -> bool
        ensures { result ≡ place_is_real plain.settled plain.enc (place_operand self.now) }
    {
        (self.base < 16) & (self.index < 16) & !(self.kind.has_index() & (self.index == 4))
    }

    /// The displacement, and the late offset that is added to it.
    #[inline(always)]
    fn displaced(&self) -> AmodeOffsetPlusKnownOffset
        ensures { result ≡ record { simm32 = self.now.displacement; offset = self.now.offset } }
    {
        AmodeOffsetPlusKnownOffset {
            simm32: self.displacement,
            offset: self.offset,
        }
    }

    /// Whether the late offset is absent, or known to the sink with a sum that is an `i32`.
    #[inline(always)]
    pub fn offset_fits<S: CodeSink>(&self, sink: &S) -> bool
        ensures { result ≡ late_offset_fits (S.state sink.now).offsets (memory_in (place_operand self.now)) }
    {
        self.displaced().fits(sink)
    }

    /// The displacement in bytes, with the late offset added; 0 where there is none.
    ///
    /// The sum has to fit, as [`offset_fits`](Self::offset_fits) tells. Where it doesn't, a build that wasn't proved may
    /// answer any number, or abort.
    #[inline(always)]
    pub fn displacement<S: CodeSink>(&self, sink: &S) -> i32
        requires { IsTrue (late_offset_fits (S.state sink.now).offsets (memory_in (place_operand self.now))) }
        ensures { result ≡ displacement_in (S.state sink.now).offsets (place_operand self.now) }
    {
        self.displaced().value(sink)
    }

    /// How many notices an instruction with this place has: of a trap, or of a target.
    #[inline(always)]
    pub fn notice_count(&self) -> u8
        ensures { result ≡ memory_notices (memory_in (place_operand self.now)) }
    {
        if self.kind.is_relative() {
            1
        } else {
            u8::from(self.trap.is_some())
        }
    }

    /// Puts others in the place of the registers: each by its number in this table.
    #[inline(always)]
    pub fn rename(&mut self, homes: &[u8; 256])
        ensures operand { place_operand self.new ≡ renamed_place (slice_index homes.now) (place_operand self.old) }
        ensures kind { self.new.kind ≡ self.old.kind }
    {
        self.base = home_if(self.kind.has_base(), homes, self.base);
        self.index = home_if(self.kind.has_index(), homes, self.index);
    }
}

impl PlaceKind {
    ghost use Rattle.x64_place.specs.Kind.{has_base, has_index, is_register, is_relative};

    #[inline(always)]
    pub(crate) fn is_register(self) -> bool
        ensures { result ≡ is_register self }
    {
        matches!(self, PlaceKind::Register)
    }

    #[inline(always)]
    pub(crate) fn is_relative(self) -> bool
        ensures { result ≡ is_relative self }
    {
        matches!(
            self,
            PlaceKind::Label | PlaceKind::Constant | PlaceKind::NoTarget
        )
    }

    #[inline(always)]
    fn has_base(self) -> bool
        ensures { result ≡ has_base self }
    {
        matches!(
            self,
            PlaceKind::Register | PlaceKind::Base | PlaceKind::BaseAndIndex
        )
    }

    #[inline(always)]
    fn has_index(self) -> bool
        ensures { result ≡ has_index self }
    {
        matches!(self, PlaceKind::BaseAndIndex)
    }
}

/// The number that a table gives for a register, where there is one. It's looked up in any case, and nothing is tested: a
/// branch would cost more.
#[inline(always)]
pub fn home_if(present: bool, homes: &[u8; 256], reg: u8) -> u8
    ensures { result ≡ home_if present homes.now reg }
{
    let home = homes[usize::from(reg)];
    home * u8::from(present) + reg * u8::from(!present)
}
