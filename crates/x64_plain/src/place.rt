//! The place of an instruction in integers.

ghost use Rattle.std.specs.Prelude.{◌≡◌, ◌≢◌, ◌≤◌, IfNone, IfSome, true};
ghost use Rattle.x64_place.specs.Tail.{kind_number};
ghost use Rattle.x64_plain.specs.Named.{index_beside, is_whole, is_within, offset_named};
ghost use Rattle.x64_plain.specs.Plain.{plain_place, target_place, trap_number};
ghost use Rattle.x64_core.specs.View.{place_operand};
ghost use Rattle.x64_core.specs.Viewed.{viewed};
ghost use Rattle.x64_core.specs.declared.place.CorePlace.{CorePlace};

use cax64_address::amode::Scale;
use cax64_address::offset::AmodeOffset;
use cax64_register::gpr;
use cax64_sink::{DeferredTarget, KnownOffset, TrapCode};
use std::num::NonZeroU8;
use x64_core::CorePlace;
use x64_place::{FlatPlace, PlaceKind};

/// A place: nothing.
pub const HQ_PLACE_NOTHING: u8 = 0;

/// A place: a register.
pub const HQ_PLACE_REGISTER: u8 = 1;

/// A place: memory at a base and a displacement.
pub const HQ_PLACE_BASE: u8 = 2;

/// A place: memory at a base, an index times its scale, and a displacement.
pub const HQ_PLACE_INDEX: u8 = 3;

/// A place: memory relative to the end of the instruction, at a label.
pub const HQ_PLACE_LABEL: u8 = 4;

/// A place: memory relative to the end of the instruction, at a constant.
pub const HQ_PLACE_CONSTANT: u8 = 5;

/// A place: memory relative to the end of the instruction, of which isn't told where.
pub const HQ_PLACE_UNTOLD: u8 = 6;

/// What the rest of the tail names, in integers: a register, memory, or nothing. What it lacks is 0.
///
/// Any bytes may stand here: [`place`](Self::place) tells whether they are a place.
#[repr(C)]
#[derive(Clone, Copy, Debug, PartialEq)]
pub struct HqPlace {
    /// Which place it is: `HQ_PLACE_NOTHING` and the like.
    pub place: u8,
    /// The register, or the base.
    pub base: u8,
    /// The index.
    pub index: u8,
    /// What the index is multiplied by, as the two bits of a SIB byte: 0 to 3.
    pub scale: u8,
    /// The code of the trap that the access may raise, 0 for none.
    pub trap: u8,
    /// 1 where an offset is added to the displacement that is known late.
    pub has_offset: u8,
    /// Its key.
    pub offset: u8,
    /// 0.
    pub reserved: u8,
    /// The displacement in bytes.
    pub disp: i32,
    /// The number of the label or of the constant.
    pub target: u32,
}

/// The largest numbers that stand in a place of some kind: 0 of what it lacks.
struct Most {
    base: u8,
    index: u8,
    scale: u8,
    trap: u8,
    has_offset: u8,
    has_displacement: bool,
    has_target: bool,
}

const NOTHING: Most = Most {
    base: 0,
    index: 0,
    scale: 0,
    trap: 0,
    has_offset: 0,
    has_displacement: false,
    has_target: false,
};

const TARGET: Most = Most {
    has_target: true,
    ..NOTHING
};

/// By the number of the kind.
static MOST: [Most; 7] = [
    NOTHING,
    Most {
        base: 255,
        ..NOTHING
    },
    Most {
        base: 255,
        trap: 255,
        has_offset: 1,
        has_displacement: true,
        ..NOTHING
    },
    Most {
        base: 255,
        index: 255,
        scale: 3,
        trap: 255,
        has_displacement: true,
        ..NOTHING
    },
    TARGET,
    TARGET,
    NOTHING,
];

/// The number of a trap code, 0 for none.
fn trap_number(trap: Option<TrapCode>) -> u8
    ensures { result ≡ trap_number trap }
{
    match trap {
        None => 0,
        Some(code) => code.0.get(),
    }
}

/// The trap code of a number, none for 0.
fn trap_of(number: u8) -> Option<TrapCode>
    ensures { trap_number result ≡ number }
{
    match NonZeroU8::new(number) {
        None => None,
        Some(code) => Some(TrapCode(code)),
    }
}

/// The late offset of a key, where there is one.
fn offset_of(has_offset: u8, offset: u8) -> Option<KnownOffset>
    ensures { result ≡ offset_named has_offset offset }
{
    if has_offset == 1 { Some(offset) } else { None }
}

/// The kind of a place by its number.
#[inline(always)]
pub(crate) fn kind_of(place: u8) -> Option<PlaceKind>
    ensures some { IfSome result (λ kind. kind_number kind ≡ place) }
    ensures none { IfNone result (7 ≤ place) }
{
    match place {
        HQ_PLACE_NOTHING => Some(PlaceKind::Absent),
        HQ_PLACE_REGISTER => Some(PlaceKind::Register),
        HQ_PLACE_BASE => Some(PlaceKind::Base),
        HQ_PLACE_INDEX => Some(PlaceKind::BaseAndIndex),
        HQ_PLACE_LABEL => Some(PlaceKind::Label),
        HQ_PLACE_CONSTANT => Some(PlaceKind::Constant),
        HQ_PLACE_UNTOLD => Some(PlaceKind::NoTarget),
        _ => None,
    }
}

/// What is added to the index of a place, by the number of its kind: beside a base alone it's 4, which is none.
static NO_INDEX: [u8; 7] = [0, 0, gpr::enc::RSP, 0, 0, 0, 0];

/// By the two bits of a SIB byte.
static SCALES: [Scale; 4] = [Scale::One, Scale::Two, Scale::Four, Scale::Eight];

impl HqPlace {
    /// No place.
    const NOTHING: HqPlace = HqPlace {
        place: HQ_PLACE_NOTHING,
        base: 0,
        index: 0,
        scale: 0,
        trap: 0,
        has_offset: 0,
        offset: 0,
        reserved: 0,
        disp: 0,
        target: 0,
    };

    /// A place relative to the end.
    fn of_target(target: DeferredTarget) -> HqPlace
        ensures { result ≡ target_place target }
    {
        let (place, target) = match target {
            DeferredTarget::Label(label) => (HQ_PLACE_LABEL, label.0),
            DeferredTarget::Constant(constant) => (HQ_PLACE_CONSTANT, constant.0),
            DeferredTarget::None => (HQ_PLACE_UNTOLD, 0),
        };
        HqPlace {
            place,
            target,
            ..HqPlace::NOTHING
        }
    }

    /// The place of an instruction of the core.
    #[inline(always)]
    pub fn of(place: &CorePlace) -> HqPlace
        ensures { result ≡ plain_place (place_operand place.now) }
    {
        match *place {
            CorePlace::Absent => HqPlace::NOTHING,
            CorePlace::Register(number) => HqPlace {
                place: HQ_PLACE_REGISTER,
                base: number,
                ..HqPlace::NOTHING
            },
            CorePlace::Base {
                base,
                trap,
                offset,
                displacement,
            } => HqPlace {
                place: HQ_PLACE_BASE,
                base,
                trap: trap_number(trap),
                has_offset: u8::from(offset.is_some()),
                offset: offset.unwrap_or(0),
                disp: displacement.value(),
                ..HqPlace::NOTHING
            },
            CorePlace::BaseAndIndex {
                base,
                index,
                scale,
                trap,
                displacement,
            } => HqPlace {
                place: HQ_PLACE_INDEX,
                base,
                index,
                scale: scale.enc(),
                trap: trap_number(trap),
                disp: displacement.value(),
                ..HqPlace::NOTHING
            },
            CorePlace::Relative(target) => HqPlace::of_target(target),
        }
    }

    /// Whether each number is at most the one of these, and an offset has a key only where it stands.
    #[inline(always)]
    fn is_within(&self, most: &Most) -> bool
        ensures { result ≡ is_within most.now self.now }
    {
        (self.base <= most.base)
            & (self.index <= most.index)
            & (self.scale <= most.scale)
            & (self.trap <= most.trap)
            & (self.has_offset <= most.has_offset)
            & ((self.has_offset == 1) | (self.offset == 0))
            & (most.has_displacement | (self.disp == 0))
            & (most.has_target | (self.target == 0))
            & (self.reserved == 0)
    }

    /// Whether what a place of this kind, which is its own, lacks is 0, and the rest is in its range. Nothing is tested one after
    /// the other, since a branch on what a place is is often guessed wrong.
    #[inline(always)]
    fn is_whole(&self, kind: PlaceKind) -> bool
        requires { kind_number kind ≡ self.now.place }
        ensures { result ≡ is_whole kind self.now }
    {
        self.is_within(&MOST[usize::from(self.place)])
    }

    /// The numbers of the place that these integers are, which is of this kind.
    #[inline(always)]
    pub(crate) fn whole_numbers(&self, kind: PlaceKind) -> FlatPlace
        requires own { kind_number kind ≡ self.now.place }
        requires whole { is_whole kind self.now ≡ true }
        ensures is { plain_place (place_operand (viewed result)) ≡ self.now }
        ensures kind { result.kind ≡ kind }
        ensures base { result.base ≡ self.now.base }
        ensures index { result.index ≡ index_beside kind self.now.index }
        ensures offset { result.offset ≡ offset_named self.now.has_offset self.now.offset }
    {
        FlatPlace {
            kind,
            base: self.base,
            index: self.index + NO_INDEX[usize::from(self.place)],
            scale: SCALES[usize::from(self.scale)],
            trap: trap_of(self.trap),
            offset: offset_of(self.has_offset, self.offset),
            displacement: AmodeOffset::new(self.disp),
            target: self.target,
        }
    }

    /// The numbers of the place that these integers are. `None` where they are those of none: where `place` is above 6, the scale
    /// above 3, or something that the place lacks isn't 0.
    #[inline(always)]
    pub fn numbers(&self) -> Option<FlatPlace>
        ensures is { IfSome result (λ d. plain_place (place_operand (viewed d)) ≡ self.now) }
        ensures none { IfNone result ((p : CorePlace) → plain_place (place_operand p) ≢ self.now) }
    {
        let kind = kind_of(self.place)?;
        if !self.is_whole(kind) {
            return None;
        }
        Some(self.whole_numbers(kind))
    }

    /// The place that these integers are. `None` where they are those of none: where `place` is above 6, the scale above 3, or
    /// something that the place lacks isn't 0.
    #[inline(always)]
    pub fn place(&self) -> Option<CorePlace>
        ensures is { IfSome result (λ p. plain_place (place_operand p) ≡ self.now) }
        ensures none { IfNone result ((p : CorePlace) → plain_place (place_operand p) ≢ self.now) }
        ensures alone { IfSome result (λ q. (p : CorePlace) → plain_place (place_operand p) ≡ self.now → q ≡ p) }
    {
        let numbers = self.numbers()?;
        Some(CorePlace::of_numbers(&numbers))
    }
}
