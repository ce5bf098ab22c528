//! The place of an instruction of the core: a register, memory, or nothing.

ghost use Rattle.std.specs.Prelude.{◌≡◌, ◌<◌};
ghost use Rattle.cax64_address.specs.declared.amode.Amode.{Amode};
ghost use Rattle.cax64_encoder.specs.Fault.{first_unmet, late_fault};
ghost use Rattle.cax64_encoder.specs.Place.{memory_in};
ghost use Rattle.cax64_encoder.specs.declared.role.PlaceOperand.TheVariants.{Memory};
ghost use Rattle.x64_core.specs.Viewed.{viewed};

use crate::faults::{index_fault, offset_fault, plain_fault};
use cax64_address::amode::{Amode, Scale};
use cax64_address::offset::{AmodeOffset, AmodeOffsetPlusKnownOffset};
use cax64_encoder::Fault;
use cax64_register::NonRspGpr;
use cax64_sink::{CodeSink, Constant, DeferredTarget, KnownOffset, Label, TrapCode};
use x64_place::{FlatPlace, PlaceKind};

/// What stands in the rest of the tail, by numbers. (Intel SDM, volume 1, 3.7.5.)
#[derive(Clone, Copy, Debug, PartialEq)]
pub enum CorePlace {
    /// Nothing: the instruction has no such operand.
    Absent,
    /// A register.
    Register(u8),
    /// Memory at a base and a displacement in bytes, to which an offset may be added that the sink knows.
    Base {
        base: u8,
        trap: Option<TrapCode>,
        offset: Option<KnownOffset>,
        displacement: AmodeOffset,
    },
    /// Memory at a base, an index times its scale, and a displacement in bytes.
    BaseAndIndex {
        base: u8,
        index: u8,
        scale: Scale,
        trap: Option<TrapCode>,
        displacement: AmodeOffset,
    },
    /// Memory that is settled later, relative to the end of the instruction.
    Relative(DeferredTarget),
}

impl CorePlace {
    ghost use Rattle.x64_core.specs.Core.{place_visited};
    ghost use Rattle.x64_core.specs.View.{place_operand};

    /// Memory of this address.
    #[inline(always)]
    pub fn of_amode(amode: &Amode<u8>) -> CorePlace
        ensures { place_operand result ≡ Memory amode.now }
    {
        match *amode {
            Amode::ImmReg { base, simm32, trap } => CorePlace::Base {
                base,
                trap,
                offset: simm32.offset,
                displacement: simm32.simm32,
            },
            Amode::ImmRegRegShift {
                base,
                index,
                scale,
                simm32,
                trap,
            } => CorePlace::BaseAndIndex {
                base,
                index: *index.as_ref(),
                scale,
                trap,
                displacement: simm32,
            },
            Amode::RipRelative { target } => CorePlace::Relative(target),
        }
    }

    /// The place that these numbers are.
    #[inline(always)]
    pub fn of_numbers(place: &FlatPlace) -> CorePlace
        ensures { result ≡ viewed place.now }
    {
        match place.kind {
            PlaceKind::Absent => CorePlace::Absent,
            PlaceKind::Register => CorePlace::Register(place.base),
            PlaceKind::Base => CorePlace::Base {
                base: place.base,
                trap: place.trap,
                offset: place.offset,
                displacement: place.displacement,
            },
            PlaceKind::BaseAndIndex => CorePlace::BaseAndIndex {
                base: place.base,
                index: place.index,
                scale: place.scale,
                trap: place.trap,
                displacement: place.displacement,
            },
            PlaceKind::Label => CorePlace::Relative(DeferredTarget::Label(Label(place.target))),
            PlaceKind::Constant => {
                CorePlace::Relative(DeferredTarget::Constant(Constant(place.target)))
            }
            PlaceKind::NoTarget => CorePlace::Relative(DeferredTarget::None),
        }
    }

    /// Its numbers.
    #[inline(always)]
    pub(crate) fn numbers(&self) -> FlatPlace
        ensures { viewed result ≡ self.now }
    {
        match *self {
            CorePlace::Absent => FlatPlace::ABSENT,
            CorePlace::Register(number) => FlatPlace::register(number),
            CorePlace::Base {
                base,
                trap,
                offset,
                displacement,
            } => FlatPlace::of_amode(&Amode::ImmReg {
                base,
                simm32: AmodeOffsetPlusKnownOffset {
                    simm32: displacement,
                    offset,
                },
                trap,
            }),
            CorePlace::BaseAndIndex {
                base,
                index,
                scale,
                trap,
                displacement,
            } => FlatPlace::of_amode(&Amode::ImmRegRegShift {
                base,
                index: NonRspGpr::new(index),
                scale,
                simm32: displacement,
                trap,
            }),
            CorePlace::Relative(target) => FlatPlace::of_target(target),
        }
    }

    /// The fault of the first register that isn't as it has to be, the first of all being at this place.
    pub(crate) fn fault(&self, at: u8) -> Option<Fault>
        requires { at < 8 }
        ensures { result ≡ first_unmet at (place_visited (place_operand self.now)) }
    {
        match *self {
            CorePlace::Absent | CorePlace::Relative(_) => None,
            CorePlace::Register(number) => plain_fault(number, at),
            CorePlace::Base { base, .. } => plain_fault(base, at),
            CorePlace::BaseAndIndex { base, index, .. } => {
                if base < 16 {
                    index_fault(index, at + 1)
                } else {
                    Some(Fault::Register(at))
                }
            }
        }
    }

    /// The fault of the late offset.
    pub(crate) fn late_fault<S: CodeSink>(&self, sink: &S) -> Option<Fault>
        ensures { result ≡ late_fault (S.state sink.now).offsets (memory_in (place_operand self.now)) }
    {
        match *self {
            CorePlace::Base {
                offset: Some(offset),
                displacement,
                ..
            } => offset_fault(offset, displacement, sink),
            _ => None,
        }
    }
}
