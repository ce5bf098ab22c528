//! The place of the core that numbers of operands are.

ghost use Rattle.std.specs.Prelude.{◌≡◌};
ghost use Rattle.cax64_encoder.specs.Numbered.{IsNumbered, place_named};
ghost use Rattle.x64_place.specs.Operand.{place_operand};
ghost use Rattle.x64_of_port.specs.Place.{kind_of, settled_kind, target_number};

use cax64_encoder::numbered::NumberedPlace;
use cax64_sink::{Constant, DeferredTarget, Label};
use x64_place::{FlatPlace, PlaceKind};

/// What stands where no target does.
#[inline(always)]
fn settled_kind(place: &NumberedPlace) -> PlaceKind
    ensures { result ≡ settled_kind place.now }
{
    if !place.stands {
        PlaceKind::Absent
    } else if place.is_register {
        PlaceKind::Register
    } else if place.has_index {
        PlaceKind::BaseAndIndex
    } else {
        PlaceKind::Base
    }
}

/// What stands there, and the number of the target.
#[inline(always)]
fn kind(place: &NumberedPlace) -> (PlaceKind, u32)
    ensures kind { result.0 ≡ kind_of place.now }
    ensures target { result.1 ≡ target_number place.now.relative }
{
    match place.relative {
        None => (settled_kind(place), 0),
        Some(DeferredTarget::Label(Label(number))) => (PlaceKind::Label, number),
        Some(DeferredTarget::Constant(Constant(number))) => (PlaceKind::Constant, number),
        Some(DeferredTarget::None) => (PlaceKind::NoTarget, 0),
    }
}

/// The place of these numbers.
#[inline(always)]
pub(crate) fn flat(place: &NumberedPlace) -> FlatPlace
    requires { IsNumbered place.now }
    ensures { place_operand result ≡ place_named place.now }
{
    let (kind, target) = kind(place);
    FlatPlace {
        kind,
        base: place.base,
        index: place.index,
        scale: place.scale,
        trap: place.trap,
        offset: place.displacement.offset,
        displacement: place.displacement.simm32,
        target,
    }
}
