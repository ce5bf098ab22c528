//! Which places a line takes.

ghost use Rattle.std.specs.Prelude.{◌≡◌};
ghost use Rattle.x64_core.specs.Fits.{place_fits};
ghost use Rattle.x64_core.specs.Viewed.{viewed};

use x64_lines::shapes::OpFields;
use x64_place::{FlatPlace, PlaceKind};

/// Whether a line of these fields takes the place. Nothing is tested one after the other, since a branch on what a place is
/// is often guessed wrong.
#[inline(always)]
pub(crate) fn takes(fields: OpFields, place: &FlatPlace) -> bool
    ensures { result ≡ place_fits fields (viewed place.now) }
{
    let is_absent = matches!(place.kind, PlaceKind::Absent);
    let is_register = matches!(place.kind, PlaceKind::Register);
    (is_absent != fields.has_mem()) & (!is_register | fields.has_rm())
}
