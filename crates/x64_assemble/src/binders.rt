//! Where a list binds its labels.

ghost use Rattle.std.specs.Prelude.{◌≡◌};
ghost use Rattle.x64_assemble.specs.Putting.{spot_noted};

use crate::item::Item;
use cax64_sink::Label;

/// A note of where a label is bound. It may be of a list before: it counts where the item that it names binds the label, so
/// that nothing has to be taken back once a list is done with.
#[derive(Clone, Copy, Debug)]
pub struct Binder {
    /// The item that binds the label, by number.
    pub item: u32,
    /// How many instructions and jumps stand in front of it.
    pub spot: u32,
}

/// How many instructions and jumps stand in front of the position of a label, by the notes of all labels, if one counts.
pub(crate) fn spot_in<I>(items: &[Item<I>], binders: &[Binder], label: Label) -> Option<u32>
    ensures { result ≡ spot_noted items.now binders.now label.0 }
{
    let binder = binders.get(label.0 as usize)?;
    match items.get(binder.item as usize)? {
        Item::Inst(_) => None,
        Item::Jump(_, _) => None,
        Item::Bind(bound) => {
            if bound.0 == label.0 {
                Some(binder.spot)
            } else {
                None
            }
        }
    }
}
