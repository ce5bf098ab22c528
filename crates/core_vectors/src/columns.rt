//! The columns of a line.

use cax64_address::amode::{Amode, Scale};
use cax64_address::offset::{AmodeOffset, AmodeOffsetPlusKnownOffset};
use cax64_register::NonRspGpr;
use std::str::FromStr;
use x64_core::CorePlace;

/// The value that a text is, or none.
pub(crate) fn value_of<T: FromStr>(text: &str) -> Option<T>
where
    T::Err: Drop,
{
    T::from_str(text).ok()
}

/// Nothing of `-`, and else what a text is.
pub(crate) fn optional<T: FromStr>(text: &str) -> Option<Option<T>>
where
    T::Err: Drop,
{
    match text {
        "-" => Some(None),
        given => Some(Some(value_of(given)?)),
    }
}

fn scale_of(text: &str) -> Option<Scale> {
    match text {
        "1" => Some(Scale::One),
        "2" => Some(Scale::Two),
        "4" => Some(Scale::Four),
        "8" => Some(Scale::Eight),
        _ => None,
    }
}

/// The address of a base and a displacement, or of a base, an index, its scale and a displacement.
fn amode_of(text: &str) -> Option<Amode<u8>> {
    let mut pieces = text.split(':');
    let base = value_of(pieces.next()?)?;
    let second = pieces.next()?;
    let Some(scale) = pieces.next() else {
        return Some(Amode::ImmReg {
            base,
            simm32: AmodeOffsetPlusKnownOffset {
                simm32: AmodeOffset::new(value_of(second)?),
                offset: None,
            },
            trap: None,
        });
    };
    Some(Amode::ImmRegRegShift {
        base,
        index: NonRspGpr::new(value_of(second)?),
        scale: scale_of(scale)?,
        simm32: AmodeOffset::new(value_of(pieces.next()?)?),
        trap: None,
    })
}

/// What the rest of the tail names: nothing, `r` and a register's number, or an address.
pub(crate) fn place_of(text: &str) -> Option<CorePlace> {
    if text == "-" {
        return Some(CorePlace::Absent);
    }
    if let Some(number) = text.strip_prefix('r') {
        return Some(CorePlace::Register(value_of(number)?));
    }
    Some(CorePlace::of_amode(&amode_of(text)?))
}
