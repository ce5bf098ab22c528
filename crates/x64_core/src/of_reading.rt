//! Instructions of the core of what was read from bytes.

ghost use Rattle.std.specs.Prelude.{◌≡◌, ◌&&◌, ◌^◌, ℕ, ℤ, IfSome, None, Option, Some, is_none, is_some, option_map, true};
ghost use Rattle.cax64_address.specs.Address.{scale_number};
ghost use Rattle.cax64_encoder.specs.Fault.{all_met, late_offset_fits};
ghost use Rattle.cax64_encoder.specs.Place.{displacement_in, memory_in, place_read};
ghost use Rattle.cax64_machine_code.specs.declared.reading.RegView.TheVariants.{Low};
ghost use Rattle.cax64_machine_code.specs.declared.reading.Place.TheVariants.{Mem};
ghost use Rattle.cax64_shortest.specs.LineParts.{line_parts};
ghost use Rattle.x64_core.specs.Core.{core_meant, is_encodable, place_visited};
ghost use Rattle.x64_core.specs.Fits.{place_fits};
ghost use Rattle.x64_core.specs.View.{core_view, place_operand};
ghost use Rattle.x64_lines.specs.declared.shapes.OpFields.{OpFields};
ghost use Rattle.x64_core.specs.OfReading.{index_given, is_bare, is_factor, is_low, number_given, operands_given, place_given, register_given};
ghost use Rattle.x64_reader.specs.Taken.{is_taken, place_taken};
ghost use Rattle.x64_reader.specs.Reading.{line_reading};

use crate::instruction::Core;
use crate::place::CorePlace;
use cax64_address::amode::Scale;
use cax64_address::offset::AmodeOffset;
use cax64_machine_code::reading::{Place, RegView};
use x64_reader::CoreReading;

/// The number of a register that isn't a high byte.
fn low(view: RegView) -> Option<u8>
    ensures some { is_some result ≡ is_low view }
    ensures number { IfSome result (λ number. view ≡ Low number) }
    ensures real { IfSome result (λ number. is_low (Low number) ≡ true) }
{
    match view {
        RegView::Low(number) if number < 16 => Some(number),
        _ => None,
    }
}

/// The register in reg, where one stands there and it isn't a high byte.
fn register(view: Option<RegView>) -> Option<Option<u8>>
    ensures some { is_some result ≡ register_given view }
    ensures number { IfSome result (λ number. view ≡ option_map Low number) }
    ensures real { IfSome result (λ number. number_given number ≡ true) }
{
    match view {
        Some(view) => Some(Some(low(view)?)),
        None => Some(None),
    }
}

/// The register in vvvv, where one stands there.
fn number(number: Option<u8>) -> Option<Option<u8>>
    ensures some { is_some result ≡ number_given number }
    ensures number { IfSome result (λ kept. kept ≡ number) }
    ensures real { IfSome result (λ kept. number_given kept ≡ true) }
{
    match number {
        Some(number) if number >= 16 => None,
        _ => Some(number),
    }
}

/// The scale of a factor.
fn scale_of(factor: u8) -> Option<Scale>
    ensures some { is_some result ≡ is_factor factor }
    ensures factor { IfSome result (λ scale. 2 ^ scale_number scale ≡ factor) }
{
    match factor {
        1 => Some(Scale::One),
        2 => Some(Scale::Two),
        4 => Some(Scale::Four),
        8 => Some(Scale::Eight),
        _ => None,
    }
}

/// Memory at a base, and an index times its factor if there is one.
fn memory(base: u8, index: Option<(u8, u8)>, disp: i32) -> Option<CorePlace>
    requires { is_low (Low base) ≡ true }
    ensures some { is_some result ≡ index_given index }
    ensures reads { IfSome result (λ p. (offsets : ℕ → Option ℤ) (at_end : ℕ) → Some (Mem (Some base) index disp) ≡ place_read (λ number. number) (displacement_in offsets (place_operand p)) at_end (place_operand p)) }
    ensures fits { IfSome result (λ p. (fields : OpFields) → place_fits fields p ≡ place_taken fields (Some (Mem (Some base) index disp))) }
    ensures real { IfSome result (λ p. all_met (place_visited (place_operand p)) ≡ true) }
    ensures bare { IfSome result (λ p. is_bare (place_operand p) ≡ true) }
{
    let displacement = AmodeOffset::new(disp);
    match index {
        Some((index, factor)) => {
            if index >= 16 || index == 4 {
                return None;
            }
            Some(CorePlace::BaseAndIndex {
                base,
                index,
                scale: scale_of(factor)?,
                trap: None,
                displacement,
            })
        }
        None => Some(CorePlace::Base {
            base,
            trap: None,
            offset: None,
            displacement,
        }),
    }
}

/// The place that an instruction keeps of one that was read.
fn place(place: Option<Place>) -> Option<CorePlace>
    ensures some { is_some result ≡ place_given place }
    ensures reads { IfSome result (λ p. (offsets : ℕ → Option ℤ) (at_end : ℕ) → place ≡ place_read (λ number. number) (displacement_in offsets (place_operand p)) at_end (place_operand p)) }
    ensures fits { IfSome result (λ p. (fields : OpFields) → place_fits fields p ≡ place_taken fields place) }
    ensures real { IfSome result (λ p. all_met (place_visited (place_operand p)) ≡ true) }
    ensures bare { IfSome result (λ p. is_bare (place_operand p) ≡ true) }
{
    match place {
        None => Some(CorePlace::Absent),
        Some(Place::Reg(view)) => Some(CorePlace::Register(low(view)?)),
        Some(
            Place::Mem {
                base: Some(base),
                index,
                disp,
            },
        ) => {
            if base >= 16 {
                return None;
            }
            memory(base, index, disp)
        }
        _ => None,
    }
}

impl Core {
    /// The instruction that is read as this, where the reading has an operand for each that its line takes and no other, and
    /// an immediate in its range. It has no trap code and no late offset, and can be encoded, whatever the sink.
    ///
    /// Of those that bytes have there is none of a high byte, as `ah`, of a place relative to the end, nor of memory without
    /// a base. The length isn't looked at: of two strings that are read alike it's the shortest that is put.
    pub fn of_reading(reading: &CoreReading) -> Option<Core>
        ensures some { is_some result ≡ (operands_given reading.now && is_taken reading.now) }
        ensures op { IfSome result (λ c. (core_view c).op ≡ reading.now.op.number) }
        ensures means { IfSome result (λ c. (offsets : ℕ → Option ℤ) → (core_meant (core_view c) offsets).parts ≡ line_parts (line_reading reading.now)) }
        ensures bare { IfSome result (λ c. is_bare (core_view c).place ≡ true) }
        ensures encodable { IfSome result (λ c. (offsets : ℕ → Option ℤ) → is_encodable offsets (core_view c) ≡ true) }
    {
        let reg = register(reading.reg)?;
        let vvvv = number(reading.vvvv)?;
        let place = place(reading.place)?;
        match Core::new(reading.op, reg, vvvv, place, reading.imm) {
            Ok(core) => Some(core),
            Err(_) => None,
        }
    }
}
