//! The operands of an instruction, by the fields of its line.

ghost use Rattle.std.specs.Prelude.{◌≡◌, ◌<◌, ◌≤◌, ◌^◌, ◌*◌, ◌-◌, IfSome, option_map, true};
ghost use Rattle.cax64_machine_code.specs.Fields.{signed_of};
ghost use Rattle.cax64_machine_code.specs.Reading.{view_of, reg_view, reg_place, place_at, vvvv_at, imm_at, bare_operands, tail_operands, operands_of};
ghost use Rattle.cax64_table.specs.Cursor.{behind};
ghost use Rattle.cax64_reader.specs.Field.{is_register_8};
ghost use Rattle.cax64_reader.specs.Lengths.{HasSize};
ghost use Rattle.cax64_reader.specs.Range.{in_range, signed_below};
ghost use Rattle.cax64_reader.specs.Found.{found_of};
ghost use Rattle.cax64_reader.specs.Front.{prefix_of};

use crate::front::Front;
use crate::number::number;
use crate::tail::read_tail;
use cax64_machine_code::line::{
    ImmField, Line, PlaceField, PrefixField, RegField, TailField, VvvvField,
};
use cax64_machine_code::reading::{Place, RegView};

/// The operands that are found, what names their line, the number of bytes of the tail, and what follows them.
#[derive(Clone, Copy)]
pub struct Found<'a, K> {
    pub key: K,
    pub reg: Option<RegView>,
    pub vvvv: Option<u8>,
    pub place: Option<Place>,
    pub imm: Option<i64>,
    pub tail: u8,
    pub rest: &'a [u8],
}

/// A register by its number, at 8 bits where `eight`.
#[inline(always)]
fn view(eight: bool, rex: bool, number: u8) -> RegView
    ensures { result ≡ view_of eight rex number }
{
    if eight && !rex && 4 <= number && number <= 7 {
        return RegView::High(number - 4);
    }
    RegView::Low(number)
}

/// Whether the reg field holds an 8-bit register.
#[inline(always)]
fn is_eight(field: &RegField) -> bool
    ensures { result ≡ is_register_8 field.now }
{
    match field {
        RegField::Register8 => true,
        RegField::Digit(_) | RegField::Register => false,
    }
}

/// The register in the reg field, if the line has one. Where `CHOSEN`, it's made before it's known whether the line has one,
/// so that the compiler chooses without a branch. Which of the two takes less time depends on the table and on the caller.
#[inline(always)]
fn register<const CHOSEN: bool>(field: &RegField, front: &Front, reg: u8) -> Option<RegView>
    requires { reg < 8 }
    ensures { result ≡ reg_view field.now (prefix_of front.now) reg }
{
    let number = reg + 8 * u8::from(front.r);
    if CHOSEN {
        let view = view(is_eight(field), front.has_rex, number);
        return match field {
            RegField::Digit(_) => None,
            RegField::Register8 | RegField::Register => Some(view),
        };
    }
    match field {
        RegField::Digit(_) => None,
        RegField::Register8 => Some(view(true, front.has_rex, number)),
        RegField::Register => Some(view(false, front.has_rex, number)),
    }
}

/// A register in place of memory, where the row allows it.
#[inline(always)]
fn register_place(field: &PlaceField, front: &Front, view: RegView) -> Option<Place>
    ensures { result ≡ reg_place field.now (prefix_of front.now) view }
{
    match (field, view) {
        (PlaceField::Memory, _) => None,
        (PlaceField::RegisterOrMemory, _) => Some(Place::Reg(view)),
        (PlaceField::Register8OrMemory, RegView::Low(number)) => {
            Some(Place::Reg(self::view(true, front.has_rex, number)))
        }
        (PlaceField::Register8OrMemory, RegView::High(_)) => Some(Place::Reg(view)),
    }
}

/// The place that the tail names, where the row allows it.
#[inline(always)]
fn place(field: &PlaceField, front: &Front, place: Place) -> Option<Place>
    ensures { result ≡ place_at field.now (prefix_of front.now) place }
{
    match place {
        Place::Reg(view) => register_place(field, front, view),
        _ => Some(place),
    }
}

/// The register in vvvv, if the row has one.
#[inline(always)]
fn vvvv(field: &PrefixField, front: &Front) -> Option<u8>
    ensures { result ≡ vvvv_at field.now (prefix_of front.now) }
{
    match field {
        PrefixField::VexField(_, _, _, VvvvField::VvvvRegister) => Some(front.vvvv),
        _ => None,
    }
}

/// The number in so many bytes as a signed one.
#[inline(always)]
fn signed(size: u8, n: u32) -> i64
    requires least { 1 ≤ size }
    requires most { size ≤ 4 }
    requires fits { n < 256 ^ size }
    ensures value { result ≡ signed_of size n }
    ensures range { signed_below (2 ^ (8 * size - 1)) result ≡ true }
{
    let value = i64::from(n);
    let half = 1 << (8 * size - 1);
    if value < half {
        value
    } else {
        value - 2 * half
    }
}

/// The immediate at the front, if the row has one, and what follows it.
#[inline(always)]
fn imm<'a>(field: &ImmField, bytes: &'a [u8]) -> Option<(Option<i64>, &'a [u8])>
    requires { HasSize field.now }
    ensures is { behind result ≡ imm_at field.now bytes.now }
    ensures range { IfSome result (λ i. in_range field.now i.0 ≡ true) }
{
    match field {
        ImmField::NoImm => Some((None, bytes)),
        ImmField::Imm(size) => {
            let (n, rest) = number(*size, bytes)?;
            Some((Some(i64::from(n)), rest))
        }
        ImmField::Simm(size) => {
            let (n, rest) = number(*size, bytes)?;
            Some((Some(signed(*size, n)), rest))
        }
    }
}

/// The operands of a line without a tail.
#[inline(always)]
fn bare_operands<'a, K: Copy>(
    key: K,
    line: &Line,
    front: &Front,
    bytes: &'a [u8],
) -> Option<Found<'a, K>>
    requires { HasSize line.now.imm }
    ensures is { option_map found_of result ≡ bare_operands key line.now (prefix_of front.now) bytes.now }
    ensures range { IfSome result (λ f. in_range line.now.imm f.imm ≡ true) }
{
    let (imm, rest) = imm(&line.imm, bytes)?;
    Some(Found {
        key,
        reg: None,
        vvvv: vvvv(&line.prefix, front),
        place: None,
        imm,
        tail: 0,
        rest,
    })
}

/// The operands of a line with a tail of these fields.
#[inline(always)]
fn tail_operands<'a, K: Copy, const CHOSEN: bool>(
    key: K,
    line: &Line,
    reg: &RegField,
    field: &PlaceField,
    front: &Front,
    bytes: &'a [u8],
) -> Option<Found<'a, K>>
    requires { HasSize line.now.imm }
    ensures is { option_map found_of result ≡ tail_operands key line.now reg.now field.now (prefix_of front.now) bytes.now }
    ensures range { IfSome result (λ f. in_range line.now.imm f.imm ≡ true) }
{
    let tail = read_tail(front.x, front.b, bytes)?;
    let place = place(field, front, tail.place)?;
    let (imm, rest) = imm(&line.imm, tail.rest)?;
    Some(Found {
        key,
        reg: register::<CHOSEN>(reg, front, tail.reg),
        vvvv: vvvv(&line.prefix, front),
        place: Some(place),
        imm,
        tail: (bytes.len() - tail.rest.len()) as u8,
        rest,
    })
}

/// The operands behind the opcode of a line, which is of whatever table and is named there by this. What is answered doesn't
/// depend on `CHOSEN`: it tells how the register is made.
#[inline(always)]
pub fn operands<'a, K: Copy, const CHOSEN: bool>(
    key: K,
    line: &Line,
    front: &Front,
    bytes: &'a [u8],
) -> Option<Found<'a, K>>
    requires { HasSize line.now.imm }
    ensures is { option_map found_of result ≡ operands_of line.now.tail key line.now (prefix_of front.now) bytes.now }
    ensures range { IfSome result (λ f. in_range line.now.imm f.imm ≡ true) }
{
    match &line.tail {
        TailField::NoTail => bare_operands(key, line, front, bytes),
        TailField::Modrm(reg, field) => tail_operands::<K, CHOSEN>(
            key, line, reg, field, front, bytes,
        ),
    }
}
