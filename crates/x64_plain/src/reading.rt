//! What is read of bytes, in integers.

ghost use Rattle.std.specs.Prelude.{◌≡◌, ◌≢◌, IfNone, IfSome, IsTrue};
ghost use Rattle.x64_plain.specs.NamedReading.{imm_named, index_named, number_named, part_in, part_named, rest_in, view_named};
ghost use Rattle.x64_plain.specs.Reading.{part_of, plain_reading, view_kind, view_number};
ghost use Rattle.x64_reader.specs.Reading.{line_reading};
ghost use Rattle.x64_reader.specs.declared.reading.CoreReading.{CoreReading};

use cax64_machine_code::reading::{Place, RegView};
use x64_lines::Op;
use x64_reader::CoreReading;

/// An operand that was read: nothing.
pub const HQ_READ_NOTHING: u8 = 0;

/// An operand that was read: a register.
pub const HQ_READ_REGISTER: u8 = 1;

/// An operand that was read: the high byte of one of the first four registers.
pub const HQ_READ_HIGH_BYTE: u8 = 2;

/// An operand that was read: memory.
pub const HQ_READ_MEMORY: u8 = 3;

/// An operand that was read: memory relative to the end of the instruction.
pub const HQ_READ_RELATIVE: u8 = 4;

/// An instruction of the core as it is read, in integers. What it lacks is 0.
#[repr(C)]
#[derive(Clone, Copy, Debug, PartialEq)]
pub struct HqReading {
    /// The immediate, unsigned or signed, as the line has it.
    pub imm: i64,
    /// The displacement of memory, or the distance from the end of the instruction, in bytes.
    pub disp: i32,
    /// The number of its line.
    pub line: u16,
    /// The number of its bytes, 1 to 13.
    pub length: u8,
    /// The number of bytes of ModR/M, SIB and displacement.
    pub tail: u8,
    /// What stands in the reg field of ModR/M: `HQ_READ_NOTHING`, `HQ_READ_REGISTER` or `HQ_READ_HIGH_BYTE`.
    pub reg_kind: u8,
    /// Its number: of a high byte 0 to 3.
    pub reg: u8,
    /// 1 where a register stands in vvvv of a VEX prefix.
    pub has_vvvv: u8,
    /// Its number.
    pub vvvv: u8,
    /// What the rest of the tail names: `HQ_READ_NOTHING` and the like.
    pub place_kind: u8,
    /// 1 where memory has a base.
    pub has_base: u8,
    /// The number of the register of the place, or of its base.
    pub base: u8,
    /// 1 where memory has an index.
    pub has_index: u8,
    /// Its number.
    pub index: u8,
    /// What it is multiplied by: 1, 2, 4 or 8.
    pub factor: u8,
    /// 1 where there is an immediate.
    pub has_imm: u8,
    /// 0.
    pub reserved: u8,
    /// 0.
    pub reserved_word: u32,
}

/// The place in integers.
#[derive(Clone, Copy, PartialEq)]
pub struct PlacePart {
    pub kind: u8,
    pub has_base: u8,
    pub base: u8,
    pub has_index: u8,
    pub index: u8,
    pub factor: u8,
    pub disp: i32,
}

/// All but the place.
#[derive(Clone, Copy, PartialEq)]
pub struct RestPart {
    pub imm: i64,
    pub line: u16,
    pub length: u8,
    pub tail: u8,
    pub reg_kind: u8,
    pub reg: u8,
    pub has_vvvv: u8,
    pub vvvv: u8,
    pub has_imm: u8,
    pub reserved: u8,
    pub reserved_word: u32,
}

fn view_kind(view: RegView) -> u8
    ensures { result ≡ view_kind view }
{
    match view {
        RegView::Low(_) => HQ_READ_REGISTER,
        RegView::High(_) => HQ_READ_HIGH_BYTE,
    }
}

fn view_number(view: RegView) -> u8
    ensures { result ≡ view_number view }
{
    match view {
        RegView::Low(number) => number,
        RegView::High(number) => number,
    }
}

/// Whether the places are the same.
fn same_part(one: &PlacePart, other: &PlacePart) -> bool
    ensures same { IsTrue result → one.now ≡ other.now }
    ensures all { one.now ≡ other.now → IsTrue result }
{
    one == other
}

/// Whether all but the place is the same.
fn same_rest(one: &RestPart, other: &RestPart) -> bool
    ensures same { IsTrue result → one.now ≡ other.now }
    ensures all { one.now ≡ other.now → IsTrue result }
{
    one == other
}

/// The register of a kind and a number, where there is one.
fn view_named(kind: u8, number: u8) -> Option<RegView>
    ensures { result ≡ view_named kind number }
{
    match kind {
        HQ_READ_REGISTER => Some(RegView::Low(number)),
        HQ_READ_HIGH_BYTE => Some(RegView::High(number)),
        _ => None,
    }
}

/// A number, where there is one.
fn number_named(stands: u8, number: u8) -> Option<u8>
    ensures { result ≡ number_named stands number }
{
    if stands == 1 { Some(number) } else { None }
}

/// An index and its factor, where there are.
fn index_named(stands: u8, index: u8, factor: u8) -> Option<(u8, u8)>
    ensures { result ≡ index_named stands index factor }
{
    if stands == 1 {
        Some((index, factor))
    } else {
        None
    }
}

/// An immediate, where there is one.
fn imm_named(stands: u8, imm: i64) -> Option<i64>
    ensures { result ≡ imm_named stands imm }
{
    if stands == 1 { Some(imm) } else { None }
}

impl PlacePart {
    /// No place.
    const NOTHING: PlacePart = PlacePart {
        kind: HQ_READ_NOTHING,
        has_base: 0,
        base: 0,
        has_index: 0,
        index: 0,
        factor: 0,
        disp: 0,
    };

    fn of(place: Option<Place>) -> PlacePart
        ensures { result ≡ part_of place }
    {
        match place {
            None => PlacePart::NOTHING,
            Some(Place::Reg(view)) => PlacePart {
                kind: view_kind(view),
                base: view_number(view),
                ..PlacePart::NOTHING
            },
            Some(Place::Mem { base, index, disp }) => {
                let (number, factor) = index.unwrap_or((0, 0));
                PlacePart {
                    kind: HQ_READ_MEMORY,
                    has_base: u8::from(base.is_some()),
                    base: base.unwrap_or(0),
                    has_index: u8::from(index.is_some()),
                    index: number,
                    factor,
                    disp,
                }
            }
            Some(Place::Rip(disp)) => PlacePart {
                kind: HQ_READ_RELATIVE,
                disp,
                ..PlacePart::NOTHING
            },
        }
    }
}

impl PlacePart {
    /// The place that these integers name, if any does. Of what it lacks nothing is tested.
    fn named(&self) -> Option<Place>
        ensures { result ≡ part_named self.now }
    {
        match self.kind {
            HQ_READ_MEMORY => Some(Place::Mem {
                base: number_named(self.has_base, self.base),
                index: index_named(self.has_index, self.index, self.factor),
                disp: self.disp,
            }),
            HQ_READ_RELATIVE => Some(Place::Rip(self.disp)),
            _ => match view_named(self.kind, self.base) {
                Some(view) => Some(Place::Reg(view)),
                None => None,
            },
        }
    }
}

impl HqReading {
    /// Nothing.
    pub const NOTHING: HqReading = HqReading {
        imm: 0,
        disp: 0,
        line: 0,
        length: 0,
        tail: 0,
        reg_kind: HQ_READ_NOTHING,
        reg: 0,
        has_vvvv: 0,
        vvvv: 0,
        place_kind: HQ_READ_NOTHING,
        has_base: 0,
        base: 0,
        has_index: 0,
        index: 0,
        factor: 0,
        has_imm: 0,
        reserved: 0,
        reserved_word: 0,
    };

    /// What it has of a place.
    fn part(&self) -> PlacePart
        ensures { result ≡ part_in self.now }
    {
        PlacePart {
            kind: self.place_kind,
            has_base: self.has_base,
            base: self.base,
            has_index: self.has_index,
            index: self.index,
            factor: self.factor,
            disp: self.disp,
        }
    }

    /// What it has beside a place.
    fn rest(&self) -> RestPart
        ensures { result ≡ rest_in self.now }
    {
        RestPart {
            imm: self.imm,
            line: self.line,
            length: self.length,
            tail: self.tail,
            reg_kind: self.reg_kind,
            reg: self.reg,
            has_vvvv: self.has_vvvv,
            vvvv: self.vvvv,
            has_imm: self.has_imm,
            reserved: self.reserved,
            reserved_word: self.reserved_word,
        }
    }

    /// Whether these are the same integers.
    fn is_same(&self, other: &HqReading) -> bool
        ensures same { IsTrue result → self.now ≡ other.now }
        ensures all { self.now ≡ other.now → IsTrue result }
    {
        same_part(&self.part(), &other.part()) && same_rest(&self.rest(), &other.rest())
    }

    /// The reading that these integers would be, of which what it lacks isn't tested.
    fn named(&self) -> Option<CoreReading>
        ensures none { IfNone result ((r : CoreReading) → plain_reading r.op.number (line_reading r) ≢ self.now) }
        ensures some { IfSome result (λ d. (r : CoreReading) → plain_reading r.op.number (line_reading r) ≡ self.now → d ≡ r) }
    {
        let op = Op::from_number(self.line)?;
        Some(CoreReading {
            op,
            length: self.length,
            tail: self.tail,
            reg: view_named(self.reg_kind, self.reg),
            vvvv: number_named(self.has_vvvv, self.vvvv),
            place: self.part().named(),
            imm: imm_named(self.has_imm, self.imm),
        })
    }

    /// The reading whose integers these are. `None` where they are those of none: where the line is none of the core, or
    /// something that the reading lacks isn't 0.
    pub fn reading(&self) -> Option<CoreReading>
        ensures is { IfSome result (λ r. plain_reading r.op.number (line_reading r) ≡ self.now) }
        ensures none { IfNone result ((r : CoreReading) → plain_reading r.op.number (line_reading r) ≢ self.now) }
        ensures alone { IfSome result (λ d. (r : CoreReading) → plain_reading r.op.number (line_reading r) ≡ self.now → d ≡ r) }
    {
        let reading = self.named()?;
        if HqReading::of(&reading).is_same(self) {
            Some(reading)
        } else {
            None
        }
    }

    /// What was read, in integers.
    pub fn of(reading: &CoreReading) -> HqReading
        ensures { result ≡ plain_reading reading.now.op.number (line_reading reading.now) }
    {
        let place = PlacePart::of(reading.place);
        let (reg_kind, reg) = match reading.reg {
            None => (HQ_READ_NOTHING, 0),
            Some(view) => (view_kind(view), view_number(view)),
        };
        HqReading {
            imm: reading.imm.unwrap_or(0),
            disp: place.disp,
            line: reading.op.number(),
            length: reading.length,
            tail: reading.tail,
            reg_kind,
            reg,
            has_vvvv: u8::from(reading.vvvv.is_some()),
            vvvv: reading.vvvv.unwrap_or(0),
            place_kind: place.kind,
            has_base: place.has_base,
            base: place.base,
            has_index: place.has_index,
            index: place.index,
            factor: place.factor,
            has_imm: u8::from(reading.imm.is_some()),
            reserved: 0,
            reserved_word: 0,
        }
    }
}
