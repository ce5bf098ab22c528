//! Where memory is refused, a part leaves a text as it was, and memory is asked for as plain forms ask for it, which
//! format each number and add it as one string: in strings with each room at their end, and in heaps of which each holds
//! some bytes more than the last.

use crate::parts::{Plain, indexed};
use arith::mulxl_rvm;
use cax64_address::amode::{Amode, Scale};
use cax64_address::number::{push_hex_digits, push_hexadecimal, push_short_number};
use cax64_address::offset::{AmodeOffset, AmodeOffsetPlusKnownOffset};
use cax64_address::operand::GprMem;
use cax64_address::text::Dialect;
use cax64_immediate::{Imm32, Simm32};
use cax64_operand::RowAndOperands;
use cax64_register::{AsReg, Fixed, Gpr, Size};
use cax64_test_support::TestHeap;
use cax64_text::InstructionText;
use jump::jmp_d32;
use lock_a::{lock_addl_mi, lock_addq_mi_sxl};
use std::alloc::{AllocError, Allocator, Global};

/// What is added to a text: a part of one, or the whole text of an instruction.
#[derive(Clone, Copy, Debug)]
enum Part {
    Digits(u64),
    Hexadecimal(u64),
    Short(u64),
    Added(u32),
    AddedExtended(i32),
    Jump(Dialect, i32),
    Displacement(Dialect, i32),
    Late(Dialect, u8, i32),
    Indexed(Dialect, Scale, i32),
    Product(i32),
}

const PARTS: [Part; 48] = [
    Part::Digits(0),
    Part::Digits(0xF),
    Part::Digits(0x10),
    Part::Digits(0xABC),
    Part::Digits(0x1_0000),
    Part::Digits(0xFFFF_FFFF),
    Part::Digits(0x1_0000_0000),
    Part::Digits(0xFFF_FFFF_FFFF_FFFF),
    Part::Digits(0xFFFF_FFFF_FFFF_FFFF),
    Part::Hexadecimal(0),
    Part::Hexadecimal(0xFF),
    Part::Hexadecimal(0x100),
    Part::Hexadecimal(0xFFFF),
    Part::Hexadecimal(0xF_FFFF),
    Part::Hexadecimal(0x1234_5678),
    Part::Hexadecimal(0x12_3456_789A),
    Part::Hexadecimal(0x123_4567_89AB_CDEF),
    Part::Hexadecimal(0x8000_0000_0000_0000),
    Part::Short(0),
    Part::Short(9),
    Part::Short(10),
    Part::Short(0xFFFF_FFFF_FFFF_FFFE),
    Part::Added(0),
    Part::Added(0xFFFF_FFFF),
    Part::AddedExtended(0),
    Part::AddedExtended(-1),
    Part::AddedExtended(0x7FFF_FFFF),
    Part::Jump(Dialect::Att, -6),
    Part::Jump(Dialect::Att, 4),
    Part::Jump(Dialect::Att, 5),
    Part::Jump(Dialect::Xed, -5),
    Part::Jump(Dialect::Xed, -6),
    Part::Displacement(Dialect::Att, 0),
    Part::Displacement(Dialect::Att, -9),
    Part::Displacement(Dialect::Att, -10),
    Part::Displacement(Dialect::Xed, -9),
    Part::Displacement(Dialect::Xed, -0x8000_0000),
    Part::Late(Dialect::Att, 0, 0),
    Part::Late(Dialect::Att, 9, 9),
    Part::Late(Dialect::Att, 10, -10),
    Part::Late(Dialect::Xed, 99, 0),
    Part::Late(Dialect::Xed, 100, 1),
    Part::Late(Dialect::Att, 255, -0x8000_0000),
    Part::Indexed(Dialect::Att, Scale::One, 0),
    Part::Indexed(Dialect::Att, Scale::Eight, -10),
    Part::Indexed(Dialect::Xed, Scale::One, 9),
    Part::Indexed(Dialect::Xed, Scale::Four, 0x7FFF_FFFF),
    Part::Product(0x40),
];

/// The room that the text of an instruction is begun with.
const ROOM: usize = 80;

const BASE: u8 = 5;

const INDEX: u8 = 9;

fn late(key: u8, displacement: i32) -> AmodeOffsetPlusKnownOffset {
    AmodeOffsetPlusKnownOffset {
        simm32: AmodeOffset::new(displacement),
        offset: Some(key),
    }
}

fn push_address<A: Allocator + Copy>(
    out: &mut String<A>,
    alloc: A,
    dialect: Dialect,
    address: Amode<u8>,
) -> Result<(), AllocError> {
    if !address.nameable() {
        return Ok(());
    }
    address.push_to(out, alloc, dialect)
}

fn push_instruction<I: RowAndOperands, A: Allocator + Copy>(
    out: &mut String<A>,
    alloc: A,
    inst: &I,
) -> Result<(), AllocError> {
    if !inst.nameable() {
        return Ok(());
    }
    let text = inst.to_string(alloc)?;
    out.push_str(text.as_str())
}

fn push_jump<A: Allocator + Copy>(
    out: &mut String<A>,
    alloc: A,
    dialect: Dialect,
    distance: i32,
) -> Result<(), AllocError> {
    let jump = jmp_d32::new(Simm32::new(distance));
    match dialect {
        Dialect::Att => push_instruction(out, alloc, &jump),
        Dialect::Xed => {
            let text = jump.to_string_xed(alloc)?;
            out.push_str(text.as_str())
        }
    }
}

fn place(displacement: i32) -> Amode<u8> {
    indexed(BASE, INDEX, Scale::Two, displacement)
}

fn added(value: u32) -> lock_addl_mi<Plain> {
    lock_addl_mi::new(place(0), Imm32::new(value))
}

fn added_extended(value: i32) -> lock_addq_mi_sxl<Plain> {
    lock_addq_mi_sxl::new(place(0), Simm32::new(value))
}

fn product(displacement: i32) -> mulxl_rvm<Plain> {
    let place = GprMem::Mem(place(displacement));
    mulxl_rvm::new(Gpr::new(1), Gpr::new(2), place, Fixed(2))
}

/// What was added to a text that was so long before, which is cut off again where a part of it was refused.
fn or_cut_off<A: Allocator>(
    out: &mut String<A>,
    len: usize,
    added: Result<(), AllocError>,
) -> Result<(), AllocError> {
    if added.is_err() && out.is_char_boundary(len) {
        out.truncate(len);
    }
    added
}

fn format_digits<A: Allocator>(
    out: &mut String<A>,
    global: Global,
    number: u64,
) -> Result<(), AllocError> {
    let text = format!(in global; "{number:x}")?;
    out.push_str(text.as_str())
}

fn format_hexadecimal<A: Allocator>(
    out: &mut String<A>,
    global: Global,
    number: u64,
) -> Result<(), AllocError> {
    let text = format!(in global; "0x{number:x}")?;
    out.push_str(text.as_str())
}

fn format_short<A: Allocator>(
    out: &mut String<A>,
    global: Global,
    number: u64,
) -> Result<(), AllocError> {
    if number >= 10 {
        return format_hexadecimal(out, global, number);
    }
    let text = format!(in global; "{number}")?;
    out.push_str(text.as_str())
}

fn format_by_dialect<A: Allocator>(
    out: &mut String<A>,
    global: Global,
    dialect: Dialect,
    number: u64,
) -> Result<(), AllocError> {
    match dialect {
        Dialect::Att => format_short(out, global, number),
        Dialect::Xed => format_hexadecimal(out, global, number),
    }
}

fn format_displacement<A: Allocator>(
    out: &mut String<A>,
    global: Global,
    dialect: Dialect,
    value: i32,
) -> Result<(), AllocError> {
    if value == 0 {
        return Ok(());
    }
    if value < 0 {
        out.push_str("-")?;
    }
    format_by_dialect(out, global, dialect, u64::from(value.unsigned_abs()))
}

fn format_late<A: Allocator>(
    out: &mut String<A>,
    global: Global,
    dialect: Dialect,
    key: u8,
    displacement: i32,
) -> Result<(), AllocError> {
    write!(out, "<offset:{key}>+")?;
    format_displacement(out, global, dialect, displacement)
}

fn scale_text(dialect: Dialect, scale: Scale) -> &'static str {
    match dialect {
        Dialect::Att => match scale {
            Scale::One => "",
            Scale::Two => ", 2",
            Scale::Four => ", 4",
            Scale::Eight => ", 8",
        },
        Dialect::Xed => match scale {
            Scale::One => ",1",
            Scale::Two => ",2",
            Scale::Four => ",4",
            Scale::Eight => ",8",
        },
    }
}

fn comma(dialect: Dialect) -> &'static str {
    match dialect {
        Dialect::Att => ", ",
        Dialect::Xed => ",",
    }
}

fn format_register<A: Allocator + Copy>(
    out: &mut String<A>,
    alloc: A,
    reg: u8,
    size: Size,
) -> Result<(), AllocError> {
    if !reg.nameable() {
        return Ok(());
    }
    reg.push_to(out, alloc, Some(size))
}

fn format_indexed<A: Allocator + Copy>(
    out: &mut String<A>,
    alloc: A,
    global: Global,
    dialect: Dialect,
    scale: Scale,
    displacement: i32,
) -> Result<(), AllocError> {
    format_displacement(out, global, dialect, displacement)?;
    out.push_str("(")?;
    format_register(out, alloc, BASE, Size::Quadword)?;
    out.push_str(comma(dialect))?;
    format_register(out, alloc, INDEX, Size::Quadword)?;
    out.push_str(scale_text(dialect, scale))?;
    out.push_str(")")
}

/// An immediate that is added to memory.
fn format_added<A: Allocator + Copy>(
    out: &mut String<A>,
    alloc: A,
    global: Global,
    name: &str,
    bits: u64,
) -> Result<(), AllocError> {
    let mut text = String::with_capacity(alloc, ROOM)?;
    write!(text, "{name} $0x{bits:x}, ")?;
    format_indexed(&mut text, alloc, global, Dialect::Att, Scale::Two, 0)?;
    out.push_str(text.as_str())
}

fn format_jump<A: Allocator + Copy>(
    out: &mut String<A>,
    alloc: A,
    global: Global,
    dialect: Dialect,
    distance: i32,
) -> Result<(), AllocError> {
    let mut text = String::with_capacity(alloc, ROOM)?;
    text.push_str("jmp ")?;
    let target = (i64::from(distance) + 5).cast_unsigned();
    format_by_dialect(&mut text, global, dialect, target)?;
    out.push_str(text.as_str())
}

fn format_product<A: Allocator + Copy>(
    out: &mut String<A>,
    alloc: A,
    global: Global,
    displacement: i32,
) -> Result<(), AllocError> {
    let mut text = String::with_capacity(alloc, ROOM)?;
    text.push_str("mulxl ")?;
    format_indexed(
        &mut text,
        alloc,
        global,
        Dialect::Att,
        Scale::Two,
        displacement,
    )?;
    text.push_str(", ")?;
    format_register(&mut text, alloc, 2, Size::Doubleword)?;
    text.push_str(", ")?;
    format_register(&mut text, alloc, 1, Size::Doubleword)?;
    out.push_str(text.as_str())
}

impl Part {
    fn push<A: Allocator + Copy>(self, out: &mut String<A>, alloc: A) -> Result<(), AllocError> {
        match self {
            Part::Digits(number) => push_hex_digits(out, number),
            Part::Hexadecimal(number) => push_hexadecimal(out, number),
            Part::Short(number) => push_short_number(out, number),
            Part::Added(value) => push_instruction(out, alloc, &added(value)),
            Part::AddedExtended(value) => push_instruction(out, alloc, &added_extended(value)),
            Part::Jump(dialect, distance) => push_jump(out, alloc, dialect, distance),
            Part::Displacement(dialect, value) => AmodeOffset::new(value).push_to(out, dialect),
            Part::Late(dialect, key, value) => late(key, value).push_to(out, dialect),
            Part::Indexed(dialect, scale, displacement) => {
                push_address(
                    out,
                    alloc,
                    dialect,
                    indexed(BASE, INDEX, scale, displacement),
                )
            }
            Part::Product(displacement) => push_instruction(out, alloc, &product(displacement)),
        }
    }

    fn format_parts<A: Allocator + Copy>(
        self,
        out: &mut String<A>,
        alloc: A,
        global: Global,
    ) -> Result<(), AllocError> {
        match self {
            Part::Digits(number) => format_digits(out, global, number),
            Part::Hexadecimal(number) => format_hexadecimal(out, global, number),
            Part::Short(number) => format_short(out, global, number),
            Part::Added(value) => format_added(out, alloc, global, "lock addl", u64::from(value)),
            Part::AddedExtended(value) => {
                let bits = i64::from(value).cast_unsigned();
                format_added(out, alloc, global, "lock addq", bits)
            }
            Part::Jump(dialect, distance) => format_jump(out, alloc, global, dialect, distance),
            Part::Displacement(dialect, value) => format_displacement(out, global, dialect, value),
            Part::Late(dialect, key, value) => format_late(out, global, dialect, key, value),
            Part::Indexed(dialect, scale, displacement) => {
                format_indexed(out, alloc, global, dialect, scale, displacement)
            }
            Part::Product(displacement) => format_product(out, alloc, global, displacement),
        }
    }

    fn format<A: Allocator + Copy>(
        self,
        out: &mut String<A>,
        alloc: A,
        global: Global,
    ) -> Result<(), AllocError> {
        let len = out.len();
        let added = self.format_parts(out, alloc, global);
        or_cut_off(out, len, added)
    }
}

/// A text that fills so many bytes of its memory.
fn started<A: Allocator>(
    alloc: A,
    capacity: usize,
    filled: usize,
) -> Result<String<A>, AllocError> {
    let mut out = String::with_capacity(alloc, capacity)?;
    for _ in 0..filled {
        out.push('x')?;
    }
    Ok(out)
}

/// How a part was added, in both ways.
#[derive(Clone, Copy, Debug, PartialEq)]
enum Outcome {
    NotStarted,
    Refused,
    Made,
    Differs,
}

/// The room of a text, of which so much is filled, and of the heap that it stands in.
#[derive(Clone, Copy, Debug)]
struct Room {
    capacity: usize,
    filled: usize,
    limit: usize,
}

/// Adds a part in one way and in the other, each to a text in a heap of its own.
fn both<A: Allocator + Copy, B: Allocator + Copy>(
    part: Part,
    room: Room,
    one: A,
    other: B,
    global: Global,
) -> Outcome {
    let Ok(mut pushed) = started(one, room.capacity, room.filled) else {
        return Outcome::NotStarted;
    };
    let Ok(mut formatted) = started(other, room.capacity, room.filled) else {
        return Outcome::Differs;
    };
    let (push, format) = (
        part.push(&mut pushed, one),
        part.format(&mut formatted, other, global),
    );
    if pushed.as_str() != formatted.as_str() || pushed.capacity() != formatted.capacity() {
        return Outcome::Differs;
    }
    match (push, format) {
        (Ok(()), Ok(())) => Outcome::Made,
        (Err(AllocError), Err(AllocError)) => {
            if pushed.len() != room.filled {
                Outcome::Differs
            } else {
                Outcome::Refused
            }
        }
        _ => Outcome::Differs,
    }
}

/// The same in heaps that hold so many bytes, and whether both give back all.
fn within(alloc: Global, part: Part, room: Room) -> Outcome {
    let one = TestHeap::holding(alloc, room.limit);
    let other = TestHeap::holding(alloc, room.limit);
    let outcome = both(part, room, &one, &other, alloc);
    if one.held() > 0 || other.held() > 0 {
        return Outcome::Differs;
    }
    outcome
}

/// How many heaps refused, each some bytes larger than the one before, until one was large enough; `None` where the two
/// ways differ.
fn refusals(alloc: Global, part: Part, capacity: usize, filled: usize) -> Option<u32> {
    let mut refused = 0u32;
    for step in 0..128usize {
        let room = Room {
            capacity,
            filled,
            limit: 4 * step,
        };
        match within(alloc, part, room) {
            Outcome::NotStarted => {}
            Outcome::Refused => refused = refused.saturating_add(1),
            Outcome::Made => return Some(refused),
            Outcome::Differs => return None,
        }
    }
    None
}

/// How many bytes a part adds.
fn bytes_of(alloc: Global, part: Part) -> Result<usize, AllocError> {
    let mut out = String::new(alloc);
    part.push(&mut out, alloc)?;
    Ok(out.len())
}

#[test]
fn a_refusal_leaves_what_a_plain_form_leaves(rt: HostRuntime) {
    for part in PARTS {
        let bytes = bytes_of(rt.alloc(), part).expect(&rt, "memory");
        for capacity in 0..25usize {
            for filled in 0..capacity + 1 {
                let Some(refused) = refusals(rt.alloc(), part, capacity, filled) else {
                    assert!(rt;
                        false,
                        "{part:?} in {capacity}, of which {filled} are filled"
                    );
                    return;
                };
                // What doesn't fit asks for more, which the smallest heap that holds the text hasn't.
                assert!(rt;
                    refused > 0 || filled.saturating_add(bytes) <= capacity,
                    "{part:?} behind {filled} of {capacity}"
                );
            }
        }
    }
}
