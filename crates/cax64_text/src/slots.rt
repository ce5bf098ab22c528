//! The operands as texts keep them.

ghost use Rattle.std.specs.Prelude.{◌≡◌, ◌++◌, ◌∷◌, ◌<◌, [], IsTrue, IfOk, IfSome, OnOk, true, if◌then◌else◌, string_bytes};
ghost use Rattle.cax64_text.specs.Operand.{first_of};
ghost use Rattle.cax64_text.specs.Slots.{listed_slots, no_slots, nop_slots, slot_nameable, slot_named, slot_piece, slot_still, slots_in_order, slots_nameable, slots_named, slots_text, with_slot};

use crate::head::{nop_text, push_head};
use crate::names::RegisterNames;
use crate::operand::{is_register, named_operand, operand_nameable};
use crate::piece::add_piece;
use crate::style::Style;
use cax64_address::text::Dialect;
use cax64_machine_code::row::Row;
use cax64_operand::{FromOperands, Nop, Operand};
use cax64_register::Registers;
use std::alloc::{AllocError, Allocator};

/// The operands in five places, each moved to its own and none borrowed: where the kinds of the operands are known, the
/// compiler keeps what is in them apart, and tells nothing apart when the program runs.
#[derive(Drop)]
pub struct Slots<R: Registers> {
    /// Which of the no-operations it is, if it is one.
    pub nop: Option<Nop>,
    /// Whether an operand that may be memory is a register.
    pub register: bool,
    pub first: Option<Operand<R>>,
    pub second: Option<Operand<R>>,
    pub third: Option<Operand<R>>,
    pub fourth: Option<Operand<R>>,
    pub fifth: Option<Operand<R>>,
}

impl<R: Registers> FromOperands<R> for Slots<R> {
    ghost made_of_none = { no_slots };

    ghost made_with = { with_slot };

    ghost made_of_nop = { nop_slots };

    #[inline(always)]
    fn none() -> Slots<R>
        ensures { result ≡ no_slots }
    {
        Slots {
            nop: None,
            register: false,
            first: None,
            second: None,
            third: None,
            fourth: None,
            fifth: None,
        }
    }

    #[inline(always)]
    fn with(self, operand: Operand<R>) -> Slots<R>
        ensures { result ≡ with_slot operand self }
    {
        Slots {
            nop: self.nop,
            register: is_register(&operand) | self.register,
            first: Some(operand),
            second: self.first,
            third: self.second,
            fourth: self.third,
            fifth: self.fourth,
        }
    }

    #[inline(always)]
    fn nop(nop: Nop) -> Slots<R>
        ensures { result ≡ nop_slots nop }
    {
        Slots {
            nop: Some(nop),
            register: false,
            first: None,
            second: None,
            third: None,
            fourth: None,
            fifth: None,
        }
    }
}

/// Whether the registers that are printed of what is in a place have texts.
#[inline(always)]
pub(crate) fn slot_nameable<R: Registers>(slot: &Option<Operand<R>>) -> bool
    ensures { result ≡ slot_nameable ⟦<R as RegisterNames>⟧.names slot.now }
{
    match slot {
        Some(operand) => operand_nameable(operand),
        None => true,
    }
}

#[inline(always)]
fn first_of(first: Option<u8>, later: Option<u8>) -> Option<u8>
    requires first { IfSome first (λ v. v < 32) }
    requires later { IfSome later (λ v. v < 32) }
    ensures value { result ≡ first_of first later }
    ensures known { IfSome result (λ v. v < 32) }
{
    match first {
        Some(value) => Some(value),
        None => later,
    }
}

#[inline(always)]
fn slot_named<R: Registers>(slot: &Option<Operand<R>>) -> Option<u8>
    ensures value { result ≡ slot_named slot.now }
    ensures known { IfSome result (λ v. v < 32) }
{
    match slot {
        Some(operand) => named_operand(operand),
        None => None,
    }
}

/// Adds what is in a place to a list, and says whether the next operand is still the first.
#[inline(always)]
fn add_slot<R: Registers, A: Allocator + Copy>(
    out: &mut String<A>,
    alloc: A,
    dialect: Dialect,
    row: Row,
    first: bool,
    slot: &Option<Operand<R>>,
) -> Result<bool, AllocError>
    requires { IsTrue (slot_nameable ⟦<R as RegisterNames>⟧.names slot.now) }
    ensures text { OnOk result (string_bytes out.new ≡ string_bytes out.old ++ slot_piece ⟦<R as RegisterNames>⟧.names dialect row first slot.now) }
    ensures first { IfOk result (λ still. still ≡ slot_still dialect first slot.now) }
{
    match slot {
        Some(operand) => add_piece(out, alloc, dialect, row, first, operand),
        None => Ok(first),
    }
}

/// Adds what is in five places, with commas between.
#[inline(always)]
fn add_five<R: Registers, A: Allocator + Copy>(
    out: &mut String<A>,
    alloc: A,
    dialect: Dialect,
    row: Row,
    a: &Option<Operand<R>>,
    b: &Option<Operand<R>>,
    c: &Option<Operand<R>>,
    d: &Option<Operand<R>>,
    e: &Option<Operand<R>>,
) -> Result<(), AllocError>
    requires a { IsTrue (slot_nameable ⟦<R as RegisterNames>⟧.names a.now) }
    requires b { IsTrue (slot_nameable ⟦<R as RegisterNames>⟧.names b.now) }
    requires c { IsTrue (slot_nameable ⟦<R as RegisterNames>⟧.names c.now) }
    requires d { IsTrue (slot_nameable ⟦<R as RegisterNames>⟧.names d.now) }
    requires e { IsTrue (slot_nameable ⟦<R as RegisterNames>⟧.names e.now) }
    ensures { OnOk result (string_bytes out.new ≡ string_bytes out.old ++ listed_slots ⟦<R as RegisterNames>⟧.names dialect row true (a.now ∷ b.now ∷ c.now ∷ d.now ∷ e.now ∷ [])) }
{
    let first = add_slot(out, alloc, dialect, row, true, a)?;
    let first = add_slot(out, alloc, dialect, row, first, b)?;
    let first = add_slot(out, alloc, dialect, row, first, c)?;
    let first = add_slot(out, alloc, dialect, row, first, d)?;
    add_slot(out, alloc, dialect, row, first, e)?;
    Ok(())
}

/// A place, from the front or from the end. To list all in the one order or in the other, the list would stand twice.
#[inline(always)]
fn place_at<'a, R: Registers>(
    forward: bool,
    front: &'a Option<Operand<R>>,
    end: &'a Option<Operand<R>>,
) -> &'a Option<Operand<R>>
    requires front { IsTrue (slot_nameable ⟦<R as RegisterNames>⟧.names front.now) }
    requires end { IsTrue (slot_nameable ⟦<R as RegisterNames>⟧.names end.now) }
    ensures value { result.now ≡ (if forward then front.now else end.now) }
    ensures nameable { IsTrue (slot_nameable ⟦<R as RegisterNames>⟧.names result.now) }
{
    if forward { front } else { end }
}

impl<R: Registers> Slots<R> {
    /// The predicate, where it has a name.
    #[inline(always)]
    fn named_predicate(&self) -> Option<u8>
        ensures value { result ≡ slots_named self.now }
        ensures known { IfSome result (λ v. v < 32) }
    {
        let named = slot_named(&self.fifth);
        let named = first_of(slot_named(&self.fourth), named);
        let named = first_of(slot_named(&self.third), named);
        let named = first_of(slot_named(&self.second), named);
        first_of(slot_named(&self.first), named)
    }

    /// Adds the operands: in the order of visits, or from the last to the first.
    #[inline(always)]
    fn add_list<A: Allocator + Copy>(
        &self,
        out: &mut String<A>,
        alloc: A,
        dialect: Dialect,
        row: Row,
        forward: bool,
    ) -> Result<(), AllocError>
        requires { IsTrue (slots_nameable ⟦<R as RegisterNames>⟧.names self.now) }
        ensures { OnOk result (string_bytes out.new ≡ string_bytes out.old ++ listed_slots ⟦<R as RegisterNames>⟧.names dialect row true (slots_in_order forward self.now)) }
    {
        let a = place_at(forward, &self.first, &self.fifth);
        let b = place_at(forward, &self.second, &self.fourth);
        let d = place_at(forward, &self.fourth, &self.second);
        let e = place_at(forward, &self.fifth, &self.first);
        add_five(out, alloc, dialect, row, a, b, &self.third, d, e)
    }

    /// Adds the text.
    #[inline(always)]
    pub fn add_text<A: Allocator + Copy>(
        &self,
        out: &mut String<A>,
        alloc: A,
        dialect: Dialect,
        row: Row,
    ) -> Result<(), AllocError>
        requires { IsTrue (slots_nameable ⟦<R as RegisterNames>⟧.names self.now) }
        ensures { OnOk result (string_bytes out.new ≡ string_bytes out.old ++ slots_text ⟦<R as RegisterNames>⟧.names dialect row self.now) }
    {
        if let Some(nop) = self.nop {
            return out.push_str(nop_text(dialect, nop));
        }
        let style = Style::new(row);
        let named = self.named_predicate();
        push_head(out, dialect, style, self.register, named, row)?;
        self.add_list(out, alloc, dialect, row, style.is_forward())
    }
}
