//! What labels and constants are bound to.

ghost use Rattle.std.specs.Prelude.{ℕ, ◌≡◌, ◌≢◌, ◌↔◌, ◌+◌, ◌^◌, ◌⊎◌, ◌<◌, ◌≤◌, Some, None, Ok, Err, IfOk, IfErr, OnOk, OnErr, IsOk, MatchOption, option_and_then, if◌then◌else◌, is_ok, length, nat_eq};
ghost use Rattle.std.specs.HashMap.{get};
ghost use Rattle.x64_code_buffer.specs.Label.{spare_labels};
ghost use Rattle.x64_code_buffer.specs.declared.labels.TheConstants.{FIRST};
ghost use Rattle.x64_code_buffer.specs.declared.errors.BindError.{BindError};
ghost use Rattle.cax64_sink.specs.declared.SinkError.{SinkError};

use crate::errors::BindError;
use crate::labels::Labels;
use crate::slot::Slot;
use cax64_sink::{Constant, DeferredTarget, Label, SinkError};
use std::alloc::{AllocError, Allocator};
use std::collections::HashMap;
use std::hash::{BuildHasherDefault, FoldHasher};

/// How near behind the end of the list a key has to be to be listed. A constant adds no more slots to it than these.
const NEAR: usize = 16;

/// Places by the keys of constants.
type Places<A> = HashMap<u32, usize, BuildHasherDefault<FoldHasher>, A>;

/// The positions of the labels that were given, by number, and of the constants that are bound.
///
/// Constants are mostly numbered from 0 on, and bound in about this order. One with a key of the list, or near behind it, is
/// listed by key, where there is memory for the list: it takes one block, and finds a constant without hashing. A map has
/// all others. It is made at the first of these: an empty one is made and dropped at a price that a small buffer notices.
#[derive(Drop)]
pub struct Bindings<A: Allocator> {
    labels: Labels<A>,
    listed: Vec<Slot, A>,
    others: Option<Places<A>>,
}

impl<A: Allocator + Copy> Bindings<A> {
    ghost use Rattle.x64_code_buffer.specs.Binding.{place_bound};
    ghost use Rattle.cax64_sink.specs.declared.DeferredTarget.{DeferredTarget};

    /// No label and no constant. Takes no memory.
    #[inline(always)]
    pub fn new(alloc: A) -> Self
        ensures places { (target : DeferredTarget) → place_bound result target ≡ None }
        ensures labels { result.labels.given ≡ 0 }
        ensures spare { spare_labels result.labels ≡ FIRST }
    {
        Bindings {
            labels: Labels::new(alloc),
            listed: Vec::new(alloc),
            others: None,
        }
    }
}

impl<A: Allocator> Bindings<A> {
    ghost use Rattle.x64_code_buffer.specs.Binding.{place_bound, SamePlaces, AddsBinding, bind_answer};
    ghost use Rattle.cax64_sink.specs.declared.DeferredTarget.{DeferredTarget};

    /// The position that a target is bound to.
    #[inline(always)]
    pub fn place_of(&self, target: DeferredTarget) -> Option<usize>
        ensures { result ≡ place_bound self.now target }
    {
        match target {
            DeferredTarget::Label(Label(number)) => self.labels.place(number),
            DeferredTarget::Constant(constant) => self.constant_place(constant),
            DeferredTarget::None => None,
        }
    }

    /// The position that a constant is bound to.
    #[inline(always)]
    fn constant_place(&self, constant: Constant) -> Option<usize>
        ensures { result ≡ place_bound self.now (DeferredTarget.Constant constant) }
    {
        if let Some(slot) = self.listed.get(constant.0 as usize) {
            if let Some(place) = slot.place() {
                return Some(place);
            }
        }
        self.other_place(constant)
    }

    /// The position that the map has for a constant. It stays out of the code for labels and for constants in the list.
    #[inline(never)]
    fn other_place(&self, constant: Constant) -> Option<usize>
        ensures { result ≡ option_and_then (λ others. get nat_eq others constant.0) self.now.others }
    {
        self.others.as_ref()?.get(&constant.0).copied()
    }

    /// How many labels were given.
    #[inline(always)]
    pub fn label_count(&self) -> u32
        ensures { result ≡ self.now.labels.given }
    {
        self.labels.given()
    }

    /// Makes room for the positions of so many more labels.
    pub fn reserve_labels(&mut self, count: usize) -> Result<(), SinkError>
        ensures spare { OnOk result (count ≤ spare_labels self.new.labels) }
        ensures stays { spare_labels self.old.labels ≤ spare_labels self.new.labels }
        ensures succeeds { count ≤ spare_labels self.old.labels → IsOk result }
        ensures no_memory { IfErr result (λ e. e ≡ SinkError.NoMemory) }
        ensures places { SamePlaces (place_bound self.old) (place_bound self.new) }
        ensures labels { self.new.labels.given ≡ self.old.labels.given }
    {
        self.labels.reserve(count)
    }

    /// The next label, with a slot for its binding.
    #[inline(always)]
    pub fn new_label(&mut self) -> Result<Label, SinkError>
        ensures number { IfOk result (λ label. label.0 ≡ self.old.labels.given) }
        ensures count { self.new.labels.given ≡ self.old.labels.given + (if is_ok result then 1 else 0) }
        ensures full { (result ≡ Err SinkError.Full) ↔ (self.old.labels.given ≡ u32.MAX) }
        ensures enough { 1 ≤ spare_labels self.old.labels → IfErr result (λ e. e ≡ SinkError.Full) }
        ensures spare { spare_labels self.old.labels ≤ spare_labels self.new.labels + (if is_ok result then 1 else 0) }
        ensures places { SamePlaces (place_bound self.old) (place_bound self.new) }
    {
        if self.labels.given() == u32::MAX {
            return Err(SinkError::Full);
        }
        self.labels.give().map(Label)
    }

    /// Binds a label that was given to a position.
    pub fn bind(&mut self, label: Label, place: usize) -> Result<(), BindError>
        requires { place < 2 ^ 63 }
        ensures answer { result ≡ bind_answer self.old.labels.given label.0 (place_bound self.old (DeferredTarget.Label label)) }
        ensures binds { OnOk result (AddsBinding (DeferredTarget.Label label) place (place_bound self.old) (place_bound self.new)) }
        ensures unchanged { OnErr result (SamePlaces (place_bound self.old) (place_bound self.new)) }
        ensures labels { self.new.labels.given ≡ self.old.labels.given }
        ensures spare { spare_labels self.new.labels ≡ spare_labels self.old.labels }
    {
        if label.0 >= self.labels.given() {
            return Err(BindError::Unknown);
        }
        if self.labels.place(label.0).is_some() {
            return Err(BindError::Twice);
        }
        self.labels.bind(label.0, place);
        Ok(())
    }

    /// Forgets all labels and constants, and keeps the memory.
    pub fn clear(&mut self)
        ensures places { (target : DeferredTarget) → place_bound self.new target ≡ None }
        ensures labels { self.new.labels.given ≡ 0 }
        ensures spare { spare_labels self.new.labels ≡ spare_labels self.old.labels + self.old.labels.given }
    {
        self.labels.clear();
        self.listed.clear();
        if let Some(others) = &mut self.others {
            others.clear();
        }
    }
}

impl<A: Allocator + Clone> Bindings<A> {
    ghost use Rattle.x64_code_buffer.specs.Binding.{place_bound, SamePlaces, AddsBinding};
    ghost use Rattle.cax64_sink.specs.declared.DeferredTarget.{DeferredTarget};

    /// Binds a constant to a position. Where the list can't grow, the map has it.
    pub fn bind_constant(&mut self, constant: Constant, place: usize) -> Result<(), BindError>
        requires { place < 2 ^ 63 }
        ensures answer { MatchOption (place_bound self.old (DeferredTarget.Constant constant)) ((result ≡ Ok tt) ⊎ (result ≡ Err BindError.NoMemory)) (λ _. result ≡ Err BindError.Twice) }
        ensures binds { OnOk result (AddsBinding (DeferredTarget.Constant constant) place (place_bound self.old) (place_bound self.new)) }
        ensures unchanged { OnErr result (SamePlaces (place_bound self.old) (place_bound self.new)) }
        ensures labels { self.new.labels.given ≡ self.old.labels.given }
        ensures spare { spare_labels self.new.labels ≡ spare_labels self.old.labels }
    {
        let key = constant.0 as usize;
        if key.saturating_sub(self.listed.len()) < NEAR {
            if self.constant_place(constant).is_some() {
                return Err(BindError::Twice);
            }
            if self.list_up_to(key).is_ok() {
                self.listed[key] = Slot::of(place);
                return Ok(());
            }
        }
        self.bind_other(constant, place)
    }

    /// Binds a constant that isn't listed, in the map.
    fn bind_other(&mut self, constant: Constant, place: usize) -> Result<(), BindError>
        requires { length self.old.listed.items ≤ constant.0 }
        ensures answer { MatchOption (place_bound self.old (DeferredTarget.Constant constant)) ((result ≡ Ok tt) ⊎ (result ≡ Err BindError.NoMemory)) (λ _. result ≡ Err BindError.Twice) }
        ensures binds { OnOk result (AddsBinding (DeferredTarget.Constant constant) place (place_bound self.old) (place_bound self.new)) }
        ensures unchanged { OnErr result (SamePlaces (place_bound self.old) (place_bound self.new)) }
        ensures labels { self.new.labels.given ≡ self.old.labels.given }
        ensures spare { spare_labels self.new.labels ≡ spare_labels self.old.labels }
    {
        if let Some(others) = &mut self.others {
            return bind_in(others, constant.0, place);
        }
        let alloc = self
            .labels
            .allocator()
            .clone()
            .map_err(|_| BindError::NoMemory)?;
        let mut others = HashMap::new(alloc);
        let bound = bind_in(&mut others, constant.0, place);
        self.others = Some(others);
        bound
    }

    /// Makes the list long enough for a key.
    fn list_up_to(&mut self, key: usize) -> Result<(), AllocError>
        requires { key < 2 ^ 32 }
        ensures there { OnOk result (key < length self.new.listed.items) }
        ensures short { OnErr result (length self.new.listed.items ≤ key) }
        ensures places { SamePlaces (place_bound self.old) (place_bound self.new) }
        ensures labels { self.new.labels.given ≡ self.old.labels.given }
        ensures spare { spare_labels self.new.labels ≡ spare_labels self.old.labels }
    {
        if key < self.listed.len() {
            return Ok(());
        }
        self.listed.resize(key + 1, Slot::empty())
    }
}

/// Binds the constant with a key in a map.
fn bind_in<A: Allocator + Clone>(
    others: &mut Places<A>,
    key: u32,
    place: usize,
) -> Result<(), BindError>
    ensures answer { MatchOption (get nat_eq others.old key) ((result ≡ Ok tt) ⊎ (result ≡ Err BindError.NoMemory)) (λ _. result ≡ Err BindError.Twice) }
    ensures free { OnOk result (get nat_eq others.old key ≡ None) }
    ensures binds { OnOk result (get nat_eq others.new key ≡ Some place) }
    ensures others { OnOk result ((other : ℕ) → other ≢ key → get nat_eq others.new other ≡ get nat_eq others.old other) }
    ensures unchanged { OnErr result ((other : ℕ) → get nat_eq others.new other ≡ get nat_eq others.old other) }
{
    match others.insert(key, place) {
        Ok(None) => Ok(()),
        Ok(Some(bound)) => {
            let _ = others.insert(key, bound);
            Err(BindError::Twice)
        }
        Err(_) => Err(BindError::NoMemory),
    }
}
