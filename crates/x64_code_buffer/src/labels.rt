//! Where labels are bound.

ghost use Rattle.std.specs.Prelude.{ℕ, ◌≡◌, ◌≢◌, ◌<◌, ◌≤◌, ◌+◌, ◌-◌, ◌^◌, Some, None, IfOk, IfErr, OnOk, IsOk, if◌then◌else◌, is_ok, vec_len, vec_capacity};
ghost use Rattle.x64_code_buffer.specs.declared.labels.TheConstants.{FIRST};
ghost use Rattle.cax64_sink.specs.declared.SinkError.{SinkError};

use crate::slot::Slot;
use cax64_sink::SinkError;
use std::alloc::Allocator;

/// How many labels have their position in the buffer itself. Most functions have no more.
const FIRST: usize = 16;

/// The positions of the labels that were given, by number. The first ones take no memory of their own.
#[derive(Drop)]
pub struct Labels<A: Allocator> {
    given: u32,
    first: [Slot; FIRST],
    others: Vec<Slot, A>,
    ghost behind: { vec_len others ≡ given - FIRST },
}

impl<A: Allocator> Labels<A> {
    ghost use Rattle.x64_code_buffer.specs.Label.{label_place, spare_labels};

    /// No label. Takes no memory.
    #[tactic(auto, unfolding(crate::specs::Label::label_place))]
    #[inline(always)]
    pub fn new(alloc: A) -> Self
        ensures given { result.given ≡ 0 }
        ensures places { (number : ℕ) → label_place result number ≡ None }
        ensures spare { spare_labels result ≡ FIRST }
    {
        Labels {
            given: 0,
            first: [Slot::empty(); FIRST],
            others: Vec::new(alloc),
        }
    }

    /// The allocator.
    pub fn allocator(&self) -> &A {
        self.others.allocator()
    }

    /// How many were given.
    #[inline(always)]
    pub fn given(&self) -> u32
        ensures { result ≡ self.now.given }
    {
        self.given
    }

    /// The position that the label of a number is bound to.
    #[tactic(auto, unfolding(crate::specs::Label::label_place))]
    #[inline(always)]
    pub fn place(&self, number: u32) -> Option<usize>
        ensures { result ≡ label_place self.now number }
    {
        if number >= self.given {
            return None;
        }
        let number = number as usize;
        if number < FIRST {
            self.first[number].place()
        } else {
            self.others[number - FIRST].place()
        }
    }

    /// Binds a label that was given.
    #[tactic(auto, unfolding(crate::specs::Label::label_place))]
    #[inline(always)]
    pub fn bind(&mut self, number: u32, place: usize)
        requires given { number < self.old.given }
        requires below { place < 2 ^ 63 }
        ensures given { self.new.given ≡ self.old.given }
        ensures spare { spare_labels self.new ≡ spare_labels self.old }
        ensures binds { label_place self.new number ≡ Some place }
        ensures others { (other : ℕ) → other ≢ number → label_place self.new other ≡ label_place self.old other }
    {
        let number = number as usize;
        if number < FIRST {
            self.first[number] = Slot::of(place);
        } else {
            self.others[number - FIRST] = Slot::of(place);
        }
    }

    /// Makes room for so many more.
    #[tactic(auto, unfolding(crate::specs::Label::label_place))]
    pub fn reserve(&mut self, count: usize) -> Result<(), SinkError>
        ensures spare { OnOk result (count ≤ spare_labels self.new) }
        ensures stays { spare_labels self.old ≤ spare_labels self.new }
        ensures succeeds { count ≤ spare_labels self.old → IsOk result }
        ensures no_memory { IfErr result (λ e. e ≡ SinkError.NoMemory) }
        ensures given { self.new.given ≡ self.old.given }
        ensures places { (number : ℕ) → label_place self.new number ≡ label_place self.old number }
    {
        let here = FIRST.saturating_sub(self.given as usize);
        self.others
            .reserve(count.saturating_sub(here))
            .map_err(|_| SinkError::NoMemory)
    }

    /// The next one, which isn't bound.
    #[tactic(auto, unfolding(crate::specs::Label::label_place))]
    #[inline(always)]
    pub fn give(&mut self) -> Result<u32, SinkError>
        requires { self.old.given < u32.MAX }
        ensures number { IfOk result (λ number. number ≡ self.old.given) }
        ensures given { self.new.given ≡ self.old.given + (if is_ok result then 1 else 0) }
        ensures enough { 1 ≤ spare_labels self.old → IsOk result }
        ensures no_memory { IfErr result (λ e. e ≡ SinkError.NoMemory) }
        ensures spare { spare_labels self.old ≤ spare_labels self.new + (if is_ok result then 1 else 0) }
        ensures places { (number : ℕ) → label_place self.new number ≡ label_place self.old number }
    {
        let number = self.given;
        if (number as usize) < FIRST {
            self.first[number as usize] = Slot::empty();
        } else {
            // Asked here, since the compiler calls what grows a `Vec` for each label where `push` alone asks.
            if self.others.len() == self.others.capacity() {
                self.grow()?;
            }
            self.others
                .push(Slot::empty())
                .map_err(|_| SinkError::NoMemory)?;
        }
        self.given = number + 1;
        Ok(number)
    }

    /// Makes room for a label where there is none: for as many as there are, and then twice the room.
    #[inline(never)]
    fn grow(&mut self) -> Result<(), SinkError>
        ensures room { OnOk result (vec_len self.new.others < vec_capacity self.new.others) }
        ensures stays { vec_capacity self.old.others ≤ vec_capacity self.new.others }
        ensures succeeds { vec_len self.old.others < vec_capacity self.old.others → IsOk result }
        ensures no_memory { IfErr result (λ e. e ≡ SinkError.NoMemory) }
        ensures given { self.new.given ≡ self.old.given }
        ensures first { self.new.first ≡ self.old.first }
        ensures items { self.new.others.items ≡ self.old.others.items }
    {
        let grown = if self.others.capacity() == 0 {
            self.others.reserve_exact(FIRST)
        } else {
            self.others.reserve(1)
        };
        grown.map_err(|_| SinkError::NoMemory)
    }

    /// Forgets all labels, and keeps the memory.
    #[tactic(auto, unfolding(crate::specs::Label::label_place))]
    pub fn clear(&mut self)
        ensures given { self.new.given ≡ 0 }
        ensures places { (number : ℕ) → label_place self.new number ≡ None }
        ensures spare { spare_labels self.new ≡ spare_labels self.old + self.old.given }
    {
        self.given = 0;
        self.others.clear();
    }
}
