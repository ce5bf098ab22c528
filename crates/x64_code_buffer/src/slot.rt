//! A position or none, in one word.

ghost use Rattle.std.specs.Prelude.{◌≡◌, ◌<◌, ◌^◌, Some, None};

/// A position, or none. It takes one word, where an `Option<usize>` takes two, and a buffer has one for each label.
#[derive(Clone, Copy)]
pub struct Slot {
    /// The number after the position, or 0.
    after: usize,
}

impl Slot {
    ghost use Rattle.x64_code_buffer.specs.Label.{slot_place};

    /// No position.
    #[inline(always)]
    pub fn empty() -> Slot
        ensures { slot_place result ≡ None }
    {
        Slot { after: 0 }
    }

    /// A position.
    #[inline(always)]
    pub fn of(place: usize) -> Slot
        requires { place < 2 ^ 63 }
        ensures { slot_place result ≡ Some place }
    {
        Slot { after: place + 1 }
    }

    /// The position, if there is one.
    #[inline(always)]
    pub fn place(self) -> Option<usize>
        ensures { result ≡ slot_place self }
    {
        if self.after == 0 {
            return None;
        }
        Some(self.after - 1)
    }
}
