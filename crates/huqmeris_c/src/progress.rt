//! How far a list was gone through.

/// How far a list of instructions or items was gone through, and what they have.
#[repr(C)]
#[derive(Clone, Copy, Debug, PartialEq)]
pub struct HqDone {
    /// How many instructions or items there are, or those before the first that is refused, which has this number.
    pub items: usize,
    /// How many bytes they have.
    pub bytes: usize,
    /// How many traps and targets they tell.
    pub uses: usize,
}

impl HqDone {
    /// Nothing yet.
    pub const NOTHING: HqDone = HqDone {
        items: 0,
        bytes: 0,
        uses: 0,
    };
}
