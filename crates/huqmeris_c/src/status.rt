//! What a call answers of lists, items and texts, beside the statuses of `x64_plain`.

/// There are more than 165,191,049 instructions or items.
pub const HQ_TOO_MANY: i32 = 10;

/// The allocator gave no memory.
pub const HQ_NO_MEMORY: i32 = 11;

/// The integers are no item, or one of code behind data.
pub const HQ_BAD_ITEM: i32 = 12;

/// The label's number isn't below that of all items.
pub const HQ_BAD_LABEL: i32 = 13;

/// The label or the constant has a position already.
pub const HQ_BOUND_TWICE: i32 = 14;

/// A label or a constant that is referred to has no position.
pub const HQ_UNBOUND: i32 = 15;

/// A register has no name: it isn't below 16.
pub const HQ_NO_NAME: i32 = 21;
