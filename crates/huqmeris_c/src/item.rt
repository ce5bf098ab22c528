//! What is assembled, in integers.

use x64_plain::HqInst;

/// An item: an instruction.
pub const HQ_ITEM_INST: u32 = 0;

/// An item: the position of a label, which is that of what comes next.
pub const HQ_ITEM_LABEL: u32 = 1;

/// An item: a jump to a label, which is always taken.
pub const HQ_ITEM_JMP: u32 = 2;

/// An item: a call of a label.
pub const HQ_ITEM_CALL: u32 = 3;

/// An item: a jump to a label at overflow.
pub const HQ_ITEM_JO: u32 = 4;

/// An item: a jump to a label at no overflow.
pub const HQ_ITEM_JNO: u32 = 5;

/// An item: a jump to a label at below, of unsigned numbers.
pub const HQ_ITEM_JB: u32 = 6;

/// An item: a jump to a label at above or equal, of unsigned numbers.
pub const HQ_ITEM_JAE: u32 = 7;

/// An item: a jump to a label at equal.
pub const HQ_ITEM_JE: u32 = 8;

/// An item: a jump to a label at not equal.
pub const HQ_ITEM_JNE: u32 = 9;

/// An item: a jump to a label at below or equal, of unsigned numbers.
pub const HQ_ITEM_JBE: u32 = 10;

/// An item: a jump to a label at above, of unsigned numbers.
pub const HQ_ITEM_JA: u32 = 11;

/// An item: a jump to a label at sign.
pub const HQ_ITEM_JS: u32 = 12;

/// An item: a jump to a label at no sign.
pub const HQ_ITEM_JNS: u32 = 13;

/// An item: a jump to a label at parity even.
pub const HQ_ITEM_JP: u32 = 14;

/// An item: a jump to a label at parity odd.
pub const HQ_ITEM_JNP: u32 = 15;

/// An item: a jump to a label at less, of signed numbers.
pub const HQ_ITEM_JL: u32 = 16;

/// An item: a jump to a label at greater or equal, of signed numbers.
pub const HQ_ITEM_JGE: u32 = 17;

/// An item: a jump to a label at less or equal, of signed numbers.
pub const HQ_ITEM_JLE: u32 = 18;

/// An item: a jump to a label at greater, of signed numbers.
pub const HQ_ITEM_JG: u32 = 19;

/// An item: the position of a constant, which is that of what comes next. It is data: behind it only data and positions of labels
/// stand.
pub const HQ_ITEM_CONSTANT: u32 = 20;

/// An item: bytes, which are data too: the first of the 24 in which an instruction would stand, as many as the number says.
pub const HQ_ITEM_BYTES: u32 = 21;

/// An item: padding, which is data too: zeros, up to a multiple of 2 to the number, at most 6, from the first byte on.
pub const HQ_ITEM_ALIGN: u32 = 22;

/// What is assembled: an instruction, the position of a label, a jump to one, or data behind the code.
#[repr(C)]
#[derive(Clone, Copy, Debug, PartialEq)]
pub struct HqItem {
    /// Which it is: `HQ_ITEM_INST` and the like.
    pub kind: u32,
    /// The number of the label, below that of all items; that of the constant; how many bytes there are; or the power of
    /// 2 of padding. Of an instruction it isn't looked at.
    pub number: u32,
    /// The instruction, or the bytes. Of other items it isn't looked at.
    pub inst: HqInst,
}
