//! Instructions that do nothing, of one to nine bytes.

/// A no-operation of this many bytes. (Intel SDM, volume 2, `NOP`, table 4-12.)
#[derive(Clone, Copy, Debug, PartialEq)]
pub enum Nop {
    One,
    Two,
    Three,
    Four,
    Five,
    Six,
    Seven,
    Eight,
    Nine,
}
