//! How an instruction extends a signed immediate.

/// What the text of a signed immediate extends it to. (Intel SDM, volume 2, 3.1.1.3.)
#[derive(Clone, Copy, Debug, PartialEq)]
pub enum Extension {
    /// Its own width.
    None,
    SignExtendQuad,
    SignExtendLong,
    SignExtendWord,
}
