//! What is open where a statement stands.

use huqmeris::Label;

#[derive(Clone, Copy)]
pub(crate) enum Block {
    /// A loop: its top, and what stands behind it.
    While { top: Label, behind: Label },
    /// What stands behind the first part of an `if`.
    If { otherwise: Label },
    /// What stands behind both parts.
    Else { behind: Label },
}
