//! Kinds of jumps.

ghost use Rattle.std.specs.Prelude.{◌≡◌};
ghost use Rattle.huqmeris_c.specs.Items.{jump_named};

use crate::item::{
    HQ_ITEM_CALL, HQ_ITEM_JA, HQ_ITEM_JAE, HQ_ITEM_JB, HQ_ITEM_JBE, HQ_ITEM_JE, HQ_ITEM_JG,
    HQ_ITEM_JGE, HQ_ITEM_JL, HQ_ITEM_JLE, HQ_ITEM_JMP, HQ_ITEM_JNE, HQ_ITEM_JNO, HQ_ITEM_JNP,
    HQ_ITEM_JNS, HQ_ITEM_JO, HQ_ITEM_JP, HQ_ITEM_JS,
};
use x64_code_buffer::{Condition, Jump};

/// The jump of a kind of items.
pub(crate) fn jump_of(kind: u32) -> Option<Jump>
    ensures { result ≡ jump_named kind }
{
    match kind {
        HQ_ITEM_JMP => Some(Jump::Always),
        HQ_ITEM_CALL => Some(Jump::Call),
        HQ_ITEM_JO => Some(Jump::If(Condition::O)),
        HQ_ITEM_JNO => Some(Jump::If(Condition::No)),
        HQ_ITEM_JB => Some(Jump::If(Condition::B)),
        HQ_ITEM_JAE => Some(Jump::If(Condition::Ae)),
        HQ_ITEM_JE => Some(Jump::If(Condition::E)),
        HQ_ITEM_JNE => Some(Jump::If(Condition::Ne)),
        HQ_ITEM_JBE => Some(Jump::If(Condition::Be)),
        HQ_ITEM_JA => Some(Jump::If(Condition::A)),
        HQ_ITEM_JS => Some(Jump::If(Condition::S)),
        HQ_ITEM_JNS => Some(Jump::If(Condition::Ns)),
        HQ_ITEM_JP => Some(Jump::If(Condition::P)),
        HQ_ITEM_JNP => Some(Jump::If(Condition::Np)),
        HQ_ITEM_JL => Some(Jump::If(Condition::L)),
        HQ_ITEM_JGE => Some(Jump::If(Condition::Ge)),
        HQ_ITEM_JLE => Some(Jump::If(Condition::Le)),
        HQ_ITEM_JG => Some(Jump::If(Condition::G)),
        _ => None,
    }
}
