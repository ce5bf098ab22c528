//! What is laid out.

use cax64_sink::Label;
use x64_code_buffer::Jump;

/// An instruction; a jump or a call to a label; or the position of a label, which is that of what comes next.
#[derive(Clone, Copy, Debug, PartialEq)]
pub enum Item<I> {
    Inst(I),
    Jump(Jump, Label),
    Bind(Label),
}
