//! No-operations of one to nine bytes.

ghost use Rattle.std.specs.Prelude.{◌≡◌, ◌<◌, ◌⊎◌, ℕ, ℤ, IfNone, IfSome, Option};
ghost use Rattle.x64_core.specs.Core.{core_len};
ghost use Rattle.x64_core.specs.Nop.{at_rax, at_two_rax, nop_view};
ghost use Rattle.x64_core.specs.View.{core_view};

use crate::instruction::Core;
use crate::ops::rows::{NOP_1B, NOP_2B, NOPL_RM, NOPW_RM};
use cax64_address::amode::{Amode, Scale};
use cax64_address::offset::{AmodeOffset, AmodeOffsetPlusKnownOffset};
use cax64_register::NonRspGpr;
use cax64_register::gpr::enc::RAX;

/// `displacement(%rax)`.
fn at_rax(displacement: i32) -> Amode<u8>
    ensures { result ≡ at_rax displacement }
{
    Amode::ImmReg {
        base: RAX,
        simm32: AmodeOffsetPlusKnownOffset {
            simm32: AmodeOffset::new(displacement),
            offset: None,
        },
        trap: None,
    }
}

/// `displacement(%rax,%rax)`.
fn at_two_rax(displacement: i32) -> Amode<u8>
    ensures { result ≡ at_two_rax displacement }
{
    Amode::ImmRegRegShift {
        base: RAX,
        index: NonRspGpr::new(RAX),
        scale: Scale::One,
        simm32: AmodeOffset::new(displacement),
        trap: None,
    }
}

impl Core {
    /// The no-operation of so many bytes, where it's one to nine. From four on its memory, where nothing is read, has a
    /// displacement of 1 or 256, since one of 0 has no byte. (Intel SDM, volume 2, `NOP`.)
    pub fn nop(len: u8) -> Option<Core>
        ensures none { IfNone result ((len < 1) ⊎ (9 < len)) }
        ensures view { IfSome result (λ nop. core_view nop ≡ nop_view len) }
        ensures length { IfSome result (λ nop. (offsets : ℕ → Option ℤ) → core_len offsets (core_view nop) ≡ len) }
    {
        match len {
            1 => Some(NOP_1B.bare()),
            2 => Some(NOP_2B.bare()),
            3 => Some(NOPL_RM.mem(at_rax(0))),
            4 => Some(NOPL_RM.mem(at_rax(1))),
            5 => Some(NOPL_RM.mem(at_two_rax(1))),
            6 => Some(NOPW_RM.mem(at_two_rax(1))),
            7 => Some(NOPL_RM.mem(at_rax(256))),
            8 => Some(NOPL_RM.mem(at_two_rax(256))),
            9 => Some(NOPW_RM.mem(at_two_rax(256))),
            _ => None,
        }
    }
}
