//! What an instruction tells beside its bytes, in integers.

ghost use Rattle.std.specs.Prelude.{◌≡◌, ◌≤◌, ◌<◌, ◌^◌, IfSome};
ghost use Rattle.x64_plain.specs.Plain.{place_of};
ghost use Rattle.x64_plain.specs.Told.{place_told, told, told_at};

use crate::inst::HqInst;
use crate::place::HQ_PLACE_LABEL;
use cax64_sink::{DeferredTarget, Notice};

/// What is told: nothing.
pub const HQ_TOLD_NOTHING: u32 = 0;

/// What is told: the code of a trap.
pub const HQ_TOLD_TRAP: u32 = 1;

/// What is told: that a relative place refers to a label.
pub const HQ_TOLD_LABEL: u32 = 2;

/// What is told: that it refers to a constant.
pub const HQ_TOLD_CONSTANT: u32 = 3;

/// What is told: a relative place, and not what it refers to.
pub const HQ_TOLD_PLACE: u32 = 4;

/// What is told beside the bytes of an instruction: the code of its trap, or what a relative place refers to.
#[repr(C)]
#[derive(Clone, Copy, Debug, PartialEq)]
pub struct HqUse {
    /// How many bytes of the instruction, or of a list's code, stand before it: before a target its four bytes follow.
    pub at: u32,
    /// What is told: `HQ_TOLD_NOTHING` and the like.
    pub kind: u32,
    /// Of the trap, of the label or of the constant.
    pub number: u32,
}

impl HqUse {
    /// Nothing.
    pub const NOTHING: HqUse = HqUse {
        at: 0,
        kind: HQ_TOLD_NOTHING,
        number: 0,
    };

    /// What one notice tells, if there is one.
    pub fn of(notice: Option<Notice>) -> HqUse
        requires { IfSome notice (λ n. place_told n < 2 ^ 32) }
        ensures { result ≡ told notice }
    {
        match notice {
            None => HqUse::NOTHING,
            Some(Notice::Trap(at, code)) => HqUse {
                at: at as u32,
                kind: HQ_TOLD_TRAP,
                number: u32::from(code.0.get()),
            },
            Some(Notice::Target(at, DeferredTarget::Label(label))) => HqUse {
                at: at as u32,
                kind: HQ_TOLD_LABEL,
                number: label.0,
            },
            Some(Notice::Target(at, DeferredTarget::Constant(constant))) => HqUse {
                at: at as u32,
                kind: HQ_TOLD_CONSTANT,
                number: constant.0,
            },
            Some(Notice::Target(at, DeferredTarget::None)) => HqUse {
                at: at as u32,
                kind: HQ_TOLD_PLACE,
                number: 0,
            },
        }
    }

    /// What an instruction tells where a displacement of four bytes stands behind so many: its trap, or what its place refers to.
    #[inline(always)]
    pub fn of_inst(inst: &HqInst, behind: u8) -> HqUse
        ensures is { result ≡ told_at (place_of inst.now) behind }
        ensures near { result.at ≤ 255 }
    {
        // Both are read first, so that nothing is chosen by a branch, which is often guessed wrong.
        let target = inst.target;
        let trap = u32::from(inst.trap);
        let is_target = inst.place >= HQ_PLACE_LABEL;
        HqUse {
            at: if is_target { u32::from(behind) } else { 0 },
            kind: if is_target {
                u32::from(inst.place) - 2
            } else {
                u32::from(trap != 0)
            },
            number: if is_target { target } else { trap },
        }
    }
}
