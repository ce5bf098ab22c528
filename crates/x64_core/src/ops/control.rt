// Written by table/write.py from table/core.txt.
//! The stack, returns and stops.

ghost use Rattle.std.specs.Prelude.{◌≡◌, map};
ghost use Rattle.std.specs.List.{range_with_len};

use crate::makers::{Bare, Imm, Rm};
use std::marker::PhantomData;
use x64_lines::Op;

// The stack. (Intel SDM, volume 2, `PUSH` and `POP`.)

/// `pushw rm16`.
pub const PUSHW_M: Rm = without_imm!(Rm, 477);
/// `pushq rm64`.
pub const PUSHQ_M: Rm = without_imm!(Rm, 478);
/// `pushq imm8`.
pub const PUSHQ_I8: Imm<i8> = with_imm!(Imm, 479);
/// `pushw imm16`.
pub const PUSHW_I16: Imm<u16> = with_imm!(Imm, 480);
/// `pushq imm32`.
pub const PUSHQ_I32: Imm<i32> = with_imm!(Imm, 481);
/// `popw rm16`.
pub const POPW_M: Rm = without_imm!(Rm, 482);
/// `popq rm64`.
pub const POPQ_M: Rm = without_imm!(Rm, 483);

// Ends of functions, and stops. (Intel SDM, volume 2, `RET`, `LEAVE`, `UD`, `INT n/INTO/INT3/INT1` and `HLT`.)

/// `retq`.
pub const RETQ_ZO: Bare = without_imm!(Bare, 484);
/// `retq imm16`.
pub const RETQ_I: Imm<u16> = with_imm!(Imm, 485);
/// `leaveq`.
pub const LEAVEQ_ZO: Bare = without_imm!(Bare, 486);
/// `ud2`.
pub const UD2_ZO: Bare = without_imm!(Bare, 487);
/// `int3`.
pub const INT3_ZO: Bare = without_imm!(Bare, 488);
/// `hlt`.
pub const HLT_ZO: Bare = without_imm!(Bare, 489);

/// Each constant is the line behind that of the one before it.
#[rattlefmt::skip]
fn in_order() -> [Op; 13]
    ensures { map (λ op. op.number) result ≡ range_with_len 477 13 }
{
    [
        PUSHW_M.op(), PUSHQ_M.op(), PUSHQ_I8.op(), PUSHW_I16.op(), PUSHQ_I32.op(), POPW_M.op(),
        POPQ_M.op(), RETQ_ZO.op(), RETQ_I.op(), LEAVEQ_ZO.op(), UD2_ZO.op(), INT3_ZO.op(),
        HLT_ZO.op(),
    ]
}
