// Written by table/write.py from table/core.txt.
//! Multiplications, divisions, negations, and the extensions before a division.

ghost use Rattle.std.specs.Prelude.{◌≡◌, map};
ghost use Rattle.std.specs.List.{range_with_len};

use crate::makers::{Bare, RegRm, RegRmImm, Rm};
use std::marker::PhantomData;
use x64_lines::Op;

// Multiplications. (Intel SDM, volume 2, `MUL` and `IMUL`.)

/// `mulb rm8`.
pub const MULB_M: Rm = without_imm!(Rm, 330);
/// `mulw rm16`.
pub const MULW_M: Rm = without_imm!(Rm, 331);
/// `mull rm32`.
pub const MULL_M: Rm = without_imm!(Rm, 332);
/// `mulq rm64`.
pub const MULQ_M: Rm = without_imm!(Rm, 333);
/// `imulb rm8`.
pub const IMULB_M: Rm = without_imm!(Rm, 334);
/// `imulw rm16`.
pub const IMULW_M: Rm = without_imm!(Rm, 335);
/// `imull rm32`.
pub const IMULL_M: Rm = without_imm!(Rm, 336);
/// `imulq rm64`.
pub const IMULQ_M: Rm = without_imm!(Rm, 337);
/// `imulw r16, rm16`.
pub const IMULW_RM: RegRm = without_imm!(RegRm, 338);
/// `imulw r16, rm16, imm8`.
pub const IMULW_RMI_SXB: RegRmImm<i8> = with_imm!(RegRmImm, 339);
/// `imulw r16, rm16, imm16`.
pub const IMULW_RMI: RegRmImm<u16> = with_imm!(RegRmImm, 340);
/// `imull r32, rm32`.
pub const IMULL_RM: RegRm = without_imm!(RegRm, 341);
/// `imull r32, rm32, imm8`.
pub const IMULL_RMI_SXB: RegRmImm<i8> = with_imm!(RegRmImm, 342);
/// `imull r32, rm32, imm32`.
pub const IMULL_RMI: RegRmImm<u32> = with_imm!(RegRmImm, 343);
/// `imulq r64, rm64`.
pub const IMULQ_RM: RegRm = without_imm!(RegRm, 344);
/// `imulq r64, rm64, imm8`.
pub const IMULQ_RMI_SXB: RegRmImm<i8> = with_imm!(RegRmImm, 345);
/// `imulq r64, rm64, imm32`.
pub const IMULQ_RMI_SXL: RegRmImm<i32> = with_imm!(RegRmImm, 346);

// Divisions. (Intel SDM, volume 2, `DIV` and `IDIV`.)

/// `divb rm8`.
pub const DIVB_M: Rm = without_imm!(Rm, 347);
/// `divw rm16`.
pub const DIVW_M: Rm = without_imm!(Rm, 348);
/// `divl rm32`.
pub const DIVL_M: Rm = without_imm!(Rm, 349);
/// `divq rm64`.
pub const DIVQ_M: Rm = without_imm!(Rm, 350);
/// `idivb rm8`.
pub const IDIVB_M: Rm = without_imm!(Rm, 351);
/// `idivw rm16`.
pub const IDIVW_M: Rm = without_imm!(Rm, 352);
/// `idivl rm32`.
pub const IDIVL_M: Rm = without_imm!(Rm, 353);
/// `idivq rm64`.
pub const IDIVQ_M: Rm = without_imm!(Rm, 354);

// Negations. (Intel SDM, volume 2, `NEG` and `NOT`.)

/// `notb rm8`.
pub const NOTB_M: Rm = without_imm!(Rm, 355);
/// `notw rm16`.
pub const NOTW_M: Rm = without_imm!(Rm, 356);
/// `notl rm32`.
pub const NOTL_M: Rm = without_imm!(Rm, 357);
/// `notq rm64`.
pub const NOTQ_M: Rm = without_imm!(Rm, 358);
/// `negb rm8`.
pub const NEGB_M: Rm = without_imm!(Rm, 359);
/// `negw rm16`.
pub const NEGW_M: Rm = without_imm!(Rm, 360);
/// `negl rm32`.
pub const NEGL_M: Rm = without_imm!(Rm, 361);
/// `negq rm64`.
pub const NEGQ_M: Rm = without_imm!(Rm, 362);

// Extensions of `al`, `ax` and `eax`. (Intel SDM, volume 2, `CBW/CWDE/CDQE` and `CWD/CDQ/CQO`.)

/// `cbtw`.
pub const CBTW_ZO: Bare = without_imm!(Bare, 363);
/// `cwtl`.
pub const CWTL_ZO: Bare = without_imm!(Bare, 364);
/// `cwtd`.
pub const CWTD_ZO: Bare = without_imm!(Bare, 365);
/// `cltd`.
pub const CLTD_ZO: Bare = without_imm!(Bare, 366);

/// Each constant is the line behind that of the one before it.
#[rattlefmt::skip]
fn in_order() -> [Op; 37]
    ensures { map (λ op. op.number) result ≡ range_with_len 330 37 }
{
    [
        MULB_M.op(), MULW_M.op(), MULL_M.op(), MULQ_M.op(), IMULB_M.op(), IMULW_M.op(),
        IMULL_M.op(), IMULQ_M.op(), IMULW_RM.op(), IMULW_RMI_SXB.op(), IMULW_RMI.op(),
        IMULL_RM.op(), IMULL_RMI_SXB.op(), IMULL_RMI.op(), IMULQ_RM.op(), IMULQ_RMI_SXB.op(),
        IMULQ_RMI_SXL.op(), DIVB_M.op(), DIVW_M.op(), DIVL_M.op(), DIVQ_M.op(), IDIVB_M.op(),
        IDIVW_M.op(), IDIVL_M.op(), IDIVQ_M.op(), NOTB_M.op(), NOTW_M.op(), NOTL_M.op(),
        NOTQ_M.op(), NEGB_M.op(), NEGW_M.op(), NEGL_M.op(), NEGQ_M.op(), CBTW_ZO.op(),
        CWTL_ZO.op(), CWTD_ZO.op(), CLTD_ZO.op(),
    ]
}
