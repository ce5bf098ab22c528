// Written by table/write.py from table/core.txt.
//! Shifts and rotations.

ghost use Rattle.std.specs.Prelude.{◌≡◌, map};
ghost use Rattle.std.specs.List.{range_with_len};

use crate::makers::{RegRm, RegRmImm, Rm, RmImm};
use std::marker::PhantomData;
use x64_lines::Op;

// Rotations by `cl` and by a byte. (Intel SDM, volume 2, `RCL/RCR/ROL/ROR`.)

/// `rolb rm8, cl`.
pub const ROLB_MC: Rm = without_imm!(Rm, 367);
/// `rolb rm8, imm8`.
pub const ROLB_MI: RmImm<u8> = with_imm!(RmImm, 368);
/// `rolw rm16, cl`.
pub const ROLW_MC: Rm = without_imm!(Rm, 369);
/// `rolw rm16, imm8`.
pub const ROLW_MI: RmImm<u8> = with_imm!(RmImm, 370);
/// `roll rm32, cl`.
pub const ROLL_MC: Rm = without_imm!(Rm, 371);
/// `roll rm32, imm8`.
pub const ROLL_MI: RmImm<u8> = with_imm!(RmImm, 372);
/// `rolq rm64, cl`.
pub const ROLQ_MC: Rm = without_imm!(Rm, 373);
/// `rolq rm64, imm8`.
pub const ROLQ_MI: RmImm<u8> = with_imm!(RmImm, 374);
/// `rorb rm8, cl`.
pub const RORB_MC: Rm = without_imm!(Rm, 375);
/// `rorb rm8, imm8`.
pub const RORB_MI: RmImm<u8> = with_imm!(RmImm, 376);
/// `rorw rm16, cl`.
pub const RORW_MC: Rm = without_imm!(Rm, 377);
/// `rorw rm16, imm8`.
pub const RORW_MI: RmImm<u8> = with_imm!(RmImm, 378);
/// `rorl rm32, cl`.
pub const RORL_MC: Rm = without_imm!(Rm, 379);
/// `rorl rm32, imm8`.
pub const RORL_MI: RmImm<u8> = with_imm!(RmImm, 380);
/// `rorq rm64, cl`.
pub const RORQ_MC: Rm = without_imm!(Rm, 381);
/// `rorq rm64, imm8`.
pub const RORQ_MI: RmImm<u8> = with_imm!(RmImm, 382);

// Shifts by `cl` and by a byte. (Intel SDM, volume 2, `SAL/SAR/SHL/SHR`.)

/// `shlb rm8, cl`.
pub const SHLB_MC: Rm = without_imm!(Rm, 383);
/// `shlb rm8, imm8`.
pub const SHLB_MI: RmImm<u8> = with_imm!(RmImm, 384);
/// `shlw rm16, cl`.
pub const SHLW_MC: Rm = without_imm!(Rm, 385);
/// `shlw rm16, imm8`.
pub const SHLW_MI: RmImm<u8> = with_imm!(RmImm, 386);
/// `shll rm32, cl`.
pub const SHLL_MC: Rm = without_imm!(Rm, 387);
/// `shll rm32, imm8`.
pub const SHLL_MI: RmImm<u8> = with_imm!(RmImm, 388);
/// `shlq rm64, cl`.
pub const SHLQ_MC: Rm = without_imm!(Rm, 389);
/// `shlq rm64, imm8`.
pub const SHLQ_MI: RmImm<u8> = with_imm!(RmImm, 390);
/// `shrb rm8, cl`.
pub const SHRB_MC: Rm = without_imm!(Rm, 391);
/// `shrb rm8, imm8`.
pub const SHRB_MI: RmImm<u8> = with_imm!(RmImm, 392);
/// `shrw rm16, cl`.
pub const SHRW_MC: Rm = without_imm!(Rm, 393);
/// `shrw rm16, imm8`.
pub const SHRW_MI: RmImm<u8> = with_imm!(RmImm, 394);
/// `shrl rm32, cl`.
pub const SHRL_MC: Rm = without_imm!(Rm, 395);
/// `shrl rm32, imm8`.
pub const SHRL_MI: RmImm<u8> = with_imm!(RmImm, 396);
/// `shrq rm64, cl`.
pub const SHRQ_MC: Rm = without_imm!(Rm, 397);
/// `shrq rm64, imm8`.
pub const SHRQ_MI: RmImm<u8> = with_imm!(RmImm, 398);
/// `sarb rm8, cl`.
pub const SARB_MC: Rm = without_imm!(Rm, 399);
/// `sarb rm8, imm8`.
pub const SARB_MI: RmImm<u8> = with_imm!(RmImm, 400);
/// `sarw rm16, cl`.
pub const SARW_MC: Rm = without_imm!(Rm, 401);
/// `sarw rm16, imm8`.
pub const SARW_MI: RmImm<u8> = with_imm!(RmImm, 402);
/// `sarl rm32, cl`.
pub const SARL_MC: Rm = without_imm!(Rm, 403);
/// `sarl rm32, imm8`.
pub const SARL_MI: RmImm<u8> = with_imm!(RmImm, 404);
/// `sarq rm64, cl`.
pub const SARQ_MC: Rm = without_imm!(Rm, 405);
/// `sarq rm64, imm8`.
pub const SARQ_MI: RmImm<u8> = with_imm!(RmImm, 406);

// Shifts of two registers. (Intel SDM, volume 2, `SHLD`.)

/// `shldw rm16, r16, imm8`.
pub const SHLDW_MRI: RegRmImm<u8> = with_imm!(RegRmImm, 407);
/// `shldw rm16, r16, cl`.
pub const SHLDW_MRC: RegRm = without_imm!(RegRm, 408);
/// `shldl rm32, r32, imm8`.
pub const SHLDL_MRI: RegRmImm<u8> = with_imm!(RegRmImm, 409);
/// `shldl rm32, r32, cl`.
pub const SHLDL_MRC: RegRm = without_imm!(RegRm, 410);
/// `shldq rm64, r64, imm8`.
pub const SHLDQ_MRI: RegRmImm<u8> = with_imm!(RegRmImm, 411);
/// `shldq rm64, r64, cl`.
pub const SHLDQ_MRC: RegRm = without_imm!(RegRm, 412);

/// Each constant is the line behind that of the one before it.
#[rattlefmt::skip]
fn in_order() -> [Op; 46]
    ensures { map (λ op. op.number) result ≡ range_with_len 367 46 }
{
    [
        ROLB_MC.op(), ROLB_MI.op(), ROLW_MC.op(), ROLW_MI.op(), ROLL_MC.op(), ROLL_MI.op(),
        ROLQ_MC.op(), ROLQ_MI.op(), RORB_MC.op(), RORB_MI.op(), RORW_MC.op(), RORW_MI.op(),
        RORL_MC.op(), RORL_MI.op(), RORQ_MC.op(), RORQ_MI.op(), SHLB_MC.op(), SHLB_MI.op(),
        SHLW_MC.op(), SHLW_MI.op(), SHLL_MC.op(), SHLL_MI.op(), SHLQ_MC.op(), SHLQ_MI.op(),
        SHRB_MC.op(), SHRB_MI.op(), SHRW_MC.op(), SHRW_MI.op(), SHRL_MC.op(), SHRL_MI.op(),
        SHRQ_MC.op(), SHRQ_MI.op(), SARB_MC.op(), SARB_MI.op(), SARW_MC.op(), SARW_MI.op(),
        SARL_MC.op(), SARL_MI.op(), SARQ_MC.op(), SARQ_MI.op(), SHLDW_MRI.op(), SHLDW_MRC.op(),
        SHLDL_MRI.op(), SHLDL_MRC.op(), SHLDQ_MRI.op(), SHLDQ_MRC.op(),
    ]
}
