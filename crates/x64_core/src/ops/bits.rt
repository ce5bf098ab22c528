// Written by table/write.py from table/core.txt.
//! Scans, counts and tests of bits, and exchanges.

ghost use Rattle.std.specs.Prelude.{◌≡◌, map};
ghost use Rattle.std.specs.List.{range_with_len};

use crate::makers::{Mem, RegMem, RegRm, RmImm};
use std::marker::PhantomData;
use x64_lines::Op;

// Scans for a bit. (Intel SDM, volume 2, `BSF` and `BSR`.)

/// `bsfw r16, rm16`.
pub const BSFW_RM: RegRm = without_imm!(RegRm, 490);
/// `bsrw r16, rm16`.
pub const BSRW_RM: RegRm = without_imm!(RegRm, 491);
/// `bsfl r32, rm32`.
pub const BSFL_RM: RegRm = without_imm!(RegRm, 492);
/// `bsrl r32, rm32`.
pub const BSRL_RM: RegRm = without_imm!(RegRm, 493);
/// `bsfq r64, rm64`.
pub const BSFQ_RM: RegRm = without_imm!(RegRm, 494);
/// `bsrq r64, rm64`.
pub const BSRQ_RM: RegRm = without_imm!(RegRm, 495);

// Counts of bits. (Intel SDM, volume 2, `TZCNT`, `LZCNT` and `POPCNT`.)

/// `tzcntw r16, rm16`.
pub const TZCNTW_RM: RegRm = without_imm!(RegRm, 496);
/// `lzcntw r16, rm16`.
pub const LZCNTW_RM: RegRm = without_imm!(RegRm, 497);
/// `popcntw r16, rm16`.
pub const POPCNTW_RM: RegRm = without_imm!(RegRm, 498);
/// `tzcntl r32, rm32`.
pub const TZCNTL_RM: RegRm = without_imm!(RegRm, 499);
/// `lzcntl r32, rm32`.
pub const LZCNTL_RM: RegRm = without_imm!(RegRm, 500);
/// `popcntl r32, rm32`.
pub const POPCNTL_RM: RegRm = without_imm!(RegRm, 501);
/// `tzcntq r64, rm64`.
pub const TZCNTQ_RM: RegRm = without_imm!(RegRm, 502);
/// `lzcntq r64, rm64`.
pub const LZCNTQ_RM: RegRm = without_imm!(RegRm, 503);
/// `popcntq r64, rm64`.
pub const POPCNTQ_RM: RegRm = without_imm!(RegRm, 504);

// Tests of one bit. (Intel SDM, volume 2, `BT`.)

/// `btw rm16, r16`.
pub const BTW_MR: RegRm = without_imm!(RegRm, 505);
/// `btw rm16, imm8`.
pub const BTW_MI: RmImm<u8> = with_imm!(RmImm, 506);
/// `btl rm32, r32`.
pub const BTL_MR: RegRm = without_imm!(RegRm, 507);
/// `btl rm32, imm8`.
pub const BTL_MI: RmImm<u8> = with_imm!(RmImm, 508);
/// `btq rm64, r64`.
pub const BTQ_MR: RegRm = without_imm!(RegRm, 509);
/// `btq rm64, imm8`.
pub const BTQ_MI: RmImm<u8> = with_imm!(RmImm, 510);

// Exchanges that aren't locked. (Intel SDM, volume 2, `XADD`, `CMPXCHG` and `CMPXCHG8B/CMPXCHG16B`.)

/// `xaddb m8, r8`.
pub const XADDB_MR: RegMem = without_imm!(RegMem, 511);
/// `cmpxchgb m8, r8`.
pub const CMPXCHGB_MR: RegMem = without_imm!(RegMem, 512);
/// `xaddw m16, r16`.
pub const XADDW_MR: RegMem = without_imm!(RegMem, 513);
/// `cmpxchgw m16, r16`.
pub const CMPXCHGW_MR: RegMem = without_imm!(RegMem, 514);
/// `xaddl m32, r32`.
pub const XADDL_MR: RegMem = without_imm!(RegMem, 515);
/// `cmpxchgl m32, r32`.
pub const CMPXCHGL_MR: RegMem = without_imm!(RegMem, 516);
/// `xaddq m64, r64`.
pub const XADDQ_MR: RegMem = without_imm!(RegMem, 517);
/// `cmpxchgq m64, r64`.
pub const CMPXCHGQ_MR: RegMem = without_imm!(RegMem, 518);
/// `cmpxchg16b m128`.
pub const CMPXCHG16B_M: Mem = without_imm!(Mem, 519);

/// Each constant is the line behind that of the one before it.
#[rattlefmt::skip]
fn in_order() -> [Op; 30]
    ensures { map (λ op. op.number) result ≡ range_with_len 490 30 }
{
    [
        BSFW_RM.op(), BSRW_RM.op(), BSFL_RM.op(), BSRL_RM.op(), BSFQ_RM.op(), BSRQ_RM.op(),
        TZCNTW_RM.op(), LZCNTW_RM.op(), POPCNTW_RM.op(), TZCNTL_RM.op(), LZCNTL_RM.op(),
        POPCNTL_RM.op(), TZCNTQ_RM.op(), LZCNTQ_RM.op(), POPCNTQ_RM.op(), BTW_MR.op(), BTW_MI.op(),
        BTL_MR.op(), BTL_MI.op(), BTQ_MR.op(), BTQ_MI.op(), XADDB_MR.op(), CMPXCHGB_MR.op(),
        XADDW_MR.op(), CMPXCHGW_MR.op(), XADDL_MR.op(), CMPXCHGL_MR.op(), XADDQ_MR.op(),
        CMPXCHGQ_MR.op(), CMPXCHG16B_M.op(),
    ]
}
