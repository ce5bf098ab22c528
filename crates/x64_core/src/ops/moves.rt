// Written by table/write.py from table/core.txt.
//! Moves, extensions and addresses.

ghost use Rattle.std.specs.Prelude.{◌≡◌, map};
ghost use Rattle.std.specs.List.{range_with_len};

use crate::makers::{RegMem, RegRm, RmImm};
use std::marker::PhantomData;
use x64_lines::Op;

// Moves. (Intel SDM, volume 2, `MOV`.)

/// `movb m8, r8`.
pub const MOVB_MR: RegMem = without_imm!(RegMem, 304);
/// `movb r8, m8`.
pub const MOVB_RM: RegMem = without_imm!(RegMem, 305);
/// `movb rm8, imm8`.
pub const MOVB_MI: RmImm<u8> = with_imm!(RmImm, 306);
/// `movw rm16, r16`.
pub const MOVW_MR: RegRm = without_imm!(RegRm, 307);
/// `movw r16, rm16`.
pub const MOVW_RM: RegRm = without_imm!(RegRm, 308);
/// `movw rm16, imm16`.
pub const MOVW_MI: RmImm<u16> = with_imm!(RmImm, 309);
/// `movl rm32, r32`.
pub const MOVL_MR: RegRm = without_imm!(RegRm, 310);
/// `movl r32, rm32`.
pub const MOVL_RM: RegRm = without_imm!(RegRm, 311);
/// `movl rm32, imm32`.
pub const MOVL_MI: RmImm<u32> = with_imm!(RmImm, 312);
/// `movq rm64, r64`.
pub const MOVQ_MR: RegRm = without_imm!(RegRm, 313);
/// `movq r64, rm64`.
pub const MOVQ_RM: RegRm = without_imm!(RegRm, 314);
/// `movq rm64, imm32`.
pub const MOVQ_MI_SXL: RmImm<i32> = with_imm!(RmImm, 315);

// Moves with extension. (Intel SDM, volume 2, `MOVSX/MOVSXD` and `MOVZX`.)

/// `movsbw r16, m8`.
pub const MOVSBW_RM: RegMem = without_imm!(RegMem, 316);
/// `movsbl r32, m8`.
pub const MOVSBL_RM: RegMem = without_imm!(RegMem, 317);
/// `movsbq r64, m8`.
pub const MOVSBQ_RM: RegMem = without_imm!(RegMem, 318);
/// `movswl r32, rm16`.
pub const MOVSWL_RM: RegRm = without_imm!(RegRm, 319);
/// `movswq r64, rm16`.
pub const MOVSWQ_RM: RegRm = without_imm!(RegRm, 320);
/// `movslq r64, rm32`.
pub const MOVSLQ_RM: RegRm = without_imm!(RegRm, 321);
/// `movzbw r16, m8`.
pub const MOVZBW_RM: RegMem = without_imm!(RegMem, 322);
/// `movzbl r32, m8`.
pub const MOVZBL_RM: RegMem = without_imm!(RegMem, 323);
/// `movzbq r64, m8`.
pub const MOVZBQ_RM: RegMem = without_imm!(RegMem, 324);
/// `movzwl r32, rm16`.
pub const MOVZWL_RM: RegRm = without_imm!(RegRm, 325);
/// `movzwq r64, rm16`.
pub const MOVZWQ_RM: RegRm = without_imm!(RegRm, 326);

// Addresses, which are computed, and nothing is read or written there. (Intel SDM, volume 2, `LEA`.)

/// `leaw r16, m16`.
pub const LEAW_RM: RegMem = without_imm!(RegMem, 327);
/// `leal r32, m32`.
pub const LEAL_RM: RegMem = without_imm!(RegMem, 328);
/// `leaq r64, m64`.
pub const LEAQ_RM: RegMem = without_imm!(RegMem, 329);

/// Each constant is the line behind that of the one before it.
#[rattlefmt::skip]
fn in_order() -> [Op; 26]
    ensures { map (λ op. op.number) result ≡ range_with_len 304 26 }
{
    [
        MOVB_MR.op(), MOVB_RM.op(), MOVB_MI.op(), MOVW_MR.op(), MOVW_RM.op(), MOVW_MI.op(),
        MOVL_MR.op(), MOVL_RM.op(), MOVL_MI.op(), MOVQ_MR.op(), MOVQ_RM.op(), MOVQ_MI_SXL.op(),
        MOVSBW_RM.op(), MOVSBL_RM.op(), MOVSBQ_RM.op(), MOVSWL_RM.op(), MOVSWQ_RM.op(),
        MOVSLQ_RM.op(), MOVZBW_RM.op(), MOVZBL_RM.op(), MOVZBQ_RM.op(), MOVZWL_RM.op(),
        MOVZWQ_RM.op(), LEAW_RM.op(), LEAL_RM.op(), LEAQ_RM.op(),
    ]
}
