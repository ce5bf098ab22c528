// Written by table/write.py from table/core.txt.
//! Arithmetic, comparisons, moves and conversions of SSE2.

ghost use Rattle.std.specs.Prelude.{◌≡◌, map};
ghost use Rattle.std.specs.List.{range_with_len};

use crate::makers::{RegMem, RegRm};
use x64_lines::Op;

// Arithmetic of one floating-point value. (Intel SDM, volume 2, `ADDSS`, `ADDSD` and so on.)

/// `addss xmm1, xmm_m32`.
pub const ADDSS_A: RegRm = without_imm!(RegRm, 520);
/// `addsd xmm1, xmm_m64`.
pub const ADDSD_A: RegRm = without_imm!(RegRm, 521);
/// `mulss xmm1, xmm_m32`.
pub const MULSS_A: RegRm = without_imm!(RegRm, 522);
/// `mulsd xmm1, xmm_m64`.
pub const MULSD_A: RegRm = without_imm!(RegRm, 523);
/// `subss xmm1, xmm_m32`.
pub const SUBSS_A: RegRm = without_imm!(RegRm, 524);
/// `subsd xmm1, xmm_m64`.
pub const SUBSD_A: RegRm = without_imm!(RegRm, 525);
/// `minss xmm1, xmm_m32`.
pub const MINSS_A: RegRm = without_imm!(RegRm, 526);
/// `minsd xmm1, xmm_m64`.
pub const MINSD_A: RegRm = without_imm!(RegRm, 527);
/// `divss xmm1, xmm_m32`.
pub const DIVSS_A: RegRm = without_imm!(RegRm, 528);
/// `divsd xmm1, xmm_m64`.
pub const DIVSD_A: RegRm = without_imm!(RegRm, 529);
/// `maxss xmm1, xmm_m32`.
pub const MAXSS_A: RegRm = without_imm!(RegRm, 530);
/// `maxsd xmm1, xmm_m64`.
pub const MAXSD_A: RegRm = without_imm!(RegRm, 531);
/// `sqrtss xmm1, xmm_m32`.
pub const SQRTSS_A: RegRm = without_imm!(RegRm, 532);
/// `sqrtsd xmm1, xmm_m64`.
pub const SQRTSD_A: RegRm = without_imm!(RegRm, 533);

// Comparisons of one floating-point value. (Intel SDM, volume 2, `UCOMISS` and `UCOMISD`.)

/// `ucomiss xmm1, xmm_m32`.
pub const UCOMISS_A: RegRm = without_imm!(RegRm, 534);
/// `ucomisd xmm1, xmm_m64`.
pub const UCOMISD_A: RegRm = without_imm!(RegRm, 535);

// Bitwise logic of a vector register. (Intel SDM, volume 2, `ANDPD`, `ANDNPS`, `ORPS`, `XORPS`, `PXOR` and so on.)

/// `andpd xmm1, xmm_m128`.
pub const ANDPD_A: RegRm = without_imm!(RegRm, 536);
/// `andnps xmm1, xmm_m128`.
pub const ANDNPS_A: RegRm = without_imm!(RegRm, 537);
/// `andnpd xmm1, xmm_m128`.
pub const ANDNPD_A: RegRm = without_imm!(RegRm, 538);
/// `orps xmm1, xmm_m128`.
pub const ORPS_A: RegRm = without_imm!(RegRm, 539);
/// `orpd xmm1, xmm_m128`.
pub const ORPD_A: RegRm = without_imm!(RegRm, 540);
/// `xorps xmm1, xmm_m128`.
pub const XORPS_A: RegRm = without_imm!(RegRm, 541);
/// `xorpd xmm1, xmm_m128`.
pub const XORPD_A: RegRm = without_imm!(RegRm, 542);
/// `pxor xmm1, xmm_m128`.
pub const PXOR_A: RegRm = without_imm!(RegRm, 543);

// Moves of vector registers. (Intel SDM, volume 2, `MOVSS`, `MOVSD`, `MOVAPS`, `MOVD/MOVQ` and so on.)

/// `movss xmm1, m32`.
pub const MOVSS_A_M: RegMem = without_imm!(RegMem, 544);
/// `movss m32, xmm1`.
pub const MOVSS_C_M: RegMem = without_imm!(RegMem, 545);
/// `movsd xmm1, m64`.
pub const MOVSD_A_M: RegMem = without_imm!(RegMem, 546);
/// `movsd m64, xmm1`.
pub const MOVSD_C_M: RegMem = without_imm!(RegMem, 547);
/// `movaps xmm1, xmm_m128`.
pub const MOVAPS_A: RegRm = without_imm!(RegRm, 548);
/// `movaps xmm_m128, xmm1`.
pub const MOVAPS_B: RegRm = without_imm!(RegRm, 549);
/// `movapd xmm1, xmm_m128`.
pub const MOVAPD_A: RegRm = without_imm!(RegRm, 550);
/// `movapd xmm_m128, xmm1`.
pub const MOVAPD_B: RegRm = without_imm!(RegRm, 551);
/// `movups xmm1, xmm_m128`.
pub const MOVUPS_A: RegRm = without_imm!(RegRm, 552);
/// `movups xmm_m128, xmm1`.
pub const MOVUPS_B: RegRm = without_imm!(RegRm, 553);
/// `movupd xmm1, xmm_m128`.
pub const MOVUPD_A: RegRm = without_imm!(RegRm, 554);
/// `movupd xmm_m128, xmm1`.
pub const MOVUPD_B: RegRm = without_imm!(RegRm, 555);
/// `movdqa xmm1, xmm_m128`.
pub const MOVDQA_A: RegRm = without_imm!(RegRm, 556);
/// `movdqa xmm_m128, xmm1`.
pub const MOVDQA_B: RegRm = without_imm!(RegRm, 557);
/// `movdqu xmm1, xmm_m128`.
pub const MOVDQU_A: RegRm = without_imm!(RegRm, 558);
/// `movdqu xmm_m128, xmm1`.
pub const MOVDQU_B: RegRm = without_imm!(RegRm, 559);
/// `movd xmm1, rm32`.
pub const MOVD_A: RegRm = without_imm!(RegRm, 560);
/// `movq xmm1, rm64`.
pub const MOVQ_A: RegRm = without_imm!(RegRm, 561);
/// `movd rm32, xmm1`.
pub const MOVD_B: RegRm = without_imm!(RegRm, 562);
/// `movq rm64, xmm1`.
pub const MOVQ_B: RegRm = without_imm!(RegRm, 563);

// Conversions. (Intel SDM, volume 2, `CVTSI2SS`, `CVTTSD2SI` and so on.)

/// `cvtsi2ssl xmm1, rm32`.
pub const CVTSI2SSL_A: RegRm = without_imm!(RegRm, 564);
/// `cvtss2sil r32, xmm_m32`.
pub const CVTSS2SIL_A: RegRm = without_imm!(RegRm, 565);
/// `cvttss2sil r32, xmm_m32`.
pub const CVTTSS2SIL_A: RegRm = without_imm!(RegRm, 566);
/// `cvtsi2ssq xmm1, rm64`.
pub const CVTSI2SSQ_A: RegRm = without_imm!(RegRm, 567);
/// `cvtss2siq r64, xmm_m32`.
pub const CVTSS2SIQ_A: RegRm = without_imm!(RegRm, 568);
/// `cvttss2siq r64, xmm_m32`.
pub const CVTTSS2SIQ_A: RegRm = without_imm!(RegRm, 569);
/// `cvtsi2sdl xmm1, rm32`.
pub const CVTSI2SDL_A: RegRm = without_imm!(RegRm, 570);
/// `cvtsd2sil r32, xmm_m64`.
pub const CVTSD2SIL_A: RegRm = without_imm!(RegRm, 571);
/// `cvttsd2sil r32, xmm_m64`.
pub const CVTTSD2SIL_A: RegRm = without_imm!(RegRm, 572);
/// `cvtsi2sdq xmm1, rm64`.
pub const CVTSI2SDQ_A: RegRm = without_imm!(RegRm, 573);
/// `cvtsd2siq r64, xmm_m64`.
pub const CVTSD2SIQ_A: RegRm = without_imm!(RegRm, 574);
/// `cvttsd2siq r64, xmm_m64`.
pub const CVTTSD2SIQ_A: RegRm = without_imm!(RegRm, 575);
/// `cvtss2sd xmm1, xmm_m32`.
pub const CVTSS2SD_A: RegRm = without_imm!(RegRm, 576);
/// `cvtsd2ss xmm1, xmm_m64`.
pub const CVTSD2SS_A: RegRm = without_imm!(RegRm, 577);
/// `cvtps2pd xmm1, xmm_m64`.
pub const CVTPS2PD_A: RegRm = without_imm!(RegRm, 578);
/// `cvtpd2ps xmm1, xmm_m128`.
pub const CVTPD2PS_A: RegRm = without_imm!(RegRm, 579);
/// `cvtdq2ps xmm1, xmm_m128`.
pub const CVTDQ2PS_A: RegRm = without_imm!(RegRm, 580);
/// `cvttps2dq xmm1, xmm_m128`.
pub const CVTTPS2DQ_A: RegRm = without_imm!(RegRm, 581);
/// `cvtdq2pd xmm1, xmm_m64`.
pub const CVTDQ2PD_A: RegRm = without_imm!(RegRm, 582);
/// `cvttpd2dq xmm1, xmm_m128`.
pub const CVTTPD2DQ_A: RegRm = without_imm!(RegRm, 583);

/// Each constant is the line behind that of the one before it.
#[rattlefmt::skip]
fn in_order() -> [Op; 64]
    ensures { map (λ op. op.number) result ≡ range_with_len 520 64 }
{
    [
        ADDSS_A.op(), ADDSD_A.op(), MULSS_A.op(), MULSD_A.op(), SUBSS_A.op(), SUBSD_A.op(),
        MINSS_A.op(), MINSD_A.op(), DIVSS_A.op(), DIVSD_A.op(), MAXSS_A.op(), MAXSD_A.op(),
        SQRTSS_A.op(), SQRTSD_A.op(), UCOMISS_A.op(), UCOMISD_A.op(), ANDPD_A.op(), ANDNPS_A.op(),
        ANDNPD_A.op(), ORPS_A.op(), ORPD_A.op(), XORPS_A.op(), XORPD_A.op(), PXOR_A.op(),
        MOVSS_A_M.op(), MOVSS_C_M.op(), MOVSD_A_M.op(), MOVSD_C_M.op(), MOVAPS_A.op(),
        MOVAPS_B.op(), MOVAPD_A.op(), MOVAPD_B.op(), MOVUPS_A.op(), MOVUPS_B.op(), MOVUPD_A.op(),
        MOVUPD_B.op(), MOVDQA_A.op(), MOVDQA_B.op(), MOVDQU_A.op(), MOVDQU_B.op(), MOVD_A.op(),
        MOVQ_A.op(), MOVD_B.op(), MOVQ_B.op(), CVTSI2SSL_A.op(), CVTSS2SIL_A.op(),
        CVTTSS2SIL_A.op(), CVTSI2SSQ_A.op(), CVTSS2SIQ_A.op(), CVTTSS2SIQ_A.op(), CVTSI2SDL_A.op(),
        CVTSD2SIL_A.op(), CVTTSD2SIL_A.op(), CVTSI2SDQ_A.op(), CVTSD2SIQ_A.op(), CVTTSD2SIQ_A.op(),
        CVTSS2SD_A.op(), CVTSD2SS_A.op(), CVTPS2PD_A.op(), CVTPD2PS_A.op(), CVTDQ2PS_A.op(),
        CVTTPS2DQ_A.op(), CVTDQ2PD_A.op(), CVTTPD2DQ_A.op(),
    ]
}
