// Written by table/write.py from table/core.txt.
//! The eight arithmetic operations, and `test`.

ghost use Rattle.std.specs.Prelude.{◌≡◌, map};
ghost use Rattle.std.specs.List.{range_with_len};

use crate::makers::{Imm, RegMem, RegRm, RmImm};
use std::marker::PhantomData;
use x64_lines::Op;

// Additions. (Intel SDM, volume 2, `ADD`.)

/// `addb al, imm8`.
pub const ADDB_I: Imm<u8> = with_imm!(Imm, 158);
/// `addb rm8, imm8`.
pub const ADDB_MI: RmImm<u8> = with_imm!(RmImm, 159);
/// `addb m8, r8`.
pub const ADDB_MR: RegMem = without_imm!(RegMem, 160);
/// `addb r8, m8`.
pub const ADDB_RM: RegMem = without_imm!(RegMem, 161);
/// `addw ax, imm16`.
pub const ADDW_I: Imm<u16> = with_imm!(Imm, 162);
/// `addw rm16, imm16`.
pub const ADDW_MI: RmImm<u16> = with_imm!(RmImm, 163);
/// `addw rm16, r16`.
pub const ADDW_MR: RegRm = without_imm!(RegRm, 164);
/// `addw r16, rm16`.
pub const ADDW_RM: RegRm = without_imm!(RegRm, 165);
/// `addl eax, imm32`.
pub const ADDL_I: Imm<u32> = with_imm!(Imm, 166);
/// `addl rm32, imm32`.
pub const ADDL_MI: RmImm<u32> = with_imm!(RmImm, 167);
/// `addl rm32, imm8`.
pub const ADDL_MI_SXB: RmImm<i8> = with_imm!(RmImm, 168);
/// `addl rm32, r32`.
pub const ADDL_MR: RegRm = without_imm!(RegRm, 169);
/// `addl r32, rm32`.
pub const ADDL_RM: RegRm = without_imm!(RegRm, 170);
/// `addq rm64, imm32`.
pub const ADDQ_MI_SXL: RmImm<i32> = with_imm!(RmImm, 171);
/// `addq rm64, imm8`.
pub const ADDQ_MI_SXB: RmImm<i8> = with_imm!(RmImm, 172);
/// `addq rm64, r64`.
pub const ADDQ_MR: RegRm = without_imm!(RegRm, 173);
/// `addq r64, rm64`.
pub const ADDQ_RM: RegRm = without_imm!(RegRm, 174);

// Bitwise OR. (Intel SDM, volume 2, `OR`.)

/// `orb al, imm8`.
pub const ORB_I: Imm<u8> = with_imm!(Imm, 175);
/// `orb rm8, imm8`.
pub const ORB_MI: RmImm<u8> = with_imm!(RmImm, 176);
/// `orb m8, r8`.
pub const ORB_MR: RegMem = without_imm!(RegMem, 177);
/// `orb r8, m8`.
pub const ORB_RM: RegMem = without_imm!(RegMem, 178);
/// `orw ax, imm16`.
pub const ORW_I: Imm<u16> = with_imm!(Imm, 179);
/// `orw rm16, imm16`.
pub const ORW_MI: RmImm<u16> = with_imm!(RmImm, 180);
/// `orw rm16, r16`.
pub const ORW_MR: RegRm = without_imm!(RegRm, 181);
/// `orw r16, rm16`.
pub const ORW_RM: RegRm = without_imm!(RegRm, 182);
/// `orl eax, imm32`.
pub const ORL_I: Imm<u32> = with_imm!(Imm, 183);
/// `orl rm32, imm32`.
pub const ORL_MI: RmImm<u32> = with_imm!(RmImm, 184);
/// `orl rm32, imm8`.
pub const ORL_MI_SXB: RmImm<i8> = with_imm!(RmImm, 185);
/// `orl rm32, r32`.
pub const ORL_MR: RegRm = without_imm!(RegRm, 186);
/// `orl r32, rm32`.
pub const ORL_RM: RegRm = without_imm!(RegRm, 187);
/// `orq rm64, imm32`.
pub const ORQ_MI_SXL: RmImm<i32> = with_imm!(RmImm, 188);
/// `orq rm64, imm8`.
pub const ORQ_MI_SXB: RmImm<i8> = with_imm!(RmImm, 189);
/// `orq rm64, r64`.
pub const ORQ_MR: RegRm = without_imm!(RegRm, 190);
/// `orq r64, rm64`.
pub const ORQ_RM: RegRm = without_imm!(RegRm, 191);

// Additions with carry. (Intel SDM, volume 2, `ADC`.)

/// `adcb al, imm8`.
pub const ADCB_I: Imm<u8> = with_imm!(Imm, 192);
/// `adcb rm8, imm8`.
pub const ADCB_MI: RmImm<u8> = with_imm!(RmImm, 193);
/// `adcb m8, r8`.
pub const ADCB_MR: RegMem = without_imm!(RegMem, 194);
/// `adcb r8, m8`.
pub const ADCB_RM: RegMem = without_imm!(RegMem, 195);
/// `adcw ax, imm16`.
pub const ADCW_I: Imm<u16> = with_imm!(Imm, 196);
/// `adcw rm16, imm16`.
pub const ADCW_MI: RmImm<u16> = with_imm!(RmImm, 197);
/// `adcw rm16, r16`.
pub const ADCW_MR: RegRm = without_imm!(RegRm, 198);
/// `adcw r16, rm16`.
pub const ADCW_RM: RegRm = without_imm!(RegRm, 199);
/// `adcl eax, imm32`.
pub const ADCL_I: Imm<u32> = with_imm!(Imm, 200);
/// `adcl rm32, imm32`.
pub const ADCL_MI: RmImm<u32> = with_imm!(RmImm, 201);
/// `adcl rm32, imm8`.
pub const ADCL_MI_SXB: RmImm<i8> = with_imm!(RmImm, 202);
/// `adcl rm32, r32`.
pub const ADCL_MR: RegRm = without_imm!(RegRm, 203);
/// `adcl r32, rm32`.
pub const ADCL_RM: RegRm = without_imm!(RegRm, 204);
/// `adcq rm64, imm32`.
pub const ADCQ_MI_SXL: RmImm<i32> = with_imm!(RmImm, 205);
/// `adcq rm64, imm8`.
pub const ADCQ_MI_SXB: RmImm<i8> = with_imm!(RmImm, 206);
/// `adcq rm64, r64`.
pub const ADCQ_MR: RegRm = without_imm!(RegRm, 207);
/// `adcq r64, rm64`.
pub const ADCQ_RM: RegRm = without_imm!(RegRm, 208);

// Subtractions with borrow. (Intel SDM, volume 2, `SBB`.)

/// `sbbb al, imm8`.
pub const SBBB_I: Imm<u8> = with_imm!(Imm, 209);
/// `sbbb rm8, imm8`.
pub const SBBB_MI: RmImm<u8> = with_imm!(RmImm, 210);
/// `sbbb m8, r8`.
pub const SBBB_MR: RegMem = without_imm!(RegMem, 211);
/// `sbbb r8, m8`.
pub const SBBB_RM: RegMem = without_imm!(RegMem, 212);
/// `sbbw ax, imm16`.
pub const SBBW_I: Imm<u16> = with_imm!(Imm, 213);
/// `sbbw rm16, imm16`.
pub const SBBW_MI: RmImm<u16> = with_imm!(RmImm, 214);
/// `sbbw rm16, r16`.
pub const SBBW_MR: RegRm = without_imm!(RegRm, 215);
/// `sbbw r16, rm16`.
pub const SBBW_RM: RegRm = without_imm!(RegRm, 216);
/// `sbbl eax, imm32`.
pub const SBBL_I: Imm<u32> = with_imm!(Imm, 217);
/// `sbbl rm32, imm32`.
pub const SBBL_MI: RmImm<u32> = with_imm!(RmImm, 218);
/// `sbbl rm32, imm8`.
pub const SBBL_MI_SXB: RmImm<i8> = with_imm!(RmImm, 219);
/// `sbbl rm32, r32`.
pub const SBBL_MR: RegRm = without_imm!(RegRm, 220);
/// `sbbl r32, rm32`.
pub const SBBL_RM: RegRm = without_imm!(RegRm, 221);
/// `sbbq rm64, imm32`.
pub const SBBQ_MI_SXL: RmImm<i32> = with_imm!(RmImm, 222);
/// `sbbq rm64, imm8`.
pub const SBBQ_MI_SXB: RmImm<i8> = with_imm!(RmImm, 223);
/// `sbbq rm64, r64`.
pub const SBBQ_MR: RegRm = without_imm!(RegRm, 224);
/// `sbbq r64, rm64`.
pub const SBBQ_RM: RegRm = without_imm!(RegRm, 225);

// Bitwise AND. (Intel SDM, volume 2, `AND`.)

/// `andb rm8, imm8`.
pub const ANDB_MI: RmImm<u8> = with_imm!(RmImm, 226);
/// `andb m8, r8`.
pub const ANDB_MR: RegMem = without_imm!(RegMem, 227);
/// `andb r8, m8`.
pub const ANDB_RM: RegMem = without_imm!(RegMem, 228);
/// `andw ax, imm16`.
pub const ANDW_I: Imm<u16> = with_imm!(Imm, 229);
/// `andw rm16, imm16`.
pub const ANDW_MI: RmImm<u16> = with_imm!(RmImm, 230);
/// `andw rm16, r16`.
pub const ANDW_MR: RegRm = without_imm!(RegRm, 231);
/// `andw r16, rm16`.
pub const ANDW_RM: RegRm = without_imm!(RegRm, 232);
/// `andl eax, imm32`.
pub const ANDL_I: Imm<u32> = with_imm!(Imm, 233);
/// `andl rm32, imm32`.
pub const ANDL_MI: RmImm<u32> = with_imm!(RmImm, 234);
/// `andl rm32, imm8`.
pub const ANDL_MI_SXB: RmImm<i8> = with_imm!(RmImm, 235);
/// `andl rm32, r32`.
pub const ANDL_MR: RegRm = without_imm!(RegRm, 236);
/// `andl r32, rm32`.
pub const ANDL_RM: RegRm = without_imm!(RegRm, 237);
/// `andq rm64, imm32`.
pub const ANDQ_MI_SXL: RmImm<i32> = with_imm!(RmImm, 238);
/// `andq rm64, imm8`.
pub const ANDQ_MI_SXB: RmImm<i8> = with_imm!(RmImm, 239);
/// `andq rm64, r64`.
pub const ANDQ_MR: RegRm = without_imm!(RegRm, 240);
/// `andq r64, rm64`.
pub const ANDQ_RM: RegRm = without_imm!(RegRm, 241);

// Subtractions. (Intel SDM, volume 2, `SUB`.)

/// `subb al, imm8`.
pub const SUBB_I: Imm<u8> = with_imm!(Imm, 242);
/// `subb rm8, imm8`.
pub const SUBB_MI: RmImm<u8> = with_imm!(RmImm, 243);
/// `subb m8, r8`.
pub const SUBB_MR: RegMem = without_imm!(RegMem, 244);
/// `subb r8, m8`.
pub const SUBB_RM: RegMem = without_imm!(RegMem, 245);
/// `subw ax, imm16`.
pub const SUBW_I: Imm<u16> = with_imm!(Imm, 246);
/// `subw rm16, imm16`.
pub const SUBW_MI: RmImm<u16> = with_imm!(RmImm, 247);
/// `subw rm16, r16`.
pub const SUBW_MR: RegRm = without_imm!(RegRm, 248);
/// `subw r16, rm16`.
pub const SUBW_RM: RegRm = without_imm!(RegRm, 249);
/// `subl eax, imm32`.
pub const SUBL_I: Imm<u32> = with_imm!(Imm, 250);
/// `subl rm32, imm32`.
pub const SUBL_MI: RmImm<u32> = with_imm!(RmImm, 251);
/// `subl rm32, imm8`.
pub const SUBL_MI_SXB: RmImm<i8> = with_imm!(RmImm, 252);
/// `subl rm32, r32`.
pub const SUBL_MR: RegRm = without_imm!(RegRm, 253);
/// `subl r32, rm32`.
pub const SUBL_RM: RegRm = without_imm!(RegRm, 254);
/// `subq rm64, imm32`.
pub const SUBQ_MI_SXL: RmImm<i32> = with_imm!(RmImm, 255);
/// `subq rm64, imm8`.
pub const SUBQ_MI_SXB: RmImm<i8> = with_imm!(RmImm, 256);
/// `subq rm64, r64`.
pub const SUBQ_MR: RegRm = without_imm!(RegRm, 257);
/// `subq r64, rm64`.
pub const SUBQ_RM: RegRm = without_imm!(RegRm, 258);

// Bitwise XOR. (Intel SDM, volume 2, `XOR`.)

/// `xorb al, imm8`.
pub const XORB_I: Imm<u8> = with_imm!(Imm, 259);
/// `xorb rm8, imm8`.
pub const XORB_MI: RmImm<u8> = with_imm!(RmImm, 260);
/// `xorb m8, r8`.
pub const XORB_MR: RegMem = without_imm!(RegMem, 261);
/// `xorb r8, m8`.
pub const XORB_RM: RegMem = without_imm!(RegMem, 262);
/// `xorw ax, imm16`.
pub const XORW_I: Imm<u16> = with_imm!(Imm, 263);
/// `xorw rm16, imm16`.
pub const XORW_MI: RmImm<u16> = with_imm!(RmImm, 264);
/// `xorw rm16, r16`.
pub const XORW_MR: RegRm = without_imm!(RegRm, 265);
/// `xorw r16, rm16`.
pub const XORW_RM: RegRm = without_imm!(RegRm, 266);
/// `xorl eax, imm32`.
pub const XORL_I: Imm<u32> = with_imm!(Imm, 267);
/// `xorl rm32, imm32`.
pub const XORL_MI: RmImm<u32> = with_imm!(RmImm, 268);
/// `xorl rm32, imm8`.
pub const XORL_MI_SXB: RmImm<i8> = with_imm!(RmImm, 269);
/// `xorl rm32, r32`.
pub const XORL_MR: RegRm = without_imm!(RegRm, 270);
/// `xorl r32, rm32`.
pub const XORL_RM: RegRm = without_imm!(RegRm, 271);
/// `xorq rm64, imm32`.
pub const XORQ_MI_SXL: RmImm<i32> = with_imm!(RmImm, 272);
/// `xorq rm64, imm8`.
pub const XORQ_MI_SXB: RmImm<i8> = with_imm!(RmImm, 273);
/// `xorq rm64, r64`.
pub const XORQ_MR: RegRm = without_imm!(RegRm, 274);
/// `xorq r64, rm64`.
pub const XORQ_RM: RegRm = without_imm!(RegRm, 275);

// Comparisons. (Intel SDM, volume 2, `CMP`.)

/// `cmpb al, imm8`.
pub const CMPB_I: Imm<u8> = with_imm!(Imm, 276);
/// `cmpb rm8, imm8`.
pub const CMPB_MI: RmImm<u8> = with_imm!(RmImm, 277);
/// `cmpb m8, r8`.
pub const CMPB_MR: RegMem = without_imm!(RegMem, 278);
/// `cmpb r8, m8`.
pub const CMPB_RM: RegMem = without_imm!(RegMem, 279);
/// `cmpw ax, imm16`.
pub const CMPW_I: Imm<u16> = with_imm!(Imm, 280);
/// `cmpw rm16, imm16`.
pub const CMPW_MI: RmImm<u16> = with_imm!(RmImm, 281);
/// `cmpw rm16, r16`.
pub const CMPW_MR: RegRm = without_imm!(RegRm, 282);
/// `cmpw r16, rm16`.
pub const CMPW_RM: RegRm = without_imm!(RegRm, 283);
/// `cmpl eax, imm32`.
pub const CMPL_I: Imm<u32> = with_imm!(Imm, 284);
/// `cmpl rm32, imm32`.
pub const CMPL_MI: RmImm<u32> = with_imm!(RmImm, 285);
/// `cmpl rm32, imm8`.
pub const CMPL_MI_SXB: RmImm<i8> = with_imm!(RmImm, 286);
/// `cmpl rm32, r32`.
pub const CMPL_MR: RegRm = without_imm!(RegRm, 287);
/// `cmpl r32, rm32`.
pub const CMPL_RM: RegRm = without_imm!(RegRm, 288);
/// `cmpq rm64, imm32`.
pub const CMPQ_MI_SXL: RmImm<i32> = with_imm!(RmImm, 289);
/// `cmpq rm64, imm8`.
pub const CMPQ_MI_SXB: RmImm<i8> = with_imm!(RmImm, 290);
/// `cmpq rm64, r64`.
pub const CMPQ_MR: RegRm = without_imm!(RegRm, 291);
/// `cmpq r64, rm64`.
pub const CMPQ_RM: RegRm = without_imm!(RegRm, 292);

// Tests of bits. (Intel SDM, volume 2, `TEST`.)

/// `testb al, imm8`.
pub const TESTB_I: Imm<u8> = with_imm!(Imm, 293);
/// `testb rm8, imm8`.
pub const TESTB_MI: RmImm<u8> = with_imm!(RmImm, 294);
/// `testb m8, r8`.
pub const TESTB_MR: RegMem = without_imm!(RegMem, 295);
/// `testw ax, imm16`.
pub const TESTW_I: Imm<u16> = with_imm!(Imm, 296);
/// `testw rm16, imm16`.
pub const TESTW_MI: RmImm<u16> = with_imm!(RmImm, 297);
/// `testw rm16, r16`.
pub const TESTW_MR: RegRm = without_imm!(RegRm, 298);
/// `testl eax, imm32`.
pub const TESTL_I: Imm<u32> = with_imm!(Imm, 299);
/// `testl rm32, imm32`.
pub const TESTL_MI: RmImm<u32> = with_imm!(RmImm, 300);
/// `testl rm32, r32`.
pub const TESTL_MR: RegRm = without_imm!(RegRm, 301);
/// `testq rm64, imm32`.
pub const TESTQ_MI_SXL: RmImm<i32> = with_imm!(RmImm, 302);
/// `testq rm64, r64`.
pub const TESTQ_MR: RegRm = without_imm!(RegRm, 303);

/// Each constant is the line behind that of the one before it.
#[rattlefmt::skip]
fn in_order_from_addb_i() -> [Op; 49]
    ensures { map (λ op. op.number) result ≡ range_with_len 158 49 }
{
    [
        ADDB_I.op(), ADDB_MI.op(), ADDB_MR.op(), ADDB_RM.op(), ADDW_I.op(), ADDW_MI.op(),
        ADDW_MR.op(), ADDW_RM.op(), ADDL_I.op(), ADDL_MI.op(), ADDL_MI_SXB.op(), ADDL_MR.op(),
        ADDL_RM.op(), ADDQ_MI_SXL.op(), ADDQ_MI_SXB.op(), ADDQ_MR.op(), ADDQ_RM.op(), ORB_I.op(),
        ORB_MI.op(), ORB_MR.op(), ORB_RM.op(), ORW_I.op(), ORW_MI.op(), ORW_MR.op(), ORW_RM.op(),
        ORL_I.op(), ORL_MI.op(), ORL_MI_SXB.op(), ORL_MR.op(), ORL_RM.op(), ORQ_MI_SXL.op(),
        ORQ_MI_SXB.op(), ORQ_MR.op(), ORQ_RM.op(), ADCB_I.op(), ADCB_MI.op(), ADCB_MR.op(),
        ADCB_RM.op(), ADCW_I.op(), ADCW_MI.op(), ADCW_MR.op(), ADCW_RM.op(), ADCL_I.op(),
        ADCL_MI.op(), ADCL_MI_SXB.op(), ADCL_MR.op(), ADCL_RM.op(), ADCQ_MI_SXL.op(),
        ADCQ_MI_SXB.op(),
    ]
}

/// Each constant is the line behind that of the one before it.
#[rattlefmt::skip]
fn in_order_from_adcq_mr() -> [Op; 49]
    ensures { map (λ op. op.number) result ≡ range_with_len 207 49 }
{
    [
        ADCQ_MR.op(), ADCQ_RM.op(), SBBB_I.op(), SBBB_MI.op(), SBBB_MR.op(), SBBB_RM.op(),
        SBBW_I.op(), SBBW_MI.op(), SBBW_MR.op(), SBBW_RM.op(), SBBL_I.op(), SBBL_MI.op(),
        SBBL_MI_SXB.op(), SBBL_MR.op(), SBBL_RM.op(), SBBQ_MI_SXL.op(), SBBQ_MI_SXB.op(),
        SBBQ_MR.op(), SBBQ_RM.op(), ANDB_MI.op(), ANDB_MR.op(), ANDB_RM.op(), ANDW_I.op(),
        ANDW_MI.op(), ANDW_MR.op(), ANDW_RM.op(), ANDL_I.op(), ANDL_MI.op(), ANDL_MI_SXB.op(),
        ANDL_MR.op(), ANDL_RM.op(), ANDQ_MI_SXL.op(), ANDQ_MI_SXB.op(), ANDQ_MR.op(), ANDQ_RM.op(),
        SUBB_I.op(), SUBB_MI.op(), SUBB_MR.op(), SUBB_RM.op(), SUBW_I.op(), SUBW_MI.op(),
        SUBW_MR.op(), SUBW_RM.op(), SUBL_I.op(), SUBL_MI.op(), SUBL_MI_SXB.op(), SUBL_MR.op(),
        SUBL_RM.op(), SUBQ_MI_SXL.op(),
    ]
}

/// Each constant is the line behind that of the one before it.
#[rattlefmt::skip]
fn in_order_from_subq_mi_sxb() -> [Op; 48]
    ensures { map (λ op. op.number) result ≡ range_with_len 256 48 }
{
    [
        SUBQ_MI_SXB.op(), SUBQ_MR.op(), SUBQ_RM.op(), XORB_I.op(), XORB_MI.op(), XORB_MR.op(),
        XORB_RM.op(), XORW_I.op(), XORW_MI.op(), XORW_MR.op(), XORW_RM.op(), XORL_I.op(),
        XORL_MI.op(), XORL_MI_SXB.op(), XORL_MR.op(), XORL_RM.op(), XORQ_MI_SXL.op(),
        XORQ_MI_SXB.op(), XORQ_MR.op(), XORQ_RM.op(), CMPB_I.op(), CMPB_MI.op(), CMPB_MR.op(),
        CMPB_RM.op(), CMPW_I.op(), CMPW_MI.op(), CMPW_MR.op(), CMPW_RM.op(), CMPL_I.op(),
        CMPL_MI.op(), CMPL_MI_SXB.op(), CMPL_MR.op(), CMPL_RM.op(), CMPQ_MI_SXL.op(),
        CMPQ_MI_SXB.op(), CMPQ_MR.op(), CMPQ_RM.op(), TESTB_I.op(), TESTB_MI.op(), TESTB_MR.op(),
        TESTW_I.op(), TESTW_MI.op(), TESTW_MR.op(), TESTL_I.op(), TESTL_MI.op(), TESTL_MR.op(),
        TESTQ_MI_SXL.op(), TESTQ_MR.op(),
    ]
}
