// Written by table/write.py from table/core.txt.
//! The rows of the assembler, which come first in the core.

ghost use Rattle.std.specs.Prelude.{◌≡◌, map};
ghost use Rattle.std.specs.List.{range_with_len};

use crate::makers::{Bare, Imm, Mem, MemImm, RegMem, RegRm, RegRmImm, RegVvvvRm, RegVvvvRmImm, Rm};
use std::marker::PhantomData;
use x64_lines::Op;

// `lock add`. (Intel SDM, volume 2, `ADD`.)

/// `lock addb m8, imm8`.
pub const LOCK_ADDB_MI: MemImm<u8> = with_imm!(MemImm, 0);
/// `lock addw m16, imm16`.
pub const LOCK_ADDW_MI: MemImm<u16> = with_imm!(MemImm, 1);
/// `lock addl m32, imm32`.
pub const LOCK_ADDL_MI: MemImm<u32> = with_imm!(MemImm, 2);
/// `lock addq m64, imm32`.
pub const LOCK_ADDQ_MI_SXL: MemImm<i32> = with_imm!(MemImm, 3);
/// `lock addl m32, imm8`.
pub const LOCK_ADDL_MI_SXB: MemImm<i8> = with_imm!(MemImm, 4);
/// `lock addq m64, imm8`.
pub const LOCK_ADDQ_MI_SXB: MemImm<i8> = with_imm!(MemImm, 5);
/// `lock addb m8, r8`.
pub const LOCK_ADDB_MR: RegMem = without_imm!(RegMem, 6);
/// `lock addw m16, r16`.
pub const LOCK_ADDW_MR: RegMem = without_imm!(RegMem, 7);
/// `lock addl m32, r32`.
pub const LOCK_ADDL_MR: RegMem = without_imm!(RegMem, 8);
/// `lock addq m64, r64`.
pub const LOCK_ADDQ_MR: RegMem = without_imm!(RegMem, 9);

// `lock or`. (Intel SDM, volume 2, `OR`.)

/// `lock orb m8, imm8`.
pub const LOCK_ORB_MI: MemImm<u8> = with_imm!(MemImm, 10);
/// `lock orw m16, imm16`.
pub const LOCK_ORW_MI: MemImm<u16> = with_imm!(MemImm, 11);
/// `lock orl m32, imm32`.
pub const LOCK_ORL_MI: MemImm<u32> = with_imm!(MemImm, 12);
/// `lock orq m64, imm32`.
pub const LOCK_ORQ_MI_SXL: MemImm<i32> = with_imm!(MemImm, 13);
/// `lock orl m32, imm8`.
pub const LOCK_ORL_MI_SXB: MemImm<i8> = with_imm!(MemImm, 14);
/// `lock orq m64, imm8`.
pub const LOCK_ORQ_MI_SXB: MemImm<i8> = with_imm!(MemImm, 15);
/// `lock orb m8, r8`.
pub const LOCK_ORB_MR: RegMem = without_imm!(RegMem, 16);
/// `lock orw m16, r16`.
pub const LOCK_ORW_MR: RegMem = without_imm!(RegMem, 17);
/// `lock orl m32, r32`.
pub const LOCK_ORL_MR: RegMem = without_imm!(RegMem, 18);
/// `lock orq m64, r64`.
pub const LOCK_ORQ_MR: RegMem = without_imm!(RegMem, 19);

// `lock adc`. (Intel SDM, volume 2, `ADC`.)

/// `lock adcb m8, imm8`.
pub const LOCK_ADCB_MI: MemImm<u8> = with_imm!(MemImm, 20);
/// `lock adcw m16, imm16`.
pub const LOCK_ADCW_MI: MemImm<u16> = with_imm!(MemImm, 21);
/// `lock adcl m32, imm32`.
pub const LOCK_ADCL_MI: MemImm<u32> = with_imm!(MemImm, 22);
/// `lock adcq m64, imm32`.
pub const LOCK_ADCQ_MI_SXL: MemImm<i32> = with_imm!(MemImm, 23);
/// `lock adcl m32, imm8`.
pub const LOCK_ADCL_MI_SXB: MemImm<i8> = with_imm!(MemImm, 24);
/// `lock adcq m64, imm8`.
pub const LOCK_ADCQ_MI_SXB: MemImm<i8> = with_imm!(MemImm, 25);
/// `lock adcb m8, r8`.
pub const LOCK_ADCB_MR: RegMem = without_imm!(RegMem, 26);
/// `lock adcw m16, r16`.
pub const LOCK_ADCW_MR: RegMem = without_imm!(RegMem, 27);
/// `lock adcl m32, r32`.
pub const LOCK_ADCL_MR: RegMem = without_imm!(RegMem, 28);
/// `lock adcq m64, r64`.
pub const LOCK_ADCQ_MR: RegMem = without_imm!(RegMem, 29);

// `lock sbb`. (Intel SDM, volume 2, `SBB`.)

/// `lock sbbb m8, imm8`.
pub const LOCK_SBBB_MI: MemImm<u8> = with_imm!(MemImm, 30);
/// `lock sbbw m16, imm16`.
pub const LOCK_SBBW_MI: MemImm<u16> = with_imm!(MemImm, 31);
/// `lock sbbl m32, imm32`.
pub const LOCK_SBBL_MI: MemImm<u32> = with_imm!(MemImm, 32);
/// `lock sbbq m64, imm32`.
pub const LOCK_SBBQ_MI_SXL: MemImm<i32> = with_imm!(MemImm, 33);
/// `lock sbbl m32, imm8`.
pub const LOCK_SBBL_MI_SXB: MemImm<i8> = with_imm!(MemImm, 34);
/// `lock sbbq m64, imm8`.
pub const LOCK_SBBQ_MI_SXB: MemImm<i8> = with_imm!(MemImm, 35);
/// `lock sbbb m8, r8`.
pub const LOCK_SBBB_MR: RegMem = without_imm!(RegMem, 36);
/// `lock sbbw m16, r16`.
pub const LOCK_SBBW_MR: RegMem = without_imm!(RegMem, 37);
/// `lock sbbl m32, r32`.
pub const LOCK_SBBL_MR: RegMem = without_imm!(RegMem, 38);
/// `lock sbbq m64, r64`.
pub const LOCK_SBBQ_MR: RegMem = without_imm!(RegMem, 39);

// `lock and`. (Intel SDM, volume 2, `AND`.)

/// `lock andb m8, imm8`.
pub const LOCK_ANDB_MI: MemImm<u8> = with_imm!(MemImm, 40);
/// `lock andw m16, imm16`.
pub const LOCK_ANDW_MI: MemImm<u16> = with_imm!(MemImm, 41);
/// `lock andl m32, imm32`.
pub const LOCK_ANDL_MI: MemImm<u32> = with_imm!(MemImm, 42);
/// `lock andq m64, imm32`.
pub const LOCK_ANDQ_MI_SXL: MemImm<i32> = with_imm!(MemImm, 43);
/// `lock andl m32, imm8`.
pub const LOCK_ANDL_MI_SXB: MemImm<i8> = with_imm!(MemImm, 44);
/// `lock andq m64, imm8`.
pub const LOCK_ANDQ_MI_SXB: MemImm<i8> = with_imm!(MemImm, 45);
/// `lock andb m8, r8`.
pub const LOCK_ANDB_MR: RegMem = without_imm!(RegMem, 46);
/// `lock andw m16, r16`.
pub const LOCK_ANDW_MR: RegMem = without_imm!(RegMem, 47);
/// `lock andl m32, r32`.
pub const LOCK_ANDL_MR: RegMem = without_imm!(RegMem, 48);
/// `lock andq m64, r64`.
pub const LOCK_ANDQ_MR: RegMem = without_imm!(RegMem, 49);

// `lock sub`. (Intel SDM, volume 2, `SUB`.)

/// `lock subb m8, imm8`.
pub const LOCK_SUBB_MI: MemImm<u8> = with_imm!(MemImm, 50);
/// `lock subw m16, imm16`.
pub const LOCK_SUBW_MI: MemImm<u16> = with_imm!(MemImm, 51);
/// `lock subl m32, imm32`.
pub const LOCK_SUBL_MI: MemImm<u32> = with_imm!(MemImm, 52);
/// `lock subq m64, imm32`.
pub const LOCK_SUBQ_MI_SXL: MemImm<i32> = with_imm!(MemImm, 53);
/// `lock subl m32, imm8`.
pub const LOCK_SUBL_MI_SXB: MemImm<i8> = with_imm!(MemImm, 54);
/// `lock subq m64, imm8`.
pub const LOCK_SUBQ_MI_SXB: MemImm<i8> = with_imm!(MemImm, 55);
/// `lock subb m8, r8`.
pub const LOCK_SUBB_MR: RegMem = without_imm!(RegMem, 56);
/// `lock subw m16, r16`.
pub const LOCK_SUBW_MR: RegMem = without_imm!(RegMem, 57);
/// `lock subl m32, r32`.
pub const LOCK_SUBL_MR: RegMem = without_imm!(RegMem, 58);
/// `lock subq m64, r64`.
pub const LOCK_SUBQ_MR: RegMem = without_imm!(RegMem, 59);

// `lock xor`. (Intel SDM, volume 2, `XOR`.)

/// `lock xorb m8, imm8`.
pub const LOCK_XORB_MI: MemImm<u8> = with_imm!(MemImm, 60);
/// `lock xorw m16, imm16`.
pub const LOCK_XORW_MI: MemImm<u16> = with_imm!(MemImm, 61);
/// `lock xorl m32, imm32`.
pub const LOCK_XORL_MI: MemImm<u32> = with_imm!(MemImm, 62);
/// `lock xorq m64, imm32`.
pub const LOCK_XORQ_MI_SXL: MemImm<i32> = with_imm!(MemImm, 63);
/// `lock xorl m32, imm8`.
pub const LOCK_XORL_MI_SXB: MemImm<i8> = with_imm!(MemImm, 64);
/// `lock xorq m64, imm8`.
pub const LOCK_XORQ_MI_SXB: MemImm<i8> = with_imm!(MemImm, 65);
/// `lock xorb m8, r8`.
pub const LOCK_XORB_MR: RegMem = without_imm!(RegMem, 66);
/// `lock xorw m16, r16`.
pub const LOCK_XORW_MR: RegMem = without_imm!(RegMem, 67);
/// `lock xorl m32, r32`.
pub const LOCK_XORL_MR: RegMem = without_imm!(RegMem, 68);
/// `lock xorq m64, r64`.
pub const LOCK_XORQ_MR: RegMem = without_imm!(RegMem, 69);

// `lock xadd`. (Intel SDM, volume 2, `XADD`.)

/// `lock xaddb m8, r8`.
pub const LOCK_XADDB_MR: RegMem = without_imm!(RegMem, 70);
/// `lock xaddw m16, r16`.
pub const LOCK_XADDW_MR: RegMem = without_imm!(RegMem, 71);
/// `lock xaddl m32, r32`.
pub const LOCK_XADDL_MR: RegMem = without_imm!(RegMem, 72);
/// `lock xaddq m64, r64`.
pub const LOCK_XADDQ_MR: RegMem = without_imm!(RegMem, 73);

// `lock cmpxchg`. (Intel SDM, volume 2, `CMPXCHG` and `CMPXCHG8B/CMPXCHG16B`.)

/// `lock cmpxchgb m8, r8`.
pub const LOCK_CMPXCHGB_MR: RegMem = without_imm!(RegMem, 74);
/// `lock cmpxchgw m16, r16`.
pub const LOCK_CMPXCHGW_MR: RegMem = without_imm!(RegMem, 75);
/// `lock cmpxchgl m32, r32`.
pub const LOCK_CMPXCHGL_MR: RegMem = without_imm!(RegMem, 76);
/// `lock cmpxchgq m64, r64`.
pub const LOCK_CMPXCHGQ_MR: RegMem = without_imm!(RegMem, 77);
/// `lock cmpxchg16b m128`.
pub const LOCK_CMPXCHG16B_M: Mem = without_imm!(Mem, 78);

// `xchg`. (Intel SDM, volume 2, `XCHG`.)

/// `xchgb r8, m8`.
pub const XCHGB_RM: RegMem = without_imm!(RegMem, 79);
/// `xchgw r16, m16`.
pub const XCHGW_RM: RegMem = without_imm!(RegMem, 80);
/// `xchgl r32, m32`.
pub const XCHGL_RM: RegMem = without_imm!(RegMem, 81);
/// `xchgq r64, m64`.
pub const XCHGQ_RM: RegMem = without_imm!(RegMem, 82);

// `rol` by one. (Intel SDM, volume 2, `RCL/RCR/ROL/ROR`.)

/// `rolb rm8`.
pub const ROLB_M1: Rm = without_imm!(Rm, 83);
/// `rolw rm16`.
pub const ROLW_M1: Rm = without_imm!(Rm, 84);
/// `roll rm32`.
pub const ROLL_M1: Rm = without_imm!(Rm, 85);
/// `rolq rm64`.
pub const ROLQ_M1: Rm = without_imm!(Rm, 86);

// `ror` by one. (Intel SDM, volume 2, `RCL/RCR/ROL/ROR`.)

/// `rorb rm8`.
pub const RORB_M1: Rm = without_imm!(Rm, 87);
/// `rorw rm16`.
pub const RORW_M1: Rm = without_imm!(Rm, 88);
/// `rorl rm32`.
pub const RORL_M1: Rm = without_imm!(Rm, 89);
/// `rorq rm64`.
pub const RORQ_M1: Rm = without_imm!(Rm, 90);

// `shl` by one. (Intel SDM, volume 2, `SAL/SAR/SHL/SHR`.)

/// `shlb rm8`.
pub const SHLB_M1: Rm = without_imm!(Rm, 91);
/// `shlw rm16`.
pub const SHLW_M1: Rm = without_imm!(Rm, 92);
/// `shll rm32`.
pub const SHLL_M1: Rm = without_imm!(Rm, 93);
/// `shlq rm64`.
pub const SHLQ_M1: Rm = without_imm!(Rm, 94);

// `shr` by one. (Intel SDM, volume 2, `SAL/SAR/SHL/SHR`.)

/// `shrb rm8`.
pub const SHRB_M1: Rm = without_imm!(Rm, 95);
/// `shrw rm16`.
pub const SHRW_M1: Rm = without_imm!(Rm, 96);
/// `shrl rm32`.
pub const SHRL_M1: Rm = without_imm!(Rm, 97);
/// `shrq rm64`.
pub const SHRQ_M1: Rm = without_imm!(Rm, 98);

// `sar` by one. (Intel SDM, volume 2, `SAL/SAR/SHL/SHR`.)

/// `sarb rm8`.
pub const SARB_M1: Rm = without_imm!(Rm, 99);
/// `sarw rm16`.
pub const SARW_M1: Rm = without_imm!(Rm, 100);
/// `sarl rm32`.
pub const SARL_M1: Rm = without_imm!(Rm, 101);
/// `sarq rm64`.
pub const SARQ_M1: Rm = without_imm!(Rm, 102);

// Jumps and calls to the place that a register or memory holds. (Intel SDM, volume 2, `JMP` and `CALL`.)

/// `callq rm64`.
pub const CALLQ_M: Rm = without_imm!(Rm, 103);
/// `jmpq rm64`.
pub const JMPQ_M: Rm = without_imm!(Rm, 104);

// `andps`. (Intel SDM, volume 2, `ANDPS`.)

/// `andps xmm1, xmm_m128`.
pub const ANDPS_A: RegRm = without_imm!(RegRm, 105);

// Comparisons. (Intel SDM, volume 2, `CMPPS`, `CMPPD`, `CMPSS` and `CMPSD`.)

/// `cmpps xmm1, xmm_m128, imm8`.
pub const CMPPS_A: RegRmImm<u8> = with_imm!(RegRmImm, 106);
/// `cmppd xmm1, xmm_m128, imm8`.
pub const CMPPD_A: RegRmImm<u8> = with_imm!(RegRmImm, 107);
/// `cmpss xmm1, xmm_m32, imm8`.
pub const CMPSS_A: RegRmImm<u8> = with_imm!(RegRmImm, 108);
/// `cmpsd xmm1, xmm_m64, imm8`.
pub const CMPSD_A: RegRmImm<u8> = with_imm!(RegRmImm, 109);

// `and`. (Intel SDM, volume 2, `AND`.)

/// `andb al, imm8`.
pub const ANDB_I: Imm<u8> = with_imm!(Imm, 110);

// Jumps and calls by a distance of four bytes. (Intel SDM, volume 2, `JMP`, `Jcc` and `CALL`.)

/// `callq imm32`.
pub const CALLQ_D: Imm<i32> = with_imm!(Imm, 111);

// Jumps by a distance of one byte. (Intel SDM, volume 2, `JMP` and `Jcc`.)

/// `jmp imm8`.
pub const JMP_D8: Imm<i8> = with_imm!(Imm, 112);

// Jumps and calls by a distance of four bytes. (Intel SDM, volume 2, `JMP`, `Jcc` and `CALL`.)

/// `jmp imm32`.
pub const JMP_D32: Imm<i32> = with_imm!(Imm, 113);

// Jumps by a distance of one byte. (Intel SDM, volume 2, `JMP` and `Jcc`.)

/// `jo imm8`.
pub const JO_D8: Imm<i8> = with_imm!(Imm, 114);
/// `jno imm8`.
pub const JNO_D8: Imm<i8> = with_imm!(Imm, 115);
/// `jb imm8`.
pub const JB_D8: Imm<i8> = with_imm!(Imm, 116);
/// `jae imm8`.
pub const JAE_D8: Imm<i8> = with_imm!(Imm, 117);
/// `je imm8`.
pub const JE_D8: Imm<i8> = with_imm!(Imm, 118);
/// `jne imm8`.
pub const JNE_D8: Imm<i8> = with_imm!(Imm, 119);
/// `jbe imm8`.
pub const JBE_D8: Imm<i8> = with_imm!(Imm, 120);
/// `ja imm8`.
pub const JA_D8: Imm<i8> = with_imm!(Imm, 121);
/// `js imm8`.
pub const JS_D8: Imm<i8> = with_imm!(Imm, 122);
/// `jns imm8`.
pub const JNS_D8: Imm<i8> = with_imm!(Imm, 123);
/// `jp imm8`.
pub const JP_D8: Imm<i8> = with_imm!(Imm, 124);
/// `jnp imm8`.
pub const JNP_D8: Imm<i8> = with_imm!(Imm, 125);
/// `jl imm8`.
pub const JL_D8: Imm<i8> = with_imm!(Imm, 126);
/// `jge imm8`.
pub const JGE_D8: Imm<i8> = with_imm!(Imm, 127);
/// `jle imm8`.
pub const JLE_D8: Imm<i8> = with_imm!(Imm, 128);
/// `jg imm8`.
pub const JG_D8: Imm<i8> = with_imm!(Imm, 129);

// Jumps and calls by a distance of four bytes. (Intel SDM, volume 2, `JMP`, `Jcc` and `CALL`.)

/// `jo imm32`.
pub const JO_D32: Imm<i32> = with_imm!(Imm, 130);
/// `jno imm32`.
pub const JNO_D32: Imm<i32> = with_imm!(Imm, 131);
/// `jb imm32`.
pub const JB_D32: Imm<i32> = with_imm!(Imm, 132);
/// `jae imm32`.
pub const JAE_D32: Imm<i32> = with_imm!(Imm, 133);
/// `je imm32`.
pub const JE_D32: Imm<i32> = with_imm!(Imm, 134);
/// `jne imm32`.
pub const JNE_D32: Imm<i32> = with_imm!(Imm, 135);
/// `jbe imm32`.
pub const JBE_D32: Imm<i32> = with_imm!(Imm, 136);
/// `ja imm32`.
pub const JA_D32: Imm<i32> = with_imm!(Imm, 137);
/// `js imm32`.
pub const JS_D32: Imm<i32> = with_imm!(Imm, 138);
/// `jns imm32`.
pub const JNS_D32: Imm<i32> = with_imm!(Imm, 139);
/// `jp imm32`.
pub const JP_D32: Imm<i32> = with_imm!(Imm, 140);
/// `jnp imm32`.
pub const JNP_D32: Imm<i32> = with_imm!(Imm, 141);
/// `jl imm32`.
pub const JL_D32: Imm<i32> = with_imm!(Imm, 142);
/// `jge imm32`.
pub const JGE_D32: Imm<i32> = with_imm!(Imm, 143);
/// `jle imm32`.
pub const JLE_D32: Imm<i32> = with_imm!(Imm, 144);
/// `jg imm32`.
pub const JG_D32: Imm<i32> = with_imm!(Imm, 145);

// VEX comparisons. (Intel SDM, volume 2, `CMPPS`, `CMPPD`, `CMPSS` and `CMPSD`.)

/// `vcmpps xmm1, xmm2, xmm_m128, imm8`.
pub const VCMPPS_B: RegVvvvRmImm<u8> = with_imm!(RegVvvvRmImm, 146);
/// `vcmppd xmm1, xmm2, xmm_m128, imm8`.
pub const VCMPPD_B: RegVvvvRmImm<u8> = with_imm!(RegVvvvRmImm, 147);
/// `vcmpss xmm1, xmm2, xmm_m32, imm8`.
pub const VCMPSS_B: RegVvvvRmImm<u8> = with_imm!(RegVvvvRmImm, 148);
/// `vcmpsd xmm1, xmm2, xmm_m64, imm8`.
pub const VCMPSD_B: RegVvvvRmImm<u8> = with_imm!(RegVvvvRmImm, 149);

// Conversions. (Intel SDM, volume 2, `CVTPD2PS` and `CVTTPD2DQ`.)

/// `vcvtpd2ps xmm1, xmm_m128`.
pub const VCVTPD2PS_A: RegRm = without_imm!(RegRm, 150);
/// `vcvttpd2dq xmm1, xmm_m128`.
pub const VCVTTPD2DQ_A: RegRm = without_imm!(RegRm, 151);

// `mulx`. (Intel SDM, volume 2, `MULX`.)

/// `mulxl r32a, r32b, rm32`.
pub const MULXL_RVM: RegVvvvRm = without_imm!(RegVvvvRm, 152);
/// `mulxq r64a, r64b, rm64`.
pub const MULXQ_RVM: RegVvvvRm = without_imm!(RegVvvvRm, 153);

// Instructions that do nothing. (Intel SDM, volume 2, `NOP`, table 4-12.)

/// `nop`.
pub const NOP_1B: Bare = without_imm!(Bare, 154);
/// `nop`.
pub const NOP_2B: Bare = without_imm!(Bare, 155);
/// `nop rm32`.
pub const NOPL_RM: Rm = without_imm!(Rm, 156);
/// `nop rm16`.
pub const NOPW_RM: Rm = without_imm!(Rm, 157);

/// Each constant is the line behind that of the one before it.
#[rattlefmt::skip]
fn in_order_from_lock_addb_mi() -> [Op; 53]
    ensures { map (λ op. op.number) result ≡ range_with_len 0 53 }
{
    [
        LOCK_ADDB_MI.op(), LOCK_ADDW_MI.op(), LOCK_ADDL_MI.op(), LOCK_ADDQ_MI_SXL.op(),
        LOCK_ADDL_MI_SXB.op(), LOCK_ADDQ_MI_SXB.op(), LOCK_ADDB_MR.op(), LOCK_ADDW_MR.op(),
        LOCK_ADDL_MR.op(), LOCK_ADDQ_MR.op(), LOCK_ORB_MI.op(), LOCK_ORW_MI.op(), LOCK_ORL_MI.op(),
        LOCK_ORQ_MI_SXL.op(), LOCK_ORL_MI_SXB.op(), LOCK_ORQ_MI_SXB.op(), LOCK_ORB_MR.op(),
        LOCK_ORW_MR.op(), LOCK_ORL_MR.op(), LOCK_ORQ_MR.op(), LOCK_ADCB_MI.op(), LOCK_ADCW_MI.op(),
        LOCK_ADCL_MI.op(), LOCK_ADCQ_MI_SXL.op(), LOCK_ADCL_MI_SXB.op(), LOCK_ADCQ_MI_SXB.op(),
        LOCK_ADCB_MR.op(), LOCK_ADCW_MR.op(), LOCK_ADCL_MR.op(), LOCK_ADCQ_MR.op(),
        LOCK_SBBB_MI.op(), LOCK_SBBW_MI.op(), LOCK_SBBL_MI.op(), LOCK_SBBQ_MI_SXL.op(),
        LOCK_SBBL_MI_SXB.op(), LOCK_SBBQ_MI_SXB.op(), LOCK_SBBB_MR.op(), LOCK_SBBW_MR.op(),
        LOCK_SBBL_MR.op(), LOCK_SBBQ_MR.op(), LOCK_ANDB_MI.op(), LOCK_ANDW_MI.op(),
        LOCK_ANDL_MI.op(), LOCK_ANDQ_MI_SXL.op(), LOCK_ANDL_MI_SXB.op(), LOCK_ANDQ_MI_SXB.op(),
        LOCK_ANDB_MR.op(), LOCK_ANDW_MR.op(), LOCK_ANDL_MR.op(), LOCK_ANDQ_MR.op(),
        LOCK_SUBB_MI.op(), LOCK_SUBW_MI.op(), LOCK_SUBL_MI.op(),
    ]
}

/// Each constant is the line behind that of the one before it.
#[rattlefmt::skip]
fn in_order_from_lock_subq_mi_sxl() -> [Op; 53]
    ensures { map (λ op. op.number) result ≡ range_with_len 53 53 }
{
    [
        LOCK_SUBQ_MI_SXL.op(), LOCK_SUBL_MI_SXB.op(), LOCK_SUBQ_MI_SXB.op(), LOCK_SUBB_MR.op(),
        LOCK_SUBW_MR.op(), LOCK_SUBL_MR.op(), LOCK_SUBQ_MR.op(), LOCK_XORB_MI.op(),
        LOCK_XORW_MI.op(), LOCK_XORL_MI.op(), LOCK_XORQ_MI_SXL.op(), LOCK_XORL_MI_SXB.op(),
        LOCK_XORQ_MI_SXB.op(), LOCK_XORB_MR.op(), LOCK_XORW_MR.op(), LOCK_XORL_MR.op(),
        LOCK_XORQ_MR.op(), LOCK_XADDB_MR.op(), LOCK_XADDW_MR.op(), LOCK_XADDL_MR.op(),
        LOCK_XADDQ_MR.op(), LOCK_CMPXCHGB_MR.op(), LOCK_CMPXCHGW_MR.op(), LOCK_CMPXCHGL_MR.op(),
        LOCK_CMPXCHGQ_MR.op(), LOCK_CMPXCHG16B_M.op(), XCHGB_RM.op(), XCHGW_RM.op(), XCHGL_RM.op(),
        XCHGQ_RM.op(), ROLB_M1.op(), ROLW_M1.op(), ROLL_M1.op(), ROLQ_M1.op(), RORB_M1.op(),
        RORW_M1.op(), RORL_M1.op(), RORQ_M1.op(), SHLB_M1.op(), SHLW_M1.op(), SHLL_M1.op(),
        SHLQ_M1.op(), SHRB_M1.op(), SHRW_M1.op(), SHRL_M1.op(), SHRQ_M1.op(), SARB_M1.op(),
        SARW_M1.op(), SARL_M1.op(), SARQ_M1.op(), CALLQ_M.op(), JMPQ_M.op(), ANDPS_A.op(),
    ]
}

/// Each constant is the line behind that of the one before it.
#[rattlefmt::skip]
fn in_order_from_cmpps_a() -> [Op; 52]
    ensures { map (λ op. op.number) result ≡ range_with_len 106 52 }
{
    [
        CMPPS_A.op(), CMPPD_A.op(), CMPSS_A.op(), CMPSD_A.op(), ANDB_I.op(), CALLQ_D.op(),
        JMP_D8.op(), JMP_D32.op(), JO_D8.op(), JNO_D8.op(), JB_D8.op(), JAE_D8.op(), JE_D8.op(),
        JNE_D8.op(), JBE_D8.op(), JA_D8.op(), JS_D8.op(), JNS_D8.op(), JP_D8.op(), JNP_D8.op(),
        JL_D8.op(), JGE_D8.op(), JLE_D8.op(), JG_D8.op(), JO_D32.op(), JNO_D32.op(), JB_D32.op(),
        JAE_D32.op(), JE_D32.op(), JNE_D32.op(), JBE_D32.op(), JA_D32.op(), JS_D32.op(),
        JNS_D32.op(), JP_D32.op(), JNP_D32.op(), JL_D32.op(), JGE_D32.op(), JLE_D32.op(),
        JG_D32.op(), VCMPPS_B.op(), VCMPPD_B.op(), VCMPSS_B.op(), VCMPSD_B.op(), VCVTPD2PS_A.op(),
        VCVTTPD2DQ_A.op(), MULXL_RVM.op(), MULXQ_RVM.op(), NOP_1B.op(), NOP_2B.op(), NOPL_RM.op(),
        NOPW_RM.op(),
    ]
}
