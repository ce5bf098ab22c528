//! Signatures of rows of each group, beside what the manual says of their instructions. (Intel SDM, volume 2, the pages
//! of the instructions.)

use cax64_machine_code::row::Row;
use cax64_operand::laws::laws_of_signatures;
use cax64_operand::{Numbers, signature};
use std::alloc::{AllocError, Global};

/// Whether the signature of the row prints so.
fn is(alloc: Global, row: Row, kinds: &str) -> Result<bool, AllocError> {
    let text = format!(in alloc; "{:?}", signature(row))?;
    Ok(text.as_str() == kinds)
}

#[test]
fn signatures_are_the_manuals_operands(rt: HostRuntime) -> Result<(), AllocError> {
    laws_of_signatures::<Numbers>();
    let expected = [
        // ADC m8, imm8
        (Row::lock_adcb_mi, "[ReadAmode, Imm(Imm8)]"),
        // SUB m64, imm32, which is sign-extended to 64 bits
        (
            Row::lock_subq_mi_sxl,
            "[ReadAmode, Imm(Simm32(SignExtendQuad))]",
        ),
        // OR m32, imm8, which is sign-extended to 32 bits
        (
            Row::lock_orl_mi_sxb,
            "[ReadAmode, Imm(Simm8(SignExtendLong))]",
        ),
        // XOR m16, r16
        (Row::lock_xorw_mr, "[ReadAmode, ReadGpr(Word)]"),
        // XADD m64, r64: the register is read and written.
        (Row::lock_xaddq_mr, "[ReadWriteGpr(Quadword), ReadAmode]"),
        // CMPXCHG m32, r32: EAX is compared, and loaded.
        (
            Row::lock_cmpxchgl_mr,
            "[ReadAmode, ReadGpr(Doubleword), FixedReadWriteGpr(0, None)]",
        ),
        // CMPXCHG16B m128: RDX:RAX is compared, and loaded; RCX:RBX is stored.
        (
            Row::lock_cmpxchg16b_m,
            "[ReadAmode, FixedReadWriteGpr(0, None), FixedReadWriteGpr(2, None), FixedReadGpr(1, None), FixedReadGpr(3, None)]",
        ),
        // SAR r/m16, 1
        (Row::sarw_m1, "[ReadWriteGprMem(Word)]"),
        // CALL r/m64
        (Row::callq_m, "[ReadGprMem(Quadword)]"),
        // ANDPS xmm1, xmm2/m128
        (Row::andps_a, "[ReadWriteXmm, ReadXmmMem]"),
        // CMPSD xmm1, xmm2/m64, imm8
        (Row::cmpsd_a, "[ReadWriteXmm, ReadXmmMem, Imm(Predicate)]"),
        // AND AL, imm8
        (Row::andb_i, "[FixedReadWriteGpr(0, Some(Byte)), Imm(Imm8)]"),
        // JNE rel8
        (Row::jne_d8, "[Imm(Distance8)]"),
        // VCMPPS xmm1, xmm2, xmm3/m128, imm8
        (
            Row::vcmpps_b,
            "[WriteXmm, ReadXmm, ReadXmmMem, Imm(VexPredicate)]",
        ),
        // VCVTPD2PS xmm1, xmm2/m128
        (Row::vcvtpd2ps_a, "[WriteXmm, ReadXmmMem]"),
        // MULX r32a, r32b, r/m32: EDX is the other factor.
        (
            Row::mulxl_rvm,
            "[WriteTwoGprs(Doubleword), ReadGprMem(Doubleword), FixedReadGpr(2, None)]",
        ),
        // NOP
        (Row::nop_1b, "[]"),
        // NOP r/m16
        (Row::nopw_rm, "[ReadGprMem(Word)]"),
    ];
    for (row, kinds) in expected {
        assert!(rt; is(rt.alloc(), row, kinds)?, "{:?}", row);
    }
    Ok(())
}

#[test]
fn signatures_are_compared(rt: HostRuntime) {
    assert!(rt; signature(Row::lock_addb_mi) == signature(Row::lock_xorb_mi));
    assert!(rt; signature(Row::mulxl_rvm) != signature(Row::mulxq_rvm));
    assert!(rt; signature(Row::cmpps_a) != signature(Row::vcmpps_b));
}
