//! Instructions of the core, as real code has them: half of them are moves and arithmetic of a register and a register or
//! memory, a quarter has an immediate.

use cranelift_assembler_x64::{GprMem, XmmMem};
use huqmeris::Core;
use huqmeris::makers::{RegRm, Rm, RmImm};
use huqmeris::ops::arithmetic::{
    ADDL_RM, ADDQ_MI_SXB, ADDQ_MI_SXL, ADDQ_MR, ADDQ_RM, ANDL_RM, ANDQ_MI_SXB, CMPL_RM,
    CMPQ_MI_SXB, CMPQ_MI_SXL, CMPQ_RM, ORQ_RM, SUBL_RM, SUBQ_MI_SXB, SUBQ_MI_SXL, SUBQ_RM,
    TESTQ_MR, XORL_RM,
};
use huqmeris::ops::bits::{BTQ_MR, TZCNTQ_RM};
use huqmeris::ops::conditions::{CMOVEQ_RM, CMOVLQ_RM, SETE_M, SETL_M};
use huqmeris::ops::control::{POPQ_M, PUSHQ_M, RETQ_ZO};
use huqmeris::ops::moves::{MOVL_MR, MOVL_RM, MOVQ_MI_SXL, MOVQ_MR, MOVQ_RM, MOVSLQ_RM, MOVZWL_RM};
use huqmeris::ops::multiplication::{IMULQ_RM, NEGQ_M, NOTQ_M};
use huqmeris::ops::scalar::{ADDSD_A, DIVSD_A, MOVAPS_A, MOVUPS_B, MULSD_A, SUBSD_A, UCOMISD_A};
use huqmeris::ops::shifts::{SARQ_MC, SARQ_MI, SHLQ_MC, SHLQ_MI, SHRQ_MI};
use workload_source::maker::Maker;

fn gpr(m: &mut Maker) -> u8 {
    *m.gpr::<u8>().as_ref()
}

fn xmm(m: &mut Maker) -> u8 {
    *m.xmm::<u8>().as_ref()
}

fn common(kind: u8) -> RegRm {
    match kind % 16 {
        0..=3 => MOVQ_RM,
        4 | 5 => MOVQ_MR,
        6 => MOVL_RM,
        7 => MOVL_MR,
        8 => ADDQ_RM,
        9 => SUBQ_RM,
        10 => CMPQ_RM,
        11 => XORL_RM,
        12 => ADDL_RM,
        13 => TESTQ_MR,
        14 => IMULQ_RM,
        _ => CMPL_RM,
    }
}

fn rarer(kind: u8) -> RegRm {
    match kind % 10 {
        0 => ADDQ_MR,
        1 => ANDL_RM,
        2 => ORQ_RM,
        3 => SUBL_RM,
        4 => CMOVEQ_RM,
        5 => CMOVLQ_RM,
        6 => MOVSLQ_RM,
        7 => MOVZWL_RM,
        8 => TZCNTQ_RM,
        _ => BTQ_MR,
    }
}

fn vector(kind: u8) -> RegRm {
    match kind % 7 {
        0 => ADDSD_A,
        1 => SUBSD_A,
        2 => MULSD_A,
        3 => DIVSD_A,
        4 => UCOMISD_A,
        5 => MOVAPS_A,
        _ => MOVUPS_B,
    }
}

fn alone(kind: u8) -> Rm {
    match kind % 8 {
        0 => NEGQ_M,
        1 => NOTQ_M,
        2 => SETE_M,
        3 => SETL_M,
        4 => PUSHQ_M,
        5 => POPQ_M,
        6 => SHLQ_MC,
        _ => SARQ_MC,
    }
}

fn with_byte(kind: u8) -> RmImm<i8> {
    match kind % 4 {
        0 => ADDQ_MI_SXB,
        1 => SUBQ_MI_SXB,
        2 => CMPQ_MI_SXB,
        _ => ANDQ_MI_SXB,
    }
}

fn with_word(kind: u8) -> RmImm<i32> {
    match kind % 4 {
        0 => MOVQ_MI_SXL,
        1 => ADDQ_MI_SXL,
        2 => SUBQ_MI_SXL,
        _ => CMPQ_MI_SXL,
    }
}

fn shift(kind: u8) -> RmImm<u8> {
    match kind % 3 {
        0 => SHLQ_MI,
        1 => SHRQ_MI,
        _ => SARQ_MI,
    }
}

fn of_general(line: RegRm, m: &mut Maker) -> Core {
    let reg = gpr(m);
    match m.gpr_mem::<u8>() {
        GprMem::Gpr(rm) => line.regs(reg, rm),
        GprMem::Mem(address) => line.mem(reg, address),
    }
}

fn of_vector(line: RegRm, m: &mut Maker) -> Core {
    let reg = xmm(m);
    match m.xmm_mem::<u8>() {
        XmmMem::Xmm(rm) => line.regs(reg, rm),
        XmmMem::Mem(address) => line.mem(reg, address),
    }
}

fn of_place(line: Rm, m: &mut Maker) -> Core {
    match m.gpr_mem::<u8>() {
        GprMem::Gpr(rm) => line.reg(rm),
        GprMem::Mem(address) => line.mem(address),
    }
}

/// The next instruction.
pub(crate) fn make(m: &mut Maker) -> Core {
    let [group, kind, ..] = m.random.bytes();
    match group {
        0..=127 => of_general(common(kind), m),
        128..=151 => of_general(rarer(kind), m),
        152..=171 => of_vector(vector(kind), m),
        172..=187 => of_place(alone(kind), m),
        188..=223 => {
            let imm = m.simm8().value();
            match m.gpr_mem::<u8>() {
                GprMem::Gpr(rm) => with_byte(kind).reg(rm, imm),
                GprMem::Mem(address) => with_byte(kind).mem(address, imm),
            }
        }
        224..=243 => {
            let imm = m.simm32().value();
            match m.gpr_mem::<u8>() {
                GprMem::Gpr(rm) => with_word(kind).reg(rm, imm),
                GprMem::Mem(address) => with_word(kind).mem(address, imm),
            }
        }
        244..=251 => {
            let count = m.imm8().value() % 64;
            match m.gpr_mem::<u8>() {
                GprMem::Gpr(rm) => shift(kind).reg(rm, count),
                GprMem::Mem(address) => shift(kind).mem(address, count),
            }
        }
        _ => RETQ_ZO.bare(),
    }
}
