//! The lines of the core as values, which are compared with bytes.

ghost use Rattle.std.specs.Prelude.{◌≡◌, ◌<◌, length, slice_index_or};
ghost use Rattle.cax64_reader.specs.Lengths.{HasSize};
ghost use Rattle.x64_lines.specs.Line.{core_line, no_line};

use cax64_machine_code::line::{
    ImmField, LegacySet, Line, Opcode, PlaceField, PrefixField, RegField, TailField, VvvvField,
};
use x64_lines::Op;

/// These of F0, 66, F2 and F3, behind which a REX byte may stand.
macro_rules! plain {
    ($lock:literal, $operand_size:literal, $repne:literal, $rep:literal) => {
        PrefixField::LegacyField(LegacySet { lock: $lock, operand_size: $operand_size, repne: $repne, rep: $rep }, true)
    };
}

/// These of F0, 66, F2 and F3, and no REX byte.
macro_rules! without_rex {
    ($lock:literal, $operand_size:literal, $repne:literal, $rep:literal) => {
        PrefixField::LegacyField(LegacySet { lock: $lock, operand_size: $operand_size, repne: $repne, rep: $rep }, false)
    };
}

/// VEX with these pp, map and L, and a register in vvvv.
macro_rules! vex {
    ($pp:literal, $map:literal, $l:literal) => { PrefixField::VexField($pp, $map, $l, VvvvField::VvvvRegister) };
}

/// VEX with these pp, map and L, and no register in vvvv.
macro_rules! vex_1111 {
    ($pp:literal, $map:literal, $l:literal) => { PrefixField::VexField($pp, $map, $l, VvvvField::Stored1111) };
}

/// An opcode byte.
macro_rules! byte {
    ($byte:literal) => { Opcode { escape: false, byte: $byte } };
}

/// An opcode byte behind 0F.
macro_rules! escaped {
    ($byte:literal) => { Opcode { escape: true, byte: $byte } };
}

/// A line.
macro_rules! line {
    ($prefix:expr, $w:expr, $opcode:expr, $tail:expr, $imm:expr) => { Line { prefix: $prefix, w: $w, opcode: $opcode, tail: $tail, imm: $imm } };
}

/// Of the rows, and of the lines of `table/core.txt` behind them, each named beside its value.
// table/write.py: lines
#[rattlefmt::skip]
static LINES: [Line; 584] = [
    line!(plain!(true, false, false, false), None, byte!(0x80), TailField::Modrm(RegField::Digit(0), PlaceField::Memory), ImmField::Imm(1)), // lock_addb_mi
    line!(plain!(true, true, false, false), Some(0), byte!(0x81), TailField::Modrm(RegField::Digit(0), PlaceField::Memory), ImmField::Imm(2)), // lock_addw_mi
    line!(plain!(true, false, false, false), Some(0), byte!(0x81), TailField::Modrm(RegField::Digit(0), PlaceField::Memory), ImmField::Imm(4)), // lock_addl_mi
    line!(plain!(true, false, false, false), Some(1), byte!(0x81), TailField::Modrm(RegField::Digit(0), PlaceField::Memory), ImmField::Simm(4)), // lock_addq_mi_sxl
    line!(plain!(true, false, false, false), Some(0), byte!(0x83), TailField::Modrm(RegField::Digit(0), PlaceField::Memory), ImmField::Simm(1)), // lock_addl_mi_sxb
    line!(plain!(true, false, false, false), Some(1), byte!(0x83), TailField::Modrm(RegField::Digit(0), PlaceField::Memory), ImmField::Simm(1)), // lock_addq_mi_sxb
    line!(plain!(true, false, false, false), None, byte!(0x00), TailField::Modrm(RegField::Register8, PlaceField::Memory), ImmField::NoImm), // lock_addb_mr
    line!(plain!(true, true, false, false), Some(0), byte!(0x01), TailField::Modrm(RegField::Register, PlaceField::Memory), ImmField::NoImm), // lock_addw_mr
    line!(plain!(true, false, false, false), Some(0), byte!(0x01), TailField::Modrm(RegField::Register, PlaceField::Memory), ImmField::NoImm), // lock_addl_mr
    line!(plain!(true, false, false, false), Some(1), byte!(0x01), TailField::Modrm(RegField::Register, PlaceField::Memory), ImmField::NoImm), // lock_addq_mr
    line!(plain!(true, false, false, false), None, byte!(0x80), TailField::Modrm(RegField::Digit(1), PlaceField::Memory), ImmField::Imm(1)), // lock_orb_mi
    line!(plain!(true, true, false, false), Some(0), byte!(0x81), TailField::Modrm(RegField::Digit(1), PlaceField::Memory), ImmField::Imm(2)), // lock_orw_mi
    line!(plain!(true, false, false, false), Some(0), byte!(0x81), TailField::Modrm(RegField::Digit(1), PlaceField::Memory), ImmField::Imm(4)), // lock_orl_mi
    line!(plain!(true, false, false, false), Some(1), byte!(0x81), TailField::Modrm(RegField::Digit(1), PlaceField::Memory), ImmField::Simm(4)), // lock_orq_mi_sxl
    line!(plain!(true, false, false, false), Some(0), byte!(0x83), TailField::Modrm(RegField::Digit(1), PlaceField::Memory), ImmField::Simm(1)), // lock_orl_mi_sxb
    line!(plain!(true, false, false, false), Some(1), byte!(0x83), TailField::Modrm(RegField::Digit(1), PlaceField::Memory), ImmField::Simm(1)), // lock_orq_mi_sxb
    line!(plain!(true, false, false, false), None, byte!(0x08), TailField::Modrm(RegField::Register8, PlaceField::Memory), ImmField::NoImm), // lock_orb_mr
    line!(plain!(true, true, false, false), Some(0), byte!(0x09), TailField::Modrm(RegField::Register, PlaceField::Memory), ImmField::NoImm), // lock_orw_mr
    line!(plain!(true, false, false, false), Some(0), byte!(0x09), TailField::Modrm(RegField::Register, PlaceField::Memory), ImmField::NoImm), // lock_orl_mr
    line!(plain!(true, false, false, false), Some(1), byte!(0x09), TailField::Modrm(RegField::Register, PlaceField::Memory), ImmField::NoImm), // lock_orq_mr
    line!(plain!(true, false, false, false), None, byte!(0x80), TailField::Modrm(RegField::Digit(2), PlaceField::Memory), ImmField::Imm(1)), // lock_adcb_mi
    line!(plain!(true, true, false, false), Some(0), byte!(0x81), TailField::Modrm(RegField::Digit(2), PlaceField::Memory), ImmField::Imm(2)), // lock_adcw_mi
    line!(plain!(true, false, false, false), Some(0), byte!(0x81), TailField::Modrm(RegField::Digit(2), PlaceField::Memory), ImmField::Imm(4)), // lock_adcl_mi
    line!(plain!(true, false, false, false), Some(1), byte!(0x81), TailField::Modrm(RegField::Digit(2), PlaceField::Memory), ImmField::Simm(4)), // lock_adcq_mi_sxl
    line!(plain!(true, false, false, false), Some(0), byte!(0x83), TailField::Modrm(RegField::Digit(2), PlaceField::Memory), ImmField::Simm(1)), // lock_adcl_mi_sxb
    line!(plain!(true, false, false, false), Some(1), byte!(0x83), TailField::Modrm(RegField::Digit(2), PlaceField::Memory), ImmField::Simm(1)), // lock_adcq_mi_sxb
    line!(plain!(true, false, false, false), None, byte!(0x10), TailField::Modrm(RegField::Register8, PlaceField::Memory), ImmField::NoImm), // lock_adcb_mr
    line!(plain!(true, true, false, false), Some(0), byte!(0x11), TailField::Modrm(RegField::Register, PlaceField::Memory), ImmField::NoImm), // lock_adcw_mr
    line!(plain!(true, false, false, false), Some(0), byte!(0x11), TailField::Modrm(RegField::Register, PlaceField::Memory), ImmField::NoImm), // lock_adcl_mr
    line!(plain!(true, false, false, false), Some(1), byte!(0x11), TailField::Modrm(RegField::Register, PlaceField::Memory), ImmField::NoImm), // lock_adcq_mr
    line!(plain!(true, false, false, false), None, byte!(0x80), TailField::Modrm(RegField::Digit(3), PlaceField::Memory), ImmField::Imm(1)), // lock_sbbb_mi
    line!(plain!(true, true, false, false), Some(0), byte!(0x81), TailField::Modrm(RegField::Digit(3), PlaceField::Memory), ImmField::Imm(2)), // lock_sbbw_mi
    line!(plain!(true, false, false, false), Some(0), byte!(0x81), TailField::Modrm(RegField::Digit(3), PlaceField::Memory), ImmField::Imm(4)), // lock_sbbl_mi
    line!(plain!(true, false, false, false), Some(1), byte!(0x81), TailField::Modrm(RegField::Digit(3), PlaceField::Memory), ImmField::Simm(4)), // lock_sbbq_mi_sxl
    line!(plain!(true, false, false, false), Some(0), byte!(0x83), TailField::Modrm(RegField::Digit(3), PlaceField::Memory), ImmField::Simm(1)), // lock_sbbl_mi_sxb
    line!(plain!(true, false, false, false), Some(1), byte!(0x83), TailField::Modrm(RegField::Digit(3), PlaceField::Memory), ImmField::Simm(1)), // lock_sbbq_mi_sxb
    line!(plain!(true, false, false, false), None, byte!(0x18), TailField::Modrm(RegField::Register8, PlaceField::Memory), ImmField::NoImm), // lock_sbbb_mr
    line!(plain!(true, true, false, false), Some(0), byte!(0x19), TailField::Modrm(RegField::Register, PlaceField::Memory), ImmField::NoImm), // lock_sbbw_mr
    line!(plain!(true, false, false, false), Some(0), byte!(0x19), TailField::Modrm(RegField::Register, PlaceField::Memory), ImmField::NoImm), // lock_sbbl_mr
    line!(plain!(true, false, false, false), Some(1), byte!(0x19), TailField::Modrm(RegField::Register, PlaceField::Memory), ImmField::NoImm), // lock_sbbq_mr
    line!(plain!(true, false, false, false), None, byte!(0x80), TailField::Modrm(RegField::Digit(4), PlaceField::Memory), ImmField::Imm(1)), // lock_andb_mi
    line!(plain!(true, true, false, false), Some(0), byte!(0x81), TailField::Modrm(RegField::Digit(4), PlaceField::Memory), ImmField::Imm(2)), // lock_andw_mi
    line!(plain!(true, false, false, false), Some(0), byte!(0x81), TailField::Modrm(RegField::Digit(4), PlaceField::Memory), ImmField::Imm(4)), // lock_andl_mi
    line!(plain!(true, false, false, false), Some(1), byte!(0x81), TailField::Modrm(RegField::Digit(4), PlaceField::Memory), ImmField::Simm(4)), // lock_andq_mi_sxl
    line!(plain!(true, false, false, false), Some(0), byte!(0x83), TailField::Modrm(RegField::Digit(4), PlaceField::Memory), ImmField::Simm(1)), // lock_andl_mi_sxb
    line!(plain!(true, false, false, false), Some(1), byte!(0x83), TailField::Modrm(RegField::Digit(4), PlaceField::Memory), ImmField::Simm(1)), // lock_andq_mi_sxb
    line!(plain!(true, false, false, false), None, byte!(0x20), TailField::Modrm(RegField::Register8, PlaceField::Memory), ImmField::NoImm), // lock_andb_mr
    line!(plain!(true, true, false, false), Some(0), byte!(0x21), TailField::Modrm(RegField::Register, PlaceField::Memory), ImmField::NoImm), // lock_andw_mr
    line!(plain!(true, false, false, false), Some(0), byte!(0x21), TailField::Modrm(RegField::Register, PlaceField::Memory), ImmField::NoImm), // lock_andl_mr
    line!(plain!(true, false, false, false), Some(1), byte!(0x21), TailField::Modrm(RegField::Register, PlaceField::Memory), ImmField::NoImm), // lock_andq_mr
    line!(plain!(true, false, false, false), None, byte!(0x80), TailField::Modrm(RegField::Digit(5), PlaceField::Memory), ImmField::Imm(1)), // lock_subb_mi
    line!(plain!(true, true, false, false), Some(0), byte!(0x81), TailField::Modrm(RegField::Digit(5), PlaceField::Memory), ImmField::Imm(2)), // lock_subw_mi
    line!(plain!(true, false, false, false), Some(0), byte!(0x81), TailField::Modrm(RegField::Digit(5), PlaceField::Memory), ImmField::Imm(4)), // lock_subl_mi
    line!(plain!(true, false, false, false), Some(1), byte!(0x81), TailField::Modrm(RegField::Digit(5), PlaceField::Memory), ImmField::Simm(4)), // lock_subq_mi_sxl
    line!(plain!(true, false, false, false), Some(0), byte!(0x83), TailField::Modrm(RegField::Digit(5), PlaceField::Memory), ImmField::Simm(1)), // lock_subl_mi_sxb
    line!(plain!(true, false, false, false), Some(1), byte!(0x83), TailField::Modrm(RegField::Digit(5), PlaceField::Memory), ImmField::Simm(1)), // lock_subq_mi_sxb
    line!(plain!(true, false, false, false), None, byte!(0x28), TailField::Modrm(RegField::Register8, PlaceField::Memory), ImmField::NoImm), // lock_subb_mr
    line!(plain!(true, true, false, false), Some(0), byte!(0x29), TailField::Modrm(RegField::Register, PlaceField::Memory), ImmField::NoImm), // lock_subw_mr
    line!(plain!(true, false, false, false), Some(0), byte!(0x29), TailField::Modrm(RegField::Register, PlaceField::Memory), ImmField::NoImm), // lock_subl_mr
    line!(plain!(true, false, false, false), Some(1), byte!(0x29), TailField::Modrm(RegField::Register, PlaceField::Memory), ImmField::NoImm), // lock_subq_mr
    line!(plain!(true, false, false, false), None, byte!(0x80), TailField::Modrm(RegField::Digit(6), PlaceField::Memory), ImmField::Imm(1)), // lock_xorb_mi
    line!(plain!(true, true, false, false), Some(0), byte!(0x81), TailField::Modrm(RegField::Digit(6), PlaceField::Memory), ImmField::Imm(2)), // lock_xorw_mi
    line!(plain!(true, false, false, false), Some(0), byte!(0x81), TailField::Modrm(RegField::Digit(6), PlaceField::Memory), ImmField::Imm(4)), // lock_xorl_mi
    line!(plain!(true, false, false, false), Some(1), byte!(0x81), TailField::Modrm(RegField::Digit(6), PlaceField::Memory), ImmField::Simm(4)), // lock_xorq_mi_sxl
    line!(plain!(true, false, false, false), Some(0), byte!(0x83), TailField::Modrm(RegField::Digit(6), PlaceField::Memory), ImmField::Simm(1)), // lock_xorl_mi_sxb
    line!(plain!(true, false, false, false), Some(1), byte!(0x83), TailField::Modrm(RegField::Digit(6), PlaceField::Memory), ImmField::Simm(1)), // lock_xorq_mi_sxb
    line!(plain!(true, false, false, false), None, byte!(0x30), TailField::Modrm(RegField::Register8, PlaceField::Memory), ImmField::NoImm), // lock_xorb_mr
    line!(plain!(true, true, false, false), Some(0), byte!(0x31), TailField::Modrm(RegField::Register, PlaceField::Memory), ImmField::NoImm), // lock_xorw_mr
    line!(plain!(true, false, false, false), Some(0), byte!(0x31), TailField::Modrm(RegField::Register, PlaceField::Memory), ImmField::NoImm), // lock_xorl_mr
    line!(plain!(true, false, false, false), Some(1), byte!(0x31), TailField::Modrm(RegField::Register, PlaceField::Memory), ImmField::NoImm), // lock_xorq_mr
    line!(plain!(true, false, false, false), None, escaped!(0xC0), TailField::Modrm(RegField::Register8, PlaceField::Memory), ImmField::NoImm), // lock_xaddb_mr
    line!(plain!(true, true, false, false), Some(0), escaped!(0xC1), TailField::Modrm(RegField::Register, PlaceField::Memory), ImmField::NoImm), // lock_xaddw_mr
    line!(plain!(true, false, false, false), Some(0), escaped!(0xC1), TailField::Modrm(RegField::Register, PlaceField::Memory), ImmField::NoImm), // lock_xaddl_mr
    line!(plain!(true, false, false, false), Some(1), escaped!(0xC1), TailField::Modrm(RegField::Register, PlaceField::Memory), ImmField::NoImm), // lock_xaddq_mr
    line!(plain!(true, false, false, false), None, escaped!(0xB0), TailField::Modrm(RegField::Register8, PlaceField::Memory), ImmField::NoImm), // lock_cmpxchgb_mr
    line!(plain!(true, true, false, false), Some(0), escaped!(0xB1), TailField::Modrm(RegField::Register, PlaceField::Memory), ImmField::NoImm), // lock_cmpxchgw_mr
    line!(plain!(true, false, false, false), Some(0), escaped!(0xB1), TailField::Modrm(RegField::Register, PlaceField::Memory), ImmField::NoImm), // lock_cmpxchgl_mr
    line!(plain!(true, false, false, false), Some(1), escaped!(0xB1), TailField::Modrm(RegField::Register, PlaceField::Memory), ImmField::NoImm), // lock_cmpxchgq_mr
    line!(plain!(true, false, false, false), Some(1), escaped!(0xC7), TailField::Modrm(RegField::Digit(1), PlaceField::Memory), ImmField::NoImm), // lock_cmpxchg16b_m
    line!(plain!(false, false, false, false), None, byte!(0x86), TailField::Modrm(RegField::Register8, PlaceField::Memory), ImmField::NoImm), // xchgb_rm
    line!(plain!(false, true, false, false), Some(0), byte!(0x87), TailField::Modrm(RegField::Register, PlaceField::Memory), ImmField::NoImm), // xchgw_rm
    line!(plain!(false, false, false, false), Some(0), byte!(0x87), TailField::Modrm(RegField::Register, PlaceField::Memory), ImmField::NoImm), // xchgl_rm
    line!(plain!(false, false, false, false), Some(1), byte!(0x87), TailField::Modrm(RegField::Register, PlaceField::Memory), ImmField::NoImm), // xchgq_rm
    line!(plain!(false, false, false, false), None, byte!(0xD0), TailField::Modrm(RegField::Digit(0), PlaceField::Register8OrMemory), ImmField::NoImm), // rolb_m1
    line!(plain!(false, true, false, false), Some(0), byte!(0xD1), TailField::Modrm(RegField::Digit(0), PlaceField::RegisterOrMemory), ImmField::NoImm), // rolw_m1
    line!(plain!(false, false, false, false), Some(0), byte!(0xD1), TailField::Modrm(RegField::Digit(0), PlaceField::RegisterOrMemory), ImmField::NoImm), // roll_m1
    line!(plain!(false, false, false, false), Some(1), byte!(0xD1), TailField::Modrm(RegField::Digit(0), PlaceField::RegisterOrMemory), ImmField::NoImm), // rolq_m1
    line!(plain!(false, false, false, false), None, byte!(0xD0), TailField::Modrm(RegField::Digit(1), PlaceField::Register8OrMemory), ImmField::NoImm), // rorb_m1
    line!(plain!(false, true, false, false), Some(0), byte!(0xD1), TailField::Modrm(RegField::Digit(1), PlaceField::RegisterOrMemory), ImmField::NoImm), // rorw_m1
    line!(plain!(false, false, false, false), Some(0), byte!(0xD1), TailField::Modrm(RegField::Digit(1), PlaceField::RegisterOrMemory), ImmField::NoImm), // rorl_m1
    line!(plain!(false, false, false, false), Some(1), byte!(0xD1), TailField::Modrm(RegField::Digit(1), PlaceField::RegisterOrMemory), ImmField::NoImm), // rorq_m1
    line!(plain!(false, false, false, false), None, byte!(0xD0), TailField::Modrm(RegField::Digit(4), PlaceField::Register8OrMemory), ImmField::NoImm), // shlb_m1
    line!(plain!(false, true, false, false), Some(0), byte!(0xD1), TailField::Modrm(RegField::Digit(4), PlaceField::RegisterOrMemory), ImmField::NoImm), // shlw_m1
    line!(plain!(false, false, false, false), Some(0), byte!(0xD1), TailField::Modrm(RegField::Digit(4), PlaceField::RegisterOrMemory), ImmField::NoImm), // shll_m1
    line!(plain!(false, false, false, false), Some(1), byte!(0xD1), TailField::Modrm(RegField::Digit(4), PlaceField::RegisterOrMemory), ImmField::NoImm), // shlq_m1
    line!(plain!(false, false, false, false), None, byte!(0xD0), TailField::Modrm(RegField::Digit(5), PlaceField::Register8OrMemory), ImmField::NoImm), // shrb_m1
    line!(plain!(false, true, false, false), Some(0), byte!(0xD1), TailField::Modrm(RegField::Digit(5), PlaceField::RegisterOrMemory), ImmField::NoImm), // shrw_m1
    line!(plain!(false, false, false, false), Some(0), byte!(0xD1), TailField::Modrm(RegField::Digit(5), PlaceField::RegisterOrMemory), ImmField::NoImm), // shrl_m1
    line!(plain!(false, false, false, false), Some(1), byte!(0xD1), TailField::Modrm(RegField::Digit(5), PlaceField::RegisterOrMemory), ImmField::NoImm), // shrq_m1
    line!(plain!(false, false, false, false), None, byte!(0xD0), TailField::Modrm(RegField::Digit(7), PlaceField::Register8OrMemory), ImmField::NoImm), // sarb_m1
    line!(plain!(false, true, false, false), Some(0), byte!(0xD1), TailField::Modrm(RegField::Digit(7), PlaceField::RegisterOrMemory), ImmField::NoImm), // sarw_m1
    line!(plain!(false, false, false, false), Some(0), byte!(0xD1), TailField::Modrm(RegField::Digit(7), PlaceField::RegisterOrMemory), ImmField::NoImm), // sarl_m1
    line!(plain!(false, false, false, false), Some(1), byte!(0xD1), TailField::Modrm(RegField::Digit(7), PlaceField::RegisterOrMemory), ImmField::NoImm), // sarq_m1
    line!(plain!(false, false, false, false), None, byte!(0xFF), TailField::Modrm(RegField::Digit(2), PlaceField::RegisterOrMemory), ImmField::NoImm), // callq_m
    line!(plain!(false, false, false, false), None, byte!(0xFF), TailField::Modrm(RegField::Digit(4), PlaceField::RegisterOrMemory), ImmField::NoImm), // jmpq_m
    line!(plain!(false, false, false, false), None, escaped!(0x54), TailField::Modrm(RegField::Register, PlaceField::RegisterOrMemory), ImmField::NoImm), // andps_a
    line!(plain!(false, false, false, false), None, escaped!(0xC2), TailField::Modrm(RegField::Register, PlaceField::RegisterOrMemory), ImmField::Imm(1)), // cmpps_a
    line!(plain!(false, true, false, false), None, escaped!(0xC2), TailField::Modrm(RegField::Register, PlaceField::RegisterOrMemory), ImmField::Imm(1)), // cmppd_a
    line!(plain!(false, false, false, true), None, escaped!(0xC2), TailField::Modrm(RegField::Register, PlaceField::RegisterOrMemory), ImmField::Imm(1)), // cmpss_a
    line!(plain!(false, false, true, false), None, escaped!(0xC2), TailField::Modrm(RegField::Register, PlaceField::RegisterOrMemory), ImmField::Imm(1)), // cmpsd_a
    line!(plain!(false, false, false, false), None, byte!(0x24), TailField::NoTail, ImmField::Imm(1)), // andb_i
    line!(plain!(false, false, false, false), None, byte!(0xE8), TailField::NoTail, ImmField::Simm(4)), // callq_d
    line!(plain!(false, false, false, false), None, byte!(0xEB), TailField::NoTail, ImmField::Simm(1)), // jmp_d8
    line!(plain!(false, false, false, false), None, byte!(0xE9), TailField::NoTail, ImmField::Simm(4)), // jmp_d32
    line!(plain!(false, false, false, false), None, byte!(0x70), TailField::NoTail, ImmField::Simm(1)), // jo_d8
    line!(plain!(false, false, false, false), None, byte!(0x71), TailField::NoTail, ImmField::Simm(1)), // jno_d8
    line!(plain!(false, false, false, false), None, byte!(0x72), TailField::NoTail, ImmField::Simm(1)), // jb_d8
    line!(plain!(false, false, false, false), None, byte!(0x73), TailField::NoTail, ImmField::Simm(1)), // jae_d8
    line!(plain!(false, false, false, false), None, byte!(0x74), TailField::NoTail, ImmField::Simm(1)), // je_d8
    line!(plain!(false, false, false, false), None, byte!(0x75), TailField::NoTail, ImmField::Simm(1)), // jne_d8
    line!(plain!(false, false, false, false), None, byte!(0x76), TailField::NoTail, ImmField::Simm(1)), // jbe_d8
    line!(plain!(false, false, false, false), None, byte!(0x77), TailField::NoTail, ImmField::Simm(1)), // ja_d8
    line!(plain!(false, false, false, false), None, byte!(0x78), TailField::NoTail, ImmField::Simm(1)), // js_d8
    line!(plain!(false, false, false, false), None, byte!(0x79), TailField::NoTail, ImmField::Simm(1)), // jns_d8
    line!(plain!(false, false, false, false), None, byte!(0x7A), TailField::NoTail, ImmField::Simm(1)), // jp_d8
    line!(plain!(false, false, false, false), None, byte!(0x7B), TailField::NoTail, ImmField::Simm(1)), // jnp_d8
    line!(plain!(false, false, false, false), None, byte!(0x7C), TailField::NoTail, ImmField::Simm(1)), // jl_d8
    line!(plain!(false, false, false, false), None, byte!(0x7D), TailField::NoTail, ImmField::Simm(1)), // jge_d8
    line!(plain!(false, false, false, false), None, byte!(0x7E), TailField::NoTail, ImmField::Simm(1)), // jle_d8
    line!(plain!(false, false, false, false), None, byte!(0x7F), TailField::NoTail, ImmField::Simm(1)), // jg_d8
    line!(plain!(false, false, false, false), None, escaped!(0x80), TailField::NoTail, ImmField::Simm(4)), // jo_d32
    line!(plain!(false, false, false, false), None, escaped!(0x81), TailField::NoTail, ImmField::Simm(4)), // jno_d32
    line!(plain!(false, false, false, false), None, escaped!(0x82), TailField::NoTail, ImmField::Simm(4)), // jb_d32
    line!(plain!(false, false, false, false), None, escaped!(0x83), TailField::NoTail, ImmField::Simm(4)), // jae_d32
    line!(plain!(false, false, false, false), None, escaped!(0x84), TailField::NoTail, ImmField::Simm(4)), // je_d32
    line!(plain!(false, false, false, false), None, escaped!(0x85), TailField::NoTail, ImmField::Simm(4)), // jne_d32
    line!(plain!(false, false, false, false), None, escaped!(0x86), TailField::NoTail, ImmField::Simm(4)), // jbe_d32
    line!(plain!(false, false, false, false), None, escaped!(0x87), TailField::NoTail, ImmField::Simm(4)), // ja_d32
    line!(plain!(false, false, false, false), None, escaped!(0x88), TailField::NoTail, ImmField::Simm(4)), // js_d32
    line!(plain!(false, false, false, false), None, escaped!(0x89), TailField::NoTail, ImmField::Simm(4)), // jns_d32
    line!(plain!(false, false, false, false), None, escaped!(0x8A), TailField::NoTail, ImmField::Simm(4)), // jp_d32
    line!(plain!(false, false, false, false), None, escaped!(0x8B), TailField::NoTail, ImmField::Simm(4)), // jnp_d32
    line!(plain!(false, false, false, false), None, escaped!(0x8C), TailField::NoTail, ImmField::Simm(4)), // jl_d32
    line!(plain!(false, false, false, false), None, escaped!(0x8D), TailField::NoTail, ImmField::Simm(4)), // jge_d32
    line!(plain!(false, false, false, false), None, escaped!(0x8E), TailField::NoTail, ImmField::Simm(4)), // jle_d32
    line!(plain!(false, false, false, false), None, escaped!(0x8F), TailField::NoTail, ImmField::Simm(4)), // jg_d32
    line!(vex!(0, 1, 0), Some(0), byte!(0xC2), TailField::Modrm(RegField::Register, PlaceField::RegisterOrMemory), ImmField::Imm(1)), // vcmpps_b
    line!(vex!(1, 1, 0), Some(0), byte!(0xC2), TailField::Modrm(RegField::Register, PlaceField::RegisterOrMemory), ImmField::Imm(1)), // vcmppd_b
    line!(vex!(2, 1, 0), Some(0), byte!(0xC2), TailField::Modrm(RegField::Register, PlaceField::RegisterOrMemory), ImmField::Imm(1)), // vcmpss_b
    line!(vex!(3, 1, 0), Some(0), byte!(0xC2), TailField::Modrm(RegField::Register, PlaceField::RegisterOrMemory), ImmField::Imm(1)), // vcmpsd_b
    line!(vex_1111!(1, 1, 0), Some(0), byte!(0x5A), TailField::Modrm(RegField::Register, PlaceField::RegisterOrMemory), ImmField::NoImm), // vcvtpd2ps_a
    line!(vex_1111!(1, 1, 0), Some(0), byte!(0xE6), TailField::Modrm(RegField::Register, PlaceField::RegisterOrMemory), ImmField::NoImm), // vcvttpd2dq_a
    line!(vex!(3, 2, 0), Some(0), byte!(0xF6), TailField::Modrm(RegField::Register, PlaceField::RegisterOrMemory), ImmField::NoImm), // mulxl_rvm
    line!(vex!(3, 2, 0), Some(1), byte!(0xF6), TailField::Modrm(RegField::Register, PlaceField::RegisterOrMemory), ImmField::NoImm), // mulxq_rvm
    line!(without_rex!(false, false, false, false), None, byte!(0x90), TailField::NoTail, ImmField::NoImm), // nop_1b
    line!(without_rex!(false, true, false, false), None, byte!(0x90), TailField::NoTail, ImmField::NoImm), // nop_2b
    line!(plain!(false, false, false, false), Some(0), escaped!(0x1F), TailField::Modrm(RegField::Digit(0), PlaceField::RegisterOrMemory), ImmField::NoImm), // nopl_rm
    line!(plain!(false, true, false, false), Some(0), escaped!(0x1F), TailField::Modrm(RegField::Digit(0), PlaceField::RegisterOrMemory), ImmField::NoImm), // nopw_rm
    line!(plain!(false, false, false, false), None, byte!(0x04), TailField::NoTail, ImmField::Imm(1)), // addb_i
    line!(plain!(false, false, false, false), None, byte!(0x80), TailField::Modrm(RegField::Digit(0), PlaceField::Register8OrMemory), ImmField::Imm(1)), // addb_mi
    line!(plain!(false, false, false, false), None, byte!(0x00), TailField::Modrm(RegField::Register8, PlaceField::Memory), ImmField::NoImm), // addb_mr
    line!(plain!(false, false, false, false), None, byte!(0x02), TailField::Modrm(RegField::Register8, PlaceField::Memory), ImmField::NoImm), // addb_rm
    line!(plain!(false, true, false, false), Some(0), byte!(0x05), TailField::NoTail, ImmField::Imm(2)), // addw_i
    line!(plain!(false, true, false, false), Some(0), byte!(0x81), TailField::Modrm(RegField::Digit(0), PlaceField::RegisterOrMemory), ImmField::Imm(2)), // addw_mi
    line!(plain!(false, true, false, false), Some(0), byte!(0x01), TailField::Modrm(RegField::Register, PlaceField::RegisterOrMemory), ImmField::NoImm), // addw_mr
    line!(plain!(false, true, false, false), Some(0), byte!(0x03), TailField::Modrm(RegField::Register, PlaceField::RegisterOrMemory), ImmField::NoImm), // addw_rm
    line!(plain!(false, false, false, false), Some(0), byte!(0x05), TailField::NoTail, ImmField::Imm(4)), // addl_i
    line!(plain!(false, false, false, false), Some(0), byte!(0x81), TailField::Modrm(RegField::Digit(0), PlaceField::RegisterOrMemory), ImmField::Imm(4)), // addl_mi
    line!(plain!(false, false, false, false), Some(0), byte!(0x83), TailField::Modrm(RegField::Digit(0), PlaceField::RegisterOrMemory), ImmField::Simm(1)), // addl_mi_sxb
    line!(plain!(false, false, false, false), Some(0), byte!(0x01), TailField::Modrm(RegField::Register, PlaceField::RegisterOrMemory), ImmField::NoImm), // addl_mr
    line!(plain!(false, false, false, false), Some(0), byte!(0x03), TailField::Modrm(RegField::Register, PlaceField::RegisterOrMemory), ImmField::NoImm), // addl_rm
    line!(plain!(false, false, false, false), Some(1), byte!(0x81), TailField::Modrm(RegField::Digit(0), PlaceField::RegisterOrMemory), ImmField::Simm(4)), // addq_mi_sxl
    line!(plain!(false, false, false, false), Some(1), byte!(0x83), TailField::Modrm(RegField::Digit(0), PlaceField::RegisterOrMemory), ImmField::Simm(1)), // addq_mi_sxb
    line!(plain!(false, false, false, false), Some(1), byte!(0x01), TailField::Modrm(RegField::Register, PlaceField::RegisterOrMemory), ImmField::NoImm), // addq_mr
    line!(plain!(false, false, false, false), Some(1), byte!(0x03), TailField::Modrm(RegField::Register, PlaceField::RegisterOrMemory), ImmField::NoImm), // addq_rm
    line!(plain!(false, false, false, false), None, byte!(0x0C), TailField::NoTail, ImmField::Imm(1)), // orb_i
    line!(plain!(false, false, false, false), None, byte!(0x80), TailField::Modrm(RegField::Digit(1), PlaceField::Register8OrMemory), ImmField::Imm(1)), // orb_mi
    line!(plain!(false, false, false, false), None, byte!(0x08), TailField::Modrm(RegField::Register8, PlaceField::Memory), ImmField::NoImm), // orb_mr
    line!(plain!(false, false, false, false), None, byte!(0x0A), TailField::Modrm(RegField::Register8, PlaceField::Memory), ImmField::NoImm), // orb_rm
    line!(plain!(false, true, false, false), Some(0), byte!(0x0D), TailField::NoTail, ImmField::Imm(2)), // orw_i
    line!(plain!(false, true, false, false), Some(0), byte!(0x81), TailField::Modrm(RegField::Digit(1), PlaceField::RegisterOrMemory), ImmField::Imm(2)), // orw_mi
    line!(plain!(false, true, false, false), Some(0), byte!(0x09), TailField::Modrm(RegField::Register, PlaceField::RegisterOrMemory), ImmField::NoImm), // orw_mr
    line!(plain!(false, true, false, false), Some(0), byte!(0x0B), TailField::Modrm(RegField::Register, PlaceField::RegisterOrMemory), ImmField::NoImm), // orw_rm
    line!(plain!(false, false, false, false), Some(0), byte!(0x0D), TailField::NoTail, ImmField::Imm(4)), // orl_i
    line!(plain!(false, false, false, false), Some(0), byte!(0x81), TailField::Modrm(RegField::Digit(1), PlaceField::RegisterOrMemory), ImmField::Imm(4)), // orl_mi
    line!(plain!(false, false, false, false), Some(0), byte!(0x83), TailField::Modrm(RegField::Digit(1), PlaceField::RegisterOrMemory), ImmField::Simm(1)), // orl_mi_sxb
    line!(plain!(false, false, false, false), Some(0), byte!(0x09), TailField::Modrm(RegField::Register, PlaceField::RegisterOrMemory), ImmField::NoImm), // orl_mr
    line!(plain!(false, false, false, false), Some(0), byte!(0x0B), TailField::Modrm(RegField::Register, PlaceField::RegisterOrMemory), ImmField::NoImm), // orl_rm
    line!(plain!(false, false, false, false), Some(1), byte!(0x81), TailField::Modrm(RegField::Digit(1), PlaceField::RegisterOrMemory), ImmField::Simm(4)), // orq_mi_sxl
    line!(plain!(false, false, false, false), Some(1), byte!(0x83), TailField::Modrm(RegField::Digit(1), PlaceField::RegisterOrMemory), ImmField::Simm(1)), // orq_mi_sxb
    line!(plain!(false, false, false, false), Some(1), byte!(0x09), TailField::Modrm(RegField::Register, PlaceField::RegisterOrMemory), ImmField::NoImm), // orq_mr
    line!(plain!(false, false, false, false), Some(1), byte!(0x0B), TailField::Modrm(RegField::Register, PlaceField::RegisterOrMemory), ImmField::NoImm), // orq_rm
    line!(plain!(false, false, false, false), None, byte!(0x14), TailField::NoTail, ImmField::Imm(1)), // adcb_i
    line!(plain!(false, false, false, false), None, byte!(0x80), TailField::Modrm(RegField::Digit(2), PlaceField::Register8OrMemory), ImmField::Imm(1)), // adcb_mi
    line!(plain!(false, false, false, false), None, byte!(0x10), TailField::Modrm(RegField::Register8, PlaceField::Memory), ImmField::NoImm), // adcb_mr
    line!(plain!(false, false, false, false), None, byte!(0x12), TailField::Modrm(RegField::Register8, PlaceField::Memory), ImmField::NoImm), // adcb_rm
    line!(plain!(false, true, false, false), Some(0), byte!(0x15), TailField::NoTail, ImmField::Imm(2)), // adcw_i
    line!(plain!(false, true, false, false), Some(0), byte!(0x81), TailField::Modrm(RegField::Digit(2), PlaceField::RegisterOrMemory), ImmField::Imm(2)), // adcw_mi
    line!(plain!(false, true, false, false), Some(0), byte!(0x11), TailField::Modrm(RegField::Register, PlaceField::RegisterOrMemory), ImmField::NoImm), // adcw_mr
    line!(plain!(false, true, false, false), Some(0), byte!(0x13), TailField::Modrm(RegField::Register, PlaceField::RegisterOrMemory), ImmField::NoImm), // adcw_rm
    line!(plain!(false, false, false, false), Some(0), byte!(0x15), TailField::NoTail, ImmField::Imm(4)), // adcl_i
    line!(plain!(false, false, false, false), Some(0), byte!(0x81), TailField::Modrm(RegField::Digit(2), PlaceField::RegisterOrMemory), ImmField::Imm(4)), // adcl_mi
    line!(plain!(false, false, false, false), Some(0), byte!(0x83), TailField::Modrm(RegField::Digit(2), PlaceField::RegisterOrMemory), ImmField::Simm(1)), // adcl_mi_sxb
    line!(plain!(false, false, false, false), Some(0), byte!(0x11), TailField::Modrm(RegField::Register, PlaceField::RegisterOrMemory), ImmField::NoImm), // adcl_mr
    line!(plain!(false, false, false, false), Some(0), byte!(0x13), TailField::Modrm(RegField::Register, PlaceField::RegisterOrMemory), ImmField::NoImm), // adcl_rm
    line!(plain!(false, false, false, false), Some(1), byte!(0x81), TailField::Modrm(RegField::Digit(2), PlaceField::RegisterOrMemory), ImmField::Simm(4)), // adcq_mi_sxl
    line!(plain!(false, false, false, false), Some(1), byte!(0x83), TailField::Modrm(RegField::Digit(2), PlaceField::RegisterOrMemory), ImmField::Simm(1)), // adcq_mi_sxb
    line!(plain!(false, false, false, false), Some(1), byte!(0x11), TailField::Modrm(RegField::Register, PlaceField::RegisterOrMemory), ImmField::NoImm), // adcq_mr
    line!(plain!(false, false, false, false), Some(1), byte!(0x13), TailField::Modrm(RegField::Register, PlaceField::RegisterOrMemory), ImmField::NoImm), // adcq_rm
    line!(plain!(false, false, false, false), None, byte!(0x1C), TailField::NoTail, ImmField::Imm(1)), // sbbb_i
    line!(plain!(false, false, false, false), None, byte!(0x80), TailField::Modrm(RegField::Digit(3), PlaceField::Register8OrMemory), ImmField::Imm(1)), // sbbb_mi
    line!(plain!(false, false, false, false), None, byte!(0x18), TailField::Modrm(RegField::Register8, PlaceField::Memory), ImmField::NoImm), // sbbb_mr
    line!(plain!(false, false, false, false), None, byte!(0x1A), TailField::Modrm(RegField::Register8, PlaceField::Memory), ImmField::NoImm), // sbbb_rm
    line!(plain!(false, true, false, false), Some(0), byte!(0x1D), TailField::NoTail, ImmField::Imm(2)), // sbbw_i
    line!(plain!(false, true, false, false), Some(0), byte!(0x81), TailField::Modrm(RegField::Digit(3), PlaceField::RegisterOrMemory), ImmField::Imm(2)), // sbbw_mi
    line!(plain!(false, true, false, false), Some(0), byte!(0x19), TailField::Modrm(RegField::Register, PlaceField::RegisterOrMemory), ImmField::NoImm), // sbbw_mr
    line!(plain!(false, true, false, false), Some(0), byte!(0x1B), TailField::Modrm(RegField::Register, PlaceField::RegisterOrMemory), ImmField::NoImm), // sbbw_rm
    line!(plain!(false, false, false, false), Some(0), byte!(0x1D), TailField::NoTail, ImmField::Imm(4)), // sbbl_i
    line!(plain!(false, false, false, false), Some(0), byte!(0x81), TailField::Modrm(RegField::Digit(3), PlaceField::RegisterOrMemory), ImmField::Imm(4)), // sbbl_mi
    line!(plain!(false, false, false, false), Some(0), byte!(0x83), TailField::Modrm(RegField::Digit(3), PlaceField::RegisterOrMemory), ImmField::Simm(1)), // sbbl_mi_sxb
    line!(plain!(false, false, false, false), Some(0), byte!(0x19), TailField::Modrm(RegField::Register, PlaceField::RegisterOrMemory), ImmField::NoImm), // sbbl_mr
    line!(plain!(false, false, false, false), Some(0), byte!(0x1B), TailField::Modrm(RegField::Register, PlaceField::RegisterOrMemory), ImmField::NoImm), // sbbl_rm
    line!(plain!(false, false, false, false), Some(1), byte!(0x81), TailField::Modrm(RegField::Digit(3), PlaceField::RegisterOrMemory), ImmField::Simm(4)), // sbbq_mi_sxl
    line!(plain!(false, false, false, false), Some(1), byte!(0x83), TailField::Modrm(RegField::Digit(3), PlaceField::RegisterOrMemory), ImmField::Simm(1)), // sbbq_mi_sxb
    line!(plain!(false, false, false, false), Some(1), byte!(0x19), TailField::Modrm(RegField::Register, PlaceField::RegisterOrMemory), ImmField::NoImm), // sbbq_mr
    line!(plain!(false, false, false, false), Some(1), byte!(0x1B), TailField::Modrm(RegField::Register, PlaceField::RegisterOrMemory), ImmField::NoImm), // sbbq_rm
    line!(plain!(false, false, false, false), None, byte!(0x80), TailField::Modrm(RegField::Digit(4), PlaceField::Register8OrMemory), ImmField::Imm(1)), // andb_mi
    line!(plain!(false, false, false, false), None, byte!(0x20), TailField::Modrm(RegField::Register8, PlaceField::Memory), ImmField::NoImm), // andb_mr
    line!(plain!(false, false, false, false), None, byte!(0x22), TailField::Modrm(RegField::Register8, PlaceField::Memory), ImmField::NoImm), // andb_rm
    line!(plain!(false, true, false, false), Some(0), byte!(0x25), TailField::NoTail, ImmField::Imm(2)), // andw_i
    line!(plain!(false, true, false, false), Some(0), byte!(0x81), TailField::Modrm(RegField::Digit(4), PlaceField::RegisterOrMemory), ImmField::Imm(2)), // andw_mi
    line!(plain!(false, true, false, false), Some(0), byte!(0x21), TailField::Modrm(RegField::Register, PlaceField::RegisterOrMemory), ImmField::NoImm), // andw_mr
    line!(plain!(false, true, false, false), Some(0), byte!(0x23), TailField::Modrm(RegField::Register, PlaceField::RegisterOrMemory), ImmField::NoImm), // andw_rm
    line!(plain!(false, false, false, false), Some(0), byte!(0x25), TailField::NoTail, ImmField::Imm(4)), // andl_i
    line!(plain!(false, false, false, false), Some(0), byte!(0x81), TailField::Modrm(RegField::Digit(4), PlaceField::RegisterOrMemory), ImmField::Imm(4)), // andl_mi
    line!(plain!(false, false, false, false), Some(0), byte!(0x83), TailField::Modrm(RegField::Digit(4), PlaceField::RegisterOrMemory), ImmField::Simm(1)), // andl_mi_sxb
    line!(plain!(false, false, false, false), Some(0), byte!(0x21), TailField::Modrm(RegField::Register, PlaceField::RegisterOrMemory), ImmField::NoImm), // andl_mr
    line!(plain!(false, false, false, false), Some(0), byte!(0x23), TailField::Modrm(RegField::Register, PlaceField::RegisterOrMemory), ImmField::NoImm), // andl_rm
    line!(plain!(false, false, false, false), Some(1), byte!(0x81), TailField::Modrm(RegField::Digit(4), PlaceField::RegisterOrMemory), ImmField::Simm(4)), // andq_mi_sxl
    line!(plain!(false, false, false, false), Some(1), byte!(0x83), TailField::Modrm(RegField::Digit(4), PlaceField::RegisterOrMemory), ImmField::Simm(1)), // andq_mi_sxb
    line!(plain!(false, false, false, false), Some(1), byte!(0x21), TailField::Modrm(RegField::Register, PlaceField::RegisterOrMemory), ImmField::NoImm), // andq_mr
    line!(plain!(false, false, false, false), Some(1), byte!(0x23), TailField::Modrm(RegField::Register, PlaceField::RegisterOrMemory), ImmField::NoImm), // andq_rm
    line!(plain!(false, false, false, false), None, byte!(0x2C), TailField::NoTail, ImmField::Imm(1)), // subb_i
    line!(plain!(false, false, false, false), None, byte!(0x80), TailField::Modrm(RegField::Digit(5), PlaceField::Register8OrMemory), ImmField::Imm(1)), // subb_mi
    line!(plain!(false, false, false, false), None, byte!(0x28), TailField::Modrm(RegField::Register8, PlaceField::Memory), ImmField::NoImm), // subb_mr
    line!(plain!(false, false, false, false), None, byte!(0x2A), TailField::Modrm(RegField::Register8, PlaceField::Memory), ImmField::NoImm), // subb_rm
    line!(plain!(false, true, false, false), Some(0), byte!(0x2D), TailField::NoTail, ImmField::Imm(2)), // subw_i
    line!(plain!(false, true, false, false), Some(0), byte!(0x81), TailField::Modrm(RegField::Digit(5), PlaceField::RegisterOrMemory), ImmField::Imm(2)), // subw_mi
    line!(plain!(false, true, false, false), Some(0), byte!(0x29), TailField::Modrm(RegField::Register, PlaceField::RegisterOrMemory), ImmField::NoImm), // subw_mr
    line!(plain!(false, true, false, false), Some(0), byte!(0x2B), TailField::Modrm(RegField::Register, PlaceField::RegisterOrMemory), ImmField::NoImm), // subw_rm
    line!(plain!(false, false, false, false), Some(0), byte!(0x2D), TailField::NoTail, ImmField::Imm(4)), // subl_i
    line!(plain!(false, false, false, false), Some(0), byte!(0x81), TailField::Modrm(RegField::Digit(5), PlaceField::RegisterOrMemory), ImmField::Imm(4)), // subl_mi
    line!(plain!(false, false, false, false), Some(0), byte!(0x83), TailField::Modrm(RegField::Digit(5), PlaceField::RegisterOrMemory), ImmField::Simm(1)), // subl_mi_sxb
    line!(plain!(false, false, false, false), Some(0), byte!(0x29), TailField::Modrm(RegField::Register, PlaceField::RegisterOrMemory), ImmField::NoImm), // subl_mr
    line!(plain!(false, false, false, false), Some(0), byte!(0x2B), TailField::Modrm(RegField::Register, PlaceField::RegisterOrMemory), ImmField::NoImm), // subl_rm
    line!(plain!(false, false, false, false), Some(1), byte!(0x81), TailField::Modrm(RegField::Digit(5), PlaceField::RegisterOrMemory), ImmField::Simm(4)), // subq_mi_sxl
    line!(plain!(false, false, false, false), Some(1), byte!(0x83), TailField::Modrm(RegField::Digit(5), PlaceField::RegisterOrMemory), ImmField::Simm(1)), // subq_mi_sxb
    line!(plain!(false, false, false, false), Some(1), byte!(0x29), TailField::Modrm(RegField::Register, PlaceField::RegisterOrMemory), ImmField::NoImm), // subq_mr
    line!(plain!(false, false, false, false), Some(1), byte!(0x2B), TailField::Modrm(RegField::Register, PlaceField::RegisterOrMemory), ImmField::NoImm), // subq_rm
    line!(plain!(false, false, false, false), None, byte!(0x34), TailField::NoTail, ImmField::Imm(1)), // xorb_i
    line!(plain!(false, false, false, false), None, byte!(0x80), TailField::Modrm(RegField::Digit(6), PlaceField::Register8OrMemory), ImmField::Imm(1)), // xorb_mi
    line!(plain!(false, false, false, false), None, byte!(0x30), TailField::Modrm(RegField::Register8, PlaceField::Memory), ImmField::NoImm), // xorb_mr
    line!(plain!(false, false, false, false), None, byte!(0x32), TailField::Modrm(RegField::Register8, PlaceField::Memory), ImmField::NoImm), // xorb_rm
    line!(plain!(false, true, false, false), Some(0), byte!(0x35), TailField::NoTail, ImmField::Imm(2)), // xorw_i
    line!(plain!(false, true, false, false), Some(0), byte!(0x81), TailField::Modrm(RegField::Digit(6), PlaceField::RegisterOrMemory), ImmField::Imm(2)), // xorw_mi
    line!(plain!(false, true, false, false), Some(0), byte!(0x31), TailField::Modrm(RegField::Register, PlaceField::RegisterOrMemory), ImmField::NoImm), // xorw_mr
    line!(plain!(false, true, false, false), Some(0), byte!(0x33), TailField::Modrm(RegField::Register, PlaceField::RegisterOrMemory), ImmField::NoImm), // xorw_rm
    line!(plain!(false, false, false, false), Some(0), byte!(0x35), TailField::NoTail, ImmField::Imm(4)), // xorl_i
    line!(plain!(false, false, false, false), Some(0), byte!(0x81), TailField::Modrm(RegField::Digit(6), PlaceField::RegisterOrMemory), ImmField::Imm(4)), // xorl_mi
    line!(plain!(false, false, false, false), Some(0), byte!(0x83), TailField::Modrm(RegField::Digit(6), PlaceField::RegisterOrMemory), ImmField::Simm(1)), // xorl_mi_sxb
    line!(plain!(false, false, false, false), Some(0), byte!(0x31), TailField::Modrm(RegField::Register, PlaceField::RegisterOrMemory), ImmField::NoImm), // xorl_mr
    line!(plain!(false, false, false, false), Some(0), byte!(0x33), TailField::Modrm(RegField::Register, PlaceField::RegisterOrMemory), ImmField::NoImm), // xorl_rm
    line!(plain!(false, false, false, false), Some(1), byte!(0x81), TailField::Modrm(RegField::Digit(6), PlaceField::RegisterOrMemory), ImmField::Simm(4)), // xorq_mi_sxl
    line!(plain!(false, false, false, false), Some(1), byte!(0x83), TailField::Modrm(RegField::Digit(6), PlaceField::RegisterOrMemory), ImmField::Simm(1)), // xorq_mi_sxb
    line!(plain!(false, false, false, false), Some(1), byte!(0x31), TailField::Modrm(RegField::Register, PlaceField::RegisterOrMemory), ImmField::NoImm), // xorq_mr
    line!(plain!(false, false, false, false), Some(1), byte!(0x33), TailField::Modrm(RegField::Register, PlaceField::RegisterOrMemory), ImmField::NoImm), // xorq_rm
    line!(plain!(false, false, false, false), None, byte!(0x3C), TailField::NoTail, ImmField::Imm(1)), // cmpb_i
    line!(plain!(false, false, false, false), None, byte!(0x80), TailField::Modrm(RegField::Digit(7), PlaceField::Register8OrMemory), ImmField::Imm(1)), // cmpb_mi
    line!(plain!(false, false, false, false), None, byte!(0x38), TailField::Modrm(RegField::Register8, PlaceField::Memory), ImmField::NoImm), // cmpb_mr
    line!(plain!(false, false, false, false), None, byte!(0x3A), TailField::Modrm(RegField::Register8, PlaceField::Memory), ImmField::NoImm), // cmpb_rm
    line!(plain!(false, true, false, false), Some(0), byte!(0x3D), TailField::NoTail, ImmField::Imm(2)), // cmpw_i
    line!(plain!(false, true, false, false), Some(0), byte!(0x81), TailField::Modrm(RegField::Digit(7), PlaceField::RegisterOrMemory), ImmField::Imm(2)), // cmpw_mi
    line!(plain!(false, true, false, false), Some(0), byte!(0x39), TailField::Modrm(RegField::Register, PlaceField::RegisterOrMemory), ImmField::NoImm), // cmpw_mr
    line!(plain!(false, true, false, false), Some(0), byte!(0x3B), TailField::Modrm(RegField::Register, PlaceField::RegisterOrMemory), ImmField::NoImm), // cmpw_rm
    line!(plain!(false, false, false, false), Some(0), byte!(0x3D), TailField::NoTail, ImmField::Imm(4)), // cmpl_i
    line!(plain!(false, false, false, false), Some(0), byte!(0x81), TailField::Modrm(RegField::Digit(7), PlaceField::RegisterOrMemory), ImmField::Imm(4)), // cmpl_mi
    line!(plain!(false, false, false, false), Some(0), byte!(0x83), TailField::Modrm(RegField::Digit(7), PlaceField::RegisterOrMemory), ImmField::Simm(1)), // cmpl_mi_sxb
    line!(plain!(false, false, false, false), Some(0), byte!(0x39), TailField::Modrm(RegField::Register, PlaceField::RegisterOrMemory), ImmField::NoImm), // cmpl_mr
    line!(plain!(false, false, false, false), Some(0), byte!(0x3B), TailField::Modrm(RegField::Register, PlaceField::RegisterOrMemory), ImmField::NoImm), // cmpl_rm
    line!(plain!(false, false, false, false), Some(1), byte!(0x81), TailField::Modrm(RegField::Digit(7), PlaceField::RegisterOrMemory), ImmField::Simm(4)), // cmpq_mi_sxl
    line!(plain!(false, false, false, false), Some(1), byte!(0x83), TailField::Modrm(RegField::Digit(7), PlaceField::RegisterOrMemory), ImmField::Simm(1)), // cmpq_mi_sxb
    line!(plain!(false, false, false, false), Some(1), byte!(0x39), TailField::Modrm(RegField::Register, PlaceField::RegisterOrMemory), ImmField::NoImm), // cmpq_mr
    line!(plain!(false, false, false, false), Some(1), byte!(0x3B), TailField::Modrm(RegField::Register, PlaceField::RegisterOrMemory), ImmField::NoImm), // cmpq_rm
    line!(plain!(false, false, false, false), None, byte!(0xA8), TailField::NoTail, ImmField::Imm(1)), // testb_i
    line!(plain!(false, false, false, false), None, byte!(0xF6), TailField::Modrm(RegField::Digit(0), PlaceField::Register8OrMemory), ImmField::Imm(1)), // testb_mi
    line!(plain!(false, false, false, false), None, byte!(0x84), TailField::Modrm(RegField::Register8, PlaceField::Memory), ImmField::NoImm), // testb_mr
    line!(plain!(false, true, false, false), Some(0), byte!(0xA9), TailField::NoTail, ImmField::Imm(2)), // testw_i
    line!(plain!(false, true, false, false), Some(0), byte!(0xF7), TailField::Modrm(RegField::Digit(0), PlaceField::RegisterOrMemory), ImmField::Imm(2)), // testw_mi
    line!(plain!(false, true, false, false), Some(0), byte!(0x85), TailField::Modrm(RegField::Register, PlaceField::RegisterOrMemory), ImmField::NoImm), // testw_mr
    line!(plain!(false, false, false, false), Some(0), byte!(0xA9), TailField::NoTail, ImmField::Imm(4)), // testl_i
    line!(plain!(false, false, false, false), Some(0), byte!(0xF7), TailField::Modrm(RegField::Digit(0), PlaceField::RegisterOrMemory), ImmField::Imm(4)), // testl_mi
    line!(plain!(false, false, false, false), Some(0), byte!(0x85), TailField::Modrm(RegField::Register, PlaceField::RegisterOrMemory), ImmField::NoImm), // testl_mr
    line!(plain!(false, false, false, false), Some(1), byte!(0xF7), TailField::Modrm(RegField::Digit(0), PlaceField::RegisterOrMemory), ImmField::Simm(4)), // testq_mi_sxl
    line!(plain!(false, false, false, false), Some(1), byte!(0x85), TailField::Modrm(RegField::Register, PlaceField::RegisterOrMemory), ImmField::NoImm), // testq_mr
    line!(plain!(false, false, false, false), None, byte!(0x88), TailField::Modrm(RegField::Register8, PlaceField::Memory), ImmField::NoImm), // movb_mr
    line!(plain!(false, false, false, false), None, byte!(0x8A), TailField::Modrm(RegField::Register8, PlaceField::Memory), ImmField::NoImm), // movb_rm
    line!(plain!(false, false, false, false), None, byte!(0xC6), TailField::Modrm(RegField::Digit(0), PlaceField::Register8OrMemory), ImmField::Imm(1)), // movb_mi
    line!(plain!(false, true, false, false), Some(0), byte!(0x89), TailField::Modrm(RegField::Register, PlaceField::RegisterOrMemory), ImmField::NoImm), // movw_mr
    line!(plain!(false, true, false, false), Some(0), byte!(0x8B), TailField::Modrm(RegField::Register, PlaceField::RegisterOrMemory), ImmField::NoImm), // movw_rm
    line!(plain!(false, true, false, false), Some(0), byte!(0xC7), TailField::Modrm(RegField::Digit(0), PlaceField::RegisterOrMemory), ImmField::Imm(2)), // movw_mi
    line!(plain!(false, false, false, false), Some(0), byte!(0x89), TailField::Modrm(RegField::Register, PlaceField::RegisterOrMemory), ImmField::NoImm), // movl_mr
    line!(plain!(false, false, false, false), Some(0), byte!(0x8B), TailField::Modrm(RegField::Register, PlaceField::RegisterOrMemory), ImmField::NoImm), // movl_rm
    line!(plain!(false, false, false, false), Some(0), byte!(0xC7), TailField::Modrm(RegField::Digit(0), PlaceField::RegisterOrMemory), ImmField::Imm(4)), // movl_mi
    line!(plain!(false, false, false, false), Some(1), byte!(0x89), TailField::Modrm(RegField::Register, PlaceField::RegisterOrMemory), ImmField::NoImm), // movq_mr
    line!(plain!(false, false, false, false), Some(1), byte!(0x8B), TailField::Modrm(RegField::Register, PlaceField::RegisterOrMemory), ImmField::NoImm), // movq_rm
    line!(plain!(false, false, false, false), Some(1), byte!(0xC7), TailField::Modrm(RegField::Digit(0), PlaceField::RegisterOrMemory), ImmField::Simm(4)), // movq_mi_sxl
    line!(plain!(false, true, false, false), Some(0), escaped!(0xBE), TailField::Modrm(RegField::Register, PlaceField::Memory), ImmField::NoImm), // movsbw_rm
    line!(plain!(false, false, false, false), Some(0), escaped!(0xBE), TailField::Modrm(RegField::Register, PlaceField::Memory), ImmField::NoImm), // movsbl_rm
    line!(plain!(false, false, false, false), Some(1), escaped!(0xBE), TailField::Modrm(RegField::Register, PlaceField::Memory), ImmField::NoImm), // movsbq_rm
    line!(plain!(false, false, false, false), Some(0), escaped!(0xBF), TailField::Modrm(RegField::Register, PlaceField::RegisterOrMemory), ImmField::NoImm), // movswl_rm
    line!(plain!(false, false, false, false), Some(1), escaped!(0xBF), TailField::Modrm(RegField::Register, PlaceField::RegisterOrMemory), ImmField::NoImm), // movswq_rm
    line!(plain!(false, false, false, false), Some(1), byte!(0x63), TailField::Modrm(RegField::Register, PlaceField::RegisterOrMemory), ImmField::NoImm), // movslq_rm
    line!(plain!(false, true, false, false), Some(0), escaped!(0xB6), TailField::Modrm(RegField::Register, PlaceField::Memory), ImmField::NoImm), // movzbw_rm
    line!(plain!(false, false, false, false), Some(0), escaped!(0xB6), TailField::Modrm(RegField::Register, PlaceField::Memory), ImmField::NoImm), // movzbl_rm
    line!(plain!(false, false, false, false), Some(1), escaped!(0xB6), TailField::Modrm(RegField::Register, PlaceField::Memory), ImmField::NoImm), // movzbq_rm
    line!(plain!(false, false, false, false), Some(0), escaped!(0xB7), TailField::Modrm(RegField::Register, PlaceField::RegisterOrMemory), ImmField::NoImm), // movzwl_rm
    line!(plain!(false, false, false, false), Some(1), escaped!(0xB7), TailField::Modrm(RegField::Register, PlaceField::RegisterOrMemory), ImmField::NoImm), // movzwq_rm
    line!(plain!(false, true, false, false), Some(0), byte!(0x8D), TailField::Modrm(RegField::Register, PlaceField::Memory), ImmField::NoImm), // leaw_rm
    line!(plain!(false, false, false, false), Some(0), byte!(0x8D), TailField::Modrm(RegField::Register, PlaceField::Memory), ImmField::NoImm), // leal_rm
    line!(plain!(false, false, false, false), Some(1), byte!(0x8D), TailField::Modrm(RegField::Register, PlaceField::Memory), ImmField::NoImm), // leaq_rm
    line!(plain!(false, false, false, false), None, byte!(0xF6), TailField::Modrm(RegField::Digit(4), PlaceField::Register8OrMemory), ImmField::NoImm), // mulb_m
    line!(plain!(false, true, false, false), Some(0), byte!(0xF7), TailField::Modrm(RegField::Digit(4), PlaceField::RegisterOrMemory), ImmField::NoImm), // mulw_m
    line!(plain!(false, false, false, false), Some(0), byte!(0xF7), TailField::Modrm(RegField::Digit(4), PlaceField::RegisterOrMemory), ImmField::NoImm), // mull_m
    line!(plain!(false, false, false, false), Some(1), byte!(0xF7), TailField::Modrm(RegField::Digit(4), PlaceField::RegisterOrMemory), ImmField::NoImm), // mulq_m
    line!(plain!(false, false, false, false), None, byte!(0xF6), TailField::Modrm(RegField::Digit(5), PlaceField::Register8OrMemory), ImmField::NoImm), // imulb_m
    line!(plain!(false, true, false, false), Some(0), byte!(0xF7), TailField::Modrm(RegField::Digit(5), PlaceField::RegisterOrMemory), ImmField::NoImm), // imulw_m
    line!(plain!(false, false, false, false), Some(0), byte!(0xF7), TailField::Modrm(RegField::Digit(5), PlaceField::RegisterOrMemory), ImmField::NoImm), // imull_m
    line!(plain!(false, false, false, false), Some(1), byte!(0xF7), TailField::Modrm(RegField::Digit(5), PlaceField::RegisterOrMemory), ImmField::NoImm), // imulq_m
    line!(plain!(false, true, false, false), Some(0), escaped!(0xAF), TailField::Modrm(RegField::Register, PlaceField::RegisterOrMemory), ImmField::NoImm), // imulw_rm
    line!(plain!(false, true, false, false), Some(0), byte!(0x6B), TailField::Modrm(RegField::Register, PlaceField::RegisterOrMemory), ImmField::Simm(1)), // imulw_rmi_sxb
    line!(plain!(false, true, false, false), Some(0), byte!(0x69), TailField::Modrm(RegField::Register, PlaceField::RegisterOrMemory), ImmField::Imm(2)), // imulw_rmi
    line!(plain!(false, false, false, false), Some(0), escaped!(0xAF), TailField::Modrm(RegField::Register, PlaceField::RegisterOrMemory), ImmField::NoImm), // imull_rm
    line!(plain!(false, false, false, false), Some(0), byte!(0x6B), TailField::Modrm(RegField::Register, PlaceField::RegisterOrMemory), ImmField::Simm(1)), // imull_rmi_sxb
    line!(plain!(false, false, false, false), Some(0), byte!(0x69), TailField::Modrm(RegField::Register, PlaceField::RegisterOrMemory), ImmField::Imm(4)), // imull_rmi
    line!(plain!(false, false, false, false), Some(1), escaped!(0xAF), TailField::Modrm(RegField::Register, PlaceField::RegisterOrMemory), ImmField::NoImm), // imulq_rm
    line!(plain!(false, false, false, false), Some(1), byte!(0x6B), TailField::Modrm(RegField::Register, PlaceField::RegisterOrMemory), ImmField::Simm(1)), // imulq_rmi_sxb
    line!(plain!(false, false, false, false), Some(1), byte!(0x69), TailField::Modrm(RegField::Register, PlaceField::RegisterOrMemory), ImmField::Simm(4)), // imulq_rmi_sxl
    line!(plain!(false, false, false, false), None, byte!(0xF6), TailField::Modrm(RegField::Digit(6), PlaceField::Register8OrMemory), ImmField::NoImm), // divb_m
    line!(plain!(false, true, false, false), Some(0), byte!(0xF7), TailField::Modrm(RegField::Digit(6), PlaceField::RegisterOrMemory), ImmField::NoImm), // divw_m
    line!(plain!(false, false, false, false), Some(0), byte!(0xF7), TailField::Modrm(RegField::Digit(6), PlaceField::RegisterOrMemory), ImmField::NoImm), // divl_m
    line!(plain!(false, false, false, false), Some(1), byte!(0xF7), TailField::Modrm(RegField::Digit(6), PlaceField::RegisterOrMemory), ImmField::NoImm), // divq_m
    line!(plain!(false, false, false, false), None, byte!(0xF6), TailField::Modrm(RegField::Digit(7), PlaceField::Register8OrMemory), ImmField::NoImm), // idivb_m
    line!(plain!(false, true, false, false), Some(0), byte!(0xF7), TailField::Modrm(RegField::Digit(7), PlaceField::RegisterOrMemory), ImmField::NoImm), // idivw_m
    line!(plain!(false, false, false, false), Some(0), byte!(0xF7), TailField::Modrm(RegField::Digit(7), PlaceField::RegisterOrMemory), ImmField::NoImm), // idivl_m
    line!(plain!(false, false, false, false), Some(1), byte!(0xF7), TailField::Modrm(RegField::Digit(7), PlaceField::RegisterOrMemory), ImmField::NoImm), // idivq_m
    line!(plain!(false, false, false, false), None, byte!(0xF6), TailField::Modrm(RegField::Digit(2), PlaceField::Register8OrMemory), ImmField::NoImm), // notb_m
    line!(plain!(false, true, false, false), Some(0), byte!(0xF7), TailField::Modrm(RegField::Digit(2), PlaceField::RegisterOrMemory), ImmField::NoImm), // notw_m
    line!(plain!(false, false, false, false), Some(0), byte!(0xF7), TailField::Modrm(RegField::Digit(2), PlaceField::RegisterOrMemory), ImmField::NoImm), // notl_m
    line!(plain!(false, false, false, false), Some(1), byte!(0xF7), TailField::Modrm(RegField::Digit(2), PlaceField::RegisterOrMemory), ImmField::NoImm), // notq_m
    line!(plain!(false, false, false, false), None, byte!(0xF6), TailField::Modrm(RegField::Digit(3), PlaceField::Register8OrMemory), ImmField::NoImm), // negb_m
    line!(plain!(false, true, false, false), Some(0), byte!(0xF7), TailField::Modrm(RegField::Digit(3), PlaceField::RegisterOrMemory), ImmField::NoImm), // negw_m
    line!(plain!(false, false, false, false), Some(0), byte!(0xF7), TailField::Modrm(RegField::Digit(3), PlaceField::RegisterOrMemory), ImmField::NoImm), // negl_m
    line!(plain!(false, false, false, false), Some(1), byte!(0xF7), TailField::Modrm(RegField::Digit(3), PlaceField::RegisterOrMemory), ImmField::NoImm), // negq_m
    line!(plain!(false, true, false, false), Some(0), byte!(0x98), TailField::NoTail, ImmField::NoImm), // cbtw_zo
    line!(plain!(false, false, false, false), Some(0), byte!(0x98), TailField::NoTail, ImmField::NoImm), // cwtl_zo
    line!(plain!(false, true, false, false), Some(0), byte!(0x99), TailField::NoTail, ImmField::NoImm), // cwtd_zo
    line!(plain!(false, false, false, false), Some(0), byte!(0x99), TailField::NoTail, ImmField::NoImm), // cltd_zo
    line!(plain!(false, false, false, false), None, byte!(0xD2), TailField::Modrm(RegField::Digit(0), PlaceField::Register8OrMemory), ImmField::NoImm), // rolb_mc
    line!(plain!(false, false, false, false), None, byte!(0xC0), TailField::Modrm(RegField::Digit(0), PlaceField::Register8OrMemory), ImmField::Imm(1)), // rolb_mi
    line!(plain!(false, true, false, false), Some(0), byte!(0xD3), TailField::Modrm(RegField::Digit(0), PlaceField::RegisterOrMemory), ImmField::NoImm), // rolw_mc
    line!(plain!(false, true, false, false), Some(0), byte!(0xC1), TailField::Modrm(RegField::Digit(0), PlaceField::RegisterOrMemory), ImmField::Imm(1)), // rolw_mi
    line!(plain!(false, false, false, false), Some(0), byte!(0xD3), TailField::Modrm(RegField::Digit(0), PlaceField::RegisterOrMemory), ImmField::NoImm), // roll_mc
    line!(plain!(false, false, false, false), Some(0), byte!(0xC1), TailField::Modrm(RegField::Digit(0), PlaceField::RegisterOrMemory), ImmField::Imm(1)), // roll_mi
    line!(plain!(false, false, false, false), Some(1), byte!(0xD3), TailField::Modrm(RegField::Digit(0), PlaceField::RegisterOrMemory), ImmField::NoImm), // rolq_mc
    line!(plain!(false, false, false, false), Some(1), byte!(0xC1), TailField::Modrm(RegField::Digit(0), PlaceField::RegisterOrMemory), ImmField::Imm(1)), // rolq_mi
    line!(plain!(false, false, false, false), None, byte!(0xD2), TailField::Modrm(RegField::Digit(1), PlaceField::Register8OrMemory), ImmField::NoImm), // rorb_mc
    line!(plain!(false, false, false, false), None, byte!(0xC0), TailField::Modrm(RegField::Digit(1), PlaceField::Register8OrMemory), ImmField::Imm(1)), // rorb_mi
    line!(plain!(false, true, false, false), Some(0), byte!(0xD3), TailField::Modrm(RegField::Digit(1), PlaceField::RegisterOrMemory), ImmField::NoImm), // rorw_mc
    line!(plain!(false, true, false, false), Some(0), byte!(0xC1), TailField::Modrm(RegField::Digit(1), PlaceField::RegisterOrMemory), ImmField::Imm(1)), // rorw_mi
    line!(plain!(false, false, false, false), Some(0), byte!(0xD3), TailField::Modrm(RegField::Digit(1), PlaceField::RegisterOrMemory), ImmField::NoImm), // rorl_mc
    line!(plain!(false, false, false, false), Some(0), byte!(0xC1), TailField::Modrm(RegField::Digit(1), PlaceField::RegisterOrMemory), ImmField::Imm(1)), // rorl_mi
    line!(plain!(false, false, false, false), Some(1), byte!(0xD3), TailField::Modrm(RegField::Digit(1), PlaceField::RegisterOrMemory), ImmField::NoImm), // rorq_mc
    line!(plain!(false, false, false, false), Some(1), byte!(0xC1), TailField::Modrm(RegField::Digit(1), PlaceField::RegisterOrMemory), ImmField::Imm(1)), // rorq_mi
    line!(plain!(false, false, false, false), None, byte!(0xD2), TailField::Modrm(RegField::Digit(4), PlaceField::Register8OrMemory), ImmField::NoImm), // shlb_mc
    line!(plain!(false, false, false, false), None, byte!(0xC0), TailField::Modrm(RegField::Digit(4), PlaceField::Register8OrMemory), ImmField::Imm(1)), // shlb_mi
    line!(plain!(false, true, false, false), Some(0), byte!(0xD3), TailField::Modrm(RegField::Digit(4), PlaceField::RegisterOrMemory), ImmField::NoImm), // shlw_mc
    line!(plain!(false, true, false, false), Some(0), byte!(0xC1), TailField::Modrm(RegField::Digit(4), PlaceField::RegisterOrMemory), ImmField::Imm(1)), // shlw_mi
    line!(plain!(false, false, false, false), Some(0), byte!(0xD3), TailField::Modrm(RegField::Digit(4), PlaceField::RegisterOrMemory), ImmField::NoImm), // shll_mc
    line!(plain!(false, false, false, false), Some(0), byte!(0xC1), TailField::Modrm(RegField::Digit(4), PlaceField::RegisterOrMemory), ImmField::Imm(1)), // shll_mi
    line!(plain!(false, false, false, false), Some(1), byte!(0xD3), TailField::Modrm(RegField::Digit(4), PlaceField::RegisterOrMemory), ImmField::NoImm), // shlq_mc
    line!(plain!(false, false, false, false), Some(1), byte!(0xC1), TailField::Modrm(RegField::Digit(4), PlaceField::RegisterOrMemory), ImmField::Imm(1)), // shlq_mi
    line!(plain!(false, false, false, false), None, byte!(0xD2), TailField::Modrm(RegField::Digit(5), PlaceField::Register8OrMemory), ImmField::NoImm), // shrb_mc
    line!(plain!(false, false, false, false), None, byte!(0xC0), TailField::Modrm(RegField::Digit(5), PlaceField::Register8OrMemory), ImmField::Imm(1)), // shrb_mi
    line!(plain!(false, true, false, false), Some(0), byte!(0xD3), TailField::Modrm(RegField::Digit(5), PlaceField::RegisterOrMemory), ImmField::NoImm), // shrw_mc
    line!(plain!(false, true, false, false), Some(0), byte!(0xC1), TailField::Modrm(RegField::Digit(5), PlaceField::RegisterOrMemory), ImmField::Imm(1)), // shrw_mi
    line!(plain!(false, false, false, false), Some(0), byte!(0xD3), TailField::Modrm(RegField::Digit(5), PlaceField::RegisterOrMemory), ImmField::NoImm), // shrl_mc
    line!(plain!(false, false, false, false), Some(0), byte!(0xC1), TailField::Modrm(RegField::Digit(5), PlaceField::RegisterOrMemory), ImmField::Imm(1)), // shrl_mi
    line!(plain!(false, false, false, false), Some(1), byte!(0xD3), TailField::Modrm(RegField::Digit(5), PlaceField::RegisterOrMemory), ImmField::NoImm), // shrq_mc
    line!(plain!(false, false, false, false), Some(1), byte!(0xC1), TailField::Modrm(RegField::Digit(5), PlaceField::RegisterOrMemory), ImmField::Imm(1)), // shrq_mi
    line!(plain!(false, false, false, false), None, byte!(0xD2), TailField::Modrm(RegField::Digit(7), PlaceField::Register8OrMemory), ImmField::NoImm), // sarb_mc
    line!(plain!(false, false, false, false), None, byte!(0xC0), TailField::Modrm(RegField::Digit(7), PlaceField::Register8OrMemory), ImmField::Imm(1)), // sarb_mi
    line!(plain!(false, true, false, false), Some(0), byte!(0xD3), TailField::Modrm(RegField::Digit(7), PlaceField::RegisterOrMemory), ImmField::NoImm), // sarw_mc
    line!(plain!(false, true, false, false), Some(0), byte!(0xC1), TailField::Modrm(RegField::Digit(7), PlaceField::RegisterOrMemory), ImmField::Imm(1)), // sarw_mi
    line!(plain!(false, false, false, false), Some(0), byte!(0xD3), TailField::Modrm(RegField::Digit(7), PlaceField::RegisterOrMemory), ImmField::NoImm), // sarl_mc
    line!(plain!(false, false, false, false), Some(0), byte!(0xC1), TailField::Modrm(RegField::Digit(7), PlaceField::RegisterOrMemory), ImmField::Imm(1)), // sarl_mi
    line!(plain!(false, false, false, false), Some(1), byte!(0xD3), TailField::Modrm(RegField::Digit(7), PlaceField::RegisterOrMemory), ImmField::NoImm), // sarq_mc
    line!(plain!(false, false, false, false), Some(1), byte!(0xC1), TailField::Modrm(RegField::Digit(7), PlaceField::RegisterOrMemory), ImmField::Imm(1)), // sarq_mi
    line!(plain!(false, true, false, false), Some(0), escaped!(0xA4), TailField::Modrm(RegField::Register, PlaceField::RegisterOrMemory), ImmField::Imm(1)), // shldw_mri
    line!(plain!(false, true, false, false), Some(0), escaped!(0xA5), TailField::Modrm(RegField::Register, PlaceField::RegisterOrMemory), ImmField::NoImm), // shldw_mrc
    line!(plain!(false, false, false, false), Some(0), escaped!(0xA4), TailField::Modrm(RegField::Register, PlaceField::RegisterOrMemory), ImmField::Imm(1)), // shldl_mri
    line!(plain!(false, false, false, false), Some(0), escaped!(0xA5), TailField::Modrm(RegField::Register, PlaceField::RegisterOrMemory), ImmField::NoImm), // shldl_mrc
    line!(plain!(false, false, false, false), Some(1), escaped!(0xA4), TailField::Modrm(RegField::Register, PlaceField::RegisterOrMemory), ImmField::Imm(1)), // shldq_mri
    line!(plain!(false, false, false, false), Some(1), escaped!(0xA5), TailField::Modrm(RegField::Register, PlaceField::RegisterOrMemory), ImmField::NoImm), // shldq_mrc
    line!(plain!(false, false, false, false), None, escaped!(0x90), TailField::Modrm(RegField::Digit(0), PlaceField::Register8OrMemory), ImmField::NoImm), // seto_m
    line!(plain!(false, false, false, false), None, escaped!(0x91), TailField::Modrm(RegField::Digit(0), PlaceField::Register8OrMemory), ImmField::NoImm), // setno_m
    line!(plain!(false, false, false, false), None, escaped!(0x92), TailField::Modrm(RegField::Digit(0), PlaceField::Register8OrMemory), ImmField::NoImm), // setb_m
    line!(plain!(false, false, false, false), None, escaped!(0x93), TailField::Modrm(RegField::Digit(0), PlaceField::Register8OrMemory), ImmField::NoImm), // setae_m
    line!(plain!(false, false, false, false), None, escaped!(0x94), TailField::Modrm(RegField::Digit(0), PlaceField::Register8OrMemory), ImmField::NoImm), // sete_m
    line!(plain!(false, false, false, false), None, escaped!(0x95), TailField::Modrm(RegField::Digit(0), PlaceField::Register8OrMemory), ImmField::NoImm), // setne_m
    line!(plain!(false, false, false, false), None, escaped!(0x96), TailField::Modrm(RegField::Digit(0), PlaceField::Register8OrMemory), ImmField::NoImm), // setbe_m
    line!(plain!(false, false, false, false), None, escaped!(0x97), TailField::Modrm(RegField::Digit(0), PlaceField::Register8OrMemory), ImmField::NoImm), // seta_m
    line!(plain!(false, false, false, false), None, escaped!(0x98), TailField::Modrm(RegField::Digit(0), PlaceField::Register8OrMemory), ImmField::NoImm), // sets_m
    line!(plain!(false, false, false, false), None, escaped!(0x99), TailField::Modrm(RegField::Digit(0), PlaceField::Register8OrMemory), ImmField::NoImm), // setns_m
    line!(plain!(false, false, false, false), None, escaped!(0x9A), TailField::Modrm(RegField::Digit(0), PlaceField::Register8OrMemory), ImmField::NoImm), // setp_m
    line!(plain!(false, false, false, false), None, escaped!(0x9B), TailField::Modrm(RegField::Digit(0), PlaceField::Register8OrMemory), ImmField::NoImm), // setnp_m
    line!(plain!(false, false, false, false), None, escaped!(0x9C), TailField::Modrm(RegField::Digit(0), PlaceField::Register8OrMemory), ImmField::NoImm), // setl_m
    line!(plain!(false, false, false, false), None, escaped!(0x9D), TailField::Modrm(RegField::Digit(0), PlaceField::Register8OrMemory), ImmField::NoImm), // setge_m
    line!(plain!(false, false, false, false), None, escaped!(0x9E), TailField::Modrm(RegField::Digit(0), PlaceField::Register8OrMemory), ImmField::NoImm), // setle_m
    line!(plain!(false, false, false, false), None, escaped!(0x9F), TailField::Modrm(RegField::Digit(0), PlaceField::Register8OrMemory), ImmField::NoImm), // setg_m
    line!(plain!(false, true, false, false), Some(0), escaped!(0x40), TailField::Modrm(RegField::Register, PlaceField::RegisterOrMemory), ImmField::NoImm), // cmovow_rm
    line!(plain!(false, false, false, false), Some(0), escaped!(0x40), TailField::Modrm(RegField::Register, PlaceField::RegisterOrMemory), ImmField::NoImm), // cmovol_rm
    line!(plain!(false, false, false, false), Some(1), escaped!(0x40), TailField::Modrm(RegField::Register, PlaceField::RegisterOrMemory), ImmField::NoImm), // cmovoq_rm
    line!(plain!(false, true, false, false), Some(0), escaped!(0x41), TailField::Modrm(RegField::Register, PlaceField::RegisterOrMemory), ImmField::NoImm), // cmovnow_rm
    line!(plain!(false, false, false, false), Some(0), escaped!(0x41), TailField::Modrm(RegField::Register, PlaceField::RegisterOrMemory), ImmField::NoImm), // cmovnol_rm
    line!(plain!(false, false, false, false), Some(1), escaped!(0x41), TailField::Modrm(RegField::Register, PlaceField::RegisterOrMemory), ImmField::NoImm), // cmovnoq_rm
    line!(plain!(false, true, false, false), Some(0), escaped!(0x42), TailField::Modrm(RegField::Register, PlaceField::RegisterOrMemory), ImmField::NoImm), // cmovbw_rm
    line!(plain!(false, false, false, false), Some(0), escaped!(0x42), TailField::Modrm(RegField::Register, PlaceField::RegisterOrMemory), ImmField::NoImm), // cmovbl_rm
    line!(plain!(false, false, false, false), Some(1), escaped!(0x42), TailField::Modrm(RegField::Register, PlaceField::RegisterOrMemory), ImmField::NoImm), // cmovbq_rm
    line!(plain!(false, true, false, false), Some(0), escaped!(0x43), TailField::Modrm(RegField::Register, PlaceField::RegisterOrMemory), ImmField::NoImm), // cmovaew_rm
    line!(plain!(false, false, false, false), Some(0), escaped!(0x43), TailField::Modrm(RegField::Register, PlaceField::RegisterOrMemory), ImmField::NoImm), // cmovael_rm
    line!(plain!(false, false, false, false), Some(1), escaped!(0x43), TailField::Modrm(RegField::Register, PlaceField::RegisterOrMemory), ImmField::NoImm), // cmovaeq_rm
    line!(plain!(false, true, false, false), Some(0), escaped!(0x44), TailField::Modrm(RegField::Register, PlaceField::RegisterOrMemory), ImmField::NoImm), // cmovew_rm
    line!(plain!(false, false, false, false), Some(0), escaped!(0x44), TailField::Modrm(RegField::Register, PlaceField::RegisterOrMemory), ImmField::NoImm), // cmovel_rm
    line!(plain!(false, false, false, false), Some(1), escaped!(0x44), TailField::Modrm(RegField::Register, PlaceField::RegisterOrMemory), ImmField::NoImm), // cmoveq_rm
    line!(plain!(false, true, false, false), Some(0), escaped!(0x45), TailField::Modrm(RegField::Register, PlaceField::RegisterOrMemory), ImmField::NoImm), // cmovnew_rm
    line!(plain!(false, false, false, false), Some(0), escaped!(0x45), TailField::Modrm(RegField::Register, PlaceField::RegisterOrMemory), ImmField::NoImm), // cmovnel_rm
    line!(plain!(false, false, false, false), Some(1), escaped!(0x45), TailField::Modrm(RegField::Register, PlaceField::RegisterOrMemory), ImmField::NoImm), // cmovneq_rm
    line!(plain!(false, true, false, false), Some(0), escaped!(0x46), TailField::Modrm(RegField::Register, PlaceField::RegisterOrMemory), ImmField::NoImm), // cmovbew_rm
    line!(plain!(false, false, false, false), Some(0), escaped!(0x46), TailField::Modrm(RegField::Register, PlaceField::RegisterOrMemory), ImmField::NoImm), // cmovbel_rm
    line!(plain!(false, false, false, false), Some(1), escaped!(0x46), TailField::Modrm(RegField::Register, PlaceField::RegisterOrMemory), ImmField::NoImm), // cmovbeq_rm
    line!(plain!(false, true, false, false), Some(0), escaped!(0x47), TailField::Modrm(RegField::Register, PlaceField::RegisterOrMemory), ImmField::NoImm), // cmovaw_rm
    line!(plain!(false, false, false, false), Some(0), escaped!(0x47), TailField::Modrm(RegField::Register, PlaceField::RegisterOrMemory), ImmField::NoImm), // cmoval_rm
    line!(plain!(false, false, false, false), Some(1), escaped!(0x47), TailField::Modrm(RegField::Register, PlaceField::RegisterOrMemory), ImmField::NoImm), // cmovaq_rm
    line!(plain!(false, true, false, false), Some(0), escaped!(0x48), TailField::Modrm(RegField::Register, PlaceField::RegisterOrMemory), ImmField::NoImm), // cmovsw_rm
    line!(plain!(false, false, false, false), Some(0), escaped!(0x48), TailField::Modrm(RegField::Register, PlaceField::RegisterOrMemory), ImmField::NoImm), // cmovsl_rm
    line!(plain!(false, false, false, false), Some(1), escaped!(0x48), TailField::Modrm(RegField::Register, PlaceField::RegisterOrMemory), ImmField::NoImm), // cmovsq_rm
    line!(plain!(false, true, false, false), Some(0), escaped!(0x49), TailField::Modrm(RegField::Register, PlaceField::RegisterOrMemory), ImmField::NoImm), // cmovnsw_rm
    line!(plain!(false, false, false, false), Some(0), escaped!(0x49), TailField::Modrm(RegField::Register, PlaceField::RegisterOrMemory), ImmField::NoImm), // cmovnsl_rm
    line!(plain!(false, false, false, false), Some(1), escaped!(0x49), TailField::Modrm(RegField::Register, PlaceField::RegisterOrMemory), ImmField::NoImm), // cmovnsq_rm
    line!(plain!(false, true, false, false), Some(0), escaped!(0x4A), TailField::Modrm(RegField::Register, PlaceField::RegisterOrMemory), ImmField::NoImm), // cmovpw_rm
    line!(plain!(false, false, false, false), Some(0), escaped!(0x4A), TailField::Modrm(RegField::Register, PlaceField::RegisterOrMemory), ImmField::NoImm), // cmovpl_rm
    line!(plain!(false, false, false, false), Some(1), escaped!(0x4A), TailField::Modrm(RegField::Register, PlaceField::RegisterOrMemory), ImmField::NoImm), // cmovpq_rm
    line!(plain!(false, true, false, false), Some(0), escaped!(0x4B), TailField::Modrm(RegField::Register, PlaceField::RegisterOrMemory), ImmField::NoImm), // cmovnpw_rm
    line!(plain!(false, false, false, false), Some(0), escaped!(0x4B), TailField::Modrm(RegField::Register, PlaceField::RegisterOrMemory), ImmField::NoImm), // cmovnpl_rm
    line!(plain!(false, false, false, false), Some(1), escaped!(0x4B), TailField::Modrm(RegField::Register, PlaceField::RegisterOrMemory), ImmField::NoImm), // cmovnpq_rm
    line!(plain!(false, true, false, false), Some(0), escaped!(0x4C), TailField::Modrm(RegField::Register, PlaceField::RegisterOrMemory), ImmField::NoImm), // cmovlw_rm
    line!(plain!(false, false, false, false), Some(0), escaped!(0x4C), TailField::Modrm(RegField::Register, PlaceField::RegisterOrMemory), ImmField::NoImm), // cmovll_rm
    line!(plain!(false, false, false, false), Some(1), escaped!(0x4C), TailField::Modrm(RegField::Register, PlaceField::RegisterOrMemory), ImmField::NoImm), // cmovlq_rm
    line!(plain!(false, true, false, false), Some(0), escaped!(0x4D), TailField::Modrm(RegField::Register, PlaceField::RegisterOrMemory), ImmField::NoImm), // cmovgew_rm
    line!(plain!(false, false, false, false), Some(0), escaped!(0x4D), TailField::Modrm(RegField::Register, PlaceField::RegisterOrMemory), ImmField::NoImm), // cmovgel_rm
    line!(plain!(false, false, false, false), Some(1), escaped!(0x4D), TailField::Modrm(RegField::Register, PlaceField::RegisterOrMemory), ImmField::NoImm), // cmovgeq_rm
    line!(plain!(false, true, false, false), Some(0), escaped!(0x4E), TailField::Modrm(RegField::Register, PlaceField::RegisterOrMemory), ImmField::NoImm), // cmovlew_rm
    line!(plain!(false, false, false, false), Some(0), escaped!(0x4E), TailField::Modrm(RegField::Register, PlaceField::RegisterOrMemory), ImmField::NoImm), // cmovlel_rm
    line!(plain!(false, false, false, false), Some(1), escaped!(0x4E), TailField::Modrm(RegField::Register, PlaceField::RegisterOrMemory), ImmField::NoImm), // cmovleq_rm
    line!(plain!(false, true, false, false), Some(0), escaped!(0x4F), TailField::Modrm(RegField::Register, PlaceField::RegisterOrMemory), ImmField::NoImm), // cmovgw_rm
    line!(plain!(false, false, false, false), Some(0), escaped!(0x4F), TailField::Modrm(RegField::Register, PlaceField::RegisterOrMemory), ImmField::NoImm), // cmovgl_rm
    line!(plain!(false, false, false, false), Some(1), escaped!(0x4F), TailField::Modrm(RegField::Register, PlaceField::RegisterOrMemory), ImmField::NoImm), // cmovgq_rm
    line!(plain!(false, true, false, false), Some(0), byte!(0xFF), TailField::Modrm(RegField::Digit(6), PlaceField::RegisterOrMemory), ImmField::NoImm), // pushw_m
    line!(plain!(false, false, false, false), None, byte!(0xFF), TailField::Modrm(RegField::Digit(6), PlaceField::RegisterOrMemory), ImmField::NoImm), // pushq_m
    line!(plain!(false, false, false, false), None, byte!(0x6A), TailField::NoTail, ImmField::Simm(1)), // pushq_i8
    line!(plain!(false, true, false, false), Some(0), byte!(0x68), TailField::NoTail, ImmField::Imm(2)), // pushw_i16
    line!(plain!(false, false, false, false), None, byte!(0x68), TailField::NoTail, ImmField::Simm(4)), // pushq_i32
    line!(plain!(false, true, false, false), Some(0), byte!(0x8F), TailField::Modrm(RegField::Digit(0), PlaceField::RegisterOrMemory), ImmField::NoImm), // popw_m
    line!(plain!(false, false, false, false), None, byte!(0x8F), TailField::Modrm(RegField::Digit(0), PlaceField::RegisterOrMemory), ImmField::NoImm), // popq_m
    line!(plain!(false, false, false, false), None, byte!(0xC3), TailField::NoTail, ImmField::NoImm), // retq_zo
    line!(plain!(false, false, false, false), None, byte!(0xC2), TailField::NoTail, ImmField::Imm(2)), // retq_i
    line!(plain!(false, false, false, false), None, byte!(0xC9), TailField::NoTail, ImmField::NoImm), // leaveq_zo
    line!(plain!(false, false, false, false), None, escaped!(0x0B), TailField::NoTail, ImmField::NoImm), // ud2_zo
    line!(plain!(false, false, false, false), None, byte!(0xCC), TailField::NoTail, ImmField::NoImm), // int3_zo
    line!(plain!(false, false, false, false), None, byte!(0xF4), TailField::NoTail, ImmField::NoImm), // hlt_zo
    line!(plain!(false, true, false, false), Some(0), escaped!(0xBC), TailField::Modrm(RegField::Register, PlaceField::RegisterOrMemory), ImmField::NoImm), // bsfw_rm
    line!(plain!(false, true, false, false), Some(0), escaped!(0xBD), TailField::Modrm(RegField::Register, PlaceField::RegisterOrMemory), ImmField::NoImm), // bsrw_rm
    line!(plain!(false, false, false, false), Some(0), escaped!(0xBC), TailField::Modrm(RegField::Register, PlaceField::RegisterOrMemory), ImmField::NoImm), // bsfl_rm
    line!(plain!(false, false, false, false), Some(0), escaped!(0xBD), TailField::Modrm(RegField::Register, PlaceField::RegisterOrMemory), ImmField::NoImm), // bsrl_rm
    line!(plain!(false, false, false, false), Some(1), escaped!(0xBC), TailField::Modrm(RegField::Register, PlaceField::RegisterOrMemory), ImmField::NoImm), // bsfq_rm
    line!(plain!(false, false, false, false), Some(1), escaped!(0xBD), TailField::Modrm(RegField::Register, PlaceField::RegisterOrMemory), ImmField::NoImm), // bsrq_rm
    line!(plain!(false, true, false, true), Some(0), escaped!(0xBC), TailField::Modrm(RegField::Register, PlaceField::RegisterOrMemory), ImmField::NoImm), // tzcntw_rm
    line!(plain!(false, true, false, true), Some(0), escaped!(0xBD), TailField::Modrm(RegField::Register, PlaceField::RegisterOrMemory), ImmField::NoImm), // lzcntw_rm
    line!(plain!(false, true, false, true), Some(0), escaped!(0xB8), TailField::Modrm(RegField::Register, PlaceField::RegisterOrMemory), ImmField::NoImm), // popcntw_rm
    line!(plain!(false, false, false, true), Some(0), escaped!(0xBC), TailField::Modrm(RegField::Register, PlaceField::RegisterOrMemory), ImmField::NoImm), // tzcntl_rm
    line!(plain!(false, false, false, true), Some(0), escaped!(0xBD), TailField::Modrm(RegField::Register, PlaceField::RegisterOrMemory), ImmField::NoImm), // lzcntl_rm
    line!(plain!(false, false, false, true), Some(0), escaped!(0xB8), TailField::Modrm(RegField::Register, PlaceField::RegisterOrMemory), ImmField::NoImm), // popcntl_rm
    line!(plain!(false, false, false, true), Some(1), escaped!(0xBC), TailField::Modrm(RegField::Register, PlaceField::RegisterOrMemory), ImmField::NoImm), // tzcntq_rm
    line!(plain!(false, false, false, true), Some(1), escaped!(0xBD), TailField::Modrm(RegField::Register, PlaceField::RegisterOrMemory), ImmField::NoImm), // lzcntq_rm
    line!(plain!(false, false, false, true), Some(1), escaped!(0xB8), TailField::Modrm(RegField::Register, PlaceField::RegisterOrMemory), ImmField::NoImm), // popcntq_rm
    line!(plain!(false, true, false, false), Some(0), escaped!(0xA3), TailField::Modrm(RegField::Register, PlaceField::RegisterOrMemory), ImmField::NoImm), // btw_mr
    line!(plain!(false, true, false, false), Some(0), escaped!(0xBA), TailField::Modrm(RegField::Digit(4), PlaceField::RegisterOrMemory), ImmField::Imm(1)), // btw_mi
    line!(plain!(false, false, false, false), Some(0), escaped!(0xA3), TailField::Modrm(RegField::Register, PlaceField::RegisterOrMemory), ImmField::NoImm), // btl_mr
    line!(plain!(false, false, false, false), Some(0), escaped!(0xBA), TailField::Modrm(RegField::Digit(4), PlaceField::RegisterOrMemory), ImmField::Imm(1)), // btl_mi
    line!(plain!(false, false, false, false), Some(1), escaped!(0xA3), TailField::Modrm(RegField::Register, PlaceField::RegisterOrMemory), ImmField::NoImm), // btq_mr
    line!(plain!(false, false, false, false), Some(1), escaped!(0xBA), TailField::Modrm(RegField::Digit(4), PlaceField::RegisterOrMemory), ImmField::Imm(1)), // btq_mi
    line!(plain!(false, false, false, false), None, escaped!(0xC0), TailField::Modrm(RegField::Register8, PlaceField::Memory), ImmField::NoImm), // xaddb_mr
    line!(plain!(false, false, false, false), None, escaped!(0xB0), TailField::Modrm(RegField::Register8, PlaceField::Memory), ImmField::NoImm), // cmpxchgb_mr
    line!(plain!(false, true, false, false), Some(0), escaped!(0xC1), TailField::Modrm(RegField::Register, PlaceField::Memory), ImmField::NoImm), // xaddw_mr
    line!(plain!(false, true, false, false), Some(0), escaped!(0xB1), TailField::Modrm(RegField::Register, PlaceField::Memory), ImmField::NoImm), // cmpxchgw_mr
    line!(plain!(false, false, false, false), Some(0), escaped!(0xC1), TailField::Modrm(RegField::Register, PlaceField::Memory), ImmField::NoImm), // xaddl_mr
    line!(plain!(false, false, false, false), Some(0), escaped!(0xB1), TailField::Modrm(RegField::Register, PlaceField::Memory), ImmField::NoImm), // cmpxchgl_mr
    line!(plain!(false, false, false, false), Some(1), escaped!(0xC1), TailField::Modrm(RegField::Register, PlaceField::Memory), ImmField::NoImm), // xaddq_mr
    line!(plain!(false, false, false, false), Some(1), escaped!(0xB1), TailField::Modrm(RegField::Register, PlaceField::Memory), ImmField::NoImm), // cmpxchgq_mr
    line!(plain!(false, false, false, false), Some(1), escaped!(0xC7), TailField::Modrm(RegField::Digit(1), PlaceField::Memory), ImmField::NoImm), // cmpxchg16b_m
    line!(plain!(false, false, false, true), None, escaped!(0x58), TailField::Modrm(RegField::Register, PlaceField::RegisterOrMemory), ImmField::NoImm), // addss_a
    line!(plain!(false, false, true, false), None, escaped!(0x58), TailField::Modrm(RegField::Register, PlaceField::RegisterOrMemory), ImmField::NoImm), // addsd_a
    line!(plain!(false, false, false, true), None, escaped!(0x59), TailField::Modrm(RegField::Register, PlaceField::RegisterOrMemory), ImmField::NoImm), // mulss_a
    line!(plain!(false, false, true, false), None, escaped!(0x59), TailField::Modrm(RegField::Register, PlaceField::RegisterOrMemory), ImmField::NoImm), // mulsd_a
    line!(plain!(false, false, false, true), None, escaped!(0x5C), TailField::Modrm(RegField::Register, PlaceField::RegisterOrMemory), ImmField::NoImm), // subss_a
    line!(plain!(false, false, true, false), None, escaped!(0x5C), TailField::Modrm(RegField::Register, PlaceField::RegisterOrMemory), ImmField::NoImm), // subsd_a
    line!(plain!(false, false, false, true), None, escaped!(0x5D), TailField::Modrm(RegField::Register, PlaceField::RegisterOrMemory), ImmField::NoImm), // minss_a
    line!(plain!(false, false, true, false), None, escaped!(0x5D), TailField::Modrm(RegField::Register, PlaceField::RegisterOrMemory), ImmField::NoImm), // minsd_a
    line!(plain!(false, false, false, true), None, escaped!(0x5E), TailField::Modrm(RegField::Register, PlaceField::RegisterOrMemory), ImmField::NoImm), // divss_a
    line!(plain!(false, false, true, false), None, escaped!(0x5E), TailField::Modrm(RegField::Register, PlaceField::RegisterOrMemory), ImmField::NoImm), // divsd_a
    line!(plain!(false, false, false, true), None, escaped!(0x5F), TailField::Modrm(RegField::Register, PlaceField::RegisterOrMemory), ImmField::NoImm), // maxss_a
    line!(plain!(false, false, true, false), None, escaped!(0x5F), TailField::Modrm(RegField::Register, PlaceField::RegisterOrMemory), ImmField::NoImm), // maxsd_a
    line!(plain!(false, false, false, true), None, escaped!(0x51), TailField::Modrm(RegField::Register, PlaceField::RegisterOrMemory), ImmField::NoImm), // sqrtss_a
    line!(plain!(false, false, true, false), None, escaped!(0x51), TailField::Modrm(RegField::Register, PlaceField::RegisterOrMemory), ImmField::NoImm), // sqrtsd_a
    line!(plain!(false, false, false, false), None, escaped!(0x2E), TailField::Modrm(RegField::Register, PlaceField::RegisterOrMemory), ImmField::NoImm), // ucomiss_a
    line!(plain!(false, true, false, false), None, escaped!(0x2E), TailField::Modrm(RegField::Register, PlaceField::RegisterOrMemory), ImmField::NoImm), // ucomisd_a
    line!(plain!(false, true, false, false), None, escaped!(0x54), TailField::Modrm(RegField::Register, PlaceField::RegisterOrMemory), ImmField::NoImm), // andpd_a
    line!(plain!(false, false, false, false), None, escaped!(0x55), TailField::Modrm(RegField::Register, PlaceField::RegisterOrMemory), ImmField::NoImm), // andnps_a
    line!(plain!(false, true, false, false), None, escaped!(0x55), TailField::Modrm(RegField::Register, PlaceField::RegisterOrMemory), ImmField::NoImm), // andnpd_a
    line!(plain!(false, false, false, false), None, escaped!(0x56), TailField::Modrm(RegField::Register, PlaceField::RegisterOrMemory), ImmField::NoImm), // orps_a
    line!(plain!(false, true, false, false), None, escaped!(0x56), TailField::Modrm(RegField::Register, PlaceField::RegisterOrMemory), ImmField::NoImm), // orpd_a
    line!(plain!(false, false, false, false), None, escaped!(0x57), TailField::Modrm(RegField::Register, PlaceField::RegisterOrMemory), ImmField::NoImm), // xorps_a
    line!(plain!(false, true, false, false), None, escaped!(0x57), TailField::Modrm(RegField::Register, PlaceField::RegisterOrMemory), ImmField::NoImm), // xorpd_a
    line!(plain!(false, true, false, false), None, escaped!(0xEF), TailField::Modrm(RegField::Register, PlaceField::RegisterOrMemory), ImmField::NoImm), // pxor_a
    line!(plain!(false, false, false, true), None, escaped!(0x10), TailField::Modrm(RegField::Register, PlaceField::Memory), ImmField::NoImm), // movss_a_m
    line!(plain!(false, false, false, true), None, escaped!(0x11), TailField::Modrm(RegField::Register, PlaceField::Memory), ImmField::NoImm), // movss_c_m
    line!(plain!(false, false, true, false), None, escaped!(0x10), TailField::Modrm(RegField::Register, PlaceField::Memory), ImmField::NoImm), // movsd_a_m
    line!(plain!(false, false, true, false), None, escaped!(0x11), TailField::Modrm(RegField::Register, PlaceField::Memory), ImmField::NoImm), // movsd_c_m
    line!(plain!(false, false, false, false), None, escaped!(0x28), TailField::Modrm(RegField::Register, PlaceField::RegisterOrMemory), ImmField::NoImm), // movaps_a
    line!(plain!(false, false, false, false), None, escaped!(0x29), TailField::Modrm(RegField::Register, PlaceField::RegisterOrMemory), ImmField::NoImm), // movaps_b
    line!(plain!(false, true, false, false), None, escaped!(0x28), TailField::Modrm(RegField::Register, PlaceField::RegisterOrMemory), ImmField::NoImm), // movapd_a
    line!(plain!(false, true, false, false), None, escaped!(0x29), TailField::Modrm(RegField::Register, PlaceField::RegisterOrMemory), ImmField::NoImm), // movapd_b
    line!(plain!(false, false, false, false), None, escaped!(0x10), TailField::Modrm(RegField::Register, PlaceField::RegisterOrMemory), ImmField::NoImm), // movups_a
    line!(plain!(false, false, false, false), None, escaped!(0x11), TailField::Modrm(RegField::Register, PlaceField::RegisterOrMemory), ImmField::NoImm), // movups_b
    line!(plain!(false, true, false, false), None, escaped!(0x10), TailField::Modrm(RegField::Register, PlaceField::RegisterOrMemory), ImmField::NoImm), // movupd_a
    line!(plain!(false, true, false, false), None, escaped!(0x11), TailField::Modrm(RegField::Register, PlaceField::RegisterOrMemory), ImmField::NoImm), // movupd_b
    line!(plain!(false, true, false, false), None, escaped!(0x6F), TailField::Modrm(RegField::Register, PlaceField::RegisterOrMemory), ImmField::NoImm), // movdqa_a
    line!(plain!(false, true, false, false), None, escaped!(0x7F), TailField::Modrm(RegField::Register, PlaceField::RegisterOrMemory), ImmField::NoImm), // movdqa_b
    line!(plain!(false, false, false, true), None, escaped!(0x6F), TailField::Modrm(RegField::Register, PlaceField::RegisterOrMemory), ImmField::NoImm), // movdqu_a
    line!(plain!(false, false, false, true), None, escaped!(0x7F), TailField::Modrm(RegField::Register, PlaceField::RegisterOrMemory), ImmField::NoImm), // movdqu_b
    line!(plain!(false, true, false, false), Some(0), escaped!(0x6E), TailField::Modrm(RegField::Register, PlaceField::RegisterOrMemory), ImmField::NoImm), // movd_a
    line!(plain!(false, true, false, false), Some(1), escaped!(0x6E), TailField::Modrm(RegField::Register, PlaceField::RegisterOrMemory), ImmField::NoImm), // movq_a
    line!(plain!(false, true, false, false), Some(0), escaped!(0x7E), TailField::Modrm(RegField::Register, PlaceField::RegisterOrMemory), ImmField::NoImm), // movd_b
    line!(plain!(false, true, false, false), Some(1), escaped!(0x7E), TailField::Modrm(RegField::Register, PlaceField::RegisterOrMemory), ImmField::NoImm), // movq_b
    line!(plain!(false, false, false, true), Some(0), escaped!(0x2A), TailField::Modrm(RegField::Register, PlaceField::RegisterOrMemory), ImmField::NoImm), // cvtsi2ssl_a
    line!(plain!(false, false, false, true), Some(0), escaped!(0x2D), TailField::Modrm(RegField::Register, PlaceField::RegisterOrMemory), ImmField::NoImm), // cvtss2sil_a
    line!(plain!(false, false, false, true), Some(0), escaped!(0x2C), TailField::Modrm(RegField::Register, PlaceField::RegisterOrMemory), ImmField::NoImm), // cvttss2sil_a
    line!(plain!(false, false, false, true), Some(1), escaped!(0x2A), TailField::Modrm(RegField::Register, PlaceField::RegisterOrMemory), ImmField::NoImm), // cvtsi2ssq_a
    line!(plain!(false, false, false, true), Some(1), escaped!(0x2D), TailField::Modrm(RegField::Register, PlaceField::RegisterOrMemory), ImmField::NoImm), // cvtss2siq_a
    line!(plain!(false, false, false, true), Some(1), escaped!(0x2C), TailField::Modrm(RegField::Register, PlaceField::RegisterOrMemory), ImmField::NoImm), // cvttss2siq_a
    line!(plain!(false, false, true, false), Some(0), escaped!(0x2A), TailField::Modrm(RegField::Register, PlaceField::RegisterOrMemory), ImmField::NoImm), // cvtsi2sdl_a
    line!(plain!(false, false, true, false), Some(0), escaped!(0x2D), TailField::Modrm(RegField::Register, PlaceField::RegisterOrMemory), ImmField::NoImm), // cvtsd2sil_a
    line!(plain!(false, false, true, false), Some(0), escaped!(0x2C), TailField::Modrm(RegField::Register, PlaceField::RegisterOrMemory), ImmField::NoImm), // cvttsd2sil_a
    line!(plain!(false, false, true, false), Some(1), escaped!(0x2A), TailField::Modrm(RegField::Register, PlaceField::RegisterOrMemory), ImmField::NoImm), // cvtsi2sdq_a
    line!(plain!(false, false, true, false), Some(1), escaped!(0x2D), TailField::Modrm(RegField::Register, PlaceField::RegisterOrMemory), ImmField::NoImm), // cvtsd2siq_a
    line!(plain!(false, false, true, false), Some(1), escaped!(0x2C), TailField::Modrm(RegField::Register, PlaceField::RegisterOrMemory), ImmField::NoImm), // cvttsd2siq_a
    line!(plain!(false, false, false, true), None, escaped!(0x5A), TailField::Modrm(RegField::Register, PlaceField::RegisterOrMemory), ImmField::NoImm), // cvtss2sd_a
    line!(plain!(false, false, true, false), None, escaped!(0x5A), TailField::Modrm(RegField::Register, PlaceField::RegisterOrMemory), ImmField::NoImm), // cvtsd2ss_a
    line!(plain!(false, false, false, false), None, escaped!(0x5A), TailField::Modrm(RegField::Register, PlaceField::RegisterOrMemory), ImmField::NoImm), // cvtps2pd_a
    line!(plain!(false, true, false, false), None, escaped!(0x5A), TailField::Modrm(RegField::Register, PlaceField::RegisterOrMemory), ImmField::NoImm), // cvtpd2ps_a
    line!(plain!(false, false, false, false), None, escaped!(0x5B), TailField::Modrm(RegField::Register, PlaceField::RegisterOrMemory), ImmField::NoImm), // cvtdq2ps_a
    line!(plain!(false, false, false, true), None, escaped!(0x5B), TailField::Modrm(RegField::Register, PlaceField::RegisterOrMemory), ImmField::NoImm), // cvttps2dq_a
    line!(plain!(false, false, false, true), None, escaped!(0xE6), TailField::Modrm(RegField::Register, PlaceField::RegisterOrMemory), ImmField::NoImm), // cvtdq2pd_a
    line!(plain!(false, true, false, false), None, escaped!(0xE6), TailField::Modrm(RegField::Register, PlaceField::RegisterOrMemory), ImmField::NoImm), // cvttpd2dq_a
];
// table/write.py: end

/// One of these lines.
#[inline]
fn line_at(lines: &[Line], number: u16) -> &Line
    requires { number < length lines.now }
    ensures { result.now ≡ slice_index_or lines.now number no_line }
{
    &lines[usize::from(number)]
}

/// The line of an instruction of the core.
#[inline]
pub fn line(op: Op) -> &'static Line
    ensures is { result.now ≡ core_line op.number }
    ensures size { HasSize result.now.imm }
{
    line_at(&LINES, op.number())
}
