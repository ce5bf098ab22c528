//! The table, one packed number for each row, and how a line is packed: `Packed.antt` has the layout. Beside this module
//! only `entry` and `ready` know it.

ghost use Rattle.std.specs.Prelude.{◌≡◌, ◌≤◌, ◌/◌, ◌%◌, ◌^◌, ◌<◌};
ghost use Rattle.cax64_machine_code.specs.Rows.{line_of};
ghost use Rattle.cax64_table.specs.Packed.{prefix_field, w_field, opcode_field, place_field, tail_field, imm_field, unpacked, bits_at, flag_at, number_of, entry_of};

use cax64_machine_code::line::{
    ImmField, LegacySet, Line, Opcode, PlaceField, PrefixField, RegField, TailField, VvvvField,
};
use cax64_machine_code::row::Row;

/// From the lowest bit: the number of bytes of the immediate in three bits, its sign; two bits of W, 2 for either
/// value; VEX; then lock, 66, F2, F3, REX and whether a field is an 8-bit register, or pp and map of two bits each, L
/// and vvvv; the place in two bits, what stands in the reg field in two, the digit in four, 8 for none; the opcode byte
/// and the escape. Above them stand ready bytes, the first one the lowest: those of the opcode in sixteen bits, those
/// of the legacy prefixes in sixteen, and in two bits how many prefixes there are. The rows, named beside their
/// numbers, are in the order of [`Row`].
// table/write.py: table
const TABLE: [u64; 158] = [
    0x403c_0020_1000_88a1, // lock_addb_mi
    0x99bc_0020_5020_8982, // lock_addw_mi
    0x403c_0020_5020_8884, // lock_addl_mi
    0x403c_0020_5020_889c, // lock_addq_mi_sxl
    0x403c_0020_d060_8889, // lock_addl_mi_sxb
    0x403c_0020_d060_8899, // lock_addq_mi_sxb
    0x403c_0000_0011_18a0, // lock_addb_mr
    0x99bc_0000_4031_8980, // lock_addw_mr
    0x403c_0000_4031_8880, // lock_addl_mr
    0x403c_0000_4031_8890, // lock_addq_mr
    0x403c_0020_1002_88a1, // lock_orb_mi
    0x99bc_0020_5022_8982, // lock_orw_mi
    0x403c_0020_5022_8884, // lock_orl_mi
    0x403c_0020_5022_889c, // lock_orq_mi_sxl
    0x403c_0020_d062_8889, // lock_orl_mi_sxb
    0x403c_0020_d062_8899, // lock_orq_mi_sxb
    0x403c_0002_0111_18a0, // lock_orb_mr
    0x99bc_0002_4131_8980, // lock_orw_mr
    0x403c_0002_4131_8880, // lock_orl_mr
    0x403c_0002_4131_8890, // lock_orq_mr
    0x403c_0020_1004_88a1, // lock_adcb_mi
    0x99bc_0020_5024_8982, // lock_adcw_mi
    0x403c_0020_5024_8884, // lock_adcl_mi
    0x403c_0020_5024_889c, // lock_adcq_mi_sxl
    0x403c_0020_d064_8889, // lock_adcl_mi_sxb
    0x403c_0020_d064_8899, // lock_adcq_mi_sxb
    0x403c_0004_0211_18a0, // lock_adcb_mr
    0x99bc_0004_4231_8980, // lock_adcw_mr
    0x403c_0004_4231_8880, // lock_adcl_mr
    0x403c_0004_4231_8890, // lock_adcq_mr
    0x403c_0020_1006_88a1, // lock_sbbb_mi
    0x99bc_0020_5026_8982, // lock_sbbw_mi
    0x403c_0020_5026_8884, // lock_sbbl_mi
    0x403c_0020_5026_889c, // lock_sbbq_mi_sxl
    0x403c_0020_d066_8889, // lock_sbbl_mi_sxb
    0x403c_0020_d066_8899, // lock_sbbq_mi_sxb
    0x403c_0006_0311_18a0, // lock_sbbb_mr
    0x99bc_0006_4331_8980, // lock_sbbw_mr
    0x403c_0006_4331_8880, // lock_sbbl_mr
    0x403c_0006_4331_8890, // lock_sbbq_mr
    0x403c_0020_1008_88a1, // lock_andb_mi
    0x99bc_0020_5028_8982, // lock_andw_mi
    0x403c_0020_5028_8884, // lock_andl_mi
    0x403c_0020_5028_889c, // lock_andq_mi_sxl
    0x403c_0020_d068_8889, // lock_andl_mi_sxb
    0x403c_0020_d068_8899, // lock_andq_mi_sxb
    0x403c_0008_0411_18a0, // lock_andb_mr
    0x99bc_0008_4431_8980, // lock_andw_mr
    0x403c_0008_4431_8880, // lock_andl_mr
    0x403c_0008_4431_8890, // lock_andq_mr
    0x403c_0020_100a_88a1, // lock_subb_mi
    0x99bc_0020_502a_8982, // lock_subw_mi
    0x403c_0020_502a_8884, // lock_subl_mi
    0x403c_0020_502a_889c, // lock_subq_mi_sxl
    0x403c_0020_d06a_8889, // lock_subl_mi_sxb
    0x403c_0020_d06a_8899, // lock_subq_mi_sxb
    0x403c_000a_0511_18a0, // lock_subb_mr
    0x99bc_000a_4531_8980, // lock_subw_mr
    0x403c_000a_4531_8880, // lock_subl_mr
    0x403c_000a_4531_8890, // lock_subq_mr
    0x403c_0020_100c_88a1, // lock_xorb_mi
    0x99bc_0020_502c_8982, // lock_xorw_mi
    0x403c_0020_502c_8884, // lock_xorl_mi
    0x403c_0020_502c_889c, // lock_xorq_mi_sxl
    0x403c_0020_d06c_8889, // lock_xorl_mi_sxb
    0x403c_0020_d06c_8899, // lock_xorq_mi_sxb
    0x403c_000c_0611_18a0, // lock_xorb_mr
    0x99bc_000c_4631_8980, // lock_xorw_mr
    0x403c_000c_4631_8880, // lock_xorl_mr
    0x403c_000c_4631_8890, // lock_xorq_mr
    0x403c_3003_f811_18a0, // lock_xaddb_mr
    0x99bc_3043_f831_8980, // lock_xaddw_mr
    0x403c_3043_f831_8880, // lock_xaddl_mr
    0x403c_3043_f831_8890, // lock_xaddq_mr
    0x403c_2c03_f611_18a0, // lock_cmpxchgb_mr
    0x99bc_2c43_f631_8980, // lock_cmpxchgw_mr
    0x403c_2c43_f631_8880, // lock_cmpxchgl_mr
    0x403c_2c43_f631_8890, // lock_cmpxchgq_mr
    0x403c_31c3_f8e2_8890, // lock_cmpxchg16b_m
    0x0000_0021_90d1_1820, // xchgb_rm
    0x4019_8021_d0f1_8900, // xchgw_rm
    0x0000_0021_d0f1_8800, // xchgl_rm
    0x0000_0021_d0f1_8810, // xchgq_rm
    0x0000_0034_1a00_d820, // rolb_m1
    0x4019_8034_5a20_a900, // rolw_m1
    0x0000_0034_5a20_a800, // roll_m1
    0x0000_0034_5a20_a810, // rolq_m1
    0x0000_0034_1a02_d820, // rorb_m1
    0x4019_8034_5a22_a900, // rorw_m1
    0x0000_0034_5a22_a800, // rorl_m1
    0x0000_0034_5a22_a810, // rorq_m1
    0x0000_0034_1a08_d820, // shlb_m1
    0x4019_8034_5a28_a900, // shlw_m1
    0x0000_0034_5a28_a800, // shll_m1
    0x0000_0034_5a28_a810, // shlq_m1
    0x0000_0034_1a0a_d820, // shrb_m1
    0x4019_8034_5a2a_a900, // shrw_m1
    0x0000_0034_5a2a_a800, // shrl_m1
    0x0000_0034_5a2a_a810, // shrq_m1
    0x0000_0034_1a0e_d820, // sarb_m1
    0x4019_8034_5a2e_a900, // sarw_m1
    0x0000_0034_5a2e_a800, // sarl_m1
    0x0000_0034_5a2e_a810, // sarq_m1
    0x0000_003f_dfe4_a820, // callq_m
    0x0000_003f_dfe8_a820, // jmpq_m
    0x0000_1503_ea91_a820, // andps_a
    0x0000_3083_f851_a821, // cmpps_a
    0x4019_b083_f851_a921, // cmppd_a
    0x403c_f083_f851_ac21, // cmpss_a
    0x403c_b083_f851_aa21, // cmpsd_a
    0x0000_0009_0490_0821, // andb_i
    0x0000_003a_1d10_082c, // callq_d
    0x0000_003a_dd70_0829, // jmp_d8
    0x0000_003a_5d30_082c, // jmp_d32
    0x0000_001c_0e10_0829, // jo_d8
    0x0000_001c_4e30_0829, // jno_d8
    0x0000_001c_8e50_0829, // jb_d8
    0x0000_001c_ce70_0829, // jae_d8
    0x0000_001d_0e90_0829, // je_d8
    0x0000_001d_4eb0_0829, // jne_d8
    0x0000_001d_8ed0_0829, // jbe_d8
    0x0000_001d_cef0_0829, // ja_d8
    0x0000_001e_0f10_0829, // js_d8
    0x0000_001e_4f30_0829, // jns_d8
    0x0000_001e_8f50_0829, // jp_d8
    0x0000_001e_cf70_0829, // jnp_d8
    0x0000_001f_0f90_0829, // jl_d8
    0x0000_001f_4fb0_0829, // jge_d8
    0x0000_001f_8fd0_0829, // jle_d8
    0x0000_001f_cff0_0829, // jg_d8
    0x0000_2003_f010_082c, // jo_d32
    0x0000_2043_f030_082c, // jno_d32
    0x0000_2083_f050_082c, // jb_d32
    0x0000_20c3_f070_082c, // jae_d32
    0x0000_2103_f090_082c, // je_d32
    0x0000_2143_f0b0_082c, // jne_d32
    0x0000_2183_f0d0_082c, // jbe_d32
    0x0000_21c3_f0f0_082c, // ja_d32
    0x0000_2203_f110_082c, // js_d32
    0x0000_2243_f130_082c, // jns_d32
    0x0000_2283_f150_082c, // jp_d32
    0x0000_22c3_f170_082c, // jnp_d32
    0x0000_2303_f190_082c, // jl_d32
    0x0000_2343_f1b0_082c, // jge_d32
    0x0000_2383_f1d0_082c, // jle_d32
    0x0000_23c3_f1f0_082c, // jg_d32
    0x0000_0030_9851_b241, // vcmpps_b
    0x0000_0030_9851_b2c1, // vcmppd_b
    0x0000_0030_9851_b341, // vcmpss_b
    0x0000_0030_9851_b3c1, // vcmpsd_b
    0x0000_0016_8b51_a2c0, // vcvtpd2ps_a
    0x0000_0039_9cd1_a2c0, // vcvttpd2dq_a
    0x0000_003d_9ed1_b5c0, // mulxl_rvm
    0x0000_003d_9ed1_b5d0, // mulxq_rvm
    0x0000_0024_1210_0020, // nop_1b
    0x4019_8024_1210_0120, // nop_2b
    0x0000_07c3_e3e0_a800, // nopl_rm
    0x4019_87c3_e3e0_a900, // nopw_rm
];
// table/write.py: end

/// So many bits, from this one up.
#[inline(always)]
pub(crate) fn bits(packed: u64, low: u32, width: u32) -> u8
    requires low { low < 64 }
    requires width { width ≤ 8 }
    ensures { result ≡ packed / 2 ^ low % 2 ^ width }
{
    ((packed >> low) % (1 << width)) as u8
}

#[inline(always)]
pub(crate) fn flag(packed: u64, low: u32) -> bool
    requires { low < 64 }
    ensures { result ≡ flag_at packed low }
{
    bits(packed, low, 1) == 1
}

/// Sixteen bits, from this one up.
#[inline(always)]
pub(crate) fn half_word(packed: u64, low: u32) -> u64
    requires { low < 64 }
    ensures { result ≡ bits_at packed low 16 }
{
    (packed >> low) % 0x1_0000
}

#[inline(always)]
fn prefix(packed: u64) -> PrefixField
    ensures { result ≡ prefix_field packed }
{
    if flag(packed, 6) {
        let vvvv = if flag(packed, 12) {
            VvvvField::VvvvRegister
        } else {
            VvvvField::Stored1111
        };
        return PrefixField::VexField(
            bits(packed, 7, 2),
            bits(packed, 9, 2),
            bits(packed, 11, 1),
            vvvv,
        );
    }
    let set = LegacySet {
        lock: flag(packed, 7),
        operand_size: flag(packed, 8),
        repne: flag(packed, 9),
        rep: flag(packed, 10),
    };
    PrefixField::LegacyField(set, flag(packed, 11))
}

#[inline(always)]
fn w(packed: u64) -> Option<u8>
    ensures { result ≡ w_field packed }
{
    match bits(packed, 4, 2) {
        2 => None,
        only => Some(only),
    }
}

#[inline(always)]
fn opcode(packed: u64) -> Opcode
    ensures { result ≡ opcode_field packed }
{
    Opcode {
        escape: flag(packed, 29),
        byte: bits(packed, 21, 8),
    }
}

#[inline(always)]
fn place(packed: u64) -> PlaceField
    ensures { result ≡ place_field packed }
{
    match bits(packed, 13, 2) {
        0 => PlaceField::Memory,
        1 => PlaceField::RegisterOrMemory,
        _ => PlaceField::Register8OrMemory,
    }
}

#[inline(always)]
fn tail(packed: u64) -> TailField
    ensures { result ≡ tail_field packed }
{
    match bits(packed, 15, 2) {
        0 => TailField::NoTail,
        1 => TailField::Modrm(RegField::Digit(bits(packed, 17, 4)), place(packed)),
        2 => TailField::Modrm(RegField::Register8, place(packed)),
        _ => TailField::Modrm(RegField::Register, place(packed)),
    }
}

#[inline(always)]
fn imm(packed: u64) -> ImmField
    ensures { result ≡ imm_field packed }
{
    let size = bits(packed, 0, 3);
    if size == 0 {
        return ImmField::NoImm;
    }
    if flag(packed, 3) {
        ImmField::Simm(size)
    } else {
        ImmField::Imm(size)
    }
}

#[inline(always)]
pub(crate) fn unpack(packed: u64) -> Line
    ensures { result ≡ unpacked packed }
{
    Line {
        prefix: prefix(packed),
        w: w(packed),
        opcode: opcode(packed),
        tail: tail(packed),
        imm: imm(packed),
    }
}

// table/write.py: number
#[inline(always)]
fn number(row: Row) -> usize
    ensures is { result ≡ number_of row }
    ensures below { result < 158 }
{
    row as usize
}
// table/write.py: end

#[inline(always)]
pub(crate) fn entry(row: Row) -> u64
    ensures { result ≡ entry_of row }
{
    TABLE[number(row)]
}

/// What the table says of a row.
#[inline(always)]
pub fn line(row: Row) -> Line
    ensures { result ≡ line_of row }
{
    unpack(entry(row))
}
