//! Other registers in an instruction.

use crate::words::{at, has_bytes, indexed};
use cax64_address::amode::Scale;
use x64_core::ops::arithmetic::ADDQ_MI_SXB;
use x64_core::ops::control::RETQ_ZO;
use x64_core::ops::moves::LEAQ_RM;
use x64_core::ops::multiplication::IDIVQ_M;
use x64_core::ops::rows::{LOCK_CMPXCHG16B_M, VCMPPS_B};
use x64_core::ops::shifts::SHLQ_MC;

/// Each register by its number: those of 100 and up go to 0 and up, all others stay.
fn homes() -> [u8; 256] {
    let mut homes = [0; 256];
    for i in 0..256 {
        homes[i] = (i % 100) as u8;
    }
    homes
}

#[test]
fn each_register_goes_to_its_home(rt: HostRuntime) {
    let homes = homes();
    let mut core = LEAQ_RM.mem(107, indexed(100, 101, Scale::Two, 103));
    core.rename(&homes);
    assert!(rt; core == LEAQ_RM.mem(7, indexed(0, 1, Scale::Two, 103)));
    let mut core = VCMPPS_B.regs(101, 102, 103, 104);
    core.rename(&homes);
    assert!(rt; core == VCMPPS_B.regs(1, 2, 3, 104));
    let mut core = ADDQ_MI_SXB.mem(at(105, 106), 107);
    core.rename(&homes);
    assert!(rt; core == ADDQ_MI_SXB.mem(at(5, 106), 107));
    let mut core = RETQ_ZO.bare();
    core.rename(&homes);
    assert!(rt; core == RETQ_ZO.bare());
}

/// Two registers may have one home.
#[test]
fn two_registers_get_one_home(rt: HostRuntime) {
    let mut homes = homes();
    homes[120] = 9;
    homes[121] = 9;
    homes[122] = 9;
    let mut sum = LEAQ_RM.mem(122, indexed(120, 121, Scale::Eight, 0));
    sum.rename(&homes);
    assert!(rt; sum == LEAQ_RM.mem(9, indexed(9, 9, Scale::Eight, 0)));
    let mut order = VCMPPS_B.regs(120, 121, 122, 4);
    order.rename(&homes);
    assert!(rt; order == VCMPPS_B.regs(9, 9, 9, 4));
}

/// A register that the line fixes isn't renamed, since it isn't held: `rax` and `rdx` of `idivq`, `cl` of a shift, and the four of
/// `lock cmpxchg16b`.
#[test]
fn fixed_registers_stay(rt: HostRuntime) {
    let homes = [9; 256];
    let mut quotient = IDIVQ_M.reg(1);
    quotient.rename(&homes);
    assert!(rt; quotient == IDIVQ_M.reg(9));
    assert!(rt; has_bytes(&quotient, &[0x49, 0xF7, 0xF9]));
    let mut shift = SHLQ_MC.reg(2);
    shift.rename(&homes);
    assert!(rt; shift == SHLQ_MC.reg(9));
    let mut exchange = LOCK_CMPXCHG16B_M.mem(at(6, 0));
    exchange.rename(&homes);
    assert!(rt; exchange == LOCK_CMPXCHG16B_M.mem(at(9, 0)));
    assert!(rt; has_bytes(&exchange, &[0xF0, 0x49, 0x0F, 0xC7, 0x09]));
}
