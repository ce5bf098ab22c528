//! Instructions over XMM registers.

use crate::maker::Maker;
use crate::registers::PlainFamily;
use cranelift_assembler_x64::Inst;
use cranelift_assembler_x64::inst::{
    andps_a, cmppd_a, cmpps_a, cmpsd_a, cmpss_a, vcmppd_b, vcmpps_b, vcmpsd_b, vcmpss_b,
    vcvtpd2ps_a, vcvttpd2dq_a,
};

/// How many kinds there are.
pub(crate) const COUNT: u8 = 11;

/// An instruction of a kind, by its number.
pub(crate) fn make<R: PlainFamily>(kind: u8, m: &mut Maker) -> Inst<R> {
    match kind {
        0 => Inst::andps_a(andps_a::new(m.xmm(), m.xmm_mem())),
        1 => Inst::cmpps_a(cmpps_a::new(m.xmm(), m.xmm_mem(), m.imm8())),
        2 => Inst::cmppd_a(cmppd_a::new(m.xmm(), m.xmm_mem(), m.imm8())),
        3 => Inst::cmpss_a(cmpss_a::new(m.xmm(), m.xmm_mem(), m.imm8())),
        4 => Inst::cmpsd_a(cmpsd_a::new(m.xmm(), m.xmm_mem(), m.imm8())),
        5 => Inst::vcmpps_b(vcmpps_b::new(m.xmm(), m.xmm(), m.xmm_mem(), m.imm8())),
        6 => Inst::vcmppd_b(vcmppd_b::new(m.xmm(), m.xmm(), m.xmm_mem(), m.imm8())),
        7 => Inst::vcmpss_b(vcmpss_b::new(m.xmm(), m.xmm(), m.xmm_mem(), m.imm8())),
        8 => Inst::vcmpsd_b(vcmpsd_b::new(m.xmm(), m.xmm(), m.xmm_mem(), m.imm8())),
        9 => Inst::vcvtpd2ps_a(vcvtpd2ps_a::new(m.xmm(), m.xmm_mem())),
        _ => Inst::vcvttpd2dq_a(vcvttpd2dq_a::new(m.xmm(), m.xmm_mem())),
    }
}
