//! Instructions over XMM registers.

use crate::values::Values;
// table/write.py: uses
use cranelift_assembler_x64::inst::{
    andps_a, cmppd_a, cmpps_a, cmpsd_a, cmpss_a, vcmppd_b, vcmpps_b, vcmpsd_b, vcmpss_b,
    vcvtpd2ps_a, vcvttpd2dq_a,
};
// table/write.py: end
use cranelift_assembler_x64::{Inst, Numbers};

pub(crate) fn vector(name: &str, v: &mut Values<'_>) -> Option<Inst<Numbers>> {
    match name {
        // table/write.py: vector
        "andps_a" => Some(Inst::andps_a(andps_a::new(v.xmm("xmm1"), v.xmm_mem("xmm_m128")))),
        "cmpps_a" => Some(Inst::cmpps_a(cmpps_a::new(
            v.xmm("xmm1"),
            v.xmm_mem("xmm_m128"),
            v.imm8("imm8"),
        ))),
        "cmppd_a" => Some(Inst::cmppd_a(cmppd_a::new(
            v.xmm("xmm1"),
            v.xmm_mem("xmm_m128"),
            v.imm8("imm8"),
        ))),
        "cmpss_a" => Some(Inst::cmpss_a(cmpss_a::new(
            v.xmm("xmm1"),
            v.xmm_mem("xmm_m32"),
            v.imm8("imm8"),
        ))),
        "cmpsd_a" => Some(Inst::cmpsd_a(cmpsd_a::new(
            v.xmm("xmm1"),
            v.xmm_mem("xmm_m64"),
            v.imm8("imm8"),
        ))),
        "vcmpps_b" => Some(Inst::vcmpps_b(vcmpps_b::new(
            v.xmm("xmm1"),
            v.xmm("xmm2"),
            v.xmm_mem("xmm_m128"),
            v.imm8("imm8"),
        ))),
        "vcmppd_b" => Some(Inst::vcmppd_b(vcmppd_b::new(
            v.xmm("xmm1"),
            v.xmm("xmm2"),
            v.xmm_mem("xmm_m128"),
            v.imm8("imm8"),
        ))),
        "vcmpss_b" => Some(Inst::vcmpss_b(vcmpss_b::new(
            v.xmm("xmm1"),
            v.xmm("xmm2"),
            v.xmm_mem("xmm_m32"),
            v.imm8("imm8"),
        ))),
        "vcmpsd_b" => Some(Inst::vcmpsd_b(vcmpsd_b::new(
            v.xmm("xmm1"),
            v.xmm("xmm2"),
            v.xmm_mem("xmm_m64"),
            v.imm8("imm8"),
        ))),
        "vcvtpd2ps_a" => Some(Inst::vcvtpd2ps_a(vcvtpd2ps_a::new(
            v.xmm("xmm1"),
            v.xmm_mem("xmm_m128"),
        ))),
        "vcvttpd2dq_a" => Some(Inst::vcvttpd2dq_a(vcvttpd2dq_a::new(
            v.xmm("xmm1"),
            v.xmm_mem("xmm_m128"),
        ))),
        // table/write.py: end
        _ => None,
    }
}
