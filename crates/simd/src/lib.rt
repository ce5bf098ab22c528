//! Arithmetic of XMM registers.
#![tactic(auto)]
#![allow(non_camel_case_types)]

// table/write.py: modules
mod and;
mod cmp;
mod vcmp;
mod vcvt;

pub use and::andps_a;
pub use cmp::{cmppd_a, cmpps_a, cmpsd_a, cmpss_a};
pub use vcmp::{vcmppd_b, vcmpps_b, vcmpsd_b, vcmpss_b};
pub use vcvt::{vcvtpd2ps_a, vcvttpd2dq_a};
// table/write.py: end
