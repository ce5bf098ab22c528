// Written by table/write.py from table/instructions.txt.
//! Each of these instructions as one of all.

ghost use Rattle.std.specs.Prelude.{◌≡◌};
ghost use Rattle.cax64_inst.specs.declared.Inst.TheVariants as inst;

use crate::Inst;
use cax64_register::Registers;
use simd::{
    andps_a, cmppd_a, cmpps_a, cmpsd_a, cmpss_a, vcmppd_b, vcmpps_b, vcmpsd_b, vcmpss_b,
    vcvtpd2ps_a, vcvttpd2dq_a,
};

impl<R: Registers> From<andps_a<R>> for Inst<R> {
    ghost from_gives = { λ i result. result ≡ inst.andps_a i };

    fn from(i: andps_a<R>) -> Inst<R> {
        Inst::andps_a(i)
    }
}

impl<R: Registers> From<cmpps_a<R>> for Inst<R> {
    ghost from_gives = { λ i result. result ≡ inst.cmpps_a i };

    fn from(i: cmpps_a<R>) -> Inst<R> {
        Inst::cmpps_a(i)
    }
}

impl<R: Registers> From<cmppd_a<R>> for Inst<R> {
    ghost from_gives = { λ i result. result ≡ inst.cmppd_a i };

    fn from(i: cmppd_a<R>) -> Inst<R> {
        Inst::cmppd_a(i)
    }
}

impl<R: Registers> From<cmpss_a<R>> for Inst<R> {
    ghost from_gives = { λ i result. result ≡ inst.cmpss_a i };

    fn from(i: cmpss_a<R>) -> Inst<R> {
        Inst::cmpss_a(i)
    }
}

impl<R: Registers> From<cmpsd_a<R>> for Inst<R> {
    ghost from_gives = { λ i result. result ≡ inst.cmpsd_a i };

    fn from(i: cmpsd_a<R>) -> Inst<R> {
        Inst::cmpsd_a(i)
    }
}

impl<R: Registers> From<vcmpps_b<R>> for Inst<R> {
    ghost from_gives = { λ i result. result ≡ inst.vcmpps_b i };

    fn from(i: vcmpps_b<R>) -> Inst<R> {
        Inst::vcmpps_b(i)
    }
}

impl<R: Registers> From<vcmppd_b<R>> for Inst<R> {
    ghost from_gives = { λ i result. result ≡ inst.vcmppd_b i };

    fn from(i: vcmppd_b<R>) -> Inst<R> {
        Inst::vcmppd_b(i)
    }
}

impl<R: Registers> From<vcmpss_b<R>> for Inst<R> {
    ghost from_gives = { λ i result. result ≡ inst.vcmpss_b i };

    fn from(i: vcmpss_b<R>) -> Inst<R> {
        Inst::vcmpss_b(i)
    }
}

impl<R: Registers> From<vcmpsd_b<R>> for Inst<R> {
    ghost from_gives = { λ i result. result ≡ inst.vcmpsd_b i };

    fn from(i: vcmpsd_b<R>) -> Inst<R> {
        Inst::vcmpsd_b(i)
    }
}

impl<R: Registers> From<vcvtpd2ps_a<R>> for Inst<R> {
    ghost from_gives = { λ i result. result ≡ inst.vcvtpd2ps_a i };

    fn from(i: vcvtpd2ps_a<R>) -> Inst<R> {
        Inst::vcvtpd2ps_a(i)
    }
}

impl<R: Registers> From<vcvttpd2dq_a<R>> for Inst<R> {
    ghost from_gives = { λ i result. result ≡ inst.vcvttpd2dq_a i };

    fn from(i: vcvttpd2dq_a<R>) -> Inst<R> {
        Inst::vcvttpd2dq_a(i)
    }
}
