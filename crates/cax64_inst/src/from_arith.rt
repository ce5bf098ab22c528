// Written by table/write.py from table/instructions.txt.
//! Each of these instructions as one of all.

ghost use Rattle.std.specs.Prelude.{◌≡◌};
ghost use Rattle.cax64_inst.specs.declared.Inst.TheVariants as inst;

use crate::Inst;
use arith::{
    andb_i, mulxl_rvm, mulxq_rvm, rolb_m1, roll_m1, rolq_m1, rolw_m1, rorb_m1, rorl_m1, rorq_m1,
    rorw_m1, sarb_m1, sarl_m1, sarq_m1, sarw_m1, shlb_m1, shll_m1, shlq_m1, shlw_m1, shrb_m1,
    shrl_m1, shrq_m1, shrw_m1, xchgb_rm, xchgl_rm, xchgq_rm, xchgw_rm,
};
use cax64_register::Registers;

impl<R: Registers> From<andb_i<R>> for Inst<R> {
    ghost from_gives = { λ i result. result ≡ inst.andb_i i };

    fn from(i: andb_i<R>) -> Inst<R> {
        Inst::andb_i(i)
    }
}

impl<R: Registers> From<mulxl_rvm<R>> for Inst<R> {
    ghost from_gives = { λ i result. result ≡ inst.mulxl_rvm i };

    fn from(i: mulxl_rvm<R>) -> Inst<R> {
        Inst::mulxl_rvm(i)
    }
}

impl<R: Registers> From<mulxq_rvm<R>> for Inst<R> {
    ghost from_gives = { λ i result. result ≡ inst.mulxq_rvm i };

    fn from(i: mulxq_rvm<R>) -> Inst<R> {
        Inst::mulxq_rvm(i)
    }
}

impl<R: Registers> From<rolb_m1<R>> for Inst<R> {
    ghost from_gives = { λ i result. result ≡ inst.rolb_m1 i };

    fn from(i: rolb_m1<R>) -> Inst<R> {
        Inst::rolb_m1(i)
    }
}

impl<R: Registers> From<rolw_m1<R>> for Inst<R> {
    ghost from_gives = { λ i result. result ≡ inst.rolw_m1 i };

    fn from(i: rolw_m1<R>) -> Inst<R> {
        Inst::rolw_m1(i)
    }
}

impl<R: Registers> From<roll_m1<R>> for Inst<R> {
    ghost from_gives = { λ i result. result ≡ inst.roll_m1 i };

    fn from(i: roll_m1<R>) -> Inst<R> {
        Inst::roll_m1(i)
    }
}

impl<R: Registers> From<rolq_m1<R>> for Inst<R> {
    ghost from_gives = { λ i result. result ≡ inst.rolq_m1 i };

    fn from(i: rolq_m1<R>) -> Inst<R> {
        Inst::rolq_m1(i)
    }
}

impl<R: Registers> From<rorb_m1<R>> for Inst<R> {
    ghost from_gives = { λ i result. result ≡ inst.rorb_m1 i };

    fn from(i: rorb_m1<R>) -> Inst<R> {
        Inst::rorb_m1(i)
    }
}

impl<R: Registers> From<rorw_m1<R>> for Inst<R> {
    ghost from_gives = { λ i result. result ≡ inst.rorw_m1 i };

    fn from(i: rorw_m1<R>) -> Inst<R> {
        Inst::rorw_m1(i)
    }
}

impl<R: Registers> From<rorl_m1<R>> for Inst<R> {
    ghost from_gives = { λ i result. result ≡ inst.rorl_m1 i };

    fn from(i: rorl_m1<R>) -> Inst<R> {
        Inst::rorl_m1(i)
    }
}

impl<R: Registers> From<rorq_m1<R>> for Inst<R> {
    ghost from_gives = { λ i result. result ≡ inst.rorq_m1 i };

    fn from(i: rorq_m1<R>) -> Inst<R> {
        Inst::rorq_m1(i)
    }
}

impl<R: Registers> From<sarb_m1<R>> for Inst<R> {
    ghost from_gives = { λ i result. result ≡ inst.sarb_m1 i };

    fn from(i: sarb_m1<R>) -> Inst<R> {
        Inst::sarb_m1(i)
    }
}

impl<R: Registers> From<sarw_m1<R>> for Inst<R> {
    ghost from_gives = { λ i result. result ≡ inst.sarw_m1 i };

    fn from(i: sarw_m1<R>) -> Inst<R> {
        Inst::sarw_m1(i)
    }
}

impl<R: Registers> From<sarl_m1<R>> for Inst<R> {
    ghost from_gives = { λ i result. result ≡ inst.sarl_m1 i };

    fn from(i: sarl_m1<R>) -> Inst<R> {
        Inst::sarl_m1(i)
    }
}

impl<R: Registers> From<sarq_m1<R>> for Inst<R> {
    ghost from_gives = { λ i result. result ≡ inst.sarq_m1 i };

    fn from(i: sarq_m1<R>) -> Inst<R> {
        Inst::sarq_m1(i)
    }
}

impl<R: Registers> From<shlb_m1<R>> for Inst<R> {
    ghost from_gives = { λ i result. result ≡ inst.shlb_m1 i };

    fn from(i: shlb_m1<R>) -> Inst<R> {
        Inst::shlb_m1(i)
    }
}

impl<R: Registers> From<shlw_m1<R>> for Inst<R> {
    ghost from_gives = { λ i result. result ≡ inst.shlw_m1 i };

    fn from(i: shlw_m1<R>) -> Inst<R> {
        Inst::shlw_m1(i)
    }
}

impl<R: Registers> From<shll_m1<R>> for Inst<R> {
    ghost from_gives = { λ i result. result ≡ inst.shll_m1 i };

    fn from(i: shll_m1<R>) -> Inst<R> {
        Inst::shll_m1(i)
    }
}

impl<R: Registers> From<shlq_m1<R>> for Inst<R> {
    ghost from_gives = { λ i result. result ≡ inst.shlq_m1 i };

    fn from(i: shlq_m1<R>) -> Inst<R> {
        Inst::shlq_m1(i)
    }
}

impl<R: Registers> From<shrb_m1<R>> for Inst<R> {
    ghost from_gives = { λ i result. result ≡ inst.shrb_m1 i };

    fn from(i: shrb_m1<R>) -> Inst<R> {
        Inst::shrb_m1(i)
    }
}

impl<R: Registers> From<shrw_m1<R>> for Inst<R> {
    ghost from_gives = { λ i result. result ≡ inst.shrw_m1 i };

    fn from(i: shrw_m1<R>) -> Inst<R> {
        Inst::shrw_m1(i)
    }
}

impl<R: Registers> From<shrl_m1<R>> for Inst<R> {
    ghost from_gives = { λ i result. result ≡ inst.shrl_m1 i };

    fn from(i: shrl_m1<R>) -> Inst<R> {
        Inst::shrl_m1(i)
    }
}

impl<R: Registers> From<shrq_m1<R>> for Inst<R> {
    ghost from_gives = { λ i result. result ≡ inst.shrq_m1 i };

    fn from(i: shrq_m1<R>) -> Inst<R> {
        Inst::shrq_m1(i)
    }
}

impl<R: Registers> From<xchgb_rm<R>> for Inst<R> {
    ghost from_gives = { λ i result. result ≡ inst.xchgb_rm i };

    fn from(i: xchgb_rm<R>) -> Inst<R> {
        Inst::xchgb_rm(i)
    }
}

impl<R: Registers> From<xchgw_rm<R>> for Inst<R> {
    ghost from_gives = { λ i result. result ≡ inst.xchgw_rm i };

    fn from(i: xchgw_rm<R>) -> Inst<R> {
        Inst::xchgw_rm(i)
    }
}

impl<R: Registers> From<xchgl_rm<R>> for Inst<R> {
    ghost from_gives = { λ i result. result ≡ inst.xchgl_rm i };

    fn from(i: xchgl_rm<R>) -> Inst<R> {
        Inst::xchgl_rm(i)
    }
}

impl<R: Registers> From<xchgq_rm<R>> for Inst<R> {
    ghost from_gives = { λ i result. result ≡ inst.xchgq_rm i };

    fn from(i: xchgq_rm<R>) -> Inst<R> {
        Inst::xchgq_rm(i)
    }
}
