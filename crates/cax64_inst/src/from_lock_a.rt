// Written by table/write.py from table/instructions.txt.
//! Each of these instructions as one of all.

ghost use Rattle.std.specs.Prelude.{◌≡◌};
ghost use Rattle.cax64_inst.specs.declared.Inst.TheVariants as inst;

use crate::Inst;
use cax64_register::Registers;
use lock_a::{
    lock_adcb_mi, lock_adcb_mr, lock_adcl_mi, lock_adcl_mi_sxb, lock_adcl_mr, lock_adcq_mi_sxb,
    lock_adcq_mi_sxl, lock_adcq_mr, lock_adcw_mi, lock_adcw_mr, lock_addb_mi, lock_addb_mr,
    lock_addl_mi, lock_addl_mi_sxb, lock_addl_mr, lock_addq_mi_sxb, lock_addq_mi_sxl, lock_addq_mr,
    lock_addw_mi, lock_addw_mr, lock_orb_mi, lock_orb_mr, lock_orl_mi, lock_orl_mi_sxb,
    lock_orl_mr, lock_orq_mi_sxb, lock_orq_mi_sxl, lock_orq_mr, lock_orw_mi, lock_orw_mr,
};

impl<R: Registers> From<lock_addb_mi<R>> for Inst<R> {
    ghost from_gives = { λ i result. result ≡ inst.lock_addb_mi i };

    fn from(i: lock_addb_mi<R>) -> Inst<R> {
        Inst::lock_addb_mi(i)
    }
}

impl<R: Registers> From<lock_addw_mi<R>> for Inst<R> {
    ghost from_gives = { λ i result. result ≡ inst.lock_addw_mi i };

    fn from(i: lock_addw_mi<R>) -> Inst<R> {
        Inst::lock_addw_mi(i)
    }
}

impl<R: Registers> From<lock_addl_mi<R>> for Inst<R> {
    ghost from_gives = { λ i result. result ≡ inst.lock_addl_mi i };

    fn from(i: lock_addl_mi<R>) -> Inst<R> {
        Inst::lock_addl_mi(i)
    }
}

impl<R: Registers> From<lock_addq_mi_sxl<R>> for Inst<R> {
    ghost from_gives = { λ i result. result ≡ inst.lock_addq_mi_sxl i };

    fn from(i: lock_addq_mi_sxl<R>) -> Inst<R> {
        Inst::lock_addq_mi_sxl(i)
    }
}

impl<R: Registers> From<lock_addl_mi_sxb<R>> for Inst<R> {
    ghost from_gives = { λ i result. result ≡ inst.lock_addl_mi_sxb i };

    fn from(i: lock_addl_mi_sxb<R>) -> Inst<R> {
        Inst::lock_addl_mi_sxb(i)
    }
}

impl<R: Registers> From<lock_addq_mi_sxb<R>> for Inst<R> {
    ghost from_gives = { λ i result. result ≡ inst.lock_addq_mi_sxb i };

    fn from(i: lock_addq_mi_sxb<R>) -> Inst<R> {
        Inst::lock_addq_mi_sxb(i)
    }
}

impl<R: Registers> From<lock_addb_mr<R>> for Inst<R> {
    ghost from_gives = { λ i result. result ≡ inst.lock_addb_mr i };

    fn from(i: lock_addb_mr<R>) -> Inst<R> {
        Inst::lock_addb_mr(i)
    }
}

impl<R: Registers> From<lock_addw_mr<R>> for Inst<R> {
    ghost from_gives = { λ i result. result ≡ inst.lock_addw_mr i };

    fn from(i: lock_addw_mr<R>) -> Inst<R> {
        Inst::lock_addw_mr(i)
    }
}

impl<R: Registers> From<lock_addl_mr<R>> for Inst<R> {
    ghost from_gives = { λ i result. result ≡ inst.lock_addl_mr i };

    fn from(i: lock_addl_mr<R>) -> Inst<R> {
        Inst::lock_addl_mr(i)
    }
}

impl<R: Registers> From<lock_addq_mr<R>> for Inst<R> {
    ghost from_gives = { λ i result. result ≡ inst.lock_addq_mr i };

    fn from(i: lock_addq_mr<R>) -> Inst<R> {
        Inst::lock_addq_mr(i)
    }
}

impl<R: Registers> From<lock_orb_mi<R>> for Inst<R> {
    ghost from_gives = { λ i result. result ≡ inst.lock_orb_mi i };

    fn from(i: lock_orb_mi<R>) -> Inst<R> {
        Inst::lock_orb_mi(i)
    }
}

impl<R: Registers> From<lock_orw_mi<R>> for Inst<R> {
    ghost from_gives = { λ i result. result ≡ inst.lock_orw_mi i };

    fn from(i: lock_orw_mi<R>) -> Inst<R> {
        Inst::lock_orw_mi(i)
    }
}

impl<R: Registers> From<lock_orl_mi<R>> for Inst<R> {
    ghost from_gives = { λ i result. result ≡ inst.lock_orl_mi i };

    fn from(i: lock_orl_mi<R>) -> Inst<R> {
        Inst::lock_orl_mi(i)
    }
}

impl<R: Registers> From<lock_orq_mi_sxl<R>> for Inst<R> {
    ghost from_gives = { λ i result. result ≡ inst.lock_orq_mi_sxl i };

    fn from(i: lock_orq_mi_sxl<R>) -> Inst<R> {
        Inst::lock_orq_mi_sxl(i)
    }
}

impl<R: Registers> From<lock_orl_mi_sxb<R>> for Inst<R> {
    ghost from_gives = { λ i result. result ≡ inst.lock_orl_mi_sxb i };

    fn from(i: lock_orl_mi_sxb<R>) -> Inst<R> {
        Inst::lock_orl_mi_sxb(i)
    }
}

impl<R: Registers> From<lock_orq_mi_sxb<R>> for Inst<R> {
    ghost from_gives = { λ i result. result ≡ inst.lock_orq_mi_sxb i };

    fn from(i: lock_orq_mi_sxb<R>) -> Inst<R> {
        Inst::lock_orq_mi_sxb(i)
    }
}

impl<R: Registers> From<lock_orb_mr<R>> for Inst<R> {
    ghost from_gives = { λ i result. result ≡ inst.lock_orb_mr i };

    fn from(i: lock_orb_mr<R>) -> Inst<R> {
        Inst::lock_orb_mr(i)
    }
}

impl<R: Registers> From<lock_orw_mr<R>> for Inst<R> {
    ghost from_gives = { λ i result. result ≡ inst.lock_orw_mr i };

    fn from(i: lock_orw_mr<R>) -> Inst<R> {
        Inst::lock_orw_mr(i)
    }
}

impl<R: Registers> From<lock_orl_mr<R>> for Inst<R> {
    ghost from_gives = { λ i result. result ≡ inst.lock_orl_mr i };

    fn from(i: lock_orl_mr<R>) -> Inst<R> {
        Inst::lock_orl_mr(i)
    }
}

impl<R: Registers> From<lock_orq_mr<R>> for Inst<R> {
    ghost from_gives = { λ i result. result ≡ inst.lock_orq_mr i };

    fn from(i: lock_orq_mr<R>) -> Inst<R> {
        Inst::lock_orq_mr(i)
    }
}

impl<R: Registers> From<lock_adcb_mi<R>> for Inst<R> {
    ghost from_gives = { λ i result. result ≡ inst.lock_adcb_mi i };

    fn from(i: lock_adcb_mi<R>) -> Inst<R> {
        Inst::lock_adcb_mi(i)
    }
}

impl<R: Registers> From<lock_adcw_mi<R>> for Inst<R> {
    ghost from_gives = { λ i result. result ≡ inst.lock_adcw_mi i };

    fn from(i: lock_adcw_mi<R>) -> Inst<R> {
        Inst::lock_adcw_mi(i)
    }
}

impl<R: Registers> From<lock_adcl_mi<R>> for Inst<R> {
    ghost from_gives = { λ i result. result ≡ inst.lock_adcl_mi i };

    fn from(i: lock_adcl_mi<R>) -> Inst<R> {
        Inst::lock_adcl_mi(i)
    }
}

impl<R: Registers> From<lock_adcq_mi_sxl<R>> for Inst<R> {
    ghost from_gives = { λ i result. result ≡ inst.lock_adcq_mi_sxl i };

    fn from(i: lock_adcq_mi_sxl<R>) -> Inst<R> {
        Inst::lock_adcq_mi_sxl(i)
    }
}

impl<R: Registers> From<lock_adcl_mi_sxb<R>> for Inst<R> {
    ghost from_gives = { λ i result. result ≡ inst.lock_adcl_mi_sxb i };

    fn from(i: lock_adcl_mi_sxb<R>) -> Inst<R> {
        Inst::lock_adcl_mi_sxb(i)
    }
}

impl<R: Registers> From<lock_adcq_mi_sxb<R>> for Inst<R> {
    ghost from_gives = { λ i result. result ≡ inst.lock_adcq_mi_sxb i };

    fn from(i: lock_adcq_mi_sxb<R>) -> Inst<R> {
        Inst::lock_adcq_mi_sxb(i)
    }
}

impl<R: Registers> From<lock_adcb_mr<R>> for Inst<R> {
    ghost from_gives = { λ i result. result ≡ inst.lock_adcb_mr i };

    fn from(i: lock_adcb_mr<R>) -> Inst<R> {
        Inst::lock_adcb_mr(i)
    }
}

impl<R: Registers> From<lock_adcw_mr<R>> for Inst<R> {
    ghost from_gives = { λ i result. result ≡ inst.lock_adcw_mr i };

    fn from(i: lock_adcw_mr<R>) -> Inst<R> {
        Inst::lock_adcw_mr(i)
    }
}

impl<R: Registers> From<lock_adcl_mr<R>> for Inst<R> {
    ghost from_gives = { λ i result. result ≡ inst.lock_adcl_mr i };

    fn from(i: lock_adcl_mr<R>) -> Inst<R> {
        Inst::lock_adcl_mr(i)
    }
}

impl<R: Registers> From<lock_adcq_mr<R>> for Inst<R> {
    ghost from_gives = { λ i result. result ≡ inst.lock_adcq_mr i };

    fn from(i: lock_adcq_mr<R>) -> Inst<R> {
        Inst::lock_adcq_mr(i)
    }
}
