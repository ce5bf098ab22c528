// Written by table/write.py from table/instructions.txt.
//! Each of these instructions as one of all.

ghost use Rattle.std.specs.Prelude.{◌≡◌};
ghost use Rattle.cax64_inst.specs.declared.Inst.TheVariants as inst;

use crate::Inst;
use cax64_register::Registers;
use lock_b::{
    lock_andb_mi, lock_andb_mr, lock_andl_mi, lock_andl_mi_sxb, lock_andl_mr, lock_andq_mi_sxb,
    lock_andq_mi_sxl, lock_andq_mr, lock_andw_mi, lock_andw_mr, lock_sbbb_mi, lock_sbbb_mr,
    lock_sbbl_mi, lock_sbbl_mi_sxb, lock_sbbl_mr, lock_sbbq_mi_sxb, lock_sbbq_mi_sxl, lock_sbbq_mr,
    lock_sbbw_mi, lock_sbbw_mr, lock_subb_mi, lock_subb_mr, lock_subl_mi, lock_subl_mi_sxb,
    lock_subl_mr, lock_subq_mi_sxb, lock_subq_mi_sxl, lock_subq_mr, lock_subw_mi, lock_subw_mr,
    lock_xorb_mi, lock_xorb_mr, lock_xorl_mi, lock_xorl_mi_sxb, lock_xorl_mr, lock_xorq_mi_sxb,
    lock_xorq_mi_sxl, lock_xorq_mr, lock_xorw_mi, lock_xorw_mr,
};

impl<R: Registers> From<lock_sbbb_mi<R>> for Inst<R> {
    ghost from_gives = { λ i result. result ≡ inst.lock_sbbb_mi i };

    fn from(i: lock_sbbb_mi<R>) -> Inst<R> {
        Inst::lock_sbbb_mi(i)
    }
}

impl<R: Registers> From<lock_sbbw_mi<R>> for Inst<R> {
    ghost from_gives = { λ i result. result ≡ inst.lock_sbbw_mi i };

    fn from(i: lock_sbbw_mi<R>) -> Inst<R> {
        Inst::lock_sbbw_mi(i)
    }
}

impl<R: Registers> From<lock_sbbl_mi<R>> for Inst<R> {
    ghost from_gives = { λ i result. result ≡ inst.lock_sbbl_mi i };

    fn from(i: lock_sbbl_mi<R>) -> Inst<R> {
        Inst::lock_sbbl_mi(i)
    }
}

impl<R: Registers> From<lock_sbbq_mi_sxl<R>> for Inst<R> {
    ghost from_gives = { λ i result. result ≡ inst.lock_sbbq_mi_sxl i };

    fn from(i: lock_sbbq_mi_sxl<R>) -> Inst<R> {
        Inst::lock_sbbq_mi_sxl(i)
    }
}

impl<R: Registers> From<lock_sbbl_mi_sxb<R>> for Inst<R> {
    ghost from_gives = { λ i result. result ≡ inst.lock_sbbl_mi_sxb i };

    fn from(i: lock_sbbl_mi_sxb<R>) -> Inst<R> {
        Inst::lock_sbbl_mi_sxb(i)
    }
}

impl<R: Registers> From<lock_sbbq_mi_sxb<R>> for Inst<R> {
    ghost from_gives = { λ i result. result ≡ inst.lock_sbbq_mi_sxb i };

    fn from(i: lock_sbbq_mi_sxb<R>) -> Inst<R> {
        Inst::lock_sbbq_mi_sxb(i)
    }
}

impl<R: Registers> From<lock_sbbb_mr<R>> for Inst<R> {
    ghost from_gives = { λ i result. result ≡ inst.lock_sbbb_mr i };

    fn from(i: lock_sbbb_mr<R>) -> Inst<R> {
        Inst::lock_sbbb_mr(i)
    }
}

impl<R: Registers> From<lock_sbbw_mr<R>> for Inst<R> {
    ghost from_gives = { λ i result. result ≡ inst.lock_sbbw_mr i };

    fn from(i: lock_sbbw_mr<R>) -> Inst<R> {
        Inst::lock_sbbw_mr(i)
    }
}

impl<R: Registers> From<lock_sbbl_mr<R>> for Inst<R> {
    ghost from_gives = { λ i result. result ≡ inst.lock_sbbl_mr i };

    fn from(i: lock_sbbl_mr<R>) -> Inst<R> {
        Inst::lock_sbbl_mr(i)
    }
}

impl<R: Registers> From<lock_sbbq_mr<R>> for Inst<R> {
    ghost from_gives = { λ i result. result ≡ inst.lock_sbbq_mr i };

    fn from(i: lock_sbbq_mr<R>) -> Inst<R> {
        Inst::lock_sbbq_mr(i)
    }
}

impl<R: Registers> From<lock_andb_mi<R>> for Inst<R> {
    ghost from_gives = { λ i result. result ≡ inst.lock_andb_mi i };

    fn from(i: lock_andb_mi<R>) -> Inst<R> {
        Inst::lock_andb_mi(i)
    }
}

impl<R: Registers> From<lock_andw_mi<R>> for Inst<R> {
    ghost from_gives = { λ i result. result ≡ inst.lock_andw_mi i };

    fn from(i: lock_andw_mi<R>) -> Inst<R> {
        Inst::lock_andw_mi(i)
    }
}

impl<R: Registers> From<lock_andl_mi<R>> for Inst<R> {
    ghost from_gives = { λ i result. result ≡ inst.lock_andl_mi i };

    fn from(i: lock_andl_mi<R>) -> Inst<R> {
        Inst::lock_andl_mi(i)
    }
}

impl<R: Registers> From<lock_andq_mi_sxl<R>> for Inst<R> {
    ghost from_gives = { λ i result. result ≡ inst.lock_andq_mi_sxl i };

    fn from(i: lock_andq_mi_sxl<R>) -> Inst<R> {
        Inst::lock_andq_mi_sxl(i)
    }
}

impl<R: Registers> From<lock_andl_mi_sxb<R>> for Inst<R> {
    ghost from_gives = { λ i result. result ≡ inst.lock_andl_mi_sxb i };

    fn from(i: lock_andl_mi_sxb<R>) -> Inst<R> {
        Inst::lock_andl_mi_sxb(i)
    }
}

impl<R: Registers> From<lock_andq_mi_sxb<R>> for Inst<R> {
    ghost from_gives = { λ i result. result ≡ inst.lock_andq_mi_sxb i };

    fn from(i: lock_andq_mi_sxb<R>) -> Inst<R> {
        Inst::lock_andq_mi_sxb(i)
    }
}

impl<R: Registers> From<lock_andb_mr<R>> for Inst<R> {
    ghost from_gives = { λ i result. result ≡ inst.lock_andb_mr i };

    fn from(i: lock_andb_mr<R>) -> Inst<R> {
        Inst::lock_andb_mr(i)
    }
}

impl<R: Registers> From<lock_andw_mr<R>> for Inst<R> {
    ghost from_gives = { λ i result. result ≡ inst.lock_andw_mr i };

    fn from(i: lock_andw_mr<R>) -> Inst<R> {
        Inst::lock_andw_mr(i)
    }
}

impl<R: Registers> From<lock_andl_mr<R>> for Inst<R> {
    ghost from_gives = { λ i result. result ≡ inst.lock_andl_mr i };

    fn from(i: lock_andl_mr<R>) -> Inst<R> {
        Inst::lock_andl_mr(i)
    }
}

impl<R: Registers> From<lock_andq_mr<R>> for Inst<R> {
    ghost from_gives = { λ i result. result ≡ inst.lock_andq_mr i };

    fn from(i: lock_andq_mr<R>) -> Inst<R> {
        Inst::lock_andq_mr(i)
    }
}

impl<R: Registers> From<lock_subb_mi<R>> for Inst<R> {
    ghost from_gives = { λ i result. result ≡ inst.lock_subb_mi i };

    fn from(i: lock_subb_mi<R>) -> Inst<R> {
        Inst::lock_subb_mi(i)
    }
}

impl<R: Registers> From<lock_subw_mi<R>> for Inst<R> {
    ghost from_gives = { λ i result. result ≡ inst.lock_subw_mi i };

    fn from(i: lock_subw_mi<R>) -> Inst<R> {
        Inst::lock_subw_mi(i)
    }
}

impl<R: Registers> From<lock_subl_mi<R>> for Inst<R> {
    ghost from_gives = { λ i result. result ≡ inst.lock_subl_mi i };

    fn from(i: lock_subl_mi<R>) -> Inst<R> {
        Inst::lock_subl_mi(i)
    }
}

impl<R: Registers> From<lock_subq_mi_sxl<R>> for Inst<R> {
    ghost from_gives = { λ i result. result ≡ inst.lock_subq_mi_sxl i };

    fn from(i: lock_subq_mi_sxl<R>) -> Inst<R> {
        Inst::lock_subq_mi_sxl(i)
    }
}

impl<R: Registers> From<lock_subl_mi_sxb<R>> for Inst<R> {
    ghost from_gives = { λ i result. result ≡ inst.lock_subl_mi_sxb i };

    fn from(i: lock_subl_mi_sxb<R>) -> Inst<R> {
        Inst::lock_subl_mi_sxb(i)
    }
}

impl<R: Registers> From<lock_subq_mi_sxb<R>> for Inst<R> {
    ghost from_gives = { λ i result. result ≡ inst.lock_subq_mi_sxb i };

    fn from(i: lock_subq_mi_sxb<R>) -> Inst<R> {
        Inst::lock_subq_mi_sxb(i)
    }
}

impl<R: Registers> From<lock_subb_mr<R>> for Inst<R> {
    ghost from_gives = { λ i result. result ≡ inst.lock_subb_mr i };

    fn from(i: lock_subb_mr<R>) -> Inst<R> {
        Inst::lock_subb_mr(i)
    }
}

impl<R: Registers> From<lock_subw_mr<R>> for Inst<R> {
    ghost from_gives = { λ i result. result ≡ inst.lock_subw_mr i };

    fn from(i: lock_subw_mr<R>) -> Inst<R> {
        Inst::lock_subw_mr(i)
    }
}

impl<R: Registers> From<lock_subl_mr<R>> for Inst<R> {
    ghost from_gives = { λ i result. result ≡ inst.lock_subl_mr i };

    fn from(i: lock_subl_mr<R>) -> Inst<R> {
        Inst::lock_subl_mr(i)
    }
}

impl<R: Registers> From<lock_subq_mr<R>> for Inst<R> {
    ghost from_gives = { λ i result. result ≡ inst.lock_subq_mr i };

    fn from(i: lock_subq_mr<R>) -> Inst<R> {
        Inst::lock_subq_mr(i)
    }
}

impl<R: Registers> From<lock_xorb_mi<R>> for Inst<R> {
    ghost from_gives = { λ i result. result ≡ inst.lock_xorb_mi i };

    fn from(i: lock_xorb_mi<R>) -> Inst<R> {
        Inst::lock_xorb_mi(i)
    }
}

impl<R: Registers> From<lock_xorw_mi<R>> for Inst<R> {
    ghost from_gives = { λ i result. result ≡ inst.lock_xorw_mi i };

    fn from(i: lock_xorw_mi<R>) -> Inst<R> {
        Inst::lock_xorw_mi(i)
    }
}

impl<R: Registers> From<lock_xorl_mi<R>> for Inst<R> {
    ghost from_gives = { λ i result. result ≡ inst.lock_xorl_mi i };

    fn from(i: lock_xorl_mi<R>) -> Inst<R> {
        Inst::lock_xorl_mi(i)
    }
}

impl<R: Registers> From<lock_xorq_mi_sxl<R>> for Inst<R> {
    ghost from_gives = { λ i result. result ≡ inst.lock_xorq_mi_sxl i };

    fn from(i: lock_xorq_mi_sxl<R>) -> Inst<R> {
        Inst::lock_xorq_mi_sxl(i)
    }
}

impl<R: Registers> From<lock_xorl_mi_sxb<R>> for Inst<R> {
    ghost from_gives = { λ i result. result ≡ inst.lock_xorl_mi_sxb i };

    fn from(i: lock_xorl_mi_sxb<R>) -> Inst<R> {
        Inst::lock_xorl_mi_sxb(i)
    }
}

impl<R: Registers> From<lock_xorq_mi_sxb<R>> for Inst<R> {
    ghost from_gives = { λ i result. result ≡ inst.lock_xorq_mi_sxb i };

    fn from(i: lock_xorq_mi_sxb<R>) -> Inst<R> {
        Inst::lock_xorq_mi_sxb(i)
    }
}

impl<R: Registers> From<lock_xorb_mr<R>> for Inst<R> {
    ghost from_gives = { λ i result. result ≡ inst.lock_xorb_mr i };

    fn from(i: lock_xorb_mr<R>) -> Inst<R> {
        Inst::lock_xorb_mr(i)
    }
}

impl<R: Registers> From<lock_xorw_mr<R>> for Inst<R> {
    ghost from_gives = { λ i result. result ≡ inst.lock_xorw_mr i };

    fn from(i: lock_xorw_mr<R>) -> Inst<R> {
        Inst::lock_xorw_mr(i)
    }
}

impl<R: Registers> From<lock_xorl_mr<R>> for Inst<R> {
    ghost from_gives = { λ i result. result ≡ inst.lock_xorl_mr i };

    fn from(i: lock_xorl_mr<R>) -> Inst<R> {
        Inst::lock_xorl_mr(i)
    }
}

impl<R: Registers> From<lock_xorq_mr<R>> for Inst<R> {
    ghost from_gives = { λ i result. result ≡ inst.lock_xorq_mr i };

    fn from(i: lock_xorq_mr<R>) -> Inst<R> {
        Inst::lock_xorq_mr(i)
    }
}
