// Written by table/write.py from table/instructions.txt.
//! Each of these instructions as one of all.

ghost use Rattle.std.specs.Prelude.{◌≡◌};
ghost use Rattle.cax64_inst.specs.declared.Inst.TheVariants as inst;

use crate::Inst;
use cax64_register::Registers;
use lock_x::{
    lock_cmpxchg16b_m, lock_cmpxchgb_mr, lock_cmpxchgl_mr, lock_cmpxchgq_mr, lock_cmpxchgw_mr,
    lock_xaddb_mr, lock_xaddl_mr, lock_xaddq_mr, lock_xaddw_mr,
};

impl<R: Registers> From<lock_cmpxchgb_mr<R>> for Inst<R> {
    ghost from_gives = { λ i result. result ≡ inst.lock_cmpxchgb_mr i };

    fn from(i: lock_cmpxchgb_mr<R>) -> Inst<R> {
        Inst::lock_cmpxchgb_mr(i)
    }
}

impl<R: Registers> From<lock_cmpxchgw_mr<R>> for Inst<R> {
    ghost from_gives = { λ i result. result ≡ inst.lock_cmpxchgw_mr i };

    fn from(i: lock_cmpxchgw_mr<R>) -> Inst<R> {
        Inst::lock_cmpxchgw_mr(i)
    }
}

impl<R: Registers> From<lock_cmpxchgl_mr<R>> for Inst<R> {
    ghost from_gives = { λ i result. result ≡ inst.lock_cmpxchgl_mr i };

    fn from(i: lock_cmpxchgl_mr<R>) -> Inst<R> {
        Inst::lock_cmpxchgl_mr(i)
    }
}

impl<R: Registers> From<lock_cmpxchgq_mr<R>> for Inst<R> {
    ghost from_gives = { λ i result. result ≡ inst.lock_cmpxchgq_mr i };

    fn from(i: lock_cmpxchgq_mr<R>) -> Inst<R> {
        Inst::lock_cmpxchgq_mr(i)
    }
}

impl<R: Registers> From<lock_cmpxchg16b_m<R>> for Inst<R> {
    ghost from_gives = { λ i result. result ≡ inst.lock_cmpxchg16b_m i };

    fn from(i: lock_cmpxchg16b_m<R>) -> Inst<R> {
        Inst::lock_cmpxchg16b_m(i)
    }
}

impl<R: Registers> From<lock_xaddb_mr<R>> for Inst<R> {
    ghost from_gives = { λ i result. result ≡ inst.lock_xaddb_mr i };

    fn from(i: lock_xaddb_mr<R>) -> Inst<R> {
        Inst::lock_xaddb_mr(i)
    }
}

impl<R: Registers> From<lock_xaddw_mr<R>> for Inst<R> {
    ghost from_gives = { λ i result. result ≡ inst.lock_xaddw_mr i };

    fn from(i: lock_xaddw_mr<R>) -> Inst<R> {
        Inst::lock_xaddw_mr(i)
    }
}

impl<R: Registers> From<lock_xaddl_mr<R>> for Inst<R> {
    ghost from_gives = { λ i result. result ≡ inst.lock_xaddl_mr i };

    fn from(i: lock_xaddl_mr<R>) -> Inst<R> {
        Inst::lock_xaddl_mr(i)
    }
}

impl<R: Registers> From<lock_xaddq_mr<R>> for Inst<R> {
    ghost from_gives = { λ i result. result ≡ inst.lock_xaddq_mr i };

    fn from(i: lock_xaddq_mr<R>) -> Inst<R> {
        Inst::lock_xaddq_mr(i)
    }
}
