// Written by table/write.py from table/instructions.txt.
//! Each of these instructions as one of all.

ghost use Rattle.std.specs.Prelude.{◌≡◌};
ghost use Rattle.cax64_inst.specs.declared.Inst.TheVariants as inst;

use crate::Inst;
use cax64_register::Registers;
use nop::{nop_1b, nop_2b, nop_3b, nop_4b, nop_5b, nop_6b, nop_7b, nop_8b, nop_9b};

impl<R: Registers> From<nop_1b> for Inst<R> {
    ghost from_gives = { λ i result. result ≡ inst.nop_1b i };

    fn from(i: nop_1b) -> Inst<R> {
        Inst::nop_1b(i)
    }
}

impl<R: Registers> From<nop_2b> for Inst<R> {
    ghost from_gives = { λ i result. result ≡ inst.nop_2b i };

    fn from(i: nop_2b) -> Inst<R> {
        Inst::nop_2b(i)
    }
}

impl<R: Registers> From<nop_3b> for Inst<R> {
    ghost from_gives = { λ i result. result ≡ inst.nop_3b i };

    fn from(i: nop_3b) -> Inst<R> {
        Inst::nop_3b(i)
    }
}

impl<R: Registers> From<nop_4b> for Inst<R> {
    ghost from_gives = { λ i result. result ≡ inst.nop_4b i };

    fn from(i: nop_4b) -> Inst<R> {
        Inst::nop_4b(i)
    }
}

impl<R: Registers> From<nop_5b> for Inst<R> {
    ghost from_gives = { λ i result. result ≡ inst.nop_5b i };

    fn from(i: nop_5b) -> Inst<R> {
        Inst::nop_5b(i)
    }
}

impl<R: Registers> From<nop_6b> for Inst<R> {
    ghost from_gives = { λ i result. result ≡ inst.nop_6b i };

    fn from(i: nop_6b) -> Inst<R> {
        Inst::nop_6b(i)
    }
}

impl<R: Registers> From<nop_7b> for Inst<R> {
    ghost from_gives = { λ i result. result ≡ inst.nop_7b i };

    fn from(i: nop_7b) -> Inst<R> {
        Inst::nop_7b(i)
    }
}

impl<R: Registers> From<nop_8b> for Inst<R> {
    ghost from_gives = { λ i result. result ≡ inst.nop_8b i };

    fn from(i: nop_8b) -> Inst<R> {
        Inst::nop_8b(i)
    }
}

impl<R: Registers> From<nop_9b> for Inst<R> {
    ghost from_gives = { λ i result. result ≡ inst.nop_9b i };

    fn from(i: nop_9b) -> Inst<R> {
        Inst::nop_9b(i)
    }
}
