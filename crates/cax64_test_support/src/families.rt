//! Families of registers that a back end may bring.

ghost use Rattle.std.specs.Prelude.{◌≡◌, ◌++◌, ◌==◌, ◌||◌, true, IsTrue, codes, nat_lt};
ghost use Rattle.std.specs.Fmt.{decimal};
ghost use Rattle.std.proofs.Common.{rules};
ghost use Rattle.cax64_register.specs.Names.{register_name};

use cax64_register::{AsReg, Registers, Size, register_name};
use std::alloc::{AllocError, Allocator};
use std::marker::PhantomData;

/// A register of a compiler before allocation: settled below 16 alone.
#[derive(Clone, Copy, Debug, PartialEq)]
pub struct Virtual(pub u32);

impl AsReg for Virtual {
    ghost accepts = { λ n. nat_lt n 16 };

    ghost settled = { λ v. nat_lt v.0 16 };

    ghost enc = { λ v. v.0 };

    ghost nameable = { λ v. nat_lt v.0 16 };

    ghost text = { λ v. register_name v.0 };

    ghost same = { Prim.search rules };

    fn accepts(number: u8) -> bool {
        number < 16
    }

    fn new(number: u8) -> Virtual {
        Virtual(number as u32)
    }

    fn settled(&self) -> bool {
        self.0 < 16
    }

    fn enc(&self) -> u8 {
        self.0 as u8
    }

    fn nameable(&self) -> bool {
        self.0 < 16
    }

    fn to_string<A: Allocator + Copy>(
        &self,
        alloc: A,
        size: Option<Size>,
    ) -> Result<String<A>, AllocError> {
        register_name(alloc, self.0 as u8, size)
    }
}

/// A register of a machine that has 0, 5 and 13 alone.
#[derive(Clone, Copy, Debug, PartialEq)]
pub struct Few(pub u8);

impl AsReg for Few {
    ghost accepts = { λ n. (n == 0) || ((n == 5) || (n == 13)) };

    ghost settled = { λ r. (r.0 == 0) || ((r.0 == 5) || (r.0 == 13)) };

    ghost enc = { λ r. r.0 };

    ghost nameable = { λ r. (r.0 == 0) || ((r.0 == 5) || (r.0 == 13)) };

    ghost text = { λ r. register_name r.0 };

    ghost same = { Prim.search rules };

    fn accepts(number: u8) -> bool {
        number == 0 || number == 5 || number == 13
    }

    fn new(number: u8) -> Few {
        Few(number)
    }

    fn settled(&self) -> bool {
        self.0 == 0 || self.0 == 5 || self.0 == 13
    }

    fn enc(&self) -> u8 {
        self.0
    }

    fn nameable(&self) -> bool {
        self.0 == 0 || self.0 == 5 || self.0 == 13
    }

    fn to_string<A: Allocator + Copy>(
        &self,
        alloc: A,
        size: Option<Size>,
    ) -> Result<String<A>, AllocError> {
        register_name(alloc, self.0, size)
    }
}

/// A register that always has a text, `v` and its number, also where no instruction can hold it.
#[derive(Clone, Copy, Debug, PartialEq)]
pub struct Named(pub u8);

impl AsReg for Named {
    ghost accepts = { λ _. true };

    ghost settled = { λ _. true };

    ghost enc = { λ r. r.0 };

    ghost nameable = { λ _. true };

    ghost text = { λ r _. codes "v" ++ decimal r.0 };

    ghost same = { Prim.search rules };

    fn accepts(_number: u8) -> bool {
        true
    }

    fn new(number: u8) -> Named {
        Named(number)
    }

    fn settled(&self) -> bool {
        true
    }

    fn enc(&self) -> u8 {
        self.0
    }

    fn nameable(&self) -> bool {
        true
    }

    fn to_string<A: Allocator + Copy>(
        &self,
        alloc: A,
        _size: Option<Size>,
    ) -> Result<String<A>, AllocError> {
        let number = self.0;
        format!(in alloc; "v{number}")
    }
}

/// The family whose registers are all of one type.
pub struct All<R: AsReg>(PhantomData<R>);

impl<R: AsReg> Registers for All<R> {
    type ReadGpr = R;

    type ReadWriteGpr = R;

    type WriteGpr = R;

    type ReadXmm = R;

    type ReadWriteXmm = R;

    type WriteXmm = R;
}
