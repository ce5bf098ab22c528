//! The registers of an instruction are asked for a text in the order of operands, and none behind the first without one.

ghost use Rattle.std.specs.Prelude.{◌≡◌, false, nat_lt};
ghost use Rattle.std.proofs.Common.{rules};
ghost use Rattle.std.specs.Cmp.Rules.{comparing};
ghost use Rattle.cax64_register.specs.Names.{register_name};

use crate::parts::base;
use arith::mulxl_rvm;
use cax64_address::operand::GprMem;
use cax64_register::{AsReg, Fixed, Gpr, Size, register_name};
use cax64_test_support::All;
use cax64_text::InstructionText;
use std::alloc::{AllocError, Allocator};
use std::cell::Cell;

/// A register that notes that it was asked, by one more decimal digit. No two compare equal, as their notes may differ.
#[derive(Clone, Copy)]
struct Noted<'a> {
    number: u8,
    asked: Option<&'a Cell<u64>>,
}

impl PartialEq for Noted<'_> {
    ghost eq = { λ a b. false };

    ghost laws = { Prim.search (comparing, rules) };

    fn eq(&self, _other: &Self) -> bool {
        false
    }
}

impl AsReg for Noted<'_> {
    ghost accepts = { λ n. nat_lt n 16 };

    ghost settled = { λ r. nat_lt r.number 16 };

    ghost enc = { λ r. r.number };

    ghost nameable = { λ r. nat_lt r.number 10 };

    ghost text = { λ r size. register_name r.number size };

    ghost same = { Prim.search rules };

    fn accepts(number: u8) -> bool
        ensures { result ≡ nat_lt number 16 }
    {
        number < 16
    }

    fn new(number: u8) -> Self {
        Noted {
            number,
            asked: None,
        }
    }

    fn settled(&self) -> bool {
        self.number < 16
    }

    fn enc(&self) -> u8 {
        self.number
    }

    fn nameable(&self) -> bool {
        if let Some(asked) = self.asked {
            let digit = u64::from(self.number % 10);
            asked.set(asked.get().wrapping_mul(10).wrapping_add(digit));
        }
        self.number < 10
    }

    fn to_string<A: Allocator + Copy>(
        &self,
        alloc: A,
        size: Option<Size>,
    ) -> Result<String<A>, AllocError> {
        register_name(alloc, self.number, size)
    }
}

/// What the registers of a product of these noted.
fn asked_by_product(first: u8, second: u8, address: u8) -> u64 {
    let cell = Cell::new(0u64);
    let noted = |number: u8| Noted {
        number,
        asked: Some(&cell),
    };
    let place = GprMem::Mem(base(noted(address), 0));
    let product: mulxl_rvm<All<Noted<'_>>> = mulxl_rvm::new(
        Gpr::new(noted(first)),
        Gpr::new(noted(second)),
        place,
        Fixed(noted(2)),
    );
    let _nameable = product.nameable();
    cell.get()
}

#[test]
fn registers_are_asked_in_order(rt: HostRuntime) {
    assert!(rt; asked_by_product(1, 2, 3) == 123);
    assert!(rt; asked_by_product(1, 2, 13) == 123);
    assert!(rt; asked_by_product(1, 12, 3) == 12);
    assert!(rt; asked_by_product(11, 2, 3) == 1);
}
