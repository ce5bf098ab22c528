//! Terms of features, and whether they are true.

ghost use Rattle.worked_texts.specs.Processor.{answer};

use crate::parts::{Plain, base, gpr, is, xmm};
use arith::{andb_i, mulxl_rvm, mulxq_rvm};
use cax64_feature::AvailableFeatures;
use cax64_immediate::{Imm8, Simm8};
use cax64_operand::RowAndOperands;
use cax64_register::{Fixed, Gpr, Xmm};
use cax64_text::InstructionText;
use jump::{callq_m, jmp_d8};
use lock_x::lock_cmpxchg16b_m;
use simd::{andps_a, cmppd_a, vcmpps_b};
use std::alloc::{AllocError, Global};

/// A processor that has `compat` and `bmi2`, or not, and the others, or not.
#[derive(Clone, Copy)]
struct Processor {
    compat_and_bmi2: bool,
    others: bool,
}

impl AvailableFeatures for Processor {
    ghost has = { λ p. answer p.compat_and_bmi2 p.others };

    fn _64b(&self) -> bool {
        self.others
    }

    fn compat(&self) -> bool {
        self.compat_and_bmi2
    }

    fn sse(&self) -> bool {
        self.others
    }

    fn sse2(&self) -> bool {
        self.others
    }

    fn avx(&self) -> bool {
        self.others
    }

    fn bmi2(&self) -> bool {
        self.compat_and_bmi2
    }

    fn cmpxchg16b(&self) -> bool {
        self.others
    }
}

fn asks<I: RowAndOperands>(alloc: Global, inst: &I, term: &str) -> Result<bool, AllocError> {
    Ok(is(inst.features(alloc)?.to_string(alloc), term))
}

fn product() -> mulxq_rvm<Plain> {
    mulxq_rvm::new(Gpr::new(1), Gpr::new(2), gpr(8), Fixed(2))
}

#[test]
fn terms_print(rt: HostRuntime) -> Result<(), AllocError> {
    let alloc = rt.alloc();
    let and = andps_a::<Plain>::new(Xmm::new(8), xmm(1));
    assert!(rt; asks(alloc, &and, "((_64b | compat) & sse)")?);
    assert!(rt; asks(alloc, &jmp_d8::new(Simm8::new(0)), "(_64b | compat)")?);
    assert!(rt; asks(alloc, &callq_m::<Plain>::new(gpr(0)), "_64b")?);
    assert!(rt; asks(alloc, &product(), "(_64b & bmi2)")?);
    let long = mulxl_rvm::<Plain>::new(Gpr::new(1), Gpr::new(2), gpr(8), Fixed(2));
    assert!(rt; asks(alloc, &long, "((_64b | compat) & bmi2)")?);
    Ok(())
}

#[test]
fn more_terms_print(rt: HostRuntime) -> Result<(), AllocError> {
    let alloc = rt.alloc();
    let pair = lock_cmpxchg16b_m::<Plain>::new(base(6, 0), Fixed(0), Fixed(2), Fixed(1), Fixed(3));
    assert!(rt; asks(alloc, &pair, "(_64b & cmpxchg16b)")?);
    let vex = vcmpps_b::<Plain>::new(Xmm::new(0), Xmm::new(15), xmm(1), Imm8::new(0));
    assert!(rt; asks(alloc, &vex, "((_64b | compat) & avx)")?);
    let compare = cmppd_a::<Plain>::new(Xmm::new(0), xmm(1), Imm8::new(0));
    assert!(rt; asks(alloc, &compare, "((_64b | compat) & sse2)")?);
    Ok(())
}

#[test]
fn processors_have_what_instructions_ask_for(rt: HostRuntime) -> Result<(), AllocError> {
    let alloc = rt.alloc();
    let half = Processor {
        compat_and_bmi2: true,
        others: false,
    };
    let all = Processor {
        compat_and_bmi2: true,
        others: true,
    };
    let none = Processor {
        compat_and_bmi2: false,
        others: false,
    };
    assert!(rt; !product().is_available(&half));
    assert!(rt; jmp_d8::new(Simm8::new(0)).is_available(&half));
    let and = andb_i::<Plain>::new(Fixed(0), Imm8::new(0));
    assert!(rt; and.is_available(&all) && !and.is_available(&none));
    let term = product().features(alloc)?;
    assert!(rt; term.is_available(&all) && !term.is_available(&half));
    Ok(())
}
