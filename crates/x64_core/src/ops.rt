//! A constant for each line of the core, by its name. Its type says what the line takes: `CMPQ_RM.regs(7, 6)`.

/// A line without an immediate.
macro_rules! without_imm {
    ($kind:ident, $number:literal) => {
        $kind {
            op: Op { number: $number },
        }
    };
}

/// A line with one.
macro_rules! with_imm {
    ($kind:ident, $number:literal) => {
        $kind {
            op: Op { number: $number },
            of: PhantomData,
        }
    };
}

// table/write.py: files
pub mod arithmetic;
pub mod bits;
pub mod conditions;
pub mod control;
pub mod moves;
pub mod multiplication;
pub mod rows;
pub mod scalar;
pub mod shifts;
// table/write.py: end
