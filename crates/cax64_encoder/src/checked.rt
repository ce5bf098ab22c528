//! Whether operands can be encoded: a conjunction, whatever the order of visits.

ghost use Rattle.std.specs.Prelude.{◌≡◌};
ghost use Rattle.cax64_encoder.specs.Checked.{holds, none_checked, with_amode, with_checked_operand, with_met};
ghost use Rattle.cax64_encoder.specs.Number.{is_real_number};
ghost use Rattle.cax64_encoder.specs.Numbered.{no_displacement};
ghost use Rattle.cax64_operand.specs.Family.{numbering};

use crate::number::Number;
use cax64_address::amode::Amode;
use cax64_address::offset::AmodeOffsetPlusKnownOffset;
use cax64_address::operand::{GprMem, XmmMem};
use cax64_operand::{FromOperands, Nop, Operand, RegisterFamily};
use cax64_register::{AsReg, Registers};
use cax64_sink::CodeSink;

/// What decides whether operands can be encoded.
#[derive(Clone, Copy)]
pub struct Checked {
    /// Whether each register is as it has to be.
    pub met: bool,
    /// The displacement that may have a late offset, or one that has none.
    pub displacement: AmodeOffsetPlusKnownOffset,
}

impl<R: Registers> FromOperands<R> for Checked {
    ghost made_of_none = { none_checked };

    ghost made_with = { with_checked_operand ⟦<R as RegisterFamily>⟧.family };

    ghost made_of_nop = { λ _. none_checked };

    #[inline(always)]
    fn none() -> Checked
        ensures { result ≡ none_checked }
    {
        Checked::nothing()
    }

    #[inline(always)]
    fn with(mut self, operand: Operand<R>) -> Checked
        ensures { result ≡ with_checked_operand ⟦<R as RegisterFamily>⟧.family operand self }
    {
        self.add(&operand);
        self
    }

    #[inline(always)]
    fn nop(_nop: Nop) -> Checked
        ensures { result ≡ none_checked }
    {
        Checked::nothing()
    }
}

impl Checked {
    #[inline(always)]
    fn nothing() -> Checked
        ensures { result ≡ none_checked }
    {
        Checked {
            met: true,
            displacement: AmodeOffsetPlusKnownOffset::ZERO,
        }
    }

    /// One more thing has to hold. Nothing is tested: a branch would cost more.
    #[inline(always)]
    fn and(&mut self, met: bool)
        ensures { self.new ≡ with_met met self.old }
    {
        self.met = met & self.met;
    }

    /// Puts an address before the other operands.
    #[inline(always)]
    fn add_amode<M: AsReg>(&mut self, amode: &Amode<M>)
        ensures { self.new ≡ with_amode (numbering M.settled M.enc) amode.now self.old }
    {
        match amode {
            Amode::ImmReg { base, simm32, .. } => {
                self.and(Number::of(*base).is_real());
                self.displacement = *simm32;
            }
            Amode::ImmRegRegShift { base, index, .. } => {
                let base = Number::of(*base);
                let index = Number::of(*index.as_ref());
                self.and(base.is_real() & index.is_index());
                self.displacement = AmodeOffsetPlusKnownOffset::ZERO;
            }
            Amode::RipRelative { .. } => self.displacement = AmodeOffsetPlusKnownOffset::ZERO,
        }
    }

    /// Puts a register that stands in the place of an address before the other operands.
    #[inline(always)]
    fn add_place_register(&mut self, number: Number)
        ensures { self.new ≡ record { met = (with_met (is_real_number number) self.old).met; displacement = no_displacement } }
    {
        self.and(number.is_real());
        self.displacement = AmodeOffsetPlusKnownOffset::ZERO;
    }

    /// Puts one more operand before the others.
    #[inline(always)]
    pub(crate) fn add<R: Registers>(&mut self, operand: &Operand<R>)
        ensures { self.new ≡ with_checked_operand ⟦<R as RegisterFamily>⟧.family operand.now self.old }
    {
        match operand {
            Operand::ReadGpr(reg, _) => self.and(Number::of(*reg).is_real()),
            Operand::ReadWriteGpr(reg, _) => self.and(Number::of(*reg).is_real()),
            Operand::WriteGpr(reg, _) => self.and(Number::of(*reg).is_real()),
            Operand::WriteTwoGprs(first, second, _) => {
                let is_second_real = (*first == *second) | Number::of(*second).is_real();
                self.and(Number::of(*first).is_real() & is_second_real);
            }
            Operand::FixedReadGpr(reg, expected, _) => self.and(Number::of(*reg).is(*expected)),
            Operand::FixedReadWriteGpr(reg, expected, _) => {
                self.and(Number::of(*reg).is(*expected));
            }
            Operand::ReadXmm(reg) => self.and(Number::of(*reg).is_real()),
            Operand::ReadWriteXmm(reg) => self.and(Number::of(*reg).is_real()),
            Operand::WriteXmm(reg) => self.and(Number::of(*reg).is_real()),
            Operand::ReadGprMem(GprMem::Gpr(reg), _) => {
                self.add_place_register(Number::of(*reg));
            }
            Operand::ReadWriteGprMem(GprMem::Gpr(reg), _) => {
                self.add_place_register(Number::of(*reg));
            }
            Operand::ReadXmmMem(XmmMem::Xmm(reg)) => self.add_place_register(Number::of(*reg)),
            Operand::ReadAmode(amode)
            | Operand::ReadGprMem(GprMem::Mem(amode), _)
            | Operand::ReadWriteGprMem(GprMem::Mem(amode), _)
            | Operand::ReadXmmMem(XmmMem::Mem(amode)) => self.add_amode(amode),
            Operand::Imm(_) => {}
        }
    }

    /// Whether the operands can be encoded for this sink.
    #[inline(always)]
    pub fn holds<S: CodeSink>(&self, sink: &S) -> bool
        ensures { result ≡ holds (S.state sink.now).offsets self.now }
    {
        self.met & self.displacement.fits(sink)
    }
}
