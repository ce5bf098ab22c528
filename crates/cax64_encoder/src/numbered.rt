//! Operands by their numbers: all that the bytes hold, whatever the register types.

ghost use Rattle.std.specs.Prelude.{◌≡◌};
ghost use Rattle.cax64_encoder.specs.Numbered.{no_place, register_place, numbered_amode, no_form, with_register, with_role, notice_count};
ghost use Rattle.cax64_encoder.specs.Marked.{amode_mark, marked_amode};
ghost use Rattle.cax64_encoder.specs.Role.{role_of};
ghost use Rattle.cax64_operand.specs.Family.{numbering};

use crate::imm::word_of;
use crate::number::Number;
use cax64_address::amode::{Amode, Scale};
use cax64_address::offset::AmodeOffsetPlusKnownOffset;
use cax64_address::operand::{GprMem, XmmMem};
use cax64_operand::{Operand, RegisterFamily};
use cax64_register::{AsReg, Registers, gpr};
use cax64_sink::{DeferredTarget, TrapCode};

/// What the rest of the tail names. What it lacks is false, 0 or absent.
#[derive(Clone, Copy)]
pub struct NumberedPlace {
    /// Whether anything stands there.
    pub stands: bool,
    /// Whether that is a register and no address.
    pub is_register: bool,
    /// Whether it is an address of a base and an index. No code asks: it tells what the numbers stand for.
    pub has_index: bool,
    /// The target of an address relative to the end.
    pub relative: Option<DeferredTarget>,
    /// Of the register or of the base.
    pub base: u8,
    /// 4, which is no index, beside a base alone.
    pub index: u8,
    /// Of the register once more.
    pub register: u8,
    pub scale: Scale,
    pub displacement: AmodeOffsetPlusKnownOffset,
    pub trap: Option<TrapCode>,
}

/// The operands that the bytes hold. What an instruction lacks is absent or 0.
#[derive(Clone, Copy)]
pub struct NumberedForm {
    /// Of the register in the reg field of ModR/M.
    pub reg: Option<u8>,
    /// Of the register in vvvv of a VEX prefix.
    pub vvvv: Option<u8>,
    pub place: NumberedPlace,
    /// The bytes of the immediate as one word, the first one the lowest; 0 where there is none.
    pub imm: u32,
}

impl NumberedPlace {
    #[inline(always)]
    pub(crate) fn none() -> NumberedPlace
        ensures { result ≡ no_place }
    {
        NumberedPlace {
            stands: false,
            is_register: false,
            has_index: false,
            relative: None,
            base: 0,
            index: 0,
            register: 0,
            scale: Scale::One,
            displacement: AmodeOffsetPlusKnownOffset::ZERO,
            trap: None,
        }
    }

    /// The place of a register of this number.
    #[inline(always)]
    pub(crate) fn of_register(number: u8) -> NumberedPlace
        ensures { result ≡ register_place number }
    {
        NumberedPlace::none().with_number(number)
    }

    /// The place of a register of this number, where nothing stands yet.
    #[inline(always)]
    pub(crate) fn with_number(mut self, number: u8) -> NumberedPlace
        requires { self ≡ no_place }
        ensures { result ≡ register_place number }
    {
        self.stands = true;
        self.is_register = true;
        self.base = number;
        self.register = number;
        self
    }

    /// The numbers of an address, 0 of a virtual register, where nothing stands yet.
    #[inline(always)]
    fn with_amode<M: AsReg>(mut self, amode: &Amode<M>) -> NumberedPlace
        requires { self ≡ no_place }
        ensures { result ≡ numbered_amode (numbering M.settled M.enc) amode.now }
    {
        self.stands = true;
        match amode {
            Amode::ImmReg { base, simm32, trap } => {
                self.base = Number::value_of(*base);
                self.index = gpr::enc::RSP;
                self.displacement = *simm32;
                self.trap = *trap;
            }
            Amode::ImmRegRegShift {
                base,
                index,
                scale,
                simm32,
                trap,
            } => {
                self.has_index = true;
                self.base = Number::value_of(*base);
                self.index = Number::value_of(*index.as_ref());
                self.scale = *scale;
                self.displacement.simm32 = *simm32;
                self.trap = *trap;
            }
            Amode::RipRelative { target } => self.relative = Some(*target),
        }
        self
    }

    /// The numbers of an address, 255 of a virtual register, where nothing stands yet, and 16 where more has to hold than that
    /// they are below 16: of a late offset, or of an index that is the stack pointer's.
    #[inline(always)]
    pub(crate) fn marked<M: AsReg>(mut self, amode: &Amode<M>) -> (NumberedPlace, u8)
        requires { self ≡ no_place }
        ensures place { result.0 ≡ marked_amode (numbering M.settled M.enc) amode.now }
        ensures mark { result.1 ≡ amode_mark (numbering M.settled M.enc) amode.now }
    {
        self.stands = true;
        let mut mark = 0;
        match amode {
            Amode::ImmReg { base, simm32, trap } => {
                self.base = Number::marked_value_of(*base);
                self.index = gpr::enc::RSP;
                self.displacement = *simm32;
                mark = 16 * u8::from(simm32.offset.is_some());
                self.trap = *trap;
            }
            Amode::ImmRegRegShift {
                base,
                index,
                scale,
                simm32,
                trap,
            } => {
                self.has_index = true;
                self.base = Number::marked_value_of(*base);
                self.index = Number::marked_value_of(*index.as_ref());
                mark = 16 * u8::from(self.index == gpr::enc::RSP);
                self.scale = *scale;
                self.displacement.simm32 = *simm32;
                self.trap = *trap;
            }
            Amode::RipRelative { target } => self.relative = Some(*target),
        }
        (self, mark)
    }

    /// How many notices an instruction with this place has: of a trap, or of a target.
    #[inline(always)]
    pub fn notice_count(&self) -> u8
        ensures { result ≡ notice_count self.now }
    {
        match self.relative {
            Some(_) => 1,
            None => u8::from(self.trap.is_some()),
        }
    }
}

impl NumberedForm {
    #[inline(always)]
    pub(crate) fn none() -> NumberedForm
        ensures { result ≡ no_form }
    {
        NumberedForm {
            reg: None,
            vvvv: None,
            place: NumberedPlace::none(),
            imm: 0,
        }
    }

    /// Puts a register before the others: the first stands in reg, the second in vvvv.
    #[inline(always)]
    pub(crate) fn add_register(&mut self, number: u8)
        ensures { self.new ≡ with_register number self.old }
    {
        self.vvvv = self.reg;
        self.reg = Some(number);
    }

    /// Puts one more operand before the others.
    #[inline(always)]
    pub(crate) fn add<R: Registers>(&mut self, operand: &Operand<R>)
        ensures { self.new ≡ with_role ⟦<R as RegisterFamily>⟧.family.read_gpr (role_of ⟦<R as RegisterFamily>⟧.family operand.now) self.old }
    {
        // Made once, since a function that grows too large isn't inlined.
        let nothing = NumberedPlace::none();
        match operand {
            Operand::ReadGpr(reg, _) => self.add_register(Number::value_of(*reg)),
            Operand::ReadWriteGpr(reg, _) => self.add_register(Number::value_of(*reg)),
            Operand::WriteGpr(reg, _) => self.add_register(Number::value_of(*reg)),
            Operand::WriteTwoGprs(first, second, _) => {
                self.reg = Some(Number::value_of(*first));
                self.vvvv = Some(Number::value_of(*second));
            }
            Operand::FixedReadGpr(_, _, _) | Operand::FixedReadWriteGpr(_, _, _) => {}
            Operand::ReadXmm(reg) => self.add_register(Number::value_of(*reg)),
            Operand::ReadWriteXmm(reg) => self.add_register(Number::value_of(*reg)),
            Operand::WriteXmm(reg) => self.add_register(Number::value_of(*reg)),
            Operand::ReadGprMem(GprMem::Gpr(reg), _) => {
                self.place = nothing.with_number(Number::value_of(*reg));
            }
            Operand::ReadWriteGprMem(GprMem::Gpr(reg), _) => {
                self.place = nothing.with_number(Number::value_of(*reg));
            }
            Operand::ReadXmmMem(XmmMem::Xmm(reg)) => {
                self.place = nothing.with_number(Number::value_of(*reg));
            }
            Operand::ReadAmode(amode)
            | Operand::ReadGprMem(GprMem::Mem(amode), _)
            | Operand::ReadWriteGprMem(GprMem::Mem(amode), _)
            | Operand::ReadXmmMem(XmmMem::Mem(amode)) => {
                self.place = nothing.with_amode(amode);
            }
            Operand::Imm(imm) => self.imm = word_of(imm.bytes()),
        }
    }
}
