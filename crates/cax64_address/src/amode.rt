//! Address modes.

ghost use Rattle.std.specs.Prelude.{◌≡◌, ◌<◌, IsTrue, Option, Some, None};
ghost use Rattle.cax64_sink.specs.declared.TrapCode.{TrapCode};
ghost use Rattle.cax64_address.specs.Address.{scale_number, is_addressable, registers_are_real, displacement_of, trap_of};

use crate::offset::{AmodeOffset, AmodeOffsetPlusKnownOffset};
use cax64_register::{AsReg, NonRspGpr};
use cax64_sink::{CodeSink, DeferredTarget, TrapCode};

/// What the index register of an address is multiplied by.
#[derive(Clone, Copy, Debug, PartialEq)]
pub enum Scale {
    One,
    Two,
    Four,
    Eight,
}

impl Scale {
    /// The scale that the two bits of a SIB byte mean, 0 to 3.
    pub fn new(enc: u8) -> Self
        requires { enc < 4 }
        ensures { scale_number result ≡ enc }
    {
        match enc {
            0 => Scale::One,
            1 => Scale::Two,
            2 => Scale::Four,
            _ => Scale::Eight,
        }
    }

    /// The two bits of a SIB byte, 0 to 3.
    #[inline(always)]
    pub fn enc(&self) -> u8
        ensures number { result ≡ scale_number self.now }
        ensures below { result < 4 }
    {
        match self {
            Scale::One => 0,
            Scale::Two => 1,
            Scale::Four => 2,
            Scale::Eight => 3,
        }
    }
}

/// A memory operand. (Intel SDM, volume 1, 3.7.5.)
#[derive(Clone, Copy, Debug, PartialEq)]
pub enum Amode<R: AsReg> {
    /// A base register and a displacement.
    ImmReg {
        base: R,
        simm32: AmodeOffsetPlusKnownOffset,
        trap: Option<TrapCode>,
    },
    /// A base register, an index register times a scale, and a displacement.
    ImmRegRegShift {
        base: R,
        index: NonRspGpr<R>,
        scale: Scale,
        simm32: AmodeOffset,
        trap: Option<TrapCode>,
    },
    /// A place that is settled later, relative to the end of the instruction.
    RipRelative {
        target: DeferredTarget,
    },
}

impl<R: AsReg> Amode<R> {
    /// The code of the trap that the access may raise; none for `RipRelative`.
    #[inline(always)]
    pub fn trap_code(&self) -> Option<TrapCode>
        ensures { result ≡ trap_of self.now }
    {
        match *self {
            Amode::ImmReg { trap, .. } => trap,
            Amode::ImmRegRegShift { trap, .. } => trap,
            Amode::RipRelative { .. } => None,
        }
    }

    /// Whether base and index are real, the index isn't the stack pointer, and the displacement with its late offset is
    /// known and an `i32`: the condition of `emit_modrm_sib_disp`.
    pub fn is_addressable<S: CodeSink>(&self, sink: &S) -> bool
        ensures { result ≡ is_addressable R.settled R.enc (S.state sink.now).offsets self.now }
    {
        match *self {
            Amode::ImmReg { base, simm32, .. } => base.is_real() && simm32.fits(sink),
            Amode::ImmRegRegShift { base, index, .. } => base.is_real() && index.is_real(),
            Amode::RipRelative { .. } => true,
        }
    }

    /// The displacement in bytes, with the late offset added; 0 for `RipRelative`.
    ///
    /// The operand has to be addressable, as [`is_addressable`](Self::is_addressable) tells. Where it isn't, a build
    /// that wasn't proved may answer any number, or abort.
    #[inline(always)]
    pub fn displacement<S: CodeSink>(&self, sink: &S) -> i32
        requires { IsTrue (is_addressable R.settled R.enc (S.state sink.now).offsets self.now) }
        ensures { result ≡ displacement_of (S.state sink.now).offsets self.now }
    {
        match *self {
            Amode::ImmReg { simm32, .. } => simm32.value(sink),
            Amode::ImmRegRegShift { simm32, .. } => simm32.value(),
            Amode::RipRelative { .. } => 0,
        }
    }
}
