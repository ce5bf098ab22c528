//! The displacement bytes behind ModR/M and SIB.

ghost use Rattle.std.specs.Prelude.{◌≡◌, ◌≤ℤ◌, ◌<◌, ◌*◌, ◌+◌, IfSome, IsOk, pos};
ghost use Rattle.cax64_address.specs.Displacement.{mode_of, disp_actions, disp_byte, disp_long, class_length, factor_of, GivesBack, IsClassOf, forced};
ghost use Rattle.cax64_sink.specs.Room.{HasRoom, FallsBy};
ghost use Rattle.cax64_sink.specs.Run.{Ran};

use cax64_sink::{CodeSink, SinkError};

/// How a displacement is written: not at all, as one signed byte, or as four.
#[derive(Clone, Copy)]
pub enum Disp {
    None,
    Imm8(i8),
    Imm32(i32),
}

/// A ModR/M byte of its fields; a SIB byte has its fields in the same places. (Intel SDM, volume 2, 2.1.3.)
#[inline(always)]
pub fn encode_modrm(m0d: u8, enc_reg_g: u8, rm_e: u8) -> u8
    requires m0d { m0d < 4 }
    requires reg { enc_reg_g < 8 }
    requires rm { rm_e < 8 }
    ensures { result ≡ m0d * 64 + enc_reg_g * 8 + rm_e }
{
    (m0d << 6) | (enc_reg_g << 3) | rm_e
}

impl Disp {
    /// The class of a displacement of `val` bytes under a factor, which is 1 where it is absent.
    ///
    /// A byte holds the quotient by the factor. (Intel SDM, volume 2, 2.7.5.)
    #[inline(always)]
    pub fn new(val: i32, evex_scaling: Option<i8>) -> Disp
        requires { IfSome evex_scaling (λ n. pos 1 ≤ℤ n) }
        ensures class { IsClassOf (factor_of evex_scaling) val result }
        ensures gives_back { GivesBack (factor_of evex_scaling) val result }
    {
        if val == 0 {
            return Disp::None;
        }
        match evex_scaling {
            Some(scaling) => {
                let scaling = i32::from(scaling);
                if val % scaling == 0 {
                    if let Ok(scaled) = i8::try_from(val / scaling) {
                        return Disp::Imm8(scaled);
                    }
                }
                Disp::Imm32(val)
            }
            None => match i8::try_from(val) {
                Ok(val) => Disp::Imm8(val),
                Err(_) => Disp::Imm32(val),
            },
        }
    }

    /// The mod field of ModR/M that goes with the class, 0 to 2.
    #[inline(always)]
    pub fn m0d(self) -> u8
        ensures value { result ≡ mode_of self }
        ensures below { result < 3 }
    {
        match self {
            Disp::None => 0,
            Disp::Imm8(_) => 1,
            Disp::Imm32(_) => 2,
        }
    }

    /// The byte, if the class has one byte.
    #[inline(always)]
    pub fn byte(self) -> Option<u8>
        ensures { result ≡ disp_byte self }
    {
        match self {
            Disp::Imm8(value) => Some(value.cast_unsigned()),
            Disp::None | Disp::Imm32(_) => None,
        }
    }

    /// The four bytes as a number, if the class has four.
    #[inline(always)]
    pub fn long(self) -> Option<u32>
        ensures { result ≡ disp_long self }
    {
        match self {
            Disp::Imm32(value) => Some(value.cast_unsigned()),
            Disp::None | Disp::Imm8(_) => None,
        }
    }

    /// Makes a byte of 0 of no displacement, for a base whose low three bits are 5.
    #[inline(always)]
    pub fn force_immediate(&mut self)
        ensures { self.new ≡ forced self.old }
    {
        if let Disp::None = *self {
            *self = Disp::Imm8(0);
        }
    }

    /// Puts nothing, one byte, or four with the lowest first.
    #[tactic(auto, using(cax64_sink::proofs::Runs::ran_none, cax64_sink::proofs::Runs::ran_one))]
    pub fn emit<S: CodeSink>(self, sink: &mut S) -> Result<(), SinkError>
        ensures runs { Ran (disp_actions self) (S.state sink.old) (S.state sink.new) result }
        ensures beside { S.may_become sink.old sink.new }
        ensures room { HasRoom (S.state sink.old).byte_room (class_length self) → IsOk result }
        ensures byte_room { FallsBy (S.state sink.old).byte_room (S.state sink.new).byte_room (class_length self) }
        ensures notice_room { FallsBy (S.state sink.old).notice_room (S.state sink.new).notice_room 0 }
    {
        match self {
            Disp::None => Ok(()),
            Disp::Imm8(n) => sink.put1(n.cast_unsigned()),
            Disp::Imm32(n) => sink.put4(n.cast_unsigned()),
        }
    }
}
