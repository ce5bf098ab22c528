//! Jumps and calls by a distance from their end, as code.

ghost use Rattle.std.specs.Prelude.{◌≡◌, ◌<◌, ◌+◌, ◌↔◌, IfSome, IsSome, IsTrue, None};
ghost use Rattle.cax64_machine_code.specs.Line.{opcode_bytes};
ghost use Rattle.cax64_machine_code.specs.Rows.{byte, escaped, line_of};
ghost use Rattle.x64_code_buffer.specs.Jump.{WritesJump, long_row, near_distance, short_row};
ghost use Rattle.x64_code_buffer.specs.declared.jump.Jump.{Jump};

use cax64_encoder::code::Code;
use cax64_encoder::short::Short;
use cax64_sink::DeferredTarget;

/// Why a jump is taken, in the order of the last four bits of its opcode. (Intel SDM, volume 2, `Jcc`.)
#[derive(Clone, Copy, Debug, PartialEq)]
pub enum Condition {
    /// Overflow.
    O,
    /// No overflow.
    No,
    /// Below, of unsigned numbers.
    B,
    /// Above or equal, of unsigned numbers.
    Ae,
    /// Equal.
    E,
    /// Not equal.
    Ne,
    /// Below or equal, of unsigned numbers.
    Be,
    /// Above, of unsigned numbers.
    A,
    /// Sign.
    S,
    /// No sign.
    Ns,
    /// Parity even.
    P,
    /// Parity odd.
    Np,
    /// Less, of signed numbers.
    L,
    /// Greater or equal, of signed numbers.
    Ge,
    /// Less or equal, of signed numbers.
    Le,
    /// Greater, of signed numbers.
    G,
}

/// A jump or a call by a distance, which counts from its end. (Intel SDM, volume 2, `CALL`, `JMP` and `Jcc`.)
#[derive(Clone, Copy, Debug, PartialEq)]
pub enum Jump {
    Call,
    /// A jump that is always taken.
    Always,
    If(Condition),
}

impl Condition {
    /// The last four bits of its opcodes.
    #[tactic(auto, unfolding(cax64_machine_code::specs::Rows::line_of))]
    #[inline(always)]
    fn number(self) -> u8
        ensures long { (line_of (long_row (Jump.If self))).opcode ≡ escaped (0x80 + result) }
        ensures short { IfSome (short_row (Jump.If self)) (λ row. (line_of row).opcode ≡ byte (0x70 + result)) }
        ensures below { result < 16 }
    {
        match self {
            Condition::O => 0,
            Condition::No => 1,
            Condition::B => 2,
            Condition::Ae => 3,
            Condition::E => 4,
            Condition::Ne => 5,
            Condition::Be => 6,
            Condition::A => 7,
            Condition::S => 8,
            Condition::Ns => 9,
            Condition::P => 10,
            Condition::Np => 11,
            Condition::L => 12,
            Condition::Ge => 13,
            Condition::Le => 14,
            Condition::G => 15,
        }
    }
}

impl Jump {
    /// Whether it has a form with one byte of distance. A call has none.
    #[inline(always)]
    pub fn has_short(self) -> bool
        ensures { IsTrue result ↔ IsSome (short_row self) }
    {
        match self {
            Jump::Call => false,
            Jump::Always => true,
            Jump::If(_) => true,
        }
    }

    /// The opcode of the form with four bytes of distance.
    #[tactic(auto, unfolding(cax64_machine_code::specs::Rows::line_of))]
    #[inline(always)]
    fn long_opcode(self) -> Short
        ensures { result ≡ opcode_bytes (line_of (long_row self)).opcode }
    {
        match self {
            Jump::Call => Short::one(0xE8),
            Jump::Always => Short::one(0xE9),
            Jump::If(condition) => {
                Short::one(0x0F).append(Short::one(0x80 + condition.number()))
            }
        }
    }

    /// The opcode of the form with one byte of distance.
    #[tactic(auto, unfolding(cax64_machine_code::specs::Rows::line_of))]
    #[inline(always)]
    fn short_opcode(self) -> u8
        requires { IsSome (short_row self) }
        ensures { IfSome (short_row self) (λ row. (line_of row).opcode ≡ byte result) }
    {
        match self {
            Jump::Always => 0xEB,
            Jump::If(condition) => 0x70 + condition.number(),
            Jump::Call => 0,
        }
    }

    /// The code of the form with four bytes of distance, of which a target is told where they begin, if there is one.
    #[inline(always)]
    pub(crate) fn long_code(self, target: Option<DeferredTarget>, distance: i32) -> Code
        ensures { WritesJump (line_of (long_row self)) distance target result }
    {
        Code {
            trap: None,
            front: self.long_opcode(),
            target,
            long: Some(distance.cast_unsigned()),
            imm: 0,
            imm_len: 0,
        }
    }

    /// The code of the form with one byte of distance.
    #[inline(always)]
    pub(crate) fn short_code(self, distance: i8) -> Code
        requires { IsSome (short_row self) }
        ensures { IfSome (short_row self) (λ row. WritesJump (line_of row) distance None result) }
    {
        let opcode = Short::one(self.short_opcode());
        Code {
            trap: None,
            front: opcode.append(Short::one(distance.cast_unsigned())),
            target: None,
            long: None,
            imm: 0,
            imm_len: 0,
        }
    }

    /// The distance of the form with one byte, put behind so many bytes, to a position, if there is that form and it reaches.
    #[inline(always)]
    pub(crate) fn near_distance(self, place: Option<usize>, here: usize) -> Option<i8>
        ensures { result ≡ near_distance self place here }
    {
        if !self.has_short() {
            return None;
        }
        let place = i128::from(place? as u64);
        i8::try_from(place - (i128::from(here as u64) + 2)).ok()
    }
}
