//! REX prefixes. (Intel SDM, volume 2, 2.2.1.)

ghost use Rattle.std.specs.Prelude.{◌≡◌, ◌<◌, ◌/◌, ◌++◌, ◌&&◌, ◌||◌, ◌↔◌, nat_le, Bool, IsTrue, IsSome, IfOk, option_map};
ghost use Rattle.std.specs.Int.{from_bool};
ghost use Rattle.cax64_machine_code.specs.Prefix.{rex_bits};
ghost use Rattle.cax64_sink.specs.Run.{Ran};
ghost use Rattle.cax64_sink.specs.Puts.{puts};
ghost use Rattle.cax64_prefix.specs.Rex.{rex_byte, rex_bytes, is_special_if_8bit, RexReadsBack};

use cax64_sink::{CodeSink, SinkError};
use std::marker::Model;

/// A REX prefix: the bits W, R, X and B, and whether a byte stands for them. A byte stands where a bit is set, and
/// where an 8-bit register can't be named without one.
#[derive(Clone, Copy)]
pub struct RexPrefix {
    byte: Option<u8>,
}

impl Model for RexPrefix {
    ghost use Rattle.std.specs.Prelude.{Option, option_map};
    ghost use Rattle.cax64_machine_code.specs.Prefix.{Rex, rex_of};

    ghost Value = { Option Rex };

    ghost use Rattle.std.proofs.Common.{ap};
    ghost use Rattle.cax64_prefix.specs.Rex.{rex_byte};
    ghost use Rattle.cax64_prefix.specs.HeldByte.{IsRexByte, rex_byte-rex_of};

    ghost view = { λ p. option_map rex_of p.byte };

    ghost invariant = { λ p. IsRexByte p.byte };

    ghost inverse = { λ rex. record { byte = option_map rex_byte rex } };

    ghost inverse_ok = { λ p h. ap (λ byte. record { byte = byte }) (rex_byte-rex_of p.byte h) };
}

/// Whether a code of an 8-bit register means another one without a REX byte.
pub fn is_special_if_8bit(enc: u8) -> bool
    ensures { result ≡ is_special_if_8bit enc }
{
    enc >= 4 && enc <= 7
}

/// The byte that holds W and bit 3 of three registers.
fn rex_byte(w_bit: bool, enc_reg: u8, enc_index: u8, enc_base: u8) -> u8
    requires reg { enc_reg < 16 }
    requires index { enc_index < 16 }
    requires base { enc_base < 16 }
    ensures { result ≡ rex_byte (record { w = from_bool w_bit; r = enc_reg / 8; x = enc_index / 8; b = enc_base / 8 }) }
{
    let w = u8::from(w_bit);
    let r = enc_reg >> 3;
    let x = enc_index >> 3;
    let b = enc_base >> 3;
    0x40 | w << 3 | r << 2 | x << 1 | b
}

impl RexPrefix {
    /// The prefix of a register in reg, an index, and a base or a register. Where no bit is set, a byte stands if
    /// `must_emit` holds.
    ///
    /// Each number has to be below 16. Where one isn't, a build that wasn't proved may make another prefix, or abort.
    pub fn of_registers(
        enc_reg: u8,
        enc_index: u8,
        enc_base: u8,
        w_bit: bool,
        must_emit: bool,
    ) -> Self
        requires reg { enc_reg < 16 }
        requires index { enc_index < 16 }
        requires base { enc_base < 16 }
        ensures bits { rex_bits result ≡ record { w = from_bool w_bit; r = enc_reg / 8; x = enc_index / 8; b = enc_base / 8 } }
        ensures stands { IsSome result ↔
            IsTrue (w_bit || nat_le 8 enc_reg || nat_le 8 enc_index || nat_le 8 enc_base || must_emit) }
    {
        let byte = rex_byte(w_bit, enc_reg, enc_index, enc_base);
        if must_emit | (byte != 0x40) {
            RexPrefix { byte: Some(byte) }
        } else {
            RexPrefix { byte: None }
        }
    }

    /// The prefix of one register operand, in rm or in the opcode.
    ///
    /// Its number has to be below 16. Where it isn't, a build that wasn't proved may make another prefix, or abort.
    pub fn one_op(enc: u8, w_bit: bool, uses_8bit: bool) -> Self
        requires { enc < 16 }
        ensures bits { rex_bits result ≡ record { w = from_bool w_bit; r = 0; x = 0; b = enc / 8 } }
        ensures stands { IsSome result ↔ IsTrue (w_bit || nat_le 8 enc || (uses_8bit && is_special_if_8bit enc)) }
    {
        RexPrefix::of_registers(0, 0, enc, w_bit, uses_8bit && is_special_if_8bit(enc))
    }

    /// The prefix of two registers: one in reg and one in rm.
    ///
    /// Each number has to be below 16. Where one isn't, a build that wasn't proved may make another prefix, or abort.
    pub fn two_op(enc_reg: u8, enc_rm: u8, w_bit: bool, uses_8bit: bool) -> Self
        requires reg { enc_reg < 16 }
        requires rm { enc_rm < 16 }
        ensures bits { rex_bits result ≡ record { w = from_bool w_bit; r = enc_reg / 8; x = 0; b = enc_rm / 8 } }
        ensures stands { IsSome result ↔
            IsTrue (w_bit || nat_le 8 enc_reg || nat_le 8 enc_rm ||
            (uses_8bit && (is_special_if_8bit enc_reg || is_special_if_8bit enc_rm))) }
    {
        let special = is_special_if_8bit(enc_reg) || is_special_if_8bit(enc_rm);
        RexPrefix::of_registers(enc_reg, 0, enc_rm, w_bit, uses_8bit && special)
    }

    /// The prefix of a register and the base of an address. A base is a 64-bit register, so it asks for no byte by itself.
    ///
    /// Each number has to be below 16. Where one isn't, a build that wasn't proved may make another prefix, or abort.
    pub fn mem_op(enc_reg: u8, enc_rm: u8, w_bit: bool, uses_8bit: bool) -> Self
        requires reg { enc_reg < 16 }
        requires rm { enc_rm < 16 }
        ensures bits { rex_bits result ≡ record { w = from_bool w_bit; r = enc_reg / 8; x = 0; b = enc_rm / 8 } }
        ensures stands { IsSome result ↔
            IsTrue (w_bit || nat_le 8 enc_reg || nat_le 8 enc_rm ||
            (uses_8bit && is_special_if_8bit enc_reg)) }
    {
        let must_emit = uses_8bit && is_special_if_8bit(enc_reg);
        RexPrefix::of_registers(enc_reg, 0, enc_rm, w_bit, must_emit)
    }

    /// The prefix of an opcode digit and a register. A digit of 4 to 7 counts as a register's code.
    ///
    /// The digit has to be below 8, and the register's number below 16. Where one isn't, a build that wasn't proved may make
    /// another prefix, or abort.
    pub fn with_digit(digit: u8, enc_reg: u8, w_bit: bool, uses_8bit: bool) -> Self
        requires digit { digit < 8 }
        requires reg { enc_reg < 16 }
        ensures bits { rex_bits result ≡ record { w = from_bool w_bit; r = 0; x = 0; b = enc_reg / 8 } }
        ensures stands { IsSome result ↔
            IsTrue (w_bit || nat_le 8 enc_reg ||
            (uses_8bit && (is_special_if_8bit digit || is_special_if_8bit enc_reg))) }
    {
        RexPrefix::two_op(digit, enc_reg, w_bit, uses_8bit)
    }

    /// The prefix of a register and an address with an index.
    ///
    /// Each number has to be below 16. Where one isn't, a build that wasn't proved may make another prefix, or abort.
    pub fn three_op(enc_reg: u8, enc_index: u8, enc_base: u8, w_bit: bool, uses_8bit: bool) -> Self
        requires reg { enc_reg < 16 }
        requires index { enc_index < 16 }
        requires base { enc_base < 16 }
        ensures bits { rex_bits result ≡ record { w = from_bool w_bit; r = enc_reg / 8; x = enc_index / 8; b = enc_base / 8 } }
        ensures stands { IsSome result ↔
            IsTrue (w_bit || nat_le 8 enc_reg || nat_le 8 enc_index || nat_le 8 enc_base ||
            (uses_8bit && is_special_if_8bit enc_reg)) }
    {
        let must_emit = uses_8bit && is_special_if_8bit(enc_reg);
        RexPrefix::of_registers(enc_reg, enc_index, enc_base, w_bit, must_emit)
    }

    /// The byte, if there is one.
    #[inline(always)]
    pub fn byte(&self) -> Option<u8>
        ensures { result ≡ option_map rex_byte self.now }
    {
        self.byte
    }

    /// Puts the byte, if there is one.
    #[tactic(auto, using(cax64_sink::proofs::Runs::ran_none, cax64_sink::proofs::Runs::ran_one))]
    pub fn encode<S: CodeSink>(&self, sink: &mut S) -> Result<(), SinkError>
        ensures puts { Ran (puts (rex_bytes self.now)) (S.state sink.old) (S.state sink.new) result }
        ensures beside { S.may_become sink.old sink.new }
        ensures adds { IfOk result (λ _. (S.state sink.new).bytes ≡ (S.state sink.old).bytes ++ rex_bytes self.now) }
        ensures reads { RexReadsBack self.now }
    {
        match self.byte {
            Some(byte) => sink.put1(byte),
            None => Ok(()),
        }
    }
}
