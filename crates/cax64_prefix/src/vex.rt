//! VEX prefixes. (Intel SDM, volume 2, 2.3.5.)

ghost use Rattle.std.specs.Prelude.{◌≡◌, ◌<◌, ◌≤◌, ◌/◌, ◌==◌, ◌&&◌, ◌++◌, ◌↔◌, IsTrue, IfOk, IfSome, length};
ghost use Rattle.std.specs.Int.{from_bool};
ghost use Rattle.cax64_sink.specs.Run.{Ran};
ghost use Rattle.cax64_sink.specs.Puts.{puts};
ghost use Rattle.cax64_machine_code.specs.Fields.{IsBytes};
ghost use Rattle.cax64_prefix.specs.Vex.{vex_bytes, vex_fields, VexReadsAs, IsShortestVex, fits_two_bytes};

use crate::fields::{invert_top_bit, operation_byte, register_byte};
use cax64_sink::puts::put_each;
use cax64_sink::{CodeSink, SinkError};

/// A VEX prefix: the bytes after C5, or those after C4.
#[derive(Drop)]
pub enum VexPrefix {
    TwoByte(u8),
    ThreeByte(u8, u8),
}

/// Whether two bytes hold everything that is to be held.
fn use_2byte_prefix(index: u8, base: u8, w: bool, mmmmm: u8) -> bool
    ensures { result ≡ ((index / 8 == 0) && ((base / 8 == 0) && ((from_bool w == 0) && (mmmmm == 1)))) }
{
    index < 8 && base < 8 && !w && mmmmm == 1
}

impl VexPrefix {
    /// The prefix of an operation on a register in reg, one in vvvv, and an operand: its register or base, and its
    /// index.
    ///
    /// Registers have to be below 16, `l` 0 or 1, `pp` 0 to 3 for none, 66, F3 and F2, and `mmmmm` 1 to 3 for the opcode
    /// maps 0F, 0F38 and 0F3A. Where a number isn't, a build that wasn't proved may make another prefix, or abort.
    pub fn three_op(
        reg: u8,
        vvvv: u8,
        operand: (Option<u8>, Option<u8>),
        l: u8,
        pp: u8,
        mmmmm: u8,
        w: bool,
    ) -> Self
        requires reg { reg < 16 }
        requires vvvv { vvvv < 16 }
        requires base { IfSome operand.0 (λ b. b < 16) }
        requires index { IfSome operand.1 (λ x. x < 16) }
        requires l { l < 2 }
        requires pp { pp < 4 }
        requires map_low { 1 ≤ mmmmm }
        requires map_high { mmmmm ≤ 3 }
        ensures reads { VexReadsAs (vex_fields reg vvvv operand l pp mmmmm w) (vex_bytes result) }
        ensures two_bytes { (length (vex_bytes result) ≡ 2) ↔
            IsTrue (fits_two_bytes (vex_fields reg vvvv operand l pp mmmmm w)) }
        ensures shortest { IsShortestVex (vex_fields reg vvvv operand l pp mmmmm w) (vex_bytes result) }
        ensures bytes { IsBytes (vex_bytes result) }
    {
        let base = operand.0.unwrap_or(0);
        let index = operand.1.unwrap_or(0);
        if use_2byte_prefix(index, base, w, mmmmm) {
            VexPrefix::TwoByte(operation_byte(invert_top_bit(reg), vvvv, l, pp))
        } else {
            VexPrefix::ThreeByte(
                register_byte(reg, index, base, mmmmm),
                operation_byte(u8::from(w), vvvv, l, pp),
            )
        }
    }

    /// The prefix of an operation without a register in vvvv, which then reads as 0.
    ///
    /// Numbers have to be as in [`three_op`](Self::three_op). Where one isn't, a build that wasn't proved may make another
    /// prefix, or abort.
    pub fn two_op(
        reg: u8,
        operand: (Option<u8>, Option<u8>),
        l: u8,
        pp: u8,
        mmmmm: u8,
        w: bool,
    ) -> Self
        requires reg { reg < 16 }
        requires base { IfSome operand.0 (λ b. b < 16) }
        requires index { IfSome operand.1 (λ x. x < 16) }
        requires l { l < 2 }
        requires pp { pp < 4 }
        requires map_low { 1 ≤ mmmmm }
        requires map_high { mmmmm ≤ 3 }
        ensures reads { VexReadsAs (vex_fields reg 0 operand l pp mmmmm w) (vex_bytes result) }
        ensures two_bytes { (length (vex_bytes result) ≡ 2) ↔
            IsTrue (fits_two_bytes (vex_fields reg 0 operand l pp mmmmm w)) }
        ensures shortest { IsShortestVex (vex_fields reg 0 operand l pp mmmmm w) (vex_bytes result) }
    {
        VexPrefix::three_op(reg, 0, operand, l, pp, mmmmm, w)
    }

    /// Puts C5 or C4, and the held bytes.
    pub fn encode<S: CodeSink>(&self, sink: &mut S) -> Result<(), SinkError>
        ensures puts { Ran (puts (vex_bytes self.now)) (S.state sink.old) (S.state sink.new) result }
        ensures beside { S.may_become sink.old sink.new }
        ensures adds { IfOk result (λ _. (S.state sink.new).bytes ≡ (S.state sink.old).bytes ++ vex_bytes self.now) }
    {
        match *self {
            VexPrefix::TwoByte(last) => put_each(sink, &[0xC5, last]),
            VexPrefix::ThreeByte(second, last) => put_each(sink, &[0xC4, second, last]),
        }
    }
}
