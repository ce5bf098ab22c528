//! EVEX prefixes, and their form for general registers. (Intel SDM, volume 2, 2.7.1; Intel APX specification, 3.1.2.3.1.)

ghost use Rattle.std.specs.Prelude.{◌≡◌, ◌+◌, ◌-◌, ◌*◌, ◌/◌, ◌%◌, ◌<◌, ◌++◌, IfOk, IfSome, length};
ghost use Rattle.std.specs.Int.{from_bool};
ghost use Rattle.cax64_sink.specs.Run.{Ran};
ghost use Rattle.cax64_sink.specs.Puts.{puts};
ghost use Rattle.cax64_prefix.specs.Evex.{evex_fields, EvexReadsAs};
ghost use Rattle.cax64_prefix.specs.Apx.{apx_fields, ApxReadsAs};

use crate::fields::{invert_top_bit, operation_byte, register_byte};
use cax64_sink::puts::put_each;
use cax64_sink::{CodeSink, SinkError};
use std::marker::Model;

/// An EVEX prefix: the bytes after 62. A contract sees it as its four bytes.
#[derive(Drop)]
pub struct EvexPrefix {
    byte1: u8,
    byte2: u8,
    byte3: u8,
}

impl Model for EvexPrefix {
    ghost use Rattle.std.specs.Prelude.{ℕ, List, [], ◌∷◌};

    ghost Value = { List ℕ };

    ghost view = { λ p. 0x62 ∷ p.byte1 ∷ p.byte2 ∷ p.byte3 ∷ [] };
}

/// R3', X3', B3' and R4', B4 or 0, and the opcode map.
fn byte1(reg: u8, index: u8, base: u8, b4: u8, mmm: u8) -> u8
    requires b4 { b4 < 2 }
    requires mmm { mmm < 8 }
    ensures { result ≡ (1 - reg / 8 % 2) * 128 + (1 - index / 8 % 2) * 64 + (1 - base / 8 % 2) * 32 +
        (1 - reg / 16 % 2) * 16 + b4 * 8 + mmm }
{
    let r4 = invert_top_bit(reg >> 1);
    register_byte(reg, index, base, r4 << 4 | b4 << 3 | mmm)
}

/// LL or 0, broadcast or ND, V4', and what a form keeps in the three bits below them.
fn byte3(ll: u8, flag: bool, vvvv: u8, low: u8) -> u8
    requires ll { ll < 4 }
    requires low { low < 8 }
    ensures { result ≡ ll * 32 + from_bool flag * 16 + (1 - vvvv / 16 % 2) * 8 + low }
{
    let v4 = invert_top_bit(vvvv >> 1);
    ll << 5 | u8::from(flag) << 4 | v4 << 3 | low
}

impl EvexPrefix {
    /// The prefix of an operation on registers in reg and vvvv, and an operand: its register or base, and its index.
    ///
    /// Registers in reg and vvvv have to be below 32, those of the operand below 16, `ll` 0 to 2 for 128, 256 and 512 bits,
    /// `pp` 0 to 3 for none, 66, F3 and F2, and `mmm`, the opcode map, below 8. Where a number isn't, a build that wasn't
    /// proved may make another prefix, or abort. Nothing is masked.
    pub fn new(
        reg: u8,
        vvvv: u8,
        operand: (Option<u8>, Option<u8>),
        ll: u8,
        pp: u8,
        mmm: u8,
        w: bool,
        broadcast: bool,
    ) -> Self
        requires reg { reg < 32 }
        requires vvvv { vvvv < 32 }
        requires base { IfSome operand.0 (λ b. b < 16) }
        requires index { IfSome operand.1 (λ x. x < 16) }
        requires ll { ll < 3 }
        requires pp { pp < 4 }
        requires mmm { mmm < 8 }
        ensures { EvexReadsAs (evex_fields reg vvvv operand ll pp mmm w broadcast) result }
    {
        let base = operand.0.unwrap_or(0);
        let index = operand.1.unwrap_or(0);
        EvexPrefix {
            byte1: byte1(reg, index, base, 0, mmm),
            byte2: operation_byte(u8::from(w), vvvv, 1, pp),
            byte3: byte3(ll, broadcast, vvvv, 0),
        }
    }

    /// The prefix of an operation without a register in vvvv, which then reads as 0.
    ///
    /// Numbers have to be as in [`new`](Self::new). Where one isn't, a build that wasn't proved may make another prefix, or
    /// abort.
    pub fn two_op(
        reg: u8,
        operand: (Option<u8>, Option<u8>),
        ll: u8,
        pp: u8,
        mmm: u8,
        w: bool,
        broadcast: bool,
    ) -> Self
        requires reg { reg < 32 }
        requires base { IfSome operand.0 (λ b. b < 16) }
        requires index { IfSome operand.1 (λ x. x < 16) }
        requires ll { ll < 3 }
        requires pp { pp < 4 }
        requires mmm { mmm < 8 }
        ensures { EvexReadsAs (evex_fields reg 0 operand ll pp mmm w broadcast) result }
    {
        EvexPrefix::new(reg, 0, operand, ll, pp, mmm, w, broadcast)
    }

    /// [`new`](Self::new), by the name of the operation's kind.
    ///
    /// Numbers have to be as there. Where one isn't, a build that wasn't proved may make another prefix, or abort.
    pub fn three_op(
        reg: u8,
        vvvv: u8,
        operand: (Option<u8>, Option<u8>),
        ll: u8,
        pp: u8,
        mmm: u8,
        w: bool,
        broadcast: bool,
    ) -> Self
        requires reg { reg < 32 }
        requires vvvv { vvvv < 32 }
        requires base { IfSome operand.0 (λ b. b < 16) }
        requires index { IfSome operand.1 (λ x. x < 16) }
        requires ll { ll < 3 }
        requires pp { pp < 4 }
        requires mmm { mmm < 8 }
        ensures { EvexReadsAs (evex_fields reg vvvv operand ll pp mmm w broadcast) result }
    {
        EvexPrefix::new(reg, vvvv, operand, ll, pp, mmm, w, broadcast)
    }

    /// The prefix of an operation on general registers. `nd` asks for a destination of its own in vvvv, `nf` for no flags.
    ///
    /// Registers have to be below 32, `pp` 0 to 3 for none, 66, F3 and F2, and `mmm` below 8; it is 4 in use. Where a number
    /// isn't, a build that wasn't proved may make another prefix, or abort.
    pub fn legacy(
        reg: u8,
        vvvv: u8,
        operand: (Option<u8>, Option<u8>),
        pp: u8,
        mmm: u8,
        w: bool,
        nd: bool,
        nf: bool,
    ) -> Self
        requires reg { reg < 32 }
        requires vvvv { vvvv < 32 }
        requires base { IfSome operand.0 (λ b. b < 32) }
        requires index { IfSome operand.1 (λ x. x < 32) }
        requires pp { pp < 4 }
        requires mmm { mmm < 8 }
        ensures { ApxReadsAs (apx_fields reg vvvv operand pp mmm w nd nf) result }
    {
        let base = operand.0.unwrap_or(0);
        let index = operand.1.unwrap_or(0);
        let u = invert_top_bit(index >> 1);
        EvexPrefix {
            byte1: byte1(reg, index, base, base >> 4, mmm),
            byte2: operation_byte(u8::from(w), vvvv, u, pp),
            byte3: byte3(0, nd, vvvv, u8::from(nf) << 2),
        }
    }

    /// The prefix of an operation without a register in vvvv, which then reads as 0.
    ///
    /// Numbers have to be as in [`legacy`](Self::legacy). Where one isn't, a build that wasn't proved may make another prefix,
    /// or abort.
    pub fn legacy_two_op(
        reg: u8,
        operand: (Option<u8>, Option<u8>),
        pp: u8,
        mmm: u8,
        w: bool,
        nd: bool,
        nf: bool,
    ) -> Self
        requires reg { reg < 32 }
        requires base { IfSome operand.0 (λ b. b < 32) }
        requires index { IfSome operand.1 (λ x. x < 32) }
        requires pp { pp < 4 }
        requires mmm { mmm < 8 }
        ensures { ApxReadsAs (apx_fields reg 0 operand pp mmm w nd nf) result }
    {
        EvexPrefix::legacy(reg, 0, operand, pp, mmm, w, nd, nf)
    }

    /// [`legacy`](Self::legacy), by the name of the operation's kind.
    ///
    /// Numbers have to be as there. Where one isn't, a build that wasn't proved may make another prefix, or abort.
    pub fn legacy_three_op(
        reg: u8,
        vvvv: u8,
        operand: (Option<u8>, Option<u8>),
        pp: u8,
        mmm: u8,
        w: bool,
        nd: bool,
        nf: bool,
    ) -> Self
        requires reg { reg < 32 }
        requires vvvv { vvvv < 32 }
        requires base { IfSome operand.0 (λ b. b < 32) }
        requires index { IfSome operand.1 (λ x. x < 32) }
        requires pp { pp < 4 }
        requires mmm { mmm < 8 }
        ensures { ApxReadsAs (apx_fields reg vvvv operand pp mmm w nd nf) result }
    {
        EvexPrefix::legacy(reg, vvvv, operand, pp, mmm, w, nd, nf)
    }

    /// Puts the four bytes.
    pub fn encode<S: CodeSink>(&self, sink: &mut S) -> Result<(), SinkError>
        ensures puts { Ran (puts self.now) (S.state sink.old) (S.state sink.new) result }
        ensures beside { S.may_become sink.old sink.new }
        ensures adds { IfOk result (λ _. (S.state sink.new).bytes ≡ (S.state sink.old).bytes ++ self.now) }
        ensures size { length self.now ≡ 4 }
    {
        put_each(sink, &[0x62, self.byte1, self.byte2, self.byte3])
    }
}
