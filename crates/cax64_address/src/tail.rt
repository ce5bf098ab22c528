//! ModR/M, SIB and displacement. (Intel SDM, volume 2, 2.1.3 and 2.1.5.)

ghost use Rattle.std.specs.Prelude.{◌≡◌, ◌≢◌, ◌+◌, ◌/◌, ◌%◌, ◌^◌, ◌<◌, ◌≤◌, ◌-ℤ◌, ◌∷◌, [], ℕ, List, Some, None, IsTrue, IfSome, IfErr, IsOk, OnOk, OnErr, pos, ◌≤ℤ◌, true, length};
ghost use Rattle.cax64_address.specs.Address.{is_addressable, registers_are_real, scale_number, displaced_place, target_count};
ghost use Rattle.cax64_address.specs.Displacement.{factor_of};
ghost use Rattle.cax64_address.specs.Effective.{effective_address};
ghost use Rattle.cax64_address.specs.Emitted.{TailOf, PutsTail, tail_actions, byte_actions, target_actions};
ghost use Rattle.cax64_address.specs.Length.{least_tail_under};
ghost use Rattle.cax64_address.specs.OperandTail.{displaced_tail, tail_meant, tail_length, IsTailMeant, AddsTail, LeavesTail, ReadsAddress};
ghost use Rattle.cax64_machine_code.specs.Fields.{IsBytes};
ghost use Rattle.cax64_machine_code.specs.Len.{least_tail};
ghost use Rattle.cax64_machine_code.specs.Shortest.{Shortest};
ghost use Rattle.cax64_sink.specs.Keeps.{Keeps};
ghost use Rattle.cax64_sink.specs.Rest.{long_actions};
ghost use Rattle.cax64_sink.specs.Room.{HasRoom, FallsBy};
ghost use Rattle.cax64_sink.specs.Run.{Ran, all_bytes, byte_total, notice_total};

use crate::amode::{Amode, Scale};
use crate::disp::{Disp, encode_modrm};
use cax64_machine_code::reading::Place;
use cax64_register::AsReg;
use cax64_sink::{CodeSink, DeferredTarget, Notice, SinkError};

/// A tail as it is put: computed whole before anything is put.
#[derive(Clone, Copy)]
pub struct TailCode {
    pub modrm: u8,
    pub sib: Option<u8>,
    /// A displacement of one byte.
    pub byte: Option<u8>,
    /// What a displacement of four bytes is told to the sink as a use of.
    pub target: Option<DeferredTarget>,
    /// A displacement of four bytes.
    pub long: Option<u32>,
}

#[tactic(auto, using(cax64_sink::proofs::Runs::ran_none, cax64_sink::proofs::Runs::ran_one))]
#[inline(always)]
fn put_optional<S: CodeSink>(sink: &mut S, byte: Option<u8>) -> Result<(), SinkError>
    ensures run { Ran (byte_actions byte) (S.state sink.old) (S.state sink.new) result }
    ensures beside { S.may_become sink.old sink.new }
{
    match byte {
        Some(byte) => sink.put1(byte),
        None => Ok(()),
    }
}

/// Tells the sink of a use of the target, if there is one.
#[tactic(auto, using(cax64_sink::proofs::Runs::ran_none, cax64_sink::proofs::Runs::ran_one))]
#[inline(always)]
pub fn use_optional<S: CodeSink>(
    sink: &mut S,
    target: Option<DeferredTarget>,
) -> Result<(), SinkError>
    ensures run { Ran (target_actions target) (S.state sink.old) (S.state sink.new) result }
    ensures beside { S.may_become sink.old sink.new }
{
    match target {
        Some(target) => sink.use_target(target),
        None => Ok(()),
    }
}

/// Puts four bytes of displacement, if there are any.
#[tactic(auto, using(cax64_sink::proofs::Runs::ran_none, cax64_sink::proofs::Runs::ran_one))]
#[inline(always)]
pub fn put_long<S: CodeSink>(sink: &mut S, long: Option<u32>) -> Result<(), SinkError>
    ensures run { Ran (long_actions long) (S.state sink.old) (S.state sink.new) result }
    ensures beside { S.may_become sink.old sink.new }
{
    match long {
        Some(word) => sink.put4(word),
        None => Ok(()),
    }
}

impl TailCode {
    /// Puts each byte by itself, and four bytes of displacement at once.
    pub fn put<S: CodeSink>(self, sink: &mut S) -> Result<(), SinkError>
        ensures run { Ran (tail_actions self) (S.state sink.old) (S.state sink.new) result }
        ensures beside { S.may_become sink.old sink.new }
    {
        sink.put1(self.modrm)?;
        put_optional(sink, self.sib)?;
        put_optional(sink, self.byte)?;
        use_optional(sink, self.target)?;
        put_long(sink, self.long)
    }
}

/// The tail of a base and a displacement. Base 4 and 12 stand in a SIB byte, since their low bits in ModR/M mean one;
/// base 5 and 13 have a displacement, since their low bits mean none.
#[inline(always)]
pub fn base_tail(reg: u8, base: u8, displacement: i32, evex_scaling: Option<i8>) -> TailCode
    requires reg { reg < 8 }
    requires base { base < 16 }
    requires factor { IfSome evex_scaling (λ n. pos 1 ≤ℤ n) }
    ensures tail { TailOf 0 (base / 8) (factor_of evex_scaling) reg (Place.Mem (Some base) None displacement) (λ at. []) (tail_actions result) }
    ensures bytes { IsBytes (all_bytes (tail_actions result)) }
    ensures length { length (all_bytes (tail_actions result)) ≡ least_tail_under (factor_of evex_scaling) (Place.Mem (Some base) None displacement) }
{
    let low = base & 7;
    let mut disp = Disp::new(displacement, evex_scaling);
    if low == 4 {
        return TailCode {
            modrm: encode_modrm(disp.m0d(), reg, 4),
            sib: Some(0x24),
            byte: disp.byte(),
            target: None,
            long: disp.long(),
        };
    }
    if low == 5 {
        disp.force_immediate();
    }
    TailCode {
        modrm: encode_modrm(disp.m0d(), reg, low),
        sib: None,
        byte: disp.byte(),
        target: None,
        long: disp.long(),
    }
}

/// The tail of a base, an index and a displacement.
#[inline(always)]
pub fn index_tail(
    reg: u8,
    base: u8,
    index: u8,
    scale: Scale,
    displacement: i32,
    evex_scaling: Option<i8>,
) -> TailCode
    requires reg { reg < 8 }
    requires base { base < 16 }
    requires index { index < 16 }
    requires non_rsp { index ≢ 4 }
    requires factor { IfSome evex_scaling (λ n. pos 1 ≤ℤ n) }
    ensures shortest { Shortest (index / 8) (base / 8) (factor_of evex_scaling) reg (Place.Mem (Some base) (Some (index, 2 ^ scale_number scale)) displacement) (all_bytes (tail_actions result)) }
    ensures tail { TailOf (index / 8) (base / 8) (factor_of evex_scaling) reg (Place.Mem (Some base) (Some (index, 2 ^ scale_number scale)) displacement) (λ at. []) (tail_actions result) }
    ensures bytes { IsBytes (all_bytes (tail_actions result)) }
    ensures length { length (all_bytes (tail_actions result)) ≡ least_tail_under (factor_of evex_scaling) (Place.Mem (Some base) (Some (index, 2 ^ scale_number scale)) displacement) }
{
    let low_base = base & 7;
    let mut disp = Disp::new(displacement, evex_scaling);
    if low_base == 5 {
        disp.force_immediate();
    }
    TailCode {
        modrm: encode_modrm(disp.m0d(), reg, 4),
        sib: Some(encode_modrm(scale.enc(), index & 7, low_base)),
        byte: disp.byte(),
        target: None,
        long: disp.long(),
    }
}

/// The tail of a place relative to the end, before this many bytes of immediate.
#[inline(always)]
pub fn relative_tail(reg: u8, target: DeferredTarget, bytes_at_end: u8) -> TailCode
    requires { reg < 8 }
    ensures tail { (factor : ℕ) → TailOf 0 0 factor reg (Place.Rip (pos 0 -ℤ pos bytes_at_end)) (λ at. Notice.Target (at + 1) target ∷ []) (tail_actions result) }
    ensures bytes { IsBytes (all_bytes (tail_actions result)) }
    ensures length { (factor : ℕ) → length (all_bytes (tail_actions result)) ≡ least_tail_under factor (Place.Rip (pos 0 -ℤ pos bytes_at_end)) }
{
    let word = (-i32::from(bytes_at_end)).cast_unsigned();
    TailCode {
        modrm: encode_modrm(0, reg, 5),
        sib: None,
        byte: None,
        target: Some(target),
        long: Some(word),
    }
}

/// The tail of a memory operand whose displacement is known, with this in its reg field, before this many bytes of
/// immediate.
#[tactic(auto, using(crate::proofs::TailLengths::without_factor))]
#[inline(always)]
pub fn tail_of<R: AsReg>(
    enc_g: u8,
    mem_e: &Amode<R>,
    displacement: i32,
    bytes_at_end: u8,
    evex_scaling: Option<i8>,
) -> TailCode
    requires address { IsTrue (registers_are_real R.settled R.enc mem_e.now) }
    requires factor { IfSome evex_scaling (λ n. pos 1 ≤ℤ n) }
    ensures tail { PutsTail (displaced_tail R.enc displacement enc_g mem_e.now bytes_at_end evex_scaling) (tail_actions result) }
    ensures bytes { IsBytes (all_bytes (tail_actions result)) }
    ensures count { length (all_bytes (tail_actions result)) ≡ tail_length (displaced_tail R.enc displacement enc_g mem_e.now bytes_at_end evex_scaling) }
    // The same where there is no factor.
    ensures length { evex_scaling ≡ None → length (all_bytes (tail_actions result)) ≡ least_tail (displaced_place R.enc displacement bytes_at_end mem_e.now) }
{
    let reg = enc_g % 8;
    match *mem_e {
        Amode::ImmReg { base, .. } => base_tail(reg, base.enc(), displacement, evex_scaling),
        Amode::ImmRegRegShift {
            base,
            index,
            scale,
            ..
        } => index_tail(
            reg,
            base.enc(),
            index.enc(),
            scale,
            displacement,
            evex_scaling,
        ),
        Amode::RipRelative { target } => relative_tail(reg, target, bytes_at_end),
    }
}

/// Puts the tail of a memory operand: ModR/M with the low three bits of `enc_g` in its reg field, SIB, and the
/// displacement, which a byte holds where it is a multiple of the factor `evex_scaling` (1 to 127, and 1 where it is
/// absent).
///
/// A relative operand is told to the sink after ModR/M, and its four bytes are minus `bytes_at_end`, the number of bytes
/// of immediate that the instruction has behind the tail.
///
/// The operand has to be addressable, as [`Amode::is_addressable`] tells, and the factor at least 1. Where they aren't,
/// a build that wasn't proved may put another operand and answer Ok, or abort.
pub fn emit_modrm_sib_disp<R: AsReg, S: CodeSink>(
    sink: &mut S,
    enc_g: u8,
    mem_e: &Amode<R>,
    bytes_at_end: u8,
    evex_scaling: Option<i8>,
) -> Result<(), SinkError>
    requires address { IsTrue (is_addressable R.settled R.enc (S.state sink.old).offsets mem_e.now) }
    requires factor { IfSome evex_scaling (λ n. pos 1 ≤ℤ n) }
    ensures adds { OnOk result (AddsTail (tail_meant R.enc (S.state sink.old).offsets enc_g mem_e.now bytes_at_end evex_scaling) (S.state sink.old) (S.state sink.new)) }
    ensures address { OnOk result (ReadsAddress (tail_meant R.enc (S.state sink.old).offsets enc_g mem_e.now bytes_at_end evex_scaling) (effective_address R.enc (S.state sink.old).offsets bytes_at_end mem_e.now) (S.state sink.old) (S.state sink.new)) }
    ensures leaves { OnErr result (LeavesTail (tail_meant R.enc (S.state sink.old).offsets enc_g mem_e.now bytes_at_end evex_scaling) (S.state sink.old) (S.state sink.new)) }
    ensures error { IfErr result (λ e. (S.state sink.old).answers e ≡ true) }
    ensures keeps { Keeps (S.state sink.old) (S.state sink.new) }
    ensures beside { S.may_become sink.old sink.new }
    ensures enough { HasRoom (S.state sink.old).byte_room 6 → HasRoom (S.state sink.old).notice_room 1 → IsOk result }
    ensures room { HasRoom (S.state sink.old).byte_room (tail_length (tail_meant R.enc (S.state sink.old).offsets enc_g mem_e.now bytes_at_end evex_scaling)) → HasRoom (S.state sink.old).notice_room (target_count mem_e.now) → IsOk result }
    ensures byte_room { FallsBy (S.state sink.old).byte_room (S.state sink.new).byte_room (tail_length (tail_meant R.enc (S.state sink.old).offsets enc_g mem_e.now bytes_at_end evex_scaling)) }
    ensures notice_room { FallsBy (S.state sink.old).notice_room (S.state sink.new).notice_room (target_count mem_e.now) }
    ensures most { tail_length (tail_meant R.enc (S.state sink.old).offsets enc_g mem_e.now bytes_at_end evex_scaling) ≤ 6 }
    // No bytes that read as the operand are fewer than are asked for.
    ensures least { let meant = tail_meant R.enc (S.state sink.old).offsets enc_g mem_e.now bytes_at_end evex_scaling in (t : List ℕ) → IsBytes t → IsTailMeant meant t → tail_length meant ≤ length t }
{
    let displacement = mem_e.displacement(sink);
    let code = tail_of(enc_g, mem_e, displacement, bytes_at_end, evex_scaling);
    code.put(sink)
}
