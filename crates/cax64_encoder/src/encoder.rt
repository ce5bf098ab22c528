//! From a line of a table and operands to the code of an instruction, and of a row as an instance.

ghost use Rattle.std.specs.Prelude.{◌≡◌, ◌∷◌, [], ◌==◌, ◌<◌, ◌≤◌, ◌/◌, ◌&&◌, ◌||◌, ◌↔◌, nat_le, IsTrue, IsSome, IsOk, IfErr, true, Option, OnOk, OnErr, option_map, length};
ghost use Rattle.std.specs.Int.{from_bool};
ghost use Rattle.cax64_address.specs.Emitted as address;
ghost use Rattle.cax64_encoder.specs.Code.{IsCode, tail_actions, code_actions};
ghost use Rattle.cax64_encoder.specs.Encodes.{TailPartOf, EncodesParts, EncodesAs, form_parts};
ghost use Rattle.cax64_encoder.specs.AddsLine.{AddsLine, LeavesLine};
ghost use Rattle.cax64_encoder.specs.EncodesLine.{EncodesLine, line_form_parts};
ghost use Rattle.cax64_encoder.specs.Form.{is_no_place, vvvv_fits, fits};
ghost use Rattle.cax64_table.specs.Entry.{has_tail};
ghost use Rattle.cax64_encoder.specs.Meant.{meant_of};
ghost use Rattle.cax64_encoder.specs.Numbered.{HasImmWord, IsNumbered, plain, place_named, form_named, place_is_real, form_is_real};
ghost use Rattle.cax64_encoder.specs.Place.{memory_in, place_read};
ghost use Rattle.cax64_encoder.specs.Head.{IsHead};
ghost use Rattle.cax64_encoder.specs.Prefix.{register_number};
ghost use Rattle.cax64_encoder.specs.Real.{is_absent_or_real};
ghost use Rattle.cax64_encoder.specs.Task.{Asked, Kept};
ghost use Rattle.cax64_encoder.specs.declared.number.Number.TheVariants.{Settled};
ghost use Rattle.cax64_machine_code.specs.Fields.{IsBytes};
ghost use Rattle.cax64_machine_code.specs.Len.{tail_len, len_of, line_len};
ghost use Rattle.cax64_machine_code.specs.Prefix.{rex_bits};
ghost use Rattle.cax64_machine_code.specs.Rows.{line_of};
ghost use Rattle.cax64_table.specs.EntryLine.{entry_line};
ghost use Rattle.cax64_prefix.specs.Rex.{is_special_if_8bit};
ghost use Rattle.cax64_operand.specs.declared.operand.Operands.{Operands};
ghost use Rattle.cax64_sink.specs.Call.{put};
ghost use Rattle.cax64_sink.specs.Room.{HasRoom};
ghost use Rattle.cax64_sink.specs.Run.{all_bytes};
ghost use Rattle.cax64_sink.specs.Keeps.{Keeps};

use crate::code::{Code, TailPart};
use crate::content::Content;
use crate::front;
use crate::nop::nop_code;
use crate::numbered::{NumberedForm, NumberedPlace};
use crate::short::Short;
use crate::tails::base_part;
use cax64_address::disp::encode_modrm;
use cax64_address::tail::{TailCode, relative_tail};
use cax64_machine_code::row::Row;
use cax64_operand::RegisterFamily;
use cax64_prefix::rex::{RexPrefix, is_special_if_8bit};
use cax64_prefix::vex::VexPrefix;
use cax64_register::Registers;
use cax64_sink::{CodeSink, SinkError};
use cax64_table::entry::Entry;

/// The REX prefix of a number in reg and the numbers of a place.
#[inline(always)]
fn rex_of(w: bool, uses_8bit: bool, reg: u8, place: &NumberedPlace) -> RexPrefix
    requires reg { reg < 16 }
    requires base { place.now.base < 16 }
    requires index { place.now.index < 16 }
    ensures bits { rex_bits result ≡ record { w = from_bool w; r = reg / 8; x = place.now.index / 8; b = place.now.base / 8 } }
    ensures stands { IsSome result ↔ IsTrue (w || (nat_le 8 reg || ((nat_le 8 place.now.index || nat_le 8 place.now.base) || (uses_8bit && (is_special_if_8bit reg || is_special_if_8bit place.now.register))))) }
{
    let special = is_special_if_8bit(reg) | is_special_if_8bit(place.register);
    RexPrefix::of_registers(reg, place.index, place.base, w, uses_8bit & special)
}

/// The number of a register in reg or in vvvv, 0 where there is none.
#[inline(always)]
fn register_number(register: Option<u8>) -> u8
    requires { IsTrue (is_absent_or_real (option_map Settled register)) }
    ensures number { result ≡ register_number (option_map Settled register) }
    ensures below { result < 16 }
{
    register.unwrap_or(0)
}

/// What stands before the tail of a line, with this register in reg, 0 where a digit or nothing stands there.
#[inline(always)]
fn head(entry: Entry, reg: u8, vvvv: Option<u8>, place: &NumberedPlace) -> Short
    requires reg { reg < 16 }
    requires vvvv { IsTrue (is_absent_or_real (option_map Settled vvvv)) }
    requires numbered { IsNumbered place.now }
    requires place { IsTrue (place_is_real place.now) }
    requires vvvv_fits { IsTrue (vvvv_fits (entry_line entry).prefix (option_map Settled vvvv)) }
    requires bare { IsTrue (has_tail (entry_line entry).tail || (is_no_place (place_named place.now) && (reg == 0))) }
    ensures { IsHead (entry_line entry) reg (option_map Settled vvvv) (place_named place.now) result }
{
    let w = entry.w();
    let opcode = front::opcode(entry);
    if entry.is_vex() {
        let prefix = VexPrefix::three_op(
            reg,
            register_number(vvvv),
            (Some(place.base), Some(place.index)),
            entry.l(),
            entry.pp(),
            entry.map(),
            w,
        );
        return front::vex(prefix).append(opcode);
    }
    let rex = rex_of(w, entry.uses_8bit(), reg, place);
    front::legacy(entry).append(opcode.behind(rex.byte()))
}

/// A tail relative to the end as a few bytes and what follows them.
#[inline(always)]
fn relative_part(code: TailCode) -> TailPart
    ensures actions { tail_actions result ≡ address.tail_actions code }
    ensures few { length result.front ≤ 3 }
{
    TailPart {
        front: Short::one(code.modrm)
            .append(Short::optional(code.sib))
            .append(Short::optional(code.byte)),
        target: code.target,
        long: code.long,
    }
}

/// A ModR/M byte alone, which names a register.
#[inline(always)]
fn register_part(modrm: u8) -> TailPart
    ensures actions { tail_actions result ≡ put (modrm ∷ []) ∷ [] }
    ensures few { length result.front ≤ 3 }
{
    TailPart {
        front: Short::one(modrm),
        target: None,
        long: None,
    }
}

/// The tail of a place, with this number in reg, before this many bytes of immediate. It's made before the prefix, so that
/// the compiler joins the branches on what the place is with those by which its numbers were made, and none is added.
#[inline(always)]
fn tail_part(reg: u8, place: &NumberedPlace, displacement: i32, bytes_at_end: u8) -> TailPart
    requires reg { reg < 16 }
    requires numbered { IsNumbered place.now }
    requires place { IsTrue (place_is_real place.now) }
    ensures tail { TailPartOf plain.enc displacement bytes_at_end reg (place_named place.now) (tail_actions result) }
    ensures bytes { IsBytes (all_bytes (tail_actions result)) }
    ensures length { length (all_bytes (tail_actions result)) ≡ tail_len (place_read plain.enc displacement bytes_at_end (place_named place.now)) }
    ensures few { length result.front ≤ 3 }
{
    let reg = reg % 8;
    if !place.stands {
        return TailPart {
            front: Short::empty(),
            target: None,
            long: None,
        };
    }
    if let Some(target) = place.relative {
        return relative_part(relative_tail(reg, target, bytes_at_end));
    }
    if place.is_register {
        return register_part(encode_modrm(3, reg, place.base % 8));
    }
    base_part(
        reg,
        place.base,
        place.has_index,
        place.index,
        place.scale,
        displacement,
    )
}

/// The code of the instruction of a line with these operands, whose memory operand has this displacement.
#[inline(always)]
pub fn code_by_entry(entry: Entry, form: &NumberedForm, displacement: i32) -> Code
    requires fits { IsTrue (fits (entry_line entry) (form_named (entry_line entry) form.now)) }
    requires numbered { IsNumbered form.now.place }
    requires imm { HasImmWord (entry_line entry) form.now }
    requires real { IsTrue (form_is_real form.now) }
    ensures encodes { EncodesLine (line_form_parts plain.enc (entry_line entry) displacement (form_named (entry_line entry) form.now)) (memory_in (place_named form.now.place)) (code_actions result) }
    ensures length { length (all_bytes (code_actions result)) ≡ line_len (entry_line entry) (line_form_parts plain.enc (entry_line entry) displacement (form_named (entry_line entry) form.now)) }
    ensures is { IsCode result }
{
    let register = register_number(form.reg);
    // Where there is a digit there is no register, which then counts as 0.
    let reg = register + entry.digit();
    let imm_len = entry.imm_len();
    let tail = tail_part(reg, &form.place, displacement, imm_len);
    let head = head(entry, register, form.vvvv, &form.place);
    Code {
        trap: form.place.trap,
        front: head.append(tail.front),
        target: tail.target,
        long: tail.long,
        imm: form.imm,
        imm_len,
    }
}

/// Puts the instruction of a line, of whatever table, with these operands, whose memory operand has this displacement.
///
/// The operands have to be those of the line: each in its place and no other, numbers below 16, the immediate of so
/// many bytes. Nothing here tests it. Where they aren't, a build that wasn't proved may put a wrong instruction and
/// answer Ok.
#[inline(always)]
pub fn encode_entry<S: CodeSink>(
    entry: Entry,
    form: &NumberedForm,
    displacement: i32,
    sink: &mut S,
) -> Result<(), SinkError>
    requires fits { IsTrue (fits (entry_line entry) (form_named (entry_line entry) form.now)) }
    requires numbered { IsNumbered form.now.place }
    requires imm { HasImmWord (entry_line entry) form.now }
    requires real { IsTrue (form_is_real form.now) }
    ensures adds { OnOk result (AddsLine (line_form_parts plain.enc (entry_line entry) displacement (form_named (entry_line entry) form.now)) (memory_in (place_named form.now.place)) (S.state sink.old) (S.state sink.new)) }
    ensures leaves { OnErr result (LeavesLine (line_form_parts plain.enc (entry_line entry) displacement (form_named (entry_line entry) form.now)) (memory_in (place_named form.now.place)) (S.state sink.old) (S.state sink.new)) }
    ensures error { IfErr result (λ e. (S.state sink.old).answers e ≡ true) }
    ensures keeps { Keeps (S.state sink.old) (S.state sink.new) }
    ensures enough { HasRoom (S.state sink.old).byte_room 13 → HasRoom (S.state sink.old).notice_room 1 → IsOk result }
    ensures beside { S.may_become sink.old sink.new }
{
    code_by_entry(entry, form, displacement).put(sink)
}

/// The code of the instruction of a row with these operands, whose memory operand has this displacement.
#[inline(always)]
pub fn code_by_row(row: Row, form: &NumberedForm, displacement: i32) -> Code
    requires fits { IsTrue (fits (line_of row) (form_named (line_of row) form.now)) }
    requires numbered { IsNumbered form.now.place }
    requires imm { HasImmWord (line_of row) form.now }
    requires real { IsTrue (form_is_real form.now) }
    ensures encodes { EncodesParts (form_parts plain.enc row displacement (form_named (line_of row) form.now)) (memory_in (place_named form.now.place)) (code_actions result) }
    ensures length { length (all_bytes (code_actions result)) ≡ len_of (form_parts plain.enc row displacement (form_named (line_of row) form.now)) }
    ensures is { IsCode result }
{
    code_by_entry(Entry::of_row(row), form, displacement)
}

/// The sink calls that write an instruction of a row, of whose operands this was kept.
#[inline(always)]
pub(crate) fn code_for<R: Registers, S: CodeSink>(row: Row, content: &Content, sink: &S) -> Code
    requires { Asked R ⟦<R as RegisterFamily>⟧.family (S.state sink.now).offsets row content.now }
    ensures encodes { (o : Operands R R.ReadGpr R.ReadWriteGpr R.WriteGpr R.ReadXmm R.ReadWriteXmm R.WriteXmm) → Kept ⟦<R as RegisterFamily>⟧.family (S.state sink.now).offsets row o content.now → EncodesAs (meant_of ⟦<R as RegisterFamily>⟧.family row o (S.state sink.now).offsets) (code_actions result) }
    ensures is { IsCode result }
{
    match content.nop {
        Some(nop) => nop_code(nop),
        None => {
            let displacement = content.form.place.displacement.value(sink);
            code_by_row(row, &content.form, displacement)
        }
    }
}
