//! One instruction of the core at the front of some bytes.

ghost use Rattle.std.specs.Prelude.{◌≡◌, ◌≤◌, ◌<◌, ◌+◌, ℕ, IfNone, IfSome, Some, None, option_map, length, true, false};
ghost use Rattle.cax64_machine_code.specs.Reading.{operands_of};
ghost use Rattle.cax64_machine_code.specs.ReadLine.{find_line, read_line, read_of};
ghost use Rattle.cax64_reader.specs.ByLine.{found_behind};
ghost use Rattle.cax64_reader.specs.Found.{found_of};
ghost use Rattle.cax64_reader.specs.Front.{prefix_of};
ghost use Rattle.cax64_reader.specs.Range.{in_range};
ghost use Rattle.x64_lines.specs.Line.{core_line};
ghost use Rattle.x64_lines.specs.Lines.{core_lines};
ghost use Rattle.x64_lines.specs.declared.lines.TheConstants.{COUNT};
ghost use Rattle.x64_reader.specs.Index.{digit_behind, number_of_key};
ghost use Rattle.x64_reader.specs.Taken.{is_taken};
ghost use Rattle.x64_reader.specs.Others.{FindsAlone, others_match};
ghost use Rattle.x64_reader.specs.Reading.{line_reading};

use crate::index::{digit, number_of_key};
use crate::lines::line;
use crate::reading::CoreReading;
use cax64_machine_code::line::{Line, Opcode, PrefixField};
use cax64_reader::by_line::is_vvvv;
use cax64_reader::front::Front;
use cax64_reader::operands::{Found, operands};
use cax64_reader::prefix::read_front;
use cax64_table::cursor::opcode_at;
use x64_lines::Op;
use x64_lines::lines::COUNT;

/// Whether what the key leaves open of the bytes before the opcode is as a line asks for it: REX, or L and vvvv.
#[inline]
fn others_match(field: &PrefixField, front: &Front) -> bool
    ensures { result ≡ others_match field.now front.now.numbers front.now.has_rex front.now.vvvv }
{
    match field {
        PrefixField::LegacyField(_, rex) => *rex | !front.has_rex,
        PrefixField::VexField(_, _, l, vvvv) => {
            front.numbers.high() == Some(*l) && is_vvvv(*vvvv, front.vvvv)
        }
    }
}

/// The line whose key these are, where its number is below a limit and all that it asks for before its opcode stands there.
#[inline(always)]
fn line_of_key(limit: u16, front: &Front, opcode: Opcode, rest: &[u8]) -> Option<Op>
    requires { limit ≤ COUNT }
    ensures found { IfSome result (λ op. (op.number ≡ number_of_key front.now.numbers.low front.now.numbers.w opcode (digit_behind rest.now)) × (others_match (core_line op.number).prefix front.now.numbers front.now.has_rex front.now.vvvv ≡ true)) }
    ensures below { IfSome result (λ op. op.number < limit) }
    ensures none { IfNone result (number_of_key front.now.numbers.low front.now.numbers.w opcode (digit_behind rest.now) < limit → others_match (core_line (number_of_key front.now.numbers.low front.now.numbers.w opcode (digit_behind rest.now))).prefix front.now.numbers front.now.has_rex front.now.vvvv ≡ false) }
    ensures byte { opcode.byte < 256 }
{
    let number = number_of_key(front.numbers.low(), front.numbers.w(), opcode, digit(rest));
    if number >= limit {
        return None;
    }
    let op = Op::of_number(number);
    if others_match(&line(op).prefix, front) {
        Some(op)
    } else {
        None
    }
}

/// The line below a limit that stands behind the prefix, and what follows its opcode.
#[inline(always)]
fn line_behind<'a>(limit: u16, front: &Front, bytes: &'a [u8]) -> Option<(Op, &'a [u8])>
    requires { limit ≤ COUNT }
    ensures finds { IfSome result (λ f. found_behind (core_line f.0.number) (prefix_of front.now) bytes.now ≡ operands_of (core_line f.0.number).tail (core_line f.0.number) (core_line f.0.number) (prefix_of front.now) f.1.now) }
    ensures below { IfSome result (λ f. f.0.number < limit) }
    ensures alone { FindsAlone limit (prefix_of front.now) bytes.now (option_map (λ f. f.0.number) result) }
{
    let (opcode, rest) = opcode_at(bytes)?;
    let op = line_of_key(limit, front, opcode, rest)?;
    Some((op, rest))
}

/// The line that stands at the front, of those whose numbers are below a limit, and its operands. What is answered doesn't depend
/// on `CHOSEN`: it tells how the register is made.
#[inline(always)]
pub(crate) fn find<const CHOSEN: bool>(limit: u16, bytes: &[u8]) -> Option<(Op, Found<'_, Line>)>
    requires { limit ≤ COUNT }
    ensures found { IfSome result (λ f. find_line (core_line f.0.number) bytes.now ≡ Some (found_of f.1)) }
    ensures range { IfSome result (λ f. in_range (core_line f.0.number).imm f.1.imm ≡ true) }
    ensures below { IfSome result (λ f. f.0.number < limit) }
    ensures none { IfNone result ((n : ℕ) → n < limit → find_line (core_line n) bytes.now ≡ None) }
    ensures length { IfSome result (λ f. (1 + length f.1.rest.now ≤ length bytes.now) × (length bytes.now ≤ 13 + length f.1.rest.now)) }
{
    let (front, behind) = read_front(bytes)?;
    let (op, rest) = line_behind(limit, &front, behind)?;
    let line = line(op);
    let found = operands::<Line, CHOSEN>(*line, line, &front, rest)?;
    Some((op, found))
}

/// Reads the instruction at the front, of which all lines of the core are known; what follows it is not read.
pub fn read_core(bytes: &[u8]) -> Option<CoreReading>
    ensures is { option_map line_reading result ≡ read_of core_lines bytes.now }
    ensures line { IfSome result (λ r. read_line (core_line r.op.number) bytes.now ≡ Some (line_reading r)) }
    ensures none { IfNone result ((n : ℕ) → n < COUNT → read_line (core_line n) bytes.now ≡ None) }
    ensures taken { IfSome result (λ r. is_taken r ≡ true) }
    ensures least { IfSome result (λ r. 1 ≤ r.length) }
    ensures most { IfSome result (λ r. r.length ≤ 13) }
{
    let (op, found) = find::<true>(COUNT, bytes)?;
    Some(CoreReading {
        op,
        length: (bytes.len() - found.rest.len()) as u8,
        tail: found.tail,
        reg: found.reg,
        vvvv: found.vvvv,
        place: found.place,
        imm: found.imm,
    })
}
