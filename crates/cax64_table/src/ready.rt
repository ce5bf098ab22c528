//! Whether a packed number is an entry: what is read of it as it stands is what its line says, and the line can be encoded.

ghost use Rattle.std.specs.Prelude.{◌≡◌};
ghost use Rattle.cax64_table.specs.Entry.{is_entry, is_ready, is_ready_legacy, is_ready_opcode, is_ready_prefix, is_ready_tail};

use crate::encodable::{has_imm_len, is_line};
use crate::fields::{
    digit, has_8bit, has_legacy, has_opcode, has_register, has_vex_fields, has_vvvv, imm_len,
    is_vex, is_w1,
};
use crate::packed::{bits, flag, half_word, unpack};
use cax64_machine_code::line::{Line, Opcode, PrefixField, TailField};

fn is_ready_tail(packed: u64, tail: TailField) -> bool
    ensures { result ≡ is_ready_tail packed tail }
{
    (bits(packed, 17, 3) == digit(tail)) & (flag(packed, 16) == has_register(tail))
}

fn is_ready_prefix(packed: u64, prefix: PrefixField) -> bool
    ensures { result ≡ is_ready_prefix packed prefix }
{
    let vvvv = flag(packed, 6) & flag(packed, 12);
    let fields = has_vex_fields(
        prefix,
        bits(packed, 7, 2),
        bits(packed, 9, 2),
        bits(packed, 11, 1),
    );
    (flag(packed, 6) == is_vex(prefix)) & ((vvvv == has_vvvv(prefix)) & fields)
}

fn is_ready_legacy(packed: u64, prefix: PrefixField) -> bool
    ensures { result ≡ is_ready_legacy packed prefix }
{
    has_legacy(prefix, half_word(packed, 46), bits(packed, 62, 2))
}

fn is_ready_opcode(packed: u64, opcode: Opcode) -> bool
    ensures { result ≡ is_ready_opcode packed opcode }
{
    has_opcode(opcode, half_word(packed, 30), bits(packed, 29, 1))
}

fn is_ready(packed: u64, line: Line) -> bool
    ensures { result ≡ is_ready packed line }
{
    let is_8bit = is_vex(line.prefix) | (flag(packed, 12) == has_8bit(line.tail));
    let imm = (bits(packed, 0, 3) == imm_len(line.imm))
        & ((flag(packed, 4) == is_w1(line.w)) & is_8bit);
    let opcode = is_ready_legacy(packed, line.prefix)
        & (is_ready_opcode(packed, line.opcode) & imm);
    is_ready_tail(packed, line.tail) & (is_ready_prefix(packed, line.prefix) & opcode)
}

pub(crate) fn is_entry(packed: u64) -> bool
    ensures { result ≡ is_entry packed }
{
    let line = unpack(packed);
    is_ready(packed, line) & (has_imm_len(imm_len(line.imm)) & is_line(line))
}
