//! Worked rows of the definitions, computed.

ghost use Rattle.std.specs.Prelude.{◌≡◌, ◌≢◌, ◌-◌, ◌^◌, [], ◌∷◌, ℕ, List, length, Some, None, pos, negsuc};
ghost use Rattle.cax64_machine_code.specs.Address.{address_of};
ghost use Rattle.cax64_machine_code.specs.Branch.{branch_of};
ghost use Rattle.cax64_machine_code.specs.Fields.{IsBytes};
ghost use Rattle.cax64_machine_code.specs.Len.{len_of, least_tail};
ghost use Rattle.cax64_machine_code.specs.Shortest.{Shortest};
ghost use Rattle.cax64_machine_code.specs.Tail.{IsTail, Tail, read_tail};
ghost use Rattle.cax64_machine_code.specs.ReadLine.{read_line, read_of};
ghost use Rattle.cax64_machine_code.specs.Reading.{read};
ghost use Rattle.cax64_machine_code.specs.WorkedLine.{reg_and_rm};

use crate::laws::{
    least_tail_is_least, no_reading_begins_another, no_tail_begins_another, one_line_reads,
    what_follows_is_not_read_by_a_line,
};
use crate::line::{
    ImmField, LegacySet, Line, Opcode, PlaceField, PrefixField, RegField, TailField,
};
use crate::reading::{Place, Reading, RegView};
use crate::row::{Branch, Row};

/// Tails: the stack pointer as a base, `%rbp` with no displacement, `%r12`, a byte under a factor, an index, a place
/// relative to the end.
#[tactic(auto, unfolding(crate::specs::Tail::read_tail, crate::specs::Tail::sib_at, crate::specs::Tail::disp_at, crate::specs::Fields::number_at))]
pub fn tails()
    ensures rsp { read_tail 0 0 1 (0x04 ∷ 0x24 ∷ []) ≡ Some (record { reg = 0; place = Place.Mem (Some 4) None (pos 0); rest = [] }) }
    ensures rbp { read_tail 0 0 1 (0x45 ∷ 0x00 ∷ []) ≡ Some (record { reg = 0; place = Place.Mem (Some 5) None (pos 0); rest = [] }) }
    ensures r12 { read_tail 0 1 1 (0x44 ∷ 0x24 ∷ 0x80 ∷ []) ≡ Some (record { reg = 0; place = Place.Mem (Some 12) None (negsuc 127); rest = [] }) }
    ensures long { read_tail 0 0 127 (0x80 ∷ 0x80 ∷ 0x3F ∷ 0 ∷ 0 ∷ []) ≡ Some (record { reg = 0; place = Place.Mem (Some 0) None (pos 16256); rest = [] }) }
    ensures factor { read_tail 0 0 127 (0x40 ∷ 0x80 ∷ []) ≡ Some (record { reg = 0; place = Place.Mem (Some 0) None (negsuc 16255); rest = [] }) }
    ensures indexed { read_tail 0 1 1 (0x54 ∷ 0x8D ∷ 0x00 ∷ []) ≡ Some (record { reg = 2; place = Place.Mem (Some 13) (Some (1, 4)) (pos 0); rest = [] }) }
    ensures relative { read_tail 0 0 1 (0x1D ∷ 255 ∷ 255 ∷ 255 ∷ 255 ∷ []) ≡ Some (record { reg = 3; place = Place.Rip (negsuc 0); rest = [] }) }
    ensures cut { read_tail 0 0 1 (0x44 ∷ 0x24 ∷ []) ≡ None }
{}

/// Instructions, and what has no reading: no input, cut ones, a repeated prefix, a register for a memory operand.
#[tactic(auto, unfolding(crate::specs::Reading::read, crate::specs::Reading::find, crate::specs::Reading::row_at, crate::specs::Reading::operands_at, crate::specs::Rows::line_of, crate::specs::Rows::all_rows, crate::specs::Line::after, crate::specs::Prefix::prefix_at, crate::specs::Prefix::legacy_at, crate::specs::Prefix::rex_at, crate::specs::Prefix::vex_at, crate::specs::Tail::read_tail, crate::specs::Tail::sib_at, crate::specs::Tail::disp_at, crate::specs::Fields::number_at))]
pub fn instructions()
    ensures andb { read (0x24 ∷ 0xAA ∷ []) ≡ Some (record { row = Row.andb_i; length = 2; tail = 0; reg = None; vvvv = None; place = None; imm = Some (pos 170) }) }
    ensures lock_addl { read (0xF0 ∷ 0x45 ∷ 0x01 ∷ 0x4C ∷ 0x24 ∷ 0x80 ∷ 0x90 ∷ []) ≡ Some (record { row = Row.lock_addl_mr; length = 6; tail = 3; reg = Some (RegView.Low 9); vvvv = None; place = Some (Place.Mem (Some 12) None (negsuc 127)); imm = None }) }
    ensures high_byte { read (0xF0 ∷ 0x00 ∷ 0x30 ∷ []) ≡ Some (record { row = Row.lock_addb_mr; length = 3; tail = 1; reg = Some (RegView.High 2); vvvv = None; place = Some (Place.Mem (Some 0) None (pos 0)); imm = None }) }
    ensures compare { read (0xC5 ∷ 0xF8 ∷ 0xC2 ∷ 0xC1 ∷ 0x00 ∷ []) ≡ Some (record { row = Row.vcmpps_b; length = 5; tail = 1; reg = Some (RegView.Low 0); vvvv = Some 0; place = Some (Place.Reg (RegView.Low 1)); imm = Some (pos 0) }) }
    ensures none { read [] ≡ None }
    ensures cut { read (0xF0 ∷ 0x45 ∷ 0x01 ∷ 0x4C ∷ 0x24 ∷ []) ≡ None }
    ensures cut_immediate { read (0x24 ∷ []) ≡ None }
    ensures repeated { read (0xF0 ∷ 0xF0 ∷ 0x01 ∷ 0x08 ∷ []) ≡ None }
    ensures memory_alone { read (0xF0 ∷ 0x01 ∷ 0xC8 ∷ []) ≡ None }
{}

/// Branches by a distance of either length and through an operand, and what is none.
#[tactic(auto, unfolding(crate::specs::Rows::line_of))]
pub fn branches()
    ensures short { branch_of Row.jmp_d8 ≡ Some Branch.Jump }
    ensures operand { branch_of Row.jmpq_m ≡ Some Branch.Jump }
    ensures call { branch_of Row.callq_d ≡ Some Branch.Call }
    ensures call_of_operand { branch_of Row.callq_m ≡ Some Branch.Call }
    ensures short_condition { branch_of Row.jg_d8 ≡ Some Branch.Conditional }
    ensures long_condition { branch_of Row.jo_d32 ≡ Some Branch.Conditional }
    ensures other { branch_of Row.xchgb_rm ≡ None }
    ensures vex { branch_of Row.mulxq_rvm ≡ None }
{}

/// Addresses: a base, an index and a displacement; one that wraps below 0 and one above 2 to the 64; a place relative to
/// the end, on either side; a register, which has none.
pub fn addresses()
    ensures indexed { address_of (Place.Mem (Some 1) (Some (2, 4)) (pos 7)) (0 ∷ 100 ∷ 10 ∷ []) 0 ≡ Some 147 }
    ensures wraps_below { address_of (Place.Mem (Some 0) None (negsuc 0)) (0 ∷ []) 0 ≡ Some (2 ^ 64 - 1) }
    ensures wraps_above { address_of (Place.Mem (Some 0) (Some (1, 8)) (pos 24)) ((2 ^ 64 - 8) ∷ (2 ^ 61 - 1) ∷ []) 0 ≡ Some 8 }
    ensures no_base { address_of (Place.Mem None None (negsuc 15)) [] 0 ≡ Some (2 ^ 64 - 16) }
    ensures relative { address_of (Place.Rip (negsuc 3)) [] 100 ≡ Some 96 }
    ensures relative_wraps { address_of (Place.Rip (negsuc 3)) [] 1 ≡ Some (2 ^ 64 - 3) }
    ensures register { address_of (Place.Reg (RegView.Low 3)) [] 0 ≡ None }
{}

/// Numbers of bytes: an immediate alone, `%sil`, a base that needs a SIB byte, the longest, shifts of `%al`, whose digit
/// asks for no REX byte, and of `%sil`, VEX with two bytes and with three; the least tails of `%rbp` and of `%r12`.
#[tactic(auto, unfolding(crate::specs::Rows::line_of))]
pub fn lengths()
    ensures andb { len_of (record { row = Row.andb_i; reg = None; vvvv = None; place = None; imm = Some (pos 170) }) ≡ 2 }
    ensures lock_addb { len_of (record { row = Row.lock_addb_mr; reg = Some (RegView.Low 6); vvvv = None; place = Some (Place.Mem (Some 0) None (pos 0)); imm = None }) ≡ 4 }
    ensures lock_addl { len_of (record { row = Row.lock_addl_mr; reg = Some (RegView.Low 9); vvvv = None; place = Some (Place.Mem (Some 12) None (negsuc 127)); imm = None }) ≡ 6 }
    ensures longest { len_of (record { row = Row.lock_addq_mi_sxl; reg = None; vvvv = None; place = Some (Place.Mem (Some 13) (Some (9, 8)) (pos 0x12345678)); imm = Some (negsuc 0) }) ≡ 13 }
    ensures digit { len_of (record { row = Row.shlb_m1; reg = None; vvvv = None; place = Some (Place.Reg (RegView.Low 0)); imm = None }) ≡ 2 }
    ensures digit_and_sil { len_of (record { row = Row.sarb_m1; reg = None; vvvv = None; place = Some (Place.Reg (RegView.Low 6)); imm = None }) ≡ 3 }
    ensures two_bytes { len_of (record { row = Row.vcvtpd2ps_a; reg = Some (RegView.Low 0); vvvv = None; place = Some (Place.Reg (RegView.Low 1)); imm = None }) ≡ 4 }
    ensures three_bytes { len_of (record { row = Row.mulxq_rvm; reg = Some (RegView.Low 1); vvvv = Some 2; place = Some (Place.Reg (RegView.Low 8)); imm = None }) ≡ 5 }
    ensures relative { len_of (record { row = Row.cmpps_a; reg = Some (RegView.Low 0); vvvv = None; place = Some (Place.Rip (negsuc 0)); imm = Some (pos 0) }) ≡ 8 }
    ensures rbp { least_tail (Place.Mem (Some 5) None (pos 0)) ≡ 2 }
    ensures r12 { least_tail (Place.Mem (Some 12) None (negsuc 128)) ≡ 6 }
{}

/// Lines that no row has: `addq` and `movq` of a register, and a register or memory. They are apart, so what one reads
/// they read; the bytes of neither have a row.
#[tactic(auto, unfolding(crate::specs::ReadLine::read_line, crate::specs::ReadLine::find_line, crate::specs::ReadLine::read_of, crate::specs::Reading::read, crate::specs::Reading::find, crate::specs::Reading::row_at, crate::specs::Reading::operands_at, crate::specs::Rows::line_of, crate::specs::Rows::all_rows, crate::specs::Line::after, crate::specs::Prefix::prefix_at, crate::specs::Prefix::legacy_at, crate::specs::Prefix::rex_at, crate::specs::Prefix::vex_at, crate::specs::Tail::read_tail, crate::specs::Tail::sib_at, crate::specs::Tail::disp_at, crate::specs::Fields::number_at))]
pub fn lines_without_a_row()
    ensures add { read_line (reg_and_rm 0x03) (0x48 ∷ 0x03 ∷ 0xC7 ∷ 0x90 ∷ []) ≡ Some (record { line = reg_and_rm 0x03; length = 3; tail = 1; reg = Some (RegView.Low 0); vvvv = None; place = Some (Place.Reg (RegView.Low 7)); imm = None }) }
    ensures move_from_memory { read_line (reg_and_rm 0x8B) (0x49 ∷ 0x8B ∷ 0x44 ∷ 0x24 ∷ 0x80 ∷ []) ≡ Some (record { line = reg_and_rm 0x8B; length = 5; tail = 3; reg = Some (RegView.Low 0); vvvv = None; place = Some (Place.Mem (Some 12) None (negsuc 127)); imm = None }) }
    ensures other_line { read_line (reg_and_rm 0x8B) (0x48 ∷ 0x03 ∷ 0xC7 ∷ []) ≡ None }
    ensures without_w { read_line (reg_and_rm 0x03) (0x03 ∷ 0xC7 ∷ []) ≡ None }
    ensures of_both { (more : List ℕ) → read_of (reg_and_rm 0x8B ∷ reg_and_rm 0x03 ∷ []) (0x48 ∷ 0x03 ∷ 0xC7 ∷ more) ≡ Some (record { line = reg_and_rm 0x03; length = 3; tail = 1; reg = Some (RegView.Low 0); vvvv = None; place = Some (Place.Reg (RegView.Low 7)); imm = None }) }
    ensures no_row { read (0x48 ∷ 0x03 ∷ 0xC7 ∷ []) ≡ None }
{
    let add = Line {
        prefix: PrefixField::LegacyField(
            LegacySet {
                lock: false,
                operand_size: false,
                repne: false,
                rep: false,
            },
            true,
        ),
        w: Some(1),
        opcode: Opcode {
            escape: false,
            byte: 0x03,
        },
        tail: TailField::Modrm(RegField::Register, PlaceField::RegisterOrMemory),
        imm: ImmField::NoImm,
    };
    what_follows_is_not_read_by_a_line(add);
    one_line_reads(add);
}

/// What begins with a tail and is longer doesn't read as a tail with nothing left.
pub fn longer_than_a_tail()
    ensures { (more : List ℕ) (second : Tail)
        → more ≢ []
        → read_tail 0 0 1 (0x04 ∷ 0x24 ∷ more) ≡ Some second
        → second.rest ≢ [] }
{
    no_tail_begins_another();
}

/// The place of `(%rbp)` is named by five bytes, with four of displacement; so there is a tail of two, and one of two is
/// the shortest.
pub fn shorter_than_a_tail()
    ensures some { (t : List ℕ) × IsBytes t × IsTail 0 0 1 0 (Place.Mem (Some 5) None (pos 0)) t × (length t ≡ 2) }
    ensures shortest { Shortest 0 0 1 0 (Place.Mem (Some 5) None (pos 0)) (0x45 ∷ 0 ∷ []) }
{
    least_tail_is_least();
}

/// What begins with an instruction and is longer doesn't read as one of its own length.
pub fn longer_than_an_instruction(second: Reading)
    ensures { (more : List ℕ)
        → more ≢ []
        → read (0x24 ∷ 0xAA ∷ more) ≡ Some second
        → second.length ≢ length (0x24 ∷ 0xAA ∷ more) }
{
    let first = Reading {
        row: Row::andb_i,
        length: 2,
        tail: 0,
        reg: None,
        vvvv: None,
        place: None,
        imm: Some(0xAA),
    };
    no_reading_begins_another(first, second);
}
