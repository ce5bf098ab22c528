//! How the instructions of a row print.

ghost use Rattle.std.specs.Prelude.{◌≡◌, ◌≤◌};
ghost use Rattle.cax64_machine_code.specs.Rows.{line_of};
ghost use Rattle.cax64_text.specs.Operand.{opcode_and_imm_len};
ghost use Rattle.cax64_text.specs.Style.{style_of, is_forward, has_xed_text, after_predicate, marker};

use cax64_machine_code::row::Row;

/// What a comparison compares, which its mnemonic shows at its end.
#[derive(Clone, Copy, Debug)]
pub enum Elements {
    PackedSingle,
    PackedDouble,
    ScalarSingle,
    ScalarDouble,
}

/// How the instructions of a row print, beyond mnemonic and operands. A kind holds one thing at most: so a style is
/// returned in registers, and where the row is known the compiler knows the style.
#[derive(Clone, Copy, Debug)]
pub enum Style {
    /// The operands stand from the last to the first.
    Plain,
    /// The operands stand in the order of visits.
    Forward,
    /// The same of an exchange, of which XED's text is known.
    Exchange,
    /// A shift by one.
    Shift,
    /// A call by a register or memory.
    Call,
    /// A jump by a register or memory.
    Jump,
    /// A jump or call by a distance.
    Branch,
    /// A comparison, whose predicate may have a name.
    Compare(Elements),
    /// The same with a VEX prefix.
    VexCompare(Elements),
}

impl Style {
    /// The style of a row's instructions.
    #[inline(always)]
    pub fn new(row: Row) -> Style
        ensures { result ≡ style_of row }
    {
        match row {
            // table/write.py: styles
            Row::lock_xaddb_mr | Row::lock_xaddw_mr | Row::lock_xaddl_mr | Row::lock_xaddq_mr =>
                Style::Forward,
            Row::xchgb_rm | Row::xchgw_rm | Row::xchgl_rm | Row::xchgq_rm => Style::Exchange,
            Row::rolb_m1 | Row::rolw_m1 | Row::roll_m1 | Row::rolq_m1 => Style::Shift,
            Row::rorb_m1 | Row::rorw_m1 | Row::rorl_m1 | Row::rorq_m1 => Style::Shift,
            Row::shlb_m1 | Row::shlw_m1 | Row::shll_m1 | Row::shlq_m1 => Style::Shift,
            Row::shrb_m1 | Row::shrw_m1 | Row::shrl_m1 | Row::shrq_m1 => Style::Shift,
            Row::sarb_m1 | Row::sarw_m1 | Row::sarl_m1 | Row::sarq_m1 => Style::Shift,
            Row::callq_m => Style::Call,
            Row::jmpq_m => Style::Jump,
            Row::callq_d | Row::jmp_d8 | Row::jmp_d32 => Style::Branch,
            Row::cmpps_a => Style::Compare(Elements::PackedSingle),
            Row::cmppd_a => Style::Compare(Elements::PackedDouble),
            Row::cmpss_a => Style::Compare(Elements::ScalarSingle),
            Row::cmpsd_a => Style::Compare(Elements::ScalarDouble),
            Row::vcmpps_b => Style::VexCompare(Elements::PackedSingle),
            Row::vcmppd_b => Style::VexCompare(Elements::PackedDouble),
            Row::vcmpss_b => Style::VexCompare(Elements::ScalarSingle),
            Row::vcmpsd_b => Style::VexCompare(Elements::ScalarDouble),
            // table/write.py: end
            _ => Style::Plain,
        }
    }

    /// Whether the operands print in the order of visits.
    #[inline(always)]
    pub fn is_forward(self) -> bool
        ensures { result ≡ is_forward self }
    {
        matches!(self, Style::Forward | Style::Exchange)
    }

    /// Whether there is a text as XED prints it.
    #[inline(always)]
    pub fn has_xed_text(self) -> bool
        ensures { result ≡ has_xed_text self }
    {
        !matches!(self, Style::Plain | Style::Forward)
    }
}

/// How many bytes opcode and immediate of a row have: all that a branch by a distance has.
#[tactic(auto, unfolding(cax64_machine_code::specs::Rows::line_of))]
#[inline(always)]
pub fn opcode_and_imm_len(row: Row) -> u8
    ensures value { result ≡ opcode_and_imm_len (line_of row) }
    ensures most { result ≤ 6 }
{
    match row {
        // table/write.py: lengths
        Row::lock_addb_mi | Row::lock_addl_mi_sxb | Row::lock_addq_mi_sxb | Row::lock_orb_mi => 2,
        Row::lock_orl_mi_sxb | Row::lock_orq_mi_sxb | Row::lock_adcb_mi => 2,
        Row::lock_adcl_mi_sxb | Row::lock_adcq_mi_sxb | Row::lock_sbbb_mi => 2,
        Row::lock_sbbl_mi_sxb | Row::lock_sbbq_mi_sxb | Row::lock_andb_mi => 2,
        Row::lock_andl_mi_sxb | Row::lock_andq_mi_sxb | Row::lock_subb_mi => 2,
        Row::lock_subl_mi_sxb | Row::lock_subq_mi_sxb | Row::lock_xorb_mi => 2,
        Row::lock_xorl_mi_sxb | Row::lock_xorq_mi_sxb | Row::lock_xaddb_mr => 2,
        Row::lock_xaddw_mr | Row::lock_xaddl_mr | Row::lock_xaddq_mr | Row::lock_cmpxchgb_mr => 2,
        Row::lock_cmpxchgw_mr | Row::lock_cmpxchgl_mr | Row::lock_cmpxchgq_mr => 2,
        Row::lock_cmpxchg16b_m | Row::andps_a | Row::andb_i | Row::jmp_d8 | Row::jo_d8 => 2,
        Row::jno_d8 | Row::jb_d8 | Row::jae_d8 | Row::je_d8 | Row::jne_d8 | Row::jbe_d8 => 2,
        Row::ja_d8 | Row::js_d8 | Row::jns_d8 | Row::jp_d8 | Row::jnp_d8 | Row::jl_d8 => 2,
        Row::jge_d8 | Row::jle_d8 | Row::jg_d8 | Row::vcmpps_b | Row::vcmppd_b => 2,
        Row::vcmpss_b | Row::vcmpsd_b | Row::nopl_rm | Row::nopw_rm => 2,
        Row::lock_addw_mi | Row::lock_orw_mi | Row::lock_adcw_mi | Row::lock_sbbw_mi => 3,
        Row::lock_andw_mi | Row::lock_subw_mi | Row::lock_xorw_mi | Row::cmpps_a => 3,
        Row::cmppd_a | Row::cmpss_a | Row::cmpsd_a => 3,
        Row::lock_addl_mi | Row::lock_addq_mi_sxl | Row::lock_orl_mi | Row::lock_orq_mi_sxl => 5,
        Row::lock_adcl_mi | Row::lock_adcq_mi_sxl | Row::lock_sbbl_mi => 5,
        Row::lock_sbbq_mi_sxl | Row::lock_andl_mi | Row::lock_andq_mi_sxl => 5,
        Row::lock_subl_mi | Row::lock_subq_mi_sxl | Row::lock_xorl_mi => 5,
        Row::lock_xorq_mi_sxl | Row::callq_d | Row::jmp_d32 => 5,
        Row::jo_d32 | Row::jno_d32 | Row::jb_d32 | Row::jae_d32 | Row::je_d32 | Row::jne_d32 => 6,
        Row::jbe_d32 | Row::ja_d32 | Row::js_d32 | Row::jns_d32 | Row::jp_d32 | Row::jnp_d32 => 6,
        Row::jl_d32 | Row::jge_d32 | Row::jle_d32 | Row::jg_d32 => 6,
        // table/write.py: end
        _ => 1,
    }
}

/// What stands behind the name of a comparison's predicate.
pub fn after_predicate(elements: Elements) -> &'static str
    ensures { result.now ≡ after_predicate elements }
{
    match elements {
        Elements::PackedSingle => "ps",
        Elements::PackedDouble => "pd",
        Elements::ScalarSingle => "ss",
        Elements::ScalarDouble => "sd",
    }
}

/// What marks the width of a comparison's memory for XED.
pub fn marker(elements: Elements) -> &'static str
    ensures { result.now ≡ marker elements }
{
    match elements {
        Elements::PackedSingle => "x",
        Elements::PackedDouble => "x",
        Elements::ScalarSingle => "l",
        Elements::ScalarDouble => "q",
    }
}
