//! Texts of instructions.

ghost use Rattle.std.specs.Prelude.{◌≡◌, ◌++◌, ◌&&◌, not, IfOk, IsTrue, OnOk, string_bytes, true};
ghost use Rattle.cax64_address.specs.Text.{amode_nameable};
ghost use Rattle.x64_core.specs.View.{CoreView, core_view};
ghost use Rattle.x64_text.specs.Fixed.{all_named, is_named};
ghost use Rattle.x64_text.specs.Text.{given_nameable, is_memory, mnemonic_of, nameable, none_printed, operands_text, piece, place_nameable, separator, space, suffix, text};
ghost use Rattle.x64_text.specs.declared.style.Style.{Style};

use crate::mnemonic::mnemonic;
use crate::operand::push_operand;
use crate::style::{Style, line_style};
use std::alloc::{AllocError, Allocator};
use x64_core::Core;
use x64_lines::operands::LineOperand;

/// Whether a register that an instruction has, if it has one, has a name.
fn has_name(number: Option<u8>) -> bool
    ensures { result ≡ given_nameable number }
{
    match number {
        Some(number) => number < 16,
        None => true,
    }
}

/// Whether the registers of its place have names.
fn place_is_named(core: &Core) -> bool
    ensures { result ≡ place_nameable (core_view core.now).place }
{
    match core.memory() {
        Some(amode) => amode.nameable(),
        None => has_name(core.place_register()),
    }
}

/// Whether no operand is printed.
fn none_printed(operands: &[LineOperand]) -> bool
    ensures { result ≡ none_printed operands.now }
{
    for operand in operands {
        if operand.is_printed {
            return false;
        }
    }
    true
}

/// Adds a comma, but before the first operand.
fn push_separator<A: Allocator>(out: &mut String<A>, first: bool) -> Result<(), AllocError>
    ensures { OnOk result (string_bytes out.new ≡ string_bytes out.old ++ separator first) }
{
    if first {
        return Ok(());
    }
    out.push_str(", ")
}

/// Whether an instruction has a memory operand.
fn has_memory(core: &Core) -> bool
    ensures { result ≡ is_memory (core_view core.now).place }
{
    core.memory().is_some()
}

/// Adds what stands behind the mnemonic where memory is read.
fn push_suffix<A: Allocator>(
    out: &mut String<A>,
    style: Style,
    memory: bool,
) -> Result<(), AllocError>
    ensures { OnOk result (string_bytes out.new ≡ string_bytes out.old ++ suffix style memory) }
{
    match style {
        Style::Wide if memory => out.push('x'),
        _ => Ok(()),
    }
}

/// Adds what stands between mnemonic and operands, if there are any.
fn push_space<A: Allocator>(out: &mut String<A>, style: Style, none: bool) -> Result<(), AllocError>
    ensures { OnOk result (string_bytes out.new ≡ string_bytes out.old ++ space style none) }
{
    if none {
        return Ok(());
    }
    out.push_str(match style {
        Style::Plain | Style::Wide | Style::Branch(_) => " ",
        Style::Indirect => " *",
    })
}

/// Adds an operand if it's printed, and says whether the next one is still the first.
fn push_piece<A: Allocator + Copy>(
    out: &mut String<A>,
    alloc: A,
    core: &Core,
    operand: LineOperand,
    first: bool,
) -> Result<bool, AllocError>
    requires nameable { nameable (core_view core.now) ≡ true }
    requires fixed { is_named operand.home ≡ true }
    ensures text { OnOk result (string_bytes out.new ≡ string_bytes out.old ++ piece (core_view core.now) first operand) }
    ensures first { IfOk result (λ still. still ≡ (not operand.is_printed && first)) }
{
    if !operand.is_printed {
        return Ok(first);
    }
    push_separator(out, first)?;
    push_operand(out, alloc, core, operand)?;
    Ok(false)
}

/// Adds the operands that are printed, from the last to the first.
fn push_operands<A: Allocator + Copy>(
    out: &mut String<A>,
    alloc: A,
    core: &Core,
    operands: &[LineOperand],
) -> Result<(), AllocError>
    requires nameable { nameable (core_view core.now) ≡ true }
    requires fixed { all_named operands.now ≡ true }
    ensures { OnOk result (string_bytes out.new ≡ string_bytes out.old ++ operands_text (core_view core.now) operands.now) }
{
    let len = operands.len();
    let mut first = true;
    for done in 0..len {
        first = push_piece(out, alloc, core, operands[len - 1 - done], first)?;
    }
    Ok(())
}

/// Room for the text of any instruction with the hardware's registers.
const ROOM: usize = 80;

/// What an instruction of the core says of itself, in AT&T's form.
pub trait CoreText {
    // What it is, in a clause.
    ghost view: { Self → CoreView };

    /// The name as assemblers write it, with `lock ` before it. In a text of two conversions of memory an `x` stands behind it.
    fn mnemonic(&self) -> &'static str
        ensures { result.now ≡ mnemonic_of (view self.now).op };

    /// Whether its registers have names, being below 16: the condition of `to_string`.
    fn nameable(&self) -> bool
        ensures { result ≡ nameable (view self.now) };

    /// The text.
    ///
    /// Fails where there is no memory.
    ///
    /// Its registers need names, as [`nameable`](Self::nameable) tells. Where one has none, a build that wasn't proved may
    /// answer another text, or abort.
    fn to_string<A: Allocator + Copy>(&self, alloc: A) -> Result<String<A>, AllocError>
        requires { IsTrue (nameable (view self.now)) }
        ensures { IfOk result (λ t. string_bytes t ≡ text (view self.now)) };
}

impl CoreText for Core {
    ghost view = { core_view };

    fn mnemonic(&self) -> &'static str {
        mnemonic(self.op().number())
    }

    fn nameable(&self) -> bool {
        has_name(self.reg()) && (has_name(self.vvvv()) && place_is_named(self))
    }

    fn to_string<A: Allocator + Copy>(&self, alloc: A) -> Result<String<A>, AllocError> {
        let op = self.op();
        let operands = op.operands();
        let mut out = String::with_capacity(alloc, ROOM)?;
        out.push_str(self.mnemonic())?;
        let style = line_style(op.number());
        push_suffix(&mut out, style, has_memory(self))?;
        push_space(&mut out, style, none_printed(operands))?;
        push_operands(&mut out, alloc, self, operands)?;
        Ok(out)
    }
}
