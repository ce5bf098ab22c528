//! Texts.

ghost use Rattle.std.specs.Prelude.{◌≡◌, ◌≢◌, ◌≤◌, ◌<◌};
ghost use Rattle.x64_plain.specs.Plain.{plain};
ghost use Rattle.huqmeris_c.specs.Text.{FormattedAs, HandedOut, extension_name};
ghost use Rattle.x64_lines.specs.Extension.{extension_of};
ghost use Rattle.x64_core.specs.View.{core_view};
ghost use Rattle.x64_core.specs.declared.instruction.Core.{Core};
ghost use Rattle.x64_lines.specs.declared.lines.TheConstants.{COUNT};
ghost use Rattle.x64_text.specs.Text.{mnemonic_of};
ghost use Rattle.x64_plain.specs.declared.status.TheConstants.{HQ_BAD_INST, HQ_BAD_LINE};

use crate::status::{HQ_NO_MEMORY, HQ_NO_NAME};
use std::alloc::Global;
use x64_core::Core;
use x64_lines::Op;
use x64_lines::extension::Extension;
use x64_plain::HqInst;
use x64_plain::status::{HQ_BAD_INST, HQ_BAD_LINE, HQ_FULL, HQ_OK};
use x64_text::CoreText;

/// Puts bytes at the front of others, if there is room for them, and tells how many they are.
fn hand_out(bytes: &[u8], text: &mut [u8], len: &mut usize) -> i32
    ensures { HandedOut bytes.now text.old text.new len.new result }
{
    *len = bytes.len();
    if text.len() < bytes.len() {
        return HQ_FULL;
    }
    text[..bytes.len()].copy_from_slice(bytes);
    HQ_OK
}

/// Hands the text of an instruction out.
fn format(alloc: Global, core: &Core, text: &mut [u8], len: &mut usize) -> i32
    ensures { FormattedAs (core_view core.now) text.old text.new len.old len.new result }
{
    if !core.nameable() {
        return HQ_NO_NAME;
    }
    match core.to_string(alloc) {
        Ok(string) => hand_out(string.as_bytes(), text, len),
        Err(_) => HQ_NO_MEMORY,
    }
}

/// Puts the text of an instruction in AT&T's form at the front of some bytes, without a zero behind it, and says how many bytes
/// it has. `HQ_FULL` where they are too few: `len` is how many are needed, and the bytes are as before. `HQ_NO_NAME` where a
/// register isn't below 16.
///
/// It asks for memory, and has given all of it back when it answers.
#[unsafe(no_mangle)]
pub extern "C" fn hq_format(alloc: Global, inst: &HqInst, text: &mut [u8], len: &mut usize) -> i32
    ensures bad { ((c : Core) → plain (core_view c) ≢ inst.now) → (result ≡ HQ_BAD_INST) × (text.new ≡ text.old) × (len.new ≡ len.old) }
    ensures formats { (c : Core) → plain (core_view c) ≡ inst.now → FormattedAs (core_view c) text.old text.new len.old len.new result }
{
    let Some(core) = inst.core() else {
        return HQ_BAD_INST;
    };
    format(alloc, &core, text, len)
}

/// Puts the mnemonic of an instruction at the front of some bytes, as `hq_format` does with its text, but without memory.
#[unsafe(no_mangle)]
pub extern "C" fn hq_mnemonic(inst: &HqInst, text: &mut [u8], len: &mut usize) -> i32
    ensures bad { ((c : Core) → plain (core_view c) ≢ inst.now) → (result ≡ HQ_BAD_INST) × (text.new ≡ text.old) × (len.new ≡ len.old) }
    ensures is { (c : Core) → plain (core_view c) ≡ inst.now → HandedOut (mnemonic_of (core_view c).op) text.old text.new len.new result }
{
    let Some(core) = inst.core() else {
        return HQ_BAD_INST;
    };
    hand_out(core.mnemonic().as_bytes(), text, len)
}

/// The name of an extension.
fn name_of(extension: Option<Extension>) -> &'static str
    ensures { result.now ≡ extension_name extension }
{
    match extension {
        None => "",
        Some(Extension::Sse) => "sse",
        Some(Extension::Sse2) => "sse2",
        Some(Extension::Bmi1) => "bmi1",
        Some(Extension::Bmi2) => "bmi2",
        Some(Extension::Lzcnt) => "lzcnt",
        Some(Extension::Popcnt) => "popcnt",
        Some(Extension::Avx) => "avx",
        Some(Extension::Cmpxchg16b) => "cmpxchg16b",
    }
}

/// Puts the name of the extension that a line asks for at the front of some bytes, as `hq_format` does with a text, but without
/// memory: `sse`, `sse2`, `bmi1`, `bmi2`, `lzcnt`, `popcnt`, `avx` or `cmpxchg16b`, or nothing. `HQ_BAD_LINE` where no line has
/// the number.
#[unsafe(no_mangle)]
pub extern "C" fn hq_extension(line: u16, text: &mut [u8], len: &mut usize) -> i32
    ensures line { COUNT ≤ line → (result ≡ HQ_BAD_LINE) × (text.new ≡ text.old) × (len.new ≡ len.old) }
    ensures is { line < COUNT → HandedOut (extension_name (extension_of line)) text.old text.new len.new result }
{
    let Some(op) = Op::from_number(line) else {
        return HQ_BAD_LINE;
    };
    hand_out(name_of(op.extension()).as_bytes(), text, len)
}
