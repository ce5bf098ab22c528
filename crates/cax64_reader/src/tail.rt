//! The tail of an instruction: ModR/M, SIB and displacement. (Intel SDM, volume 2, 2.1.3 and 2.1.5.)

ghost use Rattle.std.specs.Prelude.{◌≡◌, ◌<◌, ◌∷◌, ℕ, option_map, IfSome};
ghost use Rattle.std.specs.Int.{from_bool};
ghost use Rattle.cax64_machine_code.specs.Tail.{disp8_at, disp32_at, disp_at, scaled_index, sib_at, read_tail};
ghost use Rattle.cax64_table.specs.Cursor.{behind};
ghost use Rattle.cax64_reader.specs.Lengths.{Within};
ghost use Rattle.cax64_reader.specs.Found.{tail_of};

use crate::number::word;
use cax64_machine_code::reading::{Place, RegView};
use cax64_table::cursor::next;

/// What a tail names, and what follows it.
#[derive(Clone, Copy)]
pub(crate) struct Tail<'a> {
    pub reg: u8,
    pub place: Place,
    pub rest: &'a [u8],
}

/// One byte of displacement, and what follows it.
#[inline(always)]
fn disp8(bytes: &[u8]) -> Option<(i32, &[u8])>
    ensures { behind result ≡ disp8_at 1 bytes.now }
{
    let (n, rest) = next(bytes)?;
    Some((i32::from(n.cast_signed()), rest))
}

/// Four bytes of displacement, and what follows them.
#[inline(always)]
fn disp32(bytes: &[u8]) -> Option<(i32, &[u8])>
    ensures { behind result ≡ disp32_at bytes.now }
{
    let (n, rest) = word(bytes)?;
    Some((n.cast_signed(), rest))
}

/// The displacement that goes with this mod.
#[tactic(auto, unfolding(cax64_machine_code::specs::Tail::disp_at))]
#[inline(always)]
fn disp(mode: u8, bytes: &[u8]) -> Option<(i32, &[u8])>
    ensures { behind result ≡ disp_at mode 1 bytes.now }
{
    match mode {
        0 => Some((0, bytes)),
        1 => disp8(bytes),
        _ => disp32(bytes),
    }
}

/// The index register and its factor.
#[inline(always)]
fn index(x: bool, sib: u8) -> Option<(u8, u8)>
    ensures { result ≡ scaled_index (from_bool x) sib }
{
    let number = sib / 8 % 8;
    if number == 4 && !x {
        return None;
    }
    Some((number + 8 * u8::from(x), 1 << (sib / 64)))
}

/// The place behind a SIB byte.
#[tactic(auto, unfolding(cax64_machine_code::specs::Tail::sib_at))]
#[inline(always)]
fn behind_sib(x: bool, b: bool, mode: u8, reg: u8, sib: u8, bytes: &[u8]) -> Option<Tail<'_>>
    ensures { option_map tail_of result ≡ sib_at (from_bool x) (from_bool b) 1 mode reg (sib ∷ bytes.now) }
{
    let index = index(x, sib);
    let base = sib % 8;
    if base == 5 && mode == 0 {
        let (disp, rest) = disp32(bytes)?;
        return Some(Tail {
            reg,
            place: Place::Mem {
                base: None,
                index,
                disp,
            },
            rest,
        });
    }
    let base = Some(base + 8 * u8::from(b));
    let (disp, rest) = disp(mode, bytes)?;
    Some(Tail {
        reg,
        place: Place::Mem { base, index, disp },
        rest,
    })
}

/// What follows a ModR/M byte whose rm is that of a SIB byte.
#[inline(always)]
fn with_sib(x: bool, b: bool, mode: u8, reg: u8, bytes: &[u8]) -> Option<Tail<'_>>
    ensures { option_map tail_of result ≡ sib_at (from_bool x) (from_bool b) 1 mode reg bytes.now }
{
    let (sib, rest) = next(bytes)?;
    behind_sib(x, b, mode, reg, sib, rest)
}

/// The place behind a ModR/M byte.
#[tactic(auto, unfolding(cax64_machine_code::specs::Tail::read_tail))]
#[inline(always)]
fn behind_modrm(x: bool, b: bool, modrm: u8, bytes: &[u8]) -> Option<Tail<'_>>
    ensures { option_map tail_of result ≡ read_tail (from_bool x) (from_bool b) 1 (modrm ∷ bytes.now) }
{
    let mode = modrm / 64;
    let reg = modrm / 8 % 8;
    let rm = modrm % 8;
    let register = rm + 8 * u8::from(b);
    if mode == 3 {
        return Some(Tail {
            reg,
            place: Place::Reg(RegView::Low(register)),
            rest: bytes,
        });
    }
    if rm == 4 {
        return with_sib(x, b, mode, reg, bytes);
    }
    if rm == 5 && mode == 0 {
        let (disp, rest) = disp32(bytes)?;
        return Some(Tail {
            reg,
            place: Place::Rip(disp),
            rest,
        });
    }
    let (disp, rest) = disp(mode, bytes)?;
    Some(Tail {
        reg,
        place: Place::Mem {
            base: Some(register),
            index: None,
            disp,
        },
        rest,
    })
}

/// The tail at the front, under these bits of the prefix.
#[inline(always)]
pub(crate) fn read_tail(x: bool, b: bool, bytes: &[u8]) -> Option<Tail<'_>>
    ensures is { option_map tail_of result ≡ read_tail (from_bool x) (from_bool b) 1 bytes.now }
    ensures reg { IfSome result (λ t. t.reg < 8) }
    ensures length { IfSome result (λ t. Within bytes.now t.rest.now 6) }
{
    let (modrm, rest) = next(bytes)?;
    behind_modrm(x, b, modrm, rest)
}
