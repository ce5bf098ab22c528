//! Bytes from the front.

ghost use Rattle.std.specs.Prelude.{◌≡◌};
ghost use Rattle.cax64_table.specs.Cursor.{behind, front_opcode, next_byte};

use cax64_machine_code::line::Opcode;

/// The first byte, and what follows it.
#[inline(always)]
pub fn next(bytes: &[u8]) -> Option<(u8, &[u8])>
    ensures { behind result ≡ next_byte bytes.now }
{
    let (first, rest) = bytes.split_first()?;
    Some((*first, rest))
}

/// The opcode at the front, and what follows it. No row has the opcode 0F alone.
#[inline(always)]
pub fn opcode_at(bytes: &[u8]) -> Option<(Opcode, &[u8])>
    ensures { behind result ≡ front_opcode bytes.now }
{
    let (first, rest) = next(bytes)?;
    if first != 0x0F {
        return Some((
            Opcode {
                escape: false,
                byte: first,
            },
            rest,
        ));
    }
    let (second, rest) = next(rest)?;
    Some((
        Opcode {
            escape: true,
            byte: second,
        },
        rest,
    ))
}
