//! An instruction of any kind, some kinds much more often than others.

mod arithmetic;
mod jumps;
mod locked_add;
mod locked_logic;
mod locked_sub;
mod nops;
mod vector;

use crate::maker::Maker;
use crate::registers::PlainFamily;
use cranelift_assembler_x64::Inst;

/// A number below `count`, the lower ones more often.
fn skewed(a: u8, b: u8, count: u8) -> u8 {
    let first = a.checked_rem(count).unwrap_or(0);
    let second = b.checked_rem(count).unwrap_or(0);
    first.min(second)
}

/// The next instruction.
pub(crate) fn make<R: PlainFamily>(m: &mut Maker) -> Inst<R> {
    let [group, a, b, ..] = m.random.bytes();
    match group {
        0..=71 => jumps::make(skewed(a, b, jumps::COUNT), m),
        72..=129 => arithmetic::make(skewed(a, b, arithmetic::COUNT), m),
        130..=171 => vector::make(skewed(a, b, vector::COUNT), m),
        172..=201 => locked_add::make(skewed(a, b, locked_add::COUNT), m),
        202..=225 => locked_sub::make(skewed(a, b, locked_sub::COUNT), m),
        226..=247 => locked_logic::make(skewed(a, b, locked_logic::COUNT), m),
        _ => nops::make(skewed(a, b, nops::COUNT)),
    }
}
