//! Instructions that do nothing.

use crate::fields::parsed;
// table/write.py: uses
use cranelift_assembler_x64::inst::{
    nop_1b, nop_2b, nop_3b, nop_4b, nop_5b, nop_6b, nop_7b, nop_8b, nop_9b,
};
// table/write.py: end
use cranelift_assembler_x64::{Inst, Numbers};

/// The number of bytes of the nop of this name.
fn nop_length(name: &str) -> Option<u8> {
    let bytes = name.strip_prefix("nop_")?.strip_suffix('b')?;
    parsed(bytes).ok()
}

pub(crate) fn nop(name: &str) -> Option<Inst<Numbers>> {
    match nop_length(name)? {
        // table/write.py: nop
        1 => Some(Inst::from(nop_1b::new())),
        2 => Some(Inst::from(nop_2b::new())),
        3 => Some(Inst::from(nop_3b::new())),
        4 => Some(Inst::from(nop_4b::new())),
        5 => Some(Inst::from(nop_5b::new())),
        6 => Some(Inst::from(nop_6b::new())),
        7 => Some(Inst::from(nop_7b::new())),
        8 => Some(Inst::from(nop_8b::new())),
        9 => Some(Inst::from(nop_9b::new())),
        // table/write.py: end
        _ => None,
    }
}
