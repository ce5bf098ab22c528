//! Digests of notices.

use crate::digest::Digest;
use cranelift_assembler_x64::{Constant, DeferredTarget, Label, Notice, TrapCode};

fn target_number(target: DeferredTarget) -> u64 {
    match target {
        DeferredTarget::Label(Label(number)) => 0x1_0000_0000 ^ u64::from(number),
        DeferredTarget::Constant(Constant(key)) => 0x2_0000_0000 ^ u64::from(key),
        DeferredTarget::None => 0x3_0000_0000,
    }
}

/// Each notice with its place, and how many they are.
pub fn digest_notices(digest: &mut Digest, notices: &[Notice]) {
    for notice in notices {
        match *notice {
            Notice::Trap(at, TrapCode(code)) => digest.word(
                at as u64 ^ (u64::from(code.get()) << 48),
            ),
            Notice::Target(at, target) => {
                digest.word(at as u64);
                digest.word(target_number(target));
            }
        }
    }
    digest.word(notices.len() as u64);
}
