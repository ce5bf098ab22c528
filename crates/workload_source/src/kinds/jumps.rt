//! Jumps and calls.

use crate::maker::Maker;
use crate::registers::PlainFamily;
use cranelift_assembler_x64::Inst;
use cranelift_assembler_x64::inst::{
    callq_d, callq_m, ja_d8, ja_d32, jae_d8, jae_d32, jb_d8, jb_d32, jbe_d8, jbe_d32, je_d8,
    je_d32, jg_d8, jg_d32, jge_d8, jge_d32, jl_d8, jl_d32, jle_d8, jle_d32, jmp_d8, jmp_d32,
    jmpq_m, jne_d8, jne_d32, jno_d8, jno_d32, jnp_d8, jnp_d32, jns_d8, jns_d32, jo_d8, jo_d32,
    jp_d8, jp_d32, js_d8, js_d32,
};

/// How many kinds there are.
pub(crate) const COUNT: u8 = 37;

/// An instruction of a kind, by its number.
pub(crate) fn make<R: PlainFamily>(kind: u8, m: &mut Maker) -> Inst<R> {
    match kind {
        0 => Inst::from(callq_d::new(m.simm32())),
        1 => Inst::from(jmp_d32::new(m.simm32())),
        2 => Inst::from(jo_d32::new(m.simm32())),
        3 => Inst::from(jno_d32::new(m.simm32())),
        4 => Inst::from(jb_d32::new(m.simm32())),
        5 => Inst::from(jae_d32::new(m.simm32())),
        6 => Inst::from(je_d32::new(m.simm32())),
        7 => Inst::from(jne_d32::new(m.simm32())),
        8 => Inst::from(jbe_d32::new(m.simm32())),
        9 => Inst::from(ja_d32::new(m.simm32())),
        10 => Inst::from(js_d32::new(m.simm32())),
        11 => Inst::from(jns_d32::new(m.simm32())),
        12 => Inst::from(jp_d32::new(m.simm32())),
        13 => Inst::from(jnp_d32::new(m.simm32())),
        14 => Inst::from(jl_d32::new(m.simm32())),
        15 => Inst::from(jge_d32::new(m.simm32())),
        16 => Inst::from(jle_d32::new(m.simm32())),
        17 => Inst::from(jg_d32::new(m.simm32())),
        18 => Inst::from(jmp_d8::new(m.simm8())),
        19 => Inst::from(jo_d8::new(m.simm8())),
        20 => Inst::from(jno_d8::new(m.simm8())),
        21 => Inst::from(jb_d8::new(m.simm8())),
        22 => Inst::from(jae_d8::new(m.simm8())),
        23 => Inst::from(je_d8::new(m.simm8())),
        24 => Inst::from(jne_d8::new(m.simm8())),
        25 => Inst::from(jbe_d8::new(m.simm8())),
        26 => Inst::from(ja_d8::new(m.simm8())),
        27 => Inst::from(js_d8::new(m.simm8())),
        28 => Inst::from(jns_d8::new(m.simm8())),
        29 => Inst::from(jp_d8::new(m.simm8())),
        30 => Inst::from(jnp_d8::new(m.simm8())),
        31 => Inst::from(jl_d8::new(m.simm8())),
        32 => Inst::from(jge_d8::new(m.simm8())),
        33 => Inst::from(jle_d8::new(m.simm8())),
        34 => Inst::from(jg_d8::new(m.simm8())),
        35 => Inst::callq_m(callq_m::new(m.gpr_mem())),
        _ => Inst::jmpq_m(jmpq_m::new(m.gpr_mem())),
    }
}
