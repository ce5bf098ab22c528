//! Jumps and calls.

use crate::values::Values;
// table/write.py: uses
use cranelift_assembler_x64::inst::{
    callq_d, callq_m, ja_d8, ja_d32, jae_d8, jae_d32, jb_d8, jb_d32, jbe_d8, jbe_d32, je_d8,
    je_d32, jg_d8, jg_d32, jge_d8, jge_d32, jl_d8, jl_d32, jle_d8, jle_d32, jmp_d8, jmp_d32,
    jmpq_m, jne_d8, jne_d32, jno_d8, jno_d32, jnp_d8, jnp_d32, jns_d8, jns_d32, jo_d8, jo_d32,
    jp_d8, jp_d32, js_d8, js_d32,
};
// table/write.py: end
use cranelift_assembler_x64::{Inst, Numbers};

pub(crate) fn jump(name: &str, v: &mut Values<'_>) -> Option<Inst<Numbers>> {
    match name {
        // table/write.py: jump
        "callq_m" => Some(Inst::callq_m(callq_m::new(v.gpr_mem("rm64")))),
        "jmpq_m" => Some(Inst::jmpq_m(jmpq_m::new(v.gpr_mem("rm64")))),
        "jmp_d8" => Some(Inst::from(jmp_d8::new(v.simm8("imm8")))),
        "jo_d8" => Some(Inst::from(jo_d8::new(v.simm8("imm8")))),
        "jno_d8" => Some(Inst::from(jno_d8::new(v.simm8("imm8")))),
        "jb_d8" => Some(Inst::from(jb_d8::new(v.simm8("imm8")))),
        "jae_d8" => Some(Inst::from(jae_d8::new(v.simm8("imm8")))),
        "je_d8" => Some(Inst::from(je_d8::new(v.simm8("imm8")))),
        "jne_d8" => Some(Inst::from(jne_d8::new(v.simm8("imm8")))),
        "jbe_d8" => Some(Inst::from(jbe_d8::new(v.simm8("imm8")))),
        "ja_d8" => Some(Inst::from(ja_d8::new(v.simm8("imm8")))),
        "js_d8" => Some(Inst::from(js_d8::new(v.simm8("imm8")))),
        "jns_d8" => Some(Inst::from(jns_d8::new(v.simm8("imm8")))),
        "jp_d8" => Some(Inst::from(jp_d8::new(v.simm8("imm8")))),
        "jnp_d8" => Some(Inst::from(jnp_d8::new(v.simm8("imm8")))),
        "jl_d8" => Some(Inst::from(jl_d8::new(v.simm8("imm8")))),
        "jge_d8" => Some(Inst::from(jge_d8::new(v.simm8("imm8")))),
        "jle_d8" => Some(Inst::from(jle_d8::new(v.simm8("imm8")))),
        "jg_d8" => Some(Inst::from(jg_d8::new(v.simm8("imm8")))),
        "callq_d" => Some(Inst::from(callq_d::new(v.simm32("imm32")))),
        "jmp_d32" => Some(Inst::from(jmp_d32::new(v.simm32("imm32")))),
        "jo_d32" => Some(Inst::from(jo_d32::new(v.simm32("imm32")))),
        "jno_d32" => Some(Inst::from(jno_d32::new(v.simm32("imm32")))),
        "jb_d32" => Some(Inst::from(jb_d32::new(v.simm32("imm32")))),
        "jae_d32" => Some(Inst::from(jae_d32::new(v.simm32("imm32")))),
        "je_d32" => Some(Inst::from(je_d32::new(v.simm32("imm32")))),
        "jne_d32" => Some(Inst::from(jne_d32::new(v.simm32("imm32")))),
        "jbe_d32" => Some(Inst::from(jbe_d32::new(v.simm32("imm32")))),
        "ja_d32" => Some(Inst::from(ja_d32::new(v.simm32("imm32")))),
        "js_d32" => Some(Inst::from(js_d32::new(v.simm32("imm32")))),
        "jns_d32" => Some(Inst::from(jns_d32::new(v.simm32("imm32")))),
        "jp_d32" => Some(Inst::from(jp_d32::new(v.simm32("imm32")))),
        "jnp_d32" => Some(Inst::from(jnp_d32::new(v.simm32("imm32")))),
        "jl_d32" => Some(Inst::from(jl_d32::new(v.simm32("imm32")))),
        "jge_d32" => Some(Inst::from(jge_d32::new(v.simm32("imm32")))),
        "jle_d32" => Some(Inst::from(jle_d32::new(v.simm32("imm32")))),
        "jg_d32" => Some(Inst::from(jg_d32::new(v.simm32("imm32")))),
        // table/write.py: end
        _ => None,
    }
}
