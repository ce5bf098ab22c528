//! Jumps and calls.
#![tactic(auto)]
#![allow(non_camel_case_types)]

// table/write.py: modules
mod d32;
mod d8;
mod rm;

pub use d8::{
    ja_d8, jae_d8, jb_d8, jbe_d8, je_d8, jg_d8, jge_d8, jl_d8, jle_d8, jmp_d8, jne_d8, jno_d8,
    jnp_d8, jns_d8, jo_d8, jp_d8, js_d8,
};
pub use d32::{
    callq_d, ja_d32, jae_d32, jb_d32, jbe_d32, je_d32, jg_d32, jge_d32, jl_d32, jle_d32, jmp_d32,
    jne_d32, jno_d32, jnp_d32, jns_d32, jo_d32, jp_d32, js_d32,
};
pub use rm::{callq_m, jmpq_m};
// table/write.py: end
