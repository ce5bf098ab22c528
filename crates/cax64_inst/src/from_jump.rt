// Written by table/write.py from table/instructions.txt.
//! Each of these instructions as one of all.

ghost use Rattle.std.specs.Prelude.{◌≡◌};
ghost use Rattle.cax64_inst.specs.declared.Inst.TheVariants as inst;

use crate::Inst;
use cax64_register::Registers;
use jump::{
    callq_d, callq_m, ja_d8, ja_d32, jae_d8, jae_d32, jb_d8, jb_d32, jbe_d8, jbe_d32, je_d8,
    je_d32, jg_d8, jg_d32, jge_d8, jge_d32, jl_d8, jl_d32, jle_d8, jle_d32, jmp_d8, jmp_d32,
    jmpq_m, jne_d8, jne_d32, jno_d8, jno_d32, jnp_d8, jnp_d32, jns_d8, jns_d32, jo_d8, jo_d32,
    jp_d8, jp_d32, js_d8, js_d32,
};

impl<R: Registers> From<callq_m<R>> for Inst<R> {
    ghost from_gives = { λ i result. result ≡ inst.callq_m i };

    fn from(i: callq_m<R>) -> Inst<R> {
        Inst::callq_m(i)
    }
}

impl<R: Registers> From<jmpq_m<R>> for Inst<R> {
    ghost from_gives = { λ i result. result ≡ inst.jmpq_m i };

    fn from(i: jmpq_m<R>) -> Inst<R> {
        Inst::jmpq_m(i)
    }
}

impl<R: Registers> From<jmp_d8> for Inst<R> {
    ghost from_gives = { λ i result. result ≡ inst.jmp_d8 i };

    fn from(i: jmp_d8) -> Inst<R> {
        Inst::jmp_d8(i)
    }
}

impl<R: Registers> From<jo_d8> for Inst<R> {
    ghost from_gives = { λ i result. result ≡ inst.jo_d8 i };

    fn from(i: jo_d8) -> Inst<R> {
        Inst::jo_d8(i)
    }
}

impl<R: Registers> From<jno_d8> for Inst<R> {
    ghost from_gives = { λ i result. result ≡ inst.jno_d8 i };

    fn from(i: jno_d8) -> Inst<R> {
        Inst::jno_d8(i)
    }
}

impl<R: Registers> From<jb_d8> for Inst<R> {
    ghost from_gives = { λ i result. result ≡ inst.jb_d8 i };

    fn from(i: jb_d8) -> Inst<R> {
        Inst::jb_d8(i)
    }
}

impl<R: Registers> From<jae_d8> for Inst<R> {
    ghost from_gives = { λ i result. result ≡ inst.jae_d8 i };

    fn from(i: jae_d8) -> Inst<R> {
        Inst::jae_d8(i)
    }
}

impl<R: Registers> From<je_d8> for Inst<R> {
    ghost from_gives = { λ i result. result ≡ inst.je_d8 i };

    fn from(i: je_d8) -> Inst<R> {
        Inst::je_d8(i)
    }
}

impl<R: Registers> From<jne_d8> for Inst<R> {
    ghost from_gives = { λ i result. result ≡ inst.jne_d8 i };

    fn from(i: jne_d8) -> Inst<R> {
        Inst::jne_d8(i)
    }
}

impl<R: Registers> From<jbe_d8> for Inst<R> {
    ghost from_gives = { λ i result. result ≡ inst.jbe_d8 i };

    fn from(i: jbe_d8) -> Inst<R> {
        Inst::jbe_d8(i)
    }
}

impl<R: Registers> From<ja_d8> for Inst<R> {
    ghost from_gives = { λ i result. result ≡ inst.ja_d8 i };

    fn from(i: ja_d8) -> Inst<R> {
        Inst::ja_d8(i)
    }
}

impl<R: Registers> From<js_d8> for Inst<R> {
    ghost from_gives = { λ i result. result ≡ inst.js_d8 i };

    fn from(i: js_d8) -> Inst<R> {
        Inst::js_d8(i)
    }
}

impl<R: Registers> From<jns_d8> for Inst<R> {
    ghost from_gives = { λ i result. result ≡ inst.jns_d8 i };

    fn from(i: jns_d8) -> Inst<R> {
        Inst::jns_d8(i)
    }
}

impl<R: Registers> From<jp_d8> for Inst<R> {
    ghost from_gives = { λ i result. result ≡ inst.jp_d8 i };

    fn from(i: jp_d8) -> Inst<R> {
        Inst::jp_d8(i)
    }
}

impl<R: Registers> From<jnp_d8> for Inst<R> {
    ghost from_gives = { λ i result. result ≡ inst.jnp_d8 i };

    fn from(i: jnp_d8) -> Inst<R> {
        Inst::jnp_d8(i)
    }
}

impl<R: Registers> From<jl_d8> for Inst<R> {
    ghost from_gives = { λ i result. result ≡ inst.jl_d8 i };

    fn from(i: jl_d8) -> Inst<R> {
        Inst::jl_d8(i)
    }
}

impl<R: Registers> From<jge_d8> for Inst<R> {
    ghost from_gives = { λ i result. result ≡ inst.jge_d8 i };

    fn from(i: jge_d8) -> Inst<R> {
        Inst::jge_d8(i)
    }
}

impl<R: Registers> From<jle_d8> for Inst<R> {
    ghost from_gives = { λ i result. result ≡ inst.jle_d8 i };

    fn from(i: jle_d8) -> Inst<R> {
        Inst::jle_d8(i)
    }
}

impl<R: Registers> From<jg_d8> for Inst<R> {
    ghost from_gives = { λ i result. result ≡ inst.jg_d8 i };

    fn from(i: jg_d8) -> Inst<R> {
        Inst::jg_d8(i)
    }
}

impl<R: Registers> From<callq_d> for Inst<R> {
    ghost from_gives = { λ i result. result ≡ inst.callq_d i };

    fn from(i: callq_d) -> Inst<R> {
        Inst::callq_d(i)
    }
}

impl<R: Registers> From<jmp_d32> for Inst<R> {
    ghost from_gives = { λ i result. result ≡ inst.jmp_d32 i };

    fn from(i: jmp_d32) -> Inst<R> {
        Inst::jmp_d32(i)
    }
}

impl<R: Registers> From<jo_d32> for Inst<R> {
    ghost from_gives = { λ i result. result ≡ inst.jo_d32 i };

    fn from(i: jo_d32) -> Inst<R> {
        Inst::jo_d32(i)
    }
}

impl<R: Registers> From<jno_d32> for Inst<R> {
    ghost from_gives = { λ i result. result ≡ inst.jno_d32 i };

    fn from(i: jno_d32) -> Inst<R> {
        Inst::jno_d32(i)
    }
}

impl<R: Registers> From<jb_d32> for Inst<R> {
    ghost from_gives = { λ i result. result ≡ inst.jb_d32 i };

    fn from(i: jb_d32) -> Inst<R> {
        Inst::jb_d32(i)
    }
}

impl<R: Registers> From<jae_d32> for Inst<R> {
    ghost from_gives = { λ i result. result ≡ inst.jae_d32 i };

    fn from(i: jae_d32) -> Inst<R> {
        Inst::jae_d32(i)
    }
}

impl<R: Registers> From<je_d32> for Inst<R> {
    ghost from_gives = { λ i result. result ≡ inst.je_d32 i };

    fn from(i: je_d32) -> Inst<R> {
        Inst::je_d32(i)
    }
}

impl<R: Registers> From<jne_d32> for Inst<R> {
    ghost from_gives = { λ i result. result ≡ inst.jne_d32 i };

    fn from(i: jne_d32) -> Inst<R> {
        Inst::jne_d32(i)
    }
}

impl<R: Registers> From<jbe_d32> for Inst<R> {
    ghost from_gives = { λ i result. result ≡ inst.jbe_d32 i };

    fn from(i: jbe_d32) -> Inst<R> {
        Inst::jbe_d32(i)
    }
}

impl<R: Registers> From<ja_d32> for Inst<R> {
    ghost from_gives = { λ i result. result ≡ inst.ja_d32 i };

    fn from(i: ja_d32) -> Inst<R> {
        Inst::ja_d32(i)
    }
}

impl<R: Registers> From<js_d32> for Inst<R> {
    ghost from_gives = { λ i result. result ≡ inst.js_d32 i };

    fn from(i: js_d32) -> Inst<R> {
        Inst::js_d32(i)
    }
}

impl<R: Registers> From<jns_d32> for Inst<R> {
    ghost from_gives = { λ i result. result ≡ inst.jns_d32 i };

    fn from(i: jns_d32) -> Inst<R> {
        Inst::jns_d32(i)
    }
}

impl<R: Registers> From<jp_d32> for Inst<R> {
    ghost from_gives = { λ i result. result ≡ inst.jp_d32 i };

    fn from(i: jp_d32) -> Inst<R> {
        Inst::jp_d32(i)
    }
}

impl<R: Registers> From<jnp_d32> for Inst<R> {
    ghost from_gives = { λ i result. result ≡ inst.jnp_d32 i };

    fn from(i: jnp_d32) -> Inst<R> {
        Inst::jnp_d32(i)
    }
}

impl<R: Registers> From<jl_d32> for Inst<R> {
    ghost from_gives = { λ i result. result ≡ inst.jl_d32 i };

    fn from(i: jl_d32) -> Inst<R> {
        Inst::jl_d32(i)
    }
}

impl<R: Registers> From<jge_d32> for Inst<R> {
    ghost from_gives = { λ i result. result ≡ inst.jge_d32 i };

    fn from(i: jge_d32) -> Inst<R> {
        Inst::jge_d32(i)
    }
}

impl<R: Registers> From<jle_d32> for Inst<R> {
    ghost from_gives = { λ i result. result ≡ inst.jle_d32 i };

    fn from(i: jle_d32) -> Inst<R> {
        Inst::jle_d32(i)
    }
}

impl<R: Registers> From<jg_d32> for Inst<R> {
    ghost from_gives = { λ i result. result ≡ inst.jg_d32 i };

    fn from(i: jg_d32) -> Inst<R> {
        Inst::jg_d32(i)
    }
}
