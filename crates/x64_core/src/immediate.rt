//! Immediates by their types.

ghost use Rattle.std.specs.Prelude.{◌≡◌, ◌^◌, ℤ, Some, option_map, pos, nat_lt, true};
ghost use Rattle.cax64_encoder.specs.ImmActions.{imm_named};
ghost use Rattle.cax64_machine_code.specs.Line.{imm_bytes};
ghost use Rattle.cax64_operand.specs.Immediate.{imm_value};
ghost use Rattle.x64_lines.specs.Shape.{imm_field};
ghost use Rattle.x64_lines.specs.declared.shapes.OpImm.{OpImm};
ghost use Rattle.x64_lines.specs.declared.shapes.OpImm.TheVariants.{U8, U16, U32, I8, I32};

/// The type of an immediate. It has its kind's range, so that an immediate of another can't be given.
pub trait CoreImm: Copy {
    // Which lines take it.
    ghost kind: { OpImm };

    ghost value: { Self → ℤ };

    /// Its bytes as one word, the first one the lowest.
    fn word(self) -> u32
        ensures fits { nat_lt result (256 ^ imm_bytes (imm_field kind)) ≡ true }
        ensures value { option_map imm_value (imm_named (imm_field kind) result) ≡ Some (value self) };
}

impl CoreImm for u8 {
    ghost kind = { U8 };

    ghost value = { λ v. pos v };

    #[inline(always)]
    fn word(self) -> u32 {
        u32::from(self)
    }
}

impl CoreImm for u16 {
    ghost kind = { U16 };

    ghost value = { λ v. pos v };

    #[inline(always)]
    fn word(self) -> u32 {
        u32::from(self)
    }
}

impl CoreImm for u32 {
    ghost kind = { U32 };

    ghost value = { λ v. pos v };

    #[inline(always)]
    fn word(self) -> u32 {
        self
    }
}

impl CoreImm for i8 {
    ghost kind = { I8 };

    ghost value = { λ v. v };

    #[inline(always)]
    fn word(self) -> u32 {
        u32::from(self.cast_unsigned())
    }
}

impl CoreImm for i32 {
    ghost kind = { I32 };

    ghost value = { λ v. v };

    #[inline(always)]
    fn word(self) -> u32 {
        self.cast_unsigned()
    }
}
