//! What a processor may have.
#![allow(non_camel_case_types)]

ghost use Rattle.std.specs.Prelude.{◌≡◌};
ghost use Rattle.cax64_feature.specs.Term.{feature_name};

/// A mode or an extension of a processor that an instruction may ask for.
#[derive(Clone, Copy, Debug, PartialEq, Eq)]
pub enum Feature {
    /// 64-bit mode.
    _64b,
    /// Compatibility mode, and protected mode.
    compat,
    sse,
    sse2,
    avx,
    bmi2,
    cmpxchg16b,
}

impl Feature {
    /// The variant's name.
    pub fn name(&self) -> &'static str
        ensures { result.now ≡ feature_name self.now }
    {
        match self {
            Feature::_64b => "_64b",
            Feature::compat => "compat",
            Feature::sse => "sse",
            Feature::sse2 => "sse2",
            Feature::avx => "avx",
            Feature::bmi2 => "bmi2",
            Feature::cmpxchg16b => "cmpxchg16b",
        }
    }
}
