//! Which features there are.

ghost use Rattle.std.specs.Prelude.{◌≡◌, Bool};
ghost use Rattle.cax64_feature.specs.declared.feature.Feature.{Feature};
ghost use Rattle.cax64_feature.specs.declared.feature.Feature.TheVariants as feature;

use crate::feature::Feature;

/// What a processor has: an answer for each feature.
pub trait AvailableFeatures {
    ghost has: { Self → Feature → Bool };

    fn _64b(&self) -> bool
        ensures { result ≡ has self.now feature._64b };

    fn compat(&self) -> bool
        ensures { result ≡ has self.now feature.compat };

    fn sse(&self) -> bool
        ensures { result ≡ has self.now feature.sse };

    fn sse2(&self) -> bool
        ensures { result ≡ has self.now feature.sse2 };

    fn avx(&self) -> bool
        ensures { result ≡ has self.now feature.avx };

    fn bmi2(&self) -> bool
        ensures { result ≡ has self.now feature.bmi2 };

    fn cmpxchg16b(&self) -> bool
        ensures { result ≡ has self.now feature.cmpxchg16b };

    /// The answer for one feature.
    final fn has_feature(&self, feature: Feature) -> bool
        ensures { result ≡ has self.now feature }
    {
        match feature {
            Feature::_64b => self._64b(),
            Feature::compat => self.compat(),
            Feature::sse => self.sse(),
            Feature::sse2 => self.sse2(),
            Feature::avx => self.avx(),
            Feature::bmi2 => self.bmi2(),
            Feature::cmpxchg16b => self.cmpxchg16b(),
        }
    }
}
