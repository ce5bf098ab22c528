//! Terms of features.

ghost use Rattle.std.specs.Prelude.{◌≡◌, IfOk, Some};
ghost use Rattle.cax64_feature.specs.Term.{both, either, has, term_of, term_text, truth};

use crate::available::AvailableFeatures;
use crate::feature::Feature;
use std::alloc::{AllocError, Allocator, Global};
use std::fmt;

/// Features, joined by "and" and "or".
#[derive(Drop)]
pub enum Features<A: Allocator = Global> {
    And(Box<Features<A>, A>, Box<Features<A>, A>),
    Or(Box<Features<A>, A>, Box<Features<A>, A>),
    Feature(Feature),
}

impl<A: Allocator> Features<A> {
    /// Whether the term is true of a processor.
    pub fn is_available<F: AvailableFeatures>(&self, available: &F) -> bool
        ensures { result ≡ truth (F.has available.now) (term_of self.now) }
    {
        match self {
            Features::And(a, b) => a.is_available(available) && b.is_available(available),
            Features::Or(a, b) => a.is_available(available) || b.is_available(available),
            Features::Feature(feature) => available.has_feature(*feature),
        }
    }
}

impl<A: Allocator> fmt::Display for Features<A> {
    ghost output = { λ t. Some (term_text (term_of t)) };

    fn fmt<W: fmt::Write>(&self, f: &mut fmt::Formatter<W>) -> fmt::Result {
        match self {
            Features::And(a, b) => {
                f.write_str("(")?;
                (**a).fmt(f)?;
                f.write_str(" & ")?;
                (**b).fmt(f)?;
                f.write_str(")")
            }
            Features::Or(a, b) => {
                f.write_str("(")?;
                (**a).fmt(f)?;
                f.write_str(" | ")?;
                (**b).fmt(f)?;
                f.write_str(")")
            }
            Features::Feature(feature) => f.write_str(feature.name()),
        }
    }
}

/// Two terms of which both have to be true.
pub fn both<A: Allocator + Copy>(
    alloc: A,
    a: Features<A>,
    b: Features<A>,
) -> Result<Features<A>, AllocError>
    ensures { IfOk result (λ t. term_of t ≡ both (term_of a) (term_of b)) }
{
    Ok(Features::And(Box::new(alloc, a)?, Box::new(alloc, b)?))
}

/// Two terms of which one has to be true.
pub fn either<A: Allocator + Copy>(
    alloc: A,
    a: Features<A>,
    b: Features<A>,
) -> Result<Features<A>, AllocError>
    ensures { IfOk result (λ t. term_of t ≡ either (term_of a) (term_of b)) }
{
    Ok(Features::Or(Box::new(alloc, a)?, Box::new(alloc, b)?))
}
