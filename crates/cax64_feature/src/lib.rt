//! Features of processors, and which of them an instruction asks for.
#![tactic(auto)]

pub mod available;
pub mod feature;
pub mod features;
pub mod rows;

pub use available::AvailableFeatures;
pub use feature::Feature;
pub use features::Features;
