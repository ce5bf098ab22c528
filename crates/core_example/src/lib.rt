//! Examples of the core, over its facade alone.
#![tactic(auto)]

#[cfg(test)]
mod function;
#[cfg(test)]
mod selector;
