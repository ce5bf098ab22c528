//! Worked rows of texts, mnemonics and features, and each growth of a text refused in turn.
#![tactic(auto)]

#[cfg(test)]
mod addresses;
#[cfg(test)]
mod features;
#[cfg(test)]
mod growth;
#[cfg(test)]
mod immediates;
#[cfg(test)]
mod instructions;
#[cfg(test)]
mod lists;
#[cfg(test)]
mod numbers;
#[cfg(test)]
mod order;
#[cfg(test)]
mod parts;
#[cfg(test)]
mod refusals;
#[cfg(test)]
mod xed;
