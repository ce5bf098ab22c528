//! Worked rows of the core, of its reader, its texts and its place in a code buffer, each by hand, and each of its calls once.
#![tactic(auto)]

#[cfg(test)]
mod asked;
#[cfg(test)]
mod buffer;
#[cfg(test)]
mod compared;
#[cfg(test)]
mod compiled;
#[cfg(test)]
mod made;
#[cfg(test)]
mod nops;
pub mod reader;
#[cfg(test)]
mod refused;
#[cfg(test)]
mod renamed;
#[cfg(test)]
mod rows;
#[cfg(test)]
mod text;
#[cfg(test)]
mod uses;
#[cfg(test)]
mod words;
