//! Where memory runs out, or a writer refuses: each growth is refused in turn, until all is made; and what stands after a
//! refusal is a beginning. Beside them the README's example: a crate that holds an `Inst` costs the
//! prover much, and this one does.
#![tactic(auto)]

#[cfg(test)]
mod kinds;
#[cfg(test)]
mod lists;
#[cfg(test)]
mod process;
#[cfg(test)]
mod program;
#[cfg(test)]
mod puts;
#[cfg(test)]
mod readme;
#[cfg(test)]
mod texts;
#[cfg(test)]
mod writers;
