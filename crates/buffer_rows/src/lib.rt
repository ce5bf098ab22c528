//! The code buffer, at worked examples and where memory runs out, and the texts of its errors.
#![tactic(auto)]

#[cfg(test)]
mod checked;
#[cfg(test)]
mod examples;
#[cfg(test)]
mod filling;
#[cfg(test)]
mod growths;
#[cfg(test)]
mod jumps;
#[cfg(test)]
mod making;
#[cfg(test)]
mod messages;
#[cfg(test)]
mod reuse;
#[cfg(test)]
mod small_heaps;
