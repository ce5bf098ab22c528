//! What has to be Rust of the worked rows: calls that need a type of their own, and each generic function at a concrete
//! type. The rows themselves are lines of the files that `vectors` reads.
#![tactic(auto)]

#[cfg(test)]
mod addresses;
#[cfg(test)]
mod checked;
#[cfg(test)]
mod families;
#[cfg(test)]
mod fixed_sinks;
#[cfg(test)]
mod lines;
#[cfg(test)]
mod makers;
#[cfg(test)]
mod messages;
#[cfg(test)]
mod patched;
#[cfg(test)]
mod registers;
#[cfg(test)]
mod reused_sinks;
#[cfg(test)]
mod rows;
#[cfg(test)]
mod shifts;
#[cfg(test)]
mod signatures;
#[cfg(test)]
mod sinks;
#[cfg(test)]
mod table;
#[cfg(test)]
mod visits;
#[cfg(test)]
mod words;
#[cfg(test)]
mod wrapped;
