//! The back end in small of `client`, at work: `docs/BACK_END.md` goes through it.
#![tactic(auto)]

#[cfg(test)]
mod by_hand;
#[cfg(test)]
mod classes;
#[cfg(test)]
mod counted_loop;
#[cfg(test)]
mod errors;
#[cfg(test)]
mod examples;
#[cfg(test)]
mod makers;
#[cfg(test)]
mod reserved;
#[cfg(test)]
mod rounds;
