//! Lists in their least layout, at worked examples.
#![tactic(auto)]

#[cfg(test)]
mod core_list;
#[cfg(test)]
mod growths;
#[cfg(test)]
mod making;
#[cfg(test)]
mod refusals;
#[cfg(test)]
mod rows;
