//! Worked rows of reading the core, each by hand.

#[cfg(test)]
mod every_line;
pub mod given;
pub mod put_and_read;
#[cfg(test)]
mod read_back;
#[cfg(test)]
mod refused;
#[cfg(test)]
mod words;
