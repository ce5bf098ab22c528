//! Worked texts of the core, each by hand.

mod growths;
mod texts;
mod words;
