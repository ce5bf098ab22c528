//! Instructions of the core in a code buffer and in lists: worked functions, one of the port between them, faults, and where
//! memory runs out.

mod functions;
mod growths;
mod lists;
mod of_port;
mod refused;
mod words;
