//! What tests need: registers that aren't plain numbers, a sink that refuses after so many calls, one that keeps the names
//! of its calls, a heap that refuses memory, runs in such heaps, and an instruction of a user's own.
#![tactic(auto)]

pub mod call_recorder;
pub mod families;
pub mod filler;
pub mod growth;
pub mod heap;
pub mod refusing_sink;

pub use call_recorder::CallRecorder;
pub use families::{All, Few, Named, Virtual};
pub use filler::Filler;
pub use heap::TestHeap;
pub use refusing_sink::RefusingSink;
