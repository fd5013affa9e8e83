//! What the program reads and writes: sources, sinks, and the two in memory.
#![tactic(auto)]

mod arg;
mod memory_streams;
mod stream;

pub use arg::Arg;
pub use memory_streams::{MemSink, MemSource};
pub use stream::{Failed, Sink, Source};
