//! A directory in memory, with planned faults and crashes.
#![tactic(auto)]

mod changed;
mod memory;
mod plans;
mod slot;
mod slots;
mod state;
mod table;

pub use memory::MemDir;
