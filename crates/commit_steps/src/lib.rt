//! The six disk calls of a commit as typed states, the book of a node's commits, and the recovery of the last one.
#![tactic(auto)]

mod advance;
mod book;
pub mod laws;
mod opening;
mod recovery;
mod stage;
mod states;
mod steps;

pub use disk_memory::MemDir;
pub use recovery::{RecoverFault, load_infos, newest_number, recover};
pub use stage::{CommitBook, Progress, Stage};
pub use states::{
    Begun, Commit, CommitFault, Done, Flight, Named, Pending, Renamed, Stopped, Synced, Written,
};
