//! The book of commits.

use crate::states::{Begun, Commit, Named, Pending, Renamed, Synced, Written};

/// A commit in flight, in one of its states.
#[derive(Drop)]
pub enum Stage {
    Begun(Begun),
    Synced(Synced),
    Written(Written),
    Pending(Pending),
    Named(Named),
    Renamed(Renamed),
}

/// Where a call leads that is not refused.
#[derive(Drop)]
pub enum Progress {
    /// The commit is still in flight.
    Going(Stage),
    /// The commit is made.
    Made(Commit),
}

/// The commits of a node: the last one, the one in flight, and the number of the next one.
#[derive(Drop)]
pub struct CommitBook {
    pub last: Option<Commit>,
    pub stage: Option<Stage>,
    pub next: u64,
}
