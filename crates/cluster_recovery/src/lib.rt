//! How a cluster starts, commits, falls, comes back and promotes. Each kind of path is a crate of its own, so that a change of one proves
//! no other again.
#![tactic(auto)]

mod commits;
mod dirs;
mod down;
mod falls;
mod faults;
mod line_commits;
mod line_lives;
mod lives;
mod promoting;
mod promotions;
mod starting;

pub use dirs::into_dir;
pub use faults::plan_fault;
pub use line_commits::{commit_start, commit_step};
pub use line_lives::{crash, reopen};
pub use promotions::promote;
pub use starting::start_cluster;
