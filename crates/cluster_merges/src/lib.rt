//! Merges of a cluster: their tasks, from the start to the cut-over. Each kind of path is a crate of its own, so that a change of one
//! proves no other again.
#![tactic(auto)]

mod cuts;
mod drains;
mod line_drains;
mod met;
mod precopies;
mod starts;
mod takes;
mod tasks;
mod writes;

pub use line_drains::{counted, drained};
pub use tasks::{merge_cut, merge_ready, merge_start, precopy_arrived, precopy_next, task_take};
