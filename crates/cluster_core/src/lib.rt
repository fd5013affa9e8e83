//! All nodes of a cluster: one call for each step of a line, which tests the refusals of the line in their order and then does what
//! the line asks for.
#![tactic(auto)]

mod asks;
mod calls;
mod cluster;
mod copying;
mod lasting;
mod merging;
mod planning;
mod promoting;
mod shared;

pub use cluster::Cluster;
pub use cluster_state::Turn;
