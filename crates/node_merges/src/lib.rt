//! Merges, in the terms of nodes and of their places: started, written, copied to replicas and cut over.
#![tactic(auto)]

mod copies;
mod merges;

pub use cluster_nodes::{read_in, share_state};
pub use copies::{
    CopyStep, drop_copy, drop_in, runs_in, send_in, settle_in, step_in, take_merged_in,
};
pub use merges::{ask_in, cut_in, ready_in, sizes_in};
