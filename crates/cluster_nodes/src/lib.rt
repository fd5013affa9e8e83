//! The nodes of a cluster in their places, and what is done to them there.
#![tactic(auto)]

mod commits;
mod ends;
mod failed;
mod faults;
mod held;
mod jobs;
mod lists;
mod lives;
mod nodes;
mod promoting;
mod readers;
mod states;
mod tasks;
mod tickets;
mod transfers;
mod went;

pub use commits::{begin_commit_in, committing_in, step_commit_in};
pub use ends::{stop_jobs, take_back};
pub use failed::{is_dir_failed, is_failed};
pub use faults::{plan_in, stop_in};
pub use held::HeldKey;
pub use index_primary::{FlushTask, FlushWork, Primary, PublishFault};
pub use lists::names_in;
pub use lives::{crash_in, dir_in, reopen_in};
pub use nodes::{Node, NodePlace, primary_in, put, take};
pub use promoting::promote_in;
pub use readers::readers_in;
pub use replica_node::laws::{copy_runs, files_last, sourced_stands};
pub use replica_node::{NodeParts, Replica};
pub use states::{lacks, next_file, share_state};
pub use tasks::{CommitTask, CopyTask, FileTask, SettleTask};
pub use tickets::{give_ticket_back, hold_ticket, lease_in};
pub use transfers::{
    begin_in, finish_in, next_in, read_for_in, read_in, stop_job_in, take_in, take_primary,
    take_replica,
};
pub use went::Went;
