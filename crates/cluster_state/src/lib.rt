//! The state of a cluster, and which lines have their turn over it.
#![tactic(auto)]

mod cluster;
mod due;
mod lately;
mod laws;
mod met;
mod receivers;
mod refusals;
mod standing;
mod turn;

pub use cluster::ClusterState;
pub use cluster_nodes::{
    CommitTask, CopyTask, FileTask, Node, NodePlace, Replica, SettleTask, files_last,
};
pub use due::{comes_whole, show_due};
pub use lately::is_merge_line;
pub use laws::are_bytes;
pub use met::{
    are_planned, has_risen, kinds_in, met_before, node_kinds, note_met, show_met, show_task_met,
};
pub use receivers::replicas;
pub use refusals::{refuse, refuse_turn};
pub use standing::Standing;
pub use turn::Turn;
