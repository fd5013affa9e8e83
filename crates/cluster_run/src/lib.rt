//! Scripts, run over a cluster on disks in memory by lanes in threads: each line in sections of the one lock, and its work between them. It
//! is all that the program sees of the cluster, and it knows no text.
#![tactic(auto)]

mod crossing;
pub mod runner;
pub mod script;

pub use cluster_site::{Cluster, Gate, Place, Site};
pub use runner::ClusterLines;
pub use script::{let_go, run_script};
