//! A replica: what it is made of, what is true of it, and its calls. They are one crate, since the methods of a type stand in
//! the crate of the type.
#![tactic(auto)]

mod advancing;
mod answer;
mod beginning;
mod commits;
mod ends;
mod finishing;
mod held;
mod job;
mod jobs;
mod launching;
pub mod laws;
mod merges;
mod overlapping;
mod parting;
mod parts;
mod precopy_arriving;
mod replica;
mod settling;
mod taking;
mod tickets;

pub use answer::PointAnswer;
pub use job::PointJob;
pub use parts::ReplicaParts;
pub use replica::{Refused, Replica};
pub use replica_opening::StartFault;
pub use taking::NodeParts;
