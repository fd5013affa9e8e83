//! A primary: what it is made of, what is true of it, and its calls. They are one crate, since the methods of a type stand in
//! the crate of the type.
#![tactic(auto)]

mod commits;
mod copies;
mod merge_cuts;
mod merge_ends;
mod merge_files;
mod merge_starts;
mod opens;
mod parts;
mod primary;
mod publish_ends;
mod publish_starts;
mod ready;
mod states;
mod tickets;
mod waiting;
mod write;

pub use parts::{PrimaryFault, PrimaryParts, Publish, PublishFault};
pub use primary::Primary;
pub use searcher_switch::{Lease, Ticket};
pub use segment_steps::{FlushTask, FlushWork, MergeTask, Merged, NextSegments, flush};
pub use states::{Merging, Out};
