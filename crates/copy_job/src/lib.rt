//! Copies of files from one node to another.
#![tactic(auto)]

mod copying;
mod fault;
mod job;
pub mod laws;
mod lookup;
mod part;
mod placing;
mod sorting;
mod takeover;

pub use copying::{Part, copy_file};
pub use fault::JobFault;
pub use job::CopyJob;
pub use part::{JobKind, JobPart};
