//! Opening a node on a directory: which point the directory shows, what reads its segments, and what is known of its files. The
//! readers of a newer point, too.
#![tactic(auto)]

mod clearing;
mod fault;
mod known;
mod opening;
mod reading;
mod sharing;

pub use commit_steps::CommitBook;
pub use fault::StartFault;
pub use known::Known;
pub use opening::{Opened, open, open_empty};
pub use reading::{LoadFault, SegmentRead, read_segment};
pub use searcher_switch::Searchers;
pub use seg_reader::Segment;
pub use sharing::readers_of;
