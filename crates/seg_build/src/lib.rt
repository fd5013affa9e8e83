//! A segment that is built: its files, from rows and the marks of those that are dead.
#![tactic(auto)]

mod building;
mod contents;
mod files;
mod joining;
mod reading;
mod rows;

pub use building::build;
pub use files::{SegFiles, first_record};
pub use joining::build_joined;
pub use postings_plain::Joined;
pub use reading::read_back;
pub use rows::Prepared;
pub use seg_reader::{LiveBits, Segment, segment_id};
