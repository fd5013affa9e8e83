//! A segment that is read: its documents, its live rows and its postings; and what it is for a directory to stand for
//! documents.
#![tactic(auto)]

mod agreement;
mod id;
pub mod laws;
mod parts;
mod placing;
mod reading;
mod segment;

pub use id::segment_id;
pub use live_bits::{LiveBits, encode};
pub use parts::{SegFault, SegFile, SegParts};
pub use segment::Segment;
