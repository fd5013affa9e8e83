//! A merge: the live rows of several segments as one new segment, and the rows of it that died since.
#![tactic(auto)]

mod carrying;
mod joining;
mod merging;
mod task;

pub use carrying::carry;
pub use merging::merge;
pub use seg_build::{Prepared, SegFiles, Segment, build, first_record, read_back, segment_id};
pub use task::{MergeTask, Merged, RowFrom};
