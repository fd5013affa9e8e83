//! A replica's parts.

use crate::job::PointJob;
use crate::merges::MergeCopies;
use file_deleter::FileDeleter;
use nrt_base::{Gen, List};
use replica_opening::{CommitBook, Known, Searchers, Segment};
use segment_infos::Infos;

/// What a replica has: its directory, the counts of its files, the point that it searches with the open tickets, its commits,
/// the infos of the point with its segments once more, the greatest generation seen, the number of its last job, the job of a
/// newer point, the copies of merged segments, and what is known of the files that it holds.
#[derive(Drop)]
pub struct ReplicaParts<D> {
    pub dir: D,
    pub files: FileDeleter,
    pub searchers: Searchers<Segment>,
    pub commits: CommitBook,
    pub infos: Infos,
    pub segs: List<Segment>,
    pub seen: Gen,
    pub jobs: u64,
    pub job: Option<PointJob>,
    pub copies: MergeCopies,
    pub known: Known,
}
