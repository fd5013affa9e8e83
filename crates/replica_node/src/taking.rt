//! The parts of a node that becomes another.

use file_deleter::FileDeleter;
use nrt_base::List;
use replica_opening::{CommitBook, Searchers, Segment};
use segment_infos::Infos;

/// What a node is made of beside its jobs: its directory, the counts of its files, the point that it searches with the open
/// tickets, its commits, and the infos of the point with its segments once more.
#[derive(Drop)]
pub struct NodeParts<D> {
    pub dir: D,
    pub files: FileDeleter,
    pub searchers: Searchers<Segment>,
    pub commits: CommitBook,
    pub infos: Infos,
    pub segs: List<Segment>,
}
