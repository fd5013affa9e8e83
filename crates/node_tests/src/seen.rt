//! What a test knows of its primary.

use nrt_base::List;
use seg_merge::MergeTask;

/// The numbers of a primary, and the merges that it gave out, the oldest first. The oldest alone is made ready, and before another
/// one it is cut over.
#[derive(Drop)]
pub struct Seen {
    pub accepted: u32,
    pub version: u64,
    pub ready: Option<MergeTask>,
    pub merges: List<MergeTask>,
}
