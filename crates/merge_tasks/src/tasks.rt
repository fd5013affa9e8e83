//! Tasks, and merges in flight.

ghost use Rattle.std.specs.Prelude.{◌≡◌};
ghost use Rattle.merge_tasks.specs.Board.{step_of};

use copy_state::CopyState;
use history_book::Step;
use nrt_base::{At, LineNo, List, NodeNo, SegNo};
use seg_merge::MergeTask;

/// What a task asks for.
#[derive(Debug, Drop)]
pub enum TaskKind {
    /// To build the merged segment.
    Merge(MergeTask),
    /// To copy its files to this node, by the copy that has this number there.
    PreCopy(NodeNo, u64),
    /// To cut it over.
    Cut,
}

/// A task that is posted, of the merge of this line into this segment.
#[derive(Debug, Drop)]
pub struct Posted {
    pub seg: SegNo,
    pub line: LineNo,
    pub kind: TaskKind,
}

/// A task that was taken, by a drain line or by none.
#[derive(Debug, Drop)]
pub struct Task {
    pub line: LineNo,
    pub seg: SegNo,
    pub by: Option<At>,
    pub kind: TaskKind,
}

/// A copy of a merged segment to a node, by its number there.
#[derive(Clone, Copy, Debug, PartialEq, Eq)]
pub struct Sent {
    pub node: NodeNo,
    pub job: u64,
}

/// A merge whose files are written: the copy state that names them, which is out, and the copies that have not ended.
#[derive(Debug, Drop)]
pub struct Spread {
    pub state: CopyState,
    pub left: List<Sent>,
    /// Whether a copy to each replica has begun.
    pub all: bool,
}

/// A merge in flight: the segment that it makes, its line, and once its files are written its copies.
#[derive(Debug, Drop)]
pub struct OpenMerge {
    pub seg: SegNo,
    pub line: LineNo,
    pub spread: Option<Spread>,
}

/// The step of a merge that a task is.
pub fn step_of(kind: &TaskKind) -> Step
    ensures { result ≡ step_of kind.now }
{
    match kind {
        TaskKind::Merge(_) => Step::Merge,
        TaskKind::PreCopy(n, job) => Step::PreCopy(*n, *job),
        TaskKind::Cut => Step::Cut,
    }
}
