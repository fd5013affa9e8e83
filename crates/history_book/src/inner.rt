//! Entries of inner work, which are not printed, and the one list in which they stand among the printed ones.

ghost use Rattle.std.specs.Prelude.{◌≡◌};
ghost use Rattle.history_book.specs.Jobs.{job_step};
ghost use Rattle.history_book.specs.Log.{stop_for};

use bytes::Bytes;
use file_names::FileName;
use history_rules::Entry;
use history_tables::{Job, JobStep};
use link_model::Fate;
use nrt_base::{At, LineNo, List, NodeNo, SegNo, Version};
use seg_reader::Segment;

/// A step of a merge.
#[derive(Clone, Copy, Debug, PartialEq, Eq)]
pub enum Step {
    Merge,
    /// A copy of the merged files to this node, which has this number.
    PreCopy(NodeNo, u64),
    Cut,
}

/// An entry of inner work.
#[derive(Debug, Drop)]
pub enum Inner {
    /// A publish of the line was handed out, into this segment if it has a put, with the older segments.
    FlushOut {
        at: At,
        seg: Option<SegNo>,
        segs: List<Segment>,
    },
    /// That publish has ended.
    FlushEnd {
        at: At,
    },
    /// A merge into this segment was handed out, with its inputs as they were, and the sizes of all segments, of which it was chosen.
    MergeOut {
        line: LineNo,
        seg: SegNo,
        inputs: List<Segment>,
        sizes: List<Option<u32>>,
    },
    /// That merge has ended, cut over or not.
    MergeEnd {
        seg: SegNo,
        cut: bool,
    },
    /// A job of a copy or a settle began, or with no version that of a merge.
    JobBegun {
        line: LineNo,
        node: NodeNo,
        job: u64,
        version: Option<Version>,
        by: Option<At>,
    },
    /// A file was handed out to that job, with the bytes of its source and what becomes of it.
    FileOut {
        line: LineNo,
        node: NodeNo,
        job: u64,
        name: FileName,
        source: Bytes,
        fate: Fate,
        by: Option<At>,
    },
    /// That job has ended.
    JobEnd {
        line: LineNo,
        node: NodeNo,
        job: u64,
    },
    /// A task was taken, by a drain line or by none.
    TaskOut {
        line: LineNo,
        seg: SegNo,
        by: Option<At>,
        step: Step,
    },
    /// That task has ended, and counts for its drain line or not.
    TaskEnd {
        line: LineNo,
        seg: SegNo,
        by: Option<At>,
        step: Step,
        counts: bool,
    },
}

/// What stands next in the list: a printed entry, one that is a fault of a merge's task, or one of inner work.
#[derive(Clone, Copy, Debug, PartialEq, Eq)]
pub enum Stop {
    Printed,
    Task,
    Inner,
}

/// An entry of the one list.
#[derive(Debug, Drop)]
pub enum Mark {
    Shown(Entry),
    /// A fault of a merge's task.
    TaskFault(Entry),
    Kept(Inner),
}

/// How a printed entry stands in the list.
pub fn stop_for(by_task: bool) -> Stop
    ensures { result ≡ stop_for by_task }
{
    if by_task { Stop::Task } else { Stop::Printed }
}

/// What an entry of inner work does to the jobs that copy points.
pub fn job_step(inner: &Inner) -> JobStep
    ensures { result ≡ job_step inner.now }
{
    match inner {
        Inner::JobBegun {
            node,
            job,
            version,
            by,
            ..
        } => match version {
            None => JobStep::Passes,
            Some(version) => match by {
                None => JobStep::Passes,
                Some(at) => JobStep::Begins(Job {
                    at: *at,
                    node: *node,
                    number: *job,
                    version: *version,
                }),
            },
        },
        Inner::JobEnd { line, node, job } => JobStep::Ends(*line, *node, *job),
        Inner::FlushOut { .. }
        | Inner::FlushEnd { .. }
        | Inner::MergeOut { .. }
        | Inner::MergeEnd { .. }
        | Inner::FileOut { .. }
        | Inner::TaskOut { .. }
        | Inner::TaskEnd { .. } => JobStep::Passes,
    }
}
