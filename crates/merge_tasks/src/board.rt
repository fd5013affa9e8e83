//! The tasks that are posted, and the merges in flight.

ghost use Rattle.std.specs.Prelude.{◌≡◌, ◌≢◌, ◌+◌, ◌∷◌, ◌++◌, [], true, false, None, Some, IsSome, OnOk, MatchOption};
ghost use Rattle.std.specs.Option.{option_map};
ghost use Rattle.merge_tasks.specs.Board.{open_merge, spread_at, with_spread, without_merge, has_copy_task, is_unwritten, is_copied, sent_left, sent_more, all_sent, sent_less, posts_of, post_after, posted_merge, done_under, counts_one, without_count};

use crate::drains::{DrainCount, count_one, done_in, forget};
use crate::rows::{is_among, leave_out, leave_sent, merge_in, set_spread, take_spread};
use crate::tasks::{OpenMerge, Posted, Sent, Spread, TaskKind};
use copy_state::CopyState;
use nrt_base::{At, LineNo, List, NoMemory, NodeNo, SegNo};
use seg_merge::MergeTask;
use std::alloc::Global;
use std::marker::Model;

/// The tasks that are posted, the first in first, and the merges in flight.
#[derive(Debug, Drop)]
pub struct Tasks {
    posted: Vec<Posted>,
    rows: Vec<OpenMerge>,
    counts: Vec<DrainCount>,
}

impl Model for Tasks {
    ghost use Rattle.merge_tasks.specs.Board.{Board};

    ghost Value = { Board };

    ghost view = { λ t. record { posted = t.posted.items; rows = t.rows.items; counts = t.counts.items } };
}

// Posts a task for each copy, in their order.
fn post_copies(
    posted: &mut Vec<Posted>,
    seg: SegNo,
    line: LineNo,
    sent: &[Sent],
) -> Result<(), NoMemory>
    ensures { OnOk result (posted.new.items ≡ posted.old.items ++ posts_of seg line sent.now) }
{
    for s in sent {
        let kind = TaskKind::PreCopy(s.node, s.job);
        posted.push(Posted { seg, line, kind })?;
    }
    Ok(())
}

// Posts the task to cut a merge over, where no copy is left.
fn post_cut(
    posted: &mut Vec<Posted>,
    seg: SegNo,
    line: LineNo,
    left: &[Sent],
) -> Result<(), NoMemory>
    ensures { OnOk result (posted.new.items ≡ posted.old.items ++ post_after seg line left.now) }
{
    if left.is_empty() {
        let kind = TaskKind::Cut;
        posted.push(Posted { seg, line, kind })?;
    }
    Ok(())
}

impl Tasks {
    /// No merge is in flight, and nothing is posted.
    pub fn new(alloc: Global) -> Self
        ensures posted { result.posted ≡ [] }
        ensures rows { result.rows ≡ [] }
        ensures counts { result.counts ≡ [] }
    {
        Tasks {
            posted: Vec::new(alloc),
            rows: Vec::new(alloc),
            counts: Vec::new(alloc),
        }
    }

    /// Whether no task is posted.
    pub fn is_idle(&self) -> bool
        ensures idle { result ≡ true → self.now.posted ≡ [] }
        ensures busy { self.now.posted ≡ [] → result ≡ true }
    {
        self.posted.is_empty()
    }

    /// A merge starts, and the task to build its segment is posted.
    pub fn begin(&mut self, seg: SegNo, line: LineNo, task: MergeTask) -> Result<(), NoMemory>
        ensures rows { OnOk result (self.new.rows ≡ self.old.rows
            ++ record { seg = seg; line = line; spread = None } ∷ []) }
        ensures posted { OnOk result (self.new.posted ≡ self.old.posted
            ++ posted_merge seg line task ∷ []) }
        ensures counts { self.new.counts ≡ self.old.counts }
    {
        self.rows.push(OpenMerge {
            seg,
            line,
            spread: None,
        })?;
        self.posted.push(Posted {
            seg,
            line,
            kind: TaskKind::Merge(task),
        })?;
        Ok(())
    }

    /// Takes the task that was posted first.
    pub fn take(&mut self) -> Option<Posted>
        ensures first { MatchOption result (self.old.posted ≡ [])
            (λ p. self.old.posted ≡ p ∷ self.new.posted) }
        ensures none { result ≡ None → self.new.posted ≡ self.old.posted }
        ensures rows { self.new.rows ≡ self.old.rows }
        ensures counts { self.new.counts ≡ self.old.counts }
    {
        if self.posted.is_empty() {
            return None;
        }
        Some(self.posted.remove(0))
    }

    /// Whether a merge is in flight into a segment, of which no file is written.
    pub fn is_unwritten(&self, seg: SegNo) -> bool
        ensures { result ≡ is_unwritten (open_merge seg.0 self.now.rows) }
    {
        match merge_in(self.rows.as_slice(), seg) {
            None => false,
            Some(row) => row.spread.is_none(),
        }
    }

    /// Whether all copies of a merged segment have begun, and the one to a node has not ended.
    pub fn has_copy_task(&self, seg: SegNo, n: NodeNo, job: u64) -> bool
        ensures { result ≡ has_copy_task n.0 job (spread_at (open_merge seg.0 self.now.rows)) }
    {
        match merge_in(self.rows.as_slice(), seg) {
            None => false,
            Some(row) => match &row.spread {
                None => false,
                Some(spread) => spread.all && is_among(spread.left.as_slice(), n, job),
            },
        }
    }

    /// Whether a merge is in flight whose files are written, and whose copies have all begun and ended.
    pub fn is_copied(&self, seg: SegNo) -> bool
        ensures { result ≡ is_copied (spread_at (open_merge seg.0 self.now.rows)) }
    {
        match merge_in(self.rows.as_slice(), seg) {
            None => false,
            Some(row) => match &row.spread {
                None => false,
                Some(spread) => spread.all && spread.left.as_slice().is_empty(),
            },
        }
    }

    /// The files of a merge are written, as this copy state says, and no copy of them has begun.
    pub fn write(&mut self, alloc: Global, seg: SegNo, state: CopyState)
        requires { open_merge seg.0 self.old.rows ≢ None }
        ensures rows { self.new.rows ≡ with_spread seg.0
            (Some (record { state = state; left = []; all = false })) self.old.rows }
        ensures posted { self.new.posted ≡ self.old.posted }
        ensures counts { self.new.counts ≡ self.old.counts }
    {
        let left = List::new(alloc);
        let all = false;
        set_spread(&mut self.rows, seg, Some(Spread { state, left, all }));
    }

    /// The copy state of a merge whose files are written.
    pub fn state(&self, seg: SegNo) -> Option<&CopyState>
        ensures { option_map (λ s. s.now) result
            ≡ option_map (λ s. s.state) (spread_at (open_merge seg.0 self.now.rows)) }
    {
        match merge_in(self.rows.as_slice(), seg) {
            None => None,
            Some(row) => match &row.spread {
                None => None,
                Some(spread) => Some(&spread.state),
            },
        }
    }

    /// A copy of a merged segment to a node has begun.
    pub fn send(&mut self, seg: SegNo, node: NodeNo, job: u64) -> Result<(), NoMemory>
        requires { IsSome (spread_at (open_merge seg.0 self.old.rows)) }
        ensures rows { OnOk result (self.new.rows ≡ with_spread seg.0
            (sent_more node job (spread_at (open_merge seg.0 self.old.rows))) self.old.rows) }
        ensures posted { self.new.posted ≡ self.old.posted }
        ensures counts { self.new.counts ≡ self.old.counts }
    {
        let Some(spread) = take_spread(&mut self.rows, seg) else {
            unreachable!()
        };
        let Spread { state, left, all } = spread;
        let mut left = left;
        left.push(Sent { node, job })?;
        set_spread(&mut self.rows, seg, Some(Spread { state, left, all }));
        Ok(())
    }

    /// A copy to each replica has begun: a task is posted for each, or, where there is none, the one to cut over.
    pub fn post(&mut self, seg: SegNo, line: LineNo) -> Result<(), NoMemory>
        requires { IsSome (spread_at (open_merge seg.0 self.old.rows)) }
        ensures rows { OnOk result (self.new.rows ≡ with_spread seg.0
            (all_sent (spread_at (open_merge seg.0 self.old.rows))) self.old.rows) }
        ensures posted { OnOk result (self.new.posted ≡ (self.old.posted
            ++ posts_of seg line (sent_left (spread_at (open_merge seg.0 self.old.rows))))
            ++ post_after seg line (sent_left (spread_at (open_merge seg.0 self.old.rows)))) }
        ensures counts { self.new.counts ≡ self.old.counts }
    {
        let Some(spread) = take_spread(&mut self.rows, seg) else {
            unreachable!()
        };
        let Spread { state, left, .. } = spread;
        post_copies(&mut self.posted, seg, line, left.as_slice())?;
        post_cut(&mut self.posted, seg, line, left.as_slice())?;
        let all = true;
        set_spread(&mut self.rows, seg, Some(Spread { state, left, all }));
        Ok(())
    }

    /// A copy of a merged segment has ended. Once all have, the task to cut over is posted.
    pub fn settle(&mut self, seg: SegNo, line: LineNo, n: NodeNo, job: u64) -> Result<(), NoMemory>
        requires { IsSome (spread_at (open_merge seg.0 self.old.rows)) }
        ensures rows { OnOk result (self.new.rows
            ≡ with_spread seg.0 (sent_less n.0 job (spread_at (open_merge seg.0 self.old.rows)))
            self.old.rows) }
        ensures posted { OnOk result (self.new.posted ≡ self.old.posted
            ++ post_after seg line (sent_left (sent_less n.0 job
            (spread_at (open_merge seg.0 self.old.rows))))) }
        ensures counts { self.new.counts ≡ self.old.counts }
    {
        let Some(spread) = take_spread(&mut self.rows, seg) else {
            unreachable!()
        };
        let Spread { state, left, all } = spread;
        let mut left = left.into_vec();
        leave_sent(&mut left, n, job);
        post_cut(&mut self.posted, seg, line, left.as_slice())?;
        let left = List::from_vec(left);
        set_spread(&mut self.rows, seg, Some(Spread { state, left, all }));
        Ok(())
    }

    /// A merge has ended. What was written of it is answered.
    pub fn close(&mut self, seg: SegNo) -> Option<Spread>
        requires { open_merge seg.0 self.old.rows ≢ None }
        ensures spread { result ≡ spread_at (open_merge seg.0 self.old.rows) }
        ensures rows { self.new.rows ≡ without_merge seg.0 self.old.rows }
        ensures posted { self.new.posted ≡ self.old.posted }
        ensures counts { self.new.counts ≡ self.old.counts }
    {
        let spread = take_spread(&mut self.rows, seg);
        leave_out(&mut self.rows, seg);
        spread
    }

    /// The merges in flight.
    pub fn rows(&self) -> &[OpenMerge]
        ensures { result.now ≡ self.now.rows }
    {
        self.rows.as_slice()
    }

    /// The primary has crashed: no merge is in flight, and no task is posted.
    pub fn clear(&mut self)
        ensures rows { self.new.rows ≡ [] }
        ensures posted { self.new.posted ≡ [] }
        ensures counts { self.new.counts ≡ self.old.counts }
    {
        self.rows.clear();
        self.posted.clear();
    }

    /// How many tasks count for a drain line.
    pub fn counted(&self, at: At) -> u32
        ensures { result ≡ done_under at self.now.counts }
    {
        done_in(self.counts.as_slice(), at)
    }

    /// A task has ended that counts, for a drain line or for none.
    pub fn count(&mut self, by: Option<At>) -> Result<(), NoMemory>
        ensures counts { OnOk result ((x : _) → done_under x self.new.counts
            ≡ done_under x self.old.counts + counts_one x by) }
        ensures posted { self.new.posted ≡ self.old.posted }
        ensures rows { self.new.rows ≡ self.old.rows }
    {
        match by {
            None => Ok(()),
            Some(at) => count_one(&mut self.counts, at),
        }
    }

    /// A drain line has its reply.
    pub fn drain(&mut self, at: At)
        ensures counts { self.new.counts ≡ without_count at self.old.counts }
        ensures posted { self.new.posted ≡ self.old.posted }
        ensures rows { self.new.rows ≡ self.old.rows }
    {
        forget(&mut self.counts, at);
    }
}
