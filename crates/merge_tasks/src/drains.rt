//! How many tasks count for the drain lines that have no reply.

ghost use Rattle.std.specs.Prelude.{◌≡◌, ◌+◌, not, if◌then◌else◌, OnOk};
ghost use Rattle.std.specs.List.{filter};
ghost use Rattle.history_rules.specs.Lines.{same_at};
ghost use Rattle.merge_tasks.specs.Board.{done_under};

use history_tables::same_at;
use nrt_base::{At, NoMemory};
use std::alloc::AllocError;

/// How many tasks count for a drain line.
#[derive(Clone, Copy, Debug, PartialEq, Eq)]
pub struct DrainCount {
    pub at: At,
    pub done: u32,
}

/// How many tasks count for a line.
pub(crate) fn done_in(counts: &[DrainCount], at: At) -> u32
    ensures { result ≡ done_under at counts.now }
{
    for row in counts {
        if same_at(row.at, at) {
            return row.done;
        }
    }
    0
}

/// Counts no task for a line any more.
pub(crate) fn forget(counts: &mut Vec<DrainCount>, at: At)
    ensures { counts.new.items ≡ filter (λ r. not (same_at r.at at)) counts.old.items }
{
    counts.retain(|row| !same_at(row.at, at));
}

/// Counts one task more for a line. It fails when out of memory, or out of numbers below 2^32.
#[tactic(auto, using(crate::proofs::Counts::one_more))]
pub(crate) fn count_one(counts: &mut Vec<DrainCount>, at: At) -> Result<(), NoMemory>
    ensures { OnOk result ((x : _) → done_under x counts.new.items
        ≡ (if same_at at x then done_under at counts.old.items + 1 else done_under x counts.old.items)) }
{
    let done = done_in(counts.as_slice(), at);
    if done == u32::MAX {
        return Err(AllocError);
    }
    counts.insert(0, DrainCount { at, done: done + 1 })?;
    Ok(())
}
