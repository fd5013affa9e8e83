//! The calls of a job, where the lock is held.

ghost use Rattle.std.specs.Prelude.{◌≡◌, false, OnOk, OnErr, IfOk};
ghost use Rattle.history_rules.specs.declared.entry.Event.{Event};
ghost use Rattle.history_rules.specs.Lines.{start_entry};
ghost use Rattle.history_book.specs.Log.{printed};
ghost use Rattle.script_serving.specs.declared.script.LineCommand.{LineCommand};
ghost use Rattle.script_serving.specs.declared.script.LineCommand.TheVariants.{Settle};
ghost use Rattle.cluster_site.specs.Sites.{DoesAtSite};
ghost use Rattle.cluster_state.specs.CopyCalls.{CopiesFor};
ghost use Rattle.cluster_site.specs.Flights.{WaitsWhere};
ghost use Rattle.cluster_site.specs.Turns.{TurnShows};
ghost use Rattle.lane_copies.specs.Jobs.{IsCopyingBy, HasFileOut, LeavesJobAt, IsStillSettling, HasBegunToSettle, IsCopiedSomewhere, BeginsNextJob, IsSettlingOn};

use cluster_nodes::{CopyTask, FileTask, SettleTask};
use cluster_site::{Site, Turn};
use disk_model::FaultDir;
use nrt_base::{At, NoMemory};
use std::alloc::{AllocError, Global};

/// Hands out the next file of a job. That the job has no end is known of each cluster, but not of a value behind a lock.
pub fn next_file<D: FaultDir + Drop>(
    site: &mut Site<D>,
    alloc: Global,
    at: At,
    task: &CopyTask,
) -> Result<Turn<FileTask>, NoMemory>
    requires running { site.old.run.ended ≡ false }
    requires copying { IsCopyingBy at task.now site.old.run.log }
    ensures ok { IfOk result (LeavesJobAt (HasFileOut at task.now) at task.now
        site.old.run site.new.run) }
    ensures err { OnErr result (site.new.run.log ≡ site.old.run.log) }
    ensures does { (command : LineCommand)
        → CopiesFor command (start_entry at (printed site.old.run.log))
        → OnOk result (DoesAtSite command at site.old site.new) }
{
    if !site.has_job(at.lane) {
        return Err(AllocError);
    }
    site.copy_next(alloc, at, task)
}

// A copy of what a settle has left.
fn copy_of(alloc: Global, left: &SettleTask) -> Result<SettleTask, NoMemory>
    ensures version { IfOk result (λ copy. copy.version ≡ left.now.version) }
    ensures nodes { IfOk result (λ copy. copy.left.items ≡ left.now.left.items) }
{
    let mut nodes = Vec::with_capacity(alloc, left.left.len())?;
    nodes.extend_from_slice(left.left.as_slice())?;
    Ok(SettleTask {
        version: left.version,
        left: nodes,
    })
}

/// Begins the job of the next replica of a settle. Where a job of the settle was lost, the line is done; where it waits, what was left is
/// left.
pub fn next_job<D: FaultDir + Drop>(
    site: &mut Site<D>,
    alloc: Global,
    at: At,
    left: &mut SettleTask,
) -> Result<Turn<CopyTask>, NoMemory>
    requires running { site.old.run.ended ≡ false }
    requires started { HasBegunToSettle at left.old site.old.run.log }
    requires settling { IsStillSettling site.old.run.nodes at left.old site.old.run.log }
    ensures ok { IfOk result (TurnShows (BeginsNextJob site.new.run.nodes at left.new)
        (IsSettlingOn site.new.run.nodes at left.new) at site.new.run) }
    ensures waits { IfOk result (WaitsWhere IsCopiedSomewhere site.new.run.log) }
    ensures err { OnErr result (site.new.run.log ≡ site.old.run.log) }
    ensures does { OnOk result (DoesAtSite Settle at site.old site.new) }
{
    if !site.is_open(at) {
        return Ok(Turn::Done);
    }
    let mut next = copy_of(alloc, left)?;
    match site.settle_next(alloc, at, &mut next)? {
        Turn::Busy => Ok(Turn::Busy),
        Turn::Done => Ok(Turn::Done),
        Turn::Work(task) => {
            *left = next;
            Ok(Turn::Work(task))
        }
    }
}
