//! Merges that start, and their tasks.

ghost use Rattle.std.specs.Prelude.{◌≡◌, ◌≤◌, [], true, false, None, Some, IfOk, OnOk, OnErr};
ghost use Rattle.copy_state.specs.Meta.{IsMetaOf};
ghost use Rattle.history_rules.specs.Nodes.{IsNode, primary_of};
ghost use Rattle.history_rules.specs.Lines.{entries_of_line};
ghost use Rattle.history_book.specs.Log.{printed};
ghost use Rattle.merge_tasks.specs.TaskLog.{carried_out};
ghost use Rattle.merge_tasks.specs.Board.{open_merge, is_unwritten};
ghost use Rattle.cluster_state.specs.DueFaults.{ArrivesBy};
ghost use Rattle.cluster_state.specs.Run.{IsEnded};
ghost use Rattle.cluster_merges.specs.MergePaths.{IsMergedOut, EndsBuild, TakesTask};
ghost use Rattle.cluster_merges.specs.MergesKept.{KeepsBuilt, KeepsButTasks, KeepsButSizes, KeepsButCut, KeepsButCopies, KeepsCopyTurn};
ghost use Rattle.cluster_merges.specs.TaskCalls.{MergeLine, StartsAtPrimary, PrecopyTurns, PartTurns, CutTurns};

use crate::cuts::cut_merge;
use crate::precopies::{CopyTurn, lose_merged, next_merged, take_merged};
use crate::starts::start_merge;
use crate::takes::take_task;
use crate::writes::ready_merge;
use cluster_nodes::{FileTask, Went};
use cluster_state::{ClusterState, Turn, refuse};
use copy_job::{JobFault, Part};
use disk_model::FaultDir;
use history_rules::Cause;
use merge_tasks::Task;
use nrt_base::{At, LineNo, NoMemory, NodeNo, SegNo};
use seg_merge::Merged;
use std::alloc::Global;

// Starts a merge at the primary that runs, or refuses the line.
fn start_at<D: FaultDir + Drop>(
    state: &mut ClusterState<D>,
    alloc: Global,
    at: At,
    p: NodeNo,
    factor: u32,
) -> Result<(), NoMemory>
    requires running { state.old.ended ≡ false }
    requires fresh { entries_of_line at (printed state.old.log) ≡ [] }
    requires node { IsNode state.old.nodes p.0 }
    requires primary { primary_of (printed state.old.log) ≡ Some p }
    requires factor { 2 ≤ factor }
    ensures ok { OnOk result (StartsAtPrimary at factor state.old state.new) }
    ensures rest { OnOk result (KeepsButSizes state.old state.new) }
    ensures err { OnErr result (IsEnded state.old state.new) }
{
    match start_merge(alloc, state, at, p, factor)? {
        None => Ok(()),
        Some(cause) => {
            refuse(state, at, cause)?;
            Ok(())
        }
    }
}

/// Starts a merge.
pub fn merge_start<D: FaultDir + Drop>(
    state: &mut ClusterState<D>,
    alloc: Global,
    at: At,
    factor: u32,
) -> Result<(), NoMemory>
    requires running { state.old.ended ≡ false }
    requires fresh { entries_of_line at (printed state.old.log) ≡ [] }
    requires factor { 2 ≤ factor }
    ensures ok { OnOk result (MergeLine at factor state.old state.new) }
    ensures rest { OnOk result (KeepsButSizes state.old state.new) }
    ensures err { OnErr result (IsEnded state.old state.new) }
{
    let Some(p) = state.primary() else {
        return refuse(state, at, Cause::NoPrimary);
    };
    start_at(state, alloc, at, p, factor)?;
    Ok(())
}

/// Takes the task that was posted first.
pub fn task_take<D: FaultDir + Drop>(
    state: &mut ClusterState<D>,
    by: Option<At>,
) -> Result<Option<Task>, NoMemory>
    requires running { state.old.ended ≡ false }
    ensures ok { IfOk result (TakesTask by state.old state.new) }
    ensures rest { OnOk result (KeepsButTasks state.old state.new) }
    ensures err { OnErr result (IsEnded state.old state.new) }
{
    take_task(state, by)
}

/// Writes the merged segment of a merge of which nothing is written, and begins a copy of it to each replica that runs; or gives the merge up,
/// where the disk fails. Else the task has ended, and nothing changes.
pub fn merge_ready<D: FaultDir + Drop>(
    state: &mut ClusterState<D>,
    alloc: Global,
    line: LineNo,
    seg: SegNo,
    by: Option<At>,
    merged: Merged,
) -> Result<(), NoMemory>
    requires running { state.old.ended ≡ false }
    requires merged { IsMergedOut state.old.log seg merged }
    ensures ok { OnOk result (EndsBuild line seg by state.old state.new
        (is_unwritten (open_merge seg.0 state.old.rest.tasks.rows))) }
    ensures rest { OnOk result (KeepsBuilt seg state.old state.new) }
    ensures err { OnErr result (IsEnded state.old state.new) }
{
    if !state.tasks.is_unwritten(seg) {
        return Ok(());
    }
    let Some(p) = state.primary() else {
        unreachable!()
    };
    ready_merge(alloc, state, p, line, seg, by, merged)
}

/// Goes on with a copy of a merged segment. Done says that its task has ended. Busy comes exactly where it has not, the copy misses a
/// file, and the job of a point runs at its node.
pub fn precopy_next<D: FaultDir + Drop>(
    state: &mut ClusterState<D>,
    alloc: Global,
    line: LineNo,
    seg: SegNo,
    by: Option<At>,
    n: NodeNo,
    job: u64,
) -> Result<Turn<FileTask>, NoMemory>
    requires running { state.old.ended ≡ false }
    requires node { IsNode state.old.nodes n.0 }
    ensures ok { IfOk result (PrecopyTurns line seg by n job state.old state.new) }
    ensures rest { IfOk result (KeepsCopyTurn n.0 job state.old state.new) }
    ensures err { OnErr result (IsEnded state.old state.new) }
{
    if !state.tasks.has_copy_task(seg, n, job) {
        return Ok(Turn::Done);
    }
    let Some(p) = state.primary() else {
        unreachable!()
    };
    match next_merged(alloc, state, p, line, seg, by, n, job)? {
        CopyTurn::Waits => Ok(Turn::Busy),
        CopyTurn::Hands(file) => Ok(Turn::Work(file)),
        CopyTurn::Ends => Ok(Turn::Done),
        CopyTurn::Fails => Ok(Turn::Done),
    }
}

/// Puts what arrived of a file into a copy of a merged segment. Done says that its task has ended, also where not all of the file arrived.
pub fn precopy_arrived<D: FaultDir + Drop>(
    state: &mut ClusterState<D>,
    alloc: Global,
    line: LineNo,
    seg: SegNo,
    by: Option<At>,
    n: NodeNo,
    job: u64,
    file: &FileTask,
    arrived: Result<Part, JobFault>,
) -> Result<Turn<()>, NoMemory>
    requires running { state.old.ended ≡ false }
    requires node { IsNode state.old.nodes n.0 }
    requires out { carried_out file.now.name state.old.log ≡ Some file.now.source }
    requires meta { IsMetaOf file.now.source file.now.meta }
    requires arrives { ArrivesBy file.now arrived }
    ensures ok { IfOk result (PartTurns line seg by n job file.now.fate state.old state.new) }
    ensures rest { OnOk result (KeepsButCopies n.0 job state.old state.new) }
    ensures err { OnErr result (IsEnded state.old state.new) }
{
    if !state.tasks.has_copy_task(seg, n, job) {
        return Ok(Turn::Done);
    }
    match arrived {
        Ok(part) => {
            match take_merged(alloc, state, line, seg, by, n, job, part)? {
                Went::Done(()) => Ok(Turn::Work(())),
                Went::Failed => Ok(Turn::Done),
            }
        }
        Err(_) => {
            lose_merged(alloc, state, line, seg, by, n, job)?;
            Ok(Turn::Done)
        }
    }
}

/// Cuts a merge over whose copies have all ended, or gives it up, where the disk fails. Busy comes exactly where it is to be cut over and a
/// publish is in flight; where its task has ended nothing changes.
pub fn merge_cut<D: FaultDir + Drop>(
    state: &mut ClusterState<D>,
    alloc: Global,
    line: LineNo,
    seg: SegNo,
    by: Option<At>,
) -> Result<Turn<()>, NoMemory>
    requires running { state.old.ended ≡ false }
    ensures ok { IfOk result (CutTurns line seg by state.old state.new) }
    ensures rest { OnOk result (KeepsButCut state.old state.new) }
    ensures err { OnErr result (IsEnded state.old state.new) }
{
    if !state.tasks.is_copied(seg) {
        return Ok(Turn::Done);
    }
    if state.book().publishing().is_some() {
        return Ok(Turn::Busy);
    }
    let Some(p) = state.primary() else {
        unreachable!()
    };
    cut_merge(alloc, state, p, line, seg, by)?;
    Ok(Turn::Done)
}
