//! Copies of merged segments to replicas.

ghost use Rattle.std.specs.Prelude.{◌≡◌, ◌≤◌, ◌+◌, ◌*◌, true, false, Some, IsSome, IfOk, OnOk, OnErr, length};
ghost use Rattle.copy_state.specs.Meta.{IsMetaOf};
ghost use Rattle.history_rules.specs.Nodes.{IsNode, primary_of};
ghost use Rattle.history_rules.specs.Legal.{IsLegalPast};
ghost use Rattle.history_book.specs.Jobs.{job_at};
ghost use Rattle.history_book.specs.Log.{printed};
ghost use Rattle.merge_tasks.specs.TaskLog.{carried_out};
ghost use Rattle.merge_tasks.specs.Board.{open_merge, spread_at, has_copy_task};
ghost use Rattle.cluster_nodes.specs.Places.{place_of};
ghost use Rattle.cluster_nodes.specs.Went.{ByWent};
ghost use Rattle.node_merges.specs.MergePlaces.{IsStepAt, RunsCopyOf};
ghost use Rattle.cluster_state.specs.Run.{IsEnded, misses_file, misses_at};
ghost use Rattle.cluster_state.specs.MergedCopies.{place_copies};
ghost use Rattle.cluster_merges.specs.Running.{AllShown};
ghost use Rattle.cluster_merges.specs.TaskMet.{mets, behind};
ghost use Rattle.cluster_merges.specs.MergePaths.{EndsCopyTask, FailsCopy, MeetsFaults};
ghost use Rattle.cluster_merges.specs.MergesKept.{KeepsButCopies, KeepsButEnded, TellsButCopies, TellsButEnded};
ghost use Rattle.cluster_merges.specs.CopyTurns.{IsTurnWhere, EndsCopyOf, FailsCopyOf, MeetsOf, StepsCopyTo, TurnsCopy};

use crate::met::{must_merge, show_task_due};
use cluster_nodes::{FileTask, NodePlace, Went};
use cluster_state::{ClusterState, are_bytes, has_risen, met_before, show_task_met};
use copy_job::Part;
use copy_state::FileMetaData;
use disk_model::FaultDir;
use file_names::FileName;
use history_book::{Inner, Step};
use merge_tasks::{Ledger, Tasks};
use node_merges::{CopyStep, drop_in, read_in, runs_in, settle_in, step_in, take_merged_in};
use nrt_base::{At, LineNo, NoMemory, NodeNo, SegNo, Share};
use std::alloc::{AllocError, Global};

/// What came of the next step of a copy of a merged segment.
#[derive(Debug, Drop)]
pub enum CopyTurn {
    /// It misses a file, and a job of a point runs at its node.
    Waits,
    /// This file was handed out.
    Hands(FileTask),
    /// Its task has ended.
    Ends,
    /// The same, as a disk failed.
    Fails,
}

// The task of a copy has ended, behind the faults that it met: the copy is among those that are left no more, and where none is left the task to
// cut over is posted. Where one is not planned it fails, as out of memory, and the ledger is as before.
fn end_task<D: FaultDir + Drop>(
    ledger: &mut Ledger,
    tasks: &mut Tasks,
    places: &Vec<Option<NodePlace<D>>>,
    at: At,
    line: LineNo,
    seg: SegNo,
    by: Option<At>,
    n: NodeNo,
    job: u64,
    before: &[(u64, u64)],
) -> Result<(), NoMemory>
    requires room { 2 * length before.now + 1 ≤ ledger.old.room }
    requires count { length before.now ≡ ledger.old.nodes }
    requires places { length places.now.items ≡ ledger.old.nodes }
    requires written { IsSome (spread_at (open_merge seg.0 tasks.old.rows)) }
    ensures ok { OnOk result (EndsCopyOf line seg by n job
        (behind at before.now (mets D.planned places.now.items) ledger.old) ledger.new
        tasks.old tasks.new) }
    ensures err { OnErr result (ledger.new ≡ ledger.old) }
{
    tasks.settle(seg, line, n, job)?;
    tasks.count(by)?;
    show_task_met(ledger, at, before, places)?;
    ledger.keep(Inner::TaskEnd {
        line,
        seg,
        by,
        step: Step::PreCopy(n, job),
        counts: true,
    });
    Ok(())
}

// The task of a copy has ended, as the disk of this node failed.
fn fail_task<D: FaultDir + Drop>(
    ledger: &mut Ledger,
    tasks: &mut Tasks,
    places: &Vec<Option<NodePlace<D>>>,
    at: At,
    line: LineNo,
    seg: SegNo,
    by: Option<At>,
    n: NodeNo,
    job: u64,
    before: &[(u64, u64)],
    failed: NodeNo,
) -> Result<(), NoMemory>
    requires room { 2 * length before.now + 1 ≤ ledger.old.room }
    requires count { length before.now ≡ ledger.old.nodes }
    requires places { length places.now.items ≡ ledger.old.nodes }
    requires written { IsSome (spread_at (open_merge seg.0 tasks.old.rows)) }
    ensures ok { OnOk result (FailsCopyOf line seg by failed n job
        before.now (mets D.planned places.now.items)
        (behind at before.now (mets D.planned places.now.items) ledger.old) ledger.new
        tasks.old tasks.new) }
    ensures err { OnErr result (ledger.new ≡ ledger.old) }
{
    if !has_risen(failed, before, places) {
        return Err(AllocError);
    }
    end_task(ledger, tasks, places, at, line, seg, by, n, job, before)?;
    Ok(())
}

// The files of a copy of which nothing is missing are pending from now on, or the disk fails; its task has ended.
fn settle_copy<D: FaultDir + Drop>(
    alloc: Global,
    ledger: &mut Ledger,
    tasks: &mut Tasks,
    places: &mut Vec<Option<NodePlace<D>>>,
    p: NodeNo,
    at: At,
    line: LineNo,
    seg: SegNo,
    by: Option<At>,
    n: NodeNo,
    job: u64,
    before: &[(u64, u64)],
) -> Result<CopyTurn, NoMemory>
    requires room { 2 * length before.now + 1 ≤ ledger.old.room }
    requires before { before.now ≡ mets D.planned places.old.items }
    requires shown { AllShown D.cells ledger.old tasks.old places.old.items }
    requires source { IsNode ledger.old.nodes p.0 }
    requires primary { primary_of (printed ledger.old.log) ≡ Some p }
    requires node { IsNode ledger.old.nodes n.0 }
    requires sent { has_copy_task n.0 job (spread_at (open_merge seg.0 tasks.old.rows)) ≡ true }
    requires step { IsStepAt seg.0 job (place_of places.old.items n.0) CopyStep.Complete }
    ensures shown { OnOk result (AllShown D.cells ledger.new tasks.new places.new.items) }
    ensures ok { IfOk result (StepsCopyTo at line seg by p n job
        before.now (mets D.planned places.new.items) ledger.old
        (behind at before.now (mets D.planned places.new.items) ledger.old)
        ledger.new tasks.old tasks.new) }
    ensures turn { IfOk result (IsTurnWhere
        (misses_file seg.0 job (place_copies (place_of places.old.items n.0)))
        (job_at n.0 ledger.old.log)) }
    ensures cut { OnOk result (ledger.new.cut ≡ ledger.old.cut) }
    ensures rest { IfOk result (TellsButEnded n.0 job places.old.items places.new.items) }
    ensures err { OnErr result (ledger.new ≡ ledger.old) }
{
    match settle_in(alloc, places, n, job)? {
        Went::Done(()) => {
            end_task(ledger, tasks, places, at, line, seg, by, n, job, before)?;
            Ok(CopyTurn::Ends)
        }
        Went::Failed => {
            fail_task(ledger, tasks, places, at, line, seg, by, n, job, before, n)?;
            Ok(CopyTurn::Fails)
        }
    }
}

// Hands out a file that a copy misses; or the disk fails, and the copy and its task have ended.
fn hand_file<D: FaultDir + Drop>(
    alloc: Global,
    ledger: &mut Ledger,
    tasks: &mut Tasks,
    places: &mut Vec<Option<NodePlace<D>>>,
    p: NodeNo,
    at: At,
    line: LineNo,
    seg: SegNo,
    by: Option<At>,
    n: NodeNo,
    job: u64,
    name: FileName,
    meta: FileMetaData,
    before: &[(u64, u64)],
) -> Result<CopyTurn, NoMemory>
    requires room { 2 * length before.now + 3 ≤ ledger.old.room }
    requires before { before.now ≡ mets D.planned places.old.items }
    requires shown { AllShown D.cells ledger.old tasks.old places.old.items }
    requires source { IsNode ledger.old.nodes p.0 }
    requires primary { primary_of (printed ledger.old.log) ≡ Some p }
    requires node { IsNode ledger.old.nodes n.0 }
    requires sent { has_copy_task n.0 job (spread_at (open_merge seg.0 tasks.old.rows)) ≡ true }
    requires step { IsStepAt seg.0 job (place_of places.old.items n.0) (CopyStep.Wants name meta) }
    ensures shown { OnOk result (AllShown D.cells ledger.new tasks.new places.new.items) }
    ensures ok { IfOk result (StepsCopyTo at line seg by p n job
        before.now (mets D.planned places.new.items) ledger.old
        (behind at before.now (mets D.planned places.new.items) ledger.old)
        ledger.new tasks.old tasks.new) }
    ensures turn { IfOk result (IsTurnWhere
        (misses_file seg.0 job (place_copies (place_of places.old.items n.0)))
        (job_at n.0 ledger.old.log)) }
    ensures cut { OnOk result (ledger.new.cut ≡ ledger.old.cut) }
    ensures rest { IfOk result (TellsButEnded n.0 job places.old.items places.new.items) }
    ensures err { OnErr result (ledger.new ≡ ledger.old) }
{
    match read_in(places, p, &name)? {
        Went::Done(source) => {
            are_bytes(source.as_slice());
            let copy = source.share(alloc)?;
            must_merge(ledger, at, n)?;
            show_task_met(ledger, at, before, places)?;
            let fate = show_task_due(ledger, at, n);
            ledger.keep(Inner::FileOut {
                line,
                node: n,
                job,
                name,
                source: copy,
                fate,
                by: None,
            });
            Ok(CopyTurn::Hands(FileTask {
                name,
                source,
                meta,
                fate,
            }))
        }
        Went::Failed => {
            drop_in(places, n, job);
            fail_task(ledger, tasks, places, at, line, seg, by, n, job, before, p)?;
            Ok(CopyTurn::Fails)
        }
    }
}

// The next step of a copy, after which what is true of a cluster that runs is true again.
fn step_copy<D: FaultDir + Drop>(
    alloc: Global,
    ledger: &mut Ledger,
    tasks: &mut Tasks,
    places: &mut Vec<Option<NodePlace<D>>>,
    p: NodeNo,
    at: At,
    line: LineNo,
    seg: SegNo,
    by: Option<At>,
    n: NodeNo,
    job: u64,
    before: &[(u64, u64)],
) -> Result<CopyTurn, NoMemory>
    requires room { 2 * length before.now + 3 ≤ ledger.old.room }
    requires before { before.now ≡ mets D.planned places.old.items }
    requires shown { AllShown D.cells ledger.old tasks.old places.old.items }
    requires source { IsNode ledger.old.nodes p.0 }
    requires primary { primary_of (printed ledger.old.log) ≡ Some p }
    requires node { IsNode ledger.old.nodes n.0 }
    requires sent { has_copy_task n.0 job (spread_at (open_merge seg.0 tasks.old.rows)) ≡ true }
    ensures shown { OnOk result (AllShown D.cells ledger.new tasks.new places.new.items) }
    ensures ok { IfOk result (StepsCopyTo at line seg by p n job
        before.now (mets D.planned places.new.items) ledger.old
        (behind at before.now (mets D.planned places.new.items) ledger.old)
        ledger.new tasks.old tasks.new) }
    ensures turn { IfOk result (IsTurnWhere
        (misses_file seg.0 job (place_copies (place_of places.old.items n.0)))
        (job_at n.0 ledger.old.log)) }
    ensures cut { OnOk result (ledger.new.cut ≡ ledger.old.cut) }
    ensures rest { IfOk result (TellsButEnded n.0 job places.old.items places.new.items) }
    ensures err { OnErr result (ledger.new ≡ ledger.old) }
{
    match step_in(alloc, places, n, job, seg)? {
        CopyStep::Waits => Ok(CopyTurn::Waits),
        CopyStep::Gone => {
            end_task(ledger, tasks, places, at, line, seg, by, n, job, before)?;
            Ok(CopyTurn::Ends)
        }
        CopyStep::Complete => settle_copy(
            alloc, ledger, tasks, places, p, at, line, seg, by, n, job, before,
        ),
        CopyStep::Wants(name, meta) => hand_file(
            alloc, ledger, tasks, places, p, at, line, seg, by, n, job, name, meta, before,
        ),
    }
}

/// Goes on with a copy of a merged segment whose task has not ended: hands out the next file that it misses; where it misses none its
/// files are pending and its task ends, and where it does not run any more its task ends too. While it misses a file and a job of a
/// point runs at its node it waits. Where a disk fails, by a plan that the history shows, the copy and its task end.
pub fn next_merged<D: FaultDir + Drop>(
    alloc: Global,
    cluster: &mut ClusterState<D>,
    p: NodeNo,
    line: LineNo,
    seg: SegNo,
    by: Option<At>,
    n: NodeNo,
    job: u64,
) -> Result<CopyTurn, NoMemory>
    requires running { cluster.old.ended ≡ false }
    requires source { IsNode cluster.old.nodes p.0 }
    requires primary { primary_of (printed cluster.old.log) ≡ Some p }
    requires node { IsNode cluster.old.nodes n.0 }
    requires sent { has_copy_task n.0 job
        (spread_at (open_merge seg.0 cluster.old.rest.tasks.rows)) ≡ true }
    ensures ok { IfOk result (TurnsCopy line seg by n job cluster.old cluster.new) }
    ensures turn { IfOk result (IsTurnWhere (misses_at seg.0 n.0 job cluster.old)
        (job_at n.0 cluster.old.log)) }
    ensures rest { IfOk result (KeepsButEnded n.0 job cluster.old cluster.new) }
    ensures err { OnErr result (IsEnded cluster.old cluster.new) }
{
    let Some(at) = cluster.ledger.merge_on(seg) else {
        unreachable!()
    };
    cluster.ended = true;
    let before = met_before(alloc, &mut cluster.ledger, &cluster.places, 3)?;
    let turn = step_copy(
        alloc,
        &mut cluster.ledger,
        &mut cluster.tasks,
        &mut cluster.places,
        p,
        at,
        line,
        seg,
        by,
        n,
        job,
        before.as_slice(),
    )?;
    cluster.ended = false;
    Ok(turn)
}

// Puts a part into a copy of a merged segment, where it runs and misses it still, after which what is true of a cluster that runs is true again.
// Where its disk fails the copy and its task end.
fn take_there<D: FaultDir + Drop>(
    ledger: &mut Ledger,
    tasks: &mut Tasks,
    places: &mut Vec<Option<NodePlace<D>>>,
    at: At,
    line: LineNo,
    seg: SegNo,
    by: Option<At>,
    n: NodeNo,
    job: u64,
    part: Part,
    before: &[(u64, u64)],
) -> Result<Went<()>, NoMemory>
    requires room { 2 * length before.now + 1 ≤ ledger.old.room }
    requires before { before.now ≡ mets D.planned places.old.items }
    requires shown { AllShown D.cells ledger.old tasks.old places.old.items }
    requires legal { IsLegalPast ledger.old.nodes (printed ledger.old.log) }
    requires node { IsNode ledger.old.nodes n.0 }
    requires sent { has_copy_task n.0 job (spread_at (open_merge seg.0 tasks.old.rows)) ≡ true }
    requires out { carried_out part.name ledger.old.log ≡ Some part.bytes }
    requires meta { IsMetaOf part.bytes part.meta }
    ensures shown { OnOk result (AllShown D.cells ledger.new tasks.new places.new.items) }
    ensures ok { IfOk result (ByWent (λ done. MeetsOf
        (behind at before.now (mets D.planned places.new.items) ledger.old)
        ledger.new tasks.old tasks.new)
        (FailsCopyOf line seg by n n job before.now (mets D.planned places.new.items)
        (behind at before.now (mets D.planned places.new.items) ledger.old)
        ledger.new tasks.old tasks.new)) }
    ensures cut { OnOk result (ledger.new.cut ≡ ledger.old.cut) }
    ensures rest { OnOk result (TellsButCopies n.0 job places.old.items places.new.items) }
    ensures err { OnErr result (ledger.new ≡ ledger.old) }
{
    if !runs_in(places, n, job, seg) {
        show_task_met(ledger, at, before, places)?;
        return Ok(Went::Done(()));
    }
    match take_merged_in(places, n, job, part)? {
        Went::Done(()) => {
            show_task_met(ledger, at, before, places)?;
            Ok(Went::Done(()))
        }
        Went::Failed => {
            fail_task(ledger, tasks, places, at, line, seg, by, n, job, before, n)?;
            Ok(Went::Failed)
        }
    }
}

/// Puts a part into a copy of a merged segment, where it runs and misses it still. Where its disk fails, by a plan that the history shows, the copy
/// and its task end.
pub fn take_merged<D: FaultDir + Drop>(
    alloc: Global,
    cluster: &mut ClusterState<D>,
    line: LineNo,
    seg: SegNo,
    by: Option<At>,
    n: NodeNo,
    job: u64,
    part: Part,
) -> Result<Went<()>, NoMemory>
    requires running { cluster.old.ended ≡ false }
    requires node { IsNode cluster.old.nodes n.0 }
    requires sent { has_copy_task n.0 job
        (spread_at (open_merge seg.0 cluster.old.rest.tasks.rows)) ≡ true }
    requires out { carried_out part.name cluster.old.log ≡ Some part.bytes }
    requires meta { IsMetaOf part.bytes part.meta }
    ensures ok { IfOk result (ByWent (λ done. MeetsFaults seg cluster.old cluster.new)
        (FailsCopy line seg by n job cluster.old cluster.new)) }
    ensures rest { OnOk result (KeepsButCopies n.0 job cluster.old cluster.new) }
    ensures err { OnErr result (IsEnded cluster.old cluster.new) }
{
    cluster.ledger.book().is_legal();
    let Some(at) = cluster.ledger.merge_on(seg) else {
        unreachable!()
    };
    cluster.ended = true;
    let before = met_before(alloc, &mut cluster.ledger, &cluster.places, 1)?;
    let went = take_there(
        &mut cluster.ledger,
        &mut cluster.tasks,
        &mut cluster.places,
        at,
        line,
        seg,
        by,
        n,
        job,
        part,
        before.as_slice(),
    )?;
    cluster.ended = false;
    Ok(went)
}

// Ends a copy of a merged segment that runs, and its task, after which what is true of a cluster that runs is true again.
fn end_there<D: FaultDir + Drop>(
    ledger: &mut Ledger,
    tasks: &mut Tasks,
    places: &mut Vec<Option<NodePlace<D>>>,
    at: At,
    line: LineNo,
    seg: SegNo,
    by: Option<At>,
    n: NodeNo,
    job: u64,
    before: &[(u64, u64)],
) -> Result<(), NoMemory>
    requires room { 2 * length before.now + 1 ≤ ledger.old.room }
    requires before { before.now ≡ mets D.planned places.old.items }
    requires shown { AllShown D.cells ledger.old tasks.old places.old.items }
    requires legal { IsLegalPast ledger.old.nodes (printed ledger.old.log) }
    requires node { IsNode ledger.old.nodes n.0 }
    requires sent { has_copy_task n.0 job (spread_at (open_merge seg.0 tasks.old.rows)) ≡ true }
    requires runs { RunsCopyOf seg.0 job (place_of places.old.items n.0) }
    ensures shown { OnOk result (AllShown D.cells ledger.new tasks.new places.new.items) }
    ensures ok { OnOk result (EndsCopyOf line seg by n job
        (behind at before.now (mets D.planned places.new.items) ledger.old) ledger.new
        tasks.old tasks.new) }
    ensures rest { OnOk result (TellsButCopies n.0 job places.old.items places.new.items) }
    ensures err { OnErr result (ledger.new ≡ ledger.old) }
{
    drop_in(places, n, job);
    end_task(ledger, tasks, places, at, line, seg, by, n, job, before)?;
    Ok(())
}

// Ends a copy of a merged segment, of which not all of a file came, and its task, after which what is true of a cluster that runs is true again.
fn lose_there<D: FaultDir + Drop>(
    ledger: &mut Ledger,
    tasks: &mut Tasks,
    places: &mut Vec<Option<NodePlace<D>>>,
    at: At,
    line: LineNo,
    seg: SegNo,
    by: Option<At>,
    n: NodeNo,
    job: u64,
    before: &[(u64, u64)],
) -> Result<(), NoMemory>
    requires room { 2 * length before.now + 1 ≤ ledger.old.room }
    requires before { before.now ≡ mets D.planned places.old.items }
    requires shown { AllShown D.cells ledger.old tasks.old places.old.items }
    requires legal { IsLegalPast ledger.old.nodes (printed ledger.old.log) }
    requires node { IsNode ledger.old.nodes n.0 }
    requires sent { has_copy_task n.0 job (spread_at (open_merge seg.0 tasks.old.rows)) ≡ true }
    ensures shown { OnOk result (AllShown D.cells ledger.new tasks.new places.new.items) }
    ensures ok { OnOk result (EndsCopyOf line seg by n job
        (behind at before.now (mets D.planned places.new.items) ledger.old) ledger.new
        tasks.old tasks.new) }
    ensures rest { OnOk result (TellsButCopies n.0 job places.old.items places.new.items) }
    ensures err { OnErr result (ledger.new ≡ ledger.old) }
{
    if !runs_in(places, n, job, seg) {
        end_task(ledger, tasks, places, at, line, seg, by, n, job, before)?;
        return Ok(());
    }
    end_there(ledger, tasks, places, at, line, seg, by, n, job, before)
}

/// Ends a copy of a merged segment, of which not all of a file came, and its task.
pub fn lose_merged<D: FaultDir + Drop>(
    alloc: Global,
    cluster: &mut ClusterState<D>,
    line: LineNo,
    seg: SegNo,
    by: Option<At>,
    n: NodeNo,
    job: u64,
) -> Result<(), NoMemory>
    requires running { cluster.old.ended ≡ false }
    requires node { IsNode cluster.old.nodes n.0 }
    requires sent { has_copy_task n.0 job
        (spread_at (open_merge seg.0 cluster.old.rest.tasks.rows)) ≡ true }
    ensures ok { OnOk result (EndsCopyTask line seg by n job cluster.old cluster.new) }
    ensures rest { OnOk result (KeepsButCopies n.0 job cluster.old cluster.new) }
    ensures err { OnErr result (IsEnded cluster.old cluster.new) }
{
    cluster.ledger.book().is_legal();
    let Some(at) = cluster.ledger.merge_on(seg) else {
        unreachable!()
    };
    cluster.ended = true;
    let before = met_before(alloc, &mut cluster.ledger, &cluster.places, 1)?;
    lose_there(
        &mut cluster.ledger,
        &mut cluster.tasks,
        &mut cluster.places,
        at,
        line,
        seg,
        by,
        n,
        job,
        before.as_slice(),
    )?;
    cluster.ended = false;
    Ok(())
}
