//! A merged segment that is written, and copied to replicas.

ghost use Rattle.std.specs.Prelude.{◌≡◌, ◌<◌, ◌≤◌, ◌+◌, ◌*◌, ◌∷◌, [], true, false, None, Some, IsSome, IfOk, OnOk, OnErr, length};
ghost use Rattle.copy_state.specs.States.{IsCopyState};
ghost use Rattle.history_rules.specs.Nodes.{IsNode, primary_of};
ghost use Rattle.history_book.specs.Log.{printed, kept};
ghost use Rattle.merge_tasks.specs.Board.{open_merge, spread_at, is_unwritten};
ghost use Rattle.node_merges.specs.MergeChanges.{MaySend};
ghost use Rattle.node_merges.specs.MergePlaces.{IsReplicaIn};
ghost use Rattle.cluster_nodes.specs.Went.{ByWent};
ghost use Rattle.cluster_state.specs.Settles.{AreReplicas};
ghost use Rattle.cluster_state.specs.Run.{IsEnded};
ghost use Rattle.cluster_merges.specs.Running.{AllShown};
ghost use Rattle.cluster_merges.specs.TaskMet.{mets, WritesBehind, GivesUpOf};
ghost use Rattle.cluster_merges.specs.MergePaths.{IsMergedOut, EndsBuild, begun_log};
ghost use Rattle.cluster_merges.specs.MergesKept.{KeepsBuilt, TellsBuilt};
ghost use Rattle.cluster_merges.specs.Sending.{spread_to, SendsOne, MaySendAll, SendsAll};

use crate::met::end_behind;
use cluster_nodes::{NodePlace, Went, files_last};
use cluster_state::{ClusterState, has_risen, met_before, replicas, show_task_met};
use copy_state::CopyState;
use disk_model::FaultDir;
use history_book::{Inner, Step};
use merge_tasks::{Ledger, Sent, Tasks};
use node_merges::{ready_in, send_in, share_state};
use nrt_base::{At, LineNo, NoMemory, NodeNo, SegNo};
use seg_merge::Merged;
use std::alloc::{AllocError, Global};

// Begins a copy of a merge that is written to a replica, notes it in the row of the merge, and answers it.
fn send_one<D: FaultDir + Drop>(
    alloc: Global,
    tasks: &mut Tasks,
    places: &mut Vec<Option<NodePlace<D>>>,
    seg: SegNo,
    state: &CopyState,
    n: NodeNo,
) -> Result<Sent, NoMemory>
    requires copy { IsCopyState state.now }
    requires may { IsReplicaIn (MaySend state.now) n.0 places.old.items }
    requires written { IsSome (spread_at (open_merge seg.0 tasks.old.rows)) }
    ensures { IfOk result (λ sent. SendsOne D.cells seg.0 state.now n sent
        tasks.old tasks.new places.old.items places.new.items) }
{
    let job = send_in(alloc, places, n, state)?;
    tasks.send(seg, n, job)?;
    Ok(Sent { node: n, job })
}

// Begins a copy of a merge that is written to each of these replicas, and answers the copies.
fn send_all<D: FaultDir + Drop>(
    alloc: Global,
    tasks: &mut Tasks,
    places: &mut Vec<Option<NodePlace<D>>>,
    seg: SegNo,
    state: &CopyState,
    nodes: &[NodeNo],
) -> Result<Vec<Sent>, NoMemory>
    requires copy { IsCopyState state.now }
    requires may { MaySendAll state.now nodes.now places.old.items }
    requires written { spread_at (open_merge seg.0 tasks.old.rows)
        ≡ Some (spread_to state.now []) }
    ensures { IfOk result (λ sent. SendsAll D.cells seg.0 state.now nodes.now sent.items
        tasks.old tasks.new places.old.items places.new.items) }
{
    let mut sent = Vec::new(alloc);
    for n in nodes {
        let one = send_one(alloc, tasks, places, seg, state, *n)?;
        sent.push(one)?;
    }
    Ok(sent)
}

// Notes that a copy has begun.
fn note_one(ledger: &mut Ledger, line: LineNo, sent: Sent)
    requires room { 1 ≤ ledger.old.room }
    ensures log { ledger.new.log
        ≡ kept (Inner.JobBegun line sent.node sent.job None None) ∷ ledger.old.log }
    ensures nodes { ledger.new.nodes ≡ ledger.old.nodes }
    ensures cut { ledger.new.cut ≡ ledger.old.cut }
    ensures room { ledger.old.room ≤ ledger.new.room + 1 }
{
    ledger.keep(Inner::JobBegun {
        line,
        node: sent.node,
        job: sent.job,
        version: None,
        by: None,
    });
}

// Notes that these copies have begun, in order. Room for one entry more is left.
fn note_begun(ledger: &mut Ledger, line: LineNo, sent: &[Sent])
    requires room { length sent.now < ledger.old.room }
    ensures log { ledger.new.log ≡ begun_log line sent.now ledger.old.log }
    ensures nodes { ledger.new.nodes ≡ ledger.old.nodes }
    ensures cut { ledger.new.cut ≡ ledger.old.cut }
    ensures room { 1 ≤ ledger.new.room }
{
    for s in sent {
        note_one(ledger, line, *s);
    }
}

// Writes the files of a merge and sends them to these replicas, or gives the merge up where the primary's disk fails, after which what is true of
// a cluster that runs is true again.
fn ready_there<D: FaultDir + Drop>(
    alloc: Global,
    ledger: &mut Ledger,
    tasks: &mut Tasks,
    places: &mut Vec<Option<NodePlace<D>>>,
    p: NodeNo,
    at: At,
    line: LineNo,
    seg: SegNo,
    by: Option<At>,
    merged: Merged,
    nodes: &[NodeNo],
    before: &[(u64, u64)],
) -> Result<Went<()>, NoMemory>
    requires room { 2 * length before.now + (length nodes.now + 2) ≤ ledger.old.room }
    requires before { before.now ≡ mets D.planned places.old.items }
    requires shown { AllShown D.cells ledger.old tasks.old places.old.items }
    requires node { IsNode ledger.old.nodes p.0 }
    requires primary { primary_of (printed ledger.old.log) ≡ Some p }
    requires unwritten { is_unwritten (open_merge seg.0 tasks.old.rows) ≡ true }
    requires merged { IsMergedOut ledger.old.log seg merged }
    requires replicas { AreReplicas ledger.old.nodes (printed ledger.old.log) nodes.now }
    ensures shown { OnOk result (AllShown D.cells ledger.new tasks.new places.new.items) }
    ensures ok { IfOk result (ByWent (λ done. WritesBehind at line seg by
        (mets D.planned places.old.items) (mets D.planned places.new.items)
        ledger.old ledger.new tasks.old tasks.new)
        (GivesUpOf D.planned p at line seg by Step.Merge
        ledger.old ledger.new tasks.old tasks.new places.old.items places.new.items)) }
    ensures rest { OnOk result (TellsBuilt ledger.old.log
        (spread_at (open_merge seg.0 tasks.new.rows)) places.old.items places.new.items) }
    ensures cut { OnOk result (ledger.new.cut ≡ ledger.old.cut) }
    ensures err { OnErr result (ledger.new ≡ ledger.old) }
{
    files_last();
    match ready_in(alloc, places, p, merged)? {
        Went::Failed => {
            tasks.close(seg);
            tasks.count(by)?;
            if !has_risen(p, before, places) {
                return Err(AllocError);
            }
            end_behind(
                ledger,
                at,
                line,
                seg,
                by,
                Step::Merge,
                false,
                before,
                places,
            )?;
            Ok(Went::Failed)
        }
        Went::Done(state) => {
            let copy = share_state(alloc, &state)?;
            tasks.write(alloc, seg, state);
            let sent = send_all(alloc, tasks, places, seg, &copy, nodes)?;
            drop(copy);
            tasks.post(seg, line)?;
            tasks.count(by)?;
            show_task_met(ledger, at, before, places)?;
            note_begun(ledger, line, sent.as_slice());
            drop(sent);
            ledger.keep(Inner::TaskEnd {
                line,
                seg,
                by,
                step: Step::Merge,
                counts: true,
            });
            Ok(Went::Done(()))
        }
    }
}

/// Writes the files of a merge of which none is written, and begins a copy of them to each replica that runs: the task to build its segment
/// ends, and a task is posted for each copy, or, where there is none, the one to cut over. Where the primary's disk fails, by a plan that the
/// history shows, the merge is given up. It fails when out of memory: the cluster has ended, and the history is as before.
pub fn ready_merge<D: FaultDir + Drop>(
    alloc: Global,
    cluster: &mut ClusterState<D>,
    p: NodeNo,
    line: LineNo,
    seg: SegNo,
    by: Option<At>,
    merged: Merged,
) -> Result<(), NoMemory>
    requires running { cluster.old.ended ≡ false }
    requires node { IsNode cluster.old.nodes p.0 }
    requires primary { primary_of (printed cluster.old.log) ≡ Some p }
    requires unwritten { is_unwritten (open_merge seg.0 cluster.old.rest.tasks.rows) ≡ true }
    requires merged { IsMergedOut cluster.old.log seg merged }
    ensures ok { OnOk result (EndsBuild line seg by cluster.old cluster.new true) }
    ensures rest { OnOk result (KeepsBuilt seg cluster.old cluster.new) }
    ensures err { OnErr result (IsEnded cluster.old cluster.new) }
{
    let Some(at) = cluster.ledger.merge_on(seg) else {
        unreachable!()
    };
    cluster.ended = true;
    let nodes = replicas(alloc, cluster.ledger.book())?;
    let before = met_before(alloc, &mut cluster.ledger, &cluster.places, nodes.len() + 2)?;
    ready_there(
        alloc,
        &mut cluster.ledger,
        &mut cluster.tasks,
        &mut cluster.places,
        p,
        at,
        line,
        seg,
        by,
        merged,
        nodes.as_slice(),
        before.as_slice(),
    )?;
    cluster.ended = false;
    Ok(())
}
