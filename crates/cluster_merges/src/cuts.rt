//! Merges that are cut over, or given up there.

ghost use Rattle.std.specs.Prelude.{◌≡◌, ◌≤◌, ◌+◌, ◌*◌, true, false, None, Some, IfOk, OnOk, OnErr, length};
ghost use Rattle.history_rules.specs.Nodes.{IsNode, primary_of};
ghost use Rattle.history_rules.specs.Lines.{publish_in_flight};
ghost use Rattle.history_book.specs.Log.{printed};
ghost use Rattle.merge_tasks.specs.Board.{open_merge, spread_at, is_copied};
ghost use Rattle.cluster_nodes.specs.Went.{ByWent};
ghost use Rattle.cluster_state.specs.Run.{IsEnded};
ghost use Rattle.cluster_merges.specs.Running.{AllShown};
ghost use Rattle.cluster_merges.specs.TaskMet.{mets, EndsMergeOf, GivesUpOf};
ghost use Rattle.cluster_merges.specs.MergePaths.{CutsOver};
ghost use Rattle.cluster_merges.specs.MergesKept.{KeepsButCut, TellsButSizes};

use crate::met::end_behind;
use cluster_nodes::{NodePlace, Went};
use cluster_state::{ClusterState, files_last, has_risen, met_before};
use disk_model::FaultDir;
use history_book::Step;
use merge_tasks::{Ledger, Tasks};
use node_merges::cut_in;
use nrt_base::{At, LineNo, NoMemory, NodeNo, SegNo};
use std::alloc::{AllocError, Global};

// Cuts a merge over, or gives it up where the primary's disk fails, after which what is true of a cluster that runs is true again.
fn cut_there<D: FaultDir + Drop>(
    alloc: Global,
    ledger: &mut Ledger,
    tasks: &mut Tasks,
    places: &mut Vec<Option<NodePlace<D>>>,
    p: NodeNo,
    at: At,
    line: LineNo,
    seg: SegNo,
    by: Option<At>,
    before: &[(u64, u64)],
) -> Result<Went<()>, NoMemory>
    requires room { 2 * length before.now + 2 ≤ ledger.old.room }
    requires before { before.now ≡ mets D.planned places.old.items }
    requires shown { AllShown D.cells ledger.old tasks.old places.old.items }
    requires node { IsNode ledger.old.nodes p.0 }
    requires primary { primary_of (printed ledger.old.log) ≡ Some p }
    requires copied { is_copied (spread_at (open_merge seg.0 tasks.old.rows)) ≡ true }
    requires calm { publish_in_flight (printed ledger.old.log) ≡ None }
    ensures shown { OnOk result (AllShown D.cells ledger.new tasks.new places.new.items) }
    ensures ok { IfOk result (ByWent (λ done. EndsMergeOf D.planned at line seg by Step.Cut true
        ledger.old ledger.new tasks.old tasks.new places.old.items places.new.items)
        (GivesUpOf D.planned p at line seg by Step.Cut
        ledger.old ledger.new tasks.old tasks.new places.old.items places.new.items)) }
    ensures rest { OnOk result (TellsButSizes places.old.items places.new.items) }
    ensures err { OnErr result (ledger.new ≡ ledger.old) }
{
    files_last();
    let Some(spread) = tasks.close(seg) else {
        unreachable!()
    };
    let went = cut_in(alloc, places, p, seg, spread.state)?;
    tasks.count(by)?;
    match went {
        Went::Done(()) => {
            end_behind(ledger, at, line, seg, by, Step::Cut, true, before, places)?;
            Ok(Went::Done(()))
        }
        Went::Failed => {
            if !has_risen(p, before, places) {
                return Err(AllocError);
            }
            end_behind(ledger, at, line, seg, by, Step::Cut, false, before, places)?;
            Ok(Went::Failed)
        }
    }
}

/// Cuts a merge over whose copies have all ended, while no publish is in flight. Where the primary's disk fails, by a plan that the history
/// shows, the merge is given up. It fails when out of memory: the cluster has ended, and the history is as before.
pub fn cut_merge<D: FaultDir + Drop>(
    alloc: Global,
    cluster: &mut ClusterState<D>,
    p: NodeNo,
    line: LineNo,
    seg: SegNo,
    by: Option<At>,
) -> Result<(), NoMemory>
    requires running { cluster.old.ended ≡ false }
    requires node { IsNode cluster.old.nodes p.0 }
    requires primary { primary_of (printed cluster.old.log) ≡ Some p }
    requires copied { is_copied (spread_at (open_merge seg.0 cluster.old.rest.tasks.rows)) ≡ true }
    requires calm { publish_in_flight (printed cluster.old.log) ≡ None }
    ensures ok { OnOk result (CutsOver line seg by cluster.old cluster.new) }
    ensures rest { OnOk result (KeepsButCut cluster.old cluster.new) }
    ensures err { OnErr result (IsEnded cluster.old cluster.new) }
{
    let Some(at) = cluster.ledger.merge_on(seg) else {
        unreachable!()
    };
    cluster.ended = true;
    let before = met_before(alloc, &mut cluster.ledger, &cluster.places, 2)?;
    cut_there(
        alloc,
        &mut cluster.ledger,
        &mut cluster.tasks,
        &mut cluster.places,
        p,
        at,
        line,
        seg,
        by,
        before.as_slice(),
    )?;
    cluster.ended = false;
    Ok(())
}
