//! Merges that start.

ghost use Rattle.std.specs.Prelude.{◌≡◌, ◌≢◌, ◌≤◌, [], false, Some, IfOk, OnOk, OnErr};
ghost use Rattle.history_rules.specs.Nodes.{IsNode, primary_of};
ghost use Rattle.history_rules.specs.Lines.{entries_of_line};
ghost use Rattle.history_book.specs.Log.{printed};
ghost use Rattle.cluster_state.specs.Run.{IsEnded};
ghost use Rattle.cluster_merges.specs.MergePaths.{StartsMergeFor};
ghost use Rattle.cluster_merges.specs.MergesKept.{KeepsButSizes};

use cluster_nodes::PublishFault;
use cluster_state::ClusterState;
use disk_model::FaultDir;
use history_book::Inner;
use history_rules::Cause;
use node_merges::{ask_in, sizes_in};
use nrt_base::{At, NoMemory, NodeNo, Share};
use std::alloc::{AllocError, Global};

// Why no merge starts, where memory was found.
fn none_starts(fault: PublishFault) -> Result<Cause, NoMemory>
    requires { fault ≢ PublishFault.TooManySegments }
    ensures { IfOk result (λ cause. (fault ≡ PublishFault.NamesSpent)
        × (cause ≡ Cause.NamesSpent)) }
{
    match fault {
        PublishFault::NamesSpent => Ok(Cause::NamesSpent),
        PublishFault::Memory => Err(AllocError),
        PublishFault::TooManySegments => unreachable!(),
    }
}

/// Starts a merge of the first neighbours that are chosen, and posts the task to build its segment. Where none starts it is answered why,
/// and all is as before. It fails when out of memory: the cluster has ended, and the history is as before.
pub fn start_merge<D: FaultDir + Drop>(
    alloc: Global,
    cluster: &mut ClusterState<D>,
    at: At,
    p: NodeNo,
    factor: u32,
) -> Result<Option<Cause>, NoMemory>
    requires running { cluster.old.ended ≡ false }
    requires fresh { entries_of_line at (printed cluster.old.log) ≡ [] }
    requires node { IsNode cluster.old.nodes p.0 }
    requires primary { primary_of (printed cluster.old.log) ≡ Some p }
    requires factor { 2 ≤ factor }
    ensures ok { IfOk result (StartsMergeFor at factor cluster.old cluster.new) }
    ensures rest { OnOk result (KeepsButSizes cluster.old cluster.new) }
    ensures err { OnErr result (IsEnded cluster.old cluster.new) }
{
    let book = cluster.ledger.book();
    book.is_fresh(at);
    book.is_legal();
    cluster.ended = true;
    cluster.ledger.reserve(2)?;
    let sizes = sizes_in(alloc, &cluster.places, p)?;
    let task = match ask_in(alloc, &mut cluster.places, p, factor) {
        Ok(Some(task)) => task,
        Ok(None) => {
            drop(sizes);
            cluster.ended = false;
            return Ok(Some(Cause::Nothing));
        }
        Err(fault) => {
            drop(sizes);
            let cause = none_starts(fault)?;
            cluster.ended = false;
            return Ok(Some(cause));
        }
    };
    let line = at.line;
    let seg = task.seg;
    let inputs = task.inputs.share(alloc)?;
    cluster.tasks.begin(seg, line, task)?;
    cluster.ledger.show_merging(at, seg);
    cluster.ledger.keep(Inner::MergeOut {
        line,
        seg,
        inputs,
        sizes,
    });
    cluster.ended = false;
    Ok(None)
}
