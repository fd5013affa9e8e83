//! Settles: how one begins, and the replica that it copies to next.

ghost use Rattle.std.specs.Prelude.{◌≡◌, ◌≢◌, ◌≤◌, ◌∷◌, [], false, None, IfOk, OnOk, OnErr, IfSome};
ghost use Rattle.std.specs.List.{All};
ghost use Rattle.history_rules.specs.Nodes.{primary_of};
ghost use Rattle.history_rules.specs.Lines.{entries_of_line, SourceSurvives};
ghost use Rattle.history_rules.specs.Rules.{IsLineWhole, MaySettle};
ghost use Rattle.history_book.specs.Log.{printed, shown};
ghost use Rattle.cluster_state.specs.Settles.{IsSettling, WaitsFor};
ghost use Rattle.cluster_state.specs.Run.{IsNow, KeepsRest, IsEnded};
ghost use Rattle.cluster_state.specs.Copies.{newest_of};

use cluster_nodes::SettleTask;
use cluster_state::{ClusterState, replicas};
use disk_model::FaultDir;
use history_rules::Event;
use nrt_base::{At, NoMemory, NodeNo, Version};
use std::alloc::Global;

/// Starts a settle at the newest version, of all replicas that run.
pub fn begin_settle<D: FaultDir + Drop>(
    alloc: Global,
    cluster: &mut ClusterState<D>,
    at: At,
) -> Result<SettleTask, NoMemory>
    requires running { cluster.old.ended ≡ false }
    requires fresh { entries_of_line at (printed cluster.old.log) ≡ [] }
    requires source { primary_of (printed cluster.old.log) ≢ None }
    ensures ok { OnOk result (IsNow cluster.old cluster.new
        (shown at (Event.Settling (newest_of (printed cluster.old.log))) ∷ cluster.old.log)) }
    ensures settling { IfOk result (IsSettling cluster.new.nodes (printed cluster.new.log) at) }
    ensures rest { OnOk result (KeepsRest cluster.old cluster.new) }
    ensures err { OnErr result (IsEnded cluster.old cluster.new) }
{
    let book = cluster.ledger.book();
    book.is_fresh(at);
    cluster.is_apart(at);
    cluster.has_no_commit(at);
    let version = Version(book.newest());
    let left = match replicas(alloc, book) {
        Ok(left) => left,
        Err(fault) => {
            cluster.ended = true;
            return Err(fault);
        }
    };
    cluster.note(at, Event::Settling { v: version })?;
    Ok(SettleTask { version, left })
}

/// Passes what has reached the settle's version or has crashed since its start, and answers the first replica that is left.
pub fn next_left<D: FaultDir + Drop>(
    cluster: &ClusterState<D>,
    at: At,
    task: &mut SettleTask,
) -> Option<NodeNo>
    requires running { cluster.now.ended ≡ false }
    requires settling { IsSettling cluster.now.nodes (printed cluster.now.log) at task.old }
    requires survives { SourceSurvives (printed cluster.now.log) at }
    ensures settling { IsSettling cluster.now.nodes (printed cluster.now.log) at task.new }
    ensures version { task.new.version ≡ task.old.version }
    ensures first { IfSome result (λ n. All (λ m. n.0 ≤ m.0) task.new.left.items) }
    ensures waits { IfSome result
        (WaitsFor cluster.now.nodes (printed cluster.now.log) at task.new.version.0) }
    ensures done { result ≡ None → IsLineWhole cluster.now.nodes (printed cluster.now.log) at
        → MaySettle cluster.now.nodes (printed cluster.now.log) at task.new.version }
{
    let book = cluster.ledger.book();
    book.is_legal();
    while let Some(n) = task.left.first() {
        let n = *n;
        if book.node_survives(at, n) && book.version(n) < task.version.0 {
            return Some(n);
        }
        task.left.remove(0);
    }
    None
}
