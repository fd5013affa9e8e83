//! Faults that a script plans.

ghost use Rattle.std.specs.Prelude.{◌≡◌, ◌<◌, [], true, false, OnOk, OnErr};
ghost use Rattle.history_rules.specs.Nodes.{IsNode};
ghost use Rattle.history_rules.specs.Lines.{entries_of_line};
ghost use Rattle.history_book.specs.Log.{printed};
ghost use Rattle.script_serving.specs.Form.{is_plan};
ghost use Rattle.cluster_state.specs.Run.{IsNow, KeepsRest, IsEnded};
ghost use Rattle.cluster_recovery.specs.Planning.{PlansFault, ReplansDisk};

use cluster_nodes::{plan_in, put, stop_in, take};
use cluster_state::ClusterState;
use disk_model::FaultDir;
use history_rules::{Event, FaultPlan};
use nrt_base::{At, NoMemory, NodeNo};

// The k-th counted call of the disk of a node from now fails once.
fn plan_once<D: FaultDir + Drop>(cluster: &mut ClusterState<D>, n: NodeNo, k: u64)
    requires running { cluster.old.ended ≡ false }
    requires node { IsNode cluster.old.nodes n.0 }
    requires some { 0 < k }
    ensures now { IsNow cluster.old cluster.new cluster.old.log }
    ensures rest { KeepsRest cluster.old cluster.new }
    ensures plans { ReplansDisk n.0 (λ p. record p { once = k }) cluster.old cluster.new }
{
    let mut place = take(&mut cluster.places, n);
    plan_in(&mut place, k);
    put(&mut cluster.places, n, place);
}

// The k-th counted call of the disk of a node from now and every later one fail.
fn plan_stop<D: FaultDir + Drop>(cluster: &mut ClusterState<D>, n: NodeNo, k: u64)
    requires running { cluster.old.ended ≡ false }
    requires node { IsNode cluster.old.nodes n.0 }
    requires some { 0 < k }
    ensures now { IsNow cluster.old cluster.new cluster.old.log }
    ensures rest { KeepsRest cluster.old cluster.new }
    ensures plans { ReplansDisk n.0 (λ p. record p { stop = k }) cluster.old cluster.new }
{
    let mut place = take(&mut cluster.places, n);
    stop_in(&mut place, k);
    put(&mut cluster.places, n, place);
}

/// Plans a fault at a node, which may be down: of its disk, or of the link or the bytes of a file for it. A plan takes the place of the one of its
/// kind. It fails when out of memory: the cluster has ended, and the history is as before.
pub fn plan_fault<D: FaultDir + Drop>(
    cluster: &mut ClusterState<D>,
    at: At,
    n: NodeNo,
    plan: FaultPlan,
) -> Result<(), NoMemory>
    requires running { cluster.old.ended ≡ false }
    requires fresh { entries_of_line at (printed cluster.old.log) ≡ [] }
    requires node { IsNode cluster.old.nodes n.0 }
    requires plan { is_plan plan ≡ true }
    ensures ok { OnOk result (PlansFault at n plan cluster.old cluster.new) }
    ensures err { OnErr result (IsEnded cluster.old cluster.new) }
{
    cluster.book().is_fresh(at);
    cluster.is_apart(at);
    cluster.has_no_commit(at);
    cluster.note(at, Event::Planned { n, plan })?;
    match plan {
        FaultPlan::Disk(k) => plan_once(cluster, n, k as u64),
        FaultPlan::Stop(k) => plan_stop(cluster, n, k as u64),
        FaultPlan::Link(_) | FaultPlan::Damage(_, _) => {}
    }
    Ok(())
}
