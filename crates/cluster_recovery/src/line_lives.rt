//! Crashes and reopenings of nodes.

ghost use Rattle.std.specs.Prelude.{ℕ, ◌≡◌, ◌==◌, ◌∷◌, [], false, OnOk, OnErr};
ghost use Rattle.history_rules.specs.Nodes.{IsNode, is_running, is_at, primary_of};
ghost use Rattle.history_rules.specs.Lines.{entries_of_line};
ghost use Rattle.history_book.specs.Log.{printed, shown};
ghost use Rattle.cluster_state.specs.Run.{files_at, names_at, plans_at, IsNow, IsEnded};
ghost use Rattle.cluster_state.specs.Keeping.{TellsSameOfOthers, KeepsButNode};
ghost use Rattle.cluster_state.specs.GivesUp.{met_log};
ghost use Rattle.cluster_recovery.specs.Crashes.{CrashTells};
ghost use Rattle.cluster_state.specs.LifeCalls.{crash_event, crashed_plans, crashed_tasks, is_primary, CrashesDirBy, ReopensNode};

use crate::lives::{crash_node, reopen_node};
use cluster_state::{ClusterState, refuse};
use disk_model::FaultDir;
use history_rules::Cause;
use nrt_base::{At, NoMemory, NodeNo};
use std::alloc::Global;

/// Crashes a node: the faults that were planned for its disk end with it, and the tasks of merges where it is the primary. Jobs at other
/// nodes lack and have what they did.
pub fn crash<D: FaultDir + Drop>(
    state: &mut ClusterState<D>,
    alloc: Global,
    at: At,
    n: NodeNo,
    pick: u64,
) -> Result<(), NoMemory>
    requires running { state.old.ended ≡ false }
    requires fresh { entries_of_line at (printed state.old.log) ≡ [] }
    requires node { IsNode state.old.nodes n.0 }
    ensures ok { OnOk result (IsNow state.old state.new
        (shown at (crash_event n (printed state.old.log)) ∷ met_log at state.old state.new)) }
    ensures plans { OnOk result (plans_at n.0 state.new
        ≡ crashed_plans (is_running n.0 (printed state.old.log)) (plans_at n.0 state.old)) }
    ensures dir { OnOk result (CrashesDirBy (is_running n.0 (printed state.old.log))
        D.cells D.names D.leaves n.0 pick state.old state.new) }
    ensures stays { OnOk result ((m : ℕ) → (n.0 == m) ≡ false
        → files_at m state.new ≡ files_at m state.old) }
    ensures rest { OnOk result (CrashTells (is_running n.0 (printed state.old.log))
        (is_at (primary_of (printed state.old.log)) n.0) n.0 state.old state.new) }
    ensures tasks { OnOk result (state.new.rest.tasks
        ≡ crashed_tasks (is_primary n.0 (printed state.old.log)) state.old.rest.tasks) }
    ensures err { OnErr result (IsEnded state.old state.new) }
{
    if !state.book().runs(n) {
        return refuse(state, at, Cause::Down);
    }
    crash_node(alloc, state, at, n, pick)
}

/// Reopens a node, or refuses the line, as the node's disk failed or the node runs.
pub fn reopen<D: FaultDir + Drop>(
    state: &mut ClusterState<D>,
    alloc: Global,
    at: At,
    n: NodeNo,
) -> Result<(), NoMemory>
    requires running { state.old.ended ≡ false }
    requires fresh { entries_of_line at (printed state.old.log) ≡ [] }
    requires node { IsNode state.old.nodes n.0 }
    ensures ok { OnOk result (ReopensNode at n state.old state.new) }
    ensures rest { OnOk result (KeepsButNode n.0 state.old state.new) }
    ensures disks { OnOk result (TellsSameOfOthers plans_at n.0 state.old state.new) }
    ensures names { OnOk result (TellsSameOfOthers names_at n.0 state.old state.new) }
    ensures err { OnErr result (IsEnded state.old state.new) }
{
    if state.book().runs(n) {
        return refuse(state, at, Cause::Up);
    }
    reopen_node(alloc, state, at, n)
}
