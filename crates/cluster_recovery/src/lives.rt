//! Crashes and reopenings of nodes.

ghost use Rattle.std.specs.Prelude.{ℕ, ◌≡◌, ◌≤◌, ◌+◌, ◌*◌, ◌==◌, ◌∷◌, [], false, true, if◌then◌else◌, map, length, OnOk, OnErr};
ghost use Rattle.disk_model.specs.Faults.{ended};
ghost use Rattle.history_rules.specs.Nodes.{IsNode, is_running, is_at, primary_of};
ghost use Rattle.history_rules.specs.Lines.{entries_of_line, is_answered};
ghost use Rattle.history_rules.specs.Legal.{IsLegalPast};
ghost use Rattle.history_book.specs.Log.{printed, shown};
ghost use Rattle.history_book.specs.Turns.{AreInTurn};
ghost use Rattle.cluster_state.specs.Met.{ArePlanned, met_in, with_met};
ghost use Rattle.cluster_state.specs.GivesUp.{met_log};
ghost use Rattle.cluster_state.specs.Run.{files_at, names_at, plans_at, IsNow, IsEnded};
ghost use Rattle.cluster_state.specs.Keeping.{TellsSameOfOthers, KeepsButNode};
ghost use Rattle.cluster_state.specs.Lives.{Reopens};
ghost use Rattle.cluster_state.specs.LifeCalls.{crashed_tasks, CrashesDir};
ghost use Rattle.cluster_recovery.specs.Crashes.{CrashTells};

use crate::commits::note_own;
use crate::down::{has_failed, is_planned_at, note_down};
use crate::falls::end_all;
use cluster_nodes::{NodePlace, Went, crash_in, files_last, reopen_in};
use cluster_state::{ClusterState, are_planned, met_before, node_kinds, show_met};
use disk_model::FaultDir;
use history_rules::Event;
use merge_tasks::Ledger;
use nrt_base::{At, NoMemory, NodeNo};
use std::alloc::{AllocError, Global};

// Appends the faults that were met, and the crash of a node.
fn note_crashed<D: FaultDir + Drop>(
    ledger: &mut Ledger,
    at: At,
    n: NodeNo,
    before: &[(u64, u64)],
    places: &Vec<Option<NodePlace<D>>>,
)
    requires room { 2 * length before.now + 1 ≤ ledger.old.room }
    requires count { length before.now ≡ ledger.old.nodes }
    requires places { length places.now.items ≡ ledger.old.nodes }
    requires few { length before.now ≤ 255 }
    requires planned { ArePlanned 1 before.now (map (met_in D.planned) places.now.items)
        (printed ledger.old.log) }
    requires unanswered { is_answered at (printed ledger.old.log) ≡ false }
    requires node { IsNode ledger.old.nodes n.0 }
    requires up { is_running n.0 (printed ledger.old.log) ≡ true }
    ensures log { ledger.new.log ≡ shown at (Event.Crashed n)
        ∷ with_met false at 1 before.now (map (met_in D.planned) places.now.items) ledger.old.log }
    ensures nodes { ledger.new.nodes ≡ ledger.old.nodes }
    ensures cut { ledger.new.cut ≡ (if is_at (primary_of (printed (with_met false at 1 before.now
        (map (met_in D.planned) places.now.items) ledger.old.log))) n.0
        then false else ledger.old.cut) }
    ensures legal { IsLegalPast ledger.old.nodes (printed (with_met false at 1 before.now
        (map (met_in D.planned) places.now.items) ledger.old.log)) }
    ensures turns { AreInTurn (printed (with_met false at 1 before.now
        (map (met_in D.planned) places.now.items) ledger.old.log)) }
{
    show_met(ledger, at, before, places);
    ledger.show_crashed(at, n);
}

/// Crashes a running node. Its tickets and searches are gone with it, and its directory is one that a crash may leave: the
/// number picks among these. The faults that were planned for its disk end. Jobs at other nodes have the files that they had: where the
/// primary crashed they were stopped. Where a disk failed at another node, by a plan that the history shows, that stands before it.
/// It fails when out of memory: the cluster has ended, and the history is as before.
pub fn crash_node<D: FaultDir + Drop>(
    alloc: Global,
    cluster: &mut ClusterState<D>,
    at: At,
    n: NodeNo,
    pick: u64,
) -> Result<(), NoMemory>
    requires running { cluster.old.ended ≡ false }
    requires fresh { entries_of_line at (printed cluster.old.log) ≡ [] }
    requires node { IsNode cluster.old.nodes n.0 }
    requires up { is_running n.0 (printed cluster.old.log) ≡ true }
    ensures ok { OnOk result (IsNow cluster.old cluster.new
        (shown at (Event.Crashed n) ∷ met_log at cluster.old cluster.new)) }
    ensures plans { OnOk result (plans_at n.0 cluster.new ≡ ended (plans_at n.0 cluster.old)) }
    ensures dir { OnOk result (CrashesDir D.cells D.names D.leaves n.0 pick cluster.old cluster.new) }
    ensures stays { OnOk result ((m : ℕ) → (n.0 == m) ≡ false
        → files_at m cluster.new ≡ files_at m cluster.old) }
    ensures rest { OnOk result (CrashTells true (is_at (primary_of (printed cluster.old.log)) n.0)
        n.0 cluster.old cluster.new) }
    ensures tasks { OnOk result (cluster.new.rest.tasks ≡ crashed_tasks
        (is_at (primary_of (printed cluster.old.log)) n.0) cluster.old.rest.tasks) }
    ensures err { OnErr result (IsEnded cluster.old cluster.new) }
{
    let primary = cluster.primary();
    let book = cluster.ledger.book();
    book.is_fresh(at);
    files_last();
    cluster.ended = true;
    let before = met_before(alloc, &mut cluster.ledger, &cluster.places, 1)?;
    end_all(alloc, &mut cluster.places, &mut cluster.tasks, primary, n)?;
    crash_in(alloc, &mut cluster.places, n, pick)?;
    if !are_planned(cluster.ledger.book(), before.as_slice(), &cluster.places) {
        return Err(AllocError);
    }
    note_crashed(
        &mut cluster.ledger,
        at,
        n,
        before.as_slice(),
        &cluster.places,
    );
    cluster.ledger.book().is_idle();
    note_own(&mut cluster.carries, n, false);
    cluster.ended = false;
    Ok(())
}

/// Reopens a node that is down as a replica, at a version of its commits. Where its disk fails, by a plan that the history shows, the line is
/// refused and the node stays down. It fails when out of memory: the cluster has ended, and the history is as before.
pub fn reopen_node<D: FaultDir + Drop>(
    alloc: Global,
    cluster: &mut ClusterState<D>,
    at: At,
    n: NodeNo,
) -> Result<(), NoMemory>
    requires running { cluster.old.ended ≡ false }
    requires fresh { entries_of_line at (printed cluster.old.log) ≡ [] }
    requires node { IsNode cluster.old.nodes n.0 }
    requires down { is_running n.0 (printed cluster.old.log) ≡ false }
    ensures ok { OnOk result (Reopens at n cluster.old cluster.new) }
    ensures rest { OnOk result (KeepsButNode n.0 cluster.old cluster.new) }
    ensures disks { OnOk result (TellsSameOfOthers plans_at n.0 cluster.old cluster.new) }
    ensures names { OnOk result (TellsSameOfOthers names_at n.0 cluster.old cluster.new) }
    ensures err { OnErr result (IsEnded cluster.old cluster.new) }
{
    let book = cluster.ledger.book();
    book.is_fresh(at);
    book.is_legal();
    book.is_idle();
    files_last();
    cluster.ended = true;
    cluster.ledger.reserve(3)?;
    let before = node_kinds(&cluster.places, n);
    let went = reopen_in(alloc, &mut cluster.places, n)?;
    let now = node_kinds(&cluster.places, n);
    match went {
        Went::Done(v) => {
            if has_failed(before, now) {
                return Err(AllocError);
            }
            cluster.ledger.show(at, Event::Reopened { n, v });
            cluster.ended = false;
            Ok(())
        }
        Went::Failed => {
            if !has_failed(before, now) {
                return Err(AllocError);
            }
            if !is_planned_at(cluster.ledger.book(), n, before, now) {
                return Err(AllocError);
            }
            note_down(&mut cluster.ledger, at, n, before, now);
            cluster.ended = false;
            Ok(())
        }
    }
}
