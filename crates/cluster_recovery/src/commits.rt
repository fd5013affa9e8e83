//! Commits of nodes.

ghost use Rattle.std.specs.Prelude.{ℕ, ◌≡◌, ◌≤◌, ◌==◌, ◌+◌, ◌*◌, [], ◌∷◌, false, true, None, Some, OnOk, OnErr, IfOk, IsSome, length, map};
ghost use Rattle.history_rules.specs.Nodes.{IsNode, is_running};
ghost use Rattle.history_rules.specs.Lines.{start_entry, entries_of_line, commit_in_flight, is_answered};
ghost use Rattle.history_rules.specs.Commits.{is_stuck};
ghost use Rattle.history_rules.specs.Rules.{MayCommit};
ghost use Rattle.history_rules.specs.Legal.{KeepsRule, IsLegalPast};
ghost use Rattle.history_book.specs.Log.{printed, shown};
ghost use Rattle.history_book.specs.Turns.{AreInTurn};
ghost use Rattle.cluster_nodes.specs.Places.{place_of, IsSlot};
ghost use Rattle.cluster_nodes.specs.Commits.{HasStageAt};
ghost use Rattle.cluster_state.specs.CallsLeft.{has_own};
ghost use Rattle.cluster_state.specs.Met.{ArePlanned, met_in, with_met, has_risen as has_risen_at};
ghost use Rattle.cluster_state.specs.Run.{IsEnded};
ghost use Rattle.cluster_state.specs.Lives.{BeginsCommit, StepsCommit};
ghost use Rattle.cluster_state.specs.Keeping.{KeepsButCommit};
ghost use Rattle.cluster_recovery.specs.Commits.{CallsFor};

use cluster_nodes::{CommitTask, NodePlace, Went, begin_commit_in, committing_in, step_commit_in};
use cluster_state::{ClusterState, are_planned, has_risen, met_before, note_met, show_met};
use disk_model::FaultDir;
use history_book::Book;
use history_facts::was_searched_since;
use history_rules::{Cause, Event};
use merge_tasks::Ledger;
use nrt_base::{At, NoMemory, NodeNo, Version};
use std::alloc::{AllocError, Global};

// Whether the line whose commit is in flight at a node has its own still to begin.
fn has_own_at(carries: &[bool; 255], n: NodeNo) -> bool
    requires { 1 ≤ n.0 }
    ensures { result ≡ has_own n.0 carries.now }
{
    carries[n.0 as usize - 1]
}

// Notes whether it has.
pub(crate) fn note_own(carries: &mut [bool; 255], n: NodeNo, own: bool)
    requires { 1 ≤ n.0 }
    ensures own { has_own n.0 carries.new ≡ own }
    ensures others { (m : ℕ) → 1 ≤ m → (n.0 == m) ≡ false
        → has_own m carries.new ≡ has_own m carries.old }
{
    carries[n.0 as usize - 1] = own;
}

/// Starts a commit of the version that the running node searches, where no line has one in flight there. It begins in this call, or
/// else, where an older one was stopped, once that one is made. The directory is not called. It fails when out of memory, or out of
/// numbers below 2^62: the cluster has ended, and the history is as before.
pub fn begin_commit<D: FaultDir + Drop>(
    alloc: Global,
    cluster: &mut ClusterState<D>,
    at: At,
    n: NodeNo,
) -> Result<CommitTask, NoMemory>
    requires running { cluster.old.ended ≡ false }
    requires fresh { entries_of_line at (printed cluster.old.log) ≡ [] }
    requires node { IsNode cluster.old.nodes n.0 }
    requires up { is_running n.0 (printed cluster.old.log) ≡ true }
    requires free { commit_in_flight n.0 (printed cluster.old.log) ≡ None }
    ensures ok { IfOk result (BeginsCommit at n cluster.old cluster.new) }
    ensures rest { OnOk result (KeepsButCommit n.0 cluster.old cluster.new) }
    ensures err { OnErr result (IsEnded cluster.old cluster.new) }
{
    let book = cluster.ledger.book();
    book.is_fresh(at);
    book.is_legal();
    let version = Version(book.version(n));
    cluster.ended = true;
    if has_own_at(&cluster.carries, n) {
        return Err(AllocError);
    }
    cluster.ledger.reserve(1)?;
    match committing_in(&cluster.places, n) {
        Some(_) => {
            note_own(&mut cluster.carries, n, true);
            cluster.ledger.show(at, Event::Committing { n, v: version });
            cluster.ended = false;
            Ok(CommitTask { node: n, version })
        }
        None => {
            begin_commit_in(alloc, &mut cluster.places, n)?;
            cluster.ledger.show(at, Event::Committing { n, v: version });
            cluster.ended = false;
            Ok(CommitTask { node: n, version })
        }
    }
}

// How a call for a commit went.
#[derive(Drop)]
enum Called {
    // It was not the last one.
    Goes,
    // It was the last one of a commit that was stopped, and the line's own has begun.
    Carried,
    // It was the last one of the line's own.
    Made,
    // The disk failed.
    Failed,
}

// Makes the next call of the directory for the commit in flight of the node in a place. Behind the last one of a commit that was
// stopped, as one of a stuck node, the line's own begins. It fails when out of memory, or out of numbers below 2^62.
fn call_for<D: FaultDir + Drop>(
    alloc: Global,
    places: &mut Vec<Option<NodePlace<D>>>,
    n: NodeNo,
    carries: bool,
    stuck: bool,
) -> Result<Called, NoMemory>
    requires slot { IsSlot places.old.items n.0 }
    requires in_flight { HasStageAt IsSome (place_of places.old.items n.0) }
    ensures { IfOk result (CallsFor D.cells n.0 carries stuck places.old.items places.new.items) }
{
    match step_commit_in(alloc, places, n)? {
        Went::Failed => Ok(Called::Failed),
        Went::Done(false) => Ok(Called::Goes),
        Went::Done(true) => {
            if !carries {
                return Ok(Called::Made);
            }
            if !stuck {
                return Err(AllocError);
            }
            begin_commit_in(alloc, places, n)?;
            Ok(Called::Carried)
        }
    }
}

// Whether the commit in flight of a line that started at one version may be acknowledged for another. It may, where the line's own
// began later than the line.
fn may_commit(book: &Book, at: At, n: NodeNo, v: Version, w: Version) -> bool
    requires node { IsNode book.now.nodes n.0 }
    requires flight { commit_in_flight n.0 (printed book.now.log) ≡ Some at }
    requires started { start_entry at (printed book.now.log) ≡ Some (Event.Committing n v) }
    ensures may { result ≡ true → MayCommit book.now.nodes (printed book.now.log) at n w }
    ensures exact { result ≡ true → is_stuck n.0 (printed book.now.log) ≡ false → w ≡ v }
{
    book.commit_may_end(at, n, v);
    if w == v {
        return true;
    }
    book.is_stuck(n) && was_searched_since(at, n, w, book.entries())
}

// Appends the faults that were met, one of them by the node's disk, and that the line of the commit in flight is refused for it.
fn note_stopped<D: FaultDir + Drop>(
    ledger: &mut Ledger,
    at: At,
    n: NodeNo,
    before: &[(u64, u64)],
    places: &Vec<Option<NodePlace<D>>>,
)
    requires room { 2 * length before.now + 1 ≤ ledger.old.room }
    requires count { length before.now ≡ ledger.old.nodes }
    requires places { length places.now.items ≡ ledger.old.nodes }
    requires few { length before.now ≤ 255 }
    requires planned { ArePlanned 1 before.now (map (met_in D.planned) places.now.items)
        (printed ledger.old.log) }
    requires risen { has_risen_at n.0 1 before.now (map (met_in D.planned) places.now.items) ≡ true }
    requires unanswered { is_answered at (printed ledger.old.log) ≡ false }
    requires flight { commit_in_flight n.0 (printed ledger.old.log) ≡ Some at }
    ensures log { ledger.new.log ≡ shown at (Event.Refused Cause.DiskFault)
        ∷ with_met false at 1 before.now (map (met_in D.planned) places.now.items) ledger.old.log }
    ensures nodes { ledger.new.nodes ≡ ledger.old.nodes }
    ensures cut { ledger.new.cut ≡ ledger.old.cut }
    ensures legal { IsLegalPast ledger.old.nodes (printed (with_met false at 1 before.now
        (map (met_in D.planned) places.now.items) ledger.old.log)) }
    ensures turns { AreInTurn (printed (with_met false at 1 before.now
        (map (met_in D.planned) places.now.items) ledger.old.log)) }
    ensures rule { KeepsRule ledger.old.nodes (printed (with_met false at 1 before.now
        (map (met_in D.planned) places.now.items) ledger.old.log)) at (Event.Refused Cause.DiskFault) }
{
    show_met(ledger, at, before, places);
    ledger.book().is_legal();
    let cause = Cause::DiskFault;
    ledger.show(at, Event::Refused { cause });
}

/// Makes the next call of the directory for the commit in flight of the line at the node, and answers whether the commit is
/// made, which is then shown. Behind the last call for a commit that was stopped the line's own begins, and the answer is false. Where the
/// disk failed, by a plan that the history shows, the commit stays as it is, and its line is refused. It fails when out of memory, or out of
/// numbers below 2^62: the cluster has ended, and the history is as before.
pub fn step_commit<D: FaultDir + Drop>(
    alloc: Global,
    cluster: &mut ClusterState<D>,
    at: At,
    n: NodeNo,
    v: Version,
) -> Result<Went<bool>, NoMemory>
    requires running { cluster.old.ended ≡ false }
    requires node { IsNode cluster.old.nodes n.0 }
    requires flight { commit_in_flight n.0 (printed cluster.old.log) ≡ Some at }
    requires started { start_entry at (printed cluster.old.log) ≡ Some (Event.Committing n v) }
    ensures ok { IfOk result (StepsCommit at n v cluster.old cluster.new) }
    ensures rest { OnOk result (KeepsButCommit n.0 cluster.old cluster.new) }
    ensures err { OnErr result (IsEnded cluster.old cluster.new) }
{
    let book = cluster.ledger.book();
    book.is_legal();
    book.commit_found(at, n);
    book.is_unanswered(at);
    let stuck = book.is_stuck(n);
    cluster.ended = true;
    let carries = has_own_at(&cluster.carries, n);
    let Some(w) = committing_in(&cluster.places, n) else {
        return Err(AllocError);
    };
    let before = met_before(alloc, &mut cluster.ledger, &cluster.places, 1)?;
    let called = call_for(alloc, &mut cluster.places, n, carries, stuck)?;
    if !are_planned(cluster.ledger.book(), before.as_slice(), &cluster.places) {
        return Err(AllocError);
    }
    match called {
        Called::Goes => {
            show_met(&mut cluster.ledger, at, before.as_slice(), &cluster.places);
            cluster.ended = false;
            Ok(Went::Done(false))
        }
        Called::Carried => {
            show_met(&mut cluster.ledger, at, before.as_slice(), &cluster.places);
            note_own(&mut cluster.carries, n, false);
            cluster.ended = false;
            Ok(Went::Done(false))
        }
        Called::Made => {
            if !may_commit(cluster.ledger.book(), at, n, v, w) {
                return Err(AllocError);
            }
            let event = Event::Committed { n, v: w };
            note_met(
                &mut cluster.ledger,
                at,
                before.as_slice(),
                &cluster.places,
                event,
            );
            cluster.ended = false;
            Ok(Went::Done(true))
        }
        Called::Failed => {
            if !has_risen(n, before.as_slice(), &cluster.places) {
                return Err(AllocError);
            }
            note_stopped(
                &mut cluster.ledger,
                at,
                n,
                before.as_slice(),
                &cluster.places,
            );
            note_own(&mut cluster.carries, n, false);
            cluster.ended = false;
            Ok(Went::Failed)
        }
    }
}
