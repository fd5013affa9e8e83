//! Tickets and searches of nodes.

ghost use Rattle.std.specs.Prelude.{◌≡◌, ◌≢◌, ◌==◌, ◌∷◌, [], false, true, Some, ℕ, Option, OnOk, OnErr, IfOk};
ghost use Rattle.nrt_base.specs.declared.numbers.NodeNo.{NodeNo};
ghost use Rattle.history_rules.specs.Nodes.{Past, IsNode, is_running, version_of};
ghost use Rattle.history_rules.specs.Lines.{is_answered, is_start, start_entry, entries_of_line, commit_in_flight};
ghost use Rattle.history_rules.specs.FaultLaws.{stands_over};
ghost use Rattle.history_rules.specs.Tickets.{has_ticket, open_ticket};
ghost use Rattle.history_rules.specs.Legal.{KeepsRule};
ghost use Rattle.history_tables.specs.Openings.{opens_ticket, ticket_of};
ghost use Rattle.history_book.specs.Log.{printed, shown};
ghost use Rattle.history_book.specs.Told.{IsSo};
ghost use Rattle.history_book.specs.Turns.{InTurn};
ghost use Rattle.cluster_state.specs.GivesUp.{met_log};
ghost use Rattle.cluster_state.specs.Run.{IsNow, KeepsRest, IsEnded};
ghost use Rattle.cluster_state.specs.State.{ReadsAt};
ghost use Rattle.cluster_state.specs.Moves.{moves, moves_tickets, EndsKey};
ghost use Rattle.cluster_state.specs.FileChanges.{keeps_jobs, keeps_commits};
ghost use Rattle.merge_tasks.specs.TaskLog.{is_drained};

use cluster_nodes::{HeldKey, give_ticket_back, hold_ticket, lease_in, put, take};
use cluster_state::{ClusterState, are_planned, met_before, note_met};
use disk_model::FaultDir;
use history_book::Opening;
use history_rules::Event;
use nrt_base::{At, NoMemory, NodeNo, TicketNo, Version};
use searcher_switch::Lease;
use seg_reader::Segment;
use std::alloc::{AllocError, Global};

/// Opens ticket `t` of the lane of `at`, on the point that the running node `n` searches, and appends `Opened` with that
/// point's version. `t` is above 0, and the lane has no open ticket of that number. The point's files stay until the ticket
/// is closed or the node crashes. It fails when out of memory: the cluster has ended, and its log is as before.
pub fn open_ticket<D: FaultDir + Drop>(
    alloc: Global,
    cluster: &mut ClusterState<D>,
    at: At,
    n: NodeNo,
    t: TicketNo,
) -> Result<(), NoMemory>
    requires running { cluster.old.ended ≡ false }
    requires fresh { entries_of_line at (printed cluster.old.log) ≡ [] }
    requires node { IsNode cluster.old.nodes n.0 }
    requires up { is_running n.0 (printed cluster.old.log) ≡ true }
    requires number { t.0 ≢ 0 }
    requires free { has_ticket at.lane.0 t.0 (printed cluster.old.log) ≡ false }
    ensures ok { OnOk result (IsNow cluster.old cluster.new (shown at (Event.Opened n t
        (record { 0 = version_of n.0 (printed cluster.old.log) })) ∷ cluster.old.log)) }
    ensures plans { OnOk result (cluster.new.rest.plans ≡ cluster.old.rest.plans) }
    ensures names { OnOk result (cluster.new.rest.names ≡ cluster.old.rest.names) }
    ensures rest { OnOk result (KeepsRest cluster.old cluster.new) }
    ensures err { OnErr result (IsEnded cluster.old cluster.new) }
{
    let book = cluster.ledger.book();
    book.is_fresh(at);
    let v = Version(book.version(n));
    cluster.ended = true;
    cluster.ledger.reserve(1)?;
    let key = HeldKey::Ticket { lane: at.lane, t };
    let mut place = take(&mut cluster.places, n);
    let holding = hold_ticket(alloc, &mut place, key);
    put(&mut cluster.places, n, place);
    holding?;
    cluster.ledger.show(at, Event::Opened { n, t, v });
    cluster.ended = false;
    Ok(())
}

/// Starts a search of the line `at` on the point that the running node `n` searches, appends `Opened` with ticket 0 and that
/// point's version, and hands the point out. Its files stay until the search is answered or the node crashes. It fails when
/// out of memory: the cluster has ended, and its log is as before.
pub fn open_search<D: FaultDir + Drop>(
    alloc: Global,
    cluster: &mut ClusterState<D>,
    at: At,
    n: NodeNo,
) -> Result<Lease<Segment>, NoMemory>
    requires running { cluster.old.ended ≡ false }
    requires fresh { entries_of_line at (printed cluster.old.log) ≡ [] }
    requires node { IsNode cluster.old.nodes n.0 }
    requires up { is_running n.0 (printed cluster.old.log) ≡ true }
    ensures ok { OnOk result (IsNow cluster.old cluster.new
        (shown at (Event.Opened n (record { 0 = 0 })
        (record { 0 = version_of n.0 (printed cluster.old.log) })) ∷ cluster.old.log)) }
    ensures lease { IfOk result (ReadsAt (printed cluster.old.log)
        (version_of n.0 (printed cluster.old.log))) }
    ensures plans { OnOk result (cluster.new.rest.plans ≡ cluster.old.rest.plans) }
    ensures names { OnOk result (cluster.new.rest.names ≡ cluster.old.rest.names) }
    ensures rest { OnOk result (KeepsRest cluster.old cluster.new) }
    ensures err { OnErr result (IsEnded cluster.old cluster.new) }
{
    let book = cluster.ledger.book();
    book.is_fresh(at);
    let v = Version(book.version(n));
    let key = HeldKey::Search { at };
    cluster.ended = true;
    cluster.ledger.reserve(1)?;
    let mut place = take(&mut cluster.places, n);
    let holding = hold_ticket(alloc, &mut place, key);
    put(&mut cluster.places, n, place);
    holding?;
    let lease = lease_in(alloc, &cluster.places, n, key)?;
    let t = TicketNo(0);
    cluster.ledger.show(at, Event::Opened { n, t, v });
    cluster.ended = false;
    Ok(lease)
}

/// Starts a search of the line `at` under the lane's open ticket `t`, whose opening this is, appends `Asking` with the
/// ticket's node and version, and hands out the point on which it was opened. It fails when out of memory: the cluster has
/// ended, and its log is as before.
pub fn ask_ticket<D: FaultDir + Drop>(
    alloc: Global,
    cluster: &mut ClusterState<D>,
    at: At,
    t: TicketNo,
    opening: Opening,
) -> Result<Lease<Segment>, NoMemory>
    requires running { cluster.old.ended ≡ false }
    requires fresh { entries_of_line at (printed cluster.old.log) ≡ [] }
    requires held { open_ticket at.lane.0 t.0 (printed cluster.old.log) ≡ Some (ticket_of opening) }
    ensures ok { OnOk result (IsNow cluster.old cluster.new
        (shown at (Event.Asking opening.node t opening.version) ∷ cluster.old.log)) }
    ensures lease { IfOk result (ReadsAt (printed cluster.old.log) opening.version.0) }
    ensures plans { OnOk result (cluster.new.rest.plans ≡ cluster.old.rest.plans) }
    ensures names { OnOk result (cluster.new.rest.names ≡ cluster.old.rest.names) }
    ensures rest { OnOk result (KeepsRest cluster.old cluster.new) }
    ensures err { OnErr result (IsEnded cluster.old cluster.new) }
{
    let book = cluster.ledger.book();
    book.is_fresh(at);
    book.is_legal();
    let Opening {
        node: n,
        version: v,
        ..
    } = opening;
    let key = HeldKey::Ticket { lane: at.lane, t };
    cluster.ended = true;
    cluster.ledger.reserve(1)?;
    let lease = lease_in(alloc, &cluster.places, n, key)?;
    cluster.ledger.show(at, Event::Asking { n, t, v });
    cluster.ended = false;
    Ok(lease)
}

/// Appends an entry that moves no node and starts no line, whose rule stands over faults of disks, behind those that the call met; and gives
/// back the ticket of node `n` that is held for `key`, if one is: after the entry nothing of the history needs it. It fails when out of
/// memory: the cluster has ended, and its log is as before.
pub fn note_without<D: FaultDir + Drop>(
    alloc: Global,
    cluster: &mut ClusterState<D>,
    at: At,
    n: NodeNo,
    key: HeldKey,
    event: Event,
) -> Result<(), NoMemory>
    requires running { cluster.old.ended ≡ false }
    requires unanswered { is_answered at (printed cluster.old.log) ≡ false }
    requires rule { KeepsRule cluster.old.nodes (printed cluster.old.log) at event }
    requires over { stands_over (start_entry at (printed cluster.old.log)) event ≡ true }
    requires turn { InTurn (printed cluster.old.log) at event }
    requires told { IsSo cluster.old.log at event }
    requires line { start_entry at (printed cluster.old.log) ≢ Some Event.Publishing }
    requires still { (p : Option NodeNo) (m : ℕ) → moves event p m ≡ false }
    requires apart { (m : ℕ) → (n.0 == m) ≡ false → moves_tickets event m ≡ false }
    requires tickets { opens_ticket event ≡ false }
    requires drains { is_drained event ≡ false }
    requires starts { is_start event ≡ false }
    requires jobs { (m : ℕ) → keeps_jobs event m ≡ true }
    requires commits { (m : ℕ) → keeps_commits event m ≡ true }
    requires flights { (m : ℕ) → commit_in_flight m (printed cluster.old.log) ≢ Some at }
    requires node { IsNode cluster.old.nodes n.0 }
    requires ends { (past : Past)
        → EndsKey past (record { at = at; event = event } ∷ past) n.0 key }
    ensures ok { OnOk result (IsNow cluster.old cluster.new
        (shown at event ∷ met_log at cluster.old cluster.new)) }
    ensures rest { OnOk result (KeepsRest cluster.old cluster.new) }
    ensures err { OnErr result (IsEnded cluster.old cluster.new) }
{
    cluster.ended = true;
    let before = met_before(alloc, &mut cluster.ledger, &cluster.places, 1)?;
    let mut place = take(&mut cluster.places, n);
    give_ticket_back(&mut place, key);
    put(&mut cluster.places, n, place);
    if !are_planned(cluster.ledger.book(), before.as_slice(), &cluster.places) {
        return Err(AllocError);
    }
    note_met(
        &mut cluster.ledger,
        at,
        before.as_slice(),
        &cluster.places,
        event,
    );
    cluster.ended = false;
    Ok(())
}
