//! Tickets of lanes.

ghost use Rattle.std.specs.Prelude.{◌≡◌, ◌≢◌, ◌∷◌, [], false, OnOk, OnErr};
ghost use Rattle.history_rules.specs.Nodes.{IsNode};
ghost use Rattle.history_rules.specs.Lines.{entries_of_line};
ghost use Rattle.history_rules.specs.Tickets.{open_ticket};
ghost use Rattle.history_book.specs.Log.{printed, shown};
ghost use Rattle.cluster_state.specs.Run.{IsNow, KeepsRest, IsEnded};
ghost use Rattle.cluster_state.specs.Calls.{open_event, close_by};
ghost use Rattle.cluster_state.specs.GivesUp.{met_log};

use crate::reads::{note_without, open_ticket};
use cluster_nodes::HeldKey;
use cluster_state::{ClusterState, refuse};
use disk_model::FaultDir;
use history_rules::{Cause, Event};
use nrt_base::{At, NoMemory, NodeNo, TicketNo};
use std::alloc::Global;

/// Opens a ticket of the lane.
pub fn ticket_open<D: FaultDir + Drop>(
    state: &mut ClusterState<D>,
    alloc: Global,
    at: At,
    n: NodeNo,
    t: TicketNo,
) -> Result<(), NoMemory>
    requires running { state.old.ended ≡ false }
    requires fresh { entries_of_line at (printed state.old.log) ≡ [] }
    requires node { IsNode state.old.nodes n.0 }
    requires number { t.0 ≢ 0 }
    ensures ok { OnOk result (IsNow state.old state.new (shown at
        (open_event at.lane.0 n t (printed state.old.log)) ∷ state.old.log)) }
    ensures plans { OnOk result (state.new.rest.plans ≡ state.old.rest.plans) }
    ensures names { OnOk result (state.new.rest.names ≡ state.old.rest.names) }
    ensures rest { OnOk result (KeepsRest state.old state.new) }
    ensures err { OnErr result (IsEnded state.old state.new) }
{
    if state.book().ticket(at.lane, t).is_some() {
        refuse(state, at, Cause::NameUsed)
    } else if state.book().runs(n) {
        open_ticket(alloc, state, at, n, t)
    } else {
        refuse(state, at, Cause::Down)
    }
}

/// Closes a ticket of the lane.
pub fn ticket_close<D: FaultDir + Drop>(
    state: &mut ClusterState<D>,
    alloc: Global,
    at: At,
    t: TicketNo,
) -> Result<(), NoMemory>
    requires running { state.old.ended ≡ false }
    requires fresh { entries_of_line at (printed state.old.log) ≡ [] }
    ensures ok { OnOk result (IsNow state.old state.new (shown at
        (close_by t (open_ticket at.lane.0 t.0 (printed state.old.log)))
        ∷ met_log at state.old state.new)) }
    ensures rest { OnOk result (KeepsRest state.old state.new) }
    ensures err { OnErr result (IsEnded state.old state.new) }
{
    match state.book().ticket(at.lane, t) {
        None => refuse(state, at, Cause::NoTicket),
        Some(opening) => {
            state.book().is_legal();
            state.has_no_commit(at);
            state.book().is_fresh(at);
            let n = opening.node;
            let key = HeldKey::Ticket { lane: at.lane, t };
            note_without(alloc, state, at, n, key, Event::Closed { n, t })
        }
    }
}
