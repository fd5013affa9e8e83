//! Searches.

ghost use Rattle.std.specs.Prelude.{ℕ, ◌≡◌, ◌≢◌, ◌∷◌, [], false, true, ◌==◌, None, Some, OnOk, OnErr, IfOk, if◌then◌else◌};
ghost use Rattle.documents.specs.Ranking.{scan_of};
ghost use Rattle.history_rules.specs.Nodes.{IsNode, crashes};
ghost use Rattle.history_rules.specs.Lines.{entries_of_line, last_of_line, start_entry, before_start};
ghost use Rattle.history_rules.specs.Points.{documents_at};
ghost use Rattle.history_rules.specs.Started.{StartedSearch};
ghost use Rattle.history_tables.specs.Begins.{open_line};
ghost use Rattle.history_book.specs.Log.{printed, shown};
ghost use Rattle.cluster_state.specs.GivesUp.{met_log};
ghost use Rattle.cluster_state.specs.Run.{IsNow, KeepsRest, IsEnded};
ghost use Rattle.cluster_state.specs.Calls.{SearchStarts, AskStarts, ScansAt, AnswerEnds};

use crate::reads::{ask_ticket, note_without, open_search};
use cluster_nodes::HeldKey;
use cluster_state::{ClusterState, Turn, refuse_turn};
use disk_model::FaultDir;
use documents::{Answer, Query};
use history_book::Start;
use history_rules::{Cause, Event};
use nrt_base::{At, NoMemory, NodeNo, Share, TicketNo, Version};
use searcher_switch::Lease;
use seg_reader::Segment;
use std::alloc::{AllocError, Global};

/// Starts a search, and hands out the point that the node searches.
pub fn search_start<D: FaultDir + Drop>(
    state: &mut ClusterState<D>,
    alloc: Global,
    at: At,
    n: NodeNo,
) -> Result<Turn<Lease<Segment>>, NoMemory>
    requires running { state.old.ended ≡ false }
    requires fresh { entries_of_line at (printed state.old.log) ≡ [] }
    requires node { IsNode state.old.nodes n.0 }
    ensures ok { IfOk result (SearchStarts at n state.old state.new) }
    ensures plans { OnOk result (state.new.rest.plans ≡ state.old.rest.plans) }
    ensures names { OnOk result (state.new.rest.names ≡ state.old.rest.names) }
    ensures rest { OnOk result (KeepsRest state.old state.new) }
    ensures err { OnErr result (IsEnded state.old state.new) }
{
    if !state.book().runs(n) {
        return refuse_turn(state, at, Cause::Down);
    }
    let lease = open_search(alloc, state, at, n)?;
    Ok(Turn::Work(lease))
}

/// Starts a search at a ticket of the lane, and hands out the point on which it was opened.
pub fn ask_start<D: FaultDir + Drop>(
    state: &mut ClusterState<D>,
    alloc: Global,
    at: At,
    t: TicketNo,
) -> Result<Turn<Lease<Segment>>, NoMemory>
    requires running { state.old.ended ≡ false }
    requires fresh { entries_of_line at (printed state.old.log) ≡ [] }
    ensures ok { IfOk result (AskStarts at t state.old state.new) }
    ensures plans { OnOk result (state.new.rest.plans ≡ state.old.rest.plans) }
    ensures names { OnOk result (state.new.rest.names ≡ state.old.rest.names) }
    ensures rest { OnOk result (KeepsRest state.old state.new) }
    ensures err { OnErr result (IsEnded state.old state.new) }
{
    let Some(opening) = state.book().ticket(at.lane, t) else {
        return refuse_turn(state, at, Cause::NoTicket);
    };
    let lease = ask_ticket(alloc, state, at, t, opening)?;
    Ok(Turn::Work(lease))
}

/// Ends a search with its answer, or refuses the line as lost where its node has crashed since.
pub fn answer_end<D: FaultDir + Drop>(
    state: &mut ClusterState<D>,
    alloc: Global,
    at: At,
    query: &Query,
    answer: Answer,
) -> Result<(), NoMemory>
    requires running { state.old.ended ≡ false }
    requires right { ScansAt (printed state.old.log)
        (last_of_line at (printed state.old.log)) query.now answer }
    ensures ok { OnOk result (AnswerEnds at (last_of_line at (printed state.old.log))
        query.now answer state.old state.new) }
    ensures rest { OnOk result (KeepsRest state.old state.new) }
    ensures err { OnErr result (IsEnded state.old state.new) }
{
    state.book().is_legal();
    let Some(begun) = state.book().line(at) else {
        unreachable!()
    };
    match begun.start {
        Start::Searching { n, v } => {
            end_search(state, alloc, at, n, TicketNo(0), v, query, answer)
        }
        Start::Asking { n, t, v } => end_search(state, alloc, at, n, t, v, query, answer),
        Start::Publishing => unreachable!(),
        Start::Copying { .. } => unreachable!(),
        Start::Settling { .. } => unreachable!(),
        Start::Committing { .. } => unreachable!(),
    }
}

// Ends a search of this node, ticket and version.
fn end_search<D: FaultDir + Drop>(
    state: &mut ClusterState<D>,
    alloc: Global,
    at: At,
    n: NodeNo,
    t: TicketNo,
    v: Version,
    query: &Query,
    answer: Answer,
) -> Result<(), NoMemory>
    requires running { state.old.ended ≡ false }
    requires node { IsNode state.old.nodes n.0 }
    requires line { open_line at (printed state.old.log) ≢ None }
    requires started { StartedSearch n t v (start_entry at (printed state.old.log)) }
    requires right { answer ≡ scan_of (documents_at (printed state.old.log) v.0) query.now }
    ensures ok { OnOk result (IsNow state.old state.new (shown at
        (if crashes n.0 (printed state.old.log)
        == crashes n.0 (before_start at (printed state.old.log))
        then Event.Answered n t v query.now answer else Event.Refused Cause.Lost)
        ∷ met_log at state.old state.new)) }
    ensures rest { OnOk result (KeepsRest state.old state.new) }
    ensures err { OnErr result (IsEnded state.old state.new) }
{
    state.is_apart(at);
    state.has_no_commit(at);
    state.book().is_unanswered(at);
    if !state.book().node_survives(at, n) {
        let cause = Cause::Lost;
        return state.note(at, Event::Refused { cause });
    }
    let Ok(query) = query.share(alloc) else {
        state.end();
        return Err(AllocError);
    };
    let event = Event::Answered {
        n,
        t,
        v,
        query,
        answer,
    };
    if t.0 == 0 {
        note_without(alloc, state, at, n, HeldKey::Search { at }, event)
    } else {
        state.note(at, event)
    }
}
