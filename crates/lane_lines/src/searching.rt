//! Searches. Queries are evaluated outside the lock.

ghost use Rattle.std.specs.Prelude.{◌≡◌, [], true, OnOk, IfOk, IsTrue};
ghost use Rattle.documents.specs.declared.query.Query.{Query};
ghost use Rattle.documents.specs.Matching.{is_well_formed};
ghost use Rattle.history_rules.specs.Nodes.{IsNode};
ghost use Rattle.history_rules.specs.Lines.{entries_of_line};
ghost use Rattle.history_book.specs.Log.{printed};
ghost use Rattle.script_serving.specs.declared.script.LineCommand.TheVariants.{Search, Ask};
ghost use Rattle.lane_threads.specs.Seats.{log_seen, IsLaneSeat, EndsItsLine};
ghost use Rattle.cluster_site.specs.Turns.{NeverWaits, TurnsLine};
ghost use Rattle.lane_lines.specs.Reads.{IsSearchingNode, IsAskingTicket};

use crate::answering::answer_line;
use crate::evaluation::evaluate;
use cluster_site::{Gate, Lanes, Place, Site, Turn, enter_site};
use disk_model::FaultDir;
use documents::Query;
use hist_lock::LaneSeat;
use lane_threads::leave;
use nrt_base::{At, NoMemory, NodeNo, TicketNo};
use searcher_switch::Lease;
use seg_reader::Segment;
use std::sync::Wait;

// Starts a search of a node.
fn start_search<R: Wait, D: FaultDir + Drop, G: Gate>(
    lanes: &Lanes<'_, R, D, G>,
    seat: &mut LaneSeat<Site<D>>,
    at: At,
    n: NodeNo,
) -> Result<Turn<Lease<Segment>>, NoMemory>
    requires seat { IsLaneSeat lanes.now.setup.log lanes.now.lock.now at.lane.0 seat.old }
    requires fresh { entries_of_line at (printed (log_seen seat.old)) ≡ [] }
    requires node { IsNode lanes.now.setup.nodes n.0 }
    ensures { (query : Query) → IfOk result (TurnsLine lanes.now.setup.log (IsSearchingNode at n)
        NeverWaits lanes.now.lock.now (Search n query) at seat.old seat.new) }
{
    let mut held = enter_site(lanes, seat, at)?;
    let answer = held.value().search_start(lanes.alloc, at, n);
    leave(lanes.lock, at.lane, seat, held);
    answer
}

// Starts a search of a ticket, and tells the ticket's node.
fn start_ask<R: Wait, D: FaultDir + Drop, G: Gate>(
    lanes: &Lanes<'_, R, D, G>,
    seat: &mut LaneSeat<Site<D>>,
    at: At,
    t: TicketNo,
) -> Result<(Option<NodeNo>, Turn<Lease<Segment>>), NoMemory>
    requires seat { IsLaneSeat lanes.now.setup.log lanes.now.lock.now at.lane.0 seat.old }
    requires fresh { entries_of_line at (printed (log_seen seat.old)) ≡ [] }
    ensures { (query : Query) → IfOk result (λ r. TurnsLine lanes.now.setup.log
        (IsAskingTicket at t) NeverWaits lanes.now.lock.now (Ask t query) at
        seat.old seat.new r.1) }
{
    let mut held = enter_site(lanes, seat, at)?;
    let site = held.value();
    let node = site.ticket_node(at.lane, t);
    let answer = site.ask_start(lanes.alloc, at, t);
    leave(lanes.lock, at.lane, seat, held);
    Ok((node, answer?))
}

/// Searches at the point that a node searches.
pub fn search<R: Wait, D: FaultDir + Drop, G: Gate>(
    lanes: &Lanes<'_, R, D, G>,
    seat: &mut LaneSeat<Site<D>>,
    at: At,
    n: NodeNo,
    query: &Query,
) -> Result<(), NoMemory>
    requires seat { IsLaneSeat lanes.now.setup.log lanes.now.lock.now at.lane.0 seat.old }
    requires fresh { entries_of_line at (printed (log_seen seat.old)) ≡ [] }
    requires node { IsNode lanes.now.setup.nodes n.0 }
    requires well_formed { IsTrue (is_well_formed query.now) }
    ensures { OnOk result (EndsItsLine lanes.now.setup.log
        lanes.now.lock.now (Search n query.now) at seat.old seat.new) }
{
    match start_search(lanes, seat, at, n)? {
        Turn::Busy => unreachable!(),
        Turn::Done => Ok(()),
        Turn::Work(lease) => {
            lanes.gate.pass(Place::Evaluate(at.line, n));
            let answer = evaluate(lanes.alloc, &lease, query)?;
            answer_line(lanes, seat, at, query, answer)
        }
    }
}

/// Searches at the point of a ticket.
pub fn ask<R: Wait, D: FaultDir + Drop, G: Gate>(
    lanes: &Lanes<'_, R, D, G>,
    seat: &mut LaneSeat<Site<D>>,
    at: At,
    t: TicketNo,
    query: &Query,
) -> Result<(), NoMemory>
    requires seat { IsLaneSeat lanes.now.setup.log lanes.now.lock.now at.lane.0 seat.old }
    requires fresh { entries_of_line at (printed (log_seen seat.old)) ≡ [] }
    requires well_formed { IsTrue (is_well_formed query.now) }
    ensures { OnOk result (EndsItsLine lanes.now.setup.log lanes.now.lock.now (Ask t query.now) at
        seat.old seat.new) }
{
    let (node, turn) = start_ask(lanes, seat, at, t)?;
    match turn {
        Turn::Busy => unreachable!(),
        Turn::Done => Ok(()),
        Turn::Work(lease) => {
            if let Some(n) = node {
                lanes.gate.pass(Place::Evaluate(at.line, n));
            }
            let answer = evaluate(lanes.alloc, &lease, query)?;
            answer_line(lanes, seat, at, query, answer)
        }
    }
}
