//! What a history shows of tickets: which are open, and at which node and version.

ghost use Rattle.std.specs.Prelude.{◌≡◌, ◌↔◌, reverse, IsTrue, IsSomeAnd, MatchOption};
ghost use Rattle.history_facts.specs.Openings.{opening_of};
ghost use Rattle.history_rules.specs.Tickets.{last_opened, open_ticket, has_ticket, IsTicketOf};

use crate::nodes::crashes;
use history_rules::{Entry, Event};
use nrt_base::{At, LaneNo, NodeNo, TicketNo, Version};

/// An opening of a ticket.
#[derive(Drop)]
pub struct TicketOpening<'a> {
    pub n: NodeNo,
    pub v: Version,
    /// The entries before it.
    pub before: &'a [Entry],
}

fn is_ticket(at: At, u: TicketNo, lane: LaneNo, t: TicketNo) -> bool
    ensures { IsTrue result ↔ ((at.lane.0 ≡ lane.0) × (u.0 ≡ t.0)) }
{
    at.lane.0 == lane.0 && u.0 == t.0
}

/// The last opening of a ticket of a lane, unless it was closed since.
fn last_opened<'a>(lane: LaneNo, t: TicketNo, entries: &'a [Entry]) -> Option<TicketOpening<'a>>
    ensures { MatchOption result (last_opened lane.0 t.0 (reverse entries.now) ≡ None) (λ k.
        last_opened lane.0 t.0 (reverse entries.now) ≡ Some (opening_of k)) }
{
    let mut last = None;
    for (i, entry) in entries.iter().enumerate() {
        match &entry.event {
            Event::Opened { n, t: u, v } => {
                if u.0 != 0 && is_ticket(entry.at, *u, lane, t) {
                    last = Some(TicketOpening {
                        n: *n,
                        v: *v,
                        before: &entries[..i],
                    });
                }
            }
            Event::Closed { t: u, .. } => {
                if is_ticket(entry.at, *u, lane, t) {
                    last = None;
                }
            }
            _ => {}
        }
    }
    last
}

/// The opening of an open ticket of a lane: neither was it closed nor has its node crashed since.
pub fn open_ticket<'a>(lane: LaneNo, t: TicketNo, entries: &'a [Entry]) -> Option<TicketOpening<'a>>
    ensures { MatchOption result (open_ticket lane.0 t.0 (reverse entries.now) ≡ None) (λ k.
        open_ticket lane.0 t.0 (reverse entries.now) ≡ Some (opening_of k)) }
{
    if t.0 == 0 {
        return None;
    }
    match last_opened(lane, t, entries) {
        Some(opening) => {
            if crashes(opening.n, entries) == crashes(opening.n, opening.before) {
                Some(opening)
            } else {
                None
            }
        }
        None => None,
    }
}

/// Whether the lane has this ticket.
pub fn has_ticket(lane: LaneNo, t: TicketNo, entries: &[Entry]) -> bool
    ensures { result ≡ has_ticket lane.0 t.0 (reverse entries.now) }
{
    match open_ticket(lane, t, entries) {
        Some(_) => true,
        None => false,
    }
}

/// Whether the lane has this ticket, and it is at this node.
pub fn is_ticket_at(n: NodeNo, lane: LaneNo, t: TicketNo, entries: &[Entry]) -> bool
    ensures { IsTrue result ↔ IsSomeAnd (open_ticket lane.0 t.0 (reverse entries.now))
        (λ ticket. ticket.node ≡ n.0) }
{
    match open_ticket(lane, t, entries) {
        Some(opening) => opening.n.0 == n.0,
        None => false,
    }
}

/// Whether the lane has this ticket, and it is at this node and this version.
pub fn is_ticket_of(n: NodeNo, v: Version, lane: LaneNo, t: TicketNo, entries: &[Entry]) -> bool
    ensures { IsTrue result ↔ IsTicketOf n.0 v.0 (open_ticket lane.0 t.0 (reverse entries.now)) }
{
    match open_ticket(lane, t, entries) {
        Some(opening) => opening.n.0 == n.0 && opening.v.0 == v.0,
        None => false,
    }
}
