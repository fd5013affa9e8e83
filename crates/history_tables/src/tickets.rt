//! The last openings of tickets.

ghost use Rattle.std.specs.Prelude.{◌≡◌, ◌≤◌};

use history_rules::Event;
use indexmap::IndexMap;
use nrt_base::{At, LaneNo, NodeNo, TicketNo, Version};
use std::alloc::{AllocError, Global};
use std::marker::Model;

/// What was opened: the node, the version that it searched, and how often it had crashed.
#[derive(Clone, Copy, Debug, PartialEq, Eq)]
pub struct Opening {
    pub node: NodeNo,
    pub version: Version,
    pub life: usize,
}

/// A ticket of a lane.
#[derive(Clone, Copy, Debug, PartialEq, Eq, Hash)]
pub struct TicketKey {
    pub lane: LaneNo,
    pub number: TicketNo,
}

/// The last opening of each ticket that was not closed since.
#[derive(Debug, Drop)]
pub struct Tickets {
    openings: IndexMap<TicketKey, Opening>,
}

impl Model for Tickets {
    ghost use Rattle.indexmap.specs.IndexMap.{spare};
    ghost use Rattle.history_tables.specs.Openings.{TicketRows};

    ghost Value = { TicketRows };

    ghost view = { λ l. record { rows = l.openings.entries; room = spare l.openings } };
}

impl Tickets {
    ghost use Rattle.std.specs.Prelude.{ℕ, ◌≡◌, ◌≤◌, ◌&&◌, ◌==◌, Option, None, Some, [], true, if◌then◌else◌, OnOk, IfSome};
    ghost use Rattle.nrt_base.specs.declared.numbers.NodeNo.{NodeNo};
    ghost use Rattle.history_rules.specs.declared.cause.FaultKind.{FaultKind};
    ghost use Rattle.history_rules.specs.Nodes.{Past};
    ghost use Rattle.history_rules.specs.Tickets.{ticket_by};
    ghost use Rattle.history_tables.specs.Openings.{opened_of, opens_ticket, ticket_of, IsLife};

    pub fn new(alloc: Global) -> Self
        ensures { result.rows ≡ [] }
    {
        Tickets {
            openings: IndexMap::new(alloc),
        }
    }

    /// The last opening of a ticket.
    pub fn get(&self, lane: LaneNo, number: TicketNo) -> Option<Opening>
        ensures none { result ≡ None → opened_of self.now.rows lane.0 number.0 ≡ None }
        ensures some { IfSome result (λ o.
            opened_of self.now.rows lane.0 number.0 ≡ Some (ticket_of o)) }
    {
        match self.openings.get(&TicketKey { lane, number }) {
            Some(opening) => Some(*opening),
            None => None,
        }
    }

    /// Makes room for one more.
    pub fn reserve(&mut self) -> Result<(), AllocError>
        ensures rows { self.new.rows ≡ self.old.rows }
        ensures room { OnOk result (1 ≤ self.new.room) }
    {
        self.openings.reserve(1)
    }

    fn forget(&mut self, lane: LaneNo, number: TicketNo)
        ensures room { self.old.room ≤ self.new.room }
        ensures rows { (l t : ℕ) → opened_of self.new.rows l t
            ≡ (if (lane.0 == l) && (number.0 == t) then None else opened_of self.old.rows l t) }
    {
        let _ = self.openings.swap_remove(&TicketKey { lane, number });
    }

    fn remember(&mut self, lane: LaneNo, number: TicketNo, opening: Opening)
        requires { 1 ≤ self.old.room }
        ensures { (l t : ℕ) → opened_of self.new.rows l t
            ≡ (if (lane.0 == l) && (number.0 == t) then Some (ticket_of opening)
            else opened_of self.old.rows l t) }
    {
        // There is room, so this takes no memory.
        let _ = self.openings.insert(TicketKey { lane, number }, opening);
    }

    /// After one more entry.
    pub fn step(&mut self, at: At, event: &Event, life: usize)
        requires room { opens_ticket event.now ≡ true → 1 ≤ self.old.room }
        ensures rows { (past : Past) (l t : ℕ) → IsLife event.now past life
            → opened_of self.new.rows l t ≡ ticket_by l t at event.now past (opened_of self.old.rows l t) }
        ensures room { (n : NodeNo) (kind : FaultKind)
            → event.now ≡ Event.Fault n kind → self.new.room ≡ self.old.room }
    {
        match event {
            Event::Opened { n, t, v } => {
                if t.0 != 0 {
                    self.remember(
                        at.lane,
                        *t,
                        Opening {
                            node: *n,
                            version: *v,
                            life,
                        },
                    );
                }
            }
            Event::Closed { t, .. } => self.forget(at.lane, *t),
            _ => {}
        }
    }
}
