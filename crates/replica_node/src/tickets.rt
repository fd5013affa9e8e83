//! Tickets of a replica.

ghost use Rattle.std.specs.Prelude.{◌≡◌, ◌+◌, ◌<◌, ◌≤◌, IfSome, OnErr, IfOk, true, [], ◌∷◌, ◌++◌, is_some, false};
ghost use Rattle.replica_node.specs.Replica.{IsWholeReplica, AreStanding};
ghost use Rattle.searcher_switch.specs.Node.{KeepsBytes};
ghost use Rattle.searcher_switch.specs.Appearing.{NoneAppears};
ghost use Rattle.searcher_switch.specs.Tickets.{ticket_at, tickets_without};
ghost use Rattle.searcher_switch.specs.Searching.{IsLeaseOf};
ghost use Rattle.replica_node.specs.Sources.{KeepsSource, HoldsOnly};

use crate::replica::Replica;
use disk_model::Dir;
use nrt_base::NoMemory;
use searcher_switch::{Lease, Ticket};
use seg_reader::Segment;
use std::alloc::Global;

impl<D: Dir> Replica<D> {
    /// Opens a ticket at the point that is searched.
    pub fn acquire(&mut self, alloc: Global) -> Result<Ticket, NoMemory>
        ensures whole { IsWholeReplica D.cells self.new }
        ensures standing { AreStanding D.cells self.old → AreStanding D.cells self.new }
        ensures sourced { KeepsSource D.cells self.old self.new }
        ensures held { HoldsOnly self.old self.new }
        ensures opened { IfOk result (λ ticket. self.new.searchers.tickets
            ≡ self.old.searchers.tickets
            ++ record { number = ticket.number; point = self.old.searchers.point } ∷ []) }
        ensures fresh { IfOk result (λ ticket.
            is_some (ticket_at ticket.number self.old.searchers.tickets) ≡ false) }
        ensures point { self.new.searchers.point ≡ self.old.searchers.point }
        ensures err { OnErr result ((self.new.searchers ≡ self.old.searchers)
            × (self.new.files ≡ self.old.files)) }
        ensures stays { KeepsBytes self.old.files self.new.files
            (D.cells self.old.dir) (D.cells self.new.dir) }
        ensures others { self.new ≡ record self.old {
          files = self.new.files;
          searchers = self.new.searchers;
        } }
    {
        self.parts
            .searchers
            .acquire(alloc, &mut self.parts.files, &self.parts.dir)
    }

    /// The segments of the point that is searched.
    pub fn readers(&self) -> &[Segment]
        ensures { result.now ≡ self.now.searchers.point.readers }
    {
        self.parts.searchers.point.readers.as_slice()
    }

    /// What a search under a ticket reads.
    pub fn lease(&self, alloc: Global, ticket: &Ticket) -> Result<Lease<Segment>, NoMemory>
        requires { is_some (ticket_at ticket.now.number self.now.searchers.tickets) ≡ true }
        ensures { IfOk result (λ lease.
            IfSome (ticket_at ticket.now.number self.now.searchers.tickets) (IsLeaseOf lease)) }
    {
        self.parts.searchers.lease(alloc, ticket)
    }

    /// Closes a ticket.
    pub fn release(&mut self, ticket: Ticket)
        requires open { is_some (ticket_at ticket.number self.old.searchers.tickets) ≡ true }
        ensures whole { IsWholeReplica D.cells self.new }
        ensures standing { AreStanding D.cells self.old → AreStanding D.cells self.new }
        ensures sourced { KeepsSource D.cells self.old self.new }
        ensures held { HoldsOnly self.old self.new }
        ensures closed { self.new.searchers.tickets
            ≡ tickets_without ticket.number self.old.searchers.tickets }
        ensures point { self.new.searchers.point ≡ self.old.searchers.point }
        ensures stays { KeepsBytes self.old.files self.new.files
            (D.cells self.old.dir) (D.cells self.new.dir) }
        ensures appears { NoneAppears (D.cells self.old.dir) (D.cells self.new.dir) }
        ensures later { D.faults self.old.dir ≤ D.faults self.new.dir }
        ensures others { self.new ≡ record self.old {
          dir = self.new.dir;
          files = self.new.files;
          searchers = self.new.searchers;
        } }
    {
        self.parts
            .searchers
            .release(ticket, &mut self.parts.files, &mut self.parts.dir);
    }
}
