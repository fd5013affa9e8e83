//! Tickets of a primary.

ghost use Rattle.std.specs.Prelude.{◌≡◌, ◌+◌, ◌<◌, ◌≤◌, [], ◌∷◌, ◌++◌, true, false, is_some, OnErr, IfOk, IfSome};
ghost use Rattle.searcher_switch.specs.Tickets.{ticket_at, tickets_without};
ghost use Rattle.searcher_switch.specs.Appearing.{NoneAppears};
ghost use Rattle.index_primary.specs.Primary.{IsPrimary, KeepsHeldBytes};
ghost use Rattle.index_primary.specs.Calls.{HoldsNoNew};
ghost use Rattle.searcher_switch.specs.Searching.{IsLeaseOf};

use crate::primary::Primary;
use disk_model::Dir;
use nrt_base::NoMemory;
use searcher_switch::{Lease, Segment, Ticket};
use std::alloc::Global;

impl<D: Dir> Primary<D> {
    /// Opens a ticket on the point that is searched.
    pub fn acquire(&mut self, alloc: Global) -> Result<Ticket, NoMemory>
        ensures opened { IfOk result (λ ticket. self.new.searchers.tickets ≡ self.old.searchers.tickets
            ++ record { number = ticket.number; point = self.old.searchers.point } ∷ []) }
        ensures fresh { IfOk result (λ ticket.
            is_some (ticket_at ticket.number self.old.searchers.tickets) ≡ false) }
        ensures err { OnErr result ((self.new.searchers ≡ self.old.searchers)
            × (self.new.files ≡ self.old.files)) }
        ensures point { self.new.searchers.point ≡ self.old.searchers.point }
        ensures others { self.new
            ≡ record self.old { files = self.new.files; searchers = self.new.searchers } }
        ensures stays { KeepsHeldBytes D.cells self.old self.new }
        ensures no_new { HoldsNoNew self.old self.new }
        ensures whole { IsPrimary D.cells self.new }
    {
        self.parts
            .searchers
            .acquire(alloc, &mut self.parts.files, &self.parts.dir)
    }

    /// The segments of the point that is searched.
    pub fn readers(&self) -> &[Segment]
        ensures { result.now ≡ self.now.searchers.point.readers }
    {
        self.parts.searchers.point.readers.as_slice()
    }

    /// What a search under a ticket reads: the point on which the ticket was opened.
    pub fn lease(&self, alloc: Global, ticket: &Ticket) -> Result<Lease<Segment>, NoMemory>
        requires { is_some (ticket_at ticket.now.number self.now.searchers.tickets) ≡ true }
        ensures { IfOk result (λ lease.
            IfSome (ticket_at ticket.now.number self.now.searchers.tickets) (IsLeaseOf lease)) }
    {
        self.parts.searchers.lease(alloc, ticket)
    }

    /// Closes a ticket, and gives its files back. Takes no memory.
    pub fn release(&mut self, ticket: Ticket)
        requires open { is_some (ticket_at ticket.number self.old.searchers.tickets) ≡ true }
        ensures closed { self.new.searchers.tickets
            ≡ tickets_without ticket.number self.old.searchers.tickets }
        ensures point { self.new.searchers.point ≡ self.old.searchers.point }
        ensures others { self.new ≡ record self.old {
          dir = self.new.dir;
          files = self.new.files;
          searchers = self.new.searchers;
        } }
        ensures stays { KeepsHeldBytes D.cells self.old self.new }
        ensures no_new { HoldsNoNew self.old self.new }
        ensures appears { NoneAppears (D.cells self.old.dir) (D.cells self.new.dir) }
        ensures later { D.faults self.old.dir ≤ D.faults self.new.dir }
        ensures whole { IsPrimary D.cells self.new }
    {
        self.parts
            .searchers
            .release(ticket, &mut self.parts.files, &mut self.parts.dir);
    }
}
