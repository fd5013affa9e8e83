//! The searcher and its tickets.

ghost use Rattle.std.specs.Prelude.{◌≡◌, ◌<◌, ◌≤◌, ℕ, List, [], ◌∷◌, ◌++◌, Some, true, false, is_some, IfOk, IfSome, OnOk, OnErr};
ghost use Rattle.file_deleter.specs.Holdings.{AreThere, AreCounted};
ghost use Rattle.file_deleter.specs.Moves.{MovesCounts};
ghost use Rattle.searcher_switch.specs.Node.{AddsOnly};
ghost use Rattle.searcher_switch.specs.Tickets.{ticket_at, tickets_without};

use crate::open::{self, Open, SearchPoint};
use disk_model::Dir;
use file_deleter::FileDeleter;
use file_names::FileName;
use nrt_base::{List, NoMemory, Share, Version};
use std::alloc::{AllocError, Global};

/// What a search reads.
#[derive(Drop)]
pub struct Lease<R> {
    pub version: Version,
    pub readers: List<R>,
}

/// An open ticket's number. It is not copied.
#[derive(Drop)]
pub struct Ticket {
    pub number: u64,
}

/// The point that is searched, and the open tickets.
#[derive(Drop)]
pub struct Searchers<R> {
    pub point: SearchPoint<R>,
    pub tickets: List<Open<R>>,
    pub next: u64,
    ghost fresh: { (n : ℕ) → next ≤ n → is_some (ticket_at n tickets) ≡ false },
}

impl<R: Share + Drop> Searchers<R> {
    ghost use Rattle.searcher_switch.specs.Searching.{IsLeaseOf, searcher_names};

    /// Searchers without a ticket. It takes over one count of each name, which the caller has made.
    pub fn new(
        alloc: Global,
        version: Version,
        names: List<FileName>,
        readers: List<R>,
    ) -> Result<Self, NoMemory>
        ensures point { IfOk result (λ s. s.point
            ≡ record { version = version; names = names; readers = readers }) }
        ensures tickets { IfOk result (λ s. s.tickets ≡ []) }
    {
        Ok(Searchers {
            point: SearchPoint {
                version,
                names,
                readers,
            },
            tickets: List::new(alloc),
            next: 0,
        })
    }

    /// The version that is searched.
    pub fn version(&self) -> Version
        ensures { result ≡ self.now.point.version }
    {
        self.point.version
    }

    /// Opens a ticket on the point that is searched.
    pub fn acquire<D: Dir>(
        &mut self,
        alloc: Global,
        files: &mut FileDeleter,
        dir: &D,
    ) -> Result<Ticket, NoMemory>
        requires { AreThere (D.cells dir.now) self.old.point.names }
        ensures opened { IfOk result (λ ticket. self.new.tickets
            ≡ self.old.tickets ++ record { number = ticket.number; point = self.old.point } ∷ []) }
        ensures fresh { IfOk result (λ ticket. is_some (ticket_at ticket.number self.old.tickets) ≡ false) }
        ensures err { OnErr result ((self.new ≡ self.old) × (files.new ≡ files.old)) }
        ensures point { self.new.point ≡ self.old.point }

        // In the words that callers carry.
        ensures moves { MovesCounts [] (searcher_names self.old) (searcher_names self.new)
            files.old files.new (D.cells dir.now) (D.cells dir.now) }
        ensures only { AddsOnly [] (searcher_names self.old) (searcher_names self.new) }
    {
        let number = self.next;
        if number == u64::MAX {
            return Err(AllocError);
        }
        open::open_on(alloc, &self.point, &mut self.tickets, number, files, dir)?;
        self.next = number + 1;
        Ok(Ticket { number })
    }

    /// What a search under a ticket reads: the point on which the ticket was opened.
    #[tactic(auto, using(crate::proofs::Places::places))]
    pub fn lease(&self, alloc: Global, ticket: &Ticket) -> Result<Lease<R>, NoMemory>
        requires { is_some (ticket_at ticket.now.number self.now.tickets) ≡ true }
        ensures { IfOk result (λ lease.
            IfSome (ticket_at ticket.now.number self.now.tickets) (IsLeaseOf lease)) }
    {
        let at = open::place(self.tickets.as_slice(), ticket.number);
        let Some(open) = self.tickets.as_slice().get(at) else {
            unreachable!();
        };
        Ok(Lease {
            version: open.point.version,
            readers: open.point.readers.share(alloc)?,
        })
    }

    /// Closes a ticket, and gives its files back. Takes no memory.
    pub fn release<D: Dir>(&mut self, ticket: Ticket, files: &mut FileDeleter, dir: &mut D)
        requires open { is_some (ticket_at ticket.number self.old.tickets) ≡ true }
        requires counts { AreCounted (searcher_names self.old) files.old }
        ensures closed { self.new.tickets ≡ tickets_without ticket.number self.old.tickets }
        ensures point { self.new.point ≡ self.old.point }

        // In the words that callers carry.
        ensures moves { MovesCounts [] (searcher_names self.old) (searcher_names self.new)
            files.old files.new (D.cells dir.old) (D.cells dir.new) }
        ensures only { AddsOnly [] (searcher_names self.old) (searcher_names self.new) }
        ensures later { D.faults dir.old ≤ D.faults dir.new }
    {
        let open = open::take_out(&mut self.tickets, ticket.number);
        files.release(open.point.names.as_slice(), dir);
    }

    /// Searches another point from now on, and hands the former one over. No count changes: the caller has counted the
    /// new point's files, and gives back the former one's.
    pub fn replace(
        &mut self,
        version: Version,
        names: List<FileName>,
        readers: List<R>,
    ) -> SearchPoint<R>
        ensures old { result ≡ self.old.point }
        ensures point { self.new.point
            ≡ record { version = version; names = names; readers = readers } }
        ensures tickets { self.new.tickets ≡ self.old.tickets }
    {
        std::mem::replace(
            &mut self.point,
            SearchPoint {
                version,
                names,
                readers,
            },
        )
    }

    /// Searches a newer point from now on. Its files are held before those of the older one are given back, so they are there also behind
    /// that.
    pub fn switch<D: Dir>(
        &mut self,
        version: Version,
        names: List<FileName>,
        readers: List<R>,
        files: &mut FileDeleter,
        dir: &mut D,
    ) -> Result<(), NoMemory>
        requires newer { self.old.point.version.0 < version.0 }
        requires there { AreThere (D.cells dir.old) names }
        requires counts { AreCounted (searcher_names self.old) files.old }
        ensures ok { OnOk result (self.new.point
            ≡ record { version = version; names = names; readers = readers }) }
        ensures there { OnOk result (AreThere (D.cells dir.new) names) }
        ensures err { OnErr result ((self.new ≡ self.old) × (files.new ≡ files.old)
            × (D.cells dir.new ≡ D.cells dir.old)) }
        ensures tickets { self.new.tickets ≡ self.old.tickets }

        // In the words that callers carry.
        ensures moves { MovesCounts [] (searcher_names self.old) (searcher_names self.new)
            files.old files.new (D.cells dir.old) (D.cells dir.new) }
        ensures only { AddsOnly names (searcher_names self.old) (searcher_names self.new) }
        ensures later { D.faults dir.old ≤ D.faults dir.new }
    {
        files.hold_there(names.as_slice(), dir)?;
        let old = self.replace(version, names, readers);
        files.release(old.names.as_slice(), dir);
        Ok(())
    }
}
