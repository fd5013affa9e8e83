//! Points, and the tickets on them.

ghost use Rattle.std.specs.Prelude.{◌≡◌, ◌<◌, ℕ, List, [], ◌∷◌, ◌++◌, Some, is_some, true, length, drop, OnOk, OnErr, IfOk};
ghost use Rattle.file_deleter.specs.Holdings.{AreThere};
ghost use Rattle.file_deleter.specs.Moves.{HoldsFiles};
ghost use Rattle.searcher_switch.specs.Tickets.{ticket_at, tickets_without, ticket_place};

use disk_model::Dir;
use file_deleter::FileDeleter;
use file_names::FileName;
use nrt_base::{List, NoMemory, Share, Version};
use std::alloc::Global;

/// A point: its version, its files and what reads them.
#[derive(Drop)]
pub struct SearchPoint<R> {
    pub version: Version,
    pub names: List<FileName>,
    pub readers: List<R>,
}

/// An open ticket.
#[derive(Drop)]
pub struct Open<R> {
    pub number: u64,
    pub point: SearchPoint<R>,
}

// The place of the ticket with this number, or the length.
pub(crate) fn place<R>(tickets: &[Open<R>], number: u64) -> usize
    ensures { result ≡ ticket_place number tickets.now }
{
    let mut i = 0;
    while i < tickets.len() {
        if tickets[i].number == number {
            return i;
        }
        i += 1;
    }
    i
}

// Takes a ticket out.
#[tactic(auto, using(crate::proofs::Places::places))]
pub(crate) fn take_out<R>(tickets: &mut List<Open<R>>, number: u64) -> Open<R>
    requires { is_some (ticket_at number tickets.old) ≡ true }
    ensures rest { tickets.new ≡ tickets_without number tickets.old }
    ensures open { Some result ≡ ticket_at number tickets.old }
{
    let at = place(tickets.as_slice(), number);
    tickets.remove(at)
}

// A second value of a point.
pub(crate) fn share_point<R: Share + Drop>(
    alloc: Global,
    point: &SearchPoint<R>,
) -> Result<SearchPoint<R>, NoMemory>
    ensures { IfOk result (λ copy. copy ≡ point.now) }
{
    Ok(SearchPoint {
        version: point.version,
        names: point.names.share(alloc)?,
        readers: point.readers.share(alloc)?,
    })
}

// Counts the files of the point once more, for a ticket.
pub(crate) fn open_on<R: Share + Drop, D: Dir>(
    alloc: Global,
    point: &SearchPoint<R>,
    tickets: &mut List<Open<R>>,
    number: u64,
    files: &mut FileDeleter,
    dir: &D,
) -> Result<(), NoMemory>
    requires { AreThere (D.cells dir.now) point.now.names }
    ensures opened { OnOk result (tickets.new
        ≡ tickets.old ++ record { number = number; point = point.now } ∷ []) }
    ensures holds { OnOk result (HoldsFiles point.now.names files.old files.new (D.cells dir.now)) }
    ensures err { OnErr result ((tickets.new ≡ tickets.old) × (files.new ≡ files.old)) }
{
    let copy = share_point(alloc, point)?;
    tickets.push(Open {
        number,
        point: copy,
    })?;
    if let Err(fault) = files.hold_there(point.names.as_slice(), dir) {
        tickets.cut_last();
        return Err(fault);
    }
    Ok(())
}
