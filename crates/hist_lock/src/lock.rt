//! The lock, its seats, and its value while a seat is inside.
ghost use Rattle.std.specs.Prelude.{◌≡◌, ℕ, ◌+◌, ◌<◌, List, [], true, IfOk};
ghost use Rattle.hist_lock.specs.History.{Extends, HasBoth};
ghost use Rattle.hist_lock.specs.Rule.{RecallsOwn};

use crate::bells::Bells;
use crate::grows::Grows;
use crate::steps::{
    Compare, DrawTicket, HearNote, Look, MakeNote, OneHistory, ServeNext, SplitOff, TakeIn,
};
use crate::view::View;
use atomic_table::{Refused, Seat, Table};
use std::alloc::{AllocError, Global};
use std::hint::spin_loop;
use std::marker::Model;
use std::sync::Wait;

/// The word that counts the tickets drawn, modulo 2^64.
const TICKETS: usize = 0;

/// The word that counts the tickets served, modulo 2^64.
const SERVED: usize = 1;

/// How many tickets before its turn a thread begins to look for it. One whose turn is farther off sleeps.
const NEAR: u64 = 2;

/// How often a thread looks for its turn before it sleeps: for some ten microseconds, as a section is short.
const LOOKS: u32 = 1000;

/// The slot in which the value lies while no seat is inside.
const VALUE: usize = 0;

/// A lock round a value with a history. Threads share it by reference, each with a seat of its own.
#[derive(Drop)]
pub struct HistLock<T: Grows> {
    table: Table<Option<T>, View<T::Entry>, (), OneHistory<T>, Global>,
    bells: Bells,
    ghost sized: { (table.shared.table_id.words ≡ 2) × (table.shared.table_id.slots ≡ 1) },
}

/// What one thread knows of the history of a lock. It has no bytes: what it has seen, and which entries are its own, exists in proofs alone.
///
/// The seat that `HistLock::new` gives is the first seat, with number 0. The k-th seat that it splits off has number k.
#[derive(Drop)]
pub struct LaneSeat<T: Grows> {
    seat: Seat<Option<T>, View<T::Entry>>,
    ghost recalls: { RecallsOwn T.names seat.me.0 },
}

/// The lock's value, while a seat is inside. It has no `Drop`, so it can only end in `HistLock::unlock`.
pub struct Held<T> {
    value: T,
}

impl<T> Model for Held<T> {
    ghost Value = { T };

    ghost view = { λ h. h.value };
}

impl<T: Grows + Drop> HistLock<T> {
    ghost use Rattle.hist_lock.specs.Seats.{IsOpeningSeat};

    /// A lock round a value with no history yet, and the first seat.
    ///
    /// Only out of memory is an error, and the value is then dropped.
    pub fn new(alloc: Global, value: T) -> Result<(HistLock<T>, LaneSeat<T>), AllocError>
        requires { T.history value ≡ [] }
        ensures { IfOk result (λ r. IsOpeningSeat r.0 r.1) }
    {
        let mut slots = Vec::with_capacity(alloc, 1)?;
        slots.push_reserved(Some(value));
        match Table::new(alloc, &[0, 0], slots, &()) {
            Ok((table, seat)) => Ok((
                HistLock {
                    table,
                    bells: Bells::new(),
                },
                LaneSeat { seat },
            )),
            Err(Refused { slots: _ }) => Err(AllocError),
        }
    }
}

impl<T: Grows> HistLock<T> {
    ghost use Rattle.hist_lock.specs.History.{Continues};
    ghost use Rattle.hist_lock.specs.Seats.{history_seen, number_of, room_of, view_of, IsFirst, IsFree, IsInside, IsLast, IsSeatOf, IsSame, IsStillFree, HasSplit, IsNewSeat, HasTakenIn, HasLeft, HasAppended};

    /// Splits off a seat with the next number. It has seen what the first seat has seen, and has no entries yet.
    pub fn split(&self, seat: &mut LaneSeat<T>) -> LaneSeat<T>
        requires of { IsSeatOf self.now seat.old }
        requires free { IsFree seat.old }
        requires first { IsFirst seat.old × (1 < room_of seat.old) }

        ensures new { IsNewSeat self.now seat.new result }
        ensures counted { HasSplit self.now seat.old seat.new }
    {
        let table = &self.table.shared;
        let mut new = table.split_seat::<SplitOff>(&mut seat.seat);
        table.load::<Compare>(&mut new, TICKETS);
        LaneSeat { seat: new }
    }

    /// Takes in a seat that is done. The first of the two has then seen what either had seen, and answers for the entries of both.
    pub fn join(&self, seat: &mut LaneSeat<T>, other: LaneSeat<T>)
        requires of { IsSeatOf self.now seat.old × IsSeatOf self.now other }
        requires free { IsFree seat.old × IsFree other }

        ensures taken { HasTakenIn self.now seat.old other seat.new }
        ensures seen { HasBoth (history_seen seat.old) (history_seen other) (history_seen seat.new) }
    {
        let table = &self.table.shared;
        let LaneSeat { seat: other } = other;
        table.join_seat::<TakeIn>(&mut seat.seat, other);
        table.load::<Compare>(&mut seat.seat, TICKETS);
    }

    /// Lets the second seat know all that the first has seen.
    pub fn tell(&self, from: &mut LaneSeat<T>, to: &mut LaneSeat<T>)
        requires of { IsSeatOf self.now from.old × IsSeatOf self.now to.old }
        requires free { IsFree from.old × IsFree to.old }

        ensures seen { HasBoth (history_seen to.old) (history_seen from.old) (history_seen to.new) }

        // Both are else as before.
        ensures to { IsStillFree to.old to.new }
        ensures from { IsStillFree from.old from.new }
        ensures from_seen { history_seen from.new ≡ history_seen from.old }
    {
        let table = &self.table.shared;
        let note = table.split_seat::<MakeNote>(&mut from.seat);
        table.join_seat::<HearNote>(&mut to.seat, note);
        table.load::<Compare>(&mut to.seat, TICKETS);
    }

    /// Waits for the seat's turn, and gives out the value. While its turn is far off it lets other threads run: it sleeps until it is near, and then looks for it.
    ///
    /// What is promised holds if it returns. Nothing is promised of how long it waits.
    pub fn lock<R: Wait>(&self, rt: &R, seat: &mut LaneSeat<T>) -> Held<T>
        requires of { IsSeatOf self.now seat.old }
        requires free { IsFree seat.old }

        // The value's history goes on from what the seat knew, and the seat has seen all of it.
        ensures found { Continues T.names (view_of seat.old) (T.history result) }
        ensures seen { history_seen seat.new ≡ T.history result }

        // The seat is inside, which takes room for one, and is else as before.
        ensures inside { IsInside seat.new }
        ensures room { room_of seat.new + 1 ≡ room_of seat.old }
        ensures same { IsSame seat.old seat.new }
    {
        let table = &self.table.shared;
        let ticket = table.fetch_add::<DrawTicket>(&mut seat.seat, TICKETS, 1);
        let mut looks = 0;
        for _ in rt.forever() {
            // It is read before the look, so that a ring after the look is not slept through.
            let rings = self.bells.rings(ticket);
            let serving = table.load::<Look>(&mut seat.seat, SERVED);
            if serving == ticket {
                let value = table.exchange(&mut seat.seat, VALUE, None).unwrap();
                return Held { value };
            }
            if looks < LOOKS && ticket.wrapping_sub(serving) <= NEAR {
                looks += 1;
                spin_loop();
                continue;
            }
            self.bells.sleep(rt, ticket, rings);
            looks = 0;
        }
        unreachable!()
    }

    /// Gives the value back. Its history must have gone on from what the seat found, by entries that name this seat or none.
    pub fn unlock(&self, seat: &mut LaneSeat<T>, held: Held<T>)
        requires of { IsSeatOf self.now seat.old }
        requires inside { IsInside seat.old }
        requires extends { Extends T.names (number_of seat.old) (history_seen seat.old) (T.history held) }

        ensures seen { history_seen seat.new ≡ T.history held }
        ensures own { HasAppended T.names (T.history held) seat.old seat.new }
        ensures left { HasLeft self.now seat.old seat.new }
    {
        let table = &self.table.shared;
        let Held { value } = held;
        match table.exchange(&mut seat.seat, VALUE, Some(value)) {
            None => {}
            Some(_) => unreachable!(),
        }
        let served = table.fetch_add::<ServeNext>(&mut seat.seat, SERVED, 1);
        self.call_next(served.wrapping_add(1));
    }

    /// Wakes the thread whose turn it is, and the one behind it, so that it looks for its turn by the time it comes.
    fn call_next(&self, next: u64) {
        // Where every ticket that was drawn is served, no thread sleeps. One that draws a ticket after this look finds it served.
        let drawn = self.table.shared.peek(TICKETS);
        if drawn == next {
            return;
        }
        self.bells.ring(next);
        let behind = next.wrapping_add(1);
        if drawn != behind {
            self.bells.ring(behind);
        }
    }

    /// The value, once every other seat was joined to this one.
    pub fn close(self, seat: LaneSeat<T>) -> T
        requires of { IsSeatOf self seat }
        requires last { IsLast seat }
        ensures { Continues T.names (view_of seat) (T.history result) }
    {
        let HistLock { table, bells: _ } = self;
        let LaneSeat { seat } = seat;
        let mut closed = table.close_with(seat);
        let value = closed.take(VALUE).unwrap();
        closed.free();
        value
    }
}

impl<T> Held<T> {
    ghost use Rattle.std.specs.Borrow.{sem};
    ghost use Rattle.hist_lock.specs.Lending.{LendsValue};

    /// The value, to be read and written in place.
    pub fn value(&mut self) -> &mut T
        ensures* writes_back { sem 𝓛 (LendsValue T.row self.entry result) }
        ensures value { result.now ≡ self.old }
    {
        &mut self.value
    }
}
