//! What a seat knows. No value of these types is made: they stand in proofs alone, where numbers are counted without end.
use std::collections::LinkedList;

/// Where a seat stands, with its ticket.
pub enum SeatTurn {
    /// It holds nothing.
    Idle,
    /// It waits until its ticket is served.
    Waiting(u64),
    /// Its ticket is served, and it has the value.
    Inside(u64),
}

/// What is left of a seat that was joined to another.
pub struct JoinedSeat<E> {
    pub number: u64,
    /// What it appended under its number.
    pub own: LinkedList<E>,
}

/// What a seat knows of the one history.
pub struct View<E> {
    /// The beginning of the history that the seat has seen.
    pub seen: LinkedList<E>,
    /// The shorter of the two beginnings that were last put together, until it is compared with `seen`.
    pub told: LinkedList<E>,
    /// Its number, or 0 for the first seat and for notes.
    pub number: u64,
    /// What it appended under its number.
    pub own: LinkedList<E>,
    /// The seats that were joined to it.
    pub joined: LinkedList<JoinedSeat<E>>,
    /// Whether it may split off others.
    pub is_first: bool,
    /// How many it has split off.
    pub splits: u64,
    /// How many tickets it, the seats that were joined to it and those that it may still split off could draw at once.
    pub room: u64,
    pub turn: SeatTurn,
}
