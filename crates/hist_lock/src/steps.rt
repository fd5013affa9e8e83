//! The rule of the lock's table, and what each kind of step does to the seats that take it.
use crate::grows::Grows;
use crate::view::View;
use atomic_table::{Join, Play, Split, TableRule};
use std::marker::PhantomData;

/// The rule: one history, tickets served in turn, and each seat's own entries as it knows them.
pub struct OneHistory<T> {
    of: PhantomData<T>,
}

impl<T: Grows> TableRule<Option<T>, View<T::Entry>, ()> for OneHistory<T> {
    ghost use Rattle.hist_lock.specs.Views.{first_view};
    ghost use Rattle.hist_lock.specs.Rule.{IsKept};

    ghost holds = { λ _. IsKept T.history T.names };

    ghost first = { λ _. first_view };
}

/// Adds one to the ticket word, and has the ticket found there.
pub struct DrawTicket;

impl<T: Grows> Play<Option<T>, View<T::Entry>> for DrawTicket {
    ghost use Rattle.hist_lock.specs.Steps.{DrewTicket};

    ghost then = { DrewTicket T.history T.names };
}

/// Reads the serving word, and takes the slot where its ticket is served.
pub struct Look;

impl<T: Grows> Play<Option<T>, View<T::Entry>> for Look {
    ghost use Rattle.hist_lock.specs.Steps.{Looked};

    ghost then = { Looked T.history T.names };
}

/// Gives the slot back and adds one to the serving word.
pub struct ServeNext;

impl<T: Grows> Play<Option<T>, View<T::Entry>> for ServeNext {
    ghost use Rattle.hist_lock.specs.Steps.{ServedNext};

    ghost then = { ServedNext T.history T.names };
}

/// Reads a word, and compares what the seat was told with what it has seen.
pub struct Compare;

impl<T: Grows> Play<Option<T>, View<T::Entry>> for Compare {
    ghost use Rattle.hist_lock.specs.Steps.{Compared};

    ghost then = { Compared T.history T.names };
}

/// The first seat splits off a seat that appends.
pub struct SplitOff;

impl<E> Split<View<E>> for SplitOff {
    ghost use Rattle.hist_lock.specs.Views.{splitter_view, new_seat_view};

    ghost left = { splitter_view };

    ghost right = { new_seat_view };
}

/// A seat makes a note of what it has seen.
pub struct MakeNote;

impl<E> Split<View<E>> for MakeNote {
    ghost use Rattle.hist_lock.specs.Views.{note_view};

    ghost left = { λ v. v };

    ghost right = { note_view };
}

/// A seat takes in another that is done.
pub struct TakeIn;

impl<E> Join<View<E>> for TakeIn {
    ghost use Rattle.hist_lock.specs.Views.{joiner_view, spent_view};

    ghost both = { joiner_view };

    ghost spent = { spent_view };
}

/// A seat hears what a note says.
pub struct HearNote;

impl<E> Join<View<E>> for HearNote {
    ghost use Rattle.hist_lock.specs.Views.{hearer_view, spent_view};

    ghost both = { hearer_view };

    ghost spent = { spent_view };
}
