//! One name of the disk: its state and its past outcomes.

ghost use Rattle.std.specs.Prelude.{[], ◌≡◌, ◌≢◌, ◌+◌, ◌<◌, ◌≤◌, true, false, None, OnOk, OnErr, IfOk, IsOk, if◌then◌else◌, vec_len, vec_capacity, is_some, slice_index_or};
ghost use Rattle.std.specs.Bool.{OnTrue};
ghost use Rattle.disk_memory.specs.Held.{untouched, content_of, outcome_of, ends_with, gain, set_to, with_outcome, held_flushed, held_settled};
ghost use Rattle.disk_memory.specs.Crash.{picked, is_picked, started};

use crate::state::{Outcome, State, place_picked};
use disk_model::NoMemory;
use std::alloc::Global;
use std::marker::Model;
use std::mem;

/// A name of the disk: its state, and its past outcomes, oldest first. There is room for the outcomes of its removals.
#[derive(Drop)]
pub struct Slot {
    state: State,
    past: Vec<Outcome>,
}

impl Model for Slot {
    ghost use Rattle.std.specs.Prelude.{◌+◌, ◌≤◌, vec_len, vec_capacity};
    ghost use Rattle.disk_memory.specs.Held.{Held, need};

    ghost Value = { Held };

    ghost view = { λ s. record { state = s.state; past = s.past.items } };

    ghost invariant = { λ s. (2 ≤ vec_capacity s.past) × (vec_len s.past + need s.state s.past.items ≤ vec_capacity s.past) };
}

fn ends_with(past: &Vec<Outcome>, outcome: &Outcome) -> bool
    ensures { result ≡ ends_with past.now.items outcome.now }
{
    match past.last() {
        Some(last) => last.is_same(outcome),
        None => false,
    }
}

// One more outcome, unless the last one is the same.
fn gain(past: &mut Vec<Outcome>, outcome: Outcome) -> Result<(), NoMemory>
    ensures ok { OnOk result (past.new.items ≡ gain past.old.items outcome) }
    ensures err { OnErr result (past.new.items ≡ past.old.items) }
    ensures room { vec_len past.old < vec_capacity past.old → IsOk result }
    ensures there { ends_with past.old.items outcome ≡ true → IsOk result }
    ensures len { vec_len past.new
        ≤ vec_len past.old + (if ends_with past.old.items outcome then 0 else 1) }
    ensures capacity { vec_capacity past.old ≤ vec_capacity past.new }
{
    if ends_with(past, &outcome) {
        return Ok(());
    }
    past.push(outcome)?;
    Ok(())
}

// The outcome at this place, and behind the past ones that of the state.
fn take_outcome(past: &mut Vec<Outcome>, place: usize, last: Outcome) -> Outcome
    ensures outcome { result ≡ slice_index_or past.old.items place last }
    ensures capacity { vec_capacity past.new ≡ vec_capacity past.old }
{
    if place < past.len() {
        past.swap_remove(place)
    } else {
        last
    }
}

impl Slot {
    /// What reads.
    pub fn state(&self) -> &State
        ensures { result.now ≡ self.now.state }
    {
        &self.state
    }

    /// A name under which nothing is and nothing was.
    pub fn new(alloc: Global) -> Result<Slot, NoMemory>
        ensures { IfOk result (λ slot. slot ≡ untouched) }
    {
        Ok(Slot {
            state: State::Absent,
            past: Vec::with_capacity(alloc, 2)?,
        })
    }

    /// The file goes. There is room for its outcome.
    pub fn remove(&mut self)
        requires { is_some (content_of self.old.state) ≡ true }
        ensures { self.new ≡ set_to State.Absent self.old }
    {
        let state = mem::replace(&mut self.state, State::Absent);
        // There is room, so this takes no memory.
        let _ = gain(&mut self.past, state.into_outcome());
    }

    /// A removal fails: a crash may take the file away. There is room for that outcome.
    pub fn half_remove(&mut self)
        requires { is_some (content_of self.old.state) ≡ true }
        ensures { self.new ≡ with_outcome Outcome.Gone self.old }
    {
        // There is room, so this takes no memory.
        let _ = gain(&mut self.past, Outcome::Gone);
    }

    /// A file comes, in this state. Makes the room that its removal needs.
    pub fn set(&mut self, state: State) -> Result<(), NoMemory>
        requires { content_of self.old.state ≡ None }
        ensures ok { OnOk result (self.new ≡ set_to state self.old) }
        ensures err { OnErr result (self.new ≡ self.old) }
    {
        self.past.reserve(2)?;
        gain(&mut self.past, Outcome::Gone)?;
        self.state = state;
        Ok(())
    }

    /// A file may have come, in this state.
    pub fn half_set(&mut self, state: State) -> Result<(), NoMemory>
        requires { content_of self.old.state ≡ None }
        ensures ok { OnOk result (self.new ≡ with_outcome (outcome_of state) self.old) }
        ensures err { OnErr result (self.new ≡ self.old) }
    {
        gain(&mut self.past, state.into_outcome())
    }

    /// The bytes are on the disk.
    pub fn flush(&mut self)
        ensures { self.new ≡ held_flushed self.old }
    {
        self.state = match mem::replace(&mut self.state, State::Absent) {
            State::Absent => State::Absent,
            State::Loose(bytes) => State::Synced(bytes),
            State::Synced(bytes) => State::Synced(bytes),
        };
    }

    /// The past is over. The room stays.
    pub fn settle(&mut self)
        ensures { self.new ≡ held_settled self.old }
    {
        self.past.clear();
    }

    /// Whether there are past outcomes.
    pub fn has_past(&self) -> bool
        ensures { OnTrue result (self.now.past ≢ []) }
    {
        !self.past.is_empty()
    }

    /// Whether a crash has something to pick here.
    pub fn is_picked(&self) -> bool
        ensures { result ≡ is_picked self.now }
    {
        !self.state.is_absent() || !self.past.is_empty()
    }

    /// A crash leaves what the pick says. The room stays.
    pub fn crash(&mut self, pick: u64, number: u64)
        ensures { self.new ≡ started (picked pick number self.old) }
    {
        let state = mem::replace(&mut self.state, State::Absent);
        let place = place_picked(pick, number, self.past.len() as u64 + 1);
        let outcome = take_outcome(&mut self.past, place as usize, state.into_outcome());
        self.past.clear();
        self.state = outcome.into_state(pick, number);
    }
}
