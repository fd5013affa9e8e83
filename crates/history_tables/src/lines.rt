//! How the lines have started that have no reply yet.

ghost use Rattle.std.specs.Prelude.{◌≡◌, ◌≤◌, not};
ghost use Rattle.std.specs.List.{filter};
ghost use Rattle.history_rules.specs.Lines.{same_at, without_at};
ghost use Rattle.history_tables.specs.Begins.{start_by};

use history_facts::same_at;
use history_rules::Event;
use nrt_base::{At, NodeNo, TicketNo, Version};
use std::alloc::{AllocError, Global};
use std::marker::Model;

/// How a line has started.
#[derive(Clone, Copy, Debug, PartialEq, Eq)]
pub enum Start {
    Publishing,
    Copying { n: NodeNo, v: Version },
    Settling { v: Version },
    Searching { n: NodeNo, v: Version },
    Asking { n: NodeNo, t: TicketNo, v: Version },
    Committing { n: NodeNo, v: Version },
}

/// What is remembered of a line that has started.
#[derive(Clone, Copy, Debug, PartialEq, Eq)]
pub struct BegunLine {
    pub start: Start,
    /// How many entries stood before its start.
    pub before: usize,
    /// How many operations the generation had accepted then.
    pub accepted: usize,
}

/// A line that has started.
#[derive(Clone, Copy, Debug, PartialEq, Eq)]
pub struct LineRow {
    pub at: At,
    pub begun: BegunLine,
}

/// Lines that have started and have no reply.
#[derive(Debug, Drop)]
pub struct Lines {
    rows: Vec<LineRow>,
}

impl Model for Lines {
    ghost use Rattle.std.specs.Prelude.{vec_capacity, vec_len, ◌-◌};
    ghost use Rattle.history_tables.specs.Begins.{LineRows};

    ghost Value = { LineRows };

    ghost view = { λ l. record { rows = l.rows.items; room = vec_capacity l.rows - vec_len l.rows } };
}

/// The line that is left, where this one is taken away.
pub fn other_line(at: At, line: Option<At>) -> Option<At>
    ensures { result ≡ without_at at line }
{
    match line {
        Some(a) if same_at(at, a) => None,
        _ => line,
    }
}

/// How an event starts a line.
pub fn start_of(event: &Event) -> Option<Start>
    ensures { result ≡ start_by event.now }
{
    match event {
        Event::Publishing => Some(Start::Publishing),
        Event::Copying { n, v } => Some(Start::Copying { n: *n, v: *v }),
        Event::Settling { v } => Some(Start::Settling { v: *v }),
        Event::Opened { n, t, v } => {
            if t.0 == 0 {
                Some(Start::Searching { n: *n, v: *v })
            } else {
                None
            }
        }
        Event::Asking { n, t, v } => Some(Start::Asking {
            n: *n,
            t: *t,
            v: *v,
        }),
        Event::Committing { n, v } => Some(Start::Committing { n: *n, v: *v }),
        _ => None,
    }
}

fn without(rows: &mut Vec<LineRow>, at: At)
    ensures { rows.new.items ≡ filter (λ r. not (same_at r.at at)) rows.old.items }
{
    rows.retain(|row| !same_at(row.at, at));
}

impl Lines {
    ghost use Rattle.std.specs.Prelude.{ℕ, ◌≡◌, ◌≤◌, [], true, if◌then◌else◌, OnOk};
    ghost use Rattle.nrt_base.specs.declared.numbers.At.{At};
    ghost use Rattle.nrt_base.specs.declared.numbers.NodeNo.{NodeNo};
    ghost use Rattle.history_rules.specs.declared.cause.FaultKind.{FaultKind};
    ghost use Rattle.history_rules.specs.Lines.{same_at, is_start};
    ghost use Rattle.history_tables.specs.Begins.{begun_under, begun_by};

    pub fn new(alloc: Global) -> Self
        ensures { result.rows ≡ [] }
    {
        Lines {
            rows: Vec::new(alloc),
        }
    }

    /// What is remembered of a line.
    pub fn get(&self, at: At) -> Option<BegunLine>
        ensures { result ≡ begun_under self.now.rows at }
    {
        for row in self.rows.as_slice() {
            if same_at(row.at, at) {
                return Some(row.begun);
            }
        }
        None
    }

    /// Makes room for one more.
    pub fn reserve(&mut self) -> Result<(), AllocError>
        ensures rows { self.new.rows ≡ self.old.rows }
        ensures room { OnOk result (1 ≤ self.new.room) }
    {
        self.rows.reserve(1)
    }

    /// Forgets a line.
    #[tactic(auto, using(crate::proofs::RowLemmas::row_kept))]
    fn forget(&mut self, at: At)
        ensures { (b : At) → begun_under self.new.rows b
            ≡ (if same_at at b then None else begun_under self.old.rows b) }
    {
        without(&mut self.rows, at);
    }

    /// Remembers a line of which nothing is remembered.
    #[tactic(auto, using(crate::proofs::RowLemmas::row_last))]
    fn remember(&mut self, at: At, begun: BegunLine)
        requires room { 1 ≤ self.old.room }
        requires fresh { begun_under self.old.rows at ≡ None }
        ensures { (b : At) → begun_under self.new.rows b
            ≡ (if same_at at b then Some begun else begun_under self.old.rows b) }
    {
        self.rows.push_reserved(LineRow { at, begun });
    }

    /// After one more entry, where so many stood before it, and the generation had accepted so many operations.
    pub fn step(&mut self, at: At, event: &Event, before: usize, accepted: usize)
        requires room { is_start event.now ≡ true → 1 ≤ self.old.room }
        requires fresh { is_start event.now ≡ true → begun_under self.old.rows at ≡ None }
        ensures rows { (b : At) → begun_under self.new.rows b
            ≡ (if same_at at b then begun_by event.now before accepted (begun_under self.old.rows b)
            else begun_under self.old.rows b) }
        ensures room { (n : NodeNo) (kind : FaultKind)
            → event.now ≡ Event.Fault n kind → self.new.room ≡ self.old.room }
    {
        match event {
            Event::Switched { .. } | Event::Fault { .. } => {}
            event => match start_of(event) {
                Some(start) => self.remember(
                    at,
                    BegunLine {
                        start,
                        before,
                        accepted,
                    },
                ),
                None => self.forget(at),
            },
        }
    }
}
