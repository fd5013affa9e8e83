//! What a history shows of the present generation: its operations, and what a publish would add.

ghost use Rattle.std.specs.Prelude.{◌≡◌, ◌≤◌, ◌<◌, ◌+◌, ◌^◌, ◌↔◌, ◌⊎◌, ◌∷◌, [], IsTrue, if◌then◌else◌, reverse, length};
ghost use Rattle.nrt_base.specs.SegNumbers.{segment_number};
ghost use Rattle.nrt_base.specs.declared.numbers.Version.{Version};
ghost use Rattle.documents.specs.Documents.{is_put};
ghost use Rattle.history_rules.specs.Points.{operations_of_generation, cut_of, idle_publishes, merges_started};
ghost use Rattle.history_facts.specs.Generations.{ShowsGeneration};

use crate::lines::before_start;
use documents::Op;
use history_rules::{Entry, Event};
use nrt_base::{At, Gen, SegNo};

/// What the entries before a place show of the present generation.
#[derive(Drop)]
pub struct Generation {
    pub number: u64,
    /// How many operations it has accepted.
    pub accepted: usize,
    /// How many of them its last publish has.
    pub published: usize,
    /// How many of them there are up to its last put.
    pub last_put: usize,
    /// How many segment names it has drawn.
    pub names: usize,
    /// How many merges it has started.
    pub merges: usize,
    /// How many of its publishes added no operation.
    pub idle: usize,
}

/// How many operations the present generation has accepted.
pub fn accepted_in_generation(entries: &[Entry]) -> usize
    ensures { result ≡ length (operations_of_generation (reverse entries.now)) }
{
    let mut count = 0;
    for entry in entries {
        match &entry.event {
            Event::Accepted { .. } => count += 1,
            Event::Promoted { .. } => count = 0,
            _ => {}
        }
    }
    count
}

fn is_put(op: &Op) -> bool
    ensures { result ≡ is_put op.now }
{
    match op {
        Op::Put(_) => true,
        Op::Delete(_) | Op::Drop(_) => false,
    }
}

impl Generation {
    fn starting(number: u64) -> Self
        ensures { result ≡
            record {
              number = number;
              accepted = 0;
              published = 0;
              last_put = 0;
              names = 0;
              merges =
                  0;
              idle = 0;
            } }
    {
        Generation {
            number,
            accepted: 0,
            published: 0,
            last_put: 0,
            names: 0,
            merges: 0,
            idle: 0,
        }
    }

    /// Before any entry.
    pub fn first() -> Self
        ensures { ShowsGeneration [] result }
    {
        Generation::starting(1)
    }

    fn accepting(self, op: &Op) -> Self
        requires { self.accepted + 1 < 2 ^ 64 }
        ensures { result ≡ record self {
          accepted = self.accepted + 1;
          last_put =
              (if is_put op.now then self.accepted + 1 else self.last_put);
        } }
    {
        let accepted = self.accepted + 1;
        let last_put = if is_put(op) { accepted } else { self.last_put };
        Generation {
            accepted,
            last_put,
            ..self
        }
    }

    /// Whether there are merges enough for the publishes that added no operation, with the one of this line that ends now.
    pub fn has_merges_for_publish(&self, at: At, entries: &[Entry]) -> bool
        requires shown { ShowsGeneration (reverse entries.now) self.now }
        requires few { length entries.now + 1 < 2 ^ 64 }
        ensures { (g : Gen) (v : Version) → IsTrue result ↔
            (idle_publishes (record { at = at; event = Event.Published g v } ∷
            reverse entries.now) ≤ merges_started (reverse entries.now)) }
    {
        let started = accepted_in_generation(before_start(at, entries));
        if started <= self.published {
            self.idle < self.merges
        } else {
            self.idle <= self.merges
        }
    }

    /// Whether a publish would add an operation, or have a merge that no publish without operations had.
    pub fn has_something_to_publish(&self, entries: &[Entry]) -> bool
        requires shown { ShowsGeneration (reverse entries.now) self.now }
        ensures { IsTrue result ↔ ((0 < length (cut_of (reverse entries.now))) ⊎
            (idle_publishes (reverse entries.now) < merges_started (reverse entries.now))) }
    {
        self.published < self.accepted || self.merges > self.idle
    }

    /// Whether this is the number of the next segment.
    pub fn is_next_segment(&self, seg: SegNo) -> bool
        ensures { IsTrue result ↔ (seg.0 ≡ segment_number self.now.number self.now.names) }
    {
        match SegNo::new(Gen(self.number), self.names as u64) {
            Some(next) => next.0 == seg.0,
            None => false,
        }
    }

    /// After one more entry than these.
    pub fn after(self, entries: &[Entry], entry: &Entry) -> Self
        requires shown { ShowsGeneration (reverse entries.now) self }
        requires few { length entries.now + 1 < 2 ^ 64 }
        ensures { ShowsGeneration (entry.now ∷ reverse entries.now) result }
    {
        match &entry.event {
            Event::Accepted { op, .. } => self.accepting(op),
            Event::Publishing if self.published < self.last_put => Generation {
                names: self.names + 1,
                ..self
            },
            Event::Published { .. } => {
                let started = accepted_in_generation(before_start(entry.at, entries));
                let idle = self.idle + if started <= self.published { 1 } else { 0 };
                Generation {
                    idle,
                    published: started,
                    ..self
                }
            }
            Event::Merging { .. } => Generation {
                names: self.names + 1,
                merges: self.merges + 1,
                ..self
            },
            Event::Promoted { generation, .. } => Generation::starting(generation.0),
            _ => self,
        }
    }
}
