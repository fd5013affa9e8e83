//! The numbers of a whole run, and of its present generation.

ghost use Rattle.std.specs.Prelude.{◌≡◌, ◌≤◌, ◌<◌, ◌+◌, ◌*◌, ◌^◌, ◌∷◌, [], Some, None, ℕ, length, max, nat_lt, nat_le, if◌then◌else◌};
ghost use Rattle.history_rules.specs.Lines.{without_at};
ghost use Rattle.history_rules.specs.Nodes.{Past};
ghost use Rattle.documents.specs.Documents.{is_put};
ghost use Rattle.history_tables.specs.Numbering.{NumbersTell, IsFound, AreLow};

use crate::lines::other_line;
use documents::Op;
use history_facts::is_at;
use history_rules::Event;
use nrt_base::{At, NodeNo};

/// Numbers of the whole run.
#[derive(Clone, Copy, Debug, PartialEq, Eq)]
pub struct Numbers {
    pub primary: Option<NodeNo>,
    /// How many entries there were after the last crash of a running primary.
    pub primary_crashed: usize,
    pub generation: u64,
    pub newest: u64,
    /// How many operations were accepted.
    pub count: usize,
    /// The line whose publish is in flight.
    pub publishing: Option<At>,
    /// How many operations the generation has accepted.
    pub accepted: usize,
    /// How many of them its last publish has.
    pub published: usize,
    /// How many of them there are up to its last put.
    pub last_put: usize,
    /// How many segment names it has drawn.
    pub names: usize,
    /// How many merges it has started.
    pub merges: usize,
    /// How many of its publishes added no operation.
    pub idle: usize,
    /// How many merges were started in every generation.
    pub all_merges: usize,
    /// How many tasks all drains together did.
    pub drained: u128,
}

fn is_put(op: &Op) -> bool
    ensures { result ≡ is_put op.now }
{
    match op {
        Op::Put(_) => true,
        Op::Delete(_) | Op::Drop(_) => false,
    }
}

impl Numbers {
    /// Before any entry.
    pub fn first() -> Self
        ensures { NumbersTell [] result }
    {
        Numbers {
            primary: Some(NodeNo(1)),
            primary_crashed: 0,
            generation: 1,
            newest: 1,
            count: 0,
            publishing: None,
            accepted: 0,
            published: 0,
            last_put: 0,
            names: 0,
            merges: 0,
            idle: 0,
            all_merges: 0,
            drained: 0,
        }
    }

    /// After one more entry, where so many stood before it, and the publish that ends with it, if one does,
    /// found so many operations accepted.
    pub fn after(self, at: At, event: &Event, size: usize, started: usize) -> Self
        requires few { size + 1 < 2 ^ 64 }
        requires low { AreLow self size }
        ensures { (past : Past) → length past ≡ size → IsFound at past event.now started
            → NumbersTell past self
            → NumbersTell (record { at = at; event = event.now } ∷ past) result }
    {
        match event {
            Event::Accepted { op, .. } => self.accepting(at, op),
            Event::Publishing => self.publishing(at),
            Event::Published { v, .. } => self.published(at, v.0, started),
            Event::Crashed { n } => {
                if is_at(self.primary, *n) {
                    Numbers {
                        primary: None,
                        primary_crashed: size + 1,
                        publishing: None,
                        ..self
                    }
                } else {
                    self.without(at)
                }
            }
            Event::Promoted {
                n,
                generation,
                v,
                ..
            } => { self.promoting(at, *n, generation.0, v.0) }
            Event::Merging { .. } => self.merging(at),
            Event::Drained { done, .. } => self.draining(at, *done),
            Event::Switched { .. }
            | Event::Fault { .. }
            | Event::Copying { .. }
            | Event::Settling { .. }
            | Event::Asking { .. }
            | Event::Committing { .. } => self,
            Event::Opened { t, .. } => { if t.0 == 0 { self } else { self.without(at) } }
            Event::Copied { .. }
            | Event::Settled { .. }
            | Event::Answered { .. }
            | Event::Closed { .. }
            | Event::Committed { .. }
            | Event::Reopened { .. }
            | Event::Files { .. }
            | Event::Planned { .. }
            | Event::Refused { .. } => self.without(at),
        }
    }

    fn without(self, at: At) -> Self
        ensures { result ≡ record self { publishing = without_at at self.publishing } }
    {
        Numbers {
            publishing: other_line(at, self.publishing),
            ..self
        }
    }

    fn accepting(self, at: At, op: &Op) -> Self
        requires count { self.count + 1 < 2 ^ 64 }
        requires accepted { self.accepted + 1 < 2 ^ 64 }
        ensures { result ≡ record self {
          publishing = without_at at self.publishing;
          count = self.count + 1;
          accepted = self.accepted + 1;
          last_put = (if is_put op.now then self.accepted + 1 else self.last_put);
        } }
    {
        let accepted = self.accepted + 1;
        let last_put = if is_put(op) { accepted } else { self.last_put };
        Numbers {
            publishing: other_line(at, self.publishing),
            count: self.count + 1,
            accepted,
            last_put,
            ..self
        }
    }

    fn publishing(self, at: At) -> Self
        requires { self.names + 1 < 2 ^ 64 }
        ensures { result ≡ record self {
          publishing = Some at;
          names = (if nat_lt self.published self.last_put then self.names + 1 else self.names);
        } }
    {
        let names = if self.published < self.last_put {
            self.names + 1
        } else {
            self.names
        };
        Numbers {
            publishing: Some(at),
            names,
            ..self
        }
    }

    fn published(self, at: At, v: u64, started: usize) -> Self
        requires { self.idle + 1 < 2 ^ 64 }
        ensures { result ≡ record self {
          publishing = without_at at self.publishing;
          newest = max self.newest v;
          published = started;
          idle = (if nat_le started self.published then self.idle + 1 else self.idle);
        } }
    {
        let idle = if started <= self.published {
            self.idle + 1
        } else {
            self.idle
        };
        Numbers {
            publishing: other_line(at, self.publishing),
            newest: self.newest.max(v),
            published: started,
            idle,
            ..self
        }
    }

    fn promoting(self, at: At, n: NodeNo, generation: u64, v: u64) -> Self
        ensures { result ≡ record self {
          primary = Some n;
          generation = generation;
          newest = max self.newest v;
          publishing = without_at at self.publishing;
          accepted = 0;
          published = 0;
          last_put = 0;
          names = 0;
          merges = 0;
          idle = 0;
        } }
    {
        Numbers {
            primary: Some(n),
            generation,
            newest: self.newest.max(v),
            publishing: other_line(at, self.publishing),
            accepted: 0,
            published: 0,
            last_put: 0,
            names: 0,
            merges: 0,
            idle: 0,
            ..self
        }
    }

    fn merging(self, at: At) -> Self
        requires names { self.names + 1 < 2 ^ 64 }
        requires merges { self.merges + 1 < 2 ^ 64 }
        requires all { self.all_merges + 1 < 2 ^ 64 }
        ensures { result ≡ record self {
          publishing = without_at at self.publishing;
          names = self.names + 1;
          merges = self.merges + 1;
          all_merges = self.all_merges + 1;
        } }
    {
        Numbers {
            publishing: other_line(at, self.publishing),
            names: self.names + 1,
            merges: self.merges + 1,
            all_merges: self.all_merges + 1,
            ..self
        }
    }

    fn draining(self, at: At, done: u32) -> Self
        requires { self.drained ≤ 2 ^ 96 }
        ensures is { result ≡ record self {
          publishing = without_at at self.publishing;
          drained = self.drained + done;
        } }
        ensures few { done < 2 ^ 32 }
    {
        Numbers {
            publishing: other_line(at, self.publishing),
            drained: self.drained + u128::from(done),
            ..self
        }
    }
}
