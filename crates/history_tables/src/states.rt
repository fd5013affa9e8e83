//! Whether a node runs, how often it has crashed, and what it searches.

ghost use Rattle.std.specs.Prelude.{◌≡◌, ◌≤◌, ◌<◌, ◌+◌, ◌^◌, ◌∷◌, [], ℕ, length};
ghost use Rattle.history_rules.specs.Nodes.{Past, primary_of};
ghost use Rattle.history_rules.specs.Lines.{without_at};
ghost use Rattle.history_tables.specs.NodeRows.{StateTells};

use crate::lines::other_line;
use history_facts::is_at;
use history_rules::Event;
use nrt_base::{At, NodeNo};

/// What is remembered of a node's life.
#[derive(Clone, Copy, Debug, PartialEq, Eq)]
pub struct NodeState {
    pub running: bool,
    pub crashes: usize,
    /// How many entries there were after its last crash.
    pub crashed: usize,
    /// The version that it searches.
    pub version: u64,
    /// The line whose commit is in flight.
    pub committing: Option<At>,
}

impl NodeState {
    /// Before any entry.
    pub fn first() -> Self
        ensures { (n : ℕ) → StateTells [] n result }
    {
        NodeState {
            running: true,
            crashes: 0,
            crashed: 0,
            version: 1,
            committing: None,
        }
    }

    /// After one more entry, where so many stood before it.
    pub fn after(self, n: u8, at: At, event: &Event, primary: Option<NodeNo>, size: usize) -> Self
        requires few { size + 1 < 2 ^ 64 }
        requires low { self.crashes ≤ size }
        ensures { (past : Past) → length past ≡ size → primary_of past ≡ primary
            → StateTells past n self
            → StateTells (record { at = at; event = event.now } ∷ past) n result }
    {
        match event {
            Event::Crashed { n: m } => {
                if m.0 == n {
                    NodeState {
                        running: false,
                        crashes: self.crashes + 1,
                        crashed: size + 1,
                        committing: None,
                        ..self
                    }
                } else {
                    self.without(at)
                }
            }
            Event::Reopened { n: m, v } => {
                let state = self.without(at);
                if m.0 == n {
                    NodeState {
                        running: true,
                        version: v.0,
                        ..state
                    }
                } else {
                    state
                }
            }
            Event::Published { v, .. } => {
                let state = self.without(at);
                if is_at(primary, NodeNo(n)) {
                    NodeState {
                        version: v.0,
                        ..state
                    }
                } else {
                    state
                }
            }
            Event::Promoted { n: m, v, .. } => {
                let state = self.without(at);
                if m.0 == n {
                    NodeState {
                        version: v.0,
                        ..state
                    }
                } else {
                    state
                }
            }
            Event::Switched { n: m, v } => {
                if m.0 == n {
                    NodeState {
                        version: v.0,
                        ..self
                    }
                } else {
                    self
                }
            }
            Event::Committing { n: m, .. } => {
                if m.0 == n {
                    NodeState {
                        committing: Some(at),
                        ..self
                    }
                } else {
                    self
                }
            }
            Event::Fault { .. }
            | Event::Publishing
            | Event::Copying { .. }
            | Event::Settling { .. }
            | Event::Asking { .. } => self,
            Event::Opened { t, .. } => { if t.0 == 0 { self } else { self.without(at) } }
            Event::Accepted { .. }
            | Event::Copied { .. }
            | Event::Settled { .. }
            | Event::Answered { .. }
            | Event::Closed { .. }
            | Event::Committed { .. }
            | Event::Merging { .. }
            | Event::Drained { .. }
            | Event::Files { .. }
            | Event::Planned { .. }
            | Event::Refused { .. } => self.without(at),
        }
    }

    fn without(self, at: At) -> Self
        ensures { result ≡ record self { committing = without_at at self.committing } }
    {
        NodeState {
            committing: other_line(at, self.committing),
            ..self
        }
    }
}
