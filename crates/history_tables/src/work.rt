//! The copies to a node and the commits of it that have been started.

ghost use Rattle.std.specs.Prelude.{◌≡◌, ◌∷◌, [], ℕ, None};
ghost use Rattle.history_rules.specs.Nodes.{Past, primary_of};
ghost use Rattle.history_rules.specs.Lines.{without_at};
ghost use Rattle.history_tables.specs.WorkRows.{WorkTells, KnowsNewest, IsCommitter};

use crate::lines::other_line;
use history_facts::{is_at, is_disk_fault};
use history_rules::Event;
use nrt_base::{At, NodeNo};

/// What is remembered of a node's copies and commits.
#[derive(Clone, Copy, Debug, PartialEq, Eq)]
pub struct Work {
    /// Whether a disk fault refused a commit, and neither was one acknowledged since nor did the node reopen.
    pub stuck: bool,
    /// Whether a commit was acknowledged, or found by a reopening.
    pub committed: bool,
    /// The line whose copy of the newest version is in flight.
    pub copying: Option<At>,
}

impl Work {
    /// Before any entry.
    pub fn first() -> Self
        ensures { (n : ℕ) → WorkTells [] n result }
    {
        Work {
            stuck: false,
            committed: false,
            copying: None,
        }
    }

    /// After one more entry. Where it refuses a commit, `line` is the node of that.
    pub fn after(
        self,
        n: u8,
        at: At,
        event: &Event,
        primary: Option<NodeNo>,
        line: Option<NodeNo>,
    ) -> Self
        ensures { (past : Past) → primary_of past ≡ primary → KnowsNewest n at past event.now
            → IsCommitter at past event.now line → WorkTells past n self
            → WorkTells (record { at = at; event = event.now } ∷ past) n result }
    {
        match event {
            Event::Committed { n: m, .. } => {
                let work = self.without(at);
                if m.0 == n {
                    Work {
                        stuck: false,
                        committed: true,
                        ..work
                    }
                } else {
                    work
                }
            }
            Event::Reopened { n: m, v } => {
                let work = self.without(at);
                if m.0 == n {
                    Work {
                        stuck: false,
                        committed: self.committed || 1 < v.0,
                        ..work
                    }
                } else {
                    work
                }
            }
            Event::Refused { cause } => {
                let work = self.without(at);
                let mine = is_at(line, NodeNo(n));
                let disk = is_disk_fault(cause);
                Work {
                    stuck: (disk && mine) || self.stuck,
                    ..work
                }
            }
            Event::Copying { n: m, .. } => {
                if m.0 == n {
                    Work {
                        copying: Some(at),
                        ..self
                    }
                } else {
                    self
                }
            }
            Event::Crashed { n: m } => {
                let source = is_at(primary, *m);
                if m.0 == n || source {
                    self.none()
                } else {
                    self.without(at)
                }
            }
            Event::Published { .. } | Event::Promoted { .. } => self.none(),
            Event::Switched { .. }
            | Event::Fault { .. }
            | Event::Publishing
            | Event::Settling { .. }
            | Event::Asking { .. }
            | Event::Committing { .. } => self,
            Event::Opened { t, .. } => { if t.0 == 0 { self } else { self.without(at) } }
            Event::Accepted { .. }
            | Event::Copied { .. }
            | Event::Settled { .. }
            | Event::Answered { .. }
            | Event::Closed { .. }
            | Event::Merging { .. }
            | Event::Drained { .. }
            | Event::Files { .. }
            | Event::Planned { .. } => self.without(at),
        }
    }

    fn without(self, at: At) -> Self
        ensures { result ≡ record self { copying = without_at at self.copying } }
    {
        Work {
            copying: other_line(at, self.copying),
            ..self
        }
    }

    fn none(self) -> Self
        ensures { result ≡ record self { copying = None } }
    {
        Work {
            copying: None,
            ..self
        }
    }
}
