//! What is known of each node: whether it runs, what it searches, and what its commits and planned faults are.

ghost use Rattle.std.specs.Prelude.{ℕ, ◌≡◌, ◌==◌, ◌&&◌, ◌≤◌, ◌<◌, ◌+◌, ◌^◌, ◌∷◌, if◌then◌else◌, length, nat_le, reverse, OnOk, Some, None};
ghost use Rattle.history_rules.specs.Nodes.{primary_of, is_running, crashes, version_of};
ghost use Rattle.history_rules.specs.Commits.{base_version, has_committed, is_stuck};
ghost use Rattle.history_tables.specs.NodeRows.{crashed_at};
ghost use Rattle.history_tables.specs.WorkRows.{IsCommitter};
ghost use Rattle.known_past.specs.Nodes.{highest_copied, last_copy, last_changed, commit_begun, first_node, node_known, touched as touched_lem, LifeIsKnown, CommitsAreKnown, NodeIsKnown, AreNodesKnown};

use history_facts::{is_at, is_disk_fault};
use history_rules::{Entry, Event};
use history_tables::Plans;
use nrt_base::{At, NoMemory, NodeNo, Version};
use std::collections::BTreeMap;

/// A line, and how many entries stood before one of it.
#[derive(Clone, Copy, Debug, PartialEq, Eq)]
pub struct LinePlace {
    pub at: At,
    pub place: usize,
}

impl LinePlace {
    /// The line, where none of these counts of entries is above its place.
    pub fn unless_since(self, replied: usize, crashed: usize, lost: usize) -> Option<At>
        ensures { result ≡ (if nat_le replied self.place
            && (nat_le crashed self.place && nat_le lost self.place) then Some self.at else None) }
    {
        if replied <= self.place && crashed <= self.place && lost <= self.place {
            Some(self.at)
        } else {
            None
        }
    }
}

/// What is known of a node's life.
#[derive(Clone, Copy, Debug, PartialEq, Eq)]
pub struct Life {
    pub running: bool,
    pub crashes: usize,
    /// How many entries there were after its last crash.
    pub crashed: usize,
    /// How many there were after it last crashed or reopened.
    pub changed: usize,
    /// The version that it searches.
    pub version: u64,
    /// The greatest version that a copy to it noted, or 0.
    pub copied: u64,
    /// The start of the last copy of that version.
    pub copying: Option<LinePlace>,
}

/// What is known of a node's commits.
#[derive(Clone, Copy, Debug, PartialEq, Eq)]
pub struct Commits {
    /// Whether one was acknowledged, or found by a reopening.
    pub committed: bool,
    /// Whether a disk fault refused one, and neither was one acknowledged since nor did the node reopen.
    pub stuck: bool,
    /// The version that the node has for certain: that of the last one acknowledged, or of its last reopening.
    pub base: u64,
    /// The start of the last one, unless the node has crashed since.
    pub begun: Option<LinePlace>,
}

/// What is known of a node.
#[derive(Clone, Copy, Debug, PartialEq, Eq)]
pub struct KnownNode {
    pub life: Life,
    pub commits: Commits,
    pub plans: Plans,
}

/// What is known of each node that an entry changed.
pub type KnownNodes = BTreeMap<u8, KnownNode>;

impl Life {
    /// The start of the last copy of the greatest version, after one more copy that this line starts.
    fn copying_after(self, at: At, v: Version, size: usize) -> Option<LinePlace>
        ensures { result ≡
            (if nat_le self.copied v.0 then Some (record { at = at; place = size }) else self.copying) }
    {
        if self.copied <= v.0 {
            Some(LinePlace { at, place: size })
        } else {
            self.copying
        }
    }

    /// After one more entry than these, under this primary.
    fn after(self, n: u8, primary: Option<NodeNo>, before: &[Entry], entry: &Entry) -> Self
        requires known { LifeIsKnown (reverse before.now) n self }
        requires primary { primary ≡ primary_of (reverse before.now) }
        requires few { length before.now + 1 < 2 ^ 64 }
        ensures running { result.running ≡ is_running n (entry.now ∷ reverse before.now) }
        ensures crashes { result.crashes ≡ crashes n (entry.now ∷ reverse before.now) }
        ensures crashed { result.crashed ≡ crashed_at n (entry.now ∷ reverse before.now) }
        ensures changed { result.changed ≡ last_changed n (entry.now ∷ reverse before.now) }
        ensures version { result.version ≡ version_of n (entry.now ∷ reverse before.now) }
        ensures copied { result.copied ≡ highest_copied n (entry.now ∷ reverse before.now) }
        ensures copying { result.copying ≡ last_copy n (entry.now ∷ reverse before.now) }
        ensures low { result.crashes ≤ length before.now + 1 }
    {
        match &entry.event {
            Event::Crashed { n: m } if m.0 == n => Life {
                running: false,
                crashes: self.crashes + 1,
                crashed: before.len() + 1,
                changed: before.len() + 1,
                ..self
            },
            Event::Reopened { n: m, v } if m.0 == n => Life {
                running: true,
                changed: before.len() + 1,
                version: v.0,
                ..self
            },
            Event::Switched { n: m, v } | Event::Promoted { n: m, v, .. } if m.0 == n => Life {
                version: v.0,
                ..self
            },
            Event::Published { v, .. } if is_at(primary, NodeNo(n)) => Life {
                version: v.0,
                ..self
            },
            Event::Copying { n: m, v } if m.0 == n => Life {
                copied: self.copied.max(v.0),
                copying: self.copying_after(entry.at, *v, before.len()),
                ..self
            },
            _ => self,
        }
    }
}

impl Commits {
    /// After one more entry than these. Where it refuses a commit, `committer` is the node of that.
    fn after(self, n: u8, committer: Option<NodeNo>, before: &[Entry], entry: &Entry) -> Self
        requires known { CommitsAreKnown (reverse before.now) n self }
        requires committer { IsCommitter entry.now.at (reverse before.now) entry.now.event
            committer }
        ensures committed { result.committed ≡ has_committed n (entry.now ∷ reverse before.now) }
        ensures stuck { result.stuck ≡ is_stuck n (entry.now ∷ reverse before.now) }
        ensures base { result.base ≡ base_version n (entry.now ∷ reverse before.now) }
        ensures begun { result.begun ≡ commit_begun n (entry.now ∷ reverse before.now) }
    {
        match &entry.event {
            Event::Committing { n: m, .. } if m.0 == n => Commits {
                begun: Some(LinePlace {
                    at: entry.at,
                    place: before.len(),
                }),
                ..self
            },
            Event::Crashed { n: m } if m.0 == n => Commits {
                begun: None,
                ..self
            },
            Event::Committed { n: m, v } if m.0 == n => Commits {
                committed: true,
                stuck: false,
                base: v.0,
                begun: self.begun,
            },
            Event::Reopened { n: m, v } if m.0 == n => Commits {
                committed: self.committed || 1 < v.0,
                stuck: false,
                base: v.0,
                begun: self.begun,
            },
            Event::Refused { cause } => {
                let mine = is_at(committer, NodeNo(n));
                let disk = is_disk_fault(cause);
                Commits {
                    committed: self.committed,
                    stuck: (disk && mine) || self.stuck,
                    base: self.base,
                    begun: self.begun,
                }
            }
            _ => self,
        }
    }
}

impl KnownNode {
    /// Before any entry.
    fn first() -> Self
        ensures { result ≡ first_node }
    {
        KnownNode {
            life: Life {
                running: true,
                crashes: 0,
                crashed: 0,
                changed: 0,
                version: 1,
                copied: 0,
                copying: None,
            },
            commits: Commits {
                committed: false,
                stuck: false,
                base: 1,
                begun: None,
            },
            plans: Plans {
                link: false,
                damage: false,
                disk: false,
                stop: false,
            },
        }
    }

    fn after(
        self,
        n: u8,
        primary: Option<NodeNo>,
        committer: Option<NodeNo>,
        before: &[Entry],
        entry: &Entry,
    ) -> Self
        requires known { NodeIsKnown (reverse before.now) n self }
        requires primary { primary ≡ primary_of (reverse before.now) }
        requires committer { IsCommitter entry.now.at (reverse before.now) entry.now.event
            committer }
        requires few { length before.now + 1 < 2 ^ 64 }
        ensures { NodeIsKnown (entry.now ∷ reverse before.now) n result }
    {
        let life = self.life.after(n, primary, before, entry);
        let commits = self.commits.after(n, committer, before, entry);
        let plans = self.plans.after(n, entry.at, &entry.event);
        KnownNode {
            life,
            commits,
            plans,
        }
    }
}

/// The node that an event may change.
fn touched(event: &Event, primary: Option<NodeNo>, committer: Option<NodeNo>) -> Option<NodeNo>
    ensures { result ≡ touched_lem event.now primary committer }
{
    match event {
        Event::Published { .. } => primary,
        Event::Refused { .. } => committer,
        Event::Switched { n, .. } | Event::Crashed { n } | Event::Reopened { n, .. } => Some(*n),
        Event::Promoted { n, .. } | Event::Committed { n, .. } => Some(*n),
        Event::Planned { n, .. } | Event::Fault { n, .. } | Event::Copying { n, .. } => Some(*n),
        Event::Committing { n, .. } => Some(*n),
        _ => None,
    }
}

/// What is known of a node.
pub fn node_in(nodes: &KnownNodes, n: NodeNo) -> KnownNode
    ensures { result ≡ node_known nodes.now n.0 }
{
    match nodes.get(&n.0) {
        Some(node) => *node,
        None => KnownNode::first(),
    }
}

fn set_node(nodes: &mut KnownNodes, n: NodeNo, node: KnownNode) -> Result<(), NoMemory>
    ensures { OnOk result ((k : ℕ) → node_known nodes.new k ≡
        (if n.0 == k then node else node_known nodes.old k)) }
{
    nodes.insert(n.0, node)?;
    Ok(())
}

/// Takes one more entry in, behind these, under this primary. Where it refuses a commit, `committer` is the node of that.
pub fn note_node(
    nodes: &mut KnownNodes,
    primary: Option<NodeNo>,
    committer: Option<NodeNo>,
    before: &[Entry],
    entry: &Entry,
) -> Result<(), NoMemory>
    requires nodes { AreNodesKnown (reverse before.now) nodes.old }
    requires primary { primary ≡ primary_of (reverse before.now) }
    requires committer { IsCommitter entry.now.at (reverse before.now) entry.now.event committer }
    requires few { length before.now + 1 < 2 ^ 64 }
    ensures { OnOk result (AreNodesKnown (entry.now ∷ reverse before.now) nodes.new) }
{
    let Some(n) = touched(&entry.event, primary, committer) else {
        return Ok(());
    };
    let node = node_in(nodes, n).after(n.0, primary, committer, before, entry);
    set_node(nodes, n, node)
}
