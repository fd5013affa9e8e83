//! What a history shows of the nodes: which is the primary, which run, and what each searches.

ghost use Rattle.std.specs.Prelude.{◌≡◌, ◌↔◌, reverse, IsTrue, []};
ghost use Rattle.history_rules.specs.Nodes.{IsNode, IsReplica, is_at, primary_by, primary_of, primary_crashes, is_running, crashes, newest_version, is_made_in_generation, is_point, accepted_count};
ghost use Rattle.history_rules.specs.Steps.{version_by};

use history_rules::{Entry, Event};
use nrt_base::{NodeNo, Version};

/// Whether this node is the one.
pub fn is_at(node: Option<NodeNo>, n: NodeNo) -> bool
    ensures { result ≡ is_at node n.0 }
{
    match node {
        Some(m) => m.0 == n.0,
        None => false,
    }
}

/// Whether a history of so many nodes has this one.
pub fn is_node(nodes: u8, n: NodeNo) -> bool
    ensures { IsTrue result ↔ IsNode nodes n.0 }
{
    1 <= n.0 && n.0 <= nodes
}

/// The running primary, and how often a running primary has crashed.
#[derive(Drop)]
pub struct RunningPrimary {
    pub node: Option<NodeNo>,
    pub crashes: usize,
}

pub fn primary_of(entries: &[Entry]) -> RunningPrimary
    ensures node { result.node ≡ primary_of (reverse entries.now) }
    ensures crashes { result.crashes ≡ primary_crashes (reverse entries.now) }
{
    let mut node = Some(NodeNo(1));
    let mut crashes = 0;
    for entry in entries {
        match &entry.event {
            Event::Crashed { n } => {
                if is_at(node, *n) {
                    node = None;
                    crashes += 1;
                }
            }
            Event::Promoted { n, .. } => node = Some(*n),
            _ => {}
        }
    }
    RunningPrimary { node, crashes }
}

/// Whether a node runs.
pub fn is_running(n: NodeNo, entries: &[Entry]) -> bool
    ensures { result ≡ is_running n.0 (reverse entries.now) }
{
    let mut running = true;
    for entry in entries {
        match &entry.event {
            Event::Crashed { n: m } if m.0 == n.0 => running = false,
            Event::Reopened { n: m, .. } if m.0 == n.0 => running = true,
            _ => {}
        }
    }
    running
}

/// How often a node has crashed.
pub fn crashes(n: NodeNo, entries: &[Entry]) -> usize
    ensures { result ≡ crashes n.0 (reverse entries.now) }
{
    let mut count = 0;
    for entry in entries {
        if let Event::Crashed { n: m } = &entry.event {
            if m.0 == n.0 {
                count += 1;
            }
        }
    }
    count
}

/// Whether a node runs and is not the primary.
pub fn is_replica(n: NodeNo, entries: &[Entry]) -> bool
    ensures { IsTrue result ↔ IsReplica (reverse entries.now) n.0 }
{
    is_running(n, entries) && !is_at(primary_of(entries).node, n)
}

/// The primary, and the version that a node searches.
#[derive(Drop)]
pub struct Searched {
    pub primary: Option<NodeNo>,
    pub version: u64,
}

impl Searched {
    /// Before any entry.
    pub fn new() -> Self
        ensures primary { result.primary ≡ primary_of [] }
        ensures version { result.version ≡ 1 }
    {
        Searched {
            primary: Some(NodeNo(1)),
            version: 1,
        }
    }

    /// After one more entry.
    pub fn after(self, n: NodeNo, event: &Event) -> Self
        ensures primary { result.primary ≡ primary_by event.now self.primary }
        ensures version { result.version ≡ version_by n.0 self.primary event.now self.version }
    {
        match event {
            Event::Crashed { n: m } if is_at(self.primary, *m) => Searched {
                primary: None,
                version: self.version,
            },
            Event::Promoted { n: m, v, .. } => Searched {
                primary: Some(*m),
                version: if m.0 == n.0 { v.0 } else { self.version },
            },
            Event::Published { v, .. } if is_at(self.primary, n) => Searched {
                primary: self.primary,
                version: v.0,
            },
            Event::Switched { n: m, v } | Event::Reopened { n: m, v } if m.0 == n.0 => Searched {
                primary: self.primary,
                version: v.0,
            },
            _ => self,
        }
    }
}

/// The greatest version that was published or promoted, or 1.
pub fn newest_version(entries: &[Entry]) -> u64
    ensures { result ≡ newest_version (reverse entries.now) }
{
    let mut newest = 1;
    for entry in entries {
        if let Event::Published { v, .. } | Event::Promoted { v, .. } = &entry.event {
            newest = newest.max(v.0);
        }
    }
    newest
}

/// Whether the version was published or promoted in the present generation.
pub fn is_made_in_generation(version: Version, entries: &[Entry]) -> bool
    ensures { result ≡ is_made_in_generation version.0 (reverse entries.now) }
{
    let mut made = false;
    for entry in entries {
        match &entry.event {
            Event::Published { v, .. } if v.0 == version.0 => made = true,
            Event::Promoted { v, .. } => made = v.0 == version.0,
            _ => {}
        }
    }
    made
}

/// Whether there is a point of this version.
pub fn is_point(version: Version, entries: &[Entry]) -> bool
    ensures { result ≡ is_point version.0 (reverse entries.now) }
{
    let mut made = version.0 == 1;
    for entry in entries {
        match &entry.event {
            Event::Published { v, .. } | Event::Promoted { v, .. } if v.0 == version.0 => {
                made = true
            }
            _ => {}
        }
    }
    made
}

/// How many operations were accepted.
pub fn accepted_count(entries: &[Entry]) -> usize
    ensures { result ≡ accepted_count (reverse entries.now) }
{
    let mut count = 0;
    for entry in entries {
        if let Event::Accepted { .. } = &entry.event {
            count += 1;
        }
    }
    count
}
