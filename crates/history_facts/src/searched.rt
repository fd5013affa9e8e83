//! The version that a node searches, by a walk back over the entries.

ghost use Rattle.std.specs.Prelude.{◌≡◌, ◌∷◌, ◌==◌, reverse, true, false, Option, unwrap_or};
ghost use Rattle.nrt_base.specs.declared.numbers.NodeNo.{NodeNo};
ghost use Rattle.history_rules.specs.Nodes.{is_at, primary_by, primary_of, version_of};
ghost use Rattle.history_facts.specs.Walks.{ReignsNot, SaysBack};

use crate::nodes::is_at;
use history_rules::{Entry, Event};
use nrt_base::NodeNo;

// Whether a node is the primary after an event, where the event says so.
#[tactic(auto, using(crate::proofs::Reigns::crashed_self, crate::proofs::Reigns::crashed_other))]
fn reigns_by(n: NodeNo, event: &Event) -> Option<bool>
    ensures { (p : Option NodeNo)
        → is_at (primary_by event.now p) n.0 ≡ unwrap_or result (is_at p n.0) }
{
    match event {
        Event::Promoted { n: m, .. } => Some(m.0 == n.0),
        Event::Crashed { n: m } => { if m.0 == n.0 { Some(false) } else { None } }
        Event::Accepted { .. }
        | Event::Publishing
        | Event::Published { .. }
        | Event::Copying { .. }
        | Event::Switched { .. }
        | Event::Copied { .. }
        | Event::Settling { .. }
        | Event::Settled { .. }
        | Event::Opened { .. }
        | Event::Asking { .. }
        | Event::Answered { .. }
        | Event::Closed { .. }
        | Event::Committing { .. }
        | Event::Committed { .. }
        | Event::Reopened { .. }
        | Event::Merging { .. }
        | Event::Drained { .. }
        | Event::Files { .. }
        | Event::Planned { .. }
        | Event::Fault { .. }
        | Event::Refused { .. } => None,
    }
}

// Whether a node is the primary.
fn reigns(n: NodeNo, entries: &[Entry]) -> bool
    ensures { result ≡ is_at (primary_of (reverse entries.now)) n.0 }
{
    let mut left = entries;
    while let Some((entry, front)) = left.split_last() {
        match reigns_by(n, &entry.event) {
            Some(here) => return here,
            None => left = front,
        }
    }
    is_at(Some(NodeNo(1)), n)
}

/// What an entry says of the version that a node searches.
#[derive(Drop)]
pub enum Said {
    /// This is the version.
    Found(u64),
    /// Nothing: it is that before the entry. Where this is true, the node is not the primary there.
    Before(bool),
}

// Looks at an entry. Where `apart` is true, the node is not the primary after it.
fn look_at(n: NodeNo, entry: &Entry, front: &[Entry], apart: bool) -> Said
    requires { ReignsNot apart n.0 (entry.now ∷ reverse front.now) }
    ensures { SaysBack n.0 entry.now (reverse front.now) result }
{
    match &entry.event {
        Event::Published { v, .. } => {
            if apart {
                Said::Before(true)
            } else if reigns(n, front) {
                Said::Found(v.0)
            } else {
                Said::Before(true)
            }
        }
        Event::Switched { n: m, v } | Event::Reopened { n: m, v } => {
            if m.0 == n.0 {
                Said::Found(v.0)
            } else {
                Said::Before(apart)
            }
        }
        Event::Promoted { n: m, v, .. } => {
            if m.0 == n.0 {
                Said::Found(v.0)
            } else {
                Said::Before(false)
            }
        }
        Event::Crashed { .. } => Said::Before(false),
        Event::Accepted { .. }
        | Event::Publishing
        | Event::Copying { .. }
        | Event::Copied { .. }
        | Event::Settling { .. }
        | Event::Settled { .. }
        | Event::Opened { .. }
        | Event::Asking { .. }
        | Event::Answered { .. }
        | Event::Closed { .. }
        | Event::Committing { .. }
        | Event::Committed { .. }
        | Event::Merging { .. }
        | Event::Drained { .. }
        | Event::Files { .. }
        | Event::Planned { .. }
        | Event::Fault { .. }
        | Event::Refused { .. } => Said::Before(apart),
    }
}

/// The version that a node searches.
pub fn version_of(n: NodeNo, entries: &[Entry]) -> u64
    ensures { result ≡ version_of n.0 (reverse entries.now) }
{
    let mut left = entries;
    let mut apart = false;
    while let Some((entry, front)) = left.split_last() {
        match look_at(n, entry, front, apart) {
            Said::Found(version) => return version,
            Said::Before(still) => {
                apart = still;
                left = front;
            }
        }
    }
    1
}
