//! How many operations a point has.

ghost use Rattle.std.specs.Prelude.{◌≡◌, ◌+◌, ◌∷◌, ◌≤◌, reverse, length};
ghost use Rattle.history_rules.specs.Nodes.{accepted_count};
ghost use Rattle.history_rules.specs.Points.{operations_at};
ghost use Rattle.history_facts.specs.Walks.{operations_sought};

use crate::lines::{is_start, same_at};
use crate::searched::version_of;
use history_rules::{Entry, Event};
use nrt_base::{At, Version};

/// What is sought in the entries before a place.
#[derive(Clone, Copy)]
pub enum Sought {
    /// The operations of the point of this version.
    Point(u64),
    /// Those that are written at the start entry of this line.
    Start(At),
    /// Those that are written.
    Written,
}

// What to seek before an entry, and how many operations the entry adds to it.
fn before_entry(sought: Sought, entry: &Entry, front: &[Entry]) -> (Sought, usize)
    ensures count { length (operations_sought sought (entry.now ∷ reverse front.now))
        ≡ length (operations_sought result.0 (reverse front.now)) + result.1 }
    ensures few { result.1 ≤ 1 }
{
    match sought {
        Sought::Point(version) => (point_before(version, entry, front), 0),
        Sought::Start(at) => {
            if is_start(&entry.event) && same_at(entry.at, at) {
                (Sought::Written, 0)
            } else {
                (sought, 0)
            }
        }
        Sought::Written => written_before(entry, front),
    }
}

// The same of a point.
fn point_before(version: u64, entry: &Entry, front: &[Entry]) -> Sought
    ensures { operations_at (entry.now ∷ reverse front.now) version
        ≡ operations_sought result (reverse front.now) }
{
    match &entry.event {
        Event::Published { v, .. } => {
            if v.0 == version {
                Sought::Start(entry.at)
            } else {
                Sought::Point(version)
            }
        }
        Event::Promoted { n, v, .. } => {
            if v.0 == version {
                Sought::Point(version_of(*n, front))
            } else {
                Sought::Point(version)
            }
        }
        Event::Accepted { .. }
        | Event::Publishing
        | Event::Copying { .. }
        | Event::Switched { .. }
        | Event::Copied { .. }
        | Event::Settling { .. }
        | Event::Settled { .. }
        | Event::Opened { .. }
        | Event::Asking { .. }
        | Event::Answered { .. }
        | Event::Closed { .. }
        | Event::Committing { .. }
        | Event::Committed { .. }
        | Event::Crashed { .. }
        | Event::Reopened { .. }
        | Event::Merging { .. }
        | Event::Drained { .. }
        | Event::Files { .. }
        | Event::Planned { .. }
        | Event::Fault { .. }
        | Event::Refused { .. } => Sought::Point(version),
    }
}

// The same of what is written.
fn written_before(entry: &Entry, front: &[Entry]) -> (Sought, usize)
    ensures count { length (operations_sought Sought.Written (entry.now ∷ reverse front.now))
        ≡ length (operations_sought result.0 (reverse front.now)) + result.1 }
    ensures few { result.1 ≤ 1 }
{
    match &entry.event {
        Event::Accepted { .. } => (Sought::Written, 1),
        Event::Promoted { n, .. } => (Sought::Point(version_of(*n, front)), 0),
        Event::Publishing
        | Event::Published { .. }
        | Event::Copying { .. }
        | Event::Switched { .. }
        | Event::Copied { .. }
        | Event::Settling { .. }
        | Event::Settled { .. }
        | Event::Opened { .. }
        | Event::Asking { .. }
        | Event::Answered { .. }
        | Event::Closed { .. }
        | Event::Committing { .. }
        | Event::Committed { .. }
        | Event::Crashed { .. }
        | Event::Reopened { .. }
        | Event::Merging { .. }
        | Event::Drained { .. }
        | Event::Files { .. }
        | Event::Planned { .. }
        | Event::Fault { .. }
        | Event::Refused { .. } => (Sought::Written, 0),
    }
}

/// How many operations the point of a version has. It takes no memory, and goes over the entries once.
pub fn operation_count(entries: &[Entry], v: Version) -> usize
    ensures count { result ≡ length (operations_at (reverse entries.now) v.0) }
    ensures few { result ≤ accepted_count (reverse entries.now) }
{
    let mut left = entries;
    let mut sought = Sought::Point(v.0);
    let mut count = 0;
    while let Some((entry, front)) = left.split_last() {
        let (next, more) = before_entry(sought, entry, front);
        sought = next;
        count += more;
        left = front;
    }
    count
}
