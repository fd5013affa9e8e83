//! What a history shows of the commits of a node.

ghost use Rattle.std.specs.Prelude.{◌≡◌, ◌==◌, ◌∷◌, ℕ, List, None, if◌then◌else◌, reverse};
ghost use Rattle.std.specs.Option.{option_copied};
ghost use Rattle.std.specs.List.{list_any};
ghost use Rattle.history_rules.specs.Nodes.{primary_of};
ghost use Rattle.history_rules.specs.Commits.{has_committed, is_disk_fault, starts_commit, is_stuck, late_commit, reopenable_versions, was_searched_since, is_refused_by_disk, passes, is_passed};
ghost use Rattle.history_rules.specs.Steps.{commit_by, is_stuck_by};

use crate::lines::{commit_after, is_start, same_at, start_entry};
use crate::nodes::{Searched, is_at};
use history_rules::{Cause, Entry, Event};
use nrt_base::{At, NodeNo, Version};

/// Whether a commit of the node was acknowledged, or found by a reopening.
pub fn has_committed(n: NodeNo, entries: &[Entry]) -> bool
    ensures { result ≡ has_committed n.0 (reverse entries.now) }
{
    let mut committed = false;
    for entry in entries {
        match &entry.event {
            Event::Committed { n: m, .. } if m.0 == n.0 => committed = true,
            Event::Reopened { n: m, v } if m.0 == n.0 && 1 < v.0 => committed = true,
            _ => {}
        }
    }
    committed
}

/// Whether the cause is a fault of a disk.
pub fn is_disk_fault(cause: &Cause) -> bool
    ensures { result ≡ is_disk_fault cause.now }
{
    match cause {
        Cause::DiskFault => true,
        _ => false,
    }
}

/// Whether a line started as a commit at this node.
fn starts_commit(n: NodeNo, start: Option<&Event>) -> bool
    ensures { result ≡ starts_commit n.0 (option_copied start.entry) }
{
    match start {
        Some(Event::Committing { n: m, .. }) => m.0 == n.0,
        _ => false,
    }
}

/// Whether a node is stuck after one more entry than these.
fn is_stuck_after(n: NodeNo, entries: &[Entry], entry: &Entry, stuck: bool) -> bool
    requires { stuck ≡ is_stuck n.0 (reverse entries.now) }
    ensures { result ≡ is_stuck n.0 (entry.now ∷ reverse entries.now) }
{
    match &entry.event {
        Event::Committed { n: m, .. } | Event::Reopened { n: m, .. } if m.0 == n.0 => false,
        Event::Refused { cause } => {
            stuck || (is_disk_fault(cause) && starts_commit(n, start_entry(entry.at, entries)))
        }
        _ => stuck,
    }
}

/// Whether a disk fault refused a commit of the node, and neither was one acknowledged since nor did it reopen.
pub fn is_stuck(n: NodeNo, entries: &[Entry]) -> bool
    ensures { result ≡ is_stuck n.0 (reverse entries.now) }
{
    let mut stuck = false;
    for (i, entry) in entries.iter().enumerate() {
        stuck = is_stuck_after(n, &entries[..i], entry, stuck);
    }
    stuck
}

/// The line whose commit is in flight at a node, where the node is stuck.
fn late_line(stuck: bool, line: Option<At>) -> Option<At>
    ensures { result ≡ (if stuck then line else None) }
{
    if stuck { line } else { None }
}

/// Whether a node may reopen at a version after one more entry than these, `found` saying whether it might before, and `line` being its late commit in flight.
fn found_after(
    n: NodeNo,
    version: Version,
    entries: &[Entry],
    entry: &Entry,
    primary: Option<NodeNo>,
    line: Option<At>,
    found: bool,
) -> bool
    requires primary { primary ≡ primary_of (reverse entries.now) }
    requires line { line ≡ late_commit n.0 (reverse entries.now) }
    requires found { found ≡ list_any (λ w. w == version.0)
        (reopenable_versions n.0 (reverse entries.now)) }
    ensures { result ≡ list_any (λ w. w == version.0)
        (reopenable_versions n.0 (entry.now ∷ reverse entries.now)) }
{
    match &entry.event {
        Event::Committed { n: m, v } | Event::Reopened { n: m, v } if m.0 == n.0 => {
            v.0 == version.0
        }
        Event::Committing { n: m, v } if m.0 == n.0 => v.0 == version.0 || found,
        Event::Published { v, .. } if is_at(primary, n) && line.is_some() => {
            v.0 == version.0 || found
        }
        Event::Switched { n: m, v } | Event::Promoted { n: m, v, .. }
            if m.0 == n.0 && line.is_some() => { v.0 == version.0 || found }
        _ => found,
    }
}

/// Whether a node may reopen at a version: its base version, or one that a commit since may have left.
pub fn is_reopenable(n: NodeNo, version: Version, entries: &[Entry]) -> bool
    ensures { result ≡ list_any (λ w. w == version.0)
        (reopenable_versions n.0 (reverse entries.now)) }
{
    let mut searched = Searched::new();
    let mut line = None;
    let mut stuck = false;
    let mut found = version.0 == 1;
    for (i, entry) in entries.iter().enumerate() {
        let late = late_line(stuck, line);
        found = found_after(
            n,
            version,
            &entries[..i],
            entry,
            searched.primary,
            late,
            found,
        );
        searched = searched.after(n, &entry.event);
        line = commit_after(n, entry, line);
        stuck = is_stuck_after(n, &entries[..i], entry, stuck);
    }
    found
}

/// Whether a node searched the version at the start entry of a line, or later.
pub fn was_searched_since(at: At, n: NodeNo, version: Version, entries: &[Entry]) -> bool
    ensures { result ≡ was_searched_since at n.0 version.0 (reverse entries.now) }
{
    let mut searched = Searched::new();
    let mut was = false;
    for entry in entries {
        searched = searched.after(n, &entry.event);
        if is_start(&entry.event) && same_at(entry.at, at) {
            was = false;
        }
        if searched.version == version.0 {
            was = true;
        }
    }
    was
}

/// Whether a fault of a disk refused a line.
fn is_refused_by_disk(at: At, entries: &[Entry]) -> bool
    ensures { result ≡ is_refused_by_disk at (reverse entries.now) }
{
    let mut refused = false;
    for entry in entries {
        if let Event::Refused { cause } = &entry.event {
            if is_disk_fault(cause) && same_at(entry.at, at) {
                refused = true;
            }
        }
    }
    refused
}

/// Whether a copy to a node above this version was started that no fault of a disk refused.
pub fn is_passed(n: NodeNo, v: Version, entries: &[Entry]) -> bool
    ensures { result ≡ is_passed n.0 v.0 (reverse entries.now) }
{
    let mut passed = false;
    for entry in entries {
        if let Event::Copying { n: m, v: w } = &entry.event {
            if m.0 == n.0 && v.0 < w.0 && !is_refused_by_disk(entry.at, entries) {
                passed = true;
            }
        }
    }
    passed
}
