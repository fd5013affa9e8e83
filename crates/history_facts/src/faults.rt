//! What a history shows of faults, planned and met.

ghost use Rattle.std.specs.Prelude.{◌≡◌, reverse};
ghost use Rattle.history_rules.specs.Faults.{kind_of, same_kind, is_of_disk, is_planned, has_met_fault, has_file_fault, has_just_failed, fails_now};

use crate::lines::{is_start, same_at};
use history_rules::{Entry, Event, FaultKind, FaultPlan};
use nrt_base::{At, NodeNo};

fn kind_of(plan: FaultPlan) -> FaultKind
    ensures { result ≡ kind_of plan }
{
    match plan {
        FaultPlan::Link(_) => FaultKind::Link,
        FaultPlan::Damage(_, _) => FaultKind::Damage,
        FaultPlan::Disk(_) => FaultKind::Disk,
        FaultPlan::Stop(_) => FaultKind::Stop,
    }
}

pub fn same_kind(a: FaultKind, b: FaultKind) -> bool
    ensures { result ≡ same_kind a b }
{
    match (a, b) {
        (FaultKind::Link, FaultKind::Link)
        | (FaultKind::Damage, FaultKind::Damage)
        | (FaultKind::Disk, FaultKind::Disk)
        | (FaultKind::Stop, FaultKind::Stop) => true,
        _ => false,
    }
}

/// Whether it is a fault of a disk: of one call, or of a call and all after it.
pub fn is_of_disk(kind: FaultKind) -> bool
    ensures { result ≡ is_of_disk kind }
{
    same_kind(FaultKind::Disk, kind) || same_kind(FaultKind::Stop, kind)
}

/// Whether a fault of this kind is planned at a node.
pub fn is_planned(n: NodeNo, kind: FaultKind, entries: &[Entry]) -> bool
    ensures { result ≡ is_planned n.0 kind (reverse entries.now) }
{
    let mut planned = false;
    for entry in entries {
        match &entry.event {
            Event::Planned { n: m, plan } => {
                if m.0 == n.0 && same_kind(kind_of(*plan), kind) {
                    planned = true;
                }
            }
            Event::Crashed { n: m } => {
                if m.0 == n.0 {
                    planned = false;
                }
            }
            Event::Fault { n: m, kind: met } => {
                if m.0 == n.0 && same_kind(*met, kind) {
                    planned = same_kind(FaultKind::Stop, kind) && planned;
                }
            }
            _ => {}
        }
    }
    planned
}

/// Whether a line has met a fault, of any kind, at any node.
pub fn has_met_fault(at: At, entries: &[Entry]) -> bool
    ensures { result ≡ has_met_fault at (reverse entries.now) }
{
    let mut met = false;
    for entry in entries {
        if let Event::Fault { .. } = &entry.event {
            if same_at(entry.at, at) {
                met = true;
            }
        }
    }
    met
}

/// Whether a line has met a fault of the link, or a damage, in a file for a node.
pub fn has_file_fault(n: NodeNo, at: At, entries: &[Entry]) -> bool
    ensures { result ≡ has_file_fault n.0 at (reverse entries.now) }
{
    let mut met = false;
    for entry in entries {
        if let Event::Fault { n: m, kind } = &entry.event {
            if m.0 == n.0 && !is_of_disk(*kind) && same_at(entry.at, at) {
                met = true;
            }
        }
    }
    met
}

/// Whether the newest entry is a fault of a disk that a line met, or is the line's start entry right behind one.
pub fn fails_now(at: At, entries: &[Entry]) -> bool
    ensures { result ≡ fails_now at (reverse entries.now) }
{
    let mut failed = false;
    let mut fails = false;
    for entry in entries {
        let now = match &entry.event {
            Event::Fault { kind, .. } => is_of_disk(*kind) && same_at(entry.at, at),
            _ => false,
        };
        fails = if is_start(&entry.event) && same_at(entry.at, at) {
            failed
        } else {
            now
        };
        failed = now;
    }
    fails
}
