//! The rule of a refusal.

ghost use Rattle.std.specs.Prelude.{◌≡◌, ◌↔◌, ◌==◌, true, reverse, IsTrue};
ghost use Rattle.history_rules.specs.declared.cause.FaultKind.TheVariants.{Link, Damage};
ghost use Rattle.history_rules.specs.Commits.{is_disk_fault};
ghost use Rattle.history_rules.specs.Faults.{same_kind, has_fault, has_met_fault, has_damage, fails_now};
ghost use Rattle.history_rules.specs.Points.{IsDrawnFile};
ghost use Rattle.known_past.specs.Known.{IsKnown};
ghost use Rattle.history_rules.specs.Lines.{start_entry};
ghost use Rattle.history_rules.specs.Rules.{has_disk_fault, MayCancel, MayBreakOff, MayRefuse, MayRefuseLine};
ghost use Rattle.history_rules.specs.Started.{is_node_of, is_source_of, is_lost, is_above, is_copied_beside, is_settled_beside, is_copy, is_loss};

use file_names::FileName;
use history_facts::{
    crashes, fails_now, has_switched, is_answered, is_at, is_disk_fault, is_drawn_file, is_of_disk,
    is_point, is_running, is_start, primary_of, same_at, same_kind,
};
use history_rules::{Cause, Entry, Event, FaultKind};
use known_past::KnownPast;
use nrt_base::{At, NodeNo, Version};

/// Whether a node is one of a line that started with this event after these entries.
pub(crate) fn is_node_of(nodes: u8, start: &[Entry], begun: &Event, n: NodeNo) -> bool
    ensures { result ≡ is_node_of nodes (reverse start.now) begun.now n.0 }
{
    match begun {
        Event::Publishing => is_at(primary_of(start).node, n),
        Event::Settling { .. } => {
            1 <= n.0 && n.0 <= nodes && is_running(n, start) && !is_at(primary_of(start).node, n)
        }
        Event::Copying { n: m, .. }
        | Event::Opened { n: m, .. }
        | Event::Asking { n: m, .. }
        | Event::Committing { n: m, .. } => m.0 == n.0,
        _ => false,
    }
}

/// Whether a node is the source of such a line.
fn is_source_of(start: &[Entry], begun: &Event, n: NodeNo) -> bool
    ensures { result ≡ is_source_of (reverse start.now) begun.now n.0 }
{
    match begun {
        Event::Copying { .. } | Event::Settling { .. } => is_at(primary_of(start).node, n),
        _ => false,
    }
}

/// Whether the node of such a line, or its source, has crashed since.
fn is_lost(entries: &[Entry], start: &[Entry], begun: &Event) -> bool
    ensures { result ≡ is_lost (reverse entries.now) (reverse start.now) begun.now }
{
    match begun {
        Event::Publishing | Event::Settling { .. } => {
            primary_of(entries).crashes != primary_of(start).crashes
        }
        Event::Copying { n, .. } => {
            crashes(*n, entries) != crashes(*n, start)
                || primary_of(entries).crashes != primary_of(start).crashes
        }
        Event::Opened { n, .. } | Event::Asking { n, .. } | Event::Committing { n, .. } => {
            crashes(*n, entries) != crashes(*n, start)
        }
        _ => false,
    }
}

/// Whether the version is above the one in a start entry.
fn is_above(v: Version, begun: &Event) -> bool
    ensures { result ≡ is_above v.0 begun.now }
{
    match begun {
        Event::Copying { v: w, .. }
        | Event::Settling { v: w }
        | Event::Opened { v: w, .. }
        | Event::Asking { v: w, .. }
        | Event::Committing { v: w, .. } => w.0 < v.0,
        _ => false,
    }
}

/// Whether another line started a copy at this version to a node of a line since its start.
fn is_copied_beside(
    nodes: u8,
    start: &[Entry],
    begun: &Event,
    v: Version,
    at: At,
    entries: &[Entry],
) -> bool
    ensures { result ≡ is_copied_beside (is_node_of nodes (reverse start.now) begun.now) v.0 at
        (reverse entries.now) }
{
    let mut copied = false;
    for entry in entries {
        if is_start(&entry.event) && same_at(entry.at, at) {
            copied = false;
        } else if let Event::Copying { n, v: w } = &entry.event {
            if is_node_of(nodes, start, begun, *n) && w.0 == v.0 && !same_at(entry.at, at) {
                copied = true;
            }
        }
    }
    copied
}

/// Whether another line started a settle, and had no reply before a line's start.
fn is_settled_beside(start: &[Entry], at: At, entries: &[Entry]) -> bool
    ensures { result ≡ is_settled_beside (reverse start.now) at (reverse entries.now) }
{
    let mut settled = false;
    for entry in entries {
        if let Event::Settling { .. } = &entry.event {
            if !same_at(entry.at, at) && !is_answered(entry.at, start) {
                settled = true;
            }
        }
    }
    settled
}

/// Whether a line has met a fault of this kind at a node of its own.
fn has_fault_at_node(
    nodes: u8,
    start: &[Entry],
    begun: &Event,
    kind: FaultKind,
    at: At,
    entries: &[Entry],
) -> bool
    ensures { result ≡ has_fault (is_node_of nodes (reverse start.now) begun.now)
        (same_kind kind) at (reverse entries.now) }
{
    let mut met = false;
    for entry in entries {
        if let Event::Fault { n, kind: found } = &entry.event {
            if is_node_of(nodes, start, begun, *n)
                && same_kind(kind, *found)
                && same_at(entry.at, at)
            {
                met = true;
            }
        }
    }
    met
}

/// Whether a line has met a fault of the link at this node.
fn has_link_fault(n: NodeNo, at: At, entries: &[Entry]) -> bool
    ensures { result ≡ has_fault (λ m. m == n.0) (same_kind Link) at (reverse entries.now) }
{
    let mut met = false;
    for entry in entries {
        if let Event::Fault { n: m, kind } = &entry.event {
            if m.0 == n.0 && same_kind(FaultKind::Link, *kind) && same_at(entry.at, at) {
                met = true;
            }
        }
    }
    met
}

/// Whether a line has met a damage at a node of its own, and at that node no fault of the link.
fn has_damage(nodes: u8, start: &[Entry], begun: &Event, at: At, entries: &[Entry]) -> bool
    ensures { result ≡ has_damage (is_node_of nodes (reverse start.now) begun.now) at
        (reverse entries.now) }
{
    let mut met = false;
    for entry in entries {
        if let Event::Fault { n, kind } = &entry.event {
            if is_node_of(nodes, start, begun, *n)
                && !has_link_fault(*n, at, entries)
                && same_kind(FaultKind::Damage, *kind)
                && same_at(entry.at, at)
            {
                met = true;
            }
        }
    }
    met
}

/// Whether a line has met a fault of a disk at a node of its own or at its source.
fn has_disk_fault(nodes: u8, start: &[Entry], begun: &Event, at: At, entries: &[Entry]) -> bool
    ensures { result ≡ has_disk_fault nodes (reverse start.now) begun.now at (reverse entries.now) }
{
    let mut met = false;
    for entry in entries {
        if let Event::Fault { n, kind } = &entry.event {
            let is_near = is_node_of(nodes, start, begun, *n) || is_source_of(start, begun, *n);
            if is_near && is_of_disk(*kind) && same_at(entry.at, at) {
                met = true;
            }
        }
    }
    met
}

fn may_cancel(
    nodes: u8,
    entries: &[Entry],
    at: At,
    start: &[Entry],
    begun: &Event,
    v: Version,
) -> bool
    ensures { IsTrue result ↔ MayCancel nodes (reverse entries.now) at
        (reverse start.now) begun.now v }
{
    is_point(v, entries)
        && is_above(v, begun)
        && (is_copied_beside(nodes, start, begun, v, at, entries)
            || is_settled_beside(start, at, entries))
}

fn may_be_damaged(
    nodes: u8,
    entries: &[Entry],
    known: &KnownPast,
    at: At,
    start: &[Entry],
    begun: &Event,
    name: &FileName,
) -> bool
    requires known { IsKnown (reverse entries.now) known.now }
    ensures { IsTrue result ↔ ((has_damage (is_node_of nodes (reverse start.now) begun.now) at
        (reverse entries.now) ≡ true) × IsDrawnFile (reverse entries.now) name.now) }
{
    has_damage(nodes, start, begun, at, entries) && is_drawn_file(&known.drawn, name)
}

fn may_break_off(
    nodes: u8,
    entries: &[Entry],
    known: &KnownPast,
    at: At,
    start: &[Entry],
    begun: &Event,
    cause: &Cause,
) -> bool
    requires known { IsKnown (reverse entries.now) known.now }
    ensures { IsTrue result ↔ MayBreakOff nodes (reverse entries.now) at
        (reverse start.now) begun.now cause.now }
{
    match cause {
        Cause::Cancelled(v) => may_cancel(nodes, entries, at, start, begun, *v),
        Cause::LinkFault => has_fault_at_node(nodes, start, begun, FaultKind::Link, at, entries),
        Cause::Damaged(name) => may_be_damaged(nodes, entries, known, at, start, begun, name),
        Cause::DiskFault => {
            has_disk_fault(nodes, start, begun, at, entries) && fails_now(at, entries)
        }
        _ => false,
    }
}

fn is_loss(cause: &Cause) -> bool
    ensures { result ≡ is_loss cause.now }
{
    match cause {
        Cause::Lost => true,
        _ => false,
    }
}

fn is_copy(begun: &Event) -> bool
    ensures { result ≡ is_copy begun.now }
{
    match begun {
        Event::Copying { .. } => true,
        _ => false,
    }
}

fn may_refuse(
    nodes: u8,
    entries: &[Entry],
    known: &KnownPast,
    at: At,
    start: &[Entry],
    begun: &Event,
    cause: &Cause,
) -> bool
    requires known { IsKnown (reverse entries.now) known.now }
    ensures { IsTrue result ↔ MayRefuse nodes (reverse entries.now) at
        (reverse start.now) begun.now cause.now }
{
    if is_loss(cause) != is_lost(entries, start, begun) {
        return false;
    }
    if is_copy(begun) && has_switched(at, entries) {
        return false;
    }
    is_loss(cause) || may_break_off(nodes, entries, known, at, start, begun, cause)
}

fn may_refuse_at_once(known: &KnownPast, entries: &[Entry], at: At, cause: &Cause) -> bool
    requires known { IsKnown (reverse entries.now) known.now }
    ensures { IsTrue result ↔ (is_disk_fault cause.now ≡ has_met_fault at (reverse entries.now)) }
{
    is_disk_fault(cause) == known.has_met_fault(at, entries)
}

pub(crate) fn may_refuse_line(
    nodes: u8,
    known: &KnownPast,
    entries: &[Entry],
    at: At,
    cause: &Cause,
) -> bool
    requires known { IsKnown (reverse entries.now) known.now }
    ensures { IsTrue result ↔ MayRefuseLine nodes (reverse entries.now) at
        (start_entry at (reverse entries.now)) cause.now }
{
    match known.start_entry(at, entries) {
        Some(begun) => {
            let start = known.before_start(at, entries);
            may_refuse(nodes, entries, known, at, start, begun, cause)
        }
        None => may_refuse_at_once(known, entries, at, cause),
    }
}
