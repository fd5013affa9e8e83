//! The rules of faults: where one may be met.

ghost use Rattle.std.specs.Prelude.{◌≡◌, ◌↔◌, ◌⊎◌, ◌||◌, reverse, true, false, IsTrue};
ghost use Rattle.std.specs.Option.{option_copied};
ghost use Rattle.history_rules.specs.Nodes.{is_running};
ghost use Rattle.history_rules.specs.Lines.{last_of_line, is_answered};
ghost use Rattle.history_rules.specs.Rules.{copies_to, is_merging, is_unbegun, fetches_at, MayFault};
ghost use Rattle.known_past.specs.Known.{IsKnown};

use crate::refusals::is_node_of;
use history_facts::{is_at, is_node, is_of_disk, is_running, primary_of};
use history_rules::{Entry, Event, FaultKind};
use known_past::KnownPast;
use nrt_base::{At, NodeNo};

/// Whether a line started as a copy or a settle after these entries, and this is a node of it.
fn copies_to(nodes: u8, start: &[Entry], begun: Option<&Event>, n: NodeNo) -> bool
    ensures { result ≡ copies_to nodes (reverse start.now) (option_copied begun.entry) n.0 }
{
    match begun {
        Some(Event::Copying { n: m, v }) => m.0 == n.0,
        Some(Event::Settling { v }) => {
            1 <= n.0 && n.0 <= nodes && is_running(n, start) && !is_at(primary_of(start).node, n)
        }
        _ => false,
    }
}

fn is_merging(last: Option<&Event>) -> bool
    ensures { result ≡ is_merging (option_copied last.entry) }
{
    match last {
        Some(Event::Merging { .. }) => true,
        _ => false,
    }
}

/// Whether files are copied to the node for a line: by a copy or a settle of it, or by a merge.
fn fetches_at(nodes: u8, at: At, known: &KnownPast, entries: &[Entry], n: NodeNo) -> bool
    requires known { IsKnown (reverse entries.now) known.now }
    ensures { result ≡ fetches_at nodes at (reverse entries.now) n.0 }
{
    copies_to(
        nodes,
        known.before_start(at, entries),
        known.start_entry(at, entries),
        n,
    ) || (is_merging(known.last_of_line(at, entries))
        && known.is_running(n, entries)
        && !is_at(known.primary(entries), n))
}

/// Whether a line may meet faults: it has no reply yet, or it is a merge.
fn is_at_work(at: At, known: &KnownPast, entries: &[Entry]) -> bool
    requires known { IsKnown (reverse entries.now) known.now }
    ensures { IsTrue result ↔ ((is_answered at (reverse entries.now) ≡ false) ⊎
        (is_merging (last_of_line at (reverse entries.now)) ≡ true)) }
{
    !known.is_answered(at, entries) || is_merging(known.last_of_line(at, entries))
}

fn is_unbegun(last: Option<&Event>) -> bool
    ensures { result ≡ is_unbegun (option_copied last.entry) }
{
    match last {
        Some(_) => false,
        None => true,
    }
}

/// Whether a node runs, or the line has no entry but faults.
fn is_alive(n: NodeNo, at: At, known: &KnownPast, entries: &[Entry]) -> bool
    requires known { IsKnown (reverse entries.now) known.now }
    ensures { result ≡ (is_running n.0 (reverse entries.now)
        || is_unbegun (last_of_line at (reverse entries.now))) }
{
    known.is_running(n, entries) || is_unbegun(known.last_of_line(at, entries))
}

pub(crate) fn may_fault(
    nodes: u8,
    known: &KnownPast,
    entries: &[Entry],
    at: At,
    n: NodeNo,
    kind: FaultKind,
) -> bool
    requires known { IsKnown (reverse entries.now) known.now }
    ensures { IsTrue result ↔ MayFault nodes (reverse entries.now) at n kind }
{
    is_node(nodes, n)
        && known.is_planned(n, kind, entries)
        && is_at_work(at, known, entries)
        && (is_of_disk(kind) || fetches_at(nodes, at, known, entries, n))
        && is_alive(n, at, known, entries)
}
