//! The rules of entries: what may happen over the entries before.

ghost use Rattle.std.specs.Prelude.{◌≡◌, ◌∷◌, ◌≤◌, ◌<◌, ◌+◌, ◌^◌, ◌↔◌, ◌⊎◌, ℕ, reverse, IsTrue, true, false};
ghost use Rattle.history_rules.specs.Nodes.{IsNode, IsReplica, version_of, accepted_count};
ghost use Rattle.history_rules.specs.Lines.{start_entry, before_start, has_just_switched, NodeSurvives};
ghost use Rattle.history_rules.specs.Commits.{starts_commit, was_searched_since as was_searched_since_lem};
ghost use Rattle.history_rules.specs.Points.{idle_publishes, merges_started};
ghost use Rattle.history_rules.specs.Faults.{has_met_fault, has_file_fault};
ghost use Rattle.known_past.specs.Known.{IsKnown};
ghost use Rattle.history_rules.specs.Rules.{MayAccept, MayStartPublish, MayPublish, MayStartCopy, MaySwitch, MayFinishCopy, MayStartSettle, MaySettle, MayOpen, MayAsk, MayClose, MayStartCommit, MayCommit, MayCrash, MayReopen, MayPromote, MayStartMerge, MayDrain, StartedCopy, IsLineWhole};

use history_facts::{is_free_for, is_node, same_at, version_of, was_searched_since};
use history_rules::{Entry, Event};
use known_past::KnownPast;
use nrt_base::{At, Gen, NodeNo, SegNo, TicketNo, Version};

pub(crate) fn may_accept(known: &KnownPast, entries: &[Entry], at: At, seq: u32) -> bool
    requires known { IsKnown (reverse entries.now) known.now }
    ensures rule { IsTrue result ↔ MayAccept (reverse entries.now) at seq }
    ensures few { IsTrue result → accepted_count (reverse entries.now) + 1 < 2 ^ 32 }
{
    known.primary(entries).is_some()
        && seq != 0
        && seq as usize - 1 == known.accepted(entries)
        && (!known.has_met_fault(at, entries) || known.is_answered(at, entries))
}

pub(crate) fn may_start_publish(known: &KnownPast, entries: &[Entry], at: At) -> bool
    requires known { IsKnown (reverse entries.now) known.now }
    ensures { IsTrue result ↔ MayStartPublish (reverse entries.now) at }
{
    let generation = known.generation(entries);
    known.primary(entries).is_some()
        && is_free_for(at, known.publishing(entries))
        && !known.has_met_fault(at, entries)
        && generation.has_something_to_publish(entries)
}

/// Whether there are merges enough for the publishes that added no operation, with the one of this line that ends now.
fn has_merges_for_publish(known: &KnownPast, at: At, entries: &[Entry]) -> bool
    requires known { IsKnown (reverse entries.now) known.now }
    ensures { (g : Gen) (v : Version) → IsTrue result ↔
        (idle_publishes (record { at = at; event = Event.Published g v } ∷ reverse entries.now)
        ≤ merges_started (reverse entries.now)) }
{
    let generation = known.generation(entries);
    if known.accepted_at_start(at, entries) <= generation.published {
        generation.idle < generation.merges
    } else {
        generation.idle <= generation.merges
    }
}

fn started_publish(at: At, known: &KnownPast, entries: &[Entry]) -> bool
    requires known { IsKnown (reverse entries.now) known.now }
    ensures { IsTrue result ↔ (start_entry at (reverse entries.now) ≡ Some Event.Publishing) }
{
    match known.start_entry(at, entries) {
        Some(Event::Publishing) => true,
        _ => false,
    }
}

pub(crate) fn may_publish(
    known: &KnownPast,
    entries: &[Entry],
    at: At,
    number: Gen,
    v: Version,
) -> bool
    requires known { IsKnown (reverse entries.now) known.now }
    ensures { IsTrue result ↔ MayPublish (reverse entries.now) at number v }
{
    let generation = known.generation(entries);
    started_publish(at, known, entries)
        && known.source_survives(at, entries)
        && number.0 == generation.number
        && v.0 != 0
        && v.0 - 1 == known.newest(entries)
        && has_merges_for_publish(known, at, entries)
}

pub(crate) fn may_start_copy(
    nodes: u8,
    known: &KnownPast,
    entries: &[Entry],
    at: At,
    n: NodeNo,
    v: Version,
) -> bool
    requires known { IsKnown (reverse entries.now) known.now }
    ensures { IsTrue result ↔ MayStartCopy nodes (reverse entries.now) at n v }
{
    is_node(nodes, n)
        && known.is_replica(n, entries)
        && known.primary(entries).is_some()
        && v.0 == known.newest(entries)
        && is_free_for(at, known.copy_in_flight(n, v, entries))
}

fn started_copy(n: NodeNo, v: Version, at: At, known: &KnownPast, entries: &[Entry]) -> bool
    requires known { IsKnown (reverse entries.now) known.now }
    ensures { IsTrue result ↔ StartedCopy (reverse entries.now)
        (before_start at (reverse entries.now)) n.0 v.0 (start_entry at (reverse entries.now)) }
{
    match known.start_entry(at, entries) {
        Some(Event::Copying { n: m, v: w }) => m.0 == n.0 && w.0 == v.0,
        Some(Event::Settling { v: w }) => {
            w.0 <= v.0 && known.version_of(n, entries) < w.0 && known.was_replica(n, at, entries)
        }
        _ => false,
    }
}

pub(crate) fn may_switch(
    nodes: u8,
    known: &KnownPast,
    entries: &[Entry],
    at: At,
    n: NodeNo,
    v: Version,
) -> bool
    requires known { IsKnown (reverse entries.now) known.now }
    ensures { IsTrue result ↔ MaySwitch nodes (reverse entries.now) at n v }
{
    is_node(nodes, n)
        && known.is_replica(n, entries)
        && known.is_made_in_generation(v, entries)
        && known.version_of(n, entries) < v.0
        && !known.is_passed(n, v, entries)
        && known.highest_switched(at, entries) < n.0
        && started_copy(n, v, at, known, entries)
        && all_whole(nodes, at, known, entries)
        && known.node_survives(n, at, entries)
        && known.source_survives(at, entries)
}

fn started_copy_of(n: NodeNo, v: Version, at: At, known: &KnownPast, entries: &[Entry]) -> bool
    requires known { IsKnown (reverse entries.now) known.now }
    ensures { IsTrue result ↔ (start_entry at (reverse entries.now) ≡ Some (Event.Copying n v)) }
{
    match known.start_entry(at, entries) {
        Some(Event::Copying { n: m, v: w }) => m.0 == n.0 && w.0 == v.0,
        _ => false,
    }
}

/// Whether the newest entry switched a replica for a line.
fn is_switched_last(at: At, entries: &[Entry]) -> bool
    ensures { result ≡ has_just_switched at (reverse entries.now) }
{
    match entries.last() {
        Some(entry) => match &entry.event {
            Event::Switched { .. } => same_at(entry.at, at),
            _ => false,
        },
        None => false,
    }
}

/// Whether the copy of a line has just switched the node, or the node searched the version before the line started.
fn has_brought(n: NodeNo, v: Version, at: At, known: &KnownPast, entries: &[Entry]) -> bool
    requires known { IsKnown (reverse entries.now) known.now }
    ensures { IsTrue result ↔ ((has_just_switched at (reverse entries.now) ≡ true) ⊎
        (version_of n.0 (before_start at (reverse entries.now)) ≡ v.0)) }
{
    is_switched_last(at, entries) || version_of(n, known.before_start(at, entries)) == v.0
}

pub(crate) fn may_finish_copy(
    nodes: u8,
    known: &KnownPast,
    entries: &[Entry],
    at: At,
    n: NodeNo,
    v: Version,
) -> bool
    requires known { IsKnown (reverse entries.now) known.now }
    ensures { IsTrue result ↔ MayFinishCopy nodes (reverse entries.now) at n v }
{
    is_node(nodes, n)
        && started_copy_of(n, v, at, known, entries)
        && v.0 == known.version_of(n, entries)
        && has_brought(n, v, at, known, entries)
        && known.node_survives(n, at, entries)
        && known.source_survives(at, entries)
}

pub(crate) fn may_start_settle(known: &KnownPast, entries: &[Entry], at: At, v: Version) -> bool
    requires known { IsKnown (reverse entries.now) known.now }
    ensures { IsTrue result ↔ MayStartSettle (reverse entries.now) at v }
{
    known.primary(entries).is_some()
        && v.0 == known.newest(entries)
        && !known.has_met_fault(at, entries)
}

fn started_settle(v: Version, at: At, known: &KnownPast, entries: &[Entry]) -> bool
    requires known { IsKnown (reverse entries.now) known.now }
    ensures { IsTrue result ↔ (start_entry at (reverse entries.now) ≡ Some (Event.Settling v)) }
{
    match known.start_entry(at, entries) {
        Some(Event::Settling { v: w }) => w.0 == v.0,
        _ => false,
    }
}

/// Whether a node has no part in a settle any more, or is at its version.
fn is_settled(n: NodeNo, v: Version, at: At, known: &KnownPast, entries: &[Entry]) -> bool
    requires known { IsKnown (reverse entries.now) known.now }
    ensures { IsTrue result ↔ (IsReplica (before_start at (reverse entries.now)) n.0 →
        NodeSurvives (reverse entries.now) at n.0 → v.0 ≤ version_of n.0 (reverse entries.now)) }
{
    v.0 <= known.version_of(n, entries)
        || !known.node_survives(n, at, entries)
        || !known.was_replica(n, at, entries)
}

/// Whether a node of a settle has crashed since, or the settle met no fault in a file for it.
fn is_whole(n: NodeNo, at: At, known: &KnownPast, entries: &[Entry]) -> bool
    requires known { IsKnown (reverse entries.now) known.now }
    ensures { IsTrue result ↔ (NodeSurvives (reverse entries.now) at n.0 →
        has_file_fault n.0 at (reverse entries.now) ≡ false) }
{
    !known.node_survives(n, at, entries) || !known.has_file_fault(n, at, entries)
}

fn all_whole(nodes: u8, at: At, known: &KnownPast, entries: &[Entry]) -> bool
    requires known { IsKnown (reverse entries.now) known.now }
    ensures { IsTrue result ↔ IsLineWhole nodes (reverse entries.now) at }
{
    for below in 0..nodes {
        if !is_whole(NodeNo(below + 1), at, known, entries) {
            return false;
        }
    }
    true
}

fn all_settled(nodes: u8, v: Version, at: At, known: &KnownPast, entries: &[Entry]) -> bool
    requires known { IsKnown (reverse entries.now) known.now }
    ensures { IsTrue result ↔ ((n : ℕ) → IsNode nodes n →
        IsReplica (before_start at (reverse entries.now)) n →
        NodeSurvives (reverse entries.now) at n → v.0 ≤ version_of n (reverse entries.now)) }
{
    for below in 0..nodes {
        if !is_settled(NodeNo(below + 1), v, at, known, entries) {
            return false;
        }
    }
    true
}

pub(crate) fn may_settle(
    nodes: u8,
    known: &KnownPast,
    entries: &[Entry],
    at: At,
    v: Version,
) -> bool
    requires known { IsKnown (reverse entries.now) known.now }
    ensures { IsTrue result ↔ MaySettle nodes (reverse entries.now) at v }
{
    started_settle(v, at, known, entries)
        && known.source_survives(at, entries)
        && all_settled(nodes, v, at, known, entries)
        && all_whole(nodes, at, known, entries)
}

pub(crate) fn may_open(
    nodes: u8,
    known: &KnownPast,
    entries: &[Entry],
    at: At,
    n: NodeNo,
    t: TicketNo,
    v: Version,
) -> bool
    requires known { IsKnown (reverse entries.now) known.now }
    ensures { IsTrue result ↔ MayOpen nodes (reverse entries.now) at n t v }
{
    is_node(nodes, n)
        && known.is_running(n, entries)
        && v.0 == known.version_of(n, entries)
        && !known.has_ticket(at.lane, t, entries)
        && !known.has_met_fault(at, entries)
}

pub(crate) fn may_ask(
    nodes: u8,
    known: &KnownPast,
    entries: &[Entry],
    at: At,
    n: NodeNo,
    t: TicketNo,
    v: Version,
) -> bool
    requires known { IsKnown (reverse entries.now) known.now }
    ensures { IsTrue result ↔ MayAsk nodes (reverse entries.now) at n t v }
{
    is_node(nodes, n)
        && known.is_ticket_of(n, v, at.lane, t, entries)
        && !known.has_met_fault(at, entries)
}

pub(crate) fn may_close(
    nodes: u8,
    known: &KnownPast,
    entries: &[Entry],
    at: At,
    n: NodeNo,
    t: TicketNo,
) -> bool
    requires known { IsKnown (reverse entries.now) known.now }
    ensures { IsTrue result ↔ MayClose nodes (reverse entries.now) at n t }
{
    is_node(nodes, n) && known.is_ticket_at(n, at.lane, t, entries)
}

pub(crate) fn may_start_commit(
    nodes: u8,
    known: &KnownPast,
    entries: &[Entry],
    at: At,
    n: NodeNo,
    v: Version,
) -> bool
    requires known { IsKnown (reverse entries.now) known.now }
    ensures { IsTrue result ↔ MayStartCommit nodes (reverse entries.now) at n v }
{
    is_node(nodes, n)
        && known.is_running(n, entries)
        && v.0 == known.version_of(n, entries)
        && is_free_for(at, known.commit_in_flight(n, entries))
        && !known.has_met_fault(at, entries)
}

fn started_commit(n: NodeNo, at: At, known: &KnownPast, entries: &[Entry]) -> bool
    requires known { IsKnown (reverse entries.now) known.now }
    ensures { result ≡ starts_commit n.0 (start_entry at (reverse entries.now)) }
{
    match known.start_entry(at, entries) {
        Some(Event::Committing { n: m, .. }) => m.0 == n.0,
        _ => false,
    }
}

fn started_commit_of(n: NodeNo, v: Version, at: At, known: &KnownPast, entries: &[Entry]) -> bool
    requires known { IsKnown (reverse entries.now) known.now }
    ensures { IsTrue result ↔ (start_entry at (reverse entries.now) ≡ Some (Event.Committing n v)) }
{
    match known.start_entry(at, entries) {
        Some(Event::Committing { n: m, v: w }) => m.0 == n.0 && w.0 == v.0,
        _ => false,
    }
}

/// Whether a node searched the version at the start entry of a line, or later. What it searches now is looked at first.
fn was_searched(at: At, n: NodeNo, v: Version, known: &KnownPast, entries: &[Entry]) -> bool
    requires known { IsKnown (reverse entries.now) known.now }
    ensures { result ≡ was_searched_since_lem at n.0 v.0 (reverse entries.now) }
{
    if !entries.is_empty() && known.version_of(n, entries) == v.0 {
        return true;
    }
    was_searched_since(at, n, v, entries)
}

pub(crate) fn may_commit(
    nodes: u8,
    known: &KnownPast,
    entries: &[Entry],
    at: At,
    n: NodeNo,
    v: Version,
) -> bool
    requires known { IsKnown (reverse entries.now) known.now }
    ensures { IsTrue result ↔ MayCommit nodes (reverse entries.now) at n v }
{
    is_node(nodes, n)
        && started_commit(n, at, known, entries)
        && known.node_survives(n, at, entries)
        && was_searched(at, n, v, known, entries)
        && (known.is_stuck(n, entries) || started_commit_of(n, v, at, known, entries))
}

pub(crate) fn may_crash(nodes: u8, known: &KnownPast, entries: &[Entry], n: NodeNo) -> bool
    requires known { IsKnown (reverse entries.now) known.now }
    ensures { IsTrue result ↔ MayCrash nodes (reverse entries.now) n }
{
    is_node(nodes, n) && known.is_running(n, entries)
}

pub(crate) fn may_reopen(
    nodes: u8,
    known: &KnownPast,
    entries: &[Entry],
    at: At,
    n: NodeNo,
    v: Version,
) -> bool
    requires known { IsKnown (reverse entries.now) known.now }
    ensures { IsTrue result ↔ MayReopen nodes (reverse entries.now) at n v }
{
    is_node(nodes, n)
        && !known.is_running(n, entries)
        && known.is_reopenable(n, v, entries)
        && !known.has_met_fault(at, entries)
}

pub(crate) fn may_promote(
    nodes: u8,
    known: &KnownPast,
    entries: &[Entry],
    n: NodeNo,
    number: Gen,
    forced: Version,
    v: Version,
) -> bool
    requires known { IsKnown (reverse entries.now) known.now }
    ensures { IsTrue result ↔ MayPromote nodes (reverse entries.now) n number forced v }
{
    let generation = known.generation(entries);
    is_node(nodes, n)
        && known.is_running(n, entries)
        && known.primary(entries).is_none()
        && number.0 != 0
        && number.0 - 1 == generation.number
        && known.newest(entries) <= forced.0
        && forced.0 < 1 << 62
        && v.0 == forced.0 + 1
}

pub(crate) fn may_start_merge(known: &KnownPast, entries: &[Entry], at: At, seg: SegNo) -> bool
    requires known { IsKnown (reverse entries.now) known.now }
    ensures { IsTrue result ↔ MayStartMerge (reverse entries.now) at seg }
{
    let generation = known.generation(entries);
    known.primary(entries).is_some()
        && generation.is_next_segment(seg)
        && (generation.names as u64) < SegNo::OF_GENERATION
        && !known.has_met_fault(at, entries)
}

pub(crate) fn may_drain(nodes: u8, known: &KnownPast, entries: &[Entry], at: At, done: u32) -> bool
    requires known { IsKnown (reverse entries.now) known.now }
    ensures { IsTrue result ↔ MayDrain nodes (reverse entries.now) at done }
{
    let most = (u128::from(nodes) + 1) * known.merge_count(entries) as u128;
    known.drained_count(entries) + u128::from(done) <= most && !known.has_met_fault(at, entries)
}

pub(crate) fn may_plan(known: &KnownPast, entries: &[Entry], at: At) -> bool
    requires known { IsKnown (reverse entries.now) known.now }
    ensures { IsTrue result ↔ (has_met_fault at (reverse entries.now) ≡ false) }
{
    !known.has_met_fault(at, entries)
}
