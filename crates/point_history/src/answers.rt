//! The rule of a search's answer: the hits that the documents of its point give.

ghost use Rattle.std.specs.Prelude.{◌≡◌, ◌<◌, ◌^◌, ◌↔◌, reverse, IfOk, IfSome, IsTrue};
ghost use Rattle.documents.specs.Ranking.{scan_of};
ghost use Rattle.history_rules.specs.Nodes.{accepted_count};
ghost use Rattle.history_rules.specs.Lines.{start_entry};
ghost use Rattle.history_rules.specs.Points.{documents_at};
ghost use Rattle.history_rules.specs.Rules.{MayAnswer};
ghost use Rattle.history_rules.specs.Started.{StartedSearch};
ghost use Rattle.known_past.specs.Known.{IsKnown};

use documents::{Answer, Query};
use history_facts::is_node;
use history_points::is_right;
use history_rules::{Entry, Event};
use known_past::KnownPast;
use nrt_base::{At, NoMemory, NodeNo, TicketNo, Version};
use std::alloc::Global;

fn started_search(
    n: NodeNo,
    t: TicketNo,
    v: Version,
    at: At,
    known: &KnownPast,
    entries: &[Entry],
) -> bool
    requires known { IsKnown (reverse entries.now) known.now }
    ensures { IsTrue result ↔ StartedSearch n t v (start_entry at (reverse entries.now)) }
{
    match known.start_entry(at, entries) {
        Some(Event::Opened { n: m, t: u, v: w }) | Some(Event::Asking { n: m, t: u, v: w }) => {
            m.0 == n.0 && u.0 == t.0 && w.0 == v.0
        }
        _ => false,
    }
}

pub(crate) fn may_answer(
    alloc: Global,
    nodes: u8,
    known: &KnownPast,
    entries: &[Entry],
    told: Option<bool>,
    at: At,
    n: NodeNo,
    t: TicketNo,
    v: Version,
    query: &Query,
    answer: &Answer,
) -> Result<bool, NoMemory>
    requires known { IsKnown (reverse entries.now) known.now }
    requires few { accepted_count (reverse entries.now) < 2 ^ 32 }
    requires told { IfSome told (λ right. IsTrue right ↔
        (answer.now ≡ scan_of (documents_at (reverse entries.now) v.0) query.now)) }
    ensures { IfOk result (λ may.
        IsTrue may ↔ MayAnswer nodes (reverse entries.now) at n t v query.now answer.now) }
{
    if !is_node(nodes, n)
        || !started_search(n, t, v, at, known, entries)
        || !known.node_survives(n, at, entries)
    {
        return Ok(false);
    }
    is_right(alloc, entries, told, v, query, answer)
}
