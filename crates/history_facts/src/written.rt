//! What a history shows of the operations and documents of the point of each version.

ghost use Rattle.std.specs.Prelude.{◌≡◌, ◌≤◌, ◌+◌, ◌∷◌, ◌++◌, reverse, length, IfOk, OnOk};
ghost use Rattle.history_rules.specs.Nodes.{accepted_count};
ghost use Rattle.history_rules.specs.Points.{operations_at, operations_of_generation, documents_at};
ghost use Rattle.history_facts.specs.Origins.{operations_from, operations_before_generation, size_of};

use crate::lines::before_start;
use crate::searched::version_of;
use documents::{Op, apply};
use history_rules::{Entry, Event};
use nrt_base::{Doc, NoMemory, NodeNo, Share, Version};
use std::alloc::Global;

/// Where operations come from.
#[derive(Drop)]
pub enum Origin<'a> {
    /// There are none.
    Nothing,
    /// They are those on which the generation stood after these entries, and those that it had accepted.
    Written(&'a [Entry]),
    /// They are those of the version that the node searched after these entries.
    Searched(NodeNo, &'a [Entry]),
}

/// The same after one more entry than these.
#[tactic(auto, using(crate::proofs::WrittenLemmas::started))]
fn origin_after<'a>(
    version: u64,
    entries: &'a [Entry],
    entry: &Entry,
    origin: Origin<'a>,
) -> Origin<'a>
    requires operations { operations_from origin ≡ operations_at (reverse entries.now) version }
    requires size { size_of origin ≤ length entries.now }
    ensures operations { operations_from result ≡ operations_at
        (entry.now ∷ reverse entries.now) version }
    ensures size { size_of result ≤ length entries.now + 1 }
{
    match &entry.event {
        Event::Published { v, .. } if v.0 == version => {
            Origin::Written(before_start(entry.at, entries))
        }
        Event::Promoted { n, v, .. } if v.0 == version => Origin::Searched(*n, entries),
        _ => origin,
    }
}

/// Where the operations of the point of a version come from.
fn origin_of<'a>(version: u64, entries: &'a [Entry]) -> Origin<'a>
    ensures operations { operations_from result ≡ operations_at (reverse entries.now) version }
    ensures size { size_of result ≤ length entries.now }
{
    let mut origin = Origin::Nothing;
    for (i, entry) in entries.iter().enumerate() {
        origin = origin_after(version, &entries[..i], entry, origin);
    }
    origin
}

/// Where the operations come from on which the present generation started.
fn generation_origin<'a>(entries: &'a [Entry]) -> Origin<'a>
    ensures operations { operations_from result ≡ operations_before_generation
        (reverse entries.now) }
    ensures size { size_of result ≤ length entries.now }
{
    let mut origin = Origin::Nothing;
    for (i, entry) in entries.iter().enumerate() {
        if let Event::Promoted { n, .. } = &entry.event {
            origin = Origin::Searched(*n, &entries[..i]);
        }
    }
    origin
}

/// Puts the operations that the present generation has accepted behind others.
fn push_accepted(alloc: Global, entries: &[Entry], ops: &mut Vec<Op>) -> Result<(), NoMemory>
    ensures { OnOk result (ops.new.items ≡ ops.old.items ++ operations_of_generation
        (reverse entries.now)) }
{
    let before = ops.len();
    for entry in entries {
        match &entry.event {
            Event::Accepted { op, .. } => ops.push(op.share(alloc)?)?,
            Event::Promoted { .. } => ops.truncate(before),
            _ => {}
        }
    }
    Ok(())
}

/// The operations that come from there. It goes two calls deep for each generation.
#[tactic(auto, using(crate::proofs::WrittenLemmas::written))]
fn operations_from(alloc: Global, origin: Origin) -> Result<Vec<Op>, NoMemory>
    ensures { IfOk result (λ ops. ops.items ≡ operations_from origin.entry) }
{
    match origin {
        Origin::Nothing => Ok(Vec::new(alloc)),
        Origin::Written(entries) => {
            let mut ops = operations_from(alloc, generation_origin(entries))?;
            push_accepted(alloc, entries, &mut ops)?;
            Ok(ops)
        }
        Origin::Searched(n, entries) => {
            operations_from(alloc, origin_of(version_of(n, entries), entries))
        }
    }
}

/// The documents of the point of a version.
#[tactic(auto, using(crate::proofs::WrittenLemmas::few_documents))]
pub fn documents_at(alloc: Global, entries: &[Entry], v: Version) -> Result<Vec<Doc>, NoMemory>
    ensures documents { IfOk result (λ docs. docs.items ≡ documents_at (reverse entries.now) v.0) }
    ensures few { IfOk result (λ docs. length docs.items ≤ accepted_count (reverse entries.now)) }
{
    let ops = operations_from(alloc, origin_of(v.0, entries))?;
    apply(alloc, ops.as_slice())
}
