//! The rule of a listing of files.

ghost use Rattle.std.specs.Prelude.{◌≡◌, ◌↔◌, reverse, true, IfOk, IsTrue, MatchBool};
ghost use Rattle.std.specs.List.{All, list_any};
ghost use Rattle.std.specs.Ordering.{nat_cmp};
ghost use Rattle.std.specs.Cmp.Lexicographic.{slice_cmp};
ghost use Rattle.file_names.specs.Names.{is_commit_name, is_pending_name, is_documents_name, is_less, is_ascending};
ghost use Rattle.history_rules.specs.Rules.{MayHaveName, MayListFiles};
ghost use Rattle.history_rules.specs.Points.{has_documents};
ghost use Rattle.history_facts.specs.Openings.{opens_by, HoldsNone};
ghost use Rattle.known_past.specs.Known.{IsKnown};

use file_names::{FileName, commit_of, pending_of};
use history_facts::{documents_at, is_drawn_file, is_drawn_temporary, is_node, open_ticket};
use history_rules::{Entry, Event};
use known_past::KnownPast;
use nrt_base::{At, NoMemory, NodeNo, Version};
use std::alloc::Global;
use std::cmp::Ordering;

fn is_commit_name(name: &FileName) -> bool
    ensures { result ≡ is_commit_name name.now }
{
    commit_of(name).is_some()
}

fn is_pending_name(name: &FileName) -> bool
    ensures { result ≡ is_pending_name name.now }
{
    pending_of(name).is_some()
}

fn is_documents_name(name: &[u8]) -> bool
    ensures { result ≡ is_documents_name name.now }
{
    name.ends_with(b".docs".as_slice())
}

fn has_commit_name(names: &[FileName]) -> bool
    ensures { result ≡ list_any is_commit_name names.now }
{
    names.iter().any(is_commit_name)
}

fn has_documents_name(names: &[FileName]) -> bool
    ensures { result ≡ list_any is_documents_name names.now }
{
    names.iter().any(|name| is_documents_name(name.as_slice()))
}

fn is_below(a: &FileName, b: &FileName) -> bool
    ensures { result ≡ is_less (slice_cmp nat_cmp a.now b.now) }
{
    match a.cmp(b) {
        Ordering::Less => true,
        _ => false,
    }
}

fn is_ascending(names: &[FileName]) -> bool
    ensures { result ≡ is_ascending names.now }
{
    for i in 1..names.len() {
        if !is_below(&names[i - 1], &names[i]) {
            return false;
        }
    }
    true
}

/// Whether a file may have this name.
fn may_have_name(entries: &[Entry], known: &KnownPast, name: &FileName) -> bool
    requires known { IsKnown (reverse entries.now) known.now }
    ensures { IsTrue result ↔ MayHaveName (reverse entries.now) name.now }
{
    is_commit_name(name)
        || is_pending_name(name)
        || is_drawn_file(&known.drawn, name)
        || is_drawn_temporary(&known.drawn, name)
}

/// Whether files may have these names.
fn may_have_names(entries: &[Entry], known: &KnownPast, names: &[FileName]) -> bool
    requires known { IsKnown (reverse entries.now) known.now }
    ensures { IsTrue result ↔ All (MayHaveName (reverse entries.now)) names.now }
{
    for name in names {
        if !may_have_name(entries, known, name) {
            return false;
        }
    }
    true
}

/// Whether the point of a version has documents.
fn has_documents(alloc: Global, entries: &[Entry], v: Version) -> Result<bool, NoMemory>
    ensures { IfOk result (λ has. has ≡ has_documents (reverse entries.now) v.0) }
{
    let docs = documents_at(alloc, entries, v)?;
    Ok(!docs.is_empty())
}

/// Whether this entry opened a ticket that is open, at this node and at a version that has documents.
fn holds_by(alloc: Global, n: NodeNo, entry: &Entry, entries: &[Entry]) -> Result<bool, NoMemory>
    ensures { IfOk result (λ holds. MatchBool holds (HoldsNone (reverse entries.now) n.0 (λ lane t.
        true) → ⊥) (HoldsNone (reverse entries.now) n.0 (λ lane t.
        opens_by lane t entry.now.at entry.now.event))) }
{
    match &entry.event {
        Event::Opened { t, .. } => match open_ticket(entry.at.lane, *t, entries) {
            Some(opening) if opening.n.0 == n.0 => has_documents(alloc, entries, opening.v),
            _ => Ok(false),
        },
        _ => Ok(false),
    }
}

/// Whether a ticket at this node is at a version that has documents.
fn holds_documents(alloc: Global, n: NodeNo, entries: &[Entry]) -> Result<bool, NoMemory>
    ensures { IfOk result (λ holds. MatchBool holds (HoldsNone (reverse entries.now) n.0 (λ lane t.
        true) → ⊥) (HoldsNone (reverse entries.now) n.0 (λ lane t. true))) }
{
    for entry in entries {
        if holds_by(alloc, n, entry, entries)? {
            return Ok(true);
        }
    }
    Ok(false)
}

pub(crate) fn may_list_files(
    alloc: Global,
    nodes: u8,
    known: &KnownPast,
    entries: &[Entry],
    at: At,
    n: NodeNo,
    names: &[FileName],
) -> Result<bool, NoMemory>
    requires known { IsKnown (reverse entries.now) known.now }
    ensures { IfOk result (λ may. IsTrue may ↔ MayListFiles nodes
        (reverse entries.now) at n names.now) }
{
    if !is_node(nodes, n) || !known.is_running(n, entries) || known.has_met_fault(at, entries) {
        return Ok(false);
    }
    if !is_ascending(names) || !may_have_names(entries, known, names) {
        return Ok(false);
    }
    if known.has_committed(n, entries) && !has_commit_name(names) {
        return Ok(false);
    }
    if has_documents_name(names) {
        return Ok(true);
    }
    if has_documents(alloc, entries, Version(known.version_of(n, entries)))? {
        return Ok(false);
    }
    Ok(!holds_documents(alloc, n, entries)?)
}
