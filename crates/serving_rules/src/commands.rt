//! Which entry a line asks for.

ghost use Rattle.std.specs.Prelude.{◌≡◌, ℕ, [], reverse, IsTrue, ◌↔◌};
ghost use Rattle.history_rules.specs.Nodes.{Past};
ghost use Rattle.known_past.specs.Known.{IsKnown};
ghost use Rattle.script_serving.specs.Refusals.{put_publishes};
ghost use Rattle.script_serving.specs.Serves.{Begins, Follows};
ghost use Rattle.report_reading.specs.Readings.{as_told};

use crate::refusals::{forced_version, is_copy_cause, is_loss};
use documents::Query;
use history_facts::is_disk_fault;
use history_rules::{Entry, Event, FaultPlan};
use known_past::KnownPast;
use nrt_base::{Doc, Key, NodeNo, TicketNo, Version, Word};
use script_serving::{Force, LineCommand};

fn is_put_begun(doc: &Doc, event: &Event) -> bool
    requires told { as_told [] (LineCommand.Put doc.now) event.now ≡ event.now }
    ensures { (past : Past) → IsTrue result ↔ Begins (LineCommand.Put doc.now) past event.now }
{
    match event {
        Event::Accepted { .. } => true,
        _ => false,
    }
}

fn is_delete_begun(key: &Key, event: &Event) -> bool
    requires told { as_told [] (LineCommand.Delete key.now) event.now ≡ event.now }
    ensures { (past : Past) → IsTrue result ↔ Begins (LineCommand.Delete key.now) past event.now }
{
    match event {
        Event::Accepted { .. } => true,
        _ => false,
    }
}

fn is_drop_begun(word: &Word, event: &Event) -> bool
    requires told { as_told [] (LineCommand.Drop word.now) event.now ≡ event.now }
    ensures { (past : Past) → IsTrue result ↔ Begins (LineCommand.Drop word.now) past event.now }
{
    match event {
        Event::Accepted { .. } => true,
        _ => false,
    }
}

fn is_publish_begun(event: &Event) -> bool
    ensures { (past : Past) → IsTrue result ↔ Begins LineCommand.Publish past event.now }
{
    match event {
        Event::Publishing => true,
        _ => false,
    }
}

fn is_copy_begun(n: NodeNo, event: &Event) -> bool
    ensures { (past : Past) → IsTrue result ↔ Begins (LineCommand.Copy n) past event.now }
{
    match event {
        Event::Copying { n: m, .. } => m.0 == n.0,
        _ => false,
    }
}

fn is_settle_begun(event: &Event) -> bool
    ensures { (past : Past) → IsTrue result ↔ Begins LineCommand.Settle past event.now }
{
    match event {
        Event::Settling { .. } => true,
        _ => false,
    }
}

fn is_search_begun(n: NodeNo, event: &Event) -> bool
    ensures { (past : Past) (query : Query) → IsTrue result ↔
        Begins (LineCommand.Search n query) past event.now }
{
    match event {
        Event::Opened { n: m, t, .. } => m.0 == n.0 && t.0 == 0,
        _ => false,
    }
}

fn is_open_begun(n: NodeNo, t: TicketNo, event: &Event) -> bool
    ensures { (past : Past) → IsTrue result ↔ Begins (LineCommand.Open n t) past event.now }
{
    match event {
        Event::Opened { n: m, t: u, .. } => m.0 == n.0 && u.0 == t.0,
        _ => false,
    }
}

fn is_ask_begun(t: TicketNo, event: &Event) -> bool
    ensures { (past : Past) (query : Query) → IsTrue result ↔
        Begins (LineCommand.Ask t query) past event.now }
{
    match event {
        Event::Asking { t: u, .. } => u.0 == t.0,
        _ => false,
    }
}

fn is_close_begun(t: TicketNo, event: &Event) -> bool
    ensures { (past : Past) → IsTrue result ↔ Begins (LineCommand.Close t) past event.now }
{
    match event {
        Event::Closed { t: u, .. } => u.0 == t.0,
        _ => false,
    }
}

fn is_commit_begun(n: NodeNo, event: &Event) -> bool
    ensures { (past : Past) → IsTrue result ↔ Begins (LineCommand.Commit n) past event.now }
{
    match event {
        Event::Committing { n: m, .. } => m.0 == n.0,
        _ => false,
    }
}

fn is_crash_begun(n: NodeNo, event: &Event) -> bool
    ensures { (past : Past) (pick : ℕ) → IsTrue result ↔
        Begins (LineCommand.Crash n pick) past event.now }
{
    match event {
        Event::Crashed { n: m } => m.0 == n.0,
        _ => false,
    }
}

fn is_reopening_begun(n: NodeNo, event: &Event) -> bool
    ensures { (past : Past) → IsTrue result ↔ Begins (LineCommand.Reopen n) past event.now }
{
    match event {
        Event::Reopened { n: m, .. } => m.0 == n.0,
        _ => false,
    }
}

fn is_promotion_begun(
    n: NodeNo,
    force: Force,
    known: &KnownPast,
    entries: &[Entry],
    event: &Event,
) -> bool
    requires known { IsKnown (reverse entries.now) known.now }
    ensures { IsTrue result ↔
        Begins (LineCommand.Promote n force) (reverse entries.now) event.now }
{
    match event {
        Event::Promoted { n: m, forced, .. } => {
            m.0 == n.0 && forced.0 == forced_version(force, known, entries)
        }
        _ => false,
    }
}

fn is_merge_begun(factor: u32, puts: usize, entries: &[Entry], event: &Event) -> bool
    requires puts { puts ≡ put_publishes (reverse entries.now) }
    ensures { IsTrue result ↔ Begins (LineCommand.Merge factor) (reverse entries.now) event.now }
{
    match event {
        Event::Merging { .. } => factor as usize <= puts,
        _ => false,
    }
}

fn is_drain_begun(most: u32, event: &Event) -> bool
    ensures { (past : Past) → IsTrue result ↔ Begins (LineCommand.Drain most) past event.now }
{
    match event {
        Event::Drained { done, most: bound } => *bound == most && *done <= most,
        _ => false,
    }
}

fn is_listing_begun(n: NodeNo, event: &Event) -> bool
    ensures { (past : Past) → IsTrue result ↔ Begins (LineCommand.Files n) past event.now }
{
    match event {
        Event::Files { n: m, .. } => m.0 == n.0,
        _ => false,
    }
}

fn same_plan(a: FaultPlan, b: FaultPlan) -> bool
    ensures { IsTrue result ↔ (a ≡ b) }
{
    match (a, b) {
        (FaultPlan::Link(k), FaultPlan::Link(l)) => k == l,
        (FaultPlan::Damage(k, at), FaultPlan::Damage(l, by)) => k == l && at == by,
        (FaultPlan::Disk(k), FaultPlan::Disk(l)) => k == l,
        (FaultPlan::Stop(k), FaultPlan::Stop(l)) => k == l,
        _ => false,
    }
}

fn is_plan_begun(n: NodeNo, plan: FaultPlan, event: &Event) -> bool
    ensures { (past : Past) → IsTrue result ↔ Begins (LineCommand.Fault n plan) past event.now }
{
    match event {
        Event::Planned { n: m, plan: other } => m.0 == n.0 && same_plan(*other, plan),
        _ => false,
    }
}

/// Whether an entry begins a line: it is its start entry, or its reply where it has no start entry.
pub fn begins(
    command: &LineCommand,
    puts: usize,
    known: &KnownPast,
    entries: &[Entry],
    event: &Event,
) -> bool
    requires told { as_told [] command.now event.now ≡ event.now }
    requires known { IsKnown (reverse entries.now) known.now }
    requires puts { puts ≡ put_publishes (reverse entries.now) }
    ensures { IsTrue result ↔ Begins command.now (reverse entries.now) event.now }
{
    match command {
        LineCommand::Put(doc) => is_put_begun(doc, event),
        LineCommand::Delete(key) => is_delete_begun(key, event),
        LineCommand::Drop(word) => is_drop_begun(word, event),
        LineCommand::Publish => is_publish_begun(event),
        LineCommand::Copy(n) => is_copy_begun(*n, event),
        LineCommand::Settle => is_settle_begun(event),
        LineCommand::Search(n, _) => is_search_begun(*n, event),
        LineCommand::Open(n, t) => is_open_begun(*n, *t, event),
        LineCommand::Ask(t, _) => is_ask_begun(*t, event),
        LineCommand::Close(t) => is_close_begun(*t, event),
        LineCommand::Commit(n) => is_commit_begun(*n, event),
        LineCommand::Crash(n, _) => is_crash_begun(*n, event),
        LineCommand::Reopen(n) => is_reopening_begun(*n, event),
        LineCommand::Promote(n, force) => is_promotion_begun(*n, *force, known, entries, event),
        LineCommand::Merge(factor) => is_merge_begun(*factor, puts, entries, event),
        LineCommand::Drain(most) => is_drain_begun(*most, event),
        LineCommand::Files(n) => is_listing_begun(*n, event),
        LineCommand::Fault(n, plan) => is_plan_begun(*n, *plan, event),
    }
}

fn follows_publish(event: &Event) -> bool
    ensures { (last : Event) → IsTrue result ↔ Follows LineCommand.Publish last event.now }
{
    match event {
        Event::Refused { cause } => is_loss(cause) || is_disk_fault(cause),
        Event::Published { .. } => true,
        _ => false,
    }
}

fn is_switch_of(n: NodeNo, m: NodeNo, last: &Event) -> bool
    ensures { (v : Version) → IsTrue result ↔
        Follows (LineCommand.Copy n) last.now (Event.Switched m v) }
{
    match last {
        Event::Copying { .. } => m.0 == n.0,
        _ => false,
    }
}

fn follows_copy(n: NodeNo, last: &Event, event: &Event) -> bool
    ensures { IsTrue result ↔ Follows (LineCommand.Copy n) last.now event.now }
{
    match event {
        Event::Refused { cause } => is_copy_cause(cause),
        Event::Switched { n: m, .. } => is_switch_of(n, *m, last),
        Event::Copied { n: m, .. } => m.0 == n.0,
        _ => false,
    }
}

fn follows_settle(event: &Event) -> bool
    ensures { (last : Event) → IsTrue result ↔ Follows LineCommand.Settle last event.now }
{
    match event {
        Event::Refused { cause } => is_copy_cause(cause),
        Event::Switched { .. } => true,
        Event::Settled { .. } => true,
        _ => false,
    }
}

fn follows_search(n: NodeNo, query: &Query, event: &Event) -> bool
    requires told { as_told [] (LineCommand.Search n query.now) event.now ≡ event.now }
    ensures { (last : Event) → IsTrue result ↔
        Follows (LineCommand.Search n query.now) last event.now }
{
    match event {
        Event::Refused { cause } => is_loss(cause),
        Event::Answered { n: m, t, .. } => m.0 == n.0 && t.0 == 0,
        _ => false,
    }
}

fn follows_ask(t: TicketNo, query: &Query, event: &Event) -> bool
    requires told { as_told [] (LineCommand.Ask t query.now) event.now ≡ event.now }
    ensures { (last : Event) → IsTrue result ↔
        Follows (LineCommand.Ask t query.now) last event.now }
{
    match event {
        Event::Refused { cause } => is_loss(cause),
        Event::Answered { t: u, .. } => u.0 == t.0,
        _ => false,
    }
}

fn follows_commit(n: NodeNo, event: &Event) -> bool
    ensures { (last : Event) → IsTrue result ↔ Follows (LineCommand.Commit n) last event.now }
{
    match event {
        Event::Refused { cause } => is_loss(cause) || is_disk_fault(cause),
        Event::Committed { n: m, .. } => m.0 == n.0,
        _ => false,
    }
}

/// Whether an entry follows the start of a line, behind this entry of it: a switch, the reply, or a refusal.
#[tactic(auto, using(crate::proofs::FollowLaws::none_follows))]
pub fn follows(command: &LineCommand, last: &Event, event: &Event) -> bool
    requires told { as_told [] command.now event.now ≡ event.now }
    ensures { IsTrue result ↔ Follows command.now last.now event.now }
{
    match command {
        LineCommand::Publish => follows_publish(event),
        LineCommand::Copy(n) => follows_copy(*n, last, event),
        LineCommand::Settle => follows_settle(event),
        LineCommand::Search(n, query) => follows_search(*n, query, event),
        LineCommand::Ask(t, query) => follows_ask(*t, query, event),
        LineCommand::Commit(n) => follows_commit(*n, event),
        LineCommand::Put(_) | LineCommand::Delete(_) | LineCommand::Drop(_) => false,
        LineCommand::Open(_, _) | LineCommand::Close(_) | LineCommand::Crash(_, _) => false,
        LineCommand::Reopen(_) | LineCommand::Promote(_, _) | LineCommand::Merge(_) => false,
        LineCommand::Drain(_) | LineCommand::Files(_) | LineCommand::Fault(_, _) => false,
    }
}
