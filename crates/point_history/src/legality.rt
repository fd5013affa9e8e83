//! Whether a history is legal, and which entry is the first that breaks a rule.

ghost use Rattle.std.specs.Prelude.{◌≡◌, ◌<◌, ◌+◌, ◌^◌, ◌∷◌, ◌↔◌, reverse, length, IfOk, IfSome, IsTrue};
ghost use Rattle.history_rules.specs.Nodes.{accepted_count};
ghost use Rattle.known_past.specs.Known.{IsKnown};
ghost use Rattle.history_points.specs.RightAnswers.{IsRightAnswer};
ghost use Rattle.history_rules.specs.Legal.{KeepsRule, rule_number, IsVerdict};

use crate::answers::may_answer;
use crate::fault_rules::may_fault;
use crate::listings::may_list_files;
use crate::refusals::may_refuse_line;
use crate::rules::{
    may_accept, may_ask, may_close, may_commit, may_crash, may_drain, may_finish_copy, may_open,
    may_plan, may_promote, may_publish, may_reopen, may_settle, may_start_commit, may_start_copy,
    may_start_merge, may_start_publish, may_start_settle, may_switch,
};
use history_points::RightAnswers;
use history_rules::{Entry, Event, History, Verdict};
use known_past::KnownPast;
use nrt_base::NoMemory;
use std::alloc::Global;

/// The number of the rule of a kind of entry.
fn rule_number(event: &Event) -> u8
    ensures { result ≡ rule_number event.now }
{
    match event {
        Event::Accepted { .. } => 1,
        Event::Publishing => 2,
        Event::Published { .. } => 3,
        Event::Copying { .. } => 4,
        Event::Switched { .. } => 5,
        Event::Copied { .. } => 6,
        Event::Settling { .. } | Event::Settled { .. } => 7,
        Event::Opened { .. } => 8,
        Event::Asking { .. } => 9,
        Event::Answered { .. } => 10,
        Event::Closed { .. } => 11,
        Event::Committing { .. } => 12,
        Event::Committed { .. } => 13,
        Event::Crashed { .. } => 14,
        Event::Reopened { .. } => 15,
        Event::Promoted { .. } => 16,
        Event::Merging { .. } => 17,
        Event::Files { .. } => 18,
        Event::Fault { .. } => 19,
        Event::Refused { .. } => 20,
        Event::Drained { .. } => 21,
        Event::Planned { .. } => 22,
    }
}

/// Whether an entry keeps the rule of its kind over the entries before it.
fn keeps(
    alloc: Global,
    nodes: u8,
    before: &[Entry],
    known: &KnownPast,
    told: Option<bool>,
    entry: &Entry,
) -> Result<bool, NoMemory>
    requires known { IsKnown (reverse before.now) known.now }
    requires told { IfSome told (λ right.
        IsTrue right ↔ IsRightAnswer (reverse before.now) entry.now.event) }
    requires few { length before.now + 1 < 2 ^ 64 }
    requires few_accepted { accepted_count (reverse before.now) < 2 ^ 32 }
    ensures rule { IfOk result (λ kept. IsTrue kept ↔
        KeepsRule nodes (reverse before.now) entry.now.at entry.now.event) }
    ensures few { IfOk result (λ kept. IsTrue kept →
        accepted_count (entry.now ∷ reverse before.now) < 2 ^ 32) }
{
    let at = entry.at;
    Ok(match &entry.event {
        Event::Accepted { seq, .. } => may_accept(known, before, at, *seq),
        Event::Publishing => may_start_publish(known, before, at),
        Event::Published {
            generation: number,
            v,
        } => may_publish(known, before, at, *number, *v),
        Event::Copying { n, v } => may_start_copy(nodes, known, before, at, *n, *v),
        Event::Switched { n, v } => may_switch(nodes, known, before, at, *n, *v),
        Event::Copied { n, v } => may_finish_copy(nodes, known, before, at, *n, *v),
        Event::Settling { v } => may_start_settle(known, before, at, *v),
        Event::Settled { v } => may_settle(nodes, known, before, at, *v),
        Event::Opened { n, t, v } => may_open(nodes, known, before, at, *n, *t, *v),
        Event::Asking { n, t, v } => may_ask(nodes, known, before, at, *n, *t, *v),
        Event::Answered {
            n,
            t,
            v,
            query,
            answer,
        } => may_answer(
            alloc, nodes, known, before, told, at, *n, *t, *v, query, answer,
        )?,
        Event::Closed { n, t } => may_close(nodes, known, before, at, *n, *t),
        Event::Committing { n, v } => may_start_commit(nodes, known, before, at, *n, *v),
        Event::Committed { n, v } => may_commit(nodes, known, before, at, *n, *v),
        Event::Crashed { n } => may_crash(nodes, known, before, *n),
        Event::Reopened { n, v } => may_reopen(nodes, known, before, at, *n, *v),
        Event::Promoted {
            n,
            generation: number,
            forced,
            v,
        } => may_promote(nodes, known, before, *n, *number, *forced, *v),
        Event::Merging { seg } => may_start_merge(known, before, at, *seg),
        Event::Drained { done, .. } => may_drain(nodes, known, before, at, *done),
        Event::Files { n, names } => {
            may_list_files(alloc, nodes, known, before, at, *n, names.as_slice())?
        }
        Event::Planned { .. } => may_plan(known, before, at),
        Event::Fault { n, kind } => may_fault(nodes, known, before, at, *n, *kind),
        Event::Refused { cause } => may_refuse_line(nodes, known, before, at, cause),
    })
}

/// Whether a history is legal, and else which entry is the first that breaks the rule of its kind.
///
/// What its rule asks of the entries before an entry is looked up, but for a few rules that read these anew. Whether an answer is right is known before, of all
/// answers together.
pub fn legal(alloc: Global, h: &History) -> Result<Verdict, NoMemory>
    ensures { IfOk result (λ verdict. IsVerdict h.now verdict) }
{
    let entries = h.entries.as_slice();
    let mut known = KnownPast::new(alloc);
    let right = RightAnswers::of(alloc, entries)?;
    for (at, entry) in entries.iter().enumerate() {
        let before = &entries[..at];
        let told = right.told(entries, at);
        if !keeps(alloc, h.nodes, before, &known, told, entry)? {
            return Ok(Verdict::Broken {
                at,
                rule: rule_number(&entry.event),
            });
        }
        known = known.after(before, entry)?;
    }
    Ok(Verdict::Legal)
}
