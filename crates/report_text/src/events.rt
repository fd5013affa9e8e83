//! What happened, as words.

ghost use Rattle.std.specs.Prelude.{◌≡◌, [], ◌∷◌, ◌++◌, OnOk, map, codes};
ghost use Rattle.file_names.specs.Base36.{base36_of};
ghost use Rattle.report_text.specs.Texts.{AddsWords, with_numbers, hit_text, kind_text, cause_words, event_words};
ghost use Rattle.history_rules.specs.Faults.{plan_words};

use crate::causes::{push_cause, push_kind, push_plan};
use crate::words::{push_hits, push_names, push_with_numbers, push_word};
use documents::Answer;
use file_names::{FileName, base36};
use history_rules::{Cause, Event, FaultKind, FaultPlan};
use nrt_base::{NoMemory, NodeNo, SegNo, TicketNo, Version};
use std::alloc::Global;

pub fn push_event(out: &mut Vec<u8>, alloc: Global, event: &Event) -> Result<(), NoMemory>
    ensures { OnOk result (AddsWords out.old.items out.new.items (event_words event.now)) }
{
    match event {
        Event::Accepted { seq, .. } => push_with_numbers(
            out,
            alloc,
            b"accepted",
            &[u64::from(*seq)],
        ),
        Event::Publishing => push_word(out, b"publishing"),
        Event::Published { generation, v } => push_with_numbers(
            out,
            alloc,
            b"published",
            &[generation.0, v.0],
        ),
        Event::Copying { n, v } => push_with_numbers(
            out,
            alloc,
            b"copying",
            &[u64::from(n.0), v.0],
        ),
        Event::Switched { n, v } => push_with_numbers(
            out,
            alloc,
            b"switched",
            &[u64::from(n.0), v.0],
        ),
        Event::Copied { n, v } => push_with_numbers(out, alloc, b"copied", &[u64::from(n.0), v.0]),
        Event::Settling { v } => push_with_numbers(out, alloc, b"settling", &[v.0]),
        Event::Settled { v } => push_with_numbers(out, alloc, b"settled", &[v.0]),
        Event::Opened { n, t, v } => push_with_numbers(
            out,
            alloc,
            b"opened",
            &[u64::from(n.0), u64::from(t.0), v.0],
        ),
        Event::Asking { n, t, v } => push_with_numbers(
            out,
            alloc,
            b"asking",
            &[u64::from(n.0), u64::from(t.0), v.0],
        ),
        Event::Answered {
            n,
            t,
            v,
            answer,
            ..
        } => push_answer(out, alloc, *n, *t, *v, answer),
        Event::Closed { n, t } => push_with_numbers(
            out,
            alloc,
            b"closed",
            &[u64::from(n.0), u64::from(t.0)],
        ),
        Event::Committing { n, v } => push_with_numbers(
            out,
            alloc,
            b"committing",
            &[u64::from(n.0), v.0],
        ),
        Event::Committed { n, v } => push_with_numbers(
            out,
            alloc,
            b"committed",
            &[u64::from(n.0), v.0],
        ),
        Event::Crashed { n } => push_with_numbers(out, alloc, b"crashed", &[u64::from(n.0)]),
        Event::Reopened { n, v } => push_with_numbers(
            out,
            alloc,
            b"reopened",
            &[u64::from(n.0), v.0],
        ),
        Event::Promoted {
            n,
            generation,
            forced,
            v,
        } => push_with_numbers(
            out,
            alloc,
            b"promoted",
            &[u64::from(n.0), generation.0, forced.0, v.0],
        ),
        Event::Merging { seg } => push_merging(out, *seg),
        Event::Drained { done, .. } => push_with_numbers(
            out,
            alloc,
            b"drained",
            &[u64::from(*done)],
        ),
        Event::Files { n, names } => push_files(out, alloc, *n, names.as_slice()),
        Event::Planned { n, plan } => push_planned(out, alloc, *n, *plan),
        Event::Fault { n, kind } => push_fault(out, alloc, *n, *kind),
        Event::Refused { cause } => push_refused(out, alloc, cause),
    }
}

fn push_answer(
    out: &mut Vec<u8>,
    alloc: Global,
    n: NodeNo,
    t: TicketNo,
    v: Version,
    answer: &Answer,
) -> Result<(), NoMemory>
    ensures { OnOk result (AddsWords out.old.items out.new.items
        (with_numbers (codes "answer") (n.0 ∷ t.0 ∷ v.0 ∷ answer.now.total ∷ [])
        ++ map hit_text answer.now.hits)) }
{
    push_with_numbers(
        out,
        alloc,
        b"answer",
        &[u64::from(n.0), u64::from(t.0), v.0, u64::from(answer.total)],
    )?;
    push_hits(out, alloc, answer.hits.as_slice())
}

fn push_merging(out: &mut Vec<u8>, seg: SegNo) -> Result<(), NoMemory>
    ensures { OnOk result (AddsWords out.old.items out.new.items
        (codes "merging" ∷ (95 ∷ base36_of seg.0) ∷ [])) }
{
    out.extend_from_slice(b" merging _")?;
    out.extend_from_slice(base36(seg.0).as_slice())
}

fn push_files(
    out: &mut Vec<u8>,
    alloc: Global,
    n: NodeNo,
    names: &[FileName],
) -> Result<(), NoMemory>
    ensures { OnOk result (AddsWords out.old.items out.new.items
        (with_numbers (codes "files") (n.0 ∷ []) ++ names.now)) }
{
    push_with_numbers(out, alloc, b"files", &[u64::from(n.0)])?;
    push_names(out, names)
}

fn push_planned(
    out: &mut Vec<u8>,
    alloc: Global,
    n: NodeNo,
    plan: FaultPlan,
) -> Result<(), NoMemory>
    ensures { OnOk result (AddsWords out.old.items out.new.items
        (codes "planned" ∷ plan_words n.0 plan)) }
{
    push_word(out, b"planned")?;
    push_plan(out, alloc, n, plan)
}

fn push_fault(out: &mut Vec<u8>, alloc: Global, n: NodeNo, kind: FaultKind) -> Result<(), NoMemory>
    ensures { OnOk result (AddsWords out.old.items out.new.items
        (with_numbers (codes "fault") (n.0 ∷ []) ++ kind_text kind ∷ [])) }
{
    push_with_numbers(out, alloc, b"fault", &[u64::from(n.0)])?;
    push_kind(out, kind)
}

fn push_refused(out: &mut Vec<u8>, alloc: Global, cause: &Cause) -> Result<(), NoMemory>
    ensures { OnOk result (AddsWords out.old.items out.new.items
        (codes "refused" ∷ cause_words cause.now)) }
{
    push_word(out, b"refused")?;
    push_cause(out, alloc, cause)
}
