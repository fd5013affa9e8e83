//! What a history prints has the form that its types give it. Each call only reads, and ensures what the types say.

ghost use Rattle.std.specs.Prelude.{IsTrue};
ghost use Rattle.std.specs.List.{list_all};
ghost use Rattle.file_names.specs.Names.{is_file_name};
ghost use Rattle.report_text.specs.Printed.{AllFit, CauseFits, EntryFits, EventFits, IsNumber, PlanFits, hit_fits as hit_fits_lem};

use documents::{Answer, Hit};
use file_names::FileName;
use history_rules::{Cause, Entry, Event, FaultPlan, History};

fn one_fits(a: u64)
    ensures { IsNumber a }
{}

fn two_fit(a: u64, b: u64)
    ensures { IsNumber a × IsNumber b }
{}

fn three_fit(a: u64, b: u64, c: u64)
    ensures { IsNumber a × IsNumber b × IsNumber c }
{}

fn four_fit(a: u64, b: u64, c: u64, d: u64)
    ensures { IsNumber a × IsNumber b × IsNumber c × IsNumber d }
{}

fn hit_fits(hit: &Hit)
    ensures { IsTrue (hit_fits_lem hit.now) }
{
    one_fits(u64::from(hit.rank));
    hit.key.as_slice();
}

fn hits_fit(hits: &[Hit])
    ensures { IsTrue (list_all hit_fits_lem hits.now) }
{
    for hit in hits {
        hit_fits(hit);
    }
}

fn name_fits(name: &FileName)
    ensures { IsTrue (is_file_name name.now) }
{
    name.as_slice();
}

fn names_fit(names: &[FileName])
    ensures { IsTrue (list_all is_file_name names.now) }
{
    for name in names {
        name_fits(name);
    }
}

fn answer_fits(answer: &Answer)
    ensures total { IsNumber answer.now.total }
    ensures hits { IsTrue (list_all hit_fits_lem answer.now.hits) }
{
    one_fits(u64::from(answer.total));
    hits_fit(answer.hits.as_slice());
}

fn plan_fits(plan: FaultPlan)
    ensures { PlanFits plan }
{
    match plan {
        FaultPlan::Link(k) => one_fits(u64::from(k)),
        FaultPlan::Damage(k, at) => two_fit(u64::from(k), u64::from(at)),
        FaultPlan::Disk(k) => one_fits(u64::from(k)),
        FaultPlan::Stop(k) => one_fits(u64::from(k)),
    }
}

fn cause_fits(cause: &Cause)
    ensures { CauseFits cause.now }
{
    match cause {
        Cause::ForceLow(v) => one_fits(v.0),
        Cause::Cancelled(v) => one_fits(v.0),
        Cause::Damaged(name) => name_fits(name),
        _ => (),
    }
}

fn event_fits(event: &Event)
    ensures { EventFits event.now }
{
    match event {
        Event::Accepted { seq, .. } => one_fits(u64::from(*seq)),
        Event::Publishing => (),
        Event::Published { generation, v } => two_fit(generation.0, v.0),
        Event::Copying { n, v } => two_fit(u64::from(n.0), v.0),
        Event::Switched { n, v } => two_fit(u64::from(n.0), v.0),
        Event::Copied { n, v } => two_fit(u64::from(n.0), v.0),
        Event::Settling { v } => one_fits(v.0),
        Event::Settled { v } => one_fits(v.0),
        Event::Opened { n, t, v } => three_fit(u64::from(n.0), u64::from(t.0), v.0),
        Event::Asking { n, t, v } => three_fit(u64::from(n.0), u64::from(t.0), v.0),
        Event::Answered {
            n,
            t,
            v,
            answer,
            ..
        } => {
            three_fit(u64::from(n.0), u64::from(t.0), v.0);
            answer_fits(answer);
        }
        Event::Closed { n, t } => two_fit(u64::from(n.0), u64::from(t.0)),
        Event::Committing { n, v } => two_fit(u64::from(n.0), v.0),
        Event::Committed { n, v } => two_fit(u64::from(n.0), v.0),
        Event::Crashed { n } => one_fits(u64::from(n.0)),
        Event::Reopened { n, v } => two_fit(u64::from(n.0), v.0),
        Event::Promoted {
            n,
            generation,
            forced,
            v,
        } => four_fit(u64::from(n.0), generation.0, forced.0, v.0),
        Event::Merging { seg } => one_fits(seg.0),
        Event::Drained { done, .. } => one_fits(u64::from(*done)),
        Event::Files { n, names } => {
            one_fits(u64::from(n.0));
            names_fit(names.as_slice());
        }
        Event::Planned { n, plan } => {
            one_fits(u64::from(n.0));
            plan_fits(*plan);
        }
        Event::Fault { n, .. } => one_fits(u64::from(n.0)),
        Event::Refused { cause } => cause_fits(cause),
    }
}

fn entry_fits(entry: &Entry)
    ensures { EntryFits entry.now }
{
    one_fits(u64::from(entry.at.line.0));
    event_fits(&entry.event);
}

/// What a history says can be printed: its numbers have at most 64 bits, its keys are keys and its names are names.
pub fn entries_fit(h: &History)
    ensures { AllFit h.now.entries }
{
    for entry in h.entries.as_slice() {
        entry_fits(entry);
    }
}
