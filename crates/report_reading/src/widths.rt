//! Each number of an entry has the bits of its kind. Each call only reads, and ensures what the types say.

ghost use Rattle.std.specs.Prelude.{IsTrue};
ghost use Rattle.std.specs.List.{list_all};
ghost use Rattle.file_names.specs.Names.{is_file_name};
ghost use Rattle.report_reading.specs.Widths.{IsNodeWide, IsTicketWide, IsCountWide, IsVersionWide, CauseIsNarrow, PlanIsNarrow, EventIsNarrow, EntryIsNarrow, hit_is_narrow as hit_is_narrow_lem};

use documents::{Answer, Hit};
use file_names::FileName;
use history_rules::{Cause, Entry, Event, FaultPlan};

fn node_is_narrow(n: u8)
    ensures { IsNodeWide n }
{}

fn ticket_is_narrow(t: u16)
    ensures { IsTicketWide t }
{}

fn count_is_narrow(count: u32)
    ensures { IsCountWide count }
{}

fn version_is_narrow(v: u64)
    ensures { IsVersionWide v }
{}

fn both_are_narrow(n: u8, v: u64)
    ensures { IsNodeWide n × IsVersionWide v }
{}

fn ticket_fits(n: u8, t: u16, v: u64)
    ensures { IsNodeWide n × IsTicketWide t × IsVersionWide v }
{}

fn hit_is_narrow(hit: &Hit)
    ensures { IsTrue (hit_is_narrow_lem hit.now) }
{
    count_is_narrow(hit.rank);
    hit.key.as_slice();
}

fn hits_are_narrow(hits: &[Hit])
    ensures { IsTrue (list_all hit_is_narrow_lem hits.now) }
{
    for hit in hits {
        hit_is_narrow(hit);
    }
}

fn name_is_narrow(name: &FileName)
    ensures { IsTrue (is_file_name name.now) }
{
    name.as_slice();
}

fn names_are_narrow(names: &[FileName])
    ensures { IsTrue (list_all is_file_name names.now) }
{
    for name in names {
        name_is_narrow(name);
    }
}

fn answer_is_narrow(answer: &Answer)
    ensures total { IsCountWide answer.now.total }
    ensures hits { IsTrue (list_all hit_is_narrow_lem answer.now.hits) }
{
    count_is_narrow(answer.total);
    hits_are_narrow(answer.hits.as_slice());
}

fn plan_is_narrow(plan: FaultPlan)
    ensures { PlanIsNarrow plan }
{
    match plan {
        FaultPlan::Link(k) | FaultPlan::Disk(k) | FaultPlan::Stop(k) => count_is_narrow(k),
        FaultPlan::Damage(k, at) => {
            count_is_narrow(k);
            count_is_narrow(at);
        }
    }
}

fn cause_is_narrow(cause: &Cause)
    ensures { CauseIsNarrow cause.now }
{
    match cause {
        Cause::ForceLow(v) => version_is_narrow(v.0),
        Cause::Cancelled(v) => version_is_narrow(v.0),
        Cause::Damaged(name) => name_is_narrow(name),
        _ => (),
    }
}

fn event_is_narrow(event: &Event)
    ensures { EventIsNarrow event.now }
{
    match event {
        Event::Accepted { seq, .. } => count_is_narrow(*seq),
        Event::Publishing => (),
        Event::Published { generation, v } => {
            version_is_narrow(generation.0);
            version_is_narrow(v.0);
        }
        Event::Copying { n, v } => both_are_narrow(n.0, v.0),
        Event::Switched { n, v } => both_are_narrow(n.0, v.0),
        Event::Copied { n, v } => both_are_narrow(n.0, v.0),
        Event::Settling { v } => version_is_narrow(v.0),
        Event::Settled { v } => version_is_narrow(v.0),
        Event::Opened { n, t, v } => ticket_fits(n.0, t.0, v.0),
        Event::Asking { n, t, v } => ticket_fits(n.0, t.0, v.0),
        Event::Answered {
            n,
            t,
            v,
            answer,
            ..
        } => {
            ticket_fits(n.0, t.0, v.0);
            answer_is_narrow(answer);
        }
        Event::Closed { n, t } => ticket_fits(n.0, t.0, 0),
        Event::Committing { n, v } => both_are_narrow(n.0, v.0),
        Event::Committed { n, v } => both_are_narrow(n.0, v.0),
        Event::Crashed { n } => node_is_narrow(n.0),
        Event::Reopened { n, v } => both_are_narrow(n.0, v.0),
        Event::Promoted {
            n,
            generation,
            forced,
            v,
        } => {
            both_are_narrow(n.0, v.0);
            version_is_narrow(generation.0);
            version_is_narrow(forced.0);
        }
        Event::Merging { seg } => version_is_narrow(seg.0),
        Event::Drained { done, .. } => count_is_narrow(*done),
        Event::Files { n, names } => {
            node_is_narrow(n.0);
            names_are_narrow(names.as_slice());
        }
        Event::Planned { n, plan } => {
            node_is_narrow(n.0);
            plan_is_narrow(*plan);
        }
        Event::Fault { n, .. } => node_is_narrow(n.0),
        Event::Refused { cause } => cause_is_narrow(cause),
    }
}

/// Each number of an entry has the bits of its kind, its hits have keys and its names are names of files. A law.
pub fn entry_is_narrow(entry: &Entry)
    ensures { EntryIsNarrow entry.now }
{
    count_is_narrow(entry.at.line.0);
    event_is_narrow(&entry.event);
}
