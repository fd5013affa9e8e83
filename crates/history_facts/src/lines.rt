//! What a history shows of one line of the script: its start, its reply, and what happened between them.

ghost use Rattle.std.specs.Prelude.{◌≡◌, ◌↔◌, ◌≤◌, reverse, length, IsTrue};
ghost use Rattle.std.specs.Option.{option_copied};
ghost use Rattle.history_rules.specs.Lines.{same_at, is_start, is_reply, is_answered, start_entry, before_start, last_of_line, without_at, publish_in_flight, commit_in_flight, copy_in_flight, is_free_for, has_switched, has_just_switched, highest_switched, NodeSurvives, SourceSurvives};
ghost use Rattle.history_rules.specs.Steps.{commit_by, copy_by};

use crate::nodes::{Searched, crashes, is_at, primary_of};
use history_rules::{Entry, Event};
use nrt_base::{At, NodeNo, Version};

/// Whether the two are one line of the script.
pub fn same_at(a: At, b: At) -> bool
    ensures { result ≡ same_at a b }
{
    a.lane.0 == b.lane.0 && a.line.0 == b.line.0
}

/// Whether the event starts a line.
pub fn is_start(event: &Event) -> bool
    ensures { result ≡ is_start event.now }
{
    match event {
        Event::Publishing
        | Event::Copying { .. }
        | Event::Settling { .. }
        | Event::Asking { .. }
        | Event::Committing { .. } => true,
        Event::Opened { t, .. } => t.0 == 0,
        Event::Accepted { .. }
        | Event::Published { .. }
        | Event::Switched { .. }
        | Event::Copied { .. }
        | Event::Settled { .. }
        | Event::Answered { .. }
        | Event::Closed { .. }
        | Event::Committed { .. }
        | Event::Crashed { .. }
        | Event::Reopened { .. }
        | Event::Promoted { .. }
        | Event::Merging { .. }
        | Event::Drained { .. }
        | Event::Files { .. }
        | Event::Planned { .. }
        | Event::Fault { .. }
        | Event::Refused { .. } => false,
    }
}

/// Whether the event answers its line.
pub fn is_reply(event: &Event) -> bool
    ensures { result ≡ is_reply event.now }
{
    match event {
        Event::Accepted { .. }
        | Event::Published { .. }
        | Event::Copied { .. }
        | Event::Settled { .. }
        | Event::Answered { .. }
        | Event::Closed { .. }
        | Event::Committed { .. }
        | Event::Crashed { .. }
        | Event::Reopened { .. }
        | Event::Promoted { .. }
        | Event::Merging { .. }
        | Event::Drained { .. }
        | Event::Files { .. }
        | Event::Planned { .. }
        | Event::Refused { .. } => true,
        Event::Opened { t, .. } => t.0 != 0,
        Event::Publishing
        | Event::Copying { .. }
        | Event::Switched { .. }
        | Event::Settling { .. }
        | Event::Asking { .. }
        | Event::Committing { .. }
        | Event::Fault { .. } => false,
    }
}

/// Whether the line has its reply.
pub fn is_answered(at: At, entries: &[Entry]) -> bool
    ensures { result ≡ is_answered at (reverse entries.now) }
{
    let mut answered = false;
    for entry in entries {
        if is_reply(&entry.event) && same_at(entry.at, at) {
            answered = true;
        }
    }
    answered
}

/// The start entry of a line, the last where there are several.
pub fn start_entry<'a>(at: At, entries: &'a [Entry]) -> Option<&'a Event>
    ensures { option_copied result ≡ start_entry at (reverse entries.now) }
{
    let mut start = None;
    for entry in entries {
        if is_start(&entry.event) && same_at(entry.at, at) {
            start = Some(&entry.event);
        }
    }
    start
}

/// The newest entry of a line that is no fault.
pub fn last_of_line<'a>(at: At, entries: &'a [Entry]) -> Option<&'a Event>
    ensures { option_copied result ≡ last_of_line at (reverse entries.now) }
{
    let mut last = None;
    for entry in entries {
        if same_at(entry.at, at) {
            match &entry.event {
                Event::Fault { .. } => {}
                event => last = Some(event),
            }
        }
    }
    last
}

/// The entries before the start entry of a line.
pub fn before_start<'a>(at: At, entries: &'a [Entry]) -> &'a [Entry]
    ensures before { reverse result.now ≡ before_start at (reverse entries.now) }
    ensures within { length result.now ≤ length entries.now }
{
    let mut before = &entries[..0];
    for (i, entry) in entries.iter().enumerate() {
        if is_start(&entry.event) && same_at(entry.at, at) {
            before = &entries[..i];
        }
    }
    before
}

/// Whether a node has not crashed since the start entry of a line.
pub fn node_survives(n: NodeNo, at: At, entries: &[Entry]) -> bool
    ensures { IsTrue result ↔ NodeSurvives (reverse entries.now) at n.0 }
{
    crashes(n, entries) == crashes(n, before_start(at, entries))
}

/// Whether the primary at the start entry of a line has not crashed since.
pub fn source_survives(at: At, entries: &[Entry]) -> bool
    ensures { IsTrue result ↔ SourceSurvives (reverse entries.now) at }
{
    primary_of(entries).crashes == primary_of(before_start(at, entries)).crashes
}

fn without_at(at: At, line: Option<At>) -> Option<At>
    ensures { result ≡ without_at at line }
{
    match line {
        Some(a) if same_at(at, a) => None,
        _ => line,
    }
}

/// The line whose publish is between its start and its reply, its primary not crashed since.
pub fn publish_in_flight(entries: &[Entry]) -> Option<At>
    ensures { result ≡ publish_in_flight (reverse entries.now) }
{
    let mut primary = Some(NodeNo(1));
    let mut line = None;
    for entry in entries {
        match &entry.event {
            Event::Publishing => line = Some(entry.at),
            Event::Crashed { n } if is_at(primary, *n) => {
                primary = None;
                line = None;
            }
            Event::Promoted { n, .. } => {
                primary = Some(*n);
                line = without_at(entry.at, line);
            }
            event => {
                if is_reply(event) {
                    line = without_at(entry.at, line);
                }
            }
        }
    }
    line
}

/// The line whose commit at a node is in flight after one more entry.
pub fn commit_after(n: NodeNo, entry: &Entry, line: Option<At>) -> Option<At>
    ensures { result ≡ commit_by n.0 entry.now.at entry.now.event line }
{
    match &entry.event {
        Event::Committing { n: m, .. } if m.0 == n.0 => Some(entry.at),
        Event::Crashed { n: m } if m.0 == n.0 => None,
        event => {
            if is_reply(event) {
                without_at(entry.at, line)
            } else {
                line
            }
        }
    }
}

/// The line whose commit at a node is between its start and its reply, the node not crashed since.
pub fn commit_in_flight(n: NodeNo, entries: &[Entry]) -> Option<At>
    ensures { result ≡ commit_in_flight n.0 (reverse entries.now) }
{
    let mut line = None;
    for entry in entries {
        line = commit_after(n, entry, line);
    }
    line
}

/// The line whose copy of a version to a node is in flight after one more entry.
fn copy_after(
    n: NodeNo,
    version: Version,
    entry: &Entry,
    primary: Option<NodeNo>,
    line: Option<At>,
) -> Option<At>
    ensures { result ≡ copy_by n.0 version.0 entry.now.at entry.now.event primary line }
{
    match &entry.event {
        Event::Copying { n: m, v } => {
            if m.0 == n.0 && v.0 == version.0 {
                Some(entry.at)
            } else {
                line
            }
        }
        Event::Crashed { n: m } if m.0 == n.0 || is_at(primary, *m) => None,
        event => {
            if is_reply(event) {
                without_at(entry.at, line)
            } else {
                line
            }
        }
    }
}

/// The line whose copy of a version to a node is between its start and its reply, neither the node nor the primary crashed since.
pub fn copy_in_flight(n: NodeNo, version: Version, entries: &[Entry]) -> Option<At>
    ensures { result ≡ copy_in_flight n.0 version.0 (reverse entries.now) }
{
    let mut searched = Searched::new();
    let mut line = None;
    for entry in entries {
        line = copy_after(n, version, entry, searched.primary, line);
        searched = searched.after(n, &entry.event);
    }
    line
}

/// Whether no line but this one is in flight.
pub fn is_free_for(at: At, line: Option<At>) -> bool
    ensures { result ≡ is_free_for at line }
{
    match line {
        Some(a) => same_at(at, a),
        None => true,
    }
}

/// The greatest node that a line has switched since its start entry, or 0.
pub fn highest_switched(at: At, entries: &[Entry]) -> u8
    ensures { result ≡ highest_switched at (reverse entries.now) }
{
    let mut highest: u8 = 0;
    for entry in entries {
        if same_at(entry.at, at) {
            if is_start(&entry.event) {
                highest = 0;
            } else if let Event::Switched { n, .. } = &entry.event {
                highest = highest.max(n.0);
            }
        }
    }
    highest
}

/// Whether a line has switched a replica since its start entry.
pub fn has_switched(at: At, entries: &[Entry]) -> bool
    ensures { result ≡ has_switched at (reverse entries.now) }
{
    highest_switched(at, entries) > 0
}

/// Whether the newest entry switched a replica for a line.
pub fn has_just_switched(at: At, entries: &[Entry]) -> bool
    ensures { result ≡ has_just_switched at (reverse entries.now) }
{
    let mut switched = false;
    for entry in entries {
        switched = match &entry.event {
            Event::Switched { .. } => same_at(entry.at, at),
            _ => false,
        };
    }
    switched
}
