//! A sentence that says why a report is not legal: what is asked, and what the entries before show.

ghost use Rattle.script_serving.specs.Form.{IsInForm};

use crate::judgement::Judgement;
use crate::judging::walk;
use history_facts::{is_running, newest_version, primary_of, version_of};
use history_rules::{Entry, Event};
use nrt_base::{NoMemory, NodeNo};
use script_serving::Script;
use std::alloc::Global;

/// What each of the first rules asks.
fn early_rule(rule: u8) -> &'static str {
    match rule {
        1 => "an operation is accepted while a primary runs, and counted from 1 without a gap",
        2 =>
            "a publish starts while a primary runs and no other line's publish does, and has something to take",
        3 => "a publish ends under the primary of its start, one version above the newest",
        4 =>
            "a copy of the newest version starts to a running replica, while a primary runs and no other line copies it there",
        5 =>
            "a replica switches to a later version of this generation, for a copy or a settle that started and was not overtaken",
        6 =>
            "a copy ends at the version of its start, which its replica searches since its switch, or did before",
        7 =>
            "a settle notes the newest version, and ends when each of its replicas searches it or a newer one",
        8 =>
            "a search starts, or a ticket is opened, at the version that the running node searches",
        9 => "an ask starts at the node and the version of its lane's ticket",
        10 => "a search that started is answered by a scan of the documents of its version",
        _ => "a ticket that the lane has is closed, at its node",
    }
}

/// What each of the other rules asks.
fn late_rule(rule: u8) -> &'static str {
    match rule {
        12 =>
            "a commit of the version that the running node searches starts, while no other line's commit there does",
        13 => "a commit that started is acknowledged for the version of its start",
        14 => "a running node crashes",
        15 => "a node that is down reopens at a version that a commit left, or at 1",
        16 =>
            "a running node is promoted while no primary runs, to the next generation, one version above the forced one",
        17 => "a merge starts while a primary runs, into the next segment of the generation",
        18 =>
            "a running node lists names that files have, in ascending order, and those that it must have",
        19 => "a fault is met that is planned at the node, by a line that has no reply",
        20 => "a line is refused for a cause that it met",
        21 => "all drains together do no more tasks than the merges have",
        _ => "a fault is planned by a line that met none",
    }
}

/// The node that an event names.
fn node_of(event: &Event) -> Option<NodeNo> {
    match event {
        Event::Copying { n, .. } | Event::Switched { n, .. } | Event::Copied { n, .. } => Some(*n),
        Event::Opened { n, .. } | Event::Asking { n, .. } | Event::Answered { n, .. } => Some(*n),
        Event::Closed { n, .. } | Event::Committing { n, .. } | Event::Committed { n, .. } => {
            Some(*n)
        }
        Event::Crashed { n } | Event::Reopened { n, .. } | Event::Promoted { n, .. } => Some(*n),
        Event::Files { n, .. } | Event::Planned { n, .. } | Event::Fault { n, .. } => Some(*n),
        _ => None,
    }
}

/// What entries show of the primary and the newest version, and of a node.
fn shown(alloc: Global, before: &[Entry], entry: &Entry) -> Result<String, NoMemory> {
    let newest = newest_version(before);
    let text = match primary_of(before).node {
        Some(primary) => {
            let n = primary.0;
            format!(in alloc; "node {n} is the primary, the newest version is {newest}")?
        }
        None => format!(in alloc; "no primary runs, the newest version is {newest}")?,
    };
    let Some(node) = node_of(&entry.event) else {
        return Ok(text);
    };
    let n = node.0;
    let v = version_of(node, before);
    if is_running(node, before) {
        format!(in alloc; "{}, node {n} searches version {v}", text.as_str())
    } else {
        format!(in alloc; "{}, node {n} is down", text.as_str())
    }
}

/// Why a line of a report is broken: what its rule asks, and what the entries before show.
fn broken(alloc: Global, entries: &[Entry], line: usize, rule: u8) -> Result<String, NoMemory> {
    let asks = if rule < 12 {
        early_rule(rule)
    } else {
        late_rule(rule)
    };
    let place = line.saturating_sub(1);
    let Some(entry) = entries.get(place) else {
        return format!(in alloc; "line {line} of the report breaks rule {rule}: {asks}");
    };
    let before = &entries[..place];
    let shown = shown(alloc, before, entry)?;
    format!(in alloc;
        "line {line} of the report breaks rule {rule}: {asks}; before it {}",
        shown.as_str()
    )
}

/// A sentence that says what a judgement says.
pub fn explain(
    alloc: Global,
    script: &Script,
    report: &[u8],
    judgement: &Judgement,
) -> Result<String, NoMemory>
    requires form { IsInForm script.now }
{
    match judgement {
        Judgement::Legal(_) => format!(in alloc; "the report is legal"),
        Judgement::Broken { line, rule } => {
            let walk = walk(alloc, script, report)?;
            broken(alloc, walk.0.entries.as_slice(), *line, *rule)
        }
        Judgement::Unserved(line) => {
            format!(in alloc; "line {line} of the report is not what the script asks for there")
        }
        Judgement::Unread(line) => {
            format!(in alloc; "line {line} of the report is the line of no entry")
        }
        Judgement::Unanswered(line) => {
            let n = line.0;
            format!(in alloc; "line {n} of the script has no reply, or its replay is not done")
        }
    }
}
