//! What is known of each line: where its start and its newest entry stand, and whether it has its reply or met a fault.

ghost use Rattle.std.specs.Prelude.{◌≡◌, ◌<◌, ◌+◌, ◌^◌, if◌then◌else◌, OnOk};
ghost use Rattle.nrt_base.specs.declared.numbers.At.{At};
ghost use Rattle.history_rules.specs.Lines.{same_at, is_reply as is_reply_lem};
ghost use Rattle.history_book.specs.Steps.{highest_by};
ghost use Rattle.known_past.specs.Lines.{is_fault as is_fault_lem, unknown_line, line_after, line_known};

use history_facts::is_start;
use history_rules::Event;
use nrt_base::{At, NoMemory};
use std::collections::BTreeMap;

/// What is known of a line.
#[derive(Clone, Copy, Debug, PartialEq, Eq)]
pub struct KnownLine {
    /// How many entries stood before its newest one that is no fault, where it has one.
    pub newest: Option<usize>,
    /// How many entries stood before its start entry, where it has started.
    pub start: Option<usize>,
    /// How many operations the generation had accepted then.
    pub accepted: usize,
    /// The greatest node that it has switched since, or 0.
    pub highest: u8,
    /// How many entries there were after its newest reply, 0 where it has none.
    pub replied: usize,
    /// Whether it has met a fault.
    pub failed: bool,
}

/// What is known of each line that has an entry.
pub type KnownLines = BTreeMap<(u8, u32), KnownLine>;

/// Whether the event is a fault that was met.
pub fn is_fault(event: &Event) -> bool
    ensures { result ≡ is_fault_lem event.now }
{
    match event {
        Event::Fault { .. } => true,
        _ => false,
    }
}

/// Whether the event answers its line.
#[tactic(auto, using(crate::proofs::LineLaws::reply_unless))]
fn is_reply(event: &Event) -> bool
    ensures { result ≡ is_reply_lem event.now }
{
    match event {
        Event::Switched { .. } => false,
        Event::Fault { .. } => false,
        event => !is_start(event),
    }
}

/// The greatest node that a line has switched, after one more entry of it that starts it not.
fn highest_after(event: &Event, highest: u8) -> u8
    ensures { result ≡ highest_by event.now highest }
{
    match event {
        Event::Switched { n, .. } => highest.max(n.0),
        _ => highest,
    }
}

impl KnownLine {
    /// Of a line that has no entry.
    fn unknown() -> Self
        ensures { result ≡ unknown_line }
    {
        KnownLine {
            newest: None,
            start: None,
            accepted: 0,
            highest: 0,
            replied: 0,
            failed: false,
        }
    }

    /// After one more entry of the line, where so many stood before that, and the generation had accepted so many operations.
    pub fn after(self, event: &Event, size: usize, accepted: usize) -> Self
        requires few { size + 1 < 2 ^ 64 }
        ensures { result ≡ line_after event.now size accepted self }
    {
        let fails = is_fault(event);
        let starts = is_start(event);
        let replies = is_reply(event);
        KnownLine {
            newest: if fails { self.newest } else { Some(size) },
            start: if starts { Some(size) } else { self.start },
            accepted: if starts { accepted } else { self.accepted },
            highest: if starts {
                0
            } else {
                highest_after(event, self.highest)
            },
            replied: if replies { size + 1 } else { self.replied },
            failed: fails || self.failed,
        }
    }
}

/// What is known of the line at this place.
pub fn line_in(lines: &KnownLines, at: At) -> KnownLine
    ensures { result ≡ line_known lines.now at }
{
    match lines.get(&(at.lane.0, at.line.0)) {
        Some(line) => *line,
        None => KnownLine::unknown(),
    }
}

/// Notes what is known of the line at this place.
pub fn set_line(lines: &mut KnownLines, at: At, line: KnownLine) -> Result<(), NoMemory>
    ensures { OnOk result ((a : At) → line_known lines.new a ≡
        (if same_at at a then line else line_known lines.old a)) }
{
    lines.insert((at.lane.0, at.line.0), line)?;
    Ok(())
}
