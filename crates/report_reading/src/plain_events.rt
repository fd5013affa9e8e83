//! Events whose words say all of them.

ghost use Rattle.std.specs.Prelude.{◌≡◌};
ghost use Rattle.report_reading.specs.Cuts.{later_words};
ghost use Rattle.report_reading.specs.Readings.{planned_with as planned_with_lem, planned_read, fault_read, merging_read, promoted_read, publishing_read, fault_event as fault_event_lem, ticket_event as ticket_event_lem, settle_event as settle_event_lem, commit_event as commit_event_lem, printed_event as printed_event_lem};

use crate::causes::{cause, one_kind, segment};
use crate::cuts::{is_last, next_word};
use crate::numbers::{
    node, node_count, node_counts, node_first, node_ticket_version, node_version, node_word,
    one_number, three_numbers, ticket, two_numbers,
};
use history_rules::{Event, FaultPlan};
use nrt_base::{Gen, Version};
use script_text::is_word;

fn planned_with(word: &[u8], text: &[u8]) -> Option<Event>
    ensures { result ≡ planned_with_lem word.now (later_words text.now) }
{
    if is_word(b"link", word) {
        let (n, k) = node_count(text)?;
        Some(Event::Planned {
            n,
            plan: FaultPlan::Link(k),
        })
    } else if is_word(b"damage", word) {
        let (n, k, at) = node_counts(text)?;
        Some(Event::Planned {
            n,
            plan: FaultPlan::Damage(k, at),
        })
    } else if is_word(b"disk", word) {
        let (n, k) = node_count(text)?;
        Some(Event::Planned {
            n,
            plan: FaultPlan::Disk(k),
        })
    } else if is_word(b"stop", word) {
        let (n, k) = node_count(text)?;
        Some(Event::Planned {
            n,
            plan: FaultPlan::Stop(k),
        })
    } else {
        None
    }
}

fn planned(text: &[u8]) -> Option<Event>
    ensures { result ≡ planned_read (later_words text.now) }
{
    let (word, rest) = next_word(text)?;
    planned_with(word, rest)
}

fn fault(text: &[u8]) -> Option<Event>
    ensures { result ≡ fault_read (later_words text.now) }
{
    let (word, rest) = next_word(text)?;
    let n = node_word(word)?;
    Some(Event::Fault {
        n,
        kind: one_kind(rest)?,
    })
}

fn merging(text: &[u8]) -> Option<Event>
    ensures { result ≡ merging_read (later_words text.now) }
{
    let (word, rest) = next_word(text)?;
    if !is_last(rest) {
        return None;
    }
    Some(Event::Merging {
        seg: segment(word)?,
    })
}

fn promoted(text: &[u8]) -> Option<Event>
    ensures { result ≡ promoted_read (later_words text.now) }
{
    let (word, rest) = next_word(text)?;
    let n = node_word(word)?;
    let (generation, forced, v) = three_numbers(rest)?;
    Some(Event::Promoted {
        n,
        generation: Gen(generation),
        forced: Version(forced),
        v: Version(v),
    })
}

fn publishing(text: &[u8]) -> Option<Event>
    ensures { result ≡ publishing_read (later_words text.now) }
{
    if is_last(text) {
        Some(Event::Publishing)
    } else {
        None
    }
}

fn fault_event(word: &[u8], text: &[u8]) -> Option<Event>
    ensures { result ≡ fault_event_lem word.now (later_words text.now) }
{
    if is_word(b"merging", word) {
        merging(text)
    } else if is_word(b"planned", word) {
        planned(text)
    } else if is_word(b"fault", word) {
        fault(text)
    } else if is_word(b"refused", word) {
        Some(Event::Refused {
            cause: cause(text)?,
        })
    } else {
        None
    }
}

fn ticket_event(word: &[u8], text: &[u8]) -> Option<Event>
    ensures { result ≡ ticket_event_lem word.now (later_words text.now) }
{
    if is_word(b"opened", word) {
        let (n, t, v) = node_ticket_version(text)?;
        Some(Event::Opened { n, t, v })
    } else if is_word(b"asking", word) {
        let (n, t, v) = node_ticket_version(text)?;
        Some(Event::Asking { n, t, v })
    } else if is_word(b"closed", word) {
        let (n, t) = node_first(text)?;
        Some(Event::Closed { n, t: ticket(t)? })
    } else if is_word(b"promoted", word) {
        promoted(text)
    } else {
        fault_event(word, text)
    }
}

fn settle_event(word: &[u8], text: &[u8]) -> Option<Event>
    ensures { result ≡ settle_event_lem word.now (later_words text.now) }
{
    if is_word(b"settling", word) {
        Some(Event::Settling {
            v: Version(one_number(text)?),
        })
    } else if is_word(b"settled", word) {
        Some(Event::Settled {
            v: Version(one_number(text)?),
        })
    } else if is_word(b"crashed", word) {
        Some(Event::Crashed {
            n: node(one_number(text)?)?,
        })
    } else if is_word(b"publishing", word) {
        publishing(text)
    } else {
        ticket_event(word, text)
    }
}

fn commit_event(word: &[u8], text: &[u8]) -> Option<Event>
    ensures { result ≡ commit_event_lem word.now (later_words text.now) }
{
    if is_word(b"committing", word) {
        let (n, v) = node_version(text)?;
        Some(Event::Committing { n, v })
    } else if is_word(b"committed", word) {
        let (n, v) = node_version(text)?;
        Some(Event::Committed { n, v })
    } else if is_word(b"published", word) {
        let (generation, v) = two_numbers(text)?;
        Some(Event::Published {
            generation: Gen(generation),
            v: Version(v),
        })
    } else {
        settle_event(word, text)
    }
}

/// The event that a word names with the words that are left, where these say all.
pub fn printed_event(word: &[u8], text: &[u8]) -> Option<Event>
    ensures { result ≡ printed_event_lem word.now (later_words text.now) }
{
    if is_word(b"copying", word) {
        let (n, v) = node_version(text)?;
        Some(Event::Copying { n, v })
    } else if is_word(b"switched", word) {
        let (n, v) = node_version(text)?;
        Some(Event::Switched { n, v })
    } else if is_word(b"copied", word) {
        let (n, v) = node_version(text)?;
        Some(Event::Copied { n, v })
    } else if is_word(b"reopened", word) {
        let (n, v) = node_version(text)?;
        Some(Event::Reopened { n, v })
    } else {
        commit_event(word, text)
    }
}
