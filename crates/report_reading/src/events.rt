//! The event that the words of a line tell.

ghost use Rattle.std.specs.Prelude.{◌≡◌, IfOk, MatchOption, Some, None};
ghost use Rattle.std.specs.List.{list_all};
ghost use Rattle.nrt_base.specs.Bytes.{is_key_byte as is_key_byte_lem, is_key as is_key_lem};
ghost use Rattle.report_reading.specs.Cuts.{later_words};
ghost use Rattle.report_reading.specs.Readings.{IsEventRead, rank_length as rank_length_lem, hit_read, hits_read, names_read, files_read, answer_read, answered_with as answered_with_lem, answered_at as answered_at_lem, answered_read, accepted_read, drained_read, event_with as event_with_lem};

use crate::causes::name;
use crate::cuts::next_word;
use crate::numbers::{count, count_word, node_word, one_number, ticket_word};
use crate::plain_events::printed_event;
use crate::told::{most_of_line, op_told, query_of_line};
use documents::{Answer, Hit, Op, Query};
use file_names::FileName;
use history_rules::Event;
use nrt_base::{Key, List, NoMemory, NodeNo, TicketNo, Version};
use script_serving::LineCommand;
use script_text::{is_word, number_u64};
use std::alloc::Global;

fn is_key_byte(byte: u8) -> bool
    ensures { result ≡ is_key_byte_lem byte }
{
    matches!(byte, 33..=126)
}

fn are_key_bytes(bytes: &[u8]) -> bool
    ensures { result ≡ list_all is_key_byte_lem bytes.now }
{
    bytes.iter().all(|b| is_key_byte(*b))
}

fn is_key(bytes: &[u8]) -> bool
    ensures { result ≡ is_key_lem bytes.now }
{
    matches!(bytes.len(), 1..=64) && are_key_bytes(bytes)
}

/// How long a word is before its first colon.
fn rank_length(word: &[u8]) -> usize
    ensures { result ≡ rank_length_lem word.now }
{
    word.iter().take_while(|b| **b != b':').count()
}

/// The hit that a word is.
fn hit(alloc: Global, word: &[u8]) -> Result<Option<Hit>, NoMemory>
    ensures { IfOk result (λ read. read ≡ hit_read word.now) }
{
    let (front, back) = word.split_at(rank_length(word));
    let Some(rank) = count_word(front) else {
        return Ok(None);
    };
    let Some((_, key)) = back.split_first() else {
        return Ok(None);
    };
    if !is_key(key) {
        return Ok(None);
    }
    let key = Key::new(alloc, key)?;
    Ok(Some(Hit { key, rank }))
}

/// The hits that are left.
fn hits(alloc: Global, text: &[u8]) -> Result<Option<Vec<Hit>>, NoMemory>
    ensures { IfOk result (λ read. MatchOption read (hits_read (later_words text.now) ≡ None)
        (λ hits. hits_read (later_words text.now) ≡ Some hits.items)) }
{
    let mut hits = Vec::new(alloc);
    let mut left = text;
    while let Some((word, rest)) = next_word(left) {
        let Some(hit) = hit(alloc, word)? else {
            return Ok(None);
        };
        hits.push(hit)?;
        left = rest;
    }
    Ok(Some(hits))
}

/// The names that are left.
fn names(alloc: Global, text: &[u8]) -> Result<Option<Vec<FileName>>, NoMemory>
    ensures { IfOk result (λ read. MatchOption read (names_read (later_words text.now) ≡ None)
        (λ names. names_read (later_words text.now) ≡ Some names.items)) }
{
    let mut names = Vec::new(alloc);
    let mut left = text;
    while let Some((word, rest)) = next_word(left) {
        let Some(name) = name(word) else {
            return Ok(None);
        };
        names.push(name)?;
        left = rest;
    }
    Ok(Some(names))
}

/// How many documents match and the hits, which are left.
fn answer(alloc: Global, text: &[u8]) -> Result<Option<Answer>, NoMemory>
    ensures { IfOk result (λ read. read ≡ answer_read (later_words text.now)) }
{
    let Some((word, rest)) = next_word(text) else {
        return Ok(None);
    };
    let Some(total) = count_word(word) else {
        return Ok(None);
    };
    match hits(alloc, rest)? {
        Some(hits) => {
            let hits = List::from_vec(hits);
            Ok(Some(Answer { total, hits }))
        }
        None => Ok(None),
    }
}

/// A version and the answer at it, which are left.
fn answered_with(
    alloc: Global,
    query: Query,
    n: NodeNo,
    t: TicketNo,
    text: &[u8],
) -> Result<Option<Event>, NoMemory>
    ensures { IfOk result (λ read. read ≡ answered_with_lem query n t (later_words text.now)) }
{
    let Some((word, rest)) = next_word(text) else {
        return Ok(None);
    };
    let Some(v) = number_u64(word) else {
        return Ok(None);
    };
    let v = Version(v);
    match answer(alloc, rest)? {
        Some(answer) => Ok(Some(Event::Answered {
            n,
            t,
            v,
            query,
            answer,
        })),
        None => Ok(None),
    }
}

/// A ticket, a version and the answer at it, which are left.
fn answered_at(
    alloc: Global,
    query: Query,
    n: NodeNo,
    text: &[u8],
) -> Result<Option<Event>, NoMemory>
    ensures { IfOk result (λ read. read ≡ answered_at_lem query n (later_words text.now)) }
{
    let Some((word, rest)) = next_word(text) else {
        return Ok(None);
    };
    match ticket_word(word) {
        Some(t) => answered_with(alloc, query, n, t, rest),
        None => Ok(None),
    }
}

/// The answer of a query that is left.
fn answered(alloc: Global, query: Query, text: &[u8]) -> Result<Option<Event>, NoMemory>
    ensures { IfOk result (λ read. read ≡ answered_read query (later_words text.now)) }
{
    let Some((word, rest)) = next_word(text) else {
        return Ok(None);
    };
    match node_word(word) {
        Some(n) => answered_at(alloc, query, n, rest),
        None => Ok(None),
    }
}

/// The list of a node's files that is left.
fn files(alloc: Global, text: &[u8]) -> Result<Option<Event>, NoMemory>
    ensures { IfOk result (λ read. read ≡ files_read (later_words text.now)) }
{
    let Some((word, rest)) = next_word(text) else {
        return Ok(None);
    };
    let Some(n) = node_word(word) else {
        return Ok(None);
    };
    match names(alloc, rest)? {
        Some(names) => {
            let names = List::from_vec(names);
            Ok(Some(Event::Files { n, names }))
        }
        None => Ok(None),
    }
}

/// The operation of a line that is accepted with the count that is left.
fn accepted(
    alloc: Global,
    due: &[Op],
    command: &LineCommand,
    text: &[u8],
) -> Result<Option<Event>, NoMemory>
    ensures { IfOk result (λ read. read
        ≡ accepted_read due.now command.now (later_words text.now)) }
{
    let Some(number) = one_number(text) else {
        return Ok(None);
    };
    let Some(seq) = count(number) else {
        return Ok(None);
    };
    let op = op_told(alloc, due, command)?;
    Ok(Some(Event::Accepted { seq, op }))
}

/// The tasks that a line did, which are left.
fn drained(command: &LineCommand, text: &[u8]) -> Option<Event>
    ensures { result ≡ drained_read command.now (later_words text.now) }
{
    let done = count(one_number(text)?)?;
    let most = most_of_line(command);
    Some(Event::Drained { done, most })
}

/// The event that a word names with the words that are left.
fn event_with(
    alloc: Global,
    due: &[Op],
    command: &LineCommand,
    word: &[u8],
    text: &[u8],
) -> Result<Option<Event>, NoMemory>
    ensures { IfOk result (λ read. read
        ≡ event_with_lem due.now command.now word.now (later_words text.now)) }
{
    if is_word(b"accepted", word) {
        accepted(alloc, due, command, text)
    } else if is_word(b"answer", word) {
        answered(alloc, query_of_line(alloc, command)?, text)
    } else if is_word(b"files", word) {
        files(alloc, text)
    } else if is_word(b"drained", word) {
        Ok(drained(command, text))
    } else {
        Ok(printed_event(word, text))
    }
}

/// The event that the words of a text tell, where an operation is due to be accepted again or the line asks for this.
///
/// If the words are those of an event, then that event is read, with what the line says in place of what is not printed.
/// Other words may be read too.
pub fn read_event(
    alloc: Global,
    due: &[Op],
    command: &LineCommand,
    text: &[u8],
) -> Result<Option<Event>, NoMemory>
    ensures { IfOk result (IsEventRead due.now command.now (later_words text.now)) }
{
    let Some((word, rest)) = next_word(text) else {
        return Ok(None);
    };
    event_with(alloc, due, command, word, rest)
}
