//! The command of a line, read from its words.

ghost use Rattle.std.specs.Prelude.{◌≡◌, ◌++◌, length, drop, IsTrue, false};
ghost use Rattle.std.specs.List.{list_all};
ghost use Rattle.script_text.specs.Grammar.{words_in};
ghost use Rattle.documents.specs.Words.{is_alphanumeric};
ghost use Rattle.script_text.specs.Refused.{is_too_few_or_many, is_kind, letters, shape_of, is_printable as is_printable_lem};
ghost use Rattle.script_text.specs.Reading.{front_of, plain_command, plan_of, fault_command, is_key_word, IsQueryRead, IsDocRead, IsKeyRead, IsDropRead, IsSearchRead, IsAskRead, in_range as in_range_lem, IsCommandRead};

use crate::fault::{LineFault, Refusal};
use crate::numbers::{force, node, number_u32, number_u64, ticket};
use crate::shapes::{Name, Plain};
use crate::words::{Words, first_words, rest_behind};
use documents::{Query, words};
use history_rules::{FaultKind, FaultPlan};
use nrt_base::{Doc, Key, Text, Word};
use script_serving::LineCommand;
use std::alloc::Global;
use text_query::{QueryFault, parse_query};

/// The longest key, in bytes.
const LONGEST_KEY: usize = 64;

/// The longest word that a line drops, in bytes.
const LONGEST_WORD: usize = 64;

/// The longest text and the longest query, in bytes.
const LONGEST_TEXT: usize = 4096;

/// The greatest number of a planned fault.
const MOST_PLANNED: u32 = 1_000_000;

/// A command that is read without memory, where its words are in their ranges.
fn read_plain(nodes: u8, plain: Plain, words: Words<'_>) -> Option<LineCommand>
    ensures { result
        ≡ plain_command nodes plain
        words.entry.first.now words.entry.second.now words.entry.third.now }
{
    Some(match plain {
        Plain::Publish => LineCommand::Publish,
        Plain::Settle => LineCommand::Settle,
        Plain::Copy => LineCommand::Copy(node(nodes, words.first)?),
        Plain::Commit => LineCommand::Commit(node(nodes, words.first)?),
        Plain::Reopen => LineCommand::Reopen(node(nodes, words.first)?),
        Plain::Files => LineCommand::Files(node(nodes, words.first)?),
        Plain::Close => LineCommand::Close(ticket(words.first)?),
        Plain::Merge => LineCommand::Merge(number_u32(2, 16, words.first)?),
        Plain::Drain => LineCommand::Drain(number_u32(1, 1000, words.first)?),
        Plain::Open => LineCommand::Open(node(nodes, words.first)?, ticket(words.second)?),
        Plain::Crash => LineCommand::Crash(node(nodes, words.first)?, number_u64(words.second)?),
        Plain::Promote => LineCommand::Promote(node(nodes, words.first)?, force(words.second)?),
    })
}

/// A planned fault, where its words are in their ranges.
fn read_plan(kind: FaultKind, number: &[u8], at: &[u8]) -> Option<FaultPlan>
    ensures { result ≡ plan_of kind number.now at.now }
{
    let number = number_u32(1, MOST_PLANNED, number)?;
    Some(match kind {
        FaultKind::Link => FaultPlan::Link(number),
        FaultKind::Damage => FaultPlan::Damage(number, number_u32(0, u32::MAX, at)?),
        FaultKind::Disk => FaultPlan::Disk(number),
        FaultKind::Stop => FaultPlan::Stop(number),
    })
}

/// The command that plans a fault, where its words are in their ranges.
fn read_fault(nodes: u8, kind: FaultKind, words: Words<'_>) -> Option<LineCommand>
    ensures { result
        ≡ fault_command nodes kind
        words.entry.first.now words.entry.second.now words.entry.third.now }
{
    let node = node(nodes, words.first)?;
    Some(LineCommand::Fault(node, read_plan(kind, words.second, words.third)?))
}

/// The query that a line has behind its first three words.
fn read_query(alloc: Global, line: &[u8]) -> Result<Query, Refusal>
    ensures { IsQueryRead line.now result }
{
    let text = rest_behind(line);
    if text.len() > LONGEST_TEXT {
        return Err(Refusal::Cause(LineFault::Range));
    }
    match parse_query(alloc, text) {
        Ok(query) => Ok(query),
        Err(QueryFault::Memory) => Err(Refusal::Memory),
        Err(fault) => Err(Refusal::Cause(LineFault::Query(fault))),
    }
}

/// The document that a line puts whose key is this word.
fn read_doc(alloc: Global, line: &[u8], key: &[u8]) -> Result<Doc, Refusal>
    requires printable { IsTrue (is_printable_lem line.now) }
    requires word { IsTrue (is_key_word key.now) }
    ensures { IsDocRead line.now key.now result }
{
    let text = rest_behind(line);
    if key.len() > LONGEST_KEY || text.len() > LONGEST_TEXT {
        return Err(Refusal::Cause(LineFault::Range));
    }
    let key = Key::new(alloc, key)?;
    let text = Text::new(alloc, text)?;
    Ok(Doc { key, text })
}

/// The key that a word is.
fn read_key(alloc: Global, word: &[u8]) -> Result<Key, Refusal>
    requires word { IsTrue (is_key_word word.now) }
    ensures { IsKeyRead word.now result }
{
    if word.len() > LONGEST_KEY {
        return Err(Refusal::Cause(LineFault::Range));
    }
    Ok(Key::new(alloc, word)?)
}

fn is_letter_or_digit(byte: u8) -> bool
    ensures { result ≡ is_alphanumeric byte }
{
    byte.is_ascii_alphanumeric()
}

fn are_letters(word: &[u8]) -> bool
    ensures { result ≡ list_all is_alphanumeric word.now }
{
    word.iter().all(|b| is_letter_or_digit(*b))
}

/// Whether a word has letters and digits alone, and is short enough to be dropped.
fn is_letters(word: &[u8]) -> bool
    ensures { result ≡ is_kind 0 letters word.now }
{
    matches!(word.len(), 1..=LONGEST_WORD) && are_letters(word)
}

/// The word that a line drops, where it is written so.
fn read_drop(alloc: Global, written: &[u8]) -> Result<Word, Refusal>
    ensures { IsDropRead written.now result }
{
    if !is_letters(written) {
        return Err(Refusal::Cause(LineFault::Range));
    }
    match words(alloc, written)?.pop() {
        Some(word) => Ok(word),
        None => unreachable!(),
    }
}

/// The search at the node of this word.
fn read_search(alloc: Global, nodes: u8, line: &[u8], word: &[u8]) -> Result<LineCommand, Refusal>
    ensures { IsSearchRead nodes line.now word.now result }
{
    let Some(node) = node(nodes, word) else {
        return Err(Refusal::Cause(LineFault::Range));
    };
    Ok(LineCommand::Search(node, read_query(alloc, line)?))
}

/// The search at the point of the ticket of this word.
fn read_ask(alloc: Global, line: &[u8], word: &[u8]) -> Result<LineCommand, Refusal>
    ensures { IsAskRead line.now word.now result }
{
    let Some(ticket) = ticket(word) else {
        return Err(Refusal::Cause(LineFault::Range));
    };
    Ok(LineCommand::Ask(ticket, read_query(alloc, line)?))
}

/// The command, where its words are in their ranges.
fn in_range(read: Option<LineCommand>) -> Result<LineCommand, Refusal>
    ensures { result ≡ in_range_lem read }
{
    match read {
        Some(command) => Ok(command),
        None => Err(Refusal::Cause(LineFault::Range)),
    }
}

/// The command of this name, with these words behind the name, of a line.
pub fn read_command(
    alloc: Global,
    nodes: u8,
    name: Name,
    line: &[u8],
    rest: &[u8],
) -> Result<LineCommand, Refusal>
    requires printable { IsTrue (is_printable_lem line.now) }
    requires front { drop 1 (words_in line.now) ≡ front_of name ++ words_in rest.now }
    requires counted { is_too_few_or_many (shape_of name).tail (length (shape_of name).words)
        (length (words_in rest.now)) ≡ false }
    ensures { IsCommandRead nodes name line.now (words_in rest.now) result }
{
    let words = first_words(rest);
    match name {
        Name::Put => Ok(LineCommand::Put(read_doc(alloc, line, words.first)?)),
        Name::Delete => Ok(LineCommand::Delete(read_key(alloc, words.first)?)),
        Name::Drop => Ok(LineCommand::Drop(read_drop(alloc, words.first)?)),
        Name::Search => read_search(alloc, nodes, line, words.first),
        Name::Ask => read_ask(alloc, line, words.first),
        Name::Plain(plain) => in_range(read_plain(nodes, plain, words)),
        Name::Fault(kind) => in_range(read_fault(nodes, kind, words)),
    }
}
