//! What the lanes do with one document after the other, and what is searched behind them.

ghost use Rattle.std.specs.Prelude.{◌≡◌, ◌≤◌, ◌<◌, ◌+◌, ◌-◌, ◌^◌, ◌++◌, ◌∷◌, [], length, codes, IfOk, OnOk, IsTrue};
ghost use Rattle.std.specs.Fmt.{decimal};
ghost use Rattle.nrt_base.specs.Bytes.{is_word};
ghost use Rattle.load_script.specs.Generated.{load_lane, load_key, load_text, load_commands, load_queries, last_commands, lines_numbered, AddsLines, at_multiple};

use crate::lines::{push_at_multiple, push_line};
use documents::Query;
use nrt_base::{Doc, Key, List, NoMemory, NodeNo, Text, Word};
use script_serving::{Line, LineCommand};
use std::alloc::Global;

/// Puts a number in decimal digits at the end.
pub fn push_number(alloc: Global, out: &mut Vec<u8>, number: u32) -> Result<(), NoMemory>
    ensures { OnOk result (out.new.items ≡ out.old.items ++ decimal number) }
{
    out.extend_from_slice(format!(in alloc; "{number}")?.as_bytes())
}

// The bytes of the key of the i-th document.
fn key_bytes(alloc: Global, i: u32) -> Result<Vec<u8>, NoMemory>
    ensures { IfOk result (λ bytes. bytes.items ≡ load_key i) }
{
    let mut bytes = Vec::new(alloc);
    bytes.extend_from_slice(b"k")?;
    push_number(alloc, &mut bytes, i)?;
    Ok(bytes)
}

// Its key.
#[tactic(auto, using(crate::proofs::LoadLines::key_is))]
fn key_of(alloc: Global, i: u32) -> Result<Key, NoMemory>
    ensures { IfOk result (λ key. key ≡ load_key i) }
{
    let bytes = key_bytes(alloc, i)?;
    Key::new(alloc, bytes.as_slice())
}

// The bytes of its text.
fn text_bytes(alloc: Global, i: u32) -> Result<Vec<u8>, NoMemory>
    ensures { IfOk result (λ bytes. bytes.items ≡ load_text i) }
{
    let mut bytes = Vec::new(alloc);
    bytes.extend_from_slice(b"doc a")?;
    push_number(alloc, &mut bytes, i % 7)?;
    bytes.extend_from_slice(b" b")?;
    push_number(alloc, &mut bytes, i % 11)?;
    Ok(bytes)
}

// Its text.
#[tactic(auto, using(crate::proofs::LoadLines::text_is))]
fn text_of(alloc: Global, i: u32) -> Result<Text, NoMemory>
    ensures { IfOk result (λ text. text ≡ load_text i) }
{
    let bytes = text_bytes(alloc, i)?;
    Text::new(alloc, bytes.as_slice())
}

// Puts the document.
fn push_put(alloc: Global, lines: &mut Vec<Line>, lane: u8, i: u32) -> Result<(), NoMemory>
    requires { 3 + length lines.old.items < 2 ^ 32 }
    ensures adds { OnOk result (AddsLines 3 lane
        (LineCommand.Put (record { key = load_key i; text = load_text i }) ∷ []) lines.old.items lines.new.items) }
    ensures count { OnOk result (length lines.new.items ≡ length lines.old.items + 1) }
{
    let key = key_of(alloc, i)?;
    let text = text_of(alloc, i)?;
    push_line(lines, 3, lane, LineCommand::Put(Doc { key, text }))
}

// Deletes the one four before, where i is a multiple of 10.
fn push_delete(alloc: Global, lines: &mut Vec<Line>, lane: u8, i: u32) -> Result<(), NoMemory>
    requires some { 1 ≤ i }
    requires few { 3 + length lines.old.items < 2 ^ 32 }
    ensures adds { OnOk result (AddsLines 3 lane
        (at_multiple 10 i (LineCommand.Delete (load_key (i - 4)))) lines.old.items lines.new.items) }
    ensures count { OnOk result (length lines.new.items ≤ length lines.old.items + 1) }
{
    if i % 10 == 0 {
        let key = key_of(alloc, i - 4)?;
        push_line(lines, 3, lane, LineCommand::Delete(key))?;
    }
    Ok(())
}

/// The lines of the i-th document.
pub fn push_turn(alloc: Global, lines: &mut Vec<Line>, i: u32) -> Result<(), NoMemory>
    requires some { 1 ≤ i }
    requires few { length lines.old.items + 8 < 2 ^ 32 }
    ensures adds { OnOk result (AddsLines 3 (load_lane i) (load_commands i)
        lines.old.items lines.new.items) }
    ensures count { OnOk result (length lines.new.items ≤ length lines.old.items + 5) }
{
    let lane = 1 + (i % 4) as u8;
    push_put(alloc, lines, lane, i)?;
    push_delete(alloc, lines, lane, i)?;
    push_at_multiple(lines, lane, i, 50, LineCommand::Publish)?;
    push_at_multiple(lines, lane, i, 100, LineCommand::Copy(NodeNo(2)))?;
    push_at_multiple(lines, lane, i, 200, LineCommand::Merge(4))?;
    Ok(())
}

// A word.
fn word(alloc: Global, bytes: &[u8]) -> Result<Word, NoMemory>
    requires { IsTrue (is_word bytes.now) }
    ensures { IfOk result (λ word. word ≡ bytes.now) }
{
    Word::new(alloc, bytes)
}

// One word.
fn one_word(alloc: Global, bytes: &[u8]) -> Result<Query, NoMemory>
    requires { IsTrue (is_word bytes.now) }
    ensures { IfOk result (λ query. query ≡ Query.Word bytes.now) }
{
    let word = word(alloc, bytes)?;
    Ok(Query::Word(word))
}

// Both words, somewhere.
fn both(alloc: Global) -> Result<Query, NoMemory>
    ensures { IfOk result (λ query. query
        ≡ Query.All (Query.Word (codes "a0") ∷ Query.Word (codes "b0") ∷ [])) }
{
    let mut parts = Vec::new(alloc);
    parts.push(Query::Word(word(alloc, b"a0")?))?;
    parts.push(Query::Word(word(alloc, b"b0")?))?;
    Ok(Query::All(List::from_vec(parts)))
}

// The words, one after the other.
fn phrase(alloc: Global) -> Result<Query, NoMemory>
    ensures { IfOk result (λ query. query ≡ Query.Phrase (codes "a1" ∷ codes "b1" ∷ [])) }
{
    let mut words = Vec::new(alloc);
    words.push(word(alloc, b"a1")?)?;
    words.push(word(alloc, b"b1")?)?;
    Ok(Query::Phrase(List::from_vec(words)))
}

/// The lines behind the join, of which the first has this number.
pub fn last_lines(alloc: Global, first: u32) -> Result<Vec<Line>, NoMemory>
    requires { first + 8 < 2 ^ 32 }
    ensures { IfOk result (λ lines. lines.items ≡ lines_numbered first 1 last_commands) }
{
    let node = NodeNo(3);
    let documents = one_word(alloc, b"doc")?;
    let one = one_word(alloc, b"a0")?;
    let two = both(alloc)?;
    let three = phrase(alloc)?;
    let mut lines = Vec::new(alloc);
    push_line(&mut lines, first, 1, LineCommand::Publish)?;
    push_line(&mut lines, first, 1, LineCommand::Settle)?;
    push_line(&mut lines, first, 1, LineCommand::Search(node, documents))?;
    push_line(&mut lines, first, 1, LineCommand::Search(node, one))?;
    push_line(&mut lines, first, 1, LineCommand::Search(node, two))?;
    push_line(&mut lines, first, 1, LineCommand::Search(node, three))?;
    Ok(lines)
}
