//! The rows of a cut's puts, and what the cut makes dead.

ghost use Rattle.std.specs.Prelude.{◌≡◌, ◌++◌, [], IfOk, OnOk};
ghost use Rattle.std.specs.List.{All, list_any};
ghost use Rattle.std.specs.BTreeSet.{contains};
ghost use Rattle.documents.specs.Documents.{key_cmp};
ghost use Rattle.documents.specs.Words.{words_of};
ghost use Rattle.seg_merge.specs.Given.{IsPrepared, docs_of};
ghost use Rattle.segment_steps.specs.Cut.{with_put, puts_of};
ghost use Rattle.segment_steps.specs.Marks.{is_gone, IsMarkedBefore, AreMarksOf};

use documents::{Op, words};
use nrt_base::{Doc, Key, NoMemory, Share, Text, Word};
use seg_merge::Prepared;
use std::alloc::Global;
use std::collections::BTreeSet;

/// What a cut takes away: the documents of these keys, and those whose text has one of these words.
#[derive(Drop)]
pub struct Gone {
    pub keys: BTreeSet<Key>,
    pub words: BTreeSet<Word>,
}

/// What a cut makes dead: its own rows of which a later operation takes the document away, and rows of older segments.
#[derive(Drop)]
pub struct Marks {
    pub dead: Vec<bool>,
    pub gone: Gone,
}

// Whether one of these words is among those.
fn is_any_among(among: &BTreeSet<Word>, found: &[Word]) -> bool
    ensures { result ≡ list_any (contains key_cmp among.now) found.now }
{
    found.iter().any(|word| among.contains(word))
}

// Whether a text has one of the words. Its words are looked for only where there are some to find.
fn has_word_among(alloc: Global, among: &BTreeSet<Word>, text: &Text) -> Result<bool, NoMemory>
    ensures { IfOk result (λ has. has ≡ list_any (contains key_cmp among.now) (words_of text.now)) }
{
    if among.is_empty() {
        return Ok(false);
    }
    let found = words(alloc, text.as_slice())?;
    Ok(is_any_among(among, found.as_slice()))
}

// Whether a document is gone.
fn is_doc_gone(alloc: Global, gone: &Gone, doc: &Doc) -> Result<bool, NoMemory>
    ensures { IfOk result (λ is. is ≡ is_gone gone.now doc.now) }
{
    if gone.keys.contains(&doc.key) {
        return Ok(true);
    }
    match has_word_among(alloc, &gone.words, &doc.text) {
        Ok(has) => Ok(has),
        Err(fault) => Err(fault),
    }
}

// Takes the operation before those that were gone through.
fn take_before(alloc: Global, marks: &mut Marks, op: &Op) -> Result<(), NoMemory>
    ensures { OnOk result (IsMarkedBefore op.now marks.old marks.new) }
{
    match op {
        Op::Put(doc) => {
            let is_dead = is_doc_gone(alloc, &marks.gone, doc)?;
            marks.dead.push(is_dead)?;
            marks.gone.keys.insert(doc.key.share(alloc)?)?;
        }
        Op::Delete(key) => {
            marks.gone.keys.insert(key.share(alloc)?)?;
        }
        Op::Drop(word) => {
            marks.gone.words.insert(word.share(alloc)?)?;
        }
    }
    Ok(())
}

/// The marks of a cut. It is gone through from its end.
pub fn marks_of(alloc: Global, ops: &[Op]) -> Result<Marks, NoMemory>
    ensures { IfOk result (AreMarksOf ops.now) }
{
    let mut marks = Marks {
        dead: Vec::new(alloc),
        gone: Gone {
            keys: BTreeSet::new(alloc),
            words: BTreeSet::new(alloc),
        },
    };
    let mut at = ops.len();
    while at > 0 {
        at -= 1;
        take_before(alloc, &mut marks, &ops[at])?;
    }
    marks.dead.reverse();
    Ok(marks)
}

// Puts the row of a put at the end.
fn push_row(alloc: Global, rows: &mut Vec<Prepared>, op: &Op) -> Result<(), NoMemory>
    ensures docs { OnOk result (docs_of rows.new.items ≡ docs_of rows.old.items ++ with_put op.now []) }
    ensures words { OnOk result (All IsPrepared rows.old.items → All IsPrepared rows.new.items) }
{
    match op {
        Op::Put(doc) => rows.push(Prepared::of(alloc, doc.share(alloc)?)?)?,
        Op::Delete(_) => {}
        Op::Drop(_) => {}
    }
    Ok(())
}

/// The rows of a cut's puts, in order.
pub fn rows_of(alloc: Global, ops: &[Op]) -> Result<Vec<Prepared>, NoMemory>
    ensures docs { IfOk result (λ rows. docs_of rows.items ≡ puts_of ops.now) }
    ensures words { IfOk result (λ rows. All IsPrepared rows.items) }
{
    let mut rows = Vec::new(alloc);
    for op in ops {
        push_row(alloc, &mut rows, op)?;
    }
    Ok(rows)
}
