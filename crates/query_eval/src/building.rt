//! The cursor of a query in a segment.

ghost use Rattle.std.specs.Prelude.{◌≡◌, ◌+◌, ◌&&◌, ◌||◌, ◌<◌, ℕ, length, IsTrue, IfOk};
ghost use Rattle.std.specs.List.{list_all, sum_by};
ghost use Rattle.documents.specs.Matching.{has_form};
ghost use Rattle.documents.specs.Ranking.{rank_of, times_of_phrase, times_of_word};
ghost use Rattle.documents.specs.Words.{words_of};
ghost use Rattle.seg_reader.specs.Sound.{IsSound};
ghost use Rattle.query_eval.specs.Cursor.{answers, all_answer, any_answers, rank_in, rank_of_any};
ghost use Rattle.query_eval.specs.Matching.{AnswersWord, AnswersPhrase, AnswersAll, AnswersAny, AnswersQuery, RanksTest};

use crate::cursor::Cursor;
use crate::phrase::PhraseWord;
use crate::word::WordRows;
use documents::Query;
use nrt_base::{List, NoMemory, Word};
use seg_reader::Segment;
use std::alloc::Global;

// The cursor of a word.
fn word_cursor<'a>(alloc: Global, seg: &'a Segment, word: &Word) -> Result<Cursor<'a>, NoMemory>
    requires { IsSound seg.now }
    ensures answers { IfOk result (AnswersWord seg.now.docs word.now) }
    ensures ranks { IfOk result (RanksTest seg.now.docs
        (λ doc. times_of_word word.now (words_of doc.text))) }
{
    match seg.word(word.as_slice()) {
        Some(hits) => Ok(Cursor::Word(WordRows::new(alloc, hits)?)),
        None => Ok(Cursor::Nothing),
    }
}

// The cursor of a phrase. It answers nothing where the segment lacks one of its words.
fn phrase_cursor<'a>(
    alloc: Global,
    seg: &'a Segment,
    phrase: &List<Word>,
) -> Result<Cursor<'a>, NoMemory>
    requires sound { IsSound seg.now }
    requires some { 0 < length phrase.now }
    ensures answers { IfOk result (AnswersPhrase seg.now.docs phrase.now) }
    ensures ranks { IfOk result (RanksTest seg.now.docs
        (λ doc. times_of_phrase phrase.now (words_of doc.text))) }
{
    let mut words = Vec::with_capacity(alloc, phrase.as_slice().len())?;
    for word in phrase.as_slice() {
        match seg.word(word.as_slice()) {
            Some(hits) => words.push(PhraseWord::new(hits))?,
            None => return Ok(Cursor::Nothing),
        }
    }
    Ok(Cursor::Phrase(words))
}

// A cursor of what both answer; where there is none before, of what the next answers.
fn both<'a>(
    alloc: Global,
    before: Option<Cursor<'a>>,
    next: Cursor<'a>,
) -> Result<Cursor<'a>, NoMemory>
    ensures answers { IfOk result
        (λ cursor. (row : ℕ)
        → answers cursor row ≡ (all_answer before.entry row && answers next.entry row)) }
    ensures ranks { IfOk result
        (λ cursor. (row : ℕ)
        → rank_in cursor row ≡ rank_of_any before.entry row + rank_in next.entry row) }
{
    match before {
        Some(before) => Ok(Cursor::Both {
            first: Box::new(alloc, before)?,
            second: Box::new(alloc, next)?,
        }),
        None => Ok(next),
    }
}

// A cursor of what either answers; where there is none before, of what the next answers.
fn either<'a>(
    alloc: Global,
    before: Option<Cursor<'a>>,
    next: Cursor<'a>,
) -> Result<Cursor<'a>, NoMemory>
    ensures answers { IfOk result
        (λ cursor. (row : ℕ)
        → answers cursor row ≡ (any_answers before.entry row || answers next.entry row)) }
    ensures ranks { IfOk result
        (λ cursor. (row : ℕ)
        → rank_in cursor row ≡ rank_of_any before.entry row + rank_in next.entry row) }
{
    match before {
        Some(before) => Ok(Cursor::Either {
            first: Box::new(alloc, before)?,
            second: Box::new(alloc, next)?,
        }),
        None => Ok(next),
    }
}

/// The cursor of a query in a segment.
#[cycle(building)]
pub fn cursor_of<'a>(alloc: Global, seg: &'a Segment, query: &Query) -> Result<Cursor<'a>, NoMemory>
    requires sound { IsSound seg.now }
    requires form { IsTrue (has_form query.now) }
    ensures answers { IfOk result (AnswersQuery seg.now.docs query.now) }
    ensures ranks { IfOk result (RanksTest seg.now.docs
        (λ doc. rank_of query.now (words_of doc.text))) }
{
    match query {
        Query::Word(word) => word_cursor(alloc, seg, word),
        Query::Phrase(phrase) => phrase_cursor(alloc, seg, phrase),
        Query::All(parts) => cursor_of_all(alloc, seg, parts),
        Query::Any(parts) => cursor_of_any(alloc, seg, parts),
        Query::Not(part) => {
            let cursor = cursor_of(alloc, seg, part.as_ref())?;
            Ok(Cursor::Rest {
                part: Box::new(alloc, cursor)?,
            })
        }
    }
}

#[cycle(building)]
fn cursor_of_all<'a>(
    alloc: Global,
    seg: &'a Segment,
    parts: &List<Query>,
) -> Result<Cursor<'a>, NoMemory>
    requires sound { IsSound seg.now }
    requires form { IsTrue (list_all has_form parts.now) }
    ensures answers { IfOk result (AnswersAll seg.now.docs parts.now) }
    ensures ranks { IfOk result (RanksTest seg.now.docs
        (λ doc. sum_by (λ part. rank_of part (words_of doc.text)) parts.now)) }
{
    let mut all = None;
    for part in parts.as_slice() {
        let next = cursor_of(alloc, seg, part)?;
        all = Some(both(alloc, all, next)?);
    }
    Ok(all.unwrap_or(Cursor::Every))
}

#[cycle(building)]
fn cursor_of_any<'a>(
    alloc: Global,
    seg: &'a Segment,
    parts: &List<Query>,
) -> Result<Cursor<'a>, NoMemory>
    requires sound { IsSound seg.now }
    requires form { IsTrue (list_all has_form parts.now) }
    ensures answers { IfOk result (AnswersAny seg.now.docs parts.now) }
    ensures ranks { IfOk result (RanksTest seg.now.docs
        (λ doc. sum_by (λ part. rank_of part (words_of doc.text)) parts.now)) }
{
    let mut any = None;
    for part in parts.as_slice() {
        let next = cursor_of(alloc, seg, part)?;
        any = Some(either(alloc, any, next)?);
    }
    Ok(any.unwrap_or(Cursor::Nothing))
}
