//! The rows of a segment that a query asks for, in windows of 64 rows.

ghost use Rattle.std.specs.Prelude.{◌≡◌, ◌+◌, ◌<◌, ◌≤◌, ℕ, false, IfSome, IfNone};
ghost use Rattle.query_eval.specs.Cursor.{answers, rank_in, parted};
ghost use Rattle.query_eval.specs.Phrases.{phrase_in, phrase_times};
ghost use Rattle.query_eval.specs.Rows.{has_row_at, times_at};
ghost use Rattle.query_eval.specs.Windows.{IsMarked, IsWindowStart, StaysFrom, HasBound, HasMarked, both, either, others, sum_of, least_row, greater_row};

use crate::phrase::{PhraseWord, align};
use crate::window::{mark_phrase, mark_word};
use crate::word::WordRows;
use std::mem;

/// The rows of a segment that a query asks for, gone through in ascending order, and how often its words and phrases stand in
/// them.
#[derive(Drop)]
pub enum Cursor<'a> {
    Nothing,
    Every,
    /// The rows that have a word.
    Word(WordRows<'a>),
    /// The rows in which the words stand together.
    Phrase(Vec<PhraseWord<'a>>),
    /// The rows that both parts answer.
    Both {
        first: Box<Cursor<'a>>,
        second: Box<Cursor<'a>>,
    },
    /// The rows that either part answers.
    Either {
        first: Box<Cursor<'a>>,
        second: Box<Cursor<'a>>,
    },
    /// The rows that the part does not answer. What stands in it is not counted.
    Rest {
        part: Box<Cursor<'a>>,
    },
}

// The lesser of two rows, or the one that there is.
fn least_of(a: Option<u32>, b: Option<u32>) -> Option<u32>
    ensures { result ≡ least_row a b }
{
    match a {
        Some(a) => match b {
            Some(b) => Some(a.min(b)),
            None => Some(a),
        },
        None => b,
    }
}

// The greater of two rows, where there are both.
fn greater_of(a: Option<u32>, b: Option<u32>) -> Option<u32>
    ensures { result ≡ greater_row a b }
{
    match a {
        Some(a) => match b {
            Some(b) => Some(a.max(b)),
            None => None,
        },
        None => None,
    }
}

// Moves the rows of a word to the first from this one on.
fn bound_of_word(rows: &mut WordRows<'_>, row: u32) -> Option<u32>
    ensures { HasBound (has_row_at rows.old) (has_row_at rows.new)
        (times_at rows.old) (times_at rows.new) row result }
{
    rows.next_from(row)
}

// Moves the words of a phrase to the first row from this one on that all of them have.
fn bound_of_phrase(words: &mut [PhraseWord<'_>], row: u32) -> Option<u32>
    ensures { HasBound (phrase_in words.old) (phrase_in words.new)
        (phrase_times words.old) (phrase_times words.new) row result }
{
    align(words, row)
}

// The bound of the rows that both answer.
#[cycle(seeking)]
fn bound_of_both(first: &mut Cursor<'_>, second: &mut Cursor<'_>, row: u32) -> Option<u32>
    ensures bound { HasBound (both (answers first.old) (answers second.old))
        (both (answers first.new) (answers second.new))
        (sum_of (rank_in first.old) (rank_in second.old))
        (sum_of (rank_in first.new) (rank_in second.new)) row result }
    ensures same_first { parted first.new ≡ parted first.old }
    ensures same_second { parted second.new ≡ parted second.old }
{
    let a = bound_of(first, row);
    let b = bound_of(second, row);
    greater_of(a, b)
}

// The bound of the rows that either answers.
#[cycle(seeking)]
fn bound_of_either(first: &mut Cursor<'_>, second: &mut Cursor<'_>, row: u32) -> Option<u32>
    ensures bound { HasBound (either (answers first.old) (answers second.old))
        (either (answers first.new) (answers second.new))
        (sum_of (rank_in first.old) (rank_in second.old))
        (sum_of (rank_in first.new) (rank_in second.new)) row result }
    ensures same_first { parted first.new ≡ parted first.old }
    ensures same_second { parted second.new ≡ parted second.old }
{
    let a = bound_of(first, row);
    let b = bound_of(second, row);
    least_of(a, b)
}

// A row from this one on, such that none between is answered. Rows below this one are passed.
#[cycle(seeking)]
fn bound_of(cursor: &mut Cursor<'_>, row: u32) -> Option<u32>
    ensures bound { HasBound (answers cursor.old) (answers cursor.new)
        (rank_in cursor.old) (rank_in cursor.new) row result }
    ensures same_parts { parted cursor.new ≡ parted cursor.old }
{
    // The value is taken out and put back, since no proof follows several `&mut` into a variant that holds a reference.
    match mem::replace(cursor, Cursor::Nothing) {
        Cursor::Nothing => None,
        Cursor::Every => {
            *cursor = Cursor::Every;
            Some(row)
        }
        Cursor::Word(mut rows) => {
            let bound = bound_of_word(&mut rows, row);
            *cursor = Cursor::Word(rows);
            bound
        }
        Cursor::Phrase(mut words) => {
            let bound = bound_of_phrase(words.as_mut_slice(), row);
            *cursor = Cursor::Phrase(words);
            bound
        }
        Cursor::Both {
            mut first,
            mut second,
        } => {
            let bound = bound_of_both(&mut first, &mut second, row);
            *cursor = Cursor::Both { first, second };
            bound
        }
        Cursor::Either {
            mut first,
            mut second,
        } => {
            let bound = bound_of_either(&mut first, &mut second, row);
            *cursor = Cursor::Either { first, second };
            bound
        }
        Cursor::Rest { part } => {
            *cursor = Cursor::Rest { part };
            Some(row)
        }
    }
}

// Marks the rows that both answer.
#[cycle(marking)]
fn mark_both(
    first: &mut Cursor<'_>,
    second: &mut Cursor<'_>,
    start: u32,
    times: &mut [u32; 64],
) -> u64
    ensures marks { HasMarked (both (answers first.old) (answers second.old))
        (both (answers first.new) (answers second.new))
        (sum_of (rank_in first.old) (rank_in second.old))
        (sum_of (rank_in first.new) (rank_in second.new)) start result times.old times.new }
    ensures same_first { parted first.new ≡ parted first.old }
    ensures same_second { parted second.new ≡ parted second.old }
{
    let a = mark(first, start, times);
    let b = mark(second, start, times);
    a & b
}

// Marks the rows that either answers.
#[cycle(marking)]
fn mark_either(
    first: &mut Cursor<'_>,
    second: &mut Cursor<'_>,
    start: u32,
    times: &mut [u32; 64],
) -> u64
    ensures marks { HasMarked (either (answers first.old) (answers second.old))
        (either (answers first.new) (answers second.new))
        (sum_of (rank_in first.old) (rank_in second.old))
        (sum_of (rank_in first.new) (rank_in second.new)) start result times.old times.new }
    ensures same_first { parted first.new ≡ parted first.old }
    ensures same_second { parted second.new ≡ parted second.old }
{
    let a = mark(first, start, times);
    let b = mark(second, start, times);
    a | b
}

// Marks the rows that a part does not answer.
#[cycle(marking)]
fn mark_rest(part: &mut Cursor<'_>, start: u32) -> u64
    ensures marks { IsMarked (others (answers part.old)) start result }
    ensures rows { StaysFrom (start + 64) (others (answers part.old)) (others (answers part.new)) }
    ensures same_parts { parted part.new ≡ parted part.old }
{
    let mut unused = [0; 64];
    let marks = mark(part, start, &mut unused);
    !marks
}

/// Marks the rows of the window that begins at a row, and passes them. How often words and phrases stand in each is added.
#[cycle(marking)]
pub fn mark(cursor: &mut Cursor<'_>, start: u32, times: &mut [u32; 64]) -> u64
    ensures marks { HasMarked (answers cursor.old) (answers cursor.new)
        (rank_in cursor.old) (rank_in cursor.new) start result times.old times.new }
    ensures same_parts { parted cursor.new ≡ parted cursor.old }
{
    match mem::replace(cursor, Cursor::Nothing) {
        Cursor::Nothing => 0,
        Cursor::Every => {
            *cursor = Cursor::Every;
            u64::MAX
        }
        Cursor::Word(mut rows) => {
            let marks = mark_word(&mut rows, start, times);
            *cursor = Cursor::Word(rows);
            marks
        }
        Cursor::Phrase(mut words) => {
            let marks = mark_phrase(words.as_mut_slice(), start, times);
            *cursor = Cursor::Phrase(words);
            marks
        }
        Cursor::Both {
            mut first,
            mut second,
        } => {
            let marks = mark_both(&mut first, &mut second, start, times);
            *cursor = Cursor::Both { first, second };
            marks
        }
        Cursor::Either {
            mut first,
            mut second,
        } => {
            let marks = mark_either(&mut first, &mut second, start, times);
            *cursor = Cursor::Either { first, second };
            marks
        }
        Cursor::Rest { mut part } => {
            let marks = mark_rest(&mut part, start);
            *cursor = Cursor::Rest { part };
            marks
        }
    }
}

/// The first row from this one on and below `rows` that may be answered. Rows below it are passed.
pub fn next_start(cursor: &mut Cursor<'_>, row: u32, rows: u32) -> Option<u32>
    ensures start { IfSome result (IsWindowStart (answers cursor.old) row rows) }
    ensures none { IfNone result ((x : ℕ) → row ≤ x → x < rows → answers cursor.old x ≡ false) }
    ensures answers { IfSome result (λ start.
        StaysFrom start (answers cursor.old) (answers cursor.new)) }
    ensures ranks { IfSome result (λ start.
        StaysFrom start (rank_in cursor.old) (rank_in cursor.new)) }
{
    let mut least = row;
    'bounds: while least < rows {
        let bound = bound_of(cursor, least)?;
        if bound == least {
            return Some(least);
        }
        least = bound;
    }
    None
}
