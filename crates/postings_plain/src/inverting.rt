//! The rows of each term, gathered row by row.

ghost use Rattle.std.specs.Prelude.{◌++◌, ◌∷◌, ◌<◌, ◌^◌, [], length, OnOk, IfOk};
ghost use Rattle.postings_plain.specs.Gathering.{Gathers, AreFew, found_hits, SetsHits, AddsPlace, GathersRow};

use crate::hits::TermHits;
use crate::row::TermRow;
use crate::term::Term;
use nrt_base::{Key, NoMemory, Word};
use std::alloc::{AllocError, Global};
use std::collections::BTreeMap;

// The most rows, and the most words of a row.
const MOST: usize = 0xffff_ffff;

/// The rows of each term, in the order of the file.
pub type Found<'a> = BTreeMap<Term<'a>, TermHits>;

// Adds a row to the hits of its key.
fn add_key<'a>(alloc: Global, found: &mut Found<'a>, row: u32, key: &'a Key) -> Result<(), NoMemory>
    ensures { OnOk result (SetsHits found.old found.new (0 ∷ key.now)
        (found_hits found.old (0 ∷ key.now) ++ (row, []) ∷ [])) }
{
    let hits = found
        .entry(Term::of_key(key))?
        .or_insert(TermHits::new(alloc));
    hits.push_row(alloc, row)?;
    Ok(())
}

// Adds a place of a word in a row to the hits of the word.
fn add_word<'a>(
    alloc: Global,
    found: &mut Found<'a>,
    row: u32,
    place: u32,
    word: &'a Word,
) -> Result<(), NoMemory>
    ensures { OnOk result (AddsPlace found.old found.new (1 ∷ word.now) row place) }
{
    let hits = found
        .entry(Term::of_word(word)?)?
        .or_insert(TermHits::new(alloc));
    hits.push_place(alloc, row, place)?;
    Ok(())
}

// Adds a row with this number, which is that of the rows before it.
fn add_row<'a>(
    alloc: Global,
    found: &mut Found<'a>,
    number: u32,
    row: &'a TermRow,
) -> Result<(), NoMemory>
    ensures gathers { OnOk result (GathersRow number row.now found.old found.new) }
    ensures few { OnOk result (length row.now.words < 2 ^ 32) }
{
    let words = row.words.as_slice();
    if words.len() > MOST {
        return Err(AllocError);
    }
    add_key(alloc, found, number, &row.key)?;
    for (place, word) in words.iter().enumerate() {
        add_word(alloc, found, number, place as u32, word)?;
    }
    Ok(())
}

/// The rows of each term of these rows. 2^32 rows, or words of a row, or bytes of a word, or more are out of memory.
pub fn inverted<'a>(alloc: Global, rows: &'a [TermRow]) -> Result<Found<'a>, NoMemory>
    ensures gathers { IfOk result (λ found. Gathers found.entries rows.now) }
    ensures few { OnOk result (AreFew rows.now) }
{
    if rows.len() > MOST {
        return Err(AllocError);
    }
    let mut found = Found::new(alloc);
    for (number, row) in rows.iter().enumerate() {
        add_row(alloc, &mut found, number as u32, row)?;
    }
    Ok(found)
}
