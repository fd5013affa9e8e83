//! The words of a phrase, moved together and asked whether they stand one behind the other.

ghost use Rattle.std.specs.Prelude.{ℕ, ◌≡◌, ◌+◌, ◌<◌, ◌≤◌, ◌^◌, false, length, map, IsTrue, IfSome, IfNone};
ghost use Rattle.std.specs.List.{All};
ghost use Rattle.postings_plain.specs.Postings.{row_of};
ghost use Rattle.postings_plain.specs.Rows.{from_row, first_row, first_positions, IsLeastFrom};
ghost use Rattle.query_eval.specs.Places.{has_place, from_place};
ghost use Rattle.query_eval.specs.Phrases.{follow as follow_lem, times_together, IsPass, AreAligned, AreFewer};

use postings_plain::{Positions, Postings};
use std::marker::Model;

// A reader of the places of a word in a row, seen as those that it has not passed: the next one, and those after it.
#[derive(Drop)]
struct Places<'a> {
    next: Option<u32>,
    rest: Positions<'a>,
}

impl<'a> Model for Places<'a> {
    ghost use Rattle.std.specs.Prelude.{List, ℕ};
    ghost use Rattle.std.specs.Ordering.{nat_cmp};
    ghost use Rattle.std.specs.List.Sorted.{IsStrictlySortedBy};
    ghost use Rattle.query_eval.specs.Places.{all_left};

    ghost Value = { List ℕ };

    ghost view = { λ a. all_left a.next a.rest };

    ghost invariant = { λ a. IsStrictlySortedBy nat_cmp (all_left a.next a.rest) };
}

impl<'a> Places<'a> {
    // The places in the row where the hits stand.
    fn of(hits: &Postings<'a>) -> Places<'a>
        ensures { result ≡ first_positions hits.now }
    {
        let mut rest = hits.positions();
        let next = rest.next();
        Places { next, rest }
    }

    // Passes the places below this one, and says whether it is there.
    fn has(&mut self, place: u64) -> bool
        ensures answer { result ≡ has_place self.old place }
        ensures left { self.new ≡ from_place place self.old }
    {
        while let Some(next) = self.next {
            if u64::from(next) >= place {
                return u64::from(next) == place;
            }
            self.next = self.rest.next();
        }
        false
    }
}

/// A word of a phrase, seen as its hits that were not passed. Its places in the row where it stands are read forward, and
/// only once they are asked for.
#[derive(Drop)]
pub struct PhraseWord<'a> {
    hits: Postings<'a>,
    places: Places<'a>,
    // Whether the reader is of the row where the word stands. It has then passed no place from the least one on.
    is_here: bool,
    least: u64,
}

impl<'a> Model for PhraseWord<'a> {
    ghost use Rattle.std.specs.Prelude.{List, IsTrue};
    ghost use Rattle.postings_plain.specs.Postings.{Hit};
    ghost use Rattle.postings_plain.specs.Rows.{first_positions};
    ghost use Rattle.query_eval.specs.Places.{AreSameFrom};

    ghost Value = { List Hit };

    ghost view = { λ w. w.hits };

    ghost invariant = { λ w. IsTrue w.is_here → AreSameFrom w.least w.places (first_positions w.hits) };
}

impl<'a> PhraseWord<'a> {
    pub fn new(hits: Postings<'a>) -> PhraseWord<'a>
        ensures { result ≡ hits.entry }
    {
        let places = Places::of(&hits);
        PhraseWord {
            hits,
            places,
            is_here: true,
            least: 0,
        }
    }

    // Moves to the first row at or above this one, and says which it is.
    fn next_from(&mut self, row: u32) -> Option<u32>
        ensures left { self.new ≡ from_row row self.old }
        ensures answer { result ≡ first_row (from_row row self.old) }
        ensures found { IfSome result (IsLeastFrom row self.old) }
        ensures none { IfNone result (All (λ h. row_of h < row) self.old) }
    {
        self.is_here = false;
        self.hits.next_from(row)
    }

    // The places in the row where the word stands.
    fn positions(&self) -> Positions<'a>
        ensures value { result ≡ first_positions self.now }
        ensures few { length result < 2 ^ 32 }
    {
        self.hits.positions()
    }

    // Whether the word has this place in the row where it stands. Asked for ascending places, the reader goes through the row
    // once; a lower place has it begin again.
    fn has(&mut self, place: u64) -> bool
        ensures answer { result ≡ has_place (first_positions self.old) place }
        ensures same { self.new ≡ self.old }
    {
        if is_past(self.is_here, self.least, place) {
            self.places = Places::of(&self.hits);
            self.is_here = true;
        }
        self.least = place;
        self.places.has(place)
    }
}

// Whether a reader is to begin again for this place: it is of another row, or may have passed the place.
fn is_past(is_here: bool, least: u64, place: u64) -> bool
    ensures here { result ≡ false → IsTrue is_here }
    ensures least { result ≡ false → least ≤ place }
{
    !is_here || place < least
}

// Whether the words have this place and those that follow it, one each, in the row where they stand.
fn follow(words: &mut [PhraseWord<'_>], place: u64) -> bool
    requires { place ≤ 2 ^ 32 }
    ensures answer { result ≡ follow_lem place (map first_positions words.old) }
    ensures same { words.new ≡ words.old }
{
    for (i, word) in words.iter_mut().enumerate() {
        if !word.has(place + i as u64) {
            return false;
        }
    }
    true
}

/// How often the words stand together in the row where they stand. Each has a reader of its own, which goes through the row once.
pub fn count_here(words: &mut [PhraseWord<'_>]) -> u32
    ensures times { result ≡ times_together (map first_positions words.old) }
    ensures same { words.new ≡ words.old }
{
    let Some(first) = words.first() else {
        return 0;
    };
    let mut times = 0;
    for place in first.positions() {
        if follow(words, u64::from(place)) {
            times += 1;
        }
    }
    times
}

// Moves each word to the row that the one before it found.
fn pass(words: &mut [PhraseWord<'_>], row: u32) -> Option<u32>
    ensures found { IsPass words.old words.new row result }
    ensures fewer { AreFewer words.old words.new }
{
    let mut at = row;
    for word in words.iter_mut() {
        at = word.next_from(at)?;
    }
    Some(at)
}

/// Moves the words to the first row at or above this one that all of them have.
pub fn align(words: &mut [PhraseWord<'_>], row: u32) -> Option<u32>
    ensures found { AreAligned words.old words.new row result }
    ensures fewer { AreFewer words.old words.new }
{
    let mut least = row;
    loop {
        let found = pass(words, least)?;
        if found == least {
            return Some(found);
        }
        least = found;
    }
}
